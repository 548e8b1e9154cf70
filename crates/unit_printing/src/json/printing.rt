//! The lines of a stream.

ghost use Rattle.std.specs.Prelude.{◌≡◌, ◌≤◌, length, IsErrOf, OnOk};
ghost use Rattle.access_unit.specs.StreamUnits.{most_units};
ghost use Rattle.unit_printing.specs.StreamLines.{json_lines};
ghost use Rattle.unit_printing.specs.Said.{AreSaid, Said, SaysStream};

use crate::json::doubts::doubts_of_units;
use crate::json::folding::fold;
use crate::json::{Encoder, JsonForm, JsonLine};
use access_unit::Unit;
use console_io::{PrintFault, Sink, write_bytes};
use h264_types::pictures::AuId;
use std::alloc::Global;
use unit_outcomes::Outcome;
use unit_outcomes::doubts::Doubt;

/// Prints the line of each unit of a stream.
pub(crate) fn print_stream<J: Encoder, W: Sink>(
    alloc: Global,
    form: JsonForm<'_, J>,
    units: &[Unit],
    writer: &mut W,
) -> Result<(), PrintFault>
    requires { length units.now ≤ most_units }
    ensures ok { OnOk result (SaysStream J.says form.entry.mode units.now
        (W.contents writer.old) (W.contents writer.new)) }
    ensures refused { IsErrOf result PrintFault.Unwritten → W.refuses writer.new }
{
    let outcomes = fold(alloc, units)?;
    let positions = output_order::positions(alloc, &outcomes)?;
    let doubts = doubts_of_units(alloc, units, &outcomes)?;
    print_units(alloc, form, &outcomes, &positions, &doubts, writer)
}

/// Prints the line of each unit by its outcome and what is told of it, with ids from 1 on.
fn print_units<J: Encoder, W: Sink>(
    alloc: Global,
    form: JsonForm<'_, J>,
    outcomes: &[Outcome],
    positions: &[Option<usize>],
    doubts: &[Doubt],
    writer: &mut W,
) -> Result<(), PrintFault>
    requires positions { length positions.now ≡ length outcomes.now }
    requires doubts { length doubts.now ≡ length outcomes.now }
    requires few { length outcomes.now ≤ most_units }
    ensures ok { OnOk result (AreSaid J.says
        (json_lines form.entry.mode 1 outcomes.now positions.now doubts.now)
        (W.contents writer.old) (W.contents writer.new)) }
    ensures refused { IsErrOf result PrintFault.Unwritten → W.refuses writer.new }
{
    for (place, outcome) in outcomes.iter().enumerate() {
        let id = AuId::new(place as u32 + 1);
        let (position, doubt) = (positions[place], doubts[place]);
        let line = JsonLine::of_unit(alloc, form.mode, id, position, outcome, doubt)?;
        print_line(alloc, form.encoder, &line, writer)?;
    }
    Ok(())
}

/// Prints a line.
pub(crate) fn print_line<J: Encoder, W: Sink>(
    alloc: Global,
    encoder: &J,
    line: &JsonLine,
    writer: &mut W,
) -> Result<(), PrintFault>
    ensures ok { OnOk result (Said J.says line.now (W.contents writer.old)
        (W.contents writer.new)) }
    ensures refused { IsErrOf result PrintFault.Unwritten → W.refuses writer.new }
{
    let text = encoder.encode(alloc, line)?;
    write_bytes(writer, text.as_bytes())
}
