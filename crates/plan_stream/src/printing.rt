//! The lines of a stream, of which what doesn't depend on positions is kept.

ghost use Rattle.std.specs.Prelude.{◌≡◌, ◌≤◌, ◌++◌, List, ℕ, length, IsErrOf, OnErr, OnOk};
ghost use Rattle.std.specs.Io.KnownBytes.{Appends};
ghost use Rattle.access_unit.specs.StreamUnits.{most_units};
ghost use Rattle.console_io.specs.Chunks.{Adds, AppendsFront, waiting_of};
ghost use Rattle.plan_stream.specs.Folds.{IsFoldOf, kept_text};
ghost use Rattle.plan_stream.specs.Streams.{numbered_from};
ghost use Rattle.plan_stream.specs.StreamText.{stream_text};
ghost use Rattle.unit_printing.specs.UnitLines.{unit_head};

use crate::plan_fold::PlanFold;
use crate::tails::Tails;
use console_io::{Chunks, PrintFault, Sink};
use h264_types::pictures::AuId;
use std::alloc::Global;
use unit_outcomes::Outcome;
use unit_printing::lines::UnitHead;

/// Prints the lines of all units that were folded.
pub(crate) fn print_all<W: Sink>(
    alloc: Global,
    fold: &PlanFold,
    writer: &mut W,
) -> Result<(), PrintFault>
    ensures ok { (done : List (List (List ℕ))) → IsFoldOf done fold.now → OnOk result
        (Appends (W.contents writer.old) (W.contents writer.new)
        (stream_text (numbered_from 1 done))) }
    ensures written { (done : List (List (List ℕ))) → IsFoldOf done fold.now →
        AppendsFront (W.contents writer.old) (W.contents writer.new)
        (stream_text (numbered_from 1 done)) }
    ensures refused { IsErrOf result PrintFault.Unwritten → W.refuses writer.new }
{
    let positions = output_order::positions(alloc, &fold.outcomes)?;
    let mut line = String::new(alloc);
    let mut chunks = Chunks::new(alloc);
    print_lines(
        &fold.outcomes,
        &positions,
        &fold.tails,
        &mut line,
        &mut chunks,
        writer,
    )?;
    chunks.pass_on(writer)
}

/// Prints the lines of the units, with ids from 1 on.
fn print_lines<W: Sink>(
    outcomes: &[Outcome],
    positions: &[Option<usize>],
    tails: &Tails,
    line: &mut String,
    chunks: &mut Chunks,
    writer: &mut W,
) -> Result<(), PrintFault>
    requires positions { length positions.now ≡ length outcomes.now }
    requires tails { length outcomes.now ≤ length tails.now }
    requires few { length tails.now ≤ most_units }
    ensures ok { OnOk result (Adds chunks.old (W.contents writer.old)
        (kept_text 1 outcomes.now positions.now tails.now) chunks.new (W.contents writer.new)) }
    ensures written { AppendsFront (W.contents writer.old) (W.contents writer.new)
        (waiting_of chunks.old ++ kept_text 1 outcomes.now positions.now tails.now) }
    ensures refused { IsErrOf result PrintFault.Unwritten → W.refuses writer.new }
{
    for (place, outcome) in outcomes.iter().enumerate() {
        let head = UnitHead {
            id: AuId::new(place as u32 + 1),
            outcome,
            position: positions[place],
        };
        print_unit(&head, tails.at(place), line, chunks, writer)?;
    }
    Ok(())
}

/// Prints the lines of a unit, of which those after its position are kept. The others are written
/// into the line first.
fn print_unit<W: Sink>(
    head: &UnitHead<'_>,
    tail: &[u8],
    line: &mut String,
    chunks: &mut Chunks,
    writer: &mut W,
) -> Result<(), PrintFault>
    ensures ok { OnOk result (Adds chunks.old (W.contents writer.old)
        (unit_head head.now ++ tail.now) chunks.new (W.contents writer.new)) }
    ensures written { OnErr result (AppendsFront (W.contents writer.old) (W.contents writer.new)
        (waiting_of chunks.old ++ (unit_head head.now ++ tail.now))) }
    ensures refused { IsErrOf result PrintFault.Unwritten → W.refuses writer.new }
{
    head.write_to(line)?;
    chunks.add(line.as_bytes())?;
    chunks.add(tail)?;
    chunks.pass_full(writer)
}
