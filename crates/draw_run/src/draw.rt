//! `preview draw`: a stream read, planned and drawn.

ghost use Rattle.std.specs.Prelude.{◌≡◌, ◌≢◌, ℕ, List, [], IfErr, IfOk, IfSome, OnOk};
ghost use Rattle.std.specs.Io.KnownBytes.{Keeps};
ghost use Rattle.console_io.specs.Messages.{Tells};
ghost use Rattle.plan_stream.specs.Faults.{plan_fault_text};
ghost use Rattle.plan_stream.specs.Gathering.{IsFoldOfStream, IsGathered};
ghost use Rattle.plan_stream.specs.declared.fault.PlanFault.{PlanFault};
ghost use Rattle.draw_run.specs.Drawings.{EndsBy, IsDrawn, WritesDrawing};
ghost use Rattle.draw_run.specs.Folds.{IsFoldOf};

use crate::choice::Choice;
use crate::drawn::kept_units;
use crate::drawn_fold::DrawnFold;
use console_io::{Console, Ended, Sink, Status, write_bytes};
use plan_stream::{PlanFault, StreamGathering, gather, print_refusal, say_plan_fault};
use std::alloc::{AllocError, Global};
use std::io::Read;
use stream_svg::{document, lay_out};

/// Draws the chosen units of the stream that the reader gives, or prints the stream's refusal.
/// Where the reader fails or memory runs out, `console.errors` is told; the reader has this name
/// there.
pub fn draw_on<R: Read, W: Sink, E: Sink>(
    alloc: Global,
    name: &str,
    choice: Choice,
    reader: &mut R,
    console: &mut Console<W, E>,
) -> Ended
    ensures done { result.status ≡ Status.Success
        → Keeps (E.contents console.old.errors) (E.contents console.new.errors) }
    // At success the text that was read is a stream, and one document is written.
    ensures drawn { result.status ≡ Status.Success → IfSome (R.remaining reader.old) (λ text.
        WritesDrawing choice.from choice.units text (W.contents console.old.output)
        (W.contents console.new.output)) }
    // At a failure it is what the fault that is told leaves of it.
    ensures ends { result.status ≡ Status.Failure → (fault : PlanFault)
        × IfSome (R.remaining reader.old) (λ text.
        EndsBy choice.from choice.units text fault (W.refuses console.new.output)
        (W.contents console.old.output) (W.contents console.new.output))
        × Tells result.told (E.refuses console.new.errors) (E.contents console.old.errors)
        (E.contents console.new.errors) (plan_fault_text name.now fault) }
    ensures usage { result.status ≢ Status.Usage }
{
    match draw(alloc, choice, reader, &mut console.output) {
        Ok(()) => Ended::done(),
        Err(fault) => Ended::failed(say_plan_fault(fault, name, &mut console.errors)),
    }
}

/// Draws the chosen units of the stream that the reader gives, or prints its refusal.
fn draw<R: Read, W: Sink>(
    alloc: Global,
    choice: Choice,
    reader: &mut R,
    writer: &mut W,
) -> Result<(), PlanFault>
    ensures drawn { OnOk result (IfSome (R.remaining reader.old) (λ text.
        WritesDrawing choice.from choice.units text (W.contents writer.old)
        (W.contents writer.new))) }
    ensures ends { IfErr result (λ fault. IfSome (R.remaining reader.old) (λ text.
        EndsBy choice.from choice.units text fault (W.refuses writer.new)
        (W.contents writer.old) (W.contents writer.new))) }
{
    let fold = DrawnFold::new(alloc, choice)?;
    let gathering = gather(alloc, fold, reader)?;
    print_gathered(alloc, gathering, writer)
}

/// Writes what the stream came to.
fn print_gathered<W: Sink>(
    alloc: Global,
    gathering: StreamGathering<DrawnFold>,
    writer: &mut W,
) -> Result<(), PlanFault>
    ensures drawn { (first : _) (text : List ℕ) → IsGathered (IsFoldOf first) text [] gathering
        → OnOk result (WritesDrawing first.choice.from first.choice.units text
        (W.contents writer.old) (W.contents writer.new)) }
    ensures ends { (first : _) (text : List ℕ) → IsGathered (IsFoldOf first) text [] gathering
        → IfErr result (λ fault. EndsBy first.choice.from first.choice.units text fault
        (W.refuses writer.new) (W.contents writer.old) (W.contents writer.new)) }
{
    match gathering.finish() {
        Ok(fold) => match document_of(alloc, &fold) {
            Ok(document) => match write_bytes(writer, document.as_slice()) {
                Ok(()) => Ok(()),
                Err(fault) => Err(PlanFault::from(fault)),
            },
            Err(_) => Err(PlanFault::Memory),
        },
        Err(refusal) => match print_refusal(alloc, refusal, writer) {
            Ok(()) => Err(PlanFault::Refused(refusal)),
            Err(fault) => Err(PlanFault::from(fault)),
        },
    }
}

/// The document of what is kept of a stream.
fn document_of(alloc: Global, fold: &DrawnFold) -> Result<Vec<u8>, AllocError>
    ensures { (first : _) (text : List ℕ) → IsFoldOfStream (IsFoldOf first) text fold.now
        → IfOk result (λ document.
        IsDrawn first.choice.from first.choice.units text document.items) }
{
    let positions = output_order::positions(alloc, &fold.outcomes)?;
    let shown = kept_units(alloc, &fold.kept, &positions, &fold.doubts)?;
    let layout = lay_out(alloc, &shown.units)?;
    document(
        alloc,
        &layout,
        &shown.units,
        &shown.captions,
        fold.outcomes.len(),
        false,
    )
}
