//! `preview plan`: a stream read, planned and printed.

ghost use Rattle.std.specs.Prelude.{◌≡◌, ◌≢◌, ℕ, List, [], IfErr, IfSome, IsErrOf, OnOk};
ghost use Rattle.std.specs.Io.KnownBytes.{Appends, Keeps};
ghost use Rattle.console_io.specs.Chunks.{AppendsFront};
ghost use Rattle.console_io.specs.Messages.{Tells};
ghost use Rattle.plan_stream.specs.Faults.{plan_fault_text};
ghost use Rattle.plan_stream.specs.Folds.{IsFoldOf};
ghost use Rattle.plan_stream.specs.Gathering.{IsGathered};
ghost use Rattle.plan_stream.specs.Plans.{EndsBy, WritesPlan};
ghost use Rattle.plan_stream.specs.declared.fault.PlanFault.{PlanFault};
ghost use Rattle.unit_printing.specs.Refusals.{refusal_text};

use crate::fault::{PlanFault, say_plan_fault};
use crate::gathering::{StreamGathering, gather};
use crate::plan_fold::PlanFold;
use crate::printing::print_all;
use access_unit::Refusal;
use console_io::{Console, Ended, PrintFault, Sink, Status, write_bytes};
use std::alloc::Global;
use std::io::Read;
use unit_printing::lines::RefusalLine;

/// Prints the plan of the stream that the reader gives, or its refusal, as the console's output.
/// Where the reader fails or memory runs out, its errors are told; the reader has this name there.
pub fn plan_on<R: Read, W: Sink, E: Sink>(
    alloc: Global,
    name: &str,
    reader: &mut R,
    console: &mut Console<W, E>,
) -> Ended
    ensures done { result.status ≡ Status.Success
        → Keeps (E.contents console.old.errors) (E.contents console.new.errors) }
    // What is written at success is the plain fold of the stream that was read.
    ensures planned { result.status ≡ Status.Success → IfSome (R.remaining reader.old) (λ text.
        WritesPlan text (W.contents console.old.output) (W.contents console.new.output)) }
    // At a failure it is what the fault that is told leaves of it.
    ensures ends { result.status ≡ Status.Failure → (fault : PlanFault)
        × IfSome (R.remaining reader.old) (λ text.
        EndsBy text fault (W.refuses console.new.output) (W.contents console.old.output)
        (W.contents console.new.output))
        × Tells result.told (E.refuses console.new.errors) (E.contents console.old.errors)
        (E.contents console.new.errors) (plan_fault_text name.now fault) }
    ensures usage { result.status ≢ Status.Usage }
{
    match plan(alloc, reader, &mut console.output) {
        Ok(()) => Ended::done(),
        Err(fault) => Ended::failed(say_plan_fault(fault, name, &mut console.errors)),
    }
}

/// Prints the plan of the stream that the reader gives, or its refusal.
fn plan<R: Read, W: Sink>(alloc: Global, reader: &mut R, writer: &mut W) -> Result<(), PlanFault>
    ensures planned { OnOk result (IfSome (R.remaining reader.old) (λ text.
        WritesPlan text (W.contents writer.old) (W.contents writer.new))) }
    ensures ends { IfErr result (λ fault. IfSome (R.remaining reader.old) (λ text.
        EndsBy text fault (W.refuses writer.new) (W.contents writer.old) (W.contents writer.new))) }
{
    let fold = PlanFold::new(alloc)?;
    let gathering = gather(alloc, fold, reader)?;
    print_gathered(alloc, gathering, writer)
}

/// Prints what the stream came to.
fn print_gathered<W: Sink>(
    alloc: Global,
    gathering: StreamGathering<PlanFold>,
    writer: &mut W,
) -> Result<(), PlanFault>
    ensures planned { (text : List ℕ) → IsGathered IsFoldOf text [] gathering
        → OnOk result (WritesPlan text (W.contents writer.old) (W.contents writer.new)) }
    ensures ends { (text : List ℕ) → IsGathered IsFoldOf text [] gathering → IfErr result (λ fault.
        EndsBy text fault (W.refuses writer.new) (W.contents writer.old) (W.contents writer.new)) }
{
    match gathering.finish() {
        Ok(fold) => match print_all(alloc, &fold, writer) {
            Ok(()) => Ok(()),
            Err(fault) => Err(PlanFault::from(fault)),
        },
        Err(refusal) => match print_refusal(alloc, refusal, writer) {
            Ok(()) => Err(PlanFault::Refused(refusal)),
            Err(fault) => Err(PlanFault::from(fault)),
        },
    }
}

/// Prints why the stream is refused.
pub fn print_refusal<W: Sink>(
    alloc: Global,
    refusal: Refusal,
    writer: &mut W,
) -> Result<(), PrintFault>
    ensures ok { OnOk result (Appends (W.contents writer.old) (W.contents writer.new)
        (refusal_text refusal)) }
    ensures written { AppendsFront (W.contents writer.old) (W.contents writer.new)
        (refusal_text refusal) }
    ensures refused { IsErrOf result PrintFault.Unwritten → W.refuses writer.new }
    ensures memory { IsErrOf result PrintFault.Memory
        → Keeps (W.contents writer.old) (W.contents writer.new) }
{
    let line = RefusalLine(refusal).to_string(alloc)?;
    write_bytes(writer, line.as_bytes())
}
