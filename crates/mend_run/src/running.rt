//! `preview mend`: a stream read, mended and written as it comes.

ghost use Rattle.std.specs.Prelude.{◌≡◌, ◌≢◌, ◌++◌, ℕ, List, Option, IfErr, IfSome, IsOk, OnErr, OnOk, string_bytes, Some};
ghost use Rattle.std.specs.Io.KnownBytes.{Appends, IsAtEnd};
ghost use Rattle.console_io.specs.Chunks.{AppendsFront};
ghost use Rattle.console_io.specs.Messages.{Tells};
ghost use Rattle.stream_mending.specs.Mended.{mended, told};
ghost use Rattle.stream_mending.specs.Mending.{IsFrontOf};
ghost use Rattle.stream_mending.specs.declared.why.LeftOut.{LeftOut as Told};
ghost use Rattle.mend_run.specs.Runs.{EndsBy, PassesFront, IsBroken, IsSoFar, IsWhole, fault_of_input, mend_fault_text, mend_lines, told_text};
ghost use Rattle.mend_run.specs.declared.running.MendFault.{MendFault as Fault};
ghost use Rattle.mend_run.specs.declared.running.MendFault.TheVariants.{Memory, Unwritten};

use crate::input::MendInput;
use console_io::{
    Console, Ended, InputFault, PrintFault, Sink, Status, say_out_of_memory, say_unread,
    write_bytes,
};
use std::alloc::{AllocError, Global};
use std::fmt;
use std::fmt::{Display, Formatter, Write};
use std::io::Read;
use stream_mending::{LeftOut, Mended, Mender};

/// The lines that tell what was left out, one each.
#[derive(Drop)]
pub(crate) struct LeftOutLines<'a>(pub(crate) &'a [LeftOut]);

impl<'a> Display for LeftOutLines<'a> {
    ghost output = { λ lines. Some (told_text lines.0.now) };

    fn fmt<W: Write>(&self, f: &mut Formatter<W>) -> fmt::Result {
        for left_out in self.0 {
            writeln!(f, "{left_out}")?;
        }
        Ok(())
    }
}

/// Why a stream isn't mended.
#[derive(Clone, Copy, Debug, PartialEq, Eq)]
pub enum MendFault {
    /// It can't be read.
    Unread,
    /// A growth was refused.
    Memory,
    /// The writer takes no more.
    Unwritten,
}

impl From<AllocError> for MendFault {
    ghost from_gives = { λ _ fault. fault ≡ Memory };

    fn from(_error: AllocError) -> MendFault {
        MendFault::Memory
    }
}

impl From<InputFault> for MendFault {
    ghost from_gives = { λ input fault. fault ≡ fault_of_input input };

    fn from(fault: InputFault) -> MendFault {
        match fault {
            InputFault::Unread => MendFault::Unread,
            InputFault::Memory => MendFault::Memory,
        }
    }
}

/// Writes what stays of the stream that the reader gives as the console's output, and tells its
/// errors what is left out, a line each; or why it isn't mended to its end. The reader has this name
/// there. In memory is what stands between two start codes, and an access unit.
pub fn mend_on<R: Read, W: Sink, E: Sink>(
    alloc: Global,
    name: &str,
    reader: &mut R,
    console: &mut Console<W, E>,
) -> Ended
    // At success all that stays is written, and what is left out is told.
    ensures done { result.status ≡ Status.Success → IfSome (R.remaining reader.old) (λ text.
        Appends (W.contents console.old.output) (W.contents console.new.output) (mended text)
        × Tells result.told (E.refuses console.new.errors) (E.contents console.old.errors)
        (E.contents console.new.errors) (mend_lines text)) }
    // At a failure a front of it is, before the fault is told.
    ensures ends { result.status ≡ Status.Failure → (fault : Fault) × (said : List Told)
        × IfSome (R.remaining reader.old) (λ text.
        EndsBy text fault (W.refuses console.new.output) (W.contents console.old.output)
        (W.contents console.new.output)
        × IsFrontOf said (told text))
        × Tells result.told (E.refuses console.new.errors) (E.contents console.old.errors)
        (E.contents console.new.errors) (told_text said ++ mend_fault_text name.now fault) }
    ensures usage { result.status ≢ Status.Usage }
{
    let mut told = Ok(());
    match mend_through(alloc, reader, console, &mut told) {
        Ok(()) => Ended {
            status: Status::Success,
            told,
        },
        Err(fault) => Ended::failed(say_last(fault, name, &mut console.errors, told)),
    }
}

/// Mends the stream that the reader gives to its end. What became of telling is `told`.
fn mend_through<R: Read, W: Sink, E: Sink>(
    alloc: Global,
    reader: &mut R,
    console: &mut Console<W, E>,
    told: &mut Result<(), PrintFault>,
) -> Result<(), MendFault>
    requires { IsOk told.old }
    ensures done { OnOk result (IsWhole (R.remaining reader.old) (W.contents console.old.output)
        (W.contents console.new.output) (E.refuses console.new.errors)
        (E.contents console.old.errors) (E.contents console.new.errors) told.new) }
    ensures ends { IfErr result (λ fault. IsBroken (R.remaining reader.old) fault
        (W.refuses console.new.output) (W.contents console.old.output)
        (W.contents console.new.output) (E.refuses console.new.errors)
        (E.contents console.old.errors) (E.contents console.new.errors) told.new) }
{
    let mut mender = Mender::new();
    let mut held = Vec::new(alloc);
    let mut input = MendInput::new(alloc)?;
    while input.read_more(reader, &mut held)? {
        mend_held(alloc, &mut mender, &mut held, console, told)?;
    }
    mend_last(alloc, mender, &held, console, told)
}

/// Mends what is held up to the last start code in it, and passes that on. The rest stays held.
fn mend_held<W: Sink, E: Sink>(
    alloc: Global,
    mender: &mut Mender,
    held: &mut Vec<u8>,
    console: &mut Console<W, E>,
    told: &mut Result<(), PrintFault>,
) -> Result<(), MendFault>
    ensures done { (known rest had heard : Option (List ℕ))
        → IsSoFar known mender.old held.old.items rest had (W.contents console.old.output)
        (E.refuses console.old.errors) heard (E.contents console.old.errors) told.old
        → OnOk result (IsSoFar known mender.new held.new.items rest had
        (W.contents console.new.output) (E.refuses console.new.errors) heard
        (E.contents console.new.errors) told.new) }
    ensures ends { (known rest had heard : Option (List ℕ))
        → IsSoFar known mender.old held.old.items rest had (W.contents console.old.output)
        (E.refuses console.old.errors) heard (E.contents console.old.errors) told.old
        → IfErr result (λ fault. IsBroken known fault (W.refuses console.new.output) had
        (W.contents console.new.output) (E.refuses console.new.errors) heard
        (E.contents console.new.errors) told.new) }
{
    let rest = mender.take(alloc, held)?.len();
    let tail = held.split_off(held.len() - rest)?;
    *held = tail;
    pass_on(alloc, &mender.drain(alloc), console, told)
}

/// Mends what is held at the end of the stream, and passes that on.
fn mend_last<W: Sink, E: Sink>(
    alloc: Global,
    mut mender: Mender,
    held: &[u8],
    console: &mut Console<W, E>,
    told: &mut Result<(), PrintFault>,
) -> Result<(), MendFault>
    ensures done { (known rest had heard : Option (List ℕ)) → IsAtEnd rest
        → IsSoFar known mender held.now rest had (W.contents console.old.output)
        (E.refuses console.old.errors) heard (E.contents console.old.errors) told.old
        → OnOk result (IsWhole known had (W.contents console.new.output)
        (E.refuses console.new.errors) heard (E.contents console.new.errors) told.new) }
    ensures ends { (known rest had heard : Option (List ℕ)) → IsAtEnd rest
        → IsSoFar known mender held.now rest had (W.contents console.old.output)
        (E.refuses console.old.errors) heard (E.contents console.old.errors) told.old
        → IfErr result (λ fault. IsBroken known fault (W.refuses console.new.output) had
        (W.contents console.new.output) (E.refuses console.new.errors) heard
        (E.contents console.new.errors) told.new) }
{
    let rest = mender.take(alloc, held)?;
    let last = mender.finish(alloc, rest)?;
    pass_on(alloc, &last, console, told)
}

/// Writes what was mended, and then tells what was left out.
fn pass_on<W: Sink, E: Sink>(
    alloc: Global,
    mended: &Mended,
    console: &mut Console<W, E>,
    told: &mut Result<(), PrintFault>,
) -> Result<(), MendFault>
    ensures written { OnOk result
        (Appends (W.contents console.old.output) (W.contents console.new.output)
        mended.now.bytes.items) }
    ensures told { (heard : Option (List ℕ)) (said : List Told)
        → Tells told.old (E.refuses console.old.errors) heard (E.contents console.old.errors)
        (told_text said)
        → OnOk result (Tells told.new (E.refuses console.new.errors) heard
        (E.contents console.new.errors) (told_text (said ++ mended.now.left_out.items))) }
    ensures err { OnErr result ((told.new ≡ told.old) × (console.new.errors ≡ console.old.errors)) }
    ensures unwritten { IfErr result (λ fault. PassesFront fault (W.refuses console.new.output)
        (W.contents console.old.output) (W.contents console.new.output) mended.now.bytes.items) }
{
    let lines = LeftOutLines(&mended.left_out).to_string(alloc)?;
    if write_bytes(&mut console.output, &mended.bytes).is_err() {
        return Err(MendFault::Unwritten);
    }
    tell(&lines, &mut console.errors, told);
    Ok(())
}

/// Tells lines to one who still listens.
fn tell<E: Sink>(lines: &str, errors: &mut E, told: &mut Result<(), PrintFault>)
    ensures { (heard : Option (List ℕ)) (said : List ℕ)
        → Tells told.old (E.refuses errors.old) heard (E.contents errors.old) said
        → Tells told.new (E.refuses errors.new) heard (E.contents errors.new)
        (said ++ lines.now) }
{
    if told.is_ok() {
        *told = write_bytes(errors, lines.as_bytes());
    }
}

/// Says why the stream of this name isn't mended to its end, to one who still listens.
fn say_last<E: Sink>(
    fault: MendFault,
    name: &str,
    errors: &mut E,
    told: Result<(), PrintFault>,
) -> Result<(), PrintFault>
    ensures { (heard : Option (List ℕ)) (said : List ℕ)
        → Tells told (E.refuses errors.old) heard (E.contents errors.old) said
        → Tells result (E.refuses errors.new) heard (E.contents errors.new)
        (said ++ mend_fault_text name.now fault) }
{
    told?;
    say_mend_fault(fault, name, errors)
}

/// Says why the stream of this name isn't mended. A writer that takes no more is known to who reads
/// it.
fn say_mend_fault<E: Sink>(fault: MendFault, name: &str, errors: &mut E) -> Result<(), PrintFault>
    ensures { Tells result (E.refuses errors.new) (E.contents errors.old) (E.contents errors.new)
        (mend_fault_text name.now fault) }
{
    match fault {
        MendFault::Unread => say_unread(name, errors),
        MendFault::Memory => say_out_of_memory(errors),
        MendFault::Unwritten => write_bytes(errors, b""),
    }
}
