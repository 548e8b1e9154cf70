//! `preview draw --edits`: a stream drawn after the edits of a script.

ghost use Rattle.std.specs.Prelude.{◌≡◌, ◌≢◌, ℕ, List, Option, IfErr, IfOk, string_bytes};
ghost use Rattle.console_io.specs.Messages.{Tells};
ghost use Rattle.edit_script.specs.EditScripts.{IsEditScript};
ghost use Rattle.draw_run.specs.EditedDrawings.{EndsBy, WritesEdited, edits_fault_text};
ghost use Rattle.draw_run.specs.Loading.{IsHeld, IsLoadFault};
ghost use Rattle.draw_run.specs.declared.fault.EditsFault.{EditsFault as Fault};

use crate::choice::EditedChoice;
use crate::document::edited_drawing;
use crate::fault::{EditsFault, say_edits_fault};
use crate::loading::loaded;
use crate::settling::settle;
use access_unit::Refusal;
use bytes::Bytes;
use console_io::{Console, Ended, PrintFault, Sink, Status, write_bytes};
use edit_script::{EditCommand, read_edit_script};
use plan_stream::print_refusal;
use stand_in_session::Session;
use std::alloc::Global;
use std::thread::Threads;

/// Draws the chosen units of the stream of a text after the edits of a script, which are made when
/// all pictures of the stream are held; or prints the stream's refusal. What is refused of the
/// edits is told to `console.errors`, as is a line of the script that is no edit, and that memory
/// runs out.
pub fn draw_edited<W: Sink, E: Sink>(
    threads: &(impl Threads + Sync),
    alloc: Global,
    choice: EditedChoice,
    text: &Bytes,
    script: &[u8],
    console: &mut Console<W, E>,
) -> Ended
    // At success one document is written, and what is told is what was refused of the edits.
    ensures done { result.status ≡ Status.Success → (told : List ℕ)
        × WritesEdited choice.from choice.units text.now script.now told
        (W.contents console.old.output) (W.contents console.new.output)
        × Tells result.told (E.refuses console.new.errors) (E.contents console.old.errors)
        (E.contents console.new.errors) told }
    // At a failure it is what the fault that is told leaves of it.
    ensures ends { result.status ≡ Status.Failure → (fault : Fault)
        × EndsBy choice.from choice.units text.now script.now fault (W.refuses console.new.output)
        (W.contents console.old.output) (W.contents console.new.output)
        × Tells result.told (E.refuses console.new.errors) (E.contents console.old.errors)
        (E.contents console.new.errors) (edits_fault_text fault) }
    ensures usage { result.status ≢ Status.Usage }
{
    match draw(threads, alloc, choice, text, script, &mut console.output) {
        Ok(told) => Ended {
            status: Status::Success,
            told: write_bytes(&mut console.errors, told.as_bytes()),
        },
        Err(fault) => Ended::failed(say_edits_fault(fault, &mut console.errors)),
    }
}

/// Draws the chosen units, or prints the stream's refusal, and gives what is told of edits that are
/// refused.
fn draw<W: Sink>(
    threads: &(impl Threads + Sync),
    alloc: Global,
    choice: EditedChoice,
    text: &Bytes,
    script: &[u8],
    writer: &mut W,
) -> Result<String, EditsFault>
    ensures done { IfOk result (λ told.
        WritesEdited choice.from choice.units text.now script.now (string_bytes told)
        (W.contents writer.old) (W.contents writer.new)) }
    ensures ends { IfErr result (λ fault.
        EndsBy choice.from choice.units text.now script.now fault (W.refuses writer.new)
        (W.contents writer.old) (W.contents writer.new)) }
{
    let commands = read_edit_script(alloc, script)?;
    match held(threads, alloc, text) {
        Ok(session) => write_edited(alloc, choice, session, commands, writer),
        Err(EditsFault::Refused(refusal)) => Err(print_refused(alloc, refusal, writer)),
        Err(fault) => Err(fault),
    }
}

/// A session with the stream of this text, all of whose pictures are held.
fn held(threads: &(impl Threads + Sync), alloc: Global, text: &Bytes) -> Result<Session, EditsFault>
    ensures ok { IfOk result (IsHeld text.now) }
    ensures fault { IfErr result (IsLoadFault text.now) }
{
    let mut session = loaded(threads, alloc, text)?;
    settle(alloc, &mut session)?;
    Ok(session)
}

/// Writes the document of the session's stream after the edits, and gives what is told of those
/// that are refused.
fn write_edited<W: Sink>(
    alloc: Global,
    choice: EditedChoice,
    session: Session,
    commands: Vec<(usize, EditCommand)>,
    writer: &mut W,
) -> Result<String, EditsFault>
    ensures done { (text script : List ℕ) → IsHeld text session → IsEditScript script commands.items
        → IfOk result (λ told. WritesEdited choice.from choice.units text script (string_bytes told)
        (W.contents writer.old) (W.contents writer.new)) }
    ensures ends { (text script : List ℕ) → IsHeld text session → IsEditScript script commands.items
        → IfErr result (λ fault. EndsBy choice.from choice.units text script fault
        (W.refuses writer.new)
        (W.contents writer.old) (W.contents writer.new)) }
{
    let drawing = edited_drawing(alloc, choice, session, commands)?;
    match write_bytes(writer, drawing.document.as_slice()) {
        Ok(()) => Ok(drawing.told),
        Err(_) => Err(EditsFault::Unwritten),
    }
}

/// Prints why the stream is refused.
fn print_refused<W: Sink>(alloc: Global, refusal: Refusal, writer: &mut W) -> EditsFault
    ensures { (from : Option ℕ) (units : ℕ) (text script : List ℕ)
        → IsLoadFault text (Fault.Refused refusal)
        → EndsBy from units text script result (W.refuses writer.new)
        (W.contents writer.old) (W.contents writer.new) }
{
    match print_refusal(alloc, refusal, writer) {
        Ok(()) => EditsFault::Refused(refusal),
        Err(PrintFault::Memory) => EditsFault::Memory,
        Err(PrintFault::Unwritten) => EditsFault::Unwritten,
    }
}
