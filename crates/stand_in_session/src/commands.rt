//! Commands to a session.

ghost use Rattle.std.specs.Prelude.{◌≡◌, IfOk};
ghost use Rattle.stand_in_session.specs.Copies.{IsCopy};

use h264_types::pictures::AuId;
use std::alloc::{AllocError, Global};
use stream_edits::Edit;

/// What a session is told to do.
#[derive(Debug, Drop)]
pub enum Command {
    /// To edit the stream.
    Edit(Edit),
    /// To make these edits together, as one step.
    Group(Vec<Edit>),
    /// To say the outcome of the unit of this id.
    Unit(AuId),
    /// To give a picture to decode.
    Take,
    /// To give a picture to decode that the unit of this id needs.
    TakeFor(AuId),
    /// To decode the job of this number, which is out, and to take its result.
    Land(u64),
    /// To take the job of this number back undone.
    GiveBack(u64),
    /// To show the unit of this id.
    Show(AuId),
    /// To drop the picture of the unit of this id.
    Drop(AuId),
    /// To drop the pictures that are cached.
    ClearCache,
}

impl Command {
    /// The command once more; it shares the bytes of its edits.
    pub fn copy(&self, alloc: Global) -> Result<Command, AllocError>
        ensures { IfOk result (IsCopy self.now) }
    {
        match self {
            Command::Edit(edit) => Ok(Command::Edit(edit.copy()?)),
            Command::Group(edits) => Ok(Command::Group(copies_of(alloc, edits)?)),
            Command::Unit(id) => Ok(Command::Unit(*id)),
            Command::Take => Ok(Command::Take),
            Command::TakeFor(id) => Ok(Command::TakeFor(*id)),
            Command::Land(number) => Ok(Command::Land(*number)),
            Command::GiveBack(number) => Ok(Command::GiveBack(*number)),
            Command::Show(id) => Ok(Command::Show(*id)),
            Command::Drop(id) => Ok(Command::Drop(*id)),
            Command::ClearCache => Ok(Command::ClearCache),
        }
    }
}

/// The edits once more; they share the bytes.
fn copies_of(alloc: Global, edits: &[Edit]) -> Result<Vec<Edit>, AllocError>
    ensures { IfOk result (λ copies. copies.items ≡ edits.now) }
{
    let mut copies = Vec::with_capacity(alloc, edits.len())?;
    for edit in edits {
        copies.push(edit.copy()?)?;
    }
    Ok(copies)
}
