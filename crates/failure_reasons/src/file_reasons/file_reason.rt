//! Why a file isn't read as a stream: what it is, or why its stream is refused.

ghost use Rattle.std.specs.Prelude.{ℕ, List, Option, IfOk, IfSome, Some};
ghost use Rattle.failure_reasons.specs.Fronts.{IsFront};
ghost use Rattle.failure_reasons.specs.Files.{IsReasonFor, file_reason, refusal_reason};

use crate::file_reasons::counted::Counted;
use crate::file_reasons::front::first_bytes;
use access_unit::{Refusal, Refused};
use console_io::InputFault;
use plan_stream::gather;
use std::alloc::Global;
use std::fmt;
use std::fmt::{Display, Formatter, Write};
use std::io::Read;
use stream_reasons::Reason;
use stream_reasons::file_kinds::{FileKind, kind_of};

/// Why a file isn't read as a stream. Printed, it is a sentence without its full stop: what the file
/// is, where it is no byte stream of H.264, and else why its stream is refused.
#[derive(Clone, Copy, Debug)]
pub struct FileReason {
    pub kind: FileKind,
    pub refusal: Refusal,
}

impl Display for FileReason {
    ghost output = { λ reason. Some (file_reason reason) };

    fn fmt<W: Write>(&self, f: &mut Formatter<W>) -> fmt::Result {
        match self.kind {
            FileKind::H264AnnexB => {
                let reason = RefusalReason(self.refusal);
                write!(f, "{reason}")
            }
            kind => {
                let sentence = kind.sentence();
                write!(f, "{sentence}, not a byte stream of H.264 (Annex B)")
            }
        }
    }
}

/// Why a stream is refused.
#[derive(Drop)]
struct RefusalReason(Refusal);

impl Display for RefusalReason {
    ghost output = { λ reason. Some (refusal_reason reason.0) };

    fn fmt<W: Write>(&self, f: &mut Formatter<W>) -> fmt::Result {
        match self.0 {
            Refusal::Split => write!(f, "{}", Reason::Refused(Refused::Split)),
            Refusal::Unit { index, refused } => {
                let reason = Reason::Refused(refused);
                write!(f, "access unit at index {index}: {reason}")
            }
            Refusal::StreamFull => write!(f, "{}", Reason::StreamFull),
        }
    }
}

/// Why the file that the reader gives isn't read as a stream, if it isn't. It is read through a
/// window, up to its refusal or its end.
pub fn find_reason<R: Read>(alloc: Global, reader: &mut R) -> Result<Option<FileReason>, InputFault>
    ensures { IfOk result (λ reason. IfSome (R.remaining reader.old) (IsReasonFor reason)) }
{
    let front = first_bytes(alloc, reader)?;
    find_behind(alloc, front.as_slice(), reader)
}

/// The same, where these first bytes were read already.
fn find_behind<R: Read>(
    alloc: Global,
    front: &[u8],
    reader: &mut R,
) -> Result<Option<FileReason>, InputFault>
    ensures { (old : Option (List ℕ)) → IsFront old (R.remaining reader.old) front.now
        → IfOk result (λ reason. IfSome old (IsReasonFor reason)) }
{
    let kind = kind_of(front);
    let mut whole = front.chain(reader);
    let gathering = gather(alloc, Counted::new(), &mut whole)?;
    match gathering.finish() {
        Ok(_) => Ok(None),
        Err(refusal) => Ok(Some(FileReason { kind, refusal })),
    }
}
