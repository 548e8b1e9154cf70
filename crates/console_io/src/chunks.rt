//! Bytes on their way to a writer, in pieces of some 64 KB.

ghost use Rattle.std.specs.Prelude.{◌≡◌, ◌<◌, ◌≤◌, ◌++◌, [], length, take, OnOk, OnErr, IfOk, IfSome, IsErrOf, IsOkUnless};
ghost use Rattle.std.specs.Io.KnownBytes.{Appends, Keeps};
ghost use Rattle.console_io.specs.declared.chunks.PrintFault.TheVariants.{Memory};
ghost use Rattle.console_io.specs.Chunks.{Adds, AppendsFront, waiting_of};

use crate::sink::Sink;
use std::alloc::{AllocError, Global};
use std::io::ErrorKind;

/// From how many bytes on what waits is written.
const CHUNK: usize = 64 * 1024;

/// Why a text wasn't written.
#[derive(Clone, Copy, Debug, PartialEq, Eq)]
pub enum PrintFault {
    /// There is no memory to gather it in.
    Memory,
    /// The writer takes no more.
    Unwritten,
}

impl From<AllocError> for PrintFault {
    ghost from_gives = { λ _ fault. fault ≡ Memory };

    fn from(_error: AllocError) -> PrintFault {
        PrintFault::Memory
    }
}

/// The bytes that wait for a writer, which is called once for some 64 KB.
#[derive(Drop)]
pub struct Chunks {
    waiting: Vec<u8>,
}

impl Chunks {
    /// No bytes wait.
    pub fn new(alloc: Global) -> Chunks
        ensures { waiting_of result ≡ [] }
    {
        Chunks {
            waiting: Vec::new(alloc),
        }
    }

    /// Adds bytes after those before them.
    pub fn add(&mut self, bytes: &[u8]) -> Result<(), AllocError>
        ensures ok { OnOk result (waiting_of self.new ≡ waiting_of self.old ++ bytes.now) }
        ensures err { OnErr result (waiting_of self.new ≡ waiting_of self.old) }
    {
        self.waiting.extend_from_slice(bytes)
    }

    /// Writes what waits, if it is long enough for a call of the writer.
    pub fn pass_full<W: Sink>(&mut self, writer: &mut W) -> Result<(), PrintFault>
        ensures ok { OnOk result
            (Adds self.old (W.contents writer.old) [] self.new (W.contents writer.new)) }
        ensures unwritten { OnErr result
            (AppendsFront (W.contents writer.old) (W.contents writer.new) (waiting_of self.old)) }
        ensures refused { OnErr result (W.refuses writer.new) }
        ensures fault { IsOkUnless result PrintFault.Unwritten }
    {
        if self.waiting.len() < CHUNK {
            return Ok(());
        }
        self.pass_on(writer)
    }

    /// Writes what waits.
    pub fn pass_on<W: Sink>(&mut self, writer: &mut W) -> Result<(), PrintFault>
        ensures ok { OnOk result
            (Appends (W.contents writer.old) (W.contents writer.new) (waiting_of self.old)) }
        ensures waits { OnOk result (waiting_of self.new ≡ []) }
        ensures unwritten { OnErr result
            (AppendsFront (W.contents writer.old) (W.contents writer.new) (waiting_of self.old)) }
        ensures refused { OnErr result (W.refuses writer.new) }
        ensures fault { IsOkUnless result PrintFault.Unwritten }
    {
        write_bytes(writer, self.waiting.as_slice())?;
        self.waiting.clear();
        Ok(())
    }
}

/// Writes the bytes: all of them, or those before the writer fails or takes none. An interrupted
/// write is made again.
pub fn write_bytes<W: Sink>(writer: &mut W, bytes: &[u8]) -> Result<(), PrintFault>
    ensures ok { OnOk result (Appends (W.contents writer.old) (W.contents writer.new) bytes.now) }
    ensures unwritten { OnErr result
        (AppendsFront (W.contents writer.old) (W.contents writer.new) bytes.now) }
    ensures refused { OnErr result (W.refuses writer.new) }
    ensures fault { IsOkUnless result PrintFault.Unwritten }
{
    let mut written = 0;
    'writes: while written < bytes.len() {
        let more = write_front(writer, bytes.split_at(written).1)?;
        written += more;
    }
    Ok(())
}

/// Writes a prefix of the bytes, of which there are some, and says how long it is. An interrupted
/// write is made again.
fn write_front<W: Sink>(writer: &mut W, bytes: &[u8]) -> Result<usize, PrintFault>
    requires { 0 < length bytes.now }
    ensures some { IfOk result (λ count. (0 < count) × (count ≤ length bytes.now)) }
    ensures ok { IfOk result (λ count.
        Appends (W.contents writer.old) (W.contents writer.new) (take count bytes.now)) }
    ensures unwritten { OnErr result (Keeps (W.contents writer.old) (W.contents writer.new)) }
    ensures refused { OnErr result (W.refuses writer.new) }
    ensures fault { IsOkUnless result PrintFault.Unwritten }
{
    'tries: for turn in 0..u64::MAX {
        match writer.write_some(bytes) {
            Ok(0) => return Err(PrintFault::Unwritten),
            Ok(count) => return Ok(count),
            Err(error) => {
                if error.kind() != ErrorKind::Interrupted {
                    return Err(PrintFault::Unwritten);
                }
            }
        }
    }
    Err(PrintFault::Unwritten)
}
