//! Writers that take few bytes, or no more: what is written is the front that they take.

ghost use Rattle.std.specs.Prelude.{IsTrue};

use super::{A, LINES_OF_A, LINES_OF_P1, P1, joined, row_holds};
use console_io::{Console, Ended, Sink, Status};
use plan_stream::plan_on;
use std::alloc::Global;
use std::io;
use std::io::{ErrorKind, Write};
use std::process::Abort;
use std::test::Fail;
use std::thread::Threads;

/// How a writer ends.
#[derive(Clone, Copy)]
pub(super) enum End {
    Fails,
    TakesNone,
    /// It fails, and takes more when it is asked again.
    IsInterrupted,
}

/// A writer that takes some bytes at a time, and a number of bytes in all. It declares that its
/// last write took none.
#[derive(Drop)]
pub(super) struct ShortWriter {
    pub(super) got: Vec<u8>,
    at_a_time: usize,
    capacity: usize,
    end: End,
    has_refused: bool,
}

impl ShortWriter {
    /// A writer with this room, which has got nothing.
    pub(super) fn new(alloc: Global, at_a_time: usize, capacity: usize, end: End) -> ShortWriter {
        ShortWriter {
            got: Vec::new(alloc),
            at_a_time,
            capacity,
            end,
            has_refused: false,
        }
    }
}

impl Write for ShortWriter {
    fn write(&mut self, buf: &[u8]) -> io::Result<usize> {
        let count = buf.len().min(self.at_a_time).min(self.capacity);
        if count > 0 {
            self.got.extend_from_slice(&buf[..count])?;
            self.capacity -= count;
            return Ok(count);
        }
        match self.end {
            End::Fails => Err(io::Error::from(ErrorKind::BrokenPipe)),
            End::TakesNone => Ok(0),
            End::IsInterrupted => {
                self.capacity = usize::MAX;
                Err(io::Error::from(ErrorKind::Interrupted))
            }
        }
    }

    fn flush(&mut self) -> io::Result<()> {
        Ok(())
    }
}

impl Sink for ShortWriter {
    ghost refuses = { λ writer. IsTrue writer.has_refused };

    fn write_some(&mut self, bytes: &[u8]) -> io::Result<usize> {
        let answer = self.write(bytes);
        self.has_refused = !matches!(answer, Ok(1..));
        answer
    }
}

/// Whether a writer of this room that ends so gets just this of the plan of a text, which ends so,
/// and nothing is told.
fn gets(
    rt: &(impl Abort + AllocGlobal + Threads + Sync),
    text: &[u8],
    writer: ShortWriter,
    status: Status,
    wanted: &[u8],
) -> bool {
    let mut console = Console {
        output: writer,
        errors: Vec::new(rt.alloc()),
    };
    let (mut reader, told) = (text, Ok(()));
    plan_on(rt.alloc(), "-", &mut reader, &mut console) == Ended { status, told }
        && console.errors.is_empty()
        && console.output.got.as_slice() == wanted
}

/// Whether the lines are written up to the room, and all of them after an interruption.
fn writes_front(
    rt: &(impl Abort + AllocGlobal + Threads + Sync),
    text: &[u8],
    lines: &[u8],
    at_a_time: usize,
    capacity: usize,
) -> bool {
    let front = lines.split_at(capacity.min(lines.len())).0;
    let to = |end: End| ShortWriter::new(rt.alloc(), at_a_time, capacity, end);
    gets(rt, text, to(End::Fails), Status::Failure, front)
        && gets(rt, text, to(End::TakesNone), Status::Failure, front)
        && gets(rt, text, to(End::IsInterrupted), Status::Success, lines)
}

/// How many bytes a writer takes at a time.
const AT_A_TIME: [usize; 3] = [1, 7, usize::MAX];

#[test]
fn writes_the_front_that_a_writer_takes(rt: HostRuntime) -> Result<(), Fail> {
    let text = joined(rt.alloc(), &[&A, &P1])?;
    let lines = joined(rt.alloc(), &[LINES_OF_A.as_bytes(), LINES_OF_P1.as_bytes()])?;
    for at_a_time in AT_A_TIME {
        let enough = ShortWriter::new(rt.alloc(), at_a_time, usize::MAX, End::Fails);
        assert!(rt; gets(&rt, &text, enough, Status::Success, &lines));
        for capacity in 0..lines.len() {
            row_holds(
                &rt,
                capacity,
                writes_front(&rt, &text, &lines, at_a_time, capacity),
            );
        }
    }
    Ok(())
}
