//! Examples of the documentation of Linux, worked out by hand, and drawn calls beside a plain
//! machine.

mod calls;
mod drawn;
mod plain;

use super::row_holds;
use calls::Answer::{Did, Done, Given, Holds, IsIn, Refused, Took};
use calls::Call::{
    Alloc, Close, DequeueCapture, DequeueOutput, LookAtCapture, LookAtOutput, LookAtRequest,
    QueueCapture, QueueOutput, QueueRequest, Reinit, Run, SetControls,
};
pub(super) use calls::Recorder;
use calls::{Answer, Call, Slice, are_answered};
use stand_in_device::m2m_queues::{
    BufferState, MOST_BUFFERS, QueueFault, Queues, RequestState, RunOne, Target,
};
use std::alloc::{AllocError, Global};
use std::test::Fail;

/// Calls in turn, each with its answer.
type Calls = &'static [(Call, Answer)];

/// How many slices were worked on, and of the last one the controls, the timestamp, the CAPTURE
/// buffer and whether it begins that one's frame.
type Worked = (u32, u32, u64, usize, bool);

/// Whether the recorder runs out of memory, calls, and what was worked on after them.
type Passage = (bool, Calls, Option<Worked>);

/// How many buffers the queues of an example have, and its calls.
type Example = (usize, usize, &'static [Passage]);

/// Requests 0 and 1 are queued, with controls 5 and 6: the first with OUTPUT buffer 0, timestamp
/// 1000 and the hold flag, the second with OUTPUT buffer 1, the same timestamp and no flag.
const ONE_FRAME: Calls = &[
    (Alloc, Given(0)),
    (Alloc, Given(1)),
    (SetControls(0, 5), Done),
    (SetControls(1, 6), Done),
    (QueueOutput(0, 0, 1000, true), Done),
    (QueueOutput(1, 1, 1000, false), Done),
    (QueueRequest(0), Done),
    (QueueRequest(1), Done),
];

/// The same, but that the second has the timestamp 2000.
const TWO_FRAMES: Calls = &[
    (Alloc, Given(0)),
    (Alloc, Given(1)),
    (SetControls(0, 5), Done),
    (SetControls(1, 6), Done),
    (QueueOutput(0, 0, 1000, true), Done),
    (QueueOutput(1, 1, 2000, false), Done),
    (QueueRequest(0), Done),
    (QueueRequest(1), Done),
];

/// Two slices of a frame hold one buffer.
const ONE_BUFFER: &[Passage] = &[
    (false, ONE_FRAME, None),
    (
        false,
        &[
            (QueueCapture(0), Done),
            (QueueCapture(1), Done),
            (QueueRequest(0), Refused(QueueFault::Busy)),
            (Reinit(0), Refused(QueueFault::Busy)),
            (Run, Did(RunOne::Ran)),
            (LookAtRequest(0), IsIn(RequestState::Complete)),
            (LookAtRequest(1), IsIn(RequestState::Queued)),
            (LookAtCapture(0), Holds(0, BufferState::Held, 1000)),
            (DequeueOutput, Took(0, 1000)),
            (DequeueCapture, Refused(QueueFault::Again)),
        ],
        Some((1, 5, 1000, 0, true)),
    ),
    (
        false,
        &[
            (Run, Did(RunOne::Ran)),
            (DequeueCapture, Took(0, 1000)),
            (LookAtCapture(0), Holds(0, BufferState::Free, 0)),
            (LookAtCapture(1), Holds(1, BufferState::Queued, 0)),
            (Run, Refused(QueueFault::Again)),
        ],
        Some((2, 6, 1000, 0, false)),
    ),
];

/// Two frames take two buffers.
const TWO_BUFFERS: &[Passage] = &[
    (false, TWO_FRAMES, None),
    (
        false,
        &[
            (QueueCapture(0), Done),
            (QueueCapture(1), Done),
            (Run, Did(RunOne::Ran)),
            (Run, Did(RunOne::Ran)),
            (LookAtCapture(0), Holds(0, BufferState::Done, 1000)),
            (LookAtCapture(1), Holds(1, BufferState::Done, 2000)),
            (DequeueCapture, Took(0, 1000)),
            (DequeueCapture, Took(1, 2000)),
            (DequeueOutput, Took(0, 1000)),
            (DequeueOutput, Took(1, 2000)),
            (DequeueOutput, Refused(QueueFault::Again)),
        ],
        Some((2, 6, 2000, 1, true)),
    ),
];

/// A held buffer is released for want of another; dequeued and queued again, it takes the second
/// frame.
const RELEASED: &[Passage] = &[
    (false, TWO_FRAMES, None),
    (
        false,
        &[
            (QueueCapture(0), Done),
            (Run, Did(RunOne::Ran)),
            (Run, Did(RunOne::Released)),
            (LookAtCapture(0), Holds(0, BufferState::Done, 1000)),
            (LookAtRequest(1), IsIn(RequestState::Queued)),
            (Run, Refused(QueueFault::Again)),
        ],
        Some((1, 5, 1000, 0, true)),
    ),
    (
        false,
        &[
            (DequeueCapture, Took(0, 1000)),
            (QueueCapture(0), Done),
            (Run, Did(RunOne::Ran)),
        ],
        Some((2, 6, 2000, 0, true)),
    ),
];

/// A request needs a buffer and controls.
const INCOMPLETE: &[Passage] = &[(
    false,
    &[
        (Alloc, Given(0)),
        (QueueRequest(0), Refused(QueueFault::NoEntry)),
        (SetControls(0, 5), Done),
        (QueueRequest(0), Refused(QueueFault::NoEntry)),
        (Reinit(0), Done),
        (QueueOutput(0, 0, 1000, false), Done),
        (QueueRequest(0), Refused(QueueFault::NoEntry)),
        (SetControls(0, 5), Done),
        (QueueRequest(0), Done),
        (Run, Refused(QueueFault::Again)),
    ],
    None,
)];

/// Work that runs out of memory leaves the queues as they were.
const WANTING: &[Passage] = &[
    (false, TWO_FRAMES, None),
    (
        false,
        &[
            (QueueCapture(0), Done),
            (QueueCapture(1), Done),
            (Run, Did(RunOne::Ran)),
        ],
        Some((1, 5, 1000, 0, true)),
    ),
    (
        true,
        &[
            (Run, Refused(QueueFault::Memory)),
            (LookAtRequest(1), IsIn(RequestState::Queued)),
            (LookAtOutput(1), Holds(1, BufferState::Queued, 2000)),
            (LookAtCapture(0), Holds(0, BufferState::Held, 1000)),
            (LookAtCapture(1), Holds(1, BufferState::Queued, 0)),
        ],
        Some((1, 5, 1000, 0, true)),
    ),
    (
        false,
        &[(Run, Did(RunOne::Ran))],
        Some((2, 6, 2000, 1, true)),
    ),
];

/// There are as many buffers as were asked for.
const MANY_BUFFERS: &[Passage] = &[(
    false,
    &[
        (Alloc, Given(0)),
        (QueueOutput(32, 0, 0, false), Refused(QueueFault::Invalid)),
        (QueueOutput(31, 0, 0, false), Done),
        (LookAtOutput(32), Refused(QueueFault::Invalid)),
        (QueueCapture(31), Refused(QueueFault::Invalid)),
        (QueueCapture(30), Done),
        (LookAtCapture(31), Refused(QueueFault::Invalid)),
        (LookAtCapture(30), Holds(30, BufferState::Queued, 0)),
    ],
    None,
)];

/// No request comes before no buffer, that before a request in use, and that before a buffer in
/// use.
const FIRST_REFUSALS: &[Passage] = &[
    (false, ONE_FRAME, None),
    (
        false,
        &[
            (Alloc, Given(2)),
            (Close(3), Refused(QueueFault::NoEntry)),
            (Reinit(3), Refused(QueueFault::NoEntry)),
            (SetControls(3, 5), Refused(QueueFault::NoEntry)),
            (QueueRequest(3), Refused(QueueFault::NoEntry)),
            (Close(0), Refused(QueueFault::Busy)),
            (SetControls(0, 5), Refused(QueueFault::Busy)),
            (QueueOutput(2, 3, 0, false), Refused(QueueFault::NoEntry)),
            (QueueOutput(2, 0, 0, false), Refused(QueueFault::Invalid)),
            (QueueOutput(0, 0, 0, false), Refused(QueueFault::Busy)),
            (QueueOutput(0, 2, 0, false), Refused(QueueFault::Invalid)),
            (QueueCapture(0), Done),
            (QueueCapture(0), Refused(QueueFault::Invalid)),
        ],
        None,
    ),
];

/// A buffer goes back with its request.
const FREED: &[Passage] = &[(
    false,
    &[
        (Alloc, Given(0)),
        (Alloc, Given(1)),
        (QueueOutput(0, 0, 1000, false), Done),
        (QueueOutput(1, 1, 2000, false), Done),
        (QueueOutput(1, 0, 1000, false), Refused(QueueFault::Busy)),
        (Reinit(0), Done),
        (Close(1), Done),
        (LookAtOutput(0), Holds(0, BufferState::Free, 0)),
        (LookAtOutput(1), Holds(1, BufferState::Free, 0)),
        (QueueOutput(1, 0, 3000, false), Done),
    ],
    None,
)];

const EXAMPLES: [Example; 8] = [
    (2, 2, ONE_BUFFER),
    (2, 2, TWO_BUFFERS),
    (2, 2, RELEASED),
    (1, 1, INCOMPLETE),
    (2, 2, WANTING),
    (32, 31, MANY_BUFFERS),
    (2, 2, FIRST_REFUSALS),
    (2, 1, FREED),
];

/// The slice that was worked on last.
fn slice_of(worked: Worked) -> Slice {
    let (_, controls, timestamp, capture, begins) = worked;
    Slice {
        controls,
        byte: Some(7),
        timestamp,
        target: Target { capture, begins },
    }
}

/// This is what was worked on.
fn has_worked(recorder: &Recorder, worked: Option<Worked>) -> bool {
    match worked {
        Some(worked) => recorder.slices == worked.0 && recorder.last == Some(slice_of(worked)),
        None => recorder.slices == 0,
    }
}

/// The queues answer the calls of a passage so.
fn holds(queues: &mut Queues<u32>, recorder: &mut Recorder, passage: &Passage) -> bool {
    recorder.is_full = passage.0;
    are_answered(queues, recorder, passage.1) && has_worked(recorder, passage.2)
}

/// New queues answer all calls of an example so.
fn example_holds(alloc: Global, example: &Example) -> Result<bool, AllocError> {
    let (outputs, captures, passages) = *example;
    let most = MOST_BUFFERS;
    if outputs == 0 || captures == 0 || outputs > most || captures > most {
        return Ok(false);
    }
    let mut queues = Queues::new(alloc, outputs, captures)?;
    let mut recorder = Recorder::new();
    for passage in passages {
        if !holds(&mut queues, &mut recorder, passage) {
            return Ok(false);
        }
    }
    Ok(true)
}

#[test]
fn examples_are_answered(rt: HostRuntime) -> Result<(), Fail> {
    for (row, example) in EXAMPLES.iter().enumerate() {
        row_holds(&rt, row, example_holds(rt.alloc(), example)?);
    }
    Ok(())
}

/// Where 64 requests are there, another one is made only after one of them is closed.
const CROWDED: Calls = &[
    (Alloc, Refused(QueueFault::NoSlot)),
    (Close(9), Done),
    (LookAtRequest(9), Refused(QueueFault::NoEntry)),
    (Alloc, Given(9)),
    (LookAtRequest(9), IsIn(RequestState::Idle)),
    (Alloc, Refused(QueueFault::NoSlot)),
];

#[test]
fn there_are_64_requests(rt: HostRuntime) -> Result<(), Fail> {
    let mut queues = Queues::new(rt.alloc(), 1, 1)?;
    for row in 0..64 {
        row_holds(&rt, row, queues.alloc_request().is_ok());
    }
    assert!(rt; are_answered(&mut queues, &mut Recorder::new(), CROWDED));
    Ok(())
}

/// Each refusal with its number and its text.
const FAULTS: [(QueueFault, u8, &str); 6] = [
    (QueueFault::Busy, 1, "the request is busy"),
    (
        QueueFault::NoEntry,
        2,
        "no such request, or not all of it is there",
    ),
    (QueueFault::Invalid, 3, "no free buffer of this index"),
    (QueueFault::Again, 4, "nothing is ready"),
    (QueueFault::NoSlot, 5, "no room for a request"),
    (QueueFault::Memory, 6, "out of memory"),
];

#[test]
fn faults_have_numbers_and_texts(rt: HostRuntime) -> Result<(), Fail> {
    for (row, (fault, number, text)) in FAULTS.iter().enumerate() {
        let told = format!(in rt.alloc(); "{fault}")?;
        let is_told = fault.number() == *number && told.as_str() == *text;
        row_holds(&rt, row, is_told);
    }
    Ok(())
}

/// Once queues are open, nothing more is allocated.
const RUNS: Calls = &[
    (QueueCapture(0), Done),
    (Run, Did(RunOne::Ran)),
    (Run, Did(RunOne::Ran)),
    (DequeueCapture, Took(0, 1000)),
];

#[test]
fn refused_growth_opens_no_queues(rt: HostRuntime) {
    if let Ok(mut queues) = Queues::new(rt.alloc(), 2, 2) {
        let mut recorder = Recorder::new();
        assert!(rt; are_answered(&mut queues, &mut recorder, ONE_FRAME));
        assert!(rt; are_answered(&mut queues, &mut recorder, RUNS));
    }
}
