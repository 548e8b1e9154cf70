//! Calls and their answers, as tests write them.

use bytes::Bytes;
use stand_in_device::m2m_queues::{
    Buffer, BufferState, Dequeued, QueueFault, Queues, RequestId, RequestState, RunOne,
    SliceDecoder, Target,
};
use std::alloc::AllocError;

/// A call of the queues. Requests are named by their ids.
#[derive(Clone, Copy, Debug)]
pub(super) enum Call {
    Alloc,
    Close(usize),
    Reinit(usize),
    SetControls(usize, u32),
    /// An OUTPUT buffer, its request, the timestamp and the flag.
    QueueOutput(usize, usize, u64, bool),
    QueueCapture(usize),
    QueueRequest(usize),
    Run,
    DequeueOutput,
    DequeueCapture,
    LookAtRequest(usize),
    LookAtOutput(usize),
    LookAtCapture(usize),
}

/// What a call answers.
#[derive(Clone, Copy, Debug, PartialEq, Eq)]
pub(super) enum Answer {
    Done,
    Given(usize),
    Did(RunOne),
    /// A dequeued buffer with its timestamp.
    Took(usize, u64),
    IsIn(RequestState),
    /// A buffer, its state and its timestamp.
    Holds(usize, BufferState, u64),
    Refused(QueueFault),
}

/// A slice as the recorder was given it.
#[derive(Clone, Copy, Debug, PartialEq, Eq)]
pub(super) struct Slice {
    pub(super) controls: u32,
    pub(super) byte: Option<u8>,
    pub(super) timestamp: u64,
    pub(super) target: Target,
}

/// Work that remembers its last slice, and may run out of memory.
#[derive(Drop)]
pub(in crate::tests) struct Recorder {
    pub(super) slices: u32,
    pub(super) last: Option<Slice>,
    pub(super) is_full: bool,
}

impl Recorder {
    pub(in crate::tests) fn new() -> Recorder {
        Recorder {
            slices: 0,
            last: None,
            is_full: false,
        }
    }
}

impl SliceDecoder<u32> for Recorder {
    ghost decodes = { λ _ _ _. Unit {0} };

    fn slice(
        &mut self,
        controls: &u32,
        bytes: &[u8],
        timestamp: u64,
        target: Target,
    ) -> Result<(), AllocError> {
        if self.is_full {
            return Err(AllocError);
        }
        self.slices = self.slices.saturating_add(1);
        self.last = Some(Slice {
            controls: *controls,
            byte: bytes.first().copied(),
            timestamp,
            target,
        });
        Ok(())
    }
}

fn done(outcome: Result<(), QueueFault>) -> Answer {
    match outcome {
        Ok(()) => Answer::Done,
        Err(fault) => Answer::Refused(fault),
    }
}

fn took(outcome: Result<Dequeued, QueueFault>) -> Answer {
    match outcome {
        Ok(buffer) => Answer::Took(buffer.index, buffer.timestamp),
        Err(fault) => Answer::Refused(fault),
    }
}

fn holds(outcome: Result<Buffer, QueueFault>) -> Answer {
    match outcome {
        Ok(buffer) => Answer::Holds(buffer.index, buffer.state, buffer.timestamp),
        Err(fault) => Answer::Refused(fault),
    }
}

/// What a call on requests answers; any other is one on buffers.
pub(super) fn make_call(queues: &mut Queues<u32>, recorder: &mut Recorder, call: Call) -> Answer {
    match call {
        Call::Alloc => match queues.alloc_request() {
            Ok(request) => Answer::Given(request.0),
            Err(fault) => Answer::Refused(fault),
        },
        Call::Close(request) => done(queues.free_request(RequestId(request))),
        Call::Reinit(request) => done(queues.reinit(RequestId(request))),
        Call::SetControls(request, controls) => {
            done(queues.set_controls(RequestId(request), controls))
        }
        Call::QueueRequest(request) => done(queues.queue_request(RequestId(request))),
        Call::LookAtRequest(request) => match queues.request_state(RequestId(request)) {
            Ok(state) => Answer::IsIn(state),
            Err(fault) => Answer::Refused(fault),
        },
        Call::Run => match queues.run_one(recorder) {
            Ok(did) => Answer::Did(did),
            Err(fault) => Answer::Refused(fault),
        },
        other => answer_of_buffers(queues, other),
    }
}

/// What a call on buffers answers.
fn answer_of_buffers(queues: &mut Queues<u32>, call: Call) -> Answer {
    match call {
        Call::QueueOutput(index, request, timestamp, hold) => {
            let slice = Bytes::from_static(&[7, 8]);
            done(queues.queue_output(index, RequestId(request), slice, timestamp, hold))
        }
        Call::QueueCapture(index) => done(queues.queue_capture(index)),
        Call::DequeueOutput => took(queues.dequeue_output()),
        Call::DequeueCapture => took(queues.dequeue_capture()),
        Call::LookAtOutput(index) => holds(queues.output_buffer(index)),
        Call::LookAtCapture(index) => holds(queues.capture_buffer(index)),
        _ => Answer::Done,
    }
}

/// Each call in turn has the answer beside it.
pub(super) fn are_answered(
    queues: &mut Queues<u32>,
    recorder: &mut Recorder,
    calls: &[(Call, Answer)],
) -> bool {
    for (call, expected) in calls {
        if make_call(queues, recorder, *call) != *expected {
            return false;
        }
    }
    true
}
