//! The queues as a plain slow machine, by the rules of the Linux media documentation alone: each
//! request and each buffer has its state, and the moment from which it has been in it.

use super::calls::{Answer, Call, Slice};
use stand_in_device::m2m_queues::{
    BufferState, MOST_REQUESTS, QueueFault, RequestState, RunOne, Target,
};

/// How many buffers each queue has.
pub(super) const BUFFERS: usize = 3;

/// An OUTPUT buffer as it is bound to a request.
#[derive(Clone, Copy)]
struct Bound {
    index: usize,
    timestamp: u64,
    hold: bool,
}

#[derive(Clone, Copy)]
struct PlainRequest {
    id: usize,
    state: RequestState,
    controls: Option<u32>,
    bound: Option<Bound>,
    since: u64,
}

#[derive(Clone, Copy)]
struct PlainBuffer {
    index: usize,
    state: BufferState,
    timestamp: u64,
    since: u64,
}

/// The requests by their ids, and the buffers by their indices.
#[derive(Drop)]
pub(super) struct PlainQueues {
    now: u64,
    requests: [Option<PlainRequest>; MOST_REQUESTS],
    outputs: [PlainBuffer; BUFFERS],
    captures: [PlainBuffer; BUFFERS],
    /// Whether the recorder on a slice runs out of memory.
    pub(super) is_full: bool,
    /// How many slices were worked on.
    pub(super) slices: u32,
    /// The last of them.
    pub(super) last: Option<Slice>,
}

fn free(index: usize) -> PlainBuffer {
    PlainBuffer {
        index,
        state: BufferState::Free,
        timestamp: 0,
        since: 0,
    }
}

fn empty(id: usize, state: RequestState) -> PlainRequest {
    PlainRequest {
        id,
        state,
        controls: None,
        bound: None,
        since: 0,
    }
}

/// The buffer of an index.
fn buffer_at(buffers: &[PlainBuffer; BUFFERS], index: usize) -> Result<PlainBuffer, QueueFault> {
    if index < BUFFERS {
        Ok(buffers[index])
    } else {
        Err(QueueFault::Invalid)
    }
}

fn put_buffer(buffers: &mut [PlainBuffer; BUFFERS], buffer: PlainBuffer) {
    if buffer.index < BUFFERS {
        buffers[buffer.index] = buffer;
    }
}

/// The buffer that has been in this state for the longest time.
fn oldest(buffers: &[PlainBuffer; BUFFERS], state: BufferState) -> Option<PlainBuffer> {
    let mut found: Option<PlainBuffer> = None;
    for buffer in buffers {
        if buffer.state == state && !found.is_some_and(|other| other.since < buffer.since) {
            found = Some(*buffer);
        }
    }
    found
}

/// Takes the oldest done buffer.
fn dequeue(buffers: &mut [PlainBuffer; BUFFERS]) -> Result<Answer, QueueFault> {
    let done = oldest(buffers, BufferState::Done).ok_or(QueueFault::Again)?;
    put_buffer(buffers, free(done.index));
    Ok(Answer::Took(done.index, done.timestamp))
}

fn look(buffers: &[PlainBuffer; BUFFERS], index: usize) -> Result<Answer, QueueFault> {
    let buffer = buffer_at(buffers, index)?;
    Ok(Answer::Holds(buffer.index, buffer.state, buffer.timestamp))
}

impl PlainQueues {
    /// No requests, and buffers that are all free.
    pub(super) fn new() -> PlainQueues {
        PlainQueues {
            now: 0,
            requests: [None; MOST_REQUESTS],
            outputs: [free(0), free(1), free(2)],
            captures: [free(0), free(1), free(2)],
            is_full: false,
            slices: 0,
            last: None,
        }
    }

    /// Whether a request may be answered to be made, or refused: it is one that wasn't there.
    pub(super) fn allocates(&mut self, answer: Answer) -> bool {
        match answer {
            Answer::Given(id) if id < MOST_REQUESTS && self.requests[id].is_none() => {
                self.requests[id] = Some(empty(id, RequestState::Idle));
                true
            }
            Answer::Refused(QueueFault::NoSlot) => self.is_crowded(),
            _ => false,
        }
    }

    /// Whether as many requests are there as there may be.
    fn is_crowded(&self) -> bool {
        for request in &self.requests {
            if request.is_none() {
                return false;
            }
        }
        true
    }

    /// What a call answers that makes no request.
    pub(super) fn answer(&mut self, call: Call) -> Answer {
        let outcome = match call {
            Call::Close(id) => self.let_go(id, None),
            Call::Reinit(id) => self.let_go(id, Some(empty(id, RequestState::Idle))),
            Call::SetControls(id, controls) => self.set_controls(id, controls),
            Call::QueueRequest(id) => self.queue_request(id),
            Call::Run => self.run(),
            Call::LookAtRequest(id) => self.request(id).map(|there| Answer::IsIn(there.state)),
            other => self.answer_of_buffers(other),
        };
        match outcome {
            Ok(answer) => answer,
            Err(fault) => Answer::Refused(fault),
        }
    }

    /// What a call on buffers answers.
    fn answer_of_buffers(&mut self, call: Call) -> Result<Answer, QueueFault> {
        match call {
            Call::QueueOutput(index, id, timestamp, hold) => self.queue_output(
                id,
                Bound {
                    index,
                    timestamp,
                    hold,
                },
            ),
            Call::QueueCapture(index) => self.queue_capture(index),
            Call::DequeueOutput => dequeue(&mut self.outputs),
            Call::DequeueCapture => dequeue(&mut self.captures),
            Call::LookAtOutput(index) => look(&self.outputs, index),
            Call::LookAtCapture(index) => look(&self.captures, index),
            _ => Ok(Answer::Done),
        }
    }

    /// The next moment.
    fn tick(&mut self) -> u64 {
        self.now = self.now.saturating_add(1);
        self.now
    }

    fn request(&self, id: usize) -> Result<PlainRequest, QueueFault> {
        if id < MOST_REQUESTS {
            self.requests[id].ok_or(QueueFault::NoEntry)
        } else {
            Err(QueueFault::NoEntry)
        }
    }

    fn put_request(&mut self, id: usize, request: Option<PlainRequest>) {
        if id < MOST_REQUESTS {
            self.requests[id] = request;
        }
    }

    /// Closes a request, or leaves this one in its place.
    fn let_go(&mut self, id: usize, after: Option<PlainRequest>) -> Result<Answer, QueueFault> {
        let request = self.request(id)?;
        if request.state == RequestState::Queued {
            return Err(QueueFault::Busy);
        }
        if let Some(bound) = request.bound {
            put_buffer(&mut self.outputs, free(bound.index));
        }
        self.put_request(id, after);
        Ok(Answer::Done)
    }

    fn set_controls(&mut self, id: usize, controls: u32) -> Result<Answer, QueueFault> {
        let mut request = self.request(id)?;
        if request.state != RequestState::Idle {
            return Err(QueueFault::Busy);
        }
        request.controls = Some(controls);
        self.put_request(id, Some(request));
        Ok(Answer::Done)
    }

    fn queue_request(&mut self, id: usize) -> Result<Answer, QueueFault> {
        let mut request = self.request(id)?;
        if request.state != RequestState::Idle {
            return Err(QueueFault::Busy);
        }
        if request.controls.is_none() || request.bound.is_none() {
            return Err(QueueFault::NoEntry);
        }
        request.state = RequestState::Queued;
        request.since = self.tick();
        self.put_request(id, Some(request));
        Ok(Answer::Done)
    }

    fn queue_output(&mut self, id: usize, bound: Bound) -> Result<Answer, QueueFault> {
        let mut request = self.request(id)?;
        let mut buffer = buffer_at(&self.outputs, bound.index)?;
        if request.state != RequestState::Idle || request.bound.is_some() {
            return Err(QueueFault::Busy);
        }
        if buffer.state != BufferState::Free {
            return Err(QueueFault::Invalid);
        }
        buffer.state = BufferState::Queued;
        buffer.timestamp = bound.timestamp;
        put_buffer(&mut self.outputs, buffer);
        request.bound = Some(bound);
        self.put_request(id, Some(request));
        Ok(Answer::Done)
    }

    fn queue_capture(&mut self, index: usize) -> Result<Answer, QueueFault> {
        let mut buffer = buffer_at(&self.captures, index)?;
        if buffer.state != BufferState::Free {
            return Err(QueueFault::Invalid);
        }
        buffer.state = BufferState::Queued;
        buffer.since = self.tick();
        put_buffer(&mut self.captures, buffer);
        Ok(Answer::Done)
    }

    /// The request that has been queued for the longest time.
    fn next(&self) -> Option<PlainRequest> {
        let mut found: Option<PlainRequest> = None;
        for request in &self.requests {
            if let Some(there) = request {
                let is_later = found.is_some_and(|other| other.since < there.since);
                if there.state == RequestState::Queued && !is_later {
                    found = Some(*there);
                }
            }
        }
        found
    }

    fn run(&mut self) -> Result<Answer, QueueFault> {
        let request = self.next().ok_or(QueueFault::Again)?;
        let bound = request.bound.ok_or(QueueFault::Again)?;
        let controls = request.controls.ok_or(QueueFault::Again)?;
        let held = oldest(&self.captures, BufferState::Held);
        let mine = held.filter(|buffer| buffer.timestamp == bound.timestamp);
        let queued = oldest(&self.captures, BufferState::Queued);
        let Some(capture) = mine.or(queued) else {
            return self.release(held).ok_or(QueueFault::Again);
        };
        if self.is_full {
            return Err(QueueFault::Memory);
        }
        if mine.is_none() {
            let _ = self.release(held);
        }
        self.slices = self.slices.saturating_add(1);
        self.last = Some(Slice {
            controls,
            byte: Some(7),
            timestamp: bound.timestamp,
            target: Target {
                capture: capture.index,
                begins: mine.is_none(),
            },
        });
        self.has_run(request.id, bound, capture.index);
        Ok(Answer::Did(RunOne::Ran))
    }

    /// A held buffer is done.
    fn release(&mut self, held: Option<PlainBuffer>) -> Option<Answer> {
        let mut buffer = held?;
        buffer.state = BufferState::Done;
        buffer.since = self.tick();
        put_buffer(&mut self.captures, buffer);
        Some(Answer::Did(RunOne::Released))
    }

    /// The request is complete, its OUTPUT buffer is done, and so is the CAPTURE buffer, unless it
    /// is held.
    fn has_run(&mut self, id: usize, bound: Bound, capture: usize) {
        let since = self.tick();
        let hold = if bound.hold {
            BufferState::Held
        } else {
            BufferState::Done
        };
        let output = PlainBuffer {
            index: bound.index,
            state: BufferState::Done,
            timestamp: bound.timestamp,
            since,
        };
        put_buffer(&mut self.outputs, output);
        let written = PlainBuffer {
            index: capture,
            state: hold,
            ..output
        };
        put_buffer(&mut self.captures, written);
        self.put_request(id, Some(empty(id, RequestState::Complete)));
    }
}
