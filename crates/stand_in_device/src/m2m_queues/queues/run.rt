//! The run of one request.

ghost use Rattle.std.specs.Prelude.{◌≡◌, is_some};
ghost use Rattle.slab.specs.Slab.{ContainsKey, with_value};
ghost use Rattle.stand_in_device.specs.declared.m2m_queues.buffers.BufferState.TheVariants.{Queued};
ghost use Rattle.stand_in_device.specs.Buffers.{oldest};
ghost use Rattle.stand_in_device.specs.Machine.{empty_request};
ghost use Rattle.stand_in_device.specs.Runs.{RunsOne, begin, held_for_another, released, target_of, written};

use super::Queues;
use crate::m2m_queues::buffers::{Buffer, BufferState, Buffers};
use crate::m2m_queues::fault::QueueFault;
use crate::m2m_queues::requests::{Output, QueueRequest, RequestState};
use crate::m2m_queues::slice_decoder::{RunOne, SliceDecoder, Target};
use slab::Slab;

/// Releases a CAPTURE buffer that is held for another frame than this one, and answers whether
/// there was one.
fn release(captures: &mut Buffers, timestamp: u64) -> bool
    ensures released { captures.new ≡ released captures.old timestamp }
    ensures found { result ≡ is_some (held_for_another captures.old timestamp) }
{
    match captures.oldest(BufferState::Held) {
        Some(buffer) if buffer.timestamp != timestamp => {
            let ready = Buffer::done(buffer.index, buffer.timestamp);
            captures.turn(ready);
            true
        }
        _ => false,
    }
}

/// Where the next slice of the frame with this timestamp goes.
fn target_of(captures: &Buffers, timestamp: u64) -> Option<Target>
    ensures { result ≡ target_of captures.now timestamp }
{
    match captures.oldest(BufferState::Held) {
        Some(buffer) if buffer.timestamp == timestamp => Some(Target {
            capture: buffer.index,
            begins: false,
        }),
        _ => beginning(captures),
    }
}

/// The oldest queued CAPTURE buffer, for a frame that begins.
fn beginning(captures: &Buffers) -> Option<Target>
    ensures { result ≡ begin (oldest captures.now Queued) }
{
    let buffer = captures.oldest(BufferState::Queued)?;
    Some(Target {
        capture: buffer.index,
        begins: true,
    })
}

/// The CAPTURE buffer of a slice that was run.
fn written(target: Target, output: &Output) -> Buffer
    ensures { result ≡ written target output.now }
{
    if output.hold {
        Buffer::held(target.capture, output.timestamp)
    } else {
        Buffer::done(target.capture, output.timestamp)
    }
}

/// The request is complete, and nothing is bound to it.
fn complete<C: Drop>(requests: &mut Slab<QueueRequest<C>>, id: usize)
    requires { ContainsKey requests.old id }
    ensures { requests.new ≡ with_value requests.old id (empty_request RequestState.Complete) }
{
    requests[id] = QueueRequest::empty(RequestState::Complete);
}

impl<C: Drop> Queues<C> {
    /// Runs the oldest queued request, on the CAPTURE buffer that is held for its frame or else on
    /// the oldest queued one. A CAPTURE buffer that is held for another frame is done before that,
    /// or, where no other is queued, done instead. Where the decoder runs out of memory, the queues
    /// are as they were.
    pub fn run_one<S: SliceDecoder<C>>(&mut self, decoder: &mut S) -> Result<RunOne, QueueFault>
        ensures { RunsOne S.decodes self.old self.new decoder.old decoder.new result }
    {
        let Some(id) = self.order.as_slice().first().copied() else {
            return Err(QueueFault::Again);
        };
        let Some(request) = self.requests.get(id) else {
            unreachable!()
        };
        let (Some(controls), Some(output)) = (&request.controls, &request.output) else {
            unreachable!()
        };
        let timestamp = output.timestamp;
        let Some(target) = target_of(&self.captures, timestamp) else {
            return if release(&mut self.captures, timestamp) {
                Ok(RunOne::Released)
            } else {
                Err(QueueFault::Again)
            };
        };
        decoder.slice(controls, &output.bytes, timestamp, target)?;
        let ready = Buffer::done(output.index, timestamp);
        let capture = written(target, output);
        self.outputs.turn(ready);
        release(&mut self.captures, timestamp);
        self.captures.turn(capture);
        self.order.remove(0);
        complete(&mut self.requests, id);
        Ok(RunOne::Ran)
    }
}
