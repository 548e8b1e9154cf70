//! The calls on buffers.

ghost use Rattle.std.specs.Prelude.{◌≡◌, is_ok, length, nat_lt};
ghost use Rattle.stand_in_device.specs.Queuing.{Takes, output_of, queue_capture, queue_output};
ghost use Rattle.stand_in_device.specs.Buffers.{buffer_at};
ghost use Rattle.stand_in_device.specs.Steps.{Follows, Looks};

use super::Queues;
use crate::m2m_queues::buffers::{Buffer, BufferState, Buffers, Dequeued};
use crate::m2m_queues::fault::QueueFault;
use crate::m2m_queues::requests::{Output, RequestId, RequestState};
use bytes::Bytes;

/// The buffer of an index, which is there for each index below the number of the buffers.
fn look(buffers: &Buffers, index: usize) -> Result<Buffer, QueueFault>
    ensures found { Looks (buffer_at buffers.now index) QueueFault.Invalid result }
    ensures range { is_ok result ≡ nat_lt index (length buffers.now) }
{
    match buffers.at(index) {
        Some(buffer) => Ok(*buffer),
        None => Err(QueueFault::Invalid),
    }
}

/// The oldest done buffer goes to the caller.
fn dequeue(buffers: &mut Buffers) -> Result<Dequeued, QueueFault>
    ensures { Takes result buffers.old buffers.new }
{
    let Some(done) = buffers.oldest(BufferState::Done) else {
        return Err(QueueFault::Again);
    };
    let answer = Dequeued {
        index: done.index,
        timestamp: done.timestamp,
    };
    buffers.turn(Buffer::free(answer.index));
    Ok(answer)
}

impl<C: Drop> Queues<C> {
    /// The OUTPUT buffer of an index.
    pub fn output_buffer(&self, index: usize) -> Result<Buffer, QueueFault>
        ensures found { Looks (buffer_at self.now.outputs index) QueueFault.Invalid result }
        ensures range { is_ok result ≡ nat_lt index (length self.now.outputs) }
    {
        look(&self.outputs, index)
    }

    /// The CAPTURE buffer of an index.
    pub fn capture_buffer(&self, index: usize) -> Result<Buffer, QueueFault>
        ensures found { Looks (buffer_at self.now.captures index) QueueFault.Invalid result }
        ensures range { is_ok result ≡ nat_lt index (length self.now.captures) }
    {
        look(&self.captures, index)
    }

    /// Puts a slice of the frame with this timestamp, in nanoseconds, into a free OUTPUT buffer,
    /// and binds that to an idle request that has none. `hold` says that further slices of the
    /// frame follow, so that the CAPTURE buffer is held for them.
    pub fn queue_output(
        &mut self,
        index: usize,
        request: RequestId,
        bytes: Bytes,
        timestamp: u64,
        hold: bool,
    ) -> Result<(), QueueFault>
        ensures { Follows
            (queue_output self.old index request.0 (output_of index bytes timestamp hold))
            result self.old self.new }
    {
        let Some(found) = self.requests.get_mut(request.0) else {
            return Err(QueueFault::NoEntry);
        };
        let Some(buffer) = self.outputs.at(index) else {
            return Err(QueueFault::Invalid);
        };
        if found.state != RequestState::Idle || found.output.is_some() {
            return Err(QueueFault::Busy);
        }
        if buffer.state != BufferState::Free {
            return Err(QueueFault::Invalid);
        }
        self.outputs.turn(Buffer::queued(index, timestamp));
        found.output = Some(Output {
            index,
            bytes,
            timestamp,
            hold,
        });
        Ok(())
    }

    /// Puts a free CAPTURE buffer into its queue, as the last one to begin.
    pub fn queue_capture(&mut self, index: usize) -> Result<(), QueueFault>
        ensures { Follows (queue_capture self.old index) result self.old self.new }
    {
        match self.captures.at(index) {
            Some(buffer) if buffer.state == BufferState::Free => {
                self.captures.turn(Buffer::queued(index, 0));
                Ok(())
            }
            _ => Err(QueueFault::Invalid),
        }
    }

    /// Takes the oldest done OUTPUT buffer, which is free then.
    pub fn dequeue_output(&mut self) -> Result<Dequeued, QueueFault>
        ensures taken { Takes result self.old.outputs self.new.outputs }
        ensures rest { self.new ≡ record self.old { outputs = self.new.outputs } }
    {
        dequeue(&mut self.outputs)
    }

    /// Takes the oldest done CAPTURE buffer, which is free then.
    pub fn dequeue_capture(&mut self) -> Result<Dequeued, QueueFault>
        ensures taken { Takes result self.old.captures self.new.captures }
        ensures rest { self.new ≡ record self.old { captures = self.new.captures } }
    {
        dequeue(&mut self.captures)
    }
}
