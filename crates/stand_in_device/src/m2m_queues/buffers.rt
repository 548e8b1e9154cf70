//! The buffers of a queue, in the order in which they came into their states.

ghost use Rattle.std.specs.Prelude.{◌≡◌, ◌==◌, ◌<◌, ◌≤◌, IfSome, is_some, length, nat_lt, position};
ghost use Rattle.std.specs.Option.{option_copied};
ghost use Rattle.stand_in_device.specs.Buffers.{buffer_at, done, free, free_buffers, held, oldest, queued, same_state, turned};

use arrayvec::ArrayVec;
use std::marker::Model;

/// How many buffers a queue may have.
pub const MOST_BUFFERS: usize = 32;

/// Where a buffer is.
#[derive(Clone, Copy, Debug, PartialEq, Eq)]
pub enum BufferState {
    /// With the caller.
    Free,
    /// In its queue: an OUTPUT buffer with its request, a CAPTURE buffer until a slice begins it.
    Queued,
    /// A CAPTURE buffer that further slices of its frame go to. No OUTPUT buffer is ever held.
    Held,
    /// Ready to be dequeued.
    Done,
}

impl BufferState {
    /// The two are one state.
    fn is(self, other: BufferState) -> bool
        ensures { result ≡ same_state self other }
    {
        self == other
    }
}

/// A buffer of the OUTPUT or the CAPTURE queue.
#[derive(Clone, Copy, Debug, PartialEq, Eq)]
pub struct Buffer {
    /// Which of its queue's buffers it is, from 0.
    pub index: usize,
    pub state: BufferState,
    /// The frame's timestamp in nanoseconds where the buffer has a frame's bytes, else 0.
    pub timestamp: u64,
}

/// A buffer that was dequeued.
#[derive(Clone, Copy, Debug, PartialEq, Eq)]
pub struct Dequeued {
    /// Which of its queue's buffers it is, from 0.
    pub index: usize,
    /// The timestamp of its frame in nanoseconds.
    pub timestamp: u64,
}

impl Default for Buffer {
    ghost is_default = { λ buffer. buffer ≡ free 0 };

    fn default() -> Buffer {
        Buffer::free(0)
    }
}

impl Buffer {
    /// The buffer of that index, with the caller.
    pub(crate) fn free(index: usize) -> Buffer
        ensures { result ≡ free index }
    {
        Buffer {
            index,
            state: BufferState::Free,
            timestamp: 0,
        }
    }

    /// The buffer of that index in its queue, with this timestamp.
    pub(crate) fn queued(index: usize, timestamp: u64) -> Buffer
        ensures { result ≡ queued index timestamp }
    {
        Buffer {
            index,
            state: BufferState::Queued,
            timestamp,
        }
    }

    /// The CAPTURE buffer of that index, held for the frame with this timestamp.
    pub(crate) fn held(index: usize, timestamp: u64) -> Buffer
        ensures { result ≡ held index timestamp }
    {
        Buffer {
            index,
            state: BufferState::Held,
            timestamp,
        }
    }

    /// The buffer of that index, ready with this timestamp.
    pub(crate) fn done(index: usize, timestamp: u64) -> Buffer
        ensures { result ≡ done index timestamp }
    {
        Buffer {
            index,
            state: BufferState::Done,
            timestamp,
        }
    }
}

/// The buffers of one queue. Clauses see them as a list, each index below its length once.
#[derive(Drop)]
pub(crate) struct Buffers {
    items: ArrayVec<Buffer, MOST_BUFFERS>,
}

impl Model for Buffers {
    ghost use Rattle.std.specs.Prelude.{List};
    ghost use Rattle.stand_in_device.specs.declared.m2m_queues.buffers.Buffer.{Buffer};
    ghost use Rattle.stand_in_device.specs.Buffers.{IsNumbered};

    ghost Value = { List Buffer };

    ghost view = { λ b. b.items.items };

    ghost invariant = { λ b. IsNumbered b.items.items };
}

impl Buffers {
    /// So many buffers, all free.
    pub(crate) fn new(count: usize) -> Buffers
        requires { count ≤ 32 }
        ensures { result ≡ free_buffers count }
    {
        let mut items = ArrayVec::new();
        for index in 0..count {
            items.push(Buffer::free(index));
        }
        Buffers { items }
    }

    /// The buffer of an index, which is there for each index below the number of the buffers.
    pub(crate) fn at(&self, index: usize) -> Option<&Buffer>
        ensures found { option_copied result ≡ buffer_at self.now index }
        ensures range { is_some (buffer_at self.now index) ≡ nat_lt index (length self.now) }
    {
        self.items.as_slice().iter().find(|b| b.index == index)
    }

    /// The buffer that came into this state first, of those that are in it.
    pub(crate) fn oldest(&self, state: BufferState) -> Option<&Buffer>
        ensures { option_copied result ≡ oldest self.now state }
    {
        self.items.as_slice().iter().find(|b| b.state.is(state))
    }

    /// Puts this buffer in place of the one of its index, as the newest.
    pub(crate) fn turn(&mut self, buffer: Buffer)
        ensures { self.new ≡ turned self.old buffer }
    {
        if let Some(place) = place_of(self.items.as_slice(), buffer.index) {
            self.items.remove(place);
            self.items.push(buffer);
        }
    }
}

/// The place of the buffer of an index.
fn place_of(buffers: &[Buffer], index: usize) -> Option<usize>
    ensures place { result ≡ position (λ b. b.index == index) buffers.now }
    ensures within { IfSome result (λ place. place < length buffers.now) }
{
    buffers.iter().position(|b| b.index == index)
}
