//! The queues: their state, and how they are opened.

ghost use Rattle.std.specs.Prelude.{◌≡◌, ◌≤◌, IfOk};
ghost use Rattle.stand_in_device.specs.Machine.{opened};

mod buffers;
mod requests;
mod run;

use crate::m2m_queues::buffers::Buffers;
use crate::m2m_queues::requests::{MOST_REQUESTS, QueueRequest};
use arrayvec::ArrayVec;
use slab::Slab;
use std::alloc::{AllocError, Global};
use std::marker::Model;

/// The requests and buffers of a decoder. Clauses see them as a plain record.
#[derive(Drop)]
pub struct Queues<C> {
    requests: Slab<QueueRequest<C>>,
    order: ArrayVec<usize, MOST_REQUESTS>,
    outputs: Buffers,
    captures: Buffers,
}

impl<C> Model for Queues<C> {
    ghost use Rattle.stand_in_device.specs.Machine.{Machine};
    ghost use Rattle.stand_in_device.specs.Invariants.{IsSound};

    ghost Value = { Machine C };

    ghost view = { λ q. record {
      requests = q.requests.slots;
      order = q.order.items;
      outputs = q.outputs;
      captures = q.captures;
    } };

    ghost invariant = { λ q. IsSound q.requests q.order.items };
}

impl<C: Drop> Queues<C> {
    /// Queues with so many OUTPUT and CAPTURE buffers, all free, and no request.
    pub fn new(alloc: Global, outputs: usize, captures: usize) -> Result<Queues<C>, AllocError>
        requires some_outputs { 1 ≤ outputs }
        requires few_outputs { outputs ≤ 32 }
        requires some_captures { 1 ≤ captures }
        requires few_captures { captures ≤ 32 }
        ensures { IfOk result (λ queues. queues ≡ opened outputs captures) }
    {
        Ok(Queues {
            requests: Slab::with_capacity(alloc, MOST_REQUESTS)?,
            order: ArrayVec::new(),
            outputs: Buffers::new(outputs),
            captures: Buffers::new(captures),
        })
    }
}
