//! The calls on requests.

ghost use Rattle.std.specs.Prelude.{◌≡◌, ◌↔◌, Some, IfErr, IfOk, IsErrOf, OnErr};
ghost use Rattle.stand_in_device.specs.Machine.{request_count, request_of, state_of};
ghost use Rattle.stand_in_device.specs.Requests.{Allocates, free_request, given_back, queue_request, reinit, set_controls};
ghost use Rattle.stand_in_device.specs.Steps.{Follows, Looks};

use super::Queues;
use crate::m2m_queues::buffers::{Buffer, Buffers};
use crate::m2m_queues::fault::QueueFault;
use crate::m2m_queues::requests::{MOST_REQUESTS, QueueRequest, RequestId, RequestState};

/// The OUTPUT buffer that is bound to a request becomes free.
fn give_back<C>(outputs: &mut Buffers, request: &QueueRequest<C>)
    ensures { outputs.new ≡ given_back outputs.old (Some request.now) }
{
    if let Some(output) = &request.output {
        outputs.turn(Buffer::free(output.index));
    }
}

impl<C: Drop> Queues<C> {
    /// How far a request is.
    pub fn request_state(&self, request: RequestId) -> Result<RequestState, QueueFault>
        ensures { Looks (state_of (request_of self.now request.0)) QueueFault.NoEntry result }
    {
        match self.requests.get(request.0) {
            Some(found) => Ok(found.state),
            None => Err(QueueFault::NoEntry),
        }
    }

    /// Makes a request to which nothing is bound.
    pub fn alloc_request(&mut self) -> Result<RequestId, QueueFault>
        ensures ok { IfOk result (λ id. Allocates self.old self.new id.0) }
        ensures no_slot { IsErrOf result QueueFault.NoSlot ↔ (request_count self.old ≡ 64) }
        ensures only { IfErr result (λ fault. fault ≡ QueueFault.NoSlot) }
        ensures err { OnErr result (self.new ≡ self.old) }
    {
        if self.requests.len() == MOST_REQUESTS {
            return Err(QueueFault::NoSlot);
        }
        let slot = self
            .requests
            .insert_reserved(QueueRequest::empty(RequestState::Idle));
        Ok(RequestId(slot))
    }

    /// Closes a request that isn't queued. The OUTPUT buffer that is bound to it becomes free.
    pub fn free_request(&mut self, request: RequestId) -> Result<(), QueueFault>
        ensures { Follows (free_request self.old request.0) result self.old self.new }
    {
        let Some(closed) = self.requests.get(request.0) else {
            return Err(QueueFault::NoEntry);
        };
        if closed.state == RequestState::Queued {
            return Err(QueueFault::Busy);
        }
        give_back(&mut self.outputs, closed);
        self.requests.remove(request.0);
        Ok(())
    }

    /// Makes a request that isn't queued idle, with nothing bound to it. The OUTPUT buffer that was
    /// bound to it becomes free.
    pub fn reinit(&mut self, request: RequestId) -> Result<(), QueueFault>
        ensures { Follows (reinit self.old request.0) result self.old self.new }
    {
        let Some(found) = self.requests.get_mut(request.0) else {
            return Err(QueueFault::NoEntry);
        };
        if found.state == RequestState::Queued {
            return Err(QueueFault::Busy);
        }
        give_back(&mut self.outputs, found);
        *found = QueueRequest::empty(RequestState::Idle);
        Ok(())
    }

    /// Binds controls to an idle request, in place of those that it had.
    pub fn set_controls(&mut self, request: RequestId, controls: C) -> Result<(), QueueFault>
        ensures { Follows (set_controls self.old request.0 controls) result self.old self.new }
    {
        let Some(found) = self.requests.get_mut(request.0) else {
            return Err(QueueFault::NoEntry);
        };
        if found.state != RequestState::Idle {
            return Err(QueueFault::Busy);
        }
        found.controls = Some(controls);
        Ok(())
    }

    /// Queues an idle request that has controls and an OUTPUT buffer, as the last one to run.
    pub fn queue_request(&mut self, request: RequestId) -> Result<(), QueueFault>
        ensures { Follows (queue_request self.old request.0) result self.old self.new }
    {
        let Some(waiting) = self.requests.get_mut(request.0) else {
            return Err(QueueFault::NoEntry);
        };
        if waiting.state != RequestState::Idle {
            return Err(QueueFault::Busy);
        }
        if waiting.output.is_none() || waiting.controls.is_none() {
            return Err(QueueFault::NoEntry);
        }
        waiting.state = RequestState::Queued;
        self.order.push(request.0);
        Ok(())
    }
}
