//! The slices of a picture, decoded one after the other through the queues of a stateless decoder.

ghost use Rattle.std.specs.Prelude.{◌≡◌, ◌∷◌, ◌++◌, ℕ, List, [], IfOk, IsTrue, OnOk};
ghost use Rattle.sha2.specs.Hashers.{Holds256};
ghost use Rattle.stand_in_device.specs.Buffers.{done, queued};
ghost use Rattle.std.specs.List.{flat_map};
ghost use Rattle.decode_jobs.specs.Inputs.{holds_but_last};
ghost use Rattle.stand_in_device.specs.Decoding.{AllHave, CanTake, IsBetween, IsDecoded, IsRun, IsWaiting, written_by};
ghost use Rattle.stand_in_device.specs.Pictures.{record_of};

use crate::m2m_queues::{Dequeued, QueueFault, Queues, RequestId, RunOne};
use crate::slice_digest::{SliceControls, SliceDigest};
use h264_controls::Request;
use std::alloc::{AllocError, Global};
use std::marker::Model;

/// The queues of a decoder with one OUTPUT and one CAPTURE buffer, between two slices, and the
/// request that each slice uses in turn.
#[derive(Drop)]
pub(crate) struct Decoding {
    queues: Queues<SliceControls>,
    request: RequestId,
}

impl Model for Decoding {
    ghost use Rattle.std.specs.Prelude.{List};
    ghost use Rattle.stand_in_device.specs.declared.m2m_queues.buffers.Buffer.{Buffer};
    ghost use Rattle.stand_in_device.specs.Decoding.{IsBetween};

    ghost Value = { List Buffer };

    ghost view = { λ decoding. decoding.queues.captures };

    ghost invariant = { λ decoding. IsBetween decoding.queues decoding.request.0 };
}

impl Decoding {
    /// A decoder whose CAPTURE buffer is queued.
    pub(crate) fn open(alloc: Global) -> Result<Decoding, AllocError>
        ensures { IfOk result (λ decoding. decoding ≡ queued 0 0 ∷ []) }
    {
        let mut queues = Queues::new(alloc, 1, 1)?;
        let Ok(request) = queues.alloc_request() else {
            unreachable!()
        };
        let Ok(()) = queues.queue_capture(0) else {
            unreachable!()
        };
        Ok(Decoding { queues, request })
    }

    /// Decodes a slice of the frame whose CAPTURE buffer can take it. Where memory runs out, the
    /// decoder is closed.
    pub(crate) fn decode_slice(
        self,
        slice: &Request,
        slice_digest: &mut SliceDigest,
    ) -> Result<Decoding, AllocError>
        requires { CanTake self slice.now.timestamp }
        ensures captures { IfOk result (λ after. after ≡ written_by slice.now ∷ []) }
        ensures digest { IfOk result (λ after. (m : List ℕ)
            → IsDecoded self slice.now.timestamp slice_digest.old m
            → Holds256 slice_digest.new.hasher (m ++ record_of slice_digest.old.frames.items slice.now)) }
        ensures frames { IfOk result (λ after. slice_digest.new.frames.items ≡ slice_digest.old.frames.items) }
    {
        let Decoding {
            mut queues,
            request,
        } = self;
        queue_slice(&mut queues, request, slice)?;
        match queues.run_one(slice_digest) {
            Ok(RunOne::Ran) => {}
            Err(QueueFault::Memory) => return Err(AllocError),
            _ => unreachable!(),
        }
        take_back(&mut queues, request, slice);
        Ok(Decoding { queues, request })
    }

    /// Decodes the slices of a frame whose CAPTURE buffer can take the first, each run before the
    /// next is queued; then the CAPTURE buffer is done.
    pub(crate) fn decode_slices(
        self,
        slices: &[Request],
        timestamp: u64,
        slice_digest: &mut SliceDigest,
    ) -> Result<Decoding, AllocError>
        requires takes { CanTake self timestamp }
        requires one { AllHave timestamp slices.now }
        requires holds { IsTrue (holds_but_last slices.now) }
        ensures captures { IfOk result (λ after. after ≡ done 0 timestamp ∷ []) }
        ensures digest { IfOk result (λ after. (m : List ℕ) → IsDecoded self timestamp slice_digest.old m
            → Holds256 slice_digest.new.hasher
            (m ++ flat_map (record_of slice_digest.old.frames.items) slices.now)) }
    {
        match slices {
            [] => unreachable!(),
            [last] => self.decode_slice(last, slice_digest),
            [slice, more @ ..] => {
                let decoding = self.decode_slice(slice, slice_digest)?;
                decoding.decode_slices(more, timestamp, slice_digest)
            }
        }
    }

    /// Takes the CAPTURE buffer back, which is done.
    pub(crate) fn finish(mut self, timestamp: u64) -> Dequeued
        requires { self ≡ done 0 timestamp ∷ [] }
        ensures { result ≡ record { index = 0; timestamp = timestamp } }
    {
        match self.queues.dequeue_capture() {
            Ok(buffer) => buffer,
            Err(_) => unreachable!(),
        }
    }
}

/// Queues a slice with its controls: it is next.
fn queue_slice(
    queues: &mut Queues<SliceControls>,
    request: RequestId,
    slice: &Request,
) -> Result<(), AllocError>
    requires { IsBetween queues.old request.0 }
    ensures waits { OnOk result (IsWaiting queues.new request.0 slice.now) }
    ensures captures { OnOk result (queues.new.captures ≡ queues.old.captures) }
{
    let controls = SliceControls {
        body: slice.body.clone()?,
        references: slice.references.clone()?,
    };
    let bytes = slice.bytes().clone()?;
    let Ok(()) = queues.set_controls(request, controls) else {
        unreachable!()
    };
    let Ok(()) = queues.queue_output(0, request, bytes, slice.timestamp, slice.hold) else {
        unreachable!()
    };
    let Ok(()) = queues.queue_request(request) else {
        unreachable!()
    };
    Ok(())
}

/// Takes the OUTPUT buffer of a slice that was run back, and makes its request idle.
fn take_back(queues: &mut Queues<SliceControls>, request: RequestId, slice: &Request)
    requires { IsRun queues.old request.0 slice.now }
    ensures between { IsBetween queues.new request.0 }
    ensures captures { queues.new.captures ≡ queues.old.captures }
{
    let Ok(_) = queues.dequeue_output() else {
        unreachable!()
    };
    let Ok(()) = queues.reinit(request) else {
        unreachable!()
    };
}
