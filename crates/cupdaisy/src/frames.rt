//! The requests of whole pictures.

ghost use Rattle.c_calls.specs.Frames.{FillsFrame, TellsFrame, slices_of_job, slices_of_unit};
ghost use Rattle.cupdaisy.specs.Calls.{Asks, AsksTwo};

use crate::Handle;
use c_calls::{NO_SESSION, PictureRequest};
use std::alloc::Global;

/// The request of the picture of the unit of the id, as the stream is now.
#[unsafe(no_mangle)]
pub extern "C" fn cupdaisy_unit_frame(
    alloc: Global,
    session: &mut Handle,
    id: u32,
    frame: &mut PictureRequest,
) -> u32
    ensures { Asks session.old.held.state result frame.old frame.new session.new.held.state
        (λ machine. TellsFrame (slices_of_unit machine id) result frame.old frame.new) }
{
    let Some(inner) = session.take(alloc) else {
        return NO_SESSION;
    };
    let status = c_calls::unit_frame(&inner, id, frame);
    session.put(inner);
    status
}

/// The bytes of the picture of the unit of the id, as the stream is now.
#[unsafe(no_mangle)]
pub extern "C" fn cupdaisy_unit_frame_bytes(
    alloc: Global,
    session: &mut Handle,
    id: u32,
    start_codes: bool,
    bytes: &mut [u8],
    needed: &mut usize,
) -> u32
    ensures { AsksTwo session.old.held.state result bytes.old bytes.new needed.old needed.new
        session.new.held.state
        (λ machine. FillsFrame (slices_of_unit machine id) start_codes result bytes.old bytes.new
        needed.old needed.new) }
{
    let Some(inner) = session.take(alloc) else {
        return NO_SESSION;
    };
    let status = c_calls::unit_frame_bytes(alloc, &inner, id, start_codes, bytes, needed);
    session.put(inner);
    status
}

/// The request of the picture of the job of the number, as it was when the job was taken.
#[unsafe(no_mangle)]
pub extern "C" fn cupdaisy_job_frame(
    alloc: Global,
    session: &mut Handle,
    job: u64,
    frame: &mut PictureRequest,
) -> u32
    ensures { Asks session.old.held.state result frame.old frame.new session.new.held.state
        (λ machine. TellsFrame (slices_of_job machine job) result frame.old frame.new) }
{
    let Some(inner) = session.take(alloc) else {
        return NO_SESSION;
    };
    let status = c_calls::job_frame(&inner, job, frame);
    session.put(inner);
    status
}

/// The bytes of the picture of the job of the number, as it was when the job was taken.
#[unsafe(no_mangle)]
pub extern "C" fn cupdaisy_job_frame_bytes(
    alloc: Global,
    session: &mut Handle,
    job: u64,
    start_codes: bool,
    bytes: &mut [u8],
    needed: &mut usize,
) -> u32
    ensures { AsksTwo session.old.held.state result bytes.old bytes.new needed.old needed.new
        session.new.held.state
        (λ machine. FillsFrame (slices_of_job machine job) start_codes result bytes.old bytes.new
        needed.old needed.new) }
{
    let Some(inner) = session.take(alloc) else {
        return NO_SESSION;
    };
    let status = c_calls::job_frame_bytes(alloc, &inner, job, start_codes, bytes, needed);
    session.put(inner);
    status
}
