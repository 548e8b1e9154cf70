//! Calls of which any growth of memory may be refused.

use super::distinct::pred_weights;
use super::request;
use h264_controls::{Controls, Request, digest_form};
use std::alloc::{AllocError, Global};
use test_builders::{idr_controls, shared};

/// The controls of a picture, with weights.
fn controls_with_weights(alloc: Global) -> Result<Controls, AllocError> {
    let mut controls = idr_controls(alloc)?;
    controls.pred_weights = Some(shared(alloc, pred_weights())?);
    Ok(controls)
}

/// Whether the form stands after a byte, or that byte alone where there is no memory.
fn form_stands_after_a_byte(alloc: Global, controls: &Controls) -> Result<bool, AllocError> {
    let mut form = Vec::new(alloc);
    form.push(0xAA)?;
    let length = match digest_form(controls, &mut form) {
        Ok(()) => 2813,
        Err(AllocError) => 1,
    };
    Ok(form.len() == length && form.first() == Some(&0xAA))
}

/// Where there is memory for the controls, whether their form stands after a byte.
fn grows_a_form(alloc: Global) -> Result<bool, AllocError> {
    let controls = controls_with_weights(alloc)?;
    form_stands_after_a_byte(alloc, &controls)
}

#[test]
fn refused_growth_of_a_form(rt: HostRuntime) {
    assert!(rt; grows_a_form(rt.alloc()) != Ok(false));
}

/// A request with weights.
fn request_with_weights(alloc: Global) -> Result<Request, AllocError> {
    let controls = controls_with_weights(alloc)?;
    request(alloc, controls, &[0, 0, 1, 0x41], 7)
}

/// Whether the copy of a request has its timestamp and bytes, where there is memory.
fn is_copied(request: &Request) -> bool {
    match request.copy() {
        Ok(copy) => copy.timestamp == 7000 && copy.bytes().len() == 4,
        Err(AllocError) => true,
    }
}

#[test]
fn refused_growth_of_a_copy(rt: HostRuntime) {
    if let Ok(request) = request_with_weights(rt.alloc()) {
        assert!(rt; is_copied(&request));
    }
}
