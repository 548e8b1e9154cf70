//! The bytes of controls of which a picture's digest is made.

ghost use Rattle.std.specs.Prelude.{◌≡◌, ◌+◌, ◌≤◌, ◌++◌, vec_len, IsOk, OnOk, OnErr};
ghost use Rattle.std.specs.Vec.{vec_capacity};
ghost use Rattle.h264_controls.specs.DigestForm.{digest_form, digest_size, slice_form, slice_size, weights_form, weights_size};
ghost use Rattle.h264_controls.specs.declared.controls.Controls.{Controls};
ghost use Rattle.param_set_controls.specs.SetsForm.{sets_form};

use crate::controls::Controls;
use param_set_controls::put_sets;
use param_set_controls::words::put;
use std::alloc::AllocError;

/// Appends the digest form of the controls: 2,040 bytes, or 2,812 where there are weights. Room is
/// reserved once.
///
/// The form is this project's own: the members in order, without gaps and without reference_ts,
/// little-endian, signed ones in two's complement, flags by Linux's numbers. Memory runs out only
/// where the room isn't there.
pub fn digest_form(controls: &Controls, form: &mut Vec<u8>) -> Result<(), AllocError>
    ensures written { OnOk result (form.new.items ≡ form.old.items ++ digest_form controls.now) }
    ensures size { OnOk result (vec_len form.new ≡ vec_len form.old + digest_size controls.now) }
    ensures room { vec_len form.old + digest_size controls.now ≤ vec_capacity form.old
        → IsOk result }
    ensures unchanged { OnErr result (form.new.items ≡ form.old.items) }
{
    form.reserve(digest_size(controls))?;
    put_controls(controls, form);
    Ok(())
}

/// Appends the rest of the digest form, after what `sets_form` appends: 500 bytes, or 1,272 where
/// there are weights.
pub fn slice_form(controls: &Controls, form: &mut Vec<u8>) -> Result<(), AllocError>
    ensures written { OnOk result (form.new.items ≡ form.old.items ++ slice_form controls.now) }
    ensures size { OnOk result (vec_len form.new ≡ vec_len form.old + slice_size controls.now) }
    ensures room { vec_len form.old + slice_size controls.now ≤ vec_capacity form.old
        → IsOk result }
    ensures unchanged { OnErr result (form.new.items ≡ form.old.items) }
{
    form.reserve(slice_size(controls))?;
    put_slice(controls, form);
    Ok(())
}

fn digest_size(controls: &Controls) -> usize
    ensures { result ≡ digest_size controls.now }
{
    1540 + slice_size(controls)
}

fn slice_size(controls: &Controls) -> usize
    ensures { result ≡ slice_size controls.now }
{
    match controls.pred_weights {
        Some(_) => 1272,
        None => 500,
    }
}

// The controls in order, into a form that has room for them.
#[tactic(auto, unfolding(crate::specs::DigestForm::digest_form, param_set_controls::specs::SetsForm::sets_form, crate::specs::DigestForm::slice_form))]
fn put_controls(controls: &Controls, form: &mut Vec<u8>)
    requires { vec_len form.old + digest_size controls.now ≤ vec_capacity form.old }
    ensures items { form.new.items ≡ form.old.items ++ digest_form controls.now }
    ensures len { vec_len form.new ≡ vec_len form.old + digest_size controls.now }
{
    put_sets(&controls.sets, form);
    put_slice(controls, form);
}

// The rest, into a form that has room for it.
#[tactic(auto, unfolding(crate::specs::DigestForm::slice_form))]
fn put_slice(controls: &Controls, form: &mut Vec<u8>)
    requires { vec_len form.old + slice_size controls.now ≤ vec_capacity form.old }
    ensures items { form.new.items ≡ form.old.items ++ slice_form controls.now }
    ensures len { vec_len form.new ≡ vec_len form.old + slice_size controls.now }
{
    put_weights(controls, form);
    controls.slice_params.put(form);
    controls.decode_params.put(form);
}

// Whether there are weights, and the weights.
fn put_weights(controls: &Controls, form: &mut Vec<u8>)
    requires { vec_len form.old + weights_size controls.now.pred_weights ≤ vec_capacity form.old }
    ensures items { form.new.items ≡ form.old.items ++ weights_form controls.now.pred_weights }
    ensures len { vec_len form.new ≡ vec_len form.old + weights_size controls.now.pred_weights }
    ensures capacity { vec_capacity form.old ≤ vec_capacity form.new }
{
    match &controls.pred_weights {
        None => put(form, &[0]),
        Some(weights) => {
            put(form, &[1]);
            weights.put(form);
        }
    }
}

/// The digest form is that of what the parameter sets decide, and the rest after it.
pub fn digest_in_two_parts()
    ensures { (controls : Controls)
        → digest_form controls ≡ sets_form controls.sets ++ slice_form controls }
{}
