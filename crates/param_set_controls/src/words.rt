//! Members of controls as bytes: little-endian, signed ones in two's complement.
//!
//! Each function appends to a form that has room for what comes, so that none is refused memory.

ghost use Rattle.std.specs.Prelude.{◌≡◌, ◌+◌, ◌*◌, ◌≤◌, ◌++◌, length, replicate, vec_len};
ghost use Rattle.std.specs.Vec.{vec_capacity};
ghost use Rattle.std.specs.List.{flat_map};
ghost use Rattle.param_set_controls.specs.Words.{flag, u16, u32, s16, s32};

/// The number of a flag where it is set, else 0.
pub fn flag(number: u16, set: bool) -> u16
    ensures value { result ≡ flag number set }
    ensures bound { result ≤ number }
{
    if set { number } else { 0 }
}

/// These bytes.
pub fn put(form: &mut Vec<u8>, bytes: &[u8])
    requires { vec_len form.old + length bytes.now ≤ vec_capacity form.old }
    ensures items { form.new.items ≡ form.old.items ++ bytes.now }
    ensures len { vec_len form.new ≡ vec_len form.old + length bytes.now }
    ensures capacity { vec_capacity form.old ≤ vec_capacity form.new }
{
    let _ = form.extend_from_slice(bytes);
}

#[tactic(auto, unfolding(crate::specs::Words::u16))]
pub fn put_u16(form: &mut Vec<u8>, number: u16)
    requires { vec_len form.old + 2 ≤ vec_capacity form.old }
    ensures items { form.new.items ≡ form.old.items ++ u16 number }
    ensures len { vec_len form.new ≡ vec_len form.old + 2 }
    ensures capacity { vec_capacity form.old ≤ vec_capacity form.new }
{
    put(form, &number.to_le_bytes());
}

#[tactic(auto, unfolding(crate::specs::Words::u32))]
pub fn put_u32(form: &mut Vec<u8>, number: u32)
    requires { vec_len form.old + 4 ≤ vec_capacity form.old }
    ensures items { form.new.items ≡ form.old.items ++ u32 number }
    ensures len { vec_len form.new ≡ vec_len form.old + 4 }
    ensures capacity { vec_capacity form.old ≤ vec_capacity form.new }
{
    put(form, &number.to_le_bytes());
}

#[tactic(auto, unfolding(crate::specs::Words::s16))]
pub fn put_s16(form: &mut Vec<u8>, number: i16)
    requires { vec_len form.old + 2 ≤ vec_capacity form.old }
    ensures items { form.new.items ≡ form.old.items ++ s16 number }
    ensures len { vec_len form.new ≡ vec_len form.old + 2 }
    ensures capacity { vec_capacity form.old ≤ vec_capacity form.new }
{
    put_u16(form, number.cast_unsigned());
}

#[tactic(auto, unfolding(crate::specs::Words::s32))]
pub fn put_s32(form: &mut Vec<u8>, number: i32)
    requires { vec_len form.old + 4 ≤ vec_capacity form.old }
    ensures items { form.new.items ≡ form.old.items ++ s32 number }
    ensures len { vec_len form.new ≡ vec_len form.old + 4 }
    ensures capacity { vec_capacity form.old ≤ vec_capacity form.new }
{
    put_u32(form, number.cast_unsigned());
}

pub fn put_s16s(form: &mut Vec<u8>, numbers: &[i16])
    requires { vec_len form.old + 2 * length numbers.now ≤ vec_capacity form.old }
    ensures items { form.new.items ≡ form.old.items ++ flat_map s16 numbers.now }
    ensures len { vec_len form.new ≡ vec_len form.old + 2 * length numbers.now }
    ensures capacity { vec_capacity form.old ≤ vec_capacity form.new }
{
    for number in numbers {
        put_s16(form, *number);
    }
}

pub fn put_s32s(form: &mut Vec<u8>, numbers: &[i32])
    requires { vec_len form.old + 4 * length numbers.now ≤ vec_capacity form.old }
    ensures items { form.new.items ≡ form.old.items ++ flat_map s32 numbers.now }
    ensures len { vec_len form.new ≡ vec_len form.old + 4 * length numbers.now }
    ensures capacity { vec_capacity form.old ≤ vec_capacity form.new }
{
    for number in numbers {
        put_s32(form, *number);
    }
}

pub fn put_zeros(form: &mut Vec<u8>, count: usize)
    requires { vec_len form.old + count ≤ vec_capacity form.old }
    ensures items { form.new.items ≡ form.old.items ++ replicate count 0 }
    ensures len { vec_len form.new ≡ vec_len form.old + count }
    ensures capacity { vec_capacity form.old ≤ vec_capacity form.new }
{
    let _ = form.resize(form.len() + count, 0);
}
