//! Numbers in a line.

ghost use Rattle.std.specs.Prelude.{◌++◌, decimal, string_bytes, OnOk};
ghost use Rattle.std.specs.Fmt.{signed_decimal};
ghost use Rattle.unit_printing.specs.Growing.{Grows};

use itoa::Buffer;
use std::alloc::AllocError;

/// Adds a text.
#[inline(always)]
pub(crate) fn put_text(text: &mut String, more: &str) -> Result<(), AllocError>
    ensures { OnOk result (Grows (string_bytes text.old) (string_bytes text.new) more.now) }
{
    text.push_str(more)
}

/// Adds a number. Most numbers of a line have one digit.
#[inline(always)]
#[tactic(auto, using(std::proofs::lemmas::Fmt::decimal_digit))]
pub(crate) fn put_number(text: &mut String, number: u64) -> Result<(), AllocError>
    ensures { OnOk result (Grows (string_bytes text.old) (string_bytes text.new)
        (decimal number)) }
{
    if number < 10 {
        return text.push(char::from(b'0' + number as u8));
    }
    put_digits(text, number)
}

/// Adds a number that may have several digits. It stands apart, so that what is inlined stays
/// small.
#[inline(never)]
fn put_digits(text: &mut String, number: u64) -> Result<(), AllocError>
    ensures { OnOk result (Grows (string_bytes text.old) (string_bytes text.new)
        (decimal number)) }
{
    text.push_str(Buffer::new().format(number))
}

/// Adds a number that may be negative.
pub(crate) fn put_signed(text: &mut String, number: i32) -> Result<(), AllocError>
    ensures { OnOk result (Grows (string_bytes text.old) (string_bytes text.new)
        (signed_decimal number)) }
{
    if number >= 0 {
        return put_number(text, number as u64);
    }
    text.push_str(Buffer::new().format(number))
}

/// Adds a number after its name.
#[inline(always)]
pub(crate) fn put_field(text: &mut String, name: &str, number: u64) -> Result<(), AllocError>
    ensures { OnOk result (Grows (string_bytes text.old) (string_bytes text.new)
        (name.now ++ decimal number)) }
{
    put_text(text, name)?;
    put_number(text, number)
}
