ghost use Rattle.std.specs.Prelude.{◌≡◌, ℕ, ℤ, ◌+◌, ◌*◌, ◌-◌, ◌<◌, ◌≤◌, ◌^◌, ◌↔◌, Bool, true, ◌==◌, not, if◌then◌else◌, List, [], ◌∷◌, ◌%◌, length, drop, take, IsTrue, IfOk, OnErr, IsErrOf, Contains, Ok, Err, MatchResult};
ghost use Rattle.std.specs.List.{list_any};
ghost use Rattle.expgolomb.specs.Bits.{Place, start, skip, bits_of};
ghost use Rattle.expgolomb.specs.Codes.{IsZeros, Follows, IsFixed, IsUe, IsSe, IsCut, IsTooLong, HasMoreData, signed};
ghost use Rattle.expgolomb.specs.Window.{IsWindow};
ghost use Rattle.expgolomb.specs.Reading.{fixed_at, ue_at, se_at, Gives};

use crate::fault::CodeFault;
use crate::word::window;
use std::marker::Model;

/// A reader of the bits of a payload, each byte from its most significant bit on.
#[derive(Debug, Drop)]
pub struct Bits<'a> {
    bytes: &'a [u8],
    // The byte that has the next bit, and how many bits of it are read.
    at: usize,
    bit: u8,
}

impl<'a> Model for Bits<'a> {
    ghost use Rattle.std.specs.Prelude.{◌+◌, ◌*◌, ◌<◌, ◌≤◌, length};
    ghost use Rattle.expgolomb.specs.Bits.{Place, skip, start};

    ghost Value = { Place };

    ghost view = { λ b. skip (8 * b.at + b.bit) (start b.bytes.now) };

    ghost invariant = { λ b. (b.bit < 8) × (8 * b.at + b.bit ≤ 8 * length b.bytes.now) };
}

impl<'a> Bits<'a> {
    /// A reader at the first bit.
    pub fn new(bytes: &'a [u8]) -> Self
        ensures { result ≡ start bytes.now }
    {
        Bits {
            bytes,
            at: 0,
            bit: 0,
        }
    }

    /// How many bits are read.
    pub fn place(&self) -> usize
        requires { self.now.before < 2 ^ 64 }
        ensures { result ≡ self.now.before }
    {
        8 * self.at + self.bit as usize
    }

    /// Reads one bit, u(1).
    pub fn bit(&mut self) -> Result<bool, CodeFault>
        ensures found { IfOk result (λ bit. Follows (bit ∷ []) self.old self.new) }
        ensures cut { IsErrOf result CodeFault.Cut ↔ (self.old.rest ≡ []) }
        ensures too_long { IsErrOf result CodeFault.TooLong → ⊥ }
        ensures unchanged { OnErr result (self.new ≡ self.old) }
        ensures exact { Gives (λ bit. if bit then 1 else 0) result self.old self.new
            (fixed_at 1 self.old) }
    {
        Ok(self.fixed(1)? == 1)
    }

    /// Reads `n` bits, u(n), as a number.
    #[inline(never)]
    pub fn fixed(&mut self, n: u8) -> Result<u32, CodeFault>
        requires some { 1 ≤ n }
        requires few { n ≤ 32 }
        ensures found { IfOk result (λ v. (word : List Bool) × IsFixed n word v
            × Follows word self.old self.new) }
        ensures cut { IsErrOf result CodeFault.Cut ↔ (length self.old.rest < n) }
        ensures too_long { IsErrOf result CodeFault.TooLong → ⊥ }
        ensures unchanged { OnErr result (self.new ≡ self.old) }
        ensures below { IfOk result (λ v. v < 2 ^ n) }
        ensures near { self.new.before ≤ self.old.before + n }
        ensures exact { Gives (λ v. v) result self.old self.new (fixed_at n self.old) }
    {
        let code = self.fixed_code(n);
        self.take(code)
    }

    /// Reads an unsigned Exp-Golomb code, ue(v).
    #[inline(never)]
    pub fn ue(&mut self) -> Result<u32, CodeFault>
        ensures found { IfOk result (λ v. (word : List Bool) × IsUe word v
            × Follows word self.old self.new) }
        ensures only { (word : List Bool) (v : ℕ) (after : Place) → IsUe word v
            → Follows word self.old after →
            (result ≡ Ok v) × (self.new ≡ after) }
        ensures cut { IsErrOf result CodeFault.Cut ↔ IsCut self.old.rest }
        ensures too_long { IsErrOf result CodeFault.TooLong ↔ IsTooLong self.old.rest }
        ensures unchanged { OnErr result (self.new ≡ self.old) }
        ensures below { IfOk result (λ v. v < 2 ^ 32 - 1) }
        ensures near { self.new.before ≤ self.old.before + 63 }
        ensures exact { Gives (λ v. v) result self.old self.new (ue_at self.old) }
    {
        let code = self.ue_code();
        self.take(code)
    }

    /// Reads a signed Exp-Golomb code, se(v).
    #[inline(never)]
    pub fn se(&mut self) -> Result<i32, CodeFault>
        ensures found { IfOk result (λ v. (word : List Bool) × IsSe word v
            × Follows word self.old self.new) }
        ensures only { (word : List Bool) (v : ℤ) (after : Place) → IsSe word v
            → Follows word self.old after →
            (result ≡ Ok v) × (self.new ≡ after) }
        ensures cut { IsErrOf result CodeFault.Cut ↔ IsCut self.old.rest }
        ensures too_long { IsErrOf result CodeFault.TooLong ↔ IsTooLong self.old.rest }
        ensures unchanged { OnErr result (self.new ≡ self.old) }
        ensures near { self.new.before ≤ self.old.before + 63 }
        ensures exact { Gives (λ v. v) result self.old self.new (se_at self.old) }
    {
        let code = self.se_code();
        self.take(code)
    }

    /// Whether more than the stop bit is left: more_rbsp_data().
    pub fn more_data(&self) -> bool
        ensures { IsTrue result ↔ HasMoreData self.now }
    {
        let (_, left) = self.bytes.split_at(self.at);
        has_one_past(left, self.bit)
    }

    // Whether n bits are left.
    #[inline(always)]
    fn has(&self, n: u8) -> bool
        requires { n ≤ 32 }
        ensures { IsTrue result ↔ (n ≤ length self.now.rest) }
    {
        (self.bit as usize + n as usize).div_ceil(8) <= self.bytes.len() - self.at
    }

    // The next 57 bits and more, most significant first.
    #[inline(always)]
    fn window(&self) -> u64
        ensures { IsWindow self.now.rest result }
    {
        let (_, left) = self.bytes.split_at(self.at);
        window(left, self.bit)
    }

    // A reader n bits further on.
    #[inline(always)]
    fn ahead(&self, n: u8) -> Bits<'a>
        requires short { n ≤ 32 }
        requires left { n ≤ length self.now.rest }
        ensures { result ≡ skip n self.now }
    {
        let bits = self.bit + n;
        Bits {
            bytes: self.bytes,
            at: self.at + (bits / 8) as usize,
            bit: bits % 8,
        }
    }

    // The next n bits as a number, and a reader after them.
    #[inline(always)]
    fn fixed_code(&self, n: u8) -> Result<(u32, Bits<'a>), CodeFault>
        requires some { 1 ≤ n }
        requires few { n ≤ 32 }
        ensures { result ≡ fixed_at n self.now }
    {
        if !self.has(n) {
            return Err(CodeFault::Cut);
        }
        let number = self.window() >> (64 - n);
        Ok((number as u32, self.ahead(n)))
    }

    // The next ue(v) value, and a reader after its code.
    #[inline(always)]
    fn ue_code(&self) -> Result<(u32, Bits<'a>), CodeFault>
        ensures exact { result ≡ ue_at self.now }
        ensures below { IfOk result (λ read. read.0 < 2 ^ 32 - 1) }
    {
        let zeros = self.zeros()?;
        let (successor, after) = self.ahead(zeros).fixed_code(zeros + 1)?;
        Ok((successor - 1, after))
    }

    // The next se(v) value, and a reader after its code.
    #[inline(always)]
    fn se_code(&self) -> Result<(i32, Bits<'a>), CodeFault>
        ensures { result ≡ se_at self.now }
    {
        let (k, after) = self.ue_code()?;
        Ok((signed(k), after))
    }

    // Goes after a code that was read.
    #[inline(always)]
    fn take<V>(&mut self, code: Result<(V, Bits<'a>), CodeFault>) -> Result<V, CodeFault>
        ensures { Gives (λ v. v) result self.old self.new code.entry }
    {
        let (value, after) = code?;
        *self = after;
        Ok(value)
    }

    // How many zeros the next code begins with, where a 1 comes after them.
    #[inline(always)]
    fn zeros(&self) -> Result<u8, CodeFault>
        ensures { MatchResult result (IsZeros self.now.rest) (λ fault. ue_at self.now ≡ Err fault) }
    {
        let zeros = self.window().leading_zeros();
        if zeros < 32 {
            Ok(zeros as u8)
        } else if self.has(32) {
            Err(CodeFault::TooLong)
        } else {
            Err(CodeFault::Cut)
        }
    }
}

// Whether a 1 stands after a bit of the first byte.
fn has_one_past(bytes: &[u8], bit: u8) -> bool
    requires { bit < 8 }
    ensures { IsTrue result ↔ Contains (drop (bit + 1) (bits_of bytes.now)) true }
{
    match bytes {
        [] => false,
        [byte, more @ ..] => low_bits(*byte, 7 - bit) != 0 || has_one(more),
    }
}

// The n low bits of a byte.
fn low_bits(byte: u8, n: u8) -> u8
    requires { n < 8 }
    ensures { result ≡ byte % 2 ^ n }
{
    byte % (1 << n)
}

// Whether any bit is a 1.
fn has_one(bytes: &[u8]) -> bool
    ensures { result ≡ list_any (λ byte. not (byte == 0)) bytes.now }
{
    bytes.iter().any(|byte| *byte != 0)
}

// Table 9-3: 0, 1, -1, 2, -2 and so on.
fn signed(k: u32) -> i32
    requires { k < 2 ^ 32 - 1 }
    ensures { result ≡ signed k }
{
    let half = (k / 2) as i32;
    if k % 2 == 1 { half + 1 } else { -half }
}
