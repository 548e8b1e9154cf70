//! A writer of bits, for units that no encoder writes.

use std::alloc::{AllocError, Global};

/// Bits that are written, the first one first.
#[derive(Debug, Drop)]
pub struct BitWriter {
    bits: Vec<bool>,
}

impl BitWriter {
    /// No bits.
    pub fn new(alloc: Global) -> BitWriter {
        BitWriter {
            bits: Vec::new(alloc),
        }
    }

    /// How many bits were written.
    pub fn count(&self) -> usize {
        self.bits.len()
    }

    /// u(n) of a value (7.2).
    pub fn u(&mut self, n: u32, value: u64) -> Result<(), AllocError> {
        for i in (0..n).rev() {
            self.bits.push(value.checked_shr(i).unwrap_or(0) % 2 == 1)?;
        }
        Ok(())
    }

    /// ue(v) of a value (9.1): the value plus one in binary, with one zero fewer before it than it
    /// has digits.
    pub fn ue(&mut self, value: u64) -> Result<(), AllocError> {
        let next = value.saturating_add(1);
        let digits = 64u32.saturating_sub(next.leading_zeros());
        self.u(digits.saturating_sub(1), 0)?;
        self.u(digits, next)
    }

    /// se(v) of a value (9.1.1).
    pub fn se(&mut self, value: i32) -> Result<(), AllocError> {
        let twice = 2 * u64::from(value.unsigned_abs());
        self.ue(twice.saturating_sub(u64::from(value > 0)))
    }

    /// A one so many times.
    pub fn ones(&mut self, count: u32) -> Result<(), AllocError> {
        for _ in 0..count {
            self.bits.push(true)?;
        }
        Ok(())
    }

    /// The stop bit of a payload, and zeros to the end of its last byte (7.3.2.11).
    pub fn stop(&mut self) -> Result<(), AllocError> {
        self.bits.push(true)?;
        for _ in 0..(8 - self.bits.len() % 8) % 8 {
            self.bits.push(false)?;
        }
        Ok(())
    }

    /// The first so many bits as bytes; ones fill the last byte.
    pub fn bytes(&self, alloc: Global, count: usize) -> Result<Vec<u8>, AllocError> {
        let mut bytes = Vec::new(alloc);
        for byte in self.bits[..count.min(self.bits.len())].chunks(8) {
            bytes.push(byte_of(byte))?;
        }
        Ok(bytes)
    }

    /// The first so many bits as a unit with this first byte after a start code, with emulation
    /// prevention (7.3.1); ones fill the last byte.
    pub fn unit(&self, alloc: Global, first: u8, count: usize) -> Result<Vec<u8>, AllocError> {
        let mut unit = Vec::new(alloc);
        unit.extend_from_slice(&[0, 0, 1, first])?;
        let mut zeros = 0u8;
        for byte in self.bits[..count.min(self.bits.len())].chunks(8) {
            zeros = put_escaped(&mut unit, zeros, byte_of(byte))?;
        }
        Ok(unit)
    }
}

/// The byte of up to eight bits, which ones follow.
fn byte_of(bits: &[bool]) -> u8 {
    let mut byte = 0xFFu8;
    for (place, bit) in bits.iter().enumerate() {
        if !*bit && place < 8 {
            byte &= !(0x80 >> place);
        }
    }
    byte
}

/// Puts a byte after so many zeros, with emulation prevention; how many zeros stand at the end
/// then.
fn put_escaped(unit: &mut Vec<u8>, zeros: u8, byte: u8) -> Result<u8, AllocError> {
    let mut zeros = zeros;
    if zeros >= 2 && byte <= 3 {
        unit.push(3)?;
        zeros = 0;
    }
    unit.push(byte)?;
    Ok(if byte == 0 {
        zeros.saturating_add(1)
    } else {
        0
    })
}
