//! Eight bytes as one number, in which a code is found without going bit by bit.

ghost use Rattle.std.specs.Prelude.{◌≡◌, ◌-◌, ◌<◌, ◌++◌, ◌*◌, ◌≤◌, length, take, drop, replicate};
ghost use Rattle.expgolomb.specs.Bits.{number, bits_of};
ghost use Rattle.expgolomb.specs.Window.{IsWindow};

// The next eight bytes, most significant first, with zeros past the end.
#[inline(always)]
fn word(bytes: &[u8]) -> u64
    ensures { result ≡ number (bits_of (take 8 (bytes.now ++ replicate 8 0))) }
{
    match bytes {
        [a, b, c, d, e, f, g, h, ..] => u64::from_be_bytes([*a, *b, *c, *d, *e, *f, *g, *h]),
        short => last_word(short),
    }
}

#[cold]
fn last_word(bytes: &[u8]) -> u64
    ensures { result ≡ number (bits_of (take 8 (bytes.now ++ replicate 8 0))) }
{
    let mut word = 0;
    for i in 0..8 {
        word = 256 * word + u64::from(bytes.get(i).copied().unwrap_or(0));
    }
    word
}

/// The bits of `bytes` after the first few of the first byte.
#[inline(always)]
pub fn window(bytes: &[u8], bit: u8) -> u64
    requires bit { bit < 8 }
    requires within { bit ≤ 8 * length bytes.now }
    ensures { IsWindow (drop bit (bits_of bytes.now)) result }
{
    word(bytes) << bit
}
