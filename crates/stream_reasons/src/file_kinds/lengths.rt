//! NAL units with their lengths before them, as MP4 holds them (ISO/IEC 14496-15, 5.3.3).

ghost use Rattle.std.specs.Prelude.{◌≡◌};
ghost use Rattle.stream_reasons.specs.Lengths.{header_fits, is_length_prefixed, unit_end};

/// Whether the bytes begin with a NAL unit after its length in four bytes, and another such.
pub(crate) fn is_length_prefixed(bytes: &[u8]) -> bool
    ensures { result ≡ is_length_prefixed bytes.now }
{
    match unit_end(bytes) {
        Some(end) => match bytes.get(end..) {
            Some(rest) => unit_end(rest).is_some(),
            None => false,
        },
        None => false,
    }
}

/// Where the NAL unit ends that the bytes begin with after its length, of two bytes or more and
/// less than 16,777,216, if it begins as those of H.264 do.
fn unit_end(bytes: &[u8]) -> Option<usize>
    ensures { result ≡ unit_end bytes.now }
{
    match bytes {
        [0, high, middle, low, header, ..] => {
            let len = usize::from(*high) * 65_536 + usize::from(*middle) * 256 + usize::from(*low);
            if len >= 2 && header_fits(*header) {
                Some(4 + len)
            } else {
                None
            }
        }
        _ => None,
    }
}

/// Whether it is the first byte of a slice, of a parameter set, of supplemental enhancement
/// information or of a delimiter, with a nal_ref_idc that such have (7.4.1).
fn header_fits(header: u8) -> bool
    ensures { result ≡ header_fits header }
{
    let nal_ref_idc = header / 32;
    match header % 32 {
        1 => nal_ref_idc < 4,
        5 | 7 | 8 => nal_ref_idc > 0 && nal_ref_idc < 4,
        6 | 9 => nal_ref_idc == 0,
        _ => false,
    }
}
