//! Each field of a header at both ends of its range, past them, and cut (7.3.3).

use super::tables::{B, Field, Header, IDR, LONG, P, SWITCHING};
use super::writer::{Code, put};
use super::{row_holds, summary_of};
use annexb::{SplitFault, split};
use h264_types::base::AtMost;
use h264_types::param_sets::{Pps, Sps, WeightedBipred};
use slice_header::HeaderFault;
use std::alloc::{AllocError, Global};
use std::process::Abort;
use std::test::Fail;
use test_builders::{BitWriter, small_pps, small_sps};

/// 256 macroblocks, and a picture parameter set that announces each field.
fn sets(alloc: Global, header: &Header, width: u8) -> (Sps, Pps) {
    let (mut sps, mut pps) = (small_sps(alloc), small_pps(alloc));
    sps.pic_width_in_mbs_minus1 = 15;
    sps.pic_height_in_map_units_minus1 = 15;
    sps.pic_order_cnt_type = header.count_type;
    sps.chroma_format_idc = header.chroma_format_idc;
    sps.log2_max_frame_num_minus4 = AtMost::new(width % 13);
    sps.log2_max_pic_order_cnt_lsb_minus4 = AtMost::new(width.wrapping_mul(5) % 13);
    pps.entropy_coding_mode_flag = true;
    pps.bottom_field_pic_order_in_frame_present_flag = true;
    pps.weighted_pred_flag = true;
    pps.weighted_bipred_idc = WeightedBipred::Explicit;
    pps.deblocking_filter_control_present_flag = true;
    pps.redundant_pic_cnt_present_flag = true;
    (sps, pps)
}

/// A field of a header: its header, its place among the codes, and the sets.
#[derive(Clone, Copy)]
struct Place<'a> {
    header: &'a Header,
    at: usize,
    sps: &'a Sps,
    pps: &'a Pps,
}

/// The header with this code at its place, and where the code begins and ends.
fn written(
    alloc: Global,
    place: &Place<'_>,
    code: Code,
) -> Result<(BitWriter, usize, usize), AllocError> {
    let mut writer = BitWriter::new(alloc);
    let (mut start, mut end) = (0, 0);
    for (at, other) in place.header.codes.iter().enumerate() {
        if at == place.at {
            start = writer.count();
            put(&mut writer, place.sps, code)?;
            end = writer.count();
        } else {
            put(&mut writer, place.sps, *other)?;
        }
    }
    Ok((writer, start, end))
}

/// The size of the header of the one unit of a text, or its fault.
fn header_bit_size(
    alloc: Global,
    text: &[u8],
    place: &Place<'_>,
) -> Result<Option<Result<usize, HeaderFault>>, SplitFault> {
    let nals = split(alloc, text)?;
    let [nal] = nals.as_slice() else {
        return Ok(None);
    };
    Ok(Some(match summary_of(alloc, nal, place.sps, place.pps) {
        Ok((_, _, header_bit_size, _, _)) => Ok(header_bit_size as usize),
        Err(fault) => Err(fault),
    }))
}

/// Whether the first so many bits are read as a header of this size, or show this fault.
fn reads(
    alloc: Global,
    place: &Place<'_>,
    writer: &BitWriter,
    count: usize,
    wanted: Result<usize, HeaderFault>,
) -> Result<bool, Fail> {
    let text = writer.unit(alloc, place.header.first, count)?;
    Ok(header_bit_size(alloc, &text, place)? == Some(wanted))
}

/// Whether the payload is cut where it ends after so many bits; nothing where a unit can't end
/// there.
fn is_cut(
    alloc: Global,
    place: &Place<'_>,
    writer: &BitWriter,
    count: usize,
) -> Result<Option<bool>, Fail> {
    let text = writer.unit(alloc, place.header.first, count)?;
    if count % 8 != 0 || text.last() == Some(&0) {
        return Ok(None);
    }
    Ok(Some(header_bit_size(alloc, &text, place)? == Some(Err(HeaderFault::Cut))))
}

/// How often a code is cut, so often as a byte ends in it; nothing where a cut shows something
/// else.
fn cuts(
    alloc: Global,
    place: &Place<'_>,
    writer: &BitWriter,
    start: usize,
    end: usize,
) -> Result<Option<usize>, Fail> {
    let mut cuts = 0usize;
    for count in start..end {
        match is_cut(alloc, place, writer, count)? {
            Some(true) => cuts = cuts.saturating_add(1),
            Some(false) => return Ok(None),
            None => {}
        }
    }
    Ok(Some(cuts))
}

/// How often a code is cut that is read.
fn cuts_of_read(alloc: Global, place: &Place<'_>, code: Code) -> Result<Option<usize>, Fail> {
    let (writer, start, end) = written(alloc, place, code)?;
    let size = writer.count().saturating_add(8);
    if reads(alloc, place, &writer, writer.count(), Ok(size))? {
        cuts(alloc, place, &writer, start, end)
    } else {
        Ok(None)
    }
}

/// Whether a code is out of the range of its field.
fn is_refused(alloc: Global, place: &Place<'_>, code: Code) -> Result<bool, Fail> {
    let (writer, _, _) = written(alloc, place, code)?;
    reads(
        alloc,
        place,
        &writer,
        writer.count(),
        Err(HeaderFault::Value),
    )
}

/// How often the codes are cut that are read; nothing where one isn't read, or one that is to be
/// refused is.
fn cuts_of_field(
    alloc: Global,
    place: &Place<'_>,
    read: &[Code],
    refused: &[Code],
) -> Result<Option<usize>, Fail> {
    let mut cuts = 0usize;
    for code in read {
        match cuts_of_read(alloc, place, *code)? {
            Some(count) => cuts = cuts.saturating_add(count),
            None => return Ok(None),
        }
    }
    for code in refused {
        if !is_refused(alloc, place, *code)? {
            return Ok(None);
        }
    }
    Ok(Some(cuts))
}

/// The same with sets of this width.
fn cuts_of_width(
    alloc: Global,
    header: &Header,
    field: &Field,
    width: u8,
) -> Result<Option<usize>, Fail> {
    let (sps, pps) = sets(alloc, header, width);
    let place = Place {
        header,
        at: field.0,
        sps: &sps,
        pps: &pps,
    };
    cuts_of_field(alloc, &place, field.1, field.2)
}

/// Whether a field is right where it begins at each place within a byte, and is cut somewhere.
fn field_is_right(alloc: Global, header: &Header, field: &Field) -> Result<bool, Fail> {
    let mut cuts = 0usize;
    for width in 0..13u8 {
        match cuts_of_width(alloc, header, field, width)? {
            Some(count) => cuts = cuts.saturating_add(count),
            None => return Ok(false),
        }
    }
    Ok(cuts > 0 || field.0 == 0)
}

/// Each field of a header.
fn has_fields(rt: &(impl Abort + AllocGlobal), header: &Header) -> Result<(), Fail> {
    for field in header.fields {
        row_holds(rt, field.0, field_is_right(rt.alloc(), header, field)?);
    }
    Ok(())
}

#[test]
fn fields_at_the_ends_of_their_ranges(rt: HostRuntime) -> Result<(), Fail> {
    for header in &[IDR, P, B, LONG, SWITCHING] {
        has_fields(&rt, header)?;
    }
    Ok(())
}
