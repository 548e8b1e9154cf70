//! The references of a request in its line: the decoded picture buffer and the lists.

ghost use Rattle.std.specs.Prelude.{◌≡◌, ◌++◌, List, ℕ, string_bytes, OnOk};
ghost use Rattle.std.specs.List.{flat_map, zip};
ghost use Rattle.unit_printing.specs.Lines.{entry_text, list_text, next_text, numbers_text, place_text};
ghost use Rattle.unit_printing.specs.Growing.{Grows};

use crate::lines::numbers::{put_number, put_signed, put_text};
use h264_controls::{DpbEntryFlags, V4l2H264DpbEntry};
use h264_types::pictures::AuId;
use std::alloc::AllocError;

/// Adds the entries of a decoded picture buffer, each with the unit of its frame.
pub(crate) fn put_dpb(
    text: &mut String,
    units: &[AuId],
    entries: &[V4l2H264DpbEntry],
) -> Result<(), AllocError>
    ensures { OnOk result (Grows (string_bytes text.old) (string_bytes text.new)
        (list_text entry_text (zip units.now entries.now))) }
{
    let Some((unit, units)) = units.split_first() else {
        return put_text(text, "-");
    };
    let Some((entry, entries)) = entries.split_first() else {
        return put_text(text, "-");
    };
    put_entry(text, *unit, entry.pic_num, entry.flags)?;
    put_more_entries(text, units, entries)
}

/// Adds the entries after the first.
fn put_more_entries(
    text: &mut String,
    units: &[AuId],
    entries: &[V4l2H264DpbEntry],
) -> Result<(), AllocError>
    ensures { OnOk result (Grows (string_bytes text.old) (string_bytes text.new)
        (flat_map next_text (zip units.now entries.now))) }
{
    for (unit, entry) in units.iter().zip(entries) {
        put_text(text, ",")?;
        put_entry(text, *unit, entry.pic_num, entry.flags)?;
    }
    Ok(())
}

/// Adds the numbers of an entry of a decoded picture buffer, with the unit of its frame.
pub(crate) fn put_entry(
    text: &mut String,
    unit: AuId,
    pic_num: u32,
    flags: DpbEntryFlags,
) -> Result<(), AllocError>
    ensures { OnOk result (Grows (string_bytes text.old) (string_bytes text.new)
        (numbers_text unit pic_num flags)) }
{
    put_number(text, unit.timestamp())?;
    put_text(text, ":")?;
    put_signed(text, pic_num.cast_signed())?;
    put_text(text, ":")?;
    put_number(text, u64::from(flags.number()))
}

/// Adds the entries of a reference picture list.
pub(crate) fn put_list(text: &mut String, entries: &[Option<u8>]) -> Result<(), AllocError>
    ensures { OnOk result (Grows (string_bytes text.old) (string_bytes text.new)
        (list_text place_text entries.now)) }
{
    let Some((first, others)) = entries.split_first() else {
        return put_text(text, "-");
    };
    put_place(text, *first)?;
    for place in others {
        put_text(text, ",")?;
        put_place(text, *place)?;
    }
    Ok(())
}

/// Adds an entry of a reference picture list: a place in the decoded picture buffer, or missing.
fn put_place(text: &mut String, place: Option<u8>) -> Result<(), AllocError>
    ensures { OnOk result (Grows (string_bytes text.old) (string_bytes text.new)
        (place_text place)) }
{
    match place {
        Some(index) => put_number(text, u64::from(index)),
        None => put_text(text, "x"),
    }
}
