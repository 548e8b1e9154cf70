//! Reads the modifications of a list (7.3.3.1).

ghost use Rattle.std.specs.Prelude.{◌≡◌, ◌≤◌, ◌+◌, ◌*◌, [], true, false, pos};
ghost use Rattle.expgolomb.specs.Answer.{Reads};
ghost use Rattle.expgolomb.specs.Grammar.{Unsigned};
ghost use Rattle.expgolomb.specs.TableReading.{value_at};
ghost use Rattle.slice_header.specs.HeaderAnswer.{Stores};
ghost use Rattle.slice_header.specs.RefPicListModificationSyntax.{flag_table, command_table, idc_range, modification_syntax};
ghost use Rattle.expgolomb.specs.Structures.{table_at, syntax_at, ended};

use crate::HeaderFault;
use crate::fields::{flag, ue, ue_any};
use expgolomb::Bits;
use h264_types::slice_headers::{RefPicListModification, RefPicListModifications};
use std::alloc::Global;

/// Reads the commands of a list of so many active entries less 1, where the slice has it.
pub fn ref_pic_list_modification(
    alloc: Global,
    bits: &mut Bits<'_>,
    is_there: bool,
    active_minus1: u8,
    max_frame_num: u32,
) -> Result<RefPicListModifications, HeaderFault>
    requires some { 1 ≤ max_frame_num }
    requires few { active_minus1 ≤ 31 }
    ensures exact { Stores (λ commands. commands) result bits.new
        (syntax_at (modification_syntax is_there active_minus1 max_frame_num) bits.old) }
    ensures near { bits.new.before ≤ bits.old.before + 8000 }
{
    if modification_flag(bits, is_there)? {
        commands(alloc, bits, active_minus1 + 1, max_frame_num)
    } else {
        Ok(RefPicListModifications::new(alloc))
    }
}

#[tactic(auto, unfolding(crate::specs::RefPicListModificationSyntax::flag_table, expgolomb::specs::Structures::table_at, expgolomb::specs::TableReading::rows_at))]
fn modification_flag(bits: &mut Bits<'_>, is_there: bool) -> Result<bool, HeaderFault>
    ensures exact { Reads (λ flag. flag) result bits.new (table_at (flag_table is_there) bits.old) }
    ensures near { bits.new.before ≤ bits.old.before + 63 }
{
    if is_there { flag(bits) } else { Ok(false) }
}

// The commands up to the end, at most as many as entries.
fn commands(
    alloc: Global,
    bits: &mut Bits<'_>,
    entries: u8,
    max_frame_num: u32,
) -> Result<RefPicListModifications, HeaderFault>
    requires some { 1 ≤ max_frame_num }
    requires few { entries ≤ 32 }
    ensures exact { Stores (λ commands. commands) result bits.new
        (syntax_at (ended (command_table max_frame_num) entries []) bits.old) }
    ensures near { bits.new.before ≤ bits.old.before + 7000 }
{
    let mut commands = RefPicListModifications::new(alloc);
    for _ in 0..entries {
        match command(bits, true, max_frame_num)? {
            Some(command) => commands.push(command)?,
            None => return Ok(commands),
        }
    }
    let _end = command(bits, false, max_frame_num)?;
    Ok(commands)
}

// A command, or nothing at the end, which alone may stand where there is no room.
#[tactic(auto, unfolding(crate::specs::RefPicListModificationSyntax::command_table, expgolomb::specs::Structures::table_at, expgolomb::specs::TableReading::rows_at))]
fn command(
    bits: &mut Bits<'_>,
    has_room: bool,
    max_frame_num: u32,
) -> Result<Option<RefPicListModification>, HeaderFault>
    requires { 1 ≤ max_frame_num }
    ensures exact { Reads (λ command. command) result bits.new
        (table_at (command_table max_frame_num has_room) bits.old) }
    ensures near { bits.new.before ≤ bits.old.before + 126 }
{
    match command_idc(bits, has_room)? {
        0 => Ok(Some(RefPicListModification::Subtract {
            abs_diff_pic_num_minus1: ue(bits, max_frame_num - 1)?,
        })),
        1 => Ok(Some(RefPicListModification::Add {
            abs_diff_pic_num_minus1: ue(bits, max_frame_num - 1)?,
        })),
        2 => Ok(Some(RefPicListModification::LongTerm {
            long_term_pic_num: ue_any(bits)?,
        })),
        _ => Ok(None),
    }
}

// modification_of_pic_nums_idc.
#[tactic(auto, unfolding(expgolomb::specs::TableReading::value_at))]
fn command_idc(bits: &mut Bits<'_>, has_room: bool) -> Result<u32, HeaderFault>
    ensures exact { Reads pos result bits.new (value_at Unsigned HeaderFault.Cut HeaderFault.Value
        (idc_range has_room) bits.old) }
    ensures near { bits.new.before ≤ bits.old.before + 63 }
{
    let idc = bits.ue()?;
    if idc == 3 || has_room && idc < 3 {
        Ok(idc)
    } else {
        Err(HeaderFault::Value)
    }
}
