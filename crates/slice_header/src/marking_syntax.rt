//! Reads the marking of a picture (7.3.3.3).

ghost use Rattle.std.specs.Prelude.{◌≡◌, ◌≤◌, ◌+◌, pos, true};
ghost use Rattle.expgolomb.specs.Answer.{Reads};
ghost use Rattle.expgolomb.specs.Grammar.{Unsigned};
ghost use Rattle.expgolomb.specs.TableReading.{value_at};
ghost use Rattle.slice_header.specs.HeaderAnswer.{Stores};
ghost use Rattle.slice_header.specs.DecRefPicMarkingSyntax.{marking_table, operation_table, operation_range, operations_syntax, marking_syntax};
ghost use Rattle.expgolomb.specs.Structures.{table_at, syntax_at};

use crate::HeaderFault;
use crate::fields::{flag, ue_any};
use expgolomb::Bits;
use h264_types::slice_headers::{
    DecRefPicMarking, MOST_OPERATIONS, MemoryManagementControlOperation,
    MemoryManagementControlOperations,
};
use std::alloc::Global;

/// The flags of dec_ref_pic_marking().
#[derive(Clone, Copy)]
pub struct MarkingFlags {
    pub no_output_of_prior_pics_flag: bool,
    pub long_term_reference_flag: bool,
    pub adaptive_ref_pic_marking_mode_flag: bool,
}

/// Reads the marking of a picture that is a reference or not, IDR or not.
pub fn dec_ref_pic_marking(
    alloc: Global,
    bits: &mut Bits<'_>,
    is_reference: bool,
    is_idr: bool,
) -> Result<DecRefPicMarking, HeaderFault>
    ensures exact { Stores (λ marking. marking) result bits.new
        (syntax_at (marking_syntax is_reference is_idr) bits.old) }
    ensures near { bits.new.before ≤ bits.old.before + 20000 }
{
    let flags = marking_flags(bits, is_reference, is_idr)?;
    if is_idr {
        Ok(DecRefPicMarking::Idr {
            no_output_of_prior_pics_flag: flags.no_output_of_prior_pics_flag,
            long_term_reference_flag: flags.long_term_reference_flag,
        })
    } else if flags.adaptive_ref_pic_marking_mode_flag {
        let operations = operations(alloc, bits)?;
        Ok(DecRefPicMarking::Adaptive { operations })
    } else {
        Ok(DecRefPicMarking::SlidingWindow)
    }
}

#[tactic(auto, unfolding(crate::specs::DecRefPicMarkingSyntax::marking_table, expgolomb::specs::Structures::table_at, expgolomb::specs::TableReading::rows_at))]
fn marking_flags(
    bits: &mut Bits<'_>,
    is_reference: bool,
    is_idr: bool,
) -> Result<MarkingFlags, HeaderFault>
    ensures exact { Reads (λ flags. flags) result bits.new
        (table_at (marking_table is_reference is_idr) bits.old) }
    ensures near { bits.new.before ≤ bits.old.before + 126 }
{
    let mut flags = MarkingFlags {
        no_output_of_prior_pics_flag: false,
        long_term_reference_flag: false,
        adaptive_ref_pic_marking_mode_flag: false,
    };
    if is_reference {
        if is_idr {
            flags.no_output_of_prior_pics_flag = flag(bits)?;
            flags.long_term_reference_flag = flag(bits)?;
        } else {
            flags.adaptive_ref_pic_marking_mode_flag = flag(bits)?;
        }
    }
    Ok(flags)
}

// The operations up to the end.
fn operations(
    alloc: Global,
    bits: &mut Bits<'_>,
) -> Result<MemoryManagementControlOperations, HeaderFault>
    ensures exact { Stores (λ operations. operations) result bits.new
        (syntax_at operations_syntax bits.old) }
    ensures near { bits.new.before ≤ bits.old.before + 16000 }
{
    let mut operations = MemoryManagementControlOperations::new(alloc);
    for _ in 0..MOST_OPERATIONS {
        match operation(bits, true)? {
            Some(operation) => operations.push(operation)?,
            None => return Ok(operations),
        }
    }
    let _end = operation(bits, false)?;
    Ok(operations)
}

// An operation, or nothing at the end, which alone may stand where there is no room.
#[tactic(auto, unfolding(crate::specs::DecRefPicMarkingSyntax::operation_table, expgolomb::specs::Structures::table_at, expgolomb::specs::TableReading::rows_at))]
fn operation(
    bits: &mut Bits<'_>,
    has_room: bool,
) -> Result<Option<MemoryManagementControlOperation>, HeaderFault>
    ensures exact { Reads (λ operation. operation) result bits.new
        (table_at (operation_table has_room) bits.old) }
    ensures near { bits.new.before ≤ bits.old.before + 189 }
{
    match operation_code(bits, has_room)? {
        1 => Ok(Some(MemoryManagementControlOperation::FreeShortTerm {
            difference_of_pic_nums_minus1: ue_any(bits)?,
        })),
        2 => Ok(Some(MemoryManagementControlOperation::FreeLongTerm {
            long_term_pic_num: ue_any(bits)?,
        })),
        3 => Ok(Some(MemoryManagementControlOperation::AssignLongTerm {
            difference_of_pic_nums_minus1: ue_any(bits)?,
            long_term_frame_idx: ue_any(bits)?,
        })),
        4 => Ok(Some(MemoryManagementControlOperation::LimitLongTerm {
            max_long_term_frame_idx_plus1: ue_any(bits)?,
        })),
        5 => Ok(Some(MemoryManagementControlOperation::FreeAll)),
        6 => Ok(Some(MemoryManagementControlOperation::CurrentLongTerm {
            long_term_frame_idx: ue_any(bits)?,
        })),
        _ => Ok(None),
    }
}

// memory_management_control_operation.
#[tactic(auto, unfolding(expgolomb::specs::TableReading::value_at))]
fn operation_code(bits: &mut Bits<'_>, has_room: bool) -> Result<u32, HeaderFault>
    ensures exact { Reads pos result bits.new (value_at Unsigned HeaderFault.Cut HeaderFault.Value
        (operation_range has_room) bits.old) }
    ensures near { bits.new.before ≤ bits.old.before + 63 }
{
    let code = bits.ue()?;
    if code == 0 || has_room && code <= 6 {
        Ok(code)
    } else {
        Err(HeaderFault::Value)
    }
}
