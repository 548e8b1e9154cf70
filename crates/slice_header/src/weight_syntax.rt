//! Reads the table of weights (7.3.3.2).

ghost use Rattle.std.specs.Prelude.{◌≡◌, ◌≤◌, ◌+◌, ◌^◌, pos, negsuc, IfOk};
ghost use Rattle.expgolomb.specs.Answer.{Reads};
ghost use Rattle.expgolomb.specs.Grammar.{Signed};
ghost use Rattle.expgolomb.specs.Ranges.{between};
ghost use Rattle.expgolomb.specs.TableReading.{rows_at, value_at};
ghost use Rattle.slice_header.specs.HeaderAnswer.{Stores};
ghost use Rattle.slice_header.specs.PredWeightTableSyntax.{denominator_table, luma_table, chroma_table, chroma_rows, inferred_chroma, take_chroma, entry_syntax, entries_syntax, weight_syntax};
ghost use Rattle.expgolomb.specs.Structures.{table_at, syntax_at};

use crate::HeaderFault;
use crate::fields::{flag, se, ue};
use expgolomb::Bits;
use h264_types::slice_headers::{PredWeight, PredWeightTable, PredWeights};
use std::alloc::Global;

/// The denominators, as powers of 2.
#[derive(Clone, Copy)]
pub struct Denominators {
    pub luma_log2_weight_denom: u8,
    pub chroma_log2_weight_denom: u8,
}

/// The luma weight of an entry, and whether it was sent.
#[derive(Clone, Copy)]
pub struct LumaWeight {
    pub luma_weight_flag: bool,
    pub luma_weight: i16,
    pub luma_offset: i8,
}

/// The chroma weights of an entry, and whether they were sent.
#[derive(Clone, Copy)]
pub struct ChromaWeight {
    pub chroma_weight_flag: bool,
    pub cb_weight: i16,
    pub cb_offset: i8,
    pub cr_weight: i16,
    pub cr_offset: i8,
}

/// Reads the table of lists with so many active entries.
pub fn pred_weight_table(
    alloc: Global,
    bits: &mut Bits<'_>,
    has_chroma: bool,
    active_l0: u8,
    active_l1: u8,
) -> Result<PredWeightTable, HeaderFault>
    requires few_l0 { active_l0 ≤ 32 }
    requires few_l1 { active_l1 ≤ 32 }
    ensures exact { Stores (λ table. table) result bits.new
        (syntax_at (weight_syntax has_chroma active_l0 active_l1) bits.old) }
    ensures near { bits.new.before ≤ bits.old.before + 40000 }
{
    let denominators = read_denominators(bits, has_chroma)?;
    let weights_l0 = weights(alloc, bits, has_chroma, denominators, active_l0)?;
    let weights_l1 = weights(alloc, bits, has_chroma, denominators, active_l1)?;
    Ok(PredWeightTable {
        luma_log2_weight_denom: denominators.luma_log2_weight_denom,
        chroma_log2_weight_denom: denominators.chroma_log2_weight_denom,
        weights_l0,
        weights_l1,
    })
}

#[tactic(auto, unfolding(crate::specs::PredWeightTableSyntax::denominator_table, expgolomb::specs::Structures::table_at, expgolomb::specs::TableReading::rows_at))]
fn read_denominators(bits: &mut Bits<'_>, has_chroma: bool) -> Result<Denominators, HeaderFault>
    ensures exact { Reads (λ denominators. denominators) result bits.new
        (table_at (denominator_table has_chroma) bits.old) }
    ensures bounds { IfOk result (λ d. (d.luma_log2_weight_denom ≤ 7)
        × (d.chroma_log2_weight_denom ≤ 7)) }
    ensures near { bits.new.before ≤ bits.old.before + 126 }
{
    let luma_log2_weight_denom = ue(bits, 7)? as u8;
    let chroma_log2_weight_denom = if has_chroma { ue(bits, 7)? as u8 } else { 0 };
    Ok(Denominators {
        luma_log2_weight_denom,
        chroma_log2_weight_denom,
    })
}

// The weights of so many entries.
fn weights(
    alloc: Global,
    bits: &mut Bits<'_>,
    has_chroma: bool,
    denominators: Denominators,
    entries: u8,
) -> Result<PredWeights, HeaderFault>
    requires few { entries ≤ 32 }
    requires luma { denominators.luma_log2_weight_denom ≤ 7 }
    requires chroma { denominators.chroma_log2_weight_denom ≤ 7 }
    ensures exact { Stores (λ weights. weights) result bits.new
        (syntax_at (entries_syntax has_chroma denominators entries) bits.old) }
    ensures near { bits.new.before ≤ bits.old.before + 17000 }
{
    let mut weights = PredWeights::new(alloc);
    for _ in 0..entries {
        let weight = pred_weight(bits, has_chroma, denominators)?;
        weights.push(weight)?;
    }
    Ok(weights)
}

// The weights of an entry.
#[tactic(auto, unfolding(crate::specs::PredWeightTableSyntax::entry_syntax, expgolomb::specs::Structures::syntax_at))]
fn pred_weight(
    bits: &mut Bits<'_>,
    has_chroma: bool,
    denominators: Denominators,
) -> Result<PredWeight, HeaderFault>
    requires luma { denominators.luma_log2_weight_denom ≤ 7 }
    requires chroma { denominators.chroma_log2_weight_denom ≤ 7 }
    ensures exact { Reads (λ weight. weight) result bits.new
        (syntax_at (entry_syntax has_chroma denominators) bits.old) }
    ensures near { bits.new.before ≤ bits.old.before + 504 }
{
    let luma = read_luma(bits, denominators.luma_log2_weight_denom)?;
    let chroma = read_chroma(bits, has_chroma, denominators.chroma_log2_weight_denom)?;
    Ok(PredWeight {
        luma_weight: luma.luma_weight,
        luma_offset: luma.luma_offset,
        cb_weight: chroma.cb_weight,
        cb_offset: chroma.cb_offset,
        cr_weight: chroma.cr_weight,
        cr_offset: chroma.cr_offset,
    })
}

#[tactic(auto, unfolding(crate::specs::PredWeightTableSyntax::luma_table, expgolomb::specs::Structures::table_at, expgolomb::specs::TableReading::rows_at))]
fn read_luma(bits: &mut Bits<'_>, log2_denom: u8) -> Result<LumaWeight, HeaderFault>
    requires { log2_denom ≤ 7 }
    ensures exact { Reads (λ weight. weight) result bits.new
        (table_at (luma_table log2_denom) bits.old) }
    ensures near { bits.new.before ≤ bits.old.before + 189 }
{
    if flag(bits)? {
        Ok(LumaWeight {
            luma_weight_flag: true,
            luma_weight: weight_value(bits)?,
            luma_offset: offset_value(bits)?,
        })
    } else {
        Ok(LumaWeight {
            luma_weight_flag: false,
            luma_weight: default_weight(log2_denom),
            luma_offset: 0,
        })
    }
}

#[tactic(auto, unfolding(crate::specs::PredWeightTableSyntax::chroma_table, expgolomb::specs::Structures::table_at, expgolomb::specs::TableReading::rows_at))]
fn read_chroma(
    bits: &mut Bits<'_>,
    has_chroma: bool,
    log2_denom: u8,
) -> Result<ChromaWeight, HeaderFault>
    requires { log2_denom ≤ 7 }
    ensures exact { Reads (λ weight. weight) result bits.new
        (table_at (chroma_table has_chroma log2_denom) bits.old) }
    ensures near { bits.new.before ≤ bits.old.before + 315 }
{
    let is_sent = if has_chroma { flag(bits)? } else { false };
    chroma_weight(bits, is_sent, log2_denom)
}

// What follows the flag.
#[tactic(auto, unfolding(crate::specs::PredWeightTableSyntax::chroma_rows, expgolomb::specs::TableReading::rows_at))]
fn chroma_weight(
    bits: &mut Bits<'_>,
    is_sent: bool,
    log2_denom: u8,
) -> Result<ChromaWeight, HeaderFault>
    requires { log2_denom ≤ 7 }
    ensures exact { Reads (λ weight. weight) result bits.new
        (rows_at take_chroma chroma_rows (inferred_chroma is_sent log2_denom) bits.old) }
    ensures near { bits.new.before ≤ bits.old.before + 252 }
{
    let mut weight = ChromaWeight {
        chroma_weight_flag: is_sent,
        cb_weight: default_weight(log2_denom),
        cb_offset: 0,
        cr_weight: default_weight(log2_denom),
        cr_offset: 0,
    };
    if is_sent {
        weight.cb_weight = weight_value(bits)?;
        weight.cb_offset = offset_value(bits)?;
        weight.cr_weight = weight_value(bits)?;
        weight.cr_offset = offset_value(bits)?;
    }
    Ok(weight)
}

fn weight_value(bits: &mut Bits<'_>) -> Result<i16, HeaderFault>
    ensures exact { Reads (λ v. v) result bits.new
        (value_at Signed HeaderFault.Cut HeaderFault.Value
        (between (negsuc 127) (pos 127) HeaderFault.Value) bits.old) }
    ensures near { bits.new.before ≤ bits.old.before + 63 }
{
    let weight = se(bits, -128, 127)?;
    Ok(weight as i16)
}

fn offset_value(bits: &mut Bits<'_>) -> Result<i8, HeaderFault>
    ensures exact { Reads (λ v. v) result bits.new
        (value_at Signed HeaderFault.Cut HeaderFault.Value
        (between (negsuc 127) (pos 127) HeaderFault.Value) bits.old) }
    ensures near { bits.new.before ≤ bits.old.before + 63 }
{
    let offset = se(bits, -128, 127)?;
    Ok(offset as i8)
}

// The weight of an entry that sends none.
fn default_weight(log2_denom: u8) -> i16
    requires { log2_denom ≤ 7 }
    ensures { result ≡ pos (2 ^ log2_denom) }
{
    i16::from(1u8 << log2_denom)
}
