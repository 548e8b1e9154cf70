//! Construction of the lists of a slice (8.2.4).

ghost use Rattle.std.specs.Prelude.{◌↔◌, IsTrue, IsFalse, IfOk, All, ◌≡◌, ◌+◌, ◌∷◌, ◌≤◌, true, false, nat_eq, length, Ok, Err, if◌then◌else◌};
ghost use Rattle.std.specs.List.{IsDistinct, list_any};
ghost use Rattle.std.specs.Ordering.{int_eq};
ghost use Rattle.h264_types.specs.declared.pictures.counts.Counts.{Counts};
ghost use Rattle.slice_decoding.specs.InitialLists.{cut};
ghost use Rattle.slice_decoding.specs.Modification.{has_bad_command, modified};
ghost use Rattle.slice_decoding.specs.declared.ref_lists.fault.ListFault.TheVariants.{OrderTie, NoReference, BadModification};
ghost use Rattle.slice_decoding.specs.ReferenceLists.{has_list_0, has_list_1, has_repeat, short_term_counts, has_order_tie, lacks_reference, has_bad_modification, active_l0, active_l1, Answer, Constructs, IsMarked, lists_of};

use crate::ref_lists::fault::ListFault;
use crate::ref_lists::initial_lists::{ListOrder, exchange, initial_list};
use crate::ref_lists::modification::modified;
use crate::ref_lists::reference_list::cut;
use arrayvec::ArrayVec;
use h264_types::base::AtMost;
use h264_types::param_sets::Sps;
use h264_types::pictures::{Counts, Frame, List, Marks};
use h264_types::slice_headers::{RefPicListModifications, SliceHeader, SliceType};

/// List 0 and list 1 of a slice, from the frames marked before its picture and the picture's counts
/// before resetting.
///
/// I and SI slices have no lists, P and SP slices have list 0 alone: a list that the slice doesn't
/// have is empty. An entry is the place of its frame in the marks. Where several frames stand alike
/// or have the number that a command names, the first in decode order comes first; commands past
/// the last entry are left out.
///
/// - `OrderTie`: a short-term frame has the PicOrderCnt of another or of the picture, in a B slice.
/// - `NoReference`: no frame is marked, in a slice that has a list.
/// - `BadModification`: a command names no marked frame.
pub fn lists(
    marks: &Marks,
    sps: &Sps,
    header: &SliceHeader,
    counts: Counts,
) -> Result<(List, List), ListFault>
    ensures constructed { Constructs marks.now sps.now header.now counts result }
    ensures only { (other : Answer) →
        Constructs marks.now sps.now header.now counts other → other ≡ result }
    ensures exact { result ≡ lists_of marks.now sps.now header.now counts }

    // The first of these is answered, and else the lists.
    ensures order_tie { (result ≡ Err OrderTie)
        ↔ IsTrue (has_order_tie marks.now header.now counts) }
    ensures no_reference { (result ≡ Err NoReference)
        ↔ (IsFalse (has_order_tie marks.now header.now counts)
        × IsTrue (lacks_reference marks.now header.now)) }
    ensures bad_modification { (result ≡ Err BadModification)
        ↔ (IsFalse (has_order_tie marks.now header.now counts)
        × IsFalse (lacks_reference marks.now header.now)
        × IsTrue (has_bad_modification marks.now sps.now header.now)) }

    // As many entries as are active, each missing or the place of a frame.
    ensures lengths { IfOk result
        (λ lists. (length lists.0 ≡ active_l0 header.now)
        × (length lists.1 ≡ active_l1 header.now)) }
    ensures marked { IfOk result
        (λ lists. All (IsMarked marks.now) lists.0 × All (IsMarked marks.now) lists.1) }
{
    match header.slice_type {
        SliceType::I | SliceType::Si => Ok((List::new(), List::new())),
        SliceType::P | SliceType::Sp => p_lists(marks, sps, header),
        SliceType::B => b_lists(marks, sps, header, counts),
    }
}

fn p_lists(marks: &Marks, sps: &Sps, header: &SliceHeader) -> Result<(List, List), ListFault>
    requires has_list_0 { has_list_0 header.now.slice_type ≡ true }
    requires lacks_list_1 { has_list_1 header.now.slice_type ≡ false }
    ensures { (counts : Counts) → result ≡ lists_of marks.now sps.now header.now counts }
{
    let references = marks.frames();
    if references.is_empty() {
        return Err(ListFault::NoReference);
    }
    let initial = initial_list(references, ListOrder::ByPicNum, sps, header.frame_num);
    let list_0 = final_list(
        &initial,
        header.num_ref_idx_l0_active_minus1,
        &header.ref_pic_list_modification_l0,
        references,
        sps,
        header.frame_num,
    )?;
    Ok((list_0, List::new()))
}

fn b_lists(
    marks: &Marks,
    sps: &Sps,
    header: &SliceHeader,
    counts: Counts,
) -> Result<(List, List), ListFault>
    requires { has_list_1 header.now.slice_type ≡ true }
    ensures { result ≡ lists_of marks.now sps.now header.now counts }
{
    let frames = marks.frames();
    let pic_order_cnt = counts.pic_order_cnt();
    if has_repeat(&counts_with(pic_order_cnt, frames)) {
        return Err(ListFault::OrderTie);
    }
    if frames.is_empty() {
        return Err(ListFault::NoReference);
    }
    let below_first = ListOrder::BelowFirst { pic_order_cnt };
    let above_first = ListOrder::AboveFirst { pic_order_cnt };
    let initial_0 = initial_list(frames, below_first, sps, header.frame_num);
    let mut initial_1 = initial_list(frames, above_first, sps, header.frame_num);
    exchange(&mut initial_1, &initial_0);
    let list_0 = final_list(
        &initial_0,
        header.num_ref_idx_l0_active_minus1,
        &header.ref_pic_list_modification_l0,
        frames,
        sps,
        header.frame_num,
    )?;
    let list_1 = final_list(
        &initial_1,
        header.num_ref_idx_l1_active_minus1,
        &header.ref_pic_list_modification_l1,
        frames,
        sps,
        header.frame_num,
    )?;
    Ok((list_0, list_1))
}

/// An initial list, cut to its active entries and modified.
fn final_list(
    initial: &[u8],
    num_ref_idx_active_minus1: AtMost<31>,
    commands: &RefPicListModifications,
    frames: &[Frame],
    sps: &Sps,
    frame_num: u16,
) -> Result<List, ListFault>
    requires few { length frames.now ≤ 16 }
    requires once { IsDistinct nat_eq initial.now }
    ensures { let active = num_ref_idx_active_minus1 + 1 in
        result ≡ (if has_bad_command sps.now frame_num frames.now active commands.now
        then Err BadModification
        else Ok (modified sps.now frame_num frames.now commands.now (cut active initial.now))) }
{
    let active = usize::from(num_ref_idx_active_minus1.get()) + 1;
    let list = cut(initial, active);
    let commands = commands.as_slice();
    if commands.is_empty() {
        return Ok(list);
    }
    modified(list, commands, frames, sps, frame_num)
}

fn counts_with(pic_order_cnt: i32, frames: &[Frame]) -> ArrayVec<i32, 17>
    requires { length frames.now ≤ 16 }
    ensures { result.items ≡ pic_order_cnt ∷ short_term_counts frames.now }
{
    let mut counts = ArrayVec::new();
    counts.push(pic_order_cnt);
    for frame in frames {
        if frame.long_term_pic_num().is_none() {
            counts.push(frame.counts.pic_order_cnt());
        }
    }
    counts
}

fn has_repeat(numbers: &[i32]) -> bool
    ensures { result ≡ has_repeat numbers.now }
{
    for (index, number) in numbers.iter().enumerate() {
        if is_among(*number, &numbers[index + 1..]) {
            return true;
        }
    }
    false
}

fn is_among(number: i32, numbers: &[i32]) -> bool
    ensures { result ≡ list_any (int_eq number) numbers.now }
{
    numbers.iter().any(|other| number == *other)
}
