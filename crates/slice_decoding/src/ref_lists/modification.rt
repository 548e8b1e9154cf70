//! Modification of reference picture lists (8.2.4.3).

ghost use Rattle.std.specs.Prelude.{◌≡◌, ◌<◌, ◌≤◌, ◌+ℤ◌, ◌-ℤ◌, ◌≤ℤ◌, ℕ, length, count_by, Ok, Err, if◌then◌else◌, pos, negsuc, position};
ghost use Rattle.slice_decoding.specs.declared.ref_lists.fault.ListFault.TheVariants.{BadModification};
ghost use Rattle.slice_decoding.specs.Modification.{no_wrap, named, has_number, is_entry_of, has_bad_command, modified};

use crate::ref_lists::fault::ListFault;
use crate::ref_lists::reference_list::put;
use h264_types::param_sets::Sps;
use h264_types::pictures::{Frame, List};
use h264_types::slice_headers::RefPicListModification;

/// The number by which a command names a frame.
#[derive(Clone, Copy)]
pub(crate) enum PictureNumber {
    PicNum(i64),
    LongTermPicNum(u32),
}

/// The list after its commands, each for the next entry.
pub(crate) fn modified(
    mut list: List,
    commands: &[RefPicListModification],
    frames: &[Frame],
    sps: &Sps,
    frame_num: u16,
) -> Result<List, ListFault>
    requires few { length frames.now ≤ 16 }
    requires once { (place : ℕ) → count_by (is_entry_of place) list ≤ 1 }
    ensures { result ≡ (if has_bad_command sps.now frame_num frames.now (length list) commands.now
        then Err BadModification
        else Ok (modified sps.now frame_num frames.now commands.now list)) }
{
    let count = list.entries().len().min(commands.len());
    let mut number = i64::from(frame_num);
    for (index, command) in commands[..count].iter().enumerate() {
        number = no_wrap(*command, number, sps);
        let named = PictureNumber::named(*command, number, sps, frame_num);
        let Some(place) = named.place_in(frames, sps, frame_num) else {
            return Err(ListFault::BadModification);
        };
        put(&mut list, index, place as u8);
    }
    Ok(list)
}

impl PictureNumber {
    /// The number that a command names, by its picNumLXNoWrap (8-36).
    fn named(
        command: RefPicListModification,
        number: i64,
        sps: &Sps,
        frame_num: u16,
    ) -> PictureNumber
        requires { negsuc 1099511627776 ≤ℤ number }
        ensures { result ≡ named sps.now frame_num number command }
    {
        match command {
            RefPicListModification::LongTerm { long_term_pic_num } => {
                PictureNumber::LongTermPicNum(long_term_pic_num)
            }
            _ if number > i64::from(frame_num) => {
                PictureNumber::PicNum(number - i64::from(sps.max_frame_num()))
            }
            _ => PictureNumber::PicNum(number),
        }
    }

    /// The first place in the marks of a frame with this number.
    fn place_in(self, frames: &[Frame], sps: &Sps, frame_num: u16) -> Option<usize>
        ensures { result ≡ position (has_number sps.now frame_num self) frames.now }
    {
        frames
            .iter()
            .position(|frame| self.is_of(frame, sps, frame_num))
    }

    fn is_of(self, frame: &Frame, sps: &Sps, frame_num: u16) -> bool
        ensures { result ≡ has_number sps.now frame_num self frame.now }
    {
        match self {
            PictureNumber::PicNum(number) => frame.pic_num(sps, frame_num) == Some(number),
            PictureNumber::LongTermPicNum(number) => {
                frame.long_term_pic_num().map(u32::from) == Some(number)
            }
        }
    }
}

/// picNumLXNoWrap: less or more than the last by the command's difference, once around MaxFrameNum
/// (8-34, 8-35).
fn no_wrap(command: RefPicListModification, last: i64, sps: &Sps) -> i64
    requires low { negsuc 1099511627775 ≤ℤ last }
    requires high { last ≤ℤ pos 1099511627776 }
    ensures value { result ≡ no_wrap sps.now last command }
    ensures low { (last -ℤ pos 8589934592) ≤ℤ result }
    ensures high { result ≤ℤ (last +ℤ pos 8589934592) }
{
    let max_frame_num = i64::from(sps.max_frame_num());
    match command {
        RefPicListModification::Subtract {
            abs_diff_pic_num_minus1,
        } => {
            let lower = last - (i64::from(abs_diff_pic_num_minus1) + 1);
            if lower < 0 {
                lower + max_frame_num
            } else {
                lower
            }
        }
        RefPicListModification::Add {
            abs_diff_pic_num_minus1,
        } => {
            let higher = last + (i64::from(abs_diff_pic_num_minus1) + 1);
            if higher < max_frame_num {
                higher
            } else {
                higher - max_frame_num
            }
        }
        RefPicListModification::LongTerm { .. } => last,
    }
}
