//! Initial reference picture lists (8.2.4.2).

ghost use Rattle.std.specs.Prelude.{◌≡◌, [], ◌<◌, ◌≤◌, ◌≤ℤ◌, length, negsuc, map, slice_get, IsPermutation, IsSortedBy};
ghost use Rattle.std.specs.Ordering.{is_lt};
ghost use Rattle.std.specs.List.{range_with_len};
ghost use Rattle.slice_decoding.specs.InitialLists.{rising, falling, standing, short_term_standing, standing_at, compare, initial_list, exchanged};

use arrayvec::ArrayVec;
use h264_types::param_sets::Sps;
use h264_types::pictures::{Frame, frame_num_wrap};

/// How the short-term frames of a list are ordered.
#[derive(Clone, Copy)]
pub(crate) enum ListOrder {
    /// By PicNum, as in P slices.
    ByPicNum,
    /// By PicOrderCnt, first those below the picture's, as in list 0 of B slices.
    BelowFirst { pic_order_cnt: i32 },
    /// By PicOrderCnt, first those above the picture's, as in list 1 of B slices.
    AboveFirst { pic_order_cnt: i32 },
}

/// The groups of a list, one after the other.
#[derive(Clone, Copy, Debug, Default, PartialEq, Eq, PartialOrd, Ord)]
pub(crate) enum Group {
    #[default]
    First,
    Second,
    LongTerm,
}

/// Where a frame stands in a list: the lower number first in each group.
#[derive(Clone, Copy, Debug, Default, PartialEq, Eq, PartialOrd, Ord)]
pub(crate) struct Standing {
    group: Group,
    number: i64,
    place: u8,
}

impl Standing {
    fn rising(group: Group, number: i64, place: u8) -> Standing
        ensures { result ≡ rising group number place }
    {
        Standing {
            group,
            number,
            place,
        }
    }

    fn falling(group: Group, number: i64, place: u8) -> Standing
        requires { negsuc 4294967295 ≤ℤ number }
        ensures { result ≡ falling group number place }
    {
        Standing::rising(group, -number, place)
    }
}

impl ListOrder {
    fn standing(self, sps: &Sps, frame_num: u16, frame: &Frame, place: u8) -> Standing
        ensures { result ≡ standing sps.now frame_num self frame.now place }
    {
        match frame.long_term_pic_num() {
            Some(number) => Standing::rising(Group::LongTerm, i64::from(number), place),
            None => self.short_term_standing(sps, frame_num, frame, place),
        }
    }

    fn short_term_standing(self, sps: &Sps, frame_num: u16, frame: &Frame, place: u8) -> Standing
        ensures { result ≡ short_term_standing sps.now frame_num self frame.now place }
    {
        let count = frame.counts.pic_order_cnt();
        match self {
            ListOrder::ByPicNum => {
                let pic_num = frame_num_wrap(sps, frame_num, frame.frame_num);
                Standing::falling(Group::First, pic_num, place)
            }
            ListOrder::BelowFirst { pic_order_cnt } if count < pic_order_cnt => {
                Standing::falling(Group::First, i64::from(count), place)
            }
            ListOrder::BelowFirst { .. } => Standing::rising(
                Group::Second,
                i64::from(count),
                place,
            ),
            ListOrder::AboveFirst { pic_order_cnt } if count < pic_order_cnt => {
                Standing::falling(Group::Second, i64::from(count), place)
            }
            ListOrder::AboveFirst { .. } => Standing::rising(Group::First, i64::from(count), place),
        }
    }
}

/// The places of the frames, in the order of a list.
pub(crate) fn initial_list(
    frames: &[Frame],
    order: ListOrder,
    sps: &Sps,
    frame_num: u16,
) -> ArrayVec<u8, 16>
    requires { length frames.now ≤ 16 }
    ensures { result.items ≡ initial_list sps.now frame_num order frames.now }
{
    let mut standings = ArrayVec::new();
    push_standings(&mut standings, frames, order, sps, frame_num);
    sort(&mut standings);
    places(&standings)
}

fn sort(standings: &mut ArrayVec<Standing, 16>)
    ensures members { IsPermutation standings.old.items standings.new.items }
    ensures in_order { IsSortedBy (λ a b. is_lt (compare a b)) standings.new.items }
{
    standings.sort_unstable();
}

fn push_standings(
    standings: &mut ArrayVec<Standing, 16>,
    frames: &[Frame],
    order: ListOrder,
    sps: &Sps,
    frame_num: u16,
)
    requires few { length frames.now ≤ 16 }
    requires none { standings.old.items ≡ [] }
    ensures { standings.new.items
        ≡ map (standing_at sps.now frame_num order frames.now)
        (range_with_len 0 (length frames.now)) }
{
    for (place, frame) in frames.iter().enumerate() {
        standings.push(order.standing(sps, frame_num, frame, place as u8));
    }
}

fn places(standings: &[Standing]) -> ArrayVec<u8, 16>
    requires { length standings.now ≤ 16 }
    ensures { result.items ≡ map (λ standing. standing.place) standings.now }
{
    let mut places = ArrayVec::new();
    for standing in standings {
        places.push(standing.place);
    }
    places
}

/// List 1's first two entries change places where it is list 0 and has more than one.
pub(crate) fn exchange(list_1: &mut ArrayVec<u8, 16>, list_0: &ArrayVec<u8, 16>)
    ensures { list_1.new.items ≡ exchanged list_0.now.items list_1.old.items }
{
    if list_1.len() > 1 && list_1.as_slice() == list_0.as_slice() {
        list_1.swap(0, 1);
    }
}
