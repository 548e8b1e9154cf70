//! The arcs from units to the frames that their lists name.

ghost use Rattle.std.specs.Prelude.{◌≡◌, ◌<◌, ◌≤◌, ℕ, IfSome, length};
ghost use Rattle.stream_svg.specs.Arcs.{EndsAt, IsAtEdge, aim_of, arc_of, begin_of, depth_of, edge_of, end_of, place_of, reach_of, span_of};
ghost use Rattle.stream_svg.specs.Boxes.{IsSmall, stream_box};

use crate::geometry::{Point, Rect};
use crate::grid::{Grid, MOST_BAND};
use crate::unit::{DrawnReference, DrawnUnit, RefList};
use h264_types::pictures::AuId;

/// Where the stub of an arc ends whose frame isn't drawn.
const STUB: usize = 46;
/// How far an arc goes that spans no unit, and how much farther for each.
const LEAST_DEPTH: usize = 14;

const DEPTH: usize = 5;
/// How far an arc goes at most: it reaches three quarters of that.
const MOST_DEPTH: usize = 150;

/// An arc from a unit to a frame that one of its lists names.
#[derive(Clone, Copy, Debug, PartialEq, Eq)]
pub struct Arc {
    pub reference: DrawnReference,
    /// At the box of the unit.
    pub from: Point,
    /// At the box of the frame's unit, or left of all boxes.
    pub to: Point,
    /// Whether the frame's unit is drawn.
    pub is_whole: bool,
    /// How far the arc's control points lie from its row.
    pub depth: usize,
}

/// The arc from the unit at a place to a frame that one of its lists names.
///
/// Where the frame's unit isn't drawn, it is a stub that ends left of all boxes.
pub fn arc_of(grid: Grid, units: &[DrawnUnit], place: usize, reference: DrawnReference) -> Arc
    requires units { grid.units ≡ length units.now }
    requires within { place < length units.now }
    ensures value { result ≡ arc_of grid units.now place reference }
    ensures reference { result.reference ≡ reference }
    ensures from { IsAtEdge reference.list (stream_box grid place) result.from }
    ensures to { EndsAt grid reference.list (place_of units.now reference.frame) result.to }
    ensures depth { result.depth ≤ MOST_DEPTH }
    ensures small { result.from.y < 100000 }
{
    let target = place_of(units, reference.frame);
    let depth = depth_of(span_of(place, target));
    let from = left_of_middle(reference.list, grid.stream_box(place));
    Arc {
        reference,
        from,
        to: end_of(
            grid,
            reference.list,
            target,
            reach(reference.list, from, depth),
        ),
        is_whole: target.is_some(),
        depth,
    }
}

/// The place of the unit with this id among those that are drawn.
fn place_of(units: &[DrawnUnit], id: AuId) -> Option<usize>
    ensures value { result ≡ place_of units.now id }
    ensures within { IfSome result (λ place. place < length units.now) }
{
    units.iter().position(|unit| unit.id == id)
}

/// Where the arcs of a list end at the unit that refers: on the edge of its box, left of the
/// middle.
fn left_of_middle(list: RefList, area: Rect) -> Point
    requires { IsSmall area }
    ensures value { result ≡ begin_of list area }
    ensures at { IsAtEdge list area result }
    ensures small { result.y < 100000 }
{
    Point {
        x: area.x + area.width / 2 - area.width / 5,
        y: edge_of(list, area),
    }
}

/// Where they end at the unit that is referred to: right of the middle.
fn right_of_middle(list: RefList, area: Rect) -> Point
    requires { IsSmall area }
    ensures value { result ≡ aim_of list area }
    ensures at { IsAtEdge list area result }
{
    Point {
        x: area.x + area.width / 2 + area.width / 5,
        y: edge_of(list, area),
    }
}

/// The edge of a box at which the arcs of a list end.
fn edge_of(list: RefList, area: Rect) -> usize
    requires { IsSmall area }
    ensures value { result ≡ edge_of list area }
    ensures small { result < 100000 }
{
    match list {
        RefList::Zero => area.y + area.height,
        RefList::One => area.y,
    }
}

/// Where an arc ends at the frame's unit, of which the place is known if it is drawn; a stub ends
/// at this height.
fn end_of(grid: Grid, list: RefList, target: Option<usize>, height: usize) -> Point
    requires { IfSome target (λ place. place < grid.units) }
    ensures value { result ≡ end_of grid list target height }
    ensures at { EndsAt grid list target result }
{
    match target {
        Some(target) => right_of_middle(list, grid.stream_box(target)),
        None => Point { x: STUB, y: height },
    }
}

/// How far an arc reaches from a point of its row.
fn reach(list: RefList, from: Point, depth: usize) -> usize
    requires small { from.y < 100000 }
    requires depth { depth ≤ MOST_DEPTH }
    ensures { result ≡ reach_of list from.y depth }
{
    match list {
        RefList::Zero => from.y + depth * 3 / 4,
        RefList::One => from.y.saturating_sub(depth * 3 / 4),
    }
}

/// How many places lie between two, with one of them: the place of the unit that refers, and that
/// of the frame's unit; or before the first one where that isn't drawn.
fn span_of(place: usize, target: Option<usize>) -> usize
    ensures { result ≡ span_of place target }
{
    match target {
        Some(target) => place.abs_diff(target),
        None => place,
    }
}

/// How far the control points of an arc lie from its row, which spans so many places.
fn depth_of(span: usize) -> usize
    ensures value { result ≡ depth_of span }
    ensures bound { result ≤ MOST_DEPTH }
{
    if span < (MOST_DEPTH - LEAST_DEPTH) / DEPTH {
        LEAST_DEPTH + DEPTH * span
    } else {
        MOST_DEPTH
    }
}

/// The height of the arcs of a list, of which each takes three quarters of its depth.
pub(crate) fn band_of(units: &[DrawnUnit], list: RefList) -> usize
    ensures { result ≤ MOST_BAND }
{
    let mut depth = 0;
    for place in 0..units.len() {
        depth = depth.max(deepest(units, place, list));
    }
    depth * 3 / 4 + 8
}

/// How far the farthest arc of a list goes at one unit; 0 where there is none.
fn deepest(units: &[DrawnUnit], place: usize, list: RefList) -> usize
    requires { place < length units.now }
    ensures { result ≤ MOST_DEPTH }
{
    let mut depth = 0;
    for reference in units[place].references.as_slice() {
        if reference.list == list {
            let span = span_of(place, place_of(units, reference.frame));
            depth = depth.max(depth_of(span));
        }
    }
    depth
}
