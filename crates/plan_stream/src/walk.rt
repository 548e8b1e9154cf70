//! The walk along the NAL units of an access unit, as far as bytes are there (7.4.1.2.3, B.1).

ghost use Rattle.std.specs.Prelude.{◌≡◌, ℕ, List, [], IfSome, None, Some, false};
ghost use Rattle.plan_stream.specs.Walks.{IsEnd, IsStep, IsWalked, IsWalkedOn};

use crate::front::{front_len, has_boundary, is_seen};
use annexb::{Found, START_CODE, first_unit, unit_at};
use std::alloc::Global;
use std::ops::Range;

/// How far the walk has come. Where more bytes follow, it goes on from there.
#[derive(Drop)]
pub(crate) struct Walk {
    /// Where the NAL units stand that were passed.
    places: Vec<Range<usize>>,
    /// Where the next one begins, once its start code is found.
    next: Option<usize>,
    /// Whether a slice was passed.
    has_slice: bool,
}

/// What one step comes to.
#[derive(Drop)]
enum WalkStep {
    /// A NAL unit was passed, and another begins.
    On,
    /// The access unit ends here.
    Ends(usize),
    /// More bytes are needed.
    Unseen,
    /// The bytes have a fault, or the place finds no memory.
    Lost,
}

impl Walk {
    /// Before the first NAL unit.
    pub(crate) fn new(alloc: Global) -> Walk {
        Walk {
            places: Vec::new(alloc),
            next: None,
            has_slice: false,
        }
    }

    /// Where the NAL units stand that were passed.
    pub(crate) fn places(&self) -> &[Range<usize>]
        ensures { result.now ≡ self.now.places.items }
    {
        &self.places
    }

    /// Begins again, before the first NAL unit.
    pub(crate) fn clear(&mut self)
        ensures places { self.new.places.items ≡ [] }
        ensures walked { (bytes : List ℕ) → IsWalked bytes self.new }
    {
        self.places.clear();
        self.next = None;
        self.has_slice = false;
    }

    /// How many bytes the access unit at the front has, where that is certain: whatever follows, or
    /// where nothing does. Of one without a fault the places are known then, and of any other none.
    pub(crate) fn front_len(&mut self, bytes: &[u8], is_over: bool) -> Option<usize>
        requires { IsWalked bytes.now self.old }
        ensures end { IfSome result (IsEnd bytes.now is_over self.new.places.items) }
        ensures walked { result ≡ None → IsWalked bytes.now self.new }
        ensures more { result ≡ None → is_over ≡ false }
    {
        match self.go_on(bytes, is_over) {
            WalkStep::Ends(len) => Some(len),
            WalkStep::Unseen => None,
            WalkStep::On | WalkStep::Lost => {
                self.clear();
                front_len(bytes, is_over)
            }
        }
    }

    /// Walks on along the bytes, whose front was walked along before.
    fn go_on(&mut self, bytes: &[u8], is_over: bool) -> WalkStep
        requires { IsWalked bytes.now self.old }
        ensures on { IsWalkedOn bytes.now is_over self.new result }
        ensures more { result ≡ WalkStep.Unseen → is_over ≡ false }
    {
        self.begin(bytes);
        while let Some(at) = self.next {
            match self.step(bytes, at, is_over) {
                WalkStep::On => {}
                step => return step,
            }
        }
        WalkStep::Lost
    }

    /// Finds where the first NAL unit begins, if it isn't known.
    fn begin(&mut self, bytes: &[u8])
        requires { IsWalked bytes.now self.old }
        ensures { IsWalked bytes.now self.new }
    {
        if self.next.is_none() {
            self.next = first_unit(bytes);
        }
    }

    /// Passes the NAL unit that begins at the place, if it's one of the access unit.
    fn step(&mut self, bytes: &[u8], at: usize, is_over: bool) -> WalkStep
        requires next { self.old.next ≡ Some at }
        requires walked { IsWalked bytes.now self.old }
        ensures step { IsStep bytes.now is_over at self.new result }
        ensures more { result ≡ WalkStep.Unseen → is_over ≡ false }
    {
        let rest = bytes.split_at(at).1;
        if !is_seen(rest, is_over) {
            return WalkStep::Unseen;
        }
        if has_boundary(self.has_slice, rest) {
            return WalkStep::Ends(at - START_CODE.len());
        }
        let Ok(Found { nal, next }) = unit_at(bytes, at) else {
            return WalkStep::Lost;
        };
        if next.is_none() && !is_over {
            return WalkStep::Unseen;
        }
        let Ok(()) = self.places.push(at..at + nal.bytes().len()) else {
            return WalkStep::Lost;
        };
        self.has_slice |= nal.is_slice();
        self.next = next;
        match next {
            Some(_) => WalkStep::On,
            None => WalkStep::Ends(bytes.len()),
        }
    }
}
