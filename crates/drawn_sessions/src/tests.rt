mod cached;
mod changes;
mod drawing;
mod edits;
mod groups;
mod hands;
mod jobs;
mod looks;
mod needs;
mod plain;
mod pool;
mod told;
mod trees;

use drawing::draw;
use hands::Hands;
use looks::{Names, agree};
use plain::Plain;
use stand_in_device::Device;
use stand_in_session::{Config, Dropping, Landing, Session};
use std::alloc::{AllocError, Global};
use test_builders::Draws;
use told::Answer;

/// How many lists a test draws, and the most commands of one.
const LISTS: u32 = 125;

const COMMANDS: u64 = 60;

/// How often each of what matters was answered.
#[derive(Drop)]
struct Counts {
    accepted: u32,
    refused: u32,
    grouped: u32,
    group_refused: u32,
    taken: u32,
    stale: u32,
    foreign: u32,
    restored: u32,
    dropped: u32,
    not_held: u32,
    /// Jobs that were taken for a unit while an earlier one of the stream was due.
    jumped: u32,
    /// Commands after which a unit has no picture.
    empty: u32,
}

impl Counts {
    /// Counts an answer.
    fn count(&mut self, answer: Answer) {
        let counted = match answer {
            Answer::Accepted(..) => &mut self.accepted,
            Answer::Refused(_) => &mut self.refused,
            Answer::Grouped(..) => &mut self.grouped,
            Answer::GroupRefused(..) => &mut self.group_refused,
            Answer::Landed(Landing::Taken) => &mut self.taken,
            Answer::Landed(Landing::Stale) => &mut self.stale,
            Answer::Landed(Landing::Foreign) => &mut self.foreign,
            Answer::Dropped(Dropping::Dropped) => &mut self.dropped,
            Answer::Dropped(Dropping::NotHeld) => &mut self.not_held,
            _ => return,
        };
        *counted = counted.saturating_add(1);
    }

    /// Counts a stream that has a unit without a picture.
    fn count_empty(&mut self, has_empty: bool) {
        if has_empty {
            self.empty = self.empty.saturating_add(1);
        }
    }

    /// Whether each was answered often enough for the lists to show something.
    fn are_many(&self) -> bool {
        self.accepted > 1000
            && self.refused > 40
            && self.grouped > 100
            && self.group_refused > 40
            && self.taken > 250
            && self.stale > 40
            && self.foreign > 100
            && self.restored > 30
            && self.dropped > 100
            && self.not_held > 200
            && self.jumped > 20
            && self.empty > 50
    }
}

/// A session and the plain model, which follow the same commands.
#[derive(Drop)]
struct List {
    hands: Hands,
    plain: Plain,
    names: Names,
}

impl List {
    /// Both with an empty stream, and with room for so many pictures in the cache.
    fn new(alloc: Global, session: Session, capacity: u16) -> List {
        List {
            hands: Hands {
                session,
                device: Device::new(alloc),
                inputs: Vec::new(alloc),
            },
            plain: Plain::new(alloc, capacity),
            names: Names {
                now: Vec::new(alloc),
                seen: Vec::new(alloc),
            },
        }
    }

    /// Draws a command, which both follow and whose answer is counted: whether they agree in it and
    /// in what is seen then.
    fn step(
        &mut self,
        alloc: Global,
        draws: &mut Draws,
        counts: &mut Counts,
    ) -> Result<bool, AllocError> {
        let told = draw(draws, &self.plain);
        let answer = self.hands.follow(alloc, told)?;
        let wanted = self.plain.follow(alloc, &self.hands.session, told)?;
        let is_named = self
            .names
            .fit(alloc, &self.hands.session, &self.plain.keys)?;
        counts.count(answer);
        counts.count_empty(self.plain.has_empty());
        let is_same = answer == wanted && self.is_given(answer) && is_named;
        Ok(is_same && self.plain.cached.is_possible && agree(&self.hands.session, &self.plain))
    }

    /// Whether a job that was taken was given what the model gives.
    fn is_given(&self, answer: Answer) -> bool {
        match answer {
            Answer::Taken(number, _) => self.hands.was_given(self.plain.given(number)),
            _ => true,
        }
    }

    /// Whether both agree on up to 60 commands, whose answers are counted.
    fn agrees(
        &mut self,
        alloc: Global,
        draws: &mut Draws,
        counts: &mut Counts,
    ) -> Result<bool, AllocError> {
        for _ in draws.below(20)..COMMANDS {
            if !self.step(alloc, draws, counts)? {
                return Ok(false);
            }
        }
        counts.restored = counts.restored.saturating_add(self.plain.cached.restored);
        counts.jumped = counts.jumped.saturating_add(self.plain.jumped);
        Ok(true)
    }
}

/// Whether a session and the plain model agree on a list that is drawn, with room for so many
/// pictures in the cache.
fn list_agrees(
    alloc: Global,
    draws: &mut Draws,
    counts: &mut Counts,
    capacity: u16,
) -> Result<bool, AllocError> {
    let Ok(session) = Session::new(alloc, Config { cache: capacity }) else {
        return Ok(false);
    };
    List::new(alloc, session, capacity).agrees(alloc, draws, counts)
}

/// Whether they agree on lists that are drawn by a seed, which show something.
fn lists_agree(alloc: Global, seed: u64, capacity: u16) -> Result<bool, AllocError> {
    let mut draws = Draws::new(seed);
    let mut counts = Counts {
        accepted: 0,
        refused: 0,
        grouped: 0,
        group_refused: 0,
        taken: 0,
        stale: 0,
        foreign: 0,
        restored: 0,
        dropped: 0,
        not_held: 0,
        jumped: 0,
        empty: 0,
    };
    for _ in 0..LISTS {
        if !list_agrees(alloc, &mut draws, &mut counts, capacity)? {
            return Ok(false);
        }
    }
    Ok(counts.are_many())
}

#[test]
fn first_lists_with_capacity_for_1(rt: HostRuntime) {
    assert!(rt; lists_agree(rt.alloc(), 0x9F5A_BF21_08F6_4A04, 1) == Ok(true));
}

#[test]
fn second_lists_with_capacity_for_1(rt: HostRuntime) {
    assert!(rt; lists_agree(rt.alloc(), 0xD2D8_8F9A_5B3E_BAF2, 1) == Ok(true));
}

#[test]
fn third_lists_with_capacity_for_1(rt: HostRuntime) {
    assert!(rt; lists_agree(rt.alloc(), 0x2669_39F8_D918_AB0C, 1) == Ok(true));
}

#[test]
fn last_lists_with_capacity_for_1(rt: HostRuntime) {
    assert!(rt; lists_agree(rt.alloc(), 0x8DDC_710E_B8E9_5BC6, 1) == Ok(true));
}

#[test]
fn first_lists_with_capacity_for_2(rt: HostRuntime) {
    assert!(rt; lists_agree(rt.alloc(), 0xA07E_0488_92A2_17F3, 2) == Ok(true));
}

#[test]
fn second_lists_with_capacity_for_2(rt: HostRuntime) {
    assert!(rt; lists_agree(rt.alloc(), 0xD3FB_D501_E4EA_88E1, 2) == Ok(true));
}

#[test]
fn third_lists_with_capacity_for_2(rt: HostRuntime) {
    assert!(rt; lists_agree(rt.alloc(), 0x278C_7F60_62C4_78FB, 2) == Ok(true));
}

#[test]
fn last_lists_with_capacity_for_2(rt: HostRuntime) {
    assert!(rt; lists_agree(rt.alloc(), 0x8EFF_B676_4295_29B5, 2) == Ok(true));
}

#[test]
fn first_lists_with_capacity_for_3(rt: HostRuntime) {
    assert!(rt; lists_agree(rt.alloc(), 0xA1A1_49F0_1C4D_E5E2, 3) == Ok(true));
}

#[test]
fn second_lists_with_capacity_for_3(rt: HostRuntime) {
    assert!(rt; lists_agree(rt.alloc(), 0xD51F_1A69_6E96_56D0, 3) == Ok(true));
}

#[test]
fn third_lists_with_capacity_for_3(rt: HostRuntime) {
    assert!(rt; lists_agree(rt.alloc(), 0x28AF_C4C7_EC70_46EA, 3) == Ok(true));
}

#[test]
fn last_lists_with_capacity_for_3(rt: HostRuntime) {
    assert!(rt; lists_agree(rt.alloc(), 0x9022_FBDD_CC40_F7A4, 3) == Ok(true));
}

#[test]
fn first_lists_with_capacity_for_4(rt: HostRuntime) {
    assert!(rt; lists_agree(rt.alloc(), 0xA2C4_8F57_A5F9_B3D1, 4) == Ok(true));
}

#[test]
fn second_lists_with_capacity_for_4(rt: HostRuntime) {
    assert!(rt; lists_agree(rt.alloc(), 0xD642_5FD0_F842_24BF, 4) == Ok(true));
}

#[test]
fn third_lists_with_capacity_for_4(rt: HostRuntime) {
    assert!(rt; lists_agree(rt.alloc(), 0x29D3_0A2F_761C_14D9, 4) == Ok(true));
}

#[test]
fn last_lists_with_capacity_for_4(rt: HostRuntime) {
    assert!(rt; lists_agree(rt.alloc(), 0x9146_4145_55EC_C593, 4) == Ok(true));
}
