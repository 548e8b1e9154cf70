//! States along a stream, each at its place.

ghost use Rattle.std.specs.Prelude.{◌+◌, ◌<◌};

use checkpoints::{Checkpoints, LengthChange};
use std::alloc::{AllocError, Global};
use std::test::Fail;

/// Stores a state, making room for it.
fn put(states: &mut Checkpoints<u32>, place: usize, state: u32) -> Result<(), AllocError> {
    states.reserve(1)?;
    states.put(place, state);
    Ok(())
}

/// States at the places 0, 32, 64 and 96, each 1000 above its place.
fn four_states(alloc: Global) -> Result<Checkpoints<u32>, AllocError> {
    let mut states = Checkpoints::new(alloc, 1000)?;
    put(&mut states, 64, 1064)?;
    put(&mut states, 32, 1032)?;
    put(&mut states, 96, 1096)?;
    Ok(states)
}

/// The states and their places, from the first to the last.
fn listed(alloc: Global, states: &Checkpoints<u32>) -> Result<Vec<(usize, u32)>, AllocError> {
    let mut listed = Vec::new(alloc);
    let mut next = Some(states.before(0));
    for _ in 0..states.len() {
        if let Some(found) = next {
            listed.push((found.place, *found.state))?;
            next = states.after(found.place);
        }
    }
    Ok(listed)
}

/// Moves the places from `from` on up, where they are small.
fn lengthen(states: &mut Checkpoints<u32>, from: usize, by: u16)
    requires { 0 < from }
{
    if states.last().place < 1000 {
        states.shift(from, LengthChange::Longer(usize::from(by)));
    }
}

/// Takes the places above `low` and below `high` out, and moves those from `high` on down.
fn shorten(states: &mut Checkpoints<u32>, low: usize, high: usize, by: usize)
    requires { low + by < high }
{
    states.cut(low, high);
    states.shift(high, LengthChange::Shorter(by));
}

#[test]
fn place_zero_is_there_from_the_start(rt: HostRuntime) -> Result<(), Fail> {
    let states = Checkpoints::new(rt.alloc(), 7u8)?;
    assert!(rt; states.len() == 1);
    assert!(rt; states.spare() == 0);
    assert!(rt; states.before(usize::MAX).place == 0);
    assert!(rt; *states.before(0).state == 7);
    assert!(rt; states.last().place == 0);
    assert!(rt; states.get(0).copied() == Some(7));
    assert!(rt; states.after(0).is_none());
    Ok(())
}

#[test]
fn looks_before_and_after(rt: HostRuntime) -> Result<(), Fail> {
    let states = four_states(rt.alloc())?;
    for (place, before) in [
        (0, 0),
        (31, 0),
        (32, 32),
        (63, 32),
        (95, 64),
        (96, 96),
        (usize::MAX, 96),
    ] {
        assert!(rt; states.before(place).place == before);
    }
    assert!(rt; *states.before(95).state == 1064);
    for (place, after) in [
        (0, Some(32)),
        (31, Some(32)),
        (32, Some(64)),
        (95, Some(96)),
        (96, None),
    ] {
        assert!(rt; states.after(place).map(|next| next.place) == after);
    }
    assert!(rt; states.after(40).map(|next| *next.state) == Some(1064));
    assert!(rt; states.get(64).copied() == Some(1064));
    assert!(rt; states.get(63).copied() == None);
    assert!(rt; states.last().place == 96);
    Ok(())
}

#[test]
fn puts_in_order_and_in_place(rt: HostRuntime) -> Result<(), Fail> {
    let mut states = four_states(rt.alloc())?;
    put(&mut states, 64, 7)?;
    put(&mut states, 0, 8)?;
    put(&mut states, 65, 9)?;
    assert!(rt;
        listed(rt.alloc(), &states)?.as_slice()
            == [(0, 8), (32, 1032), (64, 7), (65, 9), (96, 1096)].as_slice()
    );
    Ok(())
}

#[test]
fn room_is_for_new_places(rt: HostRuntime) -> Result<(), Fail> {
    let mut states = Checkpoints::new(rt.alloc(), 1000)?;
    states.reserve(3)?;
    states.reserve(2)?;
    assert!(rt; states.spare() == 3);
    for place in [10, 10, 20, 0, 30, 40] {
        if states.spare() > 0 {
            states.put(place, 1);
        }
    }
    assert!(rt; states.spare() == 0);
    assert!(rt;
        listed(rt.alloc(), &states)?.as_slice() == [(0, 1), (10, 1), (20, 1), (30, 1)].as_slice()
    );
    Ok(())
}

#[test]
fn moves_up(rt: HostRuntime) -> Result<(), Fail> {
    let mut states = four_states(rt.alloc())?;
    lengthen(&mut states, 33, 5);
    lengthen(&mut states, 32, 1);
    lengthen(&mut states, 1000, 1);
    lengthen(&mut states, 102, 3);
    assert!(rt;
        listed(rt.alloc(), &states)?.as_slice()
            == [(0, 1000), (33, 1032), (70, 1064), (105, 1096)].as_slice()
    );
    Ok(())
}

#[test]
fn moves_down_after_a_cut(rt: HostRuntime) -> Result<(), Fail> {
    let mut states = four_states(rt.alloc())?;
    // A range of 40 units past the first 20 becomes one of 9.
    shorten(&mut states, 20, 60, 31);
    assert!(rt;
        listed(rt.alloc(), &states)?.as_slice() == [(0, 1000), (33, 1064), (65, 1096)].as_slice()
    );
    // All but one of the units before place 65 are gone.
    shorten(&mut states, 0, 65, 64);
    assert!(rt; listed(rt.alloc(), &states)?.as_slice() == [(0, 1000), (1, 1096)].as_slice());
    Ok(())
}

#[test]
fn cuts_between_places(rt: HostRuntime) -> Result<(), Fail> {
    let mut states = four_states(rt.alloc())?;
    states.cut(32, 33);
    states.cut(64, 32);
    states.cut(96, usize::MAX);
    assert!(rt; states.len() == 4);
    states.cut(32, 96);
    assert!(rt;
        listed(rt.alloc(), &states)?.as_slice() == [(0, 1000), (32, 1032), (96, 1096)].as_slice()
    );
    states.cut(0, usize::MAX);
    assert!(rt; listed(rt.alloc(), &states)?.as_slice() == [(0, 1000)].as_slice());
    Ok(())
}

#[test]
fn a_change_between_ends(rt: HostRuntime) {
    assert!(rt; LengthChange::between(5, 9) == LengthChange::Longer(4));
    assert!(rt; LengthChange::between(5, 5) == LengthChange::Longer(0));
    assert!(rt; LengthChange::between(9, 5) == LengthChange::Shorter(4));
}

#[test]
fn refused_growth_leaves_the_states(rt: HostRuntime) {
    let Ok(mut states) = Checkpoints::new(rt.alloc(), 1000) else {
        return;
    };
    if states.reserve(2).is_err() {
        assert!(rt; states.spare() == 0);
        assert!(rt; states.len() == 1);
        return;
    }
    for place in [64, 32] {
        if states.spare() > 0 {
            states.put(place, 1);
        }
    }
    assert!(rt; states.len() == 3);
    let grew = states.reserve(100).is_ok();
    assert!(rt; states.spare() == (if grew { 100 } else { 0 }));
    assert!(rt; states.len() == 3);
    assert!(rt; states.before(63).place == 32);
    states.cut(0, 64);
    assert!(rt; states.get(64).copied() == Some(1));
    assert!(rt; states.len() == 2);
}
