//! A history beside streams of two or three units that are changed by hand.

use crate::{History, NotUndone, StepGroup, UnitChange};
use bytes::Bytes;
use h264_types::pictures::AuId;
use std::alloc::{AllocError, Global};
use std::test::Fail;
use stream_edits::{Edit, InsertionPoint};

/// Texts: a history doesn't read them.
static A: [u8; 1] = [1];

static B: [u8; 1] = [2];

static C: [u8; 1] = [3];

/// What an edit does, the id that it names (0 for the first place) and the first byte of its text.
fn shown(edit: &Edit) -> (char, u32, u8) {
    match edit {
        Edit::Insert(InsertionPoint::First, text) => ('i', 0, first(text)),
        Edit::Insert(InsertionPoint::After(id), text) => ('i', id.number(), first(text)),
        Edit::Delete(id) => ('d', id.number(), 0),
        Edit::Replace(id, text) => ('r', id.number(), first(text)),
    }
}

fn first(text: &Bytes) -> u8 {
    text.first().copied().unwrap_or(0)
}

/// Whether the edits are these.
fn are(group: &Result<StepGroup, NotUndone>, wanted: &[(char, u32, u8)]) -> bool {
    match group {
        Ok(group) => {
            group.edits.len() == wanted.len()
                && group
                    .edits
                    .iter()
                    .zip(wanted)
                    .all(|(edit, wanted)| shown(edit) == *wanted)
        }
        Err(_) => false,
    }
}

fn inserted(at: usize, text: &'static [u8]) -> UnitChange {
    UnitChange::Inserted(at, Bytes::from_static(text))
}

fn deleted(at: usize, text: &'static [u8]) -> UnitChange {
    UnitChange::Deleted(at, Bytes::from_static(text))
}

fn replaced(at: usize, former: &'static [u8], text: &'static [u8]) -> UnitChange {
    UnitChange::Replaced(at, Bytes::from_static(former), Bytes::from_static(text))
}

/// Takes in what an accepted edit or group changed.
fn take_in(history: &mut History, changes: Vec<UnitChange>) -> Result<(), AllocError> {
    history.reserve()?;
    history.changed(changes);
    Ok(())
}

/// The ids of these numbers.
fn ids(alloc: Global, numbers: &[u32]) -> Result<Vec<AuId>, AllocError> {
    let mut ids = Vec::new(alloc);
    for number in numbers {
        ids.push(AuId::new(*number))?;
    }
    Ok(ids)
}

#[test]
fn units_come_back_under_new_ids(rt: HostRuntime) -> Result<(), Fail> {
    let alloc = rt.alloc();
    let mut history = History::new(alloc);
    // A, B and C stand under 1, 2 and 3; a group takes out B and then A.
    take_in(
        &mut history,
        vec![in alloc; deleted(1, &B), deleted(0, &A)]?,
    )?;
    let back = history.undo(alloc, &ids(alloc, &[3])?, 3);
    assert!(rt; are(&back, &[('i', 0, 1), ('i', 4, 2)]));
    history.undone();
    // They are back under 4 and 5.
    let again = history.redo(alloc, &ids(alloc, &[4, 5, 3])?, 5);
    assert!(rt; are(&again, &[('d', 5, 0), ('d', 4, 0)]));
    history.redone();
    let back = history.undo(alloc, &ids(alloc, &[3])?, 5);
    assert!(rt; are(&back, &[('i', 0, 1), ('i', 6, 2)]));
    Ok(())
}

#[test]
fn edits_are_taken_back_and_made_again(rt: HostRuntime) -> Result<(), Fail> {
    let alloc = rt.alloc();
    let mut history = History::new(alloc);
    take_in(&mut history, vec![in alloc; inserted(0, &A)]?)?;
    take_in(
        &mut history,
        vec![in alloc; replaced(0, &A, &B), inserted(1, &C)]?,
    )?;
    let back = history.undo(alloc, &ids(alloc, &[1, 2])?, 2);
    assert!(rt; are(&back, &[('d', 2, 0), ('r', 1, 1)]));
    // Refused, it can be asked for again.
    let back = history.undo(alloc, &ids(alloc, &[1, 2])?, 2);
    assert!(rt; are(&back, &[('d', 2, 0), ('r', 1, 1)]));
    history.undone();
    let back = history.undo(alloc, &ids(alloc, &[1])?, 2);
    assert!(rt; are(&back, &[('d', 1, 0)]));
    history.undone();
    assert!(rt; history.undo(alloc, &[], 2).err() == Some(NotUndone::Nothing));
    let again = history.redo(alloc, &[], 2);
    assert!(rt; are(&again, &[('i', 0, 1)]));
    history.redone();
    let again = history.redo(alloc, &ids(alloc, &[3])?, 3);
    assert!(rt; are(&again, &[('r', 3, 2), ('i', 3, 3)]));
    // Another edit: what could be redone is forgotten.
    take_in(&mut history, vec![in alloc; deleted(0, &A)]?)?;
    assert!(rt; history.redo(alloc, &[], 3).err() == Some(NotUndone::Nothing));
    assert!(rt; (history.to_undo(), history.to_redo()) == (2, 0));
    Ok(())
}

#[test]
fn ids_may_be_spent(rt: HostRuntime) -> Result<(), Fail> {
    let alloc = rt.alloc();
    let mut history = History::new(alloc);
    take_in(&mut history, vec![in alloc; deleted(0, &A)]?)?;
    let back = history.undo(alloc, &[], u32::MAX);
    assert!(rt; back.err() == Some(NotUndone::IdsSpent));
    let back = history.undo(alloc, &[], u32::MAX - 1);
    assert!(rt; are(&back, &[('i', 0, 1)]));
    Ok(())
}
