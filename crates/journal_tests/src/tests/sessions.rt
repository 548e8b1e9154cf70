//! Steps of a session, recorded in a file and read back.

use super::row_holds;
use bytes::Bytes;
use h264_types::pictures::AuId;
use session_journal::{Journals, RecordedStep, Records, SessionFile, Unkept};
use std::alloc::Global;
use std::fs;
use std::test::Fail;
use stream_edits::{Edit, InsertionPoint};

/// What a step is: whether it is a load, and how many edits it has.
type Shape = (bool, usize);

/// An edit, a group, and what is left of a load of three units once two of them are made.
const RECORDED: [Shape; 3] = [(false, 1), (false, 2), (true, 2)];

fn insertion_at(place: InsertionPoint) -> Edit {
    Edit::Insert(place, Bytes::from_static(&[1, 2]))
}

/// An insertion behind the unit of an id.
fn insertion(after: u32) -> Edit {
    insertion_at(InsertionPoint::After(AuId::new(after)))
}

fn deletion(id: u32) -> Edit {
    Edit::Delete(AuId::new(id))
}

/// Records an edit, a group, a load of which two units are made, and an edit that isn't made.
fn record(alloc: Global, journal: &mut SessionFile) -> Result<(), Unkept> {
    journal.keep_edit(&insertion_at(InsertionPoint::First))?;
    journal.keep_group(&[deletion(1), insertion_at(InsertionPoint::First)])?;
    let load = vec![in alloc; insertion(2), insertion(3), insertion(4)]?;
    journal.keep_load(load)?;
    journal.shorten(2);
    journal.keep_edit(&insertion(4))?;
    journal.shorten(0);
    Ok(())
}

/// What recording answers of no edits, which are no group.
fn record_none(journal: &mut SessionFile) -> bool {
    journal.keep_group(&[]) == Err(Unkept::Unwritten)
}

/// What the step is, unless it is a snapshot.
fn shape(step: &RecordedStep) -> Option<Shape> {
    match step {
        RecordedStep::Edits(edits) => Some((false, edits.edits().len())),
        RecordedStep::Load(edits) => Some((true, edits.edits().len())),
        RecordedStep::Snapshot(_) => None,
    }
}

fn are(steps: &[RecordedStep], wanted: &[Shape]) -> bool {
    if steps.len() != wanted.len() {
        return false;
    }
    for (step, wanted) in steps.iter().zip(wanted) {
        if shape(step) != Some(*wanted) {
            return false;
        }
    }
    true
}

/// Records the steps in the file, where none are.
fn record_in(rt: &HostRuntime, path: &str) -> bool {
    match rt.open_journal(rt.alloc(), path) {
        Ok((mut journal, steps)) => {
            steps.is_empty()
                && record_none(&mut journal)
                && record(rt.alloc(), &mut journal).is_ok()
        }
        Err(_) => false,
    }
}

/// Whether the file is opened with these steps, which gave so many ids.
fn holds(rt: &HostRuntime, path: &str, wanted: &[Shape], given: u32) -> bool {
    match rt.open_journal(rt.alloc(), path) {
        Ok((journal, steps)) => are(&steps, wanted) && journal.ids_given() == given,
        Err(_) => false,
    }
}

/// Takes the last step of the file off again, or all of them.
fn take_off(rt: &HostRuntime, path: &str, all: bool) -> bool {
    match rt.open_journal(rt.alloc(), path) {
        Ok((mut journal, _steps)) => {
            if all {
                return journal.clear().is_ok();
            }
            journal.shorten(0);
            true
        }
        Err(_) => false,
    }
}

/// Records a group in the file.
fn record_group(rt: &HostRuntime, path: &str) -> bool {
    match rt.open_journal(rt.alloc(), path) {
        Ok((mut journal, _steps)) => journal
            .keep_group(&[deletion(2), insertion_at(InsertionPoint::First)])
            .is_ok(),
        Err(_) => false,
    }
}

#[test]
fn steps_are_read_back(rt: HostRuntime) -> Result<(), Fail> {
    let path = "steps.db";
    row_holds(&rt, 0, record_in(&rt, path));
    row_holds(&rt, 1, holds(&rt, path, &RECORDED, 4));
    row_holds(&rt, 2, record_group(&rt, path));
    row_holds(&rt, 3, take_off(&rt, path, false));
    row_holds(&rt, 4, holds(&rt, path, &RECORDED, 4));
    row_holds(&rt, 5, take_off(&rt, path, true));
    row_holds(&rt, 6, holds(&rt, path, &[], 0));
    fs::remove_file(&rt, path)?;
    fs::remove_file(&rt, "steps.db-wal")?;
    Ok(())
}

/// Records an insertion in front of all units, and one behind the id 0, which no unit has.
fn record_places(journal: &mut SessionFile) -> Result<(), Unkept> {
    journal.keep_edit(&insertion_at(InsertionPoint::First))?;
    journal.keep_edit(&insertion(0))
}

/// The same in the file.
fn record_places_in(rt: &HostRuntime, path: &str) -> bool {
    match rt.open_journal(rt.alloc(), path) {
        Ok((mut journal, _steps)) => record_places(&mut journal).is_ok(),
        Err(_) => false,
    }
}

/// Where the only edit of the step inserts its unit.
fn place(step: &RecordedStep) -> Option<InsertionPoint> {
    match step {
        RecordedStep::Edits(edits) => match edits.edits() {
            [Edit::Insert(place, _)] => Some(*place),
            _ => None,
        },
        RecordedStep::Load(_) | RecordedStep::Snapshot(_) => None,
    }
}

/// Whether the file is opened with the two insertions.
fn holds_places(rt: &HostRuntime, path: &str) -> bool {
    match rt.open_journal(rt.alloc(), path) {
        Ok((_journal, steps)) => match steps.as_slice() {
            [first, second] => {
                place(first) == Some(InsertionPoint::First)
                    && place(second) == Some(InsertionPoint::After(AuId::new(0)))
            }
            _ => false,
        },
        Err(_) => false,
    }
}

#[test]
fn an_insertion_behind_the_id_0_is_read_as_that(rt: HostRuntime) -> Result<(), Fail> {
    let path = "places.db";
    row_holds(&rt, 0, record_places_in(&rt, path));
    row_holds(&rt, 1, holds_places(&rt, path));
    fs::remove_file(&rt, path)?;
    fs::remove_file(&rt, "places.db-wal")?;
    Ok(())
}
