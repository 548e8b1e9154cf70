//! The last step that was recorded.

ghost use Rattle.std.specs.Prelude.{◌≡◌, ◌≢◌, ◌+◌, ◌<◌, ◌≤◌, ◌^◌, ℕ, List, None, Some, length, min, take};
ghost use Rattle.stream_edits.specs.declared.edits.Edit.{Edit as EditValue};
ghost use Rattle.session_journal.specs.RecordRows.{given_after_edits};

use crate::steps::EditList;
use stream_edits::Edit;

/// What is known of the last step that was recorded.
#[derive(Debug)]
pub struct LastStep {
    /// How many rows it has, or 0 where it can't be taken off.
    pub(crate) rows: u32,
    /// How many ids were given before it.
    pub(crate) before: u32,
    /// Its edits, if it is a load.
    pub(crate) load: Option<EditList>,
}

// By hand, so that whoever drops one is proved over one call.
impl Drop for LastStep {
    fn drop(self) {
        let LastStep {
            rows: _,
            before: _,
            load: _,
        } = self;
    }
}

/// How many of the edits are insertions.
fn insertions_in(edits: &[Edit]) -> usize
    ensures few { result ≤ length edits.now }
    ensures counted { (before : ℕ) → given_after_edits before edits.now ≡ before + result }
{
    let mut count = 0;
    for edit in edits {
        if let Edit::Insert(_, _) = edit {
            count += 1;
        }
    }
    count
}

/// How many ids were given, with those of edits, where so many were given before them.
fn given_by(before: u32, edits: &[Edit]) -> u32
    ensures { given_after_edits before edits.now < 2 ^ 32
        → result ≡ given_after_edits before edits.now }
{
    match u32::try_from(before as usize + insertions_in(edits)) {
        Ok(given) => given,
        Err(_) => u32::MAX,
    }
}

/// How many ids were given before edits, where so many were given with theirs.
pub(crate) fn given_before(given: u32, edits: &[Edit]) -> u32
    ensures { (before : ℕ) → given ≡ given_after_edits before edits.now → result ≡ before }
{
    (given as usize).saturating_sub(insertions_in(edits)) as u32
}

/// So many of the first edits, or all.
fn first_edits(edits: &[Edit], made: usize) -> &[Edit]
    ensures { result.now ≡ take made edits.now }
{
    &edits[..made.min(edits.len())]
}

/// How many of a load's rows are left where so many of its edits were made.
fn rows_of_load(rows: u32, made: usize) -> u32
    ensures { result ≡ min (made + 1) rows }
{
    if made < rows as usize {
        made as u32 + 1
    } else {
        rows
    }
}

impl LastStep {
    /// No step, or one that can't be taken off, where so many ids were given.
    pub(crate) fn none(given: u32) -> LastStep
        ensures { result ≡ record { rows = 0; before = given; load = None } }
    {
        LastStep {
            rows: 0,
            before: given,
            load: None,
        }
    }

    /// How many rows are left of it where so many of its edits were made.
    pub(crate) fn rows_left(&self, made: usize) -> u32
        ensures none { made ≡ 0 → result ≡ 0 }
        ensures group { made ≢ 0 → self.now.load ≡ None → result ≡ self.now.rows }
        ensures load { (edits : List EditValue) → made ≢ 0 → self.now.load ≡ Some edits
            → result ≡ min (made + 1) self.now.rows }
    {
        if made == 0 {
            return 0;
        }
        match &self.load {
            Some(_) => rows_of_load(self.rows, made),
            None => self.rows,
        }
    }

    /// How many ids were given then, of so many that were given by all.
    pub(crate) fn given_left(&self, made: usize, given: u32) -> u32
        ensures none { made ≡ 0 → result ≡ self.now.before }
        ensures group { made ≢ 0 → self.now.load ≡ None → result ≡ given }
        ensures load { (edits : List EditValue) → made ≢ 0 → self.now.load ≡ Some edits
            → given_after_edits self.now.before (take made edits) ≤ given
            → result ≡ given_after_edits self.now.before (take made edits) }
    {
        if made == 0 {
            return self.before;
        }
        match &self.load {
            Some(edits) => given_by(self.before, first_edits(edits.edits(), made)),
            None => given,
        }
    }
}
