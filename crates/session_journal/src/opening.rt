//! A journal is opened, and its steps are read.

ghost use Rattle.std.specs.Prelude.{◌≡◌, ◌↔◌, ◌++◌, ◌∷◌, ℕ, List, [], None, length, drop, All, false, IfOk, IsTrue};
ghost use Rattle.std.specs.List.{AllByRecursion};
ghost use Rattle.sqlite.specs.Files.{HoldsDatabase};
ghost use Rattle.sqlite_store.specs.FileStore.{view};
ghost use Rattle.sqlite_trees.specs.Tree.{Trees};
ghost use Rattle.sqlite_trees.specs.View.{IsClean};
ghost use Rattle.sqlite_wal.specs.Files.{image_at};
ghost use Rattle.stream_edits.specs.declared.edits.Edit.{Edit as EditValue};
ghost use Rattle.edit_journal.specs.Journals.{Stands};
ghost use Rattle.edit_journal.specs.Tables.{IsJournal};
ghost use Rattle.session_journal.specs.declared.steps.step.RecordedStep.{RecordedStep as StepValue};
ghost use Rattle.session_journal.specs.declared.steps.step.RecordedStep.TheVariants.{Edits};
ghost use Rattle.session_journal.specs.RecordRows.{IsStep, given_after_edits};
ghost use Rattle.session_journal.specs.Records.{lines_of_steps};
ghost use Rattle.session_journal.specs.SessionJournalKept.{IsFirstOnly, is_snapshot};
ghost use Rattle.session_journal.specs.Standing.{IsEnd, Standing};

use crate::last_step::{LastStep, given_before};
use crate::records::Records;
use crate::session_journal::SessionJournal;
use crate::steps::{RecordedStep, read};
use edit_journal::{Journal, JournalFault, Line, Start, Wary, open};
use sqlite_std_file::FileFrom;
use sqlite_store::FileStore;
use sqlite_trees::store::Alter;
use std::alloc::Global;
use stream_edits::Edit;

/// The journal of a session in a file.
pub type SessionFile = SessionJournal<FileStore<FileFrom<Wary>>>;

/// Where journals are opened, by their names.
pub trait Journals {
    type Journal: Records + Drop;

    /// The journal of this name and its steps, of which the first one alone may be a snapshot. It is
    /// made where it isn't there.
    fn open_journal(
        &self,
        alloc: Global,
        name: &str,
    ) -> Result<(Self::Journal, Vec<RecordedStep>), JournalFault>
        ensures stands { IfOk result (λ made. Self.Journal.Records.stands made.0 made.1.items) }
        ensures ends { IfOk result (λ made. (front : List StepValue) (edits : List EditValue)
            → made.1.items ≡ front ++ Edits edits ∷ []
            → Self.Journal.Records.ends made.0 front (Edits edits)) }
        ensures first { IfOk result (λ made. IsFirstOnly made.1.items) };
}

impl Journals for HostRuntime {
    type Journal = SessionFile;

    fn open_journal(
        &self,
        alloc: Global,
        name: &str,
    ) -> Result<(SessionFile, Vec<RecordedStep>), JournalFault>
        ensures stands { IfOk result (λ made. ⟦<SessionFile as Records>⟧.stands made.0 made.1.items) }
        ensures ends { IfOk result (λ made. (front : List StepValue) (edits : List EditValue)
            → made.1.items ≡ front ++ Edits edits ∷ []
            → ⟦<SessionFile as Records>⟧.ends made.0 front (Edits edits)) }
        ensures first { IfOk result (λ made. IsFirstOnly made.1.items) }
        ensures found { IfOk result (λ made. IsClean (view made.0.journal.store)
            → (db : Trees) (steps : List StepValue) → HoldsDatabase (image_at ⟦<Wary as Start>⟧) db
            → IsJournal db (lines_of_steps 0 1 steps) → AllByRecursion IsStep steps
            → made.1.items ≡ steps) }
    {
        let (journal, lines) = open(self, name, Wary)?;
        opened(alloc, journal, &lines)
    }
}

/// The session's journal that has these lines, and its steps.
fn opened<S: Alter + Drop>(
    alloc: Global,
    journal: Journal<S>,
    lines: &[Line],
) -> Result<(SessionJournal<S>, Vec<RecordedStep>), JournalFault>
    requires { IsClean (S.Store.view journal.store)
        → Stands (S.Store.view journal.store) journal.rows lines.now }
    ensures stands { IfOk result (λ made. Standing S.Store made.0 made.1.items) }
    ensures ends { IfOk result (λ made. (front : List StepValue) (edits : List EditValue)
        → made.1.items ≡ front ++ Edits edits ∷ [] → IsEnd S.Store made.0 front (Edits edits)) }
    ensures first { IfOk result (λ made. IsFirstOnly made.1.items) }
    ensures journal { IfOk result (λ made. made.0.journal ≡ journal) }
    ensures only { (steps : List StepValue) → AllByRecursion IsStep steps
        → lines.now ≡ lines_of_steps 0 1 steps → IfOk result (λ made. made.1.items ≡ steps) }
{
    let Some((steps, given)) = read(alloc, lines)? else {
        return Err(JournalFault::NotAJournal);
    };
    if journal.records() as usize != steps.len() || !is_first_only(&steps) {
        return Err(JournalFault::NotAJournal);
    }
    let last = last_of(&steps, given)?;
    let journal = SessionJournal {
        journal,
        alloc,
        given,
        last,
        is_shut: false,
    };
    Ok((journal, steps))
}

fn is_snapshot(step: &RecordedStep) -> bool
    ensures { result ≡ is_snapshot step.now }
{
    match step {
        RecordedStep::Edits(_) | RecordedStep::Load(_) => false,
        RecordedStep::Snapshot(_) => true,
    }
}

/// Whether none of the steps is a snapshot.
fn are_no_snapshots(steps: &[RecordedStep]) -> bool
    ensures { IsTrue result ↔ All (λ step. is_snapshot step ≡ false) steps.now }
{
    steps.iter().all(|step| !is_snapshot(step))
}

/// The steps behind the first one.
fn others(steps: &[RecordedStep]) -> &[RecordedStep]
    ensures { result.now ≡ drop 1 steps.now }
{
    &steps[1.min(steps.len())..]
}

/// Whether none of the steps but the first is a snapshot.
fn is_first_only(steps: &[RecordedStep]) -> bool
    ensures { IsTrue result ↔ IsFirstOnly steps.now }
{
    are_no_snapshots(others(steps))
}

/// What is known of the last step, where so many ids were given in all.
fn last_of(steps: &[RecordedStep], given: u32) -> Result<LastStep, JournalFault>
    ensures rows { IfOk result (λ last. (front : List StepValue) (edits : List EditValue)
        → steps.now ≡ front ++ Edits edits ∷ [] → last.rows ≡ length edits) }
    ensures before { IfOk result (λ last. (front : List StepValue) (edits : List EditValue)
        → steps.now ≡ front ++ Edits edits ∷ [] → (before : ℕ)
        → given ≡ given_after_edits before edits → last.before ≡ before) }
    ensures load { IfOk result (λ last. last.load ≡ None) }
{
    match steps.split_last() {
        Some((RecordedStep::Edits(edits), _)) => last_edits(edits.edits(), given),
        Some((RecordedStep::Load(_) | RecordedStep::Snapshot(_), _)) | None => Ok(LastStep::none(
            given,
        )),
    }
}

/// What is known of a last step of these edits.
fn last_edits(edits: &[Edit], given: u32) -> Result<LastStep, JournalFault>
    ensures rows { IfOk result (λ last. last.rows ≡ length edits.now) }
    ensures before { IfOk result (λ last. (before : ℕ)
        → given ≡ given_after_edits before edits.now → last.before ≡ before) }
    ensures load { IfOk result (λ last. last.load ≡ None) }
{
    match u32::try_from(edits.len()) {
        Ok(rows) => Ok(LastStep {
            rows,
            before: given_before(given, edits),
            load: None,
        }),
        Err(_) => Err(JournalFault::TooLarge),
    }
}
