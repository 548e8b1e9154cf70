//! What can be undone and redone, once edits are accepted.

ghost use Rattle.std.specs.Prelude.{◌≡◌, ℕ, ◌+◌, ◌<◌, ◌≤◌, List, IfSome, None, vec_len};
ghost use Rattle.std.specs.Vec.{vec_capacity};
ghost use Rattle.edit_history.specs.Histories.{HasCapacity as HasStepCapacity};
ghost use Rattle.edit_history.specs.Texts.{Texts};
ghost use Rattle.stream_edits.specs.declared.edits.Edit.{Edit as EditValue};
ghost use Rattle.stream_edits.specs.Edits.{Makes, Register};
ghost use Rattle.stream_edits.specs.Groups.{MakesAll};
ghost use Rattle.edit_history.specs.Following.{AreRefusedOf, Follows, FollowsAll, HasCapacity, IsRefusedOf};
ghost use Rattle.edit_history.specs.States.{IsUnderWay, IsUndoRedo};
ghost use Rattle.serve_calls.specs.Remembering.{AddsStep, GoesOn};

use edit_history::undo_redo::{OpenStep, PreparedEdit, PreparedGroup, UndoRedo};

/// Takes in that an edit of a step was accepted, for which this was prepared. Nothing is prepared
/// for an edit that the stream refuses.
pub(crate) fn take_in(history: &mut UndoRedo, step: &mut OpenStep, prepared: Option<PreparedEdit>)
    requires capacity { IfSome prepared (HasCapacity history.old.units) }
    requires begun { vec_len step.old.changes < vec_capacity step.old.changes }
    ensures goes { (edit : EditValue) (before : Register) (id : ℕ) (after : Register)
        → IfSome prepared (Follows history.old.units edit)
        → (prepared ≡ None → IsRefusedOf history.old.units edit) → Makes before edit id after
        → (states : List Texts) (first : Texts)
        → IsUnderWay history.old step.old states first before
        → GoesOn step.old history.new step.new after states first }
    ensures history { history.new.history ≡ history.old.history }
    ensures capacity { vec_capacity step.new.changes ≡ vec_capacity step.old.changes }
    ensures more { vec_len step.new.changes ≤ vec_len step.old.changes + 1 }
{
    if let Some(prepared) = prepared {
        history.made(step, prepared);
    }
}

/// Takes in that edits were accepted together, for which this was prepared. Nothing is prepared for
/// edits that the stream refuses.
pub(crate) fn take_in_group(history: &mut UndoRedo, prepared: Option<PreparedGroup>)
    requires { HasStepCapacity history.old.history }
    ensures { (edits : List EditValue) (before : Register) (ids : List ℕ) (after : Register)
        → IfSome prepared (FollowsAll history.old.units edits)
        → (prepared ≡ None → AreRefusedOf history.old.units edits)
        → MakesAll before edits ids after → (states : List Texts)
        → IsUndoRedo history.old states before
        → AddsStep history.old history.new after states }
{
    if let Some(prepared) = prepared {
        history.grouped(prepared);
    }
}
