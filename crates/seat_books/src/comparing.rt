//! Whether edits are the same.

ghost use Rattle.std.specs.Prelude.{◌≡◌};
ghost use Rattle.std.specs.Bool.{Decides};

use stand_in_session::Edit;

/// Whether both are the same edits in the same order.
pub(crate) fn same_edits(edits: &[Edit], others: &[Edit]) -> bool
    ensures { Decides result (edits.now ≡ others.now) }
{
    if edits.len() != others.len() {
        return false;
    }
    for at in 0..edits.len() {
        if !same_edit(&edits[at], &others[at]) {
            return false;
        }
    }
    true
}

/// Whether both are the same edit.
fn same_edit(edit: &Edit, other: &Edit) -> bool
    ensures { Decides result (edit.now ≡ other.now) }
{
    match (edit, other) {
        (Edit::Insert(place, text), Edit::Insert(other_place, other_text)) => {
            *place == *other_place && text.as_slice() == other_text.as_slice()
        }
        (Edit::Delete(id), Edit::Delete(other_id)) => *id == *other_id,
        (Edit::Replace(id, text), Edit::Replace(other_id, other_text)) => {
            *id == *other_id && text.as_slice() == other_text.as_slice()
        }
        _ => false,
    }
}
