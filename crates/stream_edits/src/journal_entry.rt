//! What a journal has of each step.

ghost use Rattle.std.specs.Prelude.{◌≡◌, [], ◌∷◌};

use crate::edits::Edit;
use std::marker::Model;
use std::slice;

/// Edits that were accepted together: one by itself, or those of a group. Clauses see the list.
#[derive(Debug)]
pub struct JournalEntry {
    edits: Edits,
}

/// One edit stands in the value, and takes no memory of its own.
#[derive(Debug, Drop)]
enum Edits {
    One(Edit),
    Several(Vec<Edit>),
}

// By hand, so that whoever drops one is proved over one call.
impl Drop for JournalEntry {
    fn drop(self) {
        let JournalEntry { edits: _ } = self;
    }
}

impl Model for JournalEntry {
    ghost use Rattle.std.specs.Prelude.{List};
    ghost use Rattle.stream_edits.specs.declared.edits.Edit.{Edit as EditValue};
    ghost use Rattle.stream_edits.specs.Journals.{edits_in};

    ghost Value = { List EditValue };

    ghost view = { λ entry. edits_in entry.edits };
}

impl JournalEntry {
    /// An edit by itself. It takes no memory.
    pub fn of_edit(edit: Edit) -> JournalEntry
        ensures { result ≡ edit ∷ [] }
    {
        JournalEntry {
            edits: Edits::One(edit),
        }
    }

    /// The edits of a group. It takes no memory.
    pub fn of_group(edits: Vec<Edit>) -> JournalEntry
        ensures { result ≡ edits.items }
    {
        JournalEntry {
            edits: Edits::Several(edits),
        }
    }

    /// The edits, in order.
    pub fn edits(&self) -> &[Edit]
        ensures { result.now ≡ self.now }
    {
        match &self.edits {
            Edits::One(edit) => slice::from_ref(edit),
            Edits::Several(edits) => edits.as_slice(),
        }
    }
}
