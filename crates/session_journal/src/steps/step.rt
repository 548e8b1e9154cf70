//! What a record keeps.

ghost use Rattle.std.specs.Prelude.{◌≡◌};

use std::marker::Model;
use stream_edits::Edit;
use stream_edits::snapshots::Snapshot;

/// Edits, in order. Clauses see the list.
#[derive(Debug)]
pub struct EditList {
    edits: Vec<Edit>,
}

// By hand, so that whoever drops one is proved over one call.
impl Drop for EditList {
    fn drop(self) {
        let EditList { edits: _ } = self;
    }
}

impl Model for EditList {
    ghost use Rattle.std.specs.Prelude.{List};
    ghost use Rattle.stream_edits.specs.declared.edits.Edit.{Edit as EditValue};

    ghost Value = { List EditValue };

    ghost view = { λ list. list.edits.items };
}

impl EditList {
    /// The list of these. It takes no memory.
    pub fn new(edits: Vec<Edit>) -> EditList
        ensures { result ≡ edits.items }
    {
        EditList { edits }
    }

    /// The edits.
    pub fn edits(&self) -> &[Edit]
        ensures { result.now ≡ self.now }
    {
        self.edits.as_slice()
    }

    /// The edits, taken out.
    pub fn into_edits(self) -> Vec<Edit>
        ensures { result.items ≡ self }
    {
        let EditList { edits } = self;
        edits
    }
}

/// What one record of a journal keeps.
#[derive(Debug, Drop)]
pub enum RecordedStep {
    /// An edit by itself, or those of a group.
    Edits(EditList),
    /// Edits of a load, each made by itself.
    Load(EditList),
    /// A stream in the place of what was before it, and how many ids were given then. Here it may stand
    /// anywhere among the steps.
    Snapshot(Snapshot),
}
