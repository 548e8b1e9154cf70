//! What a server adds up over its edits.

ghost use Rattle.std.specs.Prelude.{◌≡◌};
ghost use Rattle.serve_calls.specs.Sums.{bytes_of, bytes_of_edit, no_sums, with_edit};

use stream_edits::Edit;

/// What a server adds up over its edits.
#[derive(Clone, Copy, Debug, PartialEq, Eq)]
pub struct Sums {
    /// The steps of the fold that edits made.
    pub steps: u64,
    /// The bytes of the texts that edits brought.
    pub bytes: u64,
}

impl Sums {
    /// Before the first edit.
    pub(crate) fn none() -> Sums
        ensures { result ≡ no_sums }
    {
        Sums { steps: 0, bytes: 0 }
    }

    /// After an edit more, with so many steps and bytes.
    pub(crate) fn with_edit(self, steps: u64, bytes: u64) -> Sums
        ensures { result ≡ with_edit self steps bytes }
    {
        Sums {
            steps: self.steps.saturating_add(steps),
            bytes: self.bytes.saturating_add(bytes),
        }
    }
}

/// How many bytes the texts of edits have.
pub(crate) fn bytes_of(edits: &[Edit]) -> u64
    ensures { result ≡ bytes_of edits.now }
{
    let mut bytes: u64 = 0;
    for edit in edits {
        bytes = bytes.saturating_add(bytes_of_edit(edit));
    }
    bytes
}

/// How many bytes the text of an edit has.
pub(crate) fn bytes_of_edit(edit: &Edit) -> u64
    ensures { result ≡ bytes_of_edit edit.now }
{
    match edit {
        Edit::Insert(_, text) | Edit::Replace(_, text) => text.len() as u64,
        Edit::Delete(_) => 0,
    }
}
