//! What a journal keeps of an edit.

ghost use Rattle.std.specs.Prelude.{◌≡◌, IfSome, Some};
ghost use Rattle.edit_journal.specs.Lines.{name_of};

use bytes::Bytes;

/// What a step does.
#[derive(Clone, Copy, Debug, PartialEq, Eq)]
pub enum Kind {
    /// A unit of the text is inserted under the id, before all units.
    InsertFirst,
    /// A unit of the text is inserted under the id, after the unit that is named.
    Insert,
    /// The unit of the id is taken out.
    Delete,
    /// A unit of the text stands in the place of the one of the id.
    Replace,
    /// A unit of the text stands under the id, behind all units.
    Unit,
    /// So many ids were given as the number of the id says.
    Given,
    /// The steps behind it in the record are those of a load: each was made by itself.
    Load,
}

impl Kind {
    /// The word by which a row tells it.
    pub fn name(self) -> &'static str
        ensures { result.now ≡ name_of self }
    {
        match self {
            Kind::InsertFirst => "insert_first",
            Kind::Insert => "insert",
            Kind::Delete => "delete",
            Kind::Replace => "replace",
            Kind::Unit => "unit",
            Kind::Given => "given",
            Kind::Load => "load",
        }
    }

    /// The kind of this word.
    pub(crate) fn of_name(name: &[u8]) -> Option<Kind>
        ensures known { IfSome result (λ kind. name.now ≡ name_of kind) }
        ensures every { (kind : Kind) → name.now ≡ name_of kind → result ≡ Some kind }
    {
        match name {
            b"insert_first" => Some(Kind::InsertFirst),
            b"insert" => Some(Kind::Insert),
            b"delete" => Some(Kind::Delete),
            b"replace" => Some(Kind::Replace),
            b"unit" => Some(Kind::Unit),
            b"given" => Some(Kind::Given),
            b"load" => Some(Kind::Load),
            _ => None,
        }
    }
}

/// One edit of those that are recorded together. What a kind has no use for is 0, or empty.
#[derive(Debug, Drop)]
pub struct RowStep {
    /// What it does.
    pub kind: Kind,
    /// The number of the id that it is about.
    pub id: u32,
    /// The number of another id that it names.
    pub named: u32,
    /// The text of a unit.
    pub text: Bytes,
}

/// A row of a journal.
#[derive(Debug, Drop)]
pub struct Line {
    /// The number of its record, from 1 on.
    pub entry: u32,
    /// How many steps of the record stand before it.
    pub place: u32,
    /// What it keeps.
    pub step: RowStep,
}
