//! The table of a journal is made, or found.

ghost use Rattle.std.specs.Prelude.{◌≡◌, ◌↔◌, ◌≤◌, IfOk, IsTrue, OnOk, [], ◌∷◌, take, codes};
ghost use Rattle.sqlite_trees.specs.View.{IsClean, doubt};
ghost use Rattle.sqlite_trees.specs.Objects.{catalog_tree, object_row};
ghost use Rattle.edit_journal.specs.Lines.{edit_tree};
ghost use Rattle.edit_journal.specs.Tables.{Finds, Makes, listed};

use crate::fault::JournalFault;
use sqlite_trees::schema::Object;
use sqlite_trees::store::{Alter, Shape};
use sqlite_value::row::Row;
use sqlite_value::value::ValueRef;
use std::alloc::{AllocError, Global};

/// The number of the table.
pub(crate) const EDITS: u32 = 0;

/// The text that makes it.
const TEXT: &str =
    "CREATE TABLE edit (entry INTEGER NOT NULL, place INTEGER NOT NULL, kind TEXT NOT NULL, id INTEGER NOT NULL, named INTEGER NOT NULL, text BLOB NOT NULL) STRICT";

/// What the table is.
fn edit_table() -> Object<'static>
    ensures is { (result.shape ≡ Shape.Table) × (result.reals ≡ 0) }
    ensures listed { take 5 (object_row edit_tree result) ≡ listed }
    ensures name { result.name.now ≡ codes "edit" }
{
    Object {
        shape: Shape::Table,
        kind: "table",
        name: "edit",
        table: "edit",
        reals: 0,
        sql: Some(TEXT),
    }
}

/// The row of the list of tables in a journal.
fn listed_row(alloc: Global) -> Result<Row, AllocError>
    ensures { IfOk result (λ row. row ≡ listed) }
{
    let mut row = Row::new(alloc);
    row.push(ValueRef::Int(1))?;
    row.push(ValueRef::Text(b"table"))?;
    row.push(ValueRef::Text(b"edit"))?;
    row.push(ValueRef::Text(b"edit"))?;
    row.push(ValueRef::Text(TEXT.as_bytes()))?;
    Ok(row)
}

/// Whether the table is the only one of these.
fn lists_edits(alloc: Global, objects: &[Row]) -> Result<bool, AllocError>
    ensures { IfOk result (λ yes. IsTrue yes ↔ (objects.now ≡ listed ∷ [])) }
{
    match objects {
        [object] => Ok(object.is_same(&listed_row(alloc)?)),
        _ => Ok(false),
    }
}

/// Makes the table in a store that has none.
fn make_table<S: Alter>(store: &mut S) -> Result<(), JournalFault>
    requires numbered { IsClean (S.Store.view store.old) → IsTrue (S.Store.view store.old).is_numbered }
    requires empty { IsClean (S.Store.view store.old) → (S.Store.view store.old).trees catalog_tree ≡ [] }
    ensures makes { IsClean (S.Store.view store.new) → OnOk result (Makes (S.Store.view store.old) (S.Store.view store.new)) }
    ensures clean { doubt (S.Store.view store.old).is_clean ≤ doubt (S.Store.view store.new).is_clean }
{
    let Shape::Absent = store.shape(EDITS) else {
        return Err(JournalFault::NotAJournal);
    };
    store.create(EDITS, &edit_table())?;
    store.commit()?;
    Ok(())
}

/// Makes the table in a store that has none, and refuses a store that has another one.
pub(crate) fn find_table<S: Alter>(alloc: Global, store: &mut S) -> Result<(), JournalFault>
    requires { IsClean (S.Store.view store.old) → IsTrue (S.Store.view store.old).is_numbered }
    ensures finds { IsClean (S.Store.view store.new) → OnOk result (Finds (S.Store.view store.old) (S.Store.view store.new)) }
    ensures clean { doubt (S.Store.view store.old).is_clean ≤ doubt (S.Store.view store.new).is_clean }
{
    let objects = store.objects(alloc)?;
    if objects.is_empty() {
        make_table(store)
    } else if lists_edits(alloc, &objects)? {
        Ok(())
    } else {
        Err(JournalFault::NotAJournal)
    }
}
