mod bounded_cache;
mod growth;
mod sweeps;

ghost use Rattle.std.specs.Prelude.{◌≡◌, ℕ, replicate};
ghost use Rattle.std.specs.Int.{w32, to_le_bytes};

use decode_jobs::dep_keys::{Content, Fingerprint, KeyId, Keys, Node};
use sha2::{Digest, Sha256};
use std::alloc::{AllocError, AllocGlobal};
use std::process::Abort;
use std::test::Fail;

/// Content that is a number.
#[derive(Debug, Drop)]
struct Number {
    number: u32,
}

impl Content for Number {
    ghost bytes = { λ work. to_le_bytes w32 work.number };

    fn is_same(&self, other: &Number) -> bool {
        self.number == other.number
    }

    fn feed(&self, hasher: &mut Sha256) {
        hasher.update(self.number.to_le_bytes());
    }
}

/// A fingerprint that is the same for each node.
#[derive(Debug, Drop)]
struct Zeros;

impl<W> Fingerprint<W> for Zeros {
    ghost digest = { λ node. replicate 32 0 };

    fn of(&mut self, _node: &Node<W>) -> Result<[u8; 32], AllocError> {
        Ok([0; 32])
    }
}

/// A node by hand: its work, its entries as earlier rows, and the class of its tree.
type Row = (u32, &'static [Option<usize>], u32);

/// Rows with equal trees have equal classes, and others have other ones.
const ROWS: [Row; 14] = [
    (1, &[], 0),
    (2, &[], 1),
    (1, &[], 0),
    (3, &[Some(0)], 2),
    (3, &[Some(2)], 2),
    (3, &[Some(1)], 3),
    (3, &[None], 4),
    (3, &[Some(0), None], 5),
    (3, &[None, Some(0)], 6),
    (4, &[Some(3), Some(3), Some(0)], 7),
    (4, &[Some(4), Some(3), Some(2)], 7),
    (4, &[Some(3), Some(0), Some(3)], 8),
    (4, &[Some(5), Some(3), Some(0)], 9),
    (3, &[], 10),
];

/// Interns a node whose entries are live.
fn intern<F: Fingerprint<Number>>(
    rt: &(impl Abort + AllocGlobal),
    keys: &mut Keys<Number, F>,
    number: u32,
    entries: &[Option<KeyId>],
) -> Result<KeyId, AllocError> {
    let node = Node::new(Number { number }, entries.to_vec(rt.alloc())?);
    assert!(rt; keys.are_live(node.entries()));
    keys.intern(node)
}

/// The keys of earlier rows.
fn entries_of(
    rt: &(impl Abort + AllocGlobal),
    row: Row,
    ids: &[KeyId],
) -> Result<Vec<Option<KeyId>>, AllocError> {
    let mut entries = Vec::new(rt.alloc());
    for place in row.1 {
        entries.push(match place {
            Some(place) => Some(*ids.get(*place).expect(rt, "an earlier row")),
            None => None,
        })?;
    }
    Ok(entries)
}

/// Interns all rows.
fn intern_rows<F: Fingerprint<Number>>(
    rt: &(impl Abort + AllocGlobal),
    keys: &mut Keys<Number, F>,
) -> Result<Vec<KeyId>, AllocError> {
    let mut ids = Vec::new(rt.alloc());
    for row in ROWS {
        let entries = entries_of(rt, row, &ids)?;
        ids.push(intern(rt, keys, row.0, &entries)?)?;
    }
    Ok(ids)
}

/// Whether a key of this class has the number of the rows of that class, and of no others.
fn has_class(ids: &[KeyId], class: u32, id: KeyId) -> bool {
    for (other, other_id) in ROWS.iter().zip(ids) {
        if (id == *other_id) != (class == other.2) {
            return false;
        }
    }
    true
}

/// Whether each two rows have equal numbers exactly where their classes are equal.
fn have_classes(ids: &[KeyId]) -> bool {
    for (row, id) in ROWS.iter().zip(ids) {
        if !has_class(ids, row.2, *id) {
            return false;
        }
    }
    ids.len() == ROWS.len()
}

/// Whether the rows have the numbers of their classes, and there is a key for each class.
fn rows_have_classes<F: Fingerprint<Number>>(
    rt: &(impl Abort + AllocGlobal),
    keys: &mut Keys<Number, F>,
) -> Result<bool, AllocError> {
    let ids = intern_rows(rt, keys)?;
    Ok(have_classes(&ids) && keys.len() == 11)
}

#[test]
fn equal_numbers_for_equal_trees(rt: HostRuntime) -> Result<(), Fail> {
    let mut keys = Keys::new(rt.alloc());
    assert!(rt; keys.is_empty() && rows_have_classes(&rt, &mut keys)?);
    Ok(())
}

#[test]
fn equal_numbers_for_equal_trees_by_a_fingerprint_of_zeros(rt: HostRuntime) -> Result<(), Fail> {
    let mut keys = Keys::with(rt.alloc(), Zeros);
    assert!(rt; rows_have_classes(&rt, &mut keys)?);
    Ok(())
}

/// Whether a tree of more than 2^100 nodes is kept as 101, through a sweep too.
fn is_kept_once<F: Fingerprint<Number>>(
    rt: &(impl Abort + AllocGlobal),
    keys: &mut Keys<Number, F>,
) -> Result<bool, AllocError> {
    let mut top = intern(rt, keys, 0, &[])?;
    for number in 1..=100 {
        top = intern(rt, keys, number, &[Some(top), None, Some(top)])?;
    }
    let count = keys.len();
    keys.sweep(&[top])?;
    Ok(count == 101 && keys.len() == 101)
}

#[test]
fn shared_trees_are_kept_once(rt: HostRuntime) -> Result<(), Fail> {
    let mut keys = Keys::new(rt.alloc());
    assert!(rt; is_kept_once(&rt, &mut keys)?);
    Ok(())
}
