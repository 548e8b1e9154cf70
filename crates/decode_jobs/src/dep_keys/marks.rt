//! Marks on the numbers of keys that a sweep keeps.

ghost use Rattle.std.specs.Prelude.{◌≡◌, IfOk, false, length, replicate};
ghost use Rattle.decode_jobs.specs.Marks.{all_marked, all_passed_on, is_marked, marked, named_marked, passed_on};

use crate::dep_keys::key_id::KeyId;
use crate::dep_keys::node::Node;
use std::alloc::{AllocError, Global};

/// The numbers of the roots and of all below them, of this many numbers.
pub(crate) fn needed<W>(
    alloc: Global,
    slots: &[(KeyId, Node<W>)],
    bound: usize,
    roots: &[KeyId],
) -> Result<Vec<bool>, AllocError>
    ensures { IfOk result (λ marks. marks.items
        ≡ all_passed_on (all_marked (replicate bound false) roots.now) slots.now) }
{
    let mut marks = vec![in alloc; false; bound]?;
    for root in roots {
        mark(&mut marks, *root);
    }
    pass_on_all(slots, &mut marks);
    Ok(marks)
}

/// Whether a number is marked.
pub(crate) fn is_marked(marks: &[bool], number: usize) -> bool
    ensures { result ≡ is_marked marks.now number }
{
    marks.get(number).copied().unwrap_or(false)
}

/// Marks a number.
fn mark(marks: &mut [bool], key: KeyId)
    ensures { marks.new ≡ marked marks.old key }
{
    let number = key.number() as usize;
    if number < marks.len() {
        marks[number] = true;
    }
}

/// Marks what the entries name.
fn mark_named(marks: &mut [bool], entries: &[Option<KeyId>])
    ensures { marks.new ≡ named_marked marks.old entries.now }
{
    for entry in entries {
        if let Some(key) = entry {
            mark(marks, *key);
        }
    }
}

/// Marks what a slot names, where the slot itself is marked.
fn pass_on<W>(marks: &mut [bool], slot: &(KeyId, Node<W>))
    ensures { marks.new ≡ passed_on marks.old slot.now }
{
    if is_marked(marks, slot.0.number() as usize) {
        mark_named(marks, slot.1.entries());
    }
}

/// Passes the marks on, from the last slot to the first.
fn pass_on_all<W>(slots: &[(KeyId, Node<W>)], marks: &mut [bool])
    ensures { marks.new ≡ all_passed_on marks.old slots.now }
{
    let mut place = slots.len();
    while place > 0 {
        place -= 1;
        pass_on(marks, &slots[place]);
    }
}
