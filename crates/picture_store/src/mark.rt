//! A mark: the keys of the valid units of a stream as it was.

ghost use Rattle.std.specs.Prelude.{◌≡◌, ◌==◌, ◌<◌, ℕ, ◌↔◌, [], ◌∷◌, ◌++◌, true, length, if◌then◌else◌, Contains, IfOk, IsTrue, OnOk, OnErr};
ghost use Rattle.std.specs.List.{filter_map};
ghost use Rattle.picture_store.specs.Marks.{is_flagged, numbers_marked};

use decode_jobs::dep_keys::KeyId;
use std::alloc::{AllocError, Global};
use std::marker::Model;

/// The numbers of the keys of valid units. Clauses see these.
#[derive(Debug, Drop)]
pub(crate) struct Mark {
    keys: Vec<KeyId>,
    // By the number of a key, whether it is one of them.
    flags: Vec<bool>,
}

impl Model for Mark {
    ghost use Rattle.std.specs.Prelude.{ℕ, List};
    ghost use Rattle.picture_store.specs.Marks.{AreFlagged};

    ghost Value = { List ℕ };

    ghost view = { λ mark. mark.keys.items };

    ghost invariant = { λ mark. AreFlagged mark.keys.items mark.flags.items };
}

impl Mark {
    /// A mark of the keys of units.
    pub(crate) fn new(alloc: Global, numbers: &[Option<KeyId>]) -> Result<Mark, AllocError>
        ensures { IfOk result (λ mark. mark ≡ filter_map (λ number. number) numbers.now) }
    {
        let mut mark = Mark {
            keys: Vec::with_capacity(alloc, numbers.len())?,
            flags: Vec::new(alloc),
        };
        for number in numbers {
            if let Some(key) = number {
                mark.add(*key)?;
            }
        }
        Ok(mark)
    }

    /// Adds a key.
    fn add(&mut self, key: KeyId) -> Result<(), AllocError>
        ensures { OnOk result (self.new ≡ self.old ++ key ∷ []) }
    {
        self.keys.reserve(1)?;
        flag(&mut self.flags, key.number() as usize)?;
        self.keys.push_reserved(key);
        Ok(())
    }

    /// Whether a key is marked.
    pub(crate) fn has(&self, key: KeyId) -> bool
        ensures { IsTrue result ↔ Contains self.now key }
    {
        is_flagged(&self.flags, key.number() as usize)
    }

    /// The marked keys.
    fn keys(&self) -> &[KeyId]
        ensures { result.now ≡ self.now }
    {
        self.keys.as_slice()
    }
}

/// Adds the marked keys, where a mark was made.
pub(crate) fn add_marked(roots: &mut Vec<KeyId>, mark: &Option<Mark>) -> Result<(), AllocError>
    ensures { OnOk result (roots.new.items ≡ roots.old.items ++ numbers_marked mark.now) }
{
    match mark {
        Some(mark) => roots.extend_from_slice(mark.keys()),
        None => Ok(()),
    }
}

/// Whether a number has a flag.
fn is_flagged(flags: &[bool], number: usize) -> bool
    ensures { result ≡ is_flagged flags.now number }
{
    flags.get(number).copied().unwrap_or(false)
}

/// Gives a number a flag.
fn flag(flags: &mut Vec<bool>, number: usize) -> Result<(), AllocError>
    ensures flagged { OnOk result ((other : ℕ) → is_flagged flags.new.items other
        ≡ (if number == other then true else is_flagged flags.old.items other)) }
    ensures same { OnErr result ((other : ℕ) → is_flagged flags.new.items other
        ≡ is_flagged flags.old.items other) }
{
    make_flags(flags, number)?;
    flags[number] = true;
    Ok(())
}

/// Makes room for a number's flag.
fn make_flags(flags: &mut Vec<bool>, number: usize) -> Result<(), AllocError>
    ensures same { (other : ℕ) → is_flagged flags.new.items other
        ≡ is_flagged flags.old.items other }
    ensures capacity { OnOk result (number < length flags.new.items) }
{
    while flags.len() <= number {
        flags.push(false)?;
    }
    Ok(())
}
