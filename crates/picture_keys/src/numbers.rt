//! The numbers of the keys of units.

ghost use Rattle.std.specs.Prelude.{◌≡◌, ℕ, ◌==◌, [], Some, IfOk, OnOk, OnErr, if◌then◌else◌};
ghost use Rattle.std.specs.Ordering.{nat_cmp};
ghost use Rattle.std.specs.BTreeMap.{is_at};
ghost use Rattle.std.specs.Map.{lookup};
ghost use Rattle.picture_keys.specs.Numbered.{AreSeen, number_at, numbers_over, numbers_with};

use decode_jobs::dep_keys::KeyId;
use h264_types::pictures::AuId;
use std::alloc::{AllocError, Global};
use std::collections::BTreeMap;
use std::marker::Model;

/// The numbers of the keys of units' pictures, found by the units' ids: those of the first units of
/// a stream, which stand in columns, the ids in one and the numbers in the other, and those of
/// units after them.
#[derive(Debug, Drop)]
pub struct KeyNumbers<'a> {
    ids: &'a [AuId],
    numbers: &'a [Option<KeyId>],
    // What the columns have of the ids that were looked for in them.
    seen: BTreeMap<u32, Option<KeyId>>,
    later: BTreeMap<u32, KeyId>,
}

impl<'a> Model for KeyNumbers<'a> {
    ghost use Rattle.std.specs.Prelude.{[], ◌++◌};
    ghost use Rattle.picture_keys.specs.Numbered.{AreSeen, Numbers, numbers_over};

    ghost Value = { Numbers };

    ghost view = { λ keys. keys.later.entries ++ numbers_over [] keys.ids.now keys.numbers.now };

    ghost invariant = { λ keys.
        AreSeen keys.seen.entries (numbers_over [] keys.ids.now keys.numbers.now) };
}

impl<'a> KeyNumbers<'a> {
    /// No unit.
    pub fn new(alloc: Global) -> KeyNumbers<'a>
        ensures { result ≡ [] }
    {
        KeyNumbers::over(alloc, &[], &[])
    }

    /// Units with these ids, whose keys have these numbers, nothing for one that isn't valid.
    pub fn over(alloc: Global, ids: &'a [AuId], numbers: &'a [Option<KeyId>]) -> KeyNumbers<'a>
        ensures { result ≡ numbers_over [] ids.now numbers.now }
    {
        KeyNumbers {
            ids,
            numbers,
            seen: BTreeMap::new(alloc),
            later: BTreeMap::new(alloc),
        }
    }

    /// The number of the key of the unit that has the id. One of the first units is looked for from
    /// the last of them on, and that once: from then on it is among those that were seen.
    pub fn get(&mut self, id: AuId) -> Result<Option<KeyId>, AllocError>
        ensures ok { IfOk result (λ number. number ≡ number_at self.old id) }
        ensures same { self.new ≡ self.old }
    {
        match self.later.get(&id.number()) {
            Some(key) => Ok(Some(*key)),
            None => seen_or_among(&mut self.seen, self.ids, self.numbers, id),
        }
    }

    /// Gives a unit the number of its key.
    pub fn put(&mut self, id: AuId, key: KeyId) -> Result<(), AllocError>
        ensures ok { OnOk result ((other : ℕ) → number_at self.new other
            ≡ (if id == other then Some key else number_at self.old other)) }
        ensures err { OnErr result (self.new ≡ self.old) }
    {
        self.later.insert(id.number(), key)?;
        Ok(())
    }

    /// Gives a unit the number of its key, where it has one.
    pub fn note(&mut self, id: AuId, key: Option<KeyId>) -> Result<(), AllocError>
        ensures ok { OnOk result ((other : ℕ) → number_at self.new other
            ≡ number_at (numbers_with id key self.old) other) }
        ensures err { OnErr result (self.new ≡ self.old) }
    {
        match key {
            Some(key) => self.put(id, key),
            None => Ok(()),
        }
    }
}

/// The number of the key of a unit of the columns, which is among those seen from then on.
fn seen_or_among(
    seen: &mut BTreeMap<u32, Option<KeyId>>,
    ids: &[AuId],
    numbers: &[Option<KeyId>],
    id: AuId,
) -> Result<Option<KeyId>, AllocError>
    requires { AreSeen seen.old.entries (numbers_over [] ids.now numbers.now) }
    ensures ok { IfOk result (λ number. number
        ≡ number_at (numbers_over [] ids.now numbers.now) id) }
    ensures seen { AreSeen seen.new.entries (numbers_over [] ids.now numbers.now) }
{
    match seen.get(&id.number()).copied() {
        Some(number) => Ok(number),
        None => look(seen, ids, numbers, id),
    }
}

/// Looks for a unit in the columns: the number of its key, which is among those seen from then on.
fn look(
    seen: &mut BTreeMap<u32, Option<KeyId>>,
    ids: &[AuId],
    numbers: &[Option<KeyId>],
    id: AuId,
) -> Result<Option<KeyId>, AllocError>
    requires { AreSeen seen.old.entries (numbers_over [] ids.now numbers.now) }
    ensures ok { IfOk result (λ number. number
        ≡ number_at (numbers_over [] ids.now numbers.now) id) }
    ensures seen { AreSeen seen.new.entries (numbers_over [] ids.now numbers.now) }
{
    match number_among(ids, numbers, id) {
        Some(key) => {
            see(seen, id, Some(key))?;
            Ok(Some(key))
        }
        None => {
            see(seen, id, None)?;
            Ok(None)
        }
    }
}

/// Adds what the columns have of an id.
fn see(
    seen: &mut BTreeMap<u32, Option<KeyId>>,
    id: AuId,
    number: Option<KeyId>,
) -> Result<(), AllocError>
    ensures ok { OnOk result ((other : ℕ) → lookup (is_at (nat_cmp other)) seen.new.entries
        ≡ (if id == other then Some number
        else lookup (is_at (nat_cmp other)) seen.old.entries)) }
    ensures err { OnErr result (seen.new.entries ≡ seen.old.entries) }
{
    seen.insert(id.number(), number)?;
    Ok(())
}

/// The number of the key of the last unit that has the id, among those that have a key.
fn number_among(ids: &[AuId], numbers: &[Option<KeyId>], id: AuId) -> Option<KeyId>
    ensures { result ≡ number_at (numbers_over [] ids.now numbers.now) id }
{
    let mut at = ids.len().min(numbers.len());
    while at > 0 {
        at -= 1;
        let number = numbers[at];
        if ids[at] == id && number.is_some() {
            return number;
        }
    }
    None
}
