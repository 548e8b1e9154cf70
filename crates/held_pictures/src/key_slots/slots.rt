//! Slots by the numbers of keys.

ghost use Rattle.std.specs.Prelude.{◌≡◌, ◌+◌, ◌^◌, ◌==◌, ◌<◌, ◌≤◌, ℕ, [], ◌∷◌, ◌++◌, length, if◌then◌else◌, IsPermutation, Some, None, OnOk};
ghost use Rattle.std.specs.List.{slice_set};
ghost use Rattle.std.specs.Option.{option_to_list};
ghost use Rattle.held_pictures.specs.KeySlots.{AreSame, is_awaited, is_held, numbers_held, picture_held, pictures_held, place_at, place_of, slot_at, taken_up, uses_at};

use decode_jobs::dep_keys::KeyId;
use std::alloc::{AllocError, Global};
use std::marker::Model;

/// How many units use a key, and its picture where that is held.
#[derive(Clone, Copy, Debug, Drop)]
pub(crate) struct Slot<P> {
    uses: usize,
    picture: Option<P>,
}

impl<P> Slot<P> {
    /// Whether units use the key, and its picture is held.
    fn is_held(&self) -> bool
        ensures { result ≡ is_held (place_of self.now) }
    {
        self.uses > 0 && self.picture.is_some()
    }

    /// Whether units use the key, and its picture isn't held.
    fn is_awaited(&self) -> bool
        ensures { result ≡ is_awaited (place_of self.now) }
    {
        self.uses > 0 && self.picture.is_none()
    }
}

/// The keys in use, each with the number of units that use it, and with its picture where that is
/// held.
#[derive(Debug, Drop)]
pub struct KeySlots<P> {
    slots: Vec<Slot<P>>,
}

impl<P> Model for KeySlots<P> {
    ghost use Rattle.std.specs.Prelude.{List};
    ghost use Rattle.held_pictures.specs.declared.key_slots.slots.Slot.{Slot};

    ghost Value = { List (Slot P) };

    ghost view = { λ key_slots. key_slots.slots.items };
}

impl<P: Copy + Drop> KeySlots<P> {
    /// No key is in use.
    pub fn new(alloc: Global) -> KeySlots<P>
        ensures { result ≡ [] }
    {
        KeySlots {
            slots: Vec::new(alloc),
        }
    }

    /// The slot of a key: nothing where the key isn't in use, and else its picture where that is
    /// held.
    pub fn get(&self, key: KeyId) -> Option<Option<P>>
        ensures { result ≡ place_at self.now key }
    {
        let slot = self.slot(key);
        if slot.uses == 0 {
            None
        } else {
            Some(slot.picture)
        }
    }

    /// Whether a key is in use and its picture held. The picture isn't copied.
    pub fn is_held(&self, key: KeyId) -> bool
        ensures { result ≡ is_held (place_at self.now key) }
    {
        match self.slots.get(key.number() as usize) {
            Some(slot) => slot.is_held(),
            None => false,
        }
    }

    /// Whether a key is in use and its picture isn't held.
    pub fn is_awaited(&self, key: KeyId) -> bool
        ensures { result ≡ is_awaited (place_at self.now key) }
    {
        match self.slots.get(key.number() as usize) {
            Some(slot) => slot.is_awaited(),
            None => false,
        }
    }

    /// How many keys there are whose pictures are held. Each slot is looked at once.
    pub fn held(&self) -> usize
        ensures { result ≡ length (numbers_held self.now) }
    {
        count_held(&self.slots)
    }

    /// Gives a key in use a picture.
    pub fn fill(&mut self, key: KeyId, picture: P)
        ensures uses { (number : ℕ) → uses_at self.new number ≡ uses_at self.old number }
        ensures key_slots { 0 < uses_at self.old key → (number : ℕ) → place_at self.new number
            ≡ (if key == number then Some (Some picture) else place_at self.old number) }
        ensures accounts { 0 < uses_at self.old key → IsPermutation
            (option_to_list (picture_held (place_at self.old key)) ++ pictures_held self.new)
            (picture ∷ pictures_held self.old) }
    {
        let uses = self.slot(key).uses;
        self.set(
            key,
            Slot {
                uses,
                picture: Some(picture),
            },
        );
    }

    /// Takes the picture out of the slot of a key in use, and gives it back.
    pub fn empty(&mut self, key: KeyId) -> Option<P>
        ensures picture { result ≡ picture_held (place_at self.old key) }
        ensures uses { (number : ℕ) → uses_at self.new number ≡ uses_at self.old number }
        ensures key_slots { 0 < uses_at self.old key → (number : ℕ) → place_at self.new number
            ≡ (if key == number then Some None else place_at self.old number) }
        ensures accounts { IsPermutation (option_to_list result ++ pictures_held self.new)
            (pictures_held self.old) }
    {
        let held = self.get(key)?;
        let uses = self.slot(key).uses;
        self.set(
            key,
            Slot {
                uses,
                picture: None,
            },
        );
        held
    }

    /// Makes room for a key.
    pub(crate) fn reserve(&mut self, key: KeyId) -> Result<(), AllocError>
        ensures same { AreSame self.old self.new }
        ensures longer { length self.old ≤ length self.new }
        ensures capacity { OnOk result (key < length self.new) }
    {
        make_slots(&mut self.slots, key.number() as usize)
    }

    /// Counts one unit more that uses a key, which has this picture where it comes into use.
    pub(crate) fn take_up(&mut self, key: KeyId, picture: Option<P>)
        requires { uses_at self.old key + 1 < 2 ^ 64 }
        ensures { self.new ≡ slice_set self.old key (taken_up (slot_at self.old key) picture) }
    {
        let slot = self.slot(key);
        let picture = if slot.uses == 0 {
            picture
        } else {
            slot.picture
        };
        self.set(
            key,
            Slot {
                uses: slot.uses + 1,
                picture,
            },
        );
    }

    /// Counts one unit less that uses a key. Its picture, where one was held and the key goes out
    /// of use.
    pub(crate) fn let_go(&mut self, key: KeyId) -> Option<P>
        ensures picture { result
            ≡ (if uses_at self.old key == 1 then (slot_at self.old key).picture else None) }
        ensures slots { (uses : ℕ) → uses_at self.old key ≡ uses + 1 → self.new
            ≡ slice_set self.old key
            (record { uses = uses; picture = (slot_at self.old key).picture }) }
    {
        let slot = self.slot(key);
        self.set(
            key,
            Slot {
                uses: slot.uses.saturating_sub(1),
                picture: slot.picture,
            },
        );
        if slot.uses == 1 { slot.picture } else { None }
    }

    /// The slot of a key.
    fn slot(&self, key: KeyId) -> Slot<P>
        ensures { result ≡ slot_at self.now key }
    {
        self.slots
            .get(key.number() as usize)
            .copied()
            .unwrap_or(Slot {
                uses: 0,
                picture: None,
            })
    }

    /// Puts a slot in the place of that of a key, where there is room for it.
    fn set(&mut self, key: KeyId, slot: Slot<P>)
        ensures { self.new ≡ slice_set self.old key slot }
    {
        let at = key.number() as usize;
        if at < self.slots.len() {
            self.slots[at] = slot;
        }
    }
}

/// How many of these slots have a picture that is held.
fn count_held<P>(slots: &[Slot<P>]) -> usize
    ensures { result ≡ length (numbers_held slots.now) }
{
    let mut held = 0;
    for slot in slots {
        if slot.is_held() {
            held += 1;
        }
    }
    held
}

/// Makes slots up to that at a place.
fn make_slots<P: Copy + Drop>(slots: &mut Vec<Slot<P>>, at: usize) -> Result<(), AllocError>
    ensures same { AreSame slots.old.items slots.new.items }
    ensures longer { length slots.old.items ≤ length slots.new.items }
    ensures capacity { OnOk result (at < length slots.new.items) }
{
    while slots.len() <= at {
        slots.push(Slot {
            uses: 0,
            picture: None,
        })?;
    }
    Ok(())
}
