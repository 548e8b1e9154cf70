//! Slots for pictures, one for each key that units use, how many units use it, and which units a
//! picture needs.
//!
//! A key's number is its slot's place in a list, so that a change of a few units touches the slots
//! of their keys alone: `KeySlots` finds a slot at once, `take_up_all` and `let_go_all` count the
//! units that come and that go. The picture of a key that no unit uses any more goes into the
//! cache, and what goes out of that is released. `needed_places` goes from a unit down to the earliest one that it needs, its own and
//! those that the lists of needed ones name, as far as their pictures aren't held, over each place
//! once. dep_keys and picture_keys give the numbers, picture_cache keeps what is cached; above is
//! picture_store.

mod caching;
mod naming;
mod scan;
mod slots;
mod using;

pub use naming::{Units, is_held};
pub use scan::needed_places;
pub use slots::KeySlots;
pub use using::{let_go_all, reserve_slots, take_up_all};
