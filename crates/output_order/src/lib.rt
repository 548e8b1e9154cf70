//! Output order: the place of each picture among those that are shown (ITU-T H.264, C.4.5.3), from
//! the outcomes of a stream's units.
//!
//! `positions` sorts a whole stream's. `Periods` keeps them under changes: for each period its
//! units with the keys of the valid ones in output order, and how many valid units earlier periods
//! have. A position is found by a search in one period. A change of a few units inside one period
//! moves the keys behind theirs; any other change makes anew the periods that it touches.
#![tactic(auto)]

mod comparisons;
mod counting;
mod cutting;
mod in_place;
mod order_key;
mod period;
mod periods;
mod positions_by_key;
mod shown;
mod splice;
mod touching;

pub use comparisons::Comparisons;
pub use periods::Periods;
pub use positions_by_key::{Key, positions};
pub use shown::Shown;
pub use splice::Splice;
