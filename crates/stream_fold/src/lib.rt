//! A stream under changes, refolded from stored states, with each unit's place in output order; and
//! theorems on whole streams.
//!
//! `Folded` keeps the units of a stream, and the states of the fold past some of its places. The
//! units' outcomes are its caller's: it reads them when it prepares a change, and the prepared
//! change has those of one range, made anew. A change is prepared, which may run out of memory
//! and leaves all answers as they were, and then committed, which takes none. The fold goes on from
//! the stored state before the change, or from the place of the last change, where that is nearer,
//! and ends where it comes to a state that is stored.
//!
//! `OrderedFold` joins a `Folded` with the `Periods` of output_order that its units' outcomes make.
//! Of the periods, those that the range of new outcomes touches are changed, and no others.
//!
//! The theorems: whoever decodes a stream's units in order never meets one that lacks something:
//! where no access unit is refused, the plan of each valid unit has the requests of one picture,
//! and each entry of their reference lists is missing or names an earlier valid unit, whose picture
//! has been made by then (`outcomes_can_be_decoded`). Where the folds over two streams agree in
//! state and in the keys of the marked frames, they go on alike over the same further units
//! (`folds_that_agree_go_on_alike`): of the keys before them, those of units depend on the keys of
//! the marked frames alone (`keys_depend_on_marked_frames`).
#![tactic(auto)]

mod folded;
mod laws;
mod ordered;
mod refold;
mod storing;

pub use folded::{Folded, PreparedFold};
pub use laws::{
    folds_that_agree_go_on_alike, keys_depend_on_marked_frames, outcomes_can_be_decoded,
};
pub use ordered::{OrderedFold, PreparedChange};
pub use storing::shares_of;
pub use stream_edits::Change;
