//! Slice headers as values (ITU-T H.264, 7.4.3): fields, commands of lists, weights and marking.
//!
//! The headers are read by `slice_header`; what follows from them is left to the crates above, none
//! of which needs to know how a header is written.

mod dec_ref_pic_marking;
mod pred_weight_table;
mod ref_pic_list_modification;
mod slice_headers;
mod slice_types;

pub use dec_ref_pic_marking::{
    DecRefPicMarking, MOST_OPERATIONS, MemoryManagementControlOperation,
    MemoryManagementControlOperations,
};
pub use pred_weight_table::{PredWeight, PredWeightTable, PredWeights};
pub use ref_pic_list_modification::{RefPicListModification, RefPicListModifications};
pub use slice_headers::SliceHeader;
pub use slice_types::SliceType;
