//! Pictures of a stream as values: ids, picture order counts (ITU-T H.264, 8.2.1), frames that are
//! marked as references and their numbers (8.2.4.1), and reference lists.
//!
//! What a picture's counts, marks and lists are is said by `order_count`, `ref_marking` and
//! `ref_lists`, which stand side by side on these types.

mod au_id;
mod counts;
mod frames;
mod marked_frames;
mod pic_nums;
mod reference_list;
mod resetting;

pub use au_id::AuId;
pub use counts::Counts;
pub use frames::{Frame, Term};
pub use marked_frames::Marks;
pub use pic_nums::frame_num_wrap;
pub use reference_list::List;
pub use resetting::{after_reset, resets};
