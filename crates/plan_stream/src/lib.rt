//! `preview plan`: a stream read through a window, planned and printed.
//!
//! `Window::next` shows the text of the next access unit of what a reader gives, and forgets the
//! one before it, so that its memory is used again; `read_front` reads such a text. `gather` reads
//! a byte stream to its end in this way, and has a `UnitFold` take each access unit, or says why
//! the stream is refused. `plan_on` has each folded by request_core and keeps of it what its lines
//! need; then it writes the lines, or the line of the stream's refusal. What is read and written is
//! generic; below are console_io and unit_printing, and access_unit, whose definitions say which
//! access units a stream has.
#![tactic(auto)]

mod fault;
mod front;
mod gathering;
mod plan;
mod plan_fold;
mod printing;
mod reading;
mod shown;
mod tails;
mod text_buffer;
mod walk;
mod window;

pub use fault::{PlanFault, say_plan_fault};
pub use front::fronts;
pub use gathering::{StreamGathering, UnitFold, gather};
pub use plan::{plan_on, print_refusal};
pub use reading::read_front;
pub use shown::shown_of;
pub use window::Window;
