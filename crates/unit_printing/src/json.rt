//! A unit's outcome as a JSON object, and `preview plan --json` (docs/OUTPUT.md).
//!
//! A `JsonLine` is made of what the fold says of a unit and what doubts tells of it, of a unit
//! that isn't there, or of a stream's refusal, and has just the members that are printed; the
//! controls of a request are the kernel's structs of frame_requests, six of a slice or four of a
//! picture. `serde` and `serde_json` write it, by the encoder `Json`; what prints lines is generic
//! over the `Encoder`, which a `JsonForm` names with the decoder's mode. `plan_json_for` reads a
//! whole input, has its access units read in threads and folded by request_core, and writes the
//! line of each, or that of the stream's refusal. Above are script_run, serve_answers and cli.
mod doubts;
mod encoding;
mod folding;
mod frame_json;
mod json_line;
mod numbered;
mod plan_json;
mod printing;
mod request_json;

pub use doubts::doubts_of_units;
pub use encoding::{DecodeMode, Encoder, Json, JsonForm};
pub use frame_json::FrameJson;
pub use json_line::{CountsJson, FramePlanJson, HeadJson, JsonLine, PlanJson};
pub use plan_json::plan_json_for;
pub use request_json::{RequestJson, RequestsJson};
