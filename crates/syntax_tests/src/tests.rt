mod byte_stream;
mod codes;
mod headers;
mod picture;
mod sets;

use std::process::Abort;

/// Asserts what a row of a table says.
fn row_holds(rt: &impl Abort, row: usize, holds: bool) {
    assert!(rt; holds, "row {row}");
}
