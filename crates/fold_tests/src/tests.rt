mod doubt;
mod fold;
mod keys;
mod refold;
mod shown_order;
mod texts;
mod units;

use std::process::Abort;

/// Asserts what a row of a table says.
fn row_holds(rt: &impl Abort, row: usize, holds: bool) {
    assert!(rt; holds, "row {row}");
}
