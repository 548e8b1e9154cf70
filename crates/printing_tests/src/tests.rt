mod checks;
mod cropping;
mod drawing;
mod json;
mod kinds;
mod plan_lines;
mod plans_json;
mod reasons;
mod window;

use console_io::Console;
use std::alloc::{AllocError, Global};
use std::process::Abort;

/// Asserts what a row of a table says.
fn row_holds(rt: &impl Abort, row: usize, holds: bool) {
    assert!(rt; holds, "row {row}");
}

/// What a run writes to, before it has written.
fn new_console(alloc: Global) -> Console<Vec<u8>, Vec<u8>> {
    Console {
        output: Vec::new(alloc),
        errors: Vec::new(alloc),
    }
}

/// The parts, one after the other.
fn joined(alloc: Global, parts: &[&[u8]]) -> Result<Vec<u8>, AllocError> {
    let mut text = Vec::new(alloc);
    for part in parts {
        text.extend_from_slice(*part)?;
    }
    Ok(text)
}
