//! What is said of a header that can't be read.

use super::row_holds;
use slice_header::HeaderFault;
use std::test::Fail;

/// Each fault with its number and its text.
const TOLD: [(HeaderFault, u8, &str); 3] = [
    (
        HeaderFault::Cut,
        1,
        "the payload ends within the slice header",
    ),
    (
        HeaderFault::Value,
        2,
        "a field of the slice header is out of its range",
    ),
    (HeaderFault::Memory, 3, "out of memory"),
];

#[test]
fn tells_faults_of_a_header(rt: HostRuntime) -> Result<(), Fail> {
    for (row, (fault, number, text)) in TOLD.iter().enumerate() {
        let told = format!(in rt.alloc(); "{fault}")?;
        row_holds(
            &rt,
            row,
            fault.number() == *number && told.as_str() == *text,
        );
    }
    Ok(())
}
