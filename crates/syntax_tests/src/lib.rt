//! Tests of the syntax, field by field: the byte stream, codes of bits, parameter sets and slice
//! headers; and of what follows from a picture's headers: counts, marking, lists and controls. They
//! call public functions alone, so the crates that they test are proved once.
#![tactic(auto)]

#[cfg(test)]
mod tests;
