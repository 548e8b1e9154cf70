//! Tests of a journal in a file: what is read back, of lines and of steps, and which files are opened.
//! They call public functions alone, so what they test is proved once.
#![tactic(auto)]

#[cfg(test)]
mod tests;
