//! Tests of the program: words, texts and files in, lines and statuses out, across all crates. They
//! call public functions alone, so the program is proved once.
#![tactic(auto)]

#[cfg(test)]
mod sample;
#[cfg(test)]
mod tests;
