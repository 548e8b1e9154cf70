//! Tests of access units, of the fold over streams with each fault, and of output order; and of
//! streams under changes of one unit: the states that are stored along them, how many steps of the
//! fold a change makes, positions by periods and how many comparisons one takes, and that what is
//! refused for lack of memory changes nothing. They call public functions alone, so what they test
//! is proved once.
#![tactic(auto)]

#[cfg(test)]
mod tests;
