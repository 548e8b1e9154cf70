//! Tests of sessions under edits, of damaged units and of runs of commands; and of calls of which
//! any growth of memory is refused: once, and then the call is made again, or from some growth on.
//! They call public functions alone, so stand_in_session is proved once.
#![tactic(auto)]

#[cfg(test)]
mod tests;
