//! Drawn lists of commands on sessions, each compared, command by command, with a plain and slow
//! model that folds the stream anew after each edit, has whole trees for keys, and lists for all
//! else. Its tests call public functions alone.
#![tactic(auto)]

#[cfg(test)]
mod tests;
