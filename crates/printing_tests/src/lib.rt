//! Tests of what is printed: drawings (where boxes and arcs lie, what a document has, texts in
//! XML), lines of JSON by docs/OUTPUT.md, and plans of streams that are read through a window, in
//! pieces of any size, across its borders, with units as long as they may be, and from readers that
//! fail. They call public functions alone, so what they test is proved once.
#![tactic(auto)]

#[cfg(test)]
mod tests;
