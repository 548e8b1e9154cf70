//! Tests of the queues of a stateless decoder, of the stand-in for one, of keys under numbers and
//! of the cache of pictures. They call public functions alone, so what they test is proved once.
#![tactic(auto)]

#[cfg(test)]
mod tests;
