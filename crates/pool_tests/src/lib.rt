//! Tests of desks: seats in threads, workers whose gates hold, hand back and wait, audits and ends;
//! of scripts that a seat runs beside workers; and of the server over memory. They call public
//! functions alone, so seat_books, decode_pool, script_run and serve_run are proved once.
#![tactic(auto)]

#[cfg(test)]
mod tests;
