//! Runs of states, each found from the one before it: where one ends, or which of its states comes again first.
#![tactic(auto)]

pub mod laws;
mod rewriting;

pub use rewriting::{Outcome, Rewriting, Turns, end_of_run};
