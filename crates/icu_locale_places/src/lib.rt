//! Where a text is wrong that no locale identifier is spelled by.
#![tactic(auto)]

mod fronts;
pub mod laws;
mod place;

pub use place::{Fault, read_at};
