//! Whether the parts of a locale are known: what the standard says of each code (UTS #35 Part 1, Validity Data).
#![tactic(auto)]

mod code;
mod faults;
pub mod laws;
mod lines;
mod listed;
mod part;
mod place;
mod region;
mod report;
mod table;
mod whole;

pub use part::PartKind;
pub use table::{CodeKind, KeyTypes, Status, Validity};
