//! The parts of a locale identifier, each in a place of its own.
#![tactic(auto)]

mod extensions;
mod identifier;
pub mod laws;
mod pairs;

pub use extensions::append_parts;
pub use identifier::append_identifier_parts;
