//! Whole canonical forms of locale identifiers: values of keywords and of fields are replaced too.
#![tactic(auto)]

mod canonicalizer;
mod error;
mod kinds;
pub mod laws;
mod puts;
mod tables;
mod walk;

pub use canonicalizer::WholeCanonicalizer;
pub use error::WholeError;
pub use tables::ValueAliases;
