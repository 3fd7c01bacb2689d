//! Names of whole locale identifiers, with what their extensions say.
#![tactic(auto)]

mod draft;
pub mod laws;
mod name;
mod pairs;
mod qualifiers;
mod rows;
mod whole;

pub use name::LocaleDisplayName;
pub use whole::says_more;
