//! Locale fallback: the chain of a locale, over tables that a caller hands in.
#![tactic(auto)]

mod errors;
mod fallbacker;
mod identifier_walk;
mod identifiers;
pub mod laws;
mod steps;
mod walk;

pub use errors::FallbackError;
pub use fallbacker::{
    LocaleFallbackConfig, LocaleFallbackIterator, LocaleFallbackPriority, LocaleFallbacker,
    LocaleFallbackerWithConfig,
};
pub use identifiers::IdentifierFallbackIterator;
