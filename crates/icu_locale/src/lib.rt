//! Maximal, minimal and canonical forms of locale identifiers, over tables that a caller hands in.
#![tactic(auto)]

mod as_expander;
mod canonicalizer;
mod directionality;
pub mod exemplar_chars;
mod expander;
pub mod laws;
mod negotiator;
mod settled;

pub use as_expander::AsExpander;
pub use canonicalizer::lending::CanonicalizerRef;
pub use canonicalizer::rules::{ReadRules, Rule, Rules, RulesRef};
pub use canonicalizer::{CanonicalizeError, LocaleCanonicalizer};
pub use directionality::{Direction, LocaleDirectionality};
pub use expander::{LocaleExpander, TransformResult};
pub use icu_locale_runs::Turns;
pub use negotiator::available::Available;
pub use negotiator::lending::NegotiatorRef;
pub use negotiator::{Negotiator, NegotiatorError};
