//! One key for a locale, in a store: the minimal form of its canonical form, and the key that stays.
#![tactic(auto)]

mod at_once;
mod filling;
mod keys;
pub mod laws;
mod stable;
mod whole;

pub use keys::{bring_to_key, bring_to_key_favor_script, is_own_key, keys_are_stable};
pub use stable::{bring_to_stable_key, bring_to_stable_key_counted};
pub use whole::{bring_identifier_to_key, bring_whole_to_key};
