//! What the tests and the tests of memory both use: values of texts, a provider that refuses, readers and writers that fail.
#![tactic(auto)]

pub mod fakes;
pub mod known;
pub mod names;
pub mod refusing;
pub mod values;
