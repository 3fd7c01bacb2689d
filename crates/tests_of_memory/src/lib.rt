//! Calls under refused memory: what they answer, and what they leave.
//!
//! Each of these tests takes all memory first. They are run by the gate alone: under `rt try --test` nearly all of them
//! fail, since what that builds, to check as it runs, never runs out of memory.
#![tactic(auto)]

#[cfg(test)]
mod budget;
#[cfg(test)]
mod canonicalizers;
#[cfg(test)]
mod chains;
#[cfg(test)]
mod full_names;
#[cfg(test)]
mod identifiers;
#[cfg(test)]
mod keys;
#[cfg(test)]
mod locales;
#[cfg(test)]
mod names;
#[cfg(test)]
mod runs;
#[cfg(test)]
mod serving;
#[cfg(test)]
mod tables;
#[cfg(test)]
mod validity;
#[cfg(test)]
mod values;
