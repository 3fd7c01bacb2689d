//! What rows of calls and answers cannot say: refused memory, readers and writers that fail, providers that refuse,
//! borrowed walks, long texts and whole runs, of all crates. A crate that has tests is proved twice, so that they are
//! here and in no other.
//!
//! All pass under `rt try --test`. None takes all memory.
#![tactic(auto)]

#[cfg(test)]
mod case;
#[cfg(test)]
mod chains;
#[cfg(test)]
mod circles;
#[cfg(test)]
mod constructors;
#[cfg(test)]
mod faults;
#[cfg(test)]
mod flat;
#[cfg(test)]
mod full_names;
#[cfg(test)]
mod grammar;
#[cfg(test)]
mod keys;
#[cfg(test)]
mod languages;
#[cfg(test)]
mod maps;
#[cfg(test)]
mod parts;
#[cfg(test)]
mod places;
#[cfg(test)]
mod providers;
#[cfg(test)]
mod reports;
#[cfg(test)]
mod resolved;
#[cfg(test)]
mod serving;
#[cfg(test)]
mod shown;
#[cfg(test)]
mod sizes;
#[cfg(test)]
mod streams;
#[cfg(test)]
mod supplements;
#[cfg(test)]
mod tables;
#[cfg(test)]
mod texts;
#[cfg(test)]
mod validity;
#[cfg(test)]
mod values;
#[cfg(test)]
mod walks;
