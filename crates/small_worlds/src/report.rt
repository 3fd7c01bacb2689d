//! What the comparison finds.
use crate::plain::Plain;
use std::alloc::{AllocError, Global};

// How many differences are shown.
const SHOWN: usize = 20;

/// What differs, and which kinds of answers were met.
#[derive(Drop)]
pub struct Report {
    text: String,
    // Whether memory was refused for the text.
    is_cut: bool,
    differences: usize,
    /// The world in hand.
    pub world: usize,
    /// The kinds of answers so far.
    pub met: Met,
}

/// The kinds of answers that were met. A comparison that meets only one kind shows little.
#[derive(Clone, Copy)]
pub struct Met {
    pub settled: bool,
    pub unsettled: bool,
    pub ends: bool,
    pub repeats: bool,
    pub values_repeat: bool,
    pub negotiated: bool,
    pub chain_ends: bool,
    pub chain_repeats: bool,
    pub whole: bool,
    pub field_repeats: bool,
    pub keyword_repeats: bool,
    pub served: bool,
    pub not_served: bool,
}

/// How a canonicalization or a chain is answered.
#[derive(Clone, Copy)]
pub enum Kind {
    Ends,
    Repeats,
    ValuesRepeat,
    ChainEnds,
    ChainRepeats,
    Whole,
    FieldRepeats,
    KeywordRepeats,
    Served,
    NotServed,
}

impl Report {
    /// Nothing yet.
    pub fn new(alloc: Global) -> Report {
        Report {
            text: String::new(alloc),
            is_cut: false,
            differences: 0,
            world: 0,
            met: Met {
                settled: false,
                unsettled: false,
                ends: false,
                repeats: false,
                values_repeat: false,
                negotiated: false,
                chain_ends: false,
                chain_repeats: false,
                whole: false,
                field_repeats: false,
                keyword_repeats: false,
                served: false,
                not_served: false,
            },
        }
    }

    /// A canonicalization or a chain was answered so.
    pub fn meet(&mut self, kind: Kind) {
        match kind {
            Kind::Ends => self.met.ends = true,
            Kind::Repeats => self.met.repeats = true,
            Kind::ValuesRepeat => self.met.values_repeat = true,
            Kind::ChainEnds => self.met.chain_ends = true,
            Kind::ChainRepeats => self.met.chain_repeats = true,
            Kind::Whole => self.met.whole = true,
            Kind::FieldRepeats => self.met.field_repeats = true,
            Kind::KeywordRepeats => self.met.keyword_repeats = true,
            Kind::Served => self.met.served = true,
            Kind::NotServed => self.met.not_served = true,
        }
    }

    /// A call that has to answer as its slow body does.
    pub fn see(&mut self, agrees: bool, call: &str, at: &Plain) {
        if agrees {
            return;
        }
        self.differences = self.differences.saturating_add(1);
        if self.differences <= SHOWN {
            let world = self.world;
            let told = write!(self.text, "world {world}: {call} differs at {at:?}\n");
            self.is_cut |= told.is_err();
        }
    }

    /// The whole text, which ends with the number of worlds.
    pub fn end(mut self, count: usize) -> Result<String, AllocError> {
        if self.is_cut {
            return Err(AllocError);
        }
        if !self.met.is_all() {
            self.text.push_str("some kind of answer was not met\n")?;
        }
        let differences = self.differences;
        write!(self.text, "{count} worlds, {differences} differences\n")?;
        Ok(self.text)
    }
}

impl Met {
    // Whether each kind was met.
    fn is_all(self) -> bool {
        self.settled
            && self.unsettled
            && self.ends
            && self.repeats
            && self.values_repeat
            && self.negotiated
            && self.chain_ends
            && self.chain_repeats
            && self.whole
            && self.field_repeats
            && self.keyword_repeats
            && self.served
            && self.not_served
    }
}
