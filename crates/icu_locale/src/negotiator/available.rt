//! The identifiers that are available, and what finds one of them.
ghost use Rattle.std.specs.Prelude.{◌≡◌};
ghost use Rattle.icu_locale.specs.Negotiation.{identifiers_of};

use icu_locale_core::LanguageIdentifier;
use icu_provider::DataLocale;
use std::cmp::Ord;

// An available identifier: its minimal form, variants aside, and its place.
#[derive(Clone, Copy, Debug, PartialEq, Eq, PartialOrd, Ord)]
pub(super) struct Row {
    pub(super) minimal: DataLocale,
    pub(super) place: usize,
}

/// What a `Negotiator` owns: the available identifiers, and the sorted list of their minimal forms. It borrows no table.
///
/// A program that owns its tables cannot keep a negotiator beside them, since a negotiator borrows them. It keeps this
/// list, which `Negotiator::into_available` gives, and lends it with an expander at each call, by `NegotiatorRef::over`.
/// Neither takes memory. In contracts `IsMadeOver` says over which likely table it was made.
#[derive(Debug)]
pub struct Available {
    pub(super) identifiers: Vec<LanguageIdentifier>,
    pub(super) rows: Vec<Row>,
}

impl Drop for Available {
    fn drop(self) {
        let Available {
            identifiers: _,
            rows: _,
        } = self;
    }
}

impl Available {
    /// The available identifiers, as they were handed in. It takes no memory.
    pub fn identifiers(&self) -> &[LanguageIdentifier]
        ensures { result.now ≡ identifiers_of self.now }
    {
        &self.identifiers
    }
}
