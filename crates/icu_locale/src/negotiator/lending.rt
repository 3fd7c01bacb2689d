//! Negotiation over a list that is lent: all the work.
ghost use Rattle.std.specs.Prelude.{◌≡◌};
ghost use Rattle.std.specs.Coded.{codes};
ghost use Rattle.icu_locale_core.specs.TextSet.{text_set_code};
ghost use Rattle.icu_locale.specs.LikelyTable.{likely};
ghost use Rattle.icu_locale.specs.Negotiation.{identifiers_of, IsMadeOver, Negotiation, IsNegotiated};
ghost use Rattle.icu_locale.specs.inner.Index.{IsFirstPlace};

use super::available::Available;
use super::{first_row, plain_form, rows_with};
use crate::{LocaleExpander, laws};
use icu_locale_core::LanguageIdentifier;
use std::marker::Model;

/// A negotiator that is lent: an expander, and a list that was made over the same likely table, whoever owns it.
/// `Negotiator::lend` gives one, and a program that keeps the list beside its tables makes one at each call, by
/// `NegotiatorRef::over`. That takes no memory and moves nothing. Contracts see what they see of a `Negotiator`.
#[derive(Debug, Drop)]
pub struct NegotiatorRef<'r> {
    expander: LocaleExpander<'r>,
    available: &'r Available,
}

impl<'r> Model for NegotiatorRef<'r> {
    ghost Value = { Negotiation };

    ghost coded = { Prim.hlevel (codes, text_set_code) };

    ghost view = { λ n. record {
      expander = n.expander;
      available = identifiers_of n.available.now;
    } };

    ghost invariant = { λ n. IsMadeOver (likely n.expander) n.available.now };
}

impl<'r> NegotiatorRef<'r> {
    /// Over an expander and a list that was made over the same likely table. It takes no memory.
    pub fn over(expander: LocaleExpander<'r>, list: &'r Available) -> Self
        requires { IsMadeOver (likely expander) list.now }
        ensures expander { result.expander ≡ expander.entry }
        ensures available { result.available ≡ identifiers_of list.now }
    {
        NegotiatorRef {
            expander,
            available: list,
        }
    }

    /// The available identifiers, as they were handed in. It takes no memory.
    pub fn available(&self) -> &'r [LanguageIdentifier]
        ensures { result.now ≡ self.now.available }
    {
        self.available.identifiers()
    }

    /// The first request that an available identifier has the maximal form of, and the first such identifier: their
    /// places. None where there is none. It takes no memory.
    #[inline(always)]
    pub fn negotiate(&self, requests: &[LanguageIdentifier]) -> Option<(usize, usize)>
        ensures { IsNegotiated (likely self.now.expander) requests.now self.now.available result }
    {
        for (asked, request) in requests.iter().enumerate() {
            if let Some(place) = self.find(request) {
                return Some((asked, place));
            }
        }
        None
    }

    // The place of the first available identifier with the maximal form of a request.
    fn find(&self, request: &LanguageIdentifier) -> Option<usize>
        ensures { IsFirstPlace (likely self.now.expander) self.now.available request.now result }
    {
        // laws for the proof: no code runs
        laws::minimal_forms_are_canonical();
        laws::maximal_forms_by_parts();
        let minimal = plain_form(&self.expander, request);
        let part = rows_with(&self.available.rows, &minimal);
        first_row(part, &self.available.identifiers, &request.variants)
    }
}
