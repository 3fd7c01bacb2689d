//! The nearest available locale.
ghost use Rattle.std.specs.Prelude.{◌≡◌};
ghost use Rattle.std.specs.Option.{option_map};
ghost use Rattle.std.specs.Coded.{codes};
ghost use Rattle.icu_locale_core.specs.TextSet.{text_set_code};
ghost use Rattle.icu_locale.specs.LikelyTable.{likely};
ghost use Rattle.icu_locale_matching.specs.Nearest.{identifiers_of, Matching, question, all_may, may_of, match_of, IsNearest};
ghost use Rattle.icu_locale_matching.specs.Made.{IsMadeOver};
ghost use Rattle.icu_locale_matching.specs.inner.Asked.{may_shown};

use crate::candidates::Candidates;
use crate::limits::MatchLimits;
use crate::rank::Rank;
use crate::search::Search;
use icu_locale::LocaleExpander;
use icu_locale_core::LanguageIdentifier;
use icu_provider::LanguageMatching;
use std::marker::Model;

/// What is served.
#[derive(Clone, Copy, Debug, PartialEq, Eq)]
pub struct Match {
    /// The place of the request.
    pub request: usize,
    /// The place of the available identifier.
    pub available: usize,
    /// The distance of their maximal forms, by what is favored, and a demotion for each request before, 65,535 at most.
    pub cost: u32,
}

/// Finds the nearest available identifier, over tables and a list that it borrows. Contracts see the expander, the
/// match rules, the limits and the available identifiers.
#[derive(Debug, Drop)]
pub struct LocaleMatcher<'r> {
    expander: LocaleExpander<'r>,
    matching: &'r LanguageMatching,
    limits: MatchLimits,
    candidates: &'r Candidates,
}

impl<'r> Model for LocaleMatcher<'r> {
    ghost Value = { Matching };

    ghost coded = { Prim.hlevel (codes, text_set_code) };

    ghost view = { λ m. record {
      expander = m.expander;
      matching = m.matching.now;
      limits = m.limits;
      available = identifiers_of m.candidates.now;
    } };

    ghost invariant = { λ m. IsMadeOver (likely m.expander) m.matching.now m.candidates.now };
}

impl<'r> LocaleMatcher<'r> {
    /// Over an expander, match rules, limits, and a list that was made over the same likely table and match rules. It
    /// takes no memory.
    pub fn over(
        expander: LocaleExpander<'r>,
        matching: &'r LanguageMatching,
        limits: MatchLimits,
        candidates: &'r Candidates,
    ) -> Self
        requires { IsMadeOver (likely expander) matching.now candidates.now }
        ensures expander { result.expander ≡ expander.entry }
        ensures matching { result.matching ≡ matching.now }
        ensures limits { result.limits ≡ limits }
        ensures available { result.available ≡ identifiers_of candidates.now }
    {
        LocaleMatcher {
            expander,
            matching,
            limits,
            candidates,
        }
    }

    /// The available identifiers, as they were handed in. It takes no memory.
    pub fn available(&self) -> &'r [LanguageIdentifier]
        ensures { result.now ≡ self.now.available }
    {
        self.candidates.identifiers()
    }

    /// The nearest available identifier for requests in their order of preference: the one with the least rank among
    /// those whose distance is below the threshold. None where there is none. It takes no memory.
    pub fn nearest(&self, requests: &[LanguageIdentifier]) -> Option<Match>
        ensures { IsNearest (question self.now requests.now all_may) result }
    {
        self.nearest_by(requests, None)
    }

    /// As `nearest`, among the available identifiers at whose place `may` has true. It takes no memory.
    pub fn nearest_among(&self, requests: &[LanguageIdentifier], may: &[bool]) -> Option<Match>
        ensures { IsNearest (question self.now requests.now (may_of may.now)) result }
    {
        self.nearest_by(requests, Some(may))
    }

    // Where the first request is there in its own spelling, or in its maximal form, no search is needed.
    #[tactic(auto, using(crate::proofs::Serving::own_spelling_is_nearest, crate::proofs::Serving::own_form_is_nearest))]
    fn nearest_by(&self, requests: &[LanguageIdentifier], may: Option<&[bool]>) -> Option<Match>
        ensures { IsNearest (question self.now requests.now (may_shown may.entry)) result }
    {
        let search = Search::over(
            self.expander,
            self.matching,
            self.limits,
            self.candidates,
            may,
        );
        if let Some(place) = search.spelled_first(requests) {
            return Some(Match {
                request: 0,
                available: place,
                cost: 0,
            });
        }
        if let Some(place) = search.formed_first(requests) {
            return Some(Match {
                request: 0,
                available: place,
                cost: 0,
            });
        }
        match_of(search.least(requests))
    }
}

// What a rank says to the caller.
fn match_of(rank: Option<Rank>) -> Option<Match>
    ensures { result ≡ option_map match_of rank }
{
    match rank {
        Some(rank) => Some(Match {
            request: rank.request,
            available: rank.available,
            cost: rank.cost,
        }),
        None => None,
    }
}
