//! The search for the nearest available locale.
ghost use Rattle.std.specs.Prelude.{◌≡◌, ◌+◌, ◌<◌, ◌^◌, ℕ, Some, IfSome, IsTrue, true, length, option_copied};
ghost use Rattle.std.specs.List.{All, filter, slice_get};
ghost use Rattle.icu_locale_core.specs.laws.Identifiers.{same_parts, same_texts};
ghost use Rattle.icu_locale.specs.LikelyTable.{likely};
ghost use Rattle.icu_locale_matching.specs.Nearest.{is_true, IsLeastOf, IsOffer, IsSpelledFirst, IsFormedFirst, demotion_at};
ghost use Rattle.icu_locale_matching.specs.inner.Made.{has_language};
ghost use Rattle.icu_locale_matching.specs.Made.{IsMadeOver};
ghost use Rattle.icu_locale_matching.specs.inner.Asked.{may_shown, asked_of, IsOfferBefore, IsOfferAt, Beats, BeatsEach, BeatsThere, Improves, IsRowOf, IsWithin, IsAsked, IsRankAt, is_settled, limit, lesser};
ghost use Rattle.icu_locale_matching.specs.Distance.{favored, levels_for, TellsApart};
ghost use Rattle.icu_locale_matching.specs.inner.Known.{serving_of};
ghost use Rattle.icu_locale_matching.specs.inner.Known.{AreServing};
ghost use Rattle.icu_provider.specs.declared.matching.LanguageMatching.{LanguageMatching as TheMatching};
ghost use Rattle.icu_provider.specs.declared.matching.MatchRule.{MatchRule};
ghost use Rattle.icu_locale_matching.specs.declared.rank.Rank.{Rank as TheRank};

use crate::candidates::{Candidate, Candidates, form_of};
use crate::distances::{LentLevels, levels_for};
use crate::limits::{FavorSubtag, MatchLimits, share};
use crate::macros::is_macro;
use crate::rank::Rank;
use crate::spellings::{is_unspelled, place_formed, place_spelled};
use icu_locale::LocaleExpander;
use icu_locale_core::LanguageIdentifier;
use icu_provider::{DataLocale, LanguageMatching};

// A group of less is compared whole.
const FEW: usize = 8;

// What a search goes over.
#[derive(Clone, Copy, Debug)]
pub(crate) struct Search<'r> {
    // What gives maximal forms.
    pub(crate) expander: LocaleExpander<'r>,
    // The match rules.
    pub(crate) matching: &'r LanguageMatching,
    // The limits.
    pub(crate) limits: MatchLimits,
    // What is available, made over the same tables.
    pub(crate) candidates: &'r Candidates,
    // Which places may be served; all, if none is there.
    pub(crate) may: Option<&'r [bool]>,
}

// A request, and what is the same for each available identifier.
#[derive(Clone, Copy)]
pub(crate) struct Asked<'q, 'd> {
    requests: &'q [LanguageIdentifier],
    place: usize,
    request: &'q LanguageIdentifier,
    form: DataLocale,
    is_macro: bool,
    levels: LentLevels<'d>,
    // Which of the first region rules have a desired pattern that fits.
    known: [bool; 8],
    // No distance of two regions is less.
    least: u16,
    demoted: u16,
}

impl<'r> Search<'r> {
    // Over what is lent.
    pub(crate) fn over(
        expander: LocaleExpander<'r>,
        matching: &'r LanguageMatching,
        limits: MatchLimits,
        candidates: &'r Candidates,
        may: Option<&'r [bool]>,
    ) -> Self
        ensures { result ≡ record {
          expander = expander.entry;
          matching = matching.entry;
          limits = limits;
          candidates = candidates.entry;
          may = may.entry;
        } }
    {
        Search {
            expander,
            matching,
            limits,
            candidates,
            may,
        }
    }

    // The place of the first request in its own spelling, where that is known and may be served.
    pub(crate) fn spelled_first(&self, requests: &[LanguageIdentifier]) -> Option<usize>
        requires { IsMadeOver (likely self.now.expander) self.now.matching.now
            self.now.candidates.now }
        ensures room { IfSome result (λ j. 0 < self.now.limits.threshold) }
        ensures first { IfSome result (IsSpelledFirst (asked_of self.now requests.now)) }
    {
        if self.limits.threshold == 0 {
            return None;
        }
        let [request, ..] = requests else {
            return None;
        };
        match place_spelled(&self.candidates.spelled, request) {
            Some(place) => self.served_at(place),
            None => None,
        }
    }

    // The place of the first request in its maximal form, where it is not known in its own spelling, and that is known and
    // may be served.
    pub(crate) fn formed_first(&self, requests: &[LanguageIdentifier]) -> Option<usize>
        requires { IsMadeOver (likely self.now.expander) self.now.matching.now
            self.now.candidates.now }
        ensures room { IfSome result (λ j. 0 < self.now.limits.threshold) }
        ensures tells { IfSome result (λ j. TellsApart (asked_of self.now requests.now).matching) }
        ensures first { IfSome result (IsFormedFirst (asked_of self.now requests.now)) }
    {
        if self.limits.threshold == 0 {
            return None;
        }
        if !self.tells_apart() {
            return None;
        }
        let [request, ..] = requests else {
            return None;
        };
        // Few are compared as quickly.
        if self.candidates.of_language(&request.language).len() < FEW {
            return None;
        }
        if !is_unspelled(&self.candidates.spelled, request) {
            return None;
        }
        match place_formed(&self.candidates.formed, &form_of(&self.expander, request)) {
            Some(place) => self.served_at(place),
            None => None,
        }
    }

    // Whether only equal forms have the distance 0, by what is favored.
    fn tells_apart(&self) -> bool
        requires { IsMadeOver (likely self.now.expander) self.now.matching.now
            self.now.candidates.now }
        ensures { IsTrue result
            → TellsApart (favored self.now.limits.favor self.now.matching.now) }
    {
        match self.limits.favor {
            FavorSubtag::Language => self.candidates.tells_apart,
            FavorSubtag::Script => false,
        }
    }

    // A place, if it may be served.
    fn served_at(&self, place: usize) -> Option<usize>
        ensures { IfSome result (λ j. (j ≡ place) × (may_shown self.now.may place ≡ true)) }
    {
        if self.may_serve(place) {
            Some(place)
        } else {
            None
        }
    }

    // The least rank.
    pub(crate) fn least(&self, requests: &[LanguageIdentifier]) -> Option<Rank>
        requires { IsMadeOver (likely self.now.expander) self.now.matching.now
            self.now.candidates.now }
        ensures { IsLeastOf (IsOffer (asked_of self.now requests.now)) result }
    {
        let mut best = None;
        let mut demoted = 0;
        for place in 0..requests.len() {
            if is_settled(demoted, &best) {
                return best;
            }
            best = self.least_at(requests, place, demoted, best);
            demoted = demoted.saturating_add(self.limits.demotion);
        }
        best
    }

    // The least rank up to the request at a place, where that before it is known.
    fn least_at(
        &self,
        requests: &[LanguageIdentifier],
        place: usize,
        demoted: u16,
        best: Option<Rank>,
    ) -> Option<Rank>
        requires made { IsMadeOver (likely self.now.expander) self.now.matching.now
            self.now.candidates.now }
        requires in_range { place < length requests.now }
        requires demoted { demoted ≡ demotion_at self.now.limits.demotion place }
        requires best { IsLeastOf (IsOfferBefore (asked_of self.now requests.now) place) best }
        ensures { IsLeastOf (IsOfferBefore (asked_of self.now requests.now) (place + 1)) result }
    {
        let request = &requests[place];
        let form = form_of(&self.expander, request);
        let is_macro = is_macro(&self.matching.macros, &form.region);
        let levels = levels_for(self.matching, &form.language);
        let known = levels.region.known(&form);
        let least = levels.region.least();
        let asked = Asked {
            requests,
            place,
            request,
            form,
            is_macro,
            levels,
            known,
            least,
            demoted,
        };
        self.best_for(&asked, best)
    }

    // The best for a request: of near languages, and of the others where these can be better.
    fn best_for(&self, asked: &Asked<'_, '_>, best: Option<Rank>) -> Option<Rank>
        requires made { IsMadeOver (likely self.now.expander) self.now.matching.now
            self.now.candidates.now }
        requires asked { IsAsked self.now asked.now }
        requires best { IsWithin self.now.limits.threshold best }
        ensures improves { Improves (asked_of self.now asked.now.requests.now) asked.now.place
            best result }
        ensures beats { (s : TheRank)
            → IsOfferAt (asked_of self.now asked.now.requests.now) asked.now.place s
            → Beats result s }
    {
        let near = self.best_near(asked, best);
        let others = share(self.limits.favor, u32::from(self.matching.other_language));
        if others < self.limit(asked.demoted, &near) {
            self.best_among(asked, &self.candidates.forms, near)
        } else {
            near
        }
    }

    // The best of the language of a request, and of those that its rules name.
    fn best_near(&self, asked: &Asked<'_, '_>, best: Option<Rank>) -> Option<Rank>
        requires made { IsMadeOver (likely self.now.expander) self.now.matching.now
            self.now.candidates.now }
        requires asked { IsAsked self.now asked.now }
        requires best { IsWithin self.now.limits.threshold best }
        ensures improves { Improves (asked_of self.now asked.now.requests.now) asked.now.place
            best result }
        ensures within { IsWithin self.now.limits.threshold result }
        ensures own { BeatsEach (asked_of self.now asked.now.requests.now) asked.now.place
            (filter (has_language asked.now.form.language) self.now.candidates.now.forms.items)
            result }
        ensures named { (k : ℕ) (r : MatchRule)
            → slice_get asked.now.levels.language.rules.now k ≡ Some r
            → BeatsEach (asked_of self.now asked.now.requests.now) asked.now.place
            (filter (has_language r.language) self.now.candidates.now.forms.items) result }
    {
        let mut near = self.best_own(asked, best);
        for rule in asked.levels.language.rules {
            let named = self.candidates.of_language(&rule.language);
            near = self.best_among(asked, named, near);
        }
        near
    }

    // The best of the language of a request.
    fn best_own(&self, asked: &Asked<'_, '_>, best: Option<Rank>) -> Option<Rank>
        requires made { IsMadeOver (likely self.now.expander) self.now.matching.now
            self.now.candidates.now }
        requires asked { IsAsked self.now asked.now }
        requires best { IsWithin self.now.limits.threshold best }
        ensures improves { Improves (asked_of self.now asked.now.requests.now) asked.now.place
            best result }
        ensures own { BeatsEach (asked_of self.now asked.now.requests.now) asked.now.place
            (filter (has_language asked.now.form.language) self.now.candidates.now.forms.items)
            result }
    {
        let own = self.candidates.of_language(&asked.form.language);
        if self.may.is_some() {
            return self.best_among(asked, own, best);
        }
        let near = self.best_in_region(asked, own, best);
        self.best_among(
            asked,
            self.candidates.leaders_of(&asked.form.language),
            near,
        )
    }

    // The best of those of some candidates that have the region of a request, or the best so far.
    fn best_in_region(
        &self,
        asked: &Asked<'_, '_>,
        part: &[Candidate],
        mut best: Option<Rank>,
    ) -> Option<Rank>
        requires asked { IsAsked self.now asked.now }
        requires part { All (IsRowOf (likely self.now.expander) self.now.matching.now
            self.now.candidates.now.identifiers.items) part.now }
        requires best { IsWithin self.now.limits.threshold best }
        ensures improves { Improves (asked_of self.now asked.now.requests.now) asked.now.place
            best result }
        ensures within { IsWithin self.now.limits.threshold result }
        ensures beats { BeatsThere (asked_of self.now asked.now.requests.now) asked.now.place
            asked.now.form.region part.now (length part.now) result }
    {
        for candidate in part {
            best = self.better_in_region(asked, candidate, best);
        }
        best
    }

    // The better of the best so far and a candidate, if that has the region of a request.
    #[inline(always)]
    fn better_in_region(
        &self,
        asked: &Asked<'_, '_>,
        candidate: &Candidate,
        best: Option<Rank>,
    ) -> Option<Rank>
        requires asked { IsAsked self.now asked.now }
        requires row { IsRowOf (likely self.now.expander) self.now.matching.now
            self.now.candidates.now.identifiers.items candidate.now }
        requires best { IsWithin self.now.limits.threshold best }
        ensures improves { Improves (asked_of self.now asked.now.requests.now) asked.now.place
            best result }
        ensures beats { (s : TheRank) → candidate.now.form.region ≡ asked.now.form.region
            → IsOfferAt (asked_of self.now asked.now.requests.now) asked.now.place s
            → s.available ≡ candidate.now.place → Beats result s }
    {
        if candidate.form.region == asked.form.region {
            self.better(asked, candidate, best)
        } else {
            best
        }
    }

    // The best of some candidates, or the best so far.
    fn best_among(
        &self,
        asked: &Asked<'_, '_>,
        part: &[Candidate],
        mut best: Option<Rank>,
    ) -> Option<Rank>
        requires asked { IsAsked self.now asked.now }
        requires part { All (IsRowOf (likely self.now.expander) self.now.matching.now
            self.now.candidates.now.identifiers.items) part.now }
        requires best { IsWithin self.now.limits.threshold best }
        ensures improves { Improves (asked_of self.now asked.now.requests.now) asked.now.place
            best result }
        ensures within { IsWithin self.now.limits.threshold result }
        ensures beats { BeatsEach (asked_of self.now asked.now.requests.now) asked.now.place
            part.now result }
    {
        for candidate in part {
            best = self.better(asked, candidate, best);
        }
        best
    }

    // The better of the best so far and a candidate.
    #[inline(always)]
    fn better(
        &self,
        asked: &Asked<'_, '_>,
        candidate: &Candidate,
        best: Option<Rank>,
    ) -> Option<Rank>
        requires asked { IsAsked self.now asked.now }
        requires row { IsRowOf (likely self.now.expander) self.now.matching.now
            self.now.candidates.now.identifiers.items candidate.now }
        requires best { IsWithin self.now.limits.threshold best }
        ensures improves { Improves (asked_of self.now asked.now.requests.now) asked.now.place
            best result }
        ensures beats { (s : TheRank)
            → IsOfferAt (asked_of self.now asked.now.requests.now) asked.now.place s
            → s.available ≡ candidate.now.place → Beats result s }
    {
        if !self.may_serve(candidate.place) {
            return best;
        }
        let limit = self.limit(asked.demoted, &best);
        let any_macro = asked.is_macro || candidate.is_macro;
        let serving = serving_for(&asked.form, candidate);
        match asked.levels.distance_below(
            self.limits.favor,
            any_macro,
            &asked.known,
            serving,
            asked.least,
            &asked.form,
            &candidate.form,
            limit,
        ) {
            Some(distance) => Some(lesser(best, self.rank(asked, candidate, distance))),
            None => best,
        }
    }

    // Whether a place may be served.
    fn may_serve(&self, place: usize) -> bool
        ensures { result ≡ may_shown self.now.may place }
    {
        match self.may {
            Some(may) => is_true(may.get(place)),
            None => true,
        }
    }

    // The rank of a request and a candidate at a distance.
    fn rank(&self, asked: &Asked<'_, '_>, candidate: &Candidate, distance: u32) -> Rank
        requires row { IsRowOf (likely self.now.expander) self.now.matching.now
            self.now.candidates.now.identifiers.items candidate.now }
        requires fits { distance + asked.now.demoted < 2 ^ 32 }
        ensures { IsRankAt self.now asked.now candidate.now distance result }
    {
        let identifier = &self.candidates.identifiers[candidate.place];
        Rank {
            cost: distance + u32::from(asked.demoted),
            request: asked.place,
            spelled_otherwise: !is_same(asked.request, identifier),
            varied: !has_same_variants(asked.request, identifier),
            unlikeliness: candidate.unlikeliness,
            off_paradigm: candidate.off_paradigm,
            available: candidate.place,
        }
    }

    // What the distance from a request has to be less than, if its rank is to be less than the best.
    fn limit(&self, demoted: u16, best: &Option<Rank>) -> u32
        requires { IsWithin self.now.limits.threshold best.now }
        ensures value { result ≡ limit self.now.limits.threshold demoted best.now }
        ensures small { result < 2 ^ 16 }
    {
        let threshold = u32::from(self.limits.threshold);
        match best {
            Some(rank) => (rank.cost + 1)
                .saturating_sub(u32::from(demoted))
                .min(threshold),
            None => threshold,
        }
    }
}

// Whether no later request can be better.
fn is_settled(demoted: u16, best: &Option<Rank>) -> bool
    ensures { result ≡ is_settled demoted best.now }
{
    match best {
        Some(rank) => rank.cost <= u32::from(demoted),
        None => false,
    }
}

// Which region rules of the language of a request are known to fit a candidate: those of its own language.
fn serving_for<'c>(form: &DataLocale, candidate: &'c Candidate) -> &'c [bool]
    ensures { (t : TheMatching)
        → candidate.now.serving ≡ serving_of
        (levels_for t candidate.now.form.language).region.rules candidate.now.form
        → AreServing (levels_for t form.now.language).region.rules candidate.now.form
        result.now }
{
    if candidate.form.language == form.language {
        &candidate.serving
    } else {
        &[]
    }
}

// Whether true is there.
fn is_true(given: Option<&bool>) -> bool
    ensures { result ≡ is_true (option_copied given.entry) }
{
    match given {
        Some(may) => *may,
        None => false,
    }
}

// The lesser of two ranks, of which the first may be missing.
fn lesser(best: Option<Rank>, rank: Rank) -> Rank
    ensures { result ≡ lesser best rank }
{
    match best {
        Some(best) => { if rank < best { rank } else { best } }
        None => rank,
    }
}

// Whether two identifiers have equal variants.
pub(crate) fn has_same_variants(one: &LanguageIdentifier, other: &LanguageIdentifier) -> bool
    ensures { result ≡ same_texts one.now.variants other.now.variants }
{
    one.variants == other.variants
}

// Whether two identifiers are equal.
fn is_same(one: &LanguageIdentifier, other: &LanguageIdentifier) -> bool
    ensures { result ≡ same_parts one.now other.now }
{
    *one == *other
}
