//! From the bytes of a header to the place of what is served.
ghost use Rattle.std.specs.Prelude.{◌≡◌, [], false, IfOk, IsOk};
ghost use Rattle.std.specs.Coded.{codes};
ghost use Rattle.std.specs.List.{position};
ghost use Rattle.std.specs.Option.{option_or};
ghost use Rattle.icu_locale_core.specs.TextSet.{text_set_code};
ghost use Rattle.icu_locale.specs.LikelyTable.{likely};
ghost use Rattle.icu_locale.specs.RuleSet.{lent};
ghost use Rattle.icu_locale_matching.specs.Header.{wishes_of};
ghost use Rattle.icu_locale_matching.specs.Nearest as nearest;
ghost use Rattle.icu_locale_matching.specs.Service.{Service, IsServed, IsServedFor, IsNearestTo, IsChoice, IsPreparedOver, identifiers_of, first_allowed, place_of, allowed};

use crate::candidates::Candidates;
use crate::filtering::allowed;
use crate::header::AcceptLanguage;
use crate::limits::MatchLimits;
use crate::matcher::{LocaleMatcher, Match};
use crate::requests::{are_canonical, asked_by, canonical_forms};
use icu_locale::CanonicalizerRef;
use icu_locale_core::LanguageIdentifier;
use icu_provider::LanguageMatching;
use std::alloc::{AllocError, Global};
use std::marker::Model;

/// What a `LocaleServer` serves: the available identifiers, and what a match asks of their canonical forms. It
/// borrows no table, so that a program can keep it beside its tables, and lends it with them at each call, by
/// `LocaleServer::over`. In contracts `IsPreparedOver` says over which tables it was made.
#[derive(Debug)]
pub struct ServedLocales {
    pub(crate) identifiers: Vec<LanguageIdentifier>,
    pub(crate) candidates: Candidates,
}

impl Drop for ServedLocales {
    fn drop(self) {
        let ServedLocales {
            identifiers: _,
            candidates: _,
        } = self;
    }
}

impl ServedLocales {
    /// Over rules, match rules and the identifiers that are available, which are brought to their canonical forms;
    /// one whose rules come to no end stays as it is. It takes memory for a copy of each, and what
    /// `Candidates::try_new` takes.
    ///
    /// # Errors
    ///
    /// `AllocError` where memory was refused. The identifiers are dropped then.
    pub fn try_new(
        alloc: Global,
        rules: &CanonicalizerRef<'_>,
        matching: &LanguageMatching,
        identifiers: Vec<LanguageIdentifier>,
    ) -> Result<Self, AllocError>
        ensures over { IfOk result
            (IsPreparedOver (likely rules.now.expander) (lent rules.now.rules) matching.now) }
        ensures available { IfOk result (λ s. identifiers_of s ≡ identifiers.items) }
    {
        let canonical = canonical_forms(alloc, rules, &identifiers)?;
        let candidates = Candidates::try_new(alloc, &rules.expander, matching, canonical)?;
        Ok(ServedLocales {
            identifiers,
            candidates,
        })
    }

    /// The available identifiers, as they were handed in. It takes no memory.
    pub fn identifiers(&self) -> &[LanguageIdentifier]
        ensures { result.now ≡ identifiers_of self.now }
    {
        &self.identifiers
    }
}

/// Serves the nearest available locale for the header Accept-Language, over tables and a list that it borrows.
/// Contracts see the rules, the match rules, the limits and the available identifiers.
#[derive(Debug, Drop)]
pub struct LocaleServer<'r> {
    rules: CanonicalizerRef<'r>,
    matching: &'r LanguageMatching,
    limits: MatchLimits,
    served: &'r ServedLocales,
}

impl<'r> Model for LocaleServer<'r> {
    ghost Value = { Service };

    ghost coded = { Prim.hlevel (codes, text_set_code) };

    ghost view = { λ s. record {
      expander = s.rules.expander;
      rules = lent s.rules.rules;
      matching = s.matching.now;
      limits = s.limits;
      available = identifiers_of s.served.now;
    } };

    ghost invariant = { λ s. IsPreparedOver (likely s.rules.expander) (lent s.rules.rules)
        s.matching.now s.served.now };
}

impl<'r> LocaleServer<'r> {
    /// Over rules, match rules, limits, and a list that was made over the same likely table, rules and match rules. It
    /// takes no memory.
    pub fn over(
        rules: CanonicalizerRef<'r>,
        matching: &'r LanguageMatching,
        limits: MatchLimits,
        served: &'r ServedLocales,
    ) -> Self
        requires { IsPreparedOver (likely rules.expander) (lent rules.rules) matching.now
            served.now }
        ensures expander { result.expander ≡ rules.entry.expander }
        ensures rules { result.rules ≡ lent rules.entry.rules }
        ensures matching { result.matching ≡ matching.now }
        ensures limits { result.limits ≡ limits }
        ensures available { result.available ≡ identifiers_of served.now }
    {
        LocaleServer {
            rules,
            matching,
            limits,
            served,
        }
    }

    /// The available identifiers, as they were handed in. It takes no memory.
    pub fn available(&self) -> &'r [LanguageIdentifier]
        ensures { result.now ≡ self.now.available }
    {
        self.served.identifiers()
    }

    /// The place of what is served for the header Accept-Language, in its bytes. Each range is read as a tag of BCP 47,
    /// brought to its canonical form, and asks for that without extensions; one whose rules come to no end asks as it
    /// is. What a refused range covers is taken out, and where `*` is refused, what no wanted range covers; one with
    /// extensions refuses nothing. Of the rest the nearest is served, else the first where `*` is wanted, else none. It
    /// takes memory for the wishes, for what they ask for, and, where a range is refused, for a mark an available
    /// identifier.
    ///
    /// # Errors
    ///
    /// `AllocError` where memory was refused: never for a header of which no element can be read.
    pub fn serve(&self, alloc: Global, header: &[u8]) -> Result<Option<usize>, AllocError>
        ensures served { IfOk result (IsServed self.now header.now) }
        ensures free { wishes_of header.now ≡ [] → IsOk result }
    {
        place_served(
            alloc,
            &self.rules,
            self.matching,
            self.limits,
            self.served,
            header,
        )
    }

    /// The nearest available locale for requests, and which request it serves, over canonical forms on both sides; a
    /// request whose rules come to no end asks as it is. Where a rule matches one, it takes memory for a copy of each
    /// request.
    ///
    /// # Errors
    ///
    /// `AllocError` where memory was refused.
    pub fn nearest(
        &self,
        alloc: Global,
        requests: &[LanguageIdentifier],
    ) -> Result<Option<Match>, AllocError>
        ensures { IfOk result (IsNearestTo self.now requests.now) }
    {
        nearest_to(
            alloc,
            &self.rules,
            self.matching,
            self.limits,
            self.served,
            requests,
        )
    }
}

// The nearest for requests over what is lent.
fn nearest_to(
    alloc: Global,
    rules: &CanonicalizerRef<'_>,
    matching: &LanguageMatching,
    limits: MatchLimits,
    served: &ServedLocales,
    requests: &[LanguageIdentifier],
) -> Result<Option<Match>, AllocError>
    requires { IsPreparedOver (likely rules.now.expander) (lent rules.now.rules) matching.now
        served.now }
    ensures { IfOk result (IsNearestTo (record {
      expander = rules.now.expander;
      rules = lent rules.now.rules;
      matching = matching.now;
      limits = limits;
      available = identifiers_of served.now;
    }) requests.now) }
{
    let matcher = LocaleMatcher::over(rules.expander, matching, limits, &served.candidates);
    if are_canonical(rules, requests) {
        return Ok(matcher.nearest(requests));
    }
    let asked = canonical_forms(alloc, rules, requests)?;
    Ok(matcher.nearest(&asked))
}

// The place that is served over what is lent.
fn place_served(
    alloc: Global,
    rules: &CanonicalizerRef<'_>,
    matching: &LanguageMatching,
    limits: MatchLimits,
    served: &ServedLocales,
    header: &[u8],
) -> Result<Option<usize>, AllocError>
    requires { IsPreparedOver (likely rules.now.expander) (lent rules.now.rules) matching.now
        served.now }
    ensures served { IfOk result (IsServed (record {
      expander = rules.now.expander;
      rules = lent rules.now.rules;
      matching = matching.now;
      limits = limits;
      available = identifiers_of served.now;
    }) header.now) }
    ensures free { wishes_of header.now ≡ [] → IsOk result }
{
    let header = AcceptLanguage::try_from_bytes(alloc, header)?;
    if header.is_empty() {
        return Ok(None);
    }
    place_for(alloc, rules, matching, limits, served, &header)
}

// The place that is served for wishes.
fn place_for(
    alloc: Global,
    rules: &CanonicalizerRef<'_>,
    matching: &LanguageMatching,
    limits: MatchLimits,
    served: &ServedLocales,
    header: &AcceptLanguage<'_>,
) -> Result<Option<usize>, AllocError>
    requires { IsPreparedOver (likely rules.now.expander) (lent rules.now.rules) matching.now
        served.now }
    ensures { IfOk result (IsServedFor (record {
      expander = rules.now.expander;
      rules = lent rules.now.rules;
      matching = matching.now;
      limits = limits;
      available = identifiers_of served.now;
    }) header.now) }
{
    let requests = asked_by(alloc, rules, header.wanted(), false)?;
    let out = asked_by(alloc, rules, header.refused(), true)?;
    let matcher = LocaleMatcher::over(rules.expander, matching, limits, &served.candidates);
    choice_without(
        alloc,
        &matcher,
        &requests,
        &out,
        header.refuses_any(),
        header.wants_any(),
    )
}

// The choice among what no refused range covers.
fn choice_without(
    alloc: Global,
    matcher: &LocaleMatcher<'_>,
    requests: &[LanguageIdentifier],
    out: &[LanguageIdentifier],
    named: bool,
    any: bool,
) -> Result<Option<usize>, AllocError>
    ensures { IfOk result (IsChoice matcher.now requests.now
        (allowed requests.now out.now named matcher.now.available) any) }
{
    if out.is_empty() && !named {
        return Ok(choice_of_all(matcher, requests, any));
    }
    let may = allowed(alloc, requests, out, named, matcher.available())?;
    Ok(choice(matcher, requests, &may, any))
}

// The choice where nothing is refused.
#[tactic(auto, using(crate::proofs::Choices::nearest_of_all))]
fn choice_of_all(
    matcher: &LocaleMatcher<'_>,
    requests: &[LanguageIdentifier],
    any: bool,
) -> Option<usize>
    ensures { IsChoice matcher.now requests.now
        (allowed requests.now [] false matcher.now.available) any result }
{
    match place_of(matcher.nearest(requests)) {
        Some(place) => Some(place),
        None => first_of(requests, any, matcher.available()),
    }
}

// The first identifier, where any is wanted.
fn first_of(
    requests: &[LanguageIdentifier],
    any: bool,
    identifiers: &[LanguageIdentifier],
) -> Option<usize>
    ensures { result ≡ first_allowed any (allowed requests.now [] false identifiers.now) }
{
    let _ = requests;
    if any && !identifiers.is_empty() {
        Some(0)
    } else {
        None
    }
}

// The nearest of what may be served, else the first of it where any is wanted.
fn choice(
    matcher: &LocaleMatcher<'_>,
    requests: &[LanguageIdentifier],
    may: &[bool],
    any: bool,
) -> Option<usize>
    ensures { IsChoice matcher.now requests.now may.now any result }
{
    match place_of(matcher.nearest_among(requests, may)) {
        Some(place) => Some(place),
        None => first_allowed(any, may),
    }
}

// The place of a match.
fn place_of(found: Option<Match>) -> Option<usize>
    ensures { result ≡ place_of found }
{
    match found {
        Some(found) => Some(found.available),
        None => None,
    }
}

// The first that may be served, where any is wanted.
fn first_allowed(any: bool, may: &[bool]) -> Option<usize>
    ensures { result ≡ first_allowed any may.now }
{
    if any { first_true(may) } else { None }
}

fn first_true(may: &[bool]) -> Option<usize>
    ensures { result ≡ position (λ b. b) may.now }
{
    may.iter().position(|b| *b)
}
