//! What is served, and the nearest.
use crate::budget::{Answered, Call, asks_nothing, least_budget, stands};
use icu_locale::{CanonicalizerRef, LocaleExpander, ReadRules};
use icu_locale_core::LanguageIdentifier;
use icu_locale_extensions::LocaleIdentifier;
use icu_locale_matching::{LocaleServer, MatchLimits, ServedLocales, bring_to_resolved};
use icu_provider::{DataProvider, LanguageMatching};
use icu_tables::Tables;
use std::alloc::Global;
use std::process::Abort;
use tests_shared::known::{identifier, identifiers, sample};

// Serving a header, of which a range is refused.
#[derive(Drop)]
struct Serve<'d>(LocaleServer<'d>);

impl Call for Serve<'_> {
    fn answer(&self, alloc: Global) -> Answered {
        let header = "de-1996;q=0.5, en-US;q=0, en-GB-scotland, *;q=0.1";
        match self.0.serve(alloc, header.as_bytes()) {
            Ok(Some(1)) => Answered::Whole,
            Err(_) => Answered::Refused,
            Ok(_) => Answered::Wrong,
        }
    }
}

// Making a list of what is available.
#[derive(Drop)]
struct Make<'d>(CanonicalizerRef<'d>, &'d LanguageMatching);

impl Call for Make<'_> {
    fn answer(&self, alloc: Global) -> Answered {
        let Some(available) = identifiers(alloc, &["en-US", "en-GB", "de-1996"]) else {
            return Answered::Refused;
        };
        match ServedLocales::try_new(alloc, &self.0, self.1, available) {
            Ok(served) => {
                if served.identifiers().len() == 3 {
                    Answered::Whole
                } else {
                    Answered::Wrong
                }
            }
            Err(_) => Answered::Refused,
        }
    }
}

// Identifiers of eight languages, each with a variant, so that no spelling and no form is noted.
const EIGHT: [&str; 8] = [
    "aa-fonipa",
    "ab-fonipa",
    "ae-fonipa",
    "af-fonipa",
    "ak-fonipa",
    "am-fonipa",
    "an-fonipa",
    "ar-fonipa",
];

// Making a list of so many of these.
#[derive(Drop)]
struct MakeOf<'d>(CanonicalizerRef<'d>, &'d LanguageMatching, usize);

impl Call for MakeOf<'_> {
    fn answer(&self, alloc: Global) -> Answered {
        let Some(mut available) = identifiers(alloc, &EIGHT) else {
            return Answered::Refused;
        };
        available.truncate(self.2);
        match ServedLocales::try_new(alloc, &self.0, self.1, available) {
            Ok(_) => Answered::Whole,
            Err(_) => Answered::Refused,
        }
    }
}

// Finding the nearest for requests with variants.
#[derive(Drop)]
struct Nearest<'d>(LocaleServer<'d>, &'d [LanguageIdentifier]);

impl Call for Nearest<'_> {
    fn answer(&self, alloc: Global) -> Answered {
        match self.0.nearest(alloc, self.1) {
            Ok(Some(found)) if found.available == 2 && found.request == 1 => Answered::Whole,
            Err(_) => Answered::Refused,
            Ok(_) => Answered::Wrong,
        }
    }
}

// Resolving what is served, which has a variant, for one who wants none.
#[derive(Drop)]
struct Resolve(LanguageIdentifier);

impl Call for Resolve {
    fn answer(&self, alloc: Global) -> Answered {
        let Some(wanted) = identifier(alloc, "sl") else {
            return Answered::Wrong;
        };
        let mut wanted = LocaleIdentifier::new(alloc, wanted);
        match bring_to_resolved(&self.0, &mut wanted) {
            Ok(()) if wanted.locale.id == self.0 => Answered::Whole,
            Err(_) if wanted.locale.id.variants.is_empty() => Answered::Refused,
            _ => Answered::Wrong,
        }
    }
}

// Groups of eight languages are noted, and those of fewer are not: the eighth takes more memory than the seventh did.
fn lists_are_made<'d>(
    rt: &impl Abort,
    alloc: Global,
    rules: CanonicalizerRef<'d>,
    matching: &'d LanguageMatching,
) {
    stands(rt, alloc, &Make(rules, matching));
    let six = least_budget(alloc, &MakeOf(rules, matching, 6)).expect(rt, "memory");
    let seven = least_budget(alloc, &MakeOf(rules, matching, 7)).expect(rt, "memory");
    let eight = least_budget(alloc, &MakeOf(rules, matching, 8)).expect(rt, "memory");
    let more = eight.saturating_sub(seven);
    assert!(rt; more >= seven.saturating_sub(six).saturating_add(128));
}

fn lists_over(rt: &impl Abort, alloc: Global, tables: &Tables) {
    let expander = LocaleExpander::try_new_common_unstable(tables).expect(rt, "tables");
    let aliases = tables.load_aliases().expect(rt, "aliases");
    let read = ReadRules::read(alloc, aliases).expect(rt, "tables");
    let rules = CanonicalizerRef::over(&read, aliases, expander);
    let matching = LanguageMatching::new(alloc, 80, 50, 4);
    lists_are_made(rt, alloc, rules, &matching);
}

// What is served of three locales, and the nearest to requests, which asks for memory or does not.
fn over_tables(rt: &impl Abort, alloc: Global, tables: &Tables, texts: &[&str], is_free: bool) {
    let expander = LocaleExpander::try_new_common_unstable(tables).expect(rt, "tables");
    let aliases = tables.load_aliases().expect(rt, "aliases");
    let read = ReadRules::read(alloc, aliases).expect(rt, "tables");
    let rules = CanonicalizerRef::over(&read, aliases, expander);
    let matching = LanguageMatching::new(alloc, 80, 50, 4);
    let available = identifiers(alloc, &["en-US", "en-GB", "de"]).expect(rt, "identifiers");
    let served = ServedLocales::try_new(alloc, &rules, &matching, available);
    let served = served.expect(rt, "memory");
    let server = LocaleServer::over(rules, &matching, MatchLimits::default(), &served);
    stands(rt, alloc, &Serve(server));
    let requests = identifiers(alloc, texts).expect(rt, "identifiers");
    let server = LocaleServer::over(rules, &matching, MatchLimits::default(), &served);
    let nearest = Nearest(server, &requests);
    if is_free {
        asks_nothing(rt, alloc, &nearest);
    } else {
        stands(rt, alloc, &nearest);
    }
}

#[test]
fn listed_without_memory(rt: HostRuntime) {
    let alloc = rt.alloc();
    let tables = sample(alloc).expect(&rt, "sample");
    lists_over(&rt, alloc, &tables);
}

#[test]
fn served_without_memory(rt: HostRuntime) {
    let alloc = rt.alloc();
    let tables = sample(alloc).expect(&rt, "sample");
    over_tables(&rt, alloc, &tables, &["fr-polytoni", "de-CH-1996"], false);
    over_tables(&rt, alloc, &tables, &["fr-1694acad", "de-CH-1996"], true);
}

#[test]
fn resolved_without_memory(rt: HostRuntime) {
    let alloc = rt.alloc();
    let served = identifier(alloc, "sl-nedis").expect(&rt, "identifier");
    stands(&rt, alloc, &Resolve(served));
}
