//! Chains and supplements.
use crate::budget::{Answered, Call, stands};
use icu_locale::LocaleExpander;
use icu_locale_core::LanguageIdentifier;
use icu_locale_fallback::{
    FallbackError, LocaleFallbackConfig, LocaleFallbackPriority, LocaleFallbacker,
    LocaleFallbackerWithConfig,
};
use icu_tables::{Supplement, TableError};
use std::alloc::Global;
use std::process::Abort;
use tests_shared::known::{identifier, sample};

const SUPPLEMENT: &str = "{\"parents\":{\"en-AU\":\"en-001\",\"en-001\":\"en\"},\
    \"matching\":{\"others\":[80,50,4],\"paradigms\":[\"en\"],\"rules\":{}},\
    \"cldr\":\"41\",\"validity\":{\"language\":{\"regular\":\"aa~c en\"},\
    \"keywords\":{\"ca\":{\"types\":{\"regular\":\"islamic-civil\"}}}}}";

// Reading a supplement.
#[derive(Drop)]
struct ReadSupplement;

impl Call for ReadSupplement {
    fn answer(&self, alloc: Global) -> Answered {
        match Supplement::from_json(alloc, SUPPLEMENT.as_bytes()) {
            Ok(held) if is_whole(&held) => Answered::Whole,
            Err(TableError::Memory) => Answered::Refused,
            _ => Answered::Wrong,
        }
    }
}

// Whether each member is there.
fn is_whole(held: &Supplement) -> bool {
    let Some(table) = &held.validity else {
        return false;
    };
    held.parents.len() == 2
        && held.matching.is_some()
        && held.cldr.is_some()
        && table.languages.len() == 4
        && table.keywords.len() == 1
}

// Listing the chain of an identifier, whose variants are copied.
#[derive(Drop)]
struct ListChain<'d>(
    LocaleFallbackerWithConfig<'d>,
    &'d LanguageIdentifier,
    usize,
);

impl Call for ListChain<'_> {
    fn answer(&self, alloc: Global) -> Answered {
        let Ok(id) = self.1.try_clone() else {
            return Answered::Refused;
        };
        match self.0.fallback_for_identifier(alloc, id).to_list(alloc) {
            Ok(list) if list.len() == self.2 => Answered::Whole,
            Err(FallbackError::Memory) => Answered::Refused,
            _ => Answered::Wrong,
        }
    }
}

// Writing the chain of an identifier after a text, which stays as it was where memory was refused.
#[derive(Drop)]
struct AppendChain<'d>(
    LocaleFallbackerWithConfig<'d>,
    &'d LanguageIdentifier,
    &'d str,
);

impl Call for AppendChain<'_> {
    fn answer(&self, alloc: Global) -> Answered {
        let Ok(id) = self.1.try_clone() else {
            return Answered::Refused;
        };
        let wanted = self.2;
        let mut text = Vec::new(alloc);
        match self.0.append_chain(alloc, id, &mut text) {
            Ok(()) if text.as_slice() == wanted.as_bytes() => Answered::Whole,
            Err(FallbackError::Memory) if text.is_empty() => Answered::Refused,
            _ => Answered::Wrong,
        }
    }
}

// What a chain keeps longest, an identifier, its chain, and how long that is.
const CHAINS: [(LocaleFallbackPriority, &str, &str, usize); 3] = [
    (
        LocaleFallbackPriority::Language,
        "en-AU-fonipa",
        "en-AU-fonipa en-AU en-001 en und",
        5,
    ),
    (
        LocaleFallbackPriority::Language,
        "en-AU-fonipa-posix",
        "en-AU-fonipa-posix en-AU en-001 en und",
        5,
    ),
    (
        LocaleFallbackPriority::Region,
        "en-AU-fonipa",
        "en-AU-fonipa en-AU und-AU und",
        4,
    ),
];

fn one_chain(
    rt: &impl Abort,
    alloc: Global,
    fallbacker: &LocaleFallbacker<'_>,
    row: (LocaleFallbackPriority, &str, &str, usize),
) {
    let (priority, text, wanted, count) = row;
    let chains = fallbacker.for_config(LocaleFallbackConfig { priority });
    let id = identifier(alloc, text).expect(rt, "identifier");
    stands(rt, alloc, &ListChain(chains, &id, count));
    stands(rt, alloc, &AppendChain(chains, &id, wanted));
}

#[test]
fn chains_and_supplements(rt: HostRuntime) {
    let alloc = rt.alloc();
    let tables = sample(alloc).expect(&rt, "sample");
    let supplement = Supplement::from_json(alloc, SUPPLEMENT.as_bytes()).expect(&rt, "memory");
    let fallbacker = LocaleFallbacker {
        expander: LocaleExpander::try_new_common_unstable(&tables).expect(&rt, "tables"),
        parents: &supplement.parents,
    };
    stands(&rt, alloc, &ReadSupplement);
    for row in CHAINS {
        one_chain(&rt, alloc, &fallbacker, row);
    }
}
