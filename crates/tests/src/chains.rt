//! Chains of fallback.
use crate::faults::is_named;
use icu_locale::{LocaleExpander, Turns};
use icu_locale_core::LanguageIdentifier;
use icu_locale_fallback::{
    FallbackError, LocaleFallbackConfig, LocaleFallbackPriority, LocaleFallbacker,
};
use icu_provider::{DataLocale, SortedMap};
use icu_tables::Tables;
use std::alloc::Global;
use std::process::Abort;
use tests_shared::known::{identifier, language, sample, text};

// The letter at a place below 26.
fn letter(place: usize) -> u8 {
    match u8::try_from(place) {
        Ok(place) => b'a'.saturating_add(place),
        Err(_) => b'z',
    }
}

// The language of three letters at a place: `aaa`, `aab` and so on.
fn numbered(rt: &impl Abort, place: usize) -> DataLocale {
    let letters = [
        letter(place / 400),
        letter(place / 20 % 20),
        letter(place % 20),
    ];
    let text = str::from_utf8(&letters).expect(rt, "letters");
    DataLocale {
        language: language(text).expect(rt, "language"),
        script: None,
        region: None,
    }
}

// Parents from each place to the next, of so many languages.
fn long_parents(rt: &impl Abort, alloc: Global, count: usize) -> SortedMap<DataLocale, DataLocale> {
    let mut parents = SortedMap::new(alloc);
    for place in 0..count {
        let next = numbered(rt, place.saturating_add(1));
        let inserted = parents.insert(numbered(rt, place), next);
        inserted.expect(rt, "memory");
    }
    parents
}

const BY_LANGUAGE: LocaleFallbackConfig = LocaleFallbackConfig {
    priority: LocaleFallbackPriority::Language,
};

fn expander<'t>(rt: &impl Abort, tables: &'t Tables) -> LocaleExpander<'t> {
    LocaleExpander::try_new_common_unstable(tables).expect(rt, "tables")
}

// A chain of 4,000 parents is listed and written.
fn long_chain(
    rt: &impl Abort,
    alloc: Global,
    tables: &Tables,
    parents: &SortedMap<DataLocale, DataLocale>,
) {
    let fallbacker = LocaleFallbacker {
        expander: expander(rt, tables),
        parents,
    };
    let chains = fallbacker.for_config(BY_LANGUAGE);
    let chain = chains.fallback_for(numbered(rt, 0));
    let list = chain.to_list(alloc).expect(rt, "a chain");
    assert!(rt; list.len() == 4_002);
    assert!(rt; list.get(4_000) == Some(&numbered(rt, 4_000)));
    let mut text = Vec::new(alloc);
    let id = identifier(alloc, "aaa-fonipa").expect(rt, "identifier");
    assert!(rt; chains.append_chain(alloc, id, &mut text) == Ok(()));
    assert!(rt; text.len() == 16_018);
}

// A chain that leads back to its eighth language.
fn long_circle(
    rt: &impl Abort,
    alloc: Global,
    tables: &Tables,
    parents: &SortedMap<DataLocale, DataLocale>,
) {
    let fallbacker = LocaleFallbacker {
        expander: expander(rt, tables),
        parents,
    };
    let chain = fallbacker
        .for_config(BY_LANGUAGE)
        .fallback_for(numbered(rt, 0));
    let refused = chain.to_list(alloc).err();
    assert!(rt; refused == Some(FallbackError::Circle(numbered(rt, 7))));
    let first = chain.first_repeat_counted(&mut Turns::new());
    assert!(rt; first == Some(numbered(rt, 7)));
}

// The same of an identifier with a variant, whose chain is listed and written.
fn long_circle_of_an_identifier(
    rt: &impl Abort,
    alloc: Global,
    tables: &Tables,
    parents: &SortedMap<DataLocale, DataLocale>,
) {
    let fallbacker = LocaleFallbacker {
        expander: expander(rt, tables),
        parents,
    };
    let id = identifier(alloc, "aaa-fonipa").expect(rt, "identifier");
    let chain = fallbacker
        .for_config(BY_LANGUAGE)
        .fallback_for_identifier(alloc, id);
    let refused = chain.to_list(alloc).err();
    assert!(rt; refused == Some(FallbackError::Circle(numbered(rt, 7))));
    let mut text = Vec::new(alloc);
    let refused = chain.append_to(&mut text).err();
    assert!(rt; refused == Some(FallbackError::Circle(numbered(rt, 7))));
    assert!(rt; text.is_empty());
}

#[test]
fn chains_of_four_thousand(rt: HostRuntime) {
    let alloc = rt.alloc();
    let tables = sample(alloc).expect(&rt, "sample");
    let mut parents = long_parents(&rt, alloc, 4_000);
    long_chain(&rt, alloc, &tables, &parents);
    let inserted = parents.insert(numbered(&rt, 4_000), numbered(&rt, 7));
    inserted.expect(&rt, "memory");
    long_circle(&rt, alloc, &tables, &parents);
    long_circle_of_an_identifier(&rt, alloc, &tables, &parents);
}

#[test]
fn refusals_of_chains(rt: HostRuntime) {
    let alloc = rt.alloc();
    let locale = numbered(&rt, 0);
    is_named(&rt, alloc, FallbackError::Memory, "Memory");
    is_named(&rt, alloc, FallbackError::Circle(locale), "Circle");
}

#[test]
fn a_chain_step_by_step(rt: HostRuntime) {
    let alloc = rt.alloc();
    let tables = sample(alloc).expect(&rt, "sample");
    let parents = SortedMap::new(alloc);
    let expander = expander(&rt, &tables);
    let chains = LocaleFallbacker {
        expander,
        parents: &parents,
    }
    .for_config(BY_LANGUAGE);
    let id: LanguageIdentifier = identifier(alloc, "zh-TW-fonipa").expect(&rt, "identifier");
    let mut chain = chains.fallback_for_identifier(alloc, id);
    for wanted in [
        "zh-TW-fonipa",
        "zh-TW",
        "zh-Hant-TW",
        "zh-Hant",
        "und",
        "und",
    ] {
        assert_eq!(rt;
            text(alloc, chain.get()).expect(&rt, "text").as_str(),
            wanted
        );
        chain.step();
    }
}

// Chains of an identifier with two variants, by the language, the script and the region.
const LISTS: [(LocaleFallbackPriority, &str); 3] = [
    (
        LocaleFallbackPriority::Language,
        "en-US-fonipa-posix en-US en und ",
    ),
    (
        LocaleFallbackPriority::Script,
        "en-US-fonipa-posix en-US en und-Latn und ",
    ),
    (
        LocaleFallbackPriority::Region,
        "en-US-fonipa-posix en-US und-US und ",
    ),
];

#[test]
fn chains_by_each_priority(rt: HostRuntime) {
    let alloc = rt.alloc();
    let tables = sample(alloc).expect(&rt, "sample");
    let parents = SortedMap::new(alloc);
    for (priority, wanted) in LISTS {
        let fallbacker = LocaleFallbacker {
            expander: expander(&rt, &tables),
            parents: &parents,
        };
        let chains = fallbacker.for_config(LocaleFallbackConfig { priority });
        let id = identifier(alloc, "en-US-fonipa-posix").expect(&rt, "identifier");
        let chain = chains.fallback_for_identifier(alloc, id);
        assert!(rt; chain.first_repeat_counted(&mut Turns::new()).is_none());
        let list = chain.to_list(alloc).expect(&rt, "a chain");
        let mut text = String::new(alloc);
        for x in list.iter() {
            write!(text, "{x} ").expect(&rt, "memory");
        }
        assert_eq!(rt; text.as_str(), wanted);
    }
}
