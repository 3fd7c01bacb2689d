//! What is served for headers, over the sample tables and match rules that are made here.
use icu_locale::{CanonicalizerRef, LocaleExpander, ReadRules};
use icu_locale_core::{LanguageIdentifier, Region};
use icu_locale_matching::{
    Candidates, FavorSubtag, LocaleMatcher, LocaleServer, Match, MatchLimits, ServedLocales,
    distance,
};
use icu_provider::{
    DataLocale, DataProvider, LanguageMatching, MatchPattern, MatchRule, MatchRules, RegionPattern,
    SortedMap,
};
use icu_tables::Tables;
use std::alloc::Global;
use std::process::Abort;
use tests_shared::known::{identifiers, language, region, sample, script};

fn serves(
    rt: &impl Abort,
    alloc: Global,
    server: &LocaleServer<'_>,
    header: &str,
    wanted: Option<usize>,
) {
    let served = server.serve(alloc, header.as_bytes()).ok();
    assert!(rt; served == Some(wanted));
}

fn serves_headers(rt: &impl Abort, alloc: Global, server: &LocaleServer<'_>) {
    serves(rt, alloc, server, "", None);
    serves(rt, alloc, server, "fr", None);
    serves(rt, alloc, server, "fr, *;q=0.1", Some(0));
    serves(rt, alloc, server, "de-DE;q=0.8, zh-Hant", Some(3));
    serves(rt, alloc, server, "en-AU, en-US;q=0", Some(1));
    serves(rt, alloc, server, "en;q=0, *", Some(2));
    serves(rt, alloc, server, "de, de;q=0", None);
    serves(
        rt,
        alloc,
        server,
        "da-DK,da,fi-FI,fi,et-EE,et,lv-LV,lv,lt-LT,lt,de-DE,de",
        Some(2),
    );
    serves(
        rt,
        alloc,
        server,
        "en-GB;q=2, ?, zh-TW-u-co-stroke;Q=0.5",
        Some(3),
    );
}

fn over_tables(rt: &impl Abort, alloc: Global, tables: &Tables) {
    let expander = LocaleExpander::try_new_common_unstable(tables).expect(rt, "tables");
    let aliases = tables.load_aliases().expect(rt, "aliases");
    let read = ReadRules::read(alloc, aliases).expect(rt, "tables");
    let rules = CanonicalizerRef::over(&read, aliases, expander);
    let matching = LanguageMatching::new(alloc, 80, 50, 4);
    let available = identifiers(alloc, &["en-US", "en-GB", "de", "zh-TW", "yue"]).expect(
        rt,
        "identifiers",
    );
    let served = ServedLocales::try_new(alloc, &rules, &matching, available);
    let served = served.expect(rt, "memory");
    let server = LocaleServer::over(rules, &matching, MatchLimits::default(), &served);
    serves_headers(rt, alloc, &server);
}

#[test]
fn headers(rt: HostRuntime) {
    let alloc = rt.alloc();
    let tables = sample(alloc).expect(&rt, "sample");
    over_tables(&rt, alloc, &tables);
}

// A region rule of `de`: 7 to `FR`.
fn rules_of_german(rt: &impl Abort, alloc: Global) -> MatchRules {
    let mut france = SortedMap::new(alloc);
    let put = france.insert(region("FR").expect(rt, "region"), ());
    put.expect(rt, "memory");
    let any = MatchPattern {
        script: None,
        region: RegionPattern::Any,
    };
    let there = MatchPattern {
        script: None,
        region: RegionPattern::In(france),
    };
    let mut rules = MatchRules::new(alloc);
    let pushed = rules.region.push(MatchRule {
        desired: any,
        language: language("de").expect(rt, "language"),
        supported: there,
        distance: 7,
    });
    pushed.expect(rt, "memory");
    rules
}

fn german(rt: &impl Abort, place: &str) -> DataLocale {
    DataLocale {
        language: language("de").expect(rt, "language"),
        script: Some(script("Latn").expect(rt, "script")),
        region: Some(region(place).expect(rt, "region")),
    }
}

fn two_regions(rt: &impl Abort, alloc: Global) -> Vec<Region> {
    let mut list = Vec::new(alloc);
    let first = list.push(region("DE").expect(rt, "region"));
    first.expect(rt, "memory");
    let second = list.push(region("FR").expect(rt, "region"));
    second.expect(rt, "memory");
    list
}

#[test]
fn macro_regions(rt: HostRuntime) {
    let alloc = rt.alloc();
    let mut matching = LanguageMatching::new(alloc, 80, 50, 4);
    let put = matching.rules.insert(
        language("de").expect(&rt, "language"),
        rules_of_german(&rt, alloc),
    );
    put.expect(&rt, "memory");
    let held = matching.macros.insert(region("150").expect(&rt, "region"), two_regions(&rt, alloc));
    held.expect(&rt, "memory");
    let de = german(&rt, "DE");
    let at = german(&rt, "AT");
    let europe = german(&rt, "150");
    assert!(rt; distance(&matching, &de, &at) == 4);
    assert!(rt; distance(&matching, &de, &europe) == 7);
    assert!(rt; distance(&matching, &europe, &at) == 4);
    assert!(rt; distance(&matching, &europe, &europe) == 0);
}

// What is available, what is wanted, and which is served where languages are favored and where scripts are: as ICU4C 72
// answers over CLDR's rules, of which none is for these pairs.
const FAVORS: [(&[&str], &str, Option<usize>, Option<usize>); 7] = [
    (&["tr-Latn-TR", "ru-Cyrl-RU"], "tr-Cyrl-TR", None, Some(1)),
    (&["de-Latn-DE", "ru-Cyrl-RU"], "fr-Latn-FR", None, Some(0)),
    (
        &["el-Grek-GR", "ru-Cyrl-RU", "de-Latn-DE"],
        "el-Latn-GR",
        None,
        Some(2),
    ),
    (
        &["ru-Cyrl-RU", "tr-Latn-TR"],
        "tr-Latn-DE",
        Some(1),
        Some(1),
    ),
    (&["ja-Jpan-JP", "ru-Cyrl-RU"], "fr-Latn-FR", None, None),
    (&["it-Latn-CH", "fr-Cyrl-CH"], "fr-Latn-CH", None, Some(0)),
    (
        &["fr-Latn-CA", "it-Latn-CH", "fr-Cyrl-CH"],
        "fr-Latn-CH",
        Some(0),
        Some(0),
    ),
];

fn favoring(favor: FavorSubtag) -> MatchLimits {
    MatchLimits {
        favor,
        ..MatchLimits::default()
    }
}

fn place(found: Option<Match>) -> Option<usize> {
    Some(found?.available)
}

#[test]
fn favors(rt: HostRuntime) {
    let alloc = rt.alloc();
    let tables = sample(alloc).expect(&rt, "sample");
    let expander = LocaleExpander::try_new_common_unstable(&tables).expect(&rt, "tables");
    let matching = LanguageMatching::new(alloc, 80, 50, 4);
    for (available, wanted, by_language, by_script) in &FAVORS {
        let available = identifiers(alloc, available).expect(&rt, "identifiers");
        let wanted = identifiers(alloc, &[*wanted]).expect(&rt, "identifiers");
        let made = Candidates::try_new(alloc, &expander, &matching, available);
        let candidates = made.expect(&rt, "memory");
        let languages = favoring(FavorSubtag::Language);
        let matcher = LocaleMatcher::over(expander, &matching, languages, &candidates);
        assert!(&rt; place(matcher.nearest(&wanted)) == *by_language);
        let scripts = favoring(FavorSubtag::Script);
        let matcher = LocaleMatcher::over(expander, &matching, scripts, &candidates);
        assert!(&rt; place(matcher.nearest(&wanted)) == *by_script);
    }
}
