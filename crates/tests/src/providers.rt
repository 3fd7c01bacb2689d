//! Providers that refuse a load.
use icu_locale::exemplar_chars::ExemplarCharacters;
use icu_locale::{LocaleCanonicalizer, LocaleDirectionality, LocaleExpander};
use icu_locale_core::{Language, Region, Script, Variant};
use icu_locale_names::{
    DisplayNamesPreferences, RegionDisplayName, ScriptDisplayName, VariantDisplayName,
};
use icu_provider::{DataError, DataErrorKind, LikelySubtagsExtended, NameMarker};
use icu_tables::Tables;
use std::alloc::Global;
use std::process::Abort;
use tests_shared::known::{language, region, sample, script, tables, text, variant};
use tests_shared::refusing::{KINDS, Refusing, refusal, willing};

// What refuses an expander, a directionality and a canonicalizer over the common tables.
fn common_refusals(alloc: Global, provider: &Refusing<'_>) -> [Option<DataError>; 3] {
    [
        LocaleExpander::try_new_common_unstable(provider).err(),
        LocaleDirectionality::try_new_common_unstable(provider).err(),
        LocaleCanonicalizer::try_new_common_unstable(alloc, provider).err(),
    ]
}

// What refuses them over the extended tables too.
fn extended_refusals(alloc: Global, provider: &Refusing<'_>) -> [Option<DataError>; 3] {
    [
        LocaleExpander::try_new_extended_unstable(provider).err(),
        LocaleDirectionality::try_new_extended_unstable(provider).err(),
        LocaleCanonicalizer::try_new_extended_unstable(alloc, provider).err(),
    ]
}

fn refused_likely_tables(rt: &impl Abort, alloc: Global, tables: &Tables, want: Option<DataError>) {
    let mut provider = willing(tables);
    provider.language = want;
    assert!(rt; common_refusals(alloc, &provider) == [want; 3]);
    assert!(rt; extended_refusals(alloc, &provider) == [want; 3]);
    let mut provider = willing(tables);
    provider.script_region = want;
    assert!(rt; common_refusals(alloc, &provider) == [want; 3]);
    assert!(rt; extended_refusals(alloc, &provider) == [want; 3]);
    let mut provider = willing(tables);
    provider.extended = want;
    assert!(rt; common_refusals(alloc, &provider) == [None; 3]);
    assert!(rt; extended_refusals(alloc, &provider) == [want; 3]);
}

fn refused_aliases(rt: &impl Abort, alloc: Global, tables: &Tables, want: Option<DataError>) {
    let mut provider = willing(tables);
    provider.aliases = want;
    let expander = LocaleExpander::try_new_common_unstable(tables).expect(rt, "tables");
    let refusals = [
        LocaleCanonicalizer::try_new_common_unstable(alloc, &provider).err(),
        LocaleCanonicalizer::try_new_extended_unstable(alloc, &provider).err(),
        LocaleCanonicalizer::try_new_with_expander_unstable(alloc, &provider, expander).err(),
    ];
    assert!(rt; refusals == [want; 3]);
}

fn refused_directions(rt: &impl Abort, tables: &Tables, want: Option<DataError>) {
    let mut provider = willing(tables);
    provider.directions = want;
    let expander = LocaleExpander::try_new_extended_unstable(&provider).expect(rt, "tables");
    let refusals = [
        LocaleDirectionality::try_new_common_unstable(&provider).err(),
        LocaleDirectionality::try_new_extended_unstable(&provider).err(),
        LocaleDirectionality::try_new_with_expander_unstable(&provider, expander).err(),
        LocaleDirectionality::try_new_with_expander_unstable(&provider, &expander).err(),
    ];
    assert!(rt; refusals == [want; 4]);
}

#[test]
fn each_refusal_at_each_load(rt: HostRuntime) {
    let alloc = rt.alloc();
    let mut tables = sample(alloc).expect(&rt, "sample");
    tables.set_likely_extended(LikelySubtagsExtended::new(alloc));
    for kind in KINDS {
        refused_likely_tables(&rt, alloc, &tables, refusal(kind));
        refused_aliases(&rt, alloc, &tables, refusal(kind));
        refused_directions(&rt, &tables, refusal(kind));
    }
}

#[test]
fn the_first_refusal_decides(rt: HostRuntime) {
    let tables = sample(rt.alloc()).expect(&rt, "sample");
    let mut provider = willing(&tables);
    provider.language = refusal(DataErrorKind::IdentifierNotFound);
    provider.script_region = refusal(DataErrorKind::Custom);
    assert!(rt;
        LocaleExpander::try_new_common_unstable(&provider).err()
            == refusal(DataErrorKind::IdentifierNotFound)
    );
    let mut provider = willing(&tables);
    provider.language = refusal(DataErrorKind::Custom);
    provider.script_region = refusal(DataErrorKind::IdentifierNotFound);
    assert!(rt;
        LocaleExpander::try_new_common_unstable(&provider).err() == refusal(DataErrorKind::Custom)
    );
}

fn aliases_come_last(rt: &impl Abort, alloc: Global, tables: &Tables) {
    let mut provider = willing(tables);
    provider.language = refusal(DataErrorKind::Custom);
    provider.aliases = refusal(DataErrorKind::MarkerNotFound);
    let common = LocaleCanonicalizer::try_new_common_unstable(alloc, &provider).err();
    assert!(rt; common == refusal(DataErrorKind::Custom));
    let expander = LocaleExpander::try_new_common_unstable(tables).expect(rt, "tables");
    let with = LocaleCanonicalizer::try_new_with_expander_unstable(
        alloc, &provider, expander,
    ).err();
    assert!(rt; with == refusal(DataErrorKind::MarkerNotFound));
}

#[test]
fn the_expander_is_loaded_before_the_aliases(rt: HostRuntime) {
    let alloc = rt.alloc();
    let tables = sample(alloc).expect(&rt, "sample");
    aliases_come_last(&rt, alloc, &tables);
}

fn refused_exemplars(
    rt: &impl Abort,
    tables: &Tables,
    language: Language,
    want: Option<DataError>,
) {
    let mut provider = willing(tables);
    provider.exemplars = want;
    assert!(rt; exemplar_refusals(&provider, language) == [want; 5]);
}

fn exemplar_refusals(provider: &Refusing<'_>, language: Language) -> [Option<DataError>; 5] {
    [
        ExemplarCharacters::try_new_main_unstable(provider, of(language).locale).err(),
        ExemplarCharacters::try_new_auxiliary_unstable(provider, of(language).locale).err(),
        ExemplarCharacters::try_new_punctuation_unstable(provider, of(language).locale).err(),
        ExemplarCharacters::try_new_numbers_unstable(provider, of(language).locale).err(),
        ExemplarCharacters::try_new_index_unstable(provider, of(language).locale).err(),
    ]
}

// Names are asked for in a language.
fn of(language: Language) -> DisplayNamesPreferences {
    DisplayNamesPreferences::new(language, None, None)
}

fn refused_regions(
    rt: &impl Abort,
    tables: &Tables,
    language: Language,
    region: Region,
    want: Option<DataError>,
) {
    let mut provider = willing(tables);
    provider.names = want;
    assert!(rt; region_refusals(&provider, language, region) == [want; 4]);
}

fn region_refusals(
    provider: &Refusing<'_>,
    language: Language,
    region: Region,
) -> [Option<DataError>; 4] {
    [
        RegionDisplayName::try_new_tiny_unstable(provider, of(language), region).err(),
        RegionDisplayName::try_new_short_tiny_unstable(provider, of(language), region).err(),
        RegionDisplayName::try_new_light_unstable(provider, of(language), region).err(),
        RegionDisplayName::try_new_short_light_unstable(provider, of(language), region).err(),
    ]
}

fn refused_scripts(
    rt: &impl Abort,
    tables: &Tables,
    language: Language,
    script: Script,
    want: Option<DataError>,
) {
    let mut provider = willing(tables);
    provider.names = want;
    assert!(rt; script_refusals(&provider, language, script) == [want; 4]);
}

fn script_refusals(
    provider: &Refusing<'_>,
    language: Language,
    script: Script,
) -> [Option<DataError>; 4] {
    [
        ScriptDisplayName::try_new_tiny_unstable(provider, of(language), script).err(),
        ScriptDisplayName::try_new_light_unstable(provider, of(language), script).err(),
        ScriptDisplayName::try_new_heavy_unstable(provider, of(language), script).err(),
        ScriptDisplayName::try_new_short_heavy_unstable(provider, of(language), script).err(),
    ]
}

fn refused_variant(
    rt: &impl Abort,
    tables: &Tables,
    language: Language,
    variant: Variant,
    want: Option<DataError>,
) {
    let mut provider = willing(tables);
    provider.names = want;
    let name = VariantDisplayName::try_new_heavy_unstable(&provider, of(language), variant);
    assert!(rt; name.err() == want);
}

#[test]
fn each_refusal_of_exemplars_and_names(rt: HostRuntime) {
    let tables = Tables::new(rt.alloc());
    let language = language("en").expect(&rt, "language");
    let region = region("US").expect(&rt, "region");
    let script = script("Latn").expect(&rt, "script");
    let variant = variant("fonipa").expect(&rt, "variant");
    for kind in KINDS {
        refused_exemplars(&rt, &tables, language, refusal(kind));
        refused_regions(&rt, &tables, language, region, refusal(kind));
        refused_scripts(&rt, &tables, language, script, refusal(kind));
        refused_variant(&rt, &tables, language, variant, refusal(kind));
    }
}

// A chain stops at a refusal, though a later marker has a name; with fallback the subtag is taken.
fn refused_at_one_marker(rt: &impl Abort, alloc: Global, region: Region) {
    let tables = tables(alloc, MEDIUM_TINY).expect(rt, "tables");
    over_named_tables(rt, alloc, &tables, region);
}

const MEDIUM_TINY: &str = "{\"names\":{\"region/medium/tiny\":{\"en\":{\"DE\":\"X\"}}}}";

fn over_named_tables(rt: &impl Abort, alloc: Global, tables: &Tables, region: Region) {
    let mut provider = willing(tables);
    provider.names = refusal(DataErrorKind::MarkerNotFound);
    provider.names_at = Some(NameMarker::RegionMediumLight);
    let language = language("en").expect(rt, "language");
    let light = RegionDisplayName::try_new_light_unstable(&provider, of(language), region);
    assert!(rt; light.err() == refusal(DataErrorKind::MarkerNotFound));
    let light = RegionDisplayName::new_light_with_fallback(&provider, of(language), region);
    assert!(rt; text(alloc, &light).expect(rt, "text").as_str() == "DE");
    let tiny = RegionDisplayName::new_tiny_with_fallback(&provider, of(language), region);
    assert!(rt; text(alloc, &tiny).expect(rt, "text").as_str() == "X");
}

#[test]
fn a_chain_stops_at_a_refusal(rt: HostRuntime) {
    refused_at_one_marker(&rt, rt.alloc(), region("DE").expect(&rt, "region"));
}
