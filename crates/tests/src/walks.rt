//! Walks over the tables of the sample.
use icu_locale_core::Language;
use icu_provider::{
    Aliases, DataProvider, ExemplarCharactersData, ExemplarMarker, ScriptDirection,
};
use icu_tables::Tables;
use std::process::Abort;
use tests_shared::known::{english, language, region, sample, script, subtag, variant};

fn lists_of_aliases(rt: &impl Abort, held: &Aliases) {
    let [by_variants] = held.language_variants() else {
        assert!(rt; false);
        return;
    };
    assert!(rt; by_variants.0 == Language::UNKNOWN);
    let texts = [by_variants.1.as_str(), by_variants.2.as_str()];
    assert!(rt; texts == ["heploc-hepburn", "und-alalc97"]);
    let [by_language] = held.language() else {
        assert!(rt; false);
        return;
    };
    assert!(rt; [by_language.0.as_str(), by_language.1.as_str()] == ["und-DD", "und-DE"]);
}

fn maps_of_aliases(rt: &impl Abort, held: &Aliases) {
    let germany = region("DE").expect(rt, "region");
    let german_sign = language("gsg").expect(rt, "language");
    assert!(rt; held.get_sgn_region(germany) == Some(german_sign));
    let former = region("SU").expect(rt, "region");
    let parts = [
        region("RU").expect(rt, "region"),
        region("AM").expect(rt, "region"),
    ];
    assert!(rt; held.get_complex_region(former) == Some(parts.as_slice()));
    let polytoni = variant("polytoni").expect(rt, "variant");
    let polyton = variant("polyton").expect(rt, "variant");
    assert!(rt; held.get_variant(polytoni) == Some(polyton));
}

fn texts_of_aliases(rt: &impl Abort, held: &Aliases) {
    let serbo_croatian = language("sh").expect(rt, "language");
    assert!(rt; held.get_language_len2(serbo_croatian) == Some("sr-Latn"));
    let subdivision = subtag("abcdefg").expect(rt, "subtag");
    assert!(rt; held.get_subdivision(subdivision) == Some("xyz"));
}

// How many rows the maps of languages and scripts have.
fn counts_of_languages(held: &Aliases) -> [usize; 4] {
    [
        held.iter_sgn_region().count(),
        held.iter_language_len2().count(),
        held.iter_language_len3().count(),
        held.iter_script().count(),
    ]
}

// How many rows the maps of regions have.
fn counts_of_regions(held: &Aliases) -> [usize; 3] {
    [
        held.iter_region_alpha().count(),
        held.iter_region_num().count(),
        held.iter_complex_region().count(),
    ]
}

fn are_aliases_of_the_sample(rt: &impl Abort, held: &Aliases) {
    lists_of_aliases(rt, held);
    maps_of_aliases(rt, held);
    texts_of_aliases(rt, held);
    assert!(rt; counts_of_languages(held) == [1, 1, 0, 0]);
    assert!(rt; counts_of_regions(held) == [0, 0, 1]);
    assert!(rt; [held.iter_variant().count(), held.iter_subdivision().count()] == [1, 1]);
}

#[test]
fn aliases_of_the_sample(rt: HostRuntime) {
    let tables = sample(rt.alloc()).expect(&rt, "sample");
    let held = tables.load_aliases().expect(&rt, "aliases");
    are_aliases_of_the_sample(&rt, held);
}

// Which scripts run which way: none both ways.
fn are_directions_of_the_sample(rt: &impl Abort, held: &ScriptDirection) {
    for text in ["Latn", "Hans", "Hant", "Armn"] {
        let script = script(text).expect(rt, "script");
        assert!(rt; held.is_ltr(script) && !held.is_rtl(script));
    }
    for text in ["Arab", "Hebr"] {
        let script = script(text).expect(rt, "script");
        assert!(rt; held.is_rtl(script) && !held.is_ltr(script));
    }
    let other = script("Grek").expect(rt, "script");
    assert!(rt; !held.is_rtl(other) && !held.is_ltr(other));
}

fn are_exemplars_of_the_sample(rt: &impl Abort, held: &ExemplarCharactersData) {
    assert!(rt; ('a'..='z').all(|character| held.contains(character)));
    assert!(rt; !held.contains('`') && !held.contains('{') && !held.contains('A'));
    assert!(rt; held.contains_str("ng") && !held.contains_str("") && !held.contains_str("gn"));
}

// How many rows there are of exemplar sets, names, names in menus and patterns.
fn counts_of_names(held: &Tables) -> [usize; 4] {
    [
        held.exemplars.len(),
        held.names.len(),
        held.menus.len(),
        held.essentials.len(),
    ]
}

#[test]
fn directions_and_exemplars_of_the_sample(rt: HostRuntime) {
    let tables = sample(rt.alloc()).expect(&rt, "sample");
    let directions = tables
        .load_script_direction()
        .expect(&rt, "script direction");
    are_directions_of_the_sample(&rt, directions);
    let set = tables
        .load_exemplars(
            ExemplarMarker::Main,
            english().expect(&rt, "english").locale,
        )
        .expect(&rt, "a set");
    are_exemplars_of_the_sample(&rt, set);
    assert!(rt; counts_of_names(&tables) == [1, 9, 1, 1]);
}
