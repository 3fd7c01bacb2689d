//! Tables that rows are put into, and tables of texts.
use icu_locale_core::Language;
use icu_provider::{
    DataError, DataErrorKind, DataLocale, DataProvider, DoublePlaceholderPattern, ExemplarMarker,
    LikelySubtagsForLanguage, LocaleNamesEssentials, MenuMarker, MenuNameParts, NameKey,
    NameMarker, PatternItem,
};
use icu_tables::Tables;
use std::alloc::Global;
use std::process::Abort;
use tests_shared::known::{language, region, script, tables as read, text};

const NOT_FOUND: DataError = DataError {
    kind: DataErrorKind::IdentifierNotFound,
};

pub fn english(rt: &impl Abort) -> DataLocale {
    DataLocale {
        language: language("en").expect(rt, "language"),
        script: None,
        region: None,
    }
}

fn menu_name(rt: &impl Abort, alloc: Global, core: &str, extension: &str) -> MenuNameParts {
    MenuNameParts {
        core: text(alloc, &core).expect(rt, "text"),
        extension: text(alloc, &extension).expect(rt, "text"),
    }
}

// A pattern of one text, and a separator of one placeholder.
fn patterns(rt: &impl Abort, alloc: Global, literal: &str) -> LocaleNamesEssentials {
    let literal = PatternItem::Literal(text(alloc, &literal).expect(rt, "text"));
    LocaleNamesEssentials {
        locale_pattern: pattern(rt, alloc, literal),
        locale_separator: pattern(rt, alloc, PatternItem::First),
    }
}

fn pattern(rt: &impl Abort, alloc: Global, item: PatternItem) -> DoublePlaceholderPattern {
    let mut items = Vec::new(alloc);
    items.push(item).expect(rt, "memory");
    DoublePlaceholderPattern::try_from_items(items)
}

#[test]
fn a_name_in_a_menu_gives_way_to_a_later_one(rt: HostRuntime) {
    let alloc = rt.alloc();
    let mut tables = Tables::new(alloc);
    let language = language("ku").expect(&rt, "language");
    let first = menu_name(&rt, alloc, "Kurdish", "Kurmanji");
    tables
        .insert_menu(MenuMarker::MediumLight, english(&rt), language, first)
        .expect(&rt, "memory");
    let second = menu_name(&rt, alloc, "Kurdish", "");
    tables
        .insert_menu(MenuMarker::MediumLight, english(&rt), language, second)
        .expect(&rt, "memory");
    let held = tables
        .load_menu(MenuMarker::MediumLight, english(&rt), language)
        .expect(&rt, "a name in a menu");
    assert!(rt; held.core.as_str() == "Kurdish");
    assert!(rt; held.extension.as_str() == "");
    let heavy = tables.load_menu(MenuMarker::MediumHeavy, english(&rt), language);
    assert!(rt; heavy.err() == Some(NOT_FOUND));
}

#[test]
fn patterns_give_way_to_later_ones(rt: HostRuntime) {
    let alloc = rt.alloc();
    let mut tables = Tables::new(alloc);
    assert!(rt; tables.load_essentials(english(&rt)).err() == Some(NOT_FOUND));
    tables
        .insert_essentials(english(&rt), patterns(&rt, alloc, "first"))
        .expect(&rt, "memory");
    tables
        .insert_essentials(english(&rt), patterns(&rt, alloc, "second"))
        .expect(&rt, "memory");
    let held = tables.load_essentials(english(&rt)).expect(&rt, "patterns");
    assert!(rt; matches!(held.locale_separator.items(), [PatternItem::First]));
    match held.locale_pattern.items() {
        [PatternItem::Literal(text)] => assert!(rt; text.as_str() == "second"),
        _ => assert!(rt; false),
    }
}

#[test]
fn an_object_without_members_is_no_table(rt: HostRuntime) {
    let tables = read(rt.alloc(), "{}").expect(&rt, "read");
    let refusals = [
        tables.load_likely_language().err(),
        tables.load_likely_script_region().err(),
        tables.load_likely_extended().err(),
        tables.load_aliases().err(),
        tables.load_script_direction().err(),
    ];
    assert!(rt; refusals == [Some(NOT_FOUND); 5]);
    no_table_of_names(&rt, &tables);
}

fn no_table_of_names(rt: &impl Abort, tables: &Tables) {
    let language = language("en").expect(rt, "language");
    let key = NameKey::Language(language, None, None);
    let refusals = [
        tables
            .load_exemplars(ExemplarMarker::Main, english(rt))
            .err(),
        tables
            .load_name(NameMarker::LanguageMediumTiny, english(rt), key)
            .err(),
        tables
            .load_menu(MenuMarker::MediumLight, english(rt), language)
            .err(),
        tables.load_essentials(english(rt)).err(),
    ];
    assert!(rt; refusals == [Some(NOT_FOUND); 4]);
}

#[test]
fn a_row_whose_key_is_not_as_written_is_skipped(rt: HostRuntime) {
    let text = r#"{"likely_language":{"und":["en","Latn","US"],"language":{"EN":["Latn","US"]}}}"#;
    let tables = read(rt.alloc(), text).expect(&rt, "read");
    let table = tables.load_likely_language().expect(&rt, "likely language");
    assert!(rt; table.get_language(language("en").expect(&rt, "language")) == None);
    assert!(rt; table.iter_language().count() == 0);
}

#[test]
fn values_are_read_in_any_case_and_keys_in_their_own(rt: HostRuntime) {
    let text = r#"{"likely_language": {
        "und": ["EN", "latn", "us"],
        "language": {"AR": ["Arab", "EG"], "zh": ["HANS", "cn"]}
    }}"#;
    let tables = read(rt.alloc(), text).expect(&rt, "read");
    values_of_languages(
        &rt,
        tables.load_likely_language().expect(&rt, "likely language"),
    );
}

// A row has its values in written case, and none is at a key that is not.
fn values_of_languages(rt: &impl Abort, table: &LikelySubtagsForLanguage) {
    let und = table.und();
    assert!(rt; [und.0.as_str(), und.1.as_str(), und.2.as_str()] == ["en", "Latn", "US"]);
    let chinese = (
        script("Hans").expect(rt, "script"),
        region("CN").expect(rt, "region"),
    );
    assert!(rt; table.get_language(language("zh").expect(rt, "language")) == Some(chinese));
    assert!(rt; table.get_language(language("ar").expect(rt, "language")) == None);
}

// More regions than a short list has, in rising order.
const REGIONS: [&str; 26] = [
    "AD", "AE", "AF", "AG", "AI", "AL", "AM", "AO", "AQ", "AR", "AS", "AT", "AU", "AW", "AX", "AZ",
    "BA", "BB", "BD", "BE", "BF", "BG", "BH", "BI", "BJ", "BL",
];

// The regions have names of two lengths, one row after another from the last.
fn named_twice(rt: &impl Abort, alloc: Global) -> Tables {
    let mut tables = Tables::new(alloc);
    for marker in [NameMarker::RegionMediumLight, NameMarker::RegionShortLight] {
        for code in REGIONS.iter().rev() {
            let key = NameKey::Region(region(code).expect(rt, "region"));
            let name = text(alloc, code).expect(rt, "text");
            tables
                .insert_name(marker, english(rt), key, name)
                .expect(rt, "memory");
        }
    }
    tables
}

#[test]
fn keys_of_several_markers_come_once_and_rise(rt: HostRuntime) {
    let tables = named_twice(&rt, rt.alloc());
    let markers = [
        NameMarker::RegionMediumLight,
        NameMarker::RegionMediumTiny,
        NameMarker::RegionShortLight,
    ];
    let keys = tables
        .names
        .keys_in(rt.alloc(), &markers, &english(&rt))
        .expect(&rt, "memory");
    assert!(rt; keys.len() == REGIONS.len());
    for (key, code) in keys.iter().zip(REGIONS.iter()) {
        assert!(rt; *key == NameKey::Region(region(code).expect(&rt, "region")));
    }
    let none = tables.names.keys_in(rt.alloc(), &[], &english(&rt));
    assert!(rt; none.expect(&rt, "memory").is_empty());
}
