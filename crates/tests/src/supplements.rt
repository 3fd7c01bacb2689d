//! What a supplement says of codes and of keys, as it is read from JSON.
use icu_locale_extensions::{FieldKey, Subtags};
use icu_locale_validity::{CodeKind, KeyTypes, Status, Validity};
use icu_tables::{Supplement, TableError};
use std::alloc::Global;
use std::process::Abort;
use tests_shared::known::{key, language, region, script, subtag, value, variant};

const TEXT: &str = "{\"cldr\":\"41\",\"validity\":{\
    \"language\":{\"regular\":\"aa ab~d aaz~b EN und~ ~z\",\"deprecated\":\"iw\",\"unknown\":\"und\"},\
    \"script\":{\"special\":\"Zyyx~y latn\"},\
    \"region\":{\"regular\":\"AC~G US  us A~C QA~BC\",\"macroregion\":\"001~3\",\"unknown\":\"ZZ US\"},\
    \"variant\":{\"regular\":\"1994 1996\"},\"subdivision\":{\"regular\":\"ad02~8\"},\
    \"currency\":{\"private_use\":\"xxx\",\"reserved\":\"\"},\
    \"keywords\":{\"hc\":{\"types\":{\"regular\":\"h11~2 h23~4\",\"deprecated\":\"H12\"}},\
    \"kr\":{\"status\":\"regular\",\"kind\":\"script\",\"many\":true},\
    \"vt\":{\"status\":\"deprecated\",\"kind\":\"code_point\"},\"CA\":{}},\
    \"fields\":{\"m0\":{\"types\":{\"regular\":\"iso prprname-abc\"},\"kind\":\"date\",\"many\":true}}}}";

// Texts that are no supplement.
const REFUSED: [&str; 10] = [
    "{\"cldr\":41}",
    "{\"validity\":{\"languages\":{}}}",
    "{\"validity\":{\"language\":{\"Regular\":\"en\"}}}",
    "{\"validity\":{\"language\":{\"regular\":[\"en\"]}}}",
    "{\"validity\":{\"language\":\"en\"}}",
    "{\"validity\":{\"keywords\":{\"ca\":{\"kind\":\"dates\"}}}}",
    "{\"validity\":{\"keywords\":{\"ca\":{\"status\":\"obsolete\"}}}}",
    "{\"validity\":{\"keywords\":{\"CA\":{\"many\":1}}}}",
    "{\"validity\":{\"fields\":{\"m0\":{\"values\":{}}}}}",
    "{\"validity\":null}",
];

#[test]
fn a_text_that_is_no_supplement_is_refused(rt: HostRuntime) {
    for text in REFUSED {
        let read = Supplement::from_json(rt.alloc(), text.as_bytes());
        assert!(rt; read.err() == Some(TableError::Shape));
    }
}

#[test]
fn a_supplement_may_say_nothing_of_codes(rt: HostRuntime) {
    let held = Supplement::from_json(rt.alloc(), b"{}").expect(&rt, "a supplement");
    assert!(rt; held.cldr.is_none());
    assert!(rt; held.validity.is_none());
}

#[test]
fn a_supplement_says_what_codes_are(rt: HostRuntime) {
    let alloc = rt.alloc();
    let held = Supplement::from_json(alloc, TEXT.as_bytes()).expect(&rt, "a supplement");
    assert!(rt; held.cldr.as_ref().expect(&rt, "a name").as_str() == "41");
    let table = held.validity.as_ref().expect(&rt, "a table");
    languages_are_known(&rt, table);
    regions_are_known(&rt, table);
    others_are_known(&rt, table);
    keywords_are_known(&rt, alloc, table);
    fields_are_known(&rt, alloc, table);
}

fn languages_are_known(rt: &impl Abort, table: &Validity) {
    assert!(rt; table.languages.len() == 6);
    for (text, want) in [
        ("aa", Some(Status::Regular)),
        ("ab", Some(Status::Regular)),
        ("ad", Some(Status::Regular)),
        ("ae", None),
        // a range that goes down has no codes
        ("aaz", None),
        ("en", None),
        ("iw", Some(Status::Deprecated)),
        ("und", Some(Status::Unknown)),
    ] {
        let code = language(text).expect(rt, "a language");
        assert!(rt; table.languages.get(&code).copied() == want);
    }
}

fn regions_are_known(rt: &impl Abort, table: &Validity) {
    assert!(rt; table.regions.len() == 10);
    for (text, want) in [
        ("AB", None),
        ("AC", Some(Status::Regular)),
        ("AG", Some(Status::Regular)),
        ("AH", None),
        ("QA", None),
        ("001", Some(Status::Macroregion)),
        ("003", Some(Status::Macroregion)),
        ("US", Some(Status::Unknown)),
    ] {
        let code = region(text).expect(rt, "a region");
        assert!(rt; table.regions.get(&code).copied() == want);
    }
}

fn others_are_known(rt: &impl Abort, table: &Validity) {
    assert!(rt; table.scripts.len() == 2);
    let common = script("Zyyy").expect(rt, "a script");
    assert!(rt; table.scripts.get(&common).copied() == Some(Status::Special));
    assert!(rt; table.variants.len() == 2);
    assert!(rt;
        table
            .variants
            .contains_key(&variant("1996").expect(rt, "a variant"))
    );
    assert!(rt; table.subdivisions.len() == 7);
    assert!(rt;
        table
            .subdivisions
            .contains_key(&subtag("ad05").expect(rt, "a code"))
    );
    assert!(rt; table.currencies.len() == 1);
    let none = subtag("xxx").expect(rt, "a code");
    assert!(rt; table.currencies.get(&none).copied() == Some(Status::PrivateUse));
}

// What the key of a keyword takes.
fn at<'t>(
    rt: &impl Abort,
    table: &'t Validity,
    name: &str,
) -> &'t KeyTypes<icu_locale_core::Value> {
    let key = key(name).expect(rt, "a key");
    table.keywords.get(&key).expect(rt, "a row")
}

fn keywords_are_known(rt: &impl Abort, alloc: Global, table: &Validity) {
    assert!(rt; table.keywords.len() == 3);
    let hours = at(rt, table, "hc");
    assert!(rt; hours.status == Status::Regular && hours.kind.is_none() && !hours.many);
    assert!(rt; hours.types.len() == 4);
    // the statuses come in the order of their names, so that `regular` counts
    let twelve = value(alloc, "h12").expect(rt, "a value");
    assert!(rt; hours.types.get(&twelve).copied() == Some(Status::Regular));
    let order = at(rt, table, "kr");
    assert!(rt; order.kind == Some(CodeKind::Script) && order.many && order.types.is_empty());
    let top = at(rt, table, "vt");
    assert!(rt;
        top.status == Status::Deprecated && top.kind == Some(CodeKind::CodePoint) && !top.many
    );
}

fn fields_are_known(rt: &impl Abort, alloc: Global, table: &Validity) {
    let key = FieldKey::try_from_bytes(b"m0").expect(rt, "a key");
    let mechanism = table.fields.get(&key).expect(rt, "a row");
    assert!(rt; mechanism.kind == Some(CodeKind::Date) && mechanism.many);
    assert!(rt; mechanism.types.len() == 2);
    let two = Subtags::try_from_str(alloc, "prprname-abc").expect(rt, "a value");
    assert!(rt; mechanism.types.get(&two).copied() == Some(Status::Regular));
}
