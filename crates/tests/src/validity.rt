//! What a table says of codes, keys and values, found by hand from CLDR's files of validity and of types, UTS #35 Part 1
//! and RFC 6497.
use icu_locale_extensions::{FieldKey, Subtags};
use icu_locale_validity::{PartKind, Status, Validity};
use icu_tables::Supplement;
use std::alloc::Global;
use std::process::Abort;
use tests_shared::known::{key, language, region, script, value, variant};

/// Some of CLDR's codes, keys and types, each with CLDR's own status.
pub const LISTED: &str = "{\"validity\":{\
    \"language\":{\"regular\":\"cmn de en ja tlh zh\",\"special\":\"mis mul zxx\",\"deprecated\":\"iw\",\
    \"reserved\":\"qaa~z\",\"private_use\":\"qfz\",\"unknown\":\"und\"},\
    \"script\":{\"regular\":\"Hant Jpan Latn Thai\",\"special\":\"Zinh Zyyy\",\"deprecated\":\"Qaai\",\
    \"reserved\":\"Qaaa~f\",\"private_use\":\"Qaaq~z\",\"unknown\":\"Zzzz\"},\
    \"region\":{\"regular\":\"AC~G DE JP RS TW US\",\"special\":\"XA~B\",\"macroregion\":\"001 419 EU\",\
    \"deprecated\":\"DD\",\"reserved\":\"AA\",\"private_use\":\"XC~J\",\"unknown\":\"ZZ\"},\
    \"variant\":{\"regular\":\"1901 1996 fonipa\",\"deprecated\":\"heploc\"},\
    \"subdivision\":{\"regular\":\"gbeng ustx\",\"deprecated\":\"usvi\",\"unknown\":\"gbzzzz uszzzz\"},\
    \"currency\":{\"regular\":\"eur usd\",\"deprecated\":\"dem\",\"unknown\":\"xxx\"},\
    \"keywords\":{\
    \"ca\":{\"types\":{\"regular\":\"buddhist islamic islamic-civil\",\"deprecated\":\"islamicc\"}},\
    \"cu\":{\"kind\":\"currency\"},\"dx\":{\"kind\":\"script\",\"many\":true},\
    \"hc\":{\"types\":{\"regular\":\"h11~2 h23~4\"}},\
    \"kh\":{\"status\":\"deprecated\",\"types\":{\"regular\":\"false true\"}},\
    \"kn\":{\"types\":{\"regular\":\"false true\"}},\
    \"kr\":{\"types\":{\"regular\":\"currency digit punct\"},\"kind\":\"script\",\"many\":true},\
    \"rg\":{\"kind\":\"region_override\"},\"sd\":{\"kind\":\"subdivision\"},\
    \"vt\":{\"status\":\"deprecated\",\"kind\":\"code_point\",\"many\":true}},\
    \"fields\":{\"d0\":{\"types\":{\"regular\":\"ascii hex\"},\"kind\":\"date\"},\
    \"k0\":{\"types\":{\"regular\":\"osx extended\"},\"kind\":\"date\",\"many\":true},\
    \"m0\":{\"types\":{\"regular\":\"prprname ungegn\"},\"kind\":\"date\"},\
    \"x0\":{\"kind\":\"any\",\"many\":true}}}}";

// Keys that take code points, as `vt` did before it was deprecated, one date, and anything; and one that is reserved.
const OWN: &str = "{\"validity\":{\"keywords\":{\
    \"va\":{\"kind\":\"code_point\",\"many\":true},\"vb\":{\"kind\":\"date\"},\
    \"vc\":{\"kind\":\"any\",\"types\":{\"reserved\":\"posix\",\"deprecated\":\"two-posix\"}},\
    \"vd\":{\"status\":\"reserved\",\"kind\":\"any\"}}}}";

pub fn listed(rt: &impl Abort, alloc: Global, text: &str) -> Supplement {
    Supplement::from_json(alloc, text.as_bytes()).expect(rt, "a supplement")
}

pub fn table<'t>(rt: &impl Abort, held: &'t Supplement) -> &'t Validity {
    held.validity.as_ref().expect(rt, "a table")
}

// Each status, its word, and whether a code that has it may be used.
const STATUSES: [(Status, &str, bool); 7] = [
    (Status::Regular, "regular", true),
    (Status::Special, "special", true),
    (Status::Macroregion, "macroregion", true),
    (Status::Unknown, "unknown", true),
    (Status::PrivateUse, "private_use", true),
    (Status::Deprecated, "deprecated", false),
    (Status::Reserved, "reserved", false),
];

#[test]
fn each_status_has_a_word(rt: HostRuntime) {
    for (status, word, usable) in STATUSES {
        assert!(rt; status.as_str() == word);
        assert!(rt; status.is_usable() == usable, "{word}");
    }
}

#[test]
fn each_kind_has_a_word(rt: HostRuntime) {
    for (kind, word) in [
        (PartKind::Language, "language"),
        (PartKind::Script, "script"),
        (PartKind::Region, "region"),
        (PartKind::Variant, "variant"),
        (PartKind::Attribute, "attribute"),
        (PartKind::Keyword, "keyword"),
        (PartKind::Field, "field"),
        (PartKind::Extension, "extension"),
    ] {
        assert!(rt; kind.as_str() == word);
    }
}

#[test]
fn subtags_have_the_status_of_cldr(rt: HostRuntime) {
    let held = listed(&rt, rt.alloc(), LISTED);
    let table = table(&rt, &held);
    languages_and_scripts(&rt, table);
    regions_and_variants(&rt, table);
}

fn languages_and_scripts(rt: &impl Abort, table: &Validity) {
    for (text, want) in [
        ("DE", Some(Status::Regular)),
        ("mul", Some(Status::Special)),
        ("iw", Some(Status::Deprecated)),
        ("qab", Some(Status::Reserved)),
        ("qfz", Some(Status::PrivateUse)),
        ("und", Some(Status::Unknown)),
        ("xx", None),
    ] {
        let code = language(text).expect(rt, text);
        assert!(rt; table.language(code) == want, "{text}");
    }
    for (text, want) in [
        ("LATN", Some(Status::Regular)),
        ("Zyyy", Some(Status::Special)),
        ("Qaai", Some(Status::Deprecated)),
        ("Qaaf", Some(Status::Reserved)),
        ("Qaaz", Some(Status::PrivateUse)),
        ("Zzzz", Some(Status::Unknown)),
        ("Latm", None),
    ] {
        let code = script(text).expect(rt, text);
        assert!(rt; table.script(code) == want, "{text}");
    }
}

fn regions_and_variants(rt: &impl Abort, table: &Validity) {
    for (text, want) in [
        ("us", Some(Status::Regular)),
        ("AG", Some(Status::Regular)),
        ("XB", Some(Status::Special)),
        ("419", Some(Status::Macroregion)),
        ("DD", Some(Status::Deprecated)),
        ("AA", Some(Status::Reserved)),
        ("XJ", Some(Status::PrivateUse)),
        ("ZZ", Some(Status::Unknown)),
        ("AH", None),
        ("999", None),
    ] {
        let code = region(text).expect(rt, text);
        assert!(rt; table.region(code) == want, "{text}");
    }
    for (text, want) in [
        ("FonIPA", Some(Status::Regular)),
        ("1996", Some(Status::Regular)),
        ("heploc", Some(Status::Deprecated)),
        ("1994", None),
    ] {
        let code = variant(text).expect(rt, text);
        assert!(rt; table.variant(code) == want, "{text}");
    }
}

// A key, a value, and their status. The value `true` is spelled by nothing too (UTS #35 Part 1, section 3.2.1).
const KEYWORDS: [(&str, &str, Option<Status>); 35] = [
    ("ca", "buddhist", Some(Status::Regular)),
    ("CA", "ISLAMIC-civil", Some(Status::Regular)),
    ("ca", "islamicc", Some(Status::Deprecated)),
    // no type of two pieces, and the key takes no more than one code
    ("ca", "islamic-buddhist", None),
    ("ca", "islamic-civil-islamic", None),
    ("ca", "civil", None),
    ("ca", "", None),
    ("kn", "", Some(Status::Regular)),
    ("kn", "true", Some(Status::Regular)),
    ("kn", "false", Some(Status::Regular)),
    ("kn", "false-false", None),
    ("hc", "h23", Some(Status::Regular)),
    ("hc", "h13", None),
    ("hc", "true", None),
    ("cu", "usd", Some(Status::Regular)),
    ("cu", "dem", Some(Status::Deprecated)),
    ("cu", "xxx", Some(Status::Regular)),
    ("cu", "eur-usd", None),
    ("cu", "abc", None),
    ("cu", "", None),
    ("dx", "thai", Some(Status::Regular)),
    ("dx", "thai-latn", Some(Status::Regular)),
    ("dx", "thai-latm", None),
    ("kr", "digit-latn-punct", Some(Status::Regular)),
    ("kr", "latn-qaai-latm", Some(Status::Deprecated)),
    ("kr", "qaaa-qaai", Some(Status::Reserved)),
    ("kr", "digits", None),
    ("rg", "uszzzz", Some(Status::Regular)),
    ("rg", "usvi", Some(Status::Deprecated)),
    ("sd", "gbeng", Some(Status::Regular)),
    ("sd", "gbxyz", None),
    // a region as a whole is no subdivision
    ("sd", "gbzzzz", None),
    ("kh", "true", Some(Status::Deprecated)),
    ("vt", "nocode", Some(Status::Deprecated)),
    ("zz", "true", None),
];

#[test]
fn keywords_have_the_status_of_cldr(rt: HostRuntime) {
    let alloc = rt.alloc();
    let held = listed(&rt, alloc, LISTED);
    let table = table(&rt, &held);
    for (at, text, want) in KEYWORDS {
        let told = table.keyword(
            key(at).expect(&rt, at),
            &value(alloc, text).expect(&rt, text),
        );
        assert!(rt; told == want, "{at} {text}");
    }
}

// Code points have four to six digits, and are at most 10FFFF (UTS #35 Part 1, section 3.6.4); dates four, six or eight.
#[test]
fn values_have_forms(rt: HostRuntime) {
    let alloc = rt.alloc();
    let held = listed(&rt, alloc, OWN);
    let table = table(&rt, &held);
    for (at, text, want) in [
        ("va", "00A0", Some(Status::Regular)),
        ("va", "300b", Some(Status::Regular)),
        ("va", "10D40C", Some(Status::Regular)),
        ("va", "10ffff", Some(Status::Regular)),
        ("va", "00C1-00E1", Some(Status::Regular)),
        ("va", "0A0", None),
        ("va", "110000", None),
        ("va", "0010000", None),
        ("va", "U060C", None),
        ("va", "0061-006g", None),
        ("vb", "2007", Some(Status::Regular)),
        ("vb", "200710", Some(Status::Regular)),
        ("vb", "20071031", Some(Status::Regular)),
        ("vb", "207", None),
        ("vb", "20071", None),
        ("vb", "2007103", None),
        ("vb", "2007a", None),
        // it takes one
        ("vb", "2007-2008", None),
        // a type that is listed has its own status
        ("vc", "posix", Some(Status::Reserved)),
        ("vc", "two-posix", Some(Status::Deprecated)),
        ("vc", "any", Some(Status::Regular)),
        ("vc", "any-two", None),
        ("vd", "any", Some(Status::Reserved)),
    ] {
        let told = table.keyword(
            key(at).expect(&rt, at),
            &value(alloc, text).expect(&rt, text),
        );
        assert!(rt; told == want, "{at} {text}");
    }
}

#[test]
fn fields_have_the_status_of_cldr(rt: HostRuntime) {
    let alloc = rt.alloc();
    let held = listed(&rt, alloc, LISTED);
    let table = table(&rt, &held);
    for (at, text, want) in [
        ("d0", "hex", Some(Status::Regular)),
        ("m0", "PRPRNAME", Some(Status::Regular)),
        // the example of RFC 6497, section 2.2
        ("m0", "ungegn-2007", Some(Status::Regular)),
        ("m0", "ungegn-20070131", Some(Status::Regular)),
        ("m0", "ungegn-207", None),
        // a date comes last, and there is one type where the key takes no more
        ("m0", "2007-ungegn", None),
        ("m0", "ungegn-2007-2008", None),
        ("m0", "ungegn-prprname", None),
        ("m0", "ungegn-prprname-2007", None),
        ("d0", "hex-hex", None),
        ("k0", "extended-osx-2007", Some(Status::Regular)),
        ("k0", "extended-2007-osx", None),
        ("m0", "hex", None),
        ("x0", "any-thing", Some(Status::Regular)),
        ("z0", "hex", None),
    ] {
        let at = FieldKey::try_from_bytes(at.as_bytes()).expect(&rt, at);
        let pieces = Subtags::try_from_str(alloc, text).expect(&rt, text);
        assert!(rt; table.field(at, &pieces) == want, "{text}");
    }
}
