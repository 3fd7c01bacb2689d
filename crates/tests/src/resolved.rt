//! What is served, with the reader's own region, variants and extensions.
use icu_locale_extensions::LocaleIdentifier;
use icu_locale_matching::bring_to_resolved;
use tests_shared::known::identifier;

// What is served, what was wanted, and what both are together: six rows by makeResolvedLocale of ICU4C 72, the seven of
// CLDR's suite of language matching, and two of Go's.
const ROWS: [(&str, &str, &str); 15] = [
    ("de", "de-CH-u-nu-latn", "de-CH-u-nu-latn"),
    ("en-GB", "en-AU-u-ca-buddhist", "en-AU-u-ca-buddhist"),
    ("zh-Hant", "zh-TW", "zh-Hant-TW"),
    ("de", "gsw-CH", "de-CH"),
    ("de-AT", "de", "de-AT"),
    ("ar-EG", "ar-SA-u-nu-latn", "ar-SA-u-nu-latn"),
    ("fr", "fr-BE-fonipa", "fr-BE-fonipa"),
    ("fr-CA", "fr-BE-fonipa", "fr-BE-fonipa"),
    ("fr-fonupa", "fr-BE-fonipa", "fr-BE-fonipa"),
    ("no", "nn-BE-fonipa", "no-BE-fonipa"),
    (
        "en-GB",
        "en-fonipa-u-nu-Arab-ca-buddhist-t-m0-iso-i0-pinyin",
        "en-GB-fonipa-u-nu-Arab-ca-buddhist-t-m0-iso-i0-pinyin",
    ),
    ("fr-CA-fonupa", "fr-BE-fonipa", "fr-BE-fonipa"),
    ("fr-Cyrl-CA-fonupa", "fr-BE-fonipa", "fr-Cyrl-BE-fonipa"),
    ("sl-nedis", "sl-u-cu-eur", "sl-nedis-u-cu-eur"),
    ("de", "de-t-m0-iso-i0-pinyin", "de-t-m0-iso-i0-pinyin"),
];

#[test]
fn resolves(rt: HostRuntime) {
    let alloc = rt.alloc();
    for (served, wanted, both) in &ROWS {
        let served = identifier(alloc, served).expect(&rt, served);
        let mut wanted = LocaleIdentifier::try_from_str(alloc, wanted).expect(&rt, wanted);
        let both = LocaleIdentifier::try_from_str(alloc, both).expect(&rt, both);
        let brought = bring_to_resolved(&served, &mut wanted);
        assert!(&rt; brought == Ok(()) && wanted == both);
    }
}
