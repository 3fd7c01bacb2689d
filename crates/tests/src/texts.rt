//! Texts that are too long for a row.
use icu_locale_core::LanguageIdentifier;
use icu_locale_extensions::LocaleIdentifier;
use std::alloc::Global;
use std::process::Abort;
use tests_shared::known::text;

// A text with the subtags from 0000 up, or from 9999 down, after its front.
fn with_numbers(rt: &impl Abort, alloc: Global, front: &str, falls: bool) -> String {
    let mut text = text(alloc, &front).expect(rt, "text");
    for number in 0u16..10_000 {
        let variant = if falls { 9_999 - number } else { number };
        write!(text, "-{variant:04}").expect(rt, "memory");
    }
    text
}

#[test]
fn ten_thousand_variants(rt: HostRuntime) {
    let alloc = rt.alloc();
    let falling = with_numbers(&rt, alloc, "en", true);
    let identifier = LanguageIdentifier::try_from_str(alloc, falling.as_str());
    let identifier = identifier.expect(&rt, "an identifier");
    assert!(rt; identifier.variants.len() == 10_000);
    let written = text(alloc, &identifier).expect(&rt, "text");
    assert!(rt; written == with_numbers(&rt, alloc, "en", false));
    assert!(rt; identifier.try_clone().expect(&rt, "memory") == identifier);
}

#[test]
fn ten_thousand_attributes(rt: HostRuntime) {
    let alloc = rt.alloc();
    let falling = with_numbers(&rt, alloc, "en-u", true);
    let identifier = LocaleIdentifier::try_from_str(alloc, falling.as_str());
    let identifier = identifier.expect(&rt, "an identifier");
    let written = text(alloc, &identifier).expect(&rt, "text");
    assert!(rt; written == with_numbers(&rt, alloc, "en-u", false));
    assert!(rt; identifier.try_clone().expect(&rt, "memory") == identifier);
}

// Extensions of ten thousand pieces: one keyword, and private use.
#[test]
fn ten_thousand_pieces(rt: HostRuntime) {
    let alloc = rt.alloc();
    for front in ["en-u-ca", "en-x"] {
        let numbers = with_numbers(&rt, alloc, front, false);
        let identifier = LocaleIdentifier::try_from_str(alloc, numbers.as_str());
        let identifier = identifier.expect(&rt, "an identifier");
        assert!(rt; text(alloc, &identifier).expect(&rt, "text") == numbers);
    }
}
