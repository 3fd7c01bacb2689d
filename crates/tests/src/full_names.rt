//! Names of locale identifiers, with what their extensions say.
use icu_locale_extensions::LocaleIdentifier;
use icu_locale_full_names::LocaleDisplayName;
use icu_locale_names::{LanguageIdentifierDisplayNameOptions, NameChain, NameWriteError};
use icu_provider::{DataError, DataErrorKind, DataProvider, ExtensionNames, NameKey};
use icu_tables::{Supplement, Tables};
use std::alloc::Global;
use std::process::Abort;
use tests_shared::fakes::HeldWriter;
use tests_shared::known::{english, language, sample};
use tests_shared::names::called;
use tests_shared::refusing::{refusal, willing};
use tests_shared::values::whole_identifier;

// Texts, what each is called, and where raw parts are in that. The first are of CLDR's own suite.
static NAMES: [(&str, &str, &[(usize, usize)]); 18] = [
    (
        "en-u-nu-thai-ca-islamic-civil",
        "English (Islamic Calendar [tabular, civil epoch], Thai Digits)",
        &[],
    ),
    ("en-u-cu-eur", "English (Currency: €)", &[]),
    ("en-u-cu-twd", "English (Currency: 新台币［圆］)", &[]),
    ("en-u-cu-xxa", "English (Currency: ＡＢ)", &[]),
    ("en", "English", &[]),
    ("it-Latn", "Italian (Latin)", &[]),
    ("it-t-en", "Italian (Transform: English)", &[]),
    ("it-t-en-h0-hybrid", "Italian (Hybrid: English)", &[]),
    ("it-t-h0-hybrid", "Italian", &[]),
    ("it-t-en-latn", "Italian (Transform: English [Latin])", &[]),
    (
        "it-t-en-u-ca-buddhist",
        "Italian (Transform: English, Buddhist Calendar)",
        &[],
    ),
    ("it-u-kn", "Italian (Sort Digits Numerically)", &[]),
    (
        "it-u-kk-kr",
        "Italian (kk: true, Script/Block Reordering: true)",
        &[(9, 11), (13, 17), (44, 48)],
    ),
    (
        "it-u-kr-latn-digit-zzz",
        "Italian (Script/Block Reordering: Latin, Digits, zzz)",
        &[(49, 52)],
    ),
    (
        "it-u-abc-ca-coptic-chinese",
        "Italian (abc, ca: coptic-chinese)",
        &[(9, 12), (14, 16), (18, 32)],
    ),
    (
        "it-a-bcd-z-yyy-x-mine",
        "Italian (a: bcd, x: mine, z: yyy)",
        &[(9, 10), (12, 15), (17, 18), (20, 24), (26, 27), (29, 32)],
    ),
    ("qaa-u-ca-buddhist", "qaa (Buddhist Calendar)", &[(0, 3)]),
    (
        "it-Latn-u-ca-buddhist",
        "Italian (Latin, Buddhist Calendar)",
        &[],
    ),
];

pub fn name_of<P: DataProvider>(
    rt: &impl Abort,
    alloc: Global,
    provider: &P,
    names: &ExtensionNames,
    subject: &LocaleIdentifier,
) -> Result<LocaleDisplayName, DataError> {
    LocaleDisplayName::try_new_unstable(
        alloc,
        provider,
        names,
        NameChain::Light,
        english().expect(rt, "english"),
        subject,
        LanguageIdentifierDisplayNameOptions::default(),
    )
}

fn is_called(
    rt: &impl Abort,
    alloc: Global,
    tables: &Tables,
    names: &ExtensionNames,
    row: (&str, &str, &[(usize, usize)]),
) {
    let (text, wanted, spans) = row;
    let subject = whole_identifier(alloc, text).expect(rt, "whole identifier");
    let name = name_of(rt, alloc, tables, names, &subject).expect(rt, text);
    assert!(rt; name.as_str() == wanted);
    assert!(rt; name.raw_spans() == spans);
    let shown = format!(in alloc; "{name}").expect(rt, "memory");
    assert!(rt; shown.as_str() == wanted);
    let mut written: Vec<u8> = Vec::new(alloc);
    let mut parts = Vec::new(alloc);
    let report = name
        .try_write_to_parts(&mut written, &mut parts)
        .expect(rt, "memory");
    assert!(rt; report.is_err() == !spans.is_empty());
    assert!(rt; parts.as_slice() == spans);
    let is_raw = name.append_to(&mut written).expect(rt, "memory");
    assert!(rt; is_raw == !spans.is_empty());
    let (front, back) = written.as_slice().split_at(written.len() / 2);
    assert!(rt; front == wanted.as_bytes());
    assert!(rt; back == wanted.as_bytes());
}

#[test]
fn extensions_are_named(rt: HostRuntime) {
    let alloc = rt.alloc();
    let tables = sample(alloc).expect(&rt, "sample");
    let supplement = called(alloc).expect(&rt, "called");
    let names = supplement
        .extension_names
        .get(&english().expect(&rt, "english").locale)
        .expect(&rt, "English");
    for row in &NAMES {
        is_called(&rt, alloc, &tables, names, *row);
    }
}

// A name that is written to sinks of every length but its own.
fn failed_writes(rt: &impl Abort, alloc: Global, name: &LocaleDisplayName, text: &[u8]) {
    for room in 0..text.len() {
        let mut sink = HeldWriter::new(room);
        let mut parts = Vec::new(alloc);
        parts.push((1, 2)).expect(rt, "memory");
        let written = name.try_write_to_parts(&mut sink, &mut parts);
        assert!(rt; written.err() == Some(NameWriteError::Sink));
        assert!(rt; sink.written() == &text[..room]);
        assert!(rt; parts.as_slice() == [(1, 2)].as_slice());
    }
}

#[test]
fn writes_that_fail(rt: HostRuntime) {
    let alloc = rt.alloc();
    let tables = sample(alloc).expect(&rt, "sample");
    let supplement = called(alloc).expect(&rt, "called");
    let names = supplement
        .extension_names
        .get(&english().expect(&rt, "english").locale)
        .expect(&rt, "English");
    for row in &NAMES {
        let (text, wanted, _) = *row;
        let subject = whole_identifier(alloc, text).expect(&rt, "whole identifier");
        let name = name_of(&rt, alloc, &tables, names, &subject).expect(&rt, "a name");
        failed_writes(&rt, alloc, &name, wanted.as_bytes());
    }
}

// The name of `en` is refused: of an identifier, and of the language of `t`.
#[test]
fn a_refused_name_of_a_language(rt: HostRuntime) {
    let alloc = rt.alloc();
    let tables = sample(alloc).expect(&rt, "sample");
    let supplement = called(alloc).expect(&rt, "called");
    let names = supplement
        .extension_names
        .get(&english().expect(&rt, "english").locale)
        .expect(&rt, "English");
    let en = language("en").expect(&rt, "language");
    let mut provider = willing(&tables);
    provider.names = refusal(DataErrorKind::Custom);
    provider.names_of = Some(NameKey::Language(en, None, None));
    for text in ["en-u-ca-buddhist", "it-t-en"] {
        let subject = whole_identifier(alloc, text).expect(&rt, "whole identifier");
        let refused = name_of(&rt, alloc, &provider, names, &subject).err();
        assert!(rt; refused == refusal(DataErrorKind::Custom));
    }
}

// A name of many keywords is as long as they say.
#[test]
fn many_extensions_are_named(rt: HostRuntime) {
    let alloc = rt.alloc();
    let tables = sample(alloc).expect(&rt, "sample");
    let supplement = called(alloc).expect(&rt, "called");
    let names = supplement
        .extension_names
        .get(&english().expect(&rt, "english").locale)
        .expect(&rt, "English");
    let mut text = String::from_str(alloc, "it-u").expect(&rt, "memory");
    for first in 'a'..='z' {
        for second in 'a'..='z' {
            text.push_str("-").expect(&rt, "memory");
            text.push(first).expect(&rt, "memory");
            text.push(second).expect(&rt, "memory");
            text.push_str("-value").expect(&rt, "memory");
        }
    }
    let subject = whole_identifier(alloc, text.as_str()).expect(&rt, "whole identifier");
    let name = name_of(&rt, alloc, &tables, names, &subject).expect(&rt, "a name");
    assert!(&rt; name.raw_spans().len() > 1_300);
}
