//! What is told of locales, found by hand from CLDR's files of validity and of types and UTS #35 Part 1.
use crate::validity::{LISTED, listed, table};
use icu_locale_extensions::{LocaleIdentifier, Syntax};
use icu_locale_validity::Validity;
use std::alloc::Global;
use std::process::Abort;

// A syntax, a text, and what is told of it: each part that is not valid, with its first byte and the byte after it.
type Row = (Syntax, &'static str, &'static str);

const VALID: [&str; 17] = [
    "en-Latn-US",
    "und-Zzzz-ZZ",
    "mul-Zyyy-XA-1901-fonipa",
    "de-001",
    "qfz-Qaaq-XC",
    "en-u-kn",
    "en-u-kn-true-rg-gbzzzz",
    "ja-u-ca-islamic-civil-cu-xxx-dx-thai-kr-digit-latn",
    "en-t-ja-jpan-jp-d0-hex-m0-ungegn-2007",
    "en-t-x0-whatever",
    // private use
    "de-x-dd-heploc-1",
    "de-t-en-u-hc-h12-x-u-foo",
    // a subdivision is one of the region, where there is one
    "en-us-u-sd-ustx",
    "en-u-sd-gbeng",
    "de-t-en-us-u-sd-gbeng",
    "EN_us_u_KN",
    "und-x-iw",
];

#[test]
fn what_is_listed_is_valid(rt: HostRuntime) {
    let alloc = rt.alloc();
    let held = listed(&rt, alloc, LISTED);
    for text in VALID {
        is_told(
            &rt,
            alloc,
            table(&rt, &held),
            (Syntax::Unicode, text, "valid"),
        );
    }
}

const INVALID: [Row; 22] = [
    (
        Syntax::Unicode,
        "xx-latm-DD-1996-heploc",
        "language xx unlisted 0 2\tscript Latm unlisted 3 7\tregion DD deprecated 8 10\t\
        variant heploc deprecated 16 22",
    ),
    (
        Syntax::Unicode,
        "qaa-Qaab-aa",
        "language qaa reserved 0 3\tscript Qaab reserved 4 8\tregion AA reserved 9 11",
    ),
    // variants are told in their order, and their places are those of the text
    (
        Syntax::Unicode,
        "de-heploc-1994",
        "variant 1994 unlisted 10 14\tvariant heploc deprecated 3 9",
    ),
    // a part of the language of `t` is behind it, also where the same piece comes before
    (
        Syntax::Unicode,
        "IW-T-iw",
        "language iw deprecated 0 2\tlanguage iw deprecated 5 7",
    ),
    (
        Syntax::Unicode,
        "de-dd-t-de-dd",
        "region DD deprecated 3 5\tregion DD deprecated 11 13",
    ),
    (
        Syntax::Unicode,
        "de-DE-t-de-dd-m0-207",
        "region DD deprecated 11 13\tfield m0-207 unlisted 14 20",
    ),
    // `dd` is a language before it is a region
    (
        Syntax::Unicode,
        "dd-dd",
        "language dd unlisted 0 2\tregion DD deprecated 3 5",
    ),
    (
        Syntax::Unicode,
        "EN_us-U-CA-ISLAMICC",
        "keyword ca-islamicc deprecated 8 19",
    ),
    // `true` is left out of a keyword, and not of its place
    (Syntax::Unicode, "en-u-zz-true", "keyword zz unlisted 5 12"),
    (
        Syntax::Unicode,
        "en-u-kn-true-foo-t-de",
        "keyword kn-foo unlisted 5 16",
    ),
    (
        Syntax::Unicode,
        "en-t-de-m0-true-u-ca-true",
        "keyword ca unlisted 18 25\tfield m0-true unlisted 8 15",
    ),
    // a subdivision of another region, and one whose status is told in place of that
    (
        Syntax::Unicode,
        "en-US-u-rg-gbzzzz-sd-gbeng",
        "keyword sd-gbeng other_region 18 26",
    ),
    (
        Syntax::Unicode,
        "en-DE-u-sd-usvi",
        "keyword sd-usvi deprecated 8 15",
    ),
    (
        Syntax::Unicode,
        "foo-u-foo",
        "language foo unlisted 0 3\tattribute foo unlisted 6 9",
    ),
    // the pieces of a keyword are those behind `u`; other extensions are told last
    (
        Syntax::Unicode,
        "en-a-ca-u-ca-islamicc",
        "keyword ca-islamicc deprecated 10 21\textension a-ca unlisted 3 7",
    ),
    (
        Syntax::Unicode,
        "en-b-one-two-a-bcd-u-hc-h13-x-hc-h13",
        "keyword hc-h13 unlisted 21 27\t\
        extension a-bcd unlisted 13 18\textension b-one-two unlisted 3 12",
    ),
    // texts that stand for others: what is not there has all of the text
    (Syntax::Bcp47, "zh-cmn-dd", "region DD deprecated 7 9"),
    (
        Syntax::Bcp47,
        "art-lojban",
        "language art unlisted 0 3\tvariant lojban unlisted 4 10",
    ),
    (Syntax::Bcp47, "sgn-BE-FR", "language sfb unlisted 0 9"),
    (Syntax::Posix, "de_DD.UTF-8", "region DD deprecated 3 5"),
    (Syntax::Posix, "en_DD.x_dd", "region DD deprecated 3 5"),
    (
        Syntax::Posix,
        "sr_RS@cyrillic",
        "language sr unlisted 0 2\tscript Cyrl unlisted 0 14",
    ),
];

#[test]
fn what_is_not_valid_is_told(rt: HostRuntime) {
    let alloc = rt.alloc();
    let held = listed(&rt, alloc, LISTED);
    for row in INVALID {
        is_told(&rt, alloc, table(&rt, &held), row);
    }
    for text in ["i-klingon", "x-mine", "root", "zh-cmn-Hant-TW"] {
        let row = (Syntax::Bcp47, text, "valid");
        is_told(&rt, alloc, table(&rt, &held), row);
    }
}

// Over no codes even `und` is none.
#[test]
fn nothing_is_listed(rt: HostRuntime) {
    let alloc = rt.alloc();
    let table = Validity::new(alloc);
    for row in [
        (Syntax::Unicode, "en-x-mine", "language en unlisted 0 2"),
        (Syntax::Bcp47, "x-mine", "language und unlisted 0 6"),
        (
            Syntax::Unicode,
            "und-u-kn",
            "language und unlisted 0 3\tkeyword kn unlisted 6 8",
        ),
    ] {
        is_told(&rt, alloc, &table, row);
    }
}

// A report comes behind what is there.
#[test]
fn a_report_is_appended(rt: HostRuntime) {
    let alloc = rt.alloc();
    let table = Validity::new(alloc);
    let x = LocaleIdentifier::try_from_str(alloc, "en").expect(&rt, "en");
    let mut report = Vec::new(alloc);
    report.extend_from_slice(b"valid\n").expect(&rt, "memory");
    table
        .append_report("en".as_bytes(), &x, &mut report)
        .expect(&rt, "memory");
    assert!(rt; report.as_slice() == b"valid\nlanguage en unlisted 0 2".as_slice());
}

fn is_told(rt: &impl Abort, alloc: Global, table: &Validity, row: Row) {
    let (syntax, text, want) = row;
    let x = LocaleIdentifier::read(alloc, syntax, text.as_bytes()).expect(rt, text);
    let mut report = Vec::new(alloc);
    table
        .append_report(text.as_bytes(), &x, &mut report)
        .expect(rt, "memory");
    assert!(rt; report.as_slice() == want.as_bytes(), "{text}");
    assert!(rt; table.is_valid(&x) == (want == "valid"), "{text}");
}
