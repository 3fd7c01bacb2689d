//! What is told of locales that are not valid.
use crate::budget::{Answered, Call, asks_nothing, stands};
use icu_locale_core::ParseError;
use icu_locale_extensions::LocaleIdentifier;
use icu_locale_validity::Validity;
use icu_tables::Supplement;
use std::alloc::Global;
use std::process::Abort;
use tests_shared::values::whole_identifier;

const LISTED: &str = "{\"validity\":{\"language\":{\"regular\":\"en\",\"deprecated\":\"iw\"},\
    \"keywords\":{\"ca\":{\"types\":{\"regular\":\"islamic-civil\"}},\
    \"kr\":{\"types\":{\"regular\":\"digit punct\"},\"many\":true}}}}";

// A valid locale, and one of which each kind of part but the script is not.
const VALID: &str = "en-u-ca-islamic-civil-kr-digit-punct-x-mine";

const INVALID: &str = "xx-DD-1996-u-foo-ca-islamic-rgsa-t-iw-m0-ungegn-2007-a-bc";

const FAULTS: &str =
    "language xx unlisted 0 2\tregion DD unlisted 3 5\tvariant 1996 unlisted 6 10\t\
    attribute foo unlisted 13 16\tkeyword ca-islamic-rgsa unlisted 17 32\tlanguage iw deprecated 35 37\t\
    field m0-ungegn-2007 unlisted 38 52\textension a-bc unlisted 53 57";

// Telling of a locale behind a line, which alone is left where memory was refused.
#[derive(Drop)]
struct AppendReport<'d> {
    table: &'d Validity,
    text: &'d str,
    subject: &'d LocaleIdentifier,
    wanted: &'d str,
}

const BEFORE: &[u8] = b"before\n";

impl Call for AppendReport<'_> {
    fn answer(&self, alloc: Global) -> Answered {
        let mut report = Vec::new(alloc);
        if report.extend_from_slice(BEFORE).is_err() {
            return Answered::Refused;
        }
        match self
            .table
            .append_report(self.text.as_bytes(), self.subject, &mut report)
        {
            Ok(()) => is_wanted(self.wanted.as_bytes(), report.as_slice()),
            Err(ParseError::Memory) if report.as_slice() == BEFORE => Answered::Refused,
            Err(_) => Answered::Wrong,
        }
    }
}

fn is_wanted(wanted: &[u8], report: &[u8]) -> Answered {
    match report.strip_prefix(BEFORE) {
        Some(told) if told == wanted => Answered::Whole,
        _ => Answered::Wrong,
    }
}

// Asking alone takes no memory.
#[derive(Drop)]
struct IsValid<'d>(&'d Validity, &'d LocaleIdentifier, bool);

impl Call for IsValid<'_> {
    fn answer(&self, _alloc: Global) -> Answered {
        if self.0.is_valid(self.1) == self.2 {
            Answered::Whole
        } else {
            Answered::Wrong
        }
    }
}

#[test]
fn reports(rt: HostRuntime) {
    let alloc = rt.alloc();
    let held = Supplement::from_json(alloc, LISTED.as_bytes()).expect(&rt, "a supplement");
    let table = held.validity.as_ref().expect(&rt, "a table");
    for (text, wanted) in [(VALID, "valid"), (INVALID, FAULTS)] {
        one_report(&rt, alloc, table, (text, wanted));
    }
}

fn one_report(rt: &impl Abort, alloc: Global, table: &Validity, (text, wanted): (&str, &str)) {
    let subject = whole_identifier(alloc, text).expect(rt, text);
    let call = AppendReport {
        table,
        text,
        subject: &subject,
        wanted,
    };
    assert!(rt; call.answer(alloc) == Answered::Whole, "{text}");
    stands(rt, alloc, &call);
    asks_nothing(rt, alloc, &IsValid(table, &subject, wanted == "valid"));
}
