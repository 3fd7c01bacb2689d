//! Reading locale identifiers in each syntax, copying and writing them.
use crate::budget::{Answered, Call, asks_nothing, at_budget, stands, take_all};
use icu_locale_core::ParseError;
use icu_locale_extensions::{LocaleIdentifier, Syntax};
use icu_locale_places::{Fault, read_at};
use std::alloc::Global;

// Texts that keep something.
const KEPT: [(Syntax, &str); 9] = [
    (Syntax::Unicode, "de-1901-1996-fonipa-posix"),
    (Syntax::Unicode, "en-u-attr-other-co-phonebk-hc-h12"),
    (Syntax::Unicode, "en-a-bcd-t-ja-1996-m0-names-x-mine"),
    (Syntax::Bcp47, "zh-cmn-Hans-u-co-pinyin"),
    (Syntax::Bcp47, "x-mine-and-yours"),
    (Syntax::Bcp47, "root-u-cu-usd-x-mine"),
    (Syntax::Posix, "ca_ES.UTF-8@valencia"),
    (Syntax::Posix, "C"),
    (Syntax::Posix, "root@valencia"),
];

// Texts that keep nothing, and ask for no memory.
const NOTHING_KEPT: [(Syntax, &str); 8] = [
    (Syntax::Unicode, "de-Latn-DE"),
    (Syntax::Unicode, "en-t-ja-Jpan-JP"),
    (Syntax::Bcp47, "zh-cmn-Hans"),
    (Syntax::Bcp47, "i-klingon"),
    (Syntax::Bcp47, "root"),
    (Syntax::Posix, "sr_RS.UTF-8@latin"),
    (Syntax::Posix, "root"),
    (Syntax::Posix, "root@latin"),
];

// Reading a text in a syntax, and copying what was read.
#[derive(Drop)]
struct ReadAndCopy(Syntax, &'static str);

impl Call for ReadAndCopy {
    fn answer(&self, alloc: Global) -> Answered {
        match LocaleIdentifier::read(alloc, self.0, self.1.as_bytes()) {
            Ok(identifier) => copy(&identifier),
            Err(ParseError::Memory) => Answered::Refused,
            Err(_) => Answered::Wrong,
        }
    }
}

fn copy(identifier: &LocaleIdentifier) -> Answered {
    match identifier.try_clone() {
        Ok(copy) if copy == *identifier => Answered::Whole,
        Err(ParseError::Memory) => Answered::Refused,
        _ => Answered::Wrong,
    }
}

#[test]
fn locale_identifiers(rt: HostRuntime) {
    let alloc = rt.alloc();
    for (syntax, text) in KEPT {
        stands(&rt, alloc, &ReadAndCopy(syntax, text));
    }
    for (syntax, text) in NOTHING_KEPT {
        asks_nothing(&rt, alloc, &ReadAndCopy(syntax, text));
    }
}

// Telling where a text is wrong: at the wanted bytes.
#[derive(Drop)]
struct ReadAt(&'static str, usize, usize);

impl Call for ReadAt {
    fn answer(&self, alloc: Global) -> Answered {
        match read_at(alloc, self.0.as_bytes()) {
            Err(
                Fault::At {
                    refusal: _,
                    from,
                    to,
                },
            ) => is_wanted(from == self.1 && to == self.2),
            Err(Fault::Memory) => Answered::Refused,
            Ok(_) => Answered::Wrong,
        }
    }
}

fn is_wanted(wanted: bool) -> Answered {
    if wanted {
        Answered::Whole
    } else {
        Answered::Wrong
    }
}

#[test]
fn places(rt: HostRuntime) {
    let alloc = rt.alloc();
    stands(&rt, alloc, &ReadAt("de-1901-u-co-phonebk-u-nu", 21, 22));
    stands(&rt, alloc, &ReadAt("en-a-bcd-x", 10, 10));
    asks_nothing(&rt, alloc, &ReadAt("1en-US", 0, 3));
    // room is asked for once: for the text, and four bytes
    let answered = at_budget(alloc, &ReadAt("en-US-US", 6, 8), 16);
    assert!(rt; answered.expect(&rt, "memory") == Answered::Whole);
}

// Writing a locale identifier after a text, which stays as it was where memory was refused.
#[derive(Drop)]
struct Append(LocaleIdentifier);

impl Call for Append {
    fn answer(&self, alloc: Global) -> Answered {
        let mut text = Vec::new(alloc);
        match self.0.append_to(&mut text) {
            Ok(()) if text.as_slice() == "en-a-bcd-u-hc-h12-x-mine".as_bytes() => Answered::Whole,
            Err(ParseError::Memory) if text.is_empty() => Answered::Refused,
            _ => Answered::Wrong,
        }
    }
}

#[test]
fn written_locale_identifiers(rt: HostRuntime) {
    let alloc = rt.alloc();
    let identifier = LocaleIdentifier::try_from_str(alloc, "en-u-hc-h12-a-bcd-x-mine");
    let identifier = identifier.expect(&rt, "memory");
    stands(&rt, alloc, &Append(identifier));
}

// A form wants no memory but for the text.
#[test]
fn a_form_goes_into_room_that_is_there(rt: HostRuntime) {
    let alloc = rt.alloc();
    let identifier = LocaleIdentifier::try_from_str(alloc, "de-1901-u-hc-h12-a-bcd-x-mine");
    let identifier = identifier.expect(&rt, "memory");
    let mut text = Vec::with_capacity(alloc, 64).expect(&rt, "memory");
    let held = take_all(alloc).expect(&rt, "memory");
    let written = identifier.append_to(&mut text);
    drop(held);
    assert!(rt; written.is_ok());
    assert!(rt; text.as_slice() == "de-1901-a-bcd-u-hc-h12-x-mine".as_bytes());
}
