//! Where texts are wrong, found by hand from the grammar of UTS #35 Part 1, section 3.2.
use icu_locale_core::ParseError;
use icu_locale_extensions::LocaleIdentifier;
use icu_locale_places::{Fault, read_at};
use std::alloc::Global;
use std::process::Abort;

#[test]
fn no_language_comes_first(rt: HostRuntime) {
    for (text, from, to) in [
        ("", 0, 0),
        ("-", 0, 0),
        ("-en", 0, 0),
        ("x", 0, 1),
        ("e", 0, 1),
        ("e1-US", 0, 2),
        ("Latn-en", 0, 4),
        ("x-whatever", 0, 1),
    ] {
        let refusal = ParseError::InvalidLanguage;
        let told = told(rt.alloc(), text);
        assert!(rt; told == Some(Fault::At { refusal, from, to }), "{text}");
    }
}

#[test]
fn a_piece_cannot_come_there(rt: HostRuntime) {
    for (text, from, to) in [
        // Five letters and digits are a variant, and no region follows one.
        ("en-Latm1-US", 9, 11),
        ("en-Lat-US", 3, 6),
        ("en-US-Latn", 6, 10),
        ("en-\u{fc}", 3, 5),
        ("en-", 3, 3),
        ("en--US", 3, 3),
        ("EN_us_US", 6, 8),
        ("de-1996-1996", 8, 12),
        ("en-u-ca-buddhist-u-nu", 17, 18),
        ("en-u-co-12", 8, 10),
        ("en-u-t-de", 5, 6),
        ("en-u-ca-u-nu-x", 8, 9),
        ("en-t-de-1996-1996", 13, 17),
        ("en-t-u-nu", 5, 6),
        ("en-t-x0-u-nu", 8, 9),
        ("en-t-12", 5, 7),
        ("en-a-a", 5, 6),
        ("en-a-bc-A-de", 8, 9),
        ("en-x-abcdefghi-u", 5, 14),
        ("en-x-u-", 7, 7),
    ] {
        assert!(rt; told(rt.alloc(), text) == subtag(from, to), "{text}");
    }
}

#[test]
fn something_must_follow(rt: HostRuntime) {
    for (text, end) in [
        ("en-u", 4),
        ("en-t", 4),
        ("en-x", 4),
        ("en-a", 4),
        ("en-t-d0", 7),
        ("en-t-de-d0", 10),
        ("en-u-nu-latn-t-m0", 17),
    ] {
        assert!(rt; told(rt.alloc(), text) == subtag(end, end), "{text}");
    }
}

// A thousand variants, of which the last comes twice.
#[test]
fn the_last_of_many_pieces(rt: HostRuntime) {
    let mut text = String::from_str(rt.alloc(), "en").expect(&rt, "memory");
    for number in 1_000u16..2_000 {
        write!(text, "-{number}").expect(&rt, "memory");
    }
    text.push_str("-1999-US").expect(&rt, "memory");
    assert!(rt; told(rt.alloc(), text.as_str()) == subtag(5_003, 5_007));
}

#[test]
fn what_is_read_is_as_the_reader_has_it(rt: HostRuntime) {
    for text in ["en", "zh-Hant-TW", "en-a-bc-t-de-d0-abc-u-attr-ca-x-y"] {
        let read = LocaleIdentifier::try_from_str(rt.alloc(), text).expect(&rt, "memory");
        assert!(rt;
            read_at(rt.alloc(), text.as_bytes()).ok() == Some(read),
            "{text}"
        );
    }
}

fn told(alloc: Global, text: &str) -> Option<Fault> {
    read_at(alloc, text.as_bytes()).err()
}

fn subtag(from: usize, to: usize) -> Option<Fault> {
    let refusal = ParseError::InvalidSubtag;
    Some(Fault::At { refusal, from, to })
}

#[test]
fn faults_display_the_reason_and_the_bytes(rt: HostRuntime) {
    let wrong = Fault::At {
        refusal: ParseError::InvalidSubtag,
        from: 3,
        to: 5,
    };
    for (fault, wanted) in [(wrong, "InvalidSubtag at 3..5"), (Fault::Memory, "Memory")] {
        let text = format!(in rt.alloc(); "{fault}").expect(&rt, "memory");
        assert!(rt; text.as_str() == wanted);
    }
}
