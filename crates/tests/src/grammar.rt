//! Texts that the grammar of UTS #35 derives, and texts that it does not, where reading takes memory.
use icu_locale_core::ParseError;
use icu_locale_extensions::{Subtags, is_locale_id};
use std::alloc::Global;
use std::process::Abort;

#[test]
fn texts_follow_the_grammar(rt: HostRuntime) {
    for text in [
        "de-1996-u-attr-co-phonebk",
        "en-t-ja-m0-ungegn-x-a",
        "EN_a_ab_u_kn",
    ] {
        let told = is_locale_id(rt.alloc(), text).expect(&rt, "memory");
        assert!(rt; told, "{text}");
    }
}

#[test]
fn texts_do_not_follow_the_grammar(rt: HostRuntime) {
    for text in [
        "en-t-d0",
        "en-u-co-12",
        "en-u-ca-u-nu",
        "de-1996-1996",
        "en-x",
    ] {
        let told = is_locale_id(rt.alloc(), text).expect(&rt, "memory");
        assert!(rt; !told, "{text}");
    }
}

// What is refused of the pieces of an extension, which have at least two letters or digits.
fn refused_pieces(alloc: Global, text: &str) -> [Option<ParseError>; 2] {
    let of_text: Result<Subtags<2>, ParseError> = Subtags::try_from_str(alloc, text);
    let of_bytes: Result<Subtags<2>, ParseError> = Subtags::try_from_utf8(alloc, text.as_bytes());
    [of_text.err(), of_bytes.err()]
}

#[test]
fn pieces_have_two_to_eight_letters_or_digits(rt: HostRuntime) {
    for text in ["ab", "ab-cd", "a1-abcdefgh", "12345678"] {
        assert!(rt; refused_pieces(rt.alloc(), text) == [None; 2], "{text}");
    }
    for text in [
        "a",
        "ab-c",
        "abcdefghi",
        "ab-",
        "ab--cd",
        "-ab",
        "ab-\u{fc}b",
    ] {
        let wanted = [Some(ParseError::InvalidSubtag); 2];
        assert!(rt; refused_pieces(rt.alloc(), text) == wanted, "{text}");
    }
}
