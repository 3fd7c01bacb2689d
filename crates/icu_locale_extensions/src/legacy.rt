//! The legacy tags of BCP 47, by their first pieces.
ghost use Rattle.std.specs.Prelude.{◌≡◌, ◌∷◌};
ghost use Rattle.std.specs.Option.{option_copied};
ghost use Rattle.icu_locale_core.specs.Identifier.{pieces, pieces_if_any};
ghost use Rattle.icu_locale_extensions.specs.Syntaxes.{preferred, same_pieces, value_of};
ghost use Rattle.icu_locale_extensions.specs.inner.Tables.{rows_of};

use crate::cuts::{is_named, is_spelled};
use crate::texts::spelled;

// What follows the first piece of each legacy tag, and the value preferred to the tag.
static BEHIND_I: [(&str, &str); 13] = [
    ("ami", "ami"),
    ("bnn", "bnn"),
    ("default", "en-x-i-default"),
    ("enochian", "und-x-i-enochian"),
    ("hak", "hak"),
    ("klingon", "tlh"),
    ("lux", "lb"),
    ("mingo", "see-x-i-mingo"),
    ("navajo", "nv"),
    ("pwn", "pwn"),
    ("tao", "tao"),
    ("tay", "tay"),
    ("tsu", "tsu"),
];

static BEHIND_EN: [(&str, &str); 1] = [("GB-oed", "en-GB-oxendict")];

static BEHIND_SGN: [(&str, &str); 3] = [("BE-FR", "sfb"), ("BE-NL", "vgt"), ("CH-DE", "sgg")];

static BEHIND_NO: [(&str, &str); 2] = [("bok", "nb"), ("nyn", "nn")];

static BEHIND_ZH: [(&str, &str); 2] = [("min", "nan-x-zh-min"), ("min-nan", "nan")];

// The value preferred to a legacy tag, by its first piece and what follows that.
pub fn preferred(first: &[u8], behind: Option<&[u8]>) -> Option<&'static str>
    ensures { option_copied result ≡ preferred (first.now ∷ pieces_if_any behind.entry) }
{
    let Some(behind) = behind else {
        return None;
    };
    if is_named(first, b'i') {
        return value_of(&BEHIND_I, behind);
    }
    if is_spelled(first, b"en") {
        return value_of(&BEHIND_EN, behind);
    }
    if is_spelled(first, b"sgn") {
        return value_of(&BEHIND_SGN, behind);
    }
    if is_spelled(first, b"no") {
        return value_of(&BEHIND_NO, behind);
    }
    if is_spelled(first, b"zh") {
        return value_of(&BEHIND_ZH, behind);
    }
    None
}

// The value of the first row whose text has the same pieces.
fn value_of(rows: &[(&'static str, &'static str)], text: &[u8]) -> Option<&'static str>
    ensures { option_copied result ≡ value_of (rows_of rows.now) (pieces text.now) }
{
    for (tag, value) in rows {
        if have_same_pieces(text, tag.as_bytes()) {
            return Some(*value);
        }
    }
    None
}

// Whether two texts have the same pieces, case aside.
fn have_same_pieces(text: &[u8], other: &[u8]) -> bool
    ensures { result ≡ same_pieces (pieces text.now) (pieces other.now) }
{
    if text.len() != other.len() {
        return false;
    }
    for i in 0..text.len() {
        if spelled(text[i]) != spelled(other[i]) {
            return false;
        }
    }
    true
}
