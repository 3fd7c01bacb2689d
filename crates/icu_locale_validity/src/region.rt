//! Whether a subdivision is one of a region.
ghost use Rattle.std.specs.Prelude.{◌≡◌, length, take};
ghost use Rattle.icu_locale_validity.specs.Parts.{begins_with, is_of_region};
ghost use Rattle.icu_locale_validity.specs.Places.{is_spelled};

use icu_locale_core::{Key, Region, Subtag, Value};

// Whether a keyword is of a region, if there is one: at `sd` its value begins with it.
pub fn is_of_region(region: &Option<Region>, row: &(Key, Value)) -> bool
    ensures { result ≡ is_of_region region.now row.now.0 row.now.1 }
{
    match region {
        Some(region) => {
            row.0 != Key::SUBDIVISION || begins_with(region.as_str().as_bytes(), row.1.as_slice())
        }
        None => true,
    }
}

fn begins_with(text: &[u8], value: &[Subtag]) -> bool
    ensures { result ≡ begins_with text.now value.now }
{
    match value.first() {
        Some(piece) => is_front(text, piece.as_str().as_bytes()),
        None => false,
    }
}

// Whether a text is the front of a piece, case aside.
fn is_front(text: &[u8], piece: &[u8]) -> bool
    ensures { result ≡ is_spelled (take (length text.now) piece.now) text.now }
{
    front(piece, text.len()).eq_ignore_ascii_case(text)
}

// The first bytes of a text, or all where it has no more.
fn front(text: &[u8], bytes: usize) -> &[u8]
    ensures { result.now ≡ take bytes text.now }
{
    if text.len() <= bytes {
        return text;
    }
    text.split_at(bytes).0
}
