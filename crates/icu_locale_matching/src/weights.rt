//! Weights, in thousandths.
ghost use Rattle.std.specs.Prelude.{◌≡◌, ◌≤◌, true};
ghost use Rattle.std.specs.Char.{is_ascii_digit};
ghost use Rattle.std.specs.List.{list_all};
ghost use Rattle.icu_locale_matching.specs.Weights.{are_digits, thousandths, digit, weight_of, qvalue};

use crate::parts::halves;

// The weight of a text, if it is one.
pub(crate) fn qvalue(text: &[u8]) -> Option<u16>
    ensures { result ≡ qvalue text.now }
{
    let (whole, digits) = halves(text, b'.');
    weight_of(whole, digits)
}

// The weight of what is before a point and after it.
fn weight_of(whole: &[u8], digits: &[u8]) -> Option<u16>
    ensures { result ≡ weight_of whole.now digits.now }
{
    if !are_digits(digits) {
        return None;
    }
    let behind = thousandths(digits);
    if whole == b"1".as_slice() {
        return if behind == 0 { Some(1000) } else { None };
    }
    if whole == b"0".as_slice() || (whole.is_empty() && digits.len() >= 1) {
        Some(behind)
    } else {
        None
    }
}

// Whether a text is up to three digits.
fn are_digits(text: &[u8]) -> bool
    ensures { result ≡ are_digits text.now }
{
    text.len() <= 3 && all_digits(text)
}

fn all_digits(text: &[u8]) -> bool
    ensures { result ≡ list_all is_ascii_digit text.now }
{
    text.iter().all(|b| b.is_ascii_digit())
}

// The digits after a point, in thousandths.
fn thousandths(digits: &[u8]) -> u16
    requires { are_digits digits.now ≡ true }
    ensures { result ≡ thousandths digits.now }
{
    100 * digit(digits, 0) + 10 * digit(digits, 1) + digit(digits, 2)
}

// A digit as a number, and 0 past the end.
fn digit(digits: &[u8], place: usize) -> u16
    requires { are_digits digits.now ≡ true }
    ensures value { result ≡ digit digits.now place }
    ensures small { result ≤ 9 }
{
    match digits.get(place) {
        Some(byte) => u16::from(*byte - b'0'),
        None => 0,
    }
}
