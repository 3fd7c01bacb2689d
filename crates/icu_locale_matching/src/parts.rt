//! Parts of texts.
ghost use Rattle.std.specs.Prelude.{◌≡◌, ◌==◌, ◌<◌, ◌∷◌, length, IfSome};
ghost use Rattle.std.specs.List.{slice_split, before_first, after_first, position};
ghost use Rattle.icu_locale_matching.specs.Header.{is_space, trim, trim_start, trim_end};
ghost use Rattle.icu_locale_matching.specs.inner.Parts.{parts_if_any};

// Where a byte comes first.
fn place_of(text: &[u8], byte: u8) -> Option<usize>
    ensures { result ≡ position (λ b. b == byte) text.now }
{
    text.iter().position(|b| *b == byte)
}

// What is before the first such byte, and what after it.
pub(crate) fn halves(text: &[u8], byte: u8) -> (&[u8], &[u8])
    ensures before { result.0.now ≡ before_first (λ b. b == byte) text.now }
    ensures behind { result.1.now ≡ after_first (λ b. b == byte) text.now }
{
    match place_of(text, byte) {
        Some(place) => {
            let (first, rest) = text.split_at(place);
            let (_, rest) = rest.split_at(1);
            (first, rest)
        }
        None => (text, &[]),
    }
}

// The first part of a text that is cut at each such byte, and what is left.
pub(crate) fn cut(text: &[u8], byte: u8) -> (&[u8], Option<&[u8]>)
    ensures parts { slice_split (λ b. b == byte) text.now
        ≡ result.0.now ∷ parts_if_any byte result.1 }
    ensures shorter { IfSome result.1 (λ rest. length rest.now < length text.now) }
{
    match place_of(text, byte) {
        Some(place) => {
            let (first, rest) = text.split_at(place);
            let (_, rest) = rest.split_at(1);
            (first, Some(rest))
        }
        None => (text, None),
    }
}

// A text without white space round it.
pub(crate) fn trimmed(text: &[u8]) -> &[u8]
    ensures { result.now ≡ trim text.now }
{
    end_trimmed(start_trimmed(text))
}

fn start_trimmed(text: &[u8]) -> &[u8]
    ensures { result.now ≡ trim_start text.now }
{
    let mut left = text;
    while let [first, rest @ ..] = left {
        if !is_space(*first) {
            return left;
        }
        left = rest;
    }
    left
}

fn end_trimmed(text: &[u8]) -> &[u8]
    ensures { result.now ≡ trim_end text.now }
{
    let mut left = text;
    while let [rest @ .., last] = left {
        if !is_space(*last) {
            return left;
        }
        left = rest;
    }
    left
}

fn is_space(byte: u8) -> bool
    ensures { result ≡ is_space byte }
{
    byte == b' ' || byte == b'\t'
}
