//! The lines of a text.
ghost use Rattle.std.specs.Prelude.{◌≡◌, ◌≢◌, ◌⊎◌, ◌++◌, ◌∷◌, [], true, false, List, ℕ};
ghost use Rattle.std.specs.List.{list_any, position};
ghost use Rattle.std.specs.Iterator.{YieldsFirstRef, item_count};
ghost use Rattle.icu_locale_lines.specs.Lines.{is_line_feed, lines, first_line, after_first_line, exceeds, AreWithin};
ghost use Rattle.icu_locale_lines.specs.Streams.{EndsLines};

use memchr::memchr;
use std::marker::Model;

// The lines that are left of a text.
#[derive(Drop)]
pub struct Lines<'a> {
    rest: &'a [u8],
}

impl<'a> Model for Lines<'a> {
    ghost Value = { List (List ℕ) };

    ghost view = { λ a. lines a.rest.now };
}

impl<'a> Lines<'a> {
    pub fn new(text: &'a [u8]) -> Self
        ensures { result ≡ lines text.now }
    {
        Lines { rest: text }
    }
}

impl<'a> Iterator for Lines<'a> {
    type Item = &'a [u8];

    ghost next_gives = { YieldsFirstRef (λ s. s) };

    ghost remaining = { item_count (λ s. s) };

    fn next(&mut self) -> Option<&'a [u8]> {
        if self.rest.is_empty() {
            return None;
        }
        let (line, rest) = cut(self.rest);
        self.rest = rest;
        Some(line)
    }
}

// The first line, and what follows its line feed.
pub fn cut(text: &[u8]) -> (&[u8], &[u8])
    ensures lines { text.now ≢ [] → lines text.now ≡ result.0.now ∷ lines result.1.now }
    ensures first { result.0.now ≡ first_line text.now }
    ensures rest { result.1.now ≡ after_first_line text.now }
{
    match line_feed(text) {
        Some(place) => {
            let (line, rest) = text.split_at(place);
            let (_, rest) = rest.split_at(1);
            (line, rest)
        }
        None => (text, &[]),
    }
}

// The first line with its line feed, and what follows that.
pub fn split_first_line(text: &[u8]) -> (&[u8], &[u8])
    ensures parted { text.now ≡ result.0.now ++ result.1.now }
    ensures rest { result.1.now ≡ after_first_line text.now }
    ensures whole { EndsLines text.now → EndsLines result.0.now × EndsLines result.1.now }
    ensures some { text.now ≢ [] → result.0.now ≢ [] }
{
    let (_, behind) = cut(text);
    text.split_at(text.len() - behind.len())
}

// Where the first line feed is.
#[tactic(auto, using(crate::proofs::LineCuts::position_from_first))]
fn line_feed(text: &[u8]) -> Option<usize>
    ensures { result ≡ position is_line_feed text.now }
{
    memchr(b'\n', text)
}

// A text up to its last line feed, and what follows that.
pub fn cut_behind_lines(text: &[u8]) -> (&[u8], &[u8])
    ensures parted { text.now ≡ result.0.now ++ result.1.now }
    ensures front { EndsLines result.0.now }
    ensures rest { list_any is_line_feed result.1.now ≡ false }
{
    let mut count = text.len();
    while count > 0 {
        if text[count - 1] == b'\n' {
            return text.split_at(count);
        }
        count -= 1;
    }
    (&[], text)
}

// A text of whole lines up to the first that is too long, and the rest.
pub fn cut_before_long(longest: Option<usize>, text: &[u8]) -> (&[u8], &[u8])
    requires { EndsLines text.now }
    ensures parted { text.now ≡ result.0.now ++ result.1.now }
    ensures front { EndsLines result.0.now × AreWithin longest result.0.now }
    ensures rest { (result.1.now ≡ []) ⊎ (exceeds longest (first_line result.1.now) ≡ true) }
{
    if longest.is_none() {
        return (text, &[]);
    }
    let mut rest = text;
    while !rest.is_empty() {
        let (line, behind) = cut(rest);
        if is_too_long(longest, line) {
            break;
        }
        rest = behind;
    }
    text.split_at(text.len() - rest.len())
}

// Whether a line has more bytes than a bound allows, where there is one.
pub fn is_too_long(longest: Option<usize>, line: &[u8]) -> bool
    ensures { result ≡ exceeds longest line.now }
{
    match longest {
        Some(longest) => longest < line.len(),
        None => false,
    }
}
