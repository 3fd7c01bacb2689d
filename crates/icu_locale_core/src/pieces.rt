//! The pieces of a text, cut at every `-` and `_`.
ghost use Rattle.std.specs.Prelude.{◌≡◌, ◌∷◌, [], List, ℕ, IfSome, MatchOption};
ghost use Rattle.std.specs.Iterator.{YieldsFirstRef, item_count};
ghost use Rattle.std.specs.List.{after_first, position};
ghost use Rattle.icu_locale_core.specs.Identifier.{is_separator, pieces, pieces_if_any};
ghost use Rattle.icu_locale_core.specs.inner.Identifiers.{first_of};

use std::marker::Model;

/// The pieces that are left of a text, cut at every `-` and `_`. The first is found already, so that a look at it costs
/// nothing. It takes no memory.
#[derive(Debug, Drop)]
pub struct Pieces<'a> {
    first: Option<&'a [u8]>,
    rest: Option<&'a [u8]>,
}

impl<'a> Model for Pieces<'a> {
    ghost Value = { List (List ℕ) };

    ghost view = { λ a. first_of a.first (pieces_if_any a.rest) };
}

impl<'a> Pieces<'a> {
    /// All pieces of a text.
    #[inline(always)]
    pub fn new(text: &'a [u8]) -> Self
        ensures { result ≡ pieces text.now }
    {
        let (first, rest) = cut(text);
        Pieces {
            first: Some(first),
            rest,
        }
    }

    /// The next piece, if one is left.
    #[inline(always)]
    pub fn peek(&self) -> Option<&'a [u8]>
        ensures { MatchOption result (self.now ≡ [])
            (λ p. (ps : List (List ℕ)) × (self.now ≡ p.now ∷ ps)) }
    {
        self.first
    }

    /// The same pieces once more.
    #[inline(always)]
    pub fn duplicate(&self) -> Self
        ensures { result ≡ self.now }
    {
        Pieces {
            first: self.first,
            rest: self.rest,
        }
    }
}

impl<'a> Iterator for Pieces<'a> {
    type Item = &'a [u8];

    ghost next_gives = { YieldsFirstRef (λ s. s) };

    ghost remaining = { item_count (λ s. s) };

    #[inline(always)]
    fn next(&mut self) -> Option<&'a [u8]> {
        let first = self.first?;
        match self.rest {
            Some(text) => {
                let (second, rest) = cut(text);
                *self = Pieces {
                    first: Some(second),
                    rest,
                };
            }
            None => self.first = None,
        }
        Some(first)
    }
}

/// The first piece of a text, and what follows its separator, if it has one. It takes no memory.
#[inline(always)]
pub fn cut(text: &[u8]) -> (&[u8], Option<&[u8]>)
    ensures pieces { pieces text.now ≡ result.0.now ∷ pieces_if_any result.1 }
    ensures behind { IfSome result.1 (λ rest. rest.now ≡ after_first is_separator text.now) }
{
    match separator(text) {
        Some(place) => {
            let (first, rest) = text.split_at(place);
            let (_, rest) = rest.split_at(1);
            (first, Some(rest))
        }
        None => (text, None),
    }
}

// Where the first separator is. Most pieces are short, and each place of these is looked at without a loop.
#[inline(always)]
fn separator(text: &[u8]) -> Option<usize>
    ensures { result ≡ position is_separator text.now }
{
    match text {
        [a, b, rest @ ..] if !is_separator(a) && !is_separator(b) => match rest {
            [] => None,
            [c, ..] if is_separator(c) => Some(2),
            [_] => None,
            [_, d, ..] if is_separator(d) => Some(3),
            [_, _] => None,
            [_, _, e, ..] if is_separator(e) => Some(4),
            _ => text.iter().position(is_separator),
        },
        _ => text.iter().position(is_separator),
    }
}

#[inline(always)]
fn is_separator(byte: &u8) -> bool
    ensures { result ≡ is_separator byte.now }
{
    *byte == b'-' || *byte == b'_'
}
