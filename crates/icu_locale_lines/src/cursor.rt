//! Words, one after the other.
ghost use Rattle.std.specs.Prelude.{◌≡◌, ◌∷◌, ◌++◌, [], List, ℕ, MatchOption, map};
ghost use Rattle.std.specs.List.{slice_split};
ghost use Rattle.std.specs.String.{string_bytes};
ghost use Rattle.icu_locale_lines.specs.Grammar.{word_next};
ghost use Rattle.icu_locale_lines.specs.Lists.{is_space};
ghost use Rattle.icu_locale_lines.specs.inner.Words.{words_of};

use crate::command::is_word;
use std::marker::Model;

/// The words that are left: those of a text, cut at each space, and then those of a list. It takes no memory.
#[derive(Debug, Drop)]
pub struct Words<'a> {
    text: Option<&'a str>,
    list: &'a [String],
}

impl<'a> Model for Words<'a> {
    ghost Value = { List (List ℕ) };

    ghost view = { λ a. words_of a.text ++ map string_bytes a.list.now };
}

impl<'a> Words<'a> {
    /// The words of a list.
    pub fn new(list: &'a [String]) -> Self
        ensures { result ≡ map string_bytes list.now }
    {
        Words { text: None, list }
    }

    /// The words of a text, cut at each space.
    pub fn cut(text: &'a str) -> Self
        ensures { result ≡ slice_split is_space text.now }
    {
        Words {
            text: Some(text),
            list: &[],
        }
    }

    /// The next word, if one is left.
    pub fn take(&mut self) -> Option<&'a str>
        ensures { MatchOption result (self.old ≡ [])
            (λ word. self.old ≡ word.now ∷ self.new) }
    {
        if let Some(text) = self.text {
            let (word, rest) = cut(text);
            self.text = rest;
            return Some(word);
        }
        let (word, rest) = self.list.split_first()?;
        self.list = rest;
        Some(word.as_str())
    }

    /// Takes the next word where it is this one, and tells whether it was.
    pub fn take_if(&mut self, name: &str) -> bool
        ensures { word_next name.now self.old ≡ (result, self.new) }
    {
        let mut rest = Words {
            text: self.text,
            list: self.list,
        };
        match rest.take() {
            Some(word) if is_word(word.as_bytes(), name) => {
                *self = rest;
                true
            }
            _ => false,
        }
    }
}

// A text up to its first space, and what follows that, if there is one.
fn cut(text: &str) -> (&str, Option<&str>)
    ensures { slice_split is_space text.now ≡ result.0.now ∷ words_of result.1 }
{
    match text.split_once(' ') {
        Some((word, rest)) => (word, Some(rest)),
        None => (text, None),
    }
}
