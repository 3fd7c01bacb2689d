//! Sets of exemplar characters: which characters a language is written with.
ghost use Rattle.std.specs.Prelude.{◌≡◌, ◌↔◌, map, IsOk, IfOk, IfErr, string_bytes};
ghost use Rattle.std.specs.Str.{chars};
ghost use Rattle.icu_locale_core.specs.TextSet.{from_list};
ghost use Rattle.icu_provider.specs.InversionList.{IsInversionList, has_character};
ghost use Rattle.icu_provider.specs.Exemplars.{has_text, only_item};
ghost use Rattle.icu_provider.specs.declared.error.DataErrorKind.TheVariants.{InvalidRequest};

mod ranges;
mod strings;

use crate::DataError;
pub use ranges::CharacterRanges;
pub use strings::ExemplarStrings;

/// A kind of exemplar sets (UTS #35 Part 2, "Exemplars").
#[derive(Clone, Copy, Debug, PartialEq, Eq, PartialOrd, Ord)]
pub enum ExemplarMarker {
    /// The characters that the language is commonly written with.
    Main,
    /// Further characters, as of foreign words.
    Auxiliary,
    /// Punctuation.
    Punctuation,
    /// The characters of numbers.
    Numbers,
    /// The headings of an index.
    Index,
}

/// The exemplar characters of a language (UTS #35 Part 2, "Exemplars"): characters, and texts of several characters.
/// No call here takes memory.
#[derive(Debug)]
pub struct ExemplarCharactersData {
    /// The characters.
    pub ranges: CharacterRanges,
    /// The texts.
    pub strings: ExemplarStrings,
}

impl Drop for ExemplarCharactersData {
    fn drop(self) {
        let ExemplarCharactersData {
            ranges: _,
            strings: _,
        } = self;
    }
}

impl ExemplarCharactersData {
    /// The characters of an inversion list, and a set of texts of any content.
    ///
    /// # Errors
    ///
    /// `InvalidRequest` exactly where the list is no inversion list: where it does not rise strictly, has an odd
    /// length, or has a value above 0x110000.
    pub fn try_new(ranges: Vec<u32>, strings: Vec<String>) -> Result<Self, DataError>
        ensures accepted { IsOk result ↔ IsInversionList ranges.items }
        ensures ranges { IfOk result (λ set. set.ranges ≡ ranges.items) }
        ensures strings { IfOk result (λ set. set.strings
            ≡ from_list (map string_bytes strings.items)) }
        ensures refused { IfErr result (λ e. e.kind ≡ InvalidRequest) }
    {
        let ranges = CharacterRanges::try_new(ranges)?;
        Ok(ExemplarCharactersData {
            ranges,
            strings: ExemplarStrings::new(strings),
        })
    }

    /// Whether the character is in: whether some pair of the list has it.
    pub fn contains(&self, character: char) -> bool
        ensures { result ≡ has_character self.now.ranges character }
    {
        self.ranges.contains(character)
    }

    /// Whether the text is in: of one character, whether the character is; of any other, the empty one too, whether
    /// the set of texts has it.
    pub fn contains_str(&self, text: &str) -> bool
        ensures { result ≡ has_text self.now text.now }
    {
        match only_character(text) {
            Some(character) => self.contains(character),
            None => self.strings.contains(text),
        }
    }
}

// The character of a text of one.
fn only_character(text: &str) -> Option<char>
    ensures { result ≡ only_item (chars text.now) }
{
    let mut characters = text.chars();
    let first = characters.next()?;
    match characters.next() {
        Some(_) => None,
        None => Some(first),
    }
}
