//! The characters that a language is written with (UTS #35 Part 2, "Exemplars").
ghost use Rattle.std.specs.Prelude.{◌≡◌};
ghost use Rattle.icu_provider.specs.InversionList.{has_character};
ghost use Rattle.icu_provider.specs.Exemplars.{has_text};

use icu_provider::{DataError, DataLocale, DataProvider, ExemplarCharactersData, ExemplarMarker};
use std::marker::Model;

/// A set of exemplar characters that a provider lent (UTS #35 Part 2, "Exemplars"). No call takes memory.
#[derive(Debug, Drop)]
pub struct ExemplarCharacters<'d> {
    set: &'d ExemplarCharactersData,
}

impl<'d> Model for ExemplarCharacters<'d> {
    ghost use Rattle.icu_provider.specs.declared.exemplars.ExemplarCharactersData.{ExemplarCharactersData};

    ghost Value = { ExemplarCharactersData };

    ghost use Rattle.icu_provider.specs.contracts.exemplars.ExemplarCharactersData as lent_set;

    ghost coded = { lent_set.the_row.coded };

    ghost view = { λ e. e.set.now };
}

impl<'d> ExemplarCharacters<'d> {
    /// The characters that the locale's language is commonly written with.
    ///
    /// # Errors
    ///
    /// The refusal of the provider, unchanged.
    pub fn try_new_main_unstable<P: DataProvider>(
        provider: &'d P,
        locale: DataLocale,
    ) -> Result<Self, DataError>
        ensures { result ≡ P.exemplars provider.now ExemplarMarker.Main locale }
    {
        ExemplarCharacters::loaded(provider, ExemplarMarker::Main, locale)
    }

    /// Further characters, as of foreign words.
    ///
    /// # Errors
    ///
    /// The refusal of the provider, unchanged.
    pub fn try_new_auxiliary_unstable<P: DataProvider>(
        provider: &'d P,
        locale: DataLocale,
    ) -> Result<Self, DataError>
        ensures { result ≡ P.exemplars provider.now ExemplarMarker.Auxiliary locale }
    {
        ExemplarCharacters::loaded(provider, ExemplarMarker::Auxiliary, locale)
    }

    /// Punctuation.
    ///
    /// # Errors
    ///
    /// The refusal of the provider, unchanged.
    pub fn try_new_punctuation_unstable<P: DataProvider>(
        provider: &'d P,
        locale: DataLocale,
    ) -> Result<Self, DataError>
        ensures { result ≡ P.exemplars provider.now ExemplarMarker.Punctuation locale }
    {
        ExemplarCharacters::loaded(provider, ExemplarMarker::Punctuation, locale)
    }

    /// The characters of numbers.
    ///
    /// # Errors
    ///
    /// The refusal of the provider, unchanged.
    pub fn try_new_numbers_unstable<P: DataProvider>(
        provider: &'d P,
        locale: DataLocale,
    ) -> Result<Self, DataError>
        ensures { result ≡ P.exemplars provider.now ExemplarMarker.Numbers locale }
    {
        ExemplarCharacters::loaded(provider, ExemplarMarker::Numbers, locale)
    }

    /// The headings of an index.
    ///
    /// # Errors
    ///
    /// The refusal of the provider, unchanged.
    pub fn try_new_index_unstable<P: DataProvider>(
        provider: &'d P,
        locale: DataLocale,
    ) -> Result<Self, DataError>
        ensures { result ≡ P.exemplars provider.now ExemplarMarker.Index locale }
    {
        ExemplarCharacters::loaded(provider, ExemplarMarker::Index, locale)
    }

    /// The same set, lent again.
    pub fn as_borrowed(&self) -> ExemplarCharactersBorrowed<'_>
        ensures { result.set.now ≡ self.now }
    {
        ExemplarCharactersBorrowed { set: self.set }
    }

    // The set of a marker.
    fn loaded<P: DataProvider>(
        provider: &'d P,
        marker: ExemplarMarker,
        locale: DataLocale,
    ) -> Result<Self, DataError>
        ensures { result ≡ P.exemplars provider.now marker locale }
    {
        match provider.load_exemplars(marker, locale) {
            Ok(set) => Ok(ExemplarCharacters { set }),
            Err(refusal) => Err(refusal),
        }
    }
}

/// A set of exemplar characters that is lent. No call takes memory.
#[derive(Clone, Copy, Debug)]
pub struct ExemplarCharactersBorrowed<'a> {
    /// The set.
    pub set: &'a ExemplarCharactersData,
}

impl<'a> ExemplarCharactersBorrowed<'a> {
    /// Whether the character is in: whether some pair of the list has it.
    pub fn contains(&self, character: char) -> bool
        ensures { result ≡ has_character self.now.set.now.ranges character }
    {
        self.set.contains(character)
    }

    /// Whether the text is in: of one character, whether the character is; of any other, the empty one too, whether
    /// the set of texts has it.
    pub fn contains_str(&self, text: &str) -> bool
        ensures { result ≡ has_text self.now.set.now text.now }
    {
        self.set.contains_str(text)
    }
}
