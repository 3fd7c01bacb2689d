//! Names of identifiers: a language, and qualifiers after it.
ghost use Rattle.std.specs.Prelude.{◌≡◌};
ghost use Rattle.icu_locale_names.specs.LanguageChains.{chain_of};
ghost use Rattle.icu_locale_names.specs.LanguageNames.{GivesName, in_locale, display_of};
ghost use Rattle.icu_locale_names.specs.LentNames.{pieces_of};

mod appending;
mod base;
mod borrowed;
mod chains;
mod name_parts;
mod named;
mod parts;
mod variants;
mod walk;
mod writing;

use crate::options::LanguageIdentifierDisplayNameOptions;
use crate::{DisplayNamesPreferences, NameChain};
pub use borrowed::LanguageIdentifierDisplayNameBorrowed;
use icu_locale_core::LanguageIdentifier;
use icu_provider::{DataError, DataProvider};
pub use name_parts::LanguageNameParts;
use std::alloc::Global;
use std::marker::Model;
pub use walk::{PieceWalk, Qualifiers};

/// The name of an identifier, in the language of a locale (UTS #35 Part 2, "Locale Display Name Algorithm"). It holds
/// what the provider lent and copies no text; a contract sees its pieces, each a text with a mark whether it is a raw
/// subtag.
#[derive(Debug, Drop)]
pub struct LanguageIdentifierDisplayName<'d> {
    parts: LanguageNameParts<'d>,
}

impl<'d> Model for LanguageIdentifierDisplayName<'d> {
    ghost use Rattle.std.specs.Prelude.{List};
    ghost use Rattle.icu_locale_names.specs.LanguageNames.{pieces_by_parts};
    ghost use Rattle.icu_locale_names.specs.Pieces.{Piece};

    ghost Value = { List Piece };

    ghost view = { λ n. pieces_by_parts n.parts };
}

impl<'d> LanguageIdentifierDisplayName<'d> {
    /// The name of an identifier by a chain. It takes memory for two or more variants alone: once, after the region is
    /// named and before the first variant.
    ///
    /// # Errors
    ///
    /// The first refusal of the provider other than `IdentifierNotFound`, unchanged, in the order language, script,
    /// region, variants, patterns; for the patterns `IdentifierNotFound` too, also where none is used. `Memory` where
    /// the list of variants could not be made: after a refusal of the region, and before one of a variant.
    pub fn try_new_unstable<P: DataProvider>(
        alloc: Global,
        provider: &'d P,
        chain: NameChain,
        preferences: DisplayNamesPreferences,
        subject: &LanguageIdentifier,
        options: LanguageIdentifierDisplayNameOptions,
    ) -> Result<Self, DataError>
        ensures { GivesName (in_locale (P.name provider.now) (P.menu provider.now)
            (P.essentials provider.now) preferences.locale)
            (chain_of chain) (display_of options) subject.now result }
    {
        match LanguageNameParts::try_new_unstable(
            alloc,
            provider,
            chain,
            preferences,
            subject,
            options,
        ) {
            Ok(parts) => Ok(LanguageIdentifierDisplayName { parts }),
            Err(refusal) => Err(refusal),
        }
    }

    /// The same name, lent again. It takes no memory.
    pub fn as_borrowed(&self) -> LanguageIdentifierDisplayNameBorrowed<'_>
        ensures { pieces_of result ≡ self.now }
    {
        self.parts.as_borrowed()
    }
}
