//! Names of identifiers in parts: a base, qualifiers, and how they are put together.
ghost use Rattle.std.specs.Prelude.{◌≡◌, map};
ghost use Rattle.icu_locale_names.specs.LanguageChains.{chain_of};
ghost use Rattle.icu_locale_names.specs.LanguageNames.{GivesParts, in_locale, display_of, separator_text};
ghost use Rattle.icu_locale_names.specs.LentNames.{parts_of};
ghost use Rattle.icu_provider.specs.Names.{part_of};

use crate::language::LanguageIdentifierDisplayNameBorrowed;
use crate::language::parts::{Parts, find_parts};
use crate::language::variants::{VariantNames, variant_names};
use crate::options::{LanguageIdentifierDisplayNameOptions, display_of};
use crate::{DisplayNamesPreferences, NameChain};
use icu_locale_core::LanguageIdentifier;
use icu_provider::{DataError, DataProvider, PatternItem};
use std::alloc::Global;
use std::marker::Model;

/// The name of an identifier before its parts are put together: what more is said of a locale goes after its qualifiers.
/// It holds what the provider lent and copies no text.
#[derive(Debug, Drop)]
pub struct LanguageNameParts<'d> {
    parts: Parts<'d>,
    variants: VariantNames<'d>,
    pattern: &'d [PatternItem],
    separator: &'d str,
}

impl<'d> Model for LanguageNameParts<'d> {
    ghost use Rattle.icu_locale_names.specs.LanguageNames.{NameParts};
    ghost use Rattle.icu_locale_names.specs.LentNames.{parts_by, variant_list};

    ghost Value = { NameParts };

    ghost view = { λ n. parts_by n.parts (variant_list n.variants) n.pattern.now n.separator.now };
}

impl<'d> LanguageNameParts<'d> {
    /// The parts of the name of an identifier by a chain. Memory and refusals are those of
    /// `LanguageIdentifierDisplayName::try_new_unstable`.
    ///
    /// # Errors
    ///
    /// As there.
    pub fn try_new_unstable<P: DataProvider>(
        alloc: Global,
        provider: &'d P,
        chain: NameChain,
        preferences: DisplayNamesPreferences,
        subject: &LanguageIdentifier,
        options: LanguageIdentifierDisplayNameOptions,
    ) -> Result<Self, DataError>
        ensures { GivesParts (in_locale (P.name provider.now) (P.menu provider.now)
            (P.essentials provider.now) preferences.locale)
            (chain_of chain) (display_of options) subject.now result }
    {
        let chains = chain.chains();
        let display = display_of(options);
        let parts = match find_parts(provider, &chains, display, &preferences.locale, subject) {
            Ok(parts) => parts,
            Err(refusal) => return Err(refusal),
        };
        let variants = match variant_names(
            alloc,
            provider,
            &preferences.locale,
            &subject.variants,
        ) {
            Ok(variants) => variants,
            Err(refusal) => return Err(refusal),
        };
        let patterns = provider.load_essentials(preferences.locale)?;
        Ok(LanguageNameParts {
            parts,
            variants,
            pattern: patterns.locale_pattern.items(),
            separator: separator_text(patterns.locale_separator.items()),
        })
    }

    /// The name that they are put together to. It takes no memory.
    pub fn as_borrowed(&self) -> LanguageIdentifierDisplayNameBorrowed<'_>
        ensures { parts_of result ≡ self.now }
    {
        LanguageIdentifierDisplayNameBorrowed {
            parts: &self.parts,
            variants: self.variants.as_slice(),
            pattern: self.pattern,
            separator: self.separator,
        }
    }
}

// What is between two qualifiers: the first text of a pattern, or `, `.
fn separator_text(items: &[PatternItem]) -> &str
    ensures { result.now ≡ separator_text (map part_of items.now) }
{
    for item in items {
        if let PatternItem::Literal(text) = item {
            return text.as_str();
        }
    }
    ", "
}
