//! Chains of identifiers with their variants.
ghost use Rattle.std.specs.Prelude.{◌≡◌, IfErr, OnOk, OnErr};
ghost use Rattle.std.specs.Option.{unwrap_or};
ghost use Rattle.icu_locale.specs.LikelyTable.{likely};
ghost use Rattle.icu_locale.specs.LikelySubtags.{subtags_of, with_locale};
ghost use Rattle.icu_locale_fallback.specs.Chains.{inheritance};
ghost use Rattle.icu_locale_fallback.specs.Identifiers.{plain, normal_identifier, next_identifier, fallbacker_of, identifier_inheritance_of, identifier_of, IsWritten, IsIdentifierRefusal};

use crate::errors::FallbackError;
use crate::fallbacker::{LocaleFallbackConfig, LocaleFallbacker, LocaleFallbackerWithConfig};
use crate::steps::{next, normal};
use icu_locale_core::{LanguageIdentifier, Variants};
use icu_provider::DataLocale;
use std::alloc::Global;

/// A place in the chain of an identifier. It holds one identifier, and borrows the tables.
#[derive(Debug, Drop)]
pub struct IdentifierFallbackIterator<'d> {
    pub(crate) fallbacker: LocaleFallbacker<'d>,
    pub(crate) config: LocaleFallbackConfig,
    pub(crate) alloc: Global,
    pub(crate) current: LanguageIdentifier,
}

impl<'d> LocaleFallbackerWithConfig<'d> {
    /// The chain of an identifier, at its first identifier: the normal form of its language, script and region, with
    /// its variants. It takes no memory.
    pub fn fallback_for_identifier(
        &self,
        alloc: Global,
        id: LanguageIdentifier,
    ) -> IdentifierFallbackIterator<'d>
        ensures by { fallbacker_of result ≡ self.now }
        ensures current { identifier_of result ≡ normal_identifier self.now.config.priority
            (likely self.now.fallbacker.expander) id }
    {
        let mut current = id;
        let subtags = subtags_of(&current);
        let start = normal(self.config.priority, &self.fallbacker.expander, subtags);
        set_locale(&mut current, &start);
        IdentifierFallbackIterator {
            fallbacker: self.fallbacker,
            config: self.config,
            alloc,
            current,
        }
    }

    /// Appends the chain of an identifier to a text, from its normal form to the root: each identifier in its written
    /// form, with one space between two. It takes memory where the text has no room.
    ///
    /// # Errors
    ///
    /// `Circle` exactly where the chain has no end, with the first identifier that comes again, and else `Memory` where
    /// the text could not grow. The text is as it was then.
    pub fn append_chain(
        &self,
        alloc: Global,
        id: LanguageIdentifier,
        text: &mut Vec<u8>,
    ) -> Result<(), FallbackError>
        ensures appended { OnOk result (IsWritten
            (inheritance self.now.fallbacker self.now.config.priority)
            (normal_identifier self.now.config.priority (likely self.now.fallbacker.expander) id)
            text.old.items text.new.items) }
        ensures refused { IfErr result (IsIdentifierRefusal
            (inheritance self.now.fallbacker self.now.config.priority)
            (normal_identifier self.now.config.priority (likely self.now.fallbacker.expander)
            id)) }
        ensures unchanged { OnErr result (text.new.items ≡ text.old.items) }
    {
        self.fallback_for_identifier(alloc, id).append_to(text)
    }
}

impl<'d> IdentifierFallbackIterator<'d> {
    /// The identifier here.
    pub fn get(&self) -> &LanguageIdentifier
        ensures { result.now ≡ identifier_of self.now }
    {
        &self.current
    }

    /// Goes to the next identifier. At the root it stays. It takes no memory.
    pub fn step(&mut self)
        ensures by { fallbacker_of self.new ≡ fallbacker_of self.old }
        ensures current { identifier_of self.new ≡ unwrap_or
            (next_identifier (identifier_inheritance_of self.old) (identifier_of self.old))
            (identifier_of self.old) }
    {
        let subtags = subtags_of(&self.current);
        if self.current.variants.len() == 0 {
            if let Some(parent) = next(&self.fallbacker, self.config.priority, &subtags) {
                self.current = plain(self.alloc, &parent);
            }
        } else {
            self.current = plain(self.alloc, &subtags);
        }
    }

    /// The identifier here, by value.
    pub fn take(self) -> LanguageIdentifier
        ensures { result ≡ identifier_of self.entry }
    {
        // the types within are named, since the borrow checker's proof is not made without
        let place: IdentifierFallbackIterator<'d> = self;
        let _: LocaleFallbacker<'d> = place.fallbacker;
        place.current
    }
}

// A locale as an identifier.
pub(crate) fn plain(alloc: Global, locale: &DataLocale) -> LanguageIdentifier
    ensures { result ≡ plain locale.now }
{
    LanguageIdentifier {
        language: locale.language,
        script: locale.script,
        region: locale.region,
        variants: Variants::new(alloc),
    }
}

// The language, the script and the region.
pub(crate) fn subtags_of(id: &LanguageIdentifier) -> DataLocale
    ensures { result ≡ subtags_of id.now }
{
    DataLocale {
        language: id.language,
        script: id.script,
        region: id.region,
    }
}

// Another language, script and region.
fn set_locale(id: &mut LanguageIdentifier, locale: &DataLocale)
    ensures { id.new ≡ with_locale id.old locale.now }
{
    id.language = locale.language;
    id.script = locale.script;
    id.region = locale.region;
}
