//! Whether the chain of an identifier ends, the whole of it, and its text.
ghost use Rattle.std.specs.Prelude.{◌≡◌, ◌==◌, ◌++◌, [], ◌∷◌, map, take, length, IfOk, IfErr, OnOk, OnErr, if◌then◌else◌};
ghost use Rattle.icu_locale_core.specs.TextSet.{len};
ghost use Rattle.icu_locale.specs.LikelySubtags.{subtags_of};
ghost use Rattle.icu_locale_runs.specs.Run.{EndsAt};
ghost use Rattle.icu_locale_fallback.specs.Fallback.{root, next};
ghost use Rattle.icu_locale_fallback.specs.Chains.{inheritance, CountsSteps};
ghost use Rattle.icu_locale_fallback.specs.Identifiers.{plain, identifier_inheritance_of, identifier_of, IsIdentifierCircle, IsIdentifierChain, IsIdentifierRefusal, IsWritten};
ghost use Rattle.icu_locale_fallback.specs.inner.Listing.{behind_space, IsRestWritten};
ghost use Rattle.icu_locale_fallback.specs.declared.errors.FallbackError.TheVariants.{Memory};

use crate::errors::FallbackError;
use crate::identifiers::{IdentifierFallbackIterator, plain, subtags_of};
use crate::steps::next;
use crate::walk::{first_repeat_from, list_to_root};
use icu_locale_core::LanguageIdentifier;
use icu_locale_runs::Turns;
use icu_provider::DataLocale;
use std::alloc::Global;

impl<'d> IdentifierFallbackIterator<'d> {
    /// The first identifier of the chain from here that comes again, or none where the chain ends: it ends at the root
    /// then. It has no variants, so the language, the script and the region are all of it. It takes no memory.
    pub fn first_repeat(&self) -> Option<DataLocale>
        ensures { IsIdentifierCircle (identifier_inheritance_of self.now) (identifier_of self.now)
            result }
    {
        self.first_repeat_counted(&mut Turns::new())
    }

    /// The same as `first_repeat`, with a count of the steps that are taken. They are those of the chain of the language,
    /// the script and the region here: at most six for each different locale of it, and at least one.
    pub fn first_repeat_counted(&self, turns: &mut Turns) -> Option<DataLocale>
        ensures first { IsIdentifierCircle (identifier_inheritance_of self.now)
            (identifier_of self.now) result }
        ensures count { CountsSteps (identifier_inheritance_of self.now)
            (subtags_of (identifier_of self.now)) turns.old turns.new }
    {
        let start = subtags_of(&self.current);
        first_repeat_from(&self.fallbacker, self.config.priority, &start, turns)
    }

    /// The identifiers of the chain from here to the root, in their order. It takes memory for the list, twice, and for a
    /// copy of the variants.
    ///
    /// # Errors
    ///
    /// `Circle` exactly where the chain has no end, with the first identifier that comes again, and else `Memory` where
    /// the list could not be made.
    pub fn to_list(&self, alloc: Global) -> Result<Vec<LanguageIdentifier>, FallbackError>
        ensures found { IfOk result (λ list. IsIdentifierChain
            (identifier_inheritance_of self.now) (identifier_of self.now) list.items) }
        ensures refused { IfErr result (IsIdentifierRefusal
            (identifier_inheritance_of self.now) (identifier_of self.now)) }
    {
        let start = subtags_of(&self.current);
        let repeat = first_repeat_from(
            &self.fallbacker,
            self.config.priority,
            &start,
            &mut Turns::new(),
        );
        if let Some(first) = repeat {
            return Err(FallbackError::Circle(first));
        }
        self.list_all(&start, alloc)
    }

    // The whole list of a chain that ends.
    fn list_all(
        &self,
        start: &DataLocale,
        alloc: Global,
    ) -> Result<Vec<LanguageIdentifier>, FallbackError>
        requires start { start.now ≡ subtags_of self.now.current }
        requires ends { EndsAt (next (inheritance self.now.fallbacker self.now.config.priority))
            start.now root }
        ensures found { IfOk result (λ list. IsIdentifierChain
            (inheritance self.now.fallbacker self.now.config.priority) self.now.current
            list.items) }
        ensures refused { IfErr result (λ e. e ≡ Memory) }
    {
        let locales = list_to_root(&self.fallbacker, self.config.priority, start, alloc)?;
        let mut list = self.with_variants(alloc)?;
        add_plain(alloc, &mut list, locales.as_slice())?;
        Ok(list)
    }

    // The identifier here where it has variants, and else nothing.
    fn with_variants(&self, alloc: Global) -> Result<Vec<LanguageIdentifier>, FallbackError>
        ensures found { IfOk result (λ list. list.items
            ≡ (if len self.now.current.variants == 0 then [] else self.now.current ∷ [])) }
        ensures refused { IfErr result (λ e. e ≡ Memory) }
    {
        let mut list = Vec::new(alloc);
        if self.current.variants.len() == 0 {
            return Ok(list);
        }
        list.push(self.current.try_clone()?)?;
        Ok(list)
    }

    /// Appends the chain from here to a text, up to the root: each identifier in its written form, with one space between
    /// two. It takes memory where the text has no room.
    ///
    /// # Errors
    ///
    /// `Circle` exactly where the chain has no end, with the first identifier that comes again, and else `Memory` where
    /// the text could not grow. The text is as it was then.
    pub fn append_to(&self, text: &mut Vec<u8>) -> Result<(), FallbackError>
        ensures appended { OnOk result (IsWritten
            (identifier_inheritance_of self.now) (identifier_of self.now)
            text.old.items text.new.items) }
        ensures refused { IfErr result (IsIdentifierRefusal
            (identifier_inheritance_of self.now) (identifier_of self.now)) }
        ensures unchanged { OnErr result (text.new.items ≡ text.old.items) }
    {
        let start = subtags_of(&self.current);
        let repeat = first_repeat_from(
            &self.fallbacker,
            self.config.priority,
            &start,
            &mut Turns::new(),
        );
        if let Some(first) = repeat {
            return Err(FallbackError::Circle(first));
        }
        let before = text.as_slice().len();
        match self.append_all(&start, text) {
            Ok(()) => Ok(()),
            Err(refusal) => {
                text.truncate(before);
                Err(refusal)
            }
        }
    }

    // The whole text of a chain that ends.
    fn append_all(&self, start: &DataLocale, text: &mut Vec<u8>) -> Result<(), FallbackError>
        requires start { start.now ≡ subtags_of self.now.current }
        requires ends { EndsAt (next (inheritance self.now.fallbacker self.now.config.priority))
            start.now root }
        ensures appended { OnOk result (IsWritten
            (inheritance self.now.fallbacker self.now.config.priority) self.now.current
            text.old.items text.new.items) }
        ensures refused { IfErr result (λ e. e ≡ Memory) }
        ensures part { OnErr result (take (length text.old.items) text.new.items
            ≡ text.old.items) }
    {
        self.current.append_to(text)?;
        if self.current.variants.len() == 0 {
            return self.append_rest(start, text);
        }
        append_locale(self.alloc, start, text)?;
        self.append_rest(start, text)
    }

    // The locales after the first of a chain that ends, each with a space before it.
    fn append_rest(&self, start: &DataLocale, text: &mut Vec<u8>) -> Result<(), FallbackError>
        requires { EndsAt (next (inheritance self.now.fallbacker self.now.config.priority))
            start.now root }
        ensures appended { OnOk result (IsRestWritten
            (inheritance self.now.fallbacker self.now.config.priority) start.now
            text.old.items text.new.items) }
        ensures refused { IfErr result (λ e. e ≡ Memory) }
        ensures part { OnErr result (take (length text.old.items) text.new.items
            ≡ text.old.items) }
    {
        let mut locale = *start;
        let mut passed = Turns::new();
        'steps: while let Some(parent) = next(&self.fallbacker, self.config.priority, &locale) {
            append_locale(self.alloc, &parent, text)?;
            passed.take();
            locale = parent;
        }
        Ok(())
    }
}

// Locales as identifiers, appended to a list.
fn add_plain(
    alloc: Global,
    list: &mut Vec<LanguageIdentifier>,
    locales: &[DataLocale],
) -> Result<(), FallbackError>
    ensures added { OnOk result (list.new.items ≡ list.old.items ++ map plain locales.now) }
    ensures refused { IfErr result (λ e. e ≡ Memory) }
{
    for locale in locales.iter() {
        list.push(plain(alloc, locale))?;
    }
    Ok(())
}

// A space and a locale.
fn append_locale(
    alloc: Global,
    locale: &DataLocale,
    text: &mut Vec<u8>,
) -> Result<(), FallbackError>
    ensures appended { OnOk result (text.new.items ≡ text.old.items ++ behind_space locale.now) }
    ensures refused { IfErr result (λ e. e ≡ Memory) }
    ensures part { OnErr result (take (length text.old.items) text.new.items ≡ text.old.items) }
{
    text.push(b' ')?;
    plain(alloc, locale).append_to(text)?;
    Ok(())
}
