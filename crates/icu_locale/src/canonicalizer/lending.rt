//! Canonicalization by rules and an expander that are lent: all the work.
ghost use Rattle.std.specs.Prelude.{◌≡◌, ◌↔◌, ℕ, Some, None, IsTrue, IfOk, IfErr, IfSome};
ghost use Rattle.icu_locale.specs.Kinds.{by_language_alias, next};
ghost use Rattle.icu_locale.specs.LikelyTable.{likely};
ghost use Rattle.icu_locale.specs.RuleSet.{lent, rules_over};
ghost use Rattle.icu_locale.specs.Canonical.{without_extensions};
ghost use Rattle.icu_locale.specs.Canonicalization.{Canonicalizes};
ghost use Rattle.icu_locale.specs.Refusals.{IsRefusal, IsRunRefusal, IsOutOfMemory};
ghost use Rattle.icu_locale.specs.Cost.{CountsRun, CountsRuns, CountsSearches, NeedsNoMemory, AddsNoVariants};
ghost use Rattle.icu_locale_runs.specs.Run.{HasDistinct, IsLaterEnd, IsLaterEndOf};
ghost use Rattle.icu_locale.specs.inner.CanonicalParts.{IsRunRefusalOf, IsIdentifierRefusal, CountsSearchesOf, AreLaterEnds, AreChanges};

use super::changes::Changes;
use super::identifiers::{later_end, matching};
use super::values::later_values;
use crate::{CanonicalizeError, LocaleExpander, ReadRules, RulesRef, TransformResult, Turns};
use icu_locale_core::{LanguageIdentifier, Locale};
use icu_provider::Aliases;

/// A canonicalizer that is lent: rules and an expander, whoever owns what was read and the tables.
/// `LocaleCanonicalizer::lend` gives one, and a program that keeps `ReadRules` beside its tables makes one at each call,
/// by `CanonicalizerRef::over`. Neither takes memory.
#[derive(Clone, Copy, Debug)]
pub struct CanonicalizerRef<'r> {
    /// The rules.
    pub rules: RulesRef<'r>,
    /// What gives likely regions.
    pub expander: LocaleExpander<'r>,
}

impl<'r> CanonicalizerRef<'r> {
    /// Over what was read of a table of aliases, the table and an expander. It takes no memory.
    #[inline(always)]
    pub fn over(
        read: &'r ReadRules,
        aliases: &'r Aliases,
        expander: LocaleExpander<'r>,
    ) -> CanonicalizerRef<'r>
        ensures rules { lent result.rules ≡ rules_over read.now aliases.now }
        ensures expander { result.expander ≡ expander.entry }
    {
        CanonicalizerRef {
            rules: RulesRef { read, aliases },
            expander,
        }
    }

    /// Whether an identifier is its own canonical form: no rule matches it. It takes no memory.
    #[inline(always)]
    pub fn is_canonical(&self, id: &LanguageIdentifier) -> bool
        ensures { IsTrue result
            ↔ (next (likely self.now.expander) (lent self.now.rules) id.now ≡ None) }
    {
        matching(self, id, false, &mut Turns::new()).is_none()
    }

    /// Brings a locale to its canonical form, as `LocaleCanonicalizer::canonicalize` says.
    ///
    /// # Errors
    ///
    /// Those of `LocaleCanonicalizer::canonicalize`. The locale is unchanged then.
    pub fn canonicalize(&self, locale: &mut Locale) -> Result<TransformResult, CanonicalizeError>
        ensures outcome { Canonicalizes (likely self.now.expander) (lent self.now.rules)
            locale.old locale.new result }
    {
        self.canonicalize_counted(locale, &mut Turns::new())
    }

    /// The same as `canonicalize`, with a count of the searches for a rule that matches, as
    /// `LocaleCanonicalizer::canonicalize_counted` says.
    ///
    /// # Errors
    ///
    /// Those of `canonicalize`.
    pub fn canonicalize_counted(
        &self,
        locale: &mut Locale,
        turns: &mut Turns,
    ) -> Result<TransformResult, CanonicalizeError>
        ensures outcome { Canonicalizes (likely self.now.expander) (lent self.now.rules)
            locale.old locale.new result }
        ensures count { CountsRuns (likely self.now.expander) (lent self.now.rules) locale.old
            result turns.old turns.new }
    {
        let changes = self.find_changes(locale, turns)?;
        Ok(changes.write(locale))
    }

    /// Brings an identifier to its canonical form, as `LocaleCanonicalizer::canonicalize_identifier` says.
    ///
    /// # Errors
    ///
    /// Those of `canonicalize`, but for `NoSubdivisionFixedPoint`. The identifier is unchanged then.
    #[inline(always)]
    pub fn canonicalize_identifier(
        &self,
        id: &mut LanguageIdentifier,
    ) -> Result<TransformResult, CanonicalizeError>
        ensures { Canonicalizes (likely self.now.expander) (lent self.now.rules)
            (without_extensions id.old) (without_extensions id.new) result }
    {
        self.canonicalize_identifier_counted(id, &mut Turns::new())
    }

    /// The same as `canonicalize_identifier`, with a count of the searches for a rule that matches, as
    /// `LocaleCanonicalizer::canonicalize_identifier_counted` says.
    ///
    /// # Errors
    ///
    /// Those of `canonicalize_identifier`.
    #[inline(always)]
    pub fn canonicalize_identifier_counted(
        &self,
        id: &mut LanguageIdentifier,
        turns: &mut Turns,
    ) -> Result<TransformResult, CanonicalizeError>
        ensures outcome { Canonicalizes (likely self.now.expander) (lent self.now.rules)
            (without_extensions id.old) (without_extensions id.new) result }
        ensures count { CountsRun (next (likely self.now.expander) (lent self.now.rules)) id.old
            turns.old turns.new }
    {
        if matching(self, id, false, turns).is_none() {
            return Ok(TransformResult::Unmodified);
        }
        self.rewrite_identifier(id, turns)
    }

    /// The canonical form of an identifier, where it is another: the end of the run of `canonicalize_identifier`, or none
    /// where nothing is applied. With a count of the searches for a rule that matches.
    ///
    /// # Errors
    ///
    /// - `NoFixedPoint` where the run has no end: it names the first identifier that comes again.
    /// - `Memory` where memory was asked for and refused, and never where no identifier after the first has variants.
    pub fn canonical_form_counted(
        &self,
        id: &LanguageIdentifier,
        turns: &mut Turns,
    ) -> Result<Option<LanguageIdentifier>, CanonicalizeError>
        ensures end { IfOk result
            (IsLaterEnd (next (likely self.now.expander) (lent self.now.rules)) id.now) }
        ensures refusal { IfErr result
            (IsRunRefusal (next (likely self.now.expander) (lent self.now.rules)) id.now) }
        ensures free { AddsNoVariants (next (likely self.now.expander) (lent self.now.rules)) id.now
            → ¬ (IsOutOfMemory result) }
        ensures count { (n : ℕ)
            × HasDistinct (next (likely self.now.expander) (lent self.now.rules)) id.now n
            × CountsSearches result turns.old turns.new n }
    {
        later_end(self, id, false, turns)
    }

    // Brings an identifier to the end of its run. It stays apart from the search before it, which answers most calls.
    #[inline(never)]
    fn rewrite_identifier(
        &self,
        id: &mut LanguageIdentifier,
        turns: &mut Turns,
    ) -> Result<TransformResult, CanonicalizeError>
        ensures outcome { Canonicalizes (likely self.now.expander) (lent self.now.rules)
            (without_extensions id.old) (without_extensions id.new) result }
        ensures count { CountsSearchesOf (next (likely self.now.expander) (lent self.now.rules))
            (Some id.old) result turns.old turns.new }
    {
        match later_end(self, id, false, turns)? {
            Some(last) => {
                *id = last;
                Ok(TransformResult::Modified)
            }
            None => Ok(TransformResult::Unmodified),
        }
    }

    // What is to be changed of a locale, found before anything is written.
    #[inline(always)]
    fn find_changes(&self, locale: &Locale, turns: &mut Turns) -> Result<Changes, CanonicalizeError>
        ensures found { IfOk result
            (AreChanges (likely self.now.expander) (lent self.now.rules) locale.now) }
        ensures refusal { IfErr result
            (IsRefusal (likely self.now.expander) (lent self.now.rules) locale.now) }
        ensures free { NeedsNoMemory (likely self.now.expander) (lent self.now.rules) locale.now
            → ¬ (IsOutOfMemory result) }
        ensures count { CountsRuns (likely self.now.expander) (lent self.now.rules) locale.now
            result turns.old turns.new }
    {
        let (id, transform) = self.find_ends(locale, turns)?;
        let keywords = &locale.extensions.unicode.keywords;
        let (region_override, subdivision) = later_values(
            &self.rules,
            keywords,
            &mut Turns::new(),
        )?;
        Ok(Changes {
            id,
            transform,
            region_override,
            subdivision,
        })
    }

    // Where the runs of the identifier and then of the transform language end, each if that is at a later place than its
    // start.
    #[inline(always)]
    fn find_ends(
        &self,
        locale: &Locale,
        turns: &mut Turns,
    ) -> Result<(Option<LanguageIdentifier>, Option<LanguageIdentifier>), CanonicalizeError>
        ensures ends { IfOk result
            (AreLaterEnds (likely self.now.expander) (lent self.now.rules) locale.now) }
        ensures refusal { IfErr result
            (IsIdentifierRefusal (likely self.now.expander) (lent self.now.rules) locale.now) }
        ensures free { NeedsNoMemory (likely self.now.expander) (lent self.now.rules) locale.now
            → ¬ (IsOutOfMemory result) }
        ensures count { CountsRuns (likely self.now.expander) (lent self.now.rules) locale.now
            result turns.old turns.new }
    {
        let id = later_end(self, &locale.id, false, turns)?;
        let transform = self.transform_end(&locale.extensions.transform.lang, turns)?;
        Ok((id, transform))
    }

    // Where the run of a transform language ends, if there is one and its end is at a later place than its start.
    #[inline(always)]
    fn transform_end(
        &self,
        lang: &Option<LanguageIdentifier>,
        turns: &mut Turns,
    ) -> Result<Option<LanguageIdentifier>, CanonicalizeError>
        ensures end { IfOk result
            (IsLaterEndOf (by_language_alias (lent self.now.rules)) lang.now) }
        ensures refused { IfErr result
            (IsRunRefusalOf (by_language_alias (lent self.now.rules)) lang.now) }
        ensures free { IfSome lang.now (AddsNoVariants (by_language_alias (lent self.now.rules)))
            → ¬ (IsOutOfMemory result) }
        ensures count { CountsSearchesOf (by_language_alias (lent self.now.rules)) lang.now result
            turns.old turns.new }
    {
        match lang {
            Some(lang) => later_end(self, lang, true, turns),
            None => Ok(None),
        }
    }
}
