//! Canonicalization of locales (UTS #35 Part 1, Annex C, "LocaleId Canonicalization").
ghost use Rattle.std.specs.Prelude.{◌≡◌, ◌↔◌, Some, None, IsTrue};
ghost use Rattle.icu_locale.specs.LikelyTable.{likely};
ghost use Rattle.icu_locale.specs.RuleSet.{lent, rules_over};
ghost use Rattle.icu_locale.specs.Canonical.{without_extensions};
ghost use Rattle.icu_locale.specs.Canonicalization.{Canonicalizes};
ghost use Rattle.icu_locale.specs.Refusals.{canonicalize_error_name};
ghost use Rattle.icu_locale.specs.Cost.{CountsRun, CountsRuns};
ghost use Rattle.icu_locale.specs.Kinds.{next};

use crate::{AsExpander, LocaleExpander, TransformResult, Turns};
use icu_locale_core::{LanguageIdentifier, Locale, Value};
use std::error::Error;
use std::fmt;

mod changes;
pub mod identifiers;
mod kinds;
pub mod lending;
mod making;
mod reading;
pub mod replacing;
pub mod rules;
mod values;

use lending::CanonicalizerRef;
use rules::{ReadRules, Rules};

/// Canonicalizes locales by the rules of a table of aliases (UTS #35 Part 1, Annex C, "LocaleId Canonicalization").
#[derive(Debug)]
pub struct LocaleCanonicalizer<'d, E = LocaleExpander<'d>> {
    /// The rules.
    pub rules: Rules<'d>,
    /// What gives likely regions.
    pub expander: E,
}

impl<'d, E: Drop> Drop for LocaleCanonicalizer<'d, E> {
    fn drop(self) {
        let LocaleCanonicalizer {
            rules: _,
            expander: _,
        } = self;
    }
}

/// Why a locale is not canonicalized. It is unchanged then.
#[derive(Debug, Drop)]
pub enum CanonicalizeError {
    /// Memory was asked for and refused.
    Memory,
    /// The rules come to no end: the identifier comes again, and is the first that does.
    NoFixedPoint(LanguageIdentifier),
    /// The rows of subdivisions come to no end: the value comes again, and is the first that does.
    NoSubdivisionFixedPoint(Value),
}

impl fmt::Display for CanonicalizeError {
    ghost output = { λ e. Some (canonicalize_error_name e) };

    fn fmt<W: fmt::Write>(&self, f: &mut fmt::Formatter<W>) -> fmt::Result {
        f.write_str(match self {
            CanonicalizeError::Memory => "Memory",
            CanonicalizeError::NoFixedPoint(_) => "NoFixedPoint",
            CanonicalizeError::NoSubdivisionFixedPoint(_) => "NoSubdivisionFixedPoint",
        })
    }
}

impl Error for CanonicalizeError {}

impl<'d, E: Drop> LocaleCanonicalizer<'d, E> {
    /// What the canonicalizer owns of its rules, for a program that keeps it beside its tables. It takes no memory.
    pub fn into_rules(self) -> ReadRules
        ensures { rules_over result self.entry.rules.aliases ≡ self.entry.rules }
    {
        let LocaleCanonicalizer { rules, expander: _ } = self;
        rules.into_read()
    }
}

impl<'d, E: AsExpander<'d>> LocaleCanonicalizer<'d, E> {
    /// The canonicalizer, lent. It takes no memory.
    #[inline(always)]
    pub fn lend(&self) -> CanonicalizerRef<'_>
        ensures rules { lent result.rules ≡ self.now.rules }
        ensures expander { result.expander ≡ E.expander self.now.expander }
        ensures table { likely result.expander ≡ E.table self.now.expander }
    {
        CanonicalizerRef {
            rules: self.rules.lend(),
            expander: self.expander.as_expander(),
        }
    }

    /// Whether an identifier is its own canonical form: no rule matches it. It takes no memory.
    #[inline(always)]
    pub fn is_canonical(&self, id: &LanguageIdentifier) -> bool
        ensures { IsTrue result
            ↔ (next (E.table self.now.expander) self.now.rules id.now ≡ None) }
    {
        self.lend().is_canonical(id)
    }

    /// Brings a locale to its canonical form (UTS #35 Part 1, Annex C): its identifier to the end of its run, its
    /// transform language to the end of its run by language aliases alone, and the values at `rg` and `sd` to the ends
    /// of theirs by the rows of subdivisions. The answer is `Modified` exactly where a rule or a row was applied, and
    /// `Unmodified` exactly where the locale is as it was.
    ///
    /// # Errors
    ///
    /// - `NoFixedPoint` exactly where a run has no end: it names the first identifier that comes again in the run of
    ///   the identifier, or, where that ends, in the run of the transform language.
    /// - `NoSubdivisionFixedPoint` exactly where these runs end, and that of the value at `rg` or at `sd` has no end: it
    ///   names the first value that comes again in the run at `rg`, or, where that ends, in the run at `sd`.
    /// - `Memory` where memory was asked for and refused: never where no identifier after the start of its run has
    ///   variants and no value after the start of its run has pieces. So never where nothing matches, nor where neither
    ///   the identifier, the transform language nor a replacement has variants, and no row replaces a value at `rg` or
    ///   `sd` (`laws::nothing_to_copy`).
    ///
    /// The locale is unchanged then.
    pub fn canonicalize(&self, locale: &mut Locale) -> Result<TransformResult, CanonicalizeError>
        ensures outcome { Canonicalizes (E.table self.now.expander) self.now.rules
            locale.old locale.new result }
    {
        self.lend().canonicalize(locale)
    }

    /// The same as `canonicalize`, with a count of the searches for a rule that matches. For each different identifier of
    /// the identifier's run and, where that ends, of the transform language's, they are at most six and, unless `Memory` is
    /// answered, at least one.
    ///
    /// # Errors
    ///
    /// Those of `canonicalize`.
    pub fn canonicalize_counted(
        &self,
        locale: &mut Locale,
        turns: &mut Turns,
    ) -> Result<TransformResult, CanonicalizeError>
        ensures outcome { Canonicalizes (E.table self.now.expander) self.now.rules
            locale.old locale.new result }
        ensures count { CountsRuns (E.table self.now.expander) self.now.rules locale.old
            result turns.old turns.new }
    {
        self.lend().canonicalize_counted(locale, turns)
    }

    /// Brings an identifier to its canonical form, as `canonicalize` does of the locale with that identifier and no
    /// extensions. Where no rule matches, one search tells that, and nothing is built. Where one does, the search is made
    /// again.
    ///
    /// # Errors
    ///
    /// Those of `canonicalize`, but for `NoSubdivisionFixedPoint`. The identifier is unchanged then.
    #[inline(always)]
    pub fn canonicalize_identifier(
        &self,
        id: &mut LanguageIdentifier,
    ) -> Result<TransformResult, CanonicalizeError>
        ensures { Canonicalizes (E.table self.now.expander) self.now.rules
            (without_extensions id.old) (without_extensions id.new) result }
    {
        self.lend().canonicalize_identifier(id)
    }

    /// The same as `canonicalize_identifier`, with a count of the searches for a rule that matches: at most six for each
    /// different identifier of the run, and one.
    ///
    /// # Errors
    ///
    /// Those of `canonicalize_identifier`.
    #[inline(always)]
    pub fn canonicalize_identifier_counted(
        &self,
        id: &mut LanguageIdentifier,
        turns: &mut Turns,
    ) -> Result<TransformResult, CanonicalizeError>
        ensures outcome { Canonicalizes (E.table self.now.expander) self.now.rules
            (without_extensions id.old) (without_extensions id.new) result }
        ensures count { CountsRun (next (E.table self.now.expander) self.now.rules) id.old
            turns.old turns.new }
    {
        self.lend().canonicalize_identifier_counted(id, turns)
    }
}
