//! Whole canonical forms of locale identifiers.
ghost use Rattle.std.specs.Prelude.{◌≡◌, ◌⊎◌, false, is_some, if◌then◌else◌, IfSome, IsOk, IfOk, IfErr, OnOk, OnErr};
ghost use Rattle.std.specs.Option.{option_or};
ghost use Rattle.icu_locale_core.specs.TextSet.{text_cmp};
ghost use Rattle.icu_locale.specs.Canonical.{IsCanonical, answer_of, is_applied};
ghost use Rattle.icu_locale.specs.Cost as cost;
ghost use Rattle.icu_locale.specs.Kinds.{next};
ghost use Rattle.icu_locale_runs.specs.Run.{IsLaterEndOf};
ghost use Rattle.icu_locale_values.specs.Aliases.{next_field, next_keyword};
ghost use Rattle.icu_locale_values.specs.Cost.{CountsWhole};
ghost use Rattle.icu_locale_values.specs.Whole.{whole_rules, IsWhole, IsWholeLocale, is_any_followed, is_locale_applied, is_whole_applied, without_language, NeedsNoMemory, RunsEnd};
ghost use Rattle.icu_locale_values.specs.Refusals.{IsLocaleRefusal, IsWholeRefusal, IsOutOfMemory};
ghost use Rattle.icu_locale_values.specs.inner.Counted.{CountsLocale, CountsRest, CountsTransform, CountsValues};
ghost use Rattle.icu_locale_values.specs.inner.Walked.{has_row, of_rules, AreLaterEnds, IsRestRefusal, IsTransformRefusal};

use crate::puts::put_ends;
use crate::walk::{Refusal, later_ends};
use crate::{ValueAliases, WholeError};
use icu_locale::{CanonicalizeError, CanonicalizerRef, TransformResult, Turns};
use icu_locale_core::{Key, LanguageIdentifier, Locale, Value};
use icu_locale_extensions::{FieldKey, LocaleIdentifier, Subtags};

/// Brings locale identifiers to their whole canonical form (UTS #35 Part 1, Annex C, "LocaleId Canonicalization"): by
/// rules, which are lent, and by aliases of values. Making one takes no memory.
#[derive(Clone, Copy, Debug)]
pub struct WholeCanonicalizer<'d> {
    /// The rules.
    pub rules: CanonicalizerRef<'d>,
    /// The aliases of values.
    pub values: ValueAliases<'d>,
}

impl<'d> WholeCanonicalizer<'d> {
    /// Brings a locale identifier to its whole canonical form: its identifier and its transform language to the ends of
    /// their runs by all rules, and the value of each field and of each keyword to the end of its run by aliases. At `rg`
    /// and `sd` the rules speak, and no alias is asked. All else stays. The answer is `Modified` exactly where a rule or an
    /// alias was applied.
    ///
    /// For each row of the locale identifier a table is asked for its key, at most once. Memory is taken for the states of
    /// runs that go on, and for a list of the ends; where no value has an alias only the rules take some.
    ///
    /// # Errors
    ///
    /// These are asked in this order:
    ///
    /// - `NoFieldFixedPoint` where the run of a field's value has no end: it names the first such field, by rising key,
    ///   and the first of its values that comes again.
    /// - `NoValueFixedPoint`: the same of a keyword.
    /// - `NoFixedPoint` where the run of the transform language has no end: it names the first identifier that comes again.
    /// - `NoFixedPoint` and `NoSubdivisionFixedPoint` where the rules come to no end at what else there is, as
    ///   `CanonicalizerRef::canonicalize` says.
    /// - `Memory` where memory was asked for and refused: never where no value has an alias and the rules need none.
    ///
    /// The locale identifier is unchanged then.
    pub fn canonicalize(&self, locale: &mut LocaleIdentifier) -> Result<TransformResult, WholeError>
        ensures canonical { OnOk result (IsWhole (whole_rules self.now) locale.old locale.new) }
        ensures refusal { IfErr result (IsWholeRefusal (whole_rules self.now) locale.old) }
        ensures unchanged { OnErr result (locale.new ≡ locale.old) }
        ensures answer { IfOk result (λ a. a
            ≡ answer_of (is_whole_applied (whole_rules self.now) locale.old)) }
        ensures free { NeedsNoMemory (whole_rules self.now) locale.old
            → ¬ (IsOutOfMemory result) }
        ensures ends { RunsEnd (whole_rules self.now) locale.old
            → IsOk result ⊎ IsOutOfMemory result }
    {
        self.canonicalize_counted(locale, &mut Turns::new())
    }

    /// The same as `canonicalize`, with a count of the searches: those for an alias of a value of a field or of a keyword,
    /// and those for a rule that matches, as `CanonicalizerRef::canonicalize_counted` counts them. Steps by the rules at
    /// `rg` and `sd` are not counted. For each different value in the run of each field and of each keyword, and for each
    /// different identifier in the runs of the rules, the searches are at most six.
    ///
    /// # Errors
    ///
    /// Those of `canonicalize`.
    pub fn canonicalize_counted(
        &self,
        locale: &mut LocaleIdentifier,
        turns: &mut Turns,
    ) -> Result<TransformResult, WholeError>
        ensures canonical { OnOk result (IsWhole (whole_rules self.now) locale.old locale.new) }
        ensures refusal { IfErr result (IsWholeRefusal (whole_rules self.now) locale.old) }
        ensures unchanged { OnErr result (locale.new ≡ locale.old) }
        ensures answer { IfOk result (λ a. a
            ≡ answer_of (is_whole_applied (whole_rules self.now) locale.old)) }
        ensures free { NeedsNoMemory (whole_rules self.now) locale.old
            → ¬ (IsOutOfMemory result) }
        ensures ends { RunsEnd (whole_rules self.now) locale.old
            → IsOk result ⊎ IsOutOfMemory result }
        ensures count { CountsWhole (whole_rules self.now) locale.old turns.old turns.new }
    {
        let ends = self.field_ends(locale, turns)?;
        let by_locale = self.canonicalize_locale(&mut locale.locale, turns)?;
        let answer = put_ends(&mut locale.fields, ends, by_locale);
        locale.fields.known();
        locale.locale.extensions.unicode.keywords.known();
        Ok(answer)
    }

    // Brings a locale to its whole canonical form.
    fn canonicalize_locale(
        &self,
        locale: &mut Locale,
        turns: &mut Turns,
    ) -> Result<TransformResult, WholeError>
        ensures canonical { OnOk result
            (IsWholeLocale (whole_rules self.now) locale.old locale.new) }
        ensures refusal { IfErr result (IsLocaleRefusal (whole_rules self.now) locale.old) }
        ensures unchanged { OnErr result (locale.new ≡ locale.old) }
        ensures answer { IfOk result (λ a. a
            ≡ answer_of (is_locale_applied (whole_rules self.now) locale.old)) }
        ensures free { is_any_followed (next_keyword (whole_rules self.now).keywords)
            locale.old.extensions.unicode.keywords ≡ false
            → IfSome locale.old.extensions.transform.lang (cost.AddsNoVariants
            (next (whole_rules self.now).likely (whole_rules self.now).rules))
            → cost.NeedsNoMemory (whole_rules self.now).likely (whole_rules self.now).rules
            (without_language locale.old) → ¬ (IsOutOfMemory result) }
        ensures count { CountsLocale (whole_rules self.now) locale.old turns.old turns.new }
    {
        icu_locale::laws::canonical_keywords_by_key();
        let ends = self.keyword_ends(locale, turns)?;
        let transform = self.transform_end(&locale.extensions.transform.lang, turns)?;
        let by_rules = self.canonicalize_rest(locale, turns)?;
        let answer = put_language(&mut locale.extensions.transform.lang, transform, by_rules);
        let keywords = &mut locale.extensions.unicode.keywords;
        Ok(put_ends(keywords, ends, answer))
    }

    // Where the run of the transform language ends, if there is one and its end is at a later place than its start.
    fn transform_end(
        &self,
        lang: &Option<LanguageIdentifier>,
        turns: &mut Turns,
    ) -> Result<Option<LanguageIdentifier>, WholeError>
        ensures end { IfOk result (IsLaterEndOf
            (next (whole_rules self.now).likely (whole_rules self.now).rules) lang.now) }
        ensures refusal { IfErr result (IsTransformRefusal (whole_rules self.now) lang.now) }
        ensures free { IfSome lang.now (cost.AddsNoVariants
            (next (whole_rules self.now).likely (whole_rules self.now).rules))
            → ¬ (IsOutOfMemory result) }
        ensures count { CountsTransform (whole_rules self.now) lang.now turns.old turns.new }
    {
        let Some(lang) = lang else {
            return Ok(None);
        };
        match self.rules.canonical_form_counted(lang, turns) {
            Ok(end) => Ok(end),
            Err(error) => Err(of_rules(error)),
        }
    }

    // Brings a locale to its canonical form by the rules, but for its transform language, which stays.
    fn canonicalize_rest(
        &self,
        locale: &mut Locale,
        turns: &mut Turns,
    ) -> Result<TransformResult, WholeError>
        ensures canonical { OnOk result (IsCanonical (whole_rules self.now).likely
            (whole_rules self.now).rules (without_language locale.old)
            (without_language locale.new)) }
        ensures transform { locale.new.extensions.transform ≡ locale.old.extensions.transform }
        ensures refusal { IfErr result (IsRestRefusal (whole_rules self.now) locale.old) }
        ensures unchanged { OnErr result (locale.new ≡ locale.old) }
        ensures answer { IfOk result (λ a. a ≡ answer_of (is_applied (whole_rules self.now).likely
            (whole_rules self.now).rules (without_language locale.old))) }
        ensures free { cost.NeedsNoMemory (whole_rules self.now).likely
            (whole_rules self.now).rules (without_language locale.old)
            → ¬ (IsOutOfMemory result) }
        ensures count { CountsRest (whole_rules self.now) locale.old turns.old turns.new }
    {
        let lang = locale.extensions.transform.lang.take();
        let result = self.rules.canonicalize_counted(locale, turns);
        locale.extensions.transform.lang = lang;
        match result {
            Ok(answer) => Ok(answer),
            Err(error) => Err(of_rules(error)),
        }
    }

    // Where the runs of the fields' values end, each if that is at a later place than its start.
    fn field_ends(
        &self,
        locale: &LocaleIdentifier,
        turns: &mut Turns,
    ) -> Result<Vec<(FieldKey, Subtags<3>)>, WholeError>
        ensures ends { IfOk result (λ ends. AreLaterEnds text_cmp
            (next_field (whole_rules self.now).fields) locale.now.fields ends.items) }
        ensures any { IfOk result (λ ends. has_row ends.items
            ≡ is_any_followed (next_field (whole_rules self.now).fields) locale.now.fields) }
        ensures refusal { IfErr result (IsWholeRefusal (whole_rules self.now) locale.now) }
        ensures free { is_any_followed (next_field (whole_rules self.now).fields)
            locale.now.fields ≡ false → IsOk result }
        ensures count { CountsValues (next_field (whole_rules self.now).fields) locale.now.fields
            turns.old turns.new }
    {
        locale.fields.known();
        let alloc = self.rules.rules.read.alloc;
        match later_ends(alloc, self.values.fields, locale.fields.iter(), turns) {
            Ok(ends) => Ok(ends),
            Err(Refusal::Memory) => Err(WholeError::Memory),
            Err(Refusal::Repeats(key, first)) => Err(WholeError::NoFieldFixedPoint(key, first)),
        }
    }

    // The same of the keywords' values.
    fn keyword_ends(
        &self,
        locale: &Locale,
        turns: &mut Turns,
    ) -> Result<Vec<(Key, Value)>, WholeError>
        ensures ends { IfOk result (λ ends. AreLaterEnds text_cmp
            (next_keyword (whole_rules self.now).keywords)
            locale.now.extensions.unicode.keywords ends.items) }
        ensures any { IfOk result (λ ends. has_row ends.items
            ≡ is_any_followed (next_keyword (whole_rules self.now).keywords)
            locale.now.extensions.unicode.keywords) }
        ensures refusal { IfErr result (IsLocaleRefusal (whole_rules self.now) locale.now) }
        ensures free { is_any_followed (next_keyword (whole_rules self.now).keywords)
            locale.now.extensions.unicode.keywords ≡ false → IsOk result }
        ensures count { CountsValues (next_keyword (whole_rules self.now).keywords)
            locale.now.extensions.unicode.keywords turns.old turns.new }
    {
        let keywords = &locale.extensions.unicode.keywords;
        keywords.known();
        let alloc = self.rules.rules.read.alloc;
        match later_ends(alloc, self.values.keywords, keywords.iter(), turns) {
            Ok(ends) => Ok(ends),
            Err(Refusal::Memory) => Err(WholeError::Memory),
            Err(Refusal::Repeats(key, first)) => Err(WholeError::NoValueFixedPoint(key, first)),
        }
    }
}

// Puts the end of the transform language's run in its place, if there is a later one, and answers `Modified` then.
fn put_language(
    lang: &mut Option<LanguageIdentifier>,
    end: Option<LanguageIdentifier>,
    answer: TransformResult,
) -> TransformResult
    ensures put { lang.new ≡ option_or end lang.old }
    ensures answer { result ≡ (if is_some end then TransformResult.Modified else answer) }
{
    match end {
        Some(end) => {
            *lang = Some(end);
            TransformResult::Modified
        }
        None => answer,
    }
}

// A refusal by rules, as one of the whole.
fn of_rules(error: CanonicalizeError) -> WholeError
    ensures { result ≡ of_rules error }
{
    match error {
        CanonicalizeError::Memory => WholeError::Memory,
        CanonicalizeError::NoFixedPoint(first) => WholeError::NoFixedPoint(first),
        CanonicalizeError::NoSubdivisionFixedPoint(first) => {
            WholeError::NoSubdivisionFixedPoint(first)
        }
    }
}
