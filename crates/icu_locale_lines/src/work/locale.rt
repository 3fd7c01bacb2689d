//! Lines that are brought to their canonical form: an identifier, an identifier, a tab and a value for `rg`, or a locale
//! identifier in a syntax.
ghost use Rattle.std.specs.Prelude.{◌≡◌, ℕ, Bool, List, IfOk, IfErr, OnErr, MatchOption, is_some, false};
ghost use Rattle.std.specs.List.{position};
ghost use Rattle.icu_locale.specs.LikelyTable.{likely};
ghost use Rattle.icu_locale.specs.RuleSet.{lent};
ghost use Rattle.icu_locale_lines.specs.Answers.{IsCanonicalized, AddsLine, Keeps, IsCanonicalAnswer};
ghost use Rattle.icu_locale_lines.specs.Locales.{is_tab};
ghost use Rattle.icu_locale_lines.specs.Wholes.{IsWholeCanonicalized, TellsWholeRefusal};
ghost use Rattle.icu_locale_lines.specs.inner.Parts.{TellsRefusal};
ghost use Rattle.icu_locale.specs.Canonical.{answer_of, without_extensions};
ghost use Rattle.icu_locale_values.specs.Refusals.{IsWholeRefusal};
ghost use Rattle.icu_locale_values.specs.Whole.{IsWhole, is_whole_applied, whole_rules};

use crate::answer::add_known;
use crate::error::CliError;
use crate::work::answering::{Answering, add_read};
use crate::work::form::add_changed;
use crate::work::value::{add_identifier_and_value, first_tab};
use icu_locale::{CanonicalizeError, TransformResult};
use icu_locale_core::LanguageIdentifier;
use icu_locale_extensions::{LocaleIdentifier, Syntax};
use icu_locale_values::{WholeCanonicalizer, WholeError};

// The answer to a line that is brought to its canonical form.
#[inline(always)]
pub fn add_locale(
    text: &mut Vec<u8>,
    canonicalizer: WholeCanonicalizer<'_>,
    syntax: Option<Syntax>,
    line: &[u8],
) -> Result<bool, CliError>
    ensures answer { IfOk result (AddsLine (IsCanonicalAnswer syntax
        (whole_rules canonicalizer.entry) line.now)
        text.old.items text.new.items) }
    ensures refused { IfErr result (λ e. e ≡ CliError.Memory) }
    ensures kept { OnErr result (Keeps text.old.items text.new.items) }
{
    if has_value(syntax, line) {
        return add_identifier_and_value(text, &canonicalizer.rules, line);
    }
    add_read(text, &canonicalizer, syntax, line)
}

// Whether a line is read as an identifier and a value: without a syntax, where it has a tab.
#[inline(always)]
fn has_value(syntax: Option<Syntax>, line: &[u8]) -> bool
    ensures { MatchOption syntax (result ≡ is_some (position is_tab line.now))
        (λ _. result ≡ false) }
{
    match syntax {
        None => first_tab(line).is_some(),
        Some(_) => false,
    }
}

impl<'d> Answering for WholeCanonicalizer<'d> {
    ghost is_line = { λ c x. IsCanonicalized (likely c.rules.expander) (lent c.rules.rules)
        (without_extensions x) };

    ghost is_whole_line = { λ c x. IsWholeCanonicalized (whole_rules c) x };

    #[inline(always)]
    fn add_line(
        &self,
        text: &mut Vec<u8>,
        identifier: &mut LanguageIdentifier,
    ) -> Result<bool, CliError> {
        match self.rules.canonicalize_identifier(identifier) {
            Ok(changed) => add_changed(text, identifier, changed),
            Err(refusal) => add_refusal(text, of_rules(refusal)),
        }
    }

    fn add_whole_line(
        &self,
        text: &mut Vec<u8>,
        whole: &mut LocaleIdentifier,
    ) -> Result<bool, CliError> {
        match bring_to_canonical(self, whole) {
            Ok(changed) => add_changed(text, whole, changed),
            Err(refusal) => add_refusal(text, refusal),
        }
    }
}

// Brings a locale identifier to its canonical form.
pub fn bring_to_canonical(
    canonicalizer: &WholeCanonicalizer<'_>,
    whole: &mut LocaleIdentifier,
) -> Result<TransformResult, WholeError>
    ensures form { IfOk result (λ _. IsWhole (whole_rules canonicalizer.now) whole.old whole.new) }
    ensures changed { IfOk result
        (λ m. m ≡ answer_of (is_whole_applied (whole_rules canonicalizer.now) whole.old)) }
    ensures refused { IfErr result (IsWholeRefusal (whole_rules canonicalizer.now) whole.old) }
{
    canonicalizer.canonicalize(whole)
}

// The line of a refusal of a locale identifier. Want of memory has none.
pub fn add_refusal(text: &mut Vec<u8>, refusal: WholeError) -> Result<bool, CliError>
    ensures answer { IfOk result (AddsLine (TellsWholeRefusal refusal)
        text.old.items text.new.items) }
    ensures refused { IfErr result (λ e. e ≡ CliError.Memory) }
    ensures kept { OnErr result (Keeps text.old.items text.new.items) }
{
    match refusal {
        WholeError::Memory => Err(CliError::Memory),
        WholeError::NoFixedPoint(_) => add_known(text, "?\tNoFixedPoint\n", false),
        WholeError::NoSubdivisionFixedPoint(_) => {
            add_known(text, "?\tNoSubdivisionFixedPoint\n", false)
        }
        WholeError::NoValueFixedPoint(_, _) => add_known(text, "?\tNoValueFixedPoint\n", false),
        WholeError::NoFieldFixedPoint(_, _) => add_known(text, "?\tNoFieldFixedPoint\n", false),
    }
}

// A refusal of a locale, as one of a locale identifier.
pub fn of_rules(refusal: CanonicalizeError) -> WholeError
    ensures { (t : List ℕ) (a : Bool) → TellsWholeRefusal result t a
        → TellsRefusal refusal t a }
{
    match refusal {
        CanonicalizeError::Memory => WholeError::Memory,
        CanonicalizeError::NoFixedPoint(first) => WholeError::NoFixedPoint(first),
        CanonicalizeError::NoSubdivisionFixedPoint(first) => {
            WholeError::NoSubdivisionFixedPoint(first)
        }
    }
}
