//! Runs of the values at `rg` and `sd`.
ghost use Rattle.std.specs.Prelude.{◌≡◌, [], IfOk, IfErr, IfSome, option_copied};
ghost use Rattle.icu_locale_core.specs.Maps.{value_at};
ghost use Rattle.icu_locale_core.specs.TextSet.{text_cmp};
ghost use Rattle.icu_locale_core.specs.laws.Identifiers.{values_decide};
ghost use Rattle.icu_locale_core.specs.declared.parse_error.ParseError.TheVariants.{Memory};
ghost use Rattle.icu_locale.specs.Canonical.{rg, sd, next_value};
ghost use Rattle.icu_locale.specs.Cost.{AddsNoPieces};
ghost use Rattle.icu_locale.specs.Refusals.{IsOutOfMemory};
ghost use Rattle.icu_locale.specs.RuleSet.{lent};
ghost use Rattle.icu_locale_runs.specs.Run.{IsLaterEndOf};
ghost use Rattle.icu_locale.specs.inner.CanonicalParts.{IsValueRefusal, IsValuesRefusal, AreLaterValues};
ghost use Rattle.icu_locale.specs.inner.Universe.{values};

use crate::{CanonicalizeError, RulesRef, Turns};
use icu_locale_core::{Key, Keywords, ParseError, Value};
use icu_locale_runs::{Outcome, Rewriting, end_of_run};

// One run of values: of one piece that is a key of `subdivision`, the value of its row follows.
#[derive(Drop)]
struct Values<'r> {
    rules: RulesRef<'r>,
}

impl Rewriting for Values<'_> {
    type State = Value;

    type Error = ParseError;

    ghost next = { λ r. next_value (lent r.rules) };

    ghost universe = { λ r v. values (lent r.rules) v };

    ghost refuses = { λ e. e ≡ Memory };

    ghost needs_none = { λ r v. IfSome (next_value (lent r.rules) v) (λ w. w ≡ []) };

    fn search(&self, state: &Value, turns: &mut Turns) -> Result<Option<Value>, ParseError> {
        turns.take();
        match next_value(&self.rules, state) {
            Some(value) => Ok(Some(value.try_clone()?)),
            None => Ok(None),
        }
    }

    ghost exact = { λ v w e. (values_decide v w).0 e };
}

// The value that follows another.
fn next_value<'r>(rules: &RulesRef<'r>, value: &Value) -> Option<&'r Value>
    ensures { option_copied result ≡ next_value (lent rules.now) value.now }
{
    rules.read.subdivision.get(&value.as_single_subtag()?)
}

// Where the runs of the values at `rg` and then at `sd` end, each if that is at a later place than its start. Their steps
// are counted apart, since they are no searches for a rule.
#[inline(always)]
pub fn later_values(
    rules: &RulesRef<'_>,
    keywords: &Keywords,
    apart: &mut Turns,
) -> Result<(Option<Value>, Option<Value>), CanonicalizeError>
    ensures ends { IfOk result (AreLaterValues (lent rules.now) keywords.now) }
    ensures refused { IfErr result (IsValuesRefusal (lent rules.now) keywords.now) }
    ensures free { IfSome (value_at text_cmp keywords.now rg) (AddsNoPieces (lent rules.now))
        → IfSome (value_at text_cmp keywords.now sd) (AddsNoPieces (lent rules.now))
        → ¬ (IsOutOfMemory result) }
{
    let region_override = later_value(rules, keywords.get(Key::REGION_OVERRIDE), apart)?;
    let subdivision = later_value(rules, keywords.get(Key::SUBDIVISION), apart)?;
    Ok((region_override, subdivision))
}

// Where the run of a value ends, if there is one and that is at a later place than its start.
#[inline(always)]
fn later_value(
    rules: &RulesRef<'_>,
    value: Option<&Value>,
    apart: &mut Turns,
) -> Result<Option<Value>, CanonicalizeError>
    ensures end { IfOk result
        (IsLaterEndOf (next_value (lent rules.now)) (option_copied value.entry)) }
    ensures refused { IfErr result (IsValueRefusal (lent rules.now) (option_copied value.entry)) }
    ensures free { IfSome (option_copied value.entry) (AddsNoPieces (lent rules.now))
        → ¬ (IsOutOfMemory result) }
{
    let Some(value) = value else {
        return Ok(None);
    };
    match end_of_run(&Values { rules: *rules }, value, apart) {
        Ok(Outcome::Same) => Ok(None),
        Ok(Outcome::Ends(last)) => Ok(Some(last)),
        Ok(Outcome::Repeats(first)) => Err(CanonicalizeError::NoSubdivisionFixedPoint(first)),
        Err(_) => Err(CanonicalizeError::Memory),
    }
}
