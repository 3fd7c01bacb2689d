//! The walk over the rows of a map: where the run of each value ends.
ghost use Rattle.std.specs.Prelude.{◌≡◌, ◌||◌, false, Ok, None, IsOk, IfOk, IfErr, OnOk, option_copied, if◌then◌else◌};
ghost use Rattle.icu_locale_core.specs.Maps.{IsSortedMap, value_at};
ghost use Rattle.icu_locale_core.specs.declared.parse_error.ParseError.TheVariants as parse;
ghost use Rattle.icu_locale_runs.specs.Run.{IsLaterEnd, IsOutcome};
ghost use Rattle.icu_locale_runs.specs.declared.rewriting.Outcome.TheVariants.{Same};
ghost use Rattle.icu_locale_values.specs.Aliases.{preferred};
ghost use Rattle.icu_locale_values.specs.Whole.{is_any_followed};
ghost use Rattle.icu_locale_values.specs.inner.Counted.{CountsRun, CountsValues};
ghost use Rattle.icu_locale_values.specs.inner.Walked.{next_at, universe, has_row, with_end, AreLaterEnds, IsRunRefusal, IsWalkRefusal};
ghost use Rattle.icu_locale_values.specs.declared.walk.Refusal.TheVariants.{Memory};

use crate::kinds::{AliasKey, AliasValue};
use icu_locale_core::{ParseError, Rows};
use icu_locale_runs::{Outcome, Rewriting, Turns, end_of_run};
use icu_provider::SortedMap;
use std::alloc::Global;

// Why the walk comes to no end: a value at a key is the first that comes again.
#[derive(Drop)]
pub(crate) enum Refusal<K, V> {
    Memory,
    Repeats(K, V),
}

// The runs of values by the rows of one key.
#[derive(Drop)]
struct Aliased<'t, V: AliasValue> {
    rows: &'t SortedMap<V, V>,
}

impl<V: AliasValue> Rewriting for Aliased<'_, V> {
    type State = V;

    type Error = ParseError;

    ghost next = { λ r. value_at V.cmp r.rows.now };

    ghost universe = { λ r v. universe r.rows.now v };

    ghost refuses = { λ e. e ≡ parse.Memory };

    ghost needs_none = { λ r v. value_at V.cmp r.rows.now v ≡ None };

    fn search(&self, state: &V, turns: &mut Turns) -> Result<Option<V>, ParseError> {
        turns.take();
        match self.rows.get(state) {
            Some(value) => Ok(Some(value.copied()?)),
            None => Ok(None),
        }
    }

    ghost exact = { V.value_exact };
}

// The later ends of the runs of the rows' values, each with its key. The table is asked once for each row, and where no
// value has an alias no memory is taken.
pub(crate) fn later_ends<K: AliasKey, V: AliasValue>(
    alloc: Global,
    table: &SortedMap<K, SortedMap<V, V>>,
    rows: Rows<'_, K, V>,
    turns: &mut Turns,
) -> Result<Vec<(K, V)>, Refusal<K, V>>
    requires { IsSortedMap K.cmp rows }
    ensures ends { IfOk result (λ ends. AreLaterEnds K.cmp
        (next_at K.ruled K.cmp V.cmp table.now) rows.entry ends.items) }
    ensures any { IfOk result (λ ends. has_row ends.items
        ≡ is_any_followed (next_at K.ruled K.cmp V.cmp table.now) rows.entry) }
    ensures refused { IfErr result (IsWalkRefusal K.cmp
        (next_at K.ruled K.cmp V.cmp table.now) rows.entry) }
    ensures free { is_any_followed (next_at K.ruled K.cmp V.cmp table.now) rows.entry ≡ false
        → IsOk result }
    ensures count { CountsValues (next_at K.ruled K.cmp V.cmp table.now) rows.entry
        turns.old turns.new }
{
    let mut ends = Vec::new(alloc);
    for (key, value) in rows {
        let end = later_end(rows_at(table, key), *key, value, turns)?;
        add_end(&mut ends, *key, end)?;
    }
    Ok(ends)
}

// The rows of a key, if there are any and the rules do not speak there.
fn rows_at<'t, K: AliasKey, V: AliasValue>(
    table: &'t SortedMap<K, SortedMap<V, V>>,
    key: &K,
) -> Option<&'t SortedMap<V, V>>
    ensures { option_copied result
        ≡ (if K.ruled key.now then None else value_at K.cmp table.now key.now) }
{
    if key.is_ruled() {
        return None;
    }
    table.get(key)
}

// Where the run of a value ends by the rows of its key, if that is at a later place than its start.
fn later_end<K: AliasKey, V: AliasValue>(
    rows: Option<&SortedMap<V, V>>,
    key: K,
    value: &V,
    turns: &mut Turns,
) -> Result<Option<V>, Refusal<K, V>>
    ensures end { IfOk result (IsLaterEnd (preferred V.cmp (option_copied rows.entry)) value.now) }
    ensures refused { IfErr result
        (IsRunRefusal (preferred V.cmp (option_copied rows.entry)) key value.now) }
    ensures same { preferred V.cmp (option_copied rows.entry) value.now ≡ None
        → result ≡ Ok None }
    ensures count { CountsRun (preferred V.cmp (option_copied rows.entry)) value.now
        turns.old turns.new }
{
    match run_of(rows, value, turns) {
        Ok(Outcome::Same) => Ok(None),
        Ok(Outcome::Ends(last)) => Ok(Some(last)),
        Ok(Outcome::Repeats(first)) => Err(Refusal::Repeats(key, first)),
        Err(_) => Err(Refusal::Memory),
    }
}

// How the run of a value goes on by the rows of its key. Memory is refused only where a value follows.
fn run_of<V: AliasValue>(
    rows: Option<&SortedMap<V, V>>,
    value: &V,
    turns: &mut Turns,
) -> Result<Outcome<V>, ParseError>
    ensures outcome { IfOk result
        (IsOutcome (preferred V.cmp (option_copied rows.entry)) value.now) }
    ensures same { preferred V.cmp (option_copied rows.entry) value.now ≡ None
        → result ≡ Ok Same }
    ensures refused { IfErr result (λ e. e ≡ parse.Memory) }
    ensures count { CountsRun (preferred V.cmp (option_copied rows.entry)) value.now
        turns.old turns.new }
{
    let Some(rows) = rows else {
        return Ok(Outcome::Same);
    };
    end_of_run(&Aliased { rows }, value, turns)
}

// An end more, if there is one.
fn add_end<K: AliasKey, V: AliasValue>(
    ends: &mut Vec<(K, V)>,
    key: K,
    end: Option<V>,
) -> Result<(), Refusal<K, V>>
    ensures added { OnOk result (ends.new.items ≡ with_end ends.old.items key end) }
    ensures refused { IfErr result (λ e. e ≡ Memory) }
    ensures free { end ≡ None → IsOk result }
{
    let Some(value) = end else {
        return Ok(());
    };
    match ends.push((key, value)) {
        Ok(()) => Ok(()),
        Err(_) => Err(Refusal::Memory),
    }
}
