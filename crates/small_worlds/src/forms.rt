//! Maximal forms, minimal forms and settled tables, by a search through everyone.
use crate::fault::Fault;
use crate::likely::{Row, maximal};
use crate::plain::{Plain, everyone};
use crate::report::Report;
use crate::subtags::Subtags;
use icu_locale::{LocaleExpander, TransformResult};
use icu_locale_core::LanguageIdentifier;
use std::alloc::{AllocError, Global};

/// An identifier and its maximal form.
#[derive(Clone, Copy)]
pub struct Pair {
    pub x: Plain,
    pub form: Plain,
}

// Everyone with a set of variants.
fn pairs(
    alloc: Global,
    rows: &[Row],
    subtags: &Subtags,
    variants: u8,
) -> Result<Vec<Pair>, AllocError> {
    let mut pairs = Vec::new(alloc);
    for x in everyone(subtags, variants) {
        let form = maximal(rows, subtags, &x);
        pairs.push(Pair { x, form })?;
    }
    Ok(pairs)
}

// Whether every maximal form has no unknown script or region, and is its own maximal form.
fn is_settled(rows: &[Row], subtags: &Subtags, pairs: &[Pair]) -> bool {
    for pair in pairs {
        let form = &pair.form;
        if form.bare(subtags) != *form || maximal(rows, subtags, form) != *form {
            return false;
        }
    }
    true
}

// Whether one identifier is shorter than another, or as short and the one that is favored.
fn precedes(a: &Plain, b: &Plain, favors_region: bool) -> bool {
    let count = |x: &Plain| u8::from(x.script.is_some()) + u8::from(x.region.is_some());
    let favored = |x: &Plain| if favors_region {
        x.region.is_some()
    } else {
        x.script.is_some()
    };
    count(a) < count(b) || (count(a) == count(b) && favored(a) && !favored(b))
}

// The least identifier with the language of a maximal form and that maximal form; the form itself where there is none.
fn minimal(pairs: &[Pair], form: &Plain, favors_region: bool) -> Plain {
    let mut least = None;
    for pair in pairs {
        if pair.x.language == form.language && pair.form == *form {
            least = Some(first(&least, &pair.x, favors_region));
        }
    }
    least.unwrap_or(*form)
}

// The one of two that precedes the other, or the one that there is.
fn first(least: &Option<Plain>, x: &Plain, favors_region: bool) -> Plain {
    match least {
        Some(other) if !precedes(x, other, favors_region) => *other,
        _ => *x,
    }
}

// A call that changes an identifier.
#[derive(Clone, Copy)]
enum Change {
    Maximize,
    Minimize,
    MinimizeFavorScript,
}

impl Change {
    fn name(self) -> &'static str {
        match self {
            Change::Maximize => "maximize",
            Change::Minimize => "minimize",
            Change::MinimizeFavorScript => "minimize_favor_script",
        }
    }

    fn call(self, expander: &LocaleExpander<'_>, id: &mut LanguageIdentifier) -> TransformResult {
        match self {
            Change::Maximize => expander.maximize(id),
            Change::Minimize => expander.minimize(id),
            Change::MinimizeFavorScript => expander.minimize_favor_script(id),
        }
    }

    // Whether the call has to answer that something changed: filling in again what was removed is a change too.
    fn is_told(self, subtags: &Subtags, x: &Plain, wanted: &Plain) -> bool {
        *wanted != *x || (matches!(self, Change::Maximize) && x.bare(subtags) != *x)
    }

    // What the call has to leave.
    fn wanted(self, pairs: &[Pair], form: &Plain) -> Plain {
        match self {
            Change::Maximize => *form,
            Change::Minimize => minimal(pairs, form, true),
            Change::MinimizeFavorScript => minimal(pairs, form, false),
        }
    }
}

/// Whether a call answered that the identifier changed, or that it did not, as it should.
pub fn tells(answer: TransformResult, changed: bool) -> bool {
    matches!(answer, TransformResult::Modified) == changed
}

fn compare_change(
    alloc: Global,
    report: &mut Report,
    expander: &LocaleExpander<'_>,
    subtags: &Subtags,
    pairs: &[Pair],
    pair: &Pair,
) -> Result<(), Fault> {
    for change in [
        Change::Maximize,
        Change::Minimize,
        Change::MinimizeFavorScript,
    ] {
        let mut id = pair.x.held(alloc, subtags)?;
        let answer = change.call(expander, &mut id);
        let wanted = change.wanted(pairs, &pair.form);
        let agrees = wanted.is_held_as(&id, subtags)
            && tells(answer, change.is_told(subtags, &pair.x, &wanted));
        report.see(agrees, change.name(), &pair.x);
    }
    Ok(())
}

fn compare_script(
    alloc: Global,
    report: &mut Report,
    expander: &LocaleExpander<'_>,
    subtags: &Subtags,
    pair: &Pair,
) -> Result<(), Fault> {
    let script = expander.get_likely_script(&pair.x.held(alloc, subtags)?);
    report.see(script == pair.form.script, "get_likely_script", &pair.x);
    let form = expander.maximal_locale(pair.x.locale());
    report.see(form == pair.form.locale(), "maximal_locale", &pair.x);
    Ok(())
}

fn compare_pairs(
    alloc: Global,
    report: &mut Report,
    expander: &LocaleExpander<'_>,
    subtags: &Subtags,
    pairs: &[Pair],
) -> Result<(), Fault> {
    for pair in pairs {
        compare_change(alloc, report, expander, subtags, pairs, pair)?;
        compare_script(alloc, report, expander, subtags, pair)?;
    }
    Ok(())
}

// Whether the table is settled shows at the identifiers without variants, which no form touches.
fn compare_settled(
    report: &mut Report,
    expander: &LocaleExpander<'_>,
    rows: &[Row],
    subtags: &Subtags,
    pairs: &[Pair],
) {
    let settled = is_settled(rows, subtags, pairs);
    report.met.settled |= settled;
    report.met.unsettled |= !settled;
    let und = Plain::of_language(subtags.languages[0]);
    report.see(expander.is_settled() == settled, "is_settled", &und);
}

/// The calls of an expander at everyone. No form touches the variants, so each set of them is searched by itself.
pub fn compare_forms(
    alloc: Global,
    report: &mut Report,
    expander: &LocaleExpander<'_>,
    rows: &[Row],
    subtags: &Subtags,
) -> Result<(), Fault> {
    for variants in 0..8 {
        let pairs = pairs(alloc, rows, subtags, variants)?;
        compare_settled(report, expander, rows, subtags, &pairs);
        compare_pairs(alloc, report, expander, subtags, &pairs)?;
    }
    Ok(())
}
