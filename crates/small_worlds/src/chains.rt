//! Chains of locales, by walks that keep every locale.
use crate::fault::Fault;
use crate::inheritance::{Inheritance, Parents};
use crate::likely::Row;
use crate::plain::{Plain, everyone};
use crate::report::{Kind, Report};
use crate::runs::{Run, walk_through};
use crate::subtags::Subtags;
use icu_locale::{LocaleExpander, Turns};
use icu_locale_fallback::{
    FallbackError, LocaleFallbackConfig, LocaleFallbackPriority, LocaleFallbacker,
};
use icu_provider::{DataError, DataLocale, LikelySubtagsExtended, SortedMap};
use std::alloc::Global;

const PRIORITIES: [LocaleFallbackPriority; 3] = [
    LocaleFallbackPriority::Language,
    LocaleFallbackPriority::Script,
    LocaleFallbackPriority::Region,
];

// The explicit parents as the crates hold them.
fn held(alloc: Global, parents: &Parents) -> Result<SortedMap<DataLocale, DataLocale>, DataError> {
    let mut map = SortedMap::new(alloc);
    for row in &parents.rows {
        map.insert(row.locale.locale(), row.parent.locale())?;
    }
    Ok(map)
}

// The locales of a chain that was walked, and how it goes on after them.
#[derive(Drop)]
struct Walked {
    config: LocaleFallbackConfig,
    met: Vec<Plain>,
    run: Run<Plain>,
}

// The chain of a locale, walked.
fn walk_chain(alloc: Global, by: Inheritance<'_>, x: &Plain) -> Result<Walked, Fault> {
    let mut met = Vec::new(alloc);
    let priority = by.priority;
    let config = LocaleFallbackConfig { priority };
    match walk_through(&by, by.normal(x), &mut met) {
        Ok(run) => Ok(Walked { config, met, run }),
        Err(fault) => Err(fault),
    }
}

impl Walked {
    // What follows the last locale: the first that comes again, or the root, which stays.
    fn after(&self) -> DataLocale {
        match self.run {
            Run::Ends(end) => end.locale(),
            Run::Repeats(again) => again.locale(),
        }
    }

    // The first locale that comes again, if one does.
    fn again(&self) -> Option<DataLocale> {
        match self.run {
            Run::Ends(_) => None,
            Run::Repeats(again) => Some(again.locale()),
        }
    }

    fn kind(&self) -> Kind {
        match self.run {
            Run::Ends(_) => Kind::ChainEnds,
            Run::Repeats(_) => Kind::ChainRepeats,
        }
    }

    // Whether a list has the locales that were met.
    fn is_listed_as(&self, list: &[DataLocale]) -> bool {
        for (locale, x) in list.iter().zip(&self.met) {
            if x.locale() != *locale {
                return false;
            }
        }
        list.len() == self.met.len()
    }
}

// Each place of a chain, and the one after.
fn compare_places(
    report: &mut Report,
    fallbacker: &LocaleFallbacker<'_>,
    walked: &Walked,
    x: &Plain,
) {
    // (The types within are named, since the borrow checker's proof is not made without.)
    let expander: LocaleExpander<'_> = fallbacker.expander;
    let extended: Option<&LikelySubtagsExtended> = expander.extended;
    let parents: &SortedMap<DataLocale, DataLocale> = fallbacker.parents;
    let _ = (extended.is_some(), parents.is_empty());
    let config = walked.config;
    let mut place = fallbacker.for_config(config).fallback_for(x.locale());
    for locale in &walked.met {
        let is_so = *place.get() == locale.locale();
        report.see(is_so, "LocaleFallbackIterator::get", x);
        place.step();
    }
    let is_so = *place.get() == walked.after();
    report.see(is_so, "LocaleFallbackIterator::step", x);
    report.see(place.take() == walked.after(), "take", x);
}

fn compare_repeats(
    report: &mut Report,
    fallbacker: &LocaleFallbacker<'_>,
    walked: &Walked,
    x: &Plain,
) {
    report.meet(walked.kind());
    let config = walked.config;
    let place = fallbacker.for_config(config).fallback_for(x.locale());
    let again = place.first_repeat();
    report.see(again == walked.again(), "first_repeat", x);
    let again = place.first_repeat_counted(&mut Turns::new());
    report.see(again == walked.again(), "first_repeat_counted", x);
}

// Whether a list is that of the chain, or it is refused as it has to be.
fn is_list(list: &Result<Vec<DataLocale>, FallbackError>, walked: &Walked) -> Result<bool, Fault> {
    match list {
        Ok(list) => Ok(walked.again().is_none() && walked.is_listed_as(list)),
        Err(FallbackError::Circle(first)) => Ok(walked.again() == Some(*first)),
        Err(FallbackError::Memory) => Err(Fault::Starved),
    }
}

fn compare_list(
    alloc: Global,
    report: &mut Report,
    fallbacker: &LocaleFallbacker<'_>,
    walked: &Walked,
    x: &Plain,
) -> Result<(), Fault> {
    let config = walked.config;
    let place = fallbacker.for_config(config).fallback_for(x.locale());
    let list = place.to_list(alloc);
    let is_so = is_list(&list, walked)?;
    report.see(is_so, "to_list", x);
    Ok(())
}

fn compare_chain(
    alloc: Global,
    report: &mut Report,
    fallbacker: &LocaleFallbacker<'_>,
    by: Inheritance<'_>,
    x: &Plain,
) -> Result<(), Fault> {
    let walked = walk_chain(alloc, by, x)?;
    compare_places(report, fallbacker, &walked, x);
    compare_repeats(report, fallbacker, &walked, x);
    compare_list(alloc, report, fallbacker, &walked, x)
}

// The chains of everyone.
fn compare_by(
    alloc: Global,
    report: &mut Report,
    fallbacker: &LocaleFallbacker<'_>,
    by: Inheritance<'_>,
) -> Result<(), Fault> {
    for x in everyone(by.subtags, 0) {
        compare_chain(alloc, report, fallbacker, by, &x)?;
        if by.priority == LocaleFallbackPriority::Language {
            let is_so = fallbacker.key_for(x.locale()) == by.key(&x).locale();
            report.see(is_so, "key_for", &x);
        }
    }
    Ok(())
}

// The chains by each priority.
fn compare_over(
    alloc: Global,
    report: &mut Report,
    fallbacker: &LocaleFallbacker<'_>,
    (rows, subtags): (&[Row], &Subtags),
    parents: &Parents,
) -> Result<(), Fault> {
    for priority in PRIORITIES {
        let by = Inheritance {
            priority,
            rows,
            parents,
            subtags,
        };
        compare_by(alloc, report, fallbacker, by)?;
    }
    Ok(())
}

/// The chains of everyone by each priority, and the keys.
pub fn compare_chains(
    alloc: Global,
    report: &mut Report,
    expander: &LocaleExpander<'_>,
    rows: &[Row],
    subtags: &Subtags,
    parents: &Parents,
) -> Result<(), Fault> {
    let map = held(alloc, parents)?;
    let fallbacker = LocaleFallbacker {
        expander: *expander,
        parents: &map,
    };
    compare_over(alloc, report, &fallbacker, (rows, subtags), parents)
}
