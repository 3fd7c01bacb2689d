//! The steps of a canonicalization: one search, one match and one replacement.
use crate::canonical::World;
use crate::fault::Fault;
use crate::plain::Plain;
use crate::report::Report;
use crate::rules::{Rule, by_language_alias, matches, next, replaced};
use crate::subtags::Subtags;
use icu_locale::{LocaleCanonicalizer, Turns, laws};
use icu_locale_core::{Language, LanguageIdentifier};
use std::alloc::Global;

// Whether the crates hold what follows an identifier, or nothing where nothing follows.
fn is_held(wanted: &Option<Plain>, held: &Option<LanguageIdentifier>, subtags: &Subtags) -> bool {
    match (wanted, held) {
        (Some(wanted), Some(held)) => wanted.is_held_as(held, subtags),
        (None, None) => true,
        _ => false,
    }
}

fn compare_search(
    report: &mut Report,
    canonicalizer: &LocaleCanonicalizer<'_>,
    world: World<'_>,
    (x, id): (&Plain, &LanguageIdentifier),
    transform: bool,
) -> Result<(), Fault> {
    let wanted = if transform {
        by_language_alias(world.rules, x)
    } else {
        next(world.rules, world.rows, world.subtags, x)
    };
    let Ok(found) = laws::search(canonicalizer, id, transform, &mut Turns::new()) else {
        return Err(Fault::Starved);
    };
    report.see(is_held(&wanted, &found, world.subtags), "search", x);
    Ok(())
}

// Whether no rule matches, asked of the canonicalizer and of what it lends.
fn compare_is_canonical(
    report: &mut Report,
    canonicalizer: &LocaleCanonicalizer<'_>,
    world: World<'_>,
    (x, id): (&Plain, &LanguageIdentifier),
) {
    let wanted = next(world.rules, world.rows, world.subtags, x).is_none();
    let is_so = canonicalizer.is_canonical(id) == wanted;
    let is_so_lent = canonicalizer.lend().is_canonical(id) == wanted;
    report.see(is_so && is_so_lent, "is_canonical", x);
}

fn compare_rule(
    alloc: Global,
    report: &mut Report,
    subtags: &Subtags,
    rule: &Rule,
    (x, id): (&Plain, &LanguageIdentifier),
) -> Result<(), Fault> {
    let source = rule.source.held(alloc, subtags)?;
    let replacement = rule.replacement.held(alloc, subtags)?;
    let is_so = laws::rule_matches(id, &source) == matches(x, &rule.source);
    report.see(is_so, "rule_matches", x);
    match laws::replacement(id, &source, &replacement) {
        Ok(made) => {
            let wanted = replaced(x, &rule.source, &rule.replacement);
            report.see(wanted.is_held_as(&made, subtags), "replacement", x);
            Ok(())
        }
        Err(_) => Err(Fault::Starved),
    }
}

/// The steps from an identifier, by all rules and by those of a transform language, and some rules by themselves.
pub fn compare_steps(
    alloc: Global,
    report: &mut Report,
    canonicalizer: &LocaleCanonicalizer<'_>,
    world: World<'_>,
    x: &Plain,
) -> Result<(), Fault> {
    let id = x.held(alloc, world.subtags)?;
    for transform in [false, true] {
        compare_search(report, canonicalizer, world, (x, &id), transform)?;
    }
    compare_is_canonical(report, canonicalizer, world, (x, &id));
    compare_own_rules(alloc, report, world, (x, &id))
}

// The rules without variants, and by turns those with some or the aliases of languages.
fn compare_own_rules(
    alloc: Global,
    report: &mut Report,
    world: World<'_>,
    x: (&Plain, &LanguageIdentifier),
) -> Result<(), Fault> {
    let (rules, subtags) = (world.rules, world.subtags);
    compare_rules(alloc, report, subtags, &rules.language, x)?;
    if report.world % 2 == 1 {
        return compare_rules(alloc, report, subtags, &rules.language_variants, x);
    }
    compare_aliases(alloc, report, subtags, &rules.language_len2, x)?;
    compare_aliases(alloc, report, subtags, &rules.language_len3, x)
}

fn compare_rules(
    alloc: Global,
    report: &mut Report,
    subtags: &Subtags,
    rules: &[Option<Rule>; 2],
    x: (&Plain, &LanguageIdentifier),
) -> Result<(), Fault> {
    for rule in rules {
        if let Some(rule) = rule {
            compare_rule(alloc, report, subtags, rule, x)?;
        }
    }
    Ok(())
}

fn compare_aliases(
    alloc: Global,
    report: &mut Report,
    subtags: &Subtags,
    rows: &[Option<(Language, Plain)>; 2],
    x: (&Plain, &LanguageIdentifier),
) -> Result<(), Fault> {
    for row in rows {
        if let Some(row) = row {
            let rule = Rule {
                source: Plain::of_language(row.0),
                replacement: row.1,
            };
            compare_rule(alloc, report, subtags, &rule, x)?;
        }
    }
    Ok(())
}
