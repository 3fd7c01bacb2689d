//! Whole canonical forms: fields, then keywords, then the transform language, then what the rules say.
use crate::canonical::{self, PlainLocale, World};
use crate::fault::Fault;
use crate::forms::tells;
use crate::links::{At, Ends, Links, Word, Words};
use crate::numbers::{Drawn, Numbers};
use crate::report::{Kind, Report};
use crate::subtags::Subtags as WorldSubtags;
use icu_locale::{LocaleCanonicalizer, TransformResult, Turns};
use icu_locale_extensions::{LocaleIdentifier, Subtags};
use icu_locale_values::{ValueAliases, WholeCanonicalizer, WholeError};
use std::alloc::Global;

// How many locale identifiers are asked over each table.
const SOME: usize = 16;

// A locale identifier, plainly.
#[derive(Clone, Copy)]
struct PlainIdentifier {
    locale: PlainLocale,
    words: Words,
}

impl Drawn for PlainIdentifier {
    fn draw(numbers: &mut Numbers, subtags: &WorldSubtags) -> PlainIdentifier {
        PlainIdentifier {
            locale: PlainLocale::draw_with(Drawn::draw(numbers, subtags), numbers, subtags),
            words: Drawn::draw(numbers, subtags),
        }
    }
}

impl PlainIdentifier {
    // As the crates hold it, with an attribute and some private use, which have to stay.
    fn held(&self, alloc: Global, subtags: &WorldSubtags) -> Result<LocaleIdentifier, Fault> {
        let locale = self.locale.held(alloc, subtags)?;
        let mut held = LocaleIdentifier::from_locale(alloc, locale);
        self.extend(alloc, subtags, &mut held)?;
        Ok(held)
    }

    fn extend(
        &self,
        alloc: Global,
        subtags: &WorldSubtags,
        held: &mut LocaleIdentifier,
    ) -> Result<(), Fault> {
        let _ = held.attributes.insert(subtags.subdivisions[0])?;
        held.private_use = Some(Subtags::try_from_str(alloc, "a-bbb")?);
        self.words.put(alloc, held)
    }
}

// What a call answers.
type Answer = Result<TransformResult, WholeError>;

// What has to become of a locale identifier.
#[derive(Clone, Copy)]
enum Outcome {
    Whole(PlainIdentifier),
    FieldRepeats(At, Word),
    KeywordRepeats(At, Word),
    ByRules(canonical::Outcome),
}

// The fields are asked first, then the keywords, then the transform language, and then the rules.
fn outcome_of(
    alloc: Global,
    world: World<'_>,
    links: &Links,
    old: &PlainIdentifier,
) -> Result<Outcome, Fault> {
    let fields = match links.field_ends(alloc, &old.words)? {
        Ends::End(fields) => fields,
        Ends::Repeats(key, again) => return Ok(Outcome::FieldRepeats(key, again)),
    };
    let keywords = match links.keyword_ends(alloc, &old.words)? {
        Ends::End(keywords) => keywords,
        Ends::Repeats(key, again) => return Ok(Outcome::KeywordRepeats(key, again)),
    };
    let words = Words { keywords, fields };
    Ok(
        match canonical::whole_outcome_of(alloc, world, &old.locale)? {
            canonical::Outcome::Canonical(locale) => Outcome::Whole(PlainIdentifier {
                locale,
                words,
            }),
            refusal => Outcome::ByRules(refusal),
        },
    )
}

// Whether an answer is the one that has to be given.
fn answers(
    alloc: Global,
    world: World<'_>,
    applied: bool,
    answer: &Answer,
    outcome: &Outcome,
) -> Result<bool, Fault> {
    match (answer, outcome) {
        (Ok(told), Outcome::Whole(_)) => Ok(tells(*told, applied)),
        (Err(WholeError::NoFieldFixedPoint(key, named)), Outcome::FieldRepeats(at, again)) => {
            Ok(key.as_str() == at.in_fields() && again.is_pieces(alloc, named)?)
        }
        (Err(WholeError::NoValueFixedPoint(key, named)), Outcome::KeywordRepeats(at, again)) => {
            Ok(key.as_str() == at.in_keywords() && again.is_value(alloc, named)?)
        }
        (
            Err(WholeError::NoFixedPoint(named)),
            Outcome::ByRules(canonical::Outcome::Repeats(Some(again))),
        ) => Ok(again.is_held_as(named, world.subtags)),
        (
            Err(WholeError::NoSubdivisionFixedPoint(named)),
            Outcome::ByRules(canonical::Outcome::ValueRepeats(Some(again))),
        ) => Ok(again.is_held_as(alloc, named)?),
        _ => Ok(false),
    }
}

// Which kind of answer a call gave.
fn kind(answer: &Answer) -> Result<Kind, Fault> {
    match answer {
        Ok(_) => Ok(Kind::Whole),
        Err(WholeError::NoFixedPoint(_)) => Ok(Kind::Repeats),
        Err(WholeError::NoSubdivisionFixedPoint(_)) => Ok(Kind::ValuesRepeat),
        Err(WholeError::NoValueFixedPoint(_, _)) => Ok(Kind::KeywordRepeats),
        Err(WholeError::NoFieldFixedPoint(_, _)) => Ok(Kind::FieldRepeats),
        Err(WholeError::Memory) => Err(Fault::Starved),
    }
}

// What is asked: the canonicalizer, and the rules and rows that it goes by.
#[derive(Clone, Copy)]
struct Asked<'w> {
    whole: &'w WholeCanonicalizer<'w>,
    world: World<'w>,
    links: &'w Links,
}

// What has to become of a locale identifier, and whether some rule or row is applied to it.
#[derive(Clone, Copy)]
struct Wanted {
    outcome: Outcome,
    applied: bool,
}

fn what_becomes(alloc: Global, asked: Asked<'_>, old: &PlainIdentifier) -> Result<Wanted, Fault> {
    let (world, links) = (asked.world, asked.links);
    let outcome = outcome_of(alloc, world, links, old)?;
    let applied = links.is_applied(&old.words) || canonical::is_whole_applied(world, &old.locale);
    Ok(Wanted { outcome, applied })
}

// Whether a call answered, and left the locale identifier, as it has to.
fn agrees(
    alloc: Global,
    world: World<'_>,
    old: &PlainIdentifier,
    wanted: &Wanted,
    (answer, left): (&Answer, &LocaleIdentifier),
) -> Result<bool, Fault> {
    let new = match wanted.outcome {
        Outcome::Whole(new) => new,
        _ => *old,
    };
    let is_so = answers(alloc, world, wanted.applied, answer, &wanted.outcome)?;
    Ok(is_so && new.held(alloc, world.subtags)? == *left)
}

// The call that counts, or the other.
fn ask(whole: &WholeCanonicalizer<'_>, locale: &mut LocaleIdentifier, is_counted: bool) -> Answer {
    if is_counted {
        whole.canonicalize_counted(locale, &mut Turns::new())
    } else {
        whole.canonicalize(locale)
    }
}

fn compare_call(
    alloc: Global,
    report: &mut Report,
    asked: Asked<'_>,
    (old, wanted): (&PlainIdentifier, &Wanted),
    is_counted: bool,
) -> Result<(), Fault> {
    let mut left = old.held(alloc, asked.world.subtags)?;
    let answer = ask(asked.whole, &mut left, is_counted);
    report.meet(kind(&answer)?);
    let is_so = agrees(alloc, asked.world, old, wanted, (&answer, &left))?;
    report.see(is_so, "WholeCanonicalizer::canonicalize", &old.locale.id);
    Ok(())
}

fn compare_both(
    alloc: Global,
    report: &mut Report,
    asked: Asked<'_>,
    old: &PlainIdentifier,
    wanted: &Wanted,
) -> Result<(), Fault> {
    compare_call(alloc, report, asked, (old, wanted), false)?;
    compare_call(alloc, report, asked, (old, wanted), true)
}

// Both calls at one locale identifier.
fn compare_one(
    alloc: Global,
    report: &mut Report,
    asked: Asked<'_>,
    old: &PlainIdentifier,
) -> Result<(), Fault> {
    match what_becomes(alloc, asked, old) {
        Ok(wanted) => compare_both(alloc, report, asked, old, &wanted),
        Err(fault) => Err(fault),
    }
}

fn compare_some(
    alloc: Global,
    report: &mut Report,
    asked: Asked<'_>,
    numbers: &mut Numbers,
) -> Result<(), Fault> {
    for _ in 0..SOME {
        let old = PlainIdentifier::draw(numbers, asked.world.subtags);
        compare_one(alloc, report, asked, &old)?;
    }
    Ok(())
}

/// The calls of a whole canonicalizer at some locale identifiers.
pub fn compare_whole(
    alloc: Global,
    report: &mut Report,
    canonicalizer: &LocaleCanonicalizer<'_>,
    world: World<'_>,
    links: &Links,
    numbers: &mut Numbers,
) -> Result<(), Fault> {
    let keywords = links.keyword_table(alloc)?;
    let fields = links.field_table(alloc)?;
    let whole = WholeCanonicalizer {
        rules: canonicalizer.lend(),
        values: ValueAliases {
            keywords: &keywords,
            fields: &fields,
        },
    };
    let asked = Asked {
        whole: &whole,
        world,
        links,
    };
    compare_some(alloc, report, asked, numbers)
}
