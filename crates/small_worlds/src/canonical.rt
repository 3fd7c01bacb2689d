//! Canonical locales, by runs that keep every state.
use crate::fault::Fault;
use crate::forms::tells;
use crate::likely::Row;
use crate::numbers::{Drawn, Numbers};
use crate::plain::{Plain, everyone};
use crate::report::{Kind, Report};
use crate::rules::{Rules, by_language_alias, next};
use crate::runs::{Run, Step, walk};
use crate::steps::compare_steps;
use crate::subtags::Subtags;
use crate::values::{PlainValue, ValueRow, next_value};
use icu_locale::{CanonicalizeError, LocaleCanonicalizer, TransformResult, Turns};
use icu_locale_core::{Key, LanguageIdentifier, Locale, Value};
use std::alloc::Global;

/// The rules of one world, and the rows of its likely subtags.
#[derive(Clone, Copy)]
pub struct World<'w> {
    pub rules: &'w Rules,
    pub rows: &'w [Row],
    pub values: &'w [ValueRow],
    pub subtags: &'w Subtags,
}

/// One turn of an identifier.
#[derive(Clone, Copy)]
pub struct ByAll<'w>(pub World<'w>);

impl Step<Plain> for ByAll<'_> {
    fn next(&self, x: &Plain) -> Option<Plain> {
        next(self.0.rules, self.0.rows, self.0.subtags, x)
    }
}

// One turn of a transform language, where there is one.
#[derive(Clone, Copy)]
struct ByLanguage<'w>(World<'w>);

impl Step<Option<Plain>> for ByLanguage<'_> {
    fn next(&self, x: &Option<Plain>) -> Option<Option<Plain>> {
        Some(Some(by_language_alias(self.0.rules, x.as_ref()?)?))
    }
}

// One turn of a transform language by all rules, where there is one.
#[derive(Clone, Copy)]
struct LanguageByAll<'w>(World<'w>);

impl Step<Option<Plain>> for LanguageByAll<'_> {
    fn next(&self, x: &Option<Plain>) -> Option<Option<Plain>> {
        Some(Some(ByAll(self.0).next(x.as_ref()?)?))
    }
}

// One step of a value, where there is one.
#[derive(Clone, Copy)]
struct ByRow<'w>(World<'w>);

impl Step<Option<PlainValue>> for ByRow<'_> {
    fn next(&self, value: &Option<PlainValue>) -> Option<Option<PlainValue>> {
        Some(Some(next_value(self.0.values, (*value)?)?))
    }
}

/// A locale, plainly.
#[derive(Clone, Copy)]
pub struct PlainLocale {
    pub id: Plain,
    lang: Option<Plain>,
    rg: Option<PlainValue>,
    sd: Option<PlainValue>,
}

impl PlainLocale {
    /// An identifier with some transform language and some values.
    pub fn draw_with(id: Plain, numbers: &mut Numbers, subtags: &Subtags) -> PlainLocale {
        PlainLocale {
            id,
            lang: Drawn::draw(numbers, subtags),
            rg: Drawn::draw(numbers, subtags),
            sd: Drawn::draw(numbers, subtags),
        }
    }

    fn with_language(&self, lang: Option<Plain>) -> PlainLocale {
        PlainLocale {
            id: self.id,
            lang,
            rg: self.rg,
            sd: self.sd,
        }
    }

    /// As the crates hold it.
    pub fn held(&self, alloc: Global, subtags: &Subtags) -> Result<Locale, Fault> {
        let mut locale = Locale::new(alloc, self.id.held(alloc, subtags)?);
        self.extend(alloc, subtags, &mut locale)?;
        Ok(locale)
    }

    fn extend(&self, alloc: Global, subtags: &Subtags, locale: &mut Locale) -> Result<(), Fault> {
        if let Some(lang) = self.lang {
            locale.extensions.transform.lang = Some(lang.held(alloc, subtags)?);
        }
        put(alloc, locale, "rg", self.rg)?;
        put(alloc, locale, "sd", self.sd)
    }
}

fn put(
    alloc: Global,
    locale: &mut Locale,
    key: &str,
    value: Option<PlainValue>,
) -> Result<(), Fault> {
    if let Some(value) = value {
        let key = Key::try_from_str(key)?;
        let value = Value::try_from_str(alloc, value.text())?;
        let keywords = &mut locale.extensions.unicode.keywords;
        let _ = keywords.set(key, value)?;
    }
    Ok(())
}

// What a call answers.
type Answer = Result<TransformResult, CanonicalizeError>;

/// What has to become of a locale.
#[derive(Clone, Copy)]
pub enum Outcome {
    Canonical(PlainLocale),
    Repeats(Option<Plain>),
    ValueRepeats(Option<PlainValue>),
}

/// The identifier's run is asked first, then the transform language's, then the values'.
pub fn outcome_of(alloc: Global, world: World<'_>, old: &PlainLocale) -> Result<Outcome, Fault> {
    let id = match walk(alloc, &ByAll(world), old.id)? {
        Run::Ends(id) => id,
        Run::Repeats(again) => return Ok(Outcome::Repeats(Some(again))),
    };
    let lang = match walk(alloc, &ByLanguage(world), old.lang)? {
        Run::Ends(lang) => lang,
        Run::Repeats(again) => return Ok(Outcome::Repeats(again)),
    };
    let rg = match walk(alloc, &ByRow(world), old.rg)? {
        Run::Ends(rg) => rg,
        Run::Repeats(again) => return Ok(Outcome::ValueRepeats(again)),
    };
    let sd = match walk(alloc, &ByRow(world), old.sd)? {
        Run::Ends(sd) => sd,
        Run::Repeats(again) => return Ok(Outcome::ValueRepeats(again)),
    };
    Ok(Outcome::Canonical(PlainLocale { id, lang, rg, sd }))
}

/// The same of a whole canonical form: the transform language's run by all rules is asked first.
pub fn whole_outcome_of(
    alloc: Global,
    world: World<'_>,
    old: &PlainLocale,
) -> Result<Outcome, Fault> {
    let lang = match walk(alloc, &LanguageByAll(world), old.lang)? {
        Run::Ends(lang) => lang,
        Run::Repeats(again) => return Ok(Outcome::Repeats(again)),
    };
    Ok(match outcome_of(alloc, world, &old.with_language(None))? {
        Outcome::Canonical(new) => Outcome::Canonical(new.with_language(lang)),
        refusal => refusal,
    })
}

/// Whether some rule or row is applied for a whole canonical form.
pub fn is_whole_applied(world: World<'_>, old: &PlainLocale) -> bool {
    LanguageByAll(world).next(&old.lang).is_some() || is_applied(world, &old.with_language(None))
}

/// Whether some rule or row is applied.
pub fn is_applied(world: World<'_>, old: &PlainLocale) -> bool {
    ByAll(world).next(&old.id).is_some()
        || ByLanguage(world).next(&old.lang).is_some()
        || ByRow(world).next(&old.rg).is_some()
        || ByRow(world).next(&old.sd).is_some()
}

// Whether an answer names the identifier that comes again.
fn names(answer: &Answer, again: &Option<Plain>, subtags: &Subtags) -> bool {
    match (answer, again) {
        (Err(CanonicalizeError::NoFixedPoint(named)), Some(again)) => {
            again.is_held_as(named, subtags)
        }
        _ => false,
    }
}

// Whether an answer names the value that comes again.
fn names_value(alloc: Global, answer: &Answer, again: &Option<PlainValue>) -> Result<bool, Fault> {
    match (answer, again) {
        (Err(CanonicalizeError::NoSubdivisionFixedPoint(named)), Some(again)) => {
            Ok(again.is_held_as(alloc, named)?)
        }
        _ => Ok(false),
    }
}

// Whether a call answered, and left the locale, as it has to.
fn agrees(
    alloc: Global,
    world: World<'_>,
    old: &PlainLocale,
    (answer, left): (&Answer, &Locale),
) -> Result<bool, Fault> {
    let (is_so, new) = match outcome_of(alloc, world, old)? {
        Outcome::Canonical(new) => (tells_applied(answer, is_applied(world, old)), new),
        Outcome::Repeats(again) => (names(answer, &again, world.subtags), *old),
        Outcome::ValueRepeats(again) => (names_value(alloc, answer, &again)?, *old),
    };
    let wanted = new.held(alloc, world.subtags)?;
    Ok(is_so && *left == wanted)
}

fn tells_applied(answer: &Answer, applied: bool) -> bool {
    match answer {
        Ok(answer) => tells(*answer, applied),
        Err(_) => false,
    }
}

// Which kind of answer a call gave.
fn kind(answer: &Answer) -> Result<Kind, Fault> {
    match answer {
        Ok(_) => Ok(Kind::Ends),
        Err(CanonicalizeError::NoFixedPoint(_)) => Ok(Kind::Repeats),
        Err(CanonicalizeError::NoSubdivisionFixedPoint(_)) => Ok(Kind::ValuesRepeat),
        Err(CanonicalizeError::Memory) => Err(Fault::Starved),
    }
}

// Which call is asked: that of the canonicalizer or of what it lends, and the one that counts or the other.
#[derive(Clone, Copy)]
struct Asked {
    is_lent: bool,
    is_counted: bool,
}

const CALLS: [Asked; 4] = [
    Asked {
        is_lent: false,
        is_counted: false,
    },
    Asked {
        is_lent: false,
        is_counted: true,
    },
    Asked {
        is_lent: true,
        is_counted: false,
    },
    Asked {
        is_lent: true,
        is_counted: true,
    },
];

fn ask(canonicalizer: &LocaleCanonicalizer<'_>, locale: &mut Locale, asked: Asked) -> Answer {
    let turns = &mut Turns::new();
    match (asked.is_lent, asked.is_counted) {
        (false, false) => canonicalizer.canonicalize(locale),
        (false, true) => canonicalizer.canonicalize_counted(locale, turns),
        (true, false) => canonicalizer.lend().canonicalize(locale),
        (true, true) => canonicalizer.lend().canonicalize_counted(locale, turns),
    }
}

// The same of an identifier alone.
fn ask_identifier(
    canonicalizer: &LocaleCanonicalizer<'_>,
    id: &mut LanguageIdentifier,
    asked: Asked,
) -> Answer {
    let turns = &mut Turns::new();
    match (asked.is_lent, asked.is_counted) {
        (false, false) => canonicalizer.canonicalize_identifier(id),
        (false, true) => canonicalizer.canonicalize_identifier_counted(id, turns),
        (true, false) => canonicalizer.lend().canonicalize_identifier(id),
        (true, true) => canonicalizer
            .lend()
            .canonicalize_identifier_counted(id, turns),
    }
}

// Whether one of the calls agrees. The kind of its answer is met.
fn compare_call(
    alloc: Global,
    report: &mut Report,
    canonicalizer: &LocaleCanonicalizer<'_>,
    world: World<'_>,
    (old, asked): (&PlainLocale, Asked),
) -> Result<bool, Fault> {
    let mut left = old.held(alloc, world.subtags)?;
    let answer = ask(canonicalizer, &mut left, asked);
    meet_and_agree(alloc, report, world, old, (&answer, &left))
}

// (What owns the locale and the answer has one exit, since each exit is a proof of both drops.)
fn meet_and_agree(
    alloc: Global,
    report: &mut Report,
    world: World<'_>,
    old: &PlainLocale,
    (answer, left): (&Answer, &Locale),
) -> Result<bool, Fault> {
    report.meet(kind(answer)?);
    agrees(alloc, world, old, (answer, left))
}

// Whether one of the calls for an identifier alone agrees.
fn compare_identifier(
    alloc: Global,
    report: &mut Report,
    canonicalizer: &LocaleCanonicalizer<'_>,
    world: World<'_>,
    (old, asked): (&PlainLocale, Asked),
) -> Result<bool, Fault> {
    let mut left = old.id.held(alloc, world.subtags)?;
    let answer = ask_identifier(canonicalizer, &mut left, asked);
    let left = Locale::new(alloc, left);
    meet_and_agree(alloc, report, world, old, (&answer, &left))
}

// Every world asks the canonicalizer, and every second one what it lends too.
fn compare_one(
    alloc: Global,
    report: &mut Report,
    canonicalizer: &LocaleCanonicalizer<'_>,
    world: World<'_>,
    old: &PlainLocale,
) -> Result<(), Fault> {
    let alone = PlainLocale {
        id: old.id,
        lang: None,
        rg: None,
        sd: None,
    };
    compare_calls(alloc, report, canonicalizer, world, (old, false))?;
    compare_calls(alloc, report, canonicalizer, world, (&alone, true))?;
    compare_steps(alloc, report, canonicalizer, world, &old.id)
}

// The calls for a locale, or those for an identifier alone.
fn compare_calls(
    alloc: Global,
    report: &mut Report,
    canonicalizer: &LocaleCanonicalizer<'_>,
    world: World<'_>,
    (old, is_alone): (&PlainLocale, bool),
) -> Result<(), Fault> {
    let is_lent = report.world % 2 == 1;
    for asked in CALLS {
        if is_lent || !asked.is_lent {
            let one = (old, asked);
            let is_so = if is_alone {
                compare_identifier(alloc, report, canonicalizer, world, one)?
            } else {
                compare_call(alloc, report, canonicalizer, world, one)?
            };
            report.see(is_so, "canonicalize", &old.id);
        }
    }
    Ok(())
}

/// The calls of a canonicalizer at everyone, with some transform language and some values.
pub fn compare_canonical(
    alloc: Global,
    report: &mut Report,
    canonicalizer: &LocaleCanonicalizer<'_>,
    world: World<'_>,
    numbers: &mut Numbers,
) -> Result<(), Fault> {
    for variants in 0..8 {
        for id in everyone(world.subtags, variants) {
            let old = PlainLocale::draw_with(id, numbers, world.subtags);
            compare_one(alloc, report, canonicalizer, world, &old)?;
        }
    }
    Ok(())
}
