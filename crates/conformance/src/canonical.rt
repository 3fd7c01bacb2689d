//! Canonical forms, rule by rule and whole.
use crate::fault::Fault;
use crate::likely::{mark, yes_or_no};
use crate::texts::written;
use crate::world::World;
use icu_locale::{CanonicalizeError, LocaleCanonicalizer, TransformResult, Turns, laws};
use icu_locale_core::{Key, LanguageIdentifier, Locale, Value};
use std::alloc::{AllocError, Global};

// The locale of an identifier, and of what follows it: `t=` a transform language, `rg=` and `sd=` values.
fn locale(alloc: Global, text: &str) -> Result<Locale, Fault> {
    let mut words = text.split_whitespace();
    let id = LanguageIdentifier::try_from_str(alloc, words.next().unwrap_or(""))?;
    let mut locale = Locale::new(alloc, id);
    for word in words {
        extend(alloc, &mut locale, word)?;
    }
    Ok(locale)
}

fn extend(alloc: Global, locale: &mut Locale, word: &str) -> Result<(), Fault> {
    let Some((key, text)) = word.split_once('=') else {
        return Err(Fault::Row);
    };
    if key == "t" {
        let lang = LanguageIdentifier::try_from_str(alloc, text)?;
        locale.extensions.transform.lang = Some(lang);
    } else {
        let key = Key::try_from_str(key)?;
        let value = Value::try_from_str(alloc, text)?;
        let _ = locale.extensions.unicode.keywords.set(key, value)?;
    }
    Ok(())
}

// A locale in the form in which it is read.
fn write_locale(text: &mut String, locale: &Locale) -> Result<(), Fault> {
    write!(text, "{}", locale.id)?;
    if let Some(lang) = &locale.extensions.transform.lang {
        write!(text, " t={lang}")?;
    }
    for key in ["rg", "sd"] {
        write_value(text, locale, key)?;
    }
    Ok(())
}

fn write_value(text: &mut String, locale: &Locale, key: &str) -> Result<(), Fault> {
    let keywords = &locale.extensions.unicode.keywords;
    if let Some(value) = keywords.get(Key::try_from_str(key)?) {
        write!(text, " {key}={value}")?;
    }
    Ok(())
}

/// What becomes of a locale. A refused call must leave it as it was, and the counted call must do the same.
pub fn canonicalize(alloc: Global, world: &World, text: &str) -> Result<String, Fault> {
    let canonicalizer = world.canonicalizer(alloc)?;
    let before = locale(alloc, text)?;
    canonicalized(alloc, &canonicalizer, &before)
}

fn canonicalized(
    alloc: Global,
    canonicalizer: &LocaleCanonicalizer<'_>,
    before: &Locale,
) -> Result<String, Fault> {
    let mut after = before.try_clone()?;
    let answer = canonicalizer.canonicalize(&mut after);
    compared(alloc, canonicalizer, (before, &after), &answer)
}

// (What owns the locale and the answer has one exit, since each exit is a proof of both drops.)
fn compared(
    alloc: Global,
    canonicalizer: &LocaleCanonicalizer<'_>,
    (before, after): (&Locale, &Locale),
    answer: &Result<TransformResult, CanonicalizeError>,
) -> Result<String, Fault> {
    if !counts_alike(canonicalizer, before, after, answer.is_ok())? {
        return written(alloc, &"the counted call differs");
    }
    told(alloc, answer, before, after)
}

// Whether the counted call makes of a locale what the other has made of it, and succeeds where that did.
fn counts_alike(
    canonicalizer: &LocaleCanonicalizer<'_>,
    before: &Locale,
    after: &Locale,
    is_ok: bool,
) -> Result<bool, Fault> {
    let mut counted = before.try_clone()?;
    let again = canonicalizer
        .canonicalize_counted(&mut counted, &mut Turns::new())
        .is_ok();
    Ok(counted == *after && again == is_ok)
}

fn told(
    alloc: Global,
    answer: &Result<TransformResult, CanonicalizeError>,
    before: &Locale,
    after: &Locale,
) -> Result<String, Fault> {
    match answer {
        Ok(changed) => accepted(alloc, *changed, after),
        Err(_) if before != after => written(alloc, &"refused, and changed"),
        Err(refusal) => refused(alloc, refusal),
    }
}

fn accepted(alloc: Global, changed: TransformResult, after: &Locale) -> Result<String, Fault> {
    let mut text = String::new(alloc);
    write_locale(&mut text, after)?;
    write!(text, " {}", mark(changed))?;
    Ok(text)
}

fn refused(alloc: Global, refusal: &CanonicalizeError) -> Result<String, Fault> {
    match refusal {
        CanonicalizeError::Memory => Err(Fault::Memory(AllocError)),
        CanonicalizeError::NoFixedPoint(again) => { Ok(format!(in alloc; "{refusal} {again}")?) }
        CanonicalizeError::NoSubdivisionFixedPoint(again) => {
            Ok(format!(in alloc; "{refusal} {again}")?)
        }
    }
}

/// What follows an identifier in one turn, by all rules or by those of a transform language.
pub fn search(alloc: Global, world: &World, transform: bool, text: &str) -> Result<String, Fault> {
    let canonicalizer = world.canonicalizer(alloc)?;
    let id = LanguageIdentifier::try_from_str(alloc, text)?;
    follow(alloc, &canonicalizer, transform, &id)
}

fn follow(
    alloc: Global,
    canonicalizer: &LocaleCanonicalizer<'_>,
    transform: bool,
    id: &LanguageIdentifier,
) -> Result<String, Fault> {
    match laws::search(canonicalizer, id, transform, &mut Turns::new()) {
        Ok(Some(next)) => written(alloc, &next),
        Ok(None) => written(alloc, &"none"),
        Err(_) => Err(Fault::Memory(AllocError)),
    }
}

/// Whether the second identifier, as a rule, matches the first.
pub fn rule_matches(alloc: Global, source: &str, rule: &str) -> Result<String, Fault> {
    let source = LanguageIdentifier::try_from_str(alloc, source)?;
    let rule = LanguageIdentifier::try_from_str(alloc, rule)?;
    written(alloc, &yes_or_no(laws::rule_matches(&source, &rule)))
}

/// What a rule and its replacement make of a source.
pub fn replacement(
    alloc: Global,
    source: &str,
    rule: &str,
    replacement: &str,
) -> Result<String, Fault> {
    let source = LanguageIdentifier::try_from_str(alloc, source)?;
    let rule = LanguageIdentifier::try_from_str(alloc, rule)?;
    let replacement = LanguageIdentifier::try_from_str(alloc, replacement)?;
    match laws::replacement(&source, &rule, &replacement) {
        Ok(made) => written(alloc, &made),
        Err(_) => Err(Fault::Memory(AllocError)),
    }
}
