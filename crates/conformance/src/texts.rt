//! Texts of subtags, identifiers, values and keywords.
use crate::fault::Fault;
use icu_locale_core::{
    Key, Keywords, Language, LanguageIdentifier, ParseError, Region, Script, Subtag, Value,
    Variant, Variants,
};
use icu_locale_extensions::{LocaleIdentifier, Syntax};
use std::alloc::Global;
use std::cmp::Ordering;
use std::fmt;

/// What a text is read as.
#[derive(Clone, Copy)]
pub enum Kind {
    /// An identifier.
    Identifier,
    /// A language.
    Language,
    /// A script.
    Script,
    /// A region.
    Region,
    /// A variant.
    Variant,
    /// A key of a keyword.
    Key,
    /// A piece of a value.
    Subtag,
    /// A value.
    Value,
    /// A locale identifier in a syntax.
    Locale(Syntax),
}

/// A value as it is written.
pub fn written<T: fmt::Display>(alloc: Global, value: &T) -> Result<String, Fault> {
    Ok(format!(in alloc; "{value}")?)
}

/// The first four words of a text; where one is missing, the empty one.
pub fn four_words(text: &str) -> [&str; 4] {
    let mut words = text.split(' ');
    [
        words.next().unwrap_or(""),
        words.next().unwrap_or(""),
        words.next().unwrap_or(""),
        words.next().unwrap_or(""),
    ]
}

// What was read, as it is written, or the refusal's name.
fn shown<T: fmt::Display + Drop>(
    alloc: Global,
    read: Result<T, ParseError>,
) -> Result<String, Fault> {
    match read {
        Ok(value) => written(alloc, &value),
        Err(refusal) => written(alloc, &refusal),
    }
}

/// What a text is read as, and written. Where it may be read as bytes too, both have one answer.
pub fn read(alloc: Global, kind: Kind, text: &[u8]) -> Result<String, Fault> {
    let Ok(word) = str::from_utf8(text) else {
        return read_bytes(alloc, kind, text);
    };
    let answer = read_str(alloc, kind, word)?;
    match kind {
        Kind::Identifier | Kind::Value | Kind::Locale(Syntax::Unicode) => {
            compare(&answer, read_bytes(alloc, kind, text)?)?;
        }
        _ => {}
    }
    Ok(answer)
}

fn read_bytes(alloc: Global, kind: Kind, text: &[u8]) -> Result<String, Fault> {
    match kind {
        Kind::Identifier => identifier(alloc, LanguageIdentifier::try_from_utf8(alloc, text)),
        Kind::Value => value(alloc, Value::try_from_utf8(alloc, text)),
        Kind::Locale(syntax) => locale(alloc, LocaleIdentifier::read(alloc, syntax, text)),
        _ => Err(Fault::Row),
    }
}

fn read_str(alloc: Global, kind: Kind, text: &str) -> Result<String, Fault> {
    match kind {
        Kind::Identifier => identifier(alloc, LanguageIdentifier::try_from_str(alloc, text)),
        Kind::Language => shown(alloc, Language::try_from_str(text)),
        Kind::Script => shown(alloc, Script::try_from_str(text)),
        Kind::Region => shown(alloc, Region::try_from_str(text)),
        Kind::Variant => shown(alloc, Variant::try_from_str(text)),
        Kind::Key => shown(alloc, Key::try_from_str(text)),
        Kind::Subtag => shown(alloc, Subtag::try_from_str(text)),
        Kind::Value => value(alloc, Value::try_from_str(alloc, text)),
        Kind::Locale(Syntax::Unicode) => locale(alloc, LocaleIdentifier::try_from_str(alloc, text)),
        Kind::Locale(_) => read_bytes(alloc, kind, text.as_bytes()),
    }
}

// An identifier, whose copy has to be equal.
fn identifier(
    alloc: Global,
    read: Result<LanguageIdentifier, ParseError>,
) -> Result<String, Fault> {
    if let Ok(id) = &read {
        compare(id, id.try_clone()?)?;
    }
    shown(alloc, read)
}

// A value, whose copy has to be equal.
fn value(alloc: Global, read: Result<Value, ParseError>) -> Result<String, Fault> {
    if let Ok(value) = &read {
        compare(value, value.try_clone()?)?;
    }
    shown(alloc, read)
}

// A locale identifier, whose copy has to be equal.
fn locale(alloc: Global, read: Result<LocaleIdentifier, ParseError>) -> Result<String, Fault> {
    if let Ok(locale) = &read {
        compare(locale, locale.try_clone()?)?;
    }
    shown(alloc, read)
}

fn compare<T: PartialEq + Drop>(original: &T, copy: T) -> Result<(), Fault> {
    if copy == *original {
        Ok(())
    } else {
        Err(Fault::Row)
    }
}

/// The set of the words, which are variants.
pub fn variants(alloc: Global, text: &str) -> Result<String, Fault> {
    let set = variants_of(alloc, text)?;
    compare(&set, set.try_clone()?)?;
    counted(alloc, &set)
}

fn variants_of(alloc: Global, text: &str) -> Result<Variants, ParseError> {
    let mut list = Vec::new(alloc);
    for word in text.split_whitespace() {
        list.push(Variant::try_from_str(word)?)?;
    }
    Variants::try_from_list(list)
}

// How many variants there are, and each of them.
fn counted(alloc: Global, set: &Variants) -> Result<String, Fault> {
    let mut answer = written(alloc, &set.len())?;
    for variant in set.iter() {
        write!(answer, " {variant}")?;
    }
    Ok(answer)
}

/// How the first identifier relates to the second.
pub fn order(alloc: Global, first: &str, second: &str) -> Result<String, Fault> {
    let first = LanguageIdentifier::try_from_str(alloc, first)?;
    let second = LanguageIdentifier::try_from_str(alloc, second)?;
    let order = match first.cmp(&second) {
        Ordering::Less => "less",
        Ordering::Equal => "equal",
        Ordering::Greater => "greater",
    };
    written(alloc, &order)
}

/// Words that put a value at a key (`nu=thai`), take one out (`-nu`) or ask for one (`?nu`): what was asked for.
pub fn keywords(alloc: Global, text: &str) -> Result<String, Fault> {
    let mut answer = String::new(alloc);
    answer_keywords(alloc, text, &mut answer)?;
    Ok(answer)
}

fn answer_keywords(alloc: Global, text: &str, answer: &mut String) -> Result<(), Fault> {
    let mut map = Keywords::new(alloc);
    for word in text.split_whitespace() {
        keyword(alloc, &mut map, word, answer)?;
    }
    compare(&map, map.try_clone()?)
}

fn keyword(
    alloc: Global,
    map: &mut Keywords,
    word: &str,
    answer: &mut String,
) -> Result<(), Fault> {
    if let Some(key) = word.strip_prefix('-') {
        let _ = map.remove(Key::try_from_str(key)?);
    } else if let Some(key) = word.strip_prefix('?') {
        match map.get(Key::try_from_str(key)?) {
            Some(value) => write!(answer, "[{value}]")?,
            None => answer.push_str("none")?,
        }
    } else if let Some((key, value)) = word.split_once('=') {
        let _ = map.set(Key::try_from_str(key)?, Value::try_from_str(alloc, value)?)?;
    }
    Ok(())
}
