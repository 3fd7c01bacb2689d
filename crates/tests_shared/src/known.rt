//! Values of texts that can be read, and texts of values: None where they cannot, or where memory is refused.
use icu_locale_core::{Key, Language, LanguageIdentifier, Region, Script, Subtag, Value, Variant};
use icu_locale_names::DisplayNamesPreferences;
use icu_tables::Tables;
use std::alloc::Global;
use std::fmt;

pub fn language(text: &str) -> Option<Language> {
    Language::try_from_str(text).ok()
}

pub fn script(text: &str) -> Option<Script> {
    Script::try_from_str(text).ok()
}

pub fn region(text: &str) -> Option<Region> {
    Region::try_from_str(text).ok()
}

pub fn variant(text: &str) -> Option<Variant> {
    Variant::try_from_str(text).ok()
}

pub fn subtag(text: &str) -> Option<Subtag> {
    Subtag::try_from_str(text).ok()
}

pub fn key(text: &str) -> Option<Key> {
    Key::try_from_str(text).ok()
}

pub fn value(alloc: Global, text: &str) -> Option<Value> {
    Value::try_from_str(alloc, text).ok()
}

pub fn identifier(alloc: Global, text: &str) -> Option<LanguageIdentifier> {
    LanguageIdentifier::try_from_str(alloc, text).ok()
}

/// The identifiers of texts.
pub fn identifiers(alloc: Global, texts: &[&str]) -> Option<Vec<LanguageIdentifier>> {
    let mut list = Vec::new(alloc);
    for text in texts {
        list.push(identifier(alloc, text)?).ok()?;
    }
    Some(list)
}

/// What is written of a value.
pub fn text<T: fmt::Display>(alloc: Global, value: &T) -> Option<String> {
    format!(in alloc; "{value}").ok()
}

/// The words of a text.
pub fn words(alloc: Global, line: &str) -> Option<Vec<String>> {
    let mut list = Vec::new(alloc);
    for word in line.split_whitespace() {
        list.push(text(alloc, &word)?).ok()?;
    }
    Some(list)
}

/// So many times a text.
pub fn repeated(alloc: Global, part: &str, count: usize) -> Option<String> {
    let mut text = String::new(alloc);
    for _ in 0..count {
        text.push_str(part).ok()?;
    }
    Some(text)
}

/// The tables of a JSON text.
pub fn tables(alloc: Global, text: &str) -> Option<Tables> {
    Tables::from_json(alloc, text.as_bytes()).ok()
}

/// The tables of the sample.
pub fn sample(alloc: Global) -> Option<Tables> {
    icu_locale_lines::sample(alloc).ok()
}

/// The preferences of English.
pub fn english() -> Option<DisplayNamesPreferences> {
    Some(DisplayNamesPreferences::new(language("en")?, None, None))
}
