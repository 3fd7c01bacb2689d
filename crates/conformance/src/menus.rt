//! Names in menus and patterns, as tables hold them.
use crate::fault::Fault;
use crate::names::preferences;
use crate::texts::{four_words, written};
use crate::world::World;
use icu_locale_core::Language;
use icu_provider::{DataProvider, LocaleNamesEssentials, MenuMarker, PatternItem};
use std::alloc::Global;

/// The core and the extension of the name in menus of a marker, a locale and a language.
pub fn menu(alloc: Global, world: &World, text: &str) -> Result<String, Fault> {
    let [marker, locale, language, _] = four_words(text);
    let marker = match marker {
        "light" => MenuMarker::MediumLight,
        "heavy" => MenuMarker::MediumHeavy,
        _ => return Err(Fault::Row),
    };
    let locale = preferences(alloc, locale)?.locale;
    let language = Language::try_from_str(language)?;
    match world.own.load_menu(marker, locale, language) {
        Ok(name) => {
            let (core, extension) = (name.core.as_str(), name.extension.as_str());
            Ok(format!(in alloc; "[{core}] [{extension}]")?)
        }
        Err(refusal) => written(alloc, &refusal),
    }
}

/// The patterns of a locale, item by item.
pub fn essentials(alloc: Global, world: &World, text: &str) -> Result<String, Fault> {
    let locale = preferences(alloc, text)?.locale;
    match world.own.load_essentials(locale) {
        Ok(patterns) => shown(alloc, patterns),
        Err(refusal) => written(alloc, &refusal),
    }
}

fn shown(alloc: Global, patterns: &LocaleNamesEssentials) -> Result<String, Fault> {
    let mut answer = String::new(alloc);
    write_patterns(&mut answer, patterns)?;
    Ok(answer)
}

fn write_patterns(answer: &mut String, patterns: &LocaleNamesEssentials) -> Result<(), Fault> {
    for item in patterns.locale_pattern.items() {
        write_item(answer, item)?;
        answer.push_str(" ")?;
    }
    answer.push_str("then")?;
    for item in patterns.locale_separator.items() {
        answer.push_str(" ")?;
        write_item(answer, item)?;
    }
    Ok(())
}

fn write_item(answer: &mut String, item: &PatternItem) -> Result<(), Fault> {
    match item {
        PatternItem::Literal(text) => {
            let text = text.as_str();
            write!(answer, "[{text}]")?;
        }
        PatternItem::First => answer.push_str("0")?,
        PatternItem::Second => answer.push_str("1")?,
    }
    Ok(())
}
