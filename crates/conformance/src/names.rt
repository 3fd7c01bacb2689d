//! Exemplar sets, and names of regions, scripts and variants.
use crate::fault::Fault;
use crate::likely::yes_or_no;
use crate::texts::written;
use crate::world::World;
use icu_locale::exemplar_chars::ExemplarCharacters;
use icu_locale_core::{LanguageIdentifier, Locale, Region, Script, Variant};
use icu_locale_names::{
    DisplayNamesPreferences, RegionDisplayName, ScriptDisplayName, VariantDisplayName,
};
use icu_provider::{DataError, DataLocale, ExemplarCharactersData};
use icu_tables::Tables;
use std::alloc::Global;
use std::fmt;

/// Whether the bounds are an inversion list.
pub fn inversion_list(alloc: Global, text: &str) -> Result<String, Fault> {
    let mut bounds = Vec::new(alloc);
    for word in text.split_whitespace() {
        bounds.push(u32::from_str_radix(word, 10).ok().ok_or(Fault::Row)?)?;
    }
    match ExemplarCharactersData::try_new(bounds, Vec::new(alloc)) {
        Ok(_) => written(alloc, &"accepted"),
        Err(refusal) => written(alloc, &refusal),
    }
}

/// Whether the set of a constructor and a locale has a text.
pub fn exemplars(alloc: Global, world: &World, text: &str) -> Result<String, Fault> {
    let mut words = text.split(' ');
    let constructor = words.next().unwrap_or("");
    let locale = preferences(alloc, words.next().unwrap_or(""))?.locale;
    match exemplar_set(world.exemplars(), constructor, locale)? {
        Ok(set) => has(alloc, &set, words.next().unwrap_or("")),
        Err(refusal) => written(alloc, &refusal),
    }
}

fn exemplar_set<'t>(
    tables: &'t Tables,
    constructor: &str,
    locale: DataLocale,
) -> Result<Result<ExemplarCharacters<'t>, DataError>, Fault> {
    match constructor {
        "try_new_main_unstable" => { Ok(ExemplarCharacters::try_new_main_unstable(tables, locale)) }
        "try_new_auxiliary_unstable" => {
            Ok(ExemplarCharacters::try_new_auxiliary_unstable(tables, locale))
        }
        "try_new_punctuation_unstable" => {
            Ok(ExemplarCharacters::try_new_punctuation_unstable(tables, locale))
        }
        "try_new_numbers_unstable" => {
            Ok(ExemplarCharacters::try_new_numbers_unstable(tables, locale))
        }
        "try_new_index_unstable" => {
            Ok(ExemplarCharacters::try_new_index_unstable(tables, locale))
        }
        _ => Err(Fault::Row),
    }
}

// A text of one character must be in exactly where the character is.
fn has(alloc: Global, set: &ExemplarCharacters<'_>, text: &str) -> Result<String, Fault> {
    let set = set.as_borrowed();
    let is_in = set.contains_str(text);
    let mut characters = text.chars();
    if let (Some(character), None) = (characters.next(), characters.next()) {
        if set.contains(character) != is_in {
            return Err(Fault::Row);
        }
    }
    written(alloc, &yes_or_no(is_in))
}

/// The preferences of a locale's text.
pub fn preferences(alloc: Global, text: &str) -> Result<DisplayNamesPreferences, Fault> {
    let id = LanguageIdentifier::try_from_str(alloc, text)?;
    let parts = DisplayNamesPreferences::new(id.language, id.script, id.region);
    let whole = DisplayNamesPreferences::from_locale(&Locale::new(alloc, id));
    if parts == whole {
        Ok(whole)
    } else {
        Err(Fault::Row)
    }
}

/// The name that a constructor makes of preferences and a subtag.
pub fn name(alloc: Global, world: &World, kind: &str, text: &str) -> Result<String, Fault> {
    let mut words = text.split(' ');
    let constructor = words.next().unwrap_or("");
    let preferences = preferences(alloc, words.next().unwrap_or(""))?;
    let subtag = words.next().unwrap_or("");
    let tables = world.names();
    match kind {
        "region" => region(alloc, tables, constructor, preferences, subtag),
        "script" => script(alloc, tables, constructor, preferences, subtag),
        _ => variant(alloc, tables, constructor, preferences, subtag),
    }
}

// A name and the same name lent again, which must be written alike, or the refusal's name.
fn lent_alike<N: fmt::Display, B: fmt::Display>(
    alloc: Global,
    name: &N,
    lent: B,
) -> Result<String, Fault>
where
    B: Drop,
{
    let text = format!(in alloc; "{name}")?;
    let again = format!(in alloc; "{lent}")?;
    if text == again {
        Ok(text)
    } else {
        Err(Fault::Row)
    }
}

fn region(
    alloc: Global,
    tables: &Tables,
    constructor: &str,
    preferences: DisplayNamesPreferences,
    subtag: &str,
) -> Result<String, Fault> {
    let region = Region::try_from_str(subtag)?;
    let name = match constructor {
        "try_new_tiny_unstable" => {
            RegionDisplayName::try_new_tiny_unstable(tables, preferences, region)
        }
        "try_new_short_tiny_unstable" => {
            RegionDisplayName::try_new_short_tiny_unstable(tables, preferences, region)
        }
        "try_new_light_unstable" => {
            RegionDisplayName::try_new_light_unstable(tables, preferences, region)
        }
        "try_new_short_light_unstable" => {
            RegionDisplayName::try_new_short_light_unstable(tables, preferences, region)
        }
        "new_tiny_with_fallback" => {
            Ok(RegionDisplayName::new_tiny_with_fallback(tables, preferences, region))
        }
        "new_short_tiny_with_fallback" => {
            Ok(RegionDisplayName::new_short_tiny_with_fallback(tables, preferences, region))
        }
        "new_light_with_fallback" => {
            Ok(RegionDisplayName::new_light_with_fallback(tables, preferences, region))
        }
        "new_short_light_with_fallback" => {
            Ok(RegionDisplayName::new_short_light_with_fallback(tables, preferences, region))
        }
        _ => return Err(Fault::Row),
    };
    match name {
        Ok(name) => lent_alike(alloc, &name, name.as_borrowed()),
        Err(refusal) => written(alloc, &refusal),
    }
}

fn script(
    alloc: Global,
    tables: &Tables,
    constructor: &str,
    preferences: DisplayNamesPreferences,
    subtag: &str,
) -> Result<String, Fault> {
    let script = Script::try_from_str(subtag)?;
    let name = match constructor {
        "try_new_tiny_unstable" => {
            ScriptDisplayName::try_new_tiny_unstable(tables, preferences, script)
        }
        "try_new_light_unstable" => {
            ScriptDisplayName::try_new_light_unstable(tables, preferences, script)
        }
        "try_new_heavy_unstable" => {
            ScriptDisplayName::try_new_heavy_unstable(tables, preferences, script)
        }
        "try_new_short_heavy_unstable" => {
            ScriptDisplayName::try_new_short_heavy_unstable(tables, preferences, script)
        }
        "new_tiny_with_fallback" => {
            Ok(ScriptDisplayName::new_tiny_with_fallback(tables, preferences, script))
        }
        "new_light_with_fallback" => {
            Ok(ScriptDisplayName::new_light_with_fallback(tables, preferences, script))
        }
        "new_heavy_with_fallback" => {
            Ok(ScriptDisplayName::new_heavy_with_fallback(tables, preferences, script))
        }
        "new_short_heavy_with_fallback" => {
            Ok(ScriptDisplayName::new_short_heavy_with_fallback(tables, preferences, script))
        }
        _ => return Err(Fault::Row),
    };
    match name {
        Ok(name) => lent_alike(alloc, &name, name.as_borrowed()),
        Err(refusal) => written(alloc, &refusal),
    }
}

fn variant(
    alloc: Global,
    tables: &Tables,
    constructor: &str,
    preferences: DisplayNamesPreferences,
    subtag: &str,
) -> Result<String, Fault> {
    let variant = Variant::try_from_str(subtag)?;
    let name = match constructor {
        "try_new_heavy_unstable" => {
            VariantDisplayName::try_new_heavy_unstable(tables, preferences, variant)
        }
        "new_heavy_with_fallback" => {
            Ok(VariantDisplayName::new_heavy_with_fallback(tables, preferences, variant))
        }
        _ => return Err(Fault::Row),
    };
    match name {
        Ok(name) => lent_alike(alloc, &name, name.as_borrowed()),
        Err(refusal) => written(alloc, &refusal),
    }
}
