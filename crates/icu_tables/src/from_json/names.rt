//! Markers, keys and values of names, and of names in menus.
ghost use Rattle.std.specs.Prelude.{◌≡◌};

use crate::from_json::keys::RowKey;
use crate::from_json::locales::locale_named;
use crate::from_json::marked::{MarkedKey, Marker, named_among};
use crate::from_json::rows::FromRows;
use crate::from_json::values::FromValue;
use crate::kinds::{names_languages, names_regions, names_scripts};
use crate::{NameRows, TableError};
use icu_locale_core::{Language, Region, Script, Variant};
use icu_provider::{DataLocale, MenuMarker, MenuNameParts, NameKey, NameMarker, TableText};
use serde_json::Value;
use std::alloc::{AllocError, Global};

impl FromRows<(NameMarker, DataLocale, NameKey), TableText> for NameRows {
    ghost use Rattle.std.specs.Prelude.{◌≡◌, IfOk};
    ghost use Rattle.icu_provider.specs.Requests.{name_cmp};
    ghost use Rattle.icu_provider.specs.SortedMaps.{IsSortedMap};

    ghost kept = { λ names. names };

    // Rows come in order, so that none has to make room, and a group is noted when the next begins.
    fn from_rows(
        alloc: Global,
        rows: Vec<((NameMarker, DataLocale, NameKey), TableText)>,
    ) -> Result<Self, AllocError>
        requires { IsSortedMap name_cmp rows.items }
        ensures { IfOk result (λ names. names ≡ rows.items) }
    {
        let mut names = NameRows::new(alloc);
        let mut group = None;
        for ((marker, locale, key), name) in rows {
            enter_group(alloc, &mut names, &mut group, &marker, &locale)?;
            let Ok(()) = names.put(alloc, marker, locale, key, name) else {
                return Err(AllocError);
            };
        }
        note_group(alloc, &mut names, group)?;
        Ok(names)
    }
}

// Goes on to the group of a marker and a locale, and notes the one before, where that is another.
fn enter_group(
    alloc: Global,
    names: &mut NameRows,
    group: &mut Option<(NameMarker, DataLocale)>,
    marker: &NameMarker,
    locale: &DataLocale,
) -> Result<(), AllocError>
    ensures { names.new ≡ names.old }
{
    if is_group(group, marker, locale) {
        return Ok(());
    }
    note_group(alloc, names, *group)?;
    *group = Some((*marker, *locale));
    Ok(())
}

// Whether these are the marker and the locale of a group.
fn is_group(
    group: &Option<(NameMarker, DataLocale)>,
    marker: &NameMarker,
    locale: &DataLocale,
) -> bool {
    match group {
        Some(group) => group.0 == *marker && group.1 == *locale,
        None => false,
    }
}

// Notes where the names of a group are, once they are all there.
fn note_group(
    alloc: Global,
    names: &mut NameRows,
    group: Option<(NameMarker, DataLocale)>,
) -> Result<(), AllocError>
    ensures { names.new ≡ names.old }
{
    let Some((marker, locale)) = group else {
        return Ok(());
    };
    match names.note(alloc, marker, locale) {
        Ok(()) => Ok(()),
        Err(_) => Err(AllocError),
    }
}

const NAME_MARKERS: [(&str, NameMarker); 16] = [
    ("region/medium/tiny", NameMarker::RegionMediumTiny),
    ("region/medium/light", NameMarker::RegionMediumLight),
    ("region/short/tiny", NameMarker::RegionShortTiny),
    ("region/short/light", NameMarker::RegionShortLight),
    ("language/medium/tiny", NameMarker::LanguageMediumTiny),
    ("language/medium/light", NameMarker::LanguageMediumLight),
    ("language/medium/heavy", NameMarker::LanguageMediumHeavy),
    ("language/short/light", NameMarker::LanguageShortLight),
    ("language/short/heavy", NameMarker::LanguageShortHeavy),
    ("language/long/light", NameMarker::LanguageLongLight),
    ("language/long/heavy", NameMarker::LanguageLongHeavy),
    ("script/medium/tiny", NameMarker::ScriptMediumTiny),
    ("script/medium/light", NameMarker::ScriptMediumLight),
    ("script/medium/heavy", NameMarker::ScriptMediumHeavy),
    ("script/short/heavy", NameMarker::ScriptShortHeavy),
    ("variant/medium/heavy", NameMarker::VariantMediumHeavy),
];

impl Marker for NameMarker {
    ghost use Rattle.icu_tables.specs.Names.{name_markers};

    ghost markers = { name_markers };

    fn marker_named(name: &str) -> Option<NameMarker> {
        named_among(&NAME_MARKERS, name)
    }
}

// A key of the marker's kind.
impl MarkedKey<NameMarker> for NameKey {
    ghost use Rattle.icu_tables.specs.Names.{name_key};

    ghost marked_key = { name_key };

    fn key_named(marker: NameMarker, name: &str) -> Option<NameKey> {
        if names_languages(marker) {
            let locale = locale_named(name)?;
            Some(NameKey::Language(locale.language, locale.script, locale.region))
        } else if names_scripts(marker) {
            Some(NameKey::Script(Script::from_name(name)?))
        } else if names_regions(marker) {
            Some(NameKey::Region(Region::from_name(name)?))
        } else {
            Some(NameKey::Variant(Variant::from_name(name)?))
        }
    }
}

impl FromValue for MenuNameParts {
    ghost use Rattle.icu_provider.specs.declared.names.MenuNameParts.{MenuNameParts};
    ghost use Rattle.icu_tables.specs.NamedRows.{menu_name};

    ghost Seen = { MenuNameParts };

    ghost seen = { λ name. name };

    ghost shape = { menu_name };

    fn from_value(alloc: Global, value: &Value) -> Result<Self, TableError> {
        let (core, extension) = <(String, String)>::from_value(alloc, value)?;
        Ok(MenuNameParts { core, extension })
    }
}

const MENU_MARKERS: [(&str, MenuMarker); 2] = [
    ("language/menu/medium/light", MenuMarker::MediumLight),
    ("language/menu/medium/heavy", MenuMarker::MediumHeavy),
];

impl Marker for MenuMarker {
    ghost use Rattle.icu_tables.specs.Names.{menu_markers};

    ghost markers = { menu_markers };

    fn marker_named(name: &str) -> Option<MenuMarker> {
        named_among(&MENU_MARKERS, name)
    }
}

impl MarkedKey<MenuMarker> for Language {
    ghost use Rattle.icu_tables.specs.Subtags.{language_key};

    ghost marked_key = { λ _. language_key };

    fn key_named(_marker: MenuMarker, name: &str) -> Option<Language> {
        Language::from_name(name)
    }
}
