//! Locales as names of members.
ghost use Rattle.std.specs.Prelude.{◌≡◌};
ghost use Rattle.icu_tables.specs.Names.{locale_key, script_and_region};

use crate::from_json::keys::RowKey;
use crate::from_json::members::NamesKeys;
use icu_locale_core::{Language, Region, Script};
use icu_provider::DataLocale;

// A locale in written form.
pub(crate) fn locale_named(name: &str) -> Option<DataLocale>
    ensures { result ≡ locale_key name.now }
{
    match name.split_once('-') {
        Some((first, rest)) => {
            let language = Language::from_name(first)?;
            let (script, region) = script_and_region(rest)?;
            Some(DataLocale {
                language,
                script,
                region,
            })
        }
        None => Some(DataLocale {
            language: Language::from_name(name)?,
            script: None,
            region: None,
        }),
    }
}

// What follows the language: a script, a region, or both.
fn script_and_region(text: &str) -> Option<(Option<Script>, Option<Region>)>
    ensures { result ≡ script_and_region text.now }
{
    if let Some(script) = Script::from_name(text) {
        return Some((Some(script), None));
    }
    if let Some(region) = Region::from_name(text) {
        return Some((None, Some(region)));
    }
    let (script, region) = <(Script, Region)>::from_name(text)?;
    Some((Some(script), Some(region)))
}

// Locales as keys.
#[derive(Clone, Copy)]
pub(crate) struct Locales;

impl NamesKeys<DataLocale> for Locales {
    ghost use Rattle.icu_tables.specs.Names.{locale_key};

    ghost key = { λ _. locale_key };

    fn key_named(&self, name: &str) -> Option<DataLocale> {
        locale_named(name)
    }
}
