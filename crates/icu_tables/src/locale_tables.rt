//! Tables with what names are made of in one locale found beforehand.
ghost use Rattle.std.specs.Prelude.{◌≡◌, option_copied};
ghost use Rattle.icu_locale_core.specs.Maps.{value_at};
ghost use Rattle.icu_provider.specs.Requests.{exemplar_cmp, locale_cmp, menu_cmp};
ghost use Rattle.icu_tables.specs.LentNames.{all_names};
ghost use Rattle.icu_tables.specs.Tables.{held, name_in};

use crate::kinds::is_of_kind;
use crate::tables::NOT_FOUND;
use crate::{LocaleNames, Tables};
use icu_locale_core::Language;
use icu_provider::laws::equality_is_told;
use icu_provider::{
    Aliases, DataError, DataLocale, DataProvider, ExemplarCharactersData, ExemplarMarker,
    LikelySubtagsExtended, LikelySubtagsForLanguage, LikelySubtagsForScriptRegion,
    LocaleNamesEssentials, MenuMarker, MenuNameParts, NameKey, NameMarker, ScriptDirection,
};

/// Tables whose names are asked in one locale again and again: the names of that locale, and how their parts are put
/// together, are found once. They answer as the tables do. No call takes memory.
#[derive(Debug, Drop)]
pub struct LocaleTables<'d> {
    /// The tables.
    pub tables: &'d Tables,
    /// Their names.
    pub names: LocaleNames<'d>,
    locale: DataLocale,
    // How the parts of names are put together in that locale, if the tables say so.
    essentials: Option<&'d LocaleNamesEssentials>,
    ghost found: { option_copied essentials ≡ value_at locale_cmp tables.now.essentials locale },
}

impl<'d> LocaleTables<'d> {
    /// Tables, to be asked in a locale.
    pub fn new(tables: &'d Tables, locale: DataLocale) -> Self
        ensures tables { result.tables.now ≡ tables.now }
        ensures names { result.names ≡ all_names tables.now }
    {
        LocaleTables {
            tables,
            names: LocaleNames::new(&tables.names, tables.lent_names.as_ref(), locale),
            locale,
            essentials: tables.essentials.get(&locale),
        }
    }
}

impl<'d> DataProvider for LocaleTables<'d> {
    ghost likely_language = { λ t. held t.tables.now.likely_language };

    ghost likely_script_region = { λ t. held t.tables.now.likely_script_region };

    ghost likely_extended = { λ t. held t.tables.now.likely_extended };

    ghost aliases = { λ t. held t.tables.now.aliases };

    ghost script_direction = { λ t. held t.tables.now.script_direction };

    ghost exemplars = { λ t marker locale.
        held (value_at exemplar_cmp t.tables.now.exemplars (marker, locale)) };

    ghost name = { λ t marker locale key. held (name_in t.names marker locale key) };

    ghost menu = { λ t marker locale language.
        held (value_at menu_cmp t.tables.now.menus (marker, locale, language)) };

    ghost essentials = { λ t locale.
        held (value_at locale_cmp t.tables.now.essentials locale) };

    fn load_likely_language(&self) -> Result<&LikelySubtagsForLanguage, DataError> {
        self.tables.load_likely_language()
    }

    fn load_likely_script_region(&self) -> Result<&LikelySubtagsForScriptRegion, DataError> {
        self.tables.load_likely_script_region()
    }

    fn load_likely_extended(&self) -> Result<&LikelySubtagsExtended, DataError> {
        self.tables.load_likely_extended()
    }

    fn load_aliases(&self) -> Result<&Aliases, DataError> {
        self.tables.load_aliases()
    }

    fn load_script_direction(&self) -> Result<&ScriptDirection, DataError> {
        self.tables.load_script_direction()
    }

    fn load_exemplars(
        &self,
        marker: ExemplarMarker,
        locale: DataLocale,
    ) -> Result<&ExemplarCharactersData, DataError> {
        self.tables.load_exemplars(marker, locale)
    }

    fn load_name(
        &self,
        marker: NameMarker,
        locale: DataLocale,
        key: NameKey,
    ) -> Result<&str, DataError> {
        if !is_of_kind(marker, &key) {
            return Err(NOT_FOUND);
        }
        self.names.get(marker, locale, &key).ok_or(NOT_FOUND)
    }

    fn load_menu(
        &self,
        marker: MenuMarker,
        locale: DataLocale,
        language: Language,
    ) -> Result<&MenuNameParts, DataError> {
        self.tables.load_menu(marker, locale, language)
    }

    fn load_essentials(&self, locale: DataLocale) -> Result<&LocaleNamesEssentials, DataError> {
        equality_is_told();
        if locale == self.locale {
            self.essentials.ok_or(NOT_FOUND)
        } else {
            self.tables.load_essentials(locale)
        }
    }
}
