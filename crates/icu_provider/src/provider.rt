//! Where data comes from.

use crate::{
    Aliases, DataError, DataLocale, ExemplarCharactersData, ExemplarMarker, LikelySubtagsExtended,
    LikelySubtagsForLanguage, LikelySubtagsForScriptRegion, LocaleNamesEssentials, MenuMarker,
    MenuNameParts, NameKey, NameMarker, ScriptDirection,
};
use icu_locale_core::Language;

/// A source of data. Each load answers the provider's meaning at that request, at every call the same one, and lends
/// it for the life of the provider.
pub trait DataProvider {
    ghost use Rattle.std.specs.Prelude.{◌≡◌, List, ℕ, Result};
    ghost use Rattle.icu_provider.specs.Provider.{lent};
    ghost use Rattle.icu_provider.specs.declared.error.DataError.{DataError};
    ghost use Rattle.icu_provider.specs.declared.aliases.Aliases.{Aliases};
    ghost use Rattle.icu_provider.specs.declared.likely.language.LikelySubtagsForLanguage.{LikelySubtagsForLanguage};
    ghost use Rattle.icu_provider.specs.declared.likely.script_region.LikelySubtagsForScriptRegion.{LikelySubtagsForScriptRegion};
    ghost use Rattle.icu_provider.specs.declared.likely.extended.LikelySubtagsExtended.{LikelySubtagsExtended};
    ghost use Rattle.icu_provider.specs.declared.direction.ScriptDirection.{ScriptDirection};
    ghost use Rattle.icu_provider.specs.declared.data_locale.DataLocale.{DataLocale};
    ghost use Rattle.icu_provider.specs.declared.exemplars.ExemplarCharactersData.{ExemplarCharactersData};
    ghost use Rattle.icu_provider.specs.declared.exemplars.ExemplarMarker.{ExemplarMarker};
    ghost use Rattle.icu_provider.specs.declared.essentials.LocaleNamesEssentials.{LocaleNamesEssentials};
    ghost use Rattle.icu_provider.specs.declared.names.MenuMarker.{MenuMarker};
    ghost use Rattle.icu_provider.specs.declared.names.MenuNameParts.{MenuNameParts};
    ghost use Rattle.icu_provider.specs.declared.names.NameKey.{NameKey};
    ghost use Rattle.icu_provider.specs.declared.names.NameMarker.{NameMarker};

    ghost likely_language: { Self → Result LikelySubtagsForLanguage DataError };

    ghost likely_script_region: { Self → Result LikelySubtagsForScriptRegion DataError };

    ghost likely_extended: { Self → Result LikelySubtagsExtended DataError };

    ghost aliases: { Self → Result Aliases DataError };

    ghost script_direction: { Self → Result ScriptDirection DataError };

    ghost exemplars: { Self → ExemplarMarker → DataLocale
        → Result ExemplarCharactersData DataError };

    ghost name: { Self → NameMarker → DataLocale → NameKey → Result (List ℕ) DataError };

    ghost menu: { Self → MenuMarker → DataLocale → List ℕ
        → Result MenuNameParts DataError };

    ghost essentials: { Self → DataLocale → Result LocaleNamesEssentials DataError };

    /// The likely subtags by language.
    ///
    /// # Errors
    ///
    /// Those of the provider.
    fn load_likely_language(&self) -> Result<&LikelySubtagsForLanguage, DataError>
        ensures { lent result ≡ likely_language self.now };

    /// The likely subtags by script and region.
    ///
    /// # Errors
    ///
    /// Those of the provider.
    fn load_likely_script_region(&self) -> Result<&LikelySubtagsForScriptRegion, DataError>
        ensures { lent result ≡ likely_script_region self.now };

    /// The further likely subtags, which the other two tables cover.
    ///
    /// # Errors
    ///
    /// Those of the provider.
    fn load_likely_extended(&self) -> Result<&LikelySubtagsExtended, DataError>
        ensures { lent result ≡ likely_extended self.now };

    /// The rules of canonicalization.
    ///
    /// # Errors
    ///
    /// Those of the provider.
    fn load_aliases(&self) -> Result<&Aliases, DataError>
        ensures { lent result ≡ aliases self.now };

    /// Which way scripts run.
    ///
    /// # Errors
    ///
    /// Those of the provider.
    fn load_script_direction(&self) -> Result<&ScriptDirection, DataError>
        ensures { lent result ≡ script_direction self.now };

    /// A set of exemplar characters of a locale.
    ///
    /// # Errors
    ///
    /// Those of the provider.
    fn load_exemplars(
        &self,
        marker: ExemplarMarker,
        locale: DataLocale,
    ) -> Result<&ExemplarCharactersData, DataError>
        ensures { lent result ≡ exemplars self.now marker locale };

    /// A name in the language of a locale.
    ///
    /// # Errors
    ///
    /// Those of the provider.
    fn load_name(
        &self,
        marker: NameMarker,
        locale: DataLocale,
        key: NameKey,
    ) -> Result<&str, DataError>
        ensures { lent result ≡ name self.now marker locale key };

    /// The name of a language in a menu, in the language of a locale.
    ///
    /// # Errors
    ///
    /// Those of the provider.
    fn load_menu(
        &self,
        marker: MenuMarker,
        locale: DataLocale,
        language: Language,
    ) -> Result<&MenuNameParts, DataError>
        ensures { lent result ≡ menu self.now marker locale language };

    /// How the parts of a locale's name are put together, in the language of a locale.
    ///
    /// # Errors
    ///
    /// Those of the provider.
    fn load_essentials(&self, locale: DataLocale) -> Result<&LocaleNamesEssentials, DataError>
        ensures { lent result ≡ essentials self.now locale };
}
