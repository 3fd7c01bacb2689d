//! Tables in memory, and the provider that they are.
ghost use Rattle.std.specs.Prelude.{◌≡◌, [], IfOk, Some, None, option_copied, string_bytes};
ghost use Rattle.icu_locale_core.specs.Maps.{value_at};
ghost use Rattle.icu_provider.specs.SortedMaps.{Inserts, IsSortedMap};
ghost use Rattle.icu_provider.specs.Requests.{exemplar_cmp, locale_cmp, menu_cmp, name_cmp};
ghost use Rattle.icu_tables.specs.LentNames.{all_names};
ghost use Rattle.icu_tables.specs.NamedKeys.{AreNamedKeys};
ghost use Rattle.icu_tables.specs.Supplement.{no_supplement};
ghost use Rattle.icu_tables.specs.Tables.{held, name_in};

use crate::kinds::is_of_kind;
use crate::lent_names::own_or_lent;
use crate::named_keys::named_keys;
use crate::{NameRows, Supplement};
use icu_locale_core::Language;
use icu_provider::{
    Aliases, DataError, DataErrorKind, DataLocale, DataProvider, ExemplarCharactersData,
    ExemplarMarker, LikelySubtagsExtended, LikelySubtagsForLanguage, LikelySubtagsForScriptRegion,
    LocaleNamesEssentials, MenuMarker, MenuNameParts, NameKey, NameMarker, ScriptDirection,
    SortedMap,
};
use icu_tables_flat::FlatTexts;
use std::alloc::{AllocError, Global};

/// Data in memory. A load of what is not held is refused by `IdentifierNotFound`. Only an insert of a key that is not
/// there yet takes memory.
#[derive(Debug)]
pub struct Tables {
    /// The likely subtags by language, if any are held.
    pub likely_language: Option<LikelySubtagsForLanguage>,
    /// The likely subtags by script and region, if any are held.
    pub likely_script_region: Option<LikelySubtagsForScriptRegion>,
    /// The further likely subtags, if any are held.
    pub likely_extended: Option<LikelySubtagsExtended>,
    /// The rules of canonicalization, if any are held.
    pub aliases: Option<Aliases>,
    /// Which way scripts run, if it is held.
    pub script_direction: Option<ScriptDirection>,
    /// The sets of exemplar characters, by marker and locale.
    pub exemplars: SortedMap<(ExemplarMarker, DataLocale), ExemplarCharactersData>,
    /// The names, by marker and locale, and then by key.
    pub names: NameRows,
    /// Names in the flat form, if any are lent. One of `names` goes before one that is lent.
    pub lent_names: Option<FlatTexts<'static>>,
    /// The names in menus, by marker, locale and language.
    pub menus: SortedMap<(MenuMarker, DataLocale, Language), MenuNameParts>,
    /// How the parts of names are put together, by locale.
    pub essentials: SortedMap<DataLocale, LocaleNamesEssentials>,
    /// What is beside the tables: parents, and rules of language matching. A JSON text of tables has none of it.
    pub supplement: Supplement,
}

impl Drop for Tables {
    fn drop(self) {
        let Tables {
            likely_language: _,
            likely_script_region: _,
            likely_extended: _,
            aliases: _,
            script_direction: _,
            exemplars: _,
            names: _,
            lent_names: _,
            menus: _,
            essentials: _,
            supplement: _,
        } = self;
    }
}

impl Tables {
    /// Tables that hold nothing.
    pub fn new(alloc: Global) -> Self
        ensures { result ≡ record {
          likely_language = None;
          likely_script_region = None;
          likely_extended = None;
          aliases = None;
          script_direction = None;
          exemplars = [];
          names = [];
          lent_names = None;
          menus = [];
          essentials = [];
          supplement = no_supplement;
        } }
    {
        Tables {
            likely_language: None,
            likely_script_region: None,
            likely_extended: None,
            aliases: None,
            script_direction: None,
            exemplars: SortedMap::new(alloc),
            names: NameRows::new(alloc),
            lent_names: None,
            menus: SortedMap::new(alloc),
            essentials: SortedMap::new(alloc),
            supplement: Supplement::new(alloc),
        }
    }

    /// Takes the likely subtags by language, in place of what was held.
    pub fn set_likely_language(&mut self, table: LikelySubtagsForLanguage)
        ensures { self.new ≡ record self.old { likely_language = Some table } }
    {
        self.likely_language = Some(table);
    }

    /// Takes the likely subtags by script and region, in place of what was held.
    pub fn set_likely_script_region(&mut self, table: LikelySubtagsForScriptRegion)
        ensures { self.new ≡ record self.old { likely_script_region = Some table } }
    {
        self.likely_script_region = Some(table);
    }

    /// Takes the further likely subtags, in place of what was held.
    pub fn set_likely_extended(&mut self, table: LikelySubtagsExtended)
        ensures { self.new ≡ record self.old { likely_extended = Some table } }
    {
        self.likely_extended = Some(table);
    }

    /// Takes the rules of canonicalization, in place of what was held.
    pub fn set_aliases(&mut self, table: Aliases)
        ensures { self.new ≡ record self.old { aliases = Some table } }
    {
        self.aliases = Some(table);
    }

    /// Takes which way scripts run, in place of what was held.
    pub fn set_script_direction(&mut self, table: ScriptDirection)
        ensures { self.new ≡ record self.old { script_direction = Some table } }
    {
        self.script_direction = Some(table);
    }

    /// Takes a supplement, in place of what was held.
    pub fn set_supplement(&mut self, supplement: Supplement)
        ensures { self.new ≡ record self.old { supplement = supplement } }
    {
        self.supplement = supplement;
    }

    /// Takes names in the flat form, in place of those lent before: a row is the name of a locale and a marker, such as
    /// `zh-Hant/language/medium/light`, a key and its name. A row whose name or key is not in written form is skipped. It
    /// takes no memory.
    pub fn set_lent_names(&mut self, names: FlatTexts<'static>)
        ensures { self.new ≡ record self.old { lent_names = Some names.entry } }
    {
        self.lent_names = Some(names);
    }

    /// Sets the exemplar characters of a marker and a locale. A set that is there gives way.
    ///
    /// # Errors
    ///
    /// `Memory`, only for a key that is not there yet, where memory for the row was refused: the
    /// tables are unchanged then.
    pub fn insert_exemplars(
        &mut self,
        marker: ExemplarMarker,
        locale: DataLocale,
        set: ExemplarCharactersData,
    ) -> Result<(), DataError>
        ensures tables { self.new ≡ record self.old { exemplars = self.new.exemplars } }
        ensures insert { Inserts exemplar_cmp self.old.exemplars self.new.exemplars
            (marker, locale) set result }
    {
        self.exemplars.insert((marker, locale), set)
    }

    /// Sets the name of a marker, a locale and a key. A name that is there gives way.
    /// A key of another kind than its marker is kept, and no load finds it.
    ///
    /// # Errors
    ///
    /// `Memory`, only for a key that is not there yet, where memory for the row was refused: the
    /// tables are unchanged then.
    pub fn insert_name(
        &mut self,
        marker: NameMarker,
        locale: DataLocale,
        key: NameKey,
        name: String,
    ) -> Result<(), DataError>
        ensures tables { self.new ≡ record self.old { names = self.new.names } }
        ensures insert { Inserts name_cmp self.old.names self.new.names
            (marker, locale, key) (string_bytes name) result }
    {
        self.names.insert(marker, locale, key, name)
    }

    /// Sets the name in menus of a marker, a locale and a language. A name that is there gives
    /// way.
    ///
    /// # Errors
    ///
    /// `Memory`, only for a key that is not there yet, where memory for the row was refused: the
    /// tables are unchanged then.
    pub fn insert_menu(
        &mut self,
        marker: MenuMarker,
        locale: DataLocale,
        language: Language,
        name: MenuNameParts,
    ) -> Result<(), DataError>
        ensures tables { self.new ≡ record self.old { menus = self.new.menus } }
        ensures insert { Inserts menu_cmp self.old.menus self.new.menus
            (marker, locale, language) name result }
    {
        self.menus.insert((marker, locale, language), name)
    }

    /// Sets how the parts of names are put together in the language of a locale. What is there
    /// gives way.
    ///
    /// # Errors
    ///
    /// `Memory`, only for a key that is not there yet, where memory for the row was refused: the
    /// tables are unchanged then.
    pub fn insert_essentials(
        &mut self,
        locale: DataLocale,
        patterns: LocaleNamesEssentials,
    ) -> Result<(), DataError>
        ensures tables { self.new ≡ record self.old { essentials = self.new.essentials } }
        ensures insert { Inserts locale_cmp self.old.essentials self.new.essentials
            locale patterns result }
    {
        self.essentials.insert(locale, patterns)
    }

    /// Nothing, but that in each of these maps the keys rise, so that no key comes twice.
    pub fn known(&self)
        ensures exemplars { IsSortedMap exemplar_cmp self.now.exemplars }
        ensures names { IsSortedMap name_cmp self.now.names }
        ensures menus { IsSortedMap menu_cmp self.now.menus }
        ensures essentials { IsSortedMap locale_cmp self.now.essentials }
    {
        let _ = self.exemplars.as_slice();
        self.names.known();
        let _ = self.menus.as_slice();
        let _ = self.essentials.as_slice();
    }

    /// The keys that some of the markers names in a locale, own names and lent ones, each once, in rising order. It takes
    /// memory for them.
    ///
    /// # Errors
    ///
    /// The allocator's, where memory for the keys was refused.
    pub fn name_keys_in(
        &self,
        alloc: Global,
        markers: &[NameMarker],
        locale: &DataLocale,
    ) -> Result<Vec<NameKey>, AllocError>
        ensures { IfOk result (λ keys.
            AreNamedKeys (all_names self.now) markers.now locale.now keys.items) }
    {
        named_keys(
            alloc,
            &self.names,
            self.lent_names.as_ref(),
            markers,
            locale,
        )
    }

    // The name of a request, of any kind.
    #[inline]
    fn name_at(&self, marker: NameMarker, locale: DataLocale, key: NameKey) -> Option<&str>
        ensures { option_copied result
            ≡ value_at name_cmp (all_names self.now) (marker, locale, key) }
    {
        let own = self.names.get(marker, locale, &key);
        own_or_lent(own, self.lent_names.as_ref(), marker, &locale, &key)
    }
}

pub(crate) const NOT_FOUND: DataError = DataError {
    kind: DataErrorKind::IdentifierNotFound,
};

impl DataProvider for Tables {
    ghost likely_language = { λ t. held t.likely_language };

    ghost likely_script_region = { λ t. held t.likely_script_region };

    ghost likely_extended = { λ t. held t.likely_extended };

    ghost aliases = { λ t. held t.aliases };

    ghost script_direction = { λ t. held t.script_direction };

    ghost exemplars = { λ t marker locale.
        held (value_at exemplar_cmp t.exemplars (marker, locale)) };

    ghost name = { λ t marker locale key. held (name_in (all_names t) marker locale key) };

    ghost menu = { λ t marker locale language.
        held (value_at menu_cmp t.menus (marker, locale, language)) };

    ghost essentials = { λ t locale. held (value_at locale_cmp t.essentials locale) };

    fn load_likely_language(&self) -> Result<&LikelySubtagsForLanguage, DataError> {
        self.likely_language.as_ref().ok_or(NOT_FOUND)
    }

    fn load_likely_script_region(&self) -> Result<&LikelySubtagsForScriptRegion, DataError> {
        self.likely_script_region.as_ref().ok_or(NOT_FOUND)
    }

    fn load_likely_extended(&self) -> Result<&LikelySubtagsExtended, DataError> {
        self.likely_extended.as_ref().ok_or(NOT_FOUND)
    }

    fn load_aliases(&self) -> Result<&Aliases, DataError> {
        self.aliases.as_ref().ok_or(NOT_FOUND)
    }

    fn load_script_direction(&self) -> Result<&ScriptDirection, DataError> {
        self.script_direction.as_ref().ok_or(NOT_FOUND)
    }

    fn load_exemplars(
        &self,
        marker: ExemplarMarker,
        locale: DataLocale,
    ) -> Result<&ExemplarCharactersData, DataError> {
        self.exemplars.get(&(marker, locale)).ok_or(NOT_FOUND)
    }

    fn load_name(
        &self,
        marker: NameMarker,
        locale: DataLocale,
        key: NameKey,
    ) -> Result<&str, DataError> {
        if !is_of_kind(marker, &key) {
            return Err(NOT_FOUND);
        }
        self.name_at(marker, locale, key).ok_or(NOT_FOUND)
    }

    fn load_menu(
        &self,
        marker: MenuMarker,
        locale: DataLocale,
        language: Language,
    ) -> Result<&MenuNameParts, DataError> {
        self.menus.get(&(marker, locale, language)).ok_or(NOT_FOUND)
    }

    fn load_essentials(&self, locale: DataLocale) -> Result<&LocaleNamesEssentials, DataError> {
        self.essentials.get(&locale).ok_or(NOT_FOUND)
    }
}
