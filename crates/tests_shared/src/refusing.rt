//! A provider that refuses some loads.
ghost use Rattle.std.specs.Prelude.{◌≡◌, Err, if◌then◌else◌, true, ◌&&◌};
ghost use Rattle.std.specs.Option.{option_map, unwrap_or};
ghost use Rattle.icu_locale_core.specs.Maps.{value_at};
ghost use Rattle.icu_provider.specs.Requests.{exemplar_cmp, locale_cmp, menu_cmp};
ghost use Rattle.icu_provider.specs.contracts.names.NameKeyPartialEq.TheImpl as name_key;
ghost use Rattle.icu_provider.specs.contracts.names.NameMarkerPartialEq.TheImpl as name_marker;
ghost use Rattle.icu_tables.specs.LentNames.{all_names};
ghost use Rattle.icu_tables.specs.Tables.{held, name_in};

use icu_locale_core::Language;
use icu_provider::{
    Aliases, DataError, DataErrorKind, DataLocale, DataProvider, ExemplarCharactersData,
    ExemplarMarker, LikelySubtagsExtended, LikelySubtagsForLanguage, LikelySubtagsForScriptRegion,
    LocaleNamesEssentials, MenuMarker, MenuNameParts, NameKey, NameMarker, ScriptDirection,
};
use icu_tables::Tables;

/// Tables behind a provider that refuses some loads.
#[derive(Drop)]
pub struct Refusing<'t> {
    tables: &'t Tables,
    pub language: Option<DataError>,
    pub script_region: Option<DataError>,
    pub extended: Option<DataError>,
    pub aliases: Option<DataError>,
    pub directions: Option<DataError>,
    pub exemplars: Option<DataError>,
    pub names: Option<DataError>,
    pub names_at: Option<NameMarker>,
    pub names_of: Option<NameKey>,
    pub menus: Option<DataError>,
    pub essentials: Option<DataError>,
}

impl Refusing<'_> {
    // Whether a name is among those that may be refused.
    fn refuses_name(&self, marker: NameMarker, key: &NameKey) -> bool
        ensures { result ≡ (unwrap_or (option_map (λ at. name_marker.ghosts.eq at marker)
            self.now.names_at) true && unwrap_or (option_map (λ of. name_key.ghosts.eq of key.now)
            self.now.names_of) true) }
    {
        self.refuses_marker(marker) && self.refuses_key(key)
    }

    // The names of one marker, or of each.
    fn refuses_marker(&self, marker: NameMarker) -> bool
        ensures { result ≡ unwrap_or (option_map (λ at. name_marker.ghosts.eq at marker)
            self.now.names_at) true }
    {
        match self.names_at {
            Some(at) => at == marker,
            None => true,
        }
    }

    // The names of one key, or of each.
    fn refuses_key(&self, key: &NameKey) -> bool
        ensures { result ≡ unwrap_or (option_map (λ of. name_key.ghosts.eq of key.now)
            self.now.names_of) true }
    {
        match self.names_of {
            Some(of) => of == *key,
            None => true,
        }
    }
}

impl DataProvider for Refusing<'_> {
    ghost likely_language = { λ p. unwrap_or (option_map (λ e. Err e) p.language)
        (held p.tables.now.likely_language) };

    ghost likely_script_region = { λ p. unwrap_or (option_map (λ e. Err e) p.script_region)
        (held p.tables.now.likely_script_region) };

    ghost likely_extended = { λ p. unwrap_or (option_map (λ e. Err e) p.extended)
        (held p.tables.now.likely_extended) };

    ghost aliases = { λ p. unwrap_or (option_map (λ e. Err e) p.aliases)
        (held p.tables.now.aliases) };

    ghost script_direction = { λ p. unwrap_or (option_map (λ e. Err e) p.directions)
        (held p.tables.now.script_direction) };

    ghost exemplars = { λ p marker locale. unwrap_or (option_map (λ e. Err e) p.exemplars)
        (held (value_at exemplar_cmp p.tables.now.exemplars (marker, locale))) };

    ghost name = { λ p marker locale key.
        if unwrap_or (option_map (λ at. name_marker.ghosts.eq at marker) p.names_at) true
        && unwrap_or (option_map (λ of. name_key.ghosts.eq of key) p.names_of) true
        then unwrap_or (option_map (λ e. Err e) p.names)
        (held (name_in (all_names p.tables.now) marker locale key))
        else held (name_in (all_names p.tables.now) marker locale key) };

    ghost menu = { λ p marker locale language. unwrap_or (option_map (λ e. Err e) p.menus)
        (held (value_at menu_cmp p.tables.now.menus (marker, locale, language))) };

    ghost essentials = { λ p locale. unwrap_or (option_map (λ e. Err e) p.essentials)
        (held (value_at locale_cmp p.tables.now.essentials locale)) };

    fn load_likely_language(&self) -> Result<&LikelySubtagsForLanguage, DataError> {
        match self.language {
            Some(refusal) => Err(refusal),
            None => self.tables.load_likely_language(),
        }
    }

    fn load_likely_script_region(&self) -> Result<&LikelySubtagsForScriptRegion, DataError> {
        match self.script_region {
            Some(refusal) => Err(refusal),
            None => self.tables.load_likely_script_region(),
        }
    }

    fn load_likely_extended(&self) -> Result<&LikelySubtagsExtended, DataError> {
        match self.extended {
            Some(refusal) => Err(refusal),
            None => self.tables.load_likely_extended(),
        }
    }

    fn load_aliases(&self) -> Result<&Aliases, DataError> {
        match self.aliases {
            Some(refusal) => Err(refusal),
            None => self.tables.load_aliases(),
        }
    }

    fn load_script_direction(&self) -> Result<&ScriptDirection, DataError> {
        match self.directions {
            Some(refusal) => Err(refusal),
            None => self.tables.load_script_direction(),
        }
    }

    fn load_exemplars(
        &self,
        marker: ExemplarMarker,
        locale: DataLocale,
    ) -> Result<&ExemplarCharactersData, DataError> {
        match self.exemplars {
            Some(refusal) => Err(refusal),
            None => self.tables.load_exemplars(marker, locale),
        }
    }

    fn load_name(
        &self,
        marker: NameMarker,
        locale: DataLocale,
        key: NameKey,
    ) -> Result<&str, DataError> {
        match self.names {
            Some(refusal) if self.refuses_name(marker, &key) => Err(refusal),
            _ => self.tables.load_name(marker, locale, key),
        }
    }

    fn load_menu(
        &self,
        marker: MenuMarker,
        locale: DataLocale,
        language: Language,
    ) -> Result<&MenuNameParts, DataError> {
        match self.menus {
            Some(refusal) => Err(refusal),
            None => self.tables.load_menu(marker, locale, language),
        }
    }

    fn load_essentials(&self, locale: DataLocale) -> Result<&LocaleNamesEssentials, DataError> {
        match self.essentials {
            Some(refusal) => Err(refusal),
            None => self.tables.load_essentials(locale),
        }
    }
}

/// The kinds of refusals.
pub const KINDS: [DataErrorKind; 6] = [
    DataErrorKind::IdentifierNotFound,
    DataErrorKind::MarkerNotFound,
    DataErrorKind::InvalidRequest,
    DataErrorKind::Deserialize,
    DataErrorKind::Custom,
    DataErrorKind::Memory,
];

/// A provider that refuses nothing yet.
pub fn willing(tables: &Tables) -> Refusing<'_> {
    Refusing {
        tables,
        language: None,
        script_region: None,
        extended: None,
        aliases: None,
        directions: None,
        exemplars: None,
        names: None,
        names_at: None,
        names_of: None,
        menus: None,
        essentials: None,
    }
}

/// A refusal of a kind.
pub fn refusal(kind: DataErrorKind) -> Option<DataError> {
    Some(DataError { kind })
}
