//! Look-ups in the one likely table of an expander.
ghost use Rattle.std.specs.Prelude.{◌≡◌, not, false, Some, None, IsSome, is_some};
ghost use Rattle.std.specs.Option.{unwrap_or};
ghost use Rattle.std.specs.Str.{bytes_eq};
ghost use Rattle.icu_locale_core.specs.Subtag.{und};
ghost use Rattle.icu_locale_core.specs.Maps.{value_at};
ghost use Rattle.icu_locale.specs.LikelySubtags.{
  known_subtag,
  unknown_script,
  unknown_region,
  bare_locale,
  filled_from,
  first_found,
  known_keys,
  und_keys,
  maximal_of_bare,
};
ghost use Rattle.icu_locale.specs.LikelyTable.{row_at, common_rows, extended_rows, und_row, likely};
ghost use Rattle.icu_locale.specs.Locales.{locale_with};
ghost use Rattle.icu_locale.specs.inner.Trials.{loses, gains};
ghost use Rattle.icu_locale.specs.inner.SettledRows.{map_rows};

use crate::expander::LocaleExpander;
use icu_locale_core::{Language, Region, Script};
use icu_provider::{DataLocale, LikelySubtagsExtended, Marked, NotedMap};

// A language, a script and a region, as a row of the table gives them.
pub(crate) type Triple = (Language, Script, Region);

/// The subtags by which a row of the likely table is looked up.
#[derive(Clone, Copy)]
pub enum LikelyKey {
    LanguageRegion(Language, Region),
    LanguageScript(Language, Script),
    LanguageAlone(Language),
    ScriptRegion(Script, Region),
    ScriptAlone(Script),
    RegionAlone(Region),
}

// The six maps of a likely table, by the subtags of their keys.
#[derive(Clone, Copy)]
pub(crate) struct LikelyMaps<'d> {
    pub(crate) language: &'d NotedMap<Language, (Script, Region)>,
    pub(crate) language_script: &'d NotedMap<(Language, Script), Region>,
    pub(crate) language_region: &'d NotedMap<(Language, Region), Script>,
    pub(crate) script_region: &'d NotedMap<(Script, Region), Language>,
    pub(crate) script: &'d NotedMap<Script, (Language, Region)>,
    pub(crate) region: &'d NotedMap<Region, (Language, Script)>,
}

impl<'d> LikelyMaps<'d> {
    // The triple at a key: the key's own subtags, and the values of the row.
    #[inline(always)]
    fn row_at(&self, key: &LikelyKey) -> Option<Triple>
        ensures { result ≡ row_at (map_rows self.now) key.now }
    {
        match *key {
            LikelyKey::LanguageRegion(language, region) => {
                let script = value_at(self.language_region, (language, region))?;
                Some((language, script, region))
            }
            LikelyKey::LanguageScript(language, script) => {
                let region = value_at(self.language_script, (language, script))?;
                Some((language, script, region))
            }
            LikelyKey::LanguageAlone(language) => {
                let (script, region) = value_at(self.language, language)?;
                Some((language, script, region))
            }
            LikelyKey::ScriptRegion(script, region) => {
                let language = value_at(self.script_region, (script, region))?;
                Some((language, script, region))
            }
            LikelyKey::ScriptAlone(script) => {
                let (language, region) = value_at(self.script, script)?;
                Some((language, script, region))
            }
            LikelyKey::RegionAlone(region) => {
                let (language, script) = value_at(self.region, region)?;
                Some((language, script, region))
            }
        }
    }
}

// The value at a key of a map, if any.
#[inline(always)]
fn value_at<K: Marked + Copy, V: Copy>(map: &NotedMap<K, V>, key: K) -> Option<V>
    ensures { result ≡ value_at K.cmp map.now key }
{
    map.get(&key).copied()
}

// The maps of the extended table.
pub(crate) fn extended_maps(extended: &LikelySubtagsExtended) -> LikelyMaps<'_>
    ensures { map_rows result ≡ extended_rows extended.now }
{
    LikelyMaps {
        language: &extended.language,
        language_script: &extended.language_script,
        language_region: &extended.language_region,
        script_region: &extended.script_region,
        script: &extended.script,
        region: &extended.region,
    }
}

// The triple of `und` as a row for its script and region, for its script and for its region.
fn und_row(und: Triple, key: &LikelyKey) -> Option<Triple>
    ensures { result ≡ und_row und key.now }
{
    let serves = match *key {
        LikelyKey::ScriptRegion(script, region) => script == und.1 && region == und.2,
        LikelyKey::ScriptAlone(script) => script == und.1,
        LikelyKey::RegionAlone(region) => region == und.2,
        _ => false,
    };
    if serves { Some(und) } else { None }
}

impl<'d> LocaleExpander<'d> {
    // The maps of the two common tables.
    pub(crate) fn common_maps(&self) -> LikelyMaps<'d>
        ensures { map_rows result ≡ common_rows self.now.language.now self.now.script_region.now }
    {
        LikelyMaps {
            language: &self.language.language,
            language_script: &self.language.language_script,
            language_region: &self.language.language_region,
            script_region: &self.script_region.script_region,
            script: &self.script_region.script,
            region: &self.script_region.region,
        }
    }

    // The row that fills in a bare identifier: its first key in the table. Where nothing is missing no key is looked up.
    #[inline(always)]
    pub(crate) fn added(
        &self,
        language: Language,
        script: Option<Script>,
        region: Option<Region>,
    ) -> Option<Triple>
        ensures fills { let bare = locale_with language script region in filled_from bare result
            ≡ maximal_of_bare (likely self.now) bare }
        ensures whole { bytes_eq language und ≡ false → IsSome script → IsSome region
            → result ≡ None }
    {
        if language.is_unknown() {
            self.first_of_und(script, region)
        } else if script.is_some() && region.is_some() {
            None
        } else {
            self.first_of_known(language, script, region)
        }
    }

    // A known language with the region, with the script, alone.
    #[inline(always)]
    fn first_of_known(
        &self,
        language: Language,
        script: Option<Script>,
        region: Option<Region>,
    ) -> Option<Triple>
        ensures { result ≡ first_found (likely self.now) (known_keys language script region) }
    {
        if let Some(region) = region {
            let found = self.row_at(&LikelyKey::LanguageRegion(language, region));
            if found.is_some() {
                return found;
            }
        }
        if let Some(script) = script {
            let found = self.row_at(&LikelyKey::LanguageScript(language, script));
            if found.is_some() {
                return found;
            }
        }
        self.row_at(&LikelyKey::LanguageAlone(language))
    }

    // With no known language: script and region, the script alone, the region alone.
    fn first_of_und(&self, script: Option<Script>, region: Option<Region>) -> Option<Triple>
        ensures { result ≡ first_found (likely self.now) (und_keys script region) }
    {
        if let Some(script) = script
            && let Some(region) = region
        {
            let found = self.row_at(&LikelyKey::ScriptRegion(script, region));
            if found.is_some() {
                return found;
            }
        }
        if let Some(script) = script {
            let found = self.row_at(&LikelyKey::ScriptAlone(script));
            if found.is_some() {
                return found;
            }
        }
        match region {
            Some(region) => self.row_at(&LikelyKey::RegionAlone(region)),
            None => None,
        }
    }

    // The triple at a key: the common tables cover the extended one, and the triple of `und` serves last.
    #[inline(always)]
    pub(crate) fn row_at(&self, key: &LikelyKey) -> Option<Triple>
        ensures { result ≡ likely self.now key.now }
    {
        if let Some(row) = self.common_maps().row_at(key) {
            return Some(row);
        }
        if let Some(extended) = self.extended {
            // a copy, so that the key is in memory only where there is such a table
            let key = *key;
            let found = extended_row(extended, &key);
            if found.is_some() {
                return found;
            }
        }
        und_row(self.language.und(), key)
    }
}

// The triple of the extended table at a key.
fn extended_row(extended: &LikelySubtagsExtended, key: &LikelyKey) -> Option<Triple>
    ensures { result ≡ row_at (extended_rows extended.now) key.now }
{
    extended_maps(extended).row_at(key)
}

// Fills in what is missing from a triple, and tells whether that changed anything.
#[inline(always)]
pub(crate) fn fill_in(
    language: &mut Language,
    script: &mut Option<Script>,
    region: &mut Option<Region>,
    row: Triple,
) -> bool
    ensures value { locale_with language.new script.new region.new
        ≡ filled_from (locale_with language.old script.old region.old) (Some row) }
    ensures told { result ≡ gains (locale_with language.old script.old region.old) row }
{
    let is_new = language.is_unknown() && !row.0.is_unknown();
    if is_new {
        *language = row.0;
    }
    let has_script = fill(script, row.1);
    let has_region = fill(region, row.2);
    is_new || has_script || has_region
}

// Puts a subtag where there is none, and tells whether there was none.
#[inline(always)]
fn fill<T: Copy>(place: &mut Option<T>, likely: T) -> bool
    ensures value { place.new ≡ Some (unwrap_or place.old likely) }
    ensures told { result ≡ not (is_some place.old) }
{
    let is_missing = place.is_none();
    if is_missing {
        *place = Some(likely);
    }
    is_missing
}

// Takes out script `Zzzz` and region `ZZ`, and tells whether that changed anything.
#[inline(always)]
pub(crate) fn remove_unknown(script: &mut Option<Script>, region: &mut Option<Region>) -> bool
    ensures script { script.new ≡ known_subtag unknown_script script.old }
    ensures region { region.new ≡ known_subtag unknown_region region.old }
    ensures told { result ≡ loses script.old region.old }
{
    let is_script_unknown = matches!(script, Some(script) if script.is_unknown());
    if is_script_unknown {
        *script = None;
    }
    let is_region_unknown = matches!(region, Some(region) if region.is_unknown());
    if is_region_unknown {
        *region = None;
    }
    is_script_unknown || is_region_unknown
}

// Without script `Zzzz` and region `ZZ`.
pub(crate) fn bare_locale(mut given: DataLocale) -> DataLocale
    ensures { result ≡ bare_locale given }
{
    remove_unknown(&mut given.script, &mut given.region);
    given
}
