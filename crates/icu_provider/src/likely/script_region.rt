//! Likely subtags by script and region.
ghost use Rattle.std.specs.Prelude.{◌≡◌, []};
ghost use Rattle.icu_locale_core.specs.Maps.{value_at};
ghost use Rattle.icu_locale_core.specs.TextSet.{text_cmp};
ghost use Rattle.icu_provider.specs.SortedMaps.{Inserts, IsFoundEach, IsSortedMap, pair_cmp};

use crate::{DataError, NotedMap, Rows};
use icu_locale_core::{Language, Region, Script};
use std::alloc::Global;

/// Likely subtags of identifiers whose language is not known, by script and region (UTS #35, section 4.3).
/// Only a call that puts a row takes memory.
#[derive(Debug)]
pub struct LikelySubtagsForScriptRegion {
    /// The language of a script and a region.
    pub script_region: NotedMap<(Script, Region), Language>,
    /// The language and the region of a script.
    pub script: NotedMap<Script, (Language, Region)>,
    /// The language and the script of a region.
    pub region: NotedMap<Region, (Language, Script)>,
}

impl Drop for LikelySubtagsForScriptRegion {
    fn drop(self) {
        let LikelySubtagsForScriptRegion {
            script_region: _,
            script: _,
            region: _,
        } = self;
    }
}

impl LikelySubtagsForScriptRegion {
    /// A table without rows.
    pub fn new(alloc: Global) -> Self
        ensures { result ≡ record { script_region = []; script = []; region = [] } }
    {
        LikelySubtagsForScriptRegion {
            script_region: NotedMap::new(alloc),
            script: NotedMap::new(alloc),
            region: NotedMap::new(alloc),
        }
    }

    /// Sets the language of a script and a region. A row that is there takes the new value and no memory.
    ///
    /// # Errors
    ///
    /// `Memory`, only for a key that is not there yet, where memory for the row was refused: the table is unchanged then.
    pub fn insert_script_region(
        &mut self,
        script: Script,
        region: Region,
        language: Language,
    ) -> Result<(), DataError>
        ensures table { self.new ≡ record self.old { script_region = self.new.script_region } }
        ensures insert { Inserts pair_cmp self.old.script_region self.new.script_region
            (script, region) language result }
    {
        self.script_region.insert((script, region), language)
    }

    /// The language of a script and a region, if there is a row.
    pub fn get_script_region(&self, script: Script, region: Region) -> Option<Language>
        ensures { result ≡ value_at pair_cmp self.now.script_region (script, region) }
    {
        self.script_region.get(&(script, region)).copied()
    }

    /// A walk over the rows of `script_region`, rising by key.
    pub fn iter_script_region(&self) -> Rows<'_, (Script, Region), Language>
        ensures rows { result ≡ self.now.script_region }
        ensures sorted { IsSortedMap pair_cmp self.now.script_region }
        ensures found { IsFoundEach pair_cmp self.now.script_region }
    {
        self.script_region.iter()
    }

    /// Sets the language and the region of a script. A row that is there takes the new value and no memory.
    ///
    /// # Errors
    ///
    /// `Memory`, only for a key that is not there yet, where memory for the row was refused: the table is unchanged then.
    pub fn insert_script(
        &mut self,
        script: Script,
        language: Language,
        region: Region,
    ) -> Result<(), DataError>
        ensures table { self.new ≡ record self.old { script = self.new.script } }
        ensures insert { Inserts text_cmp self.old.script self.new.script
            script (language, region) result }
    {
        self.script.insert(script, (language, region))
    }

    /// The language and the region of a script, if there is a row.
    pub fn get_script(&self, script: Script) -> Option<(Language, Region)>
        ensures { result ≡ value_at text_cmp self.now.script script }
    {
        self.script.get(&script).copied()
    }

    /// A walk over the rows of `script`, rising by key.
    pub fn iter_script(&self) -> Rows<'_, Script, (Language, Region)>
        ensures rows { result ≡ self.now.script }
        ensures sorted { IsSortedMap text_cmp self.now.script }
        ensures found { IsFoundEach text_cmp self.now.script }
    {
        self.script.iter()
    }

    /// Sets the language and the script of a region. A row that is there takes the new value and no memory.
    ///
    /// # Errors
    ///
    /// `Memory`, only for a key that is not there yet, where memory for the row was refused: the table is unchanged then.
    pub fn insert_region(
        &mut self,
        region: Region,
        language: Language,
        script: Script,
    ) -> Result<(), DataError>
        ensures table { self.new ≡ record self.old { region = self.new.region } }
        ensures insert { Inserts text_cmp self.old.region self.new.region
            region (language, script) result }
    {
        self.region.insert(region, (language, script))
    }

    /// The language and the script of a region, if there is a row.
    pub fn get_region(&self, region: Region) -> Option<(Language, Script)>
        ensures { result ≡ value_at text_cmp self.now.region region }
    {
        self.region.get(&region).copied()
    }

    /// A walk over the rows of `region`, rising by key.
    pub fn iter_region(&self) -> Rows<'_, Region, (Language, Script)>
        ensures rows { result ≡ self.now.region }
        ensures sorted { IsSortedMap text_cmp self.now.region }
        ensures found { IsFoundEach text_cmp self.now.region }
    {
        self.region.iter()
    }
}
