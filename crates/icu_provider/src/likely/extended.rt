//! Further likely subtags.
ghost use Rattle.std.specs.Prelude.{◌≡◌, []};
ghost use Rattle.icu_locale_core.specs.Maps.{value_at};
ghost use Rattle.icu_locale_core.specs.TextSet.{text_cmp};
ghost use Rattle.icu_provider.specs.SortedMaps.{Inserts, IsFoundEach, IsSortedMap, pair_cmp};

use crate::{DataError, NotedMap, Rows};
use icu_locale_core::{Language, Region, Script};
use std::alloc::Global;

/// Further likely subtags (UTS #35, section 4.3), each used where the other two tables have no row with the same key.
/// Only a call that puts a row takes memory.
#[derive(Debug)]
pub struct LikelySubtagsExtended {
    /// The script and the region of a language.
    pub language: NotedMap<Language, (Script, Region)>,
    /// The region of a language and a script.
    pub language_script: NotedMap<(Language, Script), Region>,
    /// The script of a language and a region.
    pub language_region: NotedMap<(Language, Region), Script>,
    /// The language of a script and a region.
    pub script_region: NotedMap<(Script, Region), Language>,
    /// The language and the region of a script.
    pub script: NotedMap<Script, (Language, Region)>,
    /// The language and the script of a region.
    pub region: NotedMap<Region, (Language, Script)>,
}

impl Drop for LikelySubtagsExtended {
    fn drop(self) {
        let LikelySubtagsExtended {
            language: _,
            language_script: _,
            language_region: _,
            script_region: _,
            script: _,
            region: _,
        } = self;
    }
}

impl LikelySubtagsExtended {
    /// A table without rows.
    pub fn new(alloc: Global) -> Self
        ensures { result ≡ record {
          language = [];
          language_script = [];
          language_region = [];
          script_region = [];
          script = [];
          region = [];
        } }
    {
        LikelySubtagsExtended {
            language: NotedMap::new(alloc),
            language_script: NotedMap::new(alloc),
            language_region: NotedMap::new(alloc),
            script_region: NotedMap::new(alloc),
            script: NotedMap::new(alloc),
            region: NotedMap::new(alloc),
        }
    }

    /// Sets the script and the region of a language. A row that is there takes the new value and no memory.
    ///
    /// # Errors
    ///
    /// `Memory`, only for a key that is not there yet, where memory for the row was refused: the table is unchanged then.
    pub fn insert_language(
        &mut self,
        language: Language,
        script: Script,
        region: Region,
    ) -> Result<(), DataError>
        ensures table { self.new ≡ record self.old { language = self.new.language } }
        ensures insert { Inserts text_cmp self.old.language self.new.language
            language (script, region) result }
    {
        self.language.insert(language, (script, region))
    }

    /// The script and the region of a language, if there is a row.
    pub fn get_language(&self, language: Language) -> Option<(Script, Region)>
        ensures { result ≡ value_at text_cmp self.now.language language }
    {
        self.language.get(&language).copied()
    }

    /// A walk over the rows of `language`, rising by key.
    pub fn iter_language(&self) -> Rows<'_, Language, (Script, Region)>
        ensures rows { result ≡ self.now.language }
        ensures sorted { IsSortedMap text_cmp self.now.language }
        ensures found { IsFoundEach text_cmp self.now.language }
    {
        self.language.iter()
    }

    /// Sets the region of a language and a script. A row that is there takes the new value and no memory.
    ///
    /// # Errors
    ///
    /// `Memory`, only for a key that is not there yet, where memory for the row was refused: the table is unchanged then.
    pub fn insert_language_script(
        &mut self,
        language: Language,
        script: Script,
        region: Region,
    ) -> Result<(), DataError>
        ensures table { self.new
            ≡ record self.old { language_script = self.new.language_script } }
        ensures insert { Inserts pair_cmp self.old.language_script self.new.language_script
            (language, script) region result }
    {
        self.language_script.insert((language, script), region)
    }

    /// The region of a language and a script, if there is a row.
    pub fn get_language_script(&self, language: Language, script: Script) -> Option<Region>
        ensures { result ≡ value_at pair_cmp self.now.language_script (language, script) }
    {
        self.language_script.get(&(language, script)).copied()
    }

    /// A walk over the rows of `language_script`, rising by key.
    pub fn iter_language_script(&self) -> Rows<'_, (Language, Script), Region>
        ensures rows { result ≡ self.now.language_script }
        ensures sorted { IsSortedMap pair_cmp self.now.language_script }
        ensures found { IsFoundEach pair_cmp self.now.language_script }
    {
        self.language_script.iter()
    }

    /// Sets the script of a language and a region. A row that is there takes the new value and no memory.
    ///
    /// # Errors
    ///
    /// `Memory`, only for a key that is not there yet, where memory for the row was refused: the table is unchanged then.
    pub fn insert_language_region(
        &mut self,
        language: Language,
        region: Region,
        script: Script,
    ) -> Result<(), DataError>
        ensures table { self.new
            ≡ record self.old { language_region = self.new.language_region } }
        ensures insert { Inserts pair_cmp self.old.language_region self.new.language_region
            (language, region) script result }
    {
        self.language_region.insert((language, region), script)
    }

    /// The script of a language and a region, if there is a row.
    pub fn get_language_region(&self, language: Language, region: Region) -> Option<Script>
        ensures { result ≡ value_at pair_cmp self.now.language_region (language, region) }
    {
        self.language_region.get(&(language, region)).copied()
    }

    /// A walk over the rows of `language_region`, rising by key.
    pub fn iter_language_region(&self) -> Rows<'_, (Language, Region), Script>
        ensures rows { result ≡ self.now.language_region }
        ensures sorted { IsSortedMap pair_cmp self.now.language_region }
        ensures found { IsFoundEach pair_cmp self.now.language_region }
    {
        self.language_region.iter()
    }

    /// Sets the language of a script and a region. A row that is there takes the new value and no memory.
    ///
    /// # Errors
    ///
    /// `Memory`, only for a key that is not there yet, where memory for the row was refused: the table is unchanged then.
    pub fn insert_script_region(
        &mut self,
        script: Script,
        region: Region,
        language: Language,
    ) -> Result<(), DataError>
        ensures table { self.new ≡ record self.old { script_region = self.new.script_region } }
        ensures insert { Inserts pair_cmp self.old.script_region self.new.script_region
            (script, region) language result }
    {
        self.script_region.insert((script, region), language)
    }

    /// The language of a script and a region, if there is a row.
    pub fn get_script_region(&self, script: Script, region: Region) -> Option<Language>
        ensures { result ≡ value_at pair_cmp self.now.script_region (script, region) }
    {
        self.script_region.get(&(script, region)).copied()
    }

    /// A walk over the rows of `script_region`, rising by key.
    pub fn iter_script_region(&self) -> Rows<'_, (Script, Region), Language>
        ensures rows { result ≡ self.now.script_region }
        ensures sorted { IsSortedMap pair_cmp self.now.script_region }
        ensures found { IsFoundEach pair_cmp self.now.script_region }
    {
        self.script_region.iter()
    }

    /// Sets the language and the region of a script. A row that is there takes the new value and no memory.
    ///
    /// # Errors
    ///
    /// `Memory`, only for a key that is not there yet, where memory for the row was refused: the table is unchanged then.
    pub fn insert_script(
        &mut self,
        script: Script,
        language: Language,
        region: Region,
    ) -> Result<(), DataError>
        ensures table { self.new ≡ record self.old { script = self.new.script } }
        ensures insert { Inserts text_cmp self.old.script self.new.script
            script (language, region) result }
    {
        self.script.insert(script, (language, region))
    }

    /// The language and the region of a script, if there is a row.
    pub fn get_script(&self, script: Script) -> Option<(Language, Region)>
        ensures { result ≡ value_at text_cmp self.now.script script }
    {
        self.script.get(&script).copied()
    }

    /// A walk over the rows of `script`, rising by key.
    pub fn iter_script(&self) -> Rows<'_, Script, (Language, Region)>
        ensures rows { result ≡ self.now.script }
        ensures sorted { IsSortedMap text_cmp self.now.script }
        ensures found { IsFoundEach text_cmp self.now.script }
    {
        self.script.iter()
    }

    /// Sets the language and the script of a region. A row that is there takes the new value and no memory.
    ///
    /// # Errors
    ///
    /// `Memory`, only for a key that is not there yet, where memory for the row was refused: the table is unchanged then.
    pub fn insert_region(
        &mut self,
        region: Region,
        language: Language,
        script: Script,
    ) -> Result<(), DataError>
        ensures table { self.new ≡ record self.old { region = self.new.region } }
        ensures insert { Inserts text_cmp self.old.region self.new.region
            region (language, script) result }
    {
        self.region.insert(region, (language, script))
    }

    /// The language and the script of a region, if there is a row.
    pub fn get_region(&self, region: Region) -> Option<(Language, Script)>
        ensures { result ≡ value_at text_cmp self.now.region region }
    {
        self.region.get(&region).copied()
    }

    /// A walk over the rows of `region`, rising by key.
    pub fn iter_region(&self) -> Rows<'_, Region, (Language, Script)>
        ensures rows { result ≡ self.now.region }
        ensures sorted { IsSortedMap text_cmp self.now.region }
        ensures found { IsFoundEach text_cmp self.now.region }
    {
        self.region.iter()
    }
}
