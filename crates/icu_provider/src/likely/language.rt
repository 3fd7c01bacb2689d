//! Likely subtags by language.
ghost use Rattle.std.specs.Prelude.{◌≡◌, []};
ghost use Rattle.icu_locale_core.specs.Maps.{value_at};
ghost use Rattle.icu_locale_core.specs.TextSet.{text_cmp};
ghost use Rattle.icu_provider.specs.SortedMaps.{Inserts, IsFoundEach, IsSortedMap, pair_cmp};

use crate::{DataError, NotedMap, Rows};
use icu_locale_core::{Language, Region, Script};
use std::alloc::Global;

/// Likely subtags by language (UTS #35, section 4.3), and those of `und`. Only a call that puts a row takes
/// memory.
#[derive(Debug)]
pub struct LikelySubtagsForLanguage {
    /// The language, script and region of `und`, which also serves as a row for its script and its region.
    pub und: (Language, Script, Region),
    /// The script and the region of a language.
    pub language: NotedMap<Language, (Script, Region)>,
    /// The region of a language and a script.
    pub language_script: NotedMap<(Language, Script), Region>,
    /// The script of a language and a region.
    pub language_region: NotedMap<(Language, Region), Script>,
}

impl Drop for LikelySubtagsForLanguage {
    fn drop(self) {
        let LikelySubtagsForLanguage {
            und: _,
            language: _,
            language_script: _,
            language_region: _,
        } = self;
    }
}

impl LikelySubtagsForLanguage {
    /// A table without rows and with the triple of `und`.
    pub fn new(alloc: Global, und: (Language, Script, Region)) -> Self
        ensures { result ≡ record {
          und = und;
          language = [];
          language_script = [];
          language_region = [];
        } }
    {
        LikelySubtagsForLanguage {
            und,
            language: NotedMap::new(alloc),
            language_script: NotedMap::new(alloc),
            language_region: NotedMap::new(alloc),
        }
    }

    /// The triple of `und`.
    pub fn und(&self) -> (Language, Script, Region)
        ensures { result ≡ self.now.und }
    {
        self.und
    }

    /// Sets the script and the region of a language. A row that is there takes the new value and no memory.
    ///
    /// # Errors
    ///
    /// `Memory`, only for a key that is not there yet, where memory for the row was refused: the table is unchanged then.
    pub fn insert_language(
        &mut self,
        language: Language,
        script: Script,
        region: Region,
    ) -> Result<(), DataError>
        ensures table { self.new ≡ record self.old { language = self.new.language } }
        ensures insert { Inserts text_cmp self.old.language self.new.language
            language (script, region) result }
    {
        self.language.insert(language, (script, region))
    }

    /// The script and the region of a language, if there is a row.
    pub fn get_language(&self, language: Language) -> Option<(Script, Region)>
        ensures { result ≡ value_at text_cmp self.now.language language }
    {
        self.language.get(&language).copied()
    }

    /// A walk over the rows of `language`, rising by key.
    pub fn iter_language(&self) -> Rows<'_, Language, (Script, Region)>
        ensures rows { result ≡ self.now.language }
        ensures sorted { IsSortedMap text_cmp self.now.language }
        ensures found { IsFoundEach text_cmp self.now.language }
    {
        self.language.iter()
    }

    /// Sets the region of a language and a script. A row that is there takes the new value and no memory.
    ///
    /// # Errors
    ///
    /// `Memory`, only for a key that is not there yet, where memory for the row was refused: the table is unchanged then.
    pub fn insert_language_script(
        &mut self,
        language: Language,
        script: Script,
        region: Region,
    ) -> Result<(), DataError>
        ensures table { self.new
            ≡ record self.old { language_script = self.new.language_script } }
        ensures insert { Inserts pair_cmp self.old.language_script self.new.language_script
            (language, script) region result }
    {
        self.language_script.insert((language, script), region)
    }

    /// The region of a language and a script, if there is a row.
    pub fn get_language_script(&self, language: Language, script: Script) -> Option<Region>
        ensures { result ≡ value_at pair_cmp self.now.language_script (language, script) }
    {
        self.language_script.get(&(language, script)).copied()
    }

    /// A walk over the rows of `language_script`, rising by key.
    pub fn iter_language_script(&self) -> Rows<'_, (Language, Script), Region>
        ensures rows { result ≡ self.now.language_script }
        ensures sorted { IsSortedMap pair_cmp self.now.language_script }
        ensures found { IsFoundEach pair_cmp self.now.language_script }
    {
        self.language_script.iter()
    }

    /// Sets the script of a language and a region. A row that is there takes the new value and no memory.
    ///
    /// # Errors
    ///
    /// `Memory`, only for a key that is not there yet, where memory for the row was refused: the table is unchanged then.
    pub fn insert_language_region(
        &mut self,
        language: Language,
        region: Region,
        script: Script,
    ) -> Result<(), DataError>
        ensures table { self.new
            ≡ record self.old { language_region = self.new.language_region } }
        ensures insert { Inserts pair_cmp self.old.language_region self.new.language_region
            (language, region) script result }
    {
        self.language_region.insert((language, region), script)
    }

    /// The script of a language and a region, if there is a row.
    pub fn get_language_region(&self, language: Language, region: Region) -> Option<Script>
        ensures { result ≡ value_at pair_cmp self.now.language_region (language, region) }
    {
        self.language_region.get(&(language, region)).copied()
    }

    /// A walk over the rows of `language_region`, rising by key.
    pub fn iter_language_region(&self) -> Rows<'_, (Language, Region), Script>
        ensures rows { result ≡ self.now.language_region }
        ensures sorted { IsSortedMap pair_cmp self.now.language_region }
        ensures found { IsFoundEach pair_cmp self.now.language_region }
    {
        self.language_region.iter()
    }
}
