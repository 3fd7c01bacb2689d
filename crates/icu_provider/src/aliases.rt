//! Aliases of subtags (UTS #35 Part 1, Annex C, "LocaleId Canonicalization"): the rules of canonicalization, as the
//! caller hands them in.
ghost use Rattle.std.specs.Prelude.{◌≡◌, [], option_copied};
ghost use Rattle.icu_locale_core.specs.Maps.{value_at};
ghost use Rattle.icu_locale_core.specs.TextSet.{text_cmp};
ghost use Rattle.icu_provider.specs.SortedMaps.{text_at, regions_at, IsFoundEach, IsSortedMap, Inserts, Pushes};

use crate::{DataError, NotedMap, RowList, Rows, SortedMap};
use icu_locale_core::{Language, Region, Script, Subtag, Variant};
use std::alloc::Global;

/// A rule text and a replacement text.
#[derive(Debug, Drop)]
pub struct StrStrPair(pub String, pub String);

/// A language, a text of variants and a replacement text.
#[derive(Debug, Drop)]
pub struct LanguageStrStrPair(pub Language, pub String, pub String);

/// The rules of canonicalization (UTS #35 Part 1, Annex C). Texts are of any content: who reads them skips those that
/// cannot be read. Only a call that puts a row takes memory.
#[derive(Debug)]
pub struct Aliases {
    /// Rules with variants, asked in order: a language, a text of variants and a replacement text.
    pub language_variants: RowList<LanguageStrStrPair>,
    /// Rules with no variants, asked in order: a rule text and a replacement text.
    pub language: RowList<StrStrPair>,
    /// The language of a sign language's region.
    pub sgn_region: NotedMap<Region, Language>,
    /// The replacement text of a language of two letters.
    pub language_len2: SortedMap<Language, String>,
    /// The replacement text of a language of three letters.
    pub language_len3: SortedMap<Language, String>,
    /// The script that replaces a script.
    pub script: NotedMap<Script, Script>,
    /// The region that replaces a region of letters.
    pub region_alpha: NotedMap<Region, Region>,
    /// The region that replaces a region of digits.
    pub region_num: NotedMap<Region, Region>,
    /// The regions of which one replaces a region.
    pub complex_region: NotedMap<Region, Vec<Region>>,
    /// The variant that replaces a variant.
    pub variant: NotedMap<Variant, Variant>,
    /// The value text that replaces a subdivision.
    pub subdivision: SortedMap<Subtag, String>,
}

impl Drop for Aliases {
    fn drop(self) {
        let Aliases {
            language_variants: _,
            language: _,
            sgn_region: _,
            language_len2: _,
            language_len3: _,
            script: _,
            region_alpha: _,
            region_num: _,
            complex_region: _,
            variant: _,
            subdivision: _,
        } = self;
    }
}

impl Aliases {
    /// A table without rows.
    pub fn new(alloc: Global) -> Self
        ensures { result ≡ record {
          language_variants = [];
          language = [];
          sgn_region = [];
          language_len2 = [];
          language_len3 = [];
          script = [];
          region_alpha = [];
          region_num = [];
          complex_region = [];
          variant = [];
          subdivision = [];
        } }
    {
        Aliases {
            language_variants: RowList::new(alloc),
            language: RowList::new(alloc),
            sgn_region: NotedMap::new(alloc),
            language_len2: SortedMap::new(alloc),
            language_len3: SortedMap::new(alloc),
            script: NotedMap::new(alloc),
            region_alpha: NotedMap::new(alloc),
            region_num: NotedMap::new(alloc),
            complex_region: NotedMap::new(alloc),
            variant: NotedMap::new(alloc),
            subdivision: SortedMap::new(alloc),
        }
    }

    /// Appends a rule to the others: a language, a text of variants and a replacement text.
    ///
    /// # Errors
    ///
    /// `Memory`, only where memory for the row was refused: the table is unchanged then.
    pub fn push_language_variants(&mut self, row: LanguageStrStrPair) -> Result<(), DataError>
        ensures table { self.new ≡ record self.old {
          language_variants = self.new.language_variants;
        } }
        ensures push { Pushes self.old.language_variants self.new.language_variants row result }
    {
        self.language_variants.push(row)
    }

    /// The rules of `language_variants` in order.
    pub fn language_variants(&self) -> &[LanguageStrStrPair]
        ensures { result.now ≡ self.now.language_variants }
    {
        self.language_variants.as_slice()
    }

    /// Appends a rule to the others: a rule text and a replacement text.
    ///
    /// # Errors
    ///
    /// `Memory`, only where memory for the row was refused: the table is unchanged then.
    pub fn push_language(&mut self, row: StrStrPair) -> Result<(), DataError>
        ensures table { self.new ≡ record self.old { language = self.new.language } }
        ensures push { Pushes self.old.language self.new.language row result }
    {
        self.language.push(row)
    }

    /// The rules of `language` in order.
    pub fn language(&self) -> &[StrStrPair]
        ensures { result.now ≡ self.now.language }
    {
        self.language.as_slice()
    }

    /// Sets the language of a sign language's region. A row that is there takes the new value and no memory.
    ///
    /// # Errors
    ///
    /// `Memory`, only for a key that is not there yet, where memory for the row was refused: the table is unchanged then.
    pub fn insert_sgn_region(&mut self, region: Region, value: Language) -> Result<(), DataError>
        ensures table { self.new ≡ record self.old { sgn_region = self.new.sgn_region } }
        ensures insert { Inserts text_cmp self.old.sgn_region self.new.sgn_region
            region value result }
    {
        self.sgn_region.insert(region, value)
    }

    /// The language of a sign language's region, if there is a row.
    pub fn get_sgn_region(&self, region: Region) -> Option<Language>
        ensures { result ≡ value_at text_cmp self.now.sgn_region region }
    {
        self.sgn_region.get(&region).copied()
    }

    /// A walk over the rows of `sgn_region`, rising by key.
    pub fn iter_sgn_region(&self) -> Rows<'_, Region, Language>
        ensures rows { result ≡ self.now.sgn_region }
        ensures sorted { IsSortedMap text_cmp self.now.sgn_region }
        ensures found { IsFoundEach text_cmp self.now.sgn_region }
    {
        self.sgn_region.iter()
    }

    /// Sets the replacement text of a language of two letters. A row that is there takes the new value and no memory.
    ///
    /// # Errors
    ///
    /// `Memory`, only for a key that is not there yet, where memory for the row was refused: the table is unchanged then.
    pub fn insert_language_len2(
        &mut self,
        language: Language,
        value: String,
    ) -> Result<(), DataError>
        ensures table { self.new ≡ record self.old { language_len2 = self.new.language_len2 } }
        ensures insert { Inserts text_cmp self.old.language_len2 self.new.language_len2
            language value result }
    {
        self.language_len2.insert(language, value)
    }

    /// The replacement text of a language of two letters, if there is a row.
    pub fn get_language_len2(&self, language: Language) -> Option<&str>
        ensures { option_copied result ≡ text_at self.now.language_len2 language }
    {
        Some(self.language_len2.get_numbered(&language)?.as_str())
    }

    /// A walk over the rows of `language_len2`, rising by key.
    pub fn iter_language_len2(&self) -> Rows<'_, Language, String>
        ensures rows { result ≡ self.now.language_len2 }
        ensures sorted { IsSortedMap text_cmp self.now.language_len2 }
        ensures found { IsFoundEach text_cmp self.now.language_len2 }
    {
        self.language_len2.iter()
    }

    /// Sets the replacement text of a language of three letters. A row that is there takes the new value and no memory.
    ///
    /// # Errors
    ///
    /// `Memory`, only for a key that is not there yet, where memory for the row was refused: the table is unchanged then.
    pub fn insert_language_len3(
        &mut self,
        language: Language,
        value: String,
    ) -> Result<(), DataError>
        ensures table { self.new ≡ record self.old { language_len3 = self.new.language_len3 } }
        ensures insert { Inserts text_cmp self.old.language_len3 self.new.language_len3
            language value result }
    {
        self.language_len3.insert(language, value)
    }

    /// The replacement text of a language of three letters, if there is a row.
    pub fn get_language_len3(&self, language: Language) -> Option<&str>
        ensures { option_copied result ≡ text_at self.now.language_len3 language }
    {
        Some(self.language_len3.get_numbered(&language)?.as_str())
    }

    /// A walk over the rows of `language_len3`, rising by key.
    pub fn iter_language_len3(&self) -> Rows<'_, Language, String>
        ensures rows { result ≡ self.now.language_len3 }
        ensures sorted { IsSortedMap text_cmp self.now.language_len3 }
        ensures found { IsFoundEach text_cmp self.now.language_len3 }
    {
        self.language_len3.iter()
    }

    /// Sets the script that replaces a script. A row that is there takes the new value and no memory.
    ///
    /// # Errors
    ///
    /// `Memory`, only for a key that is not there yet, where memory for the row was refused: the table is unchanged then.
    pub fn insert_script(&mut self, script: Script, value: Script) -> Result<(), DataError>
        ensures table { self.new ≡ record self.old { script = self.new.script } }
        ensures insert { Inserts text_cmp self.old.script self.new.script script value result }
    {
        self.script.insert(script, value)
    }

    /// The script that replaces a script, if there is a row.
    pub fn get_script(&self, script: Script) -> Option<Script>
        ensures { result ≡ value_at text_cmp self.now.script script }
    {
        self.script.get(&script).copied()
    }

    /// A walk over the rows of `script`, rising by key.
    pub fn iter_script(&self) -> Rows<'_, Script, Script>
        ensures rows { result ≡ self.now.script }
        ensures sorted { IsSortedMap text_cmp self.now.script }
        ensures found { IsFoundEach text_cmp self.now.script }
    {
        self.script.iter()
    }

    /// Sets the region that replaces a region of letters. A row that is there takes the new value and no memory.
    ///
    /// # Errors
    ///
    /// `Memory`, only for a key that is not there yet, where memory for the row was refused: the table is unchanged then.
    pub fn insert_region_alpha(&mut self, region: Region, value: Region) -> Result<(), DataError>
        ensures table { self.new ≡ record self.old { region_alpha = self.new.region_alpha } }
        ensures insert { Inserts text_cmp self.old.region_alpha self.new.region_alpha
            region value result }
    {
        self.region_alpha.insert(region, value)
    }

    /// The region that replaces a region of letters, if there is a row.
    pub fn get_region_alpha(&self, region: Region) -> Option<Region>
        ensures { result ≡ value_at text_cmp self.now.region_alpha region }
    {
        self.region_alpha.get(&region).copied()
    }

    /// A walk over the rows of `region_alpha`, rising by key.
    pub fn iter_region_alpha(&self) -> Rows<'_, Region, Region>
        ensures rows { result ≡ self.now.region_alpha }
        ensures sorted { IsSortedMap text_cmp self.now.region_alpha }
        ensures found { IsFoundEach text_cmp self.now.region_alpha }
    {
        self.region_alpha.iter()
    }

    /// Sets the region that replaces a region of digits. A row that is there takes the new value and no memory.
    ///
    /// # Errors
    ///
    /// `Memory`, only for a key that is not there yet, where memory for the row was refused: the table is unchanged then.
    pub fn insert_region_num(&mut self, region: Region, value: Region) -> Result<(), DataError>
        ensures table { self.new ≡ record self.old { region_num = self.new.region_num } }
        ensures insert { Inserts text_cmp self.old.region_num self.new.region_num
            region value result }
    {
        self.region_num.insert(region, value)
    }

    /// The region that replaces a region of digits, if there is a row.
    pub fn get_region_num(&self, region: Region) -> Option<Region>
        ensures { result ≡ value_at text_cmp self.now.region_num region }
    {
        self.region_num.get(&region).copied()
    }

    /// A walk over the rows of `region_num`, rising by key.
    pub fn iter_region_num(&self) -> Rows<'_, Region, Region>
        ensures rows { result ≡ self.now.region_num }
        ensures sorted { IsSortedMap text_cmp self.now.region_num }
        ensures found { IsFoundEach text_cmp self.now.region_num }
    {
        self.region_num.iter()
    }

    /// Sets the regions of which one replaces a region. A row that is there takes the new value and no memory.
    ///
    /// # Errors
    ///
    /// `Memory`, only for a key that is not there yet, where memory for the row was refused: the table is unchanged then.
    pub fn insert_complex_region(
        &mut self,
        region: Region,
        value: Vec<Region>,
    ) -> Result<(), DataError>
        ensures table { self.new ≡ record self.old { complex_region = self.new.complex_region } }
        ensures insert { Inserts text_cmp self.old.complex_region self.new.complex_region
            region value result }
    {
        self.complex_region.insert(region, value)
    }

    /// The regions of which one replaces a region, if there is a row.
    pub fn get_complex_region(&self, region: Region) -> Option<&[Region]>
        ensures { option_copied result ≡ regions_at self.now.complex_region region }
    {
        Some(self.complex_region.get(&region)?.as_slice())
    }

    /// A walk over the rows of `complex_region`, rising by key.
    pub fn iter_complex_region(&self) -> Rows<'_, Region, Vec<Region>>
        ensures rows { result ≡ self.now.complex_region }
        ensures sorted { IsSortedMap text_cmp self.now.complex_region }
        ensures found { IsFoundEach text_cmp self.now.complex_region }
    {
        self.complex_region.iter()
    }

    /// Sets the variant that replaces a variant. A row that is there takes the new value and no memory.
    ///
    /// # Errors
    ///
    /// `Memory`, only for a key that is not there yet, where memory for the row was refused: the table is unchanged then.
    pub fn insert_variant(&mut self, variant: Variant, value: Variant) -> Result<(), DataError>
        ensures table { self.new ≡ record self.old { variant = self.new.variant } }
        ensures insert { Inserts text_cmp self.old.variant self.new.variant variant value result }
    {
        self.variant.insert(variant, value)
    }

    /// The variant that replaces a variant, if there is a row.
    pub fn get_variant(&self, variant: Variant) -> Option<Variant>
        ensures { result ≡ value_at text_cmp self.now.variant variant }
    {
        self.variant.get(&variant).copied()
    }

    /// A walk over the rows of `variant`, rising by key.
    pub fn iter_variant(&self) -> Rows<'_, Variant, Variant>
        ensures rows { result ≡ self.now.variant }
        ensures sorted { IsSortedMap text_cmp self.now.variant }
        ensures found { IsFoundEach text_cmp self.now.variant }
    {
        self.variant.iter()
    }

    /// Sets the value text that replaces a subdivision. A row that is there takes the new value and no memory.
    ///
    /// # Errors
    ///
    /// `Memory`, only for a key that is not there yet, where memory for the row was refused: the table is unchanged then.
    pub fn insert_subdivision(&mut self, subtag: Subtag, value: String) -> Result<(), DataError>
        ensures table { self.new ≡ record self.old { subdivision = self.new.subdivision } }
        ensures insert { Inserts text_cmp self.old.subdivision self.new.subdivision
            subtag value result }
    {
        self.subdivision.insert(subtag, value)
    }

    /// The value text that replaces a subdivision, if there is a row.
    pub fn get_subdivision(&self, subtag: Subtag) -> Option<&str>
        ensures { option_copied result ≡ text_at self.now.subdivision subtag }
    {
        Some(self.subdivision.get_numbered(&subtag)?.as_str())
    }

    /// A walk over the rows of `subdivision`, rising by key.
    pub fn iter_subdivision(&self) -> Rows<'_, Subtag, String>
        ensures rows { result ≡ self.now.subdivision }
        ensures sorted { IsSortedMap text_cmp self.now.subdivision }
        ensures found { IsFoundEach text_cmp self.now.subdivision }
    {
        self.subdivision.iter()
    }
}
