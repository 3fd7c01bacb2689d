//! Rows of likely subtags, and maximal forms by a walk over them.
use crate::numbers::{Drawn, Numbers};
use crate::plain::Plain;
use crate::subtags::Subtags;
use icu_locale_core::{Language, Region, Script};
use icu_provider::{
    DataError, LikelySubtagsExtended, LikelySubtagsForLanguage, LikelySubtagsForScriptRegion,
};
use std::alloc::{AllocError, Global};

/// The subtags that a row is looked up by.
#[derive(Clone, Copy, PartialEq, Eq)]
pub enum Key {
    LanguageRegion,
    LanguageScript,
    Language,
    ScriptRegion,
    Script,
    Region,
}

// The keys that are asked where the language is known, in their order.
const OF_A_LANGUAGE: [Key; 3] = [Key::LanguageRegion, Key::LanguageScript, Key::Language];

// The keys that are asked where it is not.
const OF_UND: [Key; 3] = [Key::ScriptRegion, Key::Script, Key::Region];

/// A language, a script and a region.
pub type Triple = (Language, Script, Region);

/// The subtags of the key and those that the row gives, in one triple.
#[derive(Clone, Copy)]
pub struct Row {
    key: Key,
    triple: Triple,
}

impl Row {
    fn serves(&self, key: Key, x: &Plain) -> bool {
        let language = x.language == self.triple.0;
        let script = x.script == Some(self.triple.1);
        let region = x.region == Some(self.triple.2);
        let agrees = match key {
            Key::LanguageRegion => language && region,
            Key::LanguageScript => language && script,
            Key::Language => language,
            Key::ScriptRegion => script && region,
            Key::Script => script,
            Key::Region => region,
        };
        self.key == key && agrees
    }

    fn put_common(
        &self,
        by_language: &mut LikelySubtagsForLanguage,
        by_script_region: &mut LikelySubtagsForScriptRegion,
    ) -> Result<(), DataError> {
        let (language, script, region) = self.triple;
        match self.key {
            Key::LanguageRegion => by_language.insert_language_region(language, region, script),
            Key::LanguageScript => by_language.insert_language_script(language, script, region),
            Key::Language => by_language.insert_language(language, script, region),
            Key::ScriptRegion => by_script_region.insert_script_region(script, region, language),
            Key::Script => by_script_region.insert_script(script, language, region),
            Key::Region => by_script_region.insert_region(region, language, script),
        }
    }

    fn put_extended(&self, extended: &mut LikelySubtagsExtended) -> Result<(), DataError> {
        let (language, script, region) = self.triple;
        match self.key {
            Key::LanguageRegion => extended.insert_language_region(language, region, script),
            Key::LanguageScript => extended.insert_language_script(language, script, region),
            Key::Language => extended.insert_language(language, script, region),
            Key::ScriptRegion => extended.insert_script_region(script, region, language),
            Key::Script => extended.insert_script(script, language, region),
            Key::Region => extended.insert_region(region, language, script),
        }
    }
}

impl Drawn for Row {
    fn draw(numbers: &mut Numbers, subtags: &Subtags) -> Row {
        let keys = if numbers.is_chosen() {
            OF_UND
        } else {
            OF_A_LANGUAGE
        };
        Row {
            key: numbers.one_of(&keys),
            triple: Drawn::draw(numbers, subtags),
        }
    }
}

/// The rows of one world.
#[derive(Drop)]
pub struct Likely {
    und: Triple,
    extended: [Row; 5],
    common: [Row; 8],
}

impl Drawn for Likely {
    fn draw(numbers: &mut Numbers, subtags: &Subtags) -> Likely {
        Likely {
            und: Drawn::draw(numbers, subtags),
            extended: Drawn::draw(numbers, subtags),
            common: Drawn::draw(numbers, subtags),
        }
    }
}

impl Likely {
    /// The common tables.
    pub fn common(
        &self,
        alloc: Global,
    ) -> Result<(LikelySubtagsForLanguage, LikelySubtagsForScriptRegion), DataError> {
        let mut language = LikelySubtagsForLanguage::new(alloc, self.und);
        let mut script_region = LikelySubtagsForScriptRegion::new(alloc);
        for row in &self.common {
            row.put_common(&mut language, &mut script_region)?;
        }
        Ok((language, script_region))
    }

    /// The extended table.
    pub fn extended(&self, alloc: Global) -> Result<LikelySubtagsExtended, DataError> {
        let mut extended = LikelySubtagsExtended::new(alloc);
        for row in &self.extended {
            row.put_extended(&mut extended)?;
        }
        Ok(extended)
    }

    /// All rows, of which a later one covers an earlier one with its key: those of `und`, the extended ones where they are
    /// wanted, and the common ones.
    pub fn rows(&self, alloc: Global, with_extended: bool) -> Result<Vec<Row>, AllocError> {
        let mut rows = Vec::new(alloc);
        for key in OF_UND {
            let triple = self.und;
            rows.push(Row { key, triple })?;
        }
        if with_extended {
            rows.extend_from_slice(&self.extended)?;
        }
        rows.extend_from_slice(&self.common)?;
        Ok(rows)
    }
}

// The first key that a row serves, and of its rows the last.
fn found(rows: &[Row], x: &Plain) -> Option<Triple> {
    for key in if x.language.is_unknown() {
        OF_UND
    } else {
        OF_A_LANGUAGE
    } {
        let last = last(rows, key, x);
        if last.is_some() {
            return last;
        }
    }
    None
}

fn last(rows: &[Row], key: Key, x: &Plain) -> Option<Triple> {
    let mut last = None;
    for row in rows {
        if row.serves(key, x) {
            last = Some(row.triple);
        }
    }
    last
}

/// The maximal form: what is missing is taken from the row that is found.
pub fn maximal(rows: &[Row], subtags: &Subtags, x: &Plain) -> Plain {
    let bare = x.bare(subtags);
    let Some((language, script, region)) = found(rows, &bare) else {
        return bare;
    };
    Plain {
        language: if bare.language.is_unknown() {
            language
        } else {
            bare.language
        },
        script: bare.script.or(Some(script)),
        region: bare.region.or(Some(region)),
        variants: bare.variants,
    }
}
