//! Rules of language matching (UTS #35 Part 1, section 4.4, Language Matching), as the caller hands them in.
ghost use Rattle.std.specs.Prelude.{◌≡◌, []};

use crate::{DataLocale, SortedMap};
use icu_locale_core::{Language, Region, Script};
use std::alloc::Global;

/// What a match rule says of the region of a form.
#[derive(Debug, Drop)]
pub enum RegionPattern {
    /// Any region, or none: `*`.
    Any,
    /// One of these: a region alone, or a variable, as `$enUS`.
    In(SortedMap<Region, ()>),
    /// None of these, or none at all: a negated variable, as `$!enUS`.
    NotIn(SortedMap<Region, ()>),
}

/// What a match rule says of the script and the region of a form.
#[derive(Debug, Drop)]
pub struct MatchPattern {
    /// The script; without one any script, or none: `*`.
    pub script: Option<Script>,
    /// The region.
    pub region: RegionPattern,
}

/// A rule for one desired language and one supported language, one way: a `languageMatch` of CLDR.
#[derive(Debug, Drop)]
pub struct MatchRule {
    /// What else the desired form has.
    pub desired: MatchPattern,
    /// The supported language.
    pub language: Language,
    /// What else the supported form has.
    pub supported: MatchPattern,
    /// The distance.
    pub distance: u16,
}

/// The rules for one desired language, by how many subtags they look at, in their order. The first that fits counts.
#[derive(Debug)]
pub struct MatchRules {
    /// Those of languages: asked where the languages differ.
    pub language: Vec<MatchRule>,
    /// Those of scripts: asked where the scripts differ.
    pub script: Vec<MatchRule>,
    /// Those of regions: asked where the regions differ.
    pub region: Vec<MatchRule>,
}

/// Match rules by desired language, and the distance where no rule fits: what CLDR writes last, at `*`, `*_*` and
/// `*_*_*`. A rule that goes both ways is there once for each.
#[derive(Debug)]
pub struct LanguageMatching {
    /// The rules.
    pub rules: SortedMap<Language, MatchRules>,
    /// The distance of two languages that no rule fits.
    pub other_language: u16,
    /// The distance of two scripts that no rule fits.
    pub other_script: u16,
    /// The distance of two regions that no rule fits.
    pub other_region: u16,
    /// The regions that a macro region stands for, as `001` and `419`. A region without a row stands for itself.
    pub macros: SortedMap<Region, Vec<Region>>,
    /// The paradigm locales, which come first among equals.
    pub paradigms: Vec<DataLocale>,
}

impl Drop for MatchRules {
    fn drop(self) {
        let MatchRules {
            language: _,
            script: _,
            region: _,
        } = self;
    }
}

impl Drop for LanguageMatching {
    fn drop(self) {
        let LanguageMatching {
            rules: _,
            other_language: _,
            other_script: _,
            other_region: _,
            macros: _,
            paradigms: _,
        } = self;
    }
}

impl MatchRules {
    /// No rules. It takes no memory.
    pub fn new(alloc: Global) -> Self
        ensures language { result.language.items ≡ [] }
        ensures script { result.script.items ≡ [] }
        ensures region { result.region.items ≡ [] }
    {
        MatchRules {
            language: Vec::new(alloc),
            script: Vec::new(alloc),
            region: Vec::new(alloc),
        }
    }
}

impl LanguageMatching {
    /// No rules, no macro regions and no paradigm locales, and the distances where no rule fits. It takes no memory.
    pub fn new(alloc: Global, other_language: u16, other_script: u16, other_region: u16) -> Self
        ensures rules { result.rules ≡ [] }
        ensures language { result.other_language ≡ other_language }
        ensures script { result.other_script ≡ other_script }
        ensures region { result.other_region ≡ other_region }
        ensures macros { result.macros ≡ [] }
        ensures paradigms { result.paradigms.items ≡ [] }
    {
        LanguageMatching {
            rules: SortedMap::new(alloc),
            other_language,
            other_script,
            other_region,
            macros: SortedMap::new(alloc),
            paradigms: Vec::new(alloc),
        }
    }
}
