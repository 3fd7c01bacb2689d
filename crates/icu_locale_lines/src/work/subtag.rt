//! Kinds of subtags, and the chains that name them.
ghost use Rattle.std.specs.Prelude.{◌≡◌};
ghost use Rattle.icu_locale_lines.specs.CommandWords.{kind_at, named, region_chain_word, region_chains, script_chain_word, script_chains, subtag_chain_at, subtags_at};

use crate::asked::chain_of;
use crate::command::is_word;
use icu_locale_names::{DisplayNamesPreferences, NameChain};
use icu_tables::LocaleTables;

/// A kind of subtag.
#[derive(Clone, Copy, Debug, PartialEq, Eq)]
pub enum SubtagKind {
    /// A language.
    Language,
    /// A script.
    Script,
    /// A region.
    Region,
    /// A variant.
    Variant,
}

/// How a script is named.
#[derive(Clone, Copy, Debug, PartialEq, Eq)]
pub enum ScriptChain {
    /// Of medium length, among the most asked ones.
    Tiny,
    /// Of medium length.
    Light,
    /// Of medium length, the rare ones too.
    Heavy,
    /// Short, or else of medium length, the rare ones too.
    ShortHeavy,
}

/// How a region is named.
#[derive(Clone, Copy, Debug, PartialEq, Eq)]
pub enum RegionChain {
    /// Of medium length, among the most asked ones.
    Tiny,
    /// Short, or else of medium length, among the most asked ones.
    ShortTiny,
    /// Of medium length.
    Light,
    /// Short, or else of medium length.
    ShortLight,
}

/// How a subtag of one kind is named.
#[derive(Clone, Copy, Debug, PartialEq, Eq)]
pub enum SubtagChain {
    /// A language, as an identifier of it alone.
    Language(NameChain),
    /// A script.
    Script(ScriptChain),
    /// A region.
    Region(RegionChain),
    /// A variant: of medium length, the rare ones too.
    Variant,
}

impl SubtagKind {
    /// The kind of a command's word.
    pub fn of_word(word: &str) -> Option<Self>
        ensures { result ≡ kind_at word.now }
    {
        let word = word.as_bytes();
        if is_word(word, "language-name") {
            Some(SubtagKind::Language)
        } else if is_word(word, "script-name") {
            Some(SubtagKind::Script)
        } else if is_word(word, "region-name") {
            Some(SubtagKind::Region)
        } else if is_word(word, "variant-name") {
            Some(SubtagKind::Variant)
        } else {
            None
        }
    }

    /// The kind of a word for several subtags.
    pub fn of_subtags(word: &str) -> Option<Self>
        ensures { result ≡ subtags_at word.now }
    {
        let word = word.as_bytes();
        if is_word(word, "languages") {
            Some(SubtagKind::Language)
        } else if is_word(word, "scripts") {
            Some(SubtagKind::Script)
        } else if is_word(word, "regions") {
            Some(SubtagKind::Region)
        } else if is_word(word, "variants") {
            Some(SubtagKind::Variant)
        } else {
            None
        }
    }

    /// The chain of the kind that a word names.
    pub fn chain(self, word: &str) -> Option<SubtagChain>
        ensures { result ≡ subtag_chain_at self word.now }
    {
        match self {
            SubtagKind::Language => Some(SubtagChain::Language(chain_of(word)?)),
            SubtagKind::Script => Some(SubtagChain::Script(script_chain_of(word.as_bytes())?)),
            SubtagKind::Region => Some(SubtagChain::Region(region_chain_of(word.as_bytes())?)),
            SubtagKind::Variant if is_word(word.as_bytes(), "heavy") => Some(SubtagChain::Variant),
            SubtagKind::Variant => None,
        }
    }
}

fn script_chain_of(word: &[u8]) -> Option<ScriptChain>
    ensures { result ≡ named script_chain_word script_chains word.now }
{
    if is_word(word, "tiny") {
        Some(ScriptChain::Tiny)
    } else if is_word(word, "light") {
        Some(ScriptChain::Light)
    } else if is_word(word, "heavy") {
        Some(ScriptChain::Heavy)
    } else if is_word(word, "short-heavy") {
        Some(ScriptChain::ShortHeavy)
    } else {
        None
    }
}

fn region_chain_of(word: &[u8]) -> Option<RegionChain>
    ensures { result ≡ named region_chain_word region_chains word.now }
{
    if is_word(word, "tiny") {
        Some(RegionChain::Tiny)
    } else if is_word(word, "short-tiny") {
        Some(RegionChain::ShortTiny)
    } else if is_word(word, "light") {
        Some(RegionChain::Light)
    } else if is_word(word, "short-light") {
        Some(RegionChain::ShortLight)
    } else {
        None
    }
}

/// What gives names of subtags: tables, a chain, and the preferences in whose language names are asked for.
#[derive(Debug, Drop)]
pub struct SubtagNaming<'d> {
    /// The tables that are asked, in the locale of the preferences.
    pub tables: LocaleTables<'d>,
    /// The chain.
    pub chain: SubtagChain,
    /// The preferences.
    pub preferences: DisplayNamesPreferences,
}
