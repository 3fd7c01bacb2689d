//! Names of languages, scripts, regions and variants, and names in menus.

use icu_locale_core::{Language, Region, Script, Variant};
use std::marker::Model;

/// A kind of names: whose name it is, how long it may be, and how common a locale's use of it is. A light kind holds
/// the names that a tiny one leaves out, and a heavy kind those that a light one leaves out. Their order is that of these
/// words, so that tables whose kinds are listed by name are filled from one end.
#[derive(Clone, Copy, Debug, PartialEq, Eq, PartialOrd, Ord)]
pub enum NameMarker {
    /// Long names of languages, the rare ones too.
    LanguageLongHeavy,
    /// Long names of languages.
    LanguageLongLight,
    /// Names of languages of medium length, the rare ones too.
    LanguageMediumHeavy,
    /// Names of languages of medium length.
    LanguageMediumLight,
    /// Names of languages of medium length, the most asked ones.
    LanguageMediumTiny,
    /// Short names of languages, the rare ones too.
    LanguageShortHeavy,
    /// Short names of languages.
    LanguageShortLight,
    /// Names of regions of medium length.
    RegionMediumLight,
    /// Names of regions of medium length, the most asked ones.
    RegionMediumTiny,
    /// Short names of regions.
    RegionShortLight,
    /// Short names of regions, the most asked ones.
    RegionShortTiny,
    /// Names of scripts of medium length, the rare ones too.
    ScriptMediumHeavy,
    /// Names of scripts of medium length.
    ScriptMediumLight,
    /// Names of scripts of medium length, the most asked ones.
    ScriptMediumTiny,
    /// Short names of scripts, the rare ones too.
    ScriptShortHeavy,
    /// Names of variants.
    VariantMediumHeavy,
}

/// Whose name is asked for.
#[derive(Clone, Copy, Debug, PartialEq, Eq, PartialOrd, Ord)]
pub enum NameKey {
    /// A language, with a script if any and a region if any, as in a dialect's name.
    Language(Language, Option<Script>, Option<Region>),
    /// A script.
    Script(Script),
    /// A region.
    Region(Region),
    /// A variant.
    Variant(Variant),
}

/// A kind of names in menus: how common a locale's use of them is. The heavy kind holds the names that the light one
/// leaves out.
#[derive(Clone, Copy, Debug, PartialEq, Eq, PartialOrd, Ord)]
pub enum MenuMarker {
    /// Names of languages of medium length.
    MediumLight,
    /// Names of languages of medium length, the rare ones too.
    MediumHeavy,
}

/// The name of a language in a menu, in two parts (UTS #35 Part 2, "Display Name Elements"). A contract sees
/// their texts.
#[derive(Debug)]
pub struct MenuNameParts {
    /// The name that the language shares with those like it.
    pub core: String,
    /// What tells the language from those like it, empty where nothing does.
    pub extension: String,
}

impl Drop for MenuNameParts {
    fn drop(self) {
        let MenuNameParts {
            core: _,
            extension: _,
        } = self;
    }
}

impl Model for MenuNameParts {
    ghost use Rattle.std.specs.Prelude.{string_bytes};
    ghost use Rattle.icu_provider.specs.Names.{MenuName};

    ghost Value = { MenuName };

    ghost view = { λ parts. record {
      core = string_bytes parts.core;
      extension = string_bytes parts.extension;
    } };
}
