//! The chains of kinds of names by which identifiers are named.
ghost use Rattle.std.specs.Prelude.{◌≡◌, Some, IfSome};
ghost use Rattle.icu_locale_names.specs.LanguageChains.{chain_of, chain_word};
ghost use Rattle.icu_locale_names.specs.declared.name_chain.NameChain.{NameChain};
ghost use Rattle.icu_locale_names.specs.inner.LanguageParts.{chains_of};

use crate::{region, script};
use icu_provider::{MenuMarker, NameMarker};

/// Which kinds of names are asked for, and in which order.
#[derive(Clone, Copy, Debug, PartialEq, Eq)]
pub enum NameChain {
    /// Of medium length, among the most asked ones.
    Tiny,
    /// Of medium length.
    Light,
    /// Short, or else of medium length.
    ShortLight,
    /// Long, or else of medium length.
    LongLight,
    /// As in a menu, or else of medium length. Names of dialects are never asked for.
    MenuLight,
    /// As in a menu, or else short, or else of medium length. Names of dialects are never asked for.
    ShortMenuLight,
    /// Of medium length, the rare ones too.
    Heavy,
    /// Short, or else of medium length, the rare ones too.
    ShortHeavy,
    /// Long, or else of medium length, the rare ones too.
    LongHeavy,
    /// As in a menu, or else of medium length, the rare ones too. Names of dialects are never asked for.
    MenuHeavy,
    /// As in a menu, or else short, or else of medium length, the rare ones too. Names of dialects are never
    /// asked for.
    ShortMenuHeavy,
}

// The kinds of names that are asked for: of the language in menus and in texts, and of its script and its region.
#[derive(Clone, Copy)]
pub struct Chains<'c> {
    pub menu: &'c [MenuMarker],
    pub text: &'c [NameMarker],
    pub script: &'c [NameMarker],
    pub region: &'c [NameMarker],
}

const LIGHT_TEXTS: [NameMarker; 2] = [
    NameMarker::LanguageMediumLight,
    NameMarker::LanguageMediumTiny,
];

const SHORT_LIGHT_TEXTS: [NameMarker; 3] = [
    NameMarker::LanguageShortLight,
    NameMarker::LanguageMediumLight,
    NameMarker::LanguageMediumTiny,
];

const HEAVY_TEXTS: [NameMarker; 3] = [
    NameMarker::LanguageMediumHeavy,
    NameMarker::LanguageMediumLight,
    NameMarker::LanguageMediumTiny,
];

const SHORT_HEAVY_TEXTS: [NameMarker; 5] = [
    NameMarker::LanguageShortHeavy,
    NameMarker::LanguageShortLight,
    NameMarker::LanguageMediumHeavy,
    NameMarker::LanguageMediumLight,
    NameMarker::LanguageMediumTiny,
];

const HEAVY_MENUS: [MenuMarker; 2] = [MenuMarker::MediumHeavy, MenuMarker::MediumLight];

impl NameChain {
    /// The chain that a word names: its constructor's name, with `-` for `_`. None where the word is that of no chain.
    pub fn from_word(word: &str) -> Option<NameChain>
        ensures named { IfSome result (λ chain. word.now ≡ chain_word chain) }
        ensures only { (chain : NameChain)
            → word.now ≡ chain_word chain → result ≡ Some chain }
    {
        match word {
            "tiny" => Some(NameChain::Tiny),
            "light" => Some(NameChain::Light),
            "short-light" => Some(NameChain::ShortLight),
            "long-light" => Some(NameChain::LongLight),
            "menu-light" => Some(NameChain::MenuLight),
            "short-menu-light" => Some(NameChain::ShortMenuLight),
            "heavy" => Some(NameChain::Heavy),
            "short-heavy" => Some(NameChain::ShortHeavy),
            "long-heavy" => Some(NameChain::LongHeavy),
            "menu-heavy" => Some(NameChain::MenuHeavy),
            "short-menu-heavy" => Some(NameChain::ShortMenuHeavy),
            _ => None,
        }
    }

    // The kinds of names that the chain asks for.
    pub(crate) fn chains(self) -> Chains<'static>
        ensures { chains_of result ≡ chain_of self }
    {
        match self {
            NameChain::Tiny => Chains {
                menu: &[],
                text: &[NameMarker::LanguageMediumTiny],
                script: &script::TINY,
                region: &region::TINY,
            },
            NameChain::Light => Chains {
                menu: &[],
                text: &LIGHT_TEXTS,
                script: &script::LIGHT,
                region: &region::LIGHT,
            },
            NameChain::ShortLight => Chains {
                menu: &[],
                text: &SHORT_LIGHT_TEXTS,
                script: &script::LIGHT,
                region: &region::SHORT_LIGHT,
            },
            NameChain::LongLight => Chains {
                menu: &[],
                text: &[
                    NameMarker::LanguageLongLight,
                    NameMarker::LanguageMediumLight,
                    NameMarker::LanguageMediumTiny,
                ],
                script: &script::LIGHT,
                region: &region::LIGHT,
            },
            NameChain::MenuLight => Chains {
                menu: &[MenuMarker::MediumLight],
                text: &LIGHT_TEXTS,
                script: &script::LIGHT,
                region: &region::LIGHT,
            },
            NameChain::ShortMenuLight => Chains {
                menu: &[MenuMarker::MediumLight],
                text: &SHORT_LIGHT_TEXTS,
                script: &script::LIGHT,
                region: &region::SHORT_LIGHT,
            },
            NameChain::Heavy => Chains {
                menu: &[],
                text: &HEAVY_TEXTS,
                script: &script::HEAVY,
                region: &region::LIGHT,
            },
            NameChain::ShortHeavy => Chains {
                menu: &[],
                text: &SHORT_HEAVY_TEXTS,
                script: &script::SHORT_HEAVY,
                region: &region::SHORT_LIGHT,
            },
            NameChain::LongHeavy => Chains {
                menu: &[],
                text: &[
                    NameMarker::LanguageLongHeavy,
                    NameMarker::LanguageLongLight,
                    NameMarker::LanguageMediumHeavy,
                    NameMarker::LanguageMediumLight,
                    NameMarker::LanguageMediumTiny,
                ],
                script: &script::HEAVY,
                region: &region::LIGHT,
            },
            NameChain::MenuHeavy => Chains {
                menu: &HEAVY_MENUS,
                text: &HEAVY_TEXTS,
                script: &script::HEAVY,
                region: &region::LIGHT,
            },
            NameChain::ShortMenuHeavy => Chains {
                menu: &HEAVY_MENUS,
                text: &SHORT_HEAVY_TEXTS,
                script: &script::SHORT_HEAVY,
                region: &region::SHORT_LIGHT,
            },
        }
    }
}
