//! Names of identifiers by each chain, and what extensions are called.
use crate::known::tables;
use icu_locale_core::LanguageIdentifier;
use icu_locale_names::{
    DisplayNamesPreferences, LanguageIdentifierDisplayName as Name,
    LanguageIdentifierDisplayNameOptions, NameChain,
};
use icu_provider::{DataError, DataProvider};
use icu_tables::{Supplement, Tables};
use std::alloc::Global;

const PATTERNS: &str =
    "{\"names\":{\"region/medium/light\":{\"en\":{\"150\":\"Europe\"}}},\"essentials\":{\"en\":{\"pattern\":[0,\" (\",1,\")\"],\"separator\":[0,\", \",1]}}}";

/// Patterns, and the name of one region.
pub fn patterns(alloc: Global) -> Option<Tables> {
    tables(alloc, PATTERNS)
}

/// The chains.
pub const CHAINS: [NameChain; 11] = [
    NameChain::Tiny,
    NameChain::Light,
    NameChain::ShortLight,
    NameChain::LongLight,
    NameChain::MenuLight,
    NameChain::ShortMenuLight,
    NameChain::Heavy,
    NameChain::ShortHeavy,
    NameChain::LongHeavy,
    NameChain::MenuHeavy,
    NameChain::ShortMenuHeavy,
];

/// The name by the constructor of a chain, where names of dialects are asked for.
pub fn named<'t, P: DataProvider>(
    alloc: Global,
    provider: &'t P,
    of: DisplayNamesPreferences,
    subject: &LanguageIdentifier,
    chain: NameChain,
) -> Result<Name<'t>, DataError> {
    let options = LanguageIdentifierDisplayNameOptions::default();
    match chain {
        NameChain::Tiny => Name::try_new_tiny_unstable(alloc, provider, of, subject, options),
        NameChain::Light => Name::try_new_light_unstable(alloc, provider, of, subject, options),
        NameChain::ShortLight => {
            Name::try_new_short_light_unstable(alloc, provider, of, subject, options)
        }
        NameChain::LongLight => {
            Name::try_new_long_light_unstable(alloc, provider, of, subject, options)
        }
        NameChain::MenuLight => {
            Name::try_new_menu_light_unstable(alloc, provider, of, subject, options)
        }
        NameChain::ShortMenuLight => {
            Name::try_new_short_menu_light_unstable(alloc, provider, of, subject, options)
        }
        NameChain::Heavy => Name::try_new_heavy_unstable(alloc, provider, of, subject, options),
        NameChain::ShortHeavy => {
            Name::try_new_short_heavy_unstable(alloc, provider, of, subject, options)
        }
        NameChain::LongHeavy => {
            Name::try_new_long_heavy_unstable(alloc, provider, of, subject, options)
        }
        NameChain::MenuHeavy => {
            Name::try_new_menu_heavy_unstable(alloc, provider, of, subject, options)
        }
        NameChain::ShortMenuHeavy => {
            Name::try_new_short_menu_heavy_unstable(alloc, provider, of, subject, options)
        }
    }
}

/// Names with raw subtags, by the chain `light` over the sample: the text, and the spans of what is raw.
pub const RAW: [(&str, &str, &[(usize, usize)]); 3] = [
    ("it-Qabc-150", "Italian (Qabc, Europe)", &[(9, 13)]),
    ("tlh-Qabc-150", "tlh (Qabc, Europe)", &[(0, 3), (5, 9)]),
    (
        "it-Latn-fonipa-posix",
        "Italian (Latin, IPA Phonetics, posix)",
        &[(31, 36)],
    ),
];

// Names of CLDR in English, as a supplement has them.
const CALLED: &str = "{\"extension_names\":{\"en\":{\
    \"pattern\":[0,\": \",1],\
    \"types\":{\
        \"ca\":{\"buddhist\":\"Buddhist Calendar\",\
            \"islamic-civil\":\"Islamic Calendar (tabular, civil epoch)\"},\
        \"h0\":{\"hybrid\":\"Hybrid\"},\
        \"kn\":{\"\":\"Sort Digits Numerically\"},\
        \"nu\":{\"thai\":\"Thai Digits\"}},\
    \"keys\":{\"cu\":\"Currency\",\"kr\":\"Script/Block Reordering\",\"t\":\"Transform\"},\
    \"values\":{\
        \"cu\":{\"eur\":\"€\",\"twd\":\"新台币（圆）\",\"xxa\":\"ＡＢ\"},\
        \"kr\":{\"digit\":\"Digits\",\"latn\":\"Latin\"}}}}}";

/// What extensions are called in English.
pub fn called(alloc: Global) -> Option<Supplement> {
    Supplement::from_json(alloc, CALLED.as_bytes()).ok()
}
