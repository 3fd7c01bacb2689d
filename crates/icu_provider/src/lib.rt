//! The data that the crates above are asked over: tables of likely subtags, of aliases and of directions, sets of exemplar
//! characters, names, names in menus, patterns of names, names of what extensions say, rules of language matching, and the trait of
//! their sources.
#![tactic(auto)]

mod aliases;
mod data_locale;
mod direction;
mod error;
mod essentials;
mod exemplars;
mod extension_names;
pub mod laws;
mod likely;
mod marked;
mod matching;
mod names;
mod noted_map;
mod provider;
mod row_list;
mod sorted_map;
mod table_text;

pub use aliases::{Aliases, LanguageStrStrPair, StrStrPair};
pub use data_locale::DataLocale;
pub use direction::ScriptDirection;
pub use error::{DataError, DataErrorKind};
pub use essentials::{DoublePlaceholderPattern, LocaleNamesEssentials, PatternItem};
pub use exemplars::{CharacterRanges, ExemplarCharactersData, ExemplarMarker, ExemplarStrings};
pub use extension_names::{ExtensionNames, TextNames};
pub use icu_locale_core::Rows;
pub use likely::{LikelySubtagsExtended, LikelySubtagsForLanguage, LikelySubtagsForScriptRegion};
pub use marked::Marked;
pub use matching::{LanguageMatching, MatchPattern, MatchRule, MatchRules, RegionPattern};
pub use names::{MenuMarker, MenuNameParts, NameKey, NameMarker};
pub use noted_map::NotedMap;
pub use provider::DataProvider;
pub use row_list::RowList;
pub use sorted_map::SortedMap;
pub use table_text::TableText;
