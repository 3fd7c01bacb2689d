//! What parts of extensions are called (UTS #35 Part 2, "Locale Display Name Algorithm"), as the caller hands it in.
ghost use Rattle.std.specs.Prelude.{◌≡◌, []};

use crate::{DoublePlaceholderPattern, SortedMap, TableText};
use std::alloc::Global;

/// Names by the text of what they name.
pub type TextNames = SortedMap<TableText, TableText>;

/// What parts of extensions are called in the language of one locale, by keys and types as BCP 47 spells them: any texts.
#[derive(Debug)]
pub struct ExtensionNames {
    /// The names of types, by key: what a keyword or a field with this value is called as a whole.
    pub types: SortedMap<TableText, TextNames>,
    /// The names of keys, and of extensions by their letter.
    pub keys: TextNames,
    /// The names of values by key, for keys whose types have none: currencies, subdivisions, time zones, codes.
    pub values: SortedMap<TableText, TextNames>,
    /// How a key and its value are joined: the first argument is the key, the second the value.
    pub pattern: DoublePlaceholderPattern,
}

impl Drop for ExtensionNames {
    fn drop(self) {
        let ExtensionNames {
            types: _,
            keys: _,
            values: _,
            pattern: _,
        } = self;
    }
}

impl ExtensionNames {
    /// No names, and a pattern. It takes no memory.
    pub fn new(alloc: Global, pattern: DoublePlaceholderPattern) -> Self
        ensures types { result.types ≡ [] }
        ensures keys { result.keys ≡ [] }
        ensures values { result.values ≡ [] }
        ensures pattern { result.pattern ≡ pattern }
    {
        ExtensionNames {
            types: SortedMap::new(alloc),
            keys: SortedMap::new(alloc),
            values: SortedMap::new(alloc),
            pattern,
        }
    }
}
