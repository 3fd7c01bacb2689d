//! The keywords of a locale: a map from keys to values.
ghost use Rattle.icu_locale_core.specs.Keywords.{IsKeyword};

use crate::row_map::{RowKey, RowMap};
use crate::{Key, Value};

/// The keywords of a locale (keyword of UTS #35, section 3.6.1): a finite map from keys to values.
///
/// A contract sees the rows of the map, a key and its value each, the keys rising. Only `set`, `add` and `try_clone`
/// take memory.
pub type Keywords = RowMap<Key, Value>;

impl RowKey<Value> for Key {
    ghost IsRow = { IsKeyword };

    ghost text = { λ key. key };

    fn name(&self) -> &str {
        self.as_str()
    }

    fn known_with(&self, value: &Value) {
        let _ = self.as_str();
        let _ = value.as_single_subtag();
    }

    ghost replaced = { λ k l v w first second. record { key = first.key; value = second.value } };
}
