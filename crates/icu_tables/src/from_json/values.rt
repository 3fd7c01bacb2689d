//! What a JSON value is read as: the trait, texts of any content, and maps, objects whose members are rows.
ghost use Rattle.std.specs.Prelude.{IfOk};
ghost use Rattle.serde_json.specs.View.{view};
ghost use Rattle.icu_provider.specs.SortedMaps.{IsSortedMap};
ghost use Rattle.icu_tables.specs.Rows.{seen_rows};
ghost use Rattle.icu_tables.specs.Shape.{map_of, text};
ghost use Rattle.icu_tables.specs.inner.Reads.{Reads};

use crate::TableError;
use crate::from_json::keys::RowKey;
use icu_provider::{Marked, NotedMap, SortedMap};
use serde_json::Value;
use std::alloc::Global;

// A type that JSON values of one shape are read as.
pub(crate) trait FromValue: Drop {
    ghost use Rattle.serde_json.specs.View.{view};
    ghost use Rattle.icu_tables.specs.inner.Reads.{Reads};
    ghost use Rattle.icu_tables.specs.Shape.{Shape};

    // What a contract sees of what was read.
    ghost Seen: { Type 0 };

    ghost seen: { Self → Self.Seen };

    // What a JSON value of the shape says.
    ghost shape: { Shape Self.Seen };

    fn from_value(alloc: Global, value: &Value) -> Result<Self, TableError>
        ensures { Reads Self.seen result (Self.shape (view value.now)) };
}

impl FromValue for String {
    ghost use Rattle.std.specs.Prelude.{List, ℕ, string_bytes};

    ghost Seen = { List ℕ };

    ghost seen = { string_bytes };

    ghost shape = { text };

    fn from_value(alloc: Global, value: &Value) -> Result<Self, TableError> {
        match value.as_str() {
            Some(text) => Ok(String::from_str(alloc, text)?),
            None => Err(TableError::Shape),
        }
    }
}

impl<K: RowKey, V: FromValue> FromValue for SortedMap<K, V> {
    ghost use Rattle.std.specs.Prelude.{List};
    ghost use Rattle.icu_tables.specs.Rows.{seen_rows};

    ghost Seen = { List (K × V.Seen) };

    ghost seen = { λ rows. seen_rows V.seen rows };

    ghost shape = { map_of K.key V.shape };

    fn from_value(alloc: Global, value: &Value) -> Result<Self, TableError> {
        Ok(SortedMap::from_sorted(rows_of(alloc, value)?))
    }
}

impl<K: RowKey + Marked, V: FromValue> FromValue for NotedMap<K, V> {
    ghost use Rattle.std.specs.Prelude.{List};
    ghost use Rattle.icu_tables.specs.Rows.{seen_rows};

    ghost Seen = { List (K × V.Seen) };

    ghost seen = { λ rows. seen_rows V.seen rows };

    ghost shape = { map_of K.key V.shape };

    fn from_value(alloc: Global, value: &Value) -> Result<Self, TableError> {
        Ok(NotedMap::try_from_sorted(alloc, rows_of(alloc, value)?)?)
    }
}

// The rows of an object whose members are rows. The names of its members rise, and so do the keys.
fn rows_of<K: RowKey, V: FromValue>(alloc: Global, value: &Value) -> Result<Vec<(K, V)>, TableError>
    ensures read { Reads (λ rows. seen_rows V.seen rows.items) result
        (map_of K.key V.shape (view value.now)) }
    ensures sorted { IfOk result (λ rows. IsSortedMap K.cmp rows.items) }
{
    let Some(members) = value.as_object() else {
        return Err(TableError::Shape);
    };
    let mut rows = Vec::new(alloc);
    for (name, member) in members.iter() {
        let value = V::from_value(alloc, member)?;
        if let Some(key) = K::from_name(name.as_str()) {
            rows.push((key, value))?;
        }
    }
    Ok(rows)
}
