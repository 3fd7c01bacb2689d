//! Aliases of values: a value of a keyword or of a field, and the one that is preferred to it.
ghost use Rattle.std.specs.Prelude.{◌≡◌};
ghost use Rattle.serde_json.specs.View.{view};
ghost use Rattle.icu_tables.specs.Puts.{map_by};
ghost use Rattle.icu_tables.specs.Rows.{seen_rows};
ghost use Rattle.icu_tables.specs.Supplement.{alias_row};
ghost use Rattle.icu_tables.specs.inner.Reads.{Reads};

use crate::TableError;
use crate::from_json::keys::RowKey;
use crate::from_json::members::{AddsRows, NamesKeys, map_in};
use crate::from_json::subtags::FromText;
use crate::from_json::values::FromValue;
use icu_locale_core::{Key, ParseError, Value};
use icu_locale_extensions::{FieldKey, Subtags};
use icu_provider::SortedMap;
use serde_json::Value as Json;
use std::alloc::{AllocError, Global};
use std::cmp::Ord;

// A value that is read from a text in any case, or a subtag in written form. The pieces of a value may take memory.
pub(crate) trait ReadsValue: Ord + Drop {
    ghost use Rattle.std.specs.Prelude.{◌≡◌, List, ℕ, Option, IfOk};

    ghost reads: { List ℕ → Option Self };

    fn read(alloc: Global, text: &str) -> Result<Option<Self>, AllocError>
        ensures { IfOk result (λ read. read ≡ reads text.now) };
}

impl ReadsValue for Value {
    ghost use Rattle.icu_tables.specs.Values.{keyword_value};

    ghost reads = { keyword_value };

    fn read(alloc: Global, text: &str) -> Result<Option<Self>, AllocError> {
        match Value::try_from_str(alloc, text) {
            Ok(value) => Ok(Some(value)),
            Err(ParseError::InvalidSubtag) => Ok(None),
            Err(_) => Err(AllocError),
        }
    }
}

impl ReadsValue for Subtags<3> {
    ghost use Rattle.icu_tables.specs.Values.{field_value};

    ghost reads = { field_value };

    fn read(alloc: Global, text: &str) -> Result<Option<Self>, AllocError> {
        match Subtags::try_from_str(alloc, text) {
            Ok(value) => Ok(Some(value)),
            Err(ParseError::InvalidSubtag) => Ok(None),
            Err(_) => Err(AllocError),
        }
    }
}

// A subtag in written form, which takes no memory.
impl<T: FromText> ReadsValue for T {
    ghost use Rattle.icu_tables.specs.Subtags.{key_of};

    ghost reads = { key_of T.written T.reads };

    fn read(_alloc: Global, text: &str) -> Result<Option<Self>, AllocError> {
        Ok(T::from_name(text))
    }
}

// Adds the value that is preferred to the one that a member is named by.
pub(crate) struct Preferred;

impl<T: ReadsValue> AddsRows<T, T> for Preferred {
    ghost Seen = { T };

    ghost seen = { λ v. v };

    ghost says = { λ _. alias_row T.reads };

    fn add(
        &self,
        alloc: Global,
        name: &str,
        value: &Json,
        rows: &mut Vec<(T, T)>,
    ) -> Result<(), TableError> {
        let Some(text) = value.as_str() else {
            return Err(TableError::Shape);
        };
        let Some(preferred) = T::read(alloc, text)? else {
            return Err(TableError::Shape);
        };
        if let Some(aliased) = T::read(alloc, name)? {
            rows.push((aliased, preferred))?;
        }
        Ok(())
    }
}

// The aliases that the members of an object say.
fn aliases_in<T: ReadsValue>(alloc: Global, value: &Json) -> Result<SortedMap<T, T>, TableError>
    ensures { Reads (seen_rows (λ v. v)) result
        (map_by T.cmp (alias_row T.reads) (view value.now)) }
{
    map_in(alloc, value, &Preferred)
}

// The aliases of the values of a keyword.
impl FromValue for SortedMap<Value, Value> {
    ghost use Rattle.std.specs.Prelude.{List};
    ghost use Rattle.std.specs.Cmp.Lexicographic.{slice_cmp};
    ghost use Rattle.icu_locale_core.specs.TextSet.{text_cmp};
    ghost use Rattle.icu_tables.specs.Rows.{seen_rows};
    ghost use Rattle.icu_tables.specs.Values.{Pieces, keyword_value};

    ghost Seen = { List (Pieces × Pieces) };

    ghost seen = { seen_rows (λ v. v) };

    ghost shape = { map_by (slice_cmp text_cmp) (alias_row keyword_value) };

    fn from_value(alloc: Global, value: &Json) -> Result<Self, TableError> {
        aliases_in(alloc, value)
    }
}

// The aliases of the values of a field.
impl FromValue for SortedMap<Subtags<3>, Subtags<3>> {
    ghost use Rattle.std.specs.Prelude.{List};
    ghost use Rattle.std.specs.Cmp.Lexicographic.{slice_cmp};
    ghost use Rattle.icu_locale_core.specs.TextSet.{text_cmp};
    ghost use Rattle.icu_tables.specs.Rows.{seen_rows};
    ghost use Rattle.icu_tables.specs.Values.{Pieces, field_value};

    ghost Seen = { List (Pieces × Pieces) };

    ghost seen = { seen_rows (λ v. v) };

    ghost shape = { map_by (slice_cmp text_cmp) (alias_row field_value) };

    fn from_value(alloc: Global, value: &Json) -> Result<Self, TableError> {
        aliases_in(alloc, value)
    }
}

// Keys of keywords.
#[derive(Clone, Copy)]
pub(crate) struct KeywordKeys;

impl NamesKeys<Key> for KeywordKeys {
    ghost use Rattle.icu_tables.specs.Values.{keyword_key};

    ghost key = { λ _. keyword_key };

    fn key_named(&self, name: &str) -> Option<Key> {
        let key = Key::try_from_bytes(name.as_bytes())?;
        if key.as_str() == name {
            Some(key)
        } else {
            None
        }
    }
}

// Keys of fields.
#[derive(Clone, Copy)]
pub(crate) struct FieldKeys;

impl NamesKeys<FieldKey> for FieldKeys {
    ghost use Rattle.icu_tables.specs.Values.{field_key};

    ghost key = { λ _. field_key };

    fn key_named(&self, name: &str) -> Option<FieldKey> {
        let key = FieldKey::try_from_bytes(name.as_bytes())?;
        if key.as_str() == name {
            Some(key)
        } else {
            None
        }
    }
}
