//! What parts of extensions are called.
ghost use Rattle.std.specs.Prelude.{◌≡◌};
ghost use Rattle.icu_tables.specs.inner.Further.{names_seen};

use crate::TableError;
use crate::from_json::members::{AddsRows, map_in};
use crate::from_json::objects::{MemberReader, only_members, required};
use crate::from_json::values::FromValue;
use icu_provider::{ExtensionNames, SortedMap, TableText};
use serde_json::Value;
use std::alloc::Global;

// A text of any content.
impl FromValue for TableText {
    ghost use Rattle.std.specs.Prelude.{List, ℕ};
    ghost use Rattle.icu_tables.specs.Shape.{text};

    ghost Seen = { List ℕ };

    ghost seen = { λ t. t };

    ghost shape = { text };

    fn from_value(alloc: Global, value: &Value) -> Result<Self, TableError> {
        match value.as_str() {
            Some(text) => Ok(TableText::of(alloc, text)?),
            None => Err(TableError::Shape),
        }
    }
}

// Adds one row for each member, whose name is a text of any content.
#[derive(Clone, Copy)]
pub(crate) struct ByText;

impl<V: FromValue> AddsRows<TableText, V> for ByText {
    ghost use Rattle.icu_tables.specs.Supplement.{row_by_text};

    ghost Seen = { V.Seen };

    ghost seen = { V.seen };

    ghost says = { λ _. row_by_text V.shape };

    fn add(
        &self,
        alloc: Global,
        name: &str,
        value: &Value,
        rows: &mut Vec<(TableText, V)>,
    ) -> Result<(), TableError> {
        let held = V::from_value(alloc, value)?;
        let key = TableText::of(alloc, name)?;
        rows.push((key, held))?;
        Ok(())
    }
}

// Names by the text of what they name.
impl FromValue for SortedMap<TableText, TableText> {
    ghost use Rattle.icu_tables.specs.Rows.{seen_rows};
    ghost use Rattle.icu_tables.specs.Supplement.{Names, names_by_text};

    ghost Seen = { Names };

    ghost seen = { seen_rows (λ t. t) };

    ghost shape = { names_by_text };

    fn from_value(alloc: Global, value: &Value) -> Result<Self, TableError> {
        map_in(alloc, value, &ByText)
    }
}

impl FromValue for ExtensionNames {
    ghost use Rattle.icu_provider.specs.declared.extension_names.ExtensionNames.{ExtensionNames};
    ghost use Rattle.icu_tables.specs.Supplement.{extension_names};

    ghost Seen = { ExtensionNames };

    ghost seen = { names_seen };

    ghost shape = { extension_names };

    fn from_value(alloc: Global, value: &Value) -> Result<Self, TableError> {
        only_members(value, &["pattern", "types", "keys", "values"])?;
        let mut names = ExtensionNames::new(alloc, required(alloc, value, "pattern")?);
        MemberReader::of(alloc, value)
            .fill_by("types", &ByText, &mut names.types)
            .fill("keys", &mut names.keys)
            .fill_by("values", &ByText, &mut names.values)
            .finish(names)
    }
}
