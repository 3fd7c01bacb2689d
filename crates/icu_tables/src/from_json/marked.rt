//! Rows by marker, locale and key.
ghost use Rattle.std.specs.Prelude.{◌≡◌};
ghost use Rattle.icu_tables.specs.NamedRows.{request_in};
ghost use Rattle.icu_tables.specs.Names.{named_in};
ghost use Rattle.icu_tables.specs.inner.Reads.{names_of};

use crate::TableError;
use crate::from_json::locales::locale_named;
use crate::from_json::members::{AddsRows, NamesKeys, RowByRow, add_members};
use crate::from_json::values::FromValue;
use icu_provider::DataLocale;
use serde_json::Value;
use std::alloc::Global;
use std::cmp::Ord;

// A marker that a member is named by.
pub(crate) trait Marker: Copy + Ord + Drop {
    ghost use Rattle.std.specs.Prelude.{◌≡◌, List, ℕ};
    ghost use Rattle.icu_tables.specs.Names.{named_in};

    // The markers by their names.
    ghost markers: { List (List ℕ × Self) };

    fn marker_named(name: &str) -> Option<Self>
        ensures { result ≡ named_in markers name.now };
}

// What a name stands for in a table of names.
pub(crate) fn named_among<M: Copy>(table: &[(&str, M)], name: &str) -> Option<M>
    ensures { result ≡ named_in (names_of table.now) name.now }
{
    for (known, marker) in table {
        if *known == name {
            return Some(*marker);
        }
    }
    None
}

// What the name of a row's member is read as below a marker, if it is a key.
pub(crate) trait MarkedKey<M>: Ord + Drop {
    ghost use Rattle.std.specs.Prelude.{◌≡◌, List, ℕ, Option};

    ghost marked_key: { M → List ℕ → Option Self };

    fn key_named(marker: M, name: &str) -> Option<Self>
        ensures { result ≡ marked_key marker name.now };
}

// Rows by marker.
#[derive(Clone, Copy)]
pub(crate) struct Marked;

impl<M: Marker, K: MarkedKey<M>, V: FromValue> AddsRows<(M, DataLocale, K), V> for Marked {
    ghost use Rattle.icu_tables.specs.NamedRows.{marked_rows};

    ghost Seen = { V.Seen };

    ghost seen = { V.seen };

    ghost says = { λ _. marked_rows M.markers K.marked_key V.shape };

    fn add(
        &self,
        alloc: Global,
        name: &str,
        value: &Value,
        rows: &mut Vec<((M, DataLocale, K), V)>,
    ) -> Result<(), TableError> {
        match M::marker_named(name) {
            Some(marker) => add_members(alloc, value, &RowsOf { marker }, rows),
            None => Err(TableError::Shape),
        }
    }
}

// The rows of a marker, by locale.
#[derive(Clone, Copy)]
pub(crate) struct RowsOf<M> {
    pub(crate) marker: M,
}

impl<M: Marker, K: MarkedKey<M>, V: FromValue> AddsRows<(M, DataLocale, K), V> for RowsOf<M> {
    ghost use Rattle.icu_tables.specs.NamedRows.{rows_of_marker};

    ghost Seen = { V.Seen };

    ghost seen = { V.seen };

    ghost says = { λ of. rows_of_marker K.marked_key V.shape of.marker };

    fn add(
        &self,
        alloc: Global,
        name: &str,
        value: &Value,
        rows: &mut Vec<((M, DataLocale, K), V)>,
    ) -> Result<(), TableError> {
        let how = RowByRow {
            keys: KeysIn {
                marker: self.marker,
                locale: locale_named(name),
            },
        };
        add_members(alloc, value, &how, rows)
    }
}

// The keys of a marker and a locale, if it is one.
#[derive(Clone, Copy)]
pub(crate) struct KeysIn<M> {
    pub(crate) marker: M,
    pub(crate) locale: Option<DataLocale>,
}

impl<M: Marker, K: MarkedKey<M>> NamesKeys<(M, DataLocale, K)> for KeysIn<M> {
    ghost key = { λ of name. request_in of.marker of.locale (K.marked_key of.marker name) };

    fn key_named(&self, name: &str) -> Option<(M, DataLocale, K)> {
        let locale = self.locale?;
        Some((self.marker, locale, K::key_named(self.marker, name)?))
    }
}
