//! Sets of exemplar characters.
ghost use Rattle.icu_tables.specs.NamedRows.{exemplar_set};
ghost use Rattle.icu_tables.specs.Shape.{bound};

use crate::TableError;
use crate::from_json::locales::locale_named;
use crate::from_json::marked::{Marker, named_among};
use crate::from_json::members::{AddsRows, NamesKeys, RowByRow, add_members};
use crate::from_json::objects::{only_members, required};
use crate::from_json::values::FromValue;
use icu_provider::{DataLocale, ExemplarCharactersData, ExemplarMarker};
use serde_json::Value;
use std::alloc::Global;

// A bound of characters.
impl FromValue for u32 {
    ghost use Rattle.std.specs.Prelude.{ℕ};

    ghost Seen = { ℕ };

    ghost seen = { λ n. n };

    ghost shape = { bound };

    fn from_value(_alloc: Global, value: &Value) -> Result<Self, TableError> {
        match value.as_u64() {
            Some(number) if number <= 0x110000 => Ok(number as u32),
            _ => Err(TableError::Shape),
        }
    }
}

impl FromValue for ExemplarCharactersData {
    ghost use Rattle.icu_provider.specs.declared.exemplars.ExemplarCharactersData.{ExemplarCharactersData};

    ghost Seen = { ExemplarCharactersData };

    ghost seen = { λ set. set };

    ghost shape = { exemplar_set };

    fn from_value(alloc: Global, value: &Value) -> Result<Self, TableError> {
        only_members(value, &["ranges", "strings"])?;
        let ranges = required(alloc, value, "ranges")?;
        let strings = required(alloc, value, "strings")?;
        match ExemplarCharactersData::try_new(ranges, strings) {
            Ok(set) => Ok(set),
            Err(_) => Err(TableError::Shape),
        }
    }
}

// Sets by marker.
#[derive(Clone, Copy)]
pub(crate) struct MarkedExemplars;

impl AddsRows<(ExemplarMarker, DataLocale), ExemplarCharactersData> for MarkedExemplars {
    ghost use Rattle.icu_tables.specs.NamedRows.{marked_exemplars};
    ghost use Rattle.icu_provider.specs.declared.exemplars.ExemplarCharactersData.{ExemplarCharactersData};

    ghost Seen = { ExemplarCharactersData };

    ghost seen = { λ set. set };

    ghost says = { λ _. marked_exemplars };

    fn add(
        &self,
        alloc: Global,
        name: &str,
        value: &Value,
        rows: &mut Vec<((ExemplarMarker, DataLocale), ExemplarCharactersData)>,
    ) -> Result<(), TableError> {
        match ExemplarMarker::marker_named(name) {
            Some(marker) => {
                let how = RowByRow {
                    keys: ExemplarsOf { marker },
                };
                add_members(alloc, value, &how, rows)
            }
            None => Err(TableError::Shape),
        }
    }
}

// The sets of a marker, by locale.
#[derive(Clone, Copy)]
pub(crate) struct ExemplarsOf {
    pub(crate) marker: ExemplarMarker,
}

impl NamesKeys<(ExemplarMarker, DataLocale)> for ExemplarsOf {
    ghost use Rattle.icu_tables.specs.NamedRows.{exemplar_request};

    ghost key = { λ of. exemplar_request of.marker };

    fn key_named(&self, name: &str) -> Option<(ExemplarMarker, DataLocale)> {
        Some((self.marker, locale_named(name)?))
    }
}

const MARKERS: [(&str, ExemplarMarker); 5] = [
    ("main", ExemplarMarker::Main),
    ("auxiliary", ExemplarMarker::Auxiliary),
    ("punctuation", ExemplarMarker::Punctuation),
    ("numbers", ExemplarMarker::Numbers),
    ("index", ExemplarMarker::Index),
];

impl Marker for ExemplarMarker {
    ghost use Rattle.icu_tables.specs.Names.{exemplar_markers};

    ghost markers = { exemplar_markers };

    fn marker_named(name: &str) -> Option<ExemplarMarker> {
        named_among(&MARKERS, name)
    }
}
