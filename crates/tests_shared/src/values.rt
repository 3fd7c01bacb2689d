//! Rows of aliases of values: those of CLDR and ECMA-402, and such as lead round.
use crate::known::{key, value};
use icu_locale_core::{Key, Value};
use icu_locale_extensions::{FieldKey, LocaleIdentifier, Subtags};
use icu_provider::SortedMap;
use std::alloc::Global;

pub type KeywordTable = SortedMap<Key, SortedMap<Value, Value>>;

pub type FieldTable = SortedMap<FieldKey, SortedMap<Subtags<3>, Subtags<3>>>;

pub const ENDING: &str =
    "{\"aliases\":{\"language_len2\":{\"sh\":\"sr-Latn\",\"aa\":\"bb\",\"bb\":\"cc\"},\
    \"script\":{\"Qaai\":\"Zinh\"},\"region_num\":{\"276\":\"DE\"}}}";

pub const CIRCLING: &str =
    "{\"aliases\":{\"language_len2\":{\"sh\":\"sr-Latn\",\"aa\":\"bb\",\"bb\":\"aa\",\
    \"xx\":\"yy\",\"yy\":\"zz\",\"zz\":\"yy\"}}}";

fn pieces(alloc: Global, text: &str) -> Option<Subtags<3>> {
    Subtags::try_from_str(alloc, text).ok()
}

pub fn whole_identifier(alloc: Global, text: &str) -> Option<LocaleIdentifier> {
    LocaleIdentifier::try_from_str(alloc, text).ok()
}

fn put_values(
    alloc: Global,
    table: &mut KeywordTable,
    at: &str,
    rows: &[(&str, &str)],
) -> Option<()> {
    let mut values = SortedMap::new(alloc);
    for row in rows {
        let _ = values
            .insert(value(alloc, row.0)?, value(alloc, row.1)?)
            .ok()?;
    }
    let _ = table.insert(key(at)?, values).ok()?;
    Some(())
}

fn put_pieces(
    alloc: Global,
    table: &mut FieldTable,
    at: &str,
    rows: &[(&str, &str)],
) -> Option<()> {
    let mut values = SortedMap::new(alloc);
    for row in rows {
        let _ = values
            .insert(pieces(alloc, row.0)?, pieces(alloc, row.1)?)
            .ok()?;
    }
    let at = FieldKey::try_from_bytes(at.as_bytes())?;
    let _ = table.insert(at, values).ok()?;
    Some(())
}

const CIRCLE: &[(&str, &str)] = &[("one", "two"), ("two", "one"), ("zero", "one")];

pub fn keyword_table(alloc: Global) -> Option<KeywordTable> {
    let mut table = SortedMap::new(alloc);
    let calendars = [
        ("islamicc", "islamic-civil"),
        ("ethiopic-amete-alem", "ethioaa"),
    ];
    put_values(alloc, &mut table, "ca", &calendars)?;
    put_values(alloc, &mut table, "ms", &[("imperial", "uksystem")])?;
    put_values(alloc, &mut table, "kb", &[("yes", "true")])?;
    put_values(alloc, &mut table, "ka", &[("one", "two"), ("two", "three")])?;
    put_values(alloc, &mut table, "kc", CIRCLE)?;
    put_values(alloc, &mut table, "kd", CIRCLE)?;
    put_values(alloc, &mut table, "rg", &[("uszzzz", "gbzzzz")])?;
    Some(table)
}

pub fn field_table(alloc: Global) -> Option<FieldTable> {
    let mut table = SortedMap::new(alloc);
    put_pieces(alloc, &mut table, "m0", &[("names", "prprname")])?;
    put_pieces(alloc, &mut table, "k0", CIRCLE)?;
    Some(table)
}
