//! Names as bytes in the flat form, written and then compared.
ghost use Rattle.std.specs.Prelude.{◌≡◌, ◌∷◌, [], filter_map, option_copied};
ghost use Rattle.std.specs.Prelude.{IfErr, IfOk, IsTrue, Some};
ghost use Rattle.std.specs.Option.{option_map};
ghost use Rattle.icu_tables_flat.specs.Flat.{FlatRows, IsRefusal, listed};
ghost use Rattle.icu_tables_flat.specs.Form.{flat_rows};
ghost use Rattle.icu_tables.specs.FlatNames.{SayNames};
ghost use Rattle.icu_tables.specs.Groups.{flat_names, group_rows, request_of};
ghost use Rattle.icu_tables.specs.LentNames.{group_key, keyed, keyed_group, rows_in_flat};
ghost use Rattle.icu_tables.specs.inner.Told.{AreToldBy, IsToldBy};

use crate::NameRows;
use crate::from_json::locales::locale_named;
use crate::from_json::marked::{MarkedKey, Marker};
use crate::from_json::rows::in_one_list;
use crate::kinds::is_of_kind;
use crate::lent_names::{group_text, key_text, lent_name};
use crate::name_rows::Names;
use icu_provider::laws::keys_are_told_apart;
use icu_provider::{DataLocale, NameKey, NameMarker, SortedMap, TableText, TextNames};
use icu_tables_flat::{FlatError, FlatTexts, to_bytes};
use std::alloc::Global;
use std::collections::BTreeMap;

impl NameRows {
    /// These names in the flat form, which `FlatTexts` reads, and which `Tables` lends. The names of
    /// a marker and a locale are called `zh-Hant/language/medium/light`, and a key is in written
    /// form. A name whose key is of another kind than its marker is left out. The bytes are read
    /// again before they are given: they say the names. It takes memory for the bytes, for a copy
    /// of each name and key, and for the lists that the bytes are collected in.
    ///
    /// # Errors
    ///
    /// `Long`, where a name has more than 65,535 bytes, or there is more than four bytes can count.
    /// `Memory`, where memory was refused.
    pub fn to_flat(&self, alloc: Global) -> Result<Vec<u8>, FlatError>
        ensures written { IfOk result (λ bytes. (flat : FlatRows)
            × (flat_rows bytes.items ≡ Some flat) × SayNames flat self.now) }
        ensures refused { IfErr result IsRefusal }
    {
        let texts = texts_of(alloc, self.groups())?;
        let bytes = to_bytes(alloc, &texts)?;
        if says(bytes.as_slice(), &texts, self) {
            Ok(bytes)
        } else {
            Err(FlatError::Long)
        }
    }
}

// ---- names as texts

// The names of groups, by what the groups and the keys are called.
fn texts_of(
    alloc: Global,
    groups: &[((NameMarker, DataLocale), Names)],
) -> Result<SortedMap<TableText, TextNames>, FlatError>
    ensures { IfErr result IsRefusal }
{
    let mut texts = BTreeMap::new(alloc);
    for group in groups {
        let names = names_of(alloc, group.0.0, group.1.as_slice())?;
        let text = group_text(group.0.0, &group.0.1);
        let name = TableText::of(alloc, text.as_str())?;
        let _ = texts.insert(name, names)?;
    }
    Ok(in_one_list(alloc, texts)?)
}

// The names of a marker whose keys are of its kind, by what the keys are called.
fn names_of(
    alloc: Global,
    marker: NameMarker,
    names: &[(NameKey, TableText)],
) -> Result<TextNames, FlatError>
    ensures { IfErr result IsRefusal }
{
    let mut texts = SortedMap::new(alloc);
    for row in names {
        if is_of_kind(marker, &row.0) {
            put_name(alloc, &mut texts, &row.0, row.1.as_str())?;
        }
    }
    Ok(texts)
}

// Puts a name at what its key is called.
fn put_name(
    alloc: Global,
    texts: &mut TextNames,
    key: &NameKey,
    name: &str,
) -> Result<(), FlatError>
    ensures { IfErr result IsRefusal }
{
    let called = key_text(key);
    let called = TableText::of(alloc, called.as_str())?;
    let name = TableText::of(alloc, name)?;
    match texts.insert(called, name) {
        Ok(()) => Ok(()),
        Err(_) => Err(FlatError::Memory),
    }
}

// ---- what the bytes say

// Whether bytes, which say texts, say names.
fn says(bytes: &[u8], texts: &SortedMap<TableText, TextNames>, names: &NameRows) -> bool
    requires { option_map listed (flat_rows bytes.now) ≡ Some texts.now }
    ensures { IsTrue result → (flat : FlatRows)
        × (flat_rows bytes.now ≡ Some flat) × SayNames flat names.now }
{
    keys_are_told_apart();
    match FlatTexts::from_bytes(bytes) {
        Ok(flat) => tells_groups(&flat, names.groups()) && has_groups(names, texts.as_slice()),
        Err(_) => false,
    }
}

// Whether the flat form has the names of groups.
fn tells_groups(flat: &FlatTexts<'_>, groups: &[((NameMarker, DataLocale), Names)]) -> bool
    ensures { IsTrue result → AreToldBy (rows_in_flat flat.now) (flat_names groups.now) }
{
    for group in groups {
        if !tells_group(flat, group) {
            return false;
        }
    }
    true
}

// Whether the flat form has the names of a group.
fn tells_group(flat: &FlatTexts<'_>, group: &((NameMarker, DataLocale), Names)) -> bool
    ensures { IsTrue result → AreToldBy (rows_in_flat flat.now)
        (group_rows request_of group.now.0 group.now.1) }
{
    for row in group.1.as_slice() {
        if !tells_row(flat, group.0.0, &group.0.1, row) {
            return false;
        }
    }
    true
}

// Whether the flat form has a name, if its key is of the marker's kind.
fn tells_row(
    flat: &FlatTexts<'_>,
    marker: NameMarker,
    locale: &DataLocale,
    row: &(NameKey, TableText),
) -> bool
    ensures { IsTrue result → IsToldBy (rows_in_flat flat.now)
        ((marker, locale.now, row.now.0), row.now.1) }
{
    if !is_of_kind(marker, &row.0) {
        return true;
    }
    is_text(lent_name(flat, marker, locale, &row.0), &row.1)
}

// Whether names have those of texts that are called as groups and keys are.
fn has_groups(names: &NameRows, groups: &[(TableText, TextNames)]) -> bool
    ensures { IsTrue result
        → AreToldBy names.now (flat_names (filter_map keyed_group groups.now)) }
{
    for group in groups {
        if !has_group(names, group) {
            return false;
        }
    }
    true
}

// Whether names have those of a group of texts, if it is called as a group is.
fn has_group(names: &NameRows, group: &(TableText, TextNames)) -> bool
    ensures { IsTrue result
        → AreToldBy names.now (flat_names (filter_map keyed_group (group.now ∷ []))) }
{
    match group_named(group.0.as_str()) {
        Some((marker, locale)) => has_rows(names, marker, &locale, group.1.as_slice()),
        None => true,
    }
}

// Whether names of a marker and a locale have those of texts that are called as keys are.
fn has_rows(
    names: &NameRows,
    marker: NameMarker,
    locale: &DataLocale,
    rows: &[(TableText, TableText)],
) -> bool
    ensures { IsTrue result → AreToldBy names.now
        (group_rows request_of (marker, locale.now) (keyed marker rows.now)) }
{
    for row in rows {
        if !has_row(names, marker, locale, row) {
            return false;
        }
    }
    true
}

// Whether names of a marker and a locale have that of a text, if it is called as a key is.
fn has_row(
    names: &NameRows,
    marker: NameMarker,
    locale: &DataLocale,
    row: &(TableText, TableText),
) -> bool
    ensures { IsTrue result → AreToldBy names.now
        (group_rows request_of (marker, locale.now) (keyed marker (row.now ∷ []))) }
{
    match <NameKey as MarkedKey<NameMarker>>::key_named(marker, row.0.as_str()) {
        Some(key) => is_text(names.get(marker, *locale, &key), &row.1),
        None => true,
    }
}

// Whether there is a text, and it is that of a table.
fn is_text(text: Option<&str>, own: &TableText) -> bool
    ensures { IsTrue result → option_copied text.entry ≡ Some own.now }
{
    match text {
        Some(text) => text == own.as_str(),
        None => false,
    }
}

// The marker and the locale of a group, of what it is called.
fn group_named(name: &str) -> Option<(NameMarker, DataLocale)>
    ensures { result ≡ group_key name.now }
{
    let (locale, marker) = name.split_once('/')?;
    Some((
        <NameMarker as Marker>::marker_named(marker)?,
        locale_named(locale)?,
    ))
}
