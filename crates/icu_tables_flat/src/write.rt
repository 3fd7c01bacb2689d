//! Bytes in the flat form, written from texts.
ghost use Rattle.std.specs.Prelude.{◌≡◌, IfOk, IfErr, Some};
ghost use Rattle.std.specs.Option.{option_map};
ghost use Rattle.icu_tables_flat.specs.Flat.{IsRefusal, listed};
ghost use Rattle.icu_tables_flat.specs.Form.{flat_rows};

use crate::FlatError;
use crate::compare::says;
use icu_provider::{SortedMap, TableText, TextNames};
use std::alloc::Global;
use std::collections::BTreeMap;

// Bytes on their way: the three lists, the texts, where each text begins, and the number of each
// run by its entries.
struct Writer {
    groups: Vec<u8>,
    runs: Vec<u8>,
    rows: Vec<u8>,
    texts: Vec<u8>,
    places: BTreeMap<String, u32>,
    numbers: BTreeMap<Vec<u8>, u32>,
}

impl Drop for Writer {
    fn drop(self) {
        let Writer {
            groups: _,
            runs: _,
            rows: _,
            texts: _,
            places: _,
            numbers: _,
        } = self;
    }
}

// A number in four bytes.
fn in_four(number: usize) -> Result<u32, FlatError>
    ensures number { IfOk result (λ n. n ≡ number) }
    ensures refused { IfErr result IsRefusal }
{
    if number <= 0xFFFF_FFFF {
        Ok(number as u32)
    } else {
        Err(FlatError::Long)
    }
}

// A number in two bytes.
fn in_two(number: usize) -> Result<u16, FlatError>
    ensures number { IfOk result (λ n. n ≡ number) }
    ensures refused { IfErr result IsRefusal }
{
    if number <= 0xFFFF {
        Ok(number as u16)
    } else {
        Err(FlatError::Long)
    }
}

// Appends a number of four bytes.
fn push_four(bytes: &mut Vec<u8>, number: u32) -> Result<(), FlatError>
    ensures { IfErr result IsRefusal }
{
    Ok(bytes.extend_from_slice(&number.to_le_bytes())?)
}

// Appends a number of two bytes.
fn push_two(bytes: &mut Vec<u8>, number: u16) -> Result<(), FlatError>
    ensures { IfErr result IsRefusal }
{
    Ok(bytes.extend_from_slice(&number.to_le_bytes())?)
}

impl Writer {
    fn new(alloc: Global) -> Writer {
        Writer {
            groups: Vec::new(alloc),
            runs: Vec::new(alloc),
            rows: Vec::new(alloc),
            texts: Vec::new(alloc),
            places: BTreeMap::new(alloc),
            numbers: BTreeMap::new(alloc),
        }
    }

    // Where a text begins, which is written once.
    fn place_of(&mut self, alloc: Global, text: &str) -> Result<u32, FlatError>
        ensures { IfErr result IsRefusal }
    {
        if let Some(place) = self.places.get(text) {
            return Ok(*place);
        }
        let place = in_four(self.texts.len())?;
        self.texts.extend_from_slice(text.as_bytes())?;
        let own = String::from_str(alloc, text)?;
        self.places.insert(own, place)?;
        Ok(place)
    }

    // Appends the entry of a row.
    fn push_row(
        &mut self,
        alloc: Global,
        entries: &mut Vec<u8>,
        key: &str,
        text: &str,
    ) -> Result<(), FlatError>
        ensures { IfErr result IsRefusal }
    {
        push_four(entries, self.place_of(alloc, key)?)?;
        push_four(entries, self.place_of(alloc, text)?)?;
        push_two(entries, in_two(key.len())?)?;
        push_two(entries, in_two(text.len())?)
    }

    // The entries of rows.
    fn entries_of(
        &mut self,
        alloc: Global,
        rows: &[(TableText, TableText)],
    ) -> Result<Vec<u8>, FlatError>
        ensures { IfErr result IsRefusal }
    {
        let mut entries = Vec::new(alloc);
        for row in rows {
            self.push_row(alloc, &mut entries, row.0.as_str(), row.1.as_str())?;
        }
        Ok(entries)
    }

    // The number of the run with these entries, which is written once.
    fn run_of(&mut self, entries: Vec<u8>) -> Result<u32, FlatError>
        ensures { IfErr result IsRefusal }
    {
        if let Some(number) = self.numbers.get(entries.as_slice()) {
            return Ok(*number);
        }
        let number = in_four(self.runs.len() / 4)?;
        self.rows.extend_from_slice(&entries)?;
        push_four(&mut self.runs, in_four(self.rows.len() / 12)?)?;
        self.numbers.insert(entries, number)?;
        Ok(number)
    }

    // Appends a name and its rows.
    fn push_group(
        &mut self,
        alloc: Global,
        name: &str,
        rows: &[(TableText, TableText)],
    ) -> Result<(), FlatError>
        ensures { IfErr result IsRefusal }
    {
        let entries = self.entries_of(alloc, rows)?;
        let run = self.run_of(entries)?;
        let place = self.place_of(alloc, name)?;
        push_four(&mut self.groups, place)?;
        push_four(&mut self.groups, in_four(name.len())?)?;
        push_four(&mut self.groups, run)
    }

    // The head, the lists and the texts, one after another.
    fn joined(&self, alloc: Global) -> Result<Vec<u8>, FlatError>
        ensures { IfErr result IsRefusal }
    {
        let mut bytes = Vec::new(alloc);
        bytes.extend_from_slice(b"ICUTEXT1")?;
        push_four(&mut bytes, in_four(self.groups.len() / 12)?)?;
        push_four(&mut bytes, in_four(self.runs.len() / 4)?)?;
        push_four(&mut bytes, in_four(self.rows.len() / 12)?)?;
        bytes.extend_from_slice(&self.groups)?;
        bytes.extend_from_slice(&self.runs)?;
        bytes.extend_from_slice(&self.rows)?;
        bytes.extend_from_slice(&self.texts)?;
        Ok(bytes)
    }
}

// Texts in the flat form, before they are compared.
fn written(alloc: Global, texts: &SortedMap<TableText, TextNames>) -> Result<Vec<u8>, FlatError>
    ensures { IfErr result IsRefusal }
{
    let mut writer = Writer::new(alloc);
    for group in texts.as_slice() {
        writer.push_group(alloc, group.0.as_str(), group.1.as_slice())?;
    }
    writer.joined(alloc)
}

/// Texts by name and key as bytes in the flat form. Equal runs of rows are written once, and so are
/// equal texts. The bytes are read before they are given: they say the texts.
///
/// # Errors
///
/// `Long`, where a key or a text of a row has more than 65,535 bytes, or there is more than four
/// bytes can count. `Memory`, where memory was refused: besides the bytes, their lists are kept
/// until the end, and each different text and run once more.
pub fn to_bytes(
    alloc: Global,
    texts: &SortedMap<TableText, TextNames>,
) -> Result<Vec<u8>, FlatError>
    ensures says { IfOk result (λ b. option_map listed (flat_rows b.items) ≡ Some texts.now) }
    ensures refused { IfErr result IsRefusal }
{
    let bytes = written(alloc, texts)?;
    if says(bytes.as_slice(), texts) {
        Ok(bytes)
    } else {
        Err(FlatError::Long)
    }
}
