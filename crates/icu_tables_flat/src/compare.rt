//! Whether a flat form says what texts are.
ghost use Rattle.std.specs.Prelude.{◌≡◌, IsTrue, Some, slice_get};
ghost use Rattle.std.specs.Option.{option_map};
ghost use Rattle.icu_tables_flat.specs.Flat.{listed, run_at};
ghost use Rattle.icu_tables_flat.specs.Form.{flat_rows};

use crate::FlatTexts;
use icu_provider::{SortedMap, TableText, TextNames};

// Whether a text is that of a table.
fn is_text(text: &str, own: &TableText) -> bool
    ensures { IsTrue result → text.now ≡ own.now }
{
    text == own.as_str()
}

// Whether a run has a row at a place.
fn has_row(flat: &FlatTexts<'_>, run: usize, at: usize, row: &(TableText, TableText)) -> bool
    ensures { IsTrue result → slice_get (run_at flat.now run) at ≡ Some row.now }
{
    match flat.row(run, at) {
        Some((key, text)) => is_text(key, &row.0) && is_text(text, &row.1),
        None => false,
    }
}

// Whether a run has these rows.
fn has_rows(flat: &FlatTexts<'_>, run: usize, rows: &[(TableText, TableText)]) -> bool
    ensures { IsTrue result → run_at flat.now run ≡ rows.now }
{
    if flat.run_len(run) != rows.len() {
        return false;
    }
    for at in 0..rows.len() {
        if !has_row(flat, run, at, &rows[at]) {
            return false;
        }
    }
    true
}

// Whether the name at a place is this one, with its rows.
fn has_group(flat: &FlatTexts<'_>, at: usize, group: &(TableText, TextNames)) -> bool
    ensures { IsTrue result → slice_get (listed flat.now) at ≡ Some group.now }
{
    match flat.name(at) {
        Some((name, run)) => is_text(name, &group.0) && has_rows(flat, run, group.1.as_slice()),
        None => false,
    }
}

// Whether the names are these, each with its rows.
fn has_groups(flat: &FlatTexts<'_>, groups: &[(TableText, TextNames)]) -> bool
    ensures { IsTrue result → listed flat.now ≡ groups.now }
{
    if flat.len() != groups.len() {
        return false;
    }
    for at in 0..groups.len() {
        if !has_group(flat, at, &groups[at]) {
            return false;
        }
    }
    true
}

// Whether bytes are in the flat form and say the texts.
pub(crate) fn says(bytes: &[u8], texts: &SortedMap<TableText, TextNames>) -> bool
    ensures { IsTrue result → option_map listed (flat_rows bytes.now) ≡ Some texts.now }
{
    match FlatTexts::from_bytes(bytes) {
        Ok(flat) => has_groups(&flat, texts.as_slice()),
        Err(_) => false,
    }
}
