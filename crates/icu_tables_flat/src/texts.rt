//! Texts by name and key, borrowed from bytes in the flat form.
ghost use Rattle.std.specs.Prelude.{◌≡◌, ◌<◌, length, None, Some, IfOk, IfErr};
ghost use Rattle.std.specs.Prelude.{option_copied, slice_get};
ghost use Rattle.std.specs.List.{All};
ghost use Rattle.std.specs.Option.{option_map};
ghost use Rattle.icu_locale_core.specs.Maps.{IsSortedMap, value_at};
ghost use Rattle.icu_locale_core.specs.TextSet.{text_cmp};
ghost use Rattle.icu_tables_flat.specs.Flat.{run_at, text_in};
ghost use Rattle.icu_tables_flat.specs.Form.{flat_rows};

use crate::FlatError;
use crate::check::{groups_fit, lists_in, runs_fit};
use crate::entry::number32;
use crate::search::{key_of, name_of, rows_of, run_at_name, text_at_key, text_of};
use std::marker::Model;

/// Texts by name and key, read where they lie: in bytes that are in the flat form and are borrowed.
/// A contract sees the names, each with the number of its run, and the rows of the runs. Several
/// names may have one run. No call takes memory.
#[derive(Debug, Drop)]
pub struct FlatTexts<'a> {
    groups: &'a [[u8; 12]],
    runs: &'a [[u8; 4]],
    rows: &'a [[u8; 12]],
    texts: &'a str,
}

impl<'a> Model for FlatTexts<'a> {
    ghost use Rattle.std.specs.Prelude.{◌≡◌, true};
    ghost use Rattle.icu_tables_flat.specs.Flat.{FlatRows};
    ghost use Rattle.icu_tables_flat.specs.Form.{said, well_formed};

    ghost Value = { FlatRows };

    ghost use Rattle.icu_tables_flat.specs.inner.Views.{parts_of};

    ghost view = { λ f. said (parts_of f) };

    ghost invariant = { λ f. well_formed (parts_of f) ≡ true };
}

impl<'a> FlatTexts<'a> {
    /// The texts that bytes in the flat form hold. The bytes are walked once, and stay where they
    /// are.
    ///
    /// # Errors
    ///
    /// `Form`, exactly where the bytes are not in the flat form.
    pub fn from_bytes(bytes: &'a [u8]) -> Result<FlatTexts<'a>, FlatError>
        ensures read { IfOk result (λ texts. flat_rows bytes.now ≡ Some texts) }
        ensures refused { IfErr result (λ e. e ≡ FlatError.Form) }
        ensures not_in_form { IfErr result (λ _. flat_rows bytes.now ≡ None) }
    {
        let Some(lists) = lists_in(bytes) else {
            return Err(FlatError::Form);
        };
        let Ok(texts) = simdutf8::basic::from_utf8(lists.texts) else {
            return Err(FlatError::Form);
        };
        if !groups_fit(lists.groups, lists.runs.len(), texts) {
            return Err(FlatError::Form);
        }
        if !runs_fit(lists.runs, lists.rows, texts) {
            return Err(FlatError::Form);
        }
        Ok(FlatTexts {
            groups: lists.groups,
            runs: lists.runs,
            rows: lists.rows,
            texts,
        })
    }

    /// The number of a name's run, found by binary search.
    pub fn run_of(&self, name: &str) -> Option<usize>
        ensures { result ≡ value_at text_cmp self.now.groups name.now }
    {
        run_at_name(self.groups, self.texts, name)
    }

    /// The text at a key in a run, found by binary search. `None` too where there is no such run.
    pub fn get(&self, run: usize, key: &str) -> Option<&'a str>
        ensures { option_copied result ≡ text_in self.now run key.now }
    {
        let Some(rows) = rows_of(self.runs, self.rows, run) else {
            return None;
        };
        text_at_key(rows, self.texts, key)
    }

    /// How many names there are.
    pub fn len(&self) -> usize
        ensures { result ≡ length self.now.groups }
    {
        self.groups.len()
    }

    /// The name at a place, with the number of its run. `None` past the last name.
    pub fn name(&self, at: usize) -> Option<(&'a str, usize)>
        ensures { option_map (λ name. (name.0.now, name.1)) result
            ≡ slice_get self.now.groups at }
    {
        if at >= self.groups.len() {
            return None;
        }
        let group = &self.groups[at];
        Some((name_of(group, self.texts), number32(group, 8) as usize))
    }

    /// How many rows a run has: none where there is no such run.
    pub fn run_len(&self, run: usize) -> usize
        ensures { result ≡ length (run_at self.now run) }
    {
        let Some(rows) = rows_of(self.runs, self.rows, run) else {
            return 0;
        };
        rows.len()
    }

    /// The key and the text at a place in a run. `None` past the last row, and where there is no
    /// such run.
    pub fn row(&self, run: usize, at: usize) -> Option<(&'a str, &'a str)>
        ensures { option_map (λ row. (row.0.now, row.1.now)) result
            ≡ slice_get (run_at self.now run) at }
    {
        let Some(rows) = rows_of(self.runs, self.rows, run) else {
            return None;
        };
        if at >= rows.len() {
            return None;
        }
        let row = &rows[at];
        Some((key_of(row, self.texts), text_of(row, self.texts)))
    }

    /// Nothing, but that names rise, that the keys of each run rise, and that each name's run is
    /// there.
    pub fn known(&self)
        ensures names { IsSortedMap text_cmp self.now.groups }
        ensures keys { All (IsSortedMap text_cmp) self.now.runs }
        ensures there { All (λ group. group.1 < length self.now.runs) self.now.groups }
    {
        let _ = &self.texts;
    }
}
