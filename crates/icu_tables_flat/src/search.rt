//! Look-ups of names and of keys by binary search.
ghost use Rattle.std.specs.Prelude.{◌≡◌, ◌<◌, ◌≤◌, ◌∷◌, map, length, true, option_copied};
ghost use Rattle.std.specs.Prelude.{slice_get, slice_index};
ghost use Rattle.std.specs.List.{list_all};
ghost use Rattle.std.specs.Option.{option_map};
ghost use Rattle.icu_locale_core.specs.Maps.{IsSortedMap, value_at};
ghost use Rattle.icu_locale_core.specs.TextSet.{text_cmp};
ghost use Rattle.icu_tables_flat.specs.Form.{cut, ends, ends_at, group_of, is_group, is_row};
ghost use Rattle.icu_tables_flat.specs.Form.{row_of};

use crate::entry::{compared, number16, number32, piece_at};
use std::cmp::Ordering;

// The name of an entry.
#[inline(always)]
pub(crate) fn name_of<'a>(group: &[u8; 12], texts: &'a str) -> &'a str
    requires { is_group texts.now group.now ≡ true }
    ensures { result.now ≡ (group_of texts.now group.now).0 }
{
    piece_at(texts, number32(group, 0), number32(group, 4))
}

// The key of an entry.
#[inline(always)]
pub(crate) fn key_of<'a>(row: &[u8; 12], texts: &'a str) -> &'a str
    requires { is_row texts.now row.now ≡ true }
    ensures { result.now ≡ (row_of texts.now row.now).0 }
{
    piece_at(texts, number32(row, 0), number16(row, 8) as u32)
}

// The text of an entry.
#[inline(always)]
pub(crate) fn text_of<'a>(row: &[u8; 12], texts: &'a str) -> &'a str
    requires { is_row texts.now row.now ≡ true }
    ensures { result.now ≡ (row_of texts.now row.now).1 }
{
    piece_at(texts, number32(row, 4), number16(row, 10) as u32)
}

// The number of the run at a name.
pub(crate) fn run_at_name(groups: &[[u8; 12]], texts: &str, name: &str) -> Option<usize>
    requires pieces { list_all (is_group texts.now) groups.now ≡ true }
    requires rise { IsSortedMap text_cmp (map (group_of texts.now) groups.now) }
    ensures { result ≡ value_at text_cmp (map (group_of texts.now) groups.now) name.now }
{
    let mut low = 0;
    let mut high = groups.len();
    while low < high {
        let middle = low + (high - low) / 2;
        match compared(name_of(&groups[middle], texts), name) {
            Ordering::Less => low = middle + 1,
            Ordering::Equal => return Some(number32(&groups[middle], 8) as usize),
            Ordering::Greater => high = middle,
        }
    }
    None
}

// The text at a key in rows.
pub(crate) fn text_at_key<'a>(rows: &[[u8; 12]], texts: &'a str, key: &str) -> Option<&'a str>
    requires pieces { list_all (is_row texts.now) rows.now ≡ true }
    requires rise { IsSortedMap text_cmp (map (row_of texts.now) rows.now) }
    ensures { option_copied result ≡ value_at text_cmp (map (row_of texts.now) rows.now) key.now }
{
    let mut low = 0;
    let mut high = rows.len();
    while low < high {
        let middle = low + (high - low) / 2;
        match compared(key_of(&rows[middle], texts), key) {
            Ordering::Less => low = middle + 1,
            Ordering::Equal => return Some(text_of(&rows[middle], texts)),
            Ordering::Greater => high = middle,
        }
    }
    None
}

// How many rows stand before a run.
#[inline(always)]
fn start_of(runs: &[[u8; 4]], run: usize) -> usize
    requires { run < length runs.now }
    ensures { result ≡ slice_index (0 ∷ ends runs.now) run }
{
    if run == 0 {
        return 0;
    }
    number32(&runs[run - 1], 0) as usize
}

// The entries of a run.
#[inline(always)]
pub(crate) fn rows_of<'a>(
    runs: &[[u8; 4]],
    rows: &'a [[u8; 12]],
    run: usize,
) -> Option<&'a [[u8; 12]]>
    requires { ends_at (length rows.now) 0 (ends runs.now) ≡ true }
    ensures { option_copied result ≡ slice_get (cut 0 (ends runs.now) rows.now) run }
{
    if run >= runs.len() {
        return None;
    }
    rows.get(start_of(runs, run)..number32(&runs[run], 0) as usize)
}
