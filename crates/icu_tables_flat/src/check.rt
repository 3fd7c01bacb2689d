//! The check of bytes, in one pass over their entries.
ghost use Rattle.std.specs.Prelude.{◌≡◌, ◌*◌, ◌<◌, ◌≤◌, ◌&&◌, nat_le, codes, length};
ghost use Rattle.std.specs.Prelude.{take, drop, true, false, Some, None, MatchOption, option_copied};
ghost use Rattle.std.specs.Simd.{first_chunks};
ghost use Rattle.std.specs.Str.{bytes_eq};
ghost use Rattle.icu_tables_flat.specs.Form.{flat_parts, ends};
ghost use Rattle.icu_tables_flat.specs.inner.Walks.{is_above, groups_fit, rows_fit, runs_fit};

use crate::entry::{compared, number16, number32, piece_of};

// The lists of entries, and the bytes of the texts.
#[derive(Drop)]
pub(crate) struct Lists<'a> {
    pub(crate) groups: &'a [[u8; 12]],
    pub(crate) runs: &'a [[u8; 4]],
    pub(crate) rows: &'a [[u8; 12]],
    pub(crate) texts: &'a [u8],
}

// So many entries of N bytes, and the bytes after them.
#[inline(always)]
fn split_entries<const N: usize>(bytes: &[u8], count: usize) -> (&[[u8; N]], &[u8])
    requires some { 0 < N }
    requires there { count * N ≤ length bytes.now }
    ensures entries { result.0.now ≡ first_chunks N count bytes.now }
    ensures rest { result.1.now ≡ drop (count * N) bytes.now }
{
    let (front, rest) = bytes.split_at(count * N);
    (front.as_chunks::<N>().0, rest)
}

// Whether bytes begin as the form does, and are as many as a head needs.
fn has_head(bytes: &[u8]) -> bool
    ensures { result ≡ (nat_le 20 (length bytes.now) && bytes_eq (take 8 bytes.now)
        (codes "ICUTEXT1")) }
{
    bytes.len() >= 20 && &bytes[..8] == b"ICUTEXT1".as_slice()
}

// The lists that the head of the bytes tells of, if all of them are there.
pub(crate) fn lists_in(bytes: &[u8]) -> Option<Lists<'_>>
    ensures { MatchOption result (flat_parts bytes.now ≡ None)
        (λ l. flat_parts bytes.now ≡ Some (record {
          groups = l.groups.now;
          runs = l.runs.now;
          rows = l.rows.now;
          texts = l.texts.now;
        })) }
{
    if !has_head(bytes) {
        return None;
    }
    let groups = number32(bytes, 8) as usize;
    let runs = number32(bytes, 12) as usize;
    let rows = number32(bytes, 16) as usize;
    if bytes.len() < 20 + groups * 12 + runs * 4 + rows * 12 {
        return None;
    }
    let (_, rest) = bytes.split_at(20);
    let (groups, rest) = split_entries::<12>(rest, groups);
    let (runs, rest) = split_entries::<4>(rest, runs);
    let (rows, texts) = split_entries::<12>(rest, rows);
    Some(Lists {
        groups,
        runs,
        rows,
        texts,
    })
}

// Whether a text is above the one before it, if any.
#[inline(always)]
fn is_above(before: Option<&str>, text: &str) -> bool
    ensures { result ≡ is_above (option_copied before.entry) text.now }
{
    match before {
        Some(before) => compared(before, text).is_lt(),
        None => true,
    }
}

// Whether names lie in the texts and rise, and their runs are there.
pub(crate) fn groups_fit(groups: &[[u8; 12]], runs: usize, texts: &str) -> bool
    ensures { result ≡ groups_fit runs texts.now None groups.now }
{
    let mut before = None;
    for group in groups {
        let Some(name) = piece_of(texts, number32(group, 0), number32(group, 4)) else {
            return false;
        };
        if number32(group, 8) as usize >= runs {
            return false;
        }
        if !is_above(before, name) {
            return false;
        }
        before = Some(name);
    }
    true
}

// Whether the keys and texts of a run lie in the texts, and the keys rise.
fn rows_fit(rows: &[[u8; 12]], texts: &str) -> bool
    ensures { result ≡ rows_fit texts.now None rows.now }
{
    let mut before = None;
    for row in rows {
        let Some(key) = piece_of(texts, number32(row, 0), number16(row, 8) as u32) else {
            return false;
        };
        let Some(_) = piece_of(texts, number32(row, 4), number16(row, 10) as u32) else {
            return false;
        };
        if !is_above(before, key) {
            return false;
        }
        before = Some(key);
    }
    true
}

// Whether the runs follow one another to the end of the rows, and each fits.
pub(crate) fn runs_fit(runs: &[[u8; 4]], rows: &[[u8; 12]], texts: &str) -> bool
    ensures { result ≡ runs_fit texts.now rows.now 0 (ends runs.now) }
{
    let mut start = 0;
    for run in runs {
        let end = number32(run, 0) as usize;
        let Some(own) = rows.get(start..end) else {
            return false;
        };
        if !rows_fit(own, texts) {
            return false;
        }
        start = end;
    }
    start == rows.len()
}
