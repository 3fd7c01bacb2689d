//! A sorted map whose keys have marks, with notes by which most look-ups take one step.
ghost use Rattle.std.specs.Prelude.{◌≡◌, ◌≢◌, ◌==◌, ◌<◌, [], ℕ, get_or, length, is_some, option_copied, List, IfOk, IsOk, ◌⊎◌, ◌+◌, Some, None};
ghost use Rattle.std.specs.declared.cmp.Ordering.TheVariants.{Equal};
ghost use Rattle.icu_locale_core.specs.Maps.{value_at};
ghost use Rattle.icu_provider.specs.SortedMaps.{Inserts, IsFoundEach, IsSortedMap, RefusesMemory};
ghost use Rattle.icu_provider.specs.inner.Notes.{bucket, many, IsNoted};

use crate::marked::Marked;
use crate::{DataError, Rows, SortedMap};
use std::alloc::{AllocError, Global};
use std::fmt;
use std::marker::Model;

/// A map whose rows are in one list, in the order of their keys. Beside the rows it may keep notes of where keys are, by
/// their marks: a look-up then takes one step for most keys, be they there or not. `insert` takes the notes away, and
/// `note` makes them again.
#[derive(Drop)]
pub struct NotedMap<K: Marked, V> {
    rows: SortedMap<K, V>,
    // At the bucket of a key's mark one more than the place of its row, or `MANY`, and 0 where no key has that bucket.
    // None where nothing is noted.
    notes: Vec<u16>,
}

impl<K: Marked, V> Model for NotedMap<K, V> {
    ghost Value = { List (K × V) };

    ghost view = { λ m. m.rows };

    ghost invariant = { λ m. IsNoted K.cmp K.IsMark m.rows m.notes.items };
}

impl<K: Marked, V> NotedMap<K, V> {
    /// A map with no rows.
    pub fn new(alloc: Global) -> Self
        ensures { result ≡ [] }
    {
        NotedMap {
            rows: SortedMap::new(alloc),
            notes: Vec::new(alloc),
        }
    }

    /// A map with the rows of a list whose keys rise, and no notes of them. It takes no memory.
    pub fn from_sorted(alloc: Global, rows: Vec<(K, V)>) -> Self
        requires { IsSortedMap K.cmp rows.items }
        ensures { result ≡ rows.items }
    {
        NotedMap {
            rows: SortedMap::from_sorted(rows),
            notes: Vec::new(alloc),
        }
    }

    /// A map with the rows of a list whose keys rise, and with notes of them. It takes memory for the notes.
    ///
    /// # Errors
    ///
    /// The allocator's, where memory for the notes was refused: never for a list without rows.
    pub fn try_from_sorted(alloc: Global, rows: Vec<(K, V)>) -> Result<Self, AllocError>
    where
        K: Drop,
        V: Drop,
        requires { IsSortedMap K.cmp rows.items }
        ensures rows { IfOk result (λ map. map ≡ rows.items) }
        ensures free { rows.items ≡ [] → IsOk result }
    {
        let notes = notes_of(alloc, &rows)?;
        Ok(NotedMap {
            rows: SortedMap::from_sorted(rows),
            notes,
        })
    }

    /// How many rows there are.
    pub fn len(&self) -> usize
        ensures { result ≡ length self.now }
    {
        self.rows.len()
    }

    /// Whether there is no row.
    pub fn is_empty(&self) -> bool
        ensures { result ≡ (length self.now == 0) }
    {
        self.rows.is_empty()
    }

    /// The value at the key, by its note, or else by binary search.
    #[inline(always)]
    pub fn get(&self, key: &K) -> Option<&V>
        ensures { option_copied result ≡ value_at K.cmp self.now key.now }
    {
        let notes = self.notes.as_slice();
        let bucket = bucket(key.mark(), notes.len());
        if bucket < notes.len() {
            let note = notes[bucket];
            if note == 0 {
                return None;
            }
            if note != MANY
                && let Some(row) = self.rows.as_slice().get(note as usize - 1)
            {
                return value_of(row, key);
            }
        }
        self.searched(key)
    }

    // The value at the key, by binary search.
    #[inline(never)]
    fn searched(&self, key: &K) -> Option<&V>
        ensures { option_copied result ≡ value_at K.cmp self.now key.now }
    {
        K::find(&self.rows, key)
    }

    /// Whether some row has the key.
    #[inline(always)]
    pub fn contains_key(&self, key: &K) -> bool
        ensures { result ≡ is_some (value_at K.cmp self.now key.now) }
    {
        self.get(key).is_some()
    }

    /// Puts the value at the key, as `SortedMap::insert` does, and takes the notes away.
    ///
    /// # Errors
    ///
    /// `Memory`, only for a key that is not there yet, where memory for the row was refused: the rows stay as they were
    /// then, and the row is dropped.
    pub fn insert(&mut self, key: K, value: V) -> Result<(), DataError>
    where
        K: Drop,
        V: Drop,
        ensures { Inserts K.cmp self.old self.new key value result }
    {
        self.notes.clear();
        self.rows.insert(key, value)
    }

    /// Makes notes of the rows, so that look-ups are fast, but for less than eight rows. It takes memory for them, and the
    /// rows stay.
    ///
    /// # Errors
    ///
    /// `Memory`, only where memory for the notes was refused: never for a map without rows.
    pub fn note(&mut self, alloc: Global) -> Result<(), DataError>
        ensures refused { RefusesMemory self.old self.new result }
        ensures rows { self.new ≡ self.old }
        ensures free { self.old ≡ [] → IsOk result }
    {
        self.notes = notes_of(alloc, self.rows.as_slice())?;
        Ok(())
    }

    /// The rows, in the keys' order.
    pub fn as_slice(&self) -> &[(K, V)]
        ensures rows { result.now ≡ self.now }
        ensures sorted { IsSortedMap K.cmp self.now }
    {
        self.rows.as_slice()
    }

    /// A walk over the rows, in the keys' order.
    pub fn iter(&self) -> Rows<'_, K, V>
        ensures rows { result ≡ self.now }
        ensures sorted { IsSortedMap K.cmp self.now }
        ensures found { IsFoundEach K.cmp self.now }
    {
        self.rows.iter()
    }
}

// Its rows, as those of a `SortedMap`.
impl<K: Marked + fmt::Debug, V: fmt::Debug> fmt::Debug for NotedMap<K, V> {
    fn fmt<W: fmt::Write>(&self, f: &mut fmt::Formatter<W>) -> fmt::Result {
        self.rows.fmt(f)
    }
}

// The value of a row, if it has the key.
#[inline(always)]
fn value_of<'m, K: Marked, V>(row: &'m (K, V), key: &K) -> Option<&'m V>
    ensures tied { K.cmp key.now row.now.0 ≡ Equal → option_copied result ≡ Some row.now.1 }
    ensures other { K.cmp key.now row.now.0 ≢ Equal → option_copied result ≡ None }
{
    if key.is(&row.0) { Some(&row.1) } else { None }
}

// How many rows are noted at least: fewer are searched as quickly.
const FEWEST: usize = 8;

// How many buckets there are for each row, and beside these, so that most keys have one of their own, and most other
// keys one where nothing is noted.
const BUCKETS_A_ROW: usize = 12;

const MORE_BUCKETS: usize = 32;

// The note of a bucket that several keys have, or whose place is too high to be noted.
const MANY: u16 = u16::MAX;

// A note for each row's key.
fn notes_of<K: Marked, V>(alloc: Global, rows: &[(K, V)]) -> Result<Vec<u16>, AllocError>
    ensures noted { IfOk result (λ notes. IsNoted K.cmp K.IsMark rows.now notes.items) }
    ensures free { rows.now ≡ [] → IsOk result }
{
    let mut notes = Vec::new(alloc);
    if rows.len() < FEWEST {
        return Ok(notes);
    }
    let buckets = rows
        .len()
        .saturating_mul(BUCKETS_A_ROW)
        .saturating_add(MORE_BUCKETS);
    notes.resize_with(buckets, || 0)?;
    for place in 0..rows.len() {
        note(&mut notes, rows[place].0.mark(), place);
    }
    Ok(notes)
}

// Notes the place of a mark.
fn note(notes: &mut Vec<u16>, mark: u64, place: usize)
    ensures length { length notes.new.items ≡ length notes.old.items }
    ensures noted { let at = bucket mark (length notes.old.items) in at < length notes.old.items
        → (get_or notes.new.items at 0 ≡ place + 1) ⊎ (get_or notes.new.items at 0 ≡ many) }
    ensures again { let at = bucket mark (length notes.old.items) in at < length notes.old.items
        → get_or notes.old.items at 0 ≢ 0 → get_or notes.new.items at 0 ≡ many }
    ensures others { (at : ℕ) → at ≢ bucket mark (length notes.old.items)
        → get_or notes.new.items at 0 ≡ get_or notes.old.items at 0 }
{
    let bucket = bucket(mark, notes.len());
    if bucket < notes.len() {
        notes[bucket] = if notes[bucket] == 0 {
            note_of(place)
        } else {
            MANY
        };
    }
}

// One more than a place, if that can be noted.
fn note_of(place: usize) -> u16
    ensures { (result ≡ place + 1) ⊎ (result ≡ many) }
{
    u16::try_from(place.saturating_add(1)).unwrap_or(MANY)
}

// Which of so many buckets a mark falls into.
#[inline(always)]
fn bucket(mark: u64, count: usize) -> usize
    ensures { result ≡ bucket mark count }
{
    let mixed = mark.wrapping_mul(0x9E37_79B9_7F4A_7C15) >> 32;
    (mixed.wrapping_mul(count as u64) >> 32) as usize
}
