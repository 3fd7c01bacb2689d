//! A map in a sorted list: look-ups by binary search, and walks in the keys' order.
ghost use Rattle.std.specs.Prelude.{◌≡◌, ◌==◌, ◌<◌, ◌≤◌, ◌^◌, [], length, Some, MatchResult, is_some, option_copied, List};
ghost use Rattle.std.specs.Option.{option_copied_mut};
ghost use Rattle.icu_locale_core.specs.Maps.{value_at};
ghost use Rattle.icu_provider.specs.SortedMaps.{Inserts, IsFoundEach, IsSortedMap};
ghost use Rattle.icu_provider.specs.Places.{IsAt, IsGapFor, IsNearest};

use crate::DataError;
use icu_locale_core::{Numbered, Rows};
use std::alloc::Global;
use std::cmp::{Ord, Ordering};
use std::marker::Model;

/// A map whose rows are in one list, in the order of their keys. Only `insert` takes memory.
#[derive(Debug, Drop)]
pub struct SortedMap<K: Ord, V> {
    entries: Vec<(K, V)>,
}

impl<K: Ord, V> Model for SortedMap<K, V> {
    ghost Value = { List (K × V) };

    ghost view = { λ m. m.entries.items };

    ghost invariant = { λ m. IsSortedMap K.cmp m.entries.items };
}

impl<K: Ord, V> SortedMap<K, V> {
    ghost use Rattle.std.specs.Borrow.{sem};
    ghost use Rattle.icu_provider.specs.Lends.{LendsValue};

    /// A map with no rows.
    pub fn new(alloc: Global) -> Self
        ensures { result ≡ [] }
    {
        SortedMap {
            entries: Vec::new(alloc),
        }
    }

    /// A map with the rows of a list whose keys rise. It takes no memory.
    pub fn from_sorted(rows: Vec<(K, V)>) -> Self
        requires { IsSortedMap K.cmp rows.items }
        ensures { result ≡ rows.items }
    {
        SortedMap { entries: rows }
    }

    /// How many rows there are.
    pub fn len(&self) -> usize
        ensures { result ≡ length self.now }
    {
        self.entries.len()
    }

    /// Whether there is no row.
    pub fn is_empty(&self) -> bool
        ensures { result ≡ (length self.now == 0) }
    {
        self.entries.is_empty()
    }

    /// The value at the key, found by binary search.
    pub fn get(&self, key: &K) -> Option<&V>
        ensures { option_copied result ≡ value_at K.cmp self.now key.now }
    {
        match self.search(key) {
            Ok(at) => Some(&self.entries[at].1),
            Err(_) => None,
        }
    }

    /// The value at the key, to be changed, found by binary search. It takes no memory.
    pub fn get_mut(&mut self, key: &K) -> Option<&mut V>
        ensures* writes_back { sem 𝓛 (LendsValue K.row V.row K.Ord self.entry key.now result) }
        ensures value { option_copied_mut result ≡ value_at K.cmp self.old key.now }
    {
        match self.search(key) {
            Ok(at) => Some(&mut self.entries[at].1),
            Err(_) => None,
        }
    }

    /// Whether some row has the key, found by binary search.
    pub fn contains_key(&self, key: &K) -> bool
        ensures { result ≡ is_some (value_at K.cmp self.now key.now) }
    {
        self.get(key).is_some()
    }

    /// Puts the value at the key. A key that is there stays and takes the value, with no memory taken; a new row goes
    /// to its place, and the list grows once if it is full.
    ///
    /// # Errors
    ///
    /// `Memory`, only for a key that is not there yet, where memory for the row was refused: the map stays as it was then,
    /// and the row is dropped.
    pub fn insert(&mut self, key: K, value: V) -> Result<(), DataError>
    where
        K: Drop,
        V: Drop,
        ensures { Inserts K.cmp self.old self.new key value result }
    {
        match self.search(&key) {
            Ok(at) => {
                self.entries[at].1 = value;
                Ok(())
            }
            Err(at) => Ok(self.entries.insert(at, (key, value))?),
        }
    }

    /// The rows, in the keys' order.
    pub fn as_slice(&self) -> &[(K, V)]
        ensures rows { result.now ≡ self.now }
        ensures sorted { IsSortedMap K.cmp self.now }
    {
        &self.entries
    }

    /// A walk over the rows, in the keys' order.
    pub fn iter(&self) -> Rows<'_, K, V>
        ensures rows { result ≡ self.now }
        ensures sorted { IsSortedMap K.cmp self.now }
        ensures found { IsFoundEach K.cmp self.now }
    {
        Rows::new(&self.entries)
    }

    // Where the key is, or where it would go.
    fn search(&self, key: &K) -> Result<usize, usize>
        ensures { MatchResult result
            (IsAt K.cmp self.now key.now) (IsGapFor K.cmp self.now key.now) }
    {
        self.entries.binary_search_by(
            |row: &(K, V)| -> Ordering
                ensures { result ≡ K.cmp row.now.0 key.entry.now }
            { row.0.cmp(key) },
        )
    }
}

impl<K: Numbered, V> SortedMap<K, V> {
    /// The value at the key, as `get` gives it. The search compares numbers, and its steps have no branch.
    #[inline(always)]
    pub fn get_numbered(&self, key: &K) -> Option<&V>
        ensures { option_copied result ≡ value_at K.cmp self.now key.now }
    {
        let row = self.entries.get(nearest(&self.entries, key))?;
        if row.0.number() == key.number() {
            Some(&row.1)
        } else {
            None
        }
    }
}

// The place of the last row that is not above a key, or the first place.
#[inline(always)]
fn nearest<K: Numbered, V>(rows: &[(K, V)], key: &K) -> usize
    requires { IsSortedMap K.cmp rows.now }
    ensures { IsNearest K.cmp rows.now key.now result }
{
    let wanted = key.number();
    let mut place = 0;
    let mut size = rows.len();
    while size > 1 {
        let half = size / 2;
        place += half * not_above(rows[place + half].0.number(), wanted);
        size -= half;
    }
    place
}

// 1 where a number is not above another, and 0 else: the top bit of their difference tells, with no branch.
#[inline(always)]
fn not_above(number: u64, other: u64) -> usize
    requires number { number < 2 ^ 63 }
    requires other { other < 2 ^ 63 }
    ensures not_above { number ≤ other → result ≡ 1 }
    ensures above { other < number → result ≡ 0 }
{
    ((other + (1 << 63) - number) >> 63) as usize
}
