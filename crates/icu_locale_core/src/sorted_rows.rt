//! A map of few rows in a sorted list, and the walk over the rows of a sorted list.
ghost use Rattle.std.specs.Prelude.{◌≡◌, ◌↔◌, ◌⊎◌, ◌++◌, ◌∷◌, [], MatchResult, Some, None, IsTrue, IsSome, IsOk, IfOk, OnOk, OnErr, option_copied, List, ⊤};
ghost use Rattle.std.specs.BTreeMap.{insert_entry, is_at};
ghost use Rattle.std.specs.Iterator.{YieldsFirstBy, item_count};
ghost use Rattle.std.specs.Map.{remove_entry};
ghost use Rattle.std.specs.Map.Iter.{deref_pair};
ghost use Rattle.icu_locale_core.specs.Maps.{IsSortedMap, FindsAlike, SetsOnly, add_first, value_at};
ghost use Rattle.icu_locale_core.specs.Places.{IsAt, IsGapFor};

use std::alloc::{AllocError, Global};
use std::cmp::{Ord, Ordering};
use std::marker::Model;
use std::{fmt, mem};

/// A map whose rows are in one list, in the order of their keys. Only `insert` takes memory.
pub struct SortedRows<K: Ord, V> {
    rows: Vec<(K, V)>,
}

impl<K: Ord, V> Model for SortedRows<K, V> {
    ghost Value = { List (K × V) };

    ghost view = { λ m. m.rows.items };

    ghost invariant = { λ m. IsSortedMap K.cmp m.rows.items };
}

impl<K: Ord, V> SortedRows<K, V> {
    /// A map with no rows. It takes no memory.
    pub fn new(alloc: Global) -> Self
        ensures { result ≡ [] }
    {
        SortedRows {
            rows: Vec::new(alloc),
        }
    }

    /// A map with the rows of a list whose keys rise. It takes no memory.
    pub fn from_sorted(rows: Vec<(K, V)>) -> Self
        requires { IsSortedMap K.cmp rows.items }
        ensures { result ≡ rows.items }
    {
        SortedRows { rows }
    }

    /// Whether there is no row.
    pub fn is_empty(&self) -> bool
        ensures { IsTrue result ↔ (self.now ≡ []) }
    {
        self.rows.is_empty()
    }

    /// The rows, in the keys' order.
    pub fn as_slice(&self) -> &[(K, V)]
        ensures rows { result.now ≡ self.now }
        ensures sorted { IsSortedMap K.cmp self.now }
    {
        &self.rows
    }

    /// A walk over the rows, in the keys' order.
    pub fn iter(&self) -> Rows<'_, K, V>
        ensures rows { result ≡ self.now }
        ensures sorted { IsSortedMap K.cmp self.now }
    {
        Rows { rows: &self.rows }
    }

    /// The value at the key, found by binary search.
    pub fn get(&self, key: &K) -> Option<&V>
        ensures { option_copied result ≡ value_at K.cmp self.now key.now }
    {
        match self.search(key) {
            Ok(at) => Some(&self.rows[at].1),
            Err(_) => None,
        }
    }

    /// Puts the value at the key, and gives the value that was there. A key that is there stays, with no memory taken; a
    /// new row goes to its place, and the list grows once if it is full.
    ///
    /// # Errors
    ///
    /// Where memory for a new row was refused. The map is as it was then, and the row is dropped.
    pub fn insert(&mut self, key: K, value: V) -> Result<Option<V>, AllocError>
    where
        K: Drop,
        V: Drop,
        ensures rows { OnOk result (self.new ≡ insert_entry K.cmp self.old key value) }
        ensures sets { OnOk result (SetsOnly K.cmp self.old self.new key (Some value)) }
        ensures before { IfOk result (λ before. before ≡ value_at K.cmp self.old key) }
        ensures unchanged { OnErr result (self.new ≡ self.old) }
        ensures present { IsSome (value_at K.cmp self.old key) → IsOk result }
    {
        match self.search(&key) {
            Ok(at) => Ok(Some(mem::replace(&mut self.rows[at].1, value))),
            Err(at) => {
                self.rows.insert(at, (key, value))?;
                Ok(None)
            }
        }
    }

    /// Puts the value at the key, where there is none yet. A key that is there takes no memory.
    ///
    /// # Errors
    ///
    /// Where memory for a new row was refused. The map is as it was then, and the row is dropped.
    pub fn add(&mut self, key: K, value: V) -> Result<(), AllocError>
    where
        K: Drop,
        V: Drop,
        ensures added { OnOk result (FindsAlike K.cmp self.new (self.old ++ (key, value) ∷ [])) }
        ensures rows { OnOk result (self.new ≡ add_first K.cmp self.old key value) }
        ensures unchanged { OnErr result (self.new ≡ self.old) }
        ensures present { IsSome (value_at K.cmp self.old key) → IsOk result }
    {
        match self.search(&key) {
            Ok(_) => Ok(()),
            Err(at) => Ok(self.rows.insert(at, (key, value))?),
        }
    }

    /// Takes the key out, and gives the value that was there, if any.
    pub fn remove(&mut self, key: &K) -> Option<V>
    where
        K: Drop,
        ensures value { result ≡ value_at K.cmp self.old key.now }
        ensures rows { self.new ≡ remove_entry (is_at (K.cmp key.now)) self.old }
        ensures sets { SetsOnly K.cmp self.old self.new key.now None }
    {
        match self.search(key) {
            Ok(at) => Some(self.rows.remove(at).1),
            Err(_) => None,
        }
    }

    // Where the key is, or where it would go.
    fn search(&self, key: &K) -> Result<usize, usize>
        ensures { MatchResult result
            (IsAt K.cmp self.now key.now) (IsGapFor K.cmp self.now key.now) }
    {
        self.rows.binary_search_by(
            |row: &(K, V)| -> Ordering
                ensures { result ≡ K.cmp row.now.0 key.entry.now }
            { row.0.cmp(key) },
        )
    }
}

impl<K: Ord + Copy, V: Clone> SortedRows<K, V> {
    /// An equal map. Without rows it takes no memory.
    ///
    /// # Errors
    ///
    /// Where memory for the rows or a value was refused.
    pub fn try_clone(&self) -> Result<Self, AllocError>
        requires { (v w : V) → V.is_clone v w → w ≡ v }
        ensures same { IfOk result (λ m. m ≡ self.now) }
        ensures free { self.now ≡ [] → IsOk result }
    {
        let alloc = *self.rows.allocator();
        if self.rows.is_empty() {
            return Ok(SortedRows::new(alloc));
        }
        let mut rows = Vec::with_capacity(alloc, self.rows.len())?;
        for row in self.rows.as_slice() {
            rows.push((row.0, row.1.clone()?))?;
        }
        Ok(SortedRows { rows })
    }
}

// Written out, so that a caller drops it by one call at each exit.
impl<K: Ord + Drop, V: Drop> Drop for SortedRows<K, V> {
    fn drop(self) {
        let SortedRows { rows: _ } = self;
    }
}

impl<K: Ord + fmt::Debug, V: fmt::Debug> fmt::Debug for SortedRows<K, V> {
    fn fmt<W: fmt::Write>(&self, f: &mut fmt::Formatter<W>) -> fmt::Result {
        f.debug_map().entries(self.iter()).finish()
    }
}

/// The rows of a sorted list that a walk has not come to yet, in the keys' order. It takes no memory.
#[derive(Debug, Drop)]
pub struct Rows<'a, K, V> {
    rows: &'a [(K, V)],
}

impl<'a, K, V> Model for Rows<'a, K, V> {
    ghost Value = { List (K × V) };

    ghost view = { λ r. r.rows.now };
}

impl<'a, K, V> Rows<'a, K, V> {
    /// A walk over rows.
    pub fn new(rows: &'a [(K, V)]) -> Self
        ensures { result ≡ rows.now }
    {
        Rows { rows }
    }

    /// The rows that are left.
    pub fn as_slice(&self) -> &'a [(K, V)]
        ensures { result.now ≡ self.now }
    {
        self.rows
    }
}

impl<'a, K, V> Clone for Rows<'a, K, V> {
    ghost is_clone = { λ s r. r ≡ s };

    ghost is_infallible = { λ _. ⊤ };

    fn clone(&self) -> Result<Rows<'a, K, V>, AllocError> {
        Ok(Rows { rows: self.rows })
    }
}

impl<'a, K, V> Iterator for Rows<'a, K, V> {
    type Item = (&'a K, &'a V);

    ghost next_gives = { YieldsFirstBy deref_pair (λ s. s) };

    ghost remaining = { item_count (λ s. s) };

    fn next(&mut self) -> Option<(&'a K, &'a V)> {
        let (first, others) = self.rows.split_first()?;
        *self = Rows { rows: others };
        Some((&first.0, &first.1))
    }
}
