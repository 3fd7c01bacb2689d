//! Maps from keys to lists of pieces.
ghost use Rattle.std.specs.Prelude.{◌≡◌, ◌↔◌, ◌&&◌, ◌++◌, ◌∷◌, [], IsTrue, IsSome, IsOk, IfOk, IfErr, OnOk, OnErr, Some, None, option_copied, List};
ghost use Rattle.std.specs.BTreeMap.{insert_entry, is_at};
ghost use Rattle.std.specs.Cmp.{on_equiv, and_equiv, on_per, and_per};
ghost use Rattle.std.specs.Cmp.Lexicographic.{pointwise, lists_equiv, lists_per};
ghost use Rattle.std.specs.List.{All, flat_map};
ghost use Rattle.std.specs.Map.{remove_entry};
ghost use Rattle.icu_locale_core.specs.Maps.{IsSortedMap, FindsAlike, SetsOnly, add_first, value_at};
ghost use Rattle.icu_locale_core.specs.Keywords.{written_row};

use crate::ParseError;
use crate::sorted_rows::{Rows, SortedRows};
use crate::text_sink::{TextSink, write_after_dash};
use std::alloc::Global;
use std::cmp::Ord;
use std::fmt;
use std::marker::Model;

/// The key of a row: its text, and what a row with it is.
pub trait RowKey<V: RowValue>: Ord {
    ghost use Rattle.std.specs.Prelude.{List, ℕ, ◌≡◌};

    ghost IsRow: { Self × V → Type 0 };

    ghost text: { Self → List ℕ };

    /// The text of the key. It takes no memory.
    fn name(&self) -> &str
        ensures { result.now ≡ text self.now };

    /// Tells only that a key and a value are a row. It takes no memory.
    fn known_with(&self, value: &V)
        ensures { IsRow (self.now, value.now) };

    ghost replaced: { (k l : Self) (v w : V) → IsRow (k, v) → IsRow (l, w) → IsRow (k, w) };
}

/// The value of a row: a list of pieces.
pub trait RowValue: Clone {
    ghost use Rattle.std.specs.Prelude.{List, ℕ, ◌≡◌, ◌++◌, codes};
    ghost use Rattle.std.specs.List.{flat_map};
    ghost use Rattle.icu_locale_core.specs.Value.{written_value};

    ghost pieces: { Self → List (List ℕ) };

    /// Writes each piece to a sink, with `-` before it.
    ///
    /// # Errors
    ///
    /// That of the sink, which has a part of the text then.
    fn write_pieces<S: TextSink>(&self, sink: &mut S) -> fmt::Result
        ensures { S.Writes sink.old (flat_map (λ p. codes "-" ++ p) (pieces self.now))
            result sink.new };

    /// Writes the pieces to a sink, with `-` between them.
    ///
    /// # Errors
    ///
    /// That of the sink, which has a part of the text then.
    fn write_joined<S: TextSink>(&self, sink: &mut S) -> fmt::Result
        ensures { S.Writes sink.old (written_value (pieces self.now)) result sink.new };

    ghost copied: { (v w : Self) → Self.is_clone v w → w ≡ v };
}

/// A finite map from keys to values. A contract sees its rows, a key and its value each, the keys rising.
///
/// Only `set`, `add` and `try_clone` take memory.
pub struct RowMap<K: RowKey<V>, V: RowValue> {
    map: SortedRows<K, V>,
}

impl<K: RowKey<V>, V: RowValue> Model for RowMap<K, V> {
    ghost Value = { List (K × V) };

    ghost view = { λ m. m.map };

    ghost invariant = { λ m. All K.IsRow m.map };
}

impl<K: RowKey<V>, V: RowValue> RowMap<K, V> {
    /// The map without rows.
    pub fn new(alloc: Global) -> Self
        ensures { result ≡ [] }
    {
        RowMap {
            map: SortedRows::new(alloc),
        }
    }

    /// Whether there is no row.
    pub fn is_empty(&self) -> bool
        ensures { IsTrue result ↔ (self.now ≡ []) }
    {
        self.map.is_empty()
    }

    /// Nothing, but that the keys rise, so that no key comes twice.
    pub fn known(&self)
        ensures { IsSortedMap K.cmp self.now }
    {
        let _ = self.map.as_slice();
    }

    /// Nothing, but what each row is.
    pub fn known_rows(&self)
        ensures { All K.IsRow self.now }
    {
        let _ = &self.map;
    }

    /// The value at a key, if any.
    pub fn get(&self, key: K) -> Option<&V>
    where
        K: Drop,
        ensures { option_copied result ≡ value_at K.cmp self.now key }
    {
        self.map.get(&key)
    }

    /// Puts a value at a key, and gives the value that was there. At a key that is there it takes no memory.
    ///
    /// # Errors
    ///
    /// `Memory` where the map could not grow. It is unchanged then, and the value is dropped.
    pub fn set(&mut self, key: K, value: V) -> Result<Option<V>, ParseError>
    where
        K: Drop,
        V: Drop,
        ensures rows { OnOk result (self.new ≡ insert_entry K.cmp self.old key value) }
        ensures sets { OnOk result (SetsOnly K.cmp self.old self.new key (Some value)) }
        ensures before { IfOk result (λ before. before ≡ value_at K.cmp self.old key) }
        ensures refused { IfErr result (λ e. e ≡ ParseError.Memory) }
        ensures unchanged { OnErr result (self.new ≡ self.old) }
        ensures present { IsSome (value_at K.cmp self.old key) → IsOk result }
    {
        key.known_with(&value);
        Ok(self.map.insert(key, value)?)
    }

    /// Puts a value at a key, where there is none yet. At a key that is there it takes no memory.
    ///
    /// # Errors
    ///
    /// `Memory` where the map could not grow. It is unchanged then, and the value is dropped.
    pub fn add(&mut self, key: K, value: V) -> Result<(), ParseError>
    where
        K: Drop,
        V: Drop,
        ensures added { OnOk result (FindsAlike K.cmp self.new (self.old ++ (key, value) ∷ [])) }
        ensures rows { OnOk result (self.new ≡ add_first K.cmp self.old key value) }
        ensures refused { IfErr result (λ e. e ≡ ParseError.Memory) }
        ensures unchanged { OnErr result (self.new ≡ self.old) }
        ensures present { IsSome (value_at K.cmp self.old key) → IsOk result }
    {
        key.known_with(&value);
        Ok(self.map.add(key, value)?)
    }

    /// Takes a key out, and gives the value that was there, if any.
    pub fn remove(&mut self, key: K) -> Option<V>
    where
        K: Drop,
        ensures value { result ≡ value_at K.cmp self.old key }
        ensures rows { self.new ≡ remove_entry (is_at (K.cmp key)) self.old }
        ensures sets { SetsOnly K.cmp self.old self.new key None }
    {
        self.map.remove(&key)
    }

    /// The rows, in the keys' order.
    pub fn as_slice(&self) -> &[(K, V)]
        ensures { result.now ≡ self.now }
    {
        self.map.as_slice()
    }

    /// A walk over the rows, in the keys' order.
    pub fn iter(&self) -> Rows<'_, K, V>
        ensures { result ≡ self.now }
    {
        self.map.iter()
    }

    /// Writes each key and each piece of its value to a sink, with `-` before it.
    ///
    /// # Errors
    ///
    /// That of the sink, which has a part of the text then.
    pub fn write_to<S: TextSink>(&self, sink: &mut S) -> fmt::Result
        ensures { S.Writes sink.old (flat_map (written_row K.text V.pieces) self.now)
            result sink.new }
    {
        for row in self.map.as_slice() {
            write_row(row, sink)?;
        }
        Ok(())
    }
}

/// Writes the key of a row and each piece of its value to a sink, with `-` before it.
///
/// # Errors
///
/// That of the sink, which has a part of the text then.
pub fn write_row<K: RowKey<V>, V: RowValue, S: TextSink>(row: &(K, V), sink: &mut S) -> fmt::Result
    ensures { S.Writes sink.old (written_row K.text V.pieces row.now) result sink.new }
{
    write_after_dash(row.0.name(), sink)?;
    row.1.write_pieces(sink)
}

impl<K: RowKey<V> + Copy, V: RowValue> RowMap<K, V> {
    /// An equal map. Without rows it takes no memory.
    ///
    /// # Errors
    ///
    /// `Memory` where the rows could not be copied.
    pub fn try_clone(&self) -> Result<Self, ParseError>
        ensures same { IfOk result (λ m. m ≡ self.now) }
        ensures refused { IfErr result (λ e. e ≡ ParseError.Memory) }
        ensures free { self.now ≡ [] → IsOk result }
    {
        Ok(RowMap {
            map: self.map.try_clone()?,
        })
    }
}

// Written out, so that a caller drops it by one call at each exit.
impl<K: RowKey<V> + Drop, V: RowValue + Drop> Drop for RowMap<K, V> {
    fn drop(self) {
        let RowMap { map: _ } = self;
    }
}

impl<K: RowKey<V>, V: RowValue + PartialEq> PartialEq for RowMap<K, V> {
    ghost eq = { pointwise (λ p q. K.eq p.0 q.0 && V.eq p.1 q.1) };

    ghost laws = { lists_per
        (and_per (on_per (λ p. p.0) K.PartialEq.laws) (on_per (λ p. p.1) V.laws)) };

    fn eq(&self, other: &Self) -> bool {
        self.map.as_slice() == other.map.as_slice()
    }
}

impl<K: RowKey<V>, V: RowValue + Eq> Eq for RowMap<K, V> {
    ghost laws = { lists_equiv
        (and_equiv (on_equiv (λ p. p.0) K.Eq.laws) (on_equiv (λ p. p.1) V.Eq.laws)) };
}

impl<K: RowKey<V>, V: RowValue> fmt::Display for RowMap<K, V> {
    ghost output = { λ rows. Some (flat_map (written_row K.text V.pieces) rows) };

    fn fmt<W: fmt::Write>(&self, f: &mut fmt::Formatter<W>) -> fmt::Result {
        self.write_to(f)
    }
}

impl<K: RowKey<V> + fmt::Debug, V: RowValue + fmt::Debug> fmt::Debug for RowMap<K, V> {
    fn fmt<W: fmt::Write>(&self, f: &mut fmt::Formatter<W>) -> fmt::Result {
        fmt::Debug::fmt(&self.map, f)
    }
}
