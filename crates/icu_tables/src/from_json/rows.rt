//! Maps that are made of rows.
ghost use Rattle.std.specs.Prelude.{◌≡◌, [], IfOk, IfSome, option_map};
ghost use Rattle.std.specs.Bool.{MatchBool};
ghost use Rattle.std.specs.declared.cmp.Ordering.TheVariants.{Less};
ghost use Rattle.icu_provider.specs.SortedMaps.{IsSortedMap};
ghost use Rattle.icu_tables.specs.Puts.{put_all};

use icu_provider::{Marked, NotedMap, SortedMap};
use std::alloc::{AllocError, Global};
use std::cmp::{Ord, Ordering};
use std::collections::BTreeMap;

// A map that is made of rows whose keys rise.
pub(crate) trait FromRows<K: Ord, V>: Drop {
    ghost use Rattle.std.specs.Prelude.{◌≡◌, List, IfOk};
    ghost use Rattle.icu_provider.specs.SortedMaps.{IsSortedMap};

    ghost kept: { Self → List (K × V) };

    fn from_rows(alloc: Global, rows: Vec<(K, V)>) -> Result<Self, AllocError>
        requires { IsSortedMap K.cmp rows.items }
        ensures { IfOk result (λ map. Self.kept map ≡ rows.items) };
}

impl<K: Ord + Drop, V: Drop> FromRows<K, V> for SortedMap<K, V> {
    ghost kept = { λ map. map };

    fn from_rows(_alloc: Global, rows: Vec<(K, V)>) -> Result<Self, AllocError>
        requires { IsSortedMap K.cmp rows.items }
        ensures { IfOk result (λ map. map ≡ rows.items) }
    {
        Ok(SortedMap::from_sorted(rows))
    }
}

impl<K: Marked + Drop, V: Drop> FromRows<K, V> for NotedMap<K, V> {
    ghost kept = { λ map. map };

    fn from_rows(alloc: Global, rows: Vec<(K, V)>) -> Result<Self, AllocError>
        requires { IsSortedMap K.cmp rows.items }
        ensures { IfOk result (λ map. map ≡ rows.items) }
    {
        NotedMap::try_from_sorted(alloc, rows)
    }
}

// The rows of a list as a map: of two rows with one key the later counts.
pub(crate) fn settled<K: Ord + Drop, V: Drop, M: FromRows<K, V>>(
    alloc: Global,
    rows: Vec<(K, V)>,
) -> Result<M, AllocError>
    ensures { IfOk result (λ map. M.kept map ≡ put_all K.cmp [] rows.items) }
{
    if keys_rise(&rows) {
        return M::from_rows(alloc, rows);
    }
    settled_in_order(alloc, rows)
}

// The same, where the keys do not rise. The sort keeps runs of keys that rise, and merges them. Where two rows have
// one key, a tree drops the first.
fn settled_in_order<K: Ord + Drop, V: Drop, M: FromRows<K, V>>(
    alloc: Global,
    mut rows: Vec<(K, V)>,
) -> Result<M, AllocError>
    ensures { IfOk result (λ map. M.kept map ≡ put_all K.cmp [] rows.items) }
{
    rows.sort_by(by_key)?;
    if keys_rise(&rows) {
        return M::from_rows(alloc, rows);
    }
    in_one_list(alloc, tree_of(alloc, rows)?)
}

// How rows compare by their keys.
#[inline(always)]
fn by_key<K: Ord, V>(a: &(K, V), b: &(K, V)) -> Ordering
    ensures { result ≡ K.cmp a.now.0 b.now.0 }
{
    a.0.cmp(&b.0)
}

// Whether the keys of rows rise.
fn keys_rise<K: Ord, V>(rows: &[(K, V)]) -> bool
    ensures { MatchBool result (IsSortedMap K.cmp rows.now) (Unit {0}) }
{
    let mut before = None;
    for (key, _) in rows {
        if !is_key_above(before, key) {
            return false;
        }
        before = Some(key);
    }
    true
}

// Whether a key comes after the one before it, if there is one.
#[inline(always)]
fn is_key_above<K: Ord>(before: Option<&K>, key: &K) -> bool
    ensures { MatchBool result (IfSome before.entry (λ before. K.cmp before.now key.now ≡ Less))
        (Unit {0}) }
{
    match before {
        Some(before) => before.cmp(key).is_lt(),
        None => true,
    }
}

// The map of rows, put one after another.
fn tree_of<K: Ord + Drop, V: Drop>(
    alloc: Global,
    rows: Vec<(K, V)>,
) -> Result<BTreeMap<K, V>, AllocError>
    ensures { IfOk result (λ map. map.entries ≡ put_all K.cmp [] rows.items) }
{
    let mut map = BTreeMap::new(alloc);
    for (key, value) in rows {
        let _ = map.insert(key, value)?;
    }
    Ok(map)
}

// The rows of a map in one list.
pub(crate) fn in_one_list<K: Ord + Drop, V: Drop, M: FromRows<K, V>>(
    alloc: Global,
    map: BTreeMap<K, V>,
) -> Result<M, AllocError>
    ensures { IfOk result (λ rows. M.kept rows ≡ map.entries) }
{
    let mut rows = Vec::with_capacity(alloc, map.len())?;
    for row in map {
        rows.push(row)?;
    }
    M::from_rows(alloc, rows)
}
