//! Objects whose members are rows of a map.
ghost use Rattle.std.specs.Prelude.{◌≡◌, [], Some};
ghost use Rattle.serde_json.specs.Find.{get};
ghost use Rattle.serde_json.specs.View.{view};
ghost use Rattle.icu_tables.specs.Fields.{said_or};
ghost use Rattle.icu_tables.specs.NamedRows.{named_row};
ghost use Rattle.icu_tables.specs.Puts.{map_by, rows_by};
ghost use Rattle.icu_tables.specs.inner.Members.{GoesOn};
ghost use Rattle.icu_tables.specs.inner.Reads.{Appends, Fills, Reads};
ghost use Rattle.icu_tables.specs.Rows.{seen_rows};

use crate::TableError;
use crate::from_json::objects::MemberReader;
use crate::from_json::rows::{FromRows, settled};
use crate::from_json::values::FromValue;
use serde_json::Value;
use std::alloc::Global;
use std::cmp::Ord;

// How a member adds its rows to a list.
pub(crate) trait AddsRows<K, V> {
    ghost use Rattle.std.specs.Prelude.{List, ℕ};
    ghost use Rattle.serde_json.specs.View.{view};
    ghost use Rattle.icu_tables.specs.inner.Reads.{Appends};
    ghost use Rattle.icu_tables.specs.Rows.{seen_rows};
    ghost use Rattle.icu_tables.specs.Shape.{Shape};

    // What a contract sees of what a row holds.
    ghost Seen: { Type 0 };

    ghost seen: { V → Self.Seen };

    // The rows of a member, by its name and value.
    ghost says: { Self → List ℕ → Shape (List (K × Self.Seen)) };

    fn add(
        &self,
        alloc: Global,
        name: &str,
        value: &Value,
        rows: &mut Vec<(K, V)>,
    ) -> Result<(), TableError>
        ensures { Appends result
            (seen_rows Self.seen rows.old.items) (seen_rows Self.seen rows.new.items)
            (Self.says self.now name.now (view value.now)) };
}

// Adds the rows of each member.
pub(crate) fn add_members<K, V, P: AddsRows<K, V>>(
    alloc: Global,
    value: &Value,
    how: &P,
    rows: &mut Vec<(K, V)>,
) -> Result<(), TableError>
    ensures { Appends result
        (seen_rows P.seen rows.old.items) (seen_rows P.seen rows.new.items)
        (rows_by (P.says how.now) (view value.now)) }
{
    let Some(members) = value.as_object() else {
        return Err(TableError::Shape);
    };
    for (name, member) in members.iter() {
        how.add(alloc, name.as_str(), member, rows)?;
    }
    Ok(())
}

// The rows that the members of an object say.
pub(crate) fn rows_in<K: Drop, V: Drop, P: AddsRows<K, V>>(
    alloc: Global,
    value: &Value,
    how: &P,
) -> Result<Vec<(K, V)>, TableError>
    ensures { Reads (λ rows. seen_rows P.seen rows.items) result
        (rows_by (P.says how.now) (view value.now)) }
{
    let mut rows = Vec::new(alloc);
    match add_members(alloc, value, how, &mut rows) {
        Ok(()) => Ok(rows),
        Err(refusal) => Err(refusal),
    }
}

// The map that the members of an object say. No order of the members costs more than a sort.
pub(crate) fn map_in<K: Ord + Drop, V: Drop, P: AddsRows<K, V>, M: FromRows<K, V>>(
    alloc: Global,
    value: &Value,
    how: &P,
) -> Result<M, TableError>
    ensures { Reads (λ map. seen_rows P.seen (M.kept map)) result
        (map_by K.cmp (P.says how.now) (view value.now)) }
{
    match rows_in(alloc, value, how) {
        Ok(rows) => Ok(settled(alloc, rows)?),
        Err(refusal) => Err(refusal),
    }
}

impl<'v> MemberReader<'v> {
    // Fills a map with the rows of the next member, and with none if it is not there.
    pub(crate) fn fill_by<K: Ord + Drop, V: Drop, P: AddsRows<K, V>, M: FromRows<K, V>>(
        mut self,
        name: &str,
        how: &P,
        map: &mut M,
    ) -> MemberReader<'v>
        ensures { GoesOn self.entry result (seen_rows P.seen (M.kept map.new))
            (λ object. said_or (Some []) (map_by K.cmp (P.says how.now)) (get name.now object)) }
    {
        if self.outcome.is_ok() {
            self.outcome = fill_by(self.alloc, self.object, name, how, map);
        }
        self
    }
}

// Puts what a member says into a map in place of its rows, and no rows if it is not there.
fn fill_by<K: Ord + Drop, V: Drop, P: AddsRows<K, V>, M: FromRows<K, V>>(
    alloc: Global,
    object: &Value,
    name: &str,
    how: &P,
    map: &mut M,
) -> Result<(), TableError>
    ensures { let found = get name.now (view object.now) in
        Fills result (seen_rows P.seen (M.kept map.new))
        (said_or (Some []) (map_by K.cmp (P.says how.now)) found) }
{
    *map = match object.get(name) {
        Some(value) => map_in(alloc, value, how)?,
        None => M::from_rows(alloc, Vec::new(alloc))?,
    };
    Ok(())
}

// How the names of members are read as keys.
pub(crate) trait NamesKeys<K> {
    ghost use Rattle.std.specs.Prelude.{◌≡◌, List, ℕ, Option};

    ghost key: { Self → List ℕ → Option K };

    fn key_named(&self, name: &str) -> Option<K>
        ensures { result ≡ key self.now name.now };
}

// Adds one row for each member whose name is a key. Each value has its shape, also where the name is none.
#[derive(Clone, Copy)]
pub(crate) struct RowByRow<R> {
    pub(crate) keys: R,
}

impl<K: Drop, V: FromValue, R: NamesKeys<K>> AddsRows<K, V> for RowByRow<R> {
    ghost Seen = { V.Seen };

    ghost seen = { V.seen };

    ghost says = { λ rows name. named_row (R.key rows.keys name) V.shape };

    fn add(
        &self,
        alloc: Global,
        name: &str,
        value: &Value,
        rows: &mut Vec<(K, V)>,
    ) -> Result<(), TableError> {
        let held = V::from_value(alloc, value)?;
        if let Some(key) = self.keys.key_named(name) {
            rows.push((key, held))?;
        }
        Ok(())
    }
}
