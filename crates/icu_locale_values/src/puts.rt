//! Ends of runs are written to their keys.
ghost use Rattle.std.specs.Prelude.{◌≡◌, IsSome, Some, List, if◌then◌else◌};
ghost use Rattle.icu_locale_core.specs.Maps.{value_at, SetsOnly};
ghost use Rattle.icu_locale.specs.declared.expander.TransformResult.TheVariants.{Modified};
ghost use Rattle.icu_locale_values.specs.inner.Walked.{has_row, AreThere, ArePut};

use crate::kinds::{AliasKey, AliasValue};
use icu_locale::TransformResult;
use icu_locale_core::{Key, Keywords, Value};
use icu_locale_extensions::{FieldKey, Fields, Subtags};

/// A map in which values are put at keys that are there.
pub(crate) trait PutsValues<K: AliasKey, V: AliasValue> {
    /// The rows of the map.
    ghost rows: { Self → List (K × V) };

    /// Puts a value at a key that is there. It takes no memory.
    fn put(&mut self, key: K, value: V)
        requires { IsSome (value_at K.cmp (rows self.old) key) }
        ensures { SetsOnly K.cmp (rows self.old) (rows self.new) key (Some value) };
}

impl PutsValues<Key, Value> for Keywords {
    ghost rows = { λ keywords. keywords };

    fn put(&mut self, key: Key, value: Value) {
        let _ = self.set(key, value);
    }
}

impl PutsValues<FieldKey, Subtags<3>> for Fields {
    ghost rows = { λ fields. fields };

    fn put(&mut self, key: FieldKey, value: Subtags<3>) {
        let _ = self.set(key, value);
    }
}

// Writes the ends to their keys, the last first, and tells whether there was one.
pub(crate) fn put_ends<K: AliasKey, V: AliasValue, M: PutsValues<K, V>>(
    map: &mut M,
    ends: Vec<(K, V)>,
    answer: TransformResult,
) -> TransformResult
    requires { AreThere K.cmp ends.items (M.rows map.old) }
    ensures put { ArePut K.cmp ends.items (M.rows map.old) (M.rows map.new) }
    ensures answer { result ≡ (if has_row ends.items then Modified else answer) }
{
    let mut left = ends;
    let mut told = answer;
    'rows: while let Some((key, end)) = left.pop() {
        map.put(key, end);
        told = TransformResult::Modified;
    }
    told
}
