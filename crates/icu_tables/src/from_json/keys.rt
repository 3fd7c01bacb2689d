//! Keys of rows.
ghost use Rattle.std.specs.Prelude.{◌≡◌};
ghost use Rattle.icu_tables.specs.inner.KeyLaws.{key_above_dash, key_compares, pair_compares};
ghost use Rattle.icu_tables.specs.Subtags.{key_of, key_pair};

use crate::from_json::subtags::FromText;
use std::cmp::Ord;

// What the name of a row's member is read as, if it is a key.
pub(crate) trait RowKey: Ord + Drop {
    ghost use Rattle.std.specs.Prelude.{◌≡◌, List, ℕ, Option};
    ghost use Rattle.icu_tables.specs.inner.KeyLaws.{ComparesNames};

    ghost key: { List ℕ → Option Self };

    fn from_name(name: &str) -> Option<Self>
        ensures { result ≡ key name.now };

    // Keys are in the order of their names.
    ghost by_name: { ComparesNames key Self.cmp };
}

impl<T: FromText> RowKey for T {
    ghost key = { key_of T.written T.reads };

    fn from_name(name: &str) -> Option<Self> {
        let subtag = T::from_text(name)?;
        if subtag.as_text() == name {
            Some(subtag)
        } else {
            None
        }
    }

    ghost by_name = { key_compares T.written T.reads T.cmp T.by_text };
}

impl<A: FromText, B: FromText> RowKey for (A, B) {
    ghost key = { key_pair (key_of A.written A.reads) (key_of B.written B.reads) };

    fn from_name(name: &str) -> Option<Self> {
        let (first, second) = name.split_once('-')?;
        Some((A::from_name(first)?, B::from_name(second)?))
    }

    ghost by_name = { pair_compares (key_of A.written A.reads) (key_of B.written B.reads)
        (key_compares A.written A.reads A.cmp A.by_text)
        (key_compares B.written B.reads B.cmp B.by_text)
        (key_above_dash A.written A.reads A.above_dash) };
}
