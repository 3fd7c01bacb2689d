//! Arrays of one length and of any.
ghost use Rattle.std.specs.Prelude.{◌≡◌, option_map, option_and_then};
ghost use Rattle.serde_json.specs.Find.{as_array};
ghost use Rattle.serde_json.specs.View.{view};
ghost use Rattle.icu_tables.specs.Shape.{array_of, pair_of, triple_of, two_items, three_items};

use crate::TableError;
use crate::from_json::values::FromValue;
use serde_json::Value;
use std::alloc::Global;

// The items of an array of exactly two.
fn two_items(value: &Value) -> Option<(&Value, &Value)>
    ensures { option_map (λ two. (view two.0.now, view two.1.now)) result
        ≡ option_and_then two_items (as_array (view value.now)) }
{
    match value.as_array()?.as_slice() {
        [first, second] => Some((first, second)),
        _ => None,
    }
}

// The items of an array of exactly three.
fn three_items(value: &Value) -> Option<(&Value, &Value, &Value)>
    ensures { option_map (λ three. (view three.0.now, view three.1.now, view three.2.now)) result
        ≡ option_and_then three_items (as_array (view value.now)) }
{
    match value.as_array()?.as_slice() {
        [first, second, third] => Some((first, second, third)),
        _ => None,
    }
}

impl<A: FromValue, B: FromValue> FromValue for (A, B) {
    ghost Seen = { A.Seen × B.Seen };

    ghost seen = { λ pair. (A.seen pair.0, B.seen pair.1) };

    ghost shape = { pair_of A.shape B.shape };

    fn from_value(alloc: Global, value: &Value) -> Result<Self, TableError> {
        let Some((first, second)) = two_items(value) else {
            return Err(TableError::Shape);
        };
        Ok((A::from_value(alloc, first)?, B::from_value(alloc, second)?))
    }
}

impl<A: FromValue, B: FromValue, C: FromValue> FromValue for (A, B, C) {
    ghost Seen = { A.Seen × B.Seen × C.Seen };

    ghost seen = { λ triple. (A.seen triple.0, B.seen triple.1, C.seen triple.2) };

    ghost shape = { triple_of A.shape B.shape C.shape };

    fn from_value(alloc: Global, value: &Value) -> Result<Self, TableError> {
        let Some((first, second, third)) = three_items(value) else {
            return Err(TableError::Shape);
        };
        Ok((
            A::from_value(alloc, first)?,
            B::from_value(alloc, second)?,
            C::from_value(alloc, third)?,
        ))
    }
}

impl<T: FromValue> FromValue for Vec<T> {
    ghost use Rattle.std.specs.Prelude.{List, map};

    ghost Seen = { List T.Seen };

    ghost seen = { λ list. map T.seen list.items };

    ghost shape = { array_of T.shape };

    fn from_value(alloc: Global, value: &Value) -> Result<Self, TableError> {
        let Some(items) = value.as_array() else {
            return Err(TableError::Shape);
        };
        let mut list = Vec::new(alloc);
        for item in items {
            list.push(T::from_value(alloc, item)?)?;
        }
        Ok(list)
    }
}
