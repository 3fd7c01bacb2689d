//! Tables of aliases of values.

use icu_locale_core::{Key, Value};
use icu_locale_extensions::{FieldKey, Subtags};
use icu_provider::SortedMap;

/// Aliases of values, which are lent: at each key a value, and the one that is preferred to it (CLDR, common/bcp47). The
/// rows may be any, also such that lead round in a circle.
#[derive(Clone, Copy, Debug)]
pub struct ValueAliases<'d> {
    /// Those of keywords. No row at `rg` and `sd` is asked, since the rules speak there.
    pub keywords: &'d SortedMap<Key, SortedMap<Value, Value>>,
    /// Those of fields.
    pub fields: &'d SortedMap<FieldKey, SortedMap<Subtags<3>, Subtags<3>>>,
}
