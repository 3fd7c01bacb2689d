//! Texts of tables as keys and values of maps.
ghost use Rattle.std.specs.Prelude.{◌≡◌, ◌≤◌, ◌<◌, length, nat_eq, string_bytes, option_copied, IfNone, IfOk, IfSome, IsOk, MatchResult};
ghost use Rattle.std.proofs.Common.{rules};
ghost use Rattle.std.specs.Cmp.{partial_order_from_own_ties};
ghost use Rattle.std.specs.Cmp.Lexicographic.{pointwise, texts_ties};
ghost use Rattle.std.specs.Cmp.Rules.{comparing};
ghost use Rattle.std.specs.Ordering.{as_partial_cmp};
ghost use Rattle.icu_locale_core.specs.Maps.{value_at};
ghost use Rattle.icu_locale_core.specs.TextSet.{text_cmp};
ghost use Rattle.icu_provider.specs.Places.{IsAt, IsGapFor};
ghost use Rattle.icu_provider.specs.SortedMaps.{IsSortedMap};
ghost use Rattle.icu_provider.specs.inner.Kept.{IsKept, text_kept};

use crate::SortedMap;
use std::alloc::{AllocError, Global};
use std::cmp::Ordering;
use std::marker::Model;
use std::{fmt, str};

/// A text of a table, of any content. One of at most 30 bytes lies in the value itself. A contract sees its bytes.
#[derive(Drop)]
pub struct TableText {
    kept: Kept,
}

// The bytes of a text and how many there are, or a text of its own.
#[derive(Drop)]
enum Kept {
    Short([u8; 30], u8),
    Long(String),
}

impl Model for TableText {
    ghost use Rattle.std.specs.Prelude.{List, ℕ};
    ghost use Rattle.icu_provider.specs.inner.Kept.{IsKept, text_kept};

    ghost Value = { List ℕ };

    ghost view = { λ t. text_kept t.kept };

    ghost invariant = { λ t. IsKept t.kept };
}

impl TableText {
    /// A text as it is. It takes no memory, and lets that of a text of at most 30 bytes go.
    pub fn new(text: String) -> Self
        ensures { result ≡ string_bytes text }
    {
        match short(text.as_str()) {
            Some(kept) => TableText { kept },
            None => TableText {
                kept: Kept::Long(text),
            },
        }
    }

    /// A copy of a text. Only one of more than 30 bytes takes memory.
    ///
    /// # Errors
    ///
    /// The allocator's, where memory for the text was refused.
    pub fn of(alloc: Global, text: &str) -> Result<Self, AllocError>
        ensures text { IfOk result (λ t. t ≡ text.now) }
        ensures free { length text.now ≤ 30 → IsOk result }
    {
        match short(text) {
            Some(kept) => Ok(TableText { kept }),
            None => Ok(TableText {
                kept: Kept::Long(String::from_str(alloc, text)?),
            }),
        }
    }

    /// The text.
    #[inline]
    pub fn as_str(&self) -> &str
        ensures { result.now ≡ self.now }
    {
        match &self.kept {
            Kept::Short(bytes, len) => unsafe { str::from_utf8_unchecked(&bytes[..*len as usize]) },
            Kept::Long(text) => text.as_str(),
        }
    }
}

// A text of at most 30 bytes as it is kept.
#[inline]
fn short(text: &str) -> Option<Kept>
    ensures kept { IfSome result (λ kept. (text_kept kept ≡ text.now) × IsKept kept) }
    ensures long { IfNone result (30 < length text.now) }
{
    let len = text.len();
    if len > 30 {
        return None;
    }
    let mut bytes = [0; 30];
    bytes[..len].copy_from_slice(text.as_bytes());
    Some(Kept::Short(bytes, len as u8))
}

impl fmt::Debug for TableText {
    fn fmt<W: fmt::Write>(&self, f: &mut fmt::Formatter<W>) -> fmt::Result {
        f.debug_tuple("TableText").field(&self.as_str()).finish()
    }
}

impl PartialEq for TableText {
    ghost eq = { pointwise nat_eq };

    ghost laws = { Prim.search (comparing, rules) };

    fn eq(&self, other: &Self) -> bool {
        self.as_str() == other.as_str()
    }
}

impl Eq for TableText {
    ghost laws = { Prim.search (comparing, rules) };
}

impl PartialOrd for TableText {
    ghost partial_cmp = { as_partial_cmp text_cmp };

    ghost laws = { partial_order_from_own_ties (Prim.search (comparing, rules)) texts_ties };

    fn partial_cmp(&self, other: &Self) -> Option<Ordering> {
        Some(self.cmp(other))
    }
}

impl Ord for TableText {
    ghost cmp = { text_cmp };

    ghost total = { Prim.search (comparing, rules) };

    ghost matches_partial_cmp = { Prim.search (comparing, rules) };

    ghost matches_eq = { texts_ties };

    fn cmp(&self, other: &Self) -> Ordering {
        self.as_str().cmp(other.as_str())
    }
}

impl<V> SortedMap<TableText, V> {
    /// The value at the key that a text is, found by binary search. It takes no memory.
    pub fn get_text(&self, text: &str) -> Option<&V>
        ensures { option_copied result ≡ value_at text_cmp self.now text.now }
    {
        let rows = self.as_slice();
        match search(rows, text) {
            Ok(at) => Some(&rows[at].1),
            Err(_) => None,
        }
    }
}

// Where a text is among rows, or where it would go.
fn search<V>(rows: &[(TableText, V)], text: &str) -> Result<usize, usize>
    requires { IsSortedMap text_cmp rows.now }
    ensures { MatchResult result (IsAt text_cmp rows.now text.now)
        (IsGapFor text_cmp rows.now text.now) }
{
    rows.binary_search_by(
        |row: &(TableText, V)| -> Ordering
            ensures { result ≡ text_cmp row.now.0 text.entry.now }
        { compared(row.0.as_str(), text) },
    )
}

// The order of two texts. Most of them differ in their first byte, which needs no call.
#[inline(always)]
fn compared(left: &str, right: &str) -> Ordering
    ensures { result ≡ text_cmp left.now right.now }
{
    match (left.as_bytes().first(), right.as_bytes().first()) {
        (Some(first), Some(other)) if first != other => first.cmp(other),
        _ => left.cmp(right),
    }
}
