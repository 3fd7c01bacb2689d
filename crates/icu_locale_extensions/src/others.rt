//! Extensions that have no meaning here.
ghost use Rattle.std.specs.Prelude.{◌≡◌, codes, ◌∷◌, [], is_some, IfSome, Some, List, ℕ};
ghost use Rattle.std.specs.Ordering.{is_lt};
ghost use Rattle.icu_locale_core.specs.Subtag.{lowercase};
ghost use Rattle.icu_locale_core.specs.TextSet.{text_cmp};
ghost use Rattle.icu_locale_extensions.specs.Extensions.{is_other_singleton, IsOtherSingleton, IsOther};

use crate::texts::Subtags;
use icu_locale_core::{RowKey, RowMap};
use std::fmt;
use std::marker::Model;

/// The singleton of an extension that has no meaning here: a letter or digit other than `t`, `u` and `x`, in lower case.
#[derive(Clone, Copy, PartialEq, Eq, PartialOrd, Ord)]
pub struct Singleton([u8; 1]);

impl Model for Singleton {
    ghost Value = { List ℕ };

    ghost view = { λ a. a.0 };

    ghost invariant = { λ a. IsOtherSingleton a.0 };

    ghost inverse = { λ t. record { 0 = t } };
}

impl Singleton {
    /// Reads a singleton in any case, if the text is one.
    pub fn try_from_bytes(text: &[u8]) -> Option<Self>
        ensures read { IfSome result (λ x. x ≡ lowercase text.now) }
        ensures accepted { is_some result ≡ is_other_singleton text.now }
    {
        match text {
            [only] if is_other(*only) => Some(Singleton([only.to_ascii_lowercase()])),
            _ => None,
        }
    }

    /// The text in lower case.
    pub fn as_str(&self) -> &str
        ensures text { result.now ≡ self.now }
        ensures known { IsOtherSingleton self.now }
    {
        unsafe { str::from_utf8_unchecked(&self.0) }
    }

    // Whether its extension is written before `t`.
    pub(crate) fn is_below_t(&self) -> bool
        ensures { result ≡ is_lt (text_cmp self.now (codes "t")) }
    {
        self.0[0] < b't'
    }
}

// Whether a character is a letter or digit other than `t`, `u` and `x`.
fn is_other(byte: u8) -> bool
    ensures { result ≡ is_other_singleton (byte ∷ []) }
{
    match byte.to_ascii_lowercase() {
        b't' | b'u' | b'x' => false,
        lower => lower.is_ascii_alphanumeric(),
    }
}

impl fmt::Display for Singleton {
    ghost output = { λ x. Some x };

    fn fmt<W: fmt::Write>(&self, f: &mut fmt::Formatter<W>) -> fmt::Result {
        f.write_str(self.as_str())
    }
}

impl fmt::Debug for Singleton {
    fn fmt<W: fmt::Write>(&self, f: &mut fmt::Formatter<W>) -> fmt::Result {
        f.write_str(self.as_str())
    }
}

/// Extensions that have no meaning here (other_extensions of UTS #35, section 3.2): a finite map from singletons to
/// pieces.
///
/// A contract sees the rows of the map, a singleton and its pieces each, the singletons rising. Only `add`, `set` and
/// `try_clone` take memory.
pub type Others = RowMap<Singleton, Subtags<2>>;

impl RowKey<Subtags<2>> for Singleton {
    ghost IsRow = { IsOther };

    ghost text = { λ key. key };

    fn name(&self) -> &str {
        self.as_str()
    }

    fn known_with(&self, value: &Subtags<2>) {
        let _ = self.as_str();
        let _ = value.as_str();
    }

    ghost replaced = { λ k l v w first second. record {
      singleton = first.singleton;
      pieces = second.pieces;
    } };
}
