//! The fields of the transform extension.
ghost use Rattle.std.specs.Prelude.{◌≡◌, is_some, IfSome, List, ℕ, Some};
ghost use Rattle.icu_locale_core.specs.Subtag.{lowercase};
ghost use Rattle.icu_locale_extensions.specs.Extensions.{is_tkey, IsTkey, IsField};

use crate::texts::Subtags;
use icu_locale_core::{RowKey, RowMap};
use std::fmt;
use std::marker::Model;

/// The key of a field: a letter and a digit, in lower case (tkey of UTS #35, section 3.7.1).
#[derive(Clone, Copy, PartialEq, Eq, PartialOrd, Ord)]
pub struct FieldKey([u8; 2]);

impl Model for FieldKey {
    ghost Value = { List ℕ };

    ghost view = { λ a. a.0 };

    ghost invariant = { λ a. IsTkey a.0 };

    ghost inverse = { λ t. record { 0 = t } };
}

impl FieldKey {
    /// Reads a key in any case, if the text is one.
    pub fn try_from_bytes(text: &[u8]) -> Option<Self>
        ensures read { IfSome result (λ x. x ≡ lowercase text.now) }
        ensures accepted { is_some result ≡ is_tkey text.now }
    {
        match text {
            [first, second] if first.is_ascii_alphabetic() && second.is_ascii_digit() => {
                Some(FieldKey([first.to_ascii_lowercase(), *second]))
            }
            _ => None,
        }
    }

    /// The text in lower case.
    pub fn as_str(&self) -> &str
        ensures text { result.now ≡ self.now }
        ensures known { IsTkey self.now }
    {
        unsafe { str::from_utf8_unchecked(&self.0) }
    }
}

impl fmt::Display for FieldKey {
    ghost output = { λ x. Some x };

    fn fmt<W: fmt::Write>(&self, f: &mut fmt::Formatter<W>) -> fmt::Result {
        f.write_str(self.as_str())
    }
}

impl fmt::Debug for FieldKey {
    fn fmt<W: fmt::Write>(&self, f: &mut fmt::Formatter<W>) -> fmt::Result {
        f.write_str(self.as_str())
    }
}

/// The fields of the transform extension (tfield of UTS #35, section 3.7.1): a finite map from keys to pieces.
///
/// A contract sees the rows of the map, a key and its pieces each, the keys rising. Only `add`, `set` and
/// `try_clone` take memory.
pub type Fields = RowMap<FieldKey, Subtags<3>>;

impl RowKey<Subtags<3>> for FieldKey {
    ghost IsRow = { IsField };

    ghost text = { λ key. key };

    fn name(&self) -> &str {
        self.as_str()
    }

    fn known_with(&self, value: &Subtags<3>) {
        let _ = self.as_str();
        let _ = value.as_str();
    }

    ghost replaced = { λ k l v w first second. record { key = first.key; value = second.value } };
}
