//! What keywords and fields share: their keys and their values.
ghost use Rattle.std.specs.Prelude.{◌≡◌, Bool, true, false, IfOk, IfErr};
ghost use Rattle.std.specs.declared.cmp.Ordering.TheVariants.{Equal};
ghost use Rattle.icu_locale_core.specs.declared.parse_error.ParseError.TheVariants.{Memory};
ghost use Rattle.icu_locale_core.specs.laws.Identifiers.{values_decide};
ghost use Rattle.icu_locale_core.specs.laws.TextSets.{text_same};
ghost use Rattle.icu_locale_values.specs.Aliases.{is_ruled};

use icu_locale_core::{Key, ParseError, Value};
use icu_locale_extensions::{FieldKey, Subtags};

/// A key at which there are values.
pub(crate) trait AliasKey: Ord + Copy + Drop {
    /// The rules speak at the key, and no row is asked.
    ghost ruled: { Self → Bool };

    /// Whether the rules speak at the key.
    fn is_ruled(&self) -> bool
        ensures { result ≡ ruled self.now };

    /// Keys that tie are the same.
    ghost key_exact: { (x y : Self) → Self.cmp x y ≡ Equal → x ≡ y };
}

/// A value that may have an alias.
pub(crate) trait AliasValue: Ord + Drop {
    /// An equal value, or `Memory` where it could not be copied.
    fn copied(&self) -> Result<Self, ParseError>
        ensures same { IfOk result (λ v. v ≡ self.now) }
        ensures refused { IfErr result (λ e. e ≡ Memory) };

    /// Equal values are the same.
    ghost value_exact: { (v w : Self) → Self.eq v w ≡ true → v ≡ w };
}

impl AliasKey for Key {
    ghost ruled = { is_ruled };

    fn is_ruled(&self) -> bool {
        *self == Key::REGION_OVERRIDE || *self == Key::SUBDIVISION
    }

    ghost key_exact = { text_same };
}

impl AliasKey for FieldKey {
    ghost ruled = { λ _. false };

    fn is_ruled(&self) -> bool {
        false
    }

    ghost key_exact = { text_same };
}

impl AliasValue for Value {
    fn copied(&self) -> Result<Self, ParseError> {
        self.try_clone()
    }

    ghost value_exact = { λ v w e. (values_decide v w).0 e };
}

impl AliasValue for Subtags<3> {
    fn copied(&self) -> Result<Self, ParseError> {
        self.try_clone()
    }

    ghost value_exact = { λ v w e. (values_decide v w).0 e };
}
