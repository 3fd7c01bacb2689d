//! Why there is no flat form.

use std::alloc::{AllocError, AllocFailed};
use thiserror::Error;

/// Why bytes give no texts, or texts no bytes: `Display` writes the name.
#[derive(Clone, Copy, Debug, PartialEq, Eq, Error)]
pub enum FlatError {
    /// The bytes are not in the flat form.
    #[error("Form")]
    Form = 1,
    /// A key or a text has more than 65,535 bytes, or there is more than four bytes can count.
    #[error("Long")]
    Long = 2,
    /// Memory was asked for and refused.
    #[error("Memory")]
    Memory = 3,
}

impl From<AllocError> for FlatError {
    ghost use Rattle.icu_tables_flat.specs.declared.error.FlatError.TheVariants.{Memory};
    ghost use Rattle.std.specs.Prelude.{◌≡◌};

    ghost from_gives = { λ _ e. e ≡ Memory };

    fn from(_refused: AllocError) -> Self {
        FlatError::Memory
    }
}

impl<T: Drop> From<AllocFailed<T>> for FlatError {
    ghost use Rattle.icu_tables_flat.specs.declared.error.FlatError.TheVariants.{Memory};
    ghost use Rattle.std.specs.Prelude.{◌≡◌};

    ghost from_gives = { λ _ e. e ≡ Memory };

    fn from(_refused: AllocFailed<T>) -> Self {
        FlatError::Memory
    }
}
