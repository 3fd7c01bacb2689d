//! Why a text gives no tables.

use std::alloc::{AllocError, AllocFailed};
use thiserror::Error;

/// Why a text gives no tables: `Display` writes the name.
#[derive(Clone, Copy, Debug, PartialEq, Eq, Error)]
pub enum TableError {
    /// The text is no JSON value.
    #[error("Json")]
    Json = 1,
    /// The JSON value has not the shape of a file of tables.
    #[error("Shape")]
    Shape = 2,
    /// Memory was asked for and refused.
    #[error("Memory")]
    Memory = 3,
}

impl From<AllocError> for TableError {
    ghost use Rattle.icu_tables.specs.declared.error.TableError.TheVariants.{Memory};
    ghost use Rattle.std.specs.Prelude.{◌≡◌};

    ghost from_gives = { λ _ e. e ≡ Memory };

    fn from(_refused: AllocError) -> Self {
        TableError::Memory
    }
}

impl<T: Drop> From<AllocFailed<T>> for TableError {
    ghost use Rattle.icu_tables.specs.declared.error.TableError.TheVariants.{Memory};
    ghost use Rattle.std.specs.Prelude.{◌≡◌};

    ghost from_gives = { λ _ e. e ≡ Memory };

    fn from(_refused: AllocFailed<T>) -> Self {
        TableError::Memory
    }
}
