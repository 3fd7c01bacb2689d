//! Why data is not given, or a row is not taken.
ghost use Rattle.std.specs.Prelude.{◌≡◌, Some};
ghost use Rattle.icu_provider.specs.Provider.{kind_name};
ghost use Rattle.icu_provider.specs.declared.error.DataErrorKind.TheVariants.{Memory};

use std::alloc::{AllocError, AllocFailed};
use std::error::Error;
use std::fmt;

/// The kinds of refusals of data.
#[derive(Clone, Copy, Debug, PartialEq, Eq)]
pub enum DataErrorKind {
    /// The provider has no data for this request.
    IdentifierNotFound = 1,
    /// The provider knows no requests of this marker.
    MarkerNotFound = 2,
    /// The request, or a list that was handed in, is not well formed.
    InvalidRequest = 3,
    /// The data is there and could not be read.
    Deserialize = 4,
    /// A cause that only the provider knows.
    Custom = 5,
    /// Memory was asked for and refused.
    Memory = 6,
}

/// Why data is not given, or a row is not taken: `Display` writes the name of its kind.
#[derive(Clone, Copy, Debug, PartialEq, Eq)]
pub struct DataError {
    /// The kind of the refusal.
    pub kind: DataErrorKind,
}

impl fmt::Display for DataError {
    ghost output = { λ e. Some (kind_name e.kind) };

    fn fmt<W: fmt::Write>(&self, f: &mut fmt::Formatter<W>) -> fmt::Result {
        f.write_str(match self.kind {
            DataErrorKind::IdentifierNotFound => "IdentifierNotFound",
            DataErrorKind::MarkerNotFound => "MarkerNotFound",
            DataErrorKind::InvalidRequest => "InvalidRequest",
            DataErrorKind::Deserialize => "Deserialize",
            DataErrorKind::Custom => "Custom",
            DataErrorKind::Memory => "Memory",
        })
    }
}

impl Error for DataError {}

impl From<AllocError> for DataError {
    ghost from_gives = { λ _ e. e.kind ≡ Memory };

    fn from(_refused: AllocError) -> Self {
        DataError {
            kind: DataErrorKind::Memory,
        }
    }
}

impl<T: Drop> From<AllocFailed<T>> for DataError {
    ghost from_gives = { λ _ e. e.kind ≡ Memory };

    fn from(_refused: AllocFailed<T>) -> Self {
        DataError {
            kind: DataErrorKind::Memory,
        }
    }
}
