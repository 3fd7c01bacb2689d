//! Why a chain was not given.
ghost use Rattle.std.specs.Prelude.{◌≡◌, Some};
ghost use Rattle.icu_locale_fallback.specs.Chains.{fallback_error_name};
ghost use Rattle.icu_locale_fallback.specs.declared.errors.FallbackError.TheVariants.{Memory};

use icu_locale_core::ParseError;
use icu_provider::DataLocale;
use std::alloc::{AllocError, AllocFailed};
use std::error::Error;
use std::fmt;

/// Why a chain was not given.
#[derive(Clone, Copy, Debug, PartialEq, Eq)]
pub enum FallbackError {
    /// Memory was asked for and refused.
    Memory,
    /// The chain has no end, and this is the first of its locales that comes again: of an identifier's chain too, since its
    /// variants go first.
    Circle(DataLocale),
}

impl fmt::Display for FallbackError {
    ghost output = { λ e. Some (fallback_error_name e) };

    fn fmt<W: fmt::Write>(&self, f: &mut fmt::Formatter<W>) -> fmt::Result {
        f.write_str(match self {
            FallbackError::Memory => "Memory",
            FallbackError::Circle(_) => "Circle",
        })
    }
}

impl Error for FallbackError {}

impl From<AllocError> for FallbackError {
    ghost from_gives = { λ _ e. e ≡ Memory };

    fn from(_refused: AllocError) -> Self {
        FallbackError::Memory
    }
}

impl<T: Drop> From<AllocFailed<T>> for FallbackError {
    ghost from_gives = { λ _ e. e ≡ Memory };

    fn from(_refused: AllocFailed<T>) -> Self {
        FallbackError::Memory
    }
}

impl From<ParseError> for FallbackError {
    ghost from_gives = { λ _ e. e ≡ Memory };

    fn from(_refused: ParseError) -> Self {
        FallbackError::Memory
    }
}
