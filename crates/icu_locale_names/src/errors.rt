//! The report that a raw subtag was written, and why a name is not written.
ghost use Rattle.std.specs.Prelude.{Some, codes};

use std::alloc::{AllocError, AllocFailed};
use std::{fmt, io};
use thiserror::Error;

/// A raw subtag is in the text of a name, since the provider has no name for it: `Display` writes the type's name.
#[derive(Clone, Copy, Debug, PartialEq, Eq, Default)]
pub struct LanguageIdentifierNameFallbackError;

impl fmt::Display for LanguageIdentifierNameFallbackError {
    ghost output = { λ _. Some (codes "LanguageIdentifierNameFallbackError") };

    fn fmt<W: fmt::Write>(&self, f: &mut fmt::Formatter<W>) -> fmt::Result {
        f.write_str("LanguageIdentifierNameFallbackError")
    }
}

impl std::error::Error for LanguageIdentifierNameFallbackError {}

/// Why a name is not written: `Display` writes the name of the refusal. The list of spans is unchanged after each.
#[derive(Clone, Copy, Debug, PartialEq, Eq, Error)]
pub enum NameWriteError {
    /// Memory for the spans, or for the text, was asked for and refused. Nothing was written.
    #[error("Memory")]
    Memory = 1,
    /// A write failed or took no byte. A beginning of the text was written, and not the whole.
    #[error("Sink")]
    Sink = 2,
    /// The text is longer than `usize::MAX` bytes. Nothing was written.
    #[error("TooLong")]
    TooLong = 3,
}

impl From<AllocError> for NameWriteError {
    ghost use Rattle.icu_locale_names.specs.declared.errors.NameWriteError.TheVariants.{Memory};
    ghost use Rattle.std.specs.Prelude.{◌≡◌};

    ghost from_gives = { λ _ e. e ≡ Memory };

    fn from(_refused: AllocError) -> Self {
        NameWriteError::Memory
    }
}

impl<T: Drop> From<AllocFailed<T>> for NameWriteError {
    ghost use Rattle.icu_locale_names.specs.declared.errors.NameWriteError.TheVariants.{Memory};
    ghost use Rattle.std.specs.Prelude.{◌≡◌};

    ghost from_gives = { λ _ e. e ≡ Memory };

    fn from(_refused: AllocFailed<T>) -> Self {
        NameWriteError::Memory
    }
}

impl From<io::Error> for NameWriteError {
    ghost use Rattle.icu_locale_names.specs.declared.errors.NameWriteError.TheVariants.{Sink};
    ghost use Rattle.std.specs.Prelude.{◌≡◌};

    ghost from_gives = { λ _ e. e ≡ Sink };

    fn from(_failed: io::Error) -> Self {
        NameWriteError::Sink
    }
}
