//! Why a text is refused.
ghost use Rattle.std.specs.Prelude.{◌≡◌, Some};
ghost use Rattle.icu_locale_core.specs.Identifier.{parse_error_name};
ghost use Rattle.icu_locale_core.specs.declared.parse_error.ParseError.TheVariants.{Memory};

use std::alloc::{AllocError, AllocFailed};
use std::error::Error;
use std::fmt;

/// Why a text is no subtag, identifier or value, or why a copy was not made.
#[derive(Clone, Copy, Debug, PartialEq, Eq)]
pub enum ParseError {
    /// The first piece of the text is no language.
    InvalidLanguage = 1,
    /// A later piece, or the text as a whole, is not what is read here.
    InvalidSubtag = 2,
    /// Memory was asked for and refused.
    Memory = 3,
}

impl fmt::Display for ParseError {
    ghost output = { λ e. Some (parse_error_name e) };

    fn fmt<W: fmt::Write>(&self, f: &mut fmt::Formatter<W>) -> fmt::Result {
        f.write_str(match self {
            ParseError::InvalidLanguage => "InvalidLanguage",
            ParseError::InvalidSubtag => "InvalidSubtag",
            ParseError::Memory => "Memory",
        })
    }
}

impl Error for ParseError {}

impl From<AllocError> for ParseError {
    ghost from_gives = { λ _ e. e ≡ Memory };

    fn from(_refused: AllocError) -> Self {
        ParseError::Memory
    }
}

impl<T: Drop> From<AllocFailed<T>> for ParseError {
    ghost from_gives = { λ _ e. e ≡ Memory };

    fn from(_refused: AllocFailed<T>) -> Self {
        ParseError::Memory
    }
}
