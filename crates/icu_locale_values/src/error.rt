//! Why a locale identifier has no whole canonical form.
ghost use Rattle.std.specs.Prelude.{◌≡◌, Some};
ghost use Rattle.icu_locale_values.specs.Refusals.{whole_error_name};

use icu_locale_core::{Key, LanguageIdentifier, Value};
use icu_locale_extensions::{FieldKey, Subtags};
use std::error::Error;
use std::fmt;

/// Why a locale identifier is not brought to its whole canonical form. It is unchanged then.
#[derive(Debug, Drop)]
pub enum WholeError {
    /// Memory was asked for and refused.
    Memory,
    /// The rules come to no end: the identifier comes again, and is the first that does.
    NoFixedPoint(LanguageIdentifier),
    /// The rows of subdivisions come to no end: the value comes again, and is the first that does.
    NoSubdivisionFixedPoint(Value),
    /// The aliases at the key of a keyword come to no end: the value comes again, and is the first that does.
    NoValueFixedPoint(Key, Value),
    /// The aliases at the key of a field come to no end: the value comes again, and is the first that does.
    NoFieldFixedPoint(FieldKey, Subtags<3>),
}

impl fmt::Display for WholeError {
    ghost output = { λ e. Some (whole_error_name e) };

    fn fmt<W: fmt::Write>(&self, f: &mut fmt::Formatter<W>) -> fmt::Result {
        f.write_str(match self {
            WholeError::Memory => "Memory",
            WholeError::NoFixedPoint(_) => "NoFixedPoint",
            WholeError::NoSubdivisionFixedPoint(_) => "NoSubdivisionFixedPoint",
            WholeError::NoValueFixedPoint(_, _) => "NoValueFixedPoint",
            WholeError::NoFieldFixedPoint(_, _) => "NoFieldFixedPoint",
        })
    }
}

impl Error for WholeError {}
