//! Why a run ends before its last line.
ghost use Rattle.std.specs.Prelude.{◌≡◌, Some};
ghost use Rattle.icu_locale_lines.specs.Refusals.{error_words, table_error_name};
ghost use Rattle.icu_locale_lines.specs.declared.error.CliError.TheVariants.{Data, Memory};

use icu_locale_core::ParseError;
use icu_provider::DataError;
use icu_tables::TableError;
use std::alloc::AllocError;
use std::error::Error;
use std::fmt;

/// Why a run ends early. The program writes it on standard error and ends with the status 2.
#[derive(Clone, Copy, Debug, PartialEq, Eq)]
pub enum CliError {
    /// The words are no command.
    Usage,
    /// The first line gives no tables. Nothing was written.
    Tables(TableError),
    /// A table that the command needs cannot be loaded. Nothing was written.
    Data(DataError),
    /// A read failed, or the input did not end. A run has written nothing; a stream has answered each line that had come
    /// whole.
    Read,
    /// A write failed, or took no byte. The earlier lines were written, and a beginning of the one in hand.
    Write,
    /// Memory was asked for and refused. The answers to all lines before the one that found none were written.
    Memory,
    /// The line that lists the available identifiers has a fault. Nothing was written.
    Available(ParseError),
    /// The likely tables that `negotiate` needs are not settled. Nothing was written.
    NotSettled,
    /// The second line gives no supplement of the tables. Nothing was written.
    Supplement(TableError),
}

impl fmt::Display for CliError {
    ghost output = { λ e. Some (error_words e) };

    fn fmt<W: fmt::Write>(&self, f: &mut fmt::Formatter<W>) -> fmt::Result {
        match self {
            CliError::Usage => f.write_str("usage: icu_locale_cli COMMAND [json]"),
            CliError::Tables(refusal) => {
                f.write_str("tables: ")?;
                f.write_str(table_error_name(*refusal))
            }
            CliError::Supplement(refusal) => {
                f.write_str("supplement: ")?;
                f.write_str(table_error_name(*refusal))
            }
            CliError::Data(refusal) => {
                f.write_str("data: ")?;
                fmt::Display::fmt(refusal, f)
            }
            CliError::Read => f.write_str("read failed"),
            CliError::Write => f.write_str("write failed"),
            CliError::Memory => f.write_str("no memory"),
            CliError::Available(refusal) => {
                f.write_str("available: ")?;
                fmt::Display::fmt(refusal, f)
            }
            CliError::NotSettled => f.write_str("tables not settled"),
        }
    }
}

impl Error for CliError {}

impl From<DataError> for CliError {
    ghost from_gives = { λ refusal e. e ≡ Data refusal };

    fn from(refusal: DataError) -> Self {
        CliError::Data(refusal)
    }
}

impl From<AllocError> for CliError {
    ghost from_gives = { λ _ e. e ≡ Memory };

    fn from(_refused: AllocError) -> Self {
        CliError::Memory
    }
}

fn table_error_name(refusal: TableError) -> &'static str
    ensures { result.now ≡ table_error_name refusal }
{
    match refusal {
        TableError::Json => "Json",
        TableError::Shape => "Shape",
        TableError::Memory => "Memory",
    }
}
