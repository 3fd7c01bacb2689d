//! Why the rows are not run to their end.
use icu_locale_core::ParseError;
use icu_provider::DataError;
use icu_tables::TableError;
use std::alloc::AllocError;
use std::io;
use thiserror::Error;

/// Why the rows are not run to their end.
#[derive(Debug, Drop, Error)]
pub enum Fault {
    /// Memory was asked for and refused.
    #[error("memory was refused")]
    Memory(#[from(alloc)] AllocError),
    /// The input could not be read, or the report not written.
    #[error("the rows could not be read, or the report not written")]
    Stream(#[from] io::Error),
    /// A text of a row that only sets a call up cannot be read.
    #[error("{0}")]
    Text(#[from] ParseError),
    /// A table of a row cannot be loaded.
    #[error("{0}")]
    Data(#[from] DataError),
    /// The tables of a row cannot be read.
    #[error("{0}")]
    Tables(#[from] TableError),
    /// A row is none.
    #[error("a row is none")]
    Row,
}
