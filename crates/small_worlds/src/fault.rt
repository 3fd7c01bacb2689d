//! Why the worlds are not compared to their end.
use icu_locale_core::ParseError;
use icu_provider::DataError;
use std::alloc::AllocError;
use std::io;
use thiserror::Error;

/// Why the worlds are not compared to their end.
#[derive(Debug, Drop, Error)]
pub enum Fault {
    /// The words say no number of worlds.
    #[error("usage: small_worlds [NUMBER]")]
    Usage,
    /// Memory was asked for and refused.
    #[error("memory was refused")]
    Memory(#[from(alloc)] AllocError),
    /// A call under comparison answered that memory was refused.
    #[error("a call answered `Memory`")]
    Starved,
    /// A run went on past the number of its identifiers.
    #[error("a run has no end")]
    Endless,
    /// A text of a world cannot be read.
    #[error("{0}")]
    Text(#[from] ParseError),
    /// A key of a world cannot be read.
    #[error("a key cannot be read")]
    Key,
    /// A table of a world cannot be made.
    #[error("{0}")]
    Data(#[from] DataError),
    /// The report could not be written.
    #[error("the report could not be written")]
    Stream(#[from] io::Error),
}

impl Fault {
    /// 2 where the words are wrong, else 1.
    pub fn status(&self) -> u8 {
        match self {
            Fault::Usage => 2,
            _ => 1,
        }
    }
}
