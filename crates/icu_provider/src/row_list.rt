//! A list of rows in the order in which they were pushed.
ghost use Rattle.std.specs.Prelude.{◌≡◌, [], List};
ghost use Rattle.icu_provider.specs.SortedMaps.{Pushes};

use crate::DataError;
use std::alloc::Global;
use std::marker::Model;

/// Rows in the order in which they were pushed. A contract sees the list of them. Only `push` takes memory.
#[derive(Debug, Drop)]
pub struct RowList<T> {
    rows: Vec<T>,
}

impl<T> Model for RowList<T> {
    ghost Value = { List T };

    ghost view = { λ a. a.rows.items };
}

impl<T> RowList<T> {
    /// A list without rows.
    pub fn new(alloc: Global) -> Self
        ensures { result ≡ [] }
    {
        RowList {
            rows: Vec::new(alloc),
        }
    }

    /// The rows of a list, in its order.
    pub fn from_vec(rows: Vec<T>) -> Self
        ensures { result ≡ rows.items }
    {
        RowList { rows }
    }

    /// Appends a row to the others.
    ///
    /// # Errors
    ///
    /// `Memory`, only where memory for the row was refused: the list is unchanged then, and the row is dropped.
    pub fn push(&mut self, row: T) -> Result<(), DataError>
    where
        T: Drop,
        ensures { Pushes self.old self.new row result }
    {
        Ok(self.rows.push(row)?)
    }

    /// The rows in order.
    pub fn as_slice(&self) -> &[T]
        ensures { result.now ≡ self.now }
    {
        &self.rows
    }
}
