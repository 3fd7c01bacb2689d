//! A provider that holds its data in memory, and reads it from JSON.
#![tactic(auto)]

mod error;
mod from_json;
mod kinds;
pub mod laws;
mod lent_names;
mod locale_names;
mod locale_tables;
mod name_rows;
mod named_keys;
mod supplement;
mod tables;
mod to_flat;

pub use error::TableError;
pub use locale_names::LocaleNames;
pub use locale_tables::LocaleTables;
pub use name_rows::NameRows;
pub use supplement::Supplement;
pub use tables::Tables;
