//! Locale identifiers: subtags, identifiers, keywords and locales of UTS #35 Part 1.
#![tactic(auto)]

mod classes;
mod extensions;
mod keywords;
mod langid;
pub mod laws;
mod locale;
mod numbered;
mod parse_error;
mod pieces;
mod reader;
mod row_map;
mod sink;
mod sorted_rows;
mod subtags;
mod text_sink;
mod tiny;
mod value;
mod variants;

pub use extensions::{Extensions, Transform, Unicode};
pub use keywords::Keywords;
pub use langid::LanguageIdentifier;
pub use locale::Locale;
pub use numbered::Numbered;
pub use parse_error::ParseError;
pub use pieces::{Pieces, cut};
pub use row_map::{RowKey, RowMap, RowValue, write_row};
pub use sink::write_whole;
pub use sorted_rows::{Rows, SortedRows};
pub use subtags::{Key, Language, Region, Script, Subtag, Variant};
pub use text_sink::{TextSink, write_after_dash};
pub use value::Value;
pub use variants::{Variants, VariantsIter};
