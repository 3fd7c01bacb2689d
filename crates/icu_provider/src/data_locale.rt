//! The locale that data is asked for.

use icu_locale_core::{Language, Region, Script};

/// A language, a script if any and a region if any: what a request for data says of its locale.
#[derive(Clone, Copy, Debug, PartialEq, Eq, PartialOrd, Ord)]
pub struct DataLocale {
    /// The language, `und` where it is not known.
    pub language: Language,
    /// The script, if any.
    pub script: Option<Script>,
    /// The region, if any.
    pub region: Option<Region>,
}
