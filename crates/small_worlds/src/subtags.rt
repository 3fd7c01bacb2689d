//! The subtags of the worlds.
use crate::fault::Fault;
use icu_locale_core::{Language, Region, Script, Subtag, Variant};

/// Three of each kind, the unknown ones first.
#[derive(Drop)]
pub struct Subtags {
    /// One that is not known, one of two letters, and the language of sign languages.
    pub languages: [Language; 3],
    /// One that is not known, and two that are.
    pub scripts: [Script; 3],
    /// One that is not known, one of letters and one of digits.
    pub regions: [Region; 3],
    /// Three variants, rising.
    pub variants: [Variant; 3],
    /// Three subdivisions.
    pub subdivisions: [Subtag; 3],
}

impl Subtags {
    /// The subtags of all worlds.
    pub fn new() -> Result<Subtags, Fault> {
        Ok(Subtags {
            languages: [
                Language::UNKNOWN,
                Language::try_from_str("aa")?,
                Language::try_from_str("sgn")?,
            ],
            scripts: [
                Script::try_from_str("Zzzz")?,
                Script::try_from_str("Latn")?,
                Script::try_from_str("Grek")?,
            ],
            regions: [
                Region::try_from_str("ZZ")?,
                Region::try_from_str("GR")?,
                Region::try_from_str("150")?,
            ],
            variants: [
                Variant::try_from_str("1996")?,
                Variant::try_from_str("fonipa")?,
                Variant::try_from_str("posix")?,
            ],
            subdivisions: [
                Subtag::try_from_str("aaa")?,
                Subtag::try_from_str("bbb")?,
                Subtag::try_from_str("ccc")?,
            ],
        })
    }
}
