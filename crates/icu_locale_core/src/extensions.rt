//! The extensions of a locale.

use crate::{Keywords, LanguageIdentifier};

/// The extensions of a locale (UTS #35, section 3).
#[derive(PartialEq, Eq, Debug, Drop)]
pub struct Extensions {
    /// The Unicode extension (unicode_locale_extensions).
    pub unicode: Unicode,
    /// The transform extension (transformed_extensions).
    pub transform: Transform,
}

/// The Unicode extension of a locale (UTS #35, section 3.6).
#[derive(PartialEq, Eq, Debug, Drop)]
pub struct Unicode {
    /// The keywords.
    pub keywords: Keywords,
}

/// The transform extension of a locale (UTS #35, section 3.7).
#[derive(PartialEq, Eq, Debug, Drop)]
pub struct Transform {
    /// The language that was transformed, if any.
    pub lang: Option<LanguageIdentifier>,
}
