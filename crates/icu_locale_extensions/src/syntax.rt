//! The syntaxes in which texts of the world name a locale.
ghost use Rattle.icu_locale_extensions.specs.Syntaxes.{ReadsBy};

use crate::identifier::LocaleIdentifier;
use icu_locale_core::ParseError;
use std::alloc::Global;

/// How a text names a locale.
#[derive(Clone, Copy, Debug, PartialEq, Eq)]
pub enum Syntax {
    /// The strict grammar: unicode_locale_id of UTS #35 Part 1, section 3.2.
    Unicode,
    /// A tag of BCP 47 (RFC 5646), legacy tags, extended languages and private use alone among them.
    Bcp47,
    /// A name of a POSIX locale (POSIX.1 Base Definitions, section 8.2): `language[_territory][.codeset][@modifier]`.
    Posix,
}

impl LocaleIdentifier {
    /// Reads a locale identifier in one of the syntaxes, as `try_from_utf8`, `try_from_bcp47` and `try_from_posix` do.
    /// It takes the memory that they take, and no more.
    ///
    /// # Errors
    ///
    /// Those of the reader of that syntax.
    #[inline(always)]
    pub fn read(alloc: Global, syntax: Syntax, text: &[u8]) -> Result<Self, ParseError>
        ensures { ReadsBy syntax text.now result }
    {
        match syntax {
            Syntax::Unicode => LocaleIdentifier::try_from_utf8(alloc, text),
            Syntax::Bcp47 => LocaleIdentifier::try_from_bcp47(alloc, text),
            Syntax::Posix => LocaleIdentifier::try_from_posix(alloc, text),
        }
    }
}
