//! Whether a text is a unicode_locale_id.
ghost use Rattle.std.specs.Prelude.{◌≡◌, ◌↔◌, false, IsTrue, IsOk, IfOk};
ghost use Rattle.icu_locale_extensions.specs.Grammar.{Spells};
ghost use Rattle.icu_locale_extensions.specs.Syntaxes.{takes_memory};
ghost use Rattle.icu_locale_extensions.specs.declared.identifier.LocaleIdentifier.{LocaleIdentifier};

use crate::LocaleIdentifier;
use icu_locale_core::ParseError;
use std::alloc::{AllocError, Global};

/// Whether the grammar of UTS #35 derives a text, by a call of the reader.
///
/// # Errors
///
/// Memory that was refused, only for a text with a variant, an extension or private use.
pub fn is_locale_id(alloc: Global, text: &str) -> Result<bool, AllocError>
    ensures told { IfOk result
        (λ told. IsTrue told ↔ ((x : LocaleIdentifier) × Spells text.now x)) }
    ensures free { takes_memory text.now ≡ false → IsOk result }
{
    match LocaleIdentifier::try_from_str(alloc, text) {
        Ok(_) => Ok(true),
        Err(ParseError::Memory) => Err(AllocError),
        Err(ParseError::InvalidLanguage) => Ok(false),
        Err(ParseError::InvalidSubtag) => Ok(false),
    }
}
