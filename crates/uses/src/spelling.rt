//! Validating a spelling.
ghost use Rattle.std.specs.Prelude.{◌≡◌, ◌↔◌, false, IsTrue, IsOk, IfOk};
ghost use Rattle.icu_locale_core.specs.Identifier.{IsIdentifier, Spells, has_variant};
ghost use Rattle.icu_locale_core.specs.declared.langid.LanguageIdentifier.{LanguageIdentifier};

use icu_locale_core::{LanguageIdentifier, ParseError};
use std::alloc::{AllocError, Global};

/// Whether a text spells an identifier, in any case and with its variants in any order.
///
/// # Errors
///
/// Memory that was refused, only for a text that has a variant.
pub fn is_spelling(alloc: Global, text: &str) -> Result<bool, AllocError>
    ensures told { IfOk result (λ told. IsTrue told
        ↔ ((x : LanguageIdentifier) × IsIdentifier x × Spells text.now x)) }
    ensures free { has_variant text.now ≡ false → IsOk result }
{
    let refusal = match LanguageIdentifier::try_from_str(alloc, text) {
        Ok(_) => return Ok(true),
        Err(refusal) => refusal,
    };
    if refusal == ParseError::Memory {
        return Err(AllocError);
    }
    Ok(false)
}
