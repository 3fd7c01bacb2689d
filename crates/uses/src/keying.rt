//! The key of a store: the whole canonical form of a locale identifier.
ghost use Rattle.std.specs.Prelude.{IfOk, IfErr, string_bytes};
ghost use Rattle.icu_locale_values.specs.Refusals.{IsWholeRefusal};
ghost use Rattle.icu_locale_values.specs.Whole.{whole_rules};
ghost use Rattle.uses.specs.Keying.{IsWholeKey};

use icu_locale_extensions::LocaleIdentifier;
use icu_locale_values::{WholeCanonicalizer, WholeError};
use std::alloc::Global;

/// The key of a locale identifier in a store: its whole canonical form as it is written.
///
/// # Errors
///
/// The refusal of the canonicalizer, or `Memory`.
pub fn whole_key(
    alloc: Global,
    canonicalizer: &WholeCanonicalizer<'_>,
    mut locale: LocaleIdentifier,
) -> Result<String, WholeError>
    ensures key { IfOk result (λ key.
        IsWholeKey (whole_rules canonicalizer.now) locale (string_bytes key)) }
    ensures refused { IfErr result (IsWholeRefusal (whole_rules canonicalizer.now) locale) }
{
    canonicalizer.canonicalize(&mut locale)?;
    locale.known();
    match locale.to_string(alloc) {
        Ok(key) => Ok(key),
        Err(_) => Err(WholeError::Memory),
    }
}
