//! Comparing texts with extensions.
ghost use Rattle.std.specs.Prelude.{◌≡◌, ◌↔◌, IsTrue, IfOk};
ghost use Rattle.icu_locale_extensions.specs.Locales.{IsLocaleIdentifier};
ghost use Rattle.icu_locale_extensions.specs.Grammar.{Spells};
ghost use Rattle.icu_locale_extensions.specs.declared.identifier.LocaleIdentifier.{LocaleIdentifier};

use icu_locale_core::ParseError;
use icu_locale_extensions::{LocaleIdentifier, laws};
use std::alloc::Global;

/// Whether two texts spell the same locale identifier, in any case and with their extensions in any order.
///
/// # Errors
///
/// Why the first of them that spells none is refused, or `Memory`.
pub fn are_same_locale(alloc: Global, first: &str, second: &str) -> Result<bool, ParseError>
    ensures { IfOk result (λ same. IsTrue same ↔ ((x : LocaleIdentifier) × IsLocaleIdentifier x
        × Spells first.now x × Spells second.now x)) }
{
    laws::equality_is_told();
    laws::spelled_once();
    let x = LocaleIdentifier::try_from_str(alloc, first)?;
    let y = LocaleIdentifier::try_from_str(alloc, second)?;
    Ok(x == y)
}
