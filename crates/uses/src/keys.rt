//! Canonical keys for a store.
ghost use Rattle.std.specs.Prelude.{◌≡◌, ◌↔◌, IsTrue, IfOk, IfErr, string_bytes};
ghost use Rattle.icu_locale_core.specs.Identifier.{IsIdentifier, written};
ghost use Rattle.icu_locale_core.specs.declared.locale.Locale.{Locale};
ghost use Rattle.icu_locale.specs.Canonical.{IsCanonical};
ghost use Rattle.icu_locale.specs.LikelyTable.{likely};
ghost use Rattle.icu_locale.specs.Refusals.{IsRefusal};
ghost use Rattle.uses.specs.Keys.{IsRefusalOfEither};

use icu_locale::{CanonicalizeError, LocaleCanonicalizer, laws};
use icu_locale_core::{Locale, laws as texts};
use std::alloc::Global;

/// The key of a locale in a store: its canonical identifier as it is written.
///
/// # Errors
///
/// The refusal of the rules, or `Memory`.
pub fn store_key(
    alloc: Global,
    canonicalizer: &LocaleCanonicalizer<'_>,
    mut locale: Locale,
) -> Result<String, CanonicalizeError>
    ensures key { IfOk result (λ key. (canonical : Locale)
        × IsCanonical (likely canonicalizer.now.expander) canonicalizer.now.rules
        locale canonical
        × IsIdentifier canonical.id × (string_bytes key ≡ written canonical.id)) }
    ensures refused { IfErr result (IsRefusal (likely canonicalizer.now.expander)
        canonicalizer.now.rules locale) }
{
    canonicalizer.canonicalize(&mut locale)?;
    locale.id.known();
    match locale.id.to_string(alloc) {
        Ok(key) => Ok(key),
        Err(_) => Err(CanonicalizeError::Memory),
    }
}

/// Whether two locales have one key: exactly where their canonical identifiers are equal.
///
/// # Errors
///
/// The refusal of the rules of the first locale, or else of the second, or `Memory`.
pub fn have_one_key(
    alloc: Global,
    canonicalizer: &LocaleCanonicalizer<'_>,
    one: Locale,
    other: Locale,
) -> Result<bool, CanonicalizeError>
    ensures told { IfOk result (λ told. (x y : Locale)
        → IsCanonical (likely canonicalizer.now.expander) canonicalizer.now.rules one x
        → IsCanonical (likely canonicalizer.now.expander) canonicalizer.now.rules other y
        → IsTrue told ↔ (x.id ≡ y.id)) }
    ensures refused { IfErr result (IsRefusalOfEither (likely canonicalizer.now.expander)
        canonicalizer.now.rules one other) }
{
    texts::written_once();
    laws::runs_end_or_repeat();
    let one = store_key(alloc, canonicalizer, one)?;
    let other = store_key(alloc, canonicalizer, other)?;
    Ok(one == other)
}
