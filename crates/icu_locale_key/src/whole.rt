//! Keys of locale identifiers, extensions kept.
ghost use Rattle.std.specs.Prelude.{◌≡◌, ◌≢◌, ◌↔◌, ◌⊎◌, IsTrue, IsOk, OnSome, IfSome, OnOk, OnErr, IfOk, IfErr, None};
ghost use Rattle.icu_locale.specs.declared.expander.TransformResult.TheVariants.{Modified};
ghost use Rattle.icu_locale_core.specs.declared.langid.LanguageIdentifier.{LanguageIdentifier};
ghost use Rattle.icu_locale_extensions.specs.Built.{bare};
ghost use Rattle.icu_locale_extensions.specs.declared.identifier.LocaleIdentifier.{LocaleIdentifier};
ghost use Rattle.icu_locale_key.specs.Whole.{IsWholeKey, IsWholeKeyRefusal};
ghost use Rattle.icu_locale_key.specs.inner.AtOnce.{HasNoValues, of_identifier};
ghost use Rattle.icu_locale_values.specs.Refusals.{IsOutOfMemory};
ghost use Rattle.icu_locale_values.specs.Whole.{whole_rules};

use crate::at_once::{bring_at_once, bring_canonical_to_stable_key};
use crate::keys::canonical_copy;
use crate::laws;
use icu_locale::{CanonicalizeError, TransformResult};
use icu_locale_core::LanguageIdentifier;
use icu_locale_extensions::LocaleIdentifier;
use icu_locale_values::{WholeCanonicalizer, WholeError};

/// Brings a locale identifier to its key: its whole canonical form, as `WholeCanonicalizer::canonicalize` makes it, with
/// the key that stays in place of its identifier. The answer is `Modified` exactly where that changed it. Where it has
/// neither a keyword, a field nor a transform language, no rule matches and the key is seen at once, no memory is taken;
/// else that for a copy, and that of both.
///
/// # Errors
///
/// - Those of `WholeCanonicalizer::canonicalize`, in their order.
/// - `NoFixedPoint` where no key stays, as `bring_to_stable_key` says.
/// - `Memory` where memory was asked for and refused.
///
/// The locale identifier is unchanged then.
#[inline]
pub fn bring_whole_to_key(
    canonicalizer: &WholeCanonicalizer<'_>,
    locale: &mut LocaleIdentifier,
) -> Result<TransformResult, WholeError>
    ensures key { OnOk result (IsWholeKey (whole_rules canonicalizer.now) locale.old locale.new) }
    ensures told { IfOk result (λ told. (told ≡ Modified) ↔ (locale.new ≢ locale.old)) }
    ensures refused { IfErr result
        (IsWholeKeyRefusal (whole_rules canonicalizer.now) locale.old) }
    ensures unchanged { OnErr result (locale.new ≡ locale.old) }
    ensures there { (k : LocaleIdentifier)
        → IsWholeKey (whole_rules canonicalizer.now) locale.old k
        → IsOk result ⊎ IsOutOfMemory result }
{
    if let Some(told) = bring_whole_at_once(canonicalizer, locale) {
        return Ok(told);
    }
    let key = match key_of_whole(canonicalizer, locale) {
        Ok(key) => key,
        Err(refusal) => return Err(refusal),
    };
    let told = changed_to(locale, &key);
    *locale = key;
    Ok(told)
}

// Brings a locale identifier without values that is its own whole canonical form to its key, where that is seen at once,
// and tells whether that changed it.
#[inline]
fn bring_whole_at_once(
    canonicalizer: &WholeCanonicalizer<'_>,
    locale: &mut LocaleIdentifier,
) -> Option<TransformResult>
    ensures key { OnSome result
        (IsWholeKey (whole_rules canonicalizer.now) locale.old locale.new) }
    ensures told { IfSome result (λ told. (told ≡ Modified) ↔ (locale.new ≢ locale.old)) }
    ensures unchanged { result ≡ None → locale.new ≡ locale.old }
{
    if has_no_values(locale) {
        bring_at_once(&canonicalizer.rules, &mut locale.locale.id)
    } else {
        None
    }
}

// Whether there is neither a keyword, a field nor a transform language.
#[inline]
fn has_no_values(locale: &LocaleIdentifier) -> bool
    ensures { IsTrue result → HasNoValues locale.now }
{
    locale.locale.extensions.unicode.keywords.is_empty()
        && locale.fields.is_empty()
        && locale.locale.extensions.transform.lang.is_none()
}

// The key of a locale identifier, as a copy.
#[inline(never)]
fn key_of_whole(
    canonicalizer: &WholeCanonicalizer<'_>,
    locale: &LocaleIdentifier,
) -> Result<LocaleIdentifier, WholeError>
    ensures key { IfOk result (IsWholeKey (whole_rules canonicalizer.now) locale.now) }
    ensures refused { IfErr result
        (IsWholeKeyRefusal (whole_rules canonicalizer.now) locale.now) }
    ensures there { (k : LocaleIdentifier)
        → IsWholeKey (whole_rules canonicalizer.now) locale.now k
        → IsOk result ⊎ IsOutOfMemory result }
{
    laws::whole_key_is_one();
    let mut key = match locale.try_clone() {
        Ok(key) => key,
        Err(_) => return Err(WholeError::Memory),
    };
    if let Err(refusal) = canonicalizer.canonicalize(&mut key) {
        return Err(refusal);
    }
    match bring_canonical_to_stable_key(&canonicalizer.rules, &mut key.locale.id) {
        Ok(()) => Ok(key),
        Err(refusal) => Err(of_rules(refusal)),
    }
}

/// Brings an identifier alone to its key: that of the locale identifier that has it and no extensions. The answer is
/// `Modified` exactly where that changed it. Where no rule matches and the key is seen at once, no memory is taken; else
/// that for a copy of the variants, and that of `bring_to_stable_key`.
///
/// # Errors
///
/// - `NoFixedPoint` where the rules come to no end, or no key stays.
/// - `Memory` where memory was asked for and refused.
///
/// The identifier is unchanged then.
#[inline]
pub fn bring_identifier_to_key(
    canonicalizer: &WholeCanonicalizer<'_>,
    id: &mut LanguageIdentifier,
) -> Result<TransformResult, WholeError>
    ensures key { OnOk result
        (IsWholeKey (whole_rules canonicalizer.now) (bare id.old) (bare id.new)) }
    ensures told { IfOk result (λ told. (told ≡ Modified) ↔ (id.new ≢ id.old)) }
    ensures refused { IfErr result
        (IsWholeKeyRefusal (whole_rules canonicalizer.now) (bare id.old)) }
    ensures unchanged { OnErr result (id.new ≡ id.old) }
    ensures there { (k : LocaleIdentifier)
        → IsWholeKey (whole_rules canonicalizer.now) (bare id.old) k
        → IsOk result ⊎ IsOutOfMemory result }
{
    if let Some(told) = bring_at_once(&canonicalizer.rules, id) {
        return Ok(told);
    }
    let key = match key_of_identifier(canonicalizer, id) {
        Ok(key) => key,
        Err(refusal) => return Err(refusal),
    };
    let told = changed_from(id, &key);
    *id = key;
    Ok(told)
}

// The key of an identifier alone, as a copy.
#[inline(never)]
fn key_of_identifier(
    canonicalizer: &WholeCanonicalizer<'_>,
    id: &LanguageIdentifier,
) -> Result<LanguageIdentifier, WholeError>
    ensures key { IfOk result (λ k. IsWholeKey (whole_rules canonicalizer.now)
        (bare id.now) (bare k)) }
    ensures refused { IfErr result
        (IsWholeKeyRefusal (whole_rules canonicalizer.now) (bare id.now)) }
    ensures there { (k : LocaleIdentifier)
        → IsWholeKey (whole_rules canonicalizer.now) (bare id.now) k
        → IsOk result ⊎ IsOutOfMemory result }
{
    laws::whole_key_is_one();
    let mut key = match canonical_copy(&canonicalizer.rules, id) {
        Ok(key) => key,
        Err(refusal) => return Err(of_rules(refusal)),
    };
    match bring_canonical_to_stable_key(&canonicalizer.rules, &mut key) {
        Ok(()) => Ok(key),
        Err(refusal) => Err(of_rules(refusal)),
    }
}

// Whether a locale identifier differs from its key.
fn changed_to(locale: &LocaleIdentifier, key: &LocaleIdentifier) -> TransformResult
    ensures { (result ≡ Modified) ↔ (key.now ≢ locale.now) }
{
    icu_locale_extensions::laws::equality_is_told();
    if key == locale {
        TransformResult::Unmodified
    } else {
        TransformResult::Modified
    }
}

// Whether an identifier differs from its key.
fn changed_from(id: &LanguageIdentifier, key: &LanguageIdentifier) -> TransformResult
    ensures { (result ≡ Modified) ↔ (key.now ≢ id.now) }
{
    if key == id {
        TransformResult::Unmodified
    } else {
        TransformResult::Modified
    }
}

// A refusal of an identifier as one of a locale identifier.
fn of_rules(refusal: CanonicalizeError) -> WholeError
    ensures { result ≡ of_identifier refusal }
{
    match refusal {
        CanonicalizeError::NoFixedPoint(first) => WholeError::NoFixedPoint(first),
        _ => WholeError::Memory,
    }
}
