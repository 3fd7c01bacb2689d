//! What is valid, and its canonical form.
ghost use Rattle.std.specs.Prelude.{◌≡◌, ◌↔◌, Option, None, false, IsTrue, IfOk, IfSome, OnErr};
ghost use Rattle.icu_locale_core.specs.declared.langid.LanguageIdentifier.{LanguageIdentifier};
ghost use Rattle.icu_locale_extensions.specs.declared.identifier.LocaleIdentifier.{LocaleIdentifier};
ghost use Rattle.icu_locale.specs.Canonical.{IsCanonical};
ghost use Rattle.icu_locale.specs.Kinds.{by_sign_region, next};
ghost use Rattle.icu_locale.specs.LikelySubtags.{LikelySubtags};
ghost use Rattle.icu_locale.specs.declared.canonicalizer.rules.Rules.{Rules};
ghost use Rattle.icu_locale_validity.specs.Parts.{IsValid};
ghost use Rattle.icu_locale_validity.specs.declared.table.Validity.{Validity};
ghost use Rattle.icu_locale_values.specs.Whole.{AreMaps, IsWhole, WholeRules, whole_rules};
ghost use Rattle.uses.specs.Aliased.{AllAreOfInvalid, AreOfInvalid, AreValidSigns, with_identifier, with_transform};

use icu_locale_extensions::LocaleIdentifier;
use icu_locale_validity::Validity;
use icu_locale_values::{WholeCanonicalizer, WholeError, laws};

/// Over rules of which each is of something that is not valid, but for those of `sgn` in a region, no other rule matches
/// a locale that is valid. So it is its own canonical form if none of those matches. If each of those gives a language
/// that is valid, it has a canonical form, which is valid and differs in the identifier alone.
pub fn valid_is_canonical()
    ensures matched { (v : Validity) (likely : LikelySubtags) (rules : Rules)
        (x : LocaleIdentifier) → AreOfInvalid v rules → IsValid v x
        → next likely rules x.locale.id ≡ by_sign_region rules x.locale.id }
    ensures kept { (v : Validity) (likely : LikelySubtags) (rules : Rules)
        (x : LocaleIdentifier) → AreOfInvalid v rules → IsValid v x
        → by_sign_region rules x.locale.id ≡ None → IsCanonical likely rules x.locale x.locale }
    ensures valid { (v : Validity) (likely : LikelySubtags) (rules : Rules)
        (x : LocaleIdentifier) → AreOfInvalid v rules → AreValidSigns v rules → IsValid v x
        → (id : LanguageIdentifier)
        × IsCanonical likely rules x.locale (with_identifier x id).locale
        × IsValid v (with_identifier x id) }
{}

/// The same of whole canonical forms, where a value that has an alias at a key is not valid there: the transform language
/// may be another too.
pub fn valid_is_whole()
    ensures kept { (v : Validity) (by : WholeRules) (x : LocaleIdentifier) → AreMaps x
        → AllAreOfInvalid v by → IsValid v x
        → by_sign_region by.rules x.locale.id ≡ None
        → IfSome x.locale.extensions.transform.lang (λ l. by_sign_region by.rules l ≡ None)
        → IsWhole by x x }
    ensures valid { (v : Validity) (by : WholeRules) (x : LocaleIdentifier) → AreMaps x
        → AllAreOfInvalid v by → AreValidSigns v by.rules → IsValid v x
        → (id : LanguageIdentifier) × ((lang : Option LanguageIdentifier)
        × IsWhole by x (with_identifier (with_transform x lang) id)
        × IsValid v (with_identifier (with_transform x lang) id)) }
{
    laws::without_aliases();
}

/// Brings a locale to its whole canonical form if it is valid, and tells whether it is. It is asked once: over aliases of
/// what is not valid the canonical form is valid too.
///
/// # Errors
///
/// The refusal of the canonicalizer. The locale is unchanged then, as it is where it is not valid.
pub fn canonicalize_if_valid(
    canonicalizer: &WholeCanonicalizer<'_>,
    validity: &Validity,
    locale: &mut LocaleIdentifier,
) -> Result<bool, WholeError>
    ensures told { IfOk result (λ told. IsTrue told ↔ IsValid validity.now locale.old) }
    ensures canonical { IfOk result (λ told. IsTrue told
        → IsWhole (whole_rules canonicalizer.now) locale.old locale.new) }
    ensures valid { AllAreOfInvalid validity.now (whole_rules canonicalizer.now)
        → AreValidSigns validity.now (whole_rules canonicalizer.now).rules
        → IfOk result (λ told. IsTrue told → IsValid validity.now locale.new) }
    ensures others { IfOk result (λ told. told ≡ false → locale.new ≡ locale.old) }
    ensures refused { OnErr result (locale.new ≡ locale.old) }
{
    valid_is_whole();
    laws::whole_form_is_one();
    locale.known();
    if !validity.is_valid(locale) {
        return Ok(false);
    }
    canonicalizer.canonicalize(locale)?;
    locale.known();
    Ok(true)
}
