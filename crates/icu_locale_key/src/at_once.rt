//! Keys that are seen to stay at once, without a walk.
ghost use Rattle.std.specs.Prelude.{◌≡◌, ◌≢◌, ◌↔◌, ◌⊎◌, IsTrue, OnSome, IfSome, OnOk, OnErr, IfErr, None};
ghost use Rattle.icu_locale_core.specs.declared.langid.LanguageIdentifier.{LanguageIdentifier};
ghost use Rattle.icu_locale.specs.Kinds.{next};
ghost use Rattle.icu_locale.specs.LikelySubtags.{subtags_of, with_locale};
ghost use Rattle.icu_locale.specs.LikelyTable.{likely};
ghost use Rattle.icu_locale.specs.Minimal.{IsMinimalForm};
ghost use Rattle.icu_locale.specs.RuleSet.{lent};
ghost use Rattle.icu_locale.specs.declared.expander.Favor.TheVariants.{RegionFirst};
ghost use Rattle.icu_locale.specs.declared.expander.TransformResult.TheVariants.{Modified};
ghost use Rattle.icu_locale_key.specs.Keys.{IsPart, HasClass};
ghost use Rattle.icu_locale_key.specs.Stable.{IsStableKey, IsStableKeyRefusal};
ghost use Rattle.icu_locale_key.specs.inner.AtOnce.{IsLone, IsOpenOrKnown};

use crate::laws;
use crate::stable::bring_to_stable_key_counted;
use icu_locale::{CanonicalizeError, CanonicalizerRef, LocaleExpander, TransformResult, Turns};
use icu_locale_core::LanguageIdentifier;
use icu_provider::DataLocale;

// Brings a canonical form to its key that stays: at once where that is seen, else by the walk.
#[inline]
pub(crate) fn bring_canonical_to_stable_key(
    canonicalizer: &CanonicalizerRef<'_>,
    id: &mut LanguageIdentifier,
) -> Result<(), CanonicalizeError>
    requires { next (likely canonicalizer.now.expander)
        (lent canonicalizer.now.rules) id.now ≡ None }
    ensures key { OnOk result (IsStableKey RegionFirst (likely canonicalizer.now.expander)
        (lent canonicalizer.now.rules) id.old id.new) }
    ensures refused { IfErr result (IsStableKeyRefusal RegionFirst
        (likely canonicalizer.now.expander) (lent canonicalizer.now.rules) id.old) }
    ensures unchanged { OnErr result (id.new ≡ id.old) }
{
    match minimize_at_once(&canonicalizer.expander, id) {
        Some(_) => Ok(()),
        None => bring_to_stable_key_counted(canonicalizer, id, &mut Turns::new()),
    }
}

// Brings an identifier that is its own canonical form to its key that stays, where that is seen at once, and tells whether
// that changed it.
#[inline]
pub(crate) fn bring_at_once(
    canonicalizer: &CanonicalizerRef<'_>,
    id: &mut LanguageIdentifier,
) -> Option<TransformResult>
    ensures key { OnSome result (IsStableKey RegionFirst (likely canonicalizer.now.expander)
        (lent canonicalizer.now.rules) id.old id.new) }
    ensures told { IfSome result (λ told. (told ≡ Modified) ↔ (id.new ≢ id.old)) }
    ensures canonical { OnSome result (next (likely canonicalizer.now.expander)
        (lent canonicalizer.now.rules) id.old ≡ None) }
    ensures unchanged { result ≡ None → id.new ≡ id.old }
{
    if canonicalizer.is_canonical(id) {
        minimize_at_once(&canonicalizer.expander, id)
    } else {
        None
    }
}

// Brings an identifier to its minimal form, where that is a part of it and has its maximal form, so that a canonical
// form's key stays, and tells whether that changed it.
#[inline]
pub(crate) fn minimize_at_once(
    expander: &LocaleExpander<'_>,
    id: &mut LanguageIdentifier,
) -> Option<TransformResult>
    ensures minimal { OnSome result
        (IsMinimalForm RegionFirst (likely expander.now) id.old id.new) }
    ensures part { OnSome result (IsPart id.new id.old) }
    ensures class { OnSome result (HasClass (likely expander.now) id.old) }
    ensures told { IfSome result (λ told. (told ≡ Modified) ↔ (id.new ≢ id.old)) }
    ensures unchanged { result ≡ None → id.new ≡ id.old }
{
    laws::filled_subtags_stay_unmatched();
    if is_lone(id) {
        return Some(TransformResult::Unmodified);
    }
    let given = subtags_of(id);
    let told = expander.minimize(id);
    if is_part(id, &given) && is_open_or_known(id) {
        return Some(told);
    }
    set_subtags(id, &given);
    None
}

// Whether a known language is alone, variants aside, and so its own minimal form.
#[inline]
fn is_lone(id: &LanguageIdentifier) -> bool
    ensures { IsTrue result → IsLone id.now }
{
    id.script.is_none() && id.region.is_none() && !id.language.is_unknown()
}

// The language, the script and the region of an identifier.
#[inline]
fn subtags_of(id: &LanguageIdentifier) -> DataLocale
    ensures { result ≡ subtags_of id.now }
{
    DataLocale {
        language: id.language,
        script: id.script,
        region: id.region,
    }
}

// Writes a language, a script and a region, and leaves the variants.
#[inline]
fn set_subtags(id: &mut LanguageIdentifier, given: &DataLocale)
    ensures { id.new ≡ with_locale id.old given.now }
{
    id.language = given.language;
    id.script = given.script;
    id.region = given.region;
}

// Whether an identifier has this language, and no script and no region but these.
#[inline]
fn is_part(id: &LanguageIdentifier, given: &DataLocale) -> bool
    ensures language { IsTrue result → id.now.language ≡ given.now.language }
    ensures script { IsTrue result
        → (id.now.script ≡ None) ⊎ (id.now.script ≡ given.now.script) }
    ensures region { IsTrue result
        → (id.now.region ≡ None) ⊎ (id.now.region ≡ given.now.region) }
{
    id.language == given.language
        && (id.script.is_none() || id.script == given.script)
        && (id.region.is_none() || id.region == given.region)
}

// Whether an identifier has no script or no region, or knows all three subtags. A minimal form of which this is true has
// the maximal form of what it was made of.
#[inline]
fn is_open_or_known(id: &LanguageIdentifier) -> bool
    ensures { IsTrue result → IsOpenOrKnown id.now }
{
    let Some(script) = id.script else {
        return true;
    };
    let Some(region) = id.region else {
        return true;
    };
    !id.language.is_unknown() && !script.is_unknown() && !region.is_unknown()
}
