//! What is served, with the reader's own region, variants and extensions.
ghost use Rattle.std.specs.Prelude.{◌≡◌, true, if◌then◌else◌, IsOk, OnErr, OnOk};
ghost use Rattle.std.specs.Option.{option_or};
ghost use Rattle.icu_locale_core.specs.TextSet.{empty};
ghost use Rattle.icu_locale_matching.specs.Resolved.{is_varied, resolved, resolved_id};

use icu_locale_core::{LanguageIdentifier, Region};
use icu_locale_extensions::LocaleIdentifier;
use std::alloc::AllocError;

/// Brings what is wanted to what is served for it, with the region, the variants and the extensions of its own:
/// `de-CH-u-nu-latn`, where `de` is served for it, stays as it is. What it lacks of region and variants is as served.
/// It takes memory only for a copy of the variants.
///
/// # Errors
///
/// `AllocError` where the variants of what is served could not be copied: never where there are none, or what is wanted
/// has its own. What is wanted is as it was then.
pub fn bring_to_resolved(
    served: &LanguageIdentifier,
    wanted: &mut LocaleIdentifier,
) -> Result<(), AllocError>
    ensures resolved { OnOk result (wanted.new ≡ resolved served.now wanted.old) }
    ensures unchanged { OnErr result (wanted.new ≡ wanted.old) }
    ensures free_plain { served.now.variants ≡ empty → IsOk result }
    ensures free_varied { is_varied wanted.old.locale.id ≡ true → IsOk result }
{
    bring_id(served, &mut wanted.locale.id)
}

// The same of identifiers.
fn bring_id(served: &LanguageIdentifier, wanted: &mut LanguageIdentifier) -> Result<(), AllocError>
    ensures resolved { OnOk result (wanted.new ≡ resolved_id served.now wanted.old) }
    ensures unchanged { OnErr result (wanted.new ≡ wanted.old) }
    ensures free_plain { served.now.variants ≡ empty → IsOk result }
    ensures free_varied { is_varied wanted.old ≡ true → IsOk result }
{
    bring_variants(served, wanted)?;
    wanted.language = served.language;
    wanted.script = served.script;
    wanted.region = region_or(wanted.region, served.region);
    Ok(())
}

// Puts the variants of what is served where there are none.
fn bring_variants(
    served: &LanguageIdentifier,
    wanted: &mut LanguageIdentifier,
) -> Result<(), AllocError>
    ensures brought { OnOk result (wanted.new ≡ record wanted.old {
      variants = if is_varied wanted.old then wanted.old.variants else served.now.variants;
    }) }
    ensures unchanged { OnErr result (wanted.new ≡ wanted.old) }
    ensures free_plain { served.now.variants ≡ empty → IsOk result }
    ensures free_varied { is_varied wanted.old ≡ true → IsOk result }
{
    if is_varied(wanted) {
        return Ok(());
    }
    match served.variants.try_clone() {
        Ok(variants) => {
            wanted.variants = variants;
            Ok(())
        }
        Err(_) => Err(AllocError),
    }
}

// Whether an identifier has a variant.
fn is_varied(id: &LanguageIdentifier) -> bool
    ensures { result ≡ is_varied id.now }
{
    !id.variants.is_empty()
}

// The first region that is there.
fn region_or(own: Option<Region>, other: Option<Region>) -> Option<Region>
    ensures { result ≡ option_or own other }
{
    match own {
        Some(own) => Some(own),
        None => other,
    }
}
