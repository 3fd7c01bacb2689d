//! A language switcher: what is served where nothing available means the same as a request.
ghost use Rattle.std.specs.Prelude.{◌≡◌, IfSome, IfNone, IsSomeAnd};
ghost use Rattle.std.specs.List.{Contains};
ghost use Rattle.icu_locale_core.specs.declared.langid.LanguageIdentifier.{LanguageIdentifier};
ghost use Rattle.icu_locale.specs.LikelySubtags.{maximal};
ghost use Rattle.icu_locale.specs.LikelyTable.{likely};
ghost use Rattle.uses.specs.Fallback.{plain_form, wide_form, HasScript, AreReadAlike, IsServed};
ghost use Rattle.uses.specs.Meaning.{MeanTheSame, NoneMeans};

use crate::negotiation::find_served;
use icu_locale::{LocaleExpander, Negotiator, laws};
use icu_locale_core::{LanguageIdentifier, Variants};
use std::alloc::Global;
use std::slice;

/// What is served for a request: what means the same, or else what means its form without variants, or else what means
/// the language and the script of its maximal form. So it is never in another language, or in another script, than the
/// request. It takes no memory.
pub fn serve<'n>(
    alloc: Global,
    negotiator: &'n Negotiator<'_>,
    request: &LanguageIdentifier,
) -> Option<&'n LanguageIdentifier>
    ensures alike { IfSome result (λ served.
        AreReadAlike (likely negotiator.now.expander) request.now served.now) }
    ensures same { (x : LanguageIdentifier) → Contains negotiator.now.available x
        → MeanTheSame (likely negotiator.now.expander) request.now x
        → IsSomeAnd result (λ served.
        MeanTheSame (likely negotiator.now.expander) request.now served.now) }
    ensures served { IfSome result (λ served. IsServed (likely negotiator.now.expander)
        negotiator.now.available request.now served.now) }
    ensures none { IfNone result
        (NoneMeans (likely negotiator.now.expander) negotiator.now.available request.now) }
    ensures none_plain { IfNone result (NoneMeans (likely negotiator.now.expander)
        negotiator.now.available (plain_form request.now)) }
    ensures none_wide { let m = maximal (likely negotiator.now.expander) request.now in
        HasScript m → IfNone result (NoneMeans (likely negotiator.now.expander)
        negotiator.now.available (wide_form m)) }
{
    if let Some(served) = find_meaning(negotiator, request) {
        return Some(served);
    }
    let plain = without_variants(alloc, request);
    if let Some(served) = find_meaning(negotiator, &plain) {
        return Some(served);
    }
    let wide = language_and_script(alloc, negotiator.expander(), plain)?;
    request.known();
    laws::maximizing_keeps_subtags();
    find_meaning(negotiator, &wide)
}

// The first available identifier that means the same.
fn find_meaning<'n>(
    negotiator: &'n Negotiator<'_>,
    request: &LanguageIdentifier,
) -> Option<&'n LanguageIdentifier>
    ensures found { IfSome result (λ served.
        MeanTheSame (likely negotiator.now.expander) request.now served.now) }
    ensures none { IfNone result
        (NoneMeans (likely negotiator.now.expander) negotiator.now.available request.now) }
{
    find_served(negotiator, slice::from_ref(request))
}

fn without_variants(alloc: Global, x: &LanguageIdentifier) -> LanguageIdentifier
    ensures { result ≡ plain_form x.now }
{
    LanguageIdentifier {
        language: x.language,
        script: x.script,
        region: x.region,
        variants: Variants::new(alloc),
    }
}

// Language and script of the maximal form, where the language is known and there is a script.
fn language_and_script(
    alloc: Global,
    expander: &LocaleExpander<'_>,
    mut x: LanguageIdentifier,
) -> Option<LanguageIdentifier>
    ensures wide { let m = maximal (likely expander.now) x in
        IfSome result (λ y. (y ≡ wide_form m) × HasScript m) }
    ensures none { IfNone result (¬ (HasScript (maximal (likely expander.now) x))) }
{
    let _ = expander.maximize(&mut x);
    if x.language.is_unknown() {
        return None;
    }
    let script = x.script?;
    Some(LanguageIdentifier {
        language: x.language,
        script: Some(script),
        region: None,
        variants: Variants::new(alloc),
    })
}
