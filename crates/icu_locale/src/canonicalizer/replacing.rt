//! Matching and replacing.
ghost use Rattle.std.specs.Prelude.{◌≡◌, ◌&&◌, ◌||◌, true, not, if◌then◌else◌, IfOk, IfErr, IsOk};
ghost use Rattle.icu_locale_core.specs.TextSet.{contains, empty, is_subset};
ghost use Rattle.icu_locale.specs.Rules.{is_known, fits, matches, part, replaced};

use crate::CanonicalizeError;
use icu_locale_core::{Language, LanguageIdentifier, Variant, Variants};
use std::cmp::PartialEq;

// Whether the language is another than `und`.
pub fn is_known(language: &Language) -> bool
    ensures { result ≡ is_known language.now }
{
    !language.is_unknown()
}

fn fits<T: PartialEq + Copy>(rule: Option<T>, source: Option<T>) -> bool
    ensures { result ≡ fits T.eq rule source }
{
    match rule {
        None => true,
        Some(wanted) => match source {
            None => false,
            Some(there) => wanted == there,
        },
    }
}

/// Whether a rule matches an identifier: its language is `und` or the same, its script and region are absent or the
/// same, and its variants are all there. It takes no memory.
pub fn rule_matches(source: &LanguageIdentifier, rule: &LanguageIdentifier) -> bool
    ensures { result ≡ matches source.now rule.now }
{
    (!is_known(&rule.language) || rule.language == source.language)
        && fits(rule.script, source.script)
        && fits(rule.region, source.region)
        && has_first(&source.variants, &rule.variants)
        && rule.variants.is_subset(&source.variants)
}

// Whether a set has the first member of another, if there is one. Most rules have one variant, and end here.
fn has_first(set: &Variants, other: &Variants) -> bool
    ensures { is_subset other.now set.now ≡ true → result ≡ true }
{
    match other.iter().next() {
        Some(first) => has_member(set, &first),
        None => true,
    }
}

// Whether a variant is a member of a set, by equality, which takes fewer steps than a search where there are few.
#[tactic(auto, using(crate::proofs::Members::contains_equal))]
fn has_member(set: &Variants, variant: &Variant) -> bool
    ensures { result ≡ contains set.now variant.now }
{
    for member in set.iter() {
        if *variant == member {
            return true;
        }
    }
    false
}

fn part<T: Copy>(source: Option<T>, rule: Option<T>, replacement: Option<T>) -> Option<T>
    ensures { result ≡ part source rule replacement }
{
    if rule.is_some() {
        replacement
    } else {
        source.or(replacement)
    }
}

fn replaced_language(source: Language, rule: Language, replacement: Language) -> Language
    ensures { result ≡ (if is_known rule || (not (is_known source) && is_known replacement) then
        replacement else source) }
{
    if is_known(&rule) || (!is_known(&source) && is_known(&replacement)) {
        replacement
    } else {
        source
    }
}

/// What a rule makes of an identifier that it matches.
///
/// # Errors
///
/// `Memory` where the result has variants and no room was found for them.
pub fn replacement(
    source: &LanguageIdentifier,
    rule: &LanguageIdentifier,
    replacement: &LanguageIdentifier,
) -> Result<LanguageIdentifier, CanonicalizeError>
    ensures replaced { IfOk result (λ x. x ≡ replaced source.now rule.now replacement.now) }
    ensures refused { IfErr result (λ e. e ≡ CanonicalizeError.Memory) }
    ensures free { (replaced source.now rule.now replacement.now).variants ≡ empty
        → IsOk result }
{
    let variants = match source
        .variants
        .try_replaced(&rule.variants, &replacement.variants)
    {
        Ok(variants) => variants,
        Err(_) => return Err(CanonicalizeError::Memory),
    };
    Ok(LanguageIdentifier {
        language: replaced_language(source.language, rule.language, replacement.language),
        script: part(source.script, rule.script, replacement.script),
        region: part(source.region, rule.region, replacement.region),
        variants,
    })
}
