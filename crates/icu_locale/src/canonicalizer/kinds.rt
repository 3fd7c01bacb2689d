//! The seven kinds of rules. Each finds what is to be rewritten and takes no memory.
ghost use Rattle.std.specs.Prelude.{◌≡◌, ◌==◌, if◌then◌else◌, length, option_copied, is_some, None, IsTrue};
ghost use Rattle.std.specs.Option.{option_map};
ghost use Rattle.std.specs.List.{find, list_any};
ghost use Rattle.icu_locale_core.specs.TextSet.{rising};
ghost use Rattle.icu_locale_core.specs.Subtag.{is_alphabetic};
ghost use Rattle.icu_locale.specs.LikelySubtags.{LikelySubtags};
ghost use Rattle.icu_locale.specs.LikelyTable.{likely};
ghost use Rattle.icu_locale.specs.RuleSet.{lent};
ghost use Rattle.icu_locale.specs.Rules.{matches};
ghost use Rattle.icu_locale.specs.Kinds.{
  rules_for,
  by_rule,
  sign_language,
  by_sign_region,
  language_alias,
  by_language_alias,
  by_script,
  region_alias,
  by_region,
  chosen,
  likely_region,
  complex_region,
  by_complex_region,
  variant_alias,
  by_variant,
  next,
};
ghost use Rattle.icu_locale.specs.inner.CanonicalParts.{rewritten};

use super::replacing::{is_known, rule_matches};
use crate::{LocaleExpander, Rule, RulesRef};
use icu_locale_core::{Language, LanguageIdentifier, Numbered, Region, Script, Variant, Variants};
use icu_provider::{DataLocale, NotedMap};

// What a turn rewrites.
#[derive(Clone, Copy)]
pub enum Rewrite<'r> {
    // The rule is applied.
    Rule(&'r Rule),
    // These replace the subtags but the variants.
    Subtags(Language, Option<Script>, Option<Region>),
    // The variants that have an alias are replaced.
    Variants,
}

// The rewrite of the first kind that matches.
#[inline(always)]
pub fn find_rewrite<'r>(
    rules: &RulesRef<'r>,
    expander: &LocaleExpander<'_>,
    x: &LanguageIdentifier,
) -> Option<Rewrite<'r>>
    ensures { option_map (rewritten (lent rules.now) x.now) result
        ≡ next (likely expander.now) (lent rules.now) x.now }
{
    if is_plain(rules, x) {
        None
    } else {
        first_rewrite(rules, expander, x)
    }
}

// Whether there are no variants, and no rule asks for the subtags. Most identifiers are so, and no kind matches them.
#[inline(always)]
fn is_plain(rules: &RulesRef<'_>, x: &LanguageIdentifier) -> bool
    ensures { IsTrue result → (likely : LikelySubtags)
        → next likely (lent rules.now) x.now ≡ None }
{
    x.variants.len() == 0
        && rules.read.language.as_slice().is_empty()
        && language_alias(rules, &x.language).is_none()
        && has_plain_script(rules, x)
        && has_plain_region(rules, x)
}

// Whether no rule asks for the script, if there is one.
#[inline(always)]
fn has_plain_script(rules: &RulesRef<'_>, x: &LanguageIdentifier) -> bool
    ensures { IsTrue result → by_script (lent rules.now) x.now ≡ None }
{
    match x.script {
        Some(script) => rules.aliases.get_script(script).is_none(),
        None => true,
    }
}

// Whether no rule asks for the region, if there is one.
#[inline(always)]
fn has_plain_region(rules: &RulesRef<'_>, x: &LanguageIdentifier) -> bool
    ensures sign { IsTrue result → by_sign_region (lent rules.now) x.now ≡ None }
    ensures alone { IsTrue result → by_region (lent rules.now) x.now ≡ None }
    ensures complex { IsTrue result → (likely : LikelySubtags)
        → by_complex_region likely (lent rules.now) x.now ≡ None }
{
    match x.region {
        Some(region) => {
            x.language != Language::SIGN
                && region_alias(rules, region).is_none()
                && rules.aliases.complex_region.get(&region).is_none()
        }
        None => true,
    }
}

// The same as `find_rewrite`, asked kind by kind.
#[inline(never)]
fn first_rewrite<'r>(
    rules: &RulesRef<'r>,
    expander: &LocaleExpander<'_>,
    x: &LanguageIdentifier,
) -> Option<Rewrite<'r>>
    ensures { option_map (rewritten (lent rules.now) x.now) result
        ≡ next (likely expander.now) (lent rules.now) x.now }
{
    if let Some(rewrite) = by_rule(rules, x) {
        return Some(rewrite);
    }
    if let Some(rewrite) = by_sign_region(rules, x) {
        return Some(rewrite);
    }
    if let Some(rewrite) = by_language_alias(rules, x) {
        return Some(rewrite);
    }
    if let Some(rewrite) = by_script(rules, x) {
        return Some(rewrite);
    }
    if let Some(rewrite) = by_region(rules, x) {
        return Some(rewrite);
    }
    if let Some(rewrite) = by_complex_region(rules, expander, x) {
        return Some(rewrite);
    }
    if x.variants.len() == 0 {
        return None;
    }
    by_variant(rules, x)
}

fn by_rule<'r>(rules: &RulesRef<'r>, x: &LanguageIdentifier) -> Option<Rewrite<'r>>
    ensures { option_map (rewritten (lent rules.now) x.now) result
        ≡ by_rule (lent rules.now) x.now }
{
    Some(Rewrite::Rule(first_match(rules_for(rules, x), x)?))
}

fn rules_for<'r>(rules: &RulesRef<'r>, x: &LanguageIdentifier) -> &'r [Rule]
    ensures { result.now ≡ rules_for (lent rules.now) x.now }
{
    if x.variants.len() == 0 {
        rules.read.language.as_slice()
    } else {
        rules.read.language_variants.as_slice()
    }
}

fn first_match<'r>(rules: &'r [Rule], x: &LanguageIdentifier) -> Option<&'r Rule>
    ensures { option_copied result ≡ find (λ r. matches x.now r.source) rules.now }
{
    rules.iter().find(|rule| rule_matches(x, &rule.source))
}

fn by_sign_region<'r>(rules: &RulesRef<'r>, x: &LanguageIdentifier) -> Option<Rewrite<'r>>
    ensures { option_map (rewritten (lent rules.now) x.now) result
        ≡ by_sign_region (lent rules.now) x.now }
{
    let language = sign_language(rules, x)?;
    Some(Rewrite::Subtags(language, x.script, None))
}

fn sign_language(rules: &RulesRef<'_>, x: &LanguageIdentifier) -> Option<Language>
    ensures { result ≡ sign_language (lent rules.now) x.now }
{
    if x.language == Language::SIGN {
        rules.aliases.get_sgn_region(x.region?)
    } else {
        None
    }
}

// The rewrite by a language alias.
#[inline(always)]
pub fn by_language_alias<'r>(rules: &RulesRef<'r>, x: &LanguageIdentifier) -> Option<Rewrite<'r>>
    ensures { option_map (rewritten (lent rules.now) x.now) result
        ≡ by_language_alias (lent rules.now) x.now }
{
    let alias = language_alias(rules, &x.language)?;
    Some(Rewrite::Subtags(
        alias.language,
        x.script.or(alias.script),
        x.region.or(alias.region),
    ))
}

#[inline(always)]
fn language_alias<'r>(rules: &RulesRef<'r>, language: &Language) -> Option<&'r LanguageIdentifier>
    ensures { option_copied result ≡ language_alias (lent rules.now) language.now }
{
    if is_known(language) {
        aliases_for(rules, language).get(language)
    } else {
        None
    }
}

// The table for the length of a language.
#[inline(always)]
fn aliases_for<'r>(
    rules: &RulesRef<'r>,
    language: &Language,
) -> &'r NotedMap<Language, LanguageIdentifier>
    ensures { result.now ≡ (if length language.now == 2 then (lent rules.now).language_len2
        else (lent rules.now).language_len3) }
{
    if has_two_letters(language) {
        &rules.read.language_len2
    } else {
        &rules.read.language_len3
    }
}

// Whether a language has two letters and not three: the third byte of its number is zero then.
#[inline(always)]
fn has_two_letters(language: &Language) -> bool
    ensures { result ≡ (length language.now == 2) }
{
    let _ = language.as_str();
    language.number() % 65536 < 256
}

fn by_script<'r>(rules: &RulesRef<'r>, x: &LanguageIdentifier) -> Option<Rewrite<'r>>
    ensures { option_map (rewritten (lent rules.now) x.now) result
        ≡ by_script (lent rules.now) x.now }
{
    let script = rules.aliases.get_script(x.script?)?;
    Some(Rewrite::Subtags(x.language, Some(script), x.region))
}

fn by_region<'r>(rules: &RulesRef<'r>, x: &LanguageIdentifier) -> Option<Rewrite<'r>>
    ensures { option_map (rewritten (lent rules.now) x.now) result
        ≡ by_region (lent rules.now) x.now }
{
    let region = region_alias(rules, x.region?)?;
    Some(Rewrite::Subtags(x.language, x.script, Some(region)))
}

#[inline(always)]
fn region_alias(rules: &RulesRef<'_>, region: Region) -> Option<Region>
    ensures { result ≡ region_alias (lent rules.now) region }
{
    region_aliases_for(rules, region).get(&region).copied()
}

// The table of regions of letters or of those of digits.
#[inline(always)]
fn region_aliases_for<'r>(rules: &RulesRef<'r>, region: Region) -> &'r NotedMap<Region, Region>
    ensures { result.now ≡ (if is_alphabetic region then rules.now.aliases.now.region_alpha
        else rules.now.aliases.now.region_num) }
{
    if region.is_alphabetic() {
        &rules.aliases.region_alpha
    } else {
        &rules.aliases.region_num
    }
}

fn by_complex_region<'r>(
    rules: &RulesRef<'r>,
    expander: &LocaleExpander<'_>,
    x: &LanguageIdentifier,
) -> Option<Rewrite<'r>>
    ensures { option_map (rewritten (lent rules.now) x.now) result
        ≡ by_complex_region (likely expander.now) (lent rules.now) x.now }
{
    let region = complex_region(rules, expander, x)?;
    Some(Rewrite::Subtags(x.language, x.script, Some(region)))
}

fn complex_region(
    rules: &RulesRef<'_>,
    expander: &LocaleExpander<'_>,
    x: &LanguageIdentifier,
) -> Option<Region>
    ensures { result ≡ complex_region (likely expander.now) (lent rules.now) x.now }
{
    let regions = rules.aliases.get_complex_region(x.region?)?;
    chosen(likely_region(expander, x), regions)
}

// The region of the maximal form of language and script alone.
fn likely_region(expander: &LocaleExpander<'_>, x: &LanguageIdentifier) -> Option<Region>
    ensures { result ≡ likely_region (likely expander.now) x.now }
{
    let given = DataLocale {
        language: x.language,
        script: x.script,
        region: None,
    };
    expander.maximal_locale(given).region
}

fn chosen(likely: Option<Region>, regions: &[Region]) -> Option<Region>
    ensures { result ≡ chosen likely regions.now }
{
    let first = regions.first()?;
    match likely {
        Some(region) => {
            if regions.contains(&region) {
                Some(region)
            } else {
                Some(*first)
            }
        }
        None => Some(*first),
    }
}

fn by_variant<'r>(rules: &RulesRef<'r>, x: &LanguageIdentifier) -> Option<Rewrite<'r>>
    ensures { option_map (rewritten (lent rules.now) x.now) result
        ≡ by_variant (lent rules.now) x.now }
{
    if has_variant_alias(rules, &x.variants) {
        Some(Rewrite::Variants)
    } else {
        None
    }
}

fn has_variant_alias(rules: &RulesRef<'_>, variants: &Variants) -> bool
    ensures { result ≡ list_any (λ v. is_some (variant_alias (lent rules.now) v))
        (rising variants.now) }
{
    for variant in variants.iter() {
        if variant_alias(rules, variant).is_some() {
            return true;
        }
    }
    false
}

pub fn variant_alias(rules: &RulesRef<'_>, variant: Variant) -> Option<Variant>
    ensures { result ≡ variant_alias (lent rules.now) variant }
{
    rules.aliases.get_variant(variant)
}
