//! Whether a rule fits two forms.
ghost use Rattle.std.specs.Prelude.{◌≡◌, ◌&&◌, IfSome};
ghost use Rattle.std.specs.Str.{bytes_eq};
ghost use Rattle.icu_locale_matching.specs.Distance.{fits_script, is_member, fits_region, fits_pattern, fits};

use icu_locale_core::{Region, Script};
use icu_provider::{DataLocale, MatchPattern, MatchRule, RegionPattern, SortedMap};

// Whether a rule, which is one for the desired language, fits.
pub(crate) fn fits(rule: &MatchRule, desired: &DataLocale, supported: &DataLocale) -> bool
    ensures { result ≡ fits desired.now supported.now rule.now }
{
    supported.language == rule.language
        && fits_pattern(&rule.desired, desired)
        && fits_pattern(&rule.supported, supported)
}

// Whether a rule is for the language of a supported form, and fits it.
pub(crate) fn serves(rule: &MatchRule, supported: &DataLocale) -> bool
    ensures { result ≡ (bytes_eq supported.now.language rule.now.language
        && fits_pattern rule.now.supported supported.now) }
{
    supported.language == rule.language && fits_pattern(&rule.supported, supported)
}

// Whether a rule fits, where it may be known whether its desired pattern does, and whether it serves.
pub(crate) fn fits_known(
    known: Option<bool>,
    serving: Option<bool>,
    rule: &MatchRule,
    desired: &DataLocale,
    supported: &DataLocale,
) -> bool
    requires known { IfSome known
        (λ b. b ≡ fits_pattern rule.now.desired desired.now) }
    requires serving { IfSome serving
        (λ b. b ≡ (bytes_eq supported.now.language rule.now.language
        && fits_pattern rule.now.supported supported.now)) }
    ensures { result ≡ fits desired.now supported.now rule.now }
{
    fits_desired(known, rule, desired) && fits_supported(serving, rule, supported)
}

fn fits_supported(serving: Option<bool>, rule: &MatchRule, supported: &DataLocale) -> bool
    requires { IfSome serving
        (λ b. b ≡ (bytes_eq supported.now.language rule.now.language
        && fits_pattern rule.now.supported supported.now)) }
    ensures { result ≡ (bytes_eq supported.now.language rule.now.language
        && fits_pattern rule.now.supported supported.now) }
{
    match serving {
        Some(serves) => serves,
        None => serves(rule, supported),
    }
}

fn fits_desired(known: Option<bool>, rule: &MatchRule, desired: &DataLocale) -> bool
    requires { IfSome known
        (λ b. b ≡ fits_pattern rule.now.desired desired.now) }
    ensures { result ≡ fits_pattern rule.now.desired desired.now }
{
    match known {
        Some(fits) => fits,
        None => fits_pattern(&rule.desired, desired),
    }
}

// Whether the script and the region of a form fit.
pub(crate) fn fits_pattern(pattern: &MatchPattern, form: &DataLocale) -> bool
    ensures { result ≡ fits_pattern pattern.now form.now }
{
    fits_script(&pattern.script, &form.script) && fits_region(&pattern.region, &form.region)
}

// Whether a region, or none, fits.
fn fits_region(pattern: &RegionPattern, region: &Option<Region>) -> bool
    ensures { result ≡ fits_region pattern.now region.now }
{
    match pattern {
        RegionPattern::Any => true,
        RegionPattern::In(regions) => is_member(regions, region),
        RegionPattern::NotIn(regions) => !is_member(regions, region),
    }
}

// Whether a script, or none, fits.
fn fits_script(pattern: &Option<Script>, script: &Option<Script>) -> bool
    ensures { result ≡ fits_script pattern.now script.now }
{
    match pattern {
        Some(_) => *script == *pattern,
        None => true,
    }
}

// Whether a region that is there is one of a set.
fn is_member(regions: &SortedMap<Region, ()>, region: &Option<Region>) -> bool
    ensures { result ≡ is_member regions.now region.now }
{
    match region {
        Some(region) => regions.contains_key(region),
        None => false,
    }
}
