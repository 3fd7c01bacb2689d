//! Whether match rules tell forms apart.
ghost use Rattle.std.specs.Prelude.{◌≡◌, ◌<◌, IsTrue, Vec, List, length};
ghost use Rattle.std.specs.List.{All};
ghost use Rattle.icu_locale_matching.specs.Distance.{AreApart, HasApart, TellsApart};

use icu_locale_core::{Language, Region};
use icu_provider::{LanguageMatching, MatchRule, MatchRules};

// Whether only equal forms have the distance 0.
pub(crate) fn tells_apart(matching: &LanguageMatching) -> bool
    ensures { IsTrue result → TellsApart matching.now }
{
    if matching.other_language == 0 {
        return false;
    }
    if matching.other_script == 0 {
        return false;
    }
    if matching.other_region == 0 {
        return false;
    }
    if !each_has_apart(matching.rules.as_slice()) {
        return false;
    }
    each_stands_for_some(matching.macros.as_slice())
}

// Whether each rule for each language has a distance above 0.
fn each_has_apart(rows: &[(Language, MatchRules)]) -> bool
    ensures { IsTrue result → All (λ row. HasApart row.1) rows.now }
{
    for row in rows {
        if !has_apart(&row.1) {
            return false;
        }
    }
    true
}

// Whether each rule for a language has.
fn has_apart(rules: &MatchRules) -> bool
    ensures { IsTrue result → HasApart rules.now }
{
    if !are_apart(&rules.language) {
        return false;
    }
    if !are_apart(&rules.script) {
        return false;
    }
    are_apart(&rules.region)
}

// Whether each of some rules has.
fn are_apart(rules: &[MatchRule]) -> bool
    ensures { IsTrue result → AreApart rules.now }
{
    for rule in rules {
        if !is_apart(rule) {
            return false;
        }
    }
    true
}

// Whether each macro region stands for some region.
fn each_stands_for_some(rows: &[(Region, Vec<Region>)]) -> bool
    ensures { IsTrue result → All (λ row. 0 < length row.1.items) rows.now }
{
    for row in rows {
        if !has_some(&row.1) {
            return false;
        }
    }
    true
}

fn is_apart(rule: &MatchRule) -> bool
    ensures { IsTrue result → 0 < rule.now.distance }
{
    rule.distance > 0
}

fn has_some(regions: &[Region]) -> bool
    ensures { IsTrue result → 0 < length regions.now }
{
    regions.len() > 0
}
