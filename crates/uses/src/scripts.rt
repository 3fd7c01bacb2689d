//! What is served in the script that was asked for, however near another one is.
ghost use Rattle.std.specs.Prelude.{◌≡◌, IfSome};
ghost use Rattle.icu_locale.specs.LikelyTable.{likely};
ghost use Rattle.icu_locale_matching.specs.Made.{IsMadeOver};
ghost use Rattle.icu_locale_matching.specs.Nearest.{form_of};
ghost use Rattle.uses.specs.Scripts.{IsInItsScript, have_one_script};

use icu_locale::LocaleExpander;
use icu_locale_core::LanguageIdentifier;
use icu_locale_matching::{Candidates, LocaleMatcher, Match, MatchLimits};
use icu_provider::{DataLocale, LanguageMatching};

/// The nearest available locale, if it has the script of the request that it serves. It takes no memory.
pub fn nearest_in_its_script(
    expander: &LocaleExpander<'_>,
    matching: &LanguageMatching,
    candidates: &Candidates,
    requests: &[LanguageIdentifier],
) -> Option<Match>
    requires { IsMadeOver (likely expander.now) matching.now candidates.now }
    ensures { IfSome result (IsInItsScript (likely expander.now) requests.now candidates.now) }
{
    let limits = MatchLimits::default();
    let matcher = LocaleMatcher::over(*expander, matching, limits, candidates);
    let found = matcher.nearest(requests)?;
    let request = requests.get(found.request)?;
    let identifier = matcher.available().get(found.available)?;
    if have_one_script(expander, request, identifier) {
        Some(found)
    } else {
        None
    }
}

// Whether the maximal forms of two identifiers have one script.
fn have_one_script(
    expander: &LocaleExpander<'_>,
    first: &LanguageIdentifier,
    second: &LanguageIdentifier,
) -> bool
    ensures { result ≡ have_one_script (likely expander.now) first.now second.now }
{
    form_of(expander, first).script == form_of(expander, second).script
}

// The maximal form of an identifier, variants aside.
fn form_of(expander: &LocaleExpander<'_>, identifier: &LanguageIdentifier) -> DataLocale
    ensures { result ≡ form_of (likely expander.now) identifier.now }
{
    expander.maximal_locale(DataLocale {
        language: identifier.language,
        script: identifier.script,
        region: identifier.region,
    })
}
