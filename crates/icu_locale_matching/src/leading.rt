//! Which candidates stand for others, so that a request need not be compared with these.
ghost use Rattle.std.specs.Prelude.{◌≡◌, ◌+◌, ◌≤◌, ℕ, IsTrue, true, Some, List, IfOk, OnOk, length};
ghost use Rattle.std.specs.List.{slice_get};
ghost use Rattle.icu_locale_matching.specs.Distance.{fits_pattern};
ghost use Rattle.icu_locale_matching.specs.inner.Leaders.{AreAlike, VaryAlike, Leads, HasLeader, AreLeading};
ghost use Rattle.icu_locale_matching.specs.declared.candidates.Candidate.{Candidate as TheCandidate};

use crate::candidates::Candidate;
use crate::distances::levels_for;
use crate::patterns::fits_pattern;
use crate::search::has_same_variants;
use icu_locale_core::LanguageIdentifier;
use icu_provider::{DataLocale, LanguageMatching, MatchRule};
use std::alloc::{AllocError, Global};

// Those for which none before stands.
pub(crate) fn leading_of(
    alloc: Global,
    matching: &LanguageMatching,
    identifiers: &[LanguageIdentifier],
    forms: &[Candidate],
) -> Result<Vec<Candidate>, AllocError>
    ensures { IfOk result (λ leading. AreLeading matching.now identifiers.now forms.now
        (length forms.now) leading.items) }
{
    let mut leading = Vec::new(alloc);
    for candidate in forms {
        add_leader(&mut leading, matching, identifiers, candidate)?;
    }
    Ok(leading)
}

// Puts a candidate to those that lead, if none of them stands for it.
fn add_leader(
    leading: &mut Vec<Candidate>,
    matching: &LanguageMatching,
    identifiers: &[LanguageIdentifier],
    candidate: &Candidate,
) -> Result<(), AllocError>
    ensures { OnOk result ((forms : List TheCandidate) (n : ℕ)
        → slice_get forms n ≡ Some candidate.now
        → AreLeading matching.now identifiers.now forms n leading.old.items
        → AreLeading matching.now identifiers.now forms (n + 1) leading.new.items) }
{
    if is_led(matching, identifiers, leading, candidate) {
        return Ok(());
    }
    leading.push(*candidate)?;
    Ok(())
}

// Whether one of those that lead stands for a candidate.
fn is_led(
    matching: &LanguageMatching,
    identifiers: &[LanguageIdentifier],
    leading: &[Candidate],
    candidate: &Candidate,
) -> bool
    ensures { IsTrue result
        → HasLeader matching.now identifiers.now leading.now candidate.now }
{
    for leader in leading {
        if leads(matching, identifiers, leader, candidate) {
            return true;
        }
    }
    false
}

// Whether one candidate stands for another.
fn leads(
    matching: &LanguageMatching,
    identifiers: &[LanguageIdentifier],
    leader: &Candidate,
    candidate: &Candidate,
) -> bool
    ensures { IsTrue result → Leads matching.now identifiers.now leader.now candidate.now }
{
    if leader.form.language != candidate.form.language {
        return false;
    }
    if leader.form.script != candidate.form.script {
        return false;
    }
    if leader.is_macro || candidate.is_macro {
        return false;
    }
    if !is_before(leader, candidate) {
        return false;
    }
    if !vary_alike(identifiers, leader.place, candidate.place) {
        return false;
    }
    let levels = levels_for(matching, &candidate.form.language);
    if !are_alike(levels.script.rules, &leader.form, &candidate.form) {
        return false;
    }
    are_alike(levels.region.rules, &leader.form, &candidate.form)
}

// Whether one candidate comes before another in each step of the order.
fn is_before(leader: &Candidate, candidate: &Candidate) -> bool
    ensures likely { IsTrue result → leader.now.unlikeliness ≤ candidate.now.unlikeliness }
    ensures paradigm { IsTrue result → leader.now.off_paradigm ≡ true
        → candidate.now.off_paradigm ≡ true }
    ensures place { IsTrue result → leader.now.place ≤ candidate.now.place }
{
    if leader.unlikeliness > candidate.unlikeliness {
        return false;
    }
    if leader.place > candidate.place {
        return false;
    }
    if leader.off_paradigm {
        return candidate.off_paradigm;
    }
    true
}

// Whether the identifiers at two places have the same variants.
fn vary_alike(identifiers: &[LanguageIdentifier], one: usize, other: usize) -> bool
    ensures { IsTrue result → VaryAlike identifiers.now one other }
{
    let Some(one) = identifiers.get(one) else {
        return false;
    };
    let Some(other) = identifiers.get(other) else {
        return false;
    };
    has_same_variants(one, other)
}

// Whether the supported pattern of each rule fits both forms, or neither.
fn are_alike(rules: &[MatchRule], one: &DataLocale, other: &DataLocale) -> bool
    ensures { IsTrue result → AreAlike rules.now one.now other.now }
{
    for rule in rules {
        if !is_alike(rule, one, other) {
            return false;
        }
    }
    true
}

// Whether the supported pattern of a rule fits both forms, or neither.
fn is_alike(rule: &MatchRule, one: &DataLocale, other: &DataLocale) -> bool
    ensures { IsTrue result → fits_pattern rule.now.supported one.now
        ≡ fits_pattern rule.now.supported other.now }
{
    let fits = fits_pattern(&rule.supported, other);
    if fits_pattern(&rule.supported, one) {
        fits
    } else {
        !fits
    }
}
