//! What is available, with what a match asks of it.
ghost use Rattle.std.specs.Prelude.{◌≡◌, List, map, IfOk, OnOk, length};
ghost use Rattle.std.specs.List.{filter};
ghost use Rattle.icu_locale_core.specs.TextSet.{text_cmp};
ghost use Rattle.icu_locale.specs.LikelyTable.{likely};
ghost use Rattle.icu_locale.specs.LikelySubtags.{maximal_locale, subtags_of};
ghost use Rattle.std.specs.BTreeMap.{insert_entry};
ghost use Rattle.icu_locale_matching.specs.Nearest.{alone, without_region, same_form, form_of, unlikeliness, paradigms_of, is_among, identifiers_of};
ghost use Rattle.icu_locale_matching.specs.inner.Made.{candidate_of, candidates_of, has_language, in_form, IsGrouped};
ghost use Rattle.icu_locale_matching.specs.Made.{IsMadeOver};
ghost use Rattle.icu_locale_matching.specs.inner.Spelled.{AreSpelled};
ghost use Rattle.icu_locale_matching.specs.declared.candidates.Candidate.{Candidate as TheCandidate};

use crate::distances::levels_for;
use crate::leading::leading_of;
use crate::macros::is_macro;
use crate::spellings::{Spellings, spellings_of};
use crate::telling::tells_apart;
use icu_locale::LocaleExpander;
use icu_locale_core::{Language, LanguageIdentifier};
use icu_provider::{DataLocale, LanguageMatching, NotedMap};
use std::alloc::{AllocError, Global};

// What a match asks of an available identifier.
#[derive(Clone, Copy, Debug)]
pub(crate) struct Candidate {
    pub(crate) place: usize,
    // Its maximal form.
    pub(crate) form: DataLocale,
    // Its region is a macro region.
    pub(crate) is_macro: bool,
    pub(crate) unlikeliness: u8,
    pub(crate) off_paradigm: bool,
    // Which of the first region rules of its own language fit on its side.
    pub(crate) serving: [bool; 8],
}

/// What a `LocaleMatcher` is asked over: the available identifiers, and what a match asks of each, by language. It
/// borrows no table, so that a program can keep it beside its tables, and lends it with them at each call, by
/// `LocaleMatcher::over`. In contracts `IsMadeOver` says over which tables it was made.
#[derive(Debug)]
pub struct Candidates {
    pub(crate) identifiers: Vec<LanguageIdentifier>,
    pub(crate) forms: Vec<Candidate>,
    pub(crate) groups: NotedMap<Language, Vec<Candidate>>,
    // Those that stand for the others of their language.
    pub(crate) leaders: NotedMap<Language, Vec<Candidate>>,
    // Where each is in its own spelling.
    pub(crate) spelled: Spellings,
    // Where each is in its maximal form.
    pub(crate) formed: Spellings,
    // Only equal forms have the distance 0.
    pub(crate) tells_apart: bool,
}

impl Drop for Candidates {
    fn drop(self) {
        let Candidates {
            identifiers: _,
            forms: _,
            groups: _,
            leaders: _,
            spelled: _,
            formed: _,
            tells_apart: _,
        } = self;
    }
}

impl Candidates {
    /// Over likely subtags, match rules and the identifiers that are available. It takes memory for three entries an
    /// identifier at most, two lists a language, a copy of each identifier that is dropped again, and notes of their
    /// spellings and of their maximal forms.
    ///
    /// # Errors
    ///
    /// `AllocError` where memory was refused. The identifiers are dropped then.
    pub fn try_new(
        alloc: Global,
        expander: &LocaleExpander<'_>,
        matching: &LanguageMatching,
        identifiers: Vec<LanguageIdentifier>,
    ) -> Result<Self, AllocError>
        ensures made { IfOk result (IsMadeOver (likely expander.now) matching.now) }
        ensures available { IfOk result (λ c. identifiers_of c ≡ identifiers.items) }
    {
        let paradigms = paradigms_of(alloc, expander, matching)?;
        let forms = forms_of(alloc, expander, matching, &paradigms, &identifiers)?;
        let groups = groups_of(alloc, &forms)?;
        let leading = leading_of(alloc, matching, &identifiers, &forms)?;
        let leaders = groups_of(alloc, &leading)?;
        let spelled = spellings_of(alloc, &identifiers)?;
        let formed = formed_of(alloc, expander, &identifiers)?;
        Ok(Candidates {
            identifiers,
            forms,
            groups,
            leaders,
            spelled,
            formed,
            tells_apart: tells_apart(matching),
        })
    }

    /// The available identifiers, as they were handed in. It takes no memory.
    pub fn identifiers(&self) -> &[LanguageIdentifier]
        ensures { result.now ≡ identifiers_of self.now }
    {
        &self.identifiers
    }

    // The candidates of a language.
    #[inline(always)]
    pub(crate) fn of_language(&self, language: &Language) -> &[Candidate]
        requires { IsGrouped self.now.forms.items (length self.now.forms.items) self.now.groups }
        ensures { result.now ≡ filter (has_language language.now) self.now.forms.items }
    {
        group_at(&self.groups, language)
    }

    // Those that stand for the others of a language.
    #[inline(always)]
    pub(crate) fn leaders_of(&self, language: &Language) -> &[Candidate]
        ensures { (leading : List TheCandidate) → IsGrouped leading (length leading) self.now.leaders
            → result.now ≡ filter (has_language language.now) leading }
    {
        group_at(&self.leaders, language)
    }
}

// The group of a language.
#[inline(always)]
fn group_at<'g>(
    groups: &'g NotedMap<Language, Vec<Candidate>>,
    language: &Language,
) -> &'g [Candidate]
    ensures { (forms : List TheCandidate) → IsGrouped forms (length forms) groups.now
        → result.now ≡ filter (has_language language.now) forms }
{
    match groups.get(language) {
        Some(group) => group,
        None => &[],
    }
}

// The candidates by their languages.
fn groups_of(
    alloc: Global,
    forms: &[Candidate],
) -> Result<NotedMap<Language, Vec<Candidate>>, AllocError>
    ensures { IfOk result (IsGrouped forms.now (length forms.now)) }
{
    let mut groups = NotedMap::new(alloc);
    for candidate in forms {
        let language = candidate.form.language;
        if !groups.contains_key(&language) {
            let group = group_of(alloc, forms, language)?;
            put(&mut groups, language, group)?;
        }
    }
    match groups.note(alloc) {
        Ok(()) => Ok(groups),
        Err(_) => Err(AllocError),
    }
}

// Puts a group to its language.
fn put(
    groups: &mut NotedMap<Language, Vec<Candidate>>,
    language: Language,
    group: Vec<Candidate>,
) -> Result<(), AllocError>
    ensures { OnOk result (groups.new ≡ insert_entry text_cmp groups.old language group) }
{
    match groups.insert(language, group) {
        Ok(()) => Ok(()),
        Err(_) => Err(AllocError),
    }
}

// The candidates of one language.
fn group_of(
    alloc: Global,
    forms: &[Candidate],
    language: Language,
) -> Result<Vec<Candidate>, AllocError>
    ensures { IfOk result (λ group. group.items ≡ filter (has_language language) forms.now) }
{
    forms
        .iter()
        .copied()
        .filter(|candidate| candidate.form.language == language)
        .collect(alloc)
}

// Where each is in its maximal form.
fn formed_of(
    alloc: Global,
    expander: &LocaleExpander<'_>,
    identifiers: &[LanguageIdentifier],
) -> Result<Spellings, AllocError>
    ensures { IfOk result (AreSpelled (map (in_form (likely expander.now)) identifiers.now) 0) }
{
    let forms = in_forms(alloc, expander, identifiers)?;
    spellings_of(alloc, &forms)
}

// Each with the subtags of its maximal form.
fn in_forms(
    alloc: Global,
    expander: &LocaleExpander<'_>,
    identifiers: &[LanguageIdentifier],
) -> Result<Vec<LanguageIdentifier>, AllocError>
    ensures { IfOk result (λ list. list.items
        ≡ map (in_form (likely expander.now)) identifiers.now) }
{
    let mut list = Vec::with_capacity(alloc, identifiers.len())?;
    for id in identifiers {
        list.push(in_form(expander, id)?)?;
    }
    Ok(list)
}

// An identifier with the subtags of its maximal form.
fn in_form(
    expander: &LocaleExpander<'_>,
    id: &LanguageIdentifier,
) -> Result<LanguageIdentifier, AllocError>
    ensures { IfOk result (λ x. x ≡ in_form (likely expander.now) id.now) }
{
    let form = form_of(expander, id);
    let mut copy = match id.try_clone() {
        Ok(copy) => copy,
        Err(_) => return Err(AllocError),
    };
    copy.language = form.language;
    copy.script = form.script;
    copy.region = form.region;
    Ok(copy)
}

// What a match asks of each.
fn forms_of(
    alloc: Global,
    expander: &LocaleExpander<'_>,
    matching: &LanguageMatching,
    paradigms: &[DataLocale],
    identifiers: &[LanguageIdentifier],
) -> Result<Vec<Candidate>, AllocError>
    requires { paradigms.now ≡ paradigms_of (likely expander.now) matching.now }
    ensures { IfOk result (λ forms. forms.items
        ≡ candidates_of (likely expander.now) matching.now identifiers.now) }
{
    identifiers
        .iter()
        .enumerate()
        .map(|(place, id)| candidate_of(expander, matching, paradigms, place, id))
        .collect(alloc)
}

// What a match asks of one.
fn candidate_of(
    expander: &LocaleExpander<'_>,
    matching: &LanguageMatching,
    paradigms: &[DataLocale],
    place: usize,
    id: &LanguageIdentifier,
) -> Candidate
    requires { paradigms.now ≡ paradigms_of (likely expander.now) matching.now }
    ensures { result ≡ candidate_of (likely expander.now) matching.now place id.now }
{
    let form = form_of(expander, id);
    Candidate {
        place,
        form,
        is_macro: is_macro(&matching.macros, &form.region),
        unlikeliness: unlikeliness_of(expander, &form),
        off_paradigm: !is_among(paradigms, &form),
        serving: levels_for(matching, &form.language).region.serving(&form),
    }
}

// The maximal form of an identifier, variants aside.
pub(crate) fn form_of(expander: &LocaleExpander<'_>, id: &LanguageIdentifier) -> DataLocale
    ensures { result ≡ form_of (likely expander.now) id.now }
{
    expander.maximal_locale(DataLocale {
        language: id.language,
        script: id.script,
        region: id.region,
    })
}

// How many subtags a maximal form needs beside its language.
fn unlikeliness_of(expander: &LocaleExpander<'_>, form: &DataLocale) -> u8
    ensures { result ≡ unlikeliness (likely expander.now) form.now }
{
    let alone = DataLocale {
        language: form.language,
        script: None,
        region: None,
    };
    if expander.maximal_locale(alone) == *form {
        return 0;
    }
    let without_region = DataLocale {
        language: form.language,
        script: form.script,
        region: None,
    };
    if expander.maximal_locale(without_region) == *form {
        1
    } else {
        2
    }
}

// The maximal forms of the paradigm locales.
fn paradigms_of(
    alloc: Global,
    expander: &LocaleExpander<'_>,
    matching: &LanguageMatching,
) -> Result<Vec<DataLocale>, AllocError>
    ensures { IfOk result (λ forms. forms.items
        ≡ paradigms_of (likely expander.now) matching.now) }
{
    matching
        .paradigms
        .iter()
        .map(|locale| expander.maximal_locale(*locale))
        .collect(alloc)
}

// Whether a form is one of these.
fn is_among(forms: &[DataLocale], form: &DataLocale) -> bool
    ensures { result ≡ is_among forms.now form.now }
{
    forms.iter().any(|one| *one == *form)
}
