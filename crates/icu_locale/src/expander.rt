//! Likely subtags: maximal and minimal forms of identifiers.

ghost use Rattle.std.specs.Prelude.{◌≡◌, ◌≢◌, ◌↔◌, false, Some, None};
ghost use Rattle.icu_locale.specs.LikelySubtags.{bare_locale, subtags_of, with_locale, maximal_of_bare, maximal_locale, maximal, likely_script, IsModified};
ghost use Rattle.icu_locale.specs.Locales.{same_locale};
ghost use Rattle.icu_locale.specs.inner.Trials.{alone, with_favored, with_other, IsTried};
ghost use Rattle.icu_locale.specs.LikelyTable.{likely};
ghost use Rattle.icu_locale.specs.Construction.{loaded_common, loaded_extended, StandsOn, IsMade};
ghost use Rattle.icu_locale.specs.declared.expander.Favor.TheVariants.{RegionFirst, ScriptFirst};
ghost use Rattle.icu_locale.specs.Minimal.{IsMinimalForm};

pub(crate) mod looks;
mod minimal;

use crate::expander::looks::{bare_locale, fill_in, remove_unknown};
use icu_locale_core::{LanguageIdentifier, Script};
use icu_provider::{
    DataError, DataLocale, DataProvider, LikelySubtagsExtended, LikelySubtagsForLanguage,
    LikelySubtagsForScriptRegion,
};

/// Whether an identifier was changed.
#[derive(Clone, Copy, Debug, PartialEq, Eq)]
pub enum TransformResult {
    /// It was.
    Modified,
    /// It was not.
    Unmodified,
}

/// Which of two identifiers with equally many subtags is taken.
#[derive(Clone, Copy, Debug, PartialEq, Eq)]
pub enum Favor {
    /// The one with the region.
    RegionFirst,
    /// The one with the script.
    ScriptFirst,
}

/// Likely subtags (UTS #35, section 4.3) over tables that it borrows. No call takes memory.
#[derive(Clone, Copy, Debug)]
pub struct LocaleExpander<'d> {
    /// The likely subtags by language.
    pub language: &'d LikelySubtagsForLanguage,
    /// The likely subtags by script and region.
    pub script_region: &'d LikelySubtagsForScriptRegion,
    /// The further likely subtags, if any.
    pub extended: Option<&'d LikelySubtagsExtended>,
}

impl<'d> LocaleExpander<'d> {
    /// Over the common tables alone.
    pub fn new_common(
        language: &'d LikelySubtagsForLanguage,
        script_region: &'d LikelySubtagsForScriptRegion,
    ) -> Self
        ensures { result ≡ record {
          language = language.entry;
          script_region = script_region.entry;
          extended = None;
        } }
    {
        LocaleExpander {
            language,
            script_region,
            extended: None,
        }
    }

    /// Over the common tables and the extended one, whose rows they cover.
    pub fn new_extended(
        language: &'d LikelySubtagsForLanguage,
        script_region: &'d LikelySubtagsForScriptRegion,
        extended: &'d LikelySubtagsExtended,
    ) -> Self
        ensures { result ≡ record {
          language = language.entry;
          script_region = script_region.entry;
          extended = Some extended.entry;
        } }
    {
        LocaleExpander {
            language,
            script_region,
            extended: Some(extended),
        }
    }

    /// Over the common tables of a provider: the likely subtags by language are loaded first, then those by script and
    /// region.
    ///
    /// # Errors
    ///
    /// The first refusal of the provider, unchanged.
    pub fn try_new_common_unstable<P: DataProvider>(provider: &'d P) -> Result<Self, DataError>
        ensures { IsMade StandsOn
            (loaded_common (P.likely_language provider.now) (P.likely_script_region provider.now))
            result }
    {
        let language = provider.load_likely_language()?;
        let script_region = provider.load_likely_script_region()?;
        Ok(LocaleExpander::new_common(language, script_region))
    }

    /// Over the common tables of a provider and its extended one, which is loaded last.
    ///
    /// # Errors
    ///
    /// The first refusal of the provider, unchanged.
    pub fn try_new_extended_unstable<P: DataProvider>(provider: &'d P) -> Result<Self, DataError>
        ensures { IsMade StandsOn
            (loaded_extended (P.likely_language provider.now) (P.likely_script_region provider.now)
            (P.likely_extended provider.now)) result }
    {
        let language = provider.load_likely_language()?;
        let script_region = provider.load_likely_script_region()?;
        let extended = provider.load_likely_extended()?;
        Ok(LocaleExpander::new_extended(language, script_region, extended))
    }

    /// Adds the likely subtags: the identifier becomes its maximal form. The answer is `Modified` exactly where a
    /// subtag was removed or filled in, also where both leave it as it was; after `Unmodified` it is as it was.
    #[inline(never)]
    pub fn maximize(&self, id: &mut LanguageIdentifier) -> TransformResult
        ensures maximal { id.new ≡ maximal (likely self.now) id.old }
        ensures modified { (result ≡ TransformResult.Modified)
            ↔ IsModified (likely self.now) id.old }
        ensures unmodified { result ≡ TransformResult.Unmodified → id.new ≡ id.old }
    {
        let removed = remove_unknown(&mut id.script, &mut id.region);
        let added = match self.added(id.language, id.script, id.region) {
            Some(row) => fill_in(&mut id.language, &mut id.script, &mut id.region, row),
            None => false,
        };
        if removed || added {
            TransformResult::Modified
        } else {
            TransformResult::Unmodified
        }
    }

    /// Removes the subtags that likely subtags give back: the identifier becomes its minimal form, the shortest with
    /// the language of the maximal form and the same maximal form, or the maximal form where there is none such. Of two
    /// that are equally short it takes the one with the region. The answer is `Modified` exactly where the identifier
    /// changed, and `Unmodified` exactly where it did not.
    #[inline(never)]
    pub fn minimize(&self, id: &mut LanguageIdentifier) -> TransformResult
        ensures minimal { IsMinimalForm RegionFirst (likely self.now) id.old id.new }
        ensures modified { (result ≡ TransformResult.Modified) ↔ (id.new ≢ id.old) }
        ensures unmodified { (result ≡ TransformResult.Unmodified) ↔ (id.new ≡ id.old) }
    {
        self.minimize_favoring(Favor::RegionFirst, id)
    }

    /// As `minimize`, but of two that are equally short it takes the one with the script.
    #[inline(never)]
    pub fn minimize_favor_script(&self, id: &mut LanguageIdentifier) -> TransformResult
        ensures minimal { IsMinimalForm ScriptFirst (likely self.now) id.old id.new }
        ensures modified { (result ≡ TransformResult.Modified) ↔ (id.new ≢ id.old) }
        ensures unmodified { (result ≡ TransformResult.Unmodified) ↔ (id.new ≡ id.old) }
    {
        self.minimize_favoring(Favor::ScriptFirst, id)
    }

    /// The script of the maximal form, if it has one.
    pub fn get_likely_script(&self, id: &LanguageIdentifier) -> Option<Script>
        ensures { result ≡ likely_script (likely self.now) id.now }
    {
        match id.script {
            Some(script) if !script.is_unknown() => Some(script),
            _ => self.maximal_locale(locale_of(id)).script,
        }
    }

    #[inline(always)]
    fn minimize_favoring(&self, favor: Favor, id: &mut LanguageIdentifier) -> TransformResult
        ensures minimal { IsMinimalForm favor (likely self.now) id.old id.new }
        ensures modified { (result ≡ TransformResult.Modified) ↔ (id.new ≢ id.old) }
        ensures unmodified { (result ≡ TransformResult.Unmodified) ↔ (id.new ≡ id.old) }
    {
        let given = locale_of(id);
        let minimal = self.minimal_locale(favor, given);
        set_locale(id, minimal)
    }

    // The first of the three trials that has a maximal form, or that form.
    fn first_trial(&self, favor: Favor, maximal: &DataLocale) -> DataLocale
        ensures { IsTried (likely self.now) favor maximal.now result }
    {
        let alone = language_alone(maximal);
        if self.leads_to(&alone, maximal) {
            return alone;
        }
        let (second, third) = with_one(favor, maximal);
        if self.leads_to(&second, maximal) {
            return second;
        }
        if self.leads_to(&third, maximal) {
            return third;
        }
        *maximal
    }

    // Whether a trial has the maximal form.
    pub(crate) fn leads_to(&self, trial: &DataLocale, maximal: &DataLocale) -> bool
        ensures { result ≡ same_locale (maximal_locale (likely self.now) trial.now) maximal.now }
    {
        self.maximal_locale(*trial) == *maximal
    }

    /// The maximal form of a language, a script and a region. It takes no memory.
    pub fn maximal_locale(&self, given: DataLocale) -> DataLocale
        ensures { result ≡ maximal_locale (likely self.now) given }
    {
        self.maximal_of_bare(bare_locale(given))
    }

    // The maximal form of what has neither script `Zzzz` nor region `ZZ`.
    fn maximal_of_bare(&self, mut bare: DataLocale) -> DataLocale
        ensures { result ≡ maximal_of_bare (likely self.now) bare }
    {
        if let Some(row) = self.added(bare.language, bare.script, bare.region) {
            fill_in(&mut bare.language, &mut bare.script, &mut bare.region, row);
        }
        bare
    }
}

// The language, the script and the region of an identifier.
pub(crate) fn locale_of(id: &LanguageIdentifier) -> DataLocale
    ensures { result ≡ subtags_of id.now }
{
    DataLocale {
        language: id.language,
        script: id.script,
        region: id.region,
    }
}

// The language alone.
fn language_alone(maximal: &DataLocale) -> DataLocale
    ensures { result ≡ alone maximal.now }
{
    DataLocale {
        language: maximal.language,
        script: None,
        region: None,
    }
}

// The language with the favored subtag, and with the other one.
fn with_one(favor: Favor, maximal: &DataLocale) -> (DataLocale, DataLocale)
    ensures favored { result.0 ≡ with_favored favor maximal.now }
    ensures other { result.1 ≡ with_other favor maximal.now }
{
    let with_region = DataLocale {
        language: maximal.language,
        script: None,
        region: maximal.region,
    };
    let with_script = DataLocale {
        language: maximal.language,
        script: maximal.script,
        region: None,
    };
    match favor {
        Favor::RegionFirst => (with_region, with_script),
        Favor::ScriptFirst => (with_script, with_region),
    }
}

// Writes a language, a script and a region, leaves the variants, and tells whether that changed anything.
fn set_locale(id: &mut LanguageIdentifier, locale: DataLocale) -> TransformResult
    ensures value { id.new ≡ with_locale id.old locale }
    ensures modified { (result ≡ TransformResult.Modified) ↔ (id.new ≢ id.old) }
    ensures unmodified { (result ≡ TransformResult.Unmodified) ↔ (id.new ≡ id.old) }
{
    let given = locale_of(id);
    id.language = locale.language;
    id.script = locale.script;
    id.region = locale.region;
    if locale == given {
        TransformResult::Unmodified
    } else {
        TransformResult::Modified
    }
}
