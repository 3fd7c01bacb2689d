//! Minimal forms: the three trials by the rows that they need, each asked for once.
ghost use Rattle.std.specs.Prelude.{◌≡◌, Some, None, false};
ghost use Rattle.std.specs.Option.{option_or};
ghost use Rattle.std.specs.Str.{bytes_eq};
ghost use Rattle.icu_locale_core.specs.Subtag.{und};
ghost use Rattle.icu_locale.specs.LikelySubtags.{
  known_subtag,
  unknown_script,
  unknown_region,
  maximal_of_bare,
  maximal_locale,
};
ghost use Rattle.icu_locale.specs.LikelyTable.{likely};
ghost use Rattle.icu_locale.specs.declared.expander.Favor.TheVariants.{RegionFirst, ScriptFirst};
ghost use Rattle.icu_locale.specs.declared.expander.looks.LikelyKey.TheVariants.{LanguageRegion, LanguageScript, LanguageAlone};
ghost use Rattle.icu_locale.specs.Locales.{locale_with};
ghost use Rattle.icu_locale.specs.inner.Trials.{IsTried, gives, gives_script, gives_region, drops_region, drops_script};

use crate::expander::looks::{LikelyKey, Triple, bare_locale};
use crate::expander::{Favor, LocaleExpander};
use icu_locale_core::{Language, Region, Script};
use icu_provider::DataLocale;

impl<'d> LocaleExpander<'d> {
    // The first of the three trials that has the maximal form of the given subtags, or that form.
    #[inline(always)]
    pub(crate) fn minimal_locale(&self, favor: Favor, given: DataLocale) -> DataLocale
        ensures { IsTried (likely self.now) favor (maximal_locale (likely self.now) given) result }
    {
        let bare = bare_locale(given);
        if bare.language.is_unknown() {
            return self.minimal_of_und(favor, bare);
        }
        self.minimal_of_known(favor, bare.language, bare.script, bare.region)
    }

    // The minimal form of what is bare and has the language `und`: a row may give another language.
    #[inline(never)]
    fn minimal_of_und(&self, favor: Favor, bare: DataLocale) -> DataLocale
        ensures { IsTried (likely self.now) favor (maximal_of_bare (likely self.now) bare) result }
    {
        let maximal = self.maximal_of_bare(bare);
        if let Some(script) = maximal.script
            && let Some(region) = maximal.region
            && !maximal.language.is_unknown()
            && !script.is_unknown()
            && !region.is_unknown()
        {
            return self.minimal_of_full(favor, maximal.language, script, region);
        }
        self.first_trial(favor, &maximal)
    }

    // The minimal form of a known language, and of a script and a region that are bare.
    #[inline(always)]
    fn minimal_of_known(
        &self,
        favor: Favor,
        language: Language,
        script: Option<Script>,
        region: Option<Region>,
    ) -> DataLocale
        requires known { bytes_eq language und ≡ false }
        requires script { known_subtag unknown_script script ≡ script }
        requires region { known_subtag unknown_region region ≡ region }
        ensures { IsTried (likely self.now) favor
            (maximal_of_bare (likely self.now) (locale_with language script region)) result }
    {
        if let Some(script) = script {
            if let Some(region) = region {
                return self.minimal_of_full(favor, language, script, region);
            }
            return match favor {
                Favor::RegionFirst => self.region_first_of_script(language, script),
                Favor::ScriptFirst => self.script_first_of_script(language, script),
            };
        }
        if let Some(region) = region {
            return match favor {
                Favor::RegionFirst => self.region_first_of_region(language, region),
                Favor::ScriptFirst => self.script_first_of_region(language, region),
            };
        }
        locale_with(language, None, None)
    }

    // The minimal form of a known language with a script and a region that are bare: nothing is filled in.
    #[inline(always)]
    fn minimal_of_full(
        &self,
        favor: Favor,
        language: Language,
        script: Script,
        region: Region,
    ) -> DataLocale
        requires known { bytes_eq language und ≡ false }
        requires script { known_subtag unknown_script (Some script) ≡ Some script }
        requires region { known_subtag unknown_region (Some region) ≡ Some region }
        ensures { IsTried (likely self.now) favor
            (locale_with language (Some script) (Some region)) result }
    {
        match favor {
            Favor::RegionFirst => self.region_first_of_full(language, script, region),
            Favor::ScriptFirst => self.script_first_of_full(language, script, region),
        }
    }

    // Of a language, a script and a region, the region favored.
    #[inline(never)]
    fn region_first_of_full(&self, language: Language, script: Script, region: Region) -> DataLocale
        requires known { bytes_eq language und ≡ false }
        requires script { known_subtag unknown_script (Some script) ≡ Some script }
        requires region { known_subtag unknown_region (Some region) ≡ Some region }
        ensures { IsTried (likely self.now) RegionFirst
            (locale_with language (Some script) (Some region)) result }
    {
        let plain = self.row_at(&LikelyKey::LanguageAlone(language));
        if gives(&plain, script, region) {
            return locale_with(language, None, None);
        }
        if self.region_leads(language, script, region, &plain) {
            return locale_with(language, None, Some(region));
        }
        if self.script_leads(language, script, region, &plain) {
            return locale_with(language, Some(script), None);
        }
        locale_with(language, Some(script), Some(region))
    }

    // Of a language, a script and a region, the script favored.
    #[inline(never)]
    fn script_first_of_full(&self, language: Language, script: Script, region: Region) -> DataLocale
        requires known { bytes_eq language und ≡ false }
        requires script { known_subtag unknown_script (Some script) ≡ Some script }
        requires region { known_subtag unknown_region (Some region) ≡ Some region }
        ensures { IsTried (likely self.now) ScriptFirst
            (locale_with language (Some script) (Some region)) result }
    {
        let plain = self.row_at(&LikelyKey::LanguageAlone(language));
        if gives(&plain, script, region) {
            return locale_with(language, None, None);
        }
        if self.script_leads(language, script, region, &plain) {
            return locale_with(language, Some(script), None);
        }
        if self.region_leads(language, script, region, &plain) {
            return locale_with(language, None, Some(region));
        }
        locale_with(language, Some(script), Some(region))
    }

    // The minimal form of a language and a region, the region favored: with the region, unless the row of the language
    // alone gives it back.
    #[inline(never)]
    fn region_first_of_region(&self, language: Language, region: Region) -> DataLocale
        requires known { bytes_eq language und ≡ false }
        requires region { known_subtag unknown_region (Some region) ≡ Some region }
        ensures { IsTried (likely self.now) RegionFirst
            (maximal_of_bare (likely self.now) (locale_with language None (Some region))) result }
    {
        if self.drops_region(language, region) {
            return locale_with(language, None, None);
        }
        locale_with(language, None, Some(region))
    }

    // The minimal form of a language and a script, the script favored: with the script, unless the row of the language
    // alone gives it back.
    #[inline(never)]
    fn script_first_of_script(&self, language: Language, script: Script) -> DataLocale
        requires known { bytes_eq language und ≡ false }
        requires script { known_subtag unknown_script (Some script) ≡ Some script }
        ensures { IsTried (likely self.now) ScriptFirst
            (maximal_of_bare (likely self.now) (locale_with language (Some script) None)) result }
    {
        if self.drops_script(language, script) {
            return locale_with(language, None, None);
        }
        locale_with(language, Some(script), None)
    }

    // The minimal form of a language and a region, the script favored: the script that is filled in is tried first.
    #[inline(never)]
    fn script_first_of_region(&self, language: Language, region: Region) -> DataLocale
        requires known { bytes_eq language und ≡ false }
        requires region { known_subtag unknown_region (Some region) ≡ Some region }
        ensures { IsTried (likely self.now) ScriptFirst
            (maximal_of_bare (likely self.now) (locale_with language None (Some region))) result }
    {
        let plain = self.row_at(&LikelyKey::LanguageAlone(language));
        let own = self.row_at(&LikelyKey::LanguageRegion(language, region));
        let Some(row) = own.or(plain) else {
            return locale_with(language, None, Some(region));
        };
        let script = row.1;
        if gives(&plain, script, region) {
            return locale_with(language, None, None);
        }
        if script.is_unknown() {
            return locale_with(language, None, Some(region));
        }
        if self.script_leads(language, script, region, &plain) {
            return locale_with(language, Some(script), None);
        }
        locale_with(language, None, Some(region))
    }

    // The minimal form of a language and a script, the region favored: the region that is filled in is tried first.
    #[inline(never)]
    fn region_first_of_script(&self, language: Language, script: Script) -> DataLocale
        requires known { bytes_eq language und ≡ false }
        requires script { known_subtag unknown_script (Some script) ≡ Some script }
        ensures { IsTried (likely self.now) RegionFirst
            (maximal_of_bare (likely self.now) (locale_with language (Some script) None)) result }
    {
        let plain = self.row_at(&LikelyKey::LanguageAlone(language));
        let own = self.row_at(&LikelyKey::LanguageScript(language, script));
        let Some(row) = own.or(plain) else {
            return locale_with(language, Some(script), None);
        };
        let region = row.2;
        if gives(&plain, script, region) {
            return locale_with(language, None, None);
        }
        if region.is_unknown() {
            return locale_with(language, Some(script), None);
        }
        if self.region_leads(language, script, region, &plain) {
            return locale_with(language, None, Some(region));
        }
        locale_with(language, Some(script), None)
    }

    // Whether the language alone has the maximal form of the language with a region. The region's own row is asked for
    // only where the language's gives that region.
    #[inline(always)]
    fn drops_region(&self, language: Language, region: Region) -> bool
        ensures { result ≡ drops_region (likely self.now (LanguageAlone language))
            (likely self.now (LanguageRegion language region)) region }
    {
        let Some(row) = self.row_at(&LikelyKey::LanguageAlone(language)) else {
            return false;
        };
        if row.2 == region {
            return match self.row_at(&LikelyKey::LanguageRegion(language, region)) {
                Some(own) => own.1 == row.1,
                None => true,
            };
        }
        false
    }

    // Whether the language alone has the maximal form of the language with a script. The script's own row is asked for
    // only where the language's gives that script.
    #[inline(always)]
    fn drops_script(&self, language: Language, script: Script) -> bool
        ensures { result ≡ drops_script (likely self.now (LanguageAlone language))
            (likely self.now (LanguageScript language script)) script }
    {
        let Some(row) = self.row_at(&LikelyKey::LanguageAlone(language)) else {
            return false;
        };
        if row.1 == script {
            return match self.row_at(&LikelyKey::LanguageScript(language, script)) {
                Some(own) => own.2 == row.2,
                None => true,
            };
        }
        false
    }

    // Whether the language with the region has a maximal form with the script: by the region's own row, or else by that
    // of the language alone.
    fn region_leads(
        &self,
        language: Language,
        script: Script,
        region: Region,
        plain: &Option<Triple>,
    ) -> bool
        ensures { result ≡ gives_script
            (option_or (likely self.now (LanguageRegion language region)) plain.now) script }
    {
        match self
            .row_at(&LikelyKey::LanguageRegion(language, region))
            .or(*plain)
        {
            Some(row) => row.1 == script,
            None => false,
        }
    }

    // Whether the language with the script has a maximal form with the region: by the script's own row, or else by that
    // of the language alone.
    fn script_leads(
        &self,
        language: Language,
        script: Script,
        region: Region,
        plain: &Option<Triple>,
    ) -> bool
        ensures { result ≡ gives_region
            (option_or (likely self.now (LanguageScript language script)) plain.now) region }
    {
        match self
            .row_at(&LikelyKey::LanguageScript(language, script))
            .or(*plain)
        {
            Some(row) => row.2 == region,
            None => false,
        }
    }
}

// A language, a script and a region.
#[inline(always)]
fn locale_with(language: Language, script: Option<Script>, region: Option<Region>) -> DataLocale
    ensures { result ≡ locale_with language script region }
{
    DataLocale {
        language,
        script,
        region,
    }
}

// Whether a row gives the script and the region.
#[inline(always)]
fn gives(row: &Option<Triple>, script: Script, region: Region) -> bool
    ensures { result ≡ gives row.now script region }
{
    match row {
        Some(row) => row.1 == script && row.2 == region,
        None => false,
    }
}
