//! Which way the script of an identifier runs.
ghost use Rattle.std.specs.Prelude.{◌≡◌, ◌↔◌, not, IsTrue, None, Some};
ghost use Rattle.std.specs.List.{list_all};
ghost use Rattle.icu_provider.specs.SortedMaps.{is_listed};
ghost use Rattle.icu_locale.specs.Construction.{both_or_refusal, loaded_common, loaded_extended, DirectsOver, IsMade};
ghost use Rattle.icu_locale.specs.LikelySubtags.{likely_script};
ghost use Rattle.icu_locale.specs.Direction.{AreDisjoint, is_script_in, direction_of};

use crate::{AsExpander, LocaleExpander};
use icu_locale_core::{LanguageIdentifier, Script};
use icu_provider::{
    DataError, DataProvider, LikelySubtagsExtended, LikelySubtagsForLanguage,
    LikelySubtagsForScriptRegion, NotedMap, Rows, ScriptDirection,
};

/// Which way a script runs.
#[derive(Clone, Copy, Debug, PartialEq, Eq)]
pub enum Direction {
    /// From left to right, as Latin.
    LeftToRight,
    /// From right to left, as Arabic.
    RightToLeft,
}

/// Which way identifiers run, over tables that it borrows. No call takes memory.
#[derive(Clone, Copy, Debug)]
pub struct LocaleDirectionality<'d, E = LocaleExpander<'d>> {
    /// What finds the likely script.
    pub expander: E,
    /// Which way scripts run.
    pub script_direction: &'d ScriptDirection,
}

impl<'d> LocaleDirectionality<'d> {
    /// Over the common tables of likely subtags.
    pub fn new_common(
        language: &'d LikelySubtagsForLanguage,
        script_region: &'d LikelySubtagsForScriptRegion,
        script_direction: &'d ScriptDirection,
    ) -> Self
        ensures expander { result.expander ≡ record {
          language = language.entry;
          script_region = script_region.entry;
          extended = None;
        } }
        ensures directions { result.script_direction ≡ script_direction.entry }
    {
        LocaleDirectionality::new_with_expander(
            script_direction,
            LocaleExpander::new_common(language, script_region),
        )
    }

    /// Over the common tables of likely subtags and the extended one, whose rows they cover.
    pub fn new_extended(
        language: &'d LikelySubtagsForLanguage,
        script_region: &'d LikelySubtagsForScriptRegion,
        extended: &'d LikelySubtagsExtended,
        script_direction: &'d ScriptDirection,
    ) -> Self
        ensures expander { result.expander ≡ record {
          language = language.entry;
          script_region = script_region.entry;
          extended = Some extended.entry;
        } }
        ensures directions { result.script_direction ≡ script_direction.entry }
    {
        LocaleDirectionality::new_with_expander(
            script_direction,
            LocaleExpander::new_extended(language, script_region, extended),
        )
    }

    /// Over the common tables of a provider, and then its directions.
    ///
    /// # Errors
    ///
    /// The first refusal of the provider, unchanged.
    pub fn try_new_common_unstable<P: DataProvider>(provider: &'d P) -> Result<Self, DataError>
        ensures { IsMade DirectsOver
            (both_or_refusal (loaded_common (P.likely_language provider.now)
            (P.likely_script_region provider.now)) (P.script_direction provider.now)) result }
    {
        let expander = LocaleExpander::try_new_common_unstable(provider)?;
        LocaleDirectionality::try_new_with_expander_unstable(provider, expander)
    }

    /// Over the common tables of a provider and its extended one, and then its directions.
    ///
    /// # Errors
    ///
    /// The first refusal of the provider, unchanged.
    pub fn try_new_extended_unstable<P: DataProvider>(provider: &'d P) -> Result<Self, DataError>
        ensures { IsMade DirectsOver
            (both_or_refusal (loaded_extended (P.likely_language provider.now)
            (P.likely_script_region provider.now) (P.likely_extended provider.now))
            (P.script_direction provider.now)) result }
    {
        let expander = LocaleExpander::try_new_extended_unstable(provider)?;
        LocaleDirectionality::try_new_with_expander_unstable(provider, expander)
    }
}

impl<'d, E: AsExpander<'d>> LocaleDirectionality<'d, E> {
    /// Over an expander, or a reference to one.
    pub fn new_with_expander(script_direction: &'d ScriptDirection, expander: E) -> Self
        ensures expander { result.expander ≡ expander }
        ensures directions { result.script_direction ≡ script_direction.entry }
    {
        LocaleDirectionality {
            expander,
            script_direction,
        }
    }

    /// Over an expander, or a reference to one, and the directions of a provider.
    ///
    /// # Errors
    ///
    /// The refusal of the provider, unchanged.
    pub fn try_new_with_expander_unstable<P: DataProvider>(
        provider: &'d P,
        expander: E,
    ) -> Result<Self, DataError>
    where
        E: Drop,
        ensures { IsMade (λ table d. (d.expander ≡ expander)
            × (d.script_direction.now ≡ table)) (P.script_direction provider.now) result }
    {
        let script_direction = provider.load_script_direction()?;
        Ok(LocaleDirectionality::new_with_expander(script_direction, expander))
    }

    /// Which way the likely script of the identifier runs: left to right where that list has it, else right to left
    /// where the other has it, else none.
    pub fn get(&self, id: &LanguageIdentifier) -> Option<Direction>
        ensures { result ≡ direction_of self.now.script_direction.now
            (likely_script (E.table self.now.expander) id.now) }
    {
        let script = self.likely_script(id)?;
        if self.script_direction.is_ltr(script) {
            Some(Direction::LeftToRight)
        } else if self.script_direction.is_rtl(script) {
            Some(Direction::RightToLeft)
        } else {
            None
        }
    }

    /// Whether the likely script of the identifier is one of those from right to left.
    pub fn is_right_to_left(&self, id: &LanguageIdentifier) -> bool
        ensures { result ≡ is_script_in self.now.script_direction.now.rtl
            (likely_script (E.table self.now.expander) id.now) }
    {
        match self.likely_script(id) {
            Some(script) => self.script_direction.is_rtl(script),
            None => false,
        }
    }

    /// Whether the likely script of the identifier is one of those from left to right.
    pub fn is_left_to_right(&self, id: &LanguageIdentifier) -> bool
        ensures { result ≡ is_script_in self.now.script_direction.now.ltr
            (likely_script (E.table self.now.expander) id.now) }
    {
        match self.likely_script(id) {
            Some(script) => self.script_direction.is_ltr(script),
            None => false,
        }
    }

    /// Whether no script is in both lists, so that `is_right_to_left` tells what `get` answers
    /// (`laws::right_to_left_is_a_direction`).
    pub fn is_disjoint(&self) -> bool
        ensures { IsTrue result ↔ AreDisjoint self.now.script_direction.now }
    {
        shares_none(self.script_direction.ltr.iter(), &self.script_direction.rtl)
    }

    fn likely_script(&self, id: &LanguageIdentifier) -> Option<Script>
        ensures { result ≡ likely_script (E.table self.now.expander) id.now }
    {
        self.expander.as_expander().get_likely_script(id)
    }
}

// Whether none of the scripts is among the others.
fn shares_none(scripts: Rows<'_, Script, ()>, others: &NotedMap<Script, ()>) -> bool
    ensures { result ≡ list_all (λ row. not (is_listed others.now row.0)) scripts.entry }
{
    for (script, _) in scripts {
        if others.contains_key(script) {
            return false;
        }
    }
    true
}
