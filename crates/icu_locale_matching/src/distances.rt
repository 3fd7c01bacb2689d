//! The distance of a supported form from a desired one (UTS #35 Part 1, section 4.4).
ghost use Rattle.std.specs.Prelude.{◌≡◌, ◌≤◌, IsTrue, ◌<◌, ◌^◌, ◌||◌, if◌then◌else◌, option_copied, map, max, Some};
ghost use Rattle.icu_provider.specs.declared.data_locale.DataLocale.{DataLocale as TheLocale};
ghost use Rattle.std.specs.Option.{option_eq};
ghost use Rattle.std.specs.Str.{bytes_eq};
ghost use Rattle.std.specs.List.{find, slice_get};
ghost use Rattle.icu_locale.specs.LikelyTable.{likely};
ghost use Rattle.icu_locale_matching.specs.Nearest.{form_of};
ghost use Rattle.icu_locale_matching.specs.Distance.{fits, level_distance, distance_by, distance, levels_over, levels_for, is_macro, with_region, greatest, greatest_to, region_distance};
ghost use Rattle.icu_locale_matching.specs.inner.Known.{serves_at, serving_of};
ghost use Rattle.icu_locale_matching.specs.inner.Known.{AreKnown, AreServing, fits_at};
ghost use Rattle.icu_locale_matching.specs.inner.Levels.{shown_level, shown, distance_favoring, IsBelow};

use crate::candidates::form_of;
use crate::limits::{FavorSubtag, share};
use crate::macros::{Macros, at_region, greater, is_macro, row_of};
use crate::patterns::{fits, fits_known, fits_pattern, serves};
use icu_locale::LocaleExpander;
use icu_locale_core::{Language, LanguageIdentifier, Region};
use icu_provider::{DataLocale, LanguageMatching, MatchRule};

// The rules of one level, and the distance where none fits.
#[derive(Clone, Copy)]
pub(crate) struct LentLevel<'d> {
    pub(crate) rules: &'d [MatchRule],
    pub(crate) other: u16,
}

// The levels for a desired language.
#[derive(Clone, Copy)]
pub(crate) struct LentLevels<'d> {
    pub(crate) language: LentLevel<'d>,
    pub(crate) script: LentLevel<'d>,
    pub(crate) region: LentLevel<'d>,
    pub(crate) macros: &'d Macros,
}

/// The distance of a supported form from a desired one: at each of language, script and region nothing where the
/// subtags are equal, else that of the first rule of the desired language that fits, else that of the level. Where
/// the regions differ and one is a macro region, it is the greatest over the regions that they stand for. The forms
/// are maximal forms, as `LocaleExpander::maximal_locale` gives them. It takes no memory.
pub fn distance(matching: &LanguageMatching, desired: &DataLocale, supported: &DataLocale) -> u32
    ensures { result ≡ distance matching.now desired.now supported.now }
{
    levels_for(matching, &desired.language).distance(desired, supported)
}

/// The distance of a supported identifier from a desired one, both as they are: that of their maximal forms. It takes no
/// memory.
pub fn distance_of(
    expander: &LocaleExpander<'_>,
    matching: &LanguageMatching,
    desired: &LanguageIdentifier,
    supported: &LanguageIdentifier,
) -> u32
    ensures { result ≡ distance matching.now (form_of (likely expander.now) desired.now)
        (form_of (likely expander.now) supported.now) }
{
    distance(
        matching,
        &form_of(expander, desired),
        &form_of(expander, supported),
    )
}

// The levels for a desired language.
pub(crate) fn levels_for<'d>(matching: &'d LanguageMatching, language: &Language) -> LentLevels<'d>
    ensures { shown result ≡ levels_for matching.now language.now }
{
    match matching.rules.get_numbered(language) {
        Some(rules) => levels_over(matching, &rules.language, &rules.script, &rules.region),
        None => levels_over(matching, &[], &[], &[]),
    }
}

// The levels over lists of rules.
fn levels_over<'d>(
    matching: &'d LanguageMatching,
    language: &'d [MatchRule],
    script: &'d [MatchRule],
    region: &'d [MatchRule],
) -> LentLevels<'d>
    ensures { shown result ≡ levels_over matching.now language.now script.now region.now }
{
    LentLevels {
        language: LentLevel {
            rules: language,
            other: matching.other_language,
        },
        script: LentLevel {
            rules: script,
            other: matching.other_script,
        },
        region: LentLevel {
            rules: region,
            other: matching.other_region,
        },
        macros: &matching.macros,
    }
}

impl<'d> LentLevel<'d> {
    // The first rule that fits.
    fn first_fit(&self, desired: &DataLocale, supported: &DataLocale) -> Option<&'d MatchRule>
        ensures { option_copied result
            ≡ find (fits desired.now supported.now) self.now.rules.now }
    {
        self.rules
            .iter()
            .find(|rule| fits(rule, desired, supported))
    }

    // The distance of the first rule that fits.
    fn distance(&self, desired: &DataLocale, supported: &DataLocale) -> u16
        ensures { result ≡ level_distance (shown_level self.now) desired.now supported.now }
    {
        match self.first_fit(desired, supported) {
            Some(rule) => rule.distance,
            None => self.other,
        }
    }

    // No distance of the level is less.
    pub(crate) fn least(&self) -> u16
        ensures { (d s : TheLocale) → result ≤ level_distance (shown_level self.now) d s }
    {
        let mut least = self.other;
        for rule in self.rules {
            least = least.min(rule.distance);
        }
        least
    }

    // Whether the desired pattern of each of the first rules fits.
    pub(crate) fn known(&self, desired: &DataLocale) -> [bool; 8]
        ensures { AreKnown self.now.rules.now desired.now result }
    {
        [
            self.fits_at(desired, 0),
            self.fits_at(desired, 1),
            self.fits_at(desired, 2),
            self.fits_at(desired, 3),
            self.fits_at(desired, 4),
            self.fits_at(desired, 5),
            self.fits_at(desired, 6),
            self.fits_at(desired, 7),
        ]
    }

    // Whether the desired pattern of the rule at a place fits.
    fn fits_at(&self, desired: &DataLocale, place: usize) -> bool
        ensures { result ≡ fits_at self.now.rules.now desired.now place }
    {
        match self.rules.get(place) {
            Some(rule) => fits_pattern(&rule.desired, desired),
            None => false,
        }
    }

    // Whether each of the first rules is for the language of a supported form, and fits it.
    pub(crate) fn serving(&self, supported: &DataLocale) -> [bool; 8]
        ensures { result ≡ serving_of self.now.rules.now supported.now }
    {
        [
            self.serves_at(supported, 0),
            self.serves_at(supported, 1),
            self.serves_at(supported, 2),
            self.serves_at(supported, 3),
            self.serves_at(supported, 4),
            self.serves_at(supported, 5),
            self.serves_at(supported, 6),
            self.serves_at(supported, 7),
        ]
    }

    // The same of the rule at a place.
    fn serves_at(&self, supported: &DataLocale, place: usize) -> bool
        ensures { result ≡ serves_at self.now.rules.now supported.now place }
    {
        match self.rules.get(place) {
            Some(rule) => serves(rule, supported),
            None => false,
        }
    }

    // The distance of the first rule that fits, where this is known of desired patterns, and of supported ones.
    fn distance_known(
        &self,
        known: &[bool],
        serving: &[bool],
        desired: &DataLocale,
        supported: &DataLocale,
    ) -> u16
        requires known { AreKnown self.now.rules.now desired.now known.now }
        requires serving { AreServing self.now.rules.now supported.now serving.now }
        ensures { result ≡ level_distance (shown_level self.now) desired.now supported.now }
    {
        for place in 0..self.rules.len() {
            let rule = &self.rules[place];
            let fits = fits_known(
                mark_at(known, place),
                mark_at(serving, place),
                rule,
                desired,
                supported,
            );
            if fits {
                return rule.distance;
            }
        }
        self.other
    }

    // Nothing where the subtags of the level are the same.
    fn part(&self, same: bool, desired: &DataLocale, supported: &DataLocale) -> u32
        ensures value { result
            ≡ (if same then 0
            else level_distance (shown_level self.now) desired.now supported.now) }
        ensures small { result < 2 ^ 16 }
    {
        if same {
            0
        } else {
            u32::from(self.distance(desired, supported))
        }
    }
}

impl<'d> LentLevels<'d> {
    // The distance.
    fn distance(&self, desired: &DataLocale, supported: &DataLocale) -> u32
        ensures { result ≡ distance_by (shown self.now) desired.now supported.now }
    {
        let same_language = desired.language == supported.language;
        let same_script = desired.script == supported.script;
        let any_macro = is_macro(self.macros, &desired.region)
            || is_macro(self.macros, &supported.region);
        self.language.part(same_language, desired, supported)
            + self.script.part(same_script, desired, supported)
            + self.region_part(any_macro, &[], &[], desired, supported)
    }

    // The distance by what is favored, if it is below a limit.
    pub(crate) fn distance_below(
        &self,
        favor: FavorSubtag,
        any_macro: bool,
        known: &[bool],
        serving: &[bool],
        least: u16,
        desired: &DataLocale,
        supported: &DataLocale,
        limit: u32,
    ) -> Option<u32>
        requires macros { any_macro ≡ (is_macro self.now.macros.now desired.now.region
            || is_macro self.now.macros.now supported.now.region) }
        requires known { AreKnown self.now.region.rules.now desired.now known.now }
        requires serving { AreServing self.now.region.rules.now supported.now serving.now }
        requires least { (d s : TheLocale)
            → least ≤ level_distance (shown_level self.now.region) d s }
        ensures { IsBelow limit
            (distance_favoring favor (shown self.now) desired.now supported.now) result }
    {
        let same_language = desired.language == supported.language;
        let language = share(favor, self.language.part(same_language, desired, supported));
        if language >= limit {
            return None;
        }
        let same_script = desired.script == supported.script;
        let to_script = language + self.script.part(same_script, desired, supported);
        if to_script >= limit {
            return None;
        }
        if self.is_far(any_macro, least, limit - to_script, desired, supported) {
            return None;
        }
        let to_region = to_script + self.region_part(any_macro, known, serving, desired, supported);
        if to_region < limit {
            Some(to_region)
        } else {
            None
        }
    }

    // Whether the regions are known to be as far as a limit: no distance of their level is less.
    fn is_far(
        &self,
        any_macro: bool,
        least: u16,
        limit: u32,
        desired: &DataLocale,
        supported: &DataLocale,
    ) -> bool
        requires macros { any_macro ≡ (is_macro self.now.macros.now desired.now.region
            || is_macro self.now.macros.now supported.now.region) }
        requires least { (d s : TheLocale)
            → least ≤ level_distance (shown_level self.now.region) d s }
        ensures { IsTrue result
            → limit ≤ (if option_eq bytes_eq desired.now.region supported.now.region then 0
            else region_distance (shown self.now) desired.now supported.now) }
    {
        if any_macro {
            return false;
        }
        if desired.region == supported.region {
            return false;
        }
        u32::from(least) >= limit
    }

    // Nothing where the regions are the same.
    fn region_part(
        &self,
        any_macro: bool,
        known: &[bool],
        serving: &[bool],
        desired: &DataLocale,
        supported: &DataLocale,
    ) -> u32
        requires macros { any_macro ≡ (is_macro self.now.macros.now desired.now.region
            || is_macro self.now.macros.now supported.now.region) }
        requires known { AreKnown self.now.region.rules.now desired.now known.now }
        requires serving { AreServing self.now.region.rules.now supported.now serving.now }
        ensures value { result
            ≡ (if option_eq bytes_eq desired.now.region supported.now.region then 0
            else region_distance (shown self.now) desired.now supported.now) }
        ensures small { result < 2 ^ 16 }
    {
        if desired.region == supported.region {
            return 0;
        }
        if any_macro {
            u32::from(self.greatest(desired, supported))
        } else {
            u32::from(
                self.region
                    .distance_known(known, serving, desired, supported),
            )
        }
    }

    // The greatest distance over what the regions stand for.
    fn greatest(&self, desired: &DataLocale, supported: &DataLocale) -> u16
        ensures { result ≡ region_distance (shown self.now) desired.now supported.now }
    {
        match row_of(self.macros, &desired.region) {
            Some(row) => self.greatest_from(row, desired, supported),
            None => self.greatest_to(desired, supported),
        }
    }

    // The greatest over the regions of a row, as desired regions.
    fn greatest_from(&self, row: &[Region], desired: &DataLocale, supported: &DataLocale) -> u16
        ensures { result ≡ greatest (map (λ r. greatest_to (shown self.now)
            (with_region desired.now (Some r)) supported.now) row.now) }
    {
        let mut most = 0;
        for region in row {
            let desired = at_region(desired, *region);
            most = greater(most, self.greatest_to(&desired, supported));
        }
        most
    }

    // The greatest over what the supported region stands for.
    fn greatest_to(&self, desired: &DataLocale, supported: &DataLocale) -> u16
        ensures { result ≡ greatest_to (shown self.now) desired.now supported.now }
    {
        match row_of(self.macros, &supported.region) {
            Some(row) => self.greatest_over(row, desired, supported),
            None => self.region.distance(desired, supported),
        }
    }

    // The greatest over the regions of a row, as supported regions.
    fn greatest_over(&self, row: &[Region], desired: &DataLocale, supported: &DataLocale) -> u16
        ensures { result ≡ greatest (map (λ r. level_distance (shown_level self.now.region)
            desired.now (with_region supported.now (Some r))) row.now) }
    {
        let mut most = 0;
        for region in row {
            let supported = at_region(supported, *region);
            most = greater(most, self.region.distance(desired, &supported));
        }
        most
    }
}

// The mark at a place, if it is there.
fn mark_at(marks: &[bool], place: usize) -> Option<bool>
    ensures { result ≡ slice_get marks.now place }
{
    match marks.get(place) {
        Some(mark) => Some(*mark),
        None => None,
    }
}
