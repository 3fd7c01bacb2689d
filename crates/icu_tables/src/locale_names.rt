//! Names, with those of one locale found beforehand.
ghost use Rattle.std.specs.Prelude.{◌≡◌, ◌<◌, ◌++◌, get_or, None, option_copied};
ghost use Rattle.std.specs.Option.{option_or};
ghost use Rattle.icu_locale_core.specs.Maps.{value_at};
ghost use Rattle.icu_provider.specs.Requests.{name_cmp, name_place};
ghost use Rattle.icu_tables.specs.Groups.{name_in_group};
ghost use Rattle.icu_tables.specs.LentNames.{lent_rows};
ghost use Rattle.icu_tables.specs.inner.Lent.{AreRunsIn, name_in_lent};

use crate::NameRows;
use crate::lent_names::{name_in_run, own_or_lent, run_of};
use icu_provider::laws::equality_is_told;
use icu_provider::{DataLocale, NameKey, NameMarker, NotedMap, TableText};
use icu_tables_flat::FlatTexts;
use std::marker::Model;

// The names of a kind in a locale, if there are any.
type Group<'d> = Option<&'d NotedMap<NameKey, TableText>>;

/// Names that are asked in one locale again and again: its names of each kind are found once. A contract sees the same
/// rows as of the names themselves. No call takes memory.
#[derive(Debug, Drop)]
pub struct LocaleNames<'d> {
    names: &'d NameRows,
    lent: Option<&'d FlatTexts<'static>>,
    locale: DataLocale,
    groups: [Group<'d>; 16],
    runs: [Option<usize>; 16],
}

impl<'d> Model for LocaleNames<'d> {
    ghost use Rattle.std.specs.Prelude.{◌++◌, List, ℕ, option_copied};
    ghost use Rattle.icu_provider.specs.declared.data_locale.DataLocale.{DataLocale};
    ghost use Rattle.icu_provider.specs.declared.names.NameKey.{NameKey};
    ghost use Rattle.icu_provider.specs.declared.names.NameMarker.{NameMarker};
    ghost use Rattle.icu_tables.specs.Groups.{AreGroupsIn};
    ghost use Rattle.icu_tables.specs.LentNames.{lent_rows};
    ghost use Rattle.icu_tables.specs.inner.Lent.{AreRunsIn};

    ghost Value = { List ((NameMarker × DataLocale × NameKey) × List ℕ) };

    ghost view = { λ a. a.names.now ++ lent_rows (option_copied a.lent) };

    ghost invariant = { λ a. AreGroupsIn a.names.now a.locale a.groups
        × AreRunsIn (option_copied a.lent) a.locale a.runs };
}

impl<'d> LocaleNames<'d> {
    // Names, to be asked in a locale.
    pub(crate) fn new(
        names: &'d NameRows,
        lent: Option<&'d FlatTexts<'static>>,
        locale: DataLocale,
    ) -> Self
        ensures { result ≡ names.now ++ lent_rows (option_copied lent.entry) }
    {
        LocaleNames {
            names,
            lent,
            locale,
            runs: runs_in(lent, &locale),
            groups: [
                names.group(NameMarker::LanguageLongHeavy, &locale),
                names.group(NameMarker::LanguageLongLight, &locale),
                names.group(NameMarker::LanguageMediumHeavy, &locale),
                names.group(NameMarker::LanguageMediumLight, &locale),
                names.group(NameMarker::LanguageMediumTiny, &locale),
                names.group(NameMarker::LanguageShortHeavy, &locale),
                names.group(NameMarker::LanguageShortLight, &locale),
                names.group(NameMarker::RegionMediumLight, &locale),
                names.group(NameMarker::RegionMediumTiny, &locale),
                names.group(NameMarker::RegionShortLight, &locale),
                names.group(NameMarker::RegionShortTiny, &locale),
                names.group(NameMarker::ScriptMediumHeavy, &locale),
                names.group(NameMarker::ScriptMediumLight, &locale),
                names.group(NameMarker::ScriptMediumTiny, &locale),
                names.group(NameMarker::ScriptShortHeavy, &locale),
                names.group(NameMarker::VariantMediumHeavy, &locale),
            ],
        }
    }

    /// The name at a marker, a locale and a key, as the names themselves give it.
    #[inline]
    pub fn get(&self, marker: NameMarker, locale: DataLocale, key: &NameKey) -> Option<&'d str>
        ensures { option_copied result
            ≡ value_at name_cmp self.now (marker, locale, key.now) }
    {
        equality_is_told();
        if locale == self.locale {
            name_here(&self.groups, self.lent, &self.runs, marker, key)
        } else {
            let own = self.names.get(marker, locale, key);
            own_or_lent(own, self.lent, marker, &locale, key)
        }
    }
}

// An own name in the locale whose groups and runs these are, and where there is none, one that is lent.
#[inline]
fn name_here<'d>(
    groups: &[Group<'d>; 16],
    lent: Option<&'d FlatTexts<'static>>,
    runs: &[Option<usize>; 16],
    marker: NameMarker,
    key: &NameKey,
) -> Option<&'d str>
    ensures { let place = name_place marker in option_copied result ≡ option_or
        (name_in_group (get_or groups.now place None) key.now)
        (name_in_lent (option_copied lent.entry) marker (get_or runs.now place None) key.now) }
{
    let own = name_at(groups, marker, key);
    if own.is_some() {
        return own;
    }
    name_in_run(lent?, runs[place_of_kind(marker)], marker, key)
}

// The runs of a locale, each at the place of its kind.
fn runs_in(lent: Option<&FlatTexts<'static>>, locale: &DataLocale) -> [Option<usize>; 16]
    ensures { AreRunsIn (option_copied lent.entry) locale.now result }
{
    let Some(lent) = lent else {
        return [None; 16];
    };
    [
        run_of(lent, NameMarker::LanguageLongHeavy, locale),
        run_of(lent, NameMarker::LanguageLongLight, locale),
        run_of(lent, NameMarker::LanguageMediumHeavy, locale),
        run_of(lent, NameMarker::LanguageMediumLight, locale),
        run_of(lent, NameMarker::LanguageMediumTiny, locale),
        run_of(lent, NameMarker::LanguageShortHeavy, locale),
        run_of(lent, NameMarker::LanguageShortLight, locale),
        run_of(lent, NameMarker::RegionMediumLight, locale),
        run_of(lent, NameMarker::RegionMediumTiny, locale),
        run_of(lent, NameMarker::RegionShortLight, locale),
        run_of(lent, NameMarker::RegionShortTiny, locale),
        run_of(lent, NameMarker::ScriptMediumHeavy, locale),
        run_of(lent, NameMarker::ScriptMediumLight, locale),
        run_of(lent, NameMarker::ScriptMediumTiny, locale),
        run_of(lent, NameMarker::ScriptShortHeavy, locale),
        run_of(lent, NameMarker::VariantMediumHeavy, locale),
    ]
}

// The name at a key among those of a kind.
#[inline]
fn name_at<'d>(groups: &[Group<'d>; 16], marker: NameMarker, key: &NameKey) -> Option<&'d str>
    ensures { option_copied result
        ≡ name_in_group (get_or groups.now (name_place marker) None) key.now }
{
    Some(groups[place_of_kind(marker)]?.get(key)?.as_str())
}

// The place of a kind in the order of kinds.
#[inline]
fn place_of_kind(marker: NameMarker) -> usize
    ensures place { result ≡ name_place marker }
    ensures within { result < 16 }
{
    match marker {
        NameMarker::LanguageLongHeavy => 0,
        NameMarker::LanguageLongLight => 1,
        NameMarker::LanguageMediumHeavy => 2,
        NameMarker::LanguageMediumLight => 3,
        NameMarker::LanguageMediumTiny => 4,
        NameMarker::LanguageShortHeavy => 5,
        NameMarker::LanguageShortLight => 6,
        NameMarker::RegionMediumLight => 7,
        NameMarker::RegionMediumTiny => 8,
        NameMarker::RegionShortLight => 9,
        NameMarker::RegionShortTiny => 10,
        NameMarker::ScriptMediumHeavy => 11,
        NameMarker::ScriptMediumLight => 12,
        NameMarker::ScriptMediumTiny => 13,
        NameMarker::ScriptShortHeavy => 14,
        NameMarker::VariantMediumHeavy => 15,
    }
}
