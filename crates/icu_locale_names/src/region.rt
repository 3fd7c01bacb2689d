//! Names of regions.
ghost use Rattle.std.specs.Prelude.{◌≡◌};
ghost use Rattle.icu_provider.specs.declared.names.NameKey.{NameKey};
ghost use Rattle.icu_locale_names.specs.Chains.{region_tiny, region_short_tiny, region_light, region_short_light};
ghost use Rattle.icu_locale_names.specs.Names.{name_by, or_raw};

use crate::DisplayNamesPreferences;
use crate::subtag_name::{SubtagName, SubtagNameBorrowed};
use icu_locale_core::Region;
use icu_provider::{DataError, DataProvider, NameMarker};

pub const TINY: [NameMarker; 1] = [NameMarker::RegionMediumTiny];

pub const SHORT_TINY: [NameMarker; 2] = [NameMarker::RegionShortTiny, NameMarker::RegionMediumTiny];

pub const LIGHT: [NameMarker; 2] = [NameMarker::RegionMediumLight, NameMarker::RegionMediumTiny];

pub const SHORT_LIGHT: [NameMarker; 4] = [
    NameMarker::RegionShortLight,
    NameMarker::RegionShortTiny,
    NameMarker::RegionMediumLight,
    NameMarker::RegionMediumTiny,
];

/// The name of a region, in the language of a locale. No call takes memory.
pub type RegionDisplayName<'d> = SubtagName<'d, Region>;

/// The name of a region that is lent. No call takes memory.
pub type RegionDisplayNameBorrowed<'a> = SubtagNameBorrowed<'a, Region>;

impl<'d> SubtagName<'d, Region> {
    /// The name of a region: of medium length, among the most asked ones.
    ///
    /// # Errors
    ///
    /// `IdentifierNotFound` where the chain `tiny` has no name; any other refusal of the provider, unchanged.
    pub fn try_new_tiny_unstable<P: DataProvider>(
        provider: &'d P,
        preferences: DisplayNamesPreferences,
        region: Region,
    ) -> Result<Self, DataError>
        ensures { result ≡ name_by (P.name provider.now) preferences.locale
            (NameKey.Region region) region_tiny }
    {
        Self::first(provider, &TINY, preferences, region)
    }

    /// The name of a region by the chain `tiny`: of medium length, among the most asked ones; and the subtag itself on
    /// any error.
    pub fn new_tiny_with_fallback<P: DataProvider>(
        provider: &'d P,
        preferences: DisplayNamesPreferences,
        region: Region,
    ) -> Self
        ensures { result ≡ or_raw (name_by (P.name provider.now) preferences.locale
            (NameKey.Region region) region_tiny) region }
    {
        Self::first_or_raw(provider, &TINY, preferences, region)
    }

    /// The name of a region: short, or else of medium length, among the most asked ones.
    ///
    /// # Errors
    ///
    /// `IdentifierNotFound` where the chain `short_tiny` has no name; any other refusal of the provider, unchanged.
    pub fn try_new_short_tiny_unstable<P: DataProvider>(
        provider: &'d P,
        preferences: DisplayNamesPreferences,
        region: Region,
    ) -> Result<Self, DataError>
        ensures { result ≡ name_by (P.name provider.now) preferences.locale
            (NameKey.Region region) region_short_tiny }
    {
        Self::first(provider, &SHORT_TINY, preferences, region)
    }

    /// The name of a region by the chain `short_tiny`: short, or else of medium length, among the most asked ones; and
    /// the subtag itself on any error.
    pub fn new_short_tiny_with_fallback<P: DataProvider>(
        provider: &'d P,
        preferences: DisplayNamesPreferences,
        region: Region,
    ) -> Self
        ensures { result ≡ or_raw (name_by (P.name provider.now) preferences.locale
            (NameKey.Region region) region_short_tiny) region }
    {
        Self::first_or_raw(provider, &SHORT_TINY, preferences, region)
    }

    /// The name of a region: of medium length.
    ///
    /// # Errors
    ///
    /// `IdentifierNotFound` where the chain `light` has no name; any other refusal of the provider, unchanged.
    pub fn try_new_light_unstable<P: DataProvider>(
        provider: &'d P,
        preferences: DisplayNamesPreferences,
        region: Region,
    ) -> Result<Self, DataError>
        ensures { result ≡ name_by (P.name provider.now) preferences.locale
            (NameKey.Region region) region_light }
    {
        Self::first(provider, &LIGHT, preferences, region)
    }

    /// The name of a region by the chain `light`: of medium length; and the subtag itself on any error.
    pub fn new_light_with_fallback<P: DataProvider>(
        provider: &'d P,
        preferences: DisplayNamesPreferences,
        region: Region,
    ) -> Self
        ensures { result ≡ or_raw (name_by (P.name provider.now) preferences.locale
            (NameKey.Region region) region_light) region }
    {
        Self::first_or_raw(provider, &LIGHT, preferences, region)
    }

    /// The name of a region: short, or else of medium length.
    ///
    /// # Errors
    ///
    /// `IdentifierNotFound` where the chain `short_light` has no name; any other refusal of the provider, unchanged.
    pub fn try_new_short_light_unstable<P: DataProvider>(
        provider: &'d P,
        preferences: DisplayNamesPreferences,
        region: Region,
    ) -> Result<Self, DataError>
        ensures { result ≡ name_by (P.name provider.now) preferences.locale
            (NameKey.Region region) region_short_light }
    {
        Self::first(provider, &SHORT_LIGHT, preferences, region)
    }

    /// The name of a region by the chain `short_light`: short, or else of medium length; and the subtag itself on any
    /// error.
    pub fn new_short_light_with_fallback<P: DataProvider>(
        provider: &'d P,
        preferences: DisplayNamesPreferences,
        region: Region,
    ) -> Self
        ensures { result ≡ or_raw (name_by (P.name provider.now) preferences.locale
            (NameKey.Region region) region_short_light) region }
    {
        Self::first_or_raw(provider, &SHORT_LIGHT, preferences, region)
    }
}
