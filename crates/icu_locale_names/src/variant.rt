//! Names of variants.
ghost use Rattle.std.specs.Prelude.{◌≡◌};
ghost use Rattle.icu_provider.specs.declared.names.NameKey.{NameKey};
ghost use Rattle.icu_locale_names.specs.Chains.{variant_heavy};
ghost use Rattle.icu_locale_names.specs.Names.{name_by, or_raw};

use crate::DisplayNamesPreferences;
use crate::subtag_name::{SubtagName, SubtagNameBorrowed};
use icu_locale_core::Variant;
use icu_provider::{DataError, DataProvider, NameMarker};

pub(crate) const HEAVY: [NameMarker; 1] = [NameMarker::VariantMediumHeavy];

/// The name of a variant, in the language of a locale. No call takes memory.
pub type VariantDisplayName<'d> = SubtagName<'d, Variant>;

/// The name of a variant that is lent. No call takes memory.
pub type VariantDisplayNameBorrowed<'a> = SubtagNameBorrowed<'a, Variant>;

impl<'d> SubtagName<'d, Variant> {
    /// The name of a variant: of medium length, the rare ones too.
    ///
    /// # Errors
    ///
    /// `IdentifierNotFound` where the chain `heavy` has no name; any other refusal of the provider, unchanged.
    pub fn try_new_heavy_unstable<P: DataProvider>(
        provider: &'d P,
        preferences: DisplayNamesPreferences,
        variant: Variant,
    ) -> Result<Self, DataError>
        ensures { result ≡ name_by (P.name provider.now) preferences.locale
            (NameKey.Variant variant) variant_heavy }
    {
        Self::first(provider, &HEAVY, preferences, variant)
    }

    /// The name of a variant by the chain `heavy`: of medium length, the rare ones too; and the subtag itself on any
    /// error.
    pub fn new_heavy_with_fallback<P: DataProvider>(
        provider: &'d P,
        preferences: DisplayNamesPreferences,
        variant: Variant,
    ) -> Self
        ensures { result ≡ or_raw (name_by (P.name provider.now) preferences.locale
            (NameKey.Variant variant) variant_heavy) variant }
    {
        Self::first_or_raw(provider, &HEAVY, preferences, variant)
    }
}
