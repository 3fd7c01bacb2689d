//! Names of scripts.
ghost use Rattle.std.specs.Prelude.{◌≡◌};
ghost use Rattle.icu_provider.specs.declared.names.NameKey.{NameKey};
ghost use Rattle.icu_locale_names.specs.Chains.{script_tiny, script_light, script_heavy, script_short_heavy};
ghost use Rattle.icu_locale_names.specs.Names.{name_by, or_raw};

use crate::DisplayNamesPreferences;
use crate::subtag_name::{SubtagName, SubtagNameBorrowed};
use icu_locale_core::Script;
use icu_provider::{DataError, DataProvider, NameMarker};

pub const TINY: [NameMarker; 1] = [NameMarker::ScriptMediumTiny];

pub const LIGHT: [NameMarker; 2] = [NameMarker::ScriptMediumLight, NameMarker::ScriptMediumTiny];

pub const HEAVY: [NameMarker; 3] = [
    NameMarker::ScriptMediumHeavy,
    NameMarker::ScriptMediumLight,
    NameMarker::ScriptMediumTiny,
];

pub const SHORT_HEAVY: [NameMarker; 4] = [
    NameMarker::ScriptShortHeavy,
    NameMarker::ScriptMediumHeavy,
    NameMarker::ScriptMediumLight,
    NameMarker::ScriptMediumTiny,
];

/// The name of a script, in the language of a locale. No call takes memory.
pub type ScriptDisplayName<'d> = SubtagName<'d, Script>;

/// The name of a script that is lent. No call takes memory.
pub type ScriptDisplayNameBorrowed<'a> = SubtagNameBorrowed<'a, Script>;

impl<'d> SubtagName<'d, Script> {
    /// The name of a script: of medium length, among the most asked ones.
    ///
    /// # Errors
    ///
    /// `IdentifierNotFound` where the chain `tiny` has no name; any other refusal of the provider, unchanged.
    pub fn try_new_tiny_unstable<P: DataProvider>(
        provider: &'d P,
        preferences: DisplayNamesPreferences,
        script: Script,
    ) -> Result<Self, DataError>
        ensures { result ≡ name_by (P.name provider.now) preferences.locale
            (NameKey.Script script) script_tiny }
    {
        Self::first(provider, &TINY, preferences, script)
    }

    /// The name of a script by the chain `tiny`: of medium length, among the most asked ones; and the subtag itself on
    /// any error.
    pub fn new_tiny_with_fallback<P: DataProvider>(
        provider: &'d P,
        preferences: DisplayNamesPreferences,
        script: Script,
    ) -> Self
        ensures { result ≡ or_raw (name_by (P.name provider.now) preferences.locale
            (NameKey.Script script) script_tiny) script }
    {
        Self::first_or_raw(provider, &TINY, preferences, script)
    }

    /// The name of a script: of medium length.
    ///
    /// # Errors
    ///
    /// `IdentifierNotFound` where the chain `light` has no name; any other refusal of the provider, unchanged.
    pub fn try_new_light_unstable<P: DataProvider>(
        provider: &'d P,
        preferences: DisplayNamesPreferences,
        script: Script,
    ) -> Result<Self, DataError>
        ensures { result ≡ name_by (P.name provider.now) preferences.locale
            (NameKey.Script script) script_light }
    {
        Self::first(provider, &LIGHT, preferences, script)
    }

    /// The name of a script by the chain `light`: of medium length; and the subtag itself on any error.
    pub fn new_light_with_fallback<P: DataProvider>(
        provider: &'d P,
        preferences: DisplayNamesPreferences,
        script: Script,
    ) -> Self
        ensures { result ≡ or_raw (name_by (P.name provider.now) preferences.locale
            (NameKey.Script script) script_light) script }
    {
        Self::first_or_raw(provider, &LIGHT, preferences, script)
    }

    /// The name of a script: of medium length, the rare ones too.
    ///
    /// # Errors
    ///
    /// `IdentifierNotFound` where the chain `heavy` has no name; any other refusal of the provider, unchanged.
    pub fn try_new_heavy_unstable<P: DataProvider>(
        provider: &'d P,
        preferences: DisplayNamesPreferences,
        script: Script,
    ) -> Result<Self, DataError>
        ensures { result ≡ name_by (P.name provider.now) preferences.locale
            (NameKey.Script script) script_heavy }
    {
        Self::first(provider, &HEAVY, preferences, script)
    }

    /// The name of a script by the chain `heavy`: of medium length, the rare ones too; and the subtag itself on any
    /// error.
    pub fn new_heavy_with_fallback<P: DataProvider>(
        provider: &'d P,
        preferences: DisplayNamesPreferences,
        script: Script,
    ) -> Self
        ensures { result ≡ or_raw (name_by (P.name provider.now) preferences.locale
            (NameKey.Script script) script_heavy) script }
    {
        Self::first_or_raw(provider, &HEAVY, preferences, script)
    }

    /// The name of a script: short, or else of medium length, the rare ones too.
    ///
    /// # Errors
    ///
    /// `IdentifierNotFound` where the chain `short_heavy` has no name; any other refusal of the provider, unchanged.
    pub fn try_new_short_heavy_unstable<P: DataProvider>(
        provider: &'d P,
        preferences: DisplayNamesPreferences,
        script: Script,
    ) -> Result<Self, DataError>
        ensures { result ≡ name_by (P.name provider.now) preferences.locale
            (NameKey.Script script) script_short_heavy }
    {
        Self::first(provider, &SHORT_HEAVY, preferences, script)
    }

    /// The name of a script by the chain `short_heavy`: short, or else of medium length, the rare ones too; and the
    /// subtag itself on any error.
    pub fn new_short_heavy_with_fallback<P: DataProvider>(
        provider: &'d P,
        preferences: DisplayNamesPreferences,
        script: Script,
    ) -> Self
        ensures { result ≡ or_raw (name_by (P.name provider.now) preferences.locale
            (NameKey.Script script) script_short_heavy) script }
    {
        Self::first_or_raw(provider, &SHORT_HEAVY, preferences, script)
    }
}
