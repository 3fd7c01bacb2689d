//! Names of identifiers by each chain.
ghost use Rattle.std.specs.Prelude.{◌≡◌};
ghost use Rattle.icu_locale_names.specs.LanguageChains.{chain_of};
ghost use Rattle.icu_locale_names.specs.LanguageNames.{GivesName, in_locale, display_of};

use super::LanguageIdentifierDisplayName;
use crate::options::LanguageIdentifierDisplayNameOptions;
use crate::{DisplayNamesPreferences, NameChain};
use icu_locale_core::LanguageIdentifier;
use icu_provider::{DataError, DataProvider};
use std::alloc::Global;

impl<'d> LanguageIdentifierDisplayName<'d> {
    /// The name of an identifier by the chain `tiny`. Memory and refusals are those of `try_new_unstable`.
    pub fn try_new_tiny_unstable<P: DataProvider>(
        alloc: Global,
        provider: &'d P,
        preferences: DisplayNamesPreferences,
        subject: &LanguageIdentifier,
        options: LanguageIdentifierDisplayNameOptions,
    ) -> Result<Self, DataError>
        ensures { GivesName (in_locale (P.name provider.now) (P.menu provider.now)
            (P.essentials provider.now) preferences.locale)
            (chain_of NameChain.Tiny) (display_of options) subject.now result }
    {
        Self::try_new_unstable(
            alloc,
            provider,
            NameChain::Tiny,
            preferences,
            subject,
            options,
        )
    }

    /// The name of an identifier by the chain `light`. Memory and refusals are those of `try_new_unstable`.
    pub fn try_new_light_unstable<P: DataProvider>(
        alloc: Global,
        provider: &'d P,
        preferences: DisplayNamesPreferences,
        subject: &LanguageIdentifier,
        options: LanguageIdentifierDisplayNameOptions,
    ) -> Result<Self, DataError>
        ensures { GivesName (in_locale (P.name provider.now) (P.menu provider.now)
            (P.essentials provider.now) preferences.locale)
            (chain_of NameChain.Light) (display_of options) subject.now result }
    {
        Self::try_new_unstable(
            alloc,
            provider,
            NameChain::Light,
            preferences,
            subject,
            options,
        )
    }

    /// The name of an identifier by the chain `short_light`. Memory and refusals are those of `try_new_unstable`.
    pub fn try_new_short_light_unstable<P: DataProvider>(
        alloc: Global,
        provider: &'d P,
        preferences: DisplayNamesPreferences,
        subject: &LanguageIdentifier,
        options: LanguageIdentifierDisplayNameOptions,
    ) -> Result<Self, DataError>
        ensures { GivesName (in_locale (P.name provider.now) (P.menu provider.now)
            (P.essentials provider.now) preferences.locale)
            (chain_of NameChain.ShortLight) (display_of options) subject.now result }
    {
        Self::try_new_unstable(
            alloc,
            provider,
            NameChain::ShortLight,
            preferences,
            subject,
            options,
        )
    }

    /// The name of an identifier by the chain `long_light`. Memory and refusals are those of `try_new_unstable`.
    pub fn try_new_long_light_unstable<P: DataProvider>(
        alloc: Global,
        provider: &'d P,
        preferences: DisplayNamesPreferences,
        subject: &LanguageIdentifier,
        options: LanguageIdentifierDisplayNameOptions,
    ) -> Result<Self, DataError>
        ensures { GivesName (in_locale (P.name provider.now) (P.menu provider.now)
            (P.essentials provider.now) preferences.locale)
            (chain_of NameChain.LongLight) (display_of options) subject.now result }
    {
        Self::try_new_unstable(
            alloc,
            provider,
            NameChain::LongLight,
            preferences,
            subject,
            options,
        )
    }

    /// The name of an identifier by the chain `menu_light`. Memory and refusals are those of `try_new_unstable`.
    pub fn try_new_menu_light_unstable<P: DataProvider>(
        alloc: Global,
        provider: &'d P,
        preferences: DisplayNamesPreferences,
        subject: &LanguageIdentifier,
        options: LanguageIdentifierDisplayNameOptions,
    ) -> Result<Self, DataError>
        ensures { GivesName (in_locale (P.name provider.now) (P.menu provider.now)
            (P.essentials provider.now) preferences.locale)
            (chain_of NameChain.MenuLight) (display_of options) subject.now result }
    {
        Self::try_new_unstable(
            alloc,
            provider,
            NameChain::MenuLight,
            preferences,
            subject,
            options,
        )
    }

    /// The name of an identifier by the chain `short_menu_light`. Memory and refusals are those of `try_new_unstable`.
    pub fn try_new_short_menu_light_unstable<P: DataProvider>(
        alloc: Global,
        provider: &'d P,
        preferences: DisplayNamesPreferences,
        subject: &LanguageIdentifier,
        options: LanguageIdentifierDisplayNameOptions,
    ) -> Result<Self, DataError>
        ensures { GivesName (in_locale (P.name provider.now) (P.menu provider.now)
            (P.essentials provider.now) preferences.locale)
            (chain_of NameChain.ShortMenuLight) (display_of options) subject.now result }
    {
        Self::try_new_unstable(
            alloc,
            provider,
            NameChain::ShortMenuLight,
            preferences,
            subject,
            options,
        )
    }

    /// The name of an identifier by the chain `heavy`. Memory and refusals are those of `try_new_unstable`.
    pub fn try_new_heavy_unstable<P: DataProvider>(
        alloc: Global,
        provider: &'d P,
        preferences: DisplayNamesPreferences,
        subject: &LanguageIdentifier,
        options: LanguageIdentifierDisplayNameOptions,
    ) -> Result<Self, DataError>
        ensures { GivesName (in_locale (P.name provider.now) (P.menu provider.now)
            (P.essentials provider.now) preferences.locale)
            (chain_of NameChain.Heavy) (display_of options) subject.now result }
    {
        Self::try_new_unstable(
            alloc,
            provider,
            NameChain::Heavy,
            preferences,
            subject,
            options,
        )
    }

    /// The name of an identifier by the chain `short_heavy`. Memory and refusals are those of `try_new_unstable`.
    pub fn try_new_short_heavy_unstable<P: DataProvider>(
        alloc: Global,
        provider: &'d P,
        preferences: DisplayNamesPreferences,
        subject: &LanguageIdentifier,
        options: LanguageIdentifierDisplayNameOptions,
    ) -> Result<Self, DataError>
        ensures { GivesName (in_locale (P.name provider.now) (P.menu provider.now)
            (P.essentials provider.now) preferences.locale)
            (chain_of NameChain.ShortHeavy) (display_of options) subject.now result }
    {
        Self::try_new_unstable(
            alloc,
            provider,
            NameChain::ShortHeavy,
            preferences,
            subject,
            options,
        )
    }

    /// The name of an identifier by the chain `long_heavy`. Memory and refusals are those of `try_new_unstable`.
    pub fn try_new_long_heavy_unstable<P: DataProvider>(
        alloc: Global,
        provider: &'d P,
        preferences: DisplayNamesPreferences,
        subject: &LanguageIdentifier,
        options: LanguageIdentifierDisplayNameOptions,
    ) -> Result<Self, DataError>
        ensures { GivesName (in_locale (P.name provider.now) (P.menu provider.now)
            (P.essentials provider.now) preferences.locale)
            (chain_of NameChain.LongHeavy) (display_of options) subject.now result }
    {
        Self::try_new_unstable(
            alloc,
            provider,
            NameChain::LongHeavy,
            preferences,
            subject,
            options,
        )
    }

    /// The name of an identifier by the chain `menu_heavy`. Memory and refusals are those of `try_new_unstable`.
    pub fn try_new_menu_heavy_unstable<P: DataProvider>(
        alloc: Global,
        provider: &'d P,
        preferences: DisplayNamesPreferences,
        subject: &LanguageIdentifier,
        options: LanguageIdentifierDisplayNameOptions,
    ) -> Result<Self, DataError>
        ensures { GivesName (in_locale (P.name provider.now) (P.menu provider.now)
            (P.essentials provider.now) preferences.locale)
            (chain_of NameChain.MenuHeavy) (display_of options) subject.now result }
    {
        Self::try_new_unstable(
            alloc,
            provider,
            NameChain::MenuHeavy,
            preferences,
            subject,
            options,
        )
    }

    /// The name of an identifier by the chain `short_menu_heavy`. Memory and refusals are those of `try_new_unstable`.
    pub fn try_new_short_menu_heavy_unstable<P: DataProvider>(
        alloc: Global,
        provider: &'d P,
        preferences: DisplayNamesPreferences,
        subject: &LanguageIdentifier,
        options: LanguageIdentifierDisplayNameOptions,
    ) -> Result<Self, DataError>
        ensures { GivesName (in_locale (P.name provider.now) (P.menu provider.now)
            (P.essentials provider.now) preferences.locale)
            (chain_of NameChain.ShortMenuHeavy) (display_of options) subject.now result }
    {
        Self::try_new_unstable(
            alloc,
            provider,
            NameChain::ShortMenuHeavy,
            preferences,
            subject,
            options,
        )
    }
}
