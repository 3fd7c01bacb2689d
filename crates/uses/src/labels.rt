//! What a settings menu shows of a locale, where each part of it has a name.
ghost use Rattle.std.specs.Prelude.{IfOk, IfSome};
ghost use Rattle.icu_locale_names.specs.LanguageChains.{chain_of};
ghost use Rattle.icu_locale_names.specs.LanguageNames.{in_locale};
ghost use Rattle.icu_locale_names.specs.declared.name_chain.NameChain.TheVariants.{Light};
ghost use Rattle.uses.specs.Labels.{IsLabel};

use icu_locale_extensions::LocaleIdentifier;
use icu_locale_full_names::{LocaleDisplayName, laws};
use icu_locale_names::{DisplayNamesPreferences, LanguageIdentifierDisplayNameOptions, NameChain};
use icu_provider::{DataError, DataProvider, ExtensionNames};
use std::alloc::Global;

/// The name of a locale with all that it says, or none where a part of it has no name.
///
/// # Errors
///
/// Those of the name.
pub fn label_of<P: DataProvider>(
    alloc: Global,
    provider: &P,
    names: &ExtensionNames,
    preferences: DisplayNamesPreferences,
    locale: &LocaleIdentifier,
) -> Result<Option<LocaleDisplayName>, DataError>
    ensures { IfOk result (λ label. IfSome label (IsLabel (in_locale (P.name provider.now)
        (P.menu provider.now) (P.essentials provider.now) preferences.locale)
        (chain_of Light) names.now locale.now)) }
{
    laws::given_names_are_written();
    let name = LocaleDisplayName::try_new_unstable(
        alloc,
        provider,
        names,
        NameChain::Light,
        preferences,
        locale,
        LanguageIdentifierDisplayNameOptions::default(),
    )?;
    if name.raw_spans().is_empty() {
        Ok(Some(name))
    } else {
        Ok(None)
    }
}
