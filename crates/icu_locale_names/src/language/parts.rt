//! What is known of a name before its variants are asked for.
ghost use Rattle.std.specs.Prelude.{◌≡◌};
ghost use Rattle.icu_locale_names.specs.Chains.{made_of};
ghost use Rattle.icu_locale_names.specs.LanguageNames.{in_locale, head_of};
ghost use Rattle.icu_locale_names.specs.LentNames.{shown_head};
ghost use Rattle.icu_locale_names.specs.inner.LanguageParts.{chains_of};

use crate::LanguageDisplay;
use crate::language::base::find_base;
use crate::language::named::name_if_any;
use crate::name_chain::Chains;
use crate::shown::Shown;
use icu_locale_core::{Language, LanguageIdentifier, Region, Script};
use icu_provider::{DataError, DataLocale, DataProvider};

// The base, and the qualifiers before the variants.
#[derive(Clone, Copy, Debug)]
pub struct Parts<'d> {
    pub base: Shown<'d, Language>,
    pub extension: Option<&'d str>,
    pub script: Option<Shown<'d, Script>>,
    pub region: Option<Shown<'d, Region>>,
}

// The names of the language, the script and the region, asked for in this order.
pub fn find_parts<'d, P: DataProvider>(
    provider: &'d P,
    chains: &Chains<'_>,
    display: LanguageDisplay,
    locale: &DataLocale,
    subject: &LanguageIdentifier,
) -> Result<Parts<'d>, DataError>
    ensures { made_of shown_head result ≡ head_of
        (in_locale (P.name provider.now) (P.menu provider.now) (P.essentials provider.now)
        locale.now) (chains_of chains.now) display subject.now }
{
    let found = match find_base(provider, chains, display, locale, subject) {
        Ok(found) => found,
        Err(refusal) => return Err(refusal),
    };
    let script = match name_if_any(provider, chains.script, locale, found.script) {
        Ok(script) => script,
        Err(refusal) => return Err(refusal),
    };
    let region = match name_if_any(provider, chains.region, locale, found.region) {
        Ok(region) => region,
        Err(refusal) => return Err(refusal),
    };
    Ok(Parts {
        base: found.shown,
        extension: found.extension,
        script,
        region,
    })
}
