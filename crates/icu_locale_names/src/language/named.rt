//! Names of the subtags that are qualifiers.
ghost use Rattle.std.specs.Prelude.{◌≡◌};
ghost use Rattle.std.specs.Option.{option_to_list};
ghost use Rattle.icu_locale_names.specs.Chains.{made_of, answer_all};
ghost use Rattle.icu_locale_names.specs.inner.LanguageParts.{name_asked};
ghost use Rattle.icu_locale_names.specs.Shown.{piece_by, pieces_if_any};

use crate::chain::first_name;
use crate::shown::Shown;
use crate::subtag_name::Named;
use icu_provider::{DataError, DataLocale, DataProvider, NameMarker};

// The name of a subtag by a chain, or the raw subtag.
pub fn name_or_raw<'d, P: DataProvider, S: Named>(
    provider: &'d P,
    chain: &[NameMarker],
    locale: &DataLocale,
    subtag: S,
) -> Result<Shown<'d, S>, DataError>
    ensures { made_of (piece_by S.text) result
        ≡ name_asked (P.name provider.now) locale.now S.text S.key chain.now subtag }
{
    match first_name(provider, chain, locale, &subtag.key())? {
        Some(name) => Ok(Shown::Name(name)),
        None => Ok(Shown::Raw(subtag)),
    }
}

// The name of a subtag, if there is one that is left to a qualifier.
pub fn name_if_any<'d, P: DataProvider, S: Named>(
    provider: &'d P,
    chain: &[NameMarker],
    locale: &DataLocale,
    subtag: Option<S>,
) -> Result<Option<Shown<'d, S>>, DataError>
    ensures { made_of (pieces_if_any S.text) result ≡ answer_all
        (name_asked (P.name provider.now) locale.now S.text S.key chain.now)
        (option_to_list subtag) }
{
    let Some(subtag) = subtag else {
        return Ok(None);
    };
    match name_or_raw(provider, chain, locale, subtag) {
        Ok(shown) => Ok(Some(shown)),
        Err(refusal) => Err(refusal),
    }
}
