//! Chains of kinds of names, and of names in menus, asked in order.
ghost use Rattle.std.specs.Prelude.{◌≡◌, false, IfErr};
ghost use Rattle.icu_locale_names.specs.Chains.{is_missing};
ghost use Rattle.icu_locale_names.specs.Names.{name_by, menu_by};
ghost use Rattle.icu_locale_names.specs.inner.Found.{or_missing};
ghost use Rattle.icu_provider.specs.Provider.{lent};

use icu_locale_core::Language;
use icu_provider::{
    DataError, DataErrorKind, DataLocale, DataProvider, MenuMarker, MenuNameParts, NameKey,
    NameMarker,
};

// The name by the first kind of the chain that has one, if any has.
pub(crate) fn first_name<'d, P: DataProvider>(
    provider: &'d P,
    chain: &[NameMarker],
    locale: &DataLocale,
    key: &NameKey,
) -> Result<Option<&'d str>, DataError>
    ensures found { lent (or_missing result)
        ≡ name_by (P.name provider.now) locale.now key.now chain.now }
    ensures refused { IfErr result (λ e. is_missing e.kind ≡ false) }
{
    for marker in chain {
        if let Some(name) = if_any(provider.load_name(*marker, *locale, *key))? {
            return Ok(Some(name));
        }
    }
    Ok(None)
}

// The same of a chain of names in menus.
pub(crate) fn first_menu<'d, P: DataProvider>(
    provider: &'d P,
    chain: &[MenuMarker],
    locale: &DataLocale,
    language: &Language,
) -> Result<Option<&'d MenuNameParts>, DataError>
    ensures found { lent (or_missing result)
        ≡ menu_by (P.menu provider.now) locale.now language.now chain.now }
    ensures refused { IfErr result (λ e. is_missing e.kind ≡ false) }
{
    for marker in chain {
        if let Some(name) = if_any(provider.load_menu(*marker, *locale, *language))? {
            return Ok(Some(name));
        }
    }
    Ok(None)
}

// What an answer gives, and nothing where there is no data; any other refusal stays as it is.
#[inline]
fn if_any<T>(answer: Result<T, DataError>) -> Result<Option<T>, DataError>
    ensures found { or_missing result ≡ answer }
    ensures refused { IfErr result (λ e. is_missing e.kind ≡ false) }
{
    match answer {
        Ok(found) => Ok(Some(found)),
        Err(refusal) if matches!(refusal.kind, DataErrorKind::IdentifierNotFound) => Ok(None),
        Err(refusal) => Err(refusal),
    }
}
