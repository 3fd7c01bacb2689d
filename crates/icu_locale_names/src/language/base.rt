//! The base of a name.
ghost use Rattle.std.specs.Prelude.{◌≡◌, map, if◌then◌else◌, false, None, IfErr};
ghost use Rattle.icu_locale_names.specs.Chains.{is_missing, made_of};
ghost use Rattle.icu_locale_names.specs.LanguageNames.{in_locale, base_of, keys_of, asks_dialects, menu_base, raw_base, unless_empty};
ghost use Rattle.icu_locale_names.specs.inner.Found.{or_missing};
ghost use Rattle.icu_locale_names.specs.inner.LanguageParts.{chains_of, shown_base, key_with, key_asked, keys_asked, base_asked};
ghost use Rattle.icu_locale_names.specs.Shown.{text_pieces};

use crate::LanguageDisplay;
use crate::chain::{first_menu, first_name};
use crate::name_chain::Chains;
use crate::shown::Shown;
use icu_locale_core::{Language, LanguageIdentifier, Region, Script};
use icu_provider::{
    DataError, DataLocale, DataProvider, MenuMarker, MenuNameParts, NameKey, NameMarker,
};

// The base of a name, its extension, and the subtags that are left to qualifiers.
#[derive(Clone, Copy, Debug)]
pub struct Base<'d> {
    pub shown: Shown<'d, Language>,
    pub extension: Option<&'d str>,
    pub script: Option<Script>,
    pub region: Option<Region>,
}

// The base of the name of an identifier.
pub fn find_base<'d, P: DataProvider>(
    provider: &'d P,
    chains: &Chains<'_>,
    display: LanguageDisplay,
    locale: &DataLocale,
    subject: &LanguageIdentifier,
) -> Result<Base<'d>, DataError>
    ensures { made_of shown_base result ≡ base_of
        (in_locale (P.name provider.now) (P.menu provider.now) (P.essentials provider.now)
        locale.now) (chains_of chains.now) display subject.now }
{
    let keys = language_keys(chains, display, subject);
    base_at(provider, chains, locale, subject, keys)
}

// The keys of an identifier, in the order in which they are asked for: whether each has the script, and the region.
fn language_keys(
    chains: &Chains<'_>,
    display: LanguageDisplay,
    subject: &LanguageIdentifier,
) -> &'static [(bool, bool)]
    ensures { map (key_with subject.now) result.now
        ≡ keys_of (chains_of chains.now) display subject.now }
{
    if !asks_dialects(chains.menu, display) {
        return &[(false, false)];
    }
    match (subject.script, subject.region) {
        (Some(_), Some(_)) => &[(true, true), (true, false), (false, true), (false, false)],
        (Some(_), None) => &[(true, false), (false, false)],
        (None, Some(_)) => &[(false, true), (false, false)],
        (None, None) => &[(false, false)],
    }
}

// Whether names of dialects are asked for.
fn asks_dialects(menu: &[MenuMarker], display: LanguageDisplay) -> bool
    ensures { result ≡ asks_dialects menu.now display }
{
    menu.is_empty() && matches!(display, LanguageDisplay::Dialect)
}

// The base by the menus, and then by these keys; or the raw language.
fn base_at<'d, P: DataProvider>(
    provider: &'d P,
    chains: &Chains<'_>,
    locale: &DataLocale,
    subject: &LanguageIdentifier,
    keys: &[(bool, bool)],
) -> Result<Base<'d>, DataError>
    ensures { made_of shown_base result ≡ base_asked (P.name provider.now) (P.menu provider.now)
        locale.now (chains_of chains.now) subject.now keys.now }
{
    if let Some(name) = first_menu(provider, chains.menu, locale, &subject.language)? {
        return Ok(menu_base(name, subject));
    }
    match base_by_keys(provider, chains.text, locale, subject, keys) {
        Ok(Some(base)) => Ok(base),
        Ok(None) => Ok(raw_base(subject)),
        Err(refusal) => Err(refusal),
    }
}

// The base by the first of these keys that the chain names, if any.
fn base_by_keys<'d, P: DataProvider>(
    provider: &'d P,
    chain: &[NameMarker],
    locale: &DataLocale,
    subject: &LanguageIdentifier,
    keys: &[(bool, bool)],
) -> Result<Option<Base<'d>>, DataError>
    ensures found { made_of shown_base (or_missing result)
        ≡ keys_asked (P.name provider.now) locale.now chain.now subject.now keys.now }
    ensures refused { IfErr result (λ e. is_missing e.kind ≡ false) }
{
    for key in keys {
        match base_by_key(provider, chain, locale, subject, key) {
            Ok(Some(base)) => return Ok(Some(base)),
            Ok(None) => {}
            Err(refusal) => return Err(refusal),
        }
    }
    Ok(None)
}

// The base by a key, if the chain names it.
fn base_by_key<'d, P: DataProvider>(
    provider: &'d P,
    chain: &[NameMarker],
    locale: &DataLocale,
    subject: &LanguageIdentifier,
    key: &(bool, bool),
) -> Result<Option<Base<'d>>, DataError>
    ensures found { made_of shown_base (or_missing result)
        ≡ key_asked (P.name provider.now) locale.now chain.now subject.now
        (key_with subject.now key.now) }
    ensures refused { IfErr result (λ e. is_missing e.kind ≡ false) }
{
    let script = kept(subject.script, key.0);
    let region = kept(subject.region, key.1);
    let asked = NameKey::Language(subject.language, script, region);
    let Some(name) = first_name(provider, chain, locale, &asked)? else {
        return Ok(None);
    };
    Ok(Some(Base {
        shown: Shown::Name(name),
        extension: None,
        script: kept(subject.script, !key.0),
        region: kept(subject.region, !key.1),
    }))
}

// A subtag where a key has it.
fn kept<T: Copy>(subtag: Option<T>, is_kept: bool) -> Option<T>
    ensures { result ≡ if is_kept then subtag else None }
{
    if is_kept { subtag } else { None }
}

// A name in menus as a base.
fn menu_base<'d>(name: &'d MenuNameParts, subject: &LanguageIdentifier) -> Base<'d>
    ensures { shown_base result ≡ menu_base subject.now name.now }
{
    Base {
        shown: Shown::Name(name.core.as_str()),
        extension: unless_empty(name.extension.as_str()),
        script: subject.script,
        region: subject.region,
    }
}

// A text as a qualifier, if it is not empty.
fn unless_empty(text: &str) -> Option<&str>
    ensures { text_pieces result ≡ unless_empty text.now }
{
    if text.is_empty() { None } else { Some(text) }
}

// The raw language as a base.
fn raw_base<'d>(subject: &LanguageIdentifier) -> Base<'d>
    ensures { shown_base result ≡ raw_base subject.now }
{
    Base {
        shown: Shown::Raw(subject.language),
        extension: None,
        script: subject.script,
        region: subject.region,
    }
}
