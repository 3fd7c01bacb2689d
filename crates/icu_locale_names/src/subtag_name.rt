//! Names of one subtag.
ghost use Rattle.std.specs.Prelude.{◌≡◌, Some};
ghost use Rattle.icu_provider.specs.declared.names.NameKey.{NameKey};
ghost use Rattle.icu_locale_names.specs.Names.{name_by, or_raw};

use crate::DisplayNamesPreferences;
use crate::chain::first_name;
use crate::shown::{Shown, Subtag};
use icu_locale_core::{Region, Script, Variant};
use icu_provider::{DataError, DataErrorKind, DataProvider, NameKey, NameMarker};
use std::fmt;
use std::marker::{Model, PhantomData};

// A subtag that is named alone.
pub trait Named: Subtag {
    ghost key: { Self → NameKey };

    fn key(self) -> NameKey
        ensures { result ≡ Self.key self };
}

impl Named for Script {
    ghost key = { λ script. NameKey.Script script };

    fn key(self) -> NameKey {
        NameKey::Script(self)
    }
}

impl Named for Region {
    ghost key = { λ region. NameKey.Region region };

    fn key(self) -> NameKey {
        NameKey::Region(self)
    }
}

impl Named for Variant {
    ghost key = { λ variant. NameKey.Variant variant };

    fn key(self) -> NameKey {
        NameKey::Variant(self)
    }
}

/// The name of a region, a script or a variant, in the language of a locale. No call takes memory.
#[derive(Debug, Drop)]
pub struct SubtagName<'d, S: Named> {
    shown: Shown<'d, S>,
}

impl<'d, S: Named> Model for SubtagName<'d, S> {
    ghost use Rattle.std.specs.Prelude.{List, ℕ};
    ghost use Rattle.icu_locale_names.specs.Shown.{shown_text};

    ghost Value = { List ℕ };

    ghost view = { λ n. shown_text S.text n.shown };
}

impl<'d, S: Named> SubtagName<'d, S> {
    /// The same name, lent again.
    pub fn as_borrowed(&self) -> SubtagNameBorrowed<'_, S>
        ensures { result.text.now ≡ self.now }
    {
        SubtagNameBorrowed {
            text: self.shown.as_str(),
            subtag: PhantomData,
        }
    }

    // The first name of a chain.
    pub(crate) fn first<P: DataProvider>(
        provider: &'d P,
        chain: &[NameMarker],
        preferences: DisplayNamesPreferences,
        subtag: S,
    ) -> Result<Self, DataError>
        ensures { result ≡ name_by (P.name provider.now) preferences.locale
            (S.key subtag) chain.now }
    {
        match first_name(provider, chain, &preferences.locale, &subtag.key())? {
            Some(name) => Ok(SubtagName {
                shown: Shown::Name(name),
            }),
            None => Err(DataError {
                kind: DataErrorKind::IdentifierNotFound,
            }),
        }
    }

    // The first name of a chain, or the subtag.
    pub(crate) fn first_or_raw<P: DataProvider>(
        provider: &'d P,
        chain: &[NameMarker],
        preferences: DisplayNamesPreferences,
        subtag: S,
    ) -> Self
        ensures { result ≡ or_raw (name_by (P.name provider.now) preferences.locale
            (S.key subtag) chain.now) (S.text subtag) }
    {
        match Self::first(provider, chain, preferences, subtag) {
            Ok(name) => name,
            Err(_) => SubtagName {
                shown: Shown::Raw(subtag),
            },
        }
    }
}

impl<S: Named> fmt::Display for SubtagName<'_, S> {
    ghost output = { λ n. Some n };

    fn fmt<W: fmt::Write>(&self, f: &mut fmt::Formatter<W>) -> fmt::Result {
        f.write_str(self.shown.as_str())
    }
}

/// The name of a region, a script or a variant that is lent. No call takes memory.
#[derive(Clone, Copy, Debug)]
pub struct SubtagNameBorrowed<'a, S> {
    /// The name.
    pub text: &'a str,
    // Whose name it is.
    subtag: PhantomData<S>,
}

impl<S> fmt::Display for SubtagNameBorrowed<'_, S> {
    ghost output = { λ n. Some n.text.now };

    fn fmt<W: fmt::Write>(&self, f: &mut fmt::Formatter<W>) -> fmt::Result {
        f.write_str(self.text)
    }
}
