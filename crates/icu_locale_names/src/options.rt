//! How names are asked for: in which language, and whether by dialects.
ghost use Rattle.std.specs.Prelude.{◌≡◌, None};
ghost use Rattle.icu_locale_names.specs.LanguageNames.{display_of};
ghost use Rattle.icu_locale_names.specs.declared.options.LanguageDisplay.TheVariants.{Dialect};

use icu_locale_core::{Language, Locale, Region, Script};
use icu_provider::DataLocale;

/// The locale in whose language names are asked for: a language, a script if any and a region if any.
#[derive(Clone, Copy, Debug, PartialEq, Eq)]
pub struct DisplayNamesPreferences {
    /// The locale of each request for a name.
    pub locale: DataLocale,
}

impl DisplayNamesPreferences {
    /// Preferences of these subtags. It takes no memory.
    pub fn new(language: Language, script: Option<Script>, region: Option<Region>) -> Self
        ensures { result.locale ≡ record {
          language = language;
          script = script;
          region = region;
        } }
    {
        DisplayNamesPreferences {
            locale: DataLocale {
                language,
                script,
                region,
            },
        }
    }

    /// Preferences of a locale's identifier: its language, script and region. It takes no memory.
    pub fn from_locale(locale: &Locale) -> Self
        ensures { result.locale ≡ record {
          language = locale.now.id.language;
          script = locale.now.id.script;
          region = locale.now.id.region;
        } }
    {
        DisplayNamesPreferences::new(locale.id.language, locale.id.script, locale.id.region)
    }
}

/// Whether a name may stand for a dialect: a language together with its script or its region.
#[derive(Clone, Copy, Debug, PartialEq, Eq)]
pub enum LanguageDisplay {
    /// `US English`, where the dialect has a name.
    Dialect,
    /// `English (US)`: each subtag by a name of its own.
    Standard,
}

impl Default for LanguageDisplay {
    ghost is_default = { λ display. display ≡ Dialect };

    fn default() -> Self {
        LanguageDisplay::Dialect
    }
}

/// How the name of an identifier is made.
#[derive(Clone, Copy, Debug, PartialEq, Eq)]
pub struct LanguageIdentifierDisplayNameOptions {
    /// Whether a name may stand for a dialect. None means `Dialect`.
    pub language_display: Option<LanguageDisplay>,
}

impl Default for LanguageIdentifierDisplayNameOptions {
    ghost is_default = { λ options. options.language_display ≡ None };

    fn default() -> Self {
        LanguageIdentifierDisplayNameOptions {
            language_display: None,
        }
    }
}

// The display that is meant.
pub(crate) fn display_of(options: LanguageIdentifierDisplayNameOptions) -> LanguageDisplay
    ensures { result ≡ display_of options }
{
    options.language_display.unwrap_or(LanguageDisplay::Dialect)
}
