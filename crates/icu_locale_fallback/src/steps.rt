//! The normal form of a locale, and the locale that follows another.
ghost use Rattle.std.specs.Prelude.{◌≡◌, if◌then◌else◌};
ghost use Rattle.icu_locale.specs.LikelyTable.{likely};
ghost use Rattle.icu_locale.specs.LikelySubtags.{bare_locale};
ghost use Rattle.icu_locale.specs.Locales.{same_locale};
ghost use Rattle.icu_locale_fallback.specs.Fallback.{root, script_of, without_script, without_region, has_implied_script, without_implied, with_region, normal, depends_on_region, above_region, script_alone, has_likely_script, truncated_by_language, truncated_by_script, truncated_by_region, truncated, explicit_parent, next, data_key};
ghost use Rattle.icu_locale_fallback.specs.Chains.{inheritance};

use crate::fallbacker::{LocaleFallbackPriority, LocaleFallbacker};
use icu_locale::LocaleExpander;
use icu_locale_core::{Language, Region, Script};
use icu_provider::DataLocale;

// The first locale of a chain.
pub(crate) fn normal(
    priority: LocaleFallbackPriority,
    expander: &LocaleExpander<'_>,
    locale: DataLocale,
) -> DataLocale
    ensures { result ≡ normal priority (likely expander.now) locale }
{
    let whole = match priority {
        LocaleFallbackPriority::Region => with_region(expander, locale),
        _ => locale,
    };
    without_implied(expander, bare_locale(whole))
}

// Without script `Zzzz` and region `ZZ`.
fn bare_locale(locale: DataLocale) -> DataLocale
    ensures { result ≡ bare_locale locale }
{
    DataLocale {
        language: locale.language,
        script: locale.script.filter(|script| *script != Script::UNKNOWN),
        region: locale.region.filter(|region| *region != Region::UNKNOWN),
    }
}

// With the region of the maximal form.
fn with_region(expander: &LocaleExpander<'_>, locale: DataLocale) -> DataLocale
    ensures { result ≡ with_region (likely expander.now) locale }
{
    DataLocale {
        language: locale.language,
        script: locale.script,
        region: expander.maximal_locale(locale).region,
    }
}

// The script of the maximal form.
fn script_of(expander: &LocaleExpander<'_>, locale: &DataLocale) -> Option<Script>
    ensures { result ≡ script_of (likely expander.now) locale.now }
{
    expander.maximal_locale(*locale).script
}

// Without the script that the language and the region imply.
fn without_implied(expander: &LocaleExpander<'_>, locale: DataLocale) -> DataLocale
    ensures { result ≡ without_implied (likely expander.now) locale }
{
    let shorter = without_script(&locale);
    if script_of(expander, &shorter) == locale.script {
        shorter
    } else {
        locale
    }
}

// Without the script.
fn without_script(locale: &DataLocale) -> DataLocale
    ensures { result ≡ without_script locale.now }
{
    DataLocale {
        language: locale.language,
        script: None,
        region: locale.region,
    }
}

// Without the region.
fn without_region(locale: &DataLocale) -> DataLocale
    ensures { result ≡ without_region locale.now }
{
    DataLocale {
        language: locale.language,
        script: locale.script,
        region: None,
    }
}

// The root.
fn root() -> DataLocale
    ensures { result ≡ root }
{
    DataLocale {
        language: Language::UNKNOWN,
        script: None,
        region: None,
    }
}

// What follows a locale, if anything does.
pub(crate) fn next(
    fallbacker: &LocaleFallbacker<'_>,
    priority: LocaleFallbackPriority,
    locale: &DataLocale,
) -> Option<DataLocale>
    ensures { result ≡ next (inheritance fallbacker.now priority) locale.now }
{
    if *locale == root() {
        return None;
    }
    match explicit_parent(fallbacker, priority, locale) {
        Some(parent) => Some(parent),
        None => Some(truncated(priority, &fallbacker.expander, locale)),
    }
}

// The explicit parent, if there is one and it is asked for.
fn explicit_parent(
    fallbacker: &LocaleFallbacker<'_>,
    priority: LocaleFallbackPriority,
    locale: &DataLocale,
) -> Option<DataLocale>
    ensures { result ≡ explicit_parent (inheritance fallbacker.now priority) locale.now }
{
    match priority {
        LocaleFallbackPriority::Region => None,
        _ => fallbacker.parents.get(locale).copied(),
    }
}

// What truncation makes of a locale.
fn truncated(
    priority: LocaleFallbackPriority,
    expander: &LocaleExpander<'_>,
    locale: &DataLocale,
) -> DataLocale
    ensures { result ≡ truncated priority (likely expander.now) locale.now }
{
    match priority {
        LocaleFallbackPriority::Language => truncated_by_language(expander, locale),
        LocaleFallbackPriority::Script => truncated_by_script(expander, locale),
        LocaleFallbackPriority::Region => truncated_by_region(locale),
    }
}

// The region goes first, then a script that is implied, then the language.
fn truncated_by_language(expander: &LocaleExpander<'_>, locale: &DataLocale) -> DataLocale
    ensures { result ≡ truncated_by_language (likely expander.now) locale.now }
{
    if locale.region.is_some() {
        above_region(expander, locale)
    } else if has_likely_script(expander, locale) {
        without_script(locale)
    } else {
        root()
    }
}

// So too, but the language leaves its script.
fn truncated_by_script(expander: &LocaleExpander<'_>, locale: &DataLocale) -> DataLocale
    ensures { result ≡ truncated_by_script (likely expander.now) locale.now }
{
    if locale.language == Language::UNKNOWN {
        if locale.region.is_some() {
            script_alone(expander, locale)
        } else {
            root()
        }
    } else if locale.region.is_some() {
        above_region(expander, locale)
    } else if has_likely_script(expander, locale) {
        without_script(locale)
    } else {
        script_alone(expander, locale)
    }
}

// Language and script go first, then the region.
fn truncated_by_region(locale: &DataLocale) -> DataLocale
    ensures { result ≡ truncated_by_region locale.now }
{
    if locale.language == Language::UNKNOWN && locale.script.is_none() {
        root()
    } else {
        DataLocale {
            language: Language::UNKNOWN,
            script: None,
            region: locale.region,
        }
    }
}

// Whether there is a script, and the language and the region imply it.
fn has_likely_script(expander: &LocaleExpander<'_>, locale: &DataLocale) -> bool
    ensures { result ≡ has_likely_script (likely expander.now) locale.now }
{
    locale.script.is_some() && script_of(expander, &without_script(locale)) == locale.script
}

// Without the region, or with the script that depends on it.
fn above_region(expander: &LocaleExpander<'_>, locale: &DataLocale) -> DataLocale
    ensures { result ≡ above_region (likely expander.now) locale.now }
{
    let shorter = without_region(locale);
    if locale.language == Language::UNKNOWN || locale.script.is_some() {
        return shorter;
    }
    let script = script_of(expander, locale);
    if script_of(expander, &shorter) == script {
        shorter
    } else {
        DataLocale {
            language: locale.language,
            script,
            region: locale.region,
        }
    }
}

// The likely script alone.
fn script_alone(expander: &LocaleExpander<'_>, locale: &DataLocale) -> DataLocale
    ensures { result ≡ script_alone (likely expander.now) locale.now }
{
    DataLocale {
        language: Language::UNKNOWN,
        script: script_of(expander, locale),
        region: None,
    }
}

// The normal form, with the script where it depends on the region.
pub(crate) fn data_key(expander: &LocaleExpander<'_>, locale: DataLocale) -> DataLocale
    ensures { result ≡ data_key (likely expander.now) locale }
{
    let plain = normal(LocaleFallbackPriority::Language, expander, locale);
    if depends_on_region(expander, &plain) {
        DataLocale {
            language: plain.language,
            script: script_of(expander, &plain),
            region: plain.region,
        }
    } else {
        plain
    }
}

// Whether there is no script, and without its region the language would be of another script.
fn depends_on_region(expander: &LocaleExpander<'_>, locale: &DataLocale) -> bool
    ensures { result ≡ depends_on_region (likely expander.now) locale.now }
{
    locale.script.is_none()
        && locale.language != Language::UNKNOWN
        && script_of(expander, &without_region(locale)) != script_of(expander, locale)
}
