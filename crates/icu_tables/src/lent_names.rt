//! Names that are lent in the flat form: looked up by what their groups and keys are called.
ghost use Rattle.std.specs.Prelude.{◌≡◌, ◌≤◌, ◌+◌, ◌++◌, [], length, IfSome, OnOk, option_copied, slice_get};
ghost use Rattle.std.specs.Map.{keys_of};
ghost use Rattle.std.specs.Option.{option_or};
ghost use Rattle.icu_locale_core.specs.Maps.{value_at};
ghost use Rattle.icu_locale_core.specs.Subtag.{IsRegion, IsScript};
ghost use Rattle.icu_provider.specs.Requests.{name_cmp};
ghost use Rattle.icu_tables_flat.specs.Flat.{run_at};
ghost use Rattle.icu_tables.specs.LentNames.{behind_dash, group_text, key_text, keyed, lent_rows, locale_text, marker_text, rows_in_flat};
ghost use Rattle.icu_tables.specs.inner.Lent.{AddsKeys, IsKey, IsLocale, IsRunOf, items_there, key_in_row, name_in_run};

use crate::from_json::marked::MarkedKey;
use crate::kinds::is_of_kind;
use arrayvec::ArrayString;
use icu_locale_core::{Region, Script};
use icu_provider::laws::keys_are_told_apart;
use icu_provider::{DataLocale, NameKey, NameMarker};
use icu_tables_flat::FlatTexts;
use std::alloc::AllocError;

// An own name, and where there is none, one that is lent at a marker, a locale and a key.
pub(crate) fn own_or_lent<'d>(
    own: Option<&'d str>,
    lent: Option<&'d FlatTexts<'static>>,
    marker: NameMarker,
    locale: &DataLocale,
    key: &NameKey,
) -> Option<&'d str>
    ensures { option_copied result ≡ option_or (option_copied own.entry)
        (value_at name_cmp (lent_rows (option_copied lent.entry)) (marker, locale.now, key.now)) }
{
    if own.is_some() {
        return own;
    }
    lent_name(lent?, marker, locale, key)
}

// The name at a marker, a locale and a key.
pub(crate) fn lent_name<'d>(
    lent: &'d FlatTexts<'_>,
    marker: NameMarker,
    locale: &DataLocale,
    key: &NameKey,
) -> Option<&'d str>
    ensures { option_copied result
        ≡ value_at name_cmp (rows_in_flat lent.now) (marker, locale.now, key.now) }
{
    name_in_run(lent, run_of(lent, marker, locale), marker, key)
}

// The run of a marker and a locale, if they have names.
pub(crate) fn run_of(lent: &FlatTexts<'_>, marker: NameMarker, locale: &DataLocale) -> Option<usize>
    ensures { IsRunOf lent.now (marker, locale.now) result }
{
    keys_are_told_apart();
    lent.known();
    let name = group_text(marker, locale);
    lent.run_of(name.as_str())
}

// The name at a key of a marker in a run, if there is a run.
pub(crate) fn name_in_run<'d>(
    lent: &'d FlatTexts<'_>,
    run: Option<usize>,
    marker: NameMarker,
    key: &NameKey,
) -> Option<&'d str>
    ensures { option_copied result ≡ name_in_run lent.now marker run key.now }
{
    keys_are_told_apart();
    if !is_of_kind(marker, key) {
        return None;
    }
    let text = key_text(key);
    lent.get(run?, text.as_str())
}

// Adds the keys of the names of a marker and a locale.
pub(crate) fn add_lent_keys(
    keys: &mut Vec<NameKey>,
    lent: &FlatTexts<'_>,
    marker: NameMarker,
    locale: &DataLocale,
) -> Result<(), AllocError>
    ensures { OnOk result (AddsKeys (rows_in_flat lent.now) (marker, locale.now)
        keys.old.items keys.new.items) }
{
    keys_are_told_apart();
    match run_of(lent, marker, locale) {
        Some(run) => add_run_keys(keys, lent, run, marker),
        None => Ok(()),
    }
}

// Adds the keys of the names of a marker in a run.
fn add_run_keys(
    keys: &mut Vec<NameKey>,
    lent: &FlatTexts<'_>,
    run: usize,
    marker: NameMarker,
) -> Result<(), AllocError>
    ensures { OnOk result (keys.new.items
        ≡ keys.old.items ++ keys_of (keyed marker (run_at lent.now run))) }
{
    for at in 0..lent.run_len(run) {
        add_item(keys, key_at(lent, run, at, marker))?;
    }
    Ok(())
}

// Adds an item, if there is one.
fn add_item<T: Copy>(list: &mut Vec<T>, item: Option<T>) -> Result<(), AllocError>
    ensures { OnOk result (list.new.items ≡ list.old.items ++ items_there item) }
{
    if let Some(item) = item {
        list.push(item)?;
    }
    Ok(())
}

// The key of a row of a marker in a run, if what the row is called is one.
fn key_at(lent: &FlatTexts<'_>, run: usize, at: usize, marker: NameMarker) -> Option<NameKey>
    ensures { result ≡ key_in_row marker (slice_get (run_at lent.now run) at) }
{
    let (name, _) = lent.row(run, at)?;
    <NameKey as MarkedKey<NameMarker>>::key_named(marker, name)
}

// What the group of a marker and a locale is called. A locale has at most 12 bytes, and the name of a marker 21.
pub(crate) fn group_text(marker: NameMarker, locale: &DataLocale) -> ArrayString<40>
    ensures text { result.bytes ≡ group_text (marker, locale.now) }
    ensures known { IsLocale locale.now }
{
    let mut text = ArrayString::new();
    put_locale(&mut text, locale);
    text.push_str("/");
    text.push_str(marker_text(marker));
    text
}

// A key in written form.
pub(crate) fn key_text(key: &NameKey) -> ArrayString<40>
    ensures text { result.bytes ≡ key_text key.now }
    ensures known { IsKey key.now }
{
    let mut text = ArrayString::new();
    match key {
        NameKey::Language(language, script, region) => put_locale(
            &mut text,
            &DataLocale {
                language: *language,
                script: *script,
                region: *region,
            },
        ),
        NameKey::Script(script) => text.push_str(script.as_str()),
        NameKey::Region(region) => text.push_str(region.as_str()),
        NameKey::Variant(variant) => text.push_str(variant.as_str()),
    }
    text
}

// Puts a locale into an empty text.
fn put_locale(text: &mut ArrayString<40>, locale: &DataLocale)
    requires { text.old.bytes ≡ [] }
    ensures text { text.new.bytes ≡ locale_text locale.now }
    ensures short { length text.new.bytes ≤ 12 }
    ensures known { IsLocale locale.now }
{
    let script = script_of(&locale.script);
    let region = region_of(&locale.region);
    text.push_str(locale.language.as_str());
    put_behind_dash(text, script);
    put_behind_dash(text, region);
}

// Puts a subtag behind a dash, if there is one.
fn put_behind_dash(text: &mut ArrayString<40>, subtag: Option<&str>)
    requires { length text.old.bytes + length (behind_dash (option_copied subtag)) ≤ 40 }
    ensures { text.new.bytes ≡ text.old.bytes ++ behind_dash (option_copied subtag.entry) }
{
    if let Some(subtag) = subtag {
        text.push_str("-");
        text.push_str(subtag);
    }
}

// The text of a script, if there is one.
fn script_of(script: &Option<Script>) -> Option<&str>
    ensures text { option_copied result ≡ script.now }
    ensures known { IfSome script.now IsScript }
{
    match script {
        Some(script) => Some(script.as_str()),
        None => None,
    }
}

// The text of a region, if there is one.
fn region_of(region: &Option<Region>) -> Option<&str>
    ensures text { option_copied result ≡ region.now }
    ensures known { IfSome region.now IsRegion }
{
    match region {
        Some(region) => Some(region.as_str()),
        None => None,
    }
}

// The name of a marker.
fn marker_text(marker: NameMarker) -> &'static str
    ensures { result.now ≡ marker_text marker }
{
    match marker {
        NameMarker::LanguageLongHeavy => "language/long/heavy",
        NameMarker::LanguageLongLight => "language/long/light",
        NameMarker::LanguageMediumHeavy => "language/medium/heavy",
        NameMarker::LanguageMediumLight => "language/medium/light",
        NameMarker::LanguageMediumTiny => "language/medium/tiny",
        NameMarker::LanguageShortHeavy => "language/short/heavy",
        NameMarker::LanguageShortLight => "language/short/light",
        NameMarker::RegionMediumLight => "region/medium/light",
        NameMarker::RegionMediumTiny => "region/medium/tiny",
        NameMarker::RegionShortLight => "region/short/light",
        NameMarker::RegionShortTiny => "region/short/tiny",
        NameMarker::ScriptMediumHeavy => "script/medium/heavy",
        NameMarker::ScriptMediumLight => "script/medium/light",
        NameMarker::ScriptMediumTiny => "script/medium/tiny",
        NameMarker::ScriptShortHeavy => "script/short/heavy",
        NameMarker::VariantMediumHeavy => "variant/medium/heavy",
    }
}
