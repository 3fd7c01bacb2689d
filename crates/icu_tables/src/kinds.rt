//! Which keys belong to which markers.
ghost use Rattle.std.specs.Prelude.{◌≡◌};
ghost use Rattle.icu_tables.specs.Tables.{is_of_kind, names_languages, names_regions, names_scripts, names_variants};

use icu_provider::{NameKey, NameMarker};

// Whether a marker has names of such keys.
#[inline]
pub(crate) fn is_of_kind(marker: NameMarker, key: &NameKey) -> bool
    ensures { result ≡ is_of_kind marker key.now }
{
    match key {
        NameKey::Language(..) => names_languages(marker),
        NameKey::Script(_) => names_scripts(marker),
        NameKey::Region(_) => names_regions(marker),
        NameKey::Variant(_) => names_variants(marker),
    }
}

// Whether a marker is one of names of languages.
#[inline]
pub(crate) fn names_languages(marker: NameMarker) -> bool
    ensures { result ≡ names_languages marker }
{
    matches!(
        marker,
        NameMarker::LanguageMediumTiny
            | NameMarker::LanguageMediumLight
            | NameMarker::LanguageMediumHeavy
            | NameMarker::LanguageShortLight
            | NameMarker::LanguageShortHeavy
            | NameMarker::LanguageLongLight
            | NameMarker::LanguageLongHeavy
    )
}

// Whether a marker is one of names of scripts.
#[inline]
pub(crate) fn names_scripts(marker: NameMarker) -> bool
    ensures { result ≡ names_scripts marker }
{
    matches!(
        marker,
        NameMarker::ScriptMediumTiny
            | NameMarker::ScriptMediumLight
            | NameMarker::ScriptMediumHeavy
            | NameMarker::ScriptShortHeavy
    )
}

// Whether a marker is one of names of regions.
#[inline]
pub(crate) fn names_regions(marker: NameMarker) -> bool
    ensures { result ≡ names_regions marker }
{
    matches!(
        marker,
        NameMarker::RegionMediumTiny
            | NameMarker::RegionMediumLight
            | NameMarker::RegionShortTiny
            | NameMarker::RegionShortLight
    )
}

// Whether a marker is one of names of variants.
#[inline]
fn names_variants(marker: NameMarker) -> bool
    ensures { result ≡ names_variants marker }
{
    matches!(marker, NameMarker::VariantMediumHeavy)
}
