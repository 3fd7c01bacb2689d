//! What a macro region stands for.
ghost use Rattle.std.specs.Prelude.{◌≡◌, max, Some};
ghost use Rattle.std.specs.Option.{option_map};
ghost use Rattle.icu_provider.specs.SortedMaps.{regions_at};
ghost use Rattle.icu_locale_matching.specs.Distance.{is_macro, row_of, with_region};

use icu_locale_core::Region;
use icu_provider::{DataLocale, SortedMap};

// The macro regions of a table, and what each stands for.
pub(crate) type Macros = SortedMap<Region, Vec<Region>>;

// Whether a region has a row.
#[inline(always)]
pub(crate) fn is_macro(macros: &Macros, region: &Option<Region>) -> bool
    ensures { result ≡ is_macro macros.now region.now }
{
    match region {
        Some(region) => macros.contains_key(region),
        None => false,
    }
}

// The regions of the row of a region, if it has one.
pub(crate) fn row_of<'m>(macros: &'m Macros, region: &Option<Region>) -> Option<&'m [Region]>
    ensures { option_map (λ row. row.now) result ≡ row_of macros.now region.now }
{
    match region {
        Some(region) => row_at(macros, region),
        None => None,
    }
}

fn row_at<'m>(macros: &'m Macros, region: &Region) -> Option<&'m [Region]>
    ensures { option_map (λ row. row.now) result ≡ regions_at macros.now region.now }
{
    match macros.get(region) {
        Some(row) => Some(row),
        None => None,
    }
}

// A form with another region.
pub(crate) fn at_region(form: &DataLocale, region: Region) -> DataLocale
    ensures { result ≡ with_region form.now (Some region) }
{
    DataLocale {
        language: form.language,
        script: form.script,
        region: Some(region),
    }
}

// The greater of two numbers.
pub(crate) fn greater(one: u16, other: u16) -> u16
    ensures { result ≡ max one other }
{
    if one < other { other } else { one }
}
