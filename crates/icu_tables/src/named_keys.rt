//! The keys that have a name in a locale, of own names and of lent ones.
ghost use Rattle.std.specs.Prelude.{◌≡◌, ◌++◌, ◌↔◌, IfOk, IsTrue, OnOk, option_copied};
ghost use Rattle.std.specs.List.{Contains};
ghost use Rattle.std.specs.Map.{keys_of};
ghost use Rattle.icu_tables.specs.LentNames.{lent_rows};
ghost use Rattle.icu_tables.specs.NamedKeys.{AreNamedKeys, is_named_by};
ghost use Rattle.icu_tables.specs.inner.Lent.{AddsKeys};

use crate::NameRows;
use crate::lent_names::add_lent_keys;
use icu_provider::laws::{equality_is_told, keys_are_told_apart};
use icu_provider::{DataLocale, NameKey, NameMarker, TableText};
use icu_tables_flat::FlatTexts;
use std::alloc::{AllocError, Global};

// The keys that some of the markers names in a locale, each once, in rising order.
pub(crate) fn named_keys(
    alloc: Global,
    own: &NameRows,
    lent: Option<&FlatTexts<'static>>,
    markers: &[NameMarker],
    locale: &DataLocale,
) -> Result<Vec<NameKey>, AllocError>
    ensures { IfOk result (λ keys. AreNamedKeys (own.now ++ lent_rows (option_copied lent.entry))
        markers.now locale.now keys.items) }
{
    keys_are_told_apart();
    equality_is_told();
    let mut keys = gathered(alloc, own, lent, markers, locale)?;
    keys.sort_unstable();
    keys.dedup();
    Ok(keys)
}

// The keys that each of the markers names in a locale.
fn gathered(
    alloc: Global,
    own: &NameRows,
    lent: Option<&FlatTexts<'static>>,
    markers: &[NameMarker],
    locale: &DataLocale,
) -> Result<Vec<NameKey>, AllocError>
    ensures { let rows = own.now ++ lent_rows (option_copied lent.entry) in
        IfOk result (λ keys. (key : NameKey) → Contains keys.items key
        ↔ IsTrue (is_named_by rows markers.now locale.now key)) }
{
    let mut keys = Vec::new(alloc);
    for marker in markers {
        add_all_keys(&mut keys, own, lent, *marker, locale)?;
    }
    Ok(keys)
}

// Adds the keys that a marker names in a locale.
fn add_all_keys(
    keys: &mut Vec<NameKey>,
    own: &NameRows,
    lent: Option<&FlatTexts<'static>>,
    marker: NameMarker,
    locale: &DataLocale,
) -> Result<(), AllocError>
    ensures { OnOk result (AddsKeys (own.now ++ lent_rows (option_copied lent.entry))
        (marker, locale.now) keys.old.items keys.new.items) }
{
    keys_are_told_apart();
    add_keys(keys, own.names_of(marker, locale))?;
    match lent {
        Some(lent) => add_lent_keys(keys, lent, marker, locale),
        None => Ok(()),
    }
}

// The keys of names are appended to others.
fn add_keys(keys: &mut Vec<NameKey>, names: &[(NameKey, TableText)]) -> Result<(), AllocError>
    ensures { OnOk result (keys.new.items ≡ keys.old.items ++ keys_of names.now) }
{
    for name in names {
        keys.push(name.0)?;
    }
    Ok(())
}
