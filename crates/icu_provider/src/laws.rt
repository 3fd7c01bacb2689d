//! Laws of requests and of tables. Each function here takes nothing, answers nothing and carries a proved fact.
ghost use Rattle.std.specs.Prelude.{◌≡◌, List, Some};
ghost use Rattle.std.specs.BTreeMap.{insert_entry};
ghost use Rattle.std.specs.Ordering.{nat_cmp};
ghost use Rattle.icu_locale_core.specs.Agreement.{TellsEquality};
ghost use Rattle.icu_locale_core.specs.Maps.{IsSortedMap, SetsOnly};
ghost use Rattle.icu_locale_core.specs.TextSet.{text_cmp};
ghost use Rattle.icu_provider.specs.declared.data_locale.DataLocale.{DataLocale};
ghost use Rattle.icu_provider.specs.declared.exemplars.ExemplarMarker.{ExemplarMarker};
ghost use Rattle.icu_provider.specs.declared.names.MenuMarker.{MenuMarker};
ghost use Rattle.icu_provider.specs.declared.names.NameKey.{NameKey};
ghost use Rattle.icu_provider.specs.declared.names.NameMarker.{NameMarker};
ghost use Rattle.icu_provider.specs.Requests.{exemplar_place, key_order, locale_order, menu_place, name_place, exemplar_cmp, locale_cmp, menu_cmp, name_cmp};
ghost use Rattle.icu_provider.specs.SortedMaps.{TiesEqualAlone, pair_cmp};

use crate::{DataLocale, ExemplarMarker, MenuMarker, NameKey, NameMarker};
use std::cmp::{Ord, PartialEq};

/// Requests are in order by their parts: locales by language, script and region, kinds by their places, and keys of one
/// kind by their texts.
pub fn requests_in_order()
    ensures locales { (a b : DataLocale)
        → ⟦<DataLocale as Ord>⟧.cmp a b ≡ locale_order a b }
    ensures exemplars { (a b : ExemplarMarker) → ⟦<ExemplarMarker as Ord>⟧.cmp a b
        ≡ nat_cmp (exemplar_place a) (exemplar_place b) }
    ensures menus { (a b : MenuMarker) → ⟦<MenuMarker as Ord>⟧.cmp a b
        ≡ nat_cmp (menu_place a) (menu_place b) }
    ensures names { (a b : NameMarker) → ⟦<NameMarker as Ord>⟧.cmp a b
        ≡ nat_cmp (name_place a) (name_place b) }
    ensures keys { (a b : NameKey) → ⟦<NameKey as Ord>⟧.cmp a b ≡ key_order a b }
{}

/// The orders of the tables' keys tie equal keys alone, so that no row stands for two requests.
pub fn keys_are_told_apart()
    ensures texts { TiesEqualAlone text_cmp }
    ensures pairs { TiesEqualAlone pair_cmp }
    ensures locales { TiesEqualAlone locale_cmp }
    ensures exemplars { TiesEqualAlone exemplar_cmp }
    ensures names { TiesEqualAlone name_cmp }
    ensures menus { TiesEqualAlone menu_cmp }
{
    requests_in_order();
}

/// `==` of the parts of requests passes exactly where they are equal.
pub fn equality_is_told()
    ensures locales { TellsEquality ⟦<DataLocale as PartialEq>⟧.eq }
    ensures exemplars { TellsEquality ⟦<ExemplarMarker as PartialEq>⟧.eq }
    ensures menus { TellsEquality ⟦<MenuMarker as PartialEq>⟧.eq }
    ensures names { TellsEquality ⟦<NameMarker as PartialEq>⟧.eq }
    ensures keys { TellsEquality ⟦<NameKey as PartialEq>⟧.eq }
{}

/// Where a row is inserted, its key finds its value, each other key what it found before, and the keys still rise.
pub fn inserted_rows_are_found<K: Ord, V>()
    ensures found { (rows : List (K × V)) (key : K) (value : V)
        → SetsOnly K.cmp rows (insert_entry K.cmp rows key value) key (Some value) }
    ensures sorted { (rows : List (K × V)) (key : K) (value : V) → IsSortedMap K.cmp rows
        → IsSortedMap K.cmp (insert_entry K.cmp rows key value) }
{}
