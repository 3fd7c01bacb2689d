//! Laws of files of tables. Each function here takes nothing, answers nothing and carries a proved fact.
ghost use Rattle.std.specs.Prelude.{◌≡◌, ◌∷◌, [], codes, ℕ, List, Some};
ghost use Rattle.std.specs.Cmp.{IsTotalOrder};
ghost use Rattle.serde_json.specs.Data.{Data};
ghost use Rattle.icu_provider.specs.Requests.{exemplar_cmp, locale_cmp, menu_cmp, name_cmp};
ghost use Rattle.icu_provider.specs.declared.data_locale.DataLocale.{DataLocale};
ghost use Rattle.icu_provider.specs.declared.names.NameKey.{NameKey};
ghost use Rattle.icu_provider.specs.declared.names.NameMarker.{NameMarker};
ghost use Rattle.icu_provider.specs.declared.likely.extended.LikelySubtagsExtended.{LikelySubtagsExtended};
ghost use Rattle.icu_provider.specs.declared.likely.language.LikelySubtagsForLanguage.{LikelySubtagsForLanguage};
ghost use Rattle.icu_provider.specs.declared.likely.script_region.LikelySubtagsForScriptRegion.{LikelySubtagsForScriptRegion};
ghost use Rattle.icu_tables.specs.NamedKeys.{AreNamedKeys};
ghost use Rattle.icu_tables.specs.NamedRows.{name_patterns, exemplar_set, menu_name};
ghost use Rattle.icu_tables.specs.Lookups.{
  IsFile,
  FindsAt,
  FindsByKey,
  FindsByLanguage,
  FindsByLocale,
  FindsByScriptRegion,
  FindsExtended,
};
ghost use Rattle.icu_tables.specs.Names.{exemplar_markers, locale_key, menu_markers, name_key, name_markers};
ghost use Rattle.icu_tables.specs.Rows.{FileRows};
ghost use Rattle.icu_tables.specs.Shape.{text as a_text};
ghost use Rattle.icu_tables.specs.Subtags.{language_key};

use icu_locale_core::Language;
use icu_provider::laws::keys_are_told_apart;
use icu_provider::{DataLocale, ExemplarMarker, MenuMarker, NameKey, NameMarker};
use std::cmp::Ord;

/// In the rows of a file a request is answered by what the file has under the names of its parts, and by nothing
/// else: exemplar sets by marker and locale, names and names in menus by marker, locale and key, patterns by locale.
pub fn requests_find_their_members()
    ensures exemplars { (text : List ℕ) (value : Data) (rows : FileRows)
        → IsFile text value rows → FindsByLocale exemplar_cmp exemplar_markers exemplar_set
        (codes "exemplars") value rows.exemplars }
    ensures names { (text : List ℕ) (value : Data) (rows : FileRows)
        → IsFile text value rows → FindsByKey name_cmp name_markers name_key a_text
        (codes "names") value rows.names }
    ensures menus { (text : List ℕ) (value : Data) (rows : FileRows)
        → IsFile text value rows → FindsByKey menu_cmp menu_markers
        (λ _. language_key) menu_name (codes "menus") value rows.menus }
    ensures essentials { (text : List ℕ) (value : Data) (rows : FileRows)
        → IsFile text value rows → FindsAt locale_cmp locale_key name_patterns
        (codes "essentials" ∷ []) value rows.essentials }
{
    keys_are_told_apart();
    is_in_order::<(ExemplarMarker, DataLocale)>();
    is_in_order::<(NameMarker, DataLocale, NameKey)>();
    is_in_order::<(MenuMarker, DataLocale, Language)>();
    is_in_order::<DataLocale>();
}

/// In the maps of likely subtags of a file a key is answered by what the file has under its name, and by nothing
/// else.
pub fn likely_keys_find_their_members()
    ensures language { (text : List ℕ) (value : Data) (rows : FileRows)
        (table : LikelySubtagsForLanguage) → IsFile text value rows
        → rows.likely_language ≡ Some table → FindsByLanguage value table }
    ensures script_region { (text : List ℕ) (value : Data) (rows : FileRows)
        (table : LikelySubtagsForScriptRegion) → IsFile text value rows
        → rows.likely_script_region ≡ Some table → FindsByScriptRegion value table }
    ensures extended { (text : List ℕ) (value : Data) (rows : FileRows)
        (table : LikelySubtagsExtended) → IsFile text value rows
        → rows.likely_extended ≡ Some table → FindsExtended value table }
{
    keys_are_told_apart();
}

// The order of a type is total.
fn is_in_order<K: Ord>()
    ensures { IsTotalOrder K.cmp }
{}

/// The keys that are named in a locale are one list.
pub fn named_keys_are_one()
    ensures { (rows : List ((NameMarker × DataLocale × NameKey) × List ℕ))
        (markers : List NameMarker) (locale : DataLocale) (keys others : List NameKey)
        → AreNamedKeys rows markers locale keys → AreNamedKeys rows markers locale others
        → keys ≡ others }
{}
