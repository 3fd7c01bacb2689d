//! Laws of likely subtags, canonicalization and direction: what follows from the definitions alone, over every table.
//! Their functions do nothing. The steps of canonicalization that laws speak of are here too: `rule_matches`,
//! `replacement` and `search`.
ghost use Rattle.std.specs.Prelude.{◌≡◌, ◌≢◌, ◌↔◌, ℕ, List, Option, Some, None, true};
ghost use Rattle.std.specs.List.{Contains};
ghost use Rattle.icu_locale_core.specs.Identifier.{IsIdentifier};
ghost use Rattle.icu_locale_core.specs.Subtag.{und};
ghost use Rattle.icu_locale_core.specs.declared.langid.LanguageIdentifier.{LanguageIdentifier};
ghost use Rattle.icu_locale.specs.declared.expander.LocaleExpander.{LocaleExpander};
ghost use Rattle.icu_locale.specs.LikelySubtags.{LikelySubtags, Triple, unknown_script, unknown_region, maximal, IsModified, HaveSameMaximalParts, IsSettled, AreSettled};
ghost use Rattle.icu_locale.specs.declared.expander.looks.LikelyKey.{LikelyKey};
ghost use Rattle.icu_locale.specs.LikelyTable.{likely, common_row, extension_row, und_row};
ghost use Rattle.icu_locale.specs.TableKeys.{HasKey, table_keys};
ghost use Rattle.icu_locale.specs.declared.expander.Favor.{Favor};
ghost use Rattle.icu_locale.specs.Minimal.{IsMinimalForm, IsLeast};
ghost use Rattle.icu_provider.specs.declared.direction.ScriptDirection.{ScriptDirection};
ghost use Rattle.icu_locale.specs.Direction.{is_script_in, direction_of, AreDisjoint};
ghost use Rattle.icu_locale.specs.declared.directionality.Direction.{Direction};

mod canonicalization;

pub use crate::canonicalizer::identifiers::search;
pub use crate::canonicalizer::replacing::{replacement, rule_matches};
pub use canonicalization::{
    applied_where_changed, canonical_form_is_one, canonical_keywords_by_key,
    canonical_stays_canonical, nothing_to_copy, runs_end_or_repeat, value_runs_end_or_repeat,
};

/// The likely table of an expander is one map from finitely many keys: a key has at most one triple, which has the
/// key's own subtags. A row of the common tables covers the row of the extended table with the same key, and both cover
/// those that the triple of `und` serves as.
#[tactic(auto, using(crate::proofs::TableLaws::one_triple, crate::proofs::TableLaws::table_has_key, crate::proofs::TableLaws::table_key_among, crate::proofs::TableLaws::common_row_covers, crate::proofs::TableLaws::extended_row_covers, crate::proofs::TableLaws::und_row_serves))]
pub fn the_likely_table_is_one_map()
    ensures one { (e : LocaleExpander) (k : LikelyKey) (t u : Triple) → likely e k ≡ Some t
        → likely e k ≡ Some u → t ≡ u }
    ensures own_subtags { (e : LocaleExpander) (k : LikelyKey) (t : Triple)
        → likely e k ≡ Some t → HasKey t k }
    ensures finite { (e : LocaleExpander) (k : LikelyKey) (t : Triple) → likely e k ≡ Some t
        → Contains (table_keys e) k }
    ensures common { (e : LocaleExpander) (k : LikelyKey) (t : Triple) → common_row e k ≡ Some t
        → likely e k ≡ Some t }
    ensures extended { (e : LocaleExpander) (k : LikelyKey) (t : Triple) → common_row e k ≡ None
        → extension_row e.extended k ≡ Some t → likely e k ≡ Some t }
    ensures und { (e : LocaleExpander) (k : LikelyKey) →
        common_row e k ≡ None → extension_row e.extended k ≡ None
        → likely e k ≡ und_row e.language.now.und k }
{}

/// Every identifier has a minimal form, and only one, over every table.
#[tactic(auto, using(crate::proofs::Classes::minimal_form_is_one))]
pub fn minimal_form_is_one()
    ensures exists { (favor : Favor) (table : LikelySubtags) (x : LanguageIdentifier) →
        (y : LanguageIdentifier) × IsMinimalForm favor table x y }
    ensures one { (favor : Favor) (table : LikelySubtags) (x y z : LanguageIdentifier) →
        IsMinimalForm favor table x y → IsMinimalForm favor table x z → y ≡ z }
{}

/// Minimal forms are canonical: of identifiers whose maximal forms are settled, the minimal forms are equal exactly
/// where the maximal forms are, and each is the least of its class.
#[tactic(auto, using(crate::proofs::Classes::minimal_forms_tell_apart, crate::proofs::Classes::minimal_form_is_least))]
pub fn minimal_forms_are_canonical()
    ensures equal { (favor : Favor) (table : LikelySubtags) (x y u v : LanguageIdentifier) →
        IsSettled table (maximal table x) → IsSettled table (maximal table y) →
        IsMinimalForm favor table x u → IsMinimalForm favor table y v →
        (u ≡ v) ↔ (maximal table x ≡ maximal table y) }
    ensures least { (favor : Favor) (table : LikelySubtags) (x y : LanguageIdentifier) →
        IsSettled table (maximal table x) → IsMinimalForm favor table x y →
        IsLeast favor table x y }
{}

/// Over a settled table, maximizing a maximal or a minimal form gives the maximal form.
#[tactic(auto, using(crate::proofs::Classes::maximal_of_maximal, crate::proofs::Classes::maximal_of_minimal))]
pub fn maximal_forms_are_stable()
    ensures maximal { (table : LikelySubtags)
        → AreSettled table → (x : LanguageIdentifier) → IsIdentifier x →
        maximal table (maximal table x) ≡ maximal table x }
    ensures minimal { (favor : Favor) (table : LikelySubtags)
        → AreSettled table → (x y : LanguageIdentifier) → IsIdentifier x →
        IsMinimalForm favor table x y → maximal table y ≡ maximal table x }
{}

/// Over a settled table, minimizing a maximal or a minimal form gives the minimal form.
#[tactic(auto, using(crate::proofs::Classes::minimal_of_maximal, crate::proofs::Classes::minimal_of_minimal))]
pub fn minimal_forms_are_stable()
    ensures maximal { (favor : Favor) (table : LikelySubtags)
        → AreSettled table → (x y : LanguageIdentifier) → IsIdentifier x →
        IsMinimalForm favor table (maximal table x) y ↔ IsMinimalForm favor table x y }
    ensures minimal { (favor : Favor) (table : LikelySubtags)
        → AreSettled table → (x y : LanguageIdentifier) → IsIdentifier x →
        IsMinimalForm favor table x y → IsMinimalForm favor table y y }
{}

/// Over a settled table, `maximize` answers `Modified` exactly where the identifier changed. Over every table an
/// identifier for which it does not answer that is its own maximal form.
pub fn maximizing_tells_a_change()
    ensures modified { (table : LikelySubtags)
        → AreSettled table → (x : LanguageIdentifier) → IsIdentifier x →
        IsModified table x ↔ (maximal table x ≢ x) }
    ensures unmodified { (table : LikelySubtags) (x : LanguageIdentifier) →
        (IsModified table x → ⊥) → maximal table x ≡ x }
{}

/// Over every table, maximizing replaces no language but `und`, no script but `Zzzz`, no region but `ZZ`, and no
/// variant.
pub fn maximizing_keeps_subtags()
    ensures language { (table : LikelySubtags) (x : LanguageIdentifier) →
        x.language ≢ und → (maximal table x).language ≡ x.language }
    ensures script { (table : LikelySubtags) (x : LanguageIdentifier) (script : List ℕ) →
        x.script ≡ Some script → script ≢ unknown_script →
        (maximal table x).script ≡ Some script }
    ensures region { (table : LikelySubtags) (x : LanguageIdentifier) (region : List ℕ) →
        x.region ≡ Some region → region ≢ unknown_region →
        (maximal table x).region ≡ Some region }
    ensures variants { (table : LikelySubtags) (x : LanguageIdentifier)
        → (maximal table x).variants ≡ x.variants }
{}

/// Over every table, a minimal form has the variants of its identifier.
#[tactic(auto, using(crate::proofs::Classes::minimal_keeps_variants))]
pub fn minimizing_keeps_variants()
    ensures { (favor : Favor) (table : LikelySubtags) (x y : LanguageIdentifier) →
        IsMinimalForm favor table x y → y.variants ≡ x.variants }
{}

/// Over every table, maximal forms are equal exactly where those of the language, the script and the region are, and
/// the variants.
#[tactic(auto, using(crate::proofs::Classes::maximal_by_parts))]
pub fn maximal_forms_by_parts()
    ensures { (table : LikelySubtags) (x y : LanguageIdentifier) →
        (maximal table x ≡ maximal table y) ↔ HaveSameMaximalParts table x y }
{}

/// Over every list, `is_left_to_right` answers true exactly where `get` answers left to right.
pub fn left_to_right_is_a_direction()
    ensures { (d : ScriptDirection) (s : Option (List ℕ)) →
        (is_script_in d.ltr s ≡ true) ↔ (direction_of d s ≡ Some Direction.LeftToRight) }
{}

/// Over lists that share no script, `is_right_to_left` answers true exactly where `get` answers right to left.
#[tactic(auto, using(crate::proofs::Directions::right_to_left))]
pub fn right_to_left_is_a_direction()
    ensures { (d : ScriptDirection) (s : Option (List ℕ)) → AreDisjoint d →
        (is_script_in d.rtl s ≡ true) ↔ (direction_of d s ≡ Some Direction.RightToLeft) }
{}
