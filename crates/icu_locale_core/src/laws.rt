//! Laws of texts and identifiers. Each function here takes nothing, answers nothing and carries a proved fact.
ghost use Rattle.std.specs.Prelude.{Ok, ◌≡◌, ◌↔◌, ◌<◌, ◌&&◌, ◌||◌, not, List, ℕ, Some, true, false};
ghost use Rattle.std.specs.List.{Contains};
ghost use Rattle.std.specs.List.Sorted.{IsStrictlySortedBy};
ghost use Rattle.icu_locale_core.specs.Agreement.{Agree, TellsEquality, fed_subtag, fed_variants, fed_identifier, identifier_cmp};
ghost use Rattle.icu_locale_core.specs.Identifier.{pieces, IsIdentifier, Spells, has_variant, written};
ghost use Rattle.icu_locale_core.specs.Keywords.{KeywordRows, with_value, without_key};
ghost use Rattle.icu_locale_core.specs.Maps.{IsSortedMap, value_at};
ghost use Rattle.icu_locale_core.specs.TextSet.{TextSet, empty, contains, difference, from_list, is_subset, len, rising, text_cmp, union};
ghost use Rattle.icu_locale_core.specs.Readings.{read_pieces};
ghost use Rattle.icu_locale_core.specs.Value.{IsValue, is_value, read_value, written_value};

use crate::{
    Key, Keywords, Language, LanguageIdentifier, Locale, Region, Script, Subtag, Value, Variant,
    Variants,
};
use std::cmp::{Ord, PartialEq};
use std::hash::Hash;

/// What Display writes of an identifier spells that identifier.
#[tactic(auto, using(crate::proofs::Written::spells_written))]
pub fn written_spells()
    ensures { (x : LanguageIdentifier) → IsIdentifier x → Spells (written x) x }
{}

/// A text spells at most one identifier.
pub fn spelled_once()
    ensures { (t : List ℕ) (x y : LanguageIdentifier) → IsIdentifier x → IsIdentifier y
        → Spells t x → Spells t y → x ≡ y }
{}

/// A text that spells an identifier without variants has no piece that is a variant, so reading it takes no memory.
pub fn spelled_without_variants()
    ensures { (t : List ℕ) (x : LanguageIdentifier) → IsIdentifier x → Spells t x
        → x.variants ≡ empty → has_variant t ≡ false }
{}

/// Two identifiers are equal exactly where their written forms are.
pub fn written_once()
    ensures { (x y : LanguageIdentifier) → IsIdentifier x → IsIdentifier y
        → (written x ≡ written y) ↔ (x ≡ y) }
{}

/// Equality, order and hash of identifiers agree, and what is fed to a hasher tells them apart.
pub fn identifiers_agree()
    ensures { Agree ⟦<LanguageIdentifier as PartialEq>⟧.eq
        ⟦<LanguageIdentifier as Ord>⟧.cmp ⟦<LanguageIdentifier as Hash>⟧.hash_input }
{}

/// Identifiers are in order by their language, then by script, region and the rising list of variants, an absent part
/// first.
pub fn identifiers_in_order()
    ensures { (x y : LanguageIdentifier)
        → ⟦<LanguageIdentifier as Ord>⟧.cmp x y ≡ identifier_cmp x y }
{}

/// A hasher is fed the language of an identifier, its script, its region and its variants, rising.
pub fn identifiers_are_fed()
    ensures { (x : LanguageIdentifier)
        → ⟦<LanguageIdentifier as Hash>⟧.hash_input x ≡ fed_identifier x }
{}

/// Equality, order and hash of sets of variants agree, and a hasher is fed each variant, rising.
pub fn variants_agree()
    ensures agree { Agree ⟦<Variants as PartialEq>⟧.eq
        ⟦<Variants as Ord>⟧.cmp ⟦<Variants as Hash>⟧.hash_input }
    ensures fed { (s : TextSet) → ⟦<Variants as Hash>⟧.hash_input s ≡ fed_variants s }
{}

/// Equality, order and hash of subtags agree, and what is fed to a hasher tells them apart.
#[tactic(auto, using(crate::proofs::Agreements::texts_agree))]
pub fn subtags_agree()
    ensures languages { Agree ⟦<Language as PartialEq>⟧.eq
        ⟦<Language as Ord>⟧.cmp ⟦<Language as Hash>⟧.hash_input }
    ensures scripts { Agree ⟦<Script as PartialEq>⟧.eq
        ⟦<Script as Ord>⟧.cmp ⟦<Script as Hash>⟧.hash_input }
    ensures regions { Agree ⟦<Region as PartialEq>⟧.eq
        ⟦<Region as Ord>⟧.cmp ⟦<Region as Hash>⟧.hash_input }
    ensures variants { Agree ⟦<Variant as PartialEq>⟧.eq
        ⟦<Variant as Ord>⟧.cmp ⟦<Variant as Hash>⟧.hash_input }
    ensures keys { Agree ⟦<Key as PartialEq>⟧.eq
        ⟦<Key as Ord>⟧.cmp ⟦<Key as Hash>⟧.hash_input }
    ensures subtags { Agree ⟦<Subtag as PartialEq>⟧.eq
        ⟦<Subtag as Ord>⟧.cmp ⟦<Subtag as Hash>⟧.hash_input }
{}

/// A hasher is fed the text of a subtag.
pub fn subtags_are_fed()
    ensures languages { (t : List ℕ) → ⟦<Language as Hash>⟧.hash_input t ≡ fed_subtag t }
    ensures scripts { (t : List ℕ) → ⟦<Script as Hash>⟧.hash_input t ≡ fed_subtag t }
    ensures regions { (t : List ℕ) → ⟦<Region as Hash>⟧.hash_input t ≡ fed_subtag t }
    ensures variants { (t : List ℕ) → ⟦<Variant as Hash>⟧.hash_input t ≡ fed_subtag t }
    ensures keys { (t : List ℕ) → ⟦<Key as Hash>⟧.hash_input t ≡ fed_subtag t }
    ensures subtags { (t : List ℕ) → ⟦<Subtag as Hash>⟧.hash_input t ≡ fed_subtag t }
{}

/// `==` of values, of keywords and of locales passes exactly where they are equal.
pub fn equality_is_told()
    ensures values { TellsEquality ⟦<Value as PartialEq>⟧.eq }
    ensures keywords { TellsEquality ⟦<Keywords as PartialEq>⟧.eq }
    ensures locales { TellsEquality ⟦<Locale as PartialEq>⟧.eq }
{}

/// What Display writes of a value reads as that value.
#[tactic(auto, using(crate::proofs::Values::value_is_accepted, crate::proofs::Values::value_reads_back))]
pub fn written_values_read_back()
    ensures accepted { (v : List (List ℕ)) → IsValue v → is_value (written_value v) ≡ true }
    ensures same { (v : List (List ℕ)) → IsValue v → read_value (written_value v) ≡ v }
{}

/// Of sets of variants: the walk rises, so that no member comes twice, and it goes through the members alone.
#[tactic(auto, using(crate::proofs::TextSets::rising_rises, crate::proofs::TextSets::members_of_walk))]
pub fn sets_rise()
    ensures rises { (s : TextSet) → IsStrictlySortedBy text_cmp (rising s) }
    ensures members { (s : TextSet) (t : List ℕ)
        → (contains s t ≡ true) ↔ Contains (rising s) t }
{}

/// Which variants are members of a list's set, of a union and of what is left where some are taken out.
pub fn members_of_sets()
    ensures list { (ts : List (List ℕ)) (t : List ℕ)
        → (contains (from_list ts) t ≡ true) ↔ Contains ts t }
    ensures union { (s u : TextSet) (t : List ℕ)
        → contains (union s u) t ≡ (contains s t || contains u t) }
    ensures difference { (s u : TextSet) (t : List ℕ)
        → contains (difference s u) t ≡ (contains s t && not (contains u t)) }
{}

/// Sets with the same members are equal. A set that lacks a member of another, and has none that the other lacks, has
/// fewer members.
#[tactic(auto, using(crate::specs::laws::TextSets::same_set, crate::proofs::TextSets::fewer_members))]
pub fn sets_are_their_members()
    ensures same { (s u : TextSet)
        → ((t : List ℕ) → contains s t ≡ contains u t) → s ≡ u }
    ensures fewer { (s u : TextSet) (t : List ℕ) → is_subset s u ≡ true
        → contains u t ≡ true → contains s t ≡ false → len s < len u }
{}

/// Keywords are a map: those with the same value at every key are equal, and a value that is taken out and put back
/// leaves what was there.
pub fn keywords_are_a_map()
    ensures same { (k l : KeywordRows) → IsSortedMap text_cmp k → IsSortedMap text_cmp l
        → ((key : List ℕ) → value_at text_cmp k key ≡ value_at text_cmp l key) → k ≡ l }
    ensures put_back { (k : KeywordRows) (key : List ℕ) (value : List (List ℕ))
        → IsSortedMap text_cmp k → value_at text_cmp k key ≡ Some value
        → with_value (without_key k key) key value ≡ k }
{}

/// What is read of pieces is spelled by a text of them, and nothing else is.
pub fn pieces_are_read()
    ensures sound { (ps : List (List ℕ)) (x : LanguageIdentifier) → read_pieces ps ≡ Ok x
        → IsIdentifier x × ((t : List ℕ) × ((pieces t ≡ ps) × Spells t x)) }
    ensures complete { (t : List ℕ) (x : LanguageIdentifier) → IsIdentifier x → Spells t x
        → read_pieces (pieces t) ≡ Ok x }
{}
