//! Laws of validity. Each function here takes nothing, answers nothing and carries a proved fact.
ghost use Rattle.std.specs.Prelude.{◌≡◌, ◌↔◌, ◌⊎◌, ◌≤◌, [], codes, false, true, length, List, ℕ, Option};
ghost use Rattle.icu_locale_core.specs.Identifier.{pieces};
ghost use Rattle.icu_locale_extensions.specs.declared.identifier.LocaleIdentifier.{LocaleIdentifier};
ghost use Rattle.icu_locale_validity.specs.Parts.{IsValid, is_valid};
ghost use Rattle.icu_locale_validity.specs.Places.{IsPlaceOf, base_of, bytes_at, place_of, spells_part};
ghost use Rattle.icu_locale_validity.specs.Reports.{report_of};
ghost use Rattle.icu_locale_validity.specs.declared.part.PartKind.{PartKind};
ghost use Rattle.icu_locale_validity.specs.declared.table.Validity.{Validity};

/// A locale is valid exactly where each of its parts is listed and may be used, and its subdivision is one of its region.
pub fn valid_by_parts()
    ensures { (v : Validity) (x : LocaleIdentifier)
        → (is_valid v x ≡ true) ↔ IsValid v x }
{}

/// A locale is valid exactly where the word `valid` is all that is told of it, whatever text spells it.
pub fn valid_in_one_word()
    ensures { (v : Validity) (t : List ℕ) (x : LocaleIdentifier)
        → (report_of v t x ≡ codes "valid") ↔ IsValid v x }
{}

/// Over a table that lists no language no locale is valid.
pub fn nothing_is_listed()
    ensures { (v : Validity) (x : LocaleIdentifier)
        → v.languages ≡ [] → is_valid v x ≡ false }
{}

/// Private use has no part in it: locales that differ in that alone are told alike.
pub fn private_use_is_free()
    ensures valid { (v : Validity) (x : LocaleIdentifier) (p : Option (List (List ℕ)))
        → is_valid v (record x { private_use = p }) ≡ is_valid v x }
    ensures told { (v : Validity) (t : List ℕ) (x : LocaleIdentifier)
        (p : Option (List (List ℕ)))
        → report_of v t (record x { private_use = p }) ≡ report_of v t x }
{}

/// The bytes at the place of a part spell it, where it is not all of the text.
pub fn places_spell_parts()
    ensures { (t : List ℕ) (kind : PartKind) (marks : List (List ℕ)) (wanted : List ℕ)
        → (place_of t kind marks wanted ≡ (0, length t))
        ⊎ (spells_part kind (pieces wanted)
        (pieces (bytes_at (base_of t) (place_of t kind marks wanted))) ≡ true) }
{}

/// The place of a part lies in the text.
pub fn places_lie_in_texts()
    ensures { (t : List ℕ) (kind : PartKind) (marks : List (List ℕ)) (wanted : List ℕ)
        → ((place_of t kind marks wanted).0 ≤ (place_of t kind marks wanted).1)
        × ((place_of t kind marks wanted).1 ≤ length t) }
{}

/// The place of a part is where it lies first among the pieces of the text, behind those that pass
/// all marks. It is all of the text where the part lies nowhere. No other bytes are its place.
pub fn places_are_where_parts_lie()
    ensures { (t : List ℕ) (kind : PartKind) (marks : List (List ℕ)) (wanted : List ℕ)
        (place : ℕ × ℕ)
        → (place_of t kind marks wanted ≡ place) ↔ IsPlaceOf t kind marks wanted place }
{}
