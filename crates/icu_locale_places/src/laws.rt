//! Laws of places. Each function here takes nothing, answers nothing and carries a proved fact.
ghost use Rattle.std.specs.Prelude.{◌≡◌, ◌↔◌, ◌<◌, ◌≤◌, true, false, List, ℕ};
ghost use Rattle.std.specs.Prelude.{length, suc, take, slice_index_or, slice_range, []};
ghost use Rattle.icu_locale_core.specs.Identifier.{pieces, starts_with_language};
ghost use Rattle.icu_locale_places.specs.Places.{BeginsSome, BeginsText, HasStopped, IsPlace, IsSpan, IsWrongAt, begins_some};

/// Pieces are the first of some that spell a locale identifier exactly where they are read, or are with one more.
pub fn begins_is_told()
    ensures { (ps : List (List ℕ)) → BeginsSome ps ↔ (begins_some ps ≡ true) }
{
    icu_locale_extensions::laws::derived_is_read();
}

/// The first pieces of a text are those of some that spell a locale identifier exactly where some text that begins with
/// them spells one.
pub fn fronts_begin_texts()
    ensures { (t : List ℕ) (n : ℕ) → n ≤ length (pieces t)
        → BeginsSome (take n (pieces t)) ↔ BeginsText (take n (pieces t)) }
{
    icu_locale_extensions::laws::derived_is_read();
    begins_is_told();
}

/// Pieces have one place.
pub fn places_are_one()
    ensures some { (ps : List (List ℕ)) → (n : ℕ) × IsPlace ps n }
    ensures one { (ps : List (List ℕ)) (m n : ℕ) → IsPlace ps m → IsPlace ps n
        → m ≡ n }
{
    begins_is_told();
}

/// A reader from left to right stops at the place: within the pieces up to a wrong piece it has stopped, and within
/// fewer it has not. Where the place is the end, it has not stopped within the text at all.
pub fn the_reader_stops_there()
    ensures stopped { (ps : List (List ℕ)) (n : ℕ) → IsPlace ps n → n < length ps
        → HasStopped (take (suc n) ps) }
    ensures not_before { (ps : List (List ℕ)) (n m : ℕ) → IsPlace ps n → m ≤ n
        → ¬ (HasStopped (take m ps)) }
{
    icu_locale_extensions::laws::derived_is_read();
    icu_locale_extensions::laws::reading_is_by_the_grammar();
}

/// A text is wrong at the same bytes always.
pub fn a_fault_has_one_place()
    ensures { (t : List ℕ) (from to from' to' : ℕ) → IsWrongAt t from to
        → IsWrongAt t from' to' → (from ≡ from') × (to ≡ to') }
{
    places_are_one();
}

/// The place is the first piece exactly where that is no language, so exactly where the reader says so.
pub fn languages_come_first()
    ensures { (t : List ℕ) (n : ℕ) → IsPlace (pieces t) n
        → (n ≡ 0) ↔ (starts_with_language t ≡ false) }
{
    begins_is_told();
}

/// The bytes of a piece are that piece.
pub fn spans_are_pieces()
    ensures { (t : List ℕ) (n from to : ℕ) → n < length (pieces t)
        → IsSpan t n from to → slice_range t from to ≡ slice_index_or (pieces t) n [] }
{}
