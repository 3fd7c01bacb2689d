//! Laws of language names: what follows from the definitions alone, over every provider. Their functions do nothing.
ghost use Rattle.std.specs.Prelude.{◌≡◌, ◌↔◌, ◌≢◌, [], List, true};
ghost use Rattle.icu_locale_names.specs.Pieces.{Piece, spans, has_raw};

/// A raw subtag is in a text exactly where the list of its spans is not empty: so the report of a write is `Err`
/// exactly where it gives a span.
#[tactic(auto, using(crate::proofs::PieceWrites::spans_where_raw))]
pub fn report_and_spans_agree()
    ensures { (pieces : List Piece) → (has_raw pieces ≡ true) ↔ (spans pieces ≢ []) }
{}
