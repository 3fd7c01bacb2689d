//! What a piece spells.
ghost use Rattle.std.specs.Prelude.{◌≡◌, ◌∷◌, []};
ghost use Rattle.icu_locale_core.specs.Subtag.{lowercase};
ghost use Rattle.icu_locale_core.specs.laws.Identifiers.{same_text};

// Whether a piece is one letter, case aside.
pub fn is_named(piece: &[u8], name: u8) -> bool
    ensures { result ≡ same_text (lowercase piece.now) (name ∷ []) }
{
    match piece {
        [only] => only.to_ascii_lowercase() == name,
        _ => false,
    }
}

// Whether a piece is a text, case aside.
pub fn is_spelled(piece: &[u8], text: &[u8]) -> bool
    ensures { result ≡ same_text (lowercase piece.now) (lowercase text.now) }
{
    piece.eq_ignore_ascii_case(text)
}
