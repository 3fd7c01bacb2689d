//! A text that is being written, and where the raw parts of it are.
ghost use Rattle.std.specs.Prelude.{◌≡◌, ◌∷◌, [], ◌++◌, IfOk, OnOk, length, string_bytes, true, false};
ghost use Rattle.std.specs.List.{list_any};
ghost use Rattle.icu_locale_names.specs.LentNames.{lent_piece};
ghost use Rattle.icu_locale_full_names.specs.Squares.{square, square_text, squared};
ghost use Rattle.icu_locale_full_names.specs.inner.Drafts.{Adds};
ghost use Rattle.icu_locale_full_names.specs.inner.Brackets.{may_begin_bracket};

use icu_locale_names::LentPiece;
use std::alloc::{AllocError, Global};

// For how many bytes there is room at first: most names are shorter.
const ROOM: usize = 64;

// A text, and where the raw parts of it are.
#[derive(Debug, Drop)]
pub struct Draft {
    pub text: String,
    pub raw_spans: Vec<(usize, usize)>,
}

impl Draft {
    // Nothing yet.
    pub fn new(alloc: Global) -> Result<Self, AllocError>
        ensures text { IfOk result (λ draft. string_bytes draft.text ≡ []) }
        ensures marks { IfOk result (λ draft. draft.raw_spans.items ≡ []) }
    {
        Ok(Draft {
            text: String::with_capacity(alloc, ROOM)?,
            raw_spans: Vec::new(alloc),
        })
    }

    // A piece as it is.
    pub fn add(&mut self, piece: LentPiece<'_>) -> Result<(), AllocError>
        ensures { OnOk result (Adds (lent_piece piece.entry ∷ []) self.old self.new) }
    {
        let start = self.text.as_str().len();
        self.text.push_str(piece.text)?;
        self.mark(start, piece.is_raw)
    }

    // A piece with square brackets.
    pub fn add_square(&mut self, piece: LentPiece<'_>) -> Result<(), AllocError>
        ensures { OnOk result (Adds (squared (lent_piece piece.entry ∷ [])) self.old self.new) }
    {
        let start = self.text.as_str().len();
        push_square(piece.text, &mut self.text)?;
        self.mark(start, piece.is_raw)
    }

    // Notes that the text from a place on is raw, where it is.
    fn mark(&mut self, start: usize, is_raw: bool) -> Result<(), AllocError>
        ensures text { string_bytes self.new.text ≡ string_bytes self.old.text }
        ensures raw { is_raw ≡ true → OnOk result (self.new.raw_spans.items
            ≡ self.old.raw_spans.items ++ (start, length (string_bytes self.old.text)) ∷ []) }
        ensures plain { is_raw ≡ false → self.new.raw_spans.items ≡ self.old.raw_spans.items }
    {
        if is_raw {
            self.raw_spans.push((start, self.text.as_str().len()))?;
        }
        Ok(())
    }
}

// A text with square brackets, appended to a text. Most texts have no bracket, and are appended as they are.
fn push_square(more: &str, text: &mut String) -> Result<(), AllocError>
    ensures { OnOk result (string_bytes text.new
        ≡ string_bytes text.old ++ square_text more.now) }
{
    if !may_have_bracket(more) {
        return text.push_str(more);
    }
    for c in more.chars() {
        text.push(square(c))?;
    }
    Ok(())
}

// Whether a byte of a text may begin a round bracket.
fn may_have_bracket(text: &str) -> bool
    ensures { result ≡ list_any may_begin_bracket text.now }
{
    text.as_bytes()
        .iter()
        .any(|byte| matches!(byte, b'(' | b')' | 0xEF))
}

// A round bracket as a square one.
fn square(c: char) -> char
    ensures { result ≡ square c }
{
    match c {
        '(' => '[',
        ')' => ']',
        '\u{FF08}' => '\u{FF3B}',
        '\u{FF09}' => '\u{FF3D}',
        _ => c,
    }
}
