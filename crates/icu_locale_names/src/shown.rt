//! What a name shows, and the pieces of a text.
ghost use Rattle.std.specs.Prelude.{◌≡◌, ℕ, List};
ghost use Rattle.icu_locale_names.specs.Pieces.{plain, raw_subtag};
ghost use Rattle.icu_locale_names.specs.Shown.{shown_text, piece_by, pieces_if_any, text_pieces, lent_piece, lent_pieces};

use icu_locale_core::{Language, Region, Script, Variant};

// A subtag, which has a text.
pub trait Subtag: Copy {
    ghost text: { Self → List ℕ };

    fn text(&self) -> &str
        ensures { result.now ≡ Self.text self.now };
}

impl Subtag for Language {
    ghost text = { λ language. language };

    #[inline]
    fn text(&self) -> &str {
        self.as_str()
    }
}

impl Subtag for Script {
    ghost text = { λ script. script };

    #[inline]
    fn text(&self) -> &str {
        self.as_str()
    }
}

impl Subtag for Region {
    ghost text = { λ region. region };

    #[inline]
    fn text(&self) -> &str {
        self.as_str()
    }
}

impl Subtag for Variant {
    ghost text = { λ variant. variant };

    #[inline]
    fn text(&self) -> &str {
        self.as_str()
    }
}

// A name that a provider lent, or the subtag in its place.
#[derive(Clone, Copy, Debug)]
pub enum Shown<'d, S> {
    Name(&'d str),
    Raw(S),
}

impl<'d, S: Subtag> Shown<'d, S> {
    #[inline]
    pub fn as_str(&self) -> &str
        ensures { result.now ≡ shown_text S.text self.now }
    {
        match self {
            Shown::Name(name) => name,
            Shown::Raw(subtag) => subtag.text(),
        }
    }

    // As a piece of a text.
    #[inline]
    pub fn lend(&self) -> LentPiece<'_>
        ensures { lent_piece result ≡ piece_by S.text self.now }
    {
        match self {
            Shown::Name(name) => LentPiece::plain(name),
            Shown::Raw(subtag) => LentPiece::raw_subtag(subtag.text()),
        }
    }
}

/// A text that is lent, and whether it is a raw subtag.
#[derive(Clone, Copy, Debug)]
pub struct LentPiece<'a> {
    /// The text.
    pub text: &'a str,
    /// Whether it is a raw subtag.
    pub is_raw: bool,
}

impl<'a> LentPiece<'a> {
    /// A text that is no raw subtag.
    #[inline]
    pub fn plain(text: &'a str) -> Self
        ensures { lent_piece result ≡ plain text.now }
    {
        LentPiece {
            text,
            is_raw: false,
        }
    }

    /// A text that is a raw subtag.
    #[inline]
    pub fn raw_subtag(text: &'a str) -> Self
        ensures { lent_piece result ≡ raw_subtag text.now }
    {
        LentPiece { text, is_raw: true }
    }
}

// What is shown, if anything, as a piece.
#[inline]
pub fn lend_if_any<'a, S: Subtag>(shown: &'a Option<Shown<'a, S>>) -> Option<LentPiece<'a>>
    ensures { lent_pieces result ≡ pieces_if_any S.text shown.now }
{
    match shown {
        Some(shown) => Some(shown.lend()),
        None => None,
    }
}

// A text, if there is one, as a piece.
#[inline]
pub fn plain_if_any(text: Option<&str>) -> Option<LentPiece<'_>>
    ensures { lent_pieces result ≡ text_pieces text.entry }
{
    match text {
        Some(text) => Some(LentPiece::plain(text)),
        None => None,
    }
}
