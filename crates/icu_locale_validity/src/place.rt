//! Where a part stands in a text.
ghost use Rattle.std.specs.Prelude.{◌≡◌, ◌∷◌, ◌+◌, ◌≤◌, ◌&&◌, not, suc, IfSome, length};
ghost use Rattle.std.specs.List.{position};
ghost use Rattle.icu_locale_core.specs.Identifier.{is_separator, pieces};
ghost use Rattle.icu_locale_extensions.specs.Extensions.{any_piece};
ghost use Rattle.icu_locale_extensions.specs.Syntaxes.{ends_base};
ghost use Rattle.icu_locale_validity.specs.Places.{base_of, begins, belongs, has_value, is_left_out, is_spelled, part_bytes, place_of, spells_value, stand};
ghost use Rattle.icu_locale_validity.specs.inner.Marks.{bytes_left, language_behind, marks, pieces_left, singleton_behind};

use crate::PartKind;
use icu_locale_core::{Language, Pieces};

// What a part comes behind: a singleton, if there is one, and then a language, if there is one.
#[derive(Clone, Copy, Debug)]
pub struct Behind {
    pub singleton: Option<u8>,
    pub language: Option<Language>,
}

// The bytes of a text at which a part lies, or all of them.
pub fn place_of(text: &[u8], behind: &Behind, kind: PartKind, wanted: &[u8]) -> (usize, usize)
    ensures { result ≡ place_of text.now kind (marks behind.now.singleton behind.now.language)
        wanted.now }
{
    let base = base_of(text);
    match stand(base, behind.singleton, behind.language, kind, wanted) {
        Some(from) => {
            let (_, rest) = base.split_at(from);
            (from, from + part_bytes(kind, rest))
        }
        None => (0, text.len()),
    }
}

// What is before the codeset and the modifier of a POSIX locale.
fn base_of(text: &[u8]) -> &[u8]
    ensures { result.now ≡ base_of text.now }
{
    match end_of_base(text) {
        Some(place) => text.split_at(place).0,
        None => text,
    }
}

fn end_of_base(text: &[u8]) -> Option<usize>
    ensures { result ≡ position ends_base text.now }
{
    text.iter().position(ends_base)
}

fn ends_base(byte: &u8) -> bool
    ensures { result ≡ ends_base byte.now }
{
    *byte == b'.' || *byte == b'@'
}

// The first byte of a part in a text.
fn stand(
    text: &[u8],
    mut singleton: Option<u8>,
    mut language: Option<Language>,
    kind: PartKind,
    wanted: &[u8],
) -> Option<usize>
    ensures place { result ≡ stand kind (marks singleton language) (pieces wanted.now)
        (pieces text.now) }
    ensures within { IfSome result (λ n. n ≤ length text.now) }
{
    let mut from = 0;
    let mut left = Some(text);
    'pieces: while let Some(rest) = left {
        if stands_here(singleton, &language, kind, wanted, rest) {
            return Some(from);
        }
        let (first, later) = cut(rest);
        language = language_behind(singleton, &language, first);
        singleton = singleton_behind(singleton, first);
        from += first.len() + 1;
        left = later;
    }
    None
}

// Whether there is no mark left, and a part is at the front of a text.
fn stands_here(
    singleton: Option<u8>,
    language: &Option<Language>,
    kind: PartKind,
    wanted: &[u8],
    text: &[u8],
) -> bool
    ensures { result ≡ not (any_piece (marks singleton language.now))
        && begins kind (pieces wanted.now) (pieces text.now) }
{
    singleton.is_none() && language.is_none() && begins(kind, wanted, text)
}

// The singleton that is left behind a piece.
fn singleton_behind(singleton: Option<u8>, piece: &[u8]) -> Option<u8>
    ensures { result ≡ singleton_behind piece.now singleton }
{
    match singleton {
        Some(mark) if is_spelled(piece, &[mark]) => None,
        _ => singleton,
    }
}

// The language that is left behind a piece: it is passed behind the singleton alone.
fn language_behind(
    singleton: Option<u8>,
    language: &Option<Language>,
    piece: &[u8],
) -> Option<Language>
    ensures { result ≡ language_behind piece.now singleton language.now }
{
    let mark = (*language)?;
    if singleton.is_none() && is_spelled(piece, mark.as_str().as_bytes()) {
        None
    } else {
        Some(mark)
    }
}

// Whether a part of the pieces of a text is at the front of another.
fn begins(kind: PartKind, wanted: &[u8], text: &[u8]) -> bool
    ensures { result ≡ begins kind (pieces wanted.now) (pieces text.now) }
{
    let mut left = Pieces::new(wanted);
    let mut others = Pieces::new(text);
    let Some(first) = left.next() else {
        return false;
    };
    let Some(other) = others.next() else {
        return false;
    };
    is_spelled(other, first) && spells_value(kind, other.len(), left, others)
}

// Whether the pieces that belong to a part, whose first is so long, spell others.
fn spells_value(kind: PartKind, long: usize, mut left: Pieces<'_>, mut others: Pieces<'_>) -> bool
    ensures { result ≡ spells_value kind long left.entry others.entry }
{
    'pieces: while let Some(piece) = others.next() {
        if !belongs(kind, long, piece) {
            return left.peek().is_none();
        }
        if !is_left_out(kind, piece) {
            let Some(wanted) = left.next() else {
                return false;
            };
            if !is_spelled(piece, wanted) {
                return false;
            }
        }
    }
    left.peek().is_none()
}

// The bytes of the part at the front of a text.
fn part_bytes(kind: PartKind, text: &[u8]) -> usize
    ensures bytes { result ≡ part_bytes kind (pieces text.now) }
    ensures within { result ≤ length text.now }
{
    let (first, mut left) = cut(text);
    let mut bytes = first.len();
    'pieces: while let Some(rest) = left {
        let (piece, later) = cut(rest);
        if !belongs(kind, first.len(), piece) {
            return bytes;
        }
        bytes += 1 + piece.len();
        left = later;
    }
    bytes
}

// Whether a piece belongs to a part whose first is so long.
fn belongs(kind: PartKind, long: usize, piece: &[u8]) -> bool
    ensures { result ≡ belongs kind long piece.now }
{
    has_value(kind) && long < piece.len()
}

fn has_value(kind: PartKind) -> bool
    ensures { result ≡ has_value kind }
{
    match kind {
        PartKind::Keyword | PartKind::Field | PartKind::Extension => true,
        PartKind::Language
        | PartKind::Script
        | PartKind::Region
        | PartKind::Variant
        | PartKind::Attribute => false,
    }
}

// Whether a piece is not kept.
fn is_left_out(kind: PartKind, piece: &[u8]) -> bool
    ensures { result ≡ is_left_out kind piece.now }
{
    match kind {
        PartKind::Keyword => is_spelled(piece, b"true"),
        PartKind::Language
        | PartKind::Script
        | PartKind::Region
        | PartKind::Variant
        | PartKind::Attribute
        | PartKind::Field
        | PartKind::Extension => false,
    }
}

fn is_spelled(piece: &[u8], other: &[u8]) -> bool
    ensures { result ≡ is_spelled piece.now other.now }
{
    piece.eq_ignore_ascii_case(other)
}

// The first piece of a text, and what follows its separator.
fn cut(text: &[u8]) -> (&[u8], Option<&[u8]>)
    ensures pieces { pieces text.now ≡ result.0.now ∷ pieces_left result.1 }
    ensures bytes { suc (length text.now)
        ≡ suc (length result.0.now) + bytes_left result.1 }
{
    match separator(text) {
        Some(place) => {
            let (first, rest) = text.split_at(place);
            let (_, rest) = rest.split_at(1);
            (first, Some(rest))
        }
        None => (text, None),
    }
}

// Where the first separator is.
fn separator(text: &[u8]) -> Option<usize>
    ensures { result ≡ position is_separator text.now }
{
    text.iter().position(is_separator)
}

fn is_separator(byte: &u8) -> bool
    ensures { result ≡ is_separator byte.now }
{
    *byte == b'-' || *byte == b'_'
}
