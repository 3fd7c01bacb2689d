//! The pieces of a field, of another extension and of private use.
ghost use Rattle.std.specs.Prelude.{◌≡◌, ◌↔◌, ◌++◌, ◌∷◌, [], codes, true, false, map, length, Err, OnOk, OnErr, MatchOption, None, Some, IfOk, IfErr, IsOk, List, ℕ, nat_eq};
ghost use Rattle.std.proofs.Common.{rules};
ghost use Rattle.std.specs.Cmp.{partial_order_from_own_ties};
ghost use Rattle.std.specs.Cmp.Lexicographic.{pointwise, slice_cmp};
ghost use Rattle.std.specs.Cmp.Rules.{comparing};
ghost use Rattle.std.specs.List.{list_all};
ghost use Rattle.std.specs.Ordering.{as_partial_cmp};
ghost use Rattle.icu_locale_core.specs.Identifier.{pieces};
ghost use Rattle.icu_locale_core.specs.Cuts.{front, from, other_than, optional_subtag, after_optional_subtag};
ghost use Rattle.icu_locale_core.specs.Subtag.{is_alphanumeric, lowercase};
ghost use Rattle.icu_locale_core.specs.TextSet.{text_cmp};
ghost use Rattle.icu_locale_core.specs.Value.{written_value};
ghost use Rattle.icu_locale_core.specs.laws.TextSets.{piece_lists_ties};
ghost use Rattle.icu_locale_extensions.specs.Extensions.{any_piece, is_piece, are_pieces, ArePieces, ReadsPieces};
ghost use Rattle.icu_locale_extensions.specs.Rows.{dashed};
ghost use Rattle.icu_locale_extensions.specs.inner.Texts.{IsPiecesText, spelled};

use crate::writing::write_lower;
use icu_locale_core::{ParseError, Pieces, RowValue, TextSink, write_after_dash};
use std::alloc::{AllocError, Global};
use std::cmp::Ordering;
use std::fmt;
use std::marker::Model;

/// One piece or more, each of `LOW` to 8 letters or digits in lower case. A contract sees the list of the pieces.
///
/// They are kept as one text with `-` between them.
#[derive(Drop)]
pub struct Subtags<const LOW: usize> {
    text: Vec<u8>,
}

impl<const LOW: usize> Model for Subtags<LOW> {
    ghost Value = { List (List ℕ) };

    ghost view = { λ a. pieces a.text.items };

    ghost invariant = { λ a. IsPiecesText LOW a.text.items };
}

impl<const LOW: usize> Subtags<LOW> {
    /// Reads pieces in any case, apart by `-` or `_`. It takes memory for their text.
    ///
    /// # Errors
    ///
    /// - `InvalidSubtag` exactly where some piece is not of `LOW` to 8 letters or digits.
    /// - `Memory` where the text could not grow.
    pub fn try_from_str(alloc: Global, text: &str) -> Result<Self, ParseError>
        ensures { ReadsPieces LOW text.now result }
    {
        Subtags::try_from_utf8(alloc, text.as_bytes())
    }

    /// Reads pieces as `try_from_str` does. A byte past ASCII belongs to no piece.
    ///
    /// # Errors
    ///
    /// Those of `try_from_str`.
    pub fn try_from_utf8(alloc: Global, text: &[u8]) -> Result<Self, ParseError>
        ensures { ReadsPieces LOW text.now result }
    {
        if !are_pieces(Pieces::new(text), LOW) {
            return Err(ParseError::InvalidSubtag);
        }
        Ok(Subtags {
            text: lowered(alloc, text)?,
        })
    }

    /// Reads the front of pieces that may be there, at least one, and leaves the first that may not.
    ///
    /// # Errors
    ///
    /// - `InvalidSubtag` exactly where there is none.
    /// - `Memory` where the text could not grow.
    ///
    /// The pieces are as they were then.
    pub fn read_front(alloc: Global, pieces: &mut Pieces<'_>) -> Result<Self, ParseError>
        ensures read { IfOk result
            (λ ps. ps ≡ map lowercase (front (other_than (is_piece LOW)) pieces.old)) }
        ensures rest { OnOk result (pieces.new ≡ from (other_than (is_piece LOW)) pieces.old) }
        ensures some { IsOk result
            → any_piece (front (other_than (is_piece LOW)) pieces.old) ≡ true }
        ensures refused { result ≡ Err ParseError.InvalidSubtag
            → any_piece (front (other_than (is_piece LOW)) pieces.old) ≡ false }
        ensures language { ¬ (result ≡ Err ParseError.InvalidLanguage) }
        ensures unchanged { OnErr result (pieces.new ≡ pieces.old) }
    {
        let mut rest = pieces.duplicate();
        let read = Subtags::take_front(alloc, &mut rest)?;
        *pieces = rest;
        Ok(read)
    }

    fn take_front(alloc: Global, pieces: &mut Pieces<'_>) -> Result<Self, ParseError>
        ensures read { IfOk result
            (λ ps. ps ≡ map lowercase (front (other_than (is_piece LOW)) pieces.old)) }
        ensures rest { OnOk result (pieces.new ≡ from (other_than (is_piece LOW)) pieces.old) }
        ensures some { IsOk result
            → any_piece (front (other_than (is_piece LOW)) pieces.old) ≡ true }
        ensures refused { result ≡ Err ParseError.InvalidSubtag
            → any_piece (front (other_than (is_piece LOW)) pieces.old) ≡ false }
        ensures language { ¬ (result ≡ Err ParseError.InvalidLanguage) }
    {
        let Some(first) = next_piece(pieces, LOW) else {
            return Err(ParseError::InvalidSubtag);
        };
        let mut text = Vec::new(alloc);
        push_lower(&mut text, first)?;
        push_front(&mut text, pieces, LOW)?;
        Ok(Subtags { text })
    }

    /// The pieces with `-` between them. It takes no memory.
    pub fn as_str(&self) -> &str
        ensures text { result.now ≡ written_value self.now }
        ensures known { ArePieces LOW self.now }
    {
        unsafe { str::from_utf8_unchecked(&self.text) }
    }

    /// A walk over the pieces. It takes no memory.
    pub fn iter(&self) -> Pieces<'_>
        ensures { result ≡ self.now }
    {
        Pieces::new(&self.text)
    }

    /// How many pieces there are: one or more. It takes no memory.
    pub fn len(&self) -> usize
        ensures { result ≡ length self.now }
    {
        let _ = self.text.len();
        self.iter().count()
    }

    /// Puts a piece after the others, in lower case.
    ///
    /// # Errors
    ///
    /// - `InvalidSubtag` exactly where it is not of `LOW` to 8 letters or digits.
    /// - `Memory` where the text could not grow.
    ///
    /// The pieces are as they were then.
    pub fn push(&mut self, piece: &[u8]) -> Result<(), ParseError>
        ensures pushed { OnOk result (self.new ≡ self.old ++ lowercase piece.now ∷ []) }
        ensures refused { (result ≡ Err ParseError.InvalidSubtag)
            ↔ (is_piece LOW piece.now ≡ false) }
        ensures language { ¬ (result ≡ Err ParseError.InvalidLanguage) }
        ensures unchanged { OnErr result (self.new ≡ self.old) }
    {
        if !is_piece(piece, LOW) {
            return Err(ParseError::InvalidSubtag);
        }
        let before = self.text.len();
        match write_lower(piece, &mut self.text) {
            Ok(()) => Ok(()),
            Err(_) => {
                self.text.truncate(before);
                Err(ParseError::Memory)
            }
        }
    }

    /// Equal pieces.
    ///
    /// # Errors
    ///
    /// `Memory` where the text could not be copied.
    pub fn try_clone(&self) -> Result<Self, ParseError>
        ensures same { IfOk result (λ ps. ps ≡ self.now) }
        ensures refused { IfErr result (λ e. e ≡ ParseError.Memory) }
    {
        Ok(Subtags {
            text: Vec::from_slice(*self.text.allocator(), &self.text)?,
        })
    }
}

impl<const LOW: usize> Clone for Subtags<LOW> {
    ghost is_clone = { λ v w. w ≡ v };

    fn clone(&self) -> Result<Self, AllocError> {
        self.try_clone().map_err(|_| AllocError)
    }
}

impl<const LOW: usize> PartialEq for Subtags<LOW> {
    ghost eq = { pointwise (pointwise nat_eq) };

    ghost laws = { Prim.search (comparing, rules) };

    fn eq(&self, other: &Self) -> bool {
        self.text == other.text
    }
}

impl<const LOW: usize> Eq for Subtags<LOW> {
    ghost laws = { Prim.search (comparing, rules) };
}

impl<const LOW: usize> PartialOrd for Subtags<LOW> {
    ghost partial_cmp = { as_partial_cmp (slice_cmp text_cmp) };

    ghost laws = { partial_order_from_own_ties (Prim.search (comparing, rules)) piece_lists_ties };

    fn partial_cmp(&self, other: &Self) -> Option<Ordering> {
        Some(self.cmp(other))
    }
}

impl<const LOW: usize> Ord for Subtags<LOW> {
    ghost cmp = { slice_cmp text_cmp };

    ghost total = { Prim.search (comparing, rules) };

    ghost matches_partial_cmp = { Prim.search (comparing, rules) };

    ghost matches_eq = { piece_lists_ties };

    fn cmp(&self, other: &Self) -> Ordering {
        compared(self.iter(), other.iter())
    }
}

impl<const LOW: usize> RowValue for Subtags<LOW> {
    ghost pieces = { λ ps. ps };

    fn write_pieces<S: TextSink>(&self, sink: &mut S) -> fmt::Result {
        write_after_dash(self.as_str(), sink)
    }

    fn write_joined<S: TextSink>(&self, sink: &mut S) -> fmt::Result {
        sink.write_text(self.as_str())
    }

    ghost copied = { λ v w same. same };
}

impl<const LOW: usize> fmt::Display for Subtags<LOW> {
    ghost output = { λ ps. Some (written_value ps) };

    fn fmt<W: fmt::Write>(&self, f: &mut fmt::Formatter<W>) -> fmt::Result {
        f.write_str(self.as_str())
    }
}

impl<const LOW: usize> fmt::Debug for Subtags<LOW> {
    fn fmt<W: fmt::Write>(&self, f: &mut fmt::Formatter<W>) -> fmt::Result {
        f.write_str(self.as_str())
    }
}

// The order of two lists of pieces: their first two that differ decide, and else their lengths.
fn compared(left: Pieces<'_>, mut right: Pieces<'_>) -> Ordering
    ensures { result ≡ slice_cmp text_cmp left.entry right.entry }
{
    for piece in left {
        let Some(other) = right.next() else {
            return Ordering::Greater;
        };
        match piece.cmp(other) {
            Ordering::Equal => {}
            order => return order,
        }
    }
    match right.peek() {
        Some(_) => Ordering::Less,
        None => Ordering::Equal,
    }
}

// Whether each piece has low to 8 letters or digits.
pub(crate) fn are_pieces(pieces: Pieces<'_>, low: usize) -> bool
    ensures { result ≡ are_pieces low pieces.entry }
{
    for piece in pieces {
        if !is_piece(piece, low) {
            return false;
        }
    }
    true
}

// Whether a piece has low to 8 letters or digits.
fn is_piece(piece: &[u8], low: usize) -> bool
    ensures { result ≡ is_piece low piece.now }
{
    low <= piece.len() && piece.len() <= 8 && is_alphanumeric(piece)
}

// Whether a piece has letters and digits alone.
pub(crate) fn is_alphanumeric(piece: &[u8]) -> bool
    ensures { result ≡ is_alphanumeric piece.now }
{
    for byte in piece {
        if !byte.is_ascii_alphanumeric() {
            return false;
        }
    }
    true
}

// The next piece, if it may be there.
fn next_piece<'a>(pieces: &mut Pieces<'a>, low: usize) -> Option<&'a [u8]>
    ensures read { MatchOption result (optional_subtag (is_piece low) lowercase pieces.old ≡ None)
        (λ p. optional_subtag (is_piece low) lowercase pieces.old ≡ Some (lowercase p.now)) }
    ensures rest { pieces.new ≡ after_optional_subtag (is_piece low) pieces.old }
{
    let piece = pieces.peek()?;
    if !is_piece(piece, low) {
        return None;
    }
    pieces.next()
}

// Appends a piece in lower case to a text.
fn push_lower(text: &mut Vec<u8>, piece: &[u8]) -> Result<(), ParseError>
    ensures appended { OnOk result (text.new.items ≡ text.old.items ++ lowercase piece.now) }
    ensures refused { IfErr result (λ e. e ≡ ParseError.Memory) }
{
    for byte in piece {
        text.push(byte.to_ascii_lowercase())?;
    }
    Ok(())
}

// Appends each piece of the front in lower case to a text, with `-` before it.
fn push_front(text: &mut Vec<u8>, pieces: &mut Pieces<'_>, low: usize) -> Result<(), ParseError>
    ensures appended { OnOk result (text.new.items ≡ text.old.items
        ++ dashed (map lowercase (front (other_than (is_piece low)) pieces.old))) }
    ensures rest { OnOk result (pieces.new ≡ from (other_than (is_piece low)) pieces.old) }
    ensures refused { IfErr result (λ e. e ≡ ParseError.Memory) }
{
    'pieces: while let Some(piece) = next_piece(pieces, low) {
        text.push(b'-')?;
        push_lower(text, piece)?;
    }
    Ok(())
}

// A text in lower case, with `-` for each separator.
fn lowered(alloc: Global, text: &[u8]) -> Result<Vec<u8>, ParseError>
    ensures read { IfOk result (λ list. list.items ≡ map spelled text.now) }
    ensures refused { IfErr result (λ e. e ≡ ParseError.Memory) }
{
    let mut list = Vec::with_capacity(alloc, text.len())?;
    for byte in text {
        list.push(spelled(*byte))?;
    }
    Ok(list)
}

// A character in lower case, and `-` for a separator.
pub fn spelled(byte: u8) -> u8
    ensures { result ≡ spelled byte }
{
    if byte == b'_' {
        b'-'
    } else {
        byte.to_ascii_lowercase()
    }
}
