//! Values of keywords.
ghost use Rattle.std.specs.Prelude.{OnErr, OnOk, ◌≡◌, ◌≢◌, ◌++◌, ◌∷◌, [], false, filter, not, codes, ◌==◌, Some, Err, IsOk, IfOk, IfErr, nat_eq, List, ℕ};
ghost use Rattle.std.proofs.Common.{rules};
ghost use Rattle.std.specs.Cmp.{partial_order_from_own_ties};
ghost use Rattle.std.specs.Cmp.Lexicographic.{pointwise, slice_cmp};
ghost use Rattle.std.specs.Cmp.Rules.{comparing};
ghost use Rattle.std.specs.List.{list_all, flat_map};
ghost use Rattle.std.specs.Ordering.{as_partial_cmp};
ghost use Rattle.icu_locale_core.specs.Subtag.{is_subtag};
ghost use Rattle.icu_locale_core.specs.TextSet.{text_cmp};
ghost use Rattle.icu_locale_core.specs.Value.{IsValue, ReadsValue, read_subtags, is_true, only_piece, written_value};
ghost use Rattle.icu_locale_core.specs.Cuts.{front, from, other_than};
ghost use Rattle.icu_locale_core.specs.inner.Values.{pieces_kept};
ghost use Rattle.icu_locale_core.specs.laws.TextSets.{piece_lists_ties};

use crate::pieces::Pieces;
use crate::row_map::RowValue;
use crate::text_sink::{TextSink, write_after_dash};
use crate::{ParseError, Subtag};
use std::alloc::{AllocError, Global};
use std::cmp::Ordering;
use std::marker::Model;
use std::{fmt, slice};

/// The value of a keyword (type of UTS #35, section 3.6.1): a list of pieces of 3 to 8 letters or digits, in lower case.
/// Only reading and copying pieces takes memory.
#[derive(Drop)]
pub struct Value {
    kept: Kept,
}

// The pieces of a value. Most have one, which takes no memory.
#[derive(Drop)]
enum Kept {
    One(Subtag),
    Many(Vec<Subtag>),
}

impl Model for Value {
    ghost Value = { List (List ℕ) };

    ghost view = { λ a. pieces_kept a.kept };

    ghost invariant = { λ a. IsValue (pieces_kept a.kept) };
}

impl Value {
    /// Reads a value in any case, its pieces apart by `-` or `_`. A piece `true` is dropped, and the empty text is the
    /// value without pieces.
    ///
    /// # Errors
    ///
    /// - `InvalidSubtag` exactly where the text is not empty and some piece is not of 3 to 8 letters or digits.
    /// - `Memory` where the list of pieces could not grow, and never for a value without pieces.
    pub fn try_from_str(alloc: Global, text: &str) -> Result<Self, ParseError>
        ensures { ReadsValue text.now result }
    {
        Value::try_from_utf8(alloc, text.as_bytes())
    }

    /// Reads a value as `try_from_str` does. A byte past ASCII belongs to no piece.
    ///
    /// # Errors
    ///
    /// Those of `try_from_str`.
    pub fn try_from_utf8(alloc: Global, text: &[u8]) -> Result<Self, ParseError>
        ensures { ReadsValue text.now result }
    {
        if let Some(piece) = Subtag::try_from_bytes(text) {
            return Ok(Value::of_piece(alloc, piece));
        }
        if text.is_empty() {
            return Ok(Value::of_list(Vec::new(alloc)));
        }
        if !are_subtags(Pieces::new(text)) {
            return Err(ParseError::InvalidSubtag);
        }
        Ok(Value::of_list(read_subtags(alloc, Pieces::new(text))?))
    }

    /// Reads the value at the front of pieces, and leaves the first piece that is none of it.
    ///
    /// # Errors
    ///
    /// `Memory` where the list of pieces could not grow. The pieces are as they were then.
    pub fn read_front(alloc: Global, pieces: &mut Pieces<'_>) -> Result<Self, ParseError>
        ensures read { IfOk result
            (λ v. v ≡ read_subtags (front (other_than is_subtag) pieces.old)) }
        ensures rest { OnOk result (pieces.new ≡ from (other_than is_subtag) pieces.old) }
        ensures refused { IfErr result (λ e. e ≡ ParseError.Memory) }
        ensures unchanged { OnErr result (pieces.new ≡ pieces.old) }
    {
        let mut rest = pieces.duplicate();
        let value = Value::take_front(alloc, &mut rest)?;
        *pieces = rest;
        Ok(value)
    }

    fn take_front(alloc: Global, pieces: &mut Pieces<'_>) -> Result<Self, ParseError>
        ensures read { IfOk result
            (λ v. v ≡ read_subtags (front (other_than is_subtag) pieces.old)) }
        ensures rest { OnOk result (pieces.new ≡ from (other_than is_subtag) pieces.old) }
        ensures refused { IfErr result (λ e. e ≡ ParseError.Memory) }
    {
        let Some(first) = Subtag::next_of(pieces) else {
            return Ok(Value::of_list(Vec::new(alloc)));
        };
        let Some(second) = Subtag::next_of(pieces) else {
            return Ok(Value::of_piece(alloc, first));
        };
        let mut list = Vec::new(alloc);
        push_kept(&mut list, first)?;
        push_kept(&mut list, second)?;
        push_front(&mut list, pieces)?;
        Ok(Value::of_list(list))
    }

    // The value of one piece, which is dropped where it is `true`.
    fn of_piece(alloc: Global, piece: Subtag) -> Self
        ensures { result ≡ filter (λ p. not (is_true p)) (piece ∷ []) }
    {
        if piece.as_str() == "true" {
            return Value::of_list(Vec::new(alloc));
        }
        Value {
            kept: Kept::One(piece),
        }
    }

    fn of_list(pieces: Vec<Subtag>) -> Self
        requires { IsValue pieces.items }
        ensures { result ≡ pieces.items }
    {
        Value {
            kept: Kept::Many(pieces),
        }
    }

    /// The piece of a value that has exactly one, else none.
    pub fn as_single_subtag(&self) -> Option<Subtag>
        ensures only { result ≡ only_piece self.now }
        ensures known { IsValue self.now }
    {
        let _ = &self.kept;
        match self.as_slice() {
            [only] => Some(*only),
            _ => None,
        }
    }

    /// The pieces.
    pub fn as_slice(&self) -> &[Subtag]
        ensures { result.now ≡ self.now }
    {
        match &self.kept {
            Kept::One(piece) => slice::from_ref(piece),
            Kept::Many(pieces) => pieces.as_slice(),
        }
    }

    /// An equal value.
    ///
    /// # Errors
    ///
    /// `Memory` where the pieces could not be copied.
    pub fn try_clone(&self) -> Result<Self, ParseError>
        ensures same { IfOk result (λ v. v ≡ self.now) }
        ensures refused { IfErr result (λ e. e ≡ ParseError.Memory) }
        ensures free { self.now ≡ [] → IsOk result }
    {
        match &self.kept {
            Kept::One(piece) => Ok(Value {
                kept: Kept::One(*piece),
            }),
            Kept::Many(pieces) if pieces.is_empty() => {
                Ok(Value::of_list(Vec::new(*pieces.allocator())))
            }
            Kept::Many(pieces) => Ok(Value::of_list(Vec::from_slice(*pieces.allocator(), pieces)?)),
        }
    }
}

impl Clone for Value {
    ghost is_clone = { λ v w. w ≡ v };

    fn clone(&self) -> Result<Self, AllocError> {
        self.try_clone().map_err(|_| AllocError)
    }
}

impl PartialEq for Value {
    ghost eq = { pointwise (pointwise nat_eq) };

    ghost laws = { Prim.search (comparing, rules) };

    fn eq(&self, other: &Self) -> bool {
        self.as_slice() == other.as_slice()
    }
}

impl Eq for Value {
    ghost laws = { Prim.search (comparing, rules) };
}

impl PartialOrd for Value {
    ghost partial_cmp = { as_partial_cmp (slice_cmp text_cmp) };

    ghost laws = { partial_order_from_own_ties (Prim.search (comparing, rules)) piece_lists_ties };

    fn partial_cmp(&self, other: &Self) -> Option<Ordering> {
        Some(self.cmp(other))
    }
}

impl Ord for Value {
    ghost cmp = { slice_cmp text_cmp };

    ghost total = { Prim.search (comparing, rules) };

    ghost matches_partial_cmp = { Prim.search (comparing, rules) };

    ghost matches_eq = { piece_lists_ties };

    fn cmp(&self, other: &Self) -> Ordering {
        self.as_slice().cmp(other.as_slice())
    }
}

impl RowValue for Value {
    ghost pieces = { λ v. v };

    fn write_pieces<S: TextSink>(&self, sink: &mut S) -> fmt::Result {
        write_each(self.as_slice(), sink)
    }

    fn write_joined<S: TextSink>(&self, sink: &mut S) -> fmt::Result {
        let Some((first, rest)) = self.as_slice().split_first() else {
            return Ok(());
        };
        sink.write_text(first.as_str())?;
        write_each(rest, sink)
    }

    ghost copied = { λ v w same. same };
}

impl fmt::Display for Value {
    ghost output = { λ v. Some (written_value v) };

    fn fmt<W: fmt::Write>(&self, f: &mut fmt::Formatter<W>) -> fmt::Result {
        self.write_joined(f)
    }
}

impl fmt::Debug for Value {
    fn fmt<W: fmt::Write>(&self, f: &mut fmt::Formatter<W>) -> fmt::Result {
        fmt::Display::fmt(self, f)
    }
}

// Each piece, with `-` before it.
fn write_each<S: TextSink>(pieces: &[Subtag], sink: &mut S) -> fmt::Result
    ensures { S.Writes sink.old (flat_map (λ p. codes "-" ++ p) pieces.now) result sink.new }
{
    for piece in pieces {
        write_after_dash(piece.as_str(), sink)?;
    }
    Ok(())
}

// Whether each piece may be in a value.
fn are_subtags(pieces: Pieces<'_>) -> bool
    ensures { result ≡ list_all is_subtag pieces.entry }
{
    for piece in pieces {
        if Subtag::try_from_bytes(piece).is_none() {
            return false;
        }
    }
    true
}

// The pieces in lower case without `true`.
fn read_subtags(alloc: Global, pieces: Pieces<'_>) -> Result<Vec<Subtag>, ParseError>
    ensures read { IfOk result (λ v. v.items ≡ read_subtags pieces.entry) }
    ensures known { IfOk result (λ v. IsValue v.items) }
    ensures refused { result ≡ Err ParseError.InvalidSubtag
        → list_all is_subtag pieces.entry ≡ false }
    ensures language { result ≡ Err ParseError.InvalidLanguage → ⊥ }
    ensures free { read_subtags pieces.entry ≡ [] → result ≢ Err ParseError.Memory }
{
    let mut list = Vec::new(alloc);
    for piece in pieces {
        let Some(subtag) = Subtag::try_from_bytes(piece) else {
            return Err(ParseError::InvalidSubtag);
        };
        if subtag.as_str() != "true" {
            list.push(subtag)?;
        }
    }
    Ok(list)
}

// Appends a piece to a list, if it is not `true`.
fn push_kept(list: &mut Vec<Subtag>, piece: Subtag) -> Result<(), ParseError>
    ensures pushed { OnOk result (list.new.items
        ≡ list.old.items ++ filter (λ p. not (is_true p)) (piece ∷ [])) }
    ensures known { OnOk result (IsValue list.old.items → IsValue list.new.items) }
    ensures refused { IfErr result (λ e. e ≡ ParseError.Memory) }
{
    if piece.as_str() != "true" {
        list.push(piece)?;
    }
    Ok(())
}

// Appends the pieces at the front that may be in a value to a list.
fn push_front(list: &mut Vec<Subtag>, pieces: &mut Pieces<'_>) -> Result<(), ParseError>
    ensures pushed { OnOk result (list.new.items
        ≡ list.old.items ++ read_subtags (front (other_than is_subtag) pieces.old)) }
    ensures known { OnOk result (IsValue list.old.items → IsValue list.new.items) }
    ensures rest { OnOk result (pieces.new ≡ from (other_than is_subtag) pieces.old) }
    ensures refused { IfErr result (λ e. e ≡ ParseError.Memory) }
{
    'pieces: while let Some(piece) = Subtag::next_of(pieces) {
        push_kept(list, piece)?;
    }
    Ok(())
}
