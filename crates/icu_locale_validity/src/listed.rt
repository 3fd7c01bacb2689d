//! What a table says of a key and its value.
ghost use Rattle.std.specs.Prelude.{◌≡◌, ◌∷◌, [], IfSome, MatchResult, None, if◌then◌else◌};
ghost use Rattle.std.specs.List.{All};
ghost use Rattle.std.specs.Option.{option_or};
ghost use Rattle.std.specs.Ordering.{ordering_then};
ghost use Rattle.icu_locale_core.specs.Maps.{IsSortedMap, value_at};
ghost use Rattle.icu_locale_core.specs.Places.{IsAt, IsGapFor};
ghost use Rattle.icu_locale_core.specs.Subtag.{IsSubtag};
ghost use Rattle.icu_locale_core.specs.Value.{only_piece};
ghost use Rattle.icu_locale_validity.specs.inner.Ones.{longer};
ghost use Rattle.icu_locale_validity.specs.Types.{code_of_kind, field_status, first_fault, is_told_by_pieces, keyword_status, kind_before, piece_status, statuses, takes_dates, type_status, value_cmp};

use crate::code::is_date;
use crate::table::is_valid_status;
use crate::{CodeKind, KeyTypes, Status, Validity};
use icu_locale_core::{Key, Pieces, Subtag, Value};
use icu_locale_extensions::{FieldKey, Subtags};
use icu_provider::SortedMap;
use std::cmp::{Ord, Ordering};

impl Validity {
    /// The status of a key with its value: that of the key where it may not be used, and else that of the value, if
    /// both are listed. It takes no memory.
    pub fn keyword(&self, key: Key, value: &Value) -> Option<Status>
        ensures { result ≡ keyword_status self.now key value.now }
    {
        let row = self.keywords.get(&key)?;
        if !row.status.is_usable() {
            return Some(row.status);
        }
        self.value_status(row, value)
    }

    /// The status of a field with its pieces: that of the key where it may not be used, and else that of the pieces, if
    /// both are listed. It takes no memory.
    pub fn field(&self, key: FieldKey, pieces: &Subtags<3>) -> Option<Status>
        ensures { result ≡ field_status self.now key pieces.now }
    {
        let row = self.fields.get(&key)?;
        if !row.status.is_usable() {
            return Some(row.status);
        }
        self.pieces_status(row, pieces)
    }

    // The status of a value: its own where it is listed, and else that of its pieces.
    fn value_status(&self, row: &KeyTypes<Value>, value: &Value) -> Option<Status>
        ensures { result ≡ type_status self.now row.now value.now }
    {
        let pieces = value.as_slice();
        if let [piece] = pieces {
            return self.one_status(value_of_one(&row.types, *piece), row.kind, *piece);
        }
        if let Some(status) = row.types.get(value) {
            return Some(*status);
        }
        if !is_told_by_subtags(row.many, row.kind, pieces) {
            return None;
        }
        self.first_value_fault(row, pieces)
    }

    fn pieces_status(&self, row: &KeyTypes<Subtags<3>>, pieces: &Subtags<3>) -> Option<Status>
        ensures { result ≡ type_status self.now row.now pieces.now }
    {
        if let Some(piece) = only_piece(pieces) {
            return self.one_status(pieces_of_one(&row.types, piece), row.kind, piece);
        }
        if let Some(status) = row.types.get(pieces) {
            return Some(*status);
        }
        let _ = pieces.as_str();
        if !is_told_by_pieces(row.many, row.kind, pieces.iter()) {
            return None;
        }
        self.first_piece_fault(row, pieces.iter())
    }

    // The status of a value of one piece: its own where it is listed, and else that of a code of a kind.
    fn one_status(
        &self,
        listed: Option<Status>,
        kind: Option<CodeKind>,
        piece: Subtag,
    ) -> Option<Status>
        ensures { result ≡ option_or listed
            (first_fault (option_or listed (code_of_kind self.now kind piece) ∷ [])) }
    {
        if listed.is_some() {
            return listed;
        }
        let status = self.code_of_kind(kind, piece);
        if !is_valid_status(status) {
            return status;
        }
        Some(Status::Regular)
    }

    // The status of the first piece that is not valid, else `Regular`.
    fn first_value_fault(&self, row: &KeyTypes<Value>, mut pieces: &[Subtag]) -> Option<Status>
        ensures { result ≡ first_fault (statuses self.now row.now pieces.now) }
    {
        'pieces: while let Some((first, rest)) = pieces.split_first() {
            let status = self.value_piece(row, *first, rest);
            if !is_valid_status(status) {
                return status;
            }
            pieces = rest;
        }
        Some(Status::Regular)
    }

    fn first_piece_fault(
        &self,
        row: &KeyTypes<Subtags<3>>,
        mut pieces: Pieces<'_>,
    ) -> Option<Status>
        requires { All IsSubtag pieces }
        ensures { result ≡ first_fault (statuses self.now row.now pieces.entry) }
    {
        'pieces: while let Some(first) = pieces.next() {
            let status = self.field_piece(row, first, &pieces);
            if !is_valid_status(status) {
                return status;
            }
        }
        Some(Status::Regular)
    }

    // The status of one piece before others.
    fn value_piece(&self, row: &KeyTypes<Value>, piece: Subtag, others: &[Subtag]) -> Option<Status>
        ensures { result ≡ piece_status self.now row.now piece others.now }
    {
        match value_of_one(&row.types, piece) {
            Some(status) => Some(status),
            None => self.code_of_kind(kind_before_subtags(row.kind, others), piece),
        }
    }

    fn field_piece(
        &self,
        row: &KeyTypes<Subtags<3>>,
        piece: &[u8],
        others: &Pieces<'_>,
    ) -> Option<Status>
        requires { IsSubtag piece.now }
        ensures { result ≡ piece_status self.now row.now piece.now others.now }
    {
        let piece = Subtag::try_from_bytes(piece)?;
        match pieces_of_one(&row.types, piece) {
            Some(status) => Some(status),
            None => self.code_of_kind(kind_before_pieces(row.kind, others), piece),
        }
    }
}

// Whether a key takes dates.
fn takes_dates(kind: Option<CodeKind>) -> bool
    ensures { result ≡ takes_dates kind }
{
    match kind {
        Some(CodeKind::Date) => true,
        Some(CodeKind::Script)
        | Some(CodeKind::Subdivision)
        | Some(CodeKind::RegionOverride)
        | Some(CodeKind::Currency)
        | Some(CodeKind::CodePoint)
        | Some(CodeKind::Any)
        | None => false,
    }
}

// The kind of a code before others.
fn kind_inside(kind: Option<CodeKind>) -> Option<CodeKind>
    ensures { result ≡ (if takes_dates kind then None else kind) }
{
    if takes_dates(kind) { None } else { kind }
}

fn kind_before_subtags(kind: Option<CodeKind>, others: &[Subtag]) -> Option<CodeKind>
    ensures { result ≡ kind_before kind others.now }
{
    match others.split_first() {
        Some(_) => kind_inside(kind),
        None => kind,
    }
}

fn kind_before_pieces(kind: Option<CodeKind>, others: &Pieces<'_>) -> Option<CodeKind>
    ensures { result ≡ kind_before kind others.now }
{
    match others.peek() {
        Some(_) => kind_inside(kind),
        None => kind,
    }
}

// Whether a value is told by its pieces.
fn is_told_by_subtags(many: bool, kind: Option<CodeKind>, pieces: &[Subtag]) -> bool
    ensures { result ≡ is_told_by_pieces many kind pieces.now }
{
    let Some((_, behind)) = pieces.split_first() else {
        return false;
    };
    let Some((second, others)) = behind.split_first() else {
        return true;
    };
    many || (takes_dates(kind_before_subtags(kind, others)) && is_date(second.as_str().as_bytes()))
}

fn is_told_by_pieces(many: bool, kind: Option<CodeKind>, mut pieces: Pieces<'_>) -> bool
    ensures { result ≡ is_told_by_pieces many kind pieces.entry }
{
    if pieces.next().is_none() {
        return false;
    }
    let Some(second) = pieces.next() else {
        return true;
    };
    many || (takes_dates(kind_before_pieces(kind, &pieces)) && is_date(second))
}

// The piece of a field that has exactly one, else none.
fn only_piece(pieces: &Subtags<3>) -> Option<Subtag>
    ensures only { result ≡ only_piece pieces.now }
    ensures alone { IfSome result (λ p. pieces.now ≡ p ∷ []) }
{
    let _ = pieces.as_str();
    let mut left = pieces.iter();
    let first = left.next()?;
    if left.peek().is_some() {
        return None;
    }
    Subtag::try_from_bytes(first)
}

// The status at a value of one piece, found by binary search.
fn value_of_one(types: &SortedMap<Value, Status>, piece: Subtag) -> Option<Status>
    ensures { result ≡ value_at value_cmp types.now (piece ∷ []) }
{
    let rows = types.as_slice();
    match find_value(rows, piece) {
        Ok(at) => Some(rows[at].1),
        Err(_) => None,
    }
}

// Where a value of one piece is among rows, or would go.
fn find_value(rows: &[(Value, Status)], piece: Subtag) -> Result<usize, usize>
    requires { IsSortedMap value_cmp rows.now }
    ensures { MatchResult result (IsAt value_cmp rows.now (piece ∷ []))
        (IsGapFor value_cmp rows.now (piece ∷ [])) }
{
    rows.binary_search_by(
        |row: &(Value, Status)| -> Ordering
            ensures { result ≡ value_cmp row.now.0 (piece ∷ []) }
        { value_to_one(row.0.as_slice(), &piece) },
    )
}

fn pieces_of_one(types: &SortedMap<Subtags<3>, Status>, piece: Subtag) -> Option<Status>
    ensures { result ≡ value_at value_cmp types.now (piece ∷ []) }
{
    let rows = types.as_slice();
    match find_pieces(rows, piece) {
        Ok(at) => Some(rows[at].1),
        Err(_) => None,
    }
}

fn find_pieces(rows: &[(Subtags<3>, Status)], piece: Subtag) -> Result<usize, usize>
    requires { IsSortedMap value_cmp rows.now }
    ensures { MatchResult result (IsAt value_cmp rows.now (piece ∷ []))
        (IsGapFor value_cmp rows.now (piece ∷ [])) }
{
    rows.binary_search_by(
        |row: &(Subtags<3>, Status)| -> Ordering
            ensures { result ≡ value_cmp row.now.0 (piece ∷ []) }
        { pieces_to_one(row.0.iter(), &piece) },
    )
}

// A value is compared with one piece.
#[tactic(auto, using(crate::proofs::Ones::one_longer))]
fn value_to_one(value: &[Subtag], piece: &Subtag) -> Ordering
    ensures { result ≡ value_cmp value.now (piece.now ∷ []) }
{
    match value.split_first() {
        None => Ordering::Less,
        Some((first, rest)) => or_longer(first.cmp(piece), !rest.is_empty()),
    }
}

#[tactic(auto, using(crate::proofs::Ones::one_longer))]
fn pieces_to_one(mut pieces: Pieces<'_>, piece: &Subtag) -> Ordering
    ensures { result ≡ value_cmp pieces.entry (piece.now ∷ []) }
{
    match pieces.next() {
        None => Ordering::Less,
        Some(first) => or_longer(
            first.cmp(piece.as_str().as_bytes()),
            pieces.peek().is_some(),
        ),
    }
}

// The order of two lists of which the second has one piece: that of the first pieces, or the first list has more.
fn or_longer(order: Ordering, is_longer: bool) -> Ordering
    ensures { result ≡ ordering_then order (longer is_longer) }
{
    match order {
        Ordering::Equal if is_longer => Ordering::Greater,
        order => order,
    }
}
