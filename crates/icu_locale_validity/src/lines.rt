//! What is told of one part.
ghost use Rattle.std.specs.Prelude.{◌≡◌, ◌≤◌, ◌++◌, codes, decimal, drop, length, take, OnOk, OnErr, Option, Some, None, List, ℕ};
ghost use Rattle.icu_locale_validity.specs.Parts.{code_part, kind_word, row_part};
ghost use Rattle.icu_locale_validity.specs.Reports.{fault_word, place_text};
ghost use Rattle.icu_locale_validity.specs.Statuses.{listed_word};
ghost use Rattle.icu_locale_validity.specs.inner.Lines.{ending, fault_line, line};
ghost use Rattle.icu_locale_validity.specs.inner.Marks.{marks};

use crate::place::{Behind, place_of};
use crate::table::is_valid_status;
use crate::{PartKind, Status};
use icu_locale_core::{RowKey, RowValue};
use itoa::Buffer;
use std::alloc::AllocError;

// Appends a part of one piece, if it is not valid, and a tab.
pub fn append_code(
    text: &[u8],
    behind: &Behind,
    kind: PartKind,
    piece: &str,
    status: Option<Status>,
    report: &mut Vec<u8>,
) -> Result<(), AllocError>
    ensures appended { OnOk result (report.new.items ≡ report.old.items ++ line text.now status
        (code_part kind (marks behind.now.singleton behind.now.language) piece.now)) }
    ensures part { OnErr result
        (take (length report.old.items) report.new.items ≡ report.old.items) }
{
    if is_valid_status(status) {
        return Ok(());
    }
    append_kind(kind, report)?;
    let from = report.len();
    report.extend_from_slice(piece.as_bytes())?;
    append_ending(text, behind, kind, status, from, report)
}

// Appends a key or a singleton with its pieces, if it is not valid, and a tab.
pub fn append_row<K: RowKey<V>, V: RowValue>(
    text: &[u8],
    behind: &Behind,
    kind: PartKind,
    row: &(K, V),
    status: Option<Status>,
    report: &mut Vec<u8>,
) -> Result<(), AllocError>
    ensures appended { OnOk result (report.new.items ≡ report.old.items ++ line text.now status
        (row_part kind (marks behind.now.singleton behind.now.language)
        (K.text row.now.0, V.pieces row.now.1))) }
    ensures part { OnErr result
        (take (length report.old.items) report.new.items ≡ report.old.items) }
{
    if is_valid_status(status) {
        return Ok(());
    }
    append_row_fault(text, behind, kind, row, status, report)
}

// Appends a key or a singleton with its pieces, and a tab.
pub fn append_row_fault<K: RowKey<V>, V: RowValue>(
    text: &[u8],
    behind: &Behind,
    kind: PartKind,
    row: &(K, V),
    status: Option<Status>,
    report: &mut Vec<u8>,
) -> Result<(), AllocError>
    ensures appended { OnOk result (report.new.items ≡ report.old.items
        ++ fault_line text.now status
        (row_part kind (marks behind.now.singleton behind.now.language)
        (K.text row.now.0, V.pieces row.now.1))) }
    ensures part { OnErr result
        (take (length report.old.items) report.new.items ≡ report.old.items) }
{
    append_kind(kind, report)?;
    let from = report.len();
    report.extend_from_slice(row.0.name().as_bytes())?;
    match row.1.write_pieces(report) {
        Ok(()) => append_ending(text, behind, kind, status, from, report),
        Err(_) => Err(AllocError),
    }
}

// Appends the word of a kind, and a space.
fn append_kind(kind: PartKind, report: &mut Vec<u8>) -> Result<(), AllocError>
    ensures appended { OnOk result
        (report.new.items ≡ report.old.items ++ (kind_word kind ++ codes " ")) }
    ensures part { OnErr result
        (take (length report.old.items) report.new.items ≡ report.old.items) }
{
    report.extend_from_slice(kind.as_str().as_bytes())?;
    Ok(report.push(b' ')?)
}

// Appends what follows the pieces of a part, which begin at a byte of the report.
fn append_ending(
    text: &[u8],
    behind: &Behind,
    kind: PartKind,
    status: Option<Status>,
    from: usize,
    report: &mut Vec<u8>,
) -> Result<(), AllocError>
    requires { from ≤ length report.old.items }
    ensures appended { OnOk result (report.new.items ≡ report.old.items ++ ending text.now kind
        (marks behind.now.singleton behind.now.language) status (drop from report.old.items)) }
    ensures part { OnErr result
        (take (length report.old.items) report.new.items ≡ report.old.items) }
{
    let (_, wanted) = report.as_slice().split_at(from);
    let place = place_of(text, behind, kind, wanted);
    append_why(status, report)?;
    append_place(place, report)?;
    Ok(report.push(b'\t')?)
}

// Appends why a part is not valid, between two spaces.
fn append_why(status: Option<Status>, report: &mut Vec<u8>) -> Result<(), AllocError>
    ensures appended { OnOk result (report.new.items
        ≡ report.old.items ++ (codes " " ++ (fault_word status ++ codes " "))) }
    ensures part { OnErr result
        (take (length report.old.items) report.new.items ≡ report.old.items) }
{
    report.push(b' ')?;
    report.extend_from_slice(fault_word(status).as_bytes())?;
    Ok(report.push(b' ')?)
}

// Appends two numbers in decimal digits, with a space between them.
fn append_place(place: (usize, usize), report: &mut Vec<u8>) -> Result<(), AllocError>
    ensures appended { OnOk result (report.new.items ≡ report.old.items ++ place_text place) }
    ensures part { OnErr result
        (take (length report.old.items) report.new.items ≡ report.old.items) }
{
    append_number(place.0, report)?;
    report.push(b' ')?;
    append_number(place.1, report)
}

fn append_number(number: usize, report: &mut Vec<u8>) -> Result<(), AllocError>
    ensures appended { OnOk result (report.new.items ≡ report.old.items ++ decimal number) }
    ensures part { OnErr result
        (take (length report.old.items) report.new.items ≡ report.old.items) }
{
    let mut digits = Buffer::new();
    report.extend_from_slice(digits.format(number).as_bytes())
}

// The word of a status, and of one that a part of another region has.
fn fault_word(status: Option<Status>) -> &'static str
    ensures { result.now ≡ fault_word status }
{
    if is_valid_status(status) {
        "other_region"
    } else {
        listed_word(status)
    }
}

// The word of a status, or `unlisted`.
fn listed_word(status: Option<Status>) -> &'static str
    ensures { result.now ≡ listed_word status }
{
    match status {
        Some(status) => status.as_str(),
        None => "unlisted",
    }
}
