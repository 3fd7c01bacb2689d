//! Passes over the pieces of a name: how long it is, what is raw in it, and its text.
ghost use Rattle.std.specs.Prelude.{◌≡◌, ◌^◌, ◌<◌, ◌≤◌, length, MatchOption, OnOk, OnErr, IfOk, IfErr, IfSome};
ghost use Rattle.std.specs.Fmt.{WritesOnOk};
ghost use Rattle.std.specs.Io.KnownBytes.{Appends};
ghost use Rattle.icu_locale_core.specs.Sinks.{AppendsPart};
ghost use Rattle.icu_locale_names.specs.LentNames.{pieces_of};
ghost use Rattle.icu_locale_names.specs.Pieces.{text_of, spans, has_raw};

use crate::errors::NameWriteError;
use crate::language::LanguageIdentifierDisplayNameBorrowed;
use icu_locale_core::write_whole;
use std::alloc::Global;
use std::{fmt, io};

// Whether a raw subtag is in the text; nothing where it has more bytes than can be counted. One walk tells both.
#[tactic(auto, using(crate::proofs::PieceWrites::text_length))]
pub fn measured(name: &LanguageIdentifierDisplayNameBorrowed<'_>) -> Option<bool>
    ensures counted { MatchOption result (2 ^ 64 ≤ length (text_of (pieces_of name.now)))
        (λ _. length (text_of (pieces_of name.now)) < 2 ^ 64) }
    ensures raw { IfSome result (λ is_raw. is_raw ≡ has_raw (pieces_of name.now)) }
{
    let mut total: usize = 0;
    let mut is_raw = false;
    for piece in name.pieces() {
        total = total.checked_add(piece.text.len())?;
        if piece.is_raw {
            is_raw = true;
        }
    }
    Some(is_raw)
}

// The places of the raw subtags.
#[tactic(auto, using(crate::proofs::PieceWrites::text_length))]
pub fn spans_of(
    alloc: Global,
    name: &LanguageIdentifierDisplayNameBorrowed<'_>,
) -> Result<Vec<(usize, usize)>, NameWriteError>
    requires { length (text_of (pieces_of name.now)) < 2 ^ 64 }
    ensures whole { IfOk result (λ marks. marks.items ≡ spans (pieces_of name.now)) }
    ensures refused { IfErr result (λ e. e ≡ NameWriteError.Memory) }
{
    let mut marks = Vec::new(alloc);
    let mut start: usize = 0;
    for piece in name.pieces() {
        let behind = start + piece.text.len();
        if piece.is_raw {
            marks.push((start, behind))?;
        }
        start = behind;
    }
    Ok(marks)
}

// The text, written piece by piece.
pub fn write_pieces<W: io::Write>(
    name: &LanguageIdentifierDisplayNameBorrowed<'_>,
    sink: &mut W,
) -> Result<(), NameWriteError>
    ensures whole { OnOk result (Appends (W.contents sink.old) (W.contents sink.new)
        (text_of (pieces_of name.now))) }
    ensures refused { IfErr result (λ e. e ≡ NameWriteError.Sink) }
    ensures part { OnErr result (AppendsPart (W.contents sink.old) (W.contents sink.new)
        (text_of (pieces_of name.now))) }
{
    for piece in name.pieces() {
        write_whole(piece.text.as_bytes(), sink)?;
    }
    Ok(())
}

// The text, written piece by piece to a formatter.
pub fn format_pieces<W: fmt::Write>(
    name: &LanguageIdentifierDisplayNameBorrowed<'_>,
    f: &mut fmt::Formatter<W>,
) -> fmt::Result
    ensures { WritesOnOk W.write_str_gives f.old result (text_of (pieces_of name.now)) f.new }
{
    for piece in name.pieces() {
        f.write_str(piece.text)?;
    }
    Ok(())
}
