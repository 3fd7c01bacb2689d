//! Names of identifiers that are lent, and how they are written.
ghost use Rattle.std.specs.Prelude.{◌≡◌, ◌≢◌, ◌⊎◌, ◌↔◌, ◌^◌, ◌<◌, ◌≤◌, ◌++◌, length, false, Some, Err, map, OnOk, OnErr, IfOk, IfErr, IsErr, IsTrue};
ghost use Rattle.std.specs.Io.KnownBytes.{Appends};
ghost use Rattle.icu_locale_core.specs.Sinks.{AppendsPart};
ghost use Rattle.icu_locale_names.specs.LentNames.{pieces_of, parts_of};
ghost use Rattle.icu_locale_names.specs.Pieces.{text_of, spans, has_raw};
ghost use Rattle.icu_locale_names.specs.Shown.{lent_piece};
ghost use Rattle.icu_locale_names.specs.Walk.{pieces_left, qualifier_pieces};
ghost use Rattle.icu_provider.specs.Names.{part_of};

use crate::errors::{LanguageIdentifierNameFallbackError, NameWriteError};
use crate::language::appending::append_name;
use crate::language::parts::Parts;
use crate::language::walk::{PieceWalk, Qualifiers};
use crate::language::writing::{format_pieces, measured, spans_of, write_pieces};
use crate::shown::{LentPiece, Shown};
use icu_locale_core::Variant;
use icu_provider::PatternItem;
use std::{fmt, io};

/// The name of an identifier that is lent (UTS #35 Part 2, "Locale Display Name Algorithm"): `Display` writes its text.
/// Only `try_write_to_parts` and `append_to` take memory.
#[derive(Clone, Copy, Debug)]
pub struct LanguageIdentifierDisplayNameBorrowed<'a> {
    pub(super) parts: &'a Parts<'a>,
    pub(super) variants: &'a [Shown<'a, Variant>],
    pub(super) pattern: &'a [PatternItem],
    pub(super) separator: &'a str,
}

impl<'a> LanguageIdentifierDisplayNameBorrowed<'a> {
    /// Writes the text, and appends the span of each raw subtag to `parts`: where it begins and ends, in bytes from
    /// the start of the text, in order. The report inside is `Err` exactly where there is a raw subtag. It takes memory
    /// for the spans alone.
    ///
    /// # Errors
    ///
    /// `parts` is unchanged after each.
    ///
    /// - `TooLong` exactly where the text is longer than `usize::MAX` bytes. Nothing was written.
    /// - `Memory` where the spans found no room, never where no raw subtag is in the text. Nothing was written.
    /// - `Sink` where a write failed or took no byte. A beginning of the text was written, and not the whole.
    pub fn try_write_to_parts<W: io::Write>(
        &self,
        sink: &mut W,
        parts: &mut Vec<(usize, usize)>,
    ) -> Result<Result<(), LanguageIdentifierNameFallbackError>, NameWriteError>
        ensures text { OnOk result (Appends (W.contents sink.old) (W.contents sink.new)
            (text_of (pieces_of self.now))) }
        ensures marked { OnOk result (parts.new.items
            ≡ parts.old.items ++ spans (pieces_of self.now)) }
        ensures report { IfOk result (λ report. IsErr report
            ↔ IsTrue (has_raw (pieces_of self.now))) }
        ensures too_long { (result ≡ Err NameWriteError.TooLong)
            ↔ (2 ^ 64 ≤ length (text_of (pieces_of self.now))) }
        ensures unwritten { IfErr result (λ e. (e ≡ NameWriteError.Sink)
            ⊎ (sink.new ≡ sink.old)) }
        ensures part { result ≡ Err NameWriteError.Sink → AppendsPart (W.contents sink.old)
            (W.contents sink.new) (text_of (pieces_of self.now)) }
        ensures unmarked { OnErr result (parts.new.items ≡ parts.old.items) }
        ensures free { has_raw (pieces_of self.now) ≡ false
            → result ≢ Err NameWriteError.Memory }
    {
        let Some(is_raw) = measured(self) else {
            return Err(NameWriteError::TooLong);
        };
        if is_raw {
            self.write_marked(sink, parts)?;
            return Ok(Err(LanguageIdentifierNameFallbackError));
        }
        write_pieces(self, sink)?;
        Ok(Ok(()))
    }

    /// Appends the text to `text`, and tells whether a raw subtag is in it. It takes memory where `text` has no
    /// room.
    ///
    /// # Errors
    ///
    /// `Memory` where `text` could not grow. It is as it was then.
    #[tactic(auto, using(crate::proofs::Appending::take_grown))]
    pub fn append_to(&self, text: &mut Vec<u8>) -> Result<bool, NameWriteError>
        ensures text { OnOk result (text.new.items
            ≡ text.old.items ++ text_of (pieces_of self.now)) }
        ensures raw { IfOk result (λ is_raw. is_raw ≡ has_raw (pieces_of self.now)) }
        ensures refused { IfErr result (λ e. e ≡ NameWriteError.Memory) }
        ensures unchanged { OnErr result (text.new.items ≡ text.old.items) }
    {
        let before = text.as_slice().len();
        match append_name(self, text) {
            Ok(is_raw) => Ok(is_raw),
            Err(_) => {
                text.truncate(before);
                Err(NameWriteError::Memory)
            }
        }
    }

    // Writes the text, and appends the span of each raw subtag to `parts`, which is unchanged after a refusal.
    #[tactic(auto, using(crate::proofs::PieceWrites::take_front))]
    fn write_marked<W: io::Write>(
        &self,
        sink: &mut W,
        parts: &mut Vec<(usize, usize)>,
    ) -> Result<(), NameWriteError>
        requires { length (text_of (pieces_of self.now)) < 2 ^ 64 }
        ensures text { OnOk result (Appends (W.contents sink.old) (W.contents sink.new)
            (text_of (pieces_of self.now))) }
        ensures marked { OnOk result (parts.new.items
            ≡ parts.old.items ++ spans (pieces_of self.now)) }
        ensures refused { IfErr result
            (λ e. (e ≡ NameWriteError.Memory) ⊎ (e ≡ NameWriteError.Sink)) }
        ensures unwritten { result ≡ Err NameWriteError.Memory → sink.new ≡ sink.old }
        ensures part { result ≡ Err NameWriteError.Sink → AppendsPart (W.contents sink.old)
            (W.contents sink.new) (text_of (pieces_of self.now)) }
        ensures unmarked { OnErr result (parts.new.items ≡ parts.old.items) }
    {
        let marks = spans_of(*parts.allocator(), self)?;
        let before = parts.as_slice().len();
        parts.extend_from_slice(marks.as_slice())?;
        match write_pieces(self, sink) {
            Ok(()) => Ok(()),
            Err(refusal) => {
                parts.truncate(before);
                Err(refusal)
            }
        }
    }

    /// What the name is about.
    pub fn base(&self) -> LentPiece<'_>
        ensures { lent_piece result ≡ (parts_of self.now).base }
    {
        self.parts.base.lend()
    }

    /// The qualifiers in order.
    #[inline]
    pub fn qualifiers(&self) -> Qualifiers<'_>
        ensures { qualifier_pieces result ≡ (parts_of self.now).qualifiers }
    {
        Qualifiers::of(self.parts, self.variants)
    }

    /// How the base and the qualifiers are put together.
    pub fn pattern(&self) -> &[PatternItem]
        ensures { map part_of result.now ≡ (parts_of self.now).pattern }
    {
        self.pattern
    }

    /// What is between two qualifiers.
    pub fn separator(&self) -> &str
        ensures { result.now ≡ (parts_of self.now).separator }
    {
        self.separator
    }

    /// The pieces in order.
    pub fn pieces(&self) -> PieceWalk<'a>
        ensures { pieces_left result ≡ pieces_of self.now }
    {
        PieceWalk::new(self.parts, self.variants, self.pattern, self.separator)
    }
}

impl fmt::Display for LanguageIdentifierDisplayNameBorrowed<'_> {
    ghost output = { λ n. Some (text_of (pieces_of n)) };

    fn fmt<W: fmt::Write>(&self, f: &mut fmt::Formatter<W>) -> fmt::Result {
        format_pieces(self, f)
    }
}
