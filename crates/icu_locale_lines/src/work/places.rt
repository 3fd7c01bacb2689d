//! The places of faults, and the lines that tell them.
ghost use Rattle.std.specs.Prelude.{◌≡◌, ◌++◌, codes, false, IfOk, IfErr, OnOk, OnErr};
ghost use Rattle.icu_locale_core.specs.Identifier.{parse_error_name};
ghost use Rattle.icu_locale_lines.specs.Answers.{AddsLine, IsPlaceOf, Keeps};
ghost use Rattle.icu_locale_lines.specs.Texts.{placed_line};

use crate::answer::{add_number, add_text};
use crate::error::CliError;
use icu_locale_core::ParseError;
use icu_locale_places::{Fault, read_at};
use std::alloc::Global;

// Why a text is no locale identifier, and where: its first byte, and the byte after it.
#[derive(Clone, Copy, Debug)]
pub struct Place {
    pub refusal: ParseError,
    pub from: usize,
    pub to: usize,
}

// The place of the fault of a line, if it is no locale identifier.
pub fn place_of(alloc: Global, line: &[u8]) -> Result<Option<Place>, CliError>
    ensures place { IfOk result (IsPlaceOf line.now) }
    ensures refused { IfErr result (λ e. e ≡ CliError.Memory) }
{
    match read_at(alloc, line) {
        Ok(_) => Ok(None),
        Err(Fault::At { refusal, from, to }) => Ok(Some(Place { refusal, from, to })),
        Err(Fault::Memory) => Err(CliError::Memory),
    }
}

// The line of a refusal with its place is appended to the others.
pub fn add_placed(text: &mut Vec<u8>, place: Place) -> Result<bool, CliError>
    ensures answer { IfOk result (AddsLine
        (λ t a. (t ≡ placed_line (parse_error_name place.refusal) place.from place.to)
        × (a ≡ false)) text.old.items text.new.items) }
    ensures refused { IfErr result (λ e. e ≡ CliError.Memory) }
    ensures kept { OnErr result (Keeps text.old.items text.new.items) }
{
    add_text(text, name_of(place.refusal))?;
    add_number(text, place.from)?;
    add_text(text, "\t")?;
    add_number(text, place.to)?;
    add_text(text, "\n")?;
    Ok(false)
}

// The front of the line of a refusal.
fn name_of(refusal: ParseError) -> &'static str
    ensures { result.now ≡ codes "?\t" ++ (parse_error_name refusal ++ codes "\t") }
{
    match refusal {
        ParseError::InvalidLanguage => "?\tInvalidLanguage\t",
        ParseError::InvalidSubtag => "?\tInvalidSubtag\t",
        ParseError::Memory => "?\tMemory\t",
    }
}
