//! The parts of locales, and their lines.
ghost use Rattle.std.specs.Prelude.{◌≡◌, IfOk, IfErr, OnErr};
ghost use Rattle.icu_locale_lines.specs.Answers.{AddsLine, Keeps, IsAnswerOf, IsParted, IsWholeParted};

use crate::answer::add_text;
use crate::error::CliError;
use crate::work::answering::{Answering, add_read};
use icu_locale_core::LanguageIdentifier;
use icu_locale_extensions::{LocaleIdentifier, Syntax};
use icu_locale_parts::{append_identifier_parts, append_parts};

// What tells parts: nothing beside the line.
struct Parting;

impl Answering for Parting {
    ghost is_line = { λ p x. IsParted x };

    ghost is_whole_line = { λ p x. IsWholeParted x };

    fn add_line(
        &self,
        text: &mut Vec<u8>,
        identifier: &mut LanguageIdentifier,
    ) -> Result<bool, CliError> {
        match append_identifier_parts(identifier, text) {
            Ok(()) => {
                add_text(text, "\n")?;
                Ok(true)
            }
            Err(_) => Err(CliError::Memory),
        }
    }

    fn add_whole_line(
        &self,
        text: &mut Vec<u8>,
        whole: &mut LocaleIdentifier,
    ) -> Result<bool, CliError> {
        match append_parts(whole, text) {
            Ok(()) => {
                add_text(text, "\n")?;
                Ok(true)
            }
            Err(_) => Err(CliError::Memory),
        }
    }
}

// The answer to a line whose parts are told.
pub fn add_parts(text: &mut Vec<u8>, syntax: Option<Syntax>, line: &[u8]) -> Result<bool, CliError>
    ensures answer { IfOk result (AddsLine (IsAnswerOf syntax IsParted IsWholeParted line.now)
        text.old.items text.new.items) }
    ensures refused { IfErr result (λ e. e ≡ CliError.Memory) }
    ensures kept { OnErr result (Keeps text.old.items text.new.items) }
{
    add_read(text, &Parting, syntax, line)
}
