//! The validity of locales, and their lines.
ghost use Rattle.std.specs.Prelude.{◌≡◌, IfOk, IfErr, OnErr};
ghost use Rattle.icu_locale_extensions.specs.Built.{bare};
ghost use Rattle.icu_locale_lines.specs.Answers.{AddsLine, IsAnswerOf, IsReported, Keeps};

use crate::answer::add_text;
use crate::error::CliError;
use crate::work::answering::{Answering, add_read};
use icu_locale_core::{Language, LanguageIdentifier, Variants};
use icu_locale_extensions::{LocaleIdentifier, Syntax};
use icu_locale_validity::Validity;
use std::mem;

// What tells the validity of a line.
#[derive(Clone, Copy)]
struct Validating<'a> {
    validity: &'a Validity,
    line: &'a [u8],
}

impl Answering for Validating<'_> {
    ghost is_line = { λ v x. IsReported v.validity.now v.line.now (bare x) };

    ghost is_whole_line = { λ v x. IsReported v.validity.now v.line.now x };

    fn add_line(
        &self,
        text: &mut Vec<u8>,
        identifier: &mut LanguageIdentifier,
    ) -> Result<bool, CliError> {
        let alloc = *text.allocator();
        let unknown = LanguageIdentifier {
            language: Language::UNKNOWN,
            script: None,
            region: None,
            variants: Variants::new(alloc),
        };
        let mut whole = LocaleIdentifier::new(alloc, mem::replace(identifier, unknown));
        self.add_whole_line(text, &mut whole)
    }

    fn add_whole_line(
        &self,
        text: &mut Vec<u8>,
        whole: &mut LocaleIdentifier,
    ) -> Result<bool, CliError> {
        match self.validity.append_report(self.line, whole, text) {
            Ok(()) => {
                add_text(text, "\n")?;
                Ok(true)
            }
            Err(_) => Err(CliError::Memory),
        }
    }
}

// The answer to a line whose validity is told.
pub fn add_report(
    text: &mut Vec<u8>,
    validity: &Validity,
    syntax: Option<Syntax>,
    line: &[u8],
) -> Result<bool, CliError>
    ensures answer { IfOk result (AddsLine (IsAnswerOf syntax
        (λ x. IsReported validity.now line.now (bare x)) (IsReported validity.now line.now) line.now)
        text.old.items text.new.items) }
    ensures refused { IfErr result (λ e. e ≡ CliError.Memory) }
    ensures kept { OnErr result (Keeps text.old.items text.new.items) }
{
    add_read(text, &Validating { validity, line }, syntax, line)
}
