//! Lines that are read as an identifier alone or as a locale identifier, and what is answered to each.
ghost use Rattle.std.specs.Prelude.{◌≡◌, ℕ, Bool, List, IfOk, IfErr, OnErr};
ghost use Rattle.icu_locale_core.specs.declared.langid.LanguageIdentifier.{LanguageIdentifier};
ghost use Rattle.icu_locale_extensions.specs.declared.identifier.LocaleIdentifier.{LocaleIdentifier};
ghost use Rattle.icu_locale_lines.specs.Answers.{AddsLine, Keeps, IsAnswerOf, IsSpelledAnswer};

use crate::answer::add_fault;
use crate::error::CliError;
use icu_locale_core::LanguageIdentifier;
use icu_locale_extensions::{LocaleIdentifier, Syntax};

// What a line is asked for: it has a line for each identifier, and for each locale identifier.
pub trait Answering {
    ghost is_line: { Self → LanguageIdentifier → List ℕ → Bool → Type 0 };

    ghost is_whole_line: { Self → LocaleIdentifier → List ℕ → Bool → Type 0 };

    // The line of an identifier, which may be changed for it, is appended to the others.
    fn add_line(
        &self,
        text: &mut Vec<u8>,
        identifier: &mut LanguageIdentifier,
    ) -> Result<bool, CliError>
        ensures answer { IfOk result (AddsLine (is_line self.now identifier.old)
            text.old.items text.new.items) }
        ensures refused { IfErr result (λ e. e ≡ CliError.Memory) }
        ensures kept { OnErr result (Keeps text.old.items text.new.items) };

    // The same of a locale identifier.
    fn add_whole_line(
        &self,
        text: &mut Vec<u8>,
        whole: &mut LocaleIdentifier,
    ) -> Result<bool, CliError>
        ensures answer { IfOk result (AddsLine (is_whole_line self.now whole.old)
            text.old.items text.new.items) }
        ensures refused { IfErr result (λ e. e ≡ CliError.Memory) }
        ensures kept { OnErr result (Keeps text.old.items text.new.items) };
}

// The answer to a line: without a syntax it is read as an identifier alone.
#[inline(always)]
pub fn add_read<A: Answering>(
    text: &mut Vec<u8>,
    answering: &A,
    syntax: Option<Syntax>,
    line: &[u8],
) -> Result<bool, CliError>
    ensures answer { IfOk result (AddsLine (IsAnswerOf syntax (A.is_line answering.now)
        (A.is_whole_line answering.now) line.now) text.old.items text.new.items) }
    ensures refused { IfErr result (λ e. e ≡ CliError.Memory) }
    ensures kept { OnErr result (Keeps text.old.items text.new.items) }
{
    match syntax {
        None => match LanguageIdentifier::try_from_utf8(*text.allocator(), line) {
            Ok(mut identifier) => answering.add_line(text, &mut identifier),
            Err(refusal) => add_fault(text, refusal),
        },
        Some(syntax) => add_spelled(text, answering, syntax, line),
    }
}

// The answer to a line that is a locale identifier in a syntax.
fn add_spelled<A: Answering>(
    text: &mut Vec<u8>,
    answering: &A,
    syntax: Syntax,
    line: &[u8],
) -> Result<bool, CliError>
    ensures answer { IfOk result (AddsLine
        (IsSpelledAnswer syntax (A.is_whole_line answering.now) line.now)
        text.old.items text.new.items) }
    ensures refused { IfErr result (λ e. e ≡ CliError.Memory) }
    ensures kept { OnErr result (Keeps text.old.items text.new.items) }
{
    match LocaleIdentifier::read(*text.allocator(), syntax, line) {
        Ok(mut whole) => answering.add_whole_line(text, &mut whole),
        Err(refusal) => add_fault(text, refusal),
    }
}
