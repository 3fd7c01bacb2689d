//! Texts that are appended to an answer.
ghost use Rattle.std.specs.Prelude.{◌≡◌, ◌≢◌, ◌++◌, decimal, IfOk, IfErr, MatchOption, false, true, OnOk, OnErr};
ghost use Rattle.std.specs.Str.{is_utf8};
ghost use Rattle.icu_locale_core.specs.Identifier.{parse_error_name};
ghost use Rattle.icu_locale_lines.specs.Answers.{AddsLine, Keeps};
ghost use Rattle.icu_locale_lines.specs.Texts.{refused_line};

use crate::error::CliError;
use icu_locale_core::ParseError;
use itoa::Buffer;

// A text is appended to another.
#[inline(always)]
pub fn add_text(text: &mut Vec<u8>, more: &str) -> Result<(), CliError>
    ensures added { OnOk result (text.new.items ≡ text.old.items ++ more.now) }
    ensures refused { IfErr result (λ e. e ≡ CliError.Memory) }
    ensures unchanged { OnErr result (text.new.items ≡ text.old.items) }
{
    Ok(text.extend_from_slice(more.as_bytes())?)
}

// A number is appended to a text, in decimal digits.
pub fn add_number(text: &mut Vec<u8>, number: usize) -> Result<(), CliError>
    ensures added { OnOk result (text.new.items ≡ text.old.items ++ decimal number) }
    ensures refused { IfErr result (λ e. e ≡ CliError.Memory) }
    ensures unchanged { OnErr result (text.new.items ≡ text.old.items) }
{
    let mut digits = Buffer::new();
    add_text(text, digits.format(number))
}

// A known line is appended to the others.
#[inline(always)]
pub fn add_known(text: &mut Vec<u8>, line: &str, accepted: bool) -> Result<bool, CliError>
    ensures answer { IfOk result (AddsLine (λ t a. (t ≡ line.now) × (a ≡ accepted))
        text.old.items text.new.items) }
    ensures refused { IfErr result (λ e. e ≡ CliError.Memory) }
    ensures kept { OnErr result (Keeps text.old.items text.new.items) }
{
    add_text(text, line)?;
    Ok(accepted)
}

// The text that bytes are, if they are UTF-8.
pub fn text_of(bytes: &[u8]) -> Option<&str>
    ensures { MatchOption result (is_utf8 bytes.now ≡ false)
        (λ text. (is_utf8 bytes.now ≡ true) × (text.now ≡ bytes.now)) }
{
    match std::str::from_utf8(bytes) {
        Ok(text) => Some(text),
        Err(_) => None,
    }
}

// The line of a refused text is appended to the others. Want of memory has no line.
pub fn add_fault(text: &mut Vec<u8>, refusal: ParseError) -> Result<bool, CliError>
    ensures answer { IfOk result (AddsLine
        (λ t a. (t ≡ refused_line (parse_error_name refusal)) × (a ≡ false))
        text.old.items text.new.items) }
    ensures told { IfOk result (λ _. refusal ≢ ParseError.Memory) }
    ensures refused { IfErr result (λ e. e ≡ CliError.Memory) }
    ensures kept { OnErr result (Keeps text.old.items text.new.items) }
{
    match refusal {
        ParseError::InvalidLanguage => add_known(text, "?\tInvalidLanguage\n", false),
        ParseError::InvalidSubtag => add_known(text, "?\tInvalidSubtag\n", false),
        ParseError::Memory => Err(CliError::Memory),
    }
}
