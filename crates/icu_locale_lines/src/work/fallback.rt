//! The chains of identifiers, and their lines.
ghost use Rattle.std.specs.Prelude.{◌≡◌, IfOk, IfErr, OnErr};
ghost use Rattle.icu_locale_lines.specs.Answers.{AddsLine, Keeps, IsAnswerOf};
ghost use Rattle.icu_locale_lines.specs.Chains.{IsChained};

use crate::answer::{add_fault, add_known, add_text};
use crate::error::CliError;
use crate::work::list::read_identifier;
use icu_locale_core::LanguageIdentifier;
use icu_locale_extensions::Syntax;
use icu_locale_fallback::{FallbackError, LocaleFallbackerWithConfig};

// The answer to a line whose identifier has its chain written.
pub fn add_chain(
    text: &mut Vec<u8>,
    fallbacker: &LocaleFallbackerWithConfig<'_>,
    syntax: Option<Syntax>,
    line: &[u8],
) -> Result<bool, CliError>
    ensures answer { IfOk result (AddsLine (IsAnswerOf syntax (IsChained fallbacker.now)
        (λ x. IsChained fallbacker.now x.locale.id) line.now)
        text.old.items text.new.items) }
    ensures refused { IfErr result (λ e. e ≡ CliError.Memory) }
    ensures kept { OnErr result (Keeps text.old.items text.new.items) }
{
    match read_identifier(*text.allocator(), syntax, line) {
        Ok(identifier) => add_chain_of(text, fallbacker, identifier),
        Err(refusal) => add_fault(text, refusal),
    }
}

// The line of the chain of an identifier. Want of memory has none.
fn add_chain_of(
    text: &mut Vec<u8>,
    fallbacker: &LocaleFallbackerWithConfig<'_>,
    identifier: LanguageIdentifier,
) -> Result<bool, CliError>
    ensures answer { IfOk result (AddsLine (IsChained fallbacker.now identifier)
        text.old.items text.new.items) }
    ensures refused { IfErr result (λ e. e ≡ CliError.Memory) }
    ensures kept { OnErr result (Keeps text.old.items text.new.items) }
{
    match fallbacker.append_chain(*text.allocator(), identifier, text) {
        Ok(()) => {
            add_text(text, "\n")?;
            Ok(true)
        }
        Err(FallbackError::Circle(_)) => add_known(text, "?\tCircle\n", false),
        Err(FallbackError::Memory) => Err(CliError::Memory),
    }
}
