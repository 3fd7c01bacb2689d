//! Directions, and their lines.
ghost use Rattle.std.specs.Prelude.{◌≡◌, IfOk, IfErr, OnErr, true};
ghost use Rattle.icu_locale_lines.specs.Answers.{AddsLine, Keeps, IsAnswerOf, IsDirected};
ghost use Rattle.icu_locale_lines.specs.Texts.{direction_line};

use crate::answer::{add_fault, add_known};
use crate::error::CliError;
use crate::work::list::read_identifier;
use icu_locale::{Direction, LocaleDirectionality};
use icu_locale_extensions::Syntax;

// The answer to a line whose identifier has its direction told.
pub fn add_direction(
    text: &mut Vec<u8>,
    directionality: &LocaleDirectionality<'_>,
    syntax: Option<Syntax>,
    line: &[u8],
) -> Result<bool, CliError>
    ensures answer { IfOk result (AddsLine (IsAnswerOf syntax (IsDirected directionality.now)
        (λ x. IsDirected directionality.now x.locale.id) line.now)
        text.old.items text.new.items) }
    ensures refused { IfErr result (λ e. e ≡ CliError.Memory) }
    ensures kept { OnErr result (Keeps text.old.items text.new.items) }
{
    match read_identifier(*text.allocator(), syntax, line) {
        Ok(identifier) => add_known(text, direction_line(directionality.get(&identifier)), true),
        Err(refusal) => add_fault(text, refusal),
    }
}

fn direction_line(direction: Option<Direction>) -> &'static str
    ensures { result.now ≡ direction_line direction }
{
    match direction {
        Some(Direction::LeftToRight) => "ltr\n",
        Some(Direction::RightToLeft) => "rtl\n",
        None => "none\n",
    }
}
