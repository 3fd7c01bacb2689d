//! Exemplar characters, and lines of texts that are asked of them.
ghost use Rattle.std.specs.Prelude.{◌≡◌, IfOk, IfErr, OnErr};
ghost use Rattle.icu_locale_lines.specs.Answers.{AddsLine, Keeps};
ghost use Rattle.icu_locale_lines.specs.Subtags.{IsToldLine, exemplar_answer};

use crate::answer::{add_known, text_of};
use crate::error::CliError;
use icu_provider::ExemplarCharactersData;

// The answer to a line that is a text, of which it is told whether the set has it.
pub fn add_exemplar(
    text: &mut Vec<u8>,
    set: &ExemplarCharactersData,
    line: &[u8],
) -> Result<bool, CliError>
    ensures answer { IfOk result (AddsLine (IsToldLine (exemplar_answer set.now line.now))
        text.old.items text.new.items) }
    ensures refused { IfErr result (λ e. e ≡ CliError.Memory) }
    ensures kept { OnErr result (Keeps text.old.items text.new.items) }
{
    let Some(asked) = text_of(line) else {
        return add_known(text, "?\tInvalidText\n", false);
    };
    if set.contains_str(asked) {
        return add_known(text, "yes\n", true);
    }
    add_known(text, "no\n", true)
}
