//! The command that a text names.
ghost use Rattle.std.specs.Prelude.{◌≡◌, IfOk, IfErr};
ghost use Rattle.icu_locale_c.specs.Calls.{Names, NamesNone, plainly};
ghost use Rattle.icu_locale_lines.specs.declared.command.LineCommand.{LineCommand};
ghost use Rattle.icu_locale_c.specs.Negotiations.{IsNoSyntax, NamesSyntax};

use crate::refusal::Refusal;
use icu_locale_extensions::Syntax;
use icu_locale_lines::{Asked, Command, LineCommand, Source, Words, syntax_of, task_of};
use std::alloc::Global;

// The syntax that a word names; no word names none.
pub fn read_syntax(word: &[u8]) -> Result<Option<Syntax>, Refusal>
    ensures named { IfOk result (NamesSyntax word.now) }
    ensures refused { IfErr result (IsNoSyntax word.now) }
{
    if word.is_empty() {
        return Ok(None);
    }
    match syntax_of(word) {
        Some(syntax) => Ok(Some(syntax)),
        None => Err(Refusal::Command),
    }
}

// The command that a text names: the stream's words, one space between two.
pub fn read_command(alloc: Global, text: &[u8]) -> Result<LineCommand, Refusal>
    ensures named { IfOk result (Names text.now) }
    ensures refused { IfErr result (λ e. (e ≡ Refusal.Command) × NamesNone text.now) }
{
    // Most texts are one word, which is compared as it is.
    if let Some(task) = task_of(text) {
        return Ok(LineCommand::plain(task));
    }
    match str::from_utf8(text) {
        Ok(text) => match Asked::from_words(alloc, Words::cut(text)) {
            Some(asked) => lines_of(&asked),
            None => Err(Refusal::Command),
        },
        Err(_) => Err(Refusal::Command),
    }
}

// The command that is asked for, if it answers lines, without a bound and over no other tables.
fn lines_of(asked: &Asked) -> Result<LineCommand, Refusal>
    ensures named { IfOk result (λ c. asked.now ≡ plainly c) }
    ensures refused { IfErr result (λ e. (e ≡ Refusal.Command)
        × ((c : LineCommand) → ¬ (asked.now ≡ plainly c))) }
{
    match (asked.longest, asked.command, asked.source) {
        (None, Command::Lines(command), Source::Sample) => Ok(command),
        _ => Err(Refusal::Command),
    }
}
