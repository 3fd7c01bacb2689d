//! The answers to all lines of an input, written.
ghost use Rattle.std.specs.Prelude.{◌≡◌, ◌≢◌, ◌⊎◌, ◌∷◌, [], List, ℕ, Err, IfOk, IfErr, OnOk, OnErr};
ghost use Rattle.std.specs.Io.KnownBytes.{Appends};
ghost use Rattle.icu_locale_core.specs.Sinks.{AppendsPart};
ghost use Rattle.icu_locale_lines.specs.Lines.{lines};
ghost use Rattle.icu_locale_lines.specs.Runs.{AnswersFirst, WritesAll, WritesEarlier, WritesPart};
ghost use Rattle.icu_locale_lines.specs.declared.runs.Status.{Status};

use crate::error::CliError;
use crate::runs::Status;
use crate::runs::cut::Lines;
use crate::work::Work;
use icu_locale_core::write_whole;
use std::io::Write;

// How many bytes of answers are written at once: with one line more they mostly fit into 64 KiB.
const FULL: usize = 60 * 1024;

// The answers to all lines. Where memory is refused for a line, those to all lines before it are written.
pub fn write_answers<W: Write>(
    work: &Work<'_>,
    text: &mut Vec<u8>,
    input: &[u8],
    writer: &mut W,
) -> Result<Status, CliError>
    ensures whole { IfOk result (WritesAll work.now input.now (W.contents writer.old)
        (W.contents writer.new)) }
    ensures memory { result ≡ Err CliError.Memory
        → WritesEarlier work.now input.now (W.contents writer.old) (W.contents writer.new) }
    ensures write { result ≡ Err CliError.Write
        → WritesPart work.now input.now (W.contents writer.old) (W.contents writer.new) }
    ensures refused { IfErr result (λ e. (e ≡ CliError.Memory) ⊎ (e ≡ CliError.Write)) }
{
    let mut left = Lines::new(input);
    write_lines(work, text, &mut left, writer)
}

// The answers to the lines that are left, joined in a list that is written when it is full, and at the end. A line for
// which memory is refused is the last that is taken, and the answers to all lines before it are written. What the list
// held before is lost.
fn write_lines<W: Write>(
    work: &Work<'_>,
    text: &mut Vec<u8>,
    left: &mut Lines<'_>,
    writer: &mut W,
) -> Result<Status, CliError>
    ensures whole { (input : List ℕ) → left.old ≡ lines input → IfOk result
        (WritesAll work.now input (W.contents writer.old) (W.contents writer.new)) }
    ensures memory { result ≡ Err CliError.Memory → (status : Status) × (line : List ℕ)
        × AnswersFirst work.now left.old [] (W.contents writer.old) (W.contents writer.new)
        status (line ∷ left.new) }
    ensures write { result ≡ Err CliError.Write → (status : Status) × (pending : List ℕ)
        × (rest : List (List ℕ)) × (pending ≢ []) × AnswersFirst work.now left.old pending
        (W.contents writer.old) (W.contents writer.new) status rest }
    ensures refused { IfErr result (λ e. (e ≡ CliError.Memory) ⊎ (e ≡ CliError.Write)) }
{
    let mut status = Status::Accepted;
    text.clear();
    while let Some(line) = left.next() {
        match work.add_answer(text, line) {
            Ok(accepted) => status = status.after(accepted),
            Err(refusal) => {
                write_bytes(writer, text.as_slice())?;
                return Err(refusal);
            }
        }
        if text.len() >= FULL {
            write_bytes(writer, text.as_slice())?;
            text.clear();
        }
    }
    write_bytes(writer, text.as_slice())?;
    Ok(status)
}

// A write that takes no byte counts as a failure.
pub fn write_bytes<W: Write>(writer: &mut W, bytes: &[u8]) -> Result<(), CliError>
    ensures whole { OnOk result
        (Appends (W.contents writer.old) (W.contents writer.new) bytes.now) }
    ensures refused { IfErr result (λ e. e ≡ CliError.Write) }
    ensures part { OnErr result
        (AppendsPart (W.contents writer.old) (W.contents writer.new) bytes.now) }
{
    match write_whole(bytes, writer) {
        Ok(()) => Ok(()),
        Err(_) => Err(CliError::Write),
    }
}
