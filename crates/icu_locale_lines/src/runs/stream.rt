//! A run that answers lines as they come: each answer is written before more is read.
ghost use Rattle.std.specs.Prelude.{◌≡◌, ◌≢◌, ◌↔◌, ◌≤◌, Err, IfOk, IfErr, OnOk, false, [], ◌++◌, length, List, ℕ};
ghost use Rattle.std.specs.Io.KnownBytes.{prepend_known};
ghost use Rattle.std.specs.List.{list_any};
ghost use Rattle.icu_locale_lines.specs.Commands.{IsUnsettled, has_tables};
ghost use Rattle.icu_locale_lines.specs.Held.{IsReady};
ghost use Rattle.icu_locale_lines.specs.Lines.{is_line_feed, AreWithin};
ghost use Rattle.icu_locale_lines.specs.Loads.{not_found};
ghost use Rattle.icu_locale_lines.specs.Runs.{ReadsAll, WritesAll};
ghost use Rattle.icu_locale_lines.specs.Streams.{part_size, IsRunWithin, IsRefusedStream, StopsLoaded, StopsStream};
ghost use Rattle.icu_locale_lines.specs.Streams.{IsUnended, EndsLines, AnswersUpTo};
ghost use Rattle.icu_locale_lines.specs.declared.command.Command.TheVariants.{Lines};
ghost use Rattle.icu_locale_lines.specs.inner.Parts.{StopsText};

use crate::command::{Command, LineCommand};
use crate::error::CliError;
use crate::runs::Status;
use crate::runs::cut::{cut_before_long, cut_behind_lines, is_too_long, split_first_line};
use crate::runs::input::{MOST_READS, PART, read_first_line};
use crate::runs::whole::write_settled;
use crate::runs::writing::write_answers;
use crate::session::Session;
use crate::work::Work;
use icu_tables::Tables;
use std::alloc::Global;
use std::io::{Read, Write};

/// Does as `run`, but reads by parts: each line is answered when it has come whole, and the answers are flushed before more
/// is read. What follows the last line feed is answered at the end. It takes memory for the line in hand, its answer, and
/// what `Negotiate` has available.
///
/// Where a bound is given, a line longer than so many bytes counts as a failed read, its line feed not counted and however
/// the input comes by parts: the lines before it are answered, and no more is read. So does a first line that lists what
/// is available. An input without line feeds does not fill memory then.
///
/// # Errors
///
/// - `Data`, `NotSettled` and `Available` as `run` answers them: nothing was written.
/// - `Read` where a read failed, the input did not end or a line is longer than the bound: each line that had come whole
///   before was answered.
/// - `Write` where a write or a flush failed, or a write took no byte: the earlier lines were answered, and a beginning of
///   the answer in hand.
/// - `Memory` where memory was refused: for a line, whether it had ended or was begun, and then the answers to all lines
///   before it were written, or before, and then nothing was. No more is left unanswered than one line's beginning and the
///   last 16,384 bytes that were read.
pub fn stream<R: Read, W: Write>(
    alloc: Global,
    command: &Command,
    tables: &Tables,
    longest: Option<usize>,
    reader: &mut R,
    writer: &mut W,
) -> Result<Status, CliError>
    ensures output { IfOk result (IsRunWithin longest command.now tables.now
        (R.remaining reader.old) (R.remaining reader.old) (R.remaining reader.new)
        (W.contents writer.old) (W.contents writer.new)) }
    ensures data { (result ≡ Err (CliError.Data not_found))
        ↔ (has_tables command.now tables.now ≡ false) }
    ensures unsettled { (result ≡ Err CliError.NotSettled)
        ↔ IsUnsettled command.now tables.now }
    ensures refused { IfErr result (IsRefusedStream longest command.now tables.now
        (R.remaining reader.old) (R.remaining reader.old) (R.remaining reader.new)
        (W.contents writer.old) (W.contents writer.new)) }
{
    stream_over(alloc, command, tables, longest, &[], reader, writer)
}

// What a command answers to what is left of a reader, after what was read of it before. `Settled` reads no more.
pub fn stream_over<R: Read, W: Write>(
    alloc: Global,
    command: &Command,
    tables: &Tables,
    longest: Option<usize>,
    before: &[u8],
    reader: &mut R,
    writer: &mut W,
) -> Result<Status, CliError>
    requires short { length before.now ≤ part_size }
    ensures output { IfOk result (IsRunWithin longest command.now tables.now
        (prepend_known before.now (R.remaining reader.old)) (R.remaining reader.old)
        (R.remaining reader.new) (W.contents writer.old) (W.contents writer.new)) }
    ensures data { (result ≡ Err (CliError.Data not_found))
        ↔ (has_tables command.now tables.now ≡ false) }
    ensures unsettled { (result ≡ Err CliError.NotSettled)
        ↔ IsUnsettled command.now tables.now }
    ensures refused { IfErr result (IsRefusedStream longest command.now tables.now
        (prepend_known before.now (R.remaining reader.old)) (R.remaining reader.old)
        (R.remaining reader.new) (W.contents writer.old) (W.contents writer.new)) }
{
    let Command::Lines(command) = command else {
        return write_settled(tables, writer);
    };
    let session = Session::open(alloc, tables, command)?;
    stream_session(
        alloc, session, command, tables, longest, before, reader, writer,
    )
}

// The same for lines, with what they ask for before the first. That one is read where it lists what is available.
fn stream_session<R: Read, W: Write>(
    alloc: Global,
    session: Session,
    command: &LineCommand,
    tables: &Tables,
    longest: Option<usize>,
    before: &[u8],
    reader: &mut R,
    writer: &mut W,
) -> Result<Status, CliError>
    requires ready { IsReady command.now tables.now session }
    requires short { length before.now ≤ part_size }
    ensures output { IfOk result (IsRunWithin longest (Lines command.now) tables.now
        (prepend_known before.now (R.remaining reader.old)) (R.remaining reader.old)
        (R.remaining reader.new) (W.contents writer.old) (W.contents writer.new)) }
    ensures refused { IfErr result (StopsLoaded longest (Lines command.now) tables.now
        (prepend_known before.now (R.remaining reader.old)) (R.remaining reader.old)
        (R.remaining reader.new) (W.contents writer.old) (W.contents writer.new)) }
{
    if !command.task.row().lists {
        let work = session.work(tables, command)?;
        return stream_lines(alloc, &work, longest, before, reader, writer);
    }
    let first = read_first_line(alloc, longest, before, reader)?;
    let session = session.listing(alloc, tables, command, &first.line)?;
    let work = session.work(tables, command)?;
    if first.has_ended {
        return Ok(Status::Accepted);
    }
    stream_lines(alloc, &work, longest, &first.rest, reader, writer)
}

// Answers what is left of a reader, after what was read of it before. After each part it answers the lines that this
// part ends, and keeps what follows the last line feed; at the end it answers what is left. An input that has not ended
// after the last read that it may take counts as a failed read, and so does a line that is too long.
fn stream_lines<R: Read, W: Write>(
    alloc: Global,
    work: &Work<'_>,
    longest: Option<usize>,
    first: &[u8],
    reader: &mut R,
    writer: &mut W,
) -> Result<Status, CliError>
    requires short { length first.now ≤ part_size }
    ensures whole { IfOk result (λ status. (input : List ℕ)
        × ReadsAll (prepend_known first.now (R.remaining reader.old))
        (R.remaining reader.new) input × AreWithin longest input
        × WritesAll work.now input (W.contents writer.old) (W.contents writer.new) status) }
    ensures refused { IfErr result (StopsStream longest work.now
        (prepend_known first.now (R.remaining reader.old)) (R.remaining reader.new)
        (W.contents writer.old) (W.contents writer.new)) }
{
    let mut carry = Vec::new(alloc);
    let mut text = Vec::new(alloc);
    let mut status = answer_part(work, longest, &mut text, &mut carry, first, writer)?;
    let mut buffer = [0; PART];
    for _ in 0..MOST_READS {
        if writer.flush().is_err() {
            return Err(CliError::Write);
        }
        match reader.read(&mut buffer) {
            Ok(0) => {
                let last = write_answers(work, &mut text, carry.as_slice(), writer)?;
                return Ok(status.and(last));
            }
            Ok(count) => {
                let (part, _) = buffer.split_at(count);
                let ended = answer_part(work, longest, &mut text, &mut carry, part, writer)?;
                status = status.and(ended);
            }
            Err(_) => return Err(CliError::Read),
        }
    }
    Err(CliError::Read)
}

// Answers the lines that a part ends, and carries what follows the last. A line that is too long counts as a failed read.
fn answer_part<W: Write>(
    work: &Work<'_>,
    longest: Option<usize>,
    text: &mut Vec<u8>,
    carry: &mut Vec<u8>,
    part: &[u8],
    writer: &mut W,
) -> Result<Status, CliError>
    requires { list_any is_line_feed carry.old.items ≡ false }
    ensures whole { IfOk result (AnswersUpTo ⊥ longest work.now
        (carry.old.items ++ part.now) carry.new.items []
        (W.contents writer.old) (W.contents writer.new)) }
    ensures unended { IfOk result (λ _. IsUnended longest carry.new.items) }
    ensures refused { IfErr result (StopsText ⊥ longest work.now (carry.old.items ++ part.now)
        (W.contents writer.old) (W.contents writer.new)) }
{
    let (front, rest) = cut_behind_lines(part);
    let status = answer_front(work, longest, text, carry, front, writer)?;
    keep(carry, rest)?;
    if is_too_long(longest, carry) {
        return Err(CliError::Read);
    }
    Ok(status)
}

// Keeps a text behind what is carried. An empty one needs no memory.
fn keep(carry: &mut Vec<u8>, text: &[u8]) -> Result<(), CliError>
    ensures kept { OnOk result (carry.new.items ≡ carry.old.items ++ text.now) }
    ensures refused { IfErr result (λ e. (e ≡ CliError.Memory) × (text.now ≢ [])) }
{
    if text.is_empty() {
        return Ok(());
    }
    carry.extend_from_slice(text)?;
    Ok(())
}

// Answers the lines of a text, of which what was carried begins the first, up to the first that is too long. Only a line
// that was carried is copied.
fn answer_front<W: Write>(
    work: &Work<'_>,
    longest: Option<usize>,
    text: &mut Vec<u8>,
    carry: &mut Vec<u8>,
    front: &[u8],
    writer: &mut W,
) -> Result<Status, CliError>
    requires alone { list_any is_line_feed carry.old.items ≡ false }
    requires whole { EndsLines front.now }
    ensures whole { IfOk result (AnswersUpTo ⊥ longest work.now
        (carry.old.items ++ front.now) carry.new.items []
        (W.contents writer.old) (W.contents writer.new)) }
    ensures alone { IfOk result (λ _. list_any is_line_feed carry.new.items ≡ false) }
    ensures refused { IfErr result (StopsText ⊥ longest work.now (carry.old.items ++ front.now)
        (W.contents writer.old) (W.contents writer.new)) }
{
    if front.is_empty() {
        return Ok(Status::Accepted);
    }
    if carry.is_empty() {
        return answer_lines(work, longest, text, front, writer);
    }
    let (line, others) = split_first_line(front);
    keep(carry, line)?;
    let first = answer_lines(work, longest, text, carry.as_slice(), writer)?;
    carry.clear();
    let later = answer_lines(work, longest, text, others, writer)?;
    Ok(first.and(later))
}

// Answers whole lines, up to the first that is too long.
fn answer_lines<W: Write>(
    work: &Work<'_>,
    longest: Option<usize>,
    text: &mut Vec<u8>,
    input: &[u8],
    writer: &mut W,
) -> Result<Status, CliError>
    requires { EndsLines input.now }
    ensures whole { IfOk result (AnswersUpTo ⊥ longest work.now input.now [] []
        (W.contents writer.old) (W.contents writer.new)) }
    ensures refused { IfErr result (StopsText ⊥ longest work.now input.now
        (W.contents writer.old) (W.contents writer.new)) }
{
    let (short, long) = cut_before_long(longest, input);
    let status = write_answers(work, text, short, writer)?;
    if !long.is_empty() {
        return Err(CliError::Read);
    }
    Ok(status)
}
