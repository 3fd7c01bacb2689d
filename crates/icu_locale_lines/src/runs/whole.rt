//! A run: tables, input and output.
ghost use Rattle.std.specs.Prelude.{◌≡◌, ◌↔◌, [], Ok, Err, IfOk, IfErr, false};
ghost use Rattle.icu_tables.specs.Rows.{rows_of};
ghost use Rattle.icu_tables.specs.File.{rows_in};
ghost use Rattle.icu_tables.specs.declared.tables.Tables.{Tables};
ghost use Rattle.icu_locale_lines.specs.Loads.{not_found};
ghost use Rattle.icu_locale_lines.specs.Texts.{settled_line};
ghost use Rattle.icu_locale_lines.specs.Commands.{IsUnsettled, has_tables};
ghost use Rattle.icu_locale_lines.specs.Held.{IsReady};
ghost use Rattle.icu_locale_lines.specs.WholeRuns.{IsRun, IsRefusedRun, WritesSettled, WritesLines, StopsLines, WritesOutput, IsRefusedOutput, IsJsonRun, IsRefusedJsonRun, StandAlone};
ghost use Rattle.icu_locale_lines.specs.Refusals.{IsRefusedReading};

use crate::command::{Command, LineCommand};
use crate::error::CliError;
use crate::runs::Status;
use crate::runs::cut::cut;
use crate::runs::input::{MOST_READS, read_all};
use crate::runs::writing::{write_answers, write_bytes};
use crate::session::Session;
use crate::session::load::load_expander;
use icu_tables::{TableError, Tables};
use std::alloc::Global;
use std::io::{Read, Write};

/// Loads the tables that the command needs, reads the reader to its end, and writes one line for each of its lines,
/// made whole before it is written; `Negotiate` uses the first for what is available. `Settled` reads nothing and writes
/// one line.
///
/// # Errors
///
/// - `Data` exactly where a needed table is not held: nothing was read or written.
/// - `NotSettled` exactly where `Negotiate` finds likely tables that are not settled: nothing was read or written.
/// - `Available` where the first line, which lists what `Negotiate` has available, has a fault: nothing was written.
/// - `Read` where a read failed or the input did not end: nothing was written.
/// - `Write` where a write failed or took no byte: the earlier lines were written, and a beginning of the one in hand.
/// - `Memory` where memory was refused: for a line, and then the answers to all lines before it were written, or before,
///   and then nothing was.
pub fn run<R: Read, W: Write>(
    alloc: Global,
    command: &Command,
    tables: &Tables,
    reader: &mut R,
    writer: &mut W,
) -> Result<Status, CliError>
    ensures output { IfOk result (IsRun command.now tables.now (R.remaining reader.old)
        (R.remaining reader.new) (W.contents writer.old) (W.contents writer.new)) }
    ensures data { (result ≡ Err (CliError.Data not_found))
        ↔ (has_tables command.now tables.now ≡ false) }
    ensures unsettled { (result ≡ Err CliError.NotSettled)
        ↔ IsUnsettled command.now tables.now }
    ensures refused { IfErr result (IsRefusedRun command.now tables.now (R.remaining reader.old)
        (R.remaining reader.new) (W.contents writer.old) (W.contents writer.new)) }
{
    let Command::Lines(command) = command else {
        return write_settled(tables, writer);
    };
    let session = Session::open(alloc, tables, command)?;
    let input = read_all(alloc, reader, MOST_READS)?;
    answer_input(alloc, tables, command, session, &input, writer)
}

/// Reads the reader to its end, takes the tables of its first line as JSON, and does as `run` with the lines that are
/// left. `Settled` uses none of them.
///
/// # Errors
///
/// - `Read` where a read failed or the input did not end: nothing was written.
/// - `Tables` where the first line gives no tables: nothing was written.
/// - `Data` where these leave out a table that the command needs, `NotSettled` and `Available` as `run` answers them:
///   nothing was written.
/// - `Write` and `Memory` as `run` answers them.
pub fn run_json<R: Read, W: Write>(
    alloc: Global,
    command: &Command,
    reader: &mut R,
    writer: &mut W,
) -> Result<Status, CliError>
    ensures output { IfOk result (IsJsonRun command.now (R.remaining reader.old)
        (R.remaining reader.new) (W.contents writer.old) (W.contents writer.new)) }
    ensures refused { IfErr result (IsRefusedJsonRun command.now (R.remaining reader.old)
        (R.remaining reader.new) (W.contents writer.old) (W.contents writer.new)) }
{
    let input = read_all(alloc, reader, MOST_READS)?;
    let (json, rest) = cut(&input);
    let tables = read_tables(alloc, json)?;
    write_output(alloc, command, &tables, rest, writer)
}

// The answers to the lines of an input. A command that asks for a list takes it of the first line.
fn answer_input<W: Write>(
    alloc: Global,
    tables: &Tables,
    command: &LineCommand,
    session: Session,
    input: &[u8],
    writer: &mut W,
) -> Result<Status, CliError>
    requires { IsReady command.now tables.now session }
    ensures output { IfOk result (WritesLines command.now tables.now input.now
        (W.contents writer.old) (W.contents writer.new)) }
    ensures left { IfErr result (StopsLines command.now tables.now input.now
        (W.contents writer.old) (W.contents writer.new)) }
{
    let mut text = Vec::new(alloc);
    if !command.task.row().lists {
        let work = session.work(tables, command)?;
        return write_answers(&work, &mut text, input, writer);
    }
    let (first, rest) = cut(input);
    let session = session.listing(alloc, tables, command, first)?;
    let work = session.work(tables, command)?;
    write_answers(&work, &mut text, rest, writer)
}

// The tables of a JSON text.
pub fn read_tables(alloc: Global, json: &[u8]) -> Result<Tables, CliError>
    ensures rows { IfOk result (λ tables. rows_in json.now ≡ Ok (rows_of tables)) }
    ensures alone { IfOk result StandAlone }
    ensures refused { IfErr result (IsRefusedReading json.now) }
{
    match Tables::from_json(alloc, json) {
        Ok(tables) => Ok(tables),
        Err(TableError::Memory) => Err(CliError::Memory),
        Err(refusal) => Err(CliError::Tables(refusal)),
    }
}

// What a command writes over tables for an input.
fn write_output<W: Write>(
    alloc: Global,
    command: &Command,
    tables: &Tables,
    input: &[u8],
    writer: &mut W,
) -> Result<Status, CliError>
    ensures output { IfOk result (WritesOutput command.now tables.now input.now
        (W.contents writer.old) (W.contents writer.new)) }
    ensures refused { IfErr result (IsRefusedOutput command.now tables.now input.now
        (W.contents writer.old) (W.contents writer.new)) }
{
    match command {
        Command::Settled => write_settled(tables, writer),
        Command::Lines(command) => {
            let session = Session::open(alloc, tables, command)?;
            answer_input(alloc, tables, command, session, input, writer)
        }
    }
}

// One line, `yes` or `no`.
pub fn write_settled<W: Write>(tables: &Tables, writer: &mut W) -> Result<Status, CliError>
    ensures output { IfOk result (WritesSettled tables.now (W.contents writer.old)
        (W.contents writer.new)) }
    ensures data { (result ≡ Err (CliError.Data not_found))
        ↔ (has_tables Command.Settled tables.now ≡ false) }
    ensures refused { IfErr result (IsRefusedOutput Command.Settled tables.now []
        (W.contents writer.old) (W.contents writer.new)) }
{
    let expander = load_expander(tables)?;
    let line = yes_or_no(expander.is_settled());
    write_bytes(writer, line.as_bytes())?;
    Ok(Status::Accepted)
}

fn yes_or_no(settled: bool) -> &'static str
    ensures { result.now ≡ settled_line settled }
{
    if settled { "yes\n" } else { "no\n" }
}
