//! Runs and streams by the words of a command.
ghost use Rattle.std.specs.Prelude.{◌≡◌, ◌↔◌, None, Err, IfOk, IfErr, map};
ghost use Rattle.std.specs.String.{string_bytes};
ghost use Rattle.icu_locale_lines.specs.Grammar.{parse, parse_run};
ghost use Rattle.icu_locale_lines.specs.WordRuns.{IsRunBy, IsRefusedRunBy, IsWordsRun, IsRefusedWordsRun, IsStreamFrom, IsRefusedStreamFrom, IsWordsStream, IsRefusedWordsStream};

use crate::asked::Asked;
use crate::command::Command;
use crate::cursor::Words;
use crate::error::CliError;
use crate::runs::Status;
use crate::runs::head::read_head;
use crate::runs::stream::stream_over;
use crate::runs::whole::{run, run_json};
use crate::sample_tables::sample;
use std::alloc::Global;
use std::io::{Read, Write};
use std::{env, io};

/// Asks the words, and then does as `run_by`.
///
/// # Errors
///
/// - `Usage` exactly where the words are those of no command: nothing was read or written.
/// - The others as `run_by` answers them.
pub fn run_words<R: Read, W: Write>(
    alloc: Global,
    words: &[String],
    reader: &mut R,
    writer: &mut W,
) -> Result<Status, CliError>
    ensures output { IfOk result (IsWordsRun (map string_bytes words.now)
        (R.remaining reader.old) (R.remaining reader.new) (W.contents writer.old)
        (W.contents writer.new)) }
    ensures usage { (result ≡ Err CliError.Usage)
        ↔ (parse_run (map string_bytes words.now) ≡ None) }
    ensures refused { IfErr result (IsRefusedWordsRun (map string_bytes words.now)
        (R.remaining reader.old) (R.remaining reader.new) (W.contents writer.old)
        (W.contents writer.new)) }
{
    let (command, json) = Command::from_words(alloc, words)?;
    run_by(alloc, &command, json, reader, writer)
}

/// Runs a command: over the tables of the first line where `json` is true, else over the sample.
///
/// # Errors
///
/// Those of `run` and `run_json`; `Memory` also where none was found for the sample: nothing was read or written.
pub fn run_by<R: Read, W: Write>(
    alloc: Global,
    command: &Command,
    json: bool,
    reader: &mut R,
    writer: &mut W,
) -> Result<Status, CliError>
    ensures output { IfOk result (IsRunBy command.now json (R.remaining reader.old)
        (R.remaining reader.new) (W.contents writer.old) (W.contents writer.new)) }
    ensures refused { IfErr result (IsRefusedRunBy command.now json (R.remaining reader.old)
        (R.remaining reader.new) (W.contents writer.old) (W.contents writer.new)) }
{
    if json {
        return run_json(alloc, command, reader, writer);
    }
    let tables = sample(alloc)?;
    run(alloc, command, &tables, reader, writer)
}

/// Asks the words, as `Asked::from_words` does, and then does as `stream_asked`.
///
/// # Errors
///
/// - `Usage` exactly where the words ask for no stream: nothing was read or written.
/// - The others as `stream_asked` answers them.
pub fn stream_words<R: Read, W: Write>(
    alloc: Global,
    words: &[String],
    reader: &mut R,
    writer: &mut W,
) -> Result<Status, CliError>
    ensures output { IfOk result (IsWordsStream (map string_bytes words.now)
        (R.remaining reader.old) (R.remaining reader.new) (W.contents writer.old)
        (W.contents writer.new)) }
    ensures usage { (result ≡ Err CliError.Usage)
        ↔ (parse (map string_bytes words.now) ≡ None) }
    ensures refused { IfErr result (IsRefusedWordsStream (map string_bytes words.now)
        (R.remaining reader.old) (R.remaining reader.new) (W.contents writer.old)
        (W.contents writer.new)) }
{
    let Some(asked) = Asked::from_words(alloc, Words::new(words)) else {
        return Err(CliError::Usage);
    };
    stream_asked(alloc, &asked, reader, writer)
}

/// Streams what is asked for, over the tables that are asked for: the sample with its supplement, those of the first line,
/// or those and the supplement of the second.
///
/// # Errors
///
/// - `Tables` where the first line gives no tables, and `Supplement` where the second gives no supplement: nothing was
///   written.
/// - `Memory` where none was found for the sample, and `Read` and `Memory` while such lines are read: nothing was written.
/// - The others as `stream` answers them over what follows.
pub fn stream_asked<R: Read, W: Write>(
    alloc: Global,
    asked: &Asked,
    reader: &mut R,
    writer: &mut W,
) -> Result<Status, CliError>
    ensures output { IfOk result (IsStreamFrom asked.now.source asked.now.longest
        asked.now.command (R.remaining reader.old) (R.remaining reader.new)
        (W.contents writer.old) (W.contents writer.new)) }
    ensures refused { IfErr result (IsRefusedStreamFrom asked.now.source asked.now.longest
        asked.now.command (R.remaining reader.old) (R.remaining reader.new)
        (W.contents writer.old) (W.contents writer.new)) }
{
    let head = read_head(alloc, asked.source, reader)?;
    stream_over(
        alloc,
        &asked.command,
        &head.tables,
        asked.longest,
        &head.rest,
        reader,
        writer,
    )
}

/// The words after a program's name. It takes memory for them.
///
/// # Errors
///
/// `Memory` where memory was refused, and `Usage` where a word is no text.
pub fn program_words(rt: &HostRuntime) -> Result<Vec<String>, CliError> {
    let args = match env::args(rt) {
        Ok(args) => args,
        Err(refusal) if refusal.kind() == io::ErrorKind::OutOfMemory => {
            return Err(CliError::Memory);
        }
        Err(_) => return Err(CliError::Usage),
    };
    let mut words = Vec::new(rt.alloc());
    for word in args.skip(1) {
        words.push(word).map_err(|_| CliError::Memory)?;
    }
    Ok(words)
}
