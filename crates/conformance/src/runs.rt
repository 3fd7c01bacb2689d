//! Runs and streams over lines, each way: at once and by parts, over the sample and over its text.
use crate::fault::Fault;
use crate::texts::written;
use crate::world::World;
use icu_locale_lines::{
    Asked, CliError, Command, SAMPLE, SAMPLE_SUPPLEMENT, Source, Status, Words, run, run_json,
    stream, stream_asked, stream_words, whole_sample,
};
use icu_tables::Tables;
use std::alloc::{AllocError, Global};
use tests_shared::fakes::PartReader;

/// What a run of the words before a bar does over the lines behind it: 0, 1 or the words of the refusal, and what was
/// written. A run and streams have to do the same, over the sample and over its text.
pub fn run_of(alloc: Global, world: &World, row: &[u8]) -> Result<String, Fault> {
    let (words, input) = parted(row);
    let words = words_of(alloc, words)?;
    match Command::from_words(alloc, &words) {
        Ok((command, true)) => over(alloc, None, &command, input),
        Ok((command, false)) => over_both(alloc, &world.sample, &command, input),
        Err(refusal) => written(alloc, &refusal),
    }
}

/// What a stream does, over the sample with its supplement, over their texts, and by a run of the same command. A line
/// `sample` at the beginning stands for the sample's text.
pub fn stream_of(alloc: Global, row: &[u8]) -> Result<String, Fault> {
    let (words, input) = parted(row);
    let words = words_of(alloc, words)?;
    if let Some(behind) = input.strip_prefix(b"sample\n") {
        let input = behind_texts(alloc, &[SAMPLE], behind)?;
        return stream_by_words(alloc, &words, PartReader::new(&input, 4096, false));
    }
    let answer = by_words(alloc, &words, input)?;
    match Asked::from_words(alloc, Words::new(&words)) {
        Some(
            Asked {
                longest: None,
                command,
                source: Source::Sample,
            },
        ) => compared(alloc, answer, (words, command), input),
        _ => Ok(answer),
    }
}

fn compared(
    alloc: Global,
    answer: String,
    (mut words, command): (Vec<String>, Command),
    input: &[u8],
) -> Result<String, Fault> {
    let Ok(tables) = whole_sample(alloc) else {
        return Err(Fault::Memory(AllocError));
    };
    if run_once(alloc, Some(&tables), &command, input)? != answer {
        return written(alloc, &"otherwise by a run");
    }
    for word in ["json", "supplement"] {
        words.push(String::from_str(alloc, word)?)?;
    }
    let text = behind_texts(alloc, &[SAMPLE, SAMPLE_SUPPLEMENT], input)?;
    if stream_by_words(alloc, &words, PartReader::new(&text, 4096, false))? != answer {
        return written(alloc, &"otherwise over the texts of the sample");
    }
    Ok(answer)
}

// Texts as lines, and what is behind them.
fn behind_texts(alloc: Global, texts: &[&str], input: &[u8]) -> Result<Vec<u8>, Fault> {
    let mut bytes = Vec::new(alloc);
    for text in texts {
        bytes.extend_from_slice(text.as_bytes())?;
        bytes.push(b'\n')?;
    }
    bytes.extend_from_slice(input)?;
    Ok(bytes)
}

// A stream by its words, by parts; where lines are bounded, by smaller ones too.
fn by_words(alloc: Global, words: &[String], input: &[u8]) -> Result<String, Fault> {
    let answer = stream_by_words(alloc, words, PartReader::new(input, 0, false))?;
    let is_bounded = words.first().is_some_and(|word| word.as_str() == "longest");
    let parts: &[usize] = if is_bounded {
        &[1, 2, 3, 4096]
    } else {
        &[1, 4096]
    };
    for at_once in parts {
        let at_once = *at_once;
        if stream_by_words(alloc, words, PartReader::new(input, at_once, false))? != answer {
            return Ok(format!(in alloc; "otherwise by parts of {at_once}")?);
        }
    }
    Ok(answer)
}

fn stream_by_words(
    alloc: Global,
    words: &[String],
    mut reader: PartReader<'_>,
) -> Result<String, Fault> {
    let mut output = Vec::new(alloc);
    let ended = stream_words(alloc, words, &mut reader, &mut output);
    told(alloc, ended, &output)
}

// What comes before a bar and the space round it, and what comes after.
fn parted(row: &[u8]) -> (&[u8], &[u8]) {
    match row.iter().position(|byte| *byte == b'|') {
        Some(place) => (
            row.get(..place).unwrap_or(row),
            row.get(place.saturating_add(2)..).unwrap_or(&[]),
        ),
        None => (row, &[]),
    }
}

fn words_of(alloc: Global, words: &[u8]) -> Result<Vec<String>, Fault> {
    let Ok(words) = str::from_utf8(words) else {
        return Err(Fault::Row);
    };
    let mut list = Vec::new(alloc);
    for word in words.split_whitespace() {
        list.push(String::from_str(alloc, word)?)?;
    }
    Ok(list)
}

// Over the sample, and over its text.
fn over_both(
    alloc: Global,
    sample: &Tables,
    command: &Command,
    input: &[u8],
) -> Result<String, Fault> {
    let answer = over(alloc, Some(sample), command, input)?;
    let text = behind_texts(alloc, &[SAMPLE], input)?;
    if run_once(alloc, None, command, &text)? == answer {
        Ok(answer)
    } else {
        written(alloc, &"otherwise over the text of the sample")
    }
}

// How many bytes come at a time; 0 for a line.
const PARTS: [usize; 4] = [0, 1, 7, 4096];

fn over(
    alloc: Global,
    tables: Option<&Tables>,
    command: &Command,
    input: &[u8],
) -> Result<String, Fault> {
    let answer = run_once(alloc, tables, command, input)?;
    for at_once in PARTS {
        if stream_once(
            alloc,
            tables,
            command,
            PartReader::new(input, at_once, false),
        )? != answer
        {
            return Ok(format!(in alloc; "otherwise by parts of {at_once}")?);
        }
    }
    Ok(answer)
}

fn run_once(
    alloc: Global,
    tables: Option<&Tables>,
    command: &Command,
    mut input: &[u8],
) -> Result<String, Fault> {
    let mut output = Vec::new(alloc);
    let ended = match tables {
        Some(tables) => run(alloc, command, tables, &mut input, &mut output),
        None => run_json(alloc, command, &mut input, &mut output),
    };
    told(alloc, ended, &output)
}

fn stream_once(
    alloc: Global,
    tables: Option<&Tables>,
    command: &Command,
    mut reader: PartReader<'_>,
) -> Result<String, Fault> {
    let mut output = Vec::new(alloc);
    let ended = match tables {
        Some(tables) => stream(alloc, command, tables, None, &mut reader, &mut output),
        None => stream_asked(alloc, &by_json(command), &mut reader, &mut output),
    };
    told(alloc, ended, &output)
}

// The command over the tables of the first line.
fn by_json(command: &Command) -> Asked {
    Asked {
        longest: None,
        command: *command,
        source: Source::Json,
    }
}

// How it ended, and what was written, where that is something.
fn told(alloc: Global, ended: Result<Status, CliError>, output: &[u8]) -> Result<String, Fault> {
    let mut text = match ended {
        Ok(Status::Accepted) => written(alloc, &"0")?,
        Ok(Status::Refused) => written(alloc, &"1")?,
        Err(refusal) => written(alloc, &refusal)?,
    };
    let Ok(output) = str::from_utf8(output) else {
        return Err(Fault::Row);
    };
    if !output.is_empty() {
        text.push_str(" | ")?;
        escape(&mut text, output)?;
    }
    Ok(text)
}

fn escape(text: &mut String, output: &str) -> Result<(), Fault> {
    for character in output.chars() {
        match character {
            '\n' => text.push_str("\\n")?,
            '\t' => text.push_str("\\t")?,
            _ => text.push(character)?,
        }
    }
    Ok(())
}
