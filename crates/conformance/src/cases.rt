//! The rows of the input.
//!
//! A row is `CALL INPUT -> ANSWER`. Empty lines and lines that begin with `#` say nothing to the program. A line
//! `sample JSON` sets the sample tables, and `tables JSON` the tables of the rows that follow: what they do not hold is
//! the sample's. A line `supplement JSON` sets their supplement. In the input of a row `\xHH` is a byte, `\n` a line
//! feed, and `\t` a tab.
use crate::calls::{answer, named};
use crate::fault::Fault;
use crate::world::World;
use icu_tables::{Supplement, Tables};
use std::alloc::Global;
use std::process::ExitCode;

/// What rows give.
#[derive(Drop)]
pub struct Report {
    /// Each difference, and at last how many rows there are.
    pub text: String,
    rows: u64,
    wrong: u64,
}

impl Report {
    fn new(alloc: Global) -> Report {
        Report {
            text: String::new(alloc),
            rows: 0,
            wrong: 0,
        }
    }

    /// 0 where each row gives what is wanted of it, and 3 where some row is wrong. (A fault has a status of its own, 1.)
    pub fn status(&self) -> ExitCode {
        if self.wrong == 0 {
            ExitCode::SUCCESS
        } else {
            ExitCode::from(3)
        }
    }
}

/// What the rows of a text give.
pub fn run_all(alloc: Global, text: &str) -> Result<Report, Fault> {
    let mut world = World::new(alloc);
    let mut report = Report::new(alloc);
    run_lines(alloc, &mut world, text, &mut report)?;
    let rows = report.rows;
    write!(report.text, "{rows} rows\n")?;
    Ok(report)
}

fn run_lines(
    alloc: Global,
    world: &mut World,
    text: &str,
    report: &mut Report,
) -> Result<(), Fault> {
    for line in text.lines() {
        run_line(alloc, world, line, report)?;
    }
    Ok(())
}

// A line that is a row is run and counted.
fn run_line(
    alloc: Global,
    world: &mut World,
    line: &str,
    report: &mut Report,
) -> Result<(), Fault> {
    if line.is_empty() || line.starts_with('#') {
        return Ok(());
    }
    if let Some(json) = line.strip_prefix("sample ") {
        world.sample = Tables::from_json(alloc, json.as_bytes())?;
        return Ok(());
    }
    if let Some(json) = line.strip_prefix("tables ") {
        world.own = Tables::from_json(alloc, json.as_bytes())?;
        return Ok(());
    }
    if let Some(json) = line.strip_prefix("supplement ") {
        let supplement = Supplement::from_json(alloc, json.as_bytes())?;
        world.own.set_supplement(supplement);
        return Ok(());
    }
    report.rows = report.rows.saturating_add(1);
    if !is_right(alloc, world, line, &mut report.text)? {
        report.wrong = report.wrong.saturating_add(1);
    }
    Ok(())
}

// Whether a row gives what is wanted of it. What differs is appended to the text.
fn is_right(alloc: Global, world: &World, line: &str, text: &mut String) -> Result<bool, Fault> {
    let Some((row, wanted)) = line.split_once(" -> ") else {
        write!(text, "no row: {line}\n")?;
        return Ok(false);
    };
    let (name, input) = row.split_once(' ').unwrap_or((row, ""));
    let given = one_answer(alloc, world, name, input);
    judged((row, wanted), &given, text)
}

// Whether an answer is the one that is wanted.
fn judged(
    (row, wanted): (&str, &str),
    given: &Result<String, Fault>,
    text: &mut String,
) -> Result<bool, Fault> {
    match given {
        Ok(given) if given.as_str() == wanted => return Ok(true),
        Ok(given) => write!(text, "{row} gives {given}, and not {wanted}\n")?,
        Err(fault) => write!(text, "{row} is not run: {fault:?}\n")?,
    }
    Ok(false)
}

fn one_answer(alloc: Global, world: &World, name: &str, input: &str) -> Result<String, Fault> {
    let call = named(name).ok_or(Fault::Row)?;
    let input = unescaped(alloc, input)?;
    answer(alloc, world, call, &input)
}

// The bytes of an input.
fn unescaped(alloc: Global, input: &str) -> Result<Vec<u8>, Fault> {
    let mut bytes = Vec::new(alloc);
    let mut parts = input.split('\\');
    bytes.extend_from_slice(parts.next().unwrap_or("").as_bytes())?;
    for part in parts {
        unescape(&mut bytes, part)?;
    }
    Ok(bytes)
}

// What follows a backslash.
fn unescape(bytes: &mut Vec<u8>, part: &str) -> Result<(), Fault> {
    if let Some(rest) = part.strip_prefix('n') {
        return put(bytes, b'\n', rest);
    }
    if let Some(rest) = part.strip_prefix('t') {
        return put(bytes, b'\t', rest);
    }
    let Some((byte, rest)) = part.split_at_checked(3) else {
        return Err(Fault::Row);
    };
    let Some(digits) = byte.strip_prefix('x') else {
        return Err(Fault::Row);
    };
    put(
        bytes,
        u8::from_str_radix(digits, 16).ok().ok_or(Fault::Row)?,
        rest,
    )
}

fn put(bytes: &mut Vec<u8>, byte: u8, rest: &str) -> Result<(), Fault> {
    bytes.push(byte)?;
    Ok(bytes.extend_from_slice(rest.as_bytes())?)
}
