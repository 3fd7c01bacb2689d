//! Locale identifiers as they come: each line of the input is answered before more is read.
#![tactic(auto)]

use icu_locale_lines::{Asked, CliError, Source, Status, Words, program_words, stream_asked};
use std::alloc::Global;
use std::cell::Cell;
use std::io;
use std::io::Write;
use std::process::ExitCode;

// What `--help` writes.
const HELP: &str = "\
usage: icu_locale_stream [longest N] [threshold N] [demotion N] [favor-script] [or-first]
                         [places] [locales | bcp47 | posix] COMMAND [json [supplement]]
       icu_locale_stream -h | --help | --version

Answers each line of standard input before it reads more. With json, the first line holds the tables, and with json
supplement the second their supplement; without json both are a small sample.

  locales                  lines hold locale identifiers with extensions, which are written with the answer
  bcp47                    the same, and root, and tags as browsers send them: i-klingon, zh-cmn-Hans, x-private
  posix                    the same, and root, and names of POSIX locales: en_US.UTF-8, sr_RS@latin, C
  longest N                the first line longer than N bytes ends the run as a failed read does
  threshold N              before serve, nearest, resolved: what is served has a distance below N; without it below 50
  demotion N               the same: each request after the first counts N more; without it 5
  favor-script             the same: a difference of languages counts a quarter, so that scripts weigh more
  or-first                 the same: the first that is available is served where nothing else is
  places                   before locales: a refused line tells the place of its fault: ?, name, first byte, byte after

  maximize                 the maximal form of each identifier
  minimize                 the minimal form, with the region kept before the script
  minimize-script          the minimal form, with the script kept before the region
  canonicalize             the canonical form
  direction                which way the likely script runs: ltr, rtl or none
  negotiate                what is served for each line of requests; the first line lists what is available
  name CHAIN PREFERENCES   what each identifier is called, as in: name light en
  fallback                 the chain of identifiers that are asked after each one, up to und
  serve                    what is served for each header Accept-Language; the first line lists what is available
  nearest                  the nearest available identifier for each line of requests; the first line lists them
  resolved                 the same, as the locale that formats for the reader: with the request's region and extensions
  distance                 how far the second identifier of a line is from the first
  parts                    each part of a locale in a place of its own, a tab between two places
  key                      the key of each locale in a store: locales that mean the same have one
  identifier-key           the same, of the identifier alone
  validate                 valid, or each part of a locale that is not: kind, part, status, first byte, byte after
  language-name CHAIN PREFERENCES  what each language is called
  script-name CHAIN PREFERENCES    the same of scripts
  region-name CHAIN PREFERENCES    the same of regions, as in: region-name short-light de
  variant-name CHAIN PREFERENCES   the same of variants
  exemplars SET PREFERENCES        whether each text is among characters of a language, as in: exemplars main de
  list KIND PREFERENCES            the subtags that have a name and begin with each line, as in: list regions de
  settled                  whether the tables are settled: yes or no

CHAIN is tiny, light, short-light, long-light, menu-light, short-menu-light, heavy, short-heavy, long-heavy, menu-heavy
or short-menu-heavy. That of a script is tiny, light, heavy or short-heavy, that of a region tiny, short-tiny, light or
short-light, and that of a variant heavy. SET is main, auxiliary, punctuation, numbers or index. KIND is languages,
scripts, regions or variants. A line ends with a line feed alone: a carriage return or a byte order mark is a part of
its line.
The status is 0 where each line was accepted, 1 where one was refused, 2 where the run was, and 141 where its reader has
gone.
";

// What standard error says of words that are no command.
const USAGE: &str =
    "usage: icu_locale_stream [longest N] [threshold N] [demotion N] [favor-script] [or-first] \
    [places] [locales | bcp47 | posix] COMMAND [json [supplement]]";

// What standard error says where the answers are those of the sample.
const OVER_SAMPLE: &str =
    "icu_locale_stream: answers come from a sample of a few rows; with json the first line holds the tables";

// What `--version` writes.
const VERSION: &str = "icu_locale_stream 0.4.0\n";

// The status of a run whose reader has gone: what a shell says of a program that is ended for it.
const NO_READER: u8 = 141;

fn main(rt: HostRuntime) -> ExitCode {
    let is_closed = Cell::new(false);
    match start(&rt, &is_closed) {
        Ok(Status::Accepted) => ExitCode::SUCCESS,
        Ok(Status::Refused) => ExitCode::from(1),
        Err(CliError::Write) if is_closed.get() => ExitCode::from(NO_READER),
        Err(CliError::Usage) => {
            let _ = rt.eprintln(USAGE);
            ExitCode::from(2)
        }
        Err(refusal) => {
            let _ = rt.eprintln(refusal);
            ExitCode::from(2)
        }
    }
}

// A writer that notes whether its reader has gone.
#[derive(Drop)]
struct Noting<'a, W> {
    writer: W,
    is_closed: &'a Cell<bool>,
}

impl<W: Write> Write for Noting<'_, W> {
    ghost contents = { λ n. W.contents n.writer };

    fn write(&mut self, bytes: &[u8]) -> io::Result<usize> {
        let written = self.writer.write(bytes);
        if let Err(refusal) = &written {
            if refusal.kind() == io::ErrorKind::BrokenPipe {
                self.is_closed.set(true);
            }
        }
        written
    }

    fn flush(&mut self) -> io::Result<()> {
        self.writer.flush()
    }
}

fn start(rt: &HostRuntime, is_closed: &Cell<bool>) -> Result<Status, CliError> {
    let words = program_words(rt)?;
    match asked_text(&words) {
        Some(text) => match rt.print(text) {
            Ok(()) => Ok(Status::Accepted),
            Err(_) => Err(CliError::Write),
        },
        None => {
            let Some(asked) = Asked::from_words(rt.alloc(), Words::new(&words)) else {
                return Err(CliError::Usage);
            };
            if asked.source == Source::Sample {
                let _ = rt.eprintln(OVER_SAMPLE);
            }
            let mut writer = Noting {
                writer: io::writer(rt),
                is_closed,
            };
            stream_asked(rt.alloc(), &asked, &mut rt.reader(), &mut writer)
        }
    }
}

// The text that the words ask for, if that is all they ask.
fn asked_text(words: &[String]) -> Option<&'static str> {
    match words {
        [word] if word.as_str() == "--help" || word.as_str() == "-h" => Some(HELP),
        [word] if word.as_str() == "--version" => Some(VERSION),
        _ => None,
    }
}
