//! A run or a stream of words: by what parts its input comes, what fails, and what is wanted of it.
use icu_locale_lines::{CliError, Command, Status, run, run_words, stream, stream_words};
use icu_tables::Tables;
use std::alloc::Global;
use std::io;
use std::io::{Read, Write};
use std::process::Abort;
use tests_shared::fakes::PartReader;
use tests_shared::known::{text, words};

/// What is asked, and how it has to end.
#[derive(Clone, Copy)]
pub struct Case<'c> {
    /// A stream, or a run.
    pub is_stream: bool,
    /// The tables; none for those that the words say.
    pub tables: Option<&'c Tables>,
    pub words: &'c str,
    pub input: &'c [u8],
    /// How many bytes come at a time; 0 for a line.
    pub at_once: usize,
    /// Whether the read after the input fails.
    pub fails: bool,
    pub sink: Sink,
    pub output: &'c [u8],
    /// 0, 1 or the words of the refusal.
    pub status: &'c str,
}

/// What a writer takes: so many bytes at once, and so many in all. Then it takes no more, or fails. Its flush fails then
/// too, or after so many.
#[derive(Clone, Copy)]
pub struct Sink {
    pub at_once: usize,
    pub room: usize,
    pub fails: bool,
    pub flushes: usize,
}

/// A writer that takes all.
pub const ALL: Sink = Sink {
    at_once: 1 << 24,
    room: 1 << 24,
    fails: false,
    flushes: 1 << 24,
};

/// What a case writes to.
#[derive(Drop)]
pub struct SinkWriter {
    bytes: Vec<u8>,
    sink: Sink,
}

impl SinkWriter {
    // Whether a flush fails now.
    fn state(&self) -> io::Result<()> {
        if self.sink.flushes == 0 || (self.sink.fails && self.sink.room == 0) {
            return Err(io::Error::from(io::ErrorKind::Other));
        }
        Ok(())
    }
}

impl Write for SinkWriter {
    fn write(&mut self, buf: &[u8]) -> io::Result<usize> {
        if self.sink.fails && self.sink.room == 0 {
            return Err(io::Error::from(io::ErrorKind::Other));
        }
        let count = buf.len().min(self.sink.at_once).min(self.sink.room);
        let (first, _) = buf.split_at(count);
        self.bytes.extend_from_slice(first)?;
        self.sink.room = self.sink.room.saturating_sub(count);
        Ok(count)
    }

    fn flush(&mut self) -> io::Result<()> {
        self.state()?;
        self.sink.flushes = self.sink.flushes.saturating_sub(1);
        Ok(())
    }
}

/// The status of a run, or the words of its refusal.
pub fn told(rt: &impl Abort, alloc: Global, ended: Result<Status, CliError>) -> String {
    match ended {
        Ok(Status::Accepted) => text(alloc, &"0").expect(rt, "text"),
        Ok(Status::Refused) => text(alloc, &"1").expect(rt, "text"),
        Err(refusal) => text(alloc, &refusal).expect(rt, "text"),
    }
}

fn ended<R: Read, W: Write>(
    rt: &impl Abort,
    alloc: Global,
    case: &Case<'_>,
    reader: &mut R,
    writer: &mut W,
) -> Result<Status, CliError> {
    let asked = words(alloc, case.words).expect(rt, "words");
    match case.tables {
        Some(tables) => {
            let (command, _) = Command::from_words(alloc, &asked).expect(rt, "a command");
            if case.is_stream {
                return stream(alloc, &command, tables, None, reader, writer);
            }
            run(alloc, &command, tables, reader, writer)
        }
        None if case.is_stream => stream_words(alloc, &asked, reader, writer),
        None => run_words(alloc, &asked, reader, writer),
    }
}

/// A case has to end so, and to write this. How often its input was read is the answer.
pub fn ends(rt: &impl Abort, alloc: Global, case: &Case<'_>) -> usize {
    let mut reader = PartReader::new(case.input, case.at_once, case.fails);
    let mut writer = SinkWriter {
        bytes: Vec::new(alloc),
        sink: case.sink,
    };
    let ended = ended(rt, alloc, case, &mut reader, &mut writer);
    let words = case.words;
    assert_eq!(rt; told(rt, alloc, ended).as_str(), case.status, "at {words}");
    assert_eq!(rt; writer.bytes.as_slice(), case.output, "at {words}");
    reader.reads
}
