//! Runs and streams of the programs: whole lines alone are written.
use crate::budget::{Answered, Call, at_budget, stands};
use icu_locale_lines::{
    Asked, CliError, Command, Form, LineCommand, SAMPLE, Source, Status, Task, run, run_by,
    run_json, stream, stream_asked, stream_words,
};
use icu_tables::Tables;
use std::alloc::Global;
use std::process::Abort;
use tests_shared::fakes::{HeldWriter, PartReader};
use tests_shared::known::{sample, words};

// Commands, inputs, and what is written where there is memory.
const RUNS: [(Command, &str, &str); 4] = [
    (
        Command::Lines(LineCommand {
            syntax: None,
            places: false,
            task: Task::Form(Form::Maximize),
        }),
        "zh-CN\nEN_us\n\n",
        "zh-Hans-CN\tM\nen-Latn-US\tM\n?\tInvalidLanguage\n",
    ),
    (
        Command::Lines(LineCommand {
            syntax: None,
            places: false,
            task: Task::Form(Form::Maximize),
        }),
        "zh-CN\nEN_us-posix\n\n",
        "zh-Hans-CN\tM\nen-Latn-US-posix\tM\n?\tInvalidLanguage\n",
    ),
    (
        Command::Lines(LineCommand {
            syntax: None,
            places: false,
            task: Task::Canonicalize,
        }),
        "sh-posix\tabcdefg\nja\nja\tab\n",
        "sr-Latn-posix\txyz\tM\nja\tU\n?\tInvalidSubtag\n",
    ),
    (
        Command::Lines(LineCommand {
            syntax: None,
            places: false,
            task: Task::Negotiate,
        }),
        "en-US-posix zh-Hant yue-CN\nfr zh-TW\nen-1abc en-posix\ne\n",
        "1\tzh-Hant\n1\ten-US-posix\n?\tInvalidLanguage\n",
    ),
];

// How a run ended: whole, or with whole lines alone.
fn ended(ended: Result<Status, CliError>, writer: &HeldWriter, answers: &str) -> Answered {
    let written = writer.written();
    let whole_lines = written.last().copied().unwrap_or(b'\n') == b'\n';
    match ended {
        Ok(Status::Refused) if written == answers.as_bytes() => Answered::Whole,
        Err(CliError::Memory) if whole_lines && answers.as_bytes().starts_with(written) => {
            Answered::Refused
        }
        _ => Answered::Wrong,
    }
}

// A row by one of the calls that answer it.
#[derive(Drop)]
struct Answering<'r> {
    tables: &'r Tables,
    row: &'r (Command, &'r str, &'r str),
    // The tables and the input; nothing where the tables are lent.
    text: &'r str,
    // How many bytes come at a time to a stream; 0 for a run.
    at_once: usize,
}

impl Call for Answering<'_> {
    fn answer(&self, alloc: Global) -> Answered {
        let (command, input, answers) = self.row;
        let mut writer = HeldWriter::new(128);
        let status = match (self.at_once, self.text.is_empty()) {
            (0, true) => run(
                alloc,
                command,
                self.tables,
                &mut input.as_bytes(),
                &mut writer,
            ),
            (0, false) => run_json(alloc, command, &mut self.text.as_bytes(), &mut writer),
            (_, true) => {
                let mut reader = PartReader::new(input.as_bytes(), self.at_once, false);
                stream(alloc, command, self.tables, None, &mut reader, &mut writer)
            }
            (_, false) => {
                let mut reader = PartReader::new(self.text.as_bytes(), self.at_once, false);
                let asked = Asked {
                    longest: None,
                    command: *command,
                    source: Source::Json,
                };
                stream_asked(alloc, &asked, &mut reader, &mut writer)
            }
        };
        ended(status, &writer, answers)
    }
}

// Each row over tables that are lent, by so many bytes at a time.
fn over_lent(rt: &impl Abort, alloc: Global, tables: &Tables, at_once: usize) {
    for row in &RUNS {
        let text = "";
        let call = Answering {
            tables,
            row,
            text,
            at_once,
        };
        stands(rt, alloc, &call);
    }
}

// Each row over the tables of its first line.
fn over_text(rt: &impl Abort, alloc: Global, tables: &Tables, at_once: usize) {
    for row in &RUNS {
        let text = format!(in alloc; "{SAMPLE}\n{}", row.1).expect(rt, "memory");
        let text = text.as_str();
        let call = Answering {
            tables,
            row,
            text,
            at_once,
        };
        stands(rt, alloc, &call);
    }
}

#[test]
fn a_run_writes_whole_lines(rt: HostRuntime) {
    let alloc = rt.alloc();
    let tables = sample(alloc).expect(&rt, "sample");
    over_lent(&rt, alloc, &tables, 0);
    over_text(&rt, alloc, &tables, 0);
}

#[test]
fn a_stream_writes_whole_lines(rt: HostRuntime) {
    let alloc = rt.alloc();
    let tables = sample(alloc).expect(&rt, "sample");
    over_lent(&rt, alloc, &tables, 7);
    over_lent(&rt, alloc, &tables, 4096);
    over_text(&rt, alloc, &tables, 4096);
}

// A run of whose lines the last takes more memory than anything before it.
#[derive(Drop)]
struct WholeRun<'r> {
    input: &'r str,
}

const FIRST: &str = "en-Latn-US\tM\n";

const BOTH: &str = "en-Latn-US\tM\n?\tInvalidSubtag\n";

impl Call for WholeRun<'_> {
    // Where the last line finds no memory, the one before is written out.
    fn answer(&self, alloc: Global) -> Answered {
        let mut writer = HeldWriter::new(128);
        let mut reader = self.input.as_bytes();
        let ended = run_by(
            alloc,
            &Command::Lines(LineCommand::plain(Task::Form(Form::Maximize))),
            true,
            &mut reader,
            &mut writer,
        );
        written_out(ended, &writer)
    }
}

fn written_out(ended: Result<Status, CliError>, writer: &HeldWriter) -> Answered {
    match ended {
        Ok(Status::Refused) if writer.written() == BOTH.as_bytes() => Answered::Whole,
        Err(CliError::Memory) if writer.written() == FIRST.as_bytes() => Answered::Partly,
        Err(CliError::Memory) if writer.written().is_empty() => Answered::Refused,
        _ => Answered::Wrong,
    }
}

// Small tables and two lines, of which the last has variants, and at its end a piece that is none.
fn two_lines(rt: &impl Abort, alloc: Global) -> String {
    let mut text = String::from_str(
        alloc,
        "{\"likely_language\":{\"und\":[\"en\",\"Latn\",\"US\"],\"language\":{\"en\":[\"Latn\",\"US\"]}},\
        \"likely_script_region\":{}}\nen\nen",
    )
    .expect(rt, "memory");
    for variant in 1_000..2_500_u16 {
        write!(text, "-{variant}").expect(rt, "memory");
    }
    text.push_str("-x\n").expect(rt, "memory");
    text
}

// The same as a stream.
#[derive(Drop)]
struct WordsStream<'r> {
    words: &'r [String],
    input: &'r str,
}

impl Call for WordsStream<'_> {
    fn answer(&self, alloc: Global) -> Answered {
        let mut writer = HeldWriter::new(128);
        let mut reader = self.input.as_bytes();
        let ended = stream_words(alloc, self.words, &mut reader, &mut writer);
        written_out(ended, &writer)
    }
}

// At some budget all but the list of the last line's variants has room.
fn writes_whole_lines<C: Call>(rt: &impl Abort, alloc: Global, call: &C) {
    let mut partly = false;
    for size in 4..20_usize {
        let answered = at_budget(alloc, call, size.saturating_mul(4_096)).expect(rt, "memory");
        assert!(rt; answered != Answered::Wrong);
        partly = partly || answered == Answered::Partly;
    }
    assert!(rt; partly);
    assert!(rt; call.answer(alloc) == Answered::Whole);
}

#[test]
fn a_stream_that_ends_early_writes_out_its_lines(rt: HostRuntime) {
    let alloc = rt.alloc();
    let words = words(alloc, "maximize json").expect(&rt, "words");
    let input = two_lines(&rt, alloc);
    let call = WordsStream {
        words: &words,
        input: input.as_str(),
    };
    writes_whole_lines(&rt, alloc, &call);
}

#[test]
fn a_run_that_ends_early_writes_out_its_lines(rt: HostRuntime) {
    let alloc = rt.alloc();
    let input = two_lines(&rt, alloc);
    let call = WholeRun {
        input: input.as_str(),
    };
    writes_whole_lines(&rt, alloc, &call);
    assert!(rt; at_budget(alloc, &call, 16).expect(&rt, "memory") == Answered::Refused);
}

// Words of streams alone; lines of tables, and then of locales, subtags or texts; and what is written where there is
// memory.
const STREAMED: [(&str, &[u8], &str); 7] = [
    (
        "locales validate json supplement",
        b"{}\n{\"validity\":{\"language\":{\"regular\":\"en\"},\"keywords\":{\"ca\":\
        {\"types\":{\"regular\":\"islamic-civil\"}}}}}\n\
        en-u-ca-islamic-civil\nen-u-foo-ca-islamic-rgsa-a-b1-b2\nen-\n",
        "valid\nattribute foo unlisted 5 8\tkeyword ca-islamic-rgsa unlisted 9 24\t\
        extension a-b1-b2 unlisted 25 32\n?\tInvalidSubtag\n",
    ),
    (
        "places locales validate json supplement",
        b"{}\n{\"validity\":{\"language\":{\"regular\":\"en\"}}}\nen-1996\nen-1996-1996\n",
        "variant 1996 unlisted 3 7\n?\tInvalidSubtag\t8\t12\n",
    ),
    (
        "language-name menu-light en json",
        b"{\"menus\":{\"language/menu/medium/light\":{\"en\":{\"ku\":[\"Kurdish\",\"Kurmanji\"]}}},\
        \"essentials\":{\"en\":{\"pattern\":[0,\" (\",1,\")\"],\"separator\":[0,\", \",1]}}}\n\
        ku\nen-US\n",
        "Kurdish (Kurmanji)\tN\n?\tInvalidLanguage\n",
    ),
    (
        "script-name heavy en json",
        b"{\"names\":{\"script/medium/light\":{\"en\":{\"Latn\":\"Latin\"}}}}\nlatn\nHans\nen\n",
        "Latin\tN\nHans\tR\n?\tInvalidSubtag\n",
    ),
    (
        "region-name light en json",
        b"{\"names\":{\"region/medium/light\":{\"en\":{\"US\":\"United States\"}}}}\nus\nusa\n",
        "United States\tN\n?\tInvalidSubtag\n",
    ),
    (
        "variant-name heavy en json",
        b"{\"names\":{\"variant/medium/heavy\":{\"en\":{\"fonipa\":\"IPA\"}}}}\nfonipa\n1996\nen\n",
        "IPA\tN\n1996\tR\n?\tInvalidSubtag\n",
    ),
    (
        "exemplars main en json",
        b"{\"exemplars\":{\"main\":{\"en\":{\"ranges\":[97,123],\"strings\":[\"ng\"]}}}}\nng\nA\n\xff\n",
        "yes\nno\n?\tInvalidText\n",
    ),
];

// A stream that reads its tables, and answers.
#[derive(Drop)]
struct Streaming<'r> {
    words: &'r [String],
    input: &'r [u8],
    answers: &'r str,
}

impl Call for Streaming<'_> {
    fn answer(&self, alloc: Global) -> Answered {
        let mut writer = HeldWriter::new(128);
        let mut reader = self.input;
        let status = stream_words(alloc, self.words, &mut reader, &mut writer);
        ended(status, &writer, self.answers)
    }
}

#[test]
fn a_stream_that_reads_its_tables_writes_whole_lines(rt: HostRuntime) {
    let alloc = rt.alloc();
    for (words_of, input, answers) in STREAMED {
        let words = words(alloc, words_of).expect(&rt, words_of);
        let call = Streaming {
            words: &words,
            input,
            answers,
        };
        assert!(rt; call.answer(alloc) == Answered::Whole, "{words_of}");
        stands(&rt, alloc, &call);
    }
}
