//! Runs and streams whose readers and writers are slow, full or fail, as rows.
use crate::case::{ALL, Case, Sink, ends};
use icu_locale_lines::SAMPLE;
use std::alloc::Global;
use std::process::Abort;
use tests_shared::known::sample;

const RUN: Case<'_> = Case {
    is_stream: false,
    tables: None,
    words: "",
    input: b"",
    at_once: 1,
    fails: false,
    sink: ALL,
    output: b"",
    status: "0",
};

// Words, an input, what is written, and how it ends.
type Row = (&'static str, &'static str, &'static str, &'static str);

// Runs over the sample.
const RUNS: [Row; 8] = [
    (
        "maximize",
        "zh-CN\nde\n",
        "zh-Hans-CN\tM\nde-Latn-DE\tM\n",
        "0",
    ),
    (
        "minimize",
        "zh-Hans-CN\n\n",
        "zh\tM\n?\tInvalidLanguage\n",
        "1",
    ),
    ("minimize-script", "zh-TW\n", "zh-Hant\tM\n", "0"),
    (
        "canonicalize",
        "sh\tabcdefg\nja\n",
        "sr-Latn\txyz\tM\nja\tU\n",
        "0",
    ),
    ("direction", "ar\nen\n", "rtl\nltr\n", "0"),
    (
        "negotiate",
        "en-US zh-Hant\nfr zh-TW\n",
        "1\tzh-Hant\n",
        "0",
    ),
    ("name light en", "it\n", "Italian\tN\n", "0"),
    ("settled", "en\n", "yes\n", "0"),
];

// A read fails after every byte, and nothing is written. (Without tables to read, `settled` reads nothing.)
fn fails_at_reads<'x>(rt: &impl Abort, alloc: Global, words: &'x str, input: &'x str) {
    for count in 0..=input.len() {
        let case = Case {
            words,
            input: &input.as_bytes()[..count],
            fails: true,
            status: "read failed",
            ..RUN
        };
        let _ = ends(rt, alloc, &case);
    }
}

// A writer that takes so many bytes at once and so many in all, and then no more, or fails.
fn writes_to<'x>(
    rt: &impl Abort,
    alloc: Global,
    (words, input): (&'x str, &'x str),
    sink: Sink,
    (output, status): (&'x [u8], &'x str),
) {
    let case = Case {
        words,
        input: input.as_bytes(),
        at_once: 4096,
        sink,
        output,
        status,
        ..RUN
    };
    let _ = ends(rt, alloc, &case);
}

// A writer that takes a byte at a time takes all; one that is full, or fails, takes what it can.
fn fails_at_writes<'x>(
    rt: &impl Abort,
    alloc: Global,
    call: (&'x str, &'x str),
    (output, status): (&'x str, &'x str),
) {
    let whole = output.as_bytes();
    let slow = Sink { at_once: 1, ..ALL };
    writes_to(rt, alloc, call, slow, (whole, status));
    for room in 0..whole.len() {
        for fails in [false, true] {
            let full = Sink {
                at_once: 7,
                room,
                fails,
                ..ALL
            };
            writes_to(rt, alloc, call, full, (&whole[..room], "write failed"));
        }
    }
}

// The same over the tables of the first line.
fn fails_over_text(rt: &impl Abort, alloc: Global, row: Row) {
    let (words, input, output, status) = row;
    let words = format!(in alloc; "{words} json").expect(rt, "memory");
    fails_at_reads(rt, alloc, words.as_str(), input);
    let input = format!(in alloc; "{SAMPLE}\n{input}").expect(rt, "memory");
    let call = (words.as_str(), input.as_str());
    fails_at_writes(rt, alloc, call, (output, status));
}

#[test]
fn runs_with_faults(rt: HostRuntime) {
    let alloc = rt.alloc();
    for row in RUNS {
        let (words, input, output, status) = row;
        if words != "settled" {
            fails_at_reads(&rt, alloc, words, input);
        }
        fails_at_writes(&rt, alloc, (words, input), (output, status));
        fails_over_text(&rt, alloc, row);
    }
}

// Runs that are refused before a line is answered.
const REFUSED: [Row; 5] = [
    ("maximize json", "{\n", "", "tables: Json"),
    ("maximize json", "{\"colour\":1}\n", "", "tables: Shape"),
    ("maximize json", "{}\nen\n", "", "data: IdentifierNotFound"),
    ("negotiate", "en-\nen\n", "", "available: InvalidSubtag"),
    (
        "negotiate json",
        "{\"likely_language\":{\"und\":[\"en\",\"Latn\",\"US\"],\
        \"language\":{\"xx\":[\"Zzzz\",\"DE\"]}},\"likely_script_region\":{}}\nen\nen\n",
        "",
        "tables not settled",
    ),
];

#[test]
fn runs_that_are_refused(rt: HostRuntime) {
    for (words, input, output, status) in REFUSED {
        let case = Case {
            words,
            input: input.as_bytes(),
            output: output.as_bytes(),
            status,
            ..RUN
        };
        let _ = ends(&rt, rt.alloc(), &case);
    }
}

const STREAM: Case<'_> = Case {
    is_stream: true,
    ..RUN
};

// Streams, of which every read after the input fails. A line is answered if it came whole; a first line that did not is
// never answered. Tables are loaded when theirs has come.
const READS: [Row; 14] = [
    ("maximize", "", "", "read failed"),
    ("maximize", "en", "", "read failed"),
    ("maximize", "zh-CN\nde", "zh-Hans-CN\tM\n", "read failed"),
    (
        "maximize",
        "\n\nx\nen",
        "?\tInvalidLanguage\n?\tInvalidLanguage\n?\tInvalidLanguage\n",
        "read failed",
    ),
    (
        "maximize",
        "en\nx\n",
        "en-Latn-US\tM\n?\tInvalidLanguage\n",
        "read failed",
    ),
    ("negotiate", "{", "", "read failed"),
    ("maximize json", "{", "", "read failed"),
    ("negotiate json", "{", "", "read failed"),
    ("settled json", "{", "", "read failed"),
    ("maximize json", "{}\n", "", "data: IdentifierNotFound"),
    ("negotiate json", "{}\n", "", "data: IdentifierNotFound"),
    ("settled json", "{}\n", "", "data: IdentifierNotFound"),
    ("settled json", "{\"colour\":1}\n", "", "tables: Shape"),
    (
        "settled json",
        "{\"likely_language\":{\"und\":[\"en\",\"Latn\",\"US\"]},\"likely_script_region\":{}}\n",
        "yes\n",
        "0",
    ),
];

#[test]
fn streams_with_faults_of_reads(rt: HostRuntime) {
    for (words, input, output, status) in READS {
        for at_once in [0, 1, 2, 3, 4, 5, 4096] {
            let case = Case {
                words,
                input: input.as_bytes(),
                at_once,
                fails: true,
                output: output.as_bytes(),
                status,
                ..STREAM
            };
            let _ = ends(&rt, rt.alloc(), &case);
        }
    }
}

// Over tables that are lent, the read behind the second line fails, and a write of the first.
#[test]
fn streams_with_faults_over_lent_tables(rt: HostRuntime) {
    let alloc = rt.alloc();
    let tables = sample(alloc).expect(&rt, "sample");
    let read = Case {
        tables: Some(&tables),
        words: "maximize",
        input: b"zh-CN\nde\n",
        fails: true,
        output: b"zh-Hans-CN\tM\nde-Latn-DE\tM\n",
        status: "read failed",
        ..STREAM
    };
    let _ = ends(&rt, alloc, &read);
    let written = Case {
        tables: Some(&tables),
        words: "maximize",
        input: b"zh-CN\nde\n",
        sink: Sink { room: 5, ..ALL },
        output: b"zh-Ha",
        status: "write failed",
        ..STREAM
    };
    let _ = ends(&rt, alloc, &written);
}

// An input that comes line by line, whether the read after it fails, after how many flushes one fails, what is written,
// and how it ends. The output is flushed before each read.
const FLUSHES: [(&str, bool, usize, &str, &str); 5] = [
    ("zh-CN\nde\n", false, 0, "", "write failed"),
    ("zh-CN\nde\n", false, 1, "zh-Hans-CN\tM\n", "write failed"),
    (
        "zh-CN\nde\n",
        false,
        2,
        "zh-Hans-CN\tM\nde-Latn-DE\tM\n",
        "write failed",
    ),
    ("zh-CN", true, 1, "", "write failed"),
    ("zh-CN", true, 2, "", "read failed"),
];

#[test]
fn streams_with_faults_of_flushes(rt: HostRuntime) {
    for (input, fails, flushes, output, status) in FLUSHES {
        let case = Case {
            words: "maximize",
            input: input.as_bytes(),
            at_once: 0,
            fails,
            sink: Sink { flushes, ..ALL },
            output: output.as_bytes(),
            status,
            ..STREAM
        };
        let _ = ends(&rt, rt.alloc(), &case);
    }
}

// A writer that takes one byte at a time, until it takes no more.
#[test]
fn streams_with_faults_of_writes(rt: HostRuntime) {
    let whole = b"zh-Hans-CN\tM\nde-Latn-DE\tM\n";
    for room in 0..30 {
        let is_whole = room >= whole.len();
        let case = Case {
            words: "maximize",
            input: b"zh-CN\nde\n",
            at_once: 6,
            sink: Sink {
                at_once: 1,
                room,
                ..ALL
            },
            output: &whole[..room.min(whole.len())],
            status: if is_whole { "0" } else { "write failed" },
            ..STREAM
        };
        let _ = ends(&rt, rt.alloc(), &case);
    }
}
