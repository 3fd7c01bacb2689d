//! Runs and streams that are larger than rows: megabytes of tables and of lines, a thousand identifiers, names and lines of
//! thousands of bytes, and readers without an end.
use crate::case::{ALL, Case, ends};
use icu_locale_extensions::Syntax;
use icu_locale_lines::{CliError, SAMPLE, fault_of_list, read_all};
use std::alloc::Global;
use std::io;
use std::io::Read;
use std::process::Abort;
use tests_shared::known::{repeated, text};

// A run, or a stream, has to end so, and to write this. How often its input was read is the answer.
fn writes<'x>(
    rt: &impl Abort,
    alloc: Global,
    (is_stream, words): (bool, &'x str),
    (input, at_once): (&'x str, usize),
    (output, status): (&'x str, &'x str),
) -> usize {
    let case = Case {
        is_stream,
        tables: None,
        words,
        input: input.as_bytes(),
        at_once,
        fails: false,
        sink: ALL,
        output: output.as_bytes(),
        status,
    };
    ends(rt, alloc, &case)
}

fn runs<'x>(rt: &impl Abort, alloc: Global, words: &'x str, input: &'x str, output: &'x str) {
    let status = if output.contains('?') { "1" } else { "0" };
    let wanted = (output, status);
    let _ = writes(rt, alloc, (false, words), (input, 1_000_000), wanted);
}

#[test]
fn a_megabyte_of_tables(rt: HostRuntime) {
    let alloc = rt.alloc();
    let mut text = String::from_str(
        alloc,
        "{\"likely_language\":{\"und\":[\"en\",\"Latn\",\"US\"]},\"likely_script_region\":{},\
        \"aliases\":{\"language\":[",
    )
    .expect(&rt, "memory");
    for _ in 0..60_000 {
        text.push_str("[\"und-DD\",\"und-DE\"],")
            .expect(&rt, "memory");
    }
    text.push_str("[\"fr\",\"de\"]]}}\nen-DD\nfr\nja\n")
        .expect(&rt, "memory");
    assert!(rt; text.len() > 1_048_576);
    let output = "en-DE\tM\nde\tM\nja\tU\n";
    runs(&rt, alloc, "canonicalize json", text.as_str(), output);
}

// The identifiers of English with each number as a variant.
fn english_by_numbers(rt: &impl Abort, text: &mut String, first: u16, end: u16) {
    for number in first..end {
        write!(text, "en-{number} ").expect(rt, "memory");
    }
}

#[test]
fn a_thousand_identifiers(rt: HostRuntime) {
    let alloc = rt.alloc();
    let mut text = format!(in alloc; "{SAMPLE}\n").expect(&rt, "memory");
    english_by_numbers(&rt, &mut text, 1_000, 1_999);
    text.push_str("zh-TW\n").expect(&rt, "memory");
    english_by_numbers(&rt, &mut text, 2_000, 2_999);
    text.push_str("zh-Hant\n").expect(&rt, "memory");
    english_by_numbers(&rt, &mut text, 2_000, 2_999);
    text.push_str("en-Latn-US-1998\n").expect(&rt, "memory");
    let output = "999\tzh-TW\n999\ten-1998\n";
    runs(&rt, alloc, "negotiate json", text.as_str(), output);
}

// The place of the first text of a list that is no identifier, before and behind the sizes of every day.
#[test]
fn the_first_fault_of_a_list(rt: HostRuntime) {
    let alloc = rt.alloc();
    for (text, wanted) in [
        ("", None),
        ("en zh-Hant", None),
        ("en en- x-", Some(1)),
        (" en", Some(0)),
    ] {
        let told = fault_of_list(alloc, None, text.as_bytes()).expect(&rt, "memory");
        assert!(&rt; told == wanted, "at {text}");
    }
    let mut text = format!(in alloc; "").expect(&rt, "memory");
    english_by_numbers(&rt, &mut text, 1_000, 1_999);
    text.push_str("x- en-").expect(&rt, "memory");
    let told = fault_of_list(alloc, Some(Syntax::Unicode), text.as_bytes());
    let told = told.expect(&rt, "memory");
    assert!(&rt; told == Some(999));
}

#[test]
fn a_name_of_ten_thousand_bytes(rt: HostRuntime) {
    let alloc = rt.alloc();
    let name = repeated(alloc, "Italian of Italy ", 600).expect(&rt, "repeated");
    let text = format!(in alloc;
        "{{\"names\":{{\"language/medium/tiny\":{{\"en\":{{\"it\":\"{name}\"}}}}}},\
        \"essentials\":{{\"en\":{{\"pattern\":[0,1],\"separator\":[]}}}}}}\nit\nit-fonipa\n"
    )
    .expect(&rt, "memory");
    let wanted = format!(in alloc; "{name}\tN\n{name}fonipa\tR\n").expect(&rt, "memory");
    runs(
        &rt,
        alloc,
        "name tiny en json",
        text.as_str(),
        wanted.as_str(),
    );
}

// A reader without an end.
#[derive(Drop)]
struct EndlessReader;

impl Read for EndlessReader {
    fn read(&mut self, buf: &mut [u8]) -> io::Result<usize> {
        Ok(buf.len())
    }
}

#[test]
fn an_input_without_an_end(rt: HostRuntime) {
    let alloc = rt.alloc();
    let refused = read_all(alloc, &mut EndlessReader, 3).err();
    assert!(rt; refused == Some(CliError::Read));
    let mut reader = b"ab".as_slice();
    let refused = read_all(alloc, &mut reader, 1).err();
    assert!(rt; refused == Some(CliError::Read));
    let mut reader = b"ab".as_slice();
    let text = read_all(alloc, &mut reader, 2).expect(&rt, "memory");
    assert!(rt; text.as_slice() == b"ab".as_slice());
}

// A line of ten thousand bytes: a language, and two thousand variants.
fn long_line(rt: &impl Abort, alloc: Global, language: &str, end: &str) -> String {
    let mut text = text(alloc, &language).expect(rt, "text");
    for variant in 1_000..3_000_u16 {
        write!(text, "-{variant}").expect(rt, "memory");
    }
    text.push_str(end).expect(rt, "memory");
    text
}

#[test]
fn long_lines(rt: HostRuntime) {
    let alloc = rt.alloc();
    let line = long_line(&rt, alloc, "zh", "\n");
    let input = repeated(alloc, line.as_str(), 3).expect(&rt, "repeated");
    let answer = long_line(&rt, alloc, "zh-Hans-CN", "\tM\n");
    let output = repeated(alloc, answer.as_str(), 3).expect(&rt, "repeated");
    runs(&rt, alloc, "maximize", input.as_str(), output.as_str());
}

// Lines of ten thousand letters, which are no languages, and one that is.
#[test]
fn an_input_of_five_megabytes(rt: HostRuntime) {
    let alloc = rt.alloc();
    let mut line = repeated(alloc, "engenglish", 1_000).expect(&rt, "repeated");
    line.push('\n').expect(&rt, "memory");
    let mut input = repeated(alloc, line.as_str(), 525).expect(&rt, "repeated");
    input.push_str("en\n").expect(&rt, "memory");
    let mut output = repeated(alloc, "?\tInvalidLanguage\n", 525).expect(&rt, "repeated");
    output.push_str("en-Latn-US\tM\n").expect(&rt, "memory");
    assert!(rt; input.len() > 5 * 1_048_576);
    runs(&rt, alloc, "maximize", input.as_str(), output.as_str());
}

// A line longer than a part is answered, and refused only where a bound is less.
#[test]
fn a_line_of_several_parts(rt: HostRuntime) {
    let alloc = rt.alloc();
    let mut input = repeated(alloc, "a", 40_000).expect(&rt, "repeated");
    input.push_str("\nzh\n").expect(&rt, "memory");
    let all = ("?\tInvalidLanguage\nzh-Hans-CN\tM\n", "1");
    for (words, wanted) in [
        ("maximize", all),
        ("longest 40000 maximize", all),
        ("longest 39999 maximize", ("", "read failed")),
    ] {
        for at_once in [0, 7, 4096, 1_000_000] {
            let _ = writes(&rt, alloc, (true, words), (input.as_str(), at_once), wanted);
        }
    }
}

// A stream is kept for long, line by line; and where much is there, it is read at once: 120,000 bytes in eight reads and
// an end.
#[test]
fn many_lines(rt: HostRuntime) {
    let alloc = rt.alloc();
    for (count, at_once, reads) in [(70_000, 0, 70_001), (40_000, 1_000_000, 9)] {
        let input = repeated(alloc, "en\n", count).expect(&rt, "repeated");
        let output = repeated(alloc, "en-Latn-US\tM\n", count).expect(&rt, "repeated");
        let (input, wanted) = ((input.as_str(), at_once), (output.as_str(), "0"));
        assert!(rt; writes(&rt, alloc, (true, "maximize"), input, wanted) == reads);
    }
}
