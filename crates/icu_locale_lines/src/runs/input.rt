//! The input, read to its end, or up to the end of its first line.
ghost use Rattle.std.specs.Prelude.{◌≡◌, ◌⊎◌, ◌<◌, ◌≤◌, ◌++◌, length, true, false, IfOk, IfErr, Err, [], option_map};
ghost use Rattle.std.specs.List.{list_any};
ghost use Rattle.std.specs.Io.KnownBytes.{Consumes, IsAtEnd, prepend_known};
ghost use Rattle.icu_locale_lines.specs.Lines.{is_line_feed, first_line, exceeds};
ghost use Rattle.icu_locale_lines.specs.Streams.{ReadsLine, ReadsNoLine, part_size};
ghost use Rattle.icu_locale_lines.specs.inner.Parts.{TakesLine};

use crate::error::CliError;
use crate::runs::cut::{cut, is_too_long};
use std::alloc::Global;
use std::io::Read;

// How many reads an input may take: at a million a second they last for twelve days.
pub const MOST_READS: u64 = 1 << 40;

// Fewer might end a run that a program is kept for.
const _: () = prove!(MOST_READS >= 1 << 40);

// How many bytes are asked for at once.
pub const PART: usize = 16384;

/// All that the reader gives. It takes memory for that.
///
/// # Errors
///
/// - `Read` where a read failed, or the input has not ended after the last read that it may take.
/// - `Memory` where memory was refused.
pub fn read_all<R: Read>(
    alloc: Global,
    reader: &mut R,
    most_reads: u64,
) -> Result<Vec<u8>, CliError>
    ensures whole { IfOk result (λ text. Consumes (R.remaining reader.old) (R.remaining reader.new)
        text.items) }
    ensures end { IfOk result (λ text. IsAtEnd (R.remaining reader.new)) }
    ensures refused { IfErr result (λ e. (e ≡ CliError.Read) ⊎ (e ≡ CliError.Memory)) }
{
    let mut text = Vec::new(alloc);
    let mut buffer = [0; 4096];
    for _ in 0..most_reads {
        match reader.read(&mut buffer) {
            Ok(0) => return Ok(text),
            Ok(count) => text.extend_from_slice(&buffer[..count])?,
            Err(_) => return Err(CliError::Read),
        }
    }
    Err(CliError::Read)
}

// A first line, and what was read after it.
#[derive(Drop)]
pub struct FirstLine {
    // Without its line feed.
    pub line: Vec<u8>,
    // What was read after the line feed.
    pub rest: Vec<u8>,
    // The input ended, and no line feed follows the line.
    pub has_ended: bool,
}

// Reads the first line after what was read before. An input in which it has not ended after the last read that it may
// take counts as a failed read, and so does a line that is too long.
pub fn read_first_line<R: Read>(
    alloc: Global,
    longest: Option<usize>,
    before: &[u8],
    reader: &mut R,
) -> Result<FirstLine, CliError>
    requires short { length before.now ≤ part_size }
    ensures line { IfOk result (λ l. ReadsLine longest
        (prepend_known before.now (R.remaining reader.old))
        (prepend_known l.rest.items (R.remaining reader.new)) l.line.items l.has_ended) }
    ensures short { IfOk result (λ l. length l.rest.items < part_size) }
    ensures alone { IfOk result (λ l. l.has_ended ≡ true → l.rest.items ≡ []) }
    ensures none { result ≡ Err CliError.Read → ReadsNoLine longest
        (prepend_known before.now (R.remaining reader.old)) (R.remaining reader.new) }
    ensures refused { IfErr result (λ e. (e ≡ CliError.Read) ⊎ (e ≡ CliError.Memory)) }
{
    let mut line = Vec::new(alloc);
    if let Some(rest) = take_line(alloc, longest, &mut line, before)? {
        return Ok(FirstLine {
            line,
            rest,
            has_ended: false,
        });
    }
    let mut buffer = [0; PART];
    for _ in 0..MOST_READS {
        match reader.read(&mut buffer) {
            Ok(0) => {
                return Ok(FirstLine {
                    line,
                    rest: Vec::new(alloc),
                    has_ended: true,
                });
            }
            Ok(count) => {
                let (part, _) = buffer.split_at(count);
                if let Some(rest) = take_line(alloc, longest, &mut line, part)? {
                    return Ok(FirstLine {
                        line,
                        rest,
                        has_ended: false,
                    });
                }
            }
            Err(_) => return Err(CliError::Read),
        }
    }
    Err(CliError::Read)
}

// Puts a part after the beginning of a line, up to a line feed, and gives what follows that, if there is one. A line that
// is too long counts as a failed read.
pub fn take_line(
    alloc: Global,
    longest: Option<usize>,
    line: &mut Vec<u8>,
    part: &[u8],
) -> Result<Option<Vec<u8>>, CliError>
    requires { list_any is_line_feed line.old.items ≡ false }
    ensures taken { IfOk result (λ rest. TakesLine line.old.items part.now line.new.items
        (option_map (λ r. r.items) rest)) }
    ensures within { IfOk result (λ _. exceeds longest line.new.items ≡ false) }
    ensures long { result ≡ Err CliError.Read
        → exceeds longest (first_line (line.old.items ++ part.now)) ≡ true }
    ensures refused { IfErr result (λ e. (e ≡ CliError.Read) ⊎ (e ≡ CliError.Memory)) }
{
    let (front, behind) = cut(part);
    line.extend_from_slice(front)?;
    if is_too_long(longest, line) {
        return Err(CliError::Read);
    }
    if front.len() == part.len() {
        return Ok(None);
    }
    let mut rest = Vec::new(alloc);
    rest.extend_from_slice(behind)?;
    Ok(Some(rest))
}
