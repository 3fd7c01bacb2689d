//! Which first pieces of a text begin some text that is read.
ghost use Rattle.std.specs.Prelude.{◌≡◌, ◌<◌, ◌++◌, ◌∷◌, suc, true, false, IfOk, is_ok, length, take, drop, slice_index_or, count_by, []};
ghost use Rattle.icu_locale_core.specs.Identifier.{is_separator, pieces, starts_with_language};
ghost use Rattle.icu_locale_extensions.specs.laws.Reader.{read};
ghost use Rattle.icu_locale_places.specs.Places.{IsWrongAt, begins_some, probe};
ghost use Rattle.icu_locale_places.specs.inner.Spans.{HasBytes};

use crate::laws;
use icu_locale_core::{ParseError, Pieces};
use icu_locale_extensions::LocaleIdentifier;
use std::alloc::{AllocError, Global};

// A piece more: no place where a piece must follow refuses it.
const MORE: &[u8] = b"-abc";

// The bytes of the first piece, where that is no language.
pub fn first_span(text: &[u8]) -> (usize, usize)
    requires { starts_with_language text.now ≡ false }
    ensures { IsWrongAt text.now result.0 result.1 }
{
    laws::begins_is_told();
    span(text, 0)
}

// The bytes of the first piece that no locale identifier can have there, or the end.
pub fn find_place(alloc: Global, text: &[u8]) -> Result<(usize, usize), AllocError>
    requires { is_ok (read (pieces text.now)) ≡ false }
    ensures { IfOk result (λ span. IsWrongAt text.now span.0 span.1) }
{
    laws::begins_is_told();
    let mut room = Vec::with_capacity(alloc, text.len().saturating_add(MORE.len()))?;
    if is_read_with_more(alloc, text, &mut room)? {
        return Ok((text.len(), text.len()));
    }
    let piece = first_wrong(alloc, text, &mut room)?;
    Ok(span(text, piece))
}

// The first piece with which the pieces before it begin no text that is read, by halves.
fn first_wrong(alloc: Global, text: &[u8], room: &mut Vec<u8>) -> Result<usize, AllocError>
    requires { begins_some (pieces text.now) ≡ false }
    ensures within { IfOk result (λ n. n < length (pieces text.now)) }
    ensures before { IfOk result (λ n. begins_some (take n (pieces text.now)) ≡ true) }
    ensures there { IfOk result (λ n. begins_some (take (suc n) (pieces text.now)) ≡ false) }
{
    let mut low = 0;
    let mut high = separators(text);
    'halves: while low < high {
        let middle = low + (high - low) / 2;
        if begins_some(alloc, front(text, middle), room)? {
            low = middle + 1;
        } else {
            high = middle;
        }
    }
    Ok(low)
}

// Whether a text is the front of some that is read: it is read, or it is with one piece more.
fn begins_some(alloc: Global, text: &[u8], room: &mut Vec<u8>) -> Result<bool, AllocError>
    ensures { IfOk result (λ b. b ≡ begins_some (pieces text.now)) }
{
    if is_read(alloc, text)? {
        return Ok(true);
    }
    is_read_with_more(alloc, text, room)
}

// Whether a text is read with one piece more, that may follow wherever a piece must.
fn is_read_with_more(alloc: Global, text: &[u8], room: &mut Vec<u8>) -> Result<bool, AllocError>
    ensures { IfOk result (λ b. b ≡ is_ok (read (pieces text.now ++ probe ∷ []))) }
{
    room.clear();
    room.extend_from_slice(text)?;
    room.extend_from_slice(MORE)?;
    is_read(alloc, room.as_slice())
}

fn is_read(alloc: Global, text: &[u8]) -> Result<bool, AllocError>
    ensures { IfOk result (λ b. b ≡ is_ok (read (pieces text.now))) }
{
    icu_locale_extensions::laws::reading_is_by_the_grammar();
    match LocaleIdentifier::try_from_utf8(alloc, text) {
        Ok(_) => Ok(true),
        Err(ParseError::Memory) => Err(AllocError),
        Err(ParseError::InvalidLanguage) => Ok(false),
        Err(ParseError::InvalidSubtag) => Ok(false),
    }
}

// The text up to the end of a piece.
fn front(text: &[u8], piece: usize) -> &[u8]
    requires { piece < length (pieces text.now) }
    ensures { pieces result.now ≡ take (suc piece) (pieces text.now) }
{
    let (_, to) = span(text, piece);
    let (front, _) = text.split_at(to);
    front
}

// The bytes of a piece.
fn span(text: &[u8], piece: usize) -> (usize, usize)
    requires { piece < length (pieces text.now) }
    ensures { HasBytes text.now piece result.0 result.1 }
{
    let mut pieces = Pieces::new(text);
    let mut from = 0;
    'pieces: for _before in 0..piece {
        from += next_length(&mut pieces) + 1;
    }
    (from, from + next_length(&mut pieces))
}

// How many bytes the next piece has.
fn next_length(pieces: &mut Pieces<'_>) -> usize
    ensures length { result ≡ length (slice_index_or pieces.old 0 []) }
    ensures rest { pieces.new ≡ drop 1 pieces.old }
{
    match pieces.next() {
        Some(piece) => piece.len(),
        None => 0,
    }
}

// How many separators there are: one fewer than pieces.
fn separators(text: &[u8]) -> usize
    ensures { result ≡ count_by is_separator text.now }
{
    text.iter().filter(|byte| is_separator(**byte)).count()
}

fn is_separator(byte: u8) -> bool
    ensures { result ≡ is_separator byte }
{
    byte == b'-' || byte == b'_'
}
