//! Lines that list identifiers, cut at each space, and lines of requests.
ghost use Rattle.std.specs.Prelude.{◌≡◌, ◌⊎◌, ◌<◌, ◌++◌, ◌∷◌, [], length, List, ℕ, Some, IfOk, IfErr, OnOk, OnErr, true};
ghost use Rattle.icu_locale_lines.specs.Lists.{listed, SpellsAll, IsFaultAt, IsFirstFault, TellsFault, SpellsIn, IsFaultIn, IsListedAnswer, IsNegotiatedLine, TellsPlace, shown_at};
ghost use Rattle.icu_locale_lines.specs.Answers.{AddsLine, Keeps};

use crate::answer::{add_fault, add_known, add_number, add_text};
use crate::error::CliError;
use crate::work::form::Written;
use crate::work::offered::Offered;
use icu_locale::NegotiatorRef;
use icu_locale_core::{LanguageIdentifier, Locale, ParseError};
use icu_locale_extensions::{LocaleIdentifier, Syntax};
use std::alloc::{AllocError, Global};

// Why a line lists no identifiers: the refusal of its first text that spells none, and the place of that.
#[derive(Clone, Copy)]
struct ListFault {
    place: usize,
    refusal: ParseError,
}

// The identifiers that a line lists.
fn read_texts(
    alloc: Global,
    syntax: Option<Syntax>,
    line: &[u8],
) -> Result<Vec<LanguageIdentifier>, ListFault>
    ensures read { IfOk result (λ list. SpellsAll syntax (listed line.now) list.items) }
    ensures refused { IfErr result (λ f. (f.refusal ≡ ParseError.Memory)
        ⊎ IsFaultAt syntax (listed line.now) f.place f.refusal) }
{
    let mut list = Vec::new(alloc);
    if line.is_empty() {
        return Ok(list);
    }
    for piece in line.split(|byte| *byte == b' ') {
        let place = list.as_slice().len();
        match read_identifier(alloc, syntax, piece) {
            Ok(identifier) => push(&mut list, identifier)?,
            Err(refusal) => return Err(ListFault { place, refusal }),
        }
    }
    Ok(list)
}

// Puts an identifier behind the others.
fn push(list: &mut Vec<LanguageIdentifier>, identifier: LanguageIdentifier) -> Result<(), ListFault>
    ensures pushed { OnOk result (list.new.items ≡ list.old.items ++ identifier ∷ []) }
    ensures refused { IfErr result (λ f. f.refusal ≡ ParseError.Memory) }
{
    let place = list.len();
    match list.push(identifier) {
        Ok(()) => Ok(()),
        Err(_) => Err(ListFault {
            place,
            refusal: ParseError::Memory,
        }),
    }
}

/// The place of the first text of a line that spells no identifier, counted from 0, if there is one.
///
/// # Errors
///
/// `AllocError` where memory was refused.
pub fn fault_of_list(
    alloc: Global,
    syntax: Option<Syntax>,
    line: &[u8],
) -> Result<Option<usize>, AllocError>
    ensures { IfOk result (TellsFault syntax (listed line.now)) }
{
    let fault = match read_texts(alloc, syntax, line) {
        Ok(_) => return Ok(None),
        Err(fault) => fault,
    };
    match fault.refusal {
        ParseError::Memory => Err(AllocError),
        _ => Ok(Some(fault.place)),
    }
}

/// The identifiers that a line lists: each alone, or that of a locale identifier in a syntax. An empty line lists none.
///
/// # Errors
///
/// The refusal of the first text that spells none, or `Memory` where memory was refused.
pub fn read_list(
    alloc: Global,
    syntax: Option<Syntax>,
    line: &[u8],
) -> Result<Vec<LanguageIdentifier>, ParseError>
    ensures read { IfOk result (λ list. SpellsAll syntax (listed line.now) list.items) }
    ensures refused { IfErr result (λ e. (e ≡ ParseError.Memory)
        ⊎ IsFirstFault syntax (listed line.now) e) }
{
    match read_texts(alloc, syntax, line) {
        Ok(list) => Ok(list),
        Err(fault) => Err(fault.refusal),
    }
}

// The identifier of a text: alone, or that of a locale identifier in a syntax.
pub fn read_identifier(
    alloc: Global,
    syntax: Option<Syntax>,
    text: &[u8],
) -> Result<LanguageIdentifier, ParseError>
    ensures read { IfOk result (SpellsIn syntax text.now) }
    ensures refused { IfErr result (λ e. (e ≡ ParseError.Memory)
        ⊎ IsFaultIn syntax text.now e) }
{
    match syntax {
        None => LanguageIdentifier::try_from_utf8(alloc, text),
        Some(syntax) => match LocaleIdentifier::read(alloc, syntax, text) {
            Ok(whole) => Ok(identifier_of(whole)),
            Err(refusal) => Err(refusal),
        },
    }
}

// The identifier of a locale identifier, without its extensions.
fn identifier_of(whole: LocaleIdentifier) -> LanguageIdentifier
    ensures { result ≡ whole.locale.id }
{
    let LocaleIdentifier {
        locale,
        attributes: _,
        fields: _,
        others: _,
        private_use: _,
    } = whole;
    let Locale { id, extensions: _ } = locale;
    id
}

// The answer to a line that lists requests.
pub fn add_requests(
    text: &mut Vec<u8>,
    negotiator: &NegotiatorRef<'_>,
    offered: &Offered,
    syntax: Option<Syntax>,
    line: &[u8],
) -> Result<bool, CliError>
    ensures answer { IfOk result (AddsLine
        (IsListedAnswer syntax (IsNegotiatedLine negotiator.now offered.now.wholes.items) line.now)
        text.old.items text.new.items) }
    ensures refused { IfErr result (λ e. e ≡ CliError.Memory) }
    ensures kept { OnErr result (Keeps text.old.items text.new.items) }
{
    match read_list(*text.allocator(), syntax, line) {
        Ok(requests) => add_negotiated(text, negotiator, offered, &requests),
        Err(refusal) => add_fault(text, refusal),
    }
}

// The line of requests: the place of the first that is met, and what is available and meets it.
fn add_negotiated(
    text: &mut Vec<u8>,
    negotiator: &NegotiatorRef<'_>,
    offered: &Offered,
    requests: &[LanguageIdentifier],
) -> Result<bool, CliError>
    ensures answer { IfOk result (AddsLine
        (IsNegotiatedLine negotiator.now offered.now.wholes.items requests.now)
        text.old.items text.new.items) }
    ensures refused { IfErr result (λ e. e ≡ CliError.Memory) }
    ensures kept { OnErr result (Keeps text.old.items text.new.items) }
{
    match negotiator.negotiate(requests) {
        Some((asked, found)) => add_match(text, asked, found, negotiator.available(), offered),
        None => add_known(text, "none\n", true),
    }
}

// The line of a place, and of what is available at another.
pub fn add_match(
    text: &mut Vec<u8>,
    place: usize,
    found: usize,
    available: &[LanguageIdentifier],
    offered: &Offered,
) -> Result<bool, CliError>
    requires { found < length available.now }
    ensures answer { IfOk result (AddsLine
        (λ t a. TellsPlace available.now offered.now.wholes.items place found t × (a ≡ true))
        text.old.items text.new.items) }
    ensures refused { IfErr result (λ e. e ≡ CliError.Memory) }
    ensures kept { OnErr result (Keeps text.old.items text.new.items) }
{
    add_number(text, place)?;
    add_text(text, "\t")?;
    add_shown(text, found, available, offered)?;
    add_text(text, "\n")?;
    Ok(true)
}

// What is available at a place, as it is written.
fn add_shown(
    text: &mut Vec<u8>,
    place: usize,
    available: &[LanguageIdentifier],
    offered: &Offered,
) -> Result<(), CliError>
    requires { place < length available.now }
    ensures added { OnOk result ((shown : List ℕ)
        × (shown_at available.now offered.now.wholes.items place ≡ Some shown)
        × (text.new.items ≡ text.old.items ++ shown)) }
    ensures refused { IfErr result (λ e. e ≡ CliError.Memory) }
    ensures unchanged { OnErr result (text.new.items ≡ text.old.items) }
{
    match offered.wholes.get(place) {
        Some(whole) => whole.add_to(text),
        None => available[place].add_to(text),
    }
}
