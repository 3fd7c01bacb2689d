//! Locale identifiers for C and what calls it: the program's answer to a line, over tables behind a handle.
#![tactic(auto)]

ghost use Rattle.std.specs.Prelude.{◌≡◌, None, Bool, Result};
ghost use Rattle.icu_locale_c.specs.Calls.{IsCall, IsOpened, IsShared, IsSupplemented, IsSettledCall, done_number, answer_number, yes_number};
ghost use Rattle.icu_locale_c.specs.Data.{IsDataNamed};
ghost use Rattle.icu_locale_c.specs.Negotiations.{IsAvailableCall, IsAvailableIn, IsListFaultIn, IsNegotiatedCall, IsNegotiatedIn};
ghost use Rattle.icu_locale_c.specs.Places.{IsPlaced};
ghost use Rattle.icu_locale_c.specs.Refusals.{IsRefusalText};
ghost use Rattle.icu_locale_c.specs.declared.refusal.Refusal.{Refusal};

mod flat;
mod handle;
pub mod laws;
mod lines;
mod loose;
mod missing;
mod negotiations;
mod place;
mod refusal;
mod refusal_text;
mod shared;
mod words;

use crate::handle::Handle;
use crate::negotiations::put_fault;
use crate::place::put_place;
use crate::refusal::{Refusal, answer_number, done_number, yes_number};
use crate::refusal_text::put_refusal_text;
use crate::shared::Shared;
use crate::words::read_syntax;
use icu_locale_extensions::Syntax;
use icu_tables::{TableError, Tables};
use std::alloc::Global;

/// Reads tables of a JSON text. A handle that held others lets them go; after a refusal it is as it was.
#[unsafe(no_mangle)]
pub extern "C" fn icu_locale_open(alloc: Global, json: &[u8], handle: &mut Handle) -> i32
    ensures { (outcome : Result (Unit {0}) Refusal) × (result ≡ done_number outcome)
        × IsOpened json.now handle.old.held handle.new.held outcome }
{
    done_number(open(alloc, json, handle))
}

/// Reads the supplement of a handle's tables of a JSON text, in place of theirs. It is refused where another handle has
/// them too; after a refusal all is as it was.
#[unsafe(no_mangle)]
pub extern "C" fn icu_locale_supplement(alloc: Global, handle: &mut Handle, json: &[u8]) -> i32
    ensures { (outcome : Result (Unit {0}) Refusal) × (result ≡ done_number outcome)
        × IsSupplemented handle.old.held json.now handle.new.held outcome }
{
    done_number(supplement(alloc, handle, json))
}

/// A second handle to the same tables, as for another thread. A handle that held others lets them go; after a refusal
/// both are as they were.
#[unsafe(no_mangle)]
pub extern "C" fn icu_locale_share(alloc: Global, from: &mut Handle, to: &mut Handle) -> i32
    ensures stays { from.new.held ≡ from.old.held }
    ensures shared { (outcome : Result (Unit {0}) Refusal) × (result ≡ done_number outcome)
        × IsShared from.old.held to.old.held to.new.held outcome }
{
    done_number(share(alloc, from, to))
}

/// Writes what the program answers to a line, without its line feed, to the beginning of `out`.
#[unsafe(no_mangle)]
pub extern "C" fn icu_locale_answer(
    alloc: Global,
    handle: &mut Handle,
    command: &[u8],
    line: &[u8],
    out: &mut [u8],
    written: &mut usize,
) -> i32
    ensures stays { handle.new.held ≡ handle.old.held }
    ensures answered { (outcome : Result Bool Refusal) × (result ≡ answer_number outcome)
        × IsCall handle.old.held command.now line.now out.old out.new written.new outcome }
{
    answer_number(answer(alloc, handle, command, line, out, written))
}

/// A second handle to the same tables, with the identifiers that are available, as a line lists them. A handle that held
/// others lets them go; after a refusal both are as they were.
#[unsafe(no_mangle)]
pub extern "C" fn icu_locale_available(
    alloc: Global,
    from: &mut Handle,
    list: &[u8],
    negotiator: &mut Handle,
) -> i32
    ensures stays { from.new.held ≡ from.old.held }
    ensures listed { (outcome : Result (Unit {0}) Refusal) × (result ≡ done_number outcome)
        × IsAvailableCall None from.old.held list.now negotiator.old.held negotiator.new.held
        outcome }
{
    done_number(available(alloc, from, None, list, negotiator))
}

/// The places of the first request of a line that is met, and of the first available identifier that meets it.
#[unsafe(no_mangle)]
pub extern "C" fn icu_locale_negotiate(
    alloc: Global,
    negotiator: &mut Handle,
    requests: &[u8],
    request: &mut usize,
    available: &mut usize,
) -> i32
    ensures stays { negotiator.new.held ≡ negotiator.old.held }
    ensures negotiated { (outcome : Result Bool Refusal) × (result ≡ answer_number outcome)
        × IsNegotiatedCall None negotiator.old.held requests.now (request.old, available.old)
        (request.new, available.new) outcome }
{
    answer_number(negotiate(alloc, negotiator, None, requests, request, available))
}

/// The same as `icu_locale_available` of a list in the syntax that a word names: its texts are written whole.
#[unsafe(no_mangle)]
pub extern "C" fn icu_locale_available_in(
    alloc: Global,
    from: &mut Handle,
    syntax: &[u8],
    list: &[u8],
    negotiator: &mut Handle,
) -> i32
    ensures stays { from.new.held ≡ from.old.held }
    ensures listed { (outcome : Result (Unit {0}) Refusal) × (result ≡ done_number outcome)
        × IsAvailableIn from.old.held syntax.now list.now negotiator.old.held
        negotiator.new.held outcome }
{
    done_number(available_in(alloc, from, syntax, list, negotiator))
}

/// The same as `icu_locale_negotiate` of requests in the syntax that a word names.
#[unsafe(no_mangle)]
pub extern "C" fn icu_locale_negotiate_in(
    alloc: Global,
    negotiator: &mut Handle,
    syntax: &[u8],
    requests: &[u8],
    request: &mut usize,
    available: &mut usize,
) -> i32
    ensures stays { negotiator.new.held ≡ negotiator.old.held }
    ensures negotiated { (outcome : Result Bool Refusal) × (result ≡ answer_number outcome)
        × IsNegotiatedIn negotiator.old.held syntax.now requests.now
        (request.old, available.old) (request.new, available.new) outcome }
{
    answer_number(negotiate_in(alloc, negotiator, syntax, requests, request, available))
}

/// The place of the first text of a list that is no identifier, in the syntax that a word names.
#[unsafe(no_mangle)]
pub extern "C" fn icu_locale_list_fault(
    alloc: Global,
    syntax: &[u8],
    list: &[u8],
    place: &mut usize,
) -> i32
    ensures { (outcome : Result (Unit {0}) Refusal) × (result ≡ done_number outcome)
        × IsListFaultIn syntax.now list.now place.old place.new outcome }
{
    done_number(list_fault(alloc, syntax, list, place))
}

/// Whether a text is a locale identifier, and else the bytes of the first piece that none can have there.
#[unsafe(no_mangle)]
pub extern "C" fn icu_locale_fault(
    alloc: Global,
    text: &[u8],
    from: &mut usize,
    to: &mut usize,
) -> i32
    ensures { (outcome : Result Bool Refusal) × (result ≡ answer_number outcome)
        × IsPlaced text.now (from.old, to.old) (from.new, to.new) outcome }
{
    answer_number(put_place(alloc, text, from, to))
}

/// Writes the name of the data, as its supplement says it, to the beginning of `out`.
#[unsafe(no_mangle)]
pub extern "C" fn icu_locale_data_name(
    alloc: Global,
    handle: &mut Handle,
    out: &mut [u8],
    written: &mut usize,
) -> i32
    ensures stays { handle.new.held ≡ handle.old.held }
    ensures named { (outcome : Result Bool Refusal) × (result ≡ answer_number outcome)
        × IsDataNamed handle.old.held out.old out.new written.new outcome }
{
    answer_number(data_name(alloc, handle, out, written))
}

/// Writes what the number of a refusal says, in words, to the beginning of `out`.
#[unsafe(no_mangle)]
pub extern "C" fn icu_locale_refusal_text(number: i32, out: &mut [u8], written: &mut usize) -> i32
    ensures { (outcome : Result Bool Refusal) × (result ≡ answer_number outcome)
        × IsRefusalText number out.old out.new written.new outcome }
{
    answer_number(put_refusal_text(number, out, written))
}

/// Whether the likely tables are settled.
#[unsafe(no_mangle)]
pub extern "C" fn icu_locale_is_settled(alloc: Global, handle: &mut Handle) -> i32
    ensures stays { handle.new.held ≡ handle.old.held }
    ensures told { (outcome : Result Bool Refusal) × (result ≡ yes_number outcome)
        × IsSettledCall handle.old.held outcome }
{
    yes_number(is_settled(alloc, handle))
}

/// Lets the tables go. A second call does nothing.
#[unsafe(no_mangle)]
pub extern "C" fn icu_locale_close(alloc: Global, handle: &mut Handle)
    ensures { handle.new.held ≡ None }
{
    *handle = Handle::empty(alloc);
}

fn open(alloc: Global, json: &[u8], handle: &mut Handle) -> Result<(), Refusal>
    ensures { IsOpened json.now handle.old.held handle.new.held result }
{
    let tables = match Tables::from_json(alloc, json) {
        Ok(tables) => tables,
        Err(TableError::Json) => return Err(Refusal::Json),
        Err(TableError::Shape) => return Err(Refusal::Shape),
        Err(TableError::Memory) => return Err(Refusal::Memory),
    };
    *handle = Handle::of(Shared::new(alloc, tables)?);
    Ok(())
}

fn supplement(alloc: Global, handle: &mut Handle, json: &[u8]) -> Result<(), Refusal>
    ensures { IsSupplemented handle.old.held json.now handle.new.held result }
{
    let mut shared = handle.take(alloc)?;
    let outcome = shared.supplement(alloc, json);
    *handle = Handle::of(shared);
    outcome
}

fn share(alloc: Global, from: &mut Handle, to: &mut Handle) -> Result<(), Refusal>
    ensures stays { from.new.held ≡ from.old.held }
    ensures shared { IsShared from.old.held to.old.held to.new.held result }
{
    let shared = from.take(alloc)?;
    let again = shared.again(alloc);
    *from = Handle::of(shared);
    *to = Handle::of(again?);
    Ok(())
}

fn answer(
    alloc: Global,
    handle: &mut Handle,
    command: &[u8],
    line: &[u8],
    out: &mut [u8],
    written: &mut usize,
) -> Result<bool, Refusal>
    ensures stays { handle.new.held ≡ handle.old.held }
    ensures called { IsCall handle.old.held command.now line.now out.old out.new written.new
        result }
{
    *written = 0;
    let mut shared = handle.take(alloc)?;
    let outcome = shared.answer(alloc, command, line, out, written);
    *handle = Handle::of(shared);
    outcome
}

fn available_in(
    alloc: Global,
    from: &mut Handle,
    word: &[u8],
    list: &[u8],
    to: &mut Handle,
) -> Result<(), Refusal>
    ensures stays { from.new.held ≡ from.old.held }
    ensures listed { IsAvailableIn from.old.held word.now list.now to.old.held to.new.held
        result }
{
    match read_syntax(word) {
        Ok(syntax) => available(alloc, from, syntax, list, to),
        Err(refusal) => Err(refusal),
    }
}

fn available(
    alloc: Global,
    from: &mut Handle,
    syntax: Option<Syntax>,
    list: &[u8],
    to: &mut Handle,
) -> Result<(), Refusal>
    ensures stays { from.new.held ≡ from.old.held }
    ensures listed { IsAvailableCall syntax from.old.held list.now to.old.held to.new.held
        result }
{
    let held = from.take(alloc)?;
    let listed = held.with_available(alloc, syntax, list);
    *from = Handle::of(held);
    *to = Handle::of(listed?);
    Ok(())
}

fn negotiate_in(
    alloc: Global,
    handle: &mut Handle,
    word: &[u8],
    requests: &[u8],
    request: &mut usize,
    available: &mut usize,
) -> Result<bool, Refusal>
    ensures stays { handle.new.held ≡ handle.old.held }
    ensures negotiated { IsNegotiatedIn handle.old.held word.now requests.now
        (request.old, available.old) (request.new, available.new) result }
{
    match read_syntax(word) {
        Ok(syntax) => negotiate(alloc, handle, syntax, requests, request, available),
        Err(refusal) => Err(refusal),
    }
}

fn negotiate(
    alloc: Global,
    handle: &mut Handle,
    syntax: Option<Syntax>,
    requests: &[u8],
    request: &mut usize,
    available: &mut usize,
) -> Result<bool, Refusal>
    ensures stays { handle.new.held ≡ handle.old.held }
    ensures negotiated { IsNegotiatedCall syntax handle.old.held requests.now
        (request.old, available.old) (request.new, available.new) result }
{
    let mut shared = handle.take(alloc)?;
    let outcome = shared.negotiate(alloc, syntax, requests);
    *handle = Handle::of(shared);
    match outcome? {
        Some((asked, found)) => {
            *request = asked;
            *available = found;
            Ok(true)
        }
        None => Ok(false),
    }
}

fn list_fault(alloc: Global, word: &[u8], list: &[u8], place: &mut usize) -> Result<(), Refusal>
    ensures { IsListFaultIn word.now list.now place.old place.new result }
{
    match read_syntax(word) {
        Ok(syntax) => put_fault(alloc, syntax, list, place),
        Err(refusal) => Err(refusal),
    }
}

fn data_name(
    alloc: Global,
    handle: &mut Handle,
    out: &mut [u8],
    written: &mut usize,
) -> Result<bool, Refusal>
    ensures stays { handle.new.held ≡ handle.old.held }
    ensures named { IsDataNamed handle.old.held out.old out.new written.new result }
{
    *written = 0;
    let shared = handle.take(alloc)?;
    let outcome = shared.put_name(out, written);
    *handle = Handle::of(shared);
    outcome
}

fn is_settled(alloc: Global, handle: &mut Handle) -> Result<bool, Refusal>
    ensures stays { handle.new.held ≡ handle.old.held }
    ensures told { IsSettledCall handle.old.held result }
{
    let shared = handle.take(alloc)?;
    let outcome = shared.is_settled();
    *handle = Handle::of(shared);
    outcome
}
