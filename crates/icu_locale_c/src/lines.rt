//! The program's line for a line, over what a handle keeps.
ghost use Rattle.std.specs.Prelude.{◌≡◌, ◌<◌, ◌-◌, take, length, List, ℕ, IfOk, IfErr, IsOk, IsSome};
ghost use Rattle.icu_locale_lines.specs.Answers.{IsAnswer};
ghost use Rattle.icu_locale_lines.specs.Held.{AreToolsOver, HasKept, Held, IsServeTask, IsSessionOver, IsSettledList, ServesListed, StaysKept, held_in};
ghost use Rattle.icu_locale_c.specs.Asked.{HasList, IsLineOf, IsRefusedLine};
ghost use Rattle.icu_locale_c.specs.Calls.{Writes, unended};

use crate::refusal::Refusal;
use icu_locale_lines::{
    CliError, KeptList, LineCommand, Session, Task, Tools, Work, load_expander,
    load_whole_canonicalizer,
};
use icu_tables::Tables;
use std::alloc::Global;

// The line of a command, in the room of an earlier one, and whether the line that was read is accepted. What is asked for
// beside the tables is made where it is not kept, and is kept then.
pub fn line_of(
    alloc: Global,
    tables: &Tables,
    session: &mut Session,
    asked: &LineCommand,
    room: &mut Vec<u8>,
    line: &[u8],
) -> Result<bool, Refusal>
    requires over { IsSessionOver tables.now session.old }
    requires first { ServesListed session.old }
    ensures over { IsSessionOver tables.now session.new }
    ensures first { ServesListed session.new }
    ensures stays { StaysKept tables.now session.old session.new }
    ensures answered { IfOk result (IsLineOf (held_in tables.now session.old) asked.now line.now
        room.new.items) }
    ensures refused { IfErr result (IsRefusedLine (held_in tables.now session.old) asked.now) }
{
    ask_list(tables, session, asked)?;
    match session.keep(alloc, tables, asked) {
        Ok(()) => kept_line(tables, session, asked, room, line),
        Err(CliError::Memory) => Err(Refusal::Memory),
        Err(_) => Err(Refusal::Table),
    }
}

// Asks for the list that a command asks for, which for `negotiate` is over settled tables.
fn ask_list(tables: &Tables, session: &Session, asked: &LineCommand) -> Result<(), Refusal>
    requires over { IsSessionOver tables.now session.now }
    requires first { ServesListed session.now }
    ensures there { IsOk result → HasList (held_in tables.now session.now) asked.now }
    ensures served { IsOk result → IsServeTask asked.now.task → IsSome session.now.list }
    ensures settled { IsOk result → asked.now.task ≡ Task.Negotiate
        → IsSettledList session.now.list }
    ensures refused { IfErr result (IsRefusedLine (held_in tables.now session.now) asked.now) }
{
    if !asked.task.row().lists {
        return Ok(());
    }
    match (&session.list, asked.task) {
        (None, _) => Err(Refusal::Negotiate),
        (Some(KeptList::Unsettled(_)), Task::Negotiate) => Err(Refusal::Unsettled),
        (Some(_), _) => Ok(()),
    }
}

// The line over what is kept. What most lines ask for makes no work, as all is inlined; the others are apart, where a work
// has room for the largest of its tools.
#[inline(always)]
fn kept_line<'r>(
    tables: &'r Tables,
    session: &'r Session,
    asked: &LineCommand,
    room: &mut Vec<u8>,
    line: &[u8],
) -> Result<bool, Refusal>
    requires over { IsSessionOver tables.now session.now }
    requires kept { HasKept asked.now tables.now session.now }
    requires list { HasList (held_in tables.now session.now) asked.now }
    ensures answered { IfOk result (IsLineOf (held_in tables.now session.now) asked.now line.now
        room.new.items) }
    ensures refused { IfErr result (IsRefusedLine (held_in tables.now session.now) asked.now) }
{
    match asked.task {
        Task::Form(form) => match load_expander(tables) {
            Ok(expander) => line_by(asked, Tools::Form(form, expander), room, line),
            Err(_) => Err(Refusal::Table),
        },
        Task::Canonicalize => match load_whole_canonicalizer(tables, &session.rules) {
            Ok(canonicalizer) => line_by(asked, Tools::Canonicalize(canonicalizer), room, line),
            Err(_) => Err(Refusal::Table),
        },
        _ => further_line(tables, session, asked, room, line),
    }
}

// The line by tools of a command.
#[inline(always)]
fn line_by(
    asked: &LineCommand,
    tools: Tools<'_>,
    room: &mut Vec<u8>,
    line: &[u8],
) -> Result<bool, Refusal>
    ensures answered { (h : Held) → AreToolsOver asked.now.syntax asked.now.task h tools.entry
        → IfOk result (IsLineOf h asked.now line.now room.new.items) }
    ensures refused { IfErr result (λ e. e ≡ Refusal.Memory) }
{
    let work = Work {
        syntax: asked.syntax,
        places: asked.places,
        tools,
    };
    told(&work, room, line)
}

// The line of any other task.
#[inline(never)]
fn further_line<'r>(
    tables: &'r Tables,
    session: &'r Session,
    asked: &LineCommand,
    room: &mut Vec<u8>,
    line: &[u8],
) -> Result<bool, Refusal>
    requires over { IsSessionOver tables.now session.now }
    requires kept { HasKept asked.now tables.now session.now }
    requires list { HasList (held_in tables.now session.now) asked.now }
    ensures answered { IfOk result (IsLineOf (held_in tables.now session.now) asked.now line.now
        room.new.items) }
    ensures refused { IfErr result (IsRefusedLine (held_in tables.now session.now) asked.now) }
{
    match session.work(tables, asked) {
        Ok(work) => told(&work, room, line),
        Err(_) => Err(Refusal::Table),
    }
}

// The line of a work, in the room of an earlier one.
#[inline(always)]
fn told(work: &Work<'_>, room: &mut Vec<u8>, line: &[u8]) -> Result<bool, Refusal>
    ensures answered { IfOk result (IsAnswer work.now line.now room.new.items) }
    ensures refused { IfErr result (λ e. e ≡ Refusal.Memory) }
{
    match work.answer(room, line) {
        Ok(accepted) => Ok(accepted),
        Err(_) => Err(Refusal::Memory),
    }
}

// Writes a line without its line feed to the beginning of `out`. Where it has no room, its length alone is told.
pub fn put_line(text: &[u8], out: &mut [u8], written: &mut usize) -> Result<(), Refusal>
    ensures put { IfOk result (λ _. take written.new out.new ≡ unended text.now) }
    ensures writes { IfOk result (λ _. Writes out.old out.new written.new) }
    ensures room { IfErr result (λ e. (e ≡ Refusal.Room) × (out.new ≡ out.old)
        × (written.new ≡ length (unended text.now))
        × (length out.old < length (unended text.now))) }
{
    let (front, _) = text.split_at(unended_length(text));
    put_text(front, out, written)
}

// Writes a text to the beginning of `out`. Where it has no room, its length alone is told.
pub fn put_text(text: &[u8], out: &mut [u8], written: &mut usize) -> Result<(), Refusal>
    ensures put { IfOk result (λ _. take written.new out.new ≡ text.now) }
    ensures writes { IfOk result (λ _. Writes out.old out.new written.new) }
    ensures room { IfErr result (λ e. (e ≡ Refusal.Room) × (out.new ≡ out.old)
        × (written.new ≡ length text.now) × (length out.old < length text.now)) }
{
    *written = text.len();
    if out.len() < text.len() {
        return Err(Refusal::Room);
    }
    out[..text.len()].copy_from_slice(text);
    Ok(())
}

fn unended_length(text: &[u8]) -> usize
    ensures { result ≡ length text.now - 1 }
{
    text.len().saturating_sub(1)
}
