//! Tables that several handles have, and what one of them keeps beside them.
ghost use Rattle.std.specs.Prelude.{◌≡◌, Some, IfOk, IfErr};
ghost use Rattle.icu_locale_c.specs.Calls.{IsCall, IsSettledCall, IsSupplemented};
ghost use Rattle.icu_locale_c.specs.Data.{IsMissingCall, IsNamedCall};
ghost use Rattle.icu_locale_c.specs.Flat.{IsFlatCall, IsLent};
ghost use Rattle.icu_locale_lines.specs.Held.{Held, IsSessionOver, ServesListed, held_in, without_list};
ghost use Rattle.icu_locale_c.specs.Held.{held_code};
ghost use Rattle.icu_locale_c.specs.Negotiations.{IsListed, IsMet, IsRefusedListing, IsRefusedNegotiation};

use crate::lines::{line_of, put_line, put_text};
use crate::negotiations::{list_available, negotiate, negotiator_over};
use crate::refusal::Refusal;
use crate::words::read_command;
use icu_locale_extensions::Syntax;
use icu_locale_lines::{Session, load_expander, missing_table};
use icu_tables::{Supplement, TableError, Tables};
use icu_tables_flat::{FlatError, FlatTexts};
use std::alloc::Global;
use std::marker::Model;
use std::sync::Arc;

// Tables, what was made beside them, a list of what is available among it where there is one, and the room of the last
// answer.
pub struct Shared {
    tables: Arc<Tables>,
    session: Session,
    room: Vec<u8>,
}

impl Model for Shared {
    ghost Value = { Held };

    ghost coded = { held_code };

    ghost view = { λ s. held_in s.tables.value s.session };

    ghost invariant = { λ s. IsSessionOver s.tables.value s.session × ServesListed s.session };
}

impl Drop for Shared {
    fn drop(self) {
        let Shared {
            tables: _,
            session: _,
            room: _,
        } = self;
    }
}

impl Shared {
    pub fn new(alloc: Global, tables: Tables) -> Result<Box<Shared>, Refusal>
        ensures made { IfOk result (λ b. b.value ≡ without_list tables) }
        ensures refused { IfErr result (λ e. e ≡ Refusal.Memory) }
    {
        let Ok(tables) = Arc::new(alloc, tables) else {
            return Err(Refusal::Memory);
        };
        alone(alloc, tables)
    }

    // Reads the supplement of the tables, in place of theirs, where no other handle has them.
    pub fn supplement(&mut self, alloc: Global, json: &[u8]) -> Result<(), Refusal>
        ensures { IsSupplemented (Some self.old) json.now (Some self.new) result }
    {
        let supplement = match Supplement::from_json(alloc, json) {
            Ok(supplement) => supplement,
            Err(TableError::Json) => return Err(Refusal::Json),
            Err(TableError::Shape) => return Err(Refusal::Shape),
            Err(TableError::Memory) => return Err(Refusal::Memory),
        };
        match Arc::get_mut(&mut self.tables) {
            Some(tables) => {
                tables.set_supplement(supplement);
                self.session.served = None;
                Ok(())
            }
            None => Err(Refusal::Shared),
        }
    }

    // Lends names in the flat form to the tables, where no other handle has them.
    pub fn lend_names(&mut self, flat: &'static [u8]) -> Result<(), Refusal>
        ensures { IsLent (Some self.old) flat.now (Some self.new) result }
    {
        let Ok(names) = FlatTexts::from_bytes(flat) else {
            return Err(Refusal::Shape);
        };
        let Some(tables) = Arc::get_mut(&mut self.tables) else {
            return Err(Refusal::Shared);
        };
        tables.set_lent_names(names);
        self.session.served = None;
        Ok(())
    }

    // Writes the tables' own names in the flat form to the beginning of `out`. No length has been told before.
    pub fn put_flat_names(
        &self,
        alloc: Global,
        out: &mut [u8],
        written: &mut usize,
    ) -> Result<(), Refusal>
        requires { written.old ≡ 0 }
        ensures { IsFlatCall self.now.tables out.old out.new written.new result }
    {
        match self.tables.names.to_flat(alloc) {
            Ok(bytes) => put_text(&bytes, out, written),
            Err(FlatError::Memory) => Err(Refusal::Memory),
            Err(_) => Err(Refusal::Shape),
        }
    }

    // The same tables once more, without a list.
    pub fn again(&self, alloc: Global) -> Result<Box<Shared>, Refusal>
        ensures made { IfOk result (λ b. b.value ≡ without_list self.now.tables) }
        ensures refused { IfErr result (λ e. e ≡ Refusal.Memory) }
    {
        let Ok(tables) = Arc::clone(&self.tables) else {
            return Err(Refusal::Memory);
        };
        alone(alloc, tables)
    }

    // The same tables once more, with the list that a line lists.
    pub fn with_available(
        &self,
        alloc: Global,
        syntax: Option<Syntax>,
        line: &[u8],
    ) -> Result<Box<Shared>, Refusal>
        ensures made { IfOk result (λ b. IsListed syntax self.now.tables line.now b.value) }
        ensures refused { IfErr result (IsRefusedListing syntax self.now.tables line.now) }
    {
        let session = list_available(alloc, &self.tables, syntax, line)?;
        let Ok(tables) = Arc::clone(&self.tables) else {
            return Err(Refusal::Memory);
        };
        boxed(alloc, tables, session)
    }

    // The places of the first request of a line that is met and of what meets it.
    pub fn negotiate(
        &self,
        alloc: Global,
        syntax: Option<Syntax>,
        line: &[u8],
    ) -> Result<Option<(usize, usize)>, Refusal>
        ensures met { IfOk result (IsMet syntax self.now line.now) }
        ensures refused { IfErr result (IsRefusedNegotiation syntax self.now line.now) }
    {
        let negotiator = negotiator_over(&self.tables, &self.session)?;
        negotiate(alloc, &negotiator, syntax, line)
    }

    // Writes the name of the data to the beginning of `out`, and tells whether it has one. No length has been told before.
    pub fn put_name(&self, out: &mut [u8], written: &mut usize) -> Result<bool, Refusal>
        requires { written.old ≡ 0 }
        ensures { IsNamedCall self.now.tables out.old out.new written.new result }
    {
        match &self.tables.supplement.cldr {
            Some(name) => {
                put_text(name.as_str().as_bytes(), out, written)?;
                Ok(true)
            }
            None => Ok(false),
        }
    }

    // Writes the name of the first table that a command needs and that is not held to the beginning of `out`, and tells
    // whether there is one. No length has been told before.
    pub fn put_missing(
        &self,
        alloc: Global,
        command: &[u8],
        out: &mut [u8],
        written: &mut usize,
    ) -> Result<bool, Refusal>
        requires { written.old ≡ 0 }
        ensures { IsMissingCall self.now.tables command.now out.old out.new written.new result }
    {
        let asked = match read_command(alloc, command) {
            Ok(asked) => asked,
            Err(refusal) => return Err(refusal),
        };
        match missing_table(&asked, &self.tables) {
            Some(name) => {
                put_text(name.as_bytes(), out, written)?;
                Ok(true)
            }
            None => Ok(false),
        }
    }

    pub fn is_settled(&self) -> Result<bool, Refusal>
        ensures { IsSettledCall (Some self.now) result }
    {
        match load_expander(&self.tables) {
            Ok(expander) => Ok(expander.is_settled()),
            Err(_) => Err(Refusal::Table),
        }
    }

    // Writes the answer to a line to the beginning of `out`. No length has been told before.
    pub fn answer(
        &mut self,
        alloc: Global,
        command: &[u8],
        line: &[u8],
        out: &mut [u8],
        written: &mut usize,
    ) -> Result<bool, Refusal>
        requires { written.old ≡ 0 }
        ensures kept { self.new ≡ self.old }
        ensures called { IsCall (Some self.old) command.now line.now out.old out.new written.new
            result }
    {
        let asked = match read_command(alloc, command) {
            Ok(asked) => asked,
            Err(refusal) => return Err(refusal),
        };
        let accepted = match line_of(
            alloc,
            &self.tables,
            &mut self.session,
            &asked,
            &mut self.room,
            line,
        ) {
            Ok(accepted) => accepted,
            Err(refusal) => return Err(refusal),
        };
        match put_line(self.room.as_slice(), out, written) {
            Ok(()) => Ok(accepted),
            Err(refusal) => Err(refusal),
        }
    }
}

// Tables without a list.
fn alone(alloc: Global, tables: Arc<Tables>) -> Result<Box<Shared>, Refusal>
    ensures made { IfOk result (λ b. b.value ≡ without_list tables.value) }
    ensures refused { IfErr result (λ e. e ≡ Refusal.Memory) }
{
    let session = Session::new(alloc);
    boxed(alloc, tables, session)
}

fn boxed(alloc: Global, tables: Arc<Tables>, session: Session) -> Result<Box<Shared>, Refusal>
    requires over { IsSessionOver tables.value session }
    requires first { ServesListed session }
    ensures made { IfOk result (λ b. b.value ≡ held_in tables.value session) }
    ensures refused { IfErr result (λ e. e ≡ Refusal.Memory) }
{
    let shared = Shared {
        tables,
        session,
        room: Vec::new(alloc),
    };
    match Box::new(alloc, shared) {
        Ok(made) => Ok(made),
        Err(_) => Err(Refusal::Memory),
    }
}
