//! What is made beside tables for the tasks that ask for it, and the work that it lends.
ghost use Rattle.std.specs.Prelude.{◌≡◌, ◌↔◌, ◌⊎◌, ◌&&◌, true, false, Err, IfOk, IfErr, IfSome, IsOk, IsSome, IsSomeAnd};
ghost use Rattle.icu_locale.specs.Rules.{HasNoTexts};
ghost use Rattle.icu_locale_matching.specs.Service as service;
ghost use Rattle.icu_tables.specs.declared.tables.Tables.{Tables};
ghost use Rattle.icu_locale_lines.specs.Commands.{HasRules, IsUnsettled, has_matching, has_tables, reads_rules};
ghost use Rattle.icu_locale_lines.specs.Held.{HoldsList, IsListedFor, IsReady, IsRefusedListing, IsServeTask, IsServedOver, IsSessionOver, ServesListed, StaysKept, held_in, without_list};
ghost use Rattle.icu_locale_lines.specs.Loads.{has_likely, has_rules, not_found};
ghost use Rattle.icu_locale_lines.specs.Tasks.{asks_list};
ghost use Rattle.icu_locale_lines.specs.WholeRuns.{IsUnloaded, IsUnlisted};
ghost use Rattle.icu_locale_lines.specs.declared.command.Command.TheVariants.{Lines};

pub mod lending;
pub mod list;
pub mod load;

use crate::command::{LineCommand, Task};
use crate::error::CliError;
use crate::session::list::{KeptList, copied, settled_list};
use crate::session::load::{
    has_tables, lend_service, load_expander, not_held, read_rules, reads_rules,
};
use crate::work::offered::{Offered, listed_in};
use icu_locale::ReadRules;
use icu_locale_core::LanguageIdentifier;
use icu_locale_extensions::Syntax;
use icu_locale_matching::ServedLocales;
use icu_tables::Tables;
use std::alloc::Global;

/// What is made beside tables for the tasks that ask for it, and kept: rules, and what is available.
#[derive(Debug)]
pub struct Session {
    /// The rules that were read of the aliases.
    pub rules: Option<ReadRules>,
    /// What is available, where it may be negotiated over.
    pub list: Option<KeptList>,
    /// What is available, as it is served.
    pub served: Option<ServedLocales>,
    /// How what is available is written.
    pub offered: Offered,
}

impl Drop for Session {
    fn drop(self) {
        let Session {
            rules: _,
            list: _,
            served: _,
            offered: _,
        } = self;
    }
}

impl Session {
    /// With nothing yet. It takes no memory.
    pub fn new(alloc: Global) -> Self
        ensures over { (t : Tables) → IsSessionOver t result }
        ensures held { (t : Tables) → held_in t result ≡ without_list t }
        ensures first { ServesListed result }
    {
        Session {
            rules: None,
            list: None,
            served: None,
            offered: Offered {
                wholes: Vec::new(alloc),
            },
        }
    }

    /// What a command asks for before its first line: its tables are held, for `negotiate` they are settled, and its rules
    /// are read. It takes memory for the rules.
    ///
    /// # Errors
    ///
    /// - `Data` exactly where a table that the command needs is not held.
    /// - `NotSettled` exactly where `negotiate` finds likely tables that are not settled.
    /// - `Memory` where the rules found no room.
    pub fn open(alloc: Global, tables: &Tables, command: &LineCommand) -> Result<Self, CliError>
        ensures ready { IfOk result (IsReady command.now tables.now) }
        ensures data { (result ≡ Err (CliError.Data not_found))
            ↔ (has_tables (Lines command.now) tables.now ≡ false) }
        ensures unsettled { (result ≡ Err CliError.NotSettled)
            ↔ IsUnsettled (Lines command.now) tables.now }
        ensures refused { IfErr result (IsUnloaded (Lines command.now) tables.now) }
    {
        if !has_tables(command, tables) {
            return Err(not_held());
        }
        if let Task::Negotiate = command.task {
            let expander = load_expander(tables)?;
            if !expander.is_settled() {
                return Err(CliError::NotSettled);
            }
        }
        let mut session = Session::new(alloc);
        session.read_rules(alloc, tables, command)?;
        Ok(session)
    }

    /// A session with the list that a line lists, over tables with likely tables. It takes memory for that.
    ///
    /// # Errors
    ///
    /// - `Data` exactly where a likely table is not held, which is asked first.
    /// - `Available` where the line has a fault: the first one.
    /// - `Memory` where memory was refused.
    pub fn with_list(
        alloc: Global,
        tables: &Tables,
        syntax: Option<Syntax>,
        line: &[u8],
    ) -> Result<Self, CliError>
        ensures over { IfOk result (IsSessionOver tables.now) }
        ensures listed { IfOk result (λ s. HoldsList syntax line.now (held_in tables.now s)) }
        ensures first { IfOk result ServesListed }
        ensures loaded { IfOk result (λ _. has_likely tables.now ≡ true) }
        ensures refused { IfErr result (IsRefusedListing syntax tables.now line.now) }
    {
        let expander = load_expander(tables)?;
        let (identifiers, offered) = listed_in(alloc, syntax, line)?;
        let list = KeptList::over(alloc, expander, identifiers)?;
        Ok(Session {
            rules: None,
            list: Some(list),
            served: None,
            offered,
        })
    }

    // Reads the rules that a command works by, where none are kept.
    fn read_rules(
        &mut self,
        alloc: Global,
        tables: &Tables,
        command: &LineCommand,
    ) -> Result<(), CliError>
        ensures over { IsSessionOver tables.now self.old → IsSessionOver tables.now self.new }
        ensures rules { IsSessionOver tables.now self.old → IsOk result
            → HasRules command.now tables.now self.new.rules }
        ensures list { self.new.list ≡ self.old.list }
        ensures served { self.new.served ≡ self.old.served }
        ensures stays { StaysKept tables.now self.old self.new }
        ensures none { reads_rules command.now tables.now ≡ false → IsOk result }
        ensures again { IsSome self.old.rules → IsOk result }
        ensures free { has_tables (Lines command.now) tables.now ≡ true
            → IfSome tables.now.aliases HasNoTexts → IsOk result }
        ensures which { IfErr result
            (λ e. (e ≡ CliError.Data not_found) ⊎ (e ≡ CliError.Memory)) }
        ensures refused { IfErr result (IsUnloaded (Lines command.now) tables.now) }
    {
        if self.rules.is_some() || !reads_rules(command, tables) {
            return Ok(());
        }
        if !has_tables(command, tables) {
            return Err(not_held());
        }
        self.rules = Some(read_rules(alloc, tables)?);
        Ok(())
    }

    /// With what a line lists, for a command that asks for a list. It takes memory for that.
    ///
    /// # Errors
    ///
    /// - `Available` where the line has a fault: the first one.
    /// - `Memory` where memory was refused.
    pub fn listing(
        self,
        alloc: Global,
        tables: &Tables,
        command: &LineCommand,
        line: &[u8],
    ) -> Result<Self, CliError>
        requires ready { IsReady command.now tables.now self }
        requires lists { asks_list command.now.task ≡ true }
        ensures kept { IfOk result (IsListedFor command.now tables.now line.now) }
        ensures refused { IfErr result (IsUnlisted command.now tables.now line.now) }
    {
        let Session {
            rules,
            list: _,
            served: _,
            offered: _,
        } = self;
        let (identifiers, offered) = listed_in(alloc, command.syntax, line)?;
        match command.task {
            Task::Serve(_) => {
                let served = served_by(alloc, tables, &rules, identifiers)?;
                Ok(Session {
                    rules,
                    list: None,
                    served: Some(served),
                    offered,
                })
            }
            _ => {
                let list = settled_list(alloc, tables, identifiers)?;
                Ok(Session {
                    rules,
                    list: Some(list),
                    served: None,
                    offered,
                })
            }
        }
    }

    /// Makes what a command asks for beside its tables, where it is not kept. It takes memory for that.
    ///
    /// # Errors
    ///
    /// - `Data` where a table that the command needs is not held.
    /// - `Memory` where memory was refused.
    pub fn keep(
        &mut self,
        alloc: Global,
        tables: &Tables,
        command: &LineCommand,
    ) -> Result<(), CliError>
        requires over { IsSessionOver tables.now self.old }
        requires list { IsServeTask command.now.task → IsSome self.old.list }
        ensures over { IsSessionOver tables.now self.new }
        ensures rules { IsOk result → HasRules command.now tables.now self.new.rules }
        ensures served { IsOk result → IsServeTask command.now.task → IsSome self.new.served }
        ensures list { self.new.list ≡ self.old.list }
        ensures first { ServesListed self.old → ServesListed self.new }
        ensures stays { StaysKept tables.now self.old self.new }
        ensures none { reads_rules command.now tables.now ≡ false → IsOk result }
        ensures free { command.now.task ≡ Task.Canonicalize
            → has_tables (Lines command.now) tables.now ≡ true
            → IfSome tables.now.aliases HasNoTexts → IsOk result }
        ensures which { IfErr result
            (λ e. (e ≡ CliError.Data not_found) ⊎ (e ≡ CliError.Memory)) }
        ensures refused { IfErr result (IsUnloaded (Lines command.now) tables.now) }
    {
        self.read_rules(alloc, tables, command)?;
        match command.task {
            Task::Serve(_) => self.serve(alloc, tables, command),
            _ => Ok(()),
        }
    }

    // Prepares the list to be served, by the rules that are kept, where that is not kept.
    fn serve(
        &mut self,
        alloc: Global,
        tables: &Tables,
        command: &LineCommand,
    ) -> Result<(), CliError>
        requires over { IsSessionOver tables.now self.old }
        requires list { IsSome self.old.list }
        requires rules { HasRules command.now tables.now self.old.rules }
        requires task { IsServeTask command.now.task }
        ensures over { IsSessionOver tables.now self.new }
        ensures served { IsOk result → IsSome self.new.served }
        ensures rules { self.new.rules ≡ self.old.rules }
        ensures list { self.new.list ≡ self.old.list }
        ensures stays { StaysKept tables.now self.old self.new }
        ensures which { IfErr result
            (λ e. (e ≡ CliError.Data not_found) ⊎ (e ≡ CliError.Memory)) }
        ensures refused { IfErr result (IsUnloaded (Lines command.now) tables.now) }
    {
        if self.served.is_some() {
            return Ok(());
        }
        if !has_tables(command, tables) {
            return Err(not_held());
        }
        let Some(list) = &self.list else {
            unreachable!()
        };
        let identifiers = copied(alloc, list.identifiers())?;
        self.served = Some(served_by(alloc, tables, &self.rules, identifiers)?);
        Ok(())
    }
}

// What is served of identifiers, by rules that were read.
fn served_by(
    alloc: Global,
    tables: &Tables,
    rules: &Option<ReadRules>,
    identifiers: Vec<LanguageIdentifier>,
) -> Result<ServedLocales, CliError>
    requires { IsSome rules.now }
    ensures available { IfOk result (λ s. service.identifiers_of s ≡ identifiers.items) }
    ensures over { IfOk result (λ s. IsSomeAnd rules.now
        (λ read. IsServedOver tables.now read s)) }
    ensures refused { IfErr result (λ e. (e ≡ CliError.Memory)
        ⊎ ((e ≡ CliError.Data not_found)
        × ((has_matching tables.now && has_rules tables.now) ≡ false))) }
{
    let (rules, matching) = lend_service(tables, rules)?;
    Ok(ServedLocales::try_new(alloc, &rules, matching, identifiers)?)
}
