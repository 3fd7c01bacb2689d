//! The work that a session lends, with its tables.
ghost use Rattle.std.specs.Prelude.{◌≡◌, ◌&&◌, IfOk, IfErr, IsSome, is_ok};
ghost use Rattle.icu_locale_lines.specs.Commands.{has_matching, has_tables};
ghost use Rattle.icu_locale_lines.specs.Held.{HasKept, IsNegotiationOf, IsServerOver, IsSessionOver, IsSettledList, IsWorkOver, held_in};
ghost use Rattle.icu_locale_lines.specs.Loads.{has_likely, has_rules, not_found};
ghost use Rattle.icu_locale_lines.specs.declared.command.Command.TheVariants.{Lines};

use crate::command::{LineCommand, Task};
use crate::error::CliError;
use crate::session::Session;
use crate::session::list::KeptList;
use crate::session::load::{
    lend_service, load_canonical_names, load_directionality, load_expander, load_fallbacker,
    load_naming, load_subtag_list, load_subtag_naming, load_whole_canonicalizer, table_held,
};
use crate::work::{Tools, Work};
use icu_locale::NegotiatorRef;
use icu_locale_matching::{LocaleServer, MatchLimits};
use icu_provider::DataProvider;
use icu_tables::Tables;

impl Session {
    /// The work of a command. It takes no memory.
    ///
    /// # Errors
    ///
    /// `Data` exactly where a table that the command needs is not held.
    pub fn work<'r>(
        &'r self,
        tables: &'r Tables,
        command: &LineCommand,
    ) -> Result<Work<'r>, CliError>
        requires over { IsSessionOver tables.now self.now }
        requires kept { HasKept command.now tables.now self.now }
        ensures work { IfOk result (IsWorkOver command.now (held_in tables.now self.now)) }
        ensures loaded { is_ok result ≡ has_tables (Lines command.now) tables.now }
        ensures refused { IfErr result (λ e. e ≡ CliError.Data not_found) }
    {
        let (syntax, places) = (command.syntax, command.places);
        let tools = match command.task {
            Task::Form(form) => Tools::Form(form, load_expander(tables)?),
            Task::Canonicalize => {
                Tools::Canonicalize(load_whole_canonicalizer(tables, &self.rules)?)
            }
            Task::Direction => Tools::Direction(load_directionality(tables)?),
            Task::Negotiate => Tools::Negotiate(self.negotiator(tables)?, &self.offered),
            Task::Name(chain, preferences) => {
                let canonicalizer = load_canonical_names(syntax, tables, &self.rules);
                Tools::Name(load_naming(tables, chain, preferences, canonicalizer))
            }
            Task::Fallback => Tools::Fallback(load_fallbacker(tables)?),
            Task::Serve(how) => Tools::Serve(how, self.server(tables, how.limits)?, &self.offered),
            Task::Distance => {
                let matching = table_held(&tables.supplement.matching)?;
                Tools::Distance(load_expander(tables)?, matching)
            }
            Task::Parts => Tools::Parts,
            Task::Key(of) => Tools::Key(of, load_whole_canonicalizer(tables, &self.rules)?),
            Task::Validate => Tools::Validate(table_held(&tables.supplement.validity)?),
            Task::SubtagName(chain, preferences) => {
                Tools::SubtagName(load_subtag_naming(tables, chain, preferences))
            }
            Task::Exemplars(marker, preferences) => {
                Tools::Exemplars(tables.load_exemplars(marker, preferences.locale)?)
            }
            Task::Subtags(kind, preferences) => {
                Tools::Subtags(load_subtag_list(tables, kind, preferences))
            }
        };
        Ok(Work {
            syntax,
            places,
            tools,
        })
    }

    /// The negotiator over a list that may be negotiated over. It takes no memory.
    ///
    /// # Errors
    ///
    /// `Data` exactly where a likely table is not held.
    pub fn negotiator<'r>(&'r self, tables: &'r Tables) -> Result<NegotiatorRef<'r>, CliError>
        requires over { IsSessionOver tables.now self.now }
        requires settled { IsSettledList self.now.list }
        ensures over { IfOk result (IsNegotiationOf (held_in tables.now self.now)) }
        ensures loaded { is_ok result ≡ has_likely tables.now }
        ensures refused { IfErr result (λ e. e ≡ CliError.Data not_found) }
    {
        match &self.list {
            Some(KeptList::Settled(available)) => {
                Ok(NegotiatorRef::over(load_expander(tables)?, available))
            }
            _ => unreachable!(),
        }
    }

    // The server over what is kept, within limits.
    fn server<'r>(
        &'r self,
        tables: &'r Tables,
        limits: MatchLimits,
    ) -> Result<LocaleServer<'r>, CliError>
        requires over { IsSessionOver tables.now self.now }
        requires rules { IsSome self.now.rules }
        requires served { IsSome self.now.served }
        ensures over { IfOk result (IsServerOver (held_in tables.now self.now) limits) }
        ensures loaded { is_ok result ≡ (has_matching tables.now && has_rules tables.now) }
        ensures refused { IfErr result (λ e. e ≡ CliError.Data not_found) }
    {
        let (rules, matching) = lend_service(tables, &self.rules)?;
        match &self.served {
            Some(served) => Ok(LocaleServer::over(rules, matching, limits, served)),
            None => unreachable!(),
        }
    }
}
