//! What a command works with, and what it makes of one line.
ghost use Rattle.std.specs.Prelude.{◌≡◌, IfOk, IfErr, OnErr};
ghost use Rattle.icu_locale_lines.specs.Answers.{AddsLine, Keeps, IsAnswer, IsAnswerBy};

pub mod answering;
pub mod direction;
pub mod exemplars;
pub mod fallback;
pub mod form;
pub mod key;
pub mod list;
pub mod locale;
pub mod name;
pub mod offered;
pub mod parts;
pub mod places;
pub mod serve;
pub mod subtag;
pub mod subtag_line;
pub mod subtag_list;
pub mod validate;
pub mod value;

use crate::command::{KeyOf, ServeTask};
use crate::error::CliError;
use crate::work::direction::add_direction;
use crate::work::exemplars::add_exemplar;
use crate::work::fallback::add_chain;
use crate::work::form::{Form, add_form};
use crate::work::key::add_key;
use crate::work::list::add_requests;
use crate::work::locale::add_locale;
use crate::work::name::{Naming, add_name};
use crate::work::offered::Offered;
use crate::work::parts::add_parts;
use crate::work::places::{add_placed, place_of};
use crate::work::serve::{add_distance, add_served};
use crate::work::subtag::SubtagNaming;
use crate::work::subtag_line::add_subtag_name;
use crate::work::subtag_list::{SubtagList, add_list};
use crate::work::validate::add_report;
use icu_locale::{LocaleDirectionality, LocaleExpander, NegotiatorRef};
use icu_locale_extensions::Syntax;
use icu_locale_fallback::LocaleFallbackerWithConfig;
use icu_locale_matching::LocaleServer;
use icu_locale_validity::Validity;
use icu_locale_values::WholeCanonicalizer;
use icu_provider::{ExemplarCharactersData, LanguageMatching};

/// What a command works with: the syntax of its lines, whether places are told, and what it asks of each. It borrows all that it works with.
#[derive(Debug, Drop)]
pub struct Work<'r> {
    /// The syntax of locale identifiers. Without one a line holds identifiers alone.
    pub syntax: Option<Syntax>,
    /// Whether the place of its fault is told of a line that is refused.
    pub places: bool,
    /// What each line is brought to.
    pub tools: Tools<'r>,
}

/// What a task works with: tables, rules that were read, and what is available. It borrows them.
#[derive(Debug, Drop)]
pub enum Tools<'r> {
    /// Each identifier is brought to a form.
    Form(Form, LocaleExpander<'r>),
    /// Each locale is brought to its canonical form.
    Canonicalize(WholeCanonicalizer<'r>),
    /// The direction of each identifier is told.
    Direction(LocaleDirectionality<'r>),
    /// Each line lists requests, and has what is available as it is written.
    Negotiate(NegotiatorRef<'r>, &'r Offered),
    /// Each identifier is named.
    Name(Naming<'r>),
    /// The chain of each identifier is written.
    Fallback(LocaleFallbackerWithConfig<'r>),
    /// Each line says what is wished, and has what is served as it is written.
    Serve(ServeTask, LocaleServer<'r>, &'r Offered),
    /// The distance of two identifiers is told.
    Distance(LocaleExpander<'r>, &'r LanguageMatching),
    /// The parts of each locale are told.
    Parts,
    /// Each locale is brought to its key.
    Key(KeyOf, WholeCanonicalizer<'r>),
    /// Each locale has its validity told.
    Validate(&'r Validity),
    /// Each subtag is named.
    SubtagName(SubtagNaming<'r>),
    /// Of each text it is told whether it is among exemplar characters.
    Exemplars(&'r ExemplarCharactersData),
    /// Subtags that have names are listed.
    Subtags(SubtagList<'r>),
}

impl<'r> Work<'r> {
    /// Appends the answer to one line to the others.
    ///
    /// # Errors
    ///
    /// `Memory` where memory was refused. The text is as it was then.
    #[inline(always)]
    pub fn add_answer(&self, text: &mut Vec<u8>, line: &[u8]) -> Result<bool, CliError>
        ensures answer { IfOk result (AddsLine (IsAnswer self.now line.now)
            text.old.items text.new.items) }
        ensures refused { IfErr result (λ e. e ≡ CliError.Memory) }
        ensures unchanged { OnErr result (text.new.items ≡ text.old.items) }
    {
        let before = text.len();
        match self.add(text, line) {
            Ok(accepted) => Ok(accepted),
            Err(refusal) => {
                text.truncate(before);
                Err(refusal)
            }
        }
    }

    /// The answer to one line, in the room of an earlier one, and whether the line was accepted.
    ///
    /// # Errors
    ///
    /// `Memory` where memory was refused.
    #[inline(always)]
    pub fn answer(&self, room: &mut Vec<u8>, line: &[u8]) -> Result<bool, CliError>
        ensures answer { IfOk result (IsAnswer self.now line.now room.new.items) }
        ensures refused { IfErr result (λ e. e ≡ CliError.Memory) }
    {
        room.clear();
        self.add(room, line)
    }

    // Appends the answer to the others, or a part of it where memory is refused.
    #[inline(always)]
    fn add(&self, text: &mut Vec<u8>, line: &[u8]) -> Result<bool, CliError>
        ensures answer { IfOk result (AddsLine (IsAnswer self.now line.now)
            text.old.items text.new.items) }
        ensures refused { IfErr result (λ e. e ≡ CliError.Memory) }
        ensures kept { OnErr result (Keeps text.old.items text.new.items) }
    {
        let before = text.as_slice().len();
        let accepted = self.add_unplaced(text, line)?;
        if accepted || !self.places {
            return Ok(accepted);
        }
        match place_of(*text.allocator(), line)? {
            None => Ok(false),
            Some(place) => {
                text.truncate(before);
                add_placed(text, place)
            }
        }
    }

    // The same where no place is told. What most lines ask for goes by value, so that a work which is made for one line
    // alone needs no room.
    #[inline(always)]
    fn add_unplaced(&self, text: &mut Vec<u8>, line: &[u8]) -> Result<bool, CliError>
        ensures answer { IfOk result (AddsLine
            (IsAnswerBy self.now.syntax self.now.tools line.now)
            text.old.items text.new.items) }
        ensures refused { IfErr result (λ e. e ≡ CliError.Memory) }
        ensures kept { OnErr result (Keeps text.old.items text.new.items) }
    {
        let syntax = self.syntax;
        match &self.tools {
            Tools::Form(form, expander) => add_form(text, *form, *expander, syntax, line),
            Tools::Canonicalize(canonicalizer) => add_locale(text, *canonicalizer, syntax, line),
            Tools::Direction(directionality) => add_direction(text, directionality, syntax, line),
            Tools::Negotiate(negotiator, offered) => {
                add_requests(text, negotiator, offered, syntax, line)
            }
            Tools::Name(naming) => add_name(text, naming, syntax, line),
            Tools::Fallback(fallbacker) => add_chain(text, fallbacker, syntax, line),
            Tools::Serve(how, server, offered) => {
                add_served(text, server, offered, *how, syntax, line)
            }
            Tools::Distance(expander, matching) => {
                add_distance(text, expander, matching, syntax, line)
            }
            Tools::Parts => add_parts(text, syntax, line),
            Tools::Key(of, canonicalizer) => add_key(text, *of, *canonicalizer, syntax, line),
            Tools::Validate(validity) => add_report(text, validity, syntax, line),
            Tools::SubtagName(naming) => add_subtag_name(text, naming, line),
            Tools::Exemplars(set) => add_exemplar(text, set, line),
            Tools::Subtags(list) => add_list(text, list, line),
        }
    }
}
