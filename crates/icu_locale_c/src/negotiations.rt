//! A list of what is available, kept beside the tables over which it was made, and negotiation over it.
ghost use Rattle.std.specs.Prelude.{IfOk, IfErr};
ghost use Rattle.icu_locale_lines.specs.Held.{Held, IsNegotiationOf, IsSessionOver, ServesListed, held_in};
ghost use Rattle.icu_locale_c.specs.Asked.{HasNoNegotiation};
ghost use Rattle.icu_locale_c.specs.Negotiations.{IsListFault, IsListed, IsMet, IsRefusedListing, IsRefusedRequests};

use crate::refusal::Refusal;
use icu_locale::NegotiatorRef;
use icu_locale_core::ParseError;
use icu_locale_extensions::Syntax;
use icu_locale_lines::{CliError, KeptList, Session, fault_of_list, read_list};
use icu_tables::Tables;
use std::alloc::Global;

// A session with the list that a line lists, over tables with likely tables.
pub fn list_available(
    alloc: Global,
    tables: &Tables,
    syntax: Option<Syntax>,
    line: &[u8],
) -> Result<Session, Refusal>
    ensures over { IfOk result (IsSessionOver tables.now) }
    ensures first { IfOk result ServesListed }
    ensures listed { IfOk result (λ s. IsListed syntax tables.now line.now
        (held_in tables.now s)) }
    ensures refused { IfErr result (IsRefusedListing syntax tables.now line.now) }
{
    match Session::with_list(alloc, tables, syntax, line) {
        Ok(session) => Ok(session),
        Err(CliError::Memory) => Err(Refusal::Memory),
        Err(CliError::Available(_)) => Err(Refusal::List),
        Err(_) => Err(Refusal::Table),
    }
}

// The negotiator over a list that is kept.
pub fn negotiator_over<'r>(
    tables: &'r Tables,
    session: &'r Session,
) -> Result<NegotiatorRef<'r>, Refusal>
    requires over { IsSessionOver tables.now session.now }
    requires first { ServesListed session.now }
    ensures over { IfOk result (IsNegotiationOf (held_in tables.now session.now)) }
    ensures refused { IfErr result (HasNoNegotiation (held_in tables.now session.now)) }
{
    match &session.list {
        Some(KeptList::Settled(_)) => {}
        Some(KeptList::Unsettled(_)) => return Err(Refusal::Unsettled),
        None => return Err(Refusal::Negotiate),
    }
    match session.negotiator(tables) {
        Ok(negotiator) => Ok(negotiator),
        Err(_) => unreachable!(),
    }
}

// The places of the first request of a line that is met and of what meets it.
pub fn negotiate(
    alloc: Global,
    negotiator: &NegotiatorRef<'_>,
    syntax: Option<Syntax>,
    line: &[u8],
) -> Result<Option<(usize, usize)>, Refusal>
    ensures met { (h : Held) → IsNegotiationOf h negotiator.now
        → IfOk result (IsMet syntax h line.now) }
    ensures refused { IfErr result (IsRefusedRequests syntax line.now) }
{
    match read_list(alloc, syntax, line) {
        Ok(requests) => Ok(negotiator.negotiate(&requests)),
        Err(ParseError::Memory) => Err(Refusal::Memory),
        Err(_) => Err(Refusal::List),
    }
}

// Puts the place of the first text of a list that spells no identifier, if there is one.
pub fn put_fault(
    alloc: Global,
    syntax: Option<Syntax>,
    list: &[u8],
    place: &mut usize,
) -> Result<(), Refusal>
    ensures { IsListFault syntax list.now place.old place.new result }
{
    match fault_of_list(alloc, syntax, list) {
        Ok(None) => Ok(()),
        Ok(Some(found)) => {
            *place = found;
            Err(Refusal::List)
        }
        Err(_) => Err(Refusal::Memory),
    }
}
