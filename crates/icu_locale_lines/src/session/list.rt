//! A list of what is available, as a session keeps it.
ghost use Rattle.std.specs.Prelude.{◌≡◌, Some, IfOk, IfErr};
ghost use Rattle.icu_tables.specs.declared.tables.Tables.{Tables};
ghost use Rattle.icu_locale_lines.specs.Commands.{HoldsSettled};
ghost use Rattle.icu_locale_lines.specs.Held.{IsListOver, IsSettledList, identifiers_of_list};
ghost use Rattle.icu_locale_lines.specs.Loads.{IsExpanderOf};

use crate::error::CliError;
use crate::session::load::load_expander;
use icu_locale::{Available, LocaleExpander, Negotiator, NegotiatorError};
use icu_locale_core::LanguageIdentifier;
use icu_tables::Tables;
use std::alloc::{AllocError, Global};

/// What is available, and over settled tables what finds a request in it.
#[derive(Debug, Drop)]
pub enum KeptList {
    /// Over settled tables.
    Settled(Available),
    /// Over others.
    Unsettled(Vec<LanguageIdentifier>),
}

impl KeptList {
    /// The list over an expander.
    ///
    /// # Errors
    ///
    /// `AllocError` where memory was refused: never over tables that are not settled.
    pub fn over(
        alloc: Global,
        expander: LocaleExpander<'_>,
        identifiers: Vec<LanguageIdentifier>,
    ) -> Result<Self, AllocError>
        ensures same { IfOk result (λ list. identifiers_of_list list ≡ identifiers.items) }
        ensures over { (t : Tables) → IsExpanderOf t expander.entry
            → IfOk result (IsListOver t) }
    {
        if !expander.is_settled() {
            return Ok(KeptList::Unsettled(identifiers));
        }
        match Negotiator::try_new(alloc, expander, identifiers) {
            Ok(negotiator) => Ok(KeptList::Settled(negotiator.into_available())),
            Err(_) => Err(AllocError),
        }
    }

    /// The identifiers, as they were handed in. It takes no memory.
    pub fn identifiers(&self) -> &[LanguageIdentifier]
        ensures { result.now ≡ identifiers_of_list self.now }
    {
        match self {
            KeptList::Settled(available) => available.identifiers(),
            KeptList::Unsettled(identifiers) => identifiers,
        }
    }
}

/// A list to be negotiated over, over tables that are settled. It takes memory for that.
///
/// # Errors
///
/// `Memory` where memory was refused.
pub fn settled_list(
    alloc: Global,
    tables: &Tables,
    identifiers: Vec<LanguageIdentifier>,
) -> Result<KeptList, CliError>
    requires { HoldsSettled tables.now }
    ensures settled { IfOk result (λ list. IsSettledList (Some list)) }
    ensures same { IfOk result (λ list. identifiers_of_list list ≡ identifiers.items) }
    ensures over { IfOk result (IsListOver tables.now) }
    ensures refused { IfErr result (λ e. e ≡ CliError.Memory) }
{
    let Ok(expander) = load_expander(tables) else {
        unreachable!()
    };
    match Negotiator::try_new(alloc, expander, identifiers) {
        Ok(negotiator) => Ok(KeptList::Settled(negotiator.into_available())),
        Err(NegotiatorError::Memory) => Err(CliError::Memory),
        Err(NegotiatorError::NotSettled) => unreachable!(),
    }
}

/// Identifiers once more. It takes memory for them.
///
/// # Errors
///
/// `Memory` where memory was refused.
pub fn copied(
    alloc: Global,
    identifiers: &[LanguageIdentifier],
) -> Result<Vec<LanguageIdentifier>, CliError>
    ensures same { IfOk result (λ list. list.items ≡ identifiers.now) }
    ensures refused { IfErr result (λ e. e ≡ CliError.Memory) }
{
    let mut list = Vec::with_capacity(alloc, identifiers.len())?;
    for identifier in identifiers {
        let Ok(copy) = identifier.try_clone() else {
            return Err(CliError::Memory);
        };
        if list.push(copy).is_err() {
            return Err(CliError::Memory);
        }
    }
    Ok(list)
}
