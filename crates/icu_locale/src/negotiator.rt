//! Which of the identifiers that are available means what a request means.
ghost use Rattle.std.specs.Prelude.{◌≡◌, ◌≢◌, ◌↔◌, ◌<◌, [], length, Some, Err, IsOk, IfOk};
ghost use Rattle.std.specs.Coded.{codes};
ghost use Rattle.std.specs.List.{All};
ghost use Rattle.std.specs.List.Sorted.{IsSorted};
ghost use Rattle.icu_locale_core.specs.Identifier.{IsIdentifier};
ghost use Rattle.icu_locale_core.specs.TextSet.{text_set_code};
ghost use Rattle.icu_locale.specs.LikelyTable.{likely};
ghost use Rattle.icu_locale.specs.LikelySubtags.{AreSettled};
ghost use Rattle.icu_locale.specs.Negotiation.{identifiers_of, IsMadeOver, Negotiation, IsNegotiated, refusal_name};
ghost use Rattle.icu_locale.specs.Index.{IsPlainForm, row_cmp, IsIndex};
ghost use Rattle.icu_locale.specs.inner.Index.{IsPartOf, IsFirstRow};
ghost use Rattle.icu_locale.specs.declared.negotiator.NegotiatorError.TheVariants.{Memory};

use crate::LocaleExpander;
use crate::expander::{Favor, locale_of};
use icu_locale_core::{LanguageIdentifier, Variants};
use icu_provider::DataLocale;
use std::alloc::{AllocError, Global};
use std::error::Error;
use std::fmt;
use std::marker::Model;

pub mod available;
pub mod lending;

use available::{Available, Row};
use lending::NegotiatorRef;

/// Why a negotiator is not made.
#[derive(Clone, Copy, Debug, PartialEq, Eq)]
pub enum NegotiatorError {
    /// Memory was asked for and refused.
    Memory = 1,
    /// The likely table is not settled: some maximal form has script `Zzzz` or region `ZZ`, or another maximal form.
    NotSettled = 2,
}

impl fmt::Display for NegotiatorError {
    ghost output = { λ e. Some (refusal_name e) };

    fn fmt<W: fmt::Write>(&self, f: &mut fmt::Formatter<W>) -> fmt::Result {
        f.write_str(match self {
            NegotiatorError::Memory => "Memory",
            NegotiatorError::NotSettled => "NotSettled",
        })
    }
}

impl Error for NegotiatorError {}

impl From<AllocError> for NegotiatorError {
    ghost from_gives = { λ _ e. e ≡ Memory };

    fn from(_refused: AllocError) -> Self {
        NegotiatorError::Memory
    }
}

/// Finds, over a settled likely table, the identifier among those available that means what a request means: identifiers
/// mean the same where their maximal forms are equal (UTS #35, section 4.3).
///
/// Contracts see the expander and the available identifiers. Beside these is a list of the minimal forms, sorted, so
/// that a look-up is a binary search.
#[derive(Debug)]
pub struct Negotiator<'d> {
    expander: LocaleExpander<'d>,
    available: Available,
}

impl<'d> Model for Negotiator<'d> {
    ghost Value = { Negotiation };

    ghost coded = { Prim.hlevel (codes, text_set_code) };

    ghost view = { λ n. record {
      expander = n.expander;
      available = identifiers_of n.available;
    } };

    ghost invariant = { λ n. IsMadeOver (likely n.expander) n.available };
}

impl<'d> Drop for Negotiator<'d> {
    fn drop(self) {
        let Negotiator {
            expander: _,
            available: _,
        } = self;
    }
}

impl<'d> Negotiator<'d> {
    /// Over an expander, whose likely table has to be settled, and the identifiers that are available. It takes memory
    /// for the list of their minimal forms.
    ///
    /// # Errors
    ///
    /// - `NotSettled` exactly where `LocaleExpander::is_settled` answers false. This is asked first.
    /// - `Memory` where the list of minimal forms could not be made: never where nothing is available.
    ///
    /// The available identifiers are dropped then.
    pub fn try_new(
        alloc: Global,
        expander: LocaleExpander<'d>,
        available: Vec<LanguageIdentifier>,
    ) -> Result<Self, NegotiatorError>
        ensures expander { IfOk result (λ n. n.expander ≡ expander.entry) }
        ensures available { IfOk result (λ n. n.available ≡ available.items) }
        ensures settled { IfOk result (λ n. AreSettled (likely n.expander)) }
        ensures refused { (result ≡ Err NegotiatorError.NotSettled)
            ↔ (AreSettled (likely expander.entry) → ⊥) }
        ensures free { available.items ≡ [] → result ≢ Err NegotiatorError.Memory }
    {
        let rows = settled_rows(alloc, &expander, &available)?;
        Ok(Negotiator {
            expander,
            available: Available {
                identifiers: available,
                rows,
            },
        })
    }

    /// The list that the negotiator owns, for a program that keeps it beside its tables. It takes no memory.
    pub fn into_available(self) -> Available
        ensures over { IsMadeOver (likely self.entry.expander) result }
        ensures available { identifiers_of result ≡ self.entry.available }
    {
        let Negotiator {
            expander: _,
            available: owned,
        } = self;
        owned
    }

    /// The expander, whose likely table is settled. It takes no memory.
    pub fn expander(&self) -> &LocaleExpander<'d>
        ensures expander { result.now ≡ self.now.expander }
        ensures settled { AreSettled (likely self.now.expander) }
    {
        &self.expander
    }

    /// The negotiator, lent. It takes no memory.
    #[inline(always)]
    pub fn lend(&self) -> NegotiatorRef<'_>
        ensures { result ≡ self.now }
    {
        NegotiatorRef::over(self.expander, &self.available)
    }

    /// The available identifiers, as they were handed in. It takes no memory.
    pub fn available(&self) -> &[LanguageIdentifier]
        ensures { result.now ≡ self.now.available }
    {
        self.available.identifiers()
    }

    /// The first request that an available identifier has the maximal form of, and the first such identifier: their
    /// places. None where there is none. It takes no memory.
    pub fn negotiate(&self, requests: &[LanguageIdentifier]) -> Option<(usize, usize)>
        ensures { IsNegotiated (likely self.now.expander) requests.now self.now.available result }
    {
        self.lend().negotiate(requests)
    }
}

// The rows over a likely table that is settled.
fn settled_rows(
    alloc: Global,
    expander: &LocaleExpander<'_>,
    available: &[LanguageIdentifier],
) -> Result<Vec<Row>, NegotiatorError>
    ensures settled { IfOk result (λ _. AreSettled (likely expander.now)) }
    ensures rows { IfOk result (λ rows. IsIndex (likely expander.now) available.now rows.items) }
    ensures refused { (result ≡ Err NegotiatorError.NotSettled)
        ↔ (AreSettled (likely expander.now) → ⊥) }
    ensures free { available.now ≡ [] → result ≢ Err NegotiatorError.Memory }
{
    if !expander.is_settled() {
        return Err(NegotiatorError::NotSettled);
    }
    Ok(sorted_rows(alloc, expander, available)?)
}

// A row for each available identifier, sorted.
fn sorted_rows(
    alloc: Global,
    expander: &LocaleExpander<'_>,
    available: &[LanguageIdentifier],
) -> Result<Vec<Row>, AllocError>
    ensures rows { IfOk result (λ rows. IsIndex (likely expander.now) available.now rows.items) }
    ensures free { available.now ≡ [] → IsOk result }
{
    let mut rows = Vec::with_capacity(alloc, available.len())?;
    for (place, id) in available.iter().enumerate() {
        let minimal = plain_form(expander, id);
        rows.push(Row { minimal, place })?;
    }
    rows.sort_unstable();
    Ok(rows)
}

// The minimal form of an identifier, variants aside.
fn plain_form(expander: &LocaleExpander<'_>, id: &LanguageIdentifier) -> DataLocale
    ensures form { IsPlainForm (likely expander.now) id.now result }
    ensures known { IsIdentifier id.now }
{
    id.known();
    expander.minimal_locale(Favor::RegionFirst, locale_of(id))
}

// The rows with a minimal form, which are side by side.
fn rows_with<'r>(rows: &'r [Row], minimal: &DataLocale) -> &'r [Row]
    requires { IsSorted row_cmp rows.now }
    ensures { IsPartOf rows.now minimal.now result.now }
{
    let below = rows.partition_point(|row| row.minimal < *minimal);
    let (_, rest) = rows.split_at(below);
    let count = rest.partition_point(|row| row.minimal <= *minimal);
    let (part, _) = rest.split_at(count);
    part
}

// The place of the first of these rows whose identifier has the variants.
fn first_row(rows: &[Row], available: &[LanguageIdentifier], variants: &Variants) -> Option<usize>
    requires { All (λ r. r.place < length available.now) rows.now }
    ensures { IsFirstRow available.now variants.now rows.now result }
{
    for row in rows {
        if available[row.place].variants == *variants {
            return Some(row.place);
        }
    }
    None
}
