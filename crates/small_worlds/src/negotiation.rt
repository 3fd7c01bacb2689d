//! Negotiations, by a search through the maximal forms.
use crate::fault::Fault;
use crate::likely::{Row, maximal};
use crate::numbers::{Drawn, Numbers};
use crate::plain::Plain;
use crate::report::Report;
use crate::subtags::Subtags;
use icu_locale::{LocaleExpander, Negotiator, NegotiatorError, NegotiatorRef};
use icu_locale_core::LanguageIdentifier;
use std::alloc::Global;

fn held(
    alloc: Global,
    list: &[Plain],
    subtags: &Subtags,
) -> Result<Vec<LanguageIdentifier>, Fault> {
    let mut all = Vec::new(alloc);
    for x in list {
        all.push(x.held(alloc, subtags)?)?;
    }
    Ok(all)
}

// Whether what a negotiator shows is the list that was handed in.
fn shows(shown: &[LanguageIdentifier], available: &[Plain], subtags: &Subtags) -> bool {
    for (id, x) in shown.iter().zip(available) {
        if !x.is_held_as(id, subtags) {
            return false;
        }
    }
    shown.len() == available.len()
}

// The first request that some available identifier has the maximal form of, and the first such identifier.
fn wanted(
    rows: &[Row],
    subtags: &Subtags,
    available: &[Plain],
    requests: &[Plain],
) -> Option<(usize, usize)> {
    for (asked, request) in requests.iter().enumerate() {
        let form = maximal(rows, subtags, request);
        for (place, x) in available.iter().enumerate() {
            if maximal(rows, subtags, x) == form {
                return Some((asked, place));
            }
        }
    }
    None
}

fn compare_requests(
    alloc: Global,
    report: &mut Report,
    (negotiator, lent): (&Negotiator<'_>, &NegotiatorRef<'_>),
    (rows, subtags): (&[Row], &Subtags),
    numbers: &mut Numbers,
    available: &[Plain],
) -> Result<(), Fault> {
    for _ in 0..16 {
        let requests: [Plain; 3] = Drawn::draw(numbers, subtags);
        let asked = held(alloc, &requests, subtags)?;
        let found = negotiator.negotiate(&asked);
        report.see(
            lent.negotiate(&asked) == found,
            "NegotiatorRef",
            &requests[0],
        );
        let wanted = wanted(rows, subtags, available, &requests);
        report.met.negotiated |= wanted.is_some();
        for request in &requests {
            report.see(found == wanted, "negotiate", request);
        }
    }
    Ok(())
}

/// A negotiator over some identifiers, asked for others. Over tables that are not settled there is none.
pub fn compare_negotiations(
    alloc: Global,
    report: &mut Report,
    expander: &LocaleExpander<'_>,
    rows: &[Row],
    subtags: &Subtags,
    numbers: &mut Numbers,
) -> Result<(), Fault> {
    let available: [Plain; 12] = Drawn::draw(numbers, subtags);
    let settled = expander.is_settled();
    let und = Plain::of_language(subtags.languages[0]);
    match Negotiator::try_new(alloc, *expander, held(alloc, &available, subtags)?) {
        Ok(negotiator) => {
            report.see(settled, "Negotiator::try_new", &und);
            let is_shown = shows(negotiator.available(), &available, subtags);
            report.see(is_shown, "available", &und);
            let (table, both) = ((rows, subtags), (&negotiator, &negotiator.lend()));
            compare_requests(alloc, report, both, table, numbers, &available)?;
            let kept = negotiator.into_available();
            let lent = NegotiatorRef::over(*expander, &kept);
            let is_shown = shows(lent.available(), &available, subtags);
            report.see(is_shown, "into_available", &und);
            Ok(())
        }
        Err(NegotiatorError::NotSettled) => {
            report.see(!settled, "Negotiator::try_new", &und);
            Ok(())
        }
        Err(NegotiatorError::Memory) => Err(Fault::Starved),
    }
}
