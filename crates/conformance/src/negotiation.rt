//! Negotiation: which available identifier means what a request means.
use crate::fault::Fault;
use crate::texts::written;
use crate::world::World;
use icu_locale::{LocaleExpander, Negotiator};
use icu_locale_core::{LanguageIdentifier, ParseError};
use std::alloc::Global;
use std::slice;

// The identifiers of a text that is cut at each space. The empty text lists none.
fn listed(alloc: Global, text: &str) -> Result<Vec<LanguageIdentifier>, ParseError> {
    let mut list = Vec::new(alloc);
    if text.is_empty() {
        return Ok(list);
    }
    for word in text.split(' ') {
        list.push(LanguageIdentifier::try_from_str(alloc, word)?)?;
    }
    Ok(list)
}

/// What is found among the identifiers before the bar for the requests after it: the place of a request, and the
/// available identifier; else `none`, or the name of what refuses the texts or the tables.
pub fn negotiate(alloc: Global, world: &World, text: &str) -> Result<String, Fault> {
    let (available, requests) = text.split_once('|').ok_or(Fault::Row)?;
    match listed(alloc, available) {
        Ok(available) => negotiate_among(alloc, world.expander()?, available, requests),
        Err(refusal) => Ok(format!(in alloc; "available: {refusal}")?),
    }
}

fn negotiate_among(
    alloc: Global,
    expander: LocaleExpander<'_>,
    available: Vec<LanguageIdentifier>,
    requests: &str,
) -> Result<String, Fault> {
    let requests = match listed(alloc, requests) {
        Ok(requests) => requests,
        Err(refusal) => return written(alloc, &refusal),
    };
    match Negotiator::try_new(alloc, expander, available) {
        Ok(negotiator) => found(alloc, &negotiator, &requests),
        Err(refusal) => written(alloc, &refusal),
    }
}

fn found(
    alloc: Global,
    negotiator: &Negotiator<'_>,
    requests: &[LanguageIdentifier],
) -> Result<String, Fault> {
    let Some((request, place)) = negotiator.negotiate(requests) else {
        return written(alloc, &"none");
    };
    match negotiator.available().get(place) {
        Some(id) => Ok(format!(in alloc; "{request} {id}")?),
        None => Err(Fault::Row),
    }
}

// A text with one of the words of each part, joined; the word `-` adds nothing.
fn joined(alloc: Global, text: &str, word: &str) -> Result<String, Fault> {
    if word == "-" {
        return written(alloc, &text);
    }
    if text.is_empty() {
        return written(alloc, &word);
    }
    Ok(format!(in alloc; "{text}-{word}")?)
}

fn extended(alloc: Global, texts: &[String], part: &str) -> Result<Vec<String>, Fault> {
    let mut longer = Vec::new(alloc);
    for word in part.split(' ') {
        for text in texts {
            longer.push(joined(alloc, text.as_str(), word)?)?;
        }
    }
    Ok(longer)
}

// The identifiers that have one word of each part, which bars part: languages, scripts, regions and variants.
fn combined(alloc: Global, parts: &str) -> Result<Vec<LanguageIdentifier>, Fault> {
    let mut texts = Vec::new(alloc);
    texts.push(String::new(alloc))?;
    for part in parts.split('|') {
        texts = extended(alloc, &texts, part)?;
    }
    Ok(read_all(alloc, &texts)?)
}

fn read_all(alloc: Global, texts: &[String]) -> Result<Vec<LanguageIdentifier>, ParseError> {
    let mut list = Vec::new(alloc);
    for text in texts {
        list.push(LanguageIdentifier::try_from_str(alloc, text.as_str())?)?;
    }
    Ok(list)
}

fn maximal_forms(
    alloc: Global,
    expander: &LocaleExpander<'_>,
    list: &[LanguageIdentifier],
) -> Result<Vec<LanguageIdentifier>, Fault> {
    let mut forms = Vec::new(alloc);
    for id in list {
        let mut form = id.try_clone()?;
        let _ = expander.maximize(&mut form);
        forms.push(form)?;
    }
    Ok(forms)
}

/// Whether each request, all combined from the parts after the slash, is answered as a plain search over the maximal
/// forms answers it, among identifiers combined from the parts before it.
pub fn negotiate_each(alloc: Global, world: &World, text: &str) -> Result<String, Fault> {
    let (available, requests) = text.split_once(" / ").ok_or(Fault::Row)?;
    let requests = combined(alloc, requests)?;
    compare_among(
        alloc,
        world.expander()?,
        combined(alloc, available)?,
        &requests,
    )
}

fn compare_among(
    alloc: Global,
    expander: LocaleExpander<'_>,
    available: Vec<LanguageIdentifier>,
    requests: &[LanguageIdentifier],
) -> Result<String, Fault> {
    let forms = maximal_forms(alloc, &expander, &available)?;
    match Negotiator::try_new(alloc, expander, available) {
        Ok(negotiator) => compared(alloc, &expander, &negotiator, requests, &forms),
        Err(refusal) => written(alloc, &refusal),
    }
}

// What a search gives for one request: that it is the first, and the place of its maximal form.
fn searched(
    expander: &LocaleExpander<'_>,
    request: &LanguageIdentifier,
    forms: &[LanguageIdentifier],
) -> Result<Option<(usize, usize)>, ParseError> {
    let mut form = request.try_clone()?;
    let _ = expander.maximize(&mut form);
    for (place, other) in forms.iter().enumerate() {
        if *other == form {
            return Ok(Some((0, place)));
        }
    }
    Ok(None)
}

fn compared(
    alloc: Global,
    expander: &LocaleExpander<'_>,
    negotiator: &Negotiator<'_>,
    requests: &[LanguageIdentifier],
    forms: &[LanguageIdentifier],
) -> Result<String, Fault> {
    for request in requests {
        let wanted = searched(expander, request, forms)?;
        if negotiator.negotiate(slice::from_ref(request)) != wanted {
            return Ok(format!(in alloc; "otherwise for {request}")?);
        }
    }
    let (count, available) = (requests.len(), forms.len());
    Ok(format!(in alloc; "{count} agree among {available}")?)
}
