//! Reading and copying identifiers, inserts, and negotiators.
use crate::budget::{Answered, Call, asks_nothing, stands, take_all};
use icu_locale::{LocaleExpander, Negotiator, NegotiatorError};
use icu_locale_core::{LanguageIdentifier, ParseError};
use icu_provider::SortedMap;
use std::alloc::Global;
use std::slice;
use tests_shared::known::sample;

// Reading and copying an identifier with variants.
#[derive(Drop)]
struct ReadAndCopy;

impl Call for ReadAndCopy {
    fn answer(&self, alloc: Global) -> Answered {
        match LanguageIdentifier::try_from_str(alloc, "de-Latn-DE-1901-1996-fonipa-posix") {
            Ok(identifier) => copy(&identifier),
            Err(ParseError::Memory) => Answered::Refused,
            Err(_) => Answered::Wrong,
        }
    }
}

fn copy(identifier: &LanguageIdentifier) -> Answered {
    match identifier.try_clone() {
        Ok(copy) if copy == *identifier && copy.variants.len() == 4 => Answered::Whole,
        Err(ParseError::Memory) => Answered::Refused,
        _ => Answered::Wrong,
    }
}

// The same without variants, where nothing is asked of memory.
#[derive(Drop)]
struct ReadWithoutVariants;

impl Call for ReadWithoutVariants {
    fn answer(&self, alloc: Global) -> Answered {
        match LanguageIdentifier::try_from_str(alloc, "de-Latn-DE") {
            Ok(identifier) if identifier.try_clone().is_ok() => Answered::Whole,
            _ => Answered::Wrong,
        }
    }
}

#[test]
fn identifiers(rt: HostRuntime) {
    let alloc = rt.alloc();
    stands(&rt, alloc, &ReadAndCopy);
    asks_nothing(&rt, alloc, &ReadWithoutVariants);
}

#[test]
fn a_refused_insert_leaves_the_table(rt: HostRuntime) {
    let alloc = rt.alloc();
    let mut map: SortedMap<u64, u64> = SortedMap::new(alloc);
    for key in 0..64 {
        map.insert(2 * key, key).expect(&rt, "memory");
    }
    let spare = Vec::<u8>::with_capacity(alloc, 65_536).expect(&rt, "memory");
    let held = take_all(alloc).expect(&rt, "memory");
    let refused = map.insert(7, 7).is_err();
    let unchanged = map.len() == 64 && map.get(&7).is_none() && map.get(&8) == Some(&4);
    let present = map.insert(8, 9).is_ok() && map.get(&8) == Some(&9);
    drop(spare);
    drop(held);
    assert!(rt; refused);
    assert!(rt; unchanged);
    assert!(rt; present);
    assert!(rt; map.insert(7, 7).is_ok());
    assert!(rt; map.len() == 65);
}

// Making a negotiator over a list that finds memory itself.
#[derive(Drop)]
struct MakeNegotiator<'d>(LocaleExpander<'d>);

impl Call for MakeNegotiator<'_> {
    fn answer(&self, alloc: Global) -> Answered {
        match available(alloc) {
            Ok(list) => match Negotiator::try_new(alloc, self.0, list) {
                Ok(negotiator) => second_is_found(alloc, &negotiator),
                Err(NegotiatorError::Memory) => Answered::Refused,
                Err(_) => Answered::Wrong,
            },
            Err(ParseError::Memory) => Answered::Refused,
            Err(_) => Answered::Wrong,
        }
    }
}

fn available(alloc: Global) -> Result<Vec<LanguageIdentifier>, ParseError> {
    let mut list = Vec::new(alloc);
    for text in ["en-US", "zh-Hant", "yue-CN-fonipa"] {
        list.push(LanguageIdentifier::try_from_str(alloc, text)?)?;
    }
    Ok(list)
}

// Whether a request without variants, which asks for no memory, finds the second of the list.
fn second_is_found(alloc: Global, negotiator: &Negotiator<'_>) -> Answered {
    match LanguageIdentifier::try_from_str(alloc, "zh-TW") {
        Ok(request) if negotiator.negotiate(slice::from_ref(&request)) == Some((0, 1)) =>
            Answered::Whole,
        _ => Answered::Wrong,
    }
}

#[test]
fn negotiators(rt: HostRuntime) {
    let alloc = rt.alloc();
    let tables = sample(alloc).expect(&rt, "sample");
    let expander = LocaleExpander::try_new_common_unstable(&tables).expect(&rt, "tables");
    stands(&rt, alloc, &MakeNegotiator(expander));
}
