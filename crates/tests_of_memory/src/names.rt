//! Names of identifiers.
use crate::budget::{Answered, Call, stands, take_all};
use icu_locale_core::LanguageIdentifier;
use icu_locale_names::{
    DisplayNamesPreferences, LanguageIdentifierDisplayNameBorrowed, NameChain, NameWriteError,
};
use icu_provider::{DataError, DataErrorKind, NameMarker};
use icu_tables::Tables;
use std::alloc::Global;
use std::process::Abort;
use tests_shared::fakes::HeldWriter;
use tests_shared::known::{english, identifier, sample};
use tests_shared::names::{RAW, named, patterns};
use tests_shared::refusing::{refusal, willing};

// What a name of two variants answers where no memory is left and names of one marker are refused.
fn without_memory(
    rt: &impl Abort,
    alloc: Global,
    tables: &Tables,
    subject: &LanguageIdentifier,
    marker: NameMarker,
) -> Option<DataError> {
    let mut provider = willing(tables);
    provider.names = refusal(DataErrorKind::Custom);
    provider.names_at = Some(marker);
    let of = english().expect(rt, "english");
    let held = take_all(alloc).expect(rt, "memory");
    let refused = named(alloc, &provider, of, subject, NameChain::Light).err();
    drop(held);
    refused
}

#[test]
fn memory_lacks_behind_the_region_and_before_the_variants(rt: HostRuntime) {
    let alloc = rt.alloc();
    let tables = patterns(alloc).expect(&rt, "patterns");
    let two = identifier(alloc, "it-fonipa-posix").expect(&rt, "identifier");
    let behind_a_region = identifier(alloc, "it-US-fonipa-posix").expect(&rt, "identifier");
    let one = identifier(alloc, "it-Latn-US-fonipa").expect(&rt, "identifier");
    let custom = refusal(DataErrorKind::Custom);
    let memory = refusal(DataErrorKind::Memory);
    let region = NameMarker::RegionMediumLight;
    let variant = NameMarker::VariantMediumHeavy;
    let short = NameMarker::RegionShortTiny;
    assert!(rt; without_memory(&rt, alloc, &tables, &behind_a_region, region) == custom);
    assert!(rt; without_memory(&rt, alloc, &tables, &two, variant) == memory);
    assert!(rt; without_memory(&rt, alloc, &tables, &two, short) == memory);
    assert!(rt; without_memory(&rt, alloc, &tables, &one, variant) == custom);
    assert!(rt; without_memory(&rt, alloc, &tables, &one, short).is_none());
}

fn written_without_memory(
    rt: &impl Abort,
    alloc: Global,
    name: LanguageIdentifierDisplayNameBorrowed<'_>,
) -> (Option<NameWriteError>, usize, usize) {
    let mut sink = HeldWriter::new(64);
    let mut parts = Vec::new(alloc);
    let held = take_all(alloc).expect(rt, "memory");
    let refused = name.try_write_to_parts(&mut sink, &mut parts).err();
    drop(held);
    (refused, sink.written().len(), parts.len())
}

#[test]
fn spans_that_find_no_room(rt: HostRuntime) {
    let alloc = rt.alloc();
    let tables = patterns(alloc).expect(&rt, "patterns");
    let subject = identifier(alloc, "tlh-Qabc-150").expect(&rt, "identifier");
    let name = named(
        alloc,
        &tables,
        english().expect(&rt, "english"),
        &subject,
        NameChain::Light,
    )
    .expect(&rt, "a name");
    let (refused, taken, spans) = written_without_memory(&rt, alloc, name.as_borrowed());
    assert!(rt; refused == Some(NameWriteError::Memory) && taken == 0 && spans == 0);
}

// Writing a name, with the spans of its raw subtags.
#[derive(Drop)]
struct WriteName<'n> {
    name: LanguageIdentifierDisplayNameBorrowed<'n>,
    text: &'n str,
    spans: &'n [(usize, usize)],
}

impl Call for WriteName<'_> {
    // Where no room is found for the spans, nothing is written.
    fn answer(&self, alloc: Global) -> Answered {
        let mut sink = HeldWriter::new(64);
        let mut parts = Vec::new(alloc);
        let written = self.name.try_write_to_parts(&mut sink, &mut parts);
        let is_text = sink.written() == self.text.as_bytes();
        match written {
            Ok(Err(_)) if is_text && parts.as_slice() == self.spans => Answered::Whole,
            Err(NameWriteError::Memory) if parts.is_empty() && sink.written().is_empty() => {
                Answered::Refused
            }
            _ => Answered::Wrong,
        }
    }
}

// Writing alone: five spans are more than a list first has room for, so three requests are made. Each is for more than one
// step of the budgets, and none gives room back that the next could take, so each is refused in its turn at some budget.
#[test]
fn spans_at_every_budget(rt: HostRuntime) {
    let alloc = rt.alloc();
    let tables = patterns(alloc).expect(&rt, "patterns");
    let subject = identifier(alloc, "tlh-Qabc-150-1901-1996-posix").expect(&rt, "identifier");
    let name = named(
        alloc,
        &tables,
        english().expect(&rt, "english"),
        &subject,
        NameChain::Light,
    )
    .expect(&rt, "a name");
    let call = WriteName {
        name: name.as_borrowed(),
        text: "tlh (Qabc, Europe, 1901, 1996, posix)",
        spans: &[(0, 3), (5, 9), (19, 23), (25, 29), (31, 36)],
    };
    stands(&rt, alloc, &call);
}

// Making a name, and writing it.
#[derive(Drop)]
struct MakeName<'t> {
    tables: &'t Tables,
    subject: &'t LanguageIdentifier,
    of: DisplayNamesPreferences,
    text: &'t str,
    spans: &'t [(usize, usize)],
}

impl Call for MakeName<'_> {
    fn answer(&self, alloc: Global) -> Answered {
        match named(alloc, self.tables, self.of, self.subject, NameChain::Light) {
            Ok(name) => {
                let call = WriteName {
                    name: name.as_borrowed(),
                    text: self.text,
                    spans: self.spans,
                };
                call.answer(alloc)
            }
            Err(refusal) if refusal.kind == DataErrorKind::Memory => Answered::Refused,
            Err(_) => Answered::Wrong,
        }
    }
}

#[test]
fn names_at_every_budget(rt: HostRuntime) {
    let alloc = rt.alloc();
    let tables = sample(alloc).expect(&rt, "sample");
    for (subject, text, spans) in &RAW {
        let subject = identifier(alloc, subject).expect(&rt, "identifier");
        let call = MakeName {
            tables: &tables,
            subject: &subject,
            of: english().expect(&rt, "english"),
            text,
            spans,
        };
        stands(&rt, alloc, &call);
    }
}
