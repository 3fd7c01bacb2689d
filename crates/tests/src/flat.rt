//! Names in the flat form: lent to tables, and written of them.
use crate::tables::english;
use icu_provider::{DataProvider, NameKey, NameMarker};
use icu_tables::Tables;
use icu_tables_flat::{FlatError, FlatTexts};
use std::process::Abort;
use tests_shared::known::{language, region, text};

// What `bindings/python/icu_locale/cldr/flat.py` writes of two groups in English, one of them in Chinese too, and a
// group that is none of names. A key in no written form is in two of them.
const LENT: &[u8] = b"ICUTEXT1\x04\x00\x00\x00\x03\x00\x00\x00\x06\x00\x00\x00\
\x00\x00\x00\x00\x18\x00\x00\x00\x00\x00\x00\x00\x18\x00\x00\x00\x16\x00\x00\x00\x01\x00\x00\x00\
.\x00\x00\x00\x08\x00\x00\x00\x02\x00\x00\x006\x00\x00\x00\x16\x00\x00\x00\x01\x00\x00\x00\
\x02\x00\x00\x00\x05\x00\x00\x00\x06\x00\x00\x00\
L\x00\x00\x00N\x00\x00\x00\x02\x00\x0b\x00Y\x00\x00\x00[\x00\x00\x00\x02\x00\x0c\x00\
g\x00\x00\x00j\x00\x00\x00\x03\x00\x0b\x00u\x00\x00\x00w\x00\x00\x00\x02\x00\x04\x00\
{\x00\x00\x00}\x00\x00\x00\x02\x00\x13\x00\x90\x00\x00\x00\x91\x00\x00\x00\x01\x00\x0b\x00\
en/language/medium/lighten/region/medium/lightno groupzh/region/medium/light\
deLent GermanitLent Italian150Lent EuropeQXQu\xc3\xa9usnot in written formxnever asked";

const REGIONS: NameMarker = NameMarker::RegionMediumLight;

fn region_key(rt: &impl Abort, code: &str) -> NameKey {
    NameKey::Region(region(code).expect(rt, "region"))
}

// Tables that are lent names, and have two of their own.
fn lent(rt: &impl Abort, alloc: std::alloc::Global) -> Tables {
    let mut tables = Tables::new(alloc);
    tables.set_lent_names(FlatTexts::from_bytes(LENT).expect(rt, "the form"));
    for (code, name) in [("150", "Own Europe"), ("AT", "Own Austria")] {
        let name = text(alloc, &name).expect(rt, "text");
        tables
            .insert_name(REGIONS, english(rt), region_key(rt, code), name)
            .expect(rt, "memory");
    }
    tables
}

// Whether a name in English is that text.
fn is_named(
    rt: &impl Abort,
    tables: &Tables,
    marker: NameMarker,
    key: NameKey,
    name: &str,
) -> bool {
    match tables.load_name(marker, english(rt), key) {
        Ok(told) => told == name,
        Err(_) => false,
    }
}

// Whether there is a name in English.
fn has_name(rt: &impl Abort, tables: &Tables, marker: NameMarker, key: NameKey) -> bool {
    tables.load_name(marker, english(rt), key).is_ok()
}

#[test]
fn own_names_go_before_lent_ones(rt: HostRuntime) {
    let tables = lent(&rt, rt.alloc());
    assert!(rt; is_named(&rt, &tables, REGIONS, region_key(&rt, "150"), "Own Europe"));
    assert!(rt; is_named(&rt, &tables, REGIONS, region_key(&rt, "AT"), "Own Austria"));
    assert!(rt; is_named(&rt, &tables, REGIONS, region_key(&rt, "QX"), "Qué"));
    assert!(rt; !has_name(&rt, &tables, REGIONS, region_key(&rt, "US")));
}

#[test]
fn keys_of_own_and_lent_names_come_once_and_rise(rt: HostRuntime) {
    let tables = lent(&rt, rt.alloc());
    let keys = tables
        .name_keys_in(
            rt.alloc(),
            &[REGIONS, NameMarker::RegionMediumTiny],
            &english(&rt),
        )
        .expect(&rt, "memory");
    assert!(rt; keys.len() == 3);
    for (key, code) in keys.iter().zip(["150", "AT", "QX"].iter()) {
        assert!(rt; *key == region_key(&rt, code));
    }
}

#[test]
fn what_is_not_in_the_form_is_refused(rt: HostRuntime) {
    for length in 0..LENT.len() {
        assert!(rt; FlatTexts::from_bytes(&LENT[..length]).is_err());
    }
    assert!(rt; FlatTexts::from_bytes(LENT).is_ok());
}

#[test]
fn written_names_are_read_by_what_their_groups_are_called(rt: HostRuntime) {
    let tables = lent(&rt, rt.alloc());
    let bytes = tables.names.to_flat(rt.alloc()).expect(&rt, "memory");
    let flat = FlatTexts::from_bytes(&bytes).expect(&rt, "the form");
    assert!(rt; flat.len() == 1);
    let run = flat
        .run_of("en/region/medium/light")
        .expect(&rt, "the group");
    assert!(rt; flat.run_len(run) == 2);
    assert!(rt; flat.row(run, 0) == Some(("150", "Own Europe")));
    assert!(rt; flat.get(run, "AT") == Some("Own Austria"));
    assert!(rt; flat.get(run, "QX").is_none());
}

// Tables with one name, of as many bytes.
fn long(rt: &impl Abort, alloc: std::alloc::Global, bytes: usize) -> Tables {
    let mut name = String::new(alloc);
    for _ in 0..bytes {
        name.push('x').expect(rt, "memory");
    }
    let mut tables = Tables::new(alloc);
    tables
        .insert_name(REGIONS, english(rt), region_key(rt, "150"), name)
        .expect(rt, "memory");
    tables
}

#[test]
fn a_name_of_65535_bytes_is_written_and_no_longer_one(rt: HostRuntime) {
    let written = long(&rt, rt.alloc(), 65_535).names.to_flat(rt.alloc());
    let bytes = written.expect(&rt, "memory");
    let flat = FlatTexts::from_bytes(&bytes).expect(&rt, "the form");
    let run = flat
        .run_of("en/region/medium/light")
        .expect(&rt, "the group");
    assert!(rt; flat.get(run, "150").map(|name| name.len()) == Some(65_535));
    let refused = long(&rt, rt.alloc(), 65_536).names.to_flat(rt.alloc());
    assert!(rt; refused.is_err_and(|refusal| refusal == FlatError::Long));
}

#[test]
fn a_key_of_another_kind_than_its_marker_is_left_out(rt: HostRuntime) {
    let alloc = rt.alloc();
    let mut tables = Tables::new(alloc);
    let italian = NameKey::Language(language("it").expect(&rt, "language"), None, None);
    let name = text(alloc, &"Italian").expect(&rt, "text");
    tables
        .insert_name(REGIONS, english(&rt), italian, name)
        .expect(&rt, "memory");
    let bytes = tables.names.to_flat(alloc).expect(&rt, "memory");
    let flat = FlatTexts::from_bytes(&bytes).expect(&rt, "the form");
    match flat.run_of("en/region/medium/light") {
        Some(run) => assert!(rt; flat.run_len(run) == 0),
        None => assert!(rt; true),
    }
}

#[test]
fn refusals_display_their_names(rt: HostRuntime) {
    let refusals = [
        (FlatError::Form, "Form"),
        (FlatError::Long, "Long"),
        (FlatError::Memory, "Memory"),
    ];
    for (refusal, name) in refusals {
        let text = format!(in rt.alloc(); "{refusal}").expect(&rt, "memory");
        assert!(rt; text.as_str() == name);
    }
}

// How many bytes the names of two regions take.
fn bytes_of_two(rt: &impl Abort, alloc: std::alloc::Global, first: &str, second: &str) -> usize {
    let mut tables = Tables::new(alloc);
    for (code, name) in [("150", first), ("AT", second)] {
        let name = text(alloc, &name).expect(rt, "text");
        tables
            .insert_name(REGIONS, english(rt), region_key(rt, code), name)
            .expect(rt, "memory");
    }
    tables.names.to_flat(alloc).expect(rt, "memory").len()
}

#[test]
fn equal_texts_are_written_once(rt: HostRuntime) {
    let equal = bytes_of_two(&rt, rt.alloc(), "Europe", "Europe");
    let other = bytes_of_two(&rt, rt.alloc(), "Europe", "Austri");
    assert!(rt; equal < other && other - equal == 6);
}
