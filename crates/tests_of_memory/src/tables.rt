//! Reading tables.
use crate::budget::{Answered, Call, stands};
use icu_locale_lines::SAMPLE;
use icu_provider::{DataLocale, DataProvider};
use icu_tables::{TableError, Tables};
use icu_tables_flat::FlatError;
use std::alloc::Global;
use tests_shared::known::english;
use tests_shared::values::{CIRCLING, ENDING};

const PATTERNS: &str =
    "{\"essentials\":{\"en\":{\"pattern\":[0,\" (\",1,\")\"],\"separator\":[0,\", \",1]}}}";

// Texts of tables: how many languages of two letters are replaced, and whether there are patterns of English names.
const TEXTS: [(&str, (usize, bool)); 4] = [
    (ENDING, (3, false)),
    (CIRCLING, (6, false)),
    (PATTERNS, (0, true)),
    (SAMPLE, (1, true)),
];

// Reading tables.
#[derive(Drop)]
struct ReadTables<'t> {
    text: &'t str,
    english: DataLocale,
    told: (usize, bool),
}

impl Call for ReadTables<'_> {
    fn answer(&self, alloc: Global) -> Answered {
        match Tables::from_json(alloc, self.text.as_bytes()) {
            Ok(tables) if told(&tables, self.english) == self.told => Answered::Whole,
            Ok(_) => Answered::Wrong,
            Err(TableError::Memory) => Answered::Refused,
            Err(_) => Answered::Wrong,
        }
    }
}

// Writing the names of tables in the flat form.
#[derive(Drop)]
struct WriteNames<'t> {
    tables: &'t Tables,
    length: usize,
}

impl Call for WriteNames<'_> {
    fn answer(&self, alloc: Global) -> Answered {
        match self.tables.names.to_flat(alloc) {
            Ok(bytes) if bytes.len() == self.length => Answered::Whole,
            Ok(_) => Answered::Wrong,
            Err(FlatError::Memory) => Answered::Refused,
            Err(_) => Answered::Wrong,
        }
    }
}

fn told(tables: &Tables, english: DataLocale) -> (usize, bool) {
    let replaced = match tables.load_aliases() {
        Ok(aliases) => aliases.language_len2.len(),
        Err(_) => 0,
    };
    (replaced, tables.load_essentials(english).is_ok())
}

#[test]
fn tables_from_json(rt: HostRuntime) {
    for (text, told) in TEXTS {
        let call = ReadTables {
            text,
            english: english().expect(&rt, "english").locale,
            told,
        };
        stands(&rt, rt.alloc(), &call);
    }
}

#[test]
fn names_to_flat(rt: HostRuntime) {
    let tables = Tables::from_json(rt.alloc(), SAMPLE.as_bytes()).expect(&rt, "the sample");
    let bytes = tables.names.to_flat(rt.alloc()).expect(&rt, "memory");
    let call = WriteNames {
        tables: &tables,
        length: bytes.len(),
    };
    stands(&rt, rt.alloc(), &call);
}
