//! Sets of exemplar characters, by their ranges and strings.
use crate::fault::Fault;
use crate::numbers::{Drawn, Numbers};
use crate::plain::Plain;
use crate::report::Report;
use crate::subtags::Subtags;
use icu_locale::exemplar_chars::{ExemplarCharacters, ExemplarCharactersBorrowed};
use icu_provider::{DataError, DataLocale, ExemplarCharactersData, ExemplarMarker};
use icu_tables::Tables;
use std::alloc::{AllocError, Global};

// The kinds of sets.
const KINDS: [ExemplarMarker; 5] = [
    ExemplarMarker::Main,
    ExemplarMarker::Auxiliary,
    ExemplarMarker::Punctuation,
    ExemplarMarker::Numbers,
    ExemplarMarker::Index,
];

// The strings that a set may have, and are asked for.
const STRINGS: [&str; 3] = ["", "d", "ba"];

// The characters and the texts that are asked for.
const CHARACTERS: [char; 8] = ['a', 'b', 'c', 'd', 'e', 'f', 'g', '\u{10ffff}'];

const TEXTS: [&str; 7] = ["", "a", "d", "g", "ba", "ab", "\u{10ffff}"];

// The bounds of the ranges.
const BOUNDS: [u32; 8] = [0, 97, 98, 99, 100, 101, 103, 0x10_ffff];

/// A set of one world: which of the bounds and of the strings it has.
#[derive(Clone, Copy)]
pub struct Exemplars {
    bounds: [bool; 8],
    strings: [bool; 3],
}

impl Drawn for Exemplars {
    fn draw(numbers: &mut Numbers, subtags: &Subtags) -> Exemplars {
        Exemplars {
            bounds: Drawn::draw(numbers, subtags),
            strings: Drawn::draw(numbers, subtags),
        }
    }
}

impl Exemplars {
    // The bounds, of which the last is left out where it has no other to make a range with.
    fn bounds(&self, alloc: Global) -> Result<Vec<u32>, AllocError> {
        let mut bounds = Vec::new(alloc);
        for (bound, is_there) in BOUNDS.iter().zip(&self.bounds) {
            if *is_there {
                bounds.push(*bound)?;
            }
        }
        if bounds.len() % 2 == 1 {
            let _ = bounds.pop();
        }
        Ok(bounds)
    }

    fn strings(&self, alloc: Global) -> Result<Vec<String>, AllocError> {
        let mut strings = Vec::new(alloc);
        for (string, is_there) in STRINGS.iter().zip(&self.strings) {
            if *is_there {
                strings.push(String::from_str(alloc, string)?)?;
            }
        }
        Ok(strings)
    }

    fn held(&self, alloc: Global) -> Result<ExemplarCharactersData, Fault> {
        let bounds = self.bounds(alloc)?;
        Ok(ExemplarCharactersData::try_new(bounds, self.strings(alloc)?)?)
    }

    // Whether some pair of bounds holds a character.
    fn has(&self, character: char) -> bool {
        let code = u32::from(character);
        let mut first = None;
        for (bound, is_there) in BOUNDS.iter().zip(&self.bounds) {
            match first {
                _ if !*is_there => {}
                None => first = Some(*bound),
                Some(first) if first <= code && code < *bound => return true,
                Some(_) => first = None,
            }
        }
        false
    }

    // A text of one character asks for this, and every other text for the strings.
    fn has_text(&self, text: &str) -> bool {
        let mut characters = text.chars();
        match (characters.next(), characters.next()) {
            (Some(character), None) => self.has(character),
            _ => self.has_string(text),
        }
    }

    fn has_string(&self, text: &str) -> bool {
        for (string, is_there) in STRINGS.iter().zip(&self.strings) {
            if *is_there && *string == text {
                return true;
            }
        }
        false
    }
}

// The locale of the sets.
fn root(subtags: &Subtags) -> DataLocale {
    DataLocale {
        language: subtags.languages[0],
        script: None,
        region: None,
    }
}

// The tables with these sets.
fn tables_of(alloc: Global, sets: &[Exemplars; 5], subtags: &Subtags) -> Result<Tables, Fault> {
    let mut tables = Tables::new(alloc);
    for (kind, exemplars) in KINDS.iter().zip(sets) {
        tables.insert_exemplars(*kind, root(subtags), exemplars.held(alloc)?)?;
    }
    Ok(tables)
}

// The set of a kind, by its constructor.
fn made(
    tables: &Tables,
    kind: ExemplarMarker,
    locale: DataLocale,
) -> Result<ExemplarCharacters<'_>, DataError> {
    match kind {
        ExemplarMarker::Main => ExemplarCharacters::try_new_main_unstable(tables, locale),
        ExemplarMarker::Auxiliary => ExemplarCharacters::try_new_auxiliary_unstable(tables, locale),
        ExemplarMarker::Punctuation => {
            ExemplarCharacters::try_new_punctuation_unstable(tables, locale)
        }
        ExemplarMarker::Numbers => ExemplarCharacters::try_new_numbers_unstable(tables, locale),
        ExemplarMarker::Index => ExemplarCharacters::try_new_index_unstable(tables, locale),
    }
}

fn compare_set(
    report: &mut Report,
    set: &ExemplarCharactersBorrowed<'_>,
    exemplars: &Exemplars,
    und: &Plain,
) {
    for character in CHARACTERS {
        let is_so = set.contains(character) == exemplars.has(character);
        report.see(is_so, "contains", und);
    }
    for text in TEXTS {
        let is_so = set.contains_str(text) == exemplars.has_text(text);
        report.see(is_so, "contains_str", und);
    }
}

fn compare_made(
    report: &mut Report,
    tables: &Tables,
    (kind, exemplars): (ExemplarMarker, &Exemplars),
    subtags: &Subtags,
) -> Result<(), Fault> {
    let set = made(tables, kind, root(subtags))?;
    let und = Plain::of_language(subtags.languages[0]);
    compare_set(report, &set.as_borrowed(), exemplars, &und);
    Ok(())
}

/// The calls of the sets of exemplar characters, each made by the constructor of its kind.
pub fn compare_exemplars(
    alloc: Global,
    report: &mut Report,
    subtags: &Subtags,
    sets: &[Exemplars; 5],
) -> Result<(), Fault> {
    let tables = tables_of(alloc, sets, subtags)?;
    for (kind, exemplars) in KINDS.iter().zip(sets) {
        compare_made(report, &tables, (*kind, exemplars), subtags)?;
    }
    Ok(())
}
