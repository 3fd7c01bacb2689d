//! Aliases of the values of keywords and of fields, plainly and as the crates hold them.
use crate::fault::Fault;
use crate::numbers::{Drawn, Numbers};
use crate::runs::{Run, Step, walk};
use crate::subtags::Subtags as WorldSubtags;
use icu_locale_core::{Key, ParseError, Value};
use icu_locale_extensions::{FieldKey, LocaleIdentifier, Subtags};
use icu_provider::SortedMap;
use std::alloc::Global;

// The keys of keywords that have rows, rising. At the last the rules speak, and no row is asked.
const KEYWORDS: [&str; 3] = ["ca", "kb", "rg"];

// The keys of fields that have rows, rising.
const FIELDS: [&str; 2] = ["k0", "m0"];

/// A value of a keyword or of a field.
#[derive(Clone, Copy, PartialEq, Eq)]
pub enum Word {
    First,
    Second,
    Pair,
    Last,
}

impl Word {
    // As a keyword has it. The last is empty there.
    fn in_keyword(self) -> &'static str {
        match self {
            Word::First => "aaa",
            Word::Second => "bbb",
            Word::Pair => "aaa-bbb",
            Word::Last => "",
        }
    }

    // As a field has it, which is never empty.
    fn in_field(self) -> &'static str {
        match self {
            Word::Last => "ccc",
            other => other.in_keyword(),
        }
    }

    fn value(self, alloc: Global) -> Result<Value, ParseError> {
        Value::try_from_str(alloc, self.in_keyword())
    }

    fn pieces(self, alloc: Global) -> Result<Subtags<3>, ParseError> {
        Subtags::try_from_str(alloc, self.in_field())
    }

    /// Whether a keyword of the crates has the same.
    pub fn is_value(self, alloc: Global, held: &Value) -> Result<bool, Fault> {
        Ok(self.value(alloc)? == *held)
    }

    /// Whether a field of the crates has the same.
    pub fn is_pieces(self, alloc: Global, held: &Subtags<3>) -> Result<bool, Fault> {
        Ok(self.pieces(alloc)? == *held)
    }
}

impl Drawn for Word {
    fn draw(numbers: &mut Numbers, _subtags: &WorldSubtags) -> Word {
        if numbers.is_chosen() {
            return Word::Last;
        }
        numbers.one_of(&[Word::First, Word::Second, Word::Pair])
    }
}

/// A value, and the one that is preferred to it.
pub type Link = (Word, Word);

/// The rows of one world at each key. Of the rows at one key a later one covers an earlier one of its value.
#[derive(Clone, Copy)]
pub struct Links {
    pub keywords: [[Link; 3]; 3],
    pub fields: [[Link; 3]; 2],
}

impl Drawn for Links {
    fn draw(numbers: &mut Numbers, subtags: &WorldSubtags) -> Links {
        Links {
            keywords: Drawn::draw(numbers, subtags),
            fields: Drawn::draw(numbers, subtags),
        }
    }
}

/// The values of a locale identifier at the first two keys of keywords and at the keys of fields.
#[derive(Clone, Copy)]
pub struct Words {
    pub keywords: [Option<Word>; 2],
    pub fields: [Option<Word>; 2],
}

impl Drawn for Words {
    fn draw(numbers: &mut Numbers, subtags: &WorldSubtags) -> Words {
        Words {
            keywords: Drawn::draw(numbers, subtags),
            fields: Drawn::draw(numbers, subtags),
        }
    }
}

fn field_key(text: &str) -> Result<FieldKey, Fault> {
    match FieldKey::try_from_bytes(text.as_bytes()) {
        Some(key) => Ok(key),
        None => Err(Fault::Key),
    }
}

impl Words {
    /// Puts the values into a locale identifier.
    pub fn put(&self, alloc: Global, held: &mut LocaleIdentifier) -> Result<(), Fault> {
        for (text, word) in KEYWORDS.iter().zip(&self.keywords) {
            if let Some(word) = word {
                let keywords = &mut held.locale.extensions.unicode.keywords;
                let _ = keywords.set(Key::try_from_str(text)?, word.value(alloc)?)?;
            }
        }
        for (text, word) in FIELDS.iter().zip(&self.fields) {
            if let Some(word) = word {
                let _ = held.fields.set(field_key(text)?, word.pieces(alloc)?)?;
            }
        }
        Ok(())
    }
}

// Rows at one key of keywords.
type Values = SortedMap<Value, Value>;

// Rows at one key of fields.
type Pieces = SortedMap<Subtags<3>, Subtags<3>>;

fn held_values(alloc: Global, rows: &[Link; 3]) -> Result<Values, Fault> {
    let mut map = SortedMap::new(alloc);
    for (from, to) in rows {
        map.insert(from.value(alloc)?, to.value(alloc)?)?;
    }
    Ok(map)
}

fn held_pieces(alloc: Global, rows: &[Link; 3]) -> Result<Pieces, Fault> {
    let mut map = SortedMap::new(alloc);
    for (from, to) in rows {
        map.insert(from.pieces(alloc)?, to.pieces(alloc)?)?;
    }
    Ok(map)
}

impl Links {
    /// The rows of keywords as the crates hold them.
    pub fn keyword_table(&self, alloc: Global) -> Result<SortedMap<Key, Values>, Fault> {
        let mut table = SortedMap::new(alloc);
        for (text, rows) in KEYWORDS.iter().zip(&self.keywords) {
            table.insert(Key::try_from_str(text)?, held_values(alloc, rows)?)?;
        }
        Ok(table)
    }

    /// The rows of fields as the crates hold them.
    pub fn field_table(&self, alloc: Global) -> Result<SortedMap<FieldKey, Pieces>, Fault> {
        let mut table = SortedMap::new(alloc);
        for (text, rows) in FIELDS.iter().zip(&self.fields) {
            table.insert(field_key(text)?, held_pieces(alloc, rows)?)?;
        }
        Ok(table)
    }

    /// The ends of the runs of the keywords' values.
    pub fn keyword_ends(&self, alloc: Global, words: &Words) -> Result<Ends, Fault> {
        let [first, second, _] = &self.keywords;
        both_ends(alloc, (first, second), &words.keywords)
    }

    /// The ends of the runs of the fields' values.
    pub fn field_ends(&self, alloc: Global, words: &Words) -> Result<Ends, Fault> {
        let [first, second] = &self.fields;
        both_ends(alloc, (first, second), &words.fields)
    }

    /// Whether some value is followed by another.
    pub fn is_applied(&self, words: &Words) -> bool {
        is_any_followed(&self.keywords, &words.keywords)
            || is_any_followed(&self.fields, &words.fields)
    }
}

// The rows at one key.
#[derive(Clone, Copy)]
struct ByRows<'l>(&'l [Link; 3]);

impl Step<Word> for ByRows<'_> {
    fn next(&self, word: &Word) -> Option<Word> {
        let mut next = None;
        for (from, to) in self.0 {
            if from == word {
                next = Some(*to);
            }
        }
        next
    }
}

fn is_any_followed(links: &[[Link; 3]], words: &[Option<Word>; 2]) -> bool {
    for (rows, word) in links.iter().zip(words) {
        if let Some(word) = word {
            if ByRows(rows).next(word).is_some() {
                return true;
            }
        }
    }
    false
}

/// At which of two keys, the lesser first.
#[derive(Clone, Copy)]
pub enum At {
    First,
    Second,
}

impl At {
    /// The key of a keyword.
    pub fn in_keywords(self) -> &'static str {
        match self {
            At::First => "ca",
            At::Second => "kb",
        }
    }

    /// The key of a field.
    pub fn in_fields(self) -> &'static str {
        match self {
            At::First => "k0",
            At::Second => "m0",
        }
    }
}

/// Where the runs of two values end, or the first key, by rising keys, at which one leads round, and the first value there
/// that comes again.
#[derive(Clone, Copy)]
pub enum Ends {
    End([Option<Word>; 2]),
    Repeats(At, Word),
}

// Where a run ends, where there is one; or the value that comes again.
fn end(alloc: Global, rows: &[Link; 3], word: Option<Word>) -> Result<Run<Option<Word>>, Fault> {
    let Some(word) = word else {
        return Ok(Run::Ends(None));
    };
    match walk(alloc, &ByRows(rows), word)? {
        Run::Ends(end) => Ok(Run::Ends(Some(end))),
        Run::Repeats(again) => Ok(Run::Repeats(Some(again))),
    }
}

fn both_ends(
    alloc: Global,
    (first_rows, second_rows): (&[Link; 3], &[Link; 3]),
    words: &[Option<Word>; 2],
) -> Result<Ends, Fault> {
    let [first, second] = *words;
    let first = end(alloc, first_rows, first)?;
    let second = end(alloc, second_rows, second)?;
    Ok(match (first, second) {
        (Run::Repeats(Some(again)), _) => Ends::Repeats(At::First, again),
        (_, Run::Repeats(Some(again))) => Ends::Repeats(At::Second, again),
        (Run::Ends(first) | Run::Repeats(first), Run::Ends(second) | Run::Repeats(second)) => {
            Ends::End([first, second])
        }
    })
}
