//! Values of subdivisions, plainly.
use crate::numbers::{Drawn, Numbers};
use crate::subtags::Subtags;
use icu_locale_core::{Subtag, Value};
use std::alloc::{AllocError, Global};

/// A value that a locale of a world may have, or come to.
#[derive(Clone, Copy, PartialEq, Eq)]
pub enum PlainValue {
    Empty,
    First,
    Second,
    Third,
    Pair,
}

impl PlainValue {
    /// As it is written. The first three are the subdivisions of the worlds.
    pub fn text(self) -> &'static str {
        match self {
            PlainValue::Empty => "",
            PlainValue::First => "aaa",
            PlainValue::Second => "bbb",
            PlainValue::Third => "ccc",
            PlainValue::Pair => "aaa-bbb",
        }
    }

    /// Whether the crates hold the same.
    pub fn is_held_as(self, alloc: Global, held: &Value) -> Result<bool, AllocError> {
        let written = format!(in alloc; "{held}")?;
        Ok(written.as_str() == self.text())
    }
}

impl Drawn for PlainValue {
    fn draw(numbers: &mut Numbers, _subtags: &Subtags) -> PlainValue {
        numbers.one_of(&[PlainValue::First, PlainValue::Third, PlainValue::Pair])
    }
}

/// The text of a row.
#[derive(Clone, Copy)]
pub enum RowText {
    Second,
    ThirdInCapitals,
    TooShort,
    True,
    PairInCapitals,
    FirstAndTrue,
}

impl RowText {
    /// As it is in the table.
    pub fn text(self) -> &'static str {
        match self {
            RowText::Second => "bbb",
            RowText::ThirdInCapitals => "CCC",
            RowText::TooShort => "ab",
            RowText::True => "true",
            RowText::PairInCapitals => "AAA_Bbb",
            RowText::FirstAndTrue => "aaa-TRUE",
        }
    }

    // The value that it reads as, if it can be read.
    fn reads_as(self) -> Option<PlainValue> {
        match self {
            RowText::Second => Some(PlainValue::Second),
            RowText::ThirdInCapitals => Some(PlainValue::Third),
            RowText::TooShort => None,
            RowText::True => Some(PlainValue::Empty),
            RowText::PairInCapitals => Some(PlainValue::Pair),
            RowText::FirstAndTrue => Some(PlainValue::First),
        }
    }
}

impl Drawn for RowText {
    fn draw(numbers: &mut Numbers, _subtags: &Subtags) -> RowText {
        if numbers.is_chosen() {
            numbers.one_of(&[RowText::TooShort, RowText::True, RowText::PairInCapitals])
        } else {
            numbers.one_of(&[
                RowText::Second,
                RowText::ThirdInCapitals,
                RowText::FirstAndTrue,
            ])
        }
    }
}

/// A subdivision and the text that replaces it.
pub type ValueRow = (Subtag, RowText);

/// The value that follows another: the last row whose key it is leads to it, if that row's text can be read.
pub fn next_value(rows: &[ValueRow], value: PlainValue) -> Option<PlainValue> {
    let mut next = None;
    for (subdivision, text) in rows {
        if subdivision.as_str() == value.text() {
            next = text.reads_as();
        }
    }
    next
}
