//! A key and what it has, by the pattern.
ghost use Rattle.std.specs.Prelude.{◌≡◌, ◌∷◌, [], map, OnOk, option_copied};
ghost use Rattle.std.specs.List.{flat_map};
ghost use Rattle.icu_provider.specs.Names.{part_of};
ghost use Rattle.icu_locale_names.specs.LanguageNames.{filled, joined};
ghost use Rattle.icu_locale_names.specs.LentNames.{lent_piece, pieces_of};
ghost use Rattle.icu_locale_full_names.specs.Says.{name_at, named, shown_value, value_piece, key_piece, pair};
ghost use Rattle.icu_locale_full_names.specs.Squares.{squared};
ghost use Rattle.icu_locale_full_names.specs.inner.Drafts.{Adds, pieces_behind};
ghost use Rattle.icu_locale_full_names.specs.inner.Has.{has_pieces};

use crate::draft::Draft;
use icu_locale_core::Subtag;
use icu_locale_names::{LanguageIdentifierDisplayNameBorrowed, LentPiece};
use icu_provider::{ExtensionNames, PatternItem, SortedMap, TableText, TextNames};
use std::alloc::AllocError;

// What a key has: the name of an identifier, a value, or codes one by one.
#[derive(Clone, Copy, Debug)]
pub enum Has<'a> {
    Name(&'a LanguageIdentifierDisplayNameBorrowed<'a>),
    Value(LentPiece<'a>),
    Codes(&'a str, &'a [Subtag]),
}

// Names of what extensions say, and what is between two qualifiers.
#[derive(Clone, Copy, Debug)]
pub struct Language<'a> {
    pub names: &'a ExtensionNames,
    pub separator: &'a str,
}

impl<'a> Language<'a> {
    // A key and what it has, by the pattern.
    pub fn add_pair(
        &self,
        key: LentPiece<'_>,
        has: Has<'_>,
        draft: &mut Draft,
    ) -> Result<(), AllocError>
        ensures { OnOk result (Adds
            (squared (pair self.now.names.now (lent_piece key.entry)
            (has_pieces self.now.names.now self.now.separator.now has.entry)))
            draft.old draft.new) }
    {
        for item in self.names.pattern.items() {
            self.add_item(key, has, item, draft)?;
        }
        Ok(())
    }

    // What an item of the pattern stands for.
    fn add_item(
        &self,
        key: LentPiece<'_>,
        has: Has<'_>,
        item: &PatternItem,
        draft: &mut Draft,
    ) -> Result<(), AllocError>
        ensures { OnOk result (Adds
            (squared (filled (lent_piece key.entry)
            (has_pieces self.now.names.now self.now.separator.now has.entry) (part_of item.now)))
            draft.old draft.new) }
    {
        match item {
            PatternItem::Literal(literal) => draft.add_square(LentPiece::plain(literal.as_str())),
            PatternItem::First => draft.add_square(key),
            PatternItem::Second => self.add_has(has, draft),
        }
    }

    // What a key has.
    fn add_has(&self, has: Has<'_>, draft: &mut Draft) -> Result<(), AllocError>
        ensures { OnOk result (Adds
            (squared (has_pieces self.now.names.now self.now.separator.now has.entry))
            draft.old draft.new) }
    {
        match has {
            Has::Name(name) => add_name(name, draft),
            Has::Value(value) => draft.add_square(value),
            Has::Codes(key, list) => self.add_codes(key, list, draft),
        }
    }

    // Codes one by one, with the separator between each two.
    fn add_codes(&self, key: &str, list: &[Subtag], draft: &mut Draft) -> Result<(), AllocError>
        ensures { OnOk result (Adds
            (squared (joined self.now.separator.now
            (map (value_piece self.now.names.now key.now) list.now)))
            draft.old draft.new) }
    {
        let mut is_any = false;
        for code in list {
            self.add_code(key, code, is_any, draft)?;
            is_any = true;
        }
        Ok(())
    }

    // A code: after a separator, unless it is the first.
    fn add_code(
        &self,
        key: &str,
        code: &Subtag,
        is_any: bool,
        draft: &mut Draft,
    ) -> Result<(), AllocError>
        ensures { OnOk result (Adds
            (squared (pieces_behind is_any self.now.separator.now
            (value_piece self.now.names.now key.now code.now ∷ [])))
            draft.old draft.new) }
    {
        if is_any {
            draft.add_square(LentPiece::plain(self.separator))?;
        }
        draft.add_square(self.value_piece(key, code.as_str()))
    }

    // A value by its name, or raw.
    pub fn value_piece<'v>(&self, key: &str, value: &'v str) -> LentPiece<'v>
    where
        'a: 'v,
        ensures { lent_piece result ≡ value_piece self.now.names.now key.now value.now }
    {
        named(name_at(&self.names.values, key, value), shown_value(value))
    }

    // A key by its name, or raw.
    pub fn key_piece<'k>(&self, key: &'k str) -> LentPiece<'k>
    where
        'a: 'k,
        ensures { lent_piece result ≡ key_piece self.now.names.now key.now }
    {
        match self.names.keys.get_text(key) {
            Some(name) => LentPiece::plain(name.as_str()),
            None => LentPiece::raw_subtag(key),
        }
    }
}

// The name of an identifier.
fn add_name(
    name: &LanguageIdentifierDisplayNameBorrowed<'_>,
    draft: &mut Draft,
) -> Result<(), AllocError>
    ensures { OnOk result (Adds (squared (pieces_of name.now)) draft.old draft.new) }
{
    for piece in name.pieces() {
        draft.add_square(piece)?;
    }
    Ok(())
}

// A value, or `true` where it is left out.
fn shown_value(value: &str) -> &str
    ensures { result.now ≡ shown_value value.now }
{
    if value.is_empty() { "true" } else { value }
}

// A name, or the raw text that has none.
pub fn named<'a>(name: Option<&'a str>, text: &'a str) -> LentPiece<'a>
    ensures { lent_piece result ≡ named (option_copied name.entry) text.now }
{
    match name {
        Some(name) => LentPiece::plain(name),
        None => LentPiece::raw_subtag(text),
    }
}

// The name of a value at a key, if there is one.
pub fn name_at<'a>(
    rows: &'a SortedMap<TableText, TextNames>,
    key: &str,
    value: &str,
) -> Option<&'a str>
    ensures { option_copied result ≡ name_at rows.now key.now value.now }
{
    let names = rows.get_text(key)?;
    match names.get_text(value) {
        Some(name) => Some(name.as_str()),
        None => None,
    }
}
