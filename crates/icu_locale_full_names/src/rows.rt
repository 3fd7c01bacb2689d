//! What a key with a value says, and texts after others.
ghost use Rattle.std.specs.Prelude.{◌≡◌, ◌∷◌, [], IfOk, OnOk, if◌then◌else◌, codes};
ghost use Rattle.icu_locale_core.specs.Value.{written_value};
ghost use Rattle.icu_locale_names.specs.LentNames.{lent_piece, parts_of};
ghost use Rattle.icu_locale_names.specs.Pieces.{plain};
ghost use Rattle.icu_locale_full_names.specs.FullNames.{one_piece};
ghost use Rattle.icu_locale_full_names.specs.Says.{says, keyword_says, value_says, row_says, language_says, language_key, lists_codes};
ghost use Rattle.icu_locale_full_names.specs.inner.Drafts.{Adds, Joins};
ghost use Rattle.icu_locale_full_names.specs.inner.Has.{has_pieces};

use crate::draft::Draft;
use crate::pairs::{Has, Language, name_at, named};
use icu_locale_core::{Key, Value};
use icu_locale_extensions::Subtags;
use icu_locale_names::{LanguageIdentifierDisplayNameBorrowed, LentPiece};
use std::alloc::AllocError;

impl<'a> Language<'a> {
    // What is between texts, unless the next is the first.
    fn add_separator(&self, is_any: bool, draft: &mut Draft) -> Result<(), AllocError>
        ensures { OnOk result (Adds
            (if is_any then plain self.now.separator.now ∷ [] else [])
            draft.old draft.new) }
    {
        if is_any {
            draft.add(LentPiece::plain(self.separator))?;
        }
        Ok(())
    }

    // A qualifier of an identifier, or an attribute.
    pub fn join_piece(
        &self,
        piece: LentPiece<'_>,
        is_any: bool,
        draft: &mut Draft,
    ) -> Result<bool, AllocError>
        ensures { IfOk result (Joins self.now.separator.now
            (one_piece (lent_piece piece.entry) ∷ []) draft.old is_any draft.new) }
    {
        self.add_separator(is_any, draft)?;
        draft.add(piece)?;
        Ok(true)
    }

    // What a key with a value says.
    fn add_says(
        &self,
        key: &str,
        value: &str,
        has: Has<'_>,
        draft: &mut Draft,
    ) -> Result<(), AllocError>
        ensures { OnOk result (Adds
            (says self.now.names.now key.now value.now
            (has_pieces self.now.names.now self.now.separator.now has.entry))
            draft.old draft.new) }
    {
        match name_at(&self.names.types, key, value) {
            Some(name) => draft.add_square(LentPiece::plain(name)),
            None => self.add_pair(self.key_piece(key), has, draft),
        }
    }

    // The same after other texts.
    fn join_says(
        &self,
        key: &str,
        value: &str,
        has: Has<'_>,
        is_any: bool,
        draft: &mut Draft,
    ) -> Result<bool, AllocError>
        ensures { IfOk result (Joins self.now.separator.now
            (says self.now.names.now key.now value.now
            (has_pieces self.now.names.now self.now.separator.now has.entry) ∷ [])
            draft.old is_any draft.new) }
    {
        self.add_separator(is_any, draft)?;
        self.add_says(key, value, has, draft)?;
        Ok(true)
    }

    // A field, another extension, or private use.
    pub fn join_row<const LOW: usize>(
        &self,
        key: &str,
        value: &Subtags<LOW>,
        is_any: bool,
        draft: &mut Draft,
    ) -> Result<bool, AllocError>
        ensures { IfOk result (Joins self.now.separator.now
            (row_says self.now.names.now (key.now, value.now) ∷ [])
            draft.old is_any draft.new) }
    {
        let written = value.as_str();
        let has = Has::Value(self.value_piece(key, written));
        self.join_says(key, written, has, is_any, draft)
    }

    // A keyword.
    pub fn join_keyword(
        &self,
        key: &Key,
        value: &Value,
        is_any: bool,
        draft: &mut Draft,
    ) -> Result<bool, AllocError>
        ensures { IfOk result (Joins self.now.separator.now
            (keyword_says self.now.names.now self.now.separator.now (key.now, value.now) ∷ [])
            draft.old is_any draft.new) }
    {
        match value.as_slice() {
            [only] => self.join_written(key, value, only.as_str(), is_any, draft),
            _ => {
                let written = value.to_string(*draft.raw_spans.allocator())?;
                self.join_written(key, value, written.as_str(), is_any, draft)
            }
        }
    }

    // The same with the value as it is written.
    fn join_written(
        &self,
        key: &Key,
        value: &Value,
        written: &str,
        is_any: bool,
        draft: &mut Draft,
    ) -> Result<bool, AllocError>
        requires { written.now ≡ written_value value.now }
        ensures { IfOk result (Joins self.now.separator.now
            (keyword_says self.now.names.now self.now.separator.now (key.now, value.now) ∷ [])
            draft.old is_any draft.new) }
    {
        let key = key.as_str();
        let has = self.keyword_has(key, value, written);
        self.join_says(key, written, has, is_any, draft)
    }

    // What a keyword has.
    fn keyword_has<'v>(&self, key: &'v str, value: &'v Value, written: &'v str) -> Has<'v>
    where
        'a: 'v,
        requires { written.now ≡ written_value value.now }
        ensures { has_pieces self.now.names.now self.now.separator.now result
            ≡ value_says self.now.names.now self.now.separator.now (key.now, value.now) }
    {
        if lists_codes(key) && !value.as_slice().is_empty() {
            return Has::Codes(key, value.as_slice());
        }
        Has::Value(self.value_piece(key, written))
    }

    // The language of `t`.
    pub fn join_language(
        &self,
        is_hybrid: bool,
        name: &LanguageIdentifierDisplayNameBorrowed<'_>,
        is_any: bool,
        draft: &mut Draft,
    ) -> Result<bool, AllocError>
        ensures { IfOk result (Joins self.now.separator.now
            (language_says self.now.names.now is_hybrid (parts_of name.now) ∷ [])
            draft.old is_any draft.new) }
    {
        self.add_separator(is_any, draft)?;
        self.add_pair(self.language_key(is_hybrid), Has::Name(name), draft)?;
        Ok(true)
    }

    // What the language of `t` is.
    fn language_key(&self, is_hybrid: bool) -> LentPiece<'a>
        ensures { lent_piece result ≡ language_key self.now.names.now is_hybrid }
    {
        if is_hybrid {
            return named(name_at(&self.names.types, "h0", "hybrid"), "hybrid");
        }
        self.key_piece("t")
    }
}

fn lists_codes(key: &str) -> bool
    ensures { result ≡ lists_codes key.now }
{
    key == "kr"
}
