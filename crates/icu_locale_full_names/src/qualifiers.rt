//! The qualifiers of a locale identifier, one after another.
ghost use Rattle.std.specs.Prelude.{◌≡◌, ◌∷◌, [], ◌++◌, IfOk, map, filter, not, true, false};
ghost use Rattle.icu_locale_names.specs.LentNames.{parts_of};
ghost use Rattle.icu_locale_full_names.specs.FullNames.{one_piece, marks_hybrid, is_hybrid, language_texts, attribute_says, is_beside_x, private_rows, transform_texts, unicode_texts, other_texts, further_texts};
ghost use Rattle.icu_locale_full_names.specs.Says.{keyword_says, row_says};
ghost use Rattle.icu_locale_full_names.specs.inner.Drafts.{Joins};
ghost use Rattle.icu_locale_full_names.specs.inner.Has.{lent_language};

use crate::draft::Draft;
use crate::pairs::Language;
use icu_locale_core::Keywords;
use icu_locale_extensions::{
    Attributes, FieldKey, Fields, LocaleIdentifier, Others, Singleton, Subtags,
};
use icu_locale_names::{LanguageIdentifierDisplayNameBorrowed, LentPiece};
use std::alloc::AllocError;

impl<'a> Language<'a> {
    // All qualifiers: those of an identifier, and the further ones.
    #[tactic(auto, using(crate::proofs::Joining::joins_more))]
    pub fn join_all(
        &self,
        name: &LanguageIdentifierDisplayNameBorrowed<'_>,
        language: Option<&LanguageIdentifierDisplayNameBorrowed<'_>>,
        x: &LocaleIdentifier,
        draft: &mut Draft,
    ) -> Result<bool, AllocError>
        ensures { IfOk result (Joins self.now.separator.now
            (map one_piece (parts_of name.now).qualifiers
            ++ further_texts self.now.names.now self.now.separator.now
            (lent_language language.entry) x.now)
            draft.old false draft.new) }
    {
        let is_any = self.join_base(name, draft)?;
        self.join_further(language, x, is_any, draft)
    }

    // The qualifiers of an identifier.
    fn join_base(
        &self,
        name: &LanguageIdentifierDisplayNameBorrowed<'_>,
        draft: &mut Draft,
    ) -> Result<bool, AllocError>
        ensures { IfOk result (Joins self.now.separator.now
            (map one_piece (parts_of name.now).qualifiers) draft.old false draft.new) }
    {
        let mut is_any = false;
        for piece in name.qualifiers() {
            is_any = self.join_piece(piece, is_any, draft)?;
        }
        Ok(is_any)
    }

    // The further qualifiers.
    #[tactic(auto, using(crate::proofs::Joining::joins_more))]
    fn join_further(
        &self,
        language: Option<&LanguageIdentifierDisplayNameBorrowed<'_>>,
        x: &LocaleIdentifier,
        is_any: bool,
        draft: &mut Draft,
    ) -> Result<bool, AllocError>
        ensures { IfOk result (Joins self.now.separator.now
            (further_texts self.now.names.now self.now.separator.now
            (lent_language language.entry) x.now)
            draft.old is_any draft.new) }
    {
        let is_any = self.join_transform(language, x, is_any, draft)?;
        self.join_from_unicode(x, is_any, draft)
    }

    // What `t` says.
    #[tactic(auto, using(crate::proofs::Joining::joins_more))]
    fn join_transform(
        &self,
        language: Option<&LanguageIdentifierDisplayNameBorrowed<'_>>,
        x: &LocaleIdentifier,
        is_any: bool,
        draft: &mut Draft,
    ) -> Result<bool, AllocError>
        ensures { IfOk result (Joins self.now.separator.now
            (transform_texts self.now.names.now (lent_language language.entry) x.now)
            draft.old is_any draft.new) }
    {
        let is_any = self.join_language_if_any(is_hybrid(&x.fields), language, is_any, draft)?;
        self.join_fields(&x.fields, is_any, draft)
    }

    // The language of `t`, if there is one.
    fn join_language_if_any(
        &self,
        is_hybrid: bool,
        name: Option<&LanguageIdentifierDisplayNameBorrowed<'_>>,
        is_any: bool,
        draft: &mut Draft,
    ) -> Result<bool, AllocError>
        ensures { IfOk result (Joins self.now.separator.now
            (language_texts self.now.names.now is_hybrid (lent_language name.entry))
            draft.old is_any draft.new) }
    {
        match name {
            Some(name) => self.join_language(is_hybrid, name, is_any, draft),
            None => Ok(is_any),
        }
    }

    // The fields, but for the one that marks a hybrid.
    fn join_fields(
        &self,
        fields: &Fields,
        before: bool,
        draft: &mut Draft,
    ) -> Result<bool, AllocError>
        ensures { IfOk result (Joins self.now.separator.now
            (map (row_says self.now.names.now) (filter (λ row. not (marks_hybrid row)) fields.now))
            draft.old before draft.new) }
    {
        let mut is_any = before;
        for (key, value) in fields.iter() {
            is_any = self.join_field(key, value, is_any, draft)?;
        }
        Ok(is_any)
    }

    // A field, unless it marks a hybrid.
    fn join_field(
        &self,
        key: &FieldKey,
        value: &Subtags<3>,
        is_any: bool,
        draft: &mut Draft,
    ) -> Result<bool, AllocError>
        ensures { IfOk result (Joins self.now.separator.now
            (map (row_says self.now.names.now)
            (filter (λ row. not (marks_hybrid row)) ((key.now, value.now) ∷ [])))
            draft.old is_any draft.new) }
    {
        if marks_hybrid(key, value) {
            return Ok(is_any);
        }
        self.join_row(key.as_str(), value, is_any, draft)
    }

    // What `u`, other extensions and private use say.
    #[tactic(auto, using(crate::proofs::Joining::joins_more))]
    fn join_from_unicode(
        &self,
        x: &LocaleIdentifier,
        is_any: bool,
        draft: &mut Draft,
    ) -> Result<bool, AllocError>
        ensures { IfOk result (Joins self.now.separator.now
            (unicode_texts self.now.names.now self.now.separator.now x.now
            ++ other_texts self.now.names.now x.now)
            draft.old is_any draft.new) }
    {
        let is_any = self.join_unicode(x, is_any, draft)?;
        self.join_others(x, is_any, draft)
    }

    // What `u` says.
    #[tactic(auto, using(crate::proofs::Joining::joins_more))]
    fn join_unicode(
        &self,
        x: &LocaleIdentifier,
        is_any: bool,
        draft: &mut Draft,
    ) -> Result<bool, AllocError>
        ensures { IfOk result (Joins self.now.separator.now
            (unicode_texts self.now.names.now self.now.separator.now x.now)
            draft.old is_any draft.new) }
    {
        let is_any = self.join_attributes(&x.attributes, is_any, draft)?;
        self.join_keywords(&x.locale.extensions.unicode.keywords, is_any, draft)
    }

    // The attributes.
    fn join_attributes(
        &self,
        attributes: &Attributes,
        before: bool,
        draft: &mut Draft,
    ) -> Result<bool, AllocError>
        ensures { IfOk result (Joins self.now.separator.now (map attribute_says attributes.now)
            draft.old before draft.new) }
    {
        let mut is_any = before;
        for attribute in attributes.iter() {
            is_any = self.join_piece(LentPiece::raw_subtag(attribute.as_str()), is_any, draft)?;
        }
        Ok(is_any)
    }

    // The keywords.
    fn join_keywords(
        &self,
        keywords: &Keywords,
        before: bool,
        draft: &mut Draft,
    ) -> Result<bool, AllocError>
        ensures { IfOk result (Joins self.now.separator.now
            (map (keyword_says self.now.names.now self.now.separator.now) keywords.now)
            draft.old before draft.new) }
    {
        let mut is_any = before;
        for (key, value) in keywords.iter() {
            is_any = self.join_keyword(key, value, is_any, draft)?;
        }
        Ok(is_any)
    }

    // What other extensions say, with private use in its place among them.
    #[tactic(auto, using(crate::proofs::Joining::joins_more))]
    fn join_others(
        &self,
        x: &LocaleIdentifier,
        is_any: bool,
        draft: &mut Draft,
    ) -> Result<bool, AllocError>
        ensures { IfOk result (Joins self.now.separator.now
            (other_texts self.now.names.now x.now) draft.old is_any draft.new) }
    {
        let is_any = self.join_beside(true, &x.others, is_any, draft)?;
        self.join_from_private(x, is_any, draft)
    }

    // Private use, and the other extensions after it.
    #[tactic(auto, using(crate::proofs::Joining::joins_more))]
    fn join_from_private(
        &self,
        x: &LocaleIdentifier,
        is_any: bool,
        draft: &mut Draft,
    ) -> Result<bool, AllocError>
        ensures { IfOk result (Joins self.now.separator.now
            (map (row_says self.now.names.now) (private_rows x.now.private_use)
            ++ map (row_says self.now.names.now) (filter (is_beside_x false) x.now.others))
            draft.old is_any draft.new) }
    {
        let is_any = self.join_private(&x.private_use, is_any, draft)?;
        self.join_beside(false, &x.others, is_any, draft)
    }

    // The other extensions before `x`, or those after it.
    fn join_beside(
        &self,
        side: bool,
        others: &Others,
        before: bool,
        draft: &mut Draft,
    ) -> Result<bool, AllocError>
        ensures { IfOk result (Joins self.now.separator.now
            (map (row_says self.now.names.now) (filter (is_beside_x side) others.now))
            draft.old before draft.new) }
    {
        let mut is_any = before;
        for (singleton, pieces) in others.iter() {
            is_any = self.join_if_beside(side, singleton, pieces, is_any, draft)?;
        }
        Ok(is_any)
    }

    // Another extension, if it is on this side of `x`.
    fn join_if_beside(
        &self,
        side: bool,
        singleton: &Singleton,
        pieces: &Subtags<2>,
        is_any: bool,
        draft: &mut Draft,
    ) -> Result<bool, AllocError>
        ensures { IfOk result (Joins self.now.separator.now
            (map (row_says self.now.names.now)
            (filter (is_beside_x side) ((singleton.now, pieces.now) ∷ [])))
            draft.old is_any draft.new) }
    {
        if is_beside_x(side, singleton, pieces) {
            return self.join_row(singleton.as_str(), pieces, is_any, draft);
        }
        Ok(is_any)
    }

    // Private use, if there is any.
    fn join_private(
        &self,
        private_use: &Option<Subtags<1>>,
        is_any: bool,
        draft: &mut Draft,
    ) -> Result<bool, AllocError>
        ensures { IfOk result (Joins self.now.separator.now
            (map (row_says self.now.names.now) (private_rows private_use.now))
            draft.old is_any draft.new) }
    {
        match private_use {
            Some(pieces) => self.join_row("x", pieces, is_any, draft),
            None => Ok(is_any),
        }
    }
}

// Whether the fields mark a hybrid.
fn is_hybrid(fields: &Fields) -> bool
    ensures { result ≡ is_hybrid fields.now }
{
    let Some(key) = FieldKey::try_from_bytes(b"h0") else {
        return false;
    };
    match fields.get(key) {
        Some(value) => value.as_str() == "hybrid",
        None => false,
    }
}

// Whether a field marks a hybrid.
pub fn marks_hybrid(key: &FieldKey, value: &Subtags<3>) -> bool
    ensures { result ≡ marks_hybrid (key.now, value.now) }
{
    key.as_str() == "h0" && value.as_str() == "hybrid"
}

// Whether an extension is on a side of `x`.
fn is_beside_x(side: bool, singleton: &Singleton, pieces: &Subtags<2>) -> bool
    ensures { result ≡ is_beside_x side (singleton.now, pieces.now) }
{
    let _ = pieces;
    let is_before = singleton.as_str() < "x";
    is_before == side
}
