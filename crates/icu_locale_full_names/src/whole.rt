//! The text of a whole name.
ghost use Rattle.std.specs.Prelude.{◌≡◌, ◌∷◌, ◌||◌, [], not, true, false, None, is_some, ℕ, OnOk, List};
ghost use Rattle.std.specs.List.{list_any};
ghost use Rattle.icu_locale_names.specs.LanguageChains.{LanguageChain};
ghost use Rattle.icu_locale_names.specs.LanguageNames.{LocaleAnswers, filled, name_of};
ghost use Rattle.icu_locale_names.specs.declared.options.LanguageDisplay.{LanguageDisplay};
ghost use Rattle.icu_locale_names.specs.LentNames.{parts_of};
ghost use Rattle.icu_provider.specs.Names.{part_of};
ghost use Rattle.icu_provider.specs.declared.extension_names.ExtensionNames.{ExtensionNames};
ghost use Rattle.icu_locale_full_names.specs.FullNames.{full_name_of, full_pieces, further_texts, all_texts, joined_texts, marks_hybrid};
ghost use Rattle.icu_locale_full_names.specs.inner.Drafts.{Adds, are_some, is_any};
ghost use Rattle.icu_locale_full_names.specs.inner.Has.{lent_language};

use crate::draft::Draft;
use crate::pairs::Language;
use crate::qualifiers::marks_hybrid;
use icu_locale_extensions::{Fields, LocaleIdentifier};
use icu_locale_names::{LanguageIdentifierDisplayNameBorrowed, LentPiece};
use icu_provider::{ExtensionNames, PatternItem};
use std::alloc::AllocError;

// The whole name, appended to a text.
pub fn add_whole(
    name: &LanguageIdentifierDisplayNameBorrowed<'_>,
    language: Option<&LanguageIdentifierDisplayNameBorrowed<'_>>,
    names: &ExtensionNames,
    x: &LocaleIdentifier,
    draft: &mut Draft,
) -> Result<(), AllocError>
    ensures { OnOk result (Adds
        (full_pieces (parts_of name.now) (lent_language language.entry) names.now x.now)
        draft.old draft.new) }
{
    if !has_qualifiers(name, language, x) {
        return draft.add(name.base());
    }
    let speech = Language {
        names,
        separator: name.separator(),
    };
    for item in name.pattern() {
        speech.add_part(name, language, x, item, draft)?;
    }
    Ok(())
}

// Whether there is a qualifier: of the identifier, or a further one.
#[tactic(auto, using(crate::proofs::Joining::all_is))]
fn has_qualifiers(
    name: &LanguageIdentifierDisplayNameBorrowed<'_>,
    language: Option<&LanguageIdentifierDisplayNameBorrowed<'_>>,
    x: &LocaleIdentifier,
) -> bool
    ensures { (names : ExtensionNames) → result ≡ are_some
        (all_texts (parts_of name.now) names (lent_language language.entry) x.now) }
{
    if has_own(name) {
        return true;
    }
    if language.is_some() {
        return true;
    }
    has_further(x)
}

// Whether the identifier has a qualifier.
fn has_own(name: &LanguageIdentifierDisplayNameBorrowed<'_>) -> bool
    ensures { result ≡ is_any (parts_of name.now).qualifiers }
{
    name.qualifiers().next().is_some()
}

/// Whether a locale identifier says something beside its identifier. Where it does not, it is called what its identifier
/// is called. It takes no memory.
pub fn says_more(x: &LocaleIdentifier) -> bool
    ensures told { (names : ExtensionNames) (separator : List ℕ)
        → result ≡ (is_some x.now.locale.extensions.transform.lang
        || list_any (λ _. true) (further_texts names separator None x.now)) }
    ensures silent { result ≡ false → (answers : LocaleAnswers) (chain : LanguageChain)
        (display : LanguageDisplay) (names : ExtensionNames)
        → full_name_of answers chain display names x.now
        ≡ name_of answers chain display x.now.locale.id }
{
    if x.locale.extensions.transform.lang.is_some() {
        return true;
    }
    has_further(x)
}

// Whether extensions say something, but for the language of `t`.
#[tactic(auto, using(crate::proofs::Joining::further_is))]
fn has_further(x: &LocaleIdentifier) -> bool
    ensures { (names : ExtensionNames) (separator : List ℕ)
        → result ≡ are_some (further_texts names separator None x.now) }
{
    if has_field(&x.fields) {
        return true;
    }
    if !x.attributes.is_empty() {
        return true;
    }
    if !x.locale.extensions.unicode.keywords.is_empty() {
        return true;
    }
    if !x.others.is_empty() {
        return true;
    }
    x.private_use.is_some()
}

// Whether there is a field that does not mark a hybrid.
fn has_field(fields: &Fields) -> bool
    ensures { result ≡ list_any (λ row. not (marks_hybrid row)) fields.now }
{
    for (key, value) in fields.iter() {
        if !marks_hybrid(key, value) {
            return true;
        }
    }
    false
}

impl<'a> Language<'a> {
    // What an item of the pattern stands for.
    fn add_part(
        &self,
        name: &LanguageIdentifierDisplayNameBorrowed<'_>,
        language: Option<&LanguageIdentifierDisplayNameBorrowed<'_>>,
        x: &LocaleIdentifier,
        item: &PatternItem,
        draft: &mut Draft,
    ) -> Result<(), AllocError>
        requires { self.now.separator.now ≡ (parts_of name.now).separator }
        ensures { OnOk result (Adds (filled (parts_of name.now).base
            (joined_texts (parts_of name.now).separator
            (all_texts (parts_of name.now) self.now.names.now (lent_language language.entry) x.now))
            (part_of item.now)) draft.old draft.new) }
    {
        match item {
            PatternItem::Literal(literal) => draft.add(LentPiece::plain(literal.as_str())),
            PatternItem::First => draft.add(name.base()),
            PatternItem::Second => {
                let _ = self.join_all(name, language, x, draft)?;
                Ok(())
            }
        }
    }
}
