//! Laws of names of locale identifiers. Each function here takes nothing, answers nothing and carries a proved fact.
ghost use Rattle.std.specs.Prelude.{◌≡◌, ◌==◌, [], None, Ok, List, length, not};
ghost use Rattle.icu_locale_core.specs.declared.langid.LanguageIdentifier.{LanguageIdentifier};
ghost use Rattle.icu_locale_extensions.specs.Built.{bare};
ghost use Rattle.icu_locale_extensions.specs.declared.identifier.LocaleIdentifier.{LocaleIdentifier};
ghost use Rattle.icu_locale_names.specs.LanguageChains.{LanguageChain};
ghost use Rattle.icu_locale_names.specs.LanguageNames.{LocaleAnswers, NameParts, name_of, pieces_by_parts};
ghost use Rattle.icu_locale_names.specs.declared.options.LanguageDisplay.{LanguageDisplay};
ghost use Rattle.icu_provider.specs.declared.extension_names.ExtensionNames.{ExtensionNames};
ghost use Rattle.icu_locale_full_names.specs.FullNames.{NameText, GivesFullName, full_name_of, full_pieces, further_texts, written};
ghost use Rattle.icu_locale_names.specs.Pieces.{Piece, spans, has_raw};

use icu_locale_names::laws::report_and_spans_agree;

/// Where the extensions say nothing, the name is that of the identifier.
#[tactic(auto, using(crate::proofs::Bare::bare_name))]
pub fn silent_extensions_leave_the_name()
    ensures { (base : NameParts) (names : ExtensionNames) (x : LocaleIdentifier)
        → further_texts names base.separator None x ≡ []
        → full_pieces base None names x ≡ pieces_by_parts base }
{}

/// An identifier without extensions has the name that it has alone, whatever extensions are called.
#[tactic(auto, using(crate::proofs::Bare::bare_identifier))]
pub fn identifiers_keep_their_names()
    ensures { (answers : LocaleAnswers) (chain : LanguageChain) (display : LanguageDisplay)
        (names : ExtensionNames) (x : LanguageIdentifier)
        → full_name_of answers chain display names (bare x) ≡ name_of answers chain display x }
{}

/// A name tells of a raw part exactly where one of its pieces is raw.
pub fn raw_parts_have_spans()
    ensures { (pieces : List Piece) → not (length (spans pieces) == 0) ≡ has_raw pieces }
{
    report_and_spans_agree();
}

/// A name that is given is the text of its pieces.
pub fn given_names_are_written()
    ensures { (answers : LocaleAnswers) (chain : LanguageChain) (display : LanguageDisplay)
        (names : ExtensionNames) (x : LocaleIdentifier) (name : NameText)
        → GivesFullName answers chain display names x (Ok name)
        → (pieces : List Piece) × (full_name_of answers chain display names x ≡ Ok pieces)
        × (name ≡ written pieces) }
{}
