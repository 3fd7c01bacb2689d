//! Facts about locale identifiers. Each function here takes nothing, answers nothing and carries a proved fact.
ghost use Rattle.std.specs.Prelude.{◌≡◌, ◌↔◌, false, List, ℕ, None, Result, Ok, Err};
ghost use Rattle.std.specs.List.{list_any};
ghost use Rattle.icu_locale_core.specs.Agreement.{TellsEquality};
ghost use Rattle.icu_locale_core.specs.Identifier.{pieces, IsIdentifier, ReadsIdentifier};
ghost use Rattle.icu_locale_core.specs.Identifier as core;
ghost use Rattle.icu_locale_core.specs.Readings.{read_pieces};
ghost use Rattle.icu_locale_core.specs.declared.langid.LanguageIdentifier.{LanguageIdentifier};
ghost use Rattle.icu_locale_core.specs.declared.parse_error.ParseError.{ParseError};
ghost use Rattle.icu_locale_extensions.specs.Built.{as_locale, bare};
ghost use Rattle.icu_locale_extensions.specs.Extensions.{is_singleton};
ghost use Rattle.icu_locale_extensions.specs.Grammar.{IsLocaleId, Spells};
ghost use Rattle.icu_locale_extensions.specs.Locales.{IsLocaleIdentifier, written};
ghost use Rattle.icu_locale_extensions.specs.laws.Reader.{read, read_by, ReadsAs};
ghost use Rattle.icu_locale_extensions.specs.Syntaxes.{IsFaultBy, IsRefused, IsOkUnlessMemory, ReadsBy, SpellsBy, is_private, is_root, preferred, starts_by};
ghost use Rattle.icu_locale_extensions.specs.Tags.{IsKnownTag, IsTagOf};
ghost use Rattle.icu_locale_extensions.specs.declared.identifier.LocaleIdentifier.{LocaleIdentifier};

use crate::{Attributes, Fields, LocaleIdentifier, Others, Syntax};
use std::cmp::PartialEq;

/// The grammar derives a locale identifier from pieces exactly where they are read as it.
pub fn derived_is_read()
    ensures { (ps : List (List ℕ)) (x : LocaleIdentifier)
        → IsLocaleId ps x ↔ (read ps ≡ Ok x) }
{
    icu_locale_core::laws::pieces_are_read();
}

/// A text spells a locale identifier in a syntax exactly where it is read as it there.
pub fn spelled_is_read()
    ensures { (s : Syntax) (t : List ℕ) (x : LocaleIdentifier)
        → SpellsBy s t x ↔ (read_by s t ≡ Ok x) }
{
    derived_is_read();
}

/// The reader reads what the grammar derives, and what is at fault it refuses for that reason.
pub fn reading_is_by_the_grammar()
    ensures reads { (s : Syntax) (t : List ℕ) (result : Result LocaleIdentifier ParseError)
        → ReadsBy s t result ↔ ReadsAs s t result }
    ensures faults { (s : Syntax) (t : List ℕ) (e : ParseError)
        → IsFaultBy s t e ↔ (read_by s t ≡ Err e) }
    ensures refusals { (ps : List (List ℕ)) (e : ParseError)
        → IsRefused ps e ↔ (read ps ≡ Err e) }
{
    derived_is_read();
}

/// What Display writes of a locale identifier spells that locale identifier.
pub fn written_spells()
    ensures { (x : LocaleIdentifier) → IsLocaleIdentifier x → Spells (written x) x }
{
    icu_locale_core::laws::pieces_are_read();
    derived_is_read();
}

/// Two locale identifiers are equal exactly where their written forms are.
pub fn written_once()
    ensures { (x y : LocaleIdentifier) → IsLocaleIdentifier x → IsLocaleIdentifier y
        → (written x ≡ written y) ↔ (x ≡ y) }
{
    written_spells();
    spelled_once();
}

/// A text spells at most one locale identifier.
pub fn spelled_once()
    ensures { (t : List ℕ) (x y : LocaleIdentifier) → Spells t x → Spells t y → x ≡ y }
{
    derived_is_read();
}

/// A text spells at most one locale identifier in each syntax.
pub fn spelled_once_by()
    ensures { (s : Syntax) (t : List ℕ) (x y : LocaleIdentifier)
        → SpellsBy s t x → SpellsBy s t y → x ≡ y }
{
    spelled_is_read();
}

/// What Display writes of a locale identifier is read as that locale identifier in each syntax, unless memory is refused.
pub fn written_reads_back()
    ensures { (s : Syntax) (x : LocaleIdentifier) (result : Result LocaleIdentifier ParseError)
        → IsLocaleIdentifier x → ReadsBy s (written x) result → IsOkUnlessMemory result x }
{
    written_spells();
    strict_texts_read_alike();
}

/// A text without singletons spells an identifier alone, and is read as one is, with the same refusals.
pub fn plain_texts_read_alike()
    ensures spelled { (t : List ℕ) (x : LocaleIdentifier)
        → list_any is_singleton (pieces t) ≡ false → Spells t x
        → (IsIdentifier x.locale.id × core.Spells t x.locale.id) × (x ≡ bare x.locale.id) }
    ensures equal { (t : List ℕ) → list_any is_singleton (pieces t) ≡ false
        → read (pieces t) ≡ as_locale (read_pieces (pieces t)) }
    ensures alike { (t : List ℕ) (result : Result LanguageIdentifier ParseError)
        → list_any is_singleton (pieces t) ≡ false
        → ReadsIdentifier t result ↔ ReadsBy Syntax.Unicode t (as_locale result) }
{
    icu_locale_core::laws::pieces_are_read();
    derived_is_read();
}

/// What a text spells in the strict grammar it spells in each syntax.
pub fn strict_texts_read_alike()
    ensures { (s : Syntax) (t : List ℕ) (x : LocaleIdentifier) → Spells t x → SpellsBy s t x }
{
    derived_is_read();
}

/// An identifier alone is a locale identifier, and a text of it spells that in each syntax.
pub fn identifiers_read_alike()
    ensures known { (x : LanguageIdentifier) → IsIdentifier x → IsLocaleIdentifier (bare x) }
    ensures alike { (s : Syntax) (t : List ℕ) (x : LanguageIdentifier)
        → IsIdentifier x → core.Spells t x → SpellsBy s t (bare x) }
{
    icu_locale_core::laws::pieces_are_read();
    derived_is_read();
    strict_texts_read_alike();
}

/// A text that a syntax refuses is at fault for that reason, but for memory, and a text at fault spells nothing in it. It
/// is at fault for its language exactly where its first piece is none.
pub fn refusals_are_faults()
    ensures told { (s : Syntax) (t : List ℕ) (e : ParseError)
        → ReadsBy s t (Err e) → ¬ (e ≡ ParseError.Memory) → IsFaultBy s t e }
    ensures nothing { (s : Syntax) (t : List ℕ) (e : ParseError) (x : LocaleIdentifier)
        → IsFaultBy s t e → ¬ (SpellsBy s t x) }
    ensures language { (s : Syntax) (t : List ℕ)
        → IsFaultBy s t ParseError.InvalidLanguage ↔ (starts_by s t ≡ false) }
    ensures memory { (s : Syntax) (t : List ℕ) → ¬ (IsFaultBy s t ParseError.Memory) }
{
    derived_is_read();
}

/// What the grammar derives is a well-formed tag of RFC 5646, section 2.1, with the same parts; so is what Display writes,
/// and what is read as a tag, an extended language among its parts. Legacy tags, private use alone and `root` are none.
pub fn texts_are_tags()
    ensures derived { (ps : List (List ℕ)) (x : LocaleIdentifier)
        → IsLocaleId ps x → IsTagOf ps x }
    ensures written { (x : LocaleIdentifier) → IsLocaleIdentifier x
        → IsTagOf (pieces (written x)) x }
    ensures read { (t : List ℕ) (x : LocaleIdentifier) → preferred (pieces t) ≡ None
        → is_private (pieces t) ≡ false → is_root (pieces t) ≡ false
        → SpellsBy Syntax.Bcp47 t x → IsTagOf (pieces t) x }
{
    written_spells();
}

/// A well-formed tag is read, legacy tags aside: its language has two or three letters or is registered with a prefix that
/// has, nothing comes twice, and `u` and `t` are by UTS #35.
pub fn known_tags_are_read()
    ensures { (t : List ℕ) → preferred (pieces t) ≡ None → IsKnownTag (pieces t)
        → (x : LocaleIdentifier) × SpellsBy Syntax.Bcp47 t x }
{
    strict_texts_read_alike();
}

/// `==` of locale identifiers and of their parts passes exactly where they are equal.
pub fn equality_is_told()
    ensures attributes { TellsEquality ⟦<Attributes as PartialEq>⟧.eq }
    ensures fields { TellsEquality ⟦<Fields as PartialEq>⟧.eq }
    ensures others { TellsEquality ⟦<Others as PartialEq>⟧.eq }
    ensures whole { TellsEquality ⟦<LocaleIdentifier as PartialEq>⟧.eq }
{
    icu_locale_core::laws::equality_is_told();
}
