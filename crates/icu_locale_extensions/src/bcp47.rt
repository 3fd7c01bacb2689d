//! The reader of tags of BCP 47 (RFC 5646).
ghost use Rattle.std.specs.Prelude.{◌≡◌, ◌∷◌, ◌++◌, ◌&&◌, codes, is_some, IfSome, Some, true};
ghost use Rattle.icu_locale_core.specs.Identifier.{pieces, pieces_if_any};
ghost use Rattle.icu_locale_core.specs.Subtag.{has_length, is_alphabetic, is_language, lowercase};
ghost use Rattle.icu_locale_core.specs.laws.Identifiers.{same_text};
ghost use Rattle.icu_locale_extensions.specs.Extensions.{is_singleton};
ghost use Rattle.icu_locale_extensions.specs.laws.Reader.{first_is, ReadsAs};
ghost use Rattle.icu_locale_extensions.specs.Syntaxes.{has_row, is_extended, is_registered, is_root, tag_text, ReadsBy};
ghost use Rattle.icu_locale_extensions.specs.inner.Lent.{und_before};
ghost use Rattle.icu_locale_extensions.specs.inner.Tables.{rows_of};

use crate::cuts::{is_named, is_spelled};
use crate::extended_languages::EXTENDED_LANGUAGES;
use crate::identifier::LocaleIdentifier;
use crate::laws;
use crate::legacy::preferred;
use crate::reader::{read_behind, read_locale};
use crate::syntax::Syntax;
use icu_locale_core::{LanguageIdentifier, ParseError, Pieces, cut};
use std::alloc::Global;

impl LocaleIdentifier {
    /// Reads a tag of BCP 47 (RFC 5646) in any case, its pieces apart by `-` or `_`, as the strict grammar reads what
    /// the tag stands for: of a legacy tag, as `i-klingon`, the value that is preferred to it; of private use alone, as
    /// `x-whatever`, that after `und`; of CLDR's `root`, alone or before extensions or private use, `und` in its place;
    /// of an extended language that is registered with its prefix, as `zh-yue`, that without the prefix; else the tag
    /// itself. Five legacy tags are spelled by the strict grammar too, and are read so: `art-lojban`, `cel-gaulish`,
    /// `zh-guoyu`, `zh-hakka` and `zh-xiang`. It takes memory for variants, private use and extensions alone.
    ///
    /// # Errors
    ///
    /// - `InvalidLanguage` exactly where the first piece of what the tag stands for is no language.
    /// - `InvalidSubtag` where the rest is none of a locale identifier, as of `en-u`, or has a variant or an extension
    ///   twice.
    /// - `Memory` only where variants, extensions or private use are kept, and never in place of `InvalidLanguage`.
    pub fn try_from_bcp47(alloc: Global, text: &[u8]) -> Result<Self, ParseError>
        ensures { ReadsBy Syntax.Bcp47 text.now result }
    {
        laws::reading_is_by_the_grammar();
        read_tag(alloc, text)
    }
}

fn read_tag(alloc: Global, text: &[u8]) -> Result<LocaleIdentifier, ParseError>
    ensures { ReadsAs Syntax.Unicode (tag_text text.now) result }
{
    let (first, behind) = cut(text);
    if let Some(value) = preferred(first, behind) {
        return read_locale(alloc, value.as_bytes());
    }
    if is_named(first, b'x') {
        return read_after_und(alloc, text);
    }
    if is_root(first, behind) {
        return read_root(alloc, behind);
    }
    match without_prefix(first, behind) {
        Some(tag) => read_locale(alloc, tag),
        None => read_locale(alloc, text),
    }
}

// Whether a tag is `root`, alone or before what a singleton begins.
fn is_root(first: &[u8], behind: Option<&[u8]>) -> bool
    ensures { result ≡ is_root (first.now ∷ pieces_if_any behind.entry) }
{
    match behind {
        Some(rest) => is_spelled(first, b"root") && is_singleton(rest),
        None => is_spelled(first, b"root"),
    }
}

// Whether the first piece of a text is a singleton.
fn is_singleton(text: &[u8]) -> bool
    ensures { result ≡ first_is is_singleton (pieces text.now) }
{
    cut(text).0.len() == 1
}

// `und`, alone or before what a singleton begins.
fn read_root(alloc: Global, behind: Option<&[u8]>) -> Result<LocaleIdentifier, ParseError>
    requires { IfSome behind (λ rest. first_is is_singleton (pieces rest.now) ≡ true) }
    ensures { ReadsAs Syntax.Unicode (und_before behind.entry) result }
{
    match behind {
        Some(rest) => read_after_und(alloc, rest),
        None => read_locale(alloc, b"und"),
    }
}

// What a singleton begins, after `und`.
fn read_after_und(alloc: Global, text: &[u8]) -> Result<LocaleIdentifier, ParseError>
    requires { first_is is_singleton (pieces text.now) ≡ true }
    ensures { ReadsAs Syntax.Unicode (codes "und-" ++ text.now) result }
{
    laws::derived_is_read();
    let id = LanguageIdentifier::read_front(alloc, &mut Pieces::new(b"und"))?;
    read_behind(alloc, id, Pieces::new(text))
}

// A tag of an extended language without its first piece.
fn without_prefix<'a>(first: &[u8], behind: Option<&'a [u8]>) -> Option<&'a [u8]>
    ensures told { is_some result ≡ is_extended (first.now ∷ pieces_if_any behind.entry) }
    ensures same { IfSome result (λ tag. behind.entry ≡ Some tag) }
{
    let tag = behind?;
    let (second, _) = cut(tag);
    if is_language(first) && are_three_letters(second) && is_registered(first, second) {
        return Some(tag);
    }
    None
}

fn is_language(piece: &[u8]) -> bool
    ensures { result ≡ is_language piece.now }
{
    match piece {
        [a, b] => a.is_ascii_alphabetic() && b.is_ascii_alphabetic(),
        _ => are_three_letters(piece),
    }
}

fn are_three_letters(piece: &[u8]) -> bool
    ensures { result ≡ (has_length 3 3 piece.now && is_alphabetic piece.now) }
{
    match piece {
        [a, b, c] => a.is_ascii_alphabetic() && b.is_ascii_alphabetic() && c.is_ascii_alphabetic(),
        _ => false,
    }
}

// Whether the registry has an extended language with a prefix, case aside.
fn is_registered(prefix: &[u8], language: &[u8]) -> bool
    ensures { result ≡ is_registered prefix.now language.now }
{
    has_row(&EXTENDED_LANGUAGES, prefix, language)
}

// Whether some row has a language with a prefix, case aside.
fn has_row(rows: &[(&str, &str)], prefix: &[u8], language: &[u8]) -> bool
    ensures { result ≡ has_row (rows_of rows.now) prefix.now language.now }
{
    for (extended, its_prefix) in rows {
        if are_spelled(language, extended, prefix, its_prefix) {
            return true;
        }
    }
    false
}

// Whether two pieces are two texts, case aside.
fn are_spelled(first: &[u8], text: &str, second: &[u8], other: &str) -> bool
    ensures { result ≡ (same_text (lowercase first.now) (lowercase text.now)
        && same_text (lowercase second.now) (lowercase other.now)) }
{
    first.eq_ignore_ascii_case(text.as_bytes()) && second.eq_ignore_ascii_case(other.as_bytes())
}
