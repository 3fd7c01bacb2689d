//! The reader of locale identifiers: an identifier, extensions, private use, in one walk from left to right.
ghost use Rattle.std.specs.Prelude.{◌≡◌, ◌⊎◌, ◌∷◌, [], true, Some, Ok, Err, OnOk, IfOk, IfErr, ◌||◌};
ghost use Rattle.std.specs.List.{list_any};
ghost use Rattle.icu_locale_core.specs.Cuts.{optional_subtag, after_optional_subtag};
ghost use Rattle.icu_locale_core.specs.Identifier.{pieces};
ghost use Rattle.icu_locale_core.specs.Readings.{read_front, after_front, front_variants};
ghost use Rattle.icu_locale_core.specs.Subtag.{lowercase, is_variant};
ghost use Rattle.icu_locale_extensions.specs.Built.{bare};
ghost use Rattle.icu_locale_extensions.specs.Extensions.{is_singleton, is_tkey, is_other_singleton};
ghost use Rattle.icu_locale_extensions.specs.Locales.{IsLocaleIdentifier};
ghost use Rattle.icu_locale_extensions.specs.laws.Reader.{has_unicode, has_transform, opened_unicode, opened_transform, opened_other, marked, read_on, begins, first_is, ReadsAs};
ghost use Rattle.icu_locale_extensions.specs.laws.Reader.Part.{whole, attributes, keywords, language, fields, private_use};
ghost use Rattle.icu_locale_extensions.specs.Syntaxes.{ReadsBy};
ghost use Rattle.icu_locale_extensions.specs.inner.Takes.{Reads, ReadsBehind, read_opened, IsEnd, IsKept};

use crate::cuts::is_named;
use crate::fields::FieldKey;
use crate::identifier::LocaleIdentifier;
use crate::laws;
use crate::others::Singleton;
use crate::syntax::Syntax;
use crate::texts::Subtags;
use icu_locale_core::{Key, LanguageIdentifier, ParseError, Pieces, Subtag, Value};
use std::alloc::Global;

impl LocaleIdentifier {
    /// Reads a locale identifier in any case, its pieces apart by `-` or `_`: an identifier, then extensions in any
    /// order, each once, and then private use. Of an attribute, a key or a field key that comes twice the first counts.
    /// It takes memory for variants, private use and extensions alone, and none for a transformed language by itself.
    ///
    /// # Errors
    ///
    /// - `InvalidLanguage` exactly where the first piece of the text is no language.
    /// - `InvalidSubtag` where the rest is none of a locale identifier, as of `en-u`, or has a variant or an extension
    ///   twice.
    /// - `Memory` only where variants, extensions or private use are kept, and never in place of `InvalidLanguage`.
    pub fn try_from_str(alloc: Global, text: &str) -> Result<Self, ParseError>
        ensures { ReadsBy Syntax.Unicode text.now result }
    {
        LocaleIdentifier::try_from_utf8(alloc, text.as_bytes())
    }

    /// Reads a locale identifier as `try_from_str` does. A byte past ASCII belongs to no piece.
    ///
    /// # Errors
    ///
    /// Those of `try_from_str`.
    pub fn try_from_utf8(alloc: Global, text: &[u8]) -> Result<Self, ParseError>
        ensures { ReadsBy Syntax.Unicode text.now result }
    {
        laws::reading_is_by_the_grammar();
        read_locale(alloc, text)
    }
}

// The identifier, and what follows it.
pub fn read_locale(alloc: Global, text: &[u8]) -> Result<LocaleIdentifier, ParseError>
    ensures { ReadsAs Syntax.Unicode text.now result }
{
    laws::derived_is_read();
    icu_locale_core::laws::pieces_are_read();
    let mut pieces = Pieces::new(text);
    let id = LanguageIdentifier::read_front(alloc, &mut pieces)?;
    read_behind(alloc, id, pieces)
}

// The extensions and the private use that follow an identifier.
pub fn read_behind(
    alloc: Global,
    id: LanguageIdentifier,
    mut pieces: Pieces<'_>,
) -> Result<LocaleIdentifier, ParseError>
    ensures { ReadsBehind pieces.entry id result }
{
    let mut x = LocaleIdentifier::new(alloc, id);
    'marks: while let Some(mark) = pieces.next() {
        take_extension(alloc, mark, &mut pieces, &mut x)?;
    }
    x.known();
    Ok(x)
}

// What a singleton begins.
fn take_extension(
    alloc: Global,
    mark: &[u8],
    pieces: &mut Pieces<'_>,
    x: &mut LocaleIdentifier,
) -> Result<(), ParseError>
    ensures read { Reads result
        (read_opened (marked x.old mark.now) x.old pieces.old)
        (read_on whole [] x.new pieces.new) }
    ensures rest { OnOk result (IsEnd pieces.new pieces.old) }
    ensures marked { result ≡ Err ParseError.Memory → is_singleton mark.now ≡ true }
    ensures memory { result ≡ Err ParseError.Memory → IsKept (mark.now ∷ pieces.old) }
{
    if is_named(mark, b'u') {
        return take_unicode(alloc, pieces, x);
    }
    if is_named(mark, b't') {
        return take_transform(alloc, pieces, x);
    }
    if is_named(mark, b'x') {
        return take_private_use(alloc, pieces, x);
    }
    take_other(alloc, mark, pieces, x)
}

#[tactic(auto, using(crate::proofs::Taking::end_both))]
fn take_unicode(
    alloc: Global,
    pieces: &mut Pieces<'_>,
    x: &mut LocaleIdentifier,
) -> Result<(), ParseError>
    ensures read { Reads result
        (read_opened (opened_unicode x.old) x.old pieces.old)
        (read_on whole [] x.new pieces.new) }
    ensures rest { OnOk result (IsEnd pieces.new pieces.old) }
{
    if has_unicode(x) || !begins_unicode(pieces) {
        return Err(ParseError::InvalidSubtag);
    }
    take_attributes(pieces, x)?;
    take_keywords(alloc, pieces, x)
}

fn take_attributes(pieces: &mut Pieces<'_>, x: &mut LocaleIdentifier) -> Result<(), ParseError>
    requires { x.old.attributes ≡ [] }
    ensures read { Reads result
        (read_on attributes [] x.old pieces.old) (read_on keywords [] x.new pieces.new) }
    ensures rest { OnOk result (IsEnd pieces.new pieces.old) }
{
    'pieces: while let Some(attribute) = Subtag::next_of(pieces) {
        x.attributes.insert(attribute)?;
    }
    Ok(())
}

fn take_keywords(
    alloc: Global,
    pieces: &mut Pieces<'_>,
    x: &mut LocaleIdentifier,
) -> Result<(), ParseError>
    ensures read { Reads result
        (read_on keywords [] x.old pieces.old) (read_on whole [] x.new pieces.new) }
    ensures rest { OnOk result (IsEnd pieces.new pieces.old) }
{
    'pieces: while let Some(key) = Key::next_of(pieces) {
        let value = Value::read_front(alloc, pieces)?;
        x.locale.extensions.unicode.keywords.add(key, value)?;
    }
    Ok(())
}

#[tactic(auto, using(crate::proofs::Taking::end_both))]
fn take_transform(
    alloc: Global,
    pieces: &mut Pieces<'_>,
    x: &mut LocaleIdentifier,
) -> Result<(), ParseError>
    ensures read { Reads result
        (read_opened (opened_transform x.old) x.old pieces.old)
        (read_on whole [] x.new pieces.new) }
    ensures rest { OnOk result (IsEnd pieces.new pieces.old) }
    ensures memory { result ≡ Err ParseError.Memory → IsKept pieces.old }
{
    if has_transform(x) || !begins_transform(pieces) {
        return Err(ParseError::InvalidSubtag);
    }
    take_language(alloc, pieces, x)?;
    take_fields(alloc, pieces, x)
}

fn take_language(
    alloc: Global,
    pieces: &mut Pieces<'_>,
    x: &mut LocaleIdentifier,
) -> Result<(), ParseError>
    requires { begins language pieces.old ≡ true }
    ensures read { Reads result
        (read_on language [] x.old pieces.old) (read_on fields [] x.new pieces.new) }
    ensures rest { OnOk result (IsEnd pieces.new pieces.old) }
    ensures memory { result ≡ Err ParseError.Memory → IsKept pieces.old }
{
    if at_field(pieces) {
        return Ok(());
    }
    let lang = read_language(alloc, pieces)?;
    x.locale.extensions.transform.lang = Some(lang);
    Ok(())
}

fn take_fields(
    alloc: Global,
    pieces: &mut Pieces<'_>,
    x: &mut LocaleIdentifier,
) -> Result<(), ParseError>
    ensures read { Reads result
        (read_on fields [] x.old pieces.old) (read_on whole [] x.new pieces.new) }
    ensures rest { OnOk result (IsEnd pieces.new pieces.old) }
    ensures memory { result ≡ Err ParseError.Memory → IsKept pieces.old }
{
    'pieces: while let Some(key) = next_field_key(pieces) {
        let value = Subtags::read_front(alloc, pieces)?;
        x.fields.add(key, value)?;
    }
    Ok(())
}

fn take_other(
    alloc: Global,
    mark: &[u8],
    pieces: &mut Pieces<'_>,
    x: &mut LocaleIdentifier,
) -> Result<(), ParseError>
    ensures read { Reads result
        (read_opened (opened_other x.old mark.now) x.old pieces.old)
        (read_on whole [] x.new pieces.new) }
    ensures rest { OnOk result (IsEnd pieces.new pieces.old) }
    ensures marked { result ≡ Err ParseError.Memory → is_other_singleton mark.now ≡ true }
{
    let Some(singleton) = Singleton::try_from_bytes(mark) else {
        return Err(ParseError::InvalidSubtag);
    };
    if x.others.get(singleton).is_some() {
        return Err(ParseError::InvalidSubtag);
    }
    let value = Subtags::read_front(alloc, pieces)?;
    x.others.add(singleton, value)?;
    Ok(())
}

fn take_private_use(
    alloc: Global,
    pieces: &mut Pieces<'_>,
    x: &mut LocaleIdentifier,
) -> Result<(), ParseError>
    ensures read { Reads result
        (read_opened (Some private_use) x.old pieces.old) (read_on whole [] x.new pieces.new) }
    ensures rest { OnOk result (IsEnd pieces.new pieces.old) }
{
    x.private_use = Some(Subtags::read_front(alloc, pieces)?);
    match pieces.peek() {
        Some(_) => Err(ParseError::InvalidSubtag),
        None => Ok(()),
    }
}

// Core's reader. What is no language is refused for a piece, whichever it is.
fn read_language(alloc: Global, pieces: &mut Pieces<'_>) -> Result<LanguageIdentifier, ParseError>
    ensures read { IfOk result (λ l. read_front pieces.old ≡ Ok l) }
    ensures rest { OnOk result (pieces.new ≡ after_front pieces.old) }
    ensures refused { IfErr result (λ e. (e ≡ ParseError.Memory)
        ⊎ ((e ≡ ParseError.InvalidSubtag) × IfOk (read_front pieces.old) (λ l. ⊥))) }
    ensures memory { result ≡ Err ParseError.Memory
        → list_any is_variant (front_variants pieces.old) ≡ true }
{
    match LanguageIdentifier::read_front(alloc, pieces) {
        Ok(lang) => Ok(lang),
        Err(ParseError::Memory) => Err(ParseError::Memory),
        Err(_) => Err(ParseError::InvalidSubtag),
    }
}

fn has_unicode(x: &LocaleIdentifier) -> bool
    ensures { result ≡ has_unicode x.now }
{
    !x.attributes.is_empty() || !x.locale.extensions.unicode.keywords.is_empty()
}

fn has_transform(x: &LocaleIdentifier) -> bool
    ensures { result ≡ has_transform x.now }
{
    x.locale.extensions.transform.lang.is_some() || !x.fields.is_empty()
}

// Whether an attribute or a key comes next.
fn begins_unicode(pieces: &Pieces<'_>) -> bool
    ensures { result ≡ begins attributes pieces.now }
{
    match pieces.peek() {
        Some(piece) => {
            Subtag::try_from_bytes(piece).is_some() || Key::try_from_bytes(piece).is_some()
        }
        None => false,
    }
}

// Whether a piece comes next that is no singleton.
fn begins_transform(pieces: &Pieces<'_>) -> bool
    ensures { result ≡ begins language pieces.now }
{
    match pieces.peek() {
        Some(piece) => piece.len() != 1,
        None => false,
    }
}

// Whether a field comes next.
fn at_field(pieces: &Pieces<'_>) -> bool
    ensures { result ≡ first_is is_tkey pieces.now }
{
    match pieces.peek() {
        Some(piece) => FieldKey::try_from_bytes(piece).is_some(),
        None => false,
    }
}

// The key of a field, if it comes next.
fn next_field_key(pieces: &mut Pieces<'_>) -> Option<FieldKey>
    ensures read { result ≡ optional_subtag is_tkey lowercase pieces.old }
    ensures rest { pieces.new ≡ after_optional_subtag is_tkey pieces.old }
{
    let key = FieldKey::try_from_bytes(pieces.peek()?)?;
    let _ = pieces.next();
    Some(key)
}
