//! Lines that are an identifier, a tab and a value for `rg`, brought to their canonical form.
ghost use Rattle.std.specs.Prelude.{◌≡◌, ◌⊎◌, Some, IfOk, IfErr, ◌++◌, codes, OnOk, OnErr, true};
ghost use Rattle.std.specs.List.{position, flat_map};
ghost use Rattle.std.specs.Option.{option_copied};
ghost use Rattle.icu_locale_core.specs.Keywords.{with_value};
ghost use Rattle.icu_locale_core.specs.Value.{written_value};
ghost use Rattle.icu_locale.specs.Canonical.{rg};
ghost use Rattle.icu_locale.specs.LikelyTable.{likely};
ghost use Rattle.icu_locale.specs.RuleSet.{lent};
ghost use Rattle.icu_locale_lines.specs.Answers.{IsCanonicalized, AddsLine, Keeps, IsLocaleAnswer};
ghost use Rattle.icu_locale_lines.specs.Locales.{is_tab, identifier_text, value_text, SpellsLocale, IsLocaleFault};
ghost use Rattle.icu_locale_lines.specs.Texts.{override_line, canonical_line};
ghost use Rattle.icu_locale_lines.specs.inner.Parts.{IsLocaleOf, IsRefusedValue};

use crate::answer::{add_fault, add_text};
use crate::error::CliError;
use crate::work::form::{Written, add_changed, ending};
use crate::work::locale::{add_refusal, of_rules};
use icu_locale::{CanonicalizerRef, TransformResult};
use icu_locale_core::{Key, LanguageIdentifier, Locale, ParseError, Subtag, Value};
use memchr::memchr;
use std::alloc::Global;

// The answer to a line with a tab.
pub fn add_identifier_and_value(
    text: &mut Vec<u8>,
    canonicalizer: &CanonicalizerRef<'_>,
    line: &[u8],
) -> Result<bool, CliError>
    ensures answer { IfOk result (AddsLine (IsLocaleAnswer (likely canonicalizer.now.expander)
        (lent canonicalizer.now.rules) line.now)
        text.old.items text.new.items) }
    ensures refused { IfErr result (λ e. e ≡ CliError.Memory) }
    ensures kept { OnErr result (Keeps text.old.items text.new.items) }
{
    match read_locale(*text.allocator(), line) {
        Ok(mut locale) => add_canonical(text, canonicalizer, &mut locale),
        Err(refusal) => add_fault(text, refusal),
    }
}

// The line of a locale that is brought to its canonical form.
fn add_canonical(
    text: &mut Vec<u8>,
    canonicalizer: &CanonicalizerRef<'_>,
    locale: &mut Locale,
) -> Result<bool, CliError>
    ensures answer { IfOk result (AddsLine (IsCanonicalized (likely canonicalizer.now.expander)
        (lent canonicalizer.now.rules) locale.old) text.old.items text.new.items) }
    ensures refused { IfErr result (λ e. e ≡ CliError.Memory) }
    ensures kept { OnErr result (Keeps text.old.items text.new.items) }
{
    match canonicalizer.canonicalize(locale) {
        Ok(changed) => add_locale_line(text, locale, changed),
        Err(refusal) => add_refusal(text, of_rules(refusal)),
    }
}

// The line of a canonical locale: its identifier, its value at `rg` if there is one, and whether anything was changed.
fn add_locale_line(
    text: &mut Vec<u8>,
    locale: &Locale,
    changed: TransformResult,
) -> Result<bool, CliError>
    ensures answer { IfOk result (AddsLine
        (λ t a. (t ≡ canonical_line locale.now changed) × (a ≡ true))
        text.old.items text.new.items) }
    ensures refused { IfErr result (λ e. e ≡ CliError.Memory) }
    ensures kept { OnErr result (Keeps text.old.items text.new.items) }
{
    match locale.extensions.unicode.keywords.get(Key::REGION_OVERRIDE) {
        Some(value) => add_override_line(text, &locale.id, value, changed),
        None => add_changed(text, &locale.id, changed),
    }
}

// The line of an identifier, a value, and whether anything was changed.
fn add_override_line(
    text: &mut Vec<u8>,
    identifier: &LanguageIdentifier,
    value: &Value,
    changed: TransformResult,
) -> Result<bool, CliError>
    ensures answer { IfOk result (AddsLine
        (λ t a. (t ≡ override_line identifier.now (Some value.now) changed) × (a ≡ true))
        text.old.items text.new.items) }
    ensures refused { IfErr result (λ e. e ≡ CliError.Memory) }
    ensures kept { OnErr result (Keeps text.old.items text.new.items) }
{
    identifier.add_to(text)?;
    add_text(text, "\t")?;
    add_value(text, value)?;
    add_text(text, ending(changed))?;
    Ok(true)
}

// The pieces of a value are appended to a text, with `-` between them.
fn add_value(text: &mut Vec<u8>, value: &Value) -> Result<(), CliError>
    ensures added { OnOk result (text.new.items ≡ text.old.items ++ written_value value.now) }
    ensures refused { IfErr result (λ e. e ≡ CliError.Memory) }
    ensures kept { OnErr result (Keeps text.old.items text.new.items) }
{
    let Some((first, rest)) = value.as_slice().split_first() else {
        return Ok(());
    };
    add_text(text, first.as_str())?;
    add_pieces(text, rest)
}

// Pieces are appended to a text, with `-` before each.
fn add_pieces(text: &mut Vec<u8>, pieces: &[Subtag]) -> Result<(), CliError>
    ensures added { OnOk result (text.new.items
        ≡ text.old.items ++ flat_map (λ p. codes "-" ++ p) pieces.now) }
    ensures refused { IfErr result (λ e. e ≡ CliError.Memory) }
    ensures kept { OnErr result (Keeps text.old.items text.new.items) }
{
    for piece in pieces {
        add_text(text, "-")?;
        add_text(text, piece.as_str())?;
    }
    Ok(())
}

// The locale that a line spells. Its identifier is read before its value.
#[inline(always)]
fn read_locale(alloc: Global, line: &[u8]) -> Result<Locale, ParseError>
    ensures read { IfOk result (SpellsLocale line.now) }
    ensures refused { IfErr result (λ e. (e ≡ ParseError.Memory) ⊎ IsLocaleFault line.now e) }
{
    let (identifier, value) = cut_at_tab(line);
    match LanguageIdentifier::try_from_utf8(alloc, identifier) {
        Ok(identifier) => locale_of(alloc, identifier, value),
        Err(refusal) => Err(refusal),
    }
}

// The locale of an identifier, where there is a text with its value at `rg`.
#[inline(always)]
fn locale_of(
    alloc: Global,
    identifier: LanguageIdentifier,
    text: Option<&[u8]>,
) -> Result<Locale, ParseError>
    ensures made { IfOk result (IsLocaleOf identifier (option_copied text.entry)) }
    ensures refused { IfErr result (IsRefusedValue (option_copied text.entry)) }
{
    match text {
        Some(text) => with_value(alloc, identifier, text),
        None => Ok(Locale::new(alloc, identifier)),
    }
}

// The locale of an identifier, with the value of a text at `rg`.
fn with_value(
    alloc: Global,
    identifier: LanguageIdentifier,
    text: &[u8],
) -> Result<Locale, ParseError>
    ensures made { IfOk result (IsLocaleOf identifier (Some text.now)) }
    ensures refused { IfErr result (IsRefusedValue (Some text.now)) }
{
    match Value::try_from_utf8(alloc, text) {
        Ok(value) => put_override(Locale::new(alloc, identifier), value),
        Err(refusal) => Err(refusal),
    }
}

// The locale with a value put at `rg`.
fn put_override(mut locale: Locale, value: Value) -> Result<Locale, ParseError>
    ensures id { IfOk result (λ l. l.id ≡ locale.id) }
    ensures keywords { IfOk result (λ l. l.extensions.unicode.keywords
        ≡ with_value locale.extensions.unicode.keywords rg value) }
    ensures transform { IfOk result (λ l. l.extensions.transform.lang
        ≡ locale.extensions.transform.lang) }
    ensures refused { IfErr result (λ e. e ≡ ParseError.Memory) }
{
    let _ = locale
        .extensions
        .unicode
        .keywords
        .set(Key::REGION_OVERRIDE, value)?;
    Ok(locale)
}

// A line up to its first tab, and what follows that, if there is one.
#[inline(always)]
pub fn cut_at_tab(line: &[u8]) -> (&[u8], Option<&[u8]>)
    ensures identifier { result.0.now ≡ identifier_text line.now }
    ensures value { option_copied result.1 ≡ value_text line.now }
{
    match first_tab(line) {
        Some(place) => {
            let (identifier, rest) = line.split_at(place);
            let (_, value) = rest.split_at(1);
            (identifier, Some(value))
        }
        None => (line, None),
    }
}

// Where the first tab is.
#[tactic(auto, using(crate::proofs::LineCuts::position_from_first))]
pub fn first_tab(line: &[u8]) -> Option<usize>
    ensures { result ≡ position is_tab line.now }
{
    memchr(b'\t', line)
}
