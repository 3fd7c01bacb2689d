//! The reader of names of POSIX locales.
ghost use Rattle.std.specs.Prelude.{◌≡◌, ◌∷◌, [], codes, Some, OnOk, IfOk, IfErr, Err, true};
ghost use Rattle.std.specs.List.{before_first, position};
ghost use Rattle.icu_locale_core.specs.Subtag.{IsScript};
ghost use Rattle.icu_locale_core.specs.TextSet.{from_list, union};
ghost use Rattle.icu_locale_core.specs.laws.Identifiers.{same_text};
ghost use Rattle.icu_locale_extensions.specs.laws.Reader.{ReadsAs};
ghost use Rattle.icu_locale_extensions.specs.Syntaxes.{base_text, ends_base, marks_modifier, modified, modifier_text, names_valencia, script_named, ReadsBy};

use crate::identifier::LocaleIdentifier;
use crate::laws;
use crate::reader::read_locale;
use crate::syntax::Syntax;
use icu_locale_core::{LanguageIdentifier, ParseError, Script, Variant, Variants};
use std::alloc::Global;

impl LocaleIdentifier {
    /// Reads a name of a POSIX locale (POSIX.1 Base Definitions, section 8.2), as `sr_RS.UTF-8@latin`: its base, up to
    /// the first `.` or `@`, as the strict grammar reads it, with what its modifier names, which follows the first `@`.
    /// The names `C` and `POSIX` stand for `en-US-u-va-posix`, and CLDR's `root` for `und`. Of modifiers `latin`,
    /// `iqtelif`, `cyrillic` and `devanagari` set the script, in place of one that the base has, and `valencia` adds
    /// that variant; each other, as `euro`, is dropped, and so is the codeset. Names and modifiers are read in the case
    /// that is written here, a base in any. It takes memory for variants, private use and extensions alone.
    ///
    /// # Errors
    ///
    /// - `InvalidLanguage` exactly where the first piece of the base is no language.
    /// - `InvalidSubtag` where the rest of it is none of a locale identifier, as of `en-u`, or has a variant or an
    ///   extension twice.
    /// - `Memory` only where variants, extensions or private use are kept, and never in place of `InvalidLanguage`.
    pub fn try_from_posix(alloc: Global, text: &[u8]) -> Result<Self, ParseError>
        ensures { ReadsBy Syntax.Posix text.now result }
    {
        laws::reading_is_by_the_grammar();
        read_name(alloc, text)
    }
}

fn read_name(alloc: Global, text: &[u8]) -> Result<LocaleIdentifier, ParseError>
    ensures { ReadsAs Syntax.Posix text.now result }
{
    let mut whole = read_locale(alloc, base(text))?;
    modify(alloc, &mut whole.locale.id, modifier(text))?;
    whole.known();
    Ok(whole)
}

// What is before the codeset and the modifier: of the locale of the standard and of `root` what each stands for.
fn base(text: &[u8]) -> &[u8]
    ensures { result.now ≡ base_text text.now }
{
    let name = before_end(text);
    if is_text(name, b"C") || is_text(name, b"POSIX") {
        return b"en-US-u-va-posix";
    }
    if is_text(name, b"root") {
        return b"und";
    }
    name
}

fn before_end(text: &[u8]) -> &[u8]
    ensures { result.now ≡ before_first ends_base text.now }
{
    match end_of_base(text) {
        Some(place) => text.split_at(place).0,
        None => text,
    }
}

fn end_of_base(text: &[u8]) -> Option<usize>
    ensures { result ≡ position ends_base text.now }
{
    text.iter().position(ends_base)
}

fn ends_base(byte: &u8) -> bool
    ensures { result ≡ ends_base byte.now }
{
    *byte == b'.' || *byte == b'@'
}

// What follows the first `@`, or nothing.
fn modifier(text: &[u8]) -> &[u8]
    ensures { result.now ≡ modifier_text text.now }
{
    match mark_of_modifier(text) {
        Some(place) => text.split_at(place + 1).1,
        None => b"",
    }
}

fn mark_of_modifier(text: &[u8]) -> Option<usize>
    ensures { result ≡ position marks_modifier text.now }
{
    text.iter().position(marks_modifier)
}

fn marks_modifier(byte: &u8) -> bool
    ensures { result ≡ marks_modifier byte.now }
{
    *byte == b'@'
}

// Puts what a modifier names into an identifier.
fn modify(alloc: Global, id: &mut LanguageIdentifier, modifier: &[u8]) -> Result<(), ParseError>
    ensures changed { OnOk result (id.new ≡ modified modifier.now id.old) }
    ensures refused { IfErr result (λ e. e ≡ ParseError.Memory) }
    ensures memory { result ≡ Err ParseError.Memory → names_valencia modifier.now ≡ true }
{
    if let Some(script) = script_named(modifier) {
        id.script = Some(script);
    }
    if is_text(modifier, b"valencia") {
        id.variants = with_valencia(alloc, &id.variants)?;
    }
    Ok(())
}

// The script that a modifier names.
fn script_named(modifier: &[u8]) -> Option<Script>
    ensures { result ≡ script_named modifier.now }
{
    if is_text(modifier, b"latin") || is_text(modifier, b"iqtelif") {
        return script("Latn");
    }
    if is_text(modifier, b"cyrillic") {
        return script("Cyrl");
    }
    if is_text(modifier, b"devanagari") {
        return script("Deva");
    }
    None
}

fn is_text(text: &[u8], other: &[u8]) -> bool
    ensures { result ≡ same_text text.now other.now }
{
    text == other
}

// The script of a text that is one, in its written case.
fn script(text: &str) -> Option<Script>
    requires { IsScript text.now }
    ensures { result ≡ Some text.now }
{
    Script::try_from_str(text).ok()
}

fn with_valencia(alloc: Global, variants: &Variants) -> Result<Variants, ParseError>
    ensures same { IfOk result (λ s. s
        ≡ union variants.now (from_list (codes "valencia" ∷ []))) }
    ensures refused { IfErr result (λ e. e ≡ ParseError.Memory) }
{
    let mut list = Vec::new(alloc);
    list.push(Variant::try_from_str("valencia")?)?;
    variants.try_replaced(&Variants::new(alloc), &Variants::try_from_list(list)?)
}
