//! The parts of a locale identifier.
ghost use Rattle.std.specs.Prelude.{◌≡◌, ◌++◌, codes, length, take, IfErr, IsTrue, OnOk, OnErr};
ghost use Rattle.icu_locale_parts.specs.Parts.{extension_parts, identifier_parts, language_if_any, members, pairs, parts_text, pieces_if_any, tabbed};

use crate::identifier::append_subtags;
use crate::pairs::append_pairs;
use icu_locale_core::{LanguageIdentifier, ParseError};
use icu_locale_extensions::{Attributes, LocaleIdentifier, Subtags};
use std::alloc::AllocError;

/// Appends a locale identifier in written form and, each after a tab, its parts: language, script, region, variants,
/// attributes, keywords, the language of its transform extension, fields, other extensions, private use. A space is between
/// two members, `=` between a key and its value. It takes memory where the text has no room.
///
/// # Errors
///
/// `Memory` where that memory was refused. The text is as it was then.
pub fn append_parts(x: &LocaleIdentifier, text: &mut Vec<u8>) -> Result<(), ParseError>
    ensures appended { OnOk result (text.new.items ≡ text.old.items ++ parts_text x.now) }
    ensures refused { IfErr result (λ e. e ≡ ParseError.Memory) }
    ensures unchanged { OnErr result (text.new.items ≡ text.old.items) }
{
    let before = text.as_slice().len();
    x.append_to(text)?;
    match append_all(x, text) {
        Ok(()) => Ok(()),
        Err(_) => {
            text.truncate(before);
            Err(ParseError::Memory)
        }
    }
}

// The parts of the identifier, and then of the extensions.
fn append_all(x: &LocaleIdentifier, text: &mut Vec<u8>) -> Result<(), AllocError>
    ensures appended { OnOk result (text.new.items ≡ text.old.items
        ++ (tabbed (identifier_parts x.now.locale.id) ++ tabbed (extension_parts x.now))) }
    ensures part { OnErr result (take (length text.old.items) text.new.items ≡ text.old.items) }
{
    append_subtags(&x.locale.id, text)?;
    if is_alone(x) {
        return text.extend_from_slice(b"\t\t\t\t\t\t");
    }
    append_extensions(x, text)
}

// Whether an identifier has neither extensions nor private use.
fn is_alone(x: &LocaleIdentifier) -> bool
    ensures { IsTrue result → tabbed (extension_parts x.now) ≡ codes "\t\t\t\t\t\t" }
{
    x.attributes.is_empty()
        && x.locale.extensions.unicode.keywords.is_empty()
        && x.locale.extensions.transform.lang.is_none()
        && x.fields.is_empty()
        && x.others.is_empty()
        && x.private_use.is_none()
}

// The parts of the extensions, each after a tab.
fn append_extensions(x: &LocaleIdentifier, text: &mut Vec<u8>) -> Result<(), AllocError>
    ensures appended { OnOk result
        (text.new.items ≡ text.old.items ++ tabbed (extension_parts x.now)) }
    ensures part { OnErr result (take (length text.old.items) text.new.items ≡ text.old.items) }
{
    append_unicode(x, text)?;
    append_transform(x, text)?;
    append_pairs(x.others.iter().as_slice(), text)?;
    append_private_use(&x.private_use, text)
}

// Attributes and keywords.
fn append_unicode(x: &LocaleIdentifier, text: &mut Vec<u8>) -> Result<(), AllocError>
    ensures appended { OnOk result (text.new.items ≡ text.old.items
        ++ ((codes "\t" ++ members x.now.attributes)
        ++ (codes "\t" ++ pairs x.now.locale.extensions.unicode.keywords))) }
    ensures part { OnErr result (take (length text.old.items) text.new.items ≡ text.old.items) }
{
    append_attributes(&x.attributes, text)?;
    append_pairs(x.locale.extensions.unicode.keywords.iter().as_slice(), text)
}

// The language of the transform extension, and its fields.
fn append_transform(x: &LocaleIdentifier, text: &mut Vec<u8>) -> Result<(), AllocError>
    ensures appended { OnOk result (text.new.items ≡ text.old.items
        ++ ((codes "\t" ++ language_if_any x.now.locale.extensions.transform.lang)
        ++ (codes "\t" ++ pairs x.now.fields))) }
    ensures part { OnErr result (take (length text.old.items) text.new.items ≡ text.old.items) }
{
    append_language(&x.locale.extensions.transform.lang, text)?;
    append_pairs(x.fields.iter().as_slice(), text)
}

fn append_attributes(attributes: &Attributes, text: &mut Vec<u8>) -> Result<(), AllocError>
    ensures appended { OnOk result
        (text.new.items ≡ text.old.items ++ (codes "\t" ++ members attributes.now)) }
    ensures part { OnErr result (take (length text.old.items) text.new.items ≡ text.old.items) }
{
    text.push(b'\t')?;
    let mut rest = attributes.iter();
    let Some(first) = rest.next() else {
        return Ok(());
    };
    text.extend_from_slice(first.as_str().as_bytes())?;
    for attribute in rest {
        text.push(b' ')?;
        text.extend_from_slice(attribute.as_str().as_bytes())?;
    }
    Ok(())
}

fn append_language(lang: &Option<LanguageIdentifier>, text: &mut Vec<u8>) -> Result<(), AllocError>
    ensures appended { OnOk result
        (text.new.items ≡ text.old.items ++ (codes "\t" ++ language_if_any lang.now)) }
    ensures part { OnErr result (take (length text.old.items) text.new.items ≡ text.old.items) }
{
    text.push(b'\t')?;
    let Some(lang) = lang else {
        return Ok(());
    };
    match lang.append_to(text) {
        Ok(()) => Ok(()),
        Err(_) => Err(AllocError),
    }
}

fn append_private_use(pieces: &Option<Subtags<1>>, text: &mut Vec<u8>) -> Result<(), AllocError>
    ensures appended { OnOk result
        (text.new.items ≡ text.old.items ++ (codes "\t" ++ pieces_if_any pieces.now)) }
    ensures part { OnErr result (take (length text.old.items) text.new.items ≡ text.old.items) }
{
    text.push(b'\t')?;
    match pieces {
        Some(pieces) => text.extend_from_slice(pieces.as_str().as_bytes()),
        None => Ok(()),
    }
}
