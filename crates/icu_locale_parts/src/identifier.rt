//! The parts of an identifier.
ghost use Rattle.std.specs.Prelude.{◌≡◌, ◌++◌, codes, length, take, IfErr, OnOk, OnErr};
ghost use Rattle.icu_locale_core.specs.TextSet.{rising};
ghost use Rattle.icu_locale_parts.specs.Parts.{if_any, identifier_parts, identifier_parts_text, members, tabbed};

use icu_locale_core::{Language, LanguageIdentifier, ParseError, Region, Script, Variants};
use std::alloc::AllocError;

/// Appends an identifier in written form and, each after a tab, its language, its script, its region, its variants with a
/// space between two, and six places that are empty: those of extensions. It takes memory where the text has no room.
///
/// # Errors
///
/// `Memory` where that memory was refused. The text is as it was then.
pub fn append_identifier_parts(x: &LanguageIdentifier, text: &mut Vec<u8>) -> Result<(), ParseError>
    ensures appended { OnOk result
        (text.new.items ≡ text.old.items ++ identifier_parts_text x.now) }
    ensures refused { IfErr result (λ e. e ≡ ParseError.Memory) }
    ensures unchanged { OnErr result (text.new.items ≡ text.old.items) }
{
    let before = text.as_slice().len();
    x.append_to(text)?;
    match append_all(x, text) {
        Ok(()) => Ok(()),
        Err(_) => {
            text.truncate(before);
            Err(ParseError::Memory)
        }
    }
}

// The parts of the identifier, and the places of extensions.
fn append_all(x: &LanguageIdentifier, text: &mut Vec<u8>) -> Result<(), AllocError>
    ensures appended { OnOk result (text.new.items
        ≡ text.old.items ++ (tabbed (identifier_parts x.now) ++ codes "\t\t\t\t\t\t")) }
    ensures part { OnErr result (take (length text.old.items) text.new.items ≡ text.old.items) }
{
    append_subtags(x, text)?;
    text.extend_from_slice(b"\t\t\t\t\t\t")
}

// Language, script, region and variants, each after a tab.
pub fn append_subtags(x: &LanguageIdentifier, text: &mut Vec<u8>) -> Result<(), AllocError>
    ensures appended { OnOk result
        (text.new.items ≡ text.old.items ++ tabbed (identifier_parts x.now)) }
    ensures part { OnErr result (take (length text.old.items) text.new.items ≡ text.old.items) }
{
    append_language(&x.language, text)?;
    append_script(&x.script, text)?;
    append_region(&x.region, text)?;
    append_variants(&x.variants, text)
}

fn append_language(language: &Language, text: &mut Vec<u8>) -> Result<(), AllocError>
    ensures appended { OnOk result
        (text.new.items ≡ text.old.items ++ (codes "\t" ++ language.now)) }
    ensures part { OnErr result (take (length text.old.items) text.new.items ≡ text.old.items) }
{
    text.push(b'\t')?;
    text.extend_from_slice(language.as_str().as_bytes())
}

fn append_script(script: &Option<Script>, text: &mut Vec<u8>) -> Result<(), AllocError>
    ensures appended { OnOk result
        (text.new.items ≡ text.old.items ++ (codes "\t" ++ if_any script.now)) }
    ensures part { OnErr result (take (length text.old.items) text.new.items ≡ text.old.items) }
{
    text.push(b'\t')?;
    match script {
        Some(script) => text.extend_from_slice(script.as_str().as_bytes()),
        None => Ok(()),
    }
}

fn append_region(region: &Option<Region>, text: &mut Vec<u8>) -> Result<(), AllocError>
    ensures appended { OnOk result
        (text.new.items ≡ text.old.items ++ (codes "\t" ++ if_any region.now)) }
    ensures part { OnErr result (take (length text.old.items) text.new.items ≡ text.old.items) }
{
    text.push(b'\t')?;
    match region {
        Some(region) => text.extend_from_slice(region.as_str().as_bytes()),
        None => Ok(()),
    }
}

fn append_variants(variants: &Variants, text: &mut Vec<u8>) -> Result<(), AllocError>
    ensures appended { OnOk result
        (text.new.items ≡ text.old.items ++ (codes "\t" ++ members (rising variants.now))) }
    ensures part { OnErr result (take (length text.old.items) text.new.items ≡ text.old.items) }
{
    text.push(b'\t')?;
    let mut rest = variants.iter();
    let Some(first) = rest.next() else {
        return Ok(());
    };
    text.extend_from_slice(first.as_str().as_bytes())?;
    for variant in rest {
        text.push(b' ')?;
        text.extend_from_slice(variant.as_str().as_bytes())?;
    }
    Ok(())
}
