//! What is available, as a line lists it and as it is written.
ghost use Rattle.std.specs.Prelude.{◌≡◌, ◌⊎◌, Some, IfOk, IfErr};
ghost use Rattle.std.specs.List.{AllZip};
ghost use Rattle.icu_locale_lines.specs.Refusals.{IsFaultyList};
ghost use Rattle.icu_locale_lines.specs.Lists.{listed, ids_of, IsAvailable, IsFaultIn, IsFirstFault, SpellsWanted};

use crate::error::CliError;
use crate::work::list::read_list;
use icu_locale_core::{LanguageIdentifier, ParseError};
use icu_locale_extensions::{LocaleIdentifier, Syntax};
use std::alloc::Global;

/// What is available, as it is written.
#[derive(Debug)]
pub struct Offered {
    /// In a syntax the locale identifiers, place by place. Without one there are none: identifiers are written.
    pub wholes: Vec<LocaleIdentifier>,
}

impl Drop for Offered {
    fn drop(self) {
        let Offered { wholes: _ } = self;
    }
}

/// What a line makes available: the identifiers, on which is decided, and how they are written.
///
/// # Errors
///
/// The refusal of the first text that spells none, or `Memory` where memory was refused.
pub fn read_available(
    alloc: Global,
    syntax: Option<Syntax>,
    line: &[u8],
) -> Result<(Vec<LanguageIdentifier>, Offered), ParseError>
    ensures read { IfOk result (λ a.
        IsAvailable syntax (listed line.now) a.0.items a.1.wholes.items) }
    ensures refused { IfErr result (λ e. (e ≡ ParseError.Memory)
        ⊎ IsFirstFault syntax (listed line.now) e) }
{
    match syntax {
        None => {
            let identifiers = read_list(alloc, None, line)?;
            let wholes = Vec::new(alloc);
            Ok((identifiers, Offered { wholes }))
        }
        Some(syntax) => {
            let wholes = read_wanted(alloc, Some(syntax), line)?;
            let identifiers = ids_of(alloc, &wholes)?;
            Ok((identifiers, Offered { wholes }))
        }
    }
}

// The same for a run, which ends where the line lists none.
pub fn listed_in(
    alloc: Global,
    syntax: Option<Syntax>,
    line: &[u8],
) -> Result<(Vec<LanguageIdentifier>, Offered), CliError>
    ensures available { IfOk result (λ a.
        IsAvailable syntax (listed line.now) a.0.items a.1.wholes.items) }
    ensures refused { IfErr result (IsFaultyList syntax line.now) }
{
    match read_available(alloc, syntax, line) {
        Ok(available) => Ok(available),
        Err(ParseError::Memory) => Err(CliError::Memory),
        Err(refusal) => Err(CliError::Available(refusal)),
    }
}

/// The locale identifiers that a line lists, in a syntax, or as identifiers alone.
///
/// # Errors
///
/// The refusal of the first text that spells none, or `Memory` where memory was refused.
pub fn read_wanted(
    alloc: Global,
    syntax: Option<Syntax>,
    line: &[u8],
) -> Result<Vec<LocaleIdentifier>, ParseError>
    ensures read { IfOk result (λ list.
        AllZip (SpellsWanted syntax) (listed line.now) list.items) }
    ensures refused { IfErr result (λ e. (e ≡ ParseError.Memory)
        ⊎ IsFirstFault syntax (listed line.now) e) }
{
    let mut list = Vec::new(alloc);
    if line.is_empty() {
        return Ok(list);
    }
    for piece in line.split(|byte| *byte == b' ') {
        list.push(read_one(alloc, syntax, piece)?)?;
    }
    Ok(list)
}

// The locale identifier of a text.
fn read_one(
    alloc: Global,
    syntax: Option<Syntax>,
    text: &[u8],
) -> Result<LocaleIdentifier, ParseError>
    ensures read { IfOk result (SpellsWanted syntax text.now) }
    ensures refused { IfErr result (λ e. (e ≡ ParseError.Memory)
        ⊎ IsFaultIn syntax text.now e) }
{
    match syntax {
        None => match LanguageIdentifier::try_from_utf8(alloc, text) {
            Ok(id) => Ok(LocaleIdentifier::new(alloc, id)),
            Err(refusal) => Err(refusal),
        },
        Some(syntax) => LocaleIdentifier::read(alloc, syntax, text),
    }
}

/// Their identifiers, once more.
///
/// # Errors
///
/// `Memory` where memory was refused.
pub fn ids_of(
    alloc: Global,
    wholes: &[LocaleIdentifier],
) -> Result<Vec<LanguageIdentifier>, ParseError>
    ensures same { IfOk result (λ list. list.items ≡ ids_of wholes.now) }
    ensures refused { IfErr result (λ e. e ≡ ParseError.Memory) }
{
    let mut list = Vec::with_capacity(alloc, wholes.len())?;
    for whole in wholes {
        list.push(whole.locale.id.try_clone()?)?;
    }
    Ok(list)
}
