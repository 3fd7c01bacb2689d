//! The reader that tells where a text is wrong.
ghost use Rattle.std.specs.Prelude.{IfOk, IfErr, Err, Some};
ghost use Rattle.icu_locale_extensions.specs.Grammar.{Spells};
ghost use Rattle.icu_locale_extensions.specs.Locales.{IsLocaleIdentifier};
ghost use Rattle.icu_locale_extensions.specs.Syntaxes.{ReadsBy};
ghost use Rattle.icu_locale_places.specs.Places.{IsFault, fault_text};

use crate::fronts::{find_place, first_span};
use icu_locale_core::ParseError;
use icu_locale_extensions::{LocaleIdentifier, Syntax};
use std::alloc::Global;
use std::error::Error;
use std::fmt;

/// Why a text is no locale identifier. `Display` writes the reason and the bytes, as `InvalidSubtag at 3..5`.
#[derive(Clone, Copy, Debug, PartialEq, Eq)]
pub enum Fault {
    /// Memory was asked for and refused.
    Memory,
    /// The text is refused for this reason, and this is the first piece that no locale identifier can have there: from
    /// its first byte to the byte after it. Where each piece can be, it is the end of the text.
    At {
        /// The reader's reason.
        refusal: ParseError,
        /// The first byte.
        from: usize,
        /// The byte after it.
        to: usize,
    },
}

impl Error for Fault {}

impl fmt::Display for Fault {
    ghost output = { λ fault. Some (fault_text fault) };

    fn fmt<W: fmt::Write>(&self, f: &mut fmt::Formatter<W>) -> fmt::Result {
        match self {
            Fault::Memory => f.write_str("Memory"),
            Fault::At { refusal, from, to } => write!(f, "{refusal} at {from}..{to}"),
        }
    }
}

/// Reads a locale identifier as `LocaleIdentifier::try_from_utf8` does, and says of a text that it refuses where it
/// is wrong: at the first piece that no locale identifier can have there, or at the end, where each piece can be. A
/// text that is read costs that reading and its memory alone. To find a piece behind the language, the reader is
/// called for fronts of the text, by halves, in room that is asked for once: four bytes more than the text has.
///
/// # Errors
///
/// - `At` exactly where the text is refused, with the reader's reason: `InvalidLanguage` for the first piece,
///   `InvalidSubtag` for a later one or for the end.
/// - `Memory` only where variants, extensions or private use are kept, or a text is refused by `InvalidSubtag`, and
///   never in place of `InvalidLanguage`.
pub fn read_at(alloc: Global, text: &[u8]) -> Result<LocaleIdentifier, Fault>
    ensures read { IfOk result (λ x. IsLocaleIdentifier x × Spells text.now x) }
    ensures refused { IfErr result (IsFault text.now) }
{
    match LocaleIdentifier::try_from_utf8(alloc, text) {
        Ok(x) => Ok(x),
        Err(refusal) => Err(fault_of(alloc, text, refusal)),
    }
}

// Why and where a text is wrong that the reader refuses.
fn fault_of(alloc: Global, text: &[u8], refusal: ParseError) -> Fault
    requires { ReadsBy Syntax.Unicode text.now (Err refusal) }
    ensures { IsFault text.now result }
{
    icu_locale_extensions::laws::reading_is_by_the_grammar();
    let (from, to) = match refusal {
        ParseError::Memory => return Fault::Memory,
        ParseError::InvalidLanguage => first_span(text),
        ParseError::InvalidSubtag => match find_place(alloc, text) {
            Ok(span) => span,
            Err(_) => return Fault::Memory,
        },
    };
    Fault::At { refusal, from, to }
}
