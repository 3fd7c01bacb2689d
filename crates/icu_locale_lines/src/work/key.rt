//! Lines that are brought to their keys.
ghost use Rattle.std.specs.Prelude.{◌≡◌, ◌≢◌, ◌↔◌, IfOk, IfErr, OnErr};
ghost use Rattle.icu_locale.specs.declared.expander.TransformResult.TheVariants.{Modified};
ghost use Rattle.icu_locale_extensions.specs.Built.{bare};
ghost use Rattle.icu_locale_lines.specs.Answers.{AddsLine, Keeps, IsAnswerOf};
ghost use Rattle.icu_locale_lines.specs.Wholes.{IsKeyed, keyed};
ghost use Rattle.icu_locale_values.specs.Whole.{whole_rules};

use crate::command::KeyOf;
use crate::error::CliError;
use crate::work::answering::{Answering, add_read};
use crate::work::form::add_changed;
use crate::work::locale::add_refusal;
use icu_locale::TransformResult;
use icu_locale_core::LanguageIdentifier;
use icu_locale_extensions::{LocaleIdentifier, Syntax, laws};
use icu_locale_key::{bring_identifier_to_key, bring_whole_to_key};
use icu_locale_values::WholeCanonicalizer;

// What is brought to a key, and by what.
#[derive(Clone, Copy)]
struct Keying<'d> {
    of: KeyOf,
    canonicalizer: WholeCanonicalizer<'d>,
}

impl<'d> Answering for Keying<'d> {
    ghost is_line = { λ k x. IsKeyed (whole_rules k.canonicalizer) (bare x) };

    ghost is_whole_line = { λ k x. IsKeyed (whole_rules k.canonicalizer) (keyed k.of x) };

    fn add_line(
        &self,
        text: &mut Vec<u8>,
        identifier: &mut LanguageIdentifier,
    ) -> Result<bool, CliError> {
        match bring_identifier_to_key(&self.canonicalizer, identifier) {
            Ok(changed) => add_changed(text, identifier, changed),
            Err(refusal) => add_refusal(text, refusal),
        }
    }

    fn add_whole_line(
        &self,
        text: &mut Vec<u8>,
        whole: &mut LocaleIdentifier,
    ) -> Result<bool, CliError> {
        match self.of {
            KeyOf::Whole => add_key_of(text, &self.canonicalizer, whole),
            KeyOf::Identifier => self.add_line(text, &mut whole.locale.id),
        }
    }
}

// The answer to a line that is brought to its key.
pub fn add_key(
    text: &mut Vec<u8>,
    of: KeyOf,
    canonicalizer: WholeCanonicalizer<'_>,
    syntax: Option<Syntax>,
    line: &[u8],
) -> Result<bool, CliError>
    ensures answer { IfOk result (AddsLine (IsAnswerOf syntax
        (λ x. IsKeyed (whole_rules canonicalizer.entry) (bare x))
        (λ x. IsKeyed (whole_rules canonicalizer.entry) (keyed of x)) line.now)
        text.old.items text.new.items) }
    ensures refused { IfErr result (λ e. e ≡ CliError.Memory) }
    ensures kept { OnErr result (Keeps text.old.items text.new.items) }
{
    add_read(text, &Keying { of, canonicalizer }, syntax, line)
}

// The line of the key of a locale identifier, which is brought to it.
fn add_key_of(
    text: &mut Vec<u8>,
    canonicalizer: &WholeCanonicalizer<'_>,
    locale: &mut LocaleIdentifier,
) -> Result<bool, CliError>
    ensures answer { IfOk result (AddsLine (IsKeyed (whole_rules canonicalizer.now) locale.old)
        text.old.items text.new.items) }
    ensures refused { IfErr result (λ e. e ≡ CliError.Memory) }
    ensures kept { OnErr result (Keeps text.old.items text.new.items) }
{
    match bring_whole_to_key(canonicalizer, locale) {
        Ok(changed) => add_changed(text, locale, changed),
        Err(refusal) => add_refusal(text, refusal),
    }
}
