//! Forms of an identifier over likely subtags, and their lines.
ghost use Rattle.std.specs.Prelude.{◌≡◌, ◌++◌, ℕ, List, IfOk, IfErr, OnOk, OnErr, true, codes};
ghost use Rattle.icu_locale_core.specs.Identifier as core;
ghost use Rattle.icu_locale_extensions.specs.Locales as extended;
ghost use Rattle.icu_locale.specs.LikelyTable.{likely};
ghost use Rattle.icu_locale_lines.specs.Answers.{IsForm, AddsLine, Keeps, IsAnswerOf, IsWholeTransformed, IsTransformed};
ghost use Rattle.icu_locale_lines.specs.Texts.{mark, changed_line};

use crate::answer::add_text;
use crate::error::CliError;
use crate::work::answering::{Answering, add_read};
use icu_locale::{LocaleExpander, TransformResult};
use icu_locale_core::LanguageIdentifier;
use icu_locale_extensions::{LocaleIdentifier, Syntax};

/// A form of an identifier.
#[derive(Clone, Copy, Debug, PartialEq, Eq)]
pub enum Form {
    /// The maximal form.
    Maximize,
    /// The minimal form, the region kept before the script.
    Minimize,
    /// The minimal form, the script kept before the region.
    MinimizeScript,
}

impl Form {
    // Brings an identifier to the form, and tells whether that changed anything.
    pub(crate) fn apply(
        self,
        expander: &LocaleExpander<'_>,
        identifier: &mut LanguageIdentifier,
    ) -> TransformResult
        ensures { IsForm self (likely expander.now) identifier.old identifier.new result }
    {
        match self {
            Form::Maximize => expander.maximize(identifier),
            Form::Minimize => expander.minimize(identifier),
            Form::MinimizeScript => expander.minimize_favor_script(identifier),
        }
    }
}

// A form, and what brings identifiers to it.
#[derive(Clone, Copy)]
struct Forming<'d> {
    form: Form,
    expander: LocaleExpander<'d>,
}

impl<'d> Answering for Forming<'d> {
    ghost is_line = { λ f x. IsTransformed f.form (likely f.expander) x };

    ghost is_whole_line = { λ f x. IsWholeTransformed f.form (likely f.expander) x };

    #[inline(always)]
    fn add_line(
        &self,
        text: &mut Vec<u8>,
        identifier: &mut LanguageIdentifier,
    ) -> Result<bool, CliError> {
        let changed = self.form.apply(&self.expander, identifier);
        add_changed(text, identifier, changed)
    }

    #[inline(always)]
    fn add_whole_line(
        &self,
        text: &mut Vec<u8>,
        whole: &mut LocaleIdentifier,
    ) -> Result<bool, CliError> {
        let changed = self.form.apply(&self.expander, &mut whole.locale.id);
        add_changed(text, whole, changed)
    }
}

// The answer to a line whose identifier is brought to a form.
#[inline(always)]
pub fn add_form(
    text: &mut Vec<u8>,
    form: Form,
    expander: LocaleExpander<'_>,
    syntax: Option<Syntax>,
    line: &[u8],
) -> Result<bool, CliError>
    ensures answer { IfOk result (AddsLine (IsAnswerOf syntax
        (IsTransformed form (likely expander.entry))
        (IsWholeTransformed form (likely expander.entry)) line.now)
        text.old.items text.new.items) }
    ensures refused { IfErr result (λ e. e ≡ CliError.Memory) }
    ensures kept { OnErr result (Keeps text.old.items text.new.items) }
{
    add_read(text, &Forming { form, expander }, syntax, line)
}

// What is written in a line.
pub trait Written {
    ghost written: { Self → List ℕ };

    // It is appended to a text.
    fn add_to(&self, text: &mut Vec<u8>) -> Result<(), CliError>
        ensures added { OnOk result (text.new.items ≡ text.old.items ++ written self.now) }
        ensures refused { IfErr result (λ e. e ≡ CliError.Memory) }
        ensures unchanged { OnErr result (text.new.items ≡ text.old.items) };
}

impl Written for LanguageIdentifier {
    ghost written = { core.written };

    #[inline(always)]
    fn add_to(&self, text: &mut Vec<u8>) -> Result<(), CliError> {
        match self.append_to(text) {
            Ok(()) => Ok(()),
            Err(_) => Err(CliError::Memory),
        }
    }
}

impl Written for LocaleIdentifier {
    ghost written = { extended.written };

    fn add_to(&self, text: &mut Vec<u8>) -> Result<(), CliError> {
        match self.append_to(text) {
            Ok(()) => Ok(()),
            Err(_) => Err(CliError::Memory),
        }
    }
}

// The line of what is written, and whether it was changed, is appended to the others.
#[inline(always)]
pub fn add_changed<W: Written>(
    text: &mut Vec<u8>,
    shown: &W,
    changed: TransformResult,
) -> Result<bool, CliError>
    ensures answer { IfOk result (AddsLine
        (λ t a. (t ≡ changed_line (W.written shown.now) changed) × (a ≡ true))
        text.old.items text.new.items) }
    ensures refused { IfErr result (λ e. e ≡ CliError.Memory) }
    ensures kept { OnErr result (Keeps text.old.items text.new.items) }
{
    shown.add_to(text)?;
    add_text(text, ending(changed))?;
    Ok(true)
}

// The end of a line: a tab, and `M` where something was changed, or `U` where nothing was.
pub fn ending(changed: TransformResult) -> &'static str
    ensures { result.now ≡ codes "\t" ++ (mark changed ++ codes "\n") }
{
    match changed {
        TransformResult::Modified => "\tM\n",
        TransformResult::Unmodified => "\tU\n",
    }
}
