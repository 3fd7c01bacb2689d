//! Names of identifiers and of locale identifiers, by a chain and in the language of preferences, and their lines.
ghost use Rattle.std.specs.Prelude.{◌≡◌, ◌≢◌, ◌++◌, Ok, IfOk, IfErr, OnOk, OnErr, true, false, codes, List};
ghost use Rattle.icu_provider.specs.Provider.{kind_name};
ghost use Rattle.icu_locale_names.specs.LanguageChains.{chain_of};
ghost use Rattle.icu_locale_names.specs.LanguageNames.{GivesName};
ghost use Rattle.icu_locale_names.specs.declared.options.LanguageDisplay.TheVariants.{Dialect};
ghost use Rattle.icu_locale_names.specs.Pieces.{Piece};
ghost use Rattle.icu_locale_full_names.specs.FullNames.{GivesFullName, written};
ghost use Rattle.icu_locale_lines.specs.Answers.{AddsLine, Keeps, IsAnswerOf, IsNamed, IsWholeNamed};
ghost use Rattle.icu_locale_lines.specs.CommandWords.{preferences_at};
ghost use Rattle.icu_locale_lines.specs.Names.{answers_in, name_asked, full_name_asked, whole_name_asked, IsNamedLine};
ghost use Rattle.icu_locale_lines.specs.Texts.{named_line, raw_mark, refused_line};

use crate::answer::{add_known, add_text};
use crate::error::CliError;
use crate::work::answering::{Answering, add_read};
use crate::work::locale::{add_refusal, bring_to_canonical};
use icu_locale_core::{LanguageIdentifier, laws};
use icu_locale_extensions::{LocaleIdentifier, Syntax};
use icu_locale_full_names::laws::{given_names_are_written, raw_parts_have_spans};
use icu_locale_full_names::{LocaleDisplayName, says_more};
use icu_locale_names::{
    DisplayNamesPreferences, LanguageIdentifierDisplayName, LanguageIdentifierDisplayNameOptions,
    NameChain,
};
use icu_locale_values::WholeCanonicalizer;
use icu_provider::{DataError, DataErrorKind, ExtensionNames};
use icu_tables::LocaleTables;
use std::alloc::Global;

// The preferences that a text names: an identifier without variants. Where memory for variants is refused there are some.
pub fn read_preferences(alloc: Global, text: &str) -> Option<DisplayNamesPreferences>
    ensures { result ≡ preferences_at text.now }
{
    laws::spelled_without_variants();
    laws::pieces_are_read();
    match LanguageIdentifier::try_from_str(alloc, text) {
        Ok(x) => {
            if x.variants.is_empty() {
                Some(DisplayNamesPreferences::new(x.language, x.script, x.region))
            } else {
                None
            }
        }
        Err(_) => None,
    }
}

/// What gives names: tables, a chain, and the preferences in whose language names are asked for.
#[derive(Debug, Drop)]
pub struct Naming<'d> {
    /// The tables that are asked, mostly in the locale of the preferences.
    pub tables: LocaleTables<'d>,
    /// The chain.
    pub chain: NameChain,
    /// The preferences.
    pub preferences: DisplayNamesPreferences,
    /// What parts of extensions are called in the language of the preferences, if the tables say so.
    pub extensions: Option<&'d ExtensionNames>,
    /// What brings a locale identifier to the canonical form that is named, if one is.
    pub canonicalizer: Option<WholeCanonicalizer<'d>>,
}

impl<'d> Naming<'d> {
    // The answer to an identifier is appended to the others.
    fn add(&self, text: &mut Vec<u8>, identifier: &LanguageIdentifier) -> Result<bool, CliError>
        ensures answer { IfOk result (AddsLine (IsNamedLine (name_asked self.now identifier.now))
            text.old.items text.new.items) }
        ensures refused { IfErr result (λ e. e ≡ CliError.Memory) }
        ensures kept { OnErr result (Keeps text.old.items text.new.items) }
    {
        match self.name(*text.allocator(), identifier) {
            Ok(name) => add_named(text, &name),
            Err(refusal) => add_nameless(text, refusal.kind),
        }
    }

    // The name of an identifier, where names of dialects are asked for.
    fn name(
        &self,
        alloc: Global,
        identifier: &LanguageIdentifier,
    ) -> Result<LanguageIdentifierDisplayName<'_>, DataError>
        ensures { GivesName (answers_in self.now.tables self.now.preferences.locale)
            (chain_of self.now.chain) Dialect identifier.now result }
    {
        LanguageIdentifierDisplayName::try_new_unstable(
            alloc,
            &self.tables,
            self.chain,
            self.preferences,
            identifier,
            LanguageIdentifierDisplayNameOptions::default(),
        )
    }

    // The answer to a locale identifier as it is, with what its extensions say if the tables tell it.
    fn add_spelled(&self, text: &mut Vec<u8>, whole: &LocaleIdentifier) -> Result<bool, CliError>
        ensures answer { IfOk result (AddsLine (IsNamedLine (whole_name_asked self.now whole.now))
            text.old.items text.new.items) }
        ensures refused { IfErr result (λ e. e ≡ CliError.Memory) }
        ensures kept { OnErr result (Keeps text.old.items text.new.items) }
    {
        match self.extensions {
            Some(names) => {
                if says_more(whole) {
                    return self.add_whole(text, names, whole);
                }
                self.add(text, &whole.locale.id)
            }
            None => self.add(text, &whole.locale.id),
        }
    }

    // The answer to a locale identifier, with what its extensions say.
    fn add_whole(
        &self,
        text: &mut Vec<u8>,
        names: &ExtensionNames,
        whole: &LocaleIdentifier,
    ) -> Result<bool, CliError>
        ensures answer { IfOk result (AddsLine
            (IsNamedLine (full_name_asked self.now names.now whole.now))
            text.old.items text.new.items) }
        ensures refused { IfErr result (λ e. e ≡ CliError.Memory) }
        ensures kept { OnErr result (Keeps text.old.items text.new.items) }
    {
        given_names_are_written();
        match self.whole_name(*text.allocator(), names, whole) {
            Ok(name) => add_full_name(text, &name),
            Err(refusal) => add_nameless(text, refusal.kind),
        }
    }

    // The name of a locale identifier, where names of dialects are asked for.
    fn whole_name(
        &self,
        alloc: Global,
        names: &ExtensionNames,
        whole: &LocaleIdentifier,
    ) -> Result<LocaleDisplayName, DataError>
        ensures { GivesFullName (answers_in self.now.tables self.now.preferences.locale)
            (chain_of self.now.chain) Dialect names.now whole.now result }
    {
        LocaleDisplayName::try_new_unstable(
            alloc,
            &self.tables,
            names,
            self.chain,
            self.preferences,
            whole,
            LanguageIdentifierDisplayNameOptions::default(),
        )
    }
}

impl<'d> Answering for Naming<'d> {
    ghost is_line = { IsNamed };

    ghost is_whole_line = { IsWholeNamed };

    #[inline(always)]
    fn add_line(
        &self,
        text: &mut Vec<u8>,
        identifier: &mut LanguageIdentifier,
    ) -> Result<bool, CliError> {
        self.add(text, identifier)
    }

    fn add_whole_line(
        &self,
        text: &mut Vec<u8>,
        whole: &mut LocaleIdentifier,
    ) -> Result<bool, CliError> {
        match &self.canonicalizer {
            None => self.add_spelled(text, whole),
            Some(canonicalizer) => match bring_to_canonical(canonicalizer, whole) {
                Ok(_) => self.add_spelled(text, whole),
                Err(refusal) => add_refusal(text, refusal),
            },
        }
    }
}

// The answer to a line that is named: its identifier, or all of its canonical form where the tables tell of it.
pub fn add_name(
    text: &mut Vec<u8>,
    naming: &Naming<'_>,
    syntax: Option<Syntax>,
    line: &[u8],
) -> Result<bool, CliError>
    ensures answer { IfOk result (AddsLine (IsAnswerOf syntax (IsNamed naming.now)
        (IsWholeNamed naming.now) line.now)
        text.old.items text.new.items) }
    ensures refused { IfErr result (λ e. e ≡ CliError.Memory) }
    ensures kept { OnErr result (Keeps text.old.items text.new.items) }
{
    add_read(text, naming, syntax, line)
}

// The line of a name: its text, and whether a raw subtag was written.
pub fn add_named(
    text: &mut Vec<u8>,
    name: &LanguageIdentifierDisplayName<'_>,
) -> Result<bool, CliError>
    ensures answer { IfOk result (AddsLine (λ t a. (t ≡ named_line name.now) × (a ≡ true))
        text.old.items text.new.items) }
    ensures refused { IfErr result (λ e. e ≡ CliError.Memory) }
    ensures kept { OnErr result (Keeps text.old.items text.new.items) }
{
    let is_raw = match name.as_borrowed().append_to(text) {
        Ok(is_raw) => is_raw,
        Err(_) => return Err(CliError::Memory),
    };
    add_mark(text, is_raw)?;
    Ok(true)
}

// The line of the name of a locale identifier.
fn add_full_name(text: &mut Vec<u8>, name: &LocaleDisplayName) -> Result<bool, CliError>
    ensures answer { (pieces : List Piece) → name.now ≡ written pieces
        → IfOk result (AddsLine (λ t a. (t ≡ named_line pieces) × (a ≡ true))
        text.old.items text.new.items) }
    ensures refused { IfErr result (λ e. e ≡ CliError.Memory) }
    ensures kept { OnErr result (Keeps text.old.items text.new.items) }
{
    raw_parts_have_spans();
    let is_raw = match name.append_to(text) {
        Ok(is_raw) => is_raw,
        Err(_) => return Err(CliError::Memory),
    };
    add_mark(text, is_raw)?;
    Ok(true)
}

// Whether a raw subtag was written, and the end of the line.
pub fn add_mark(text: &mut Vec<u8>, is_raw: bool) -> Result<(), CliError>
    ensures added { OnOk result (text.new.items
        ≡ text.old.items ++ (codes "\t" ++ (raw_mark is_raw ++ codes "\n"))) }
    ensures refused { IfErr result (λ e. e ≡ CliError.Memory) }
    ensures unchanged { OnErr result (text.new.items ≡ text.old.items) }
{
    add_text(text, if is_raw { "\tR\n" } else { "\tN\n" })
}

// The line of a refused name. Want of memory has none.
pub fn add_nameless(text: &mut Vec<u8>, kind: DataErrorKind) -> Result<bool, CliError>
    ensures answer { IfOk result (AddsLine
        (λ t a. (t ≡ refused_line (kind_name kind)) × (a ≡ false))
        text.old.items text.new.items) }
    ensures told { IfOk result (λ _. kind ≢ DataErrorKind.Memory) }
    ensures refused { IfErr result (λ e. e ≡ CliError.Memory) }
    ensures kept { OnErr result (Keeps text.old.items text.new.items) }
{
    match kind {
        DataErrorKind::IdentifierNotFound => add_known(text, "?\tIdentifierNotFound\n", false),
        DataErrorKind::MarkerNotFound => add_known(text, "?\tMarkerNotFound\n", false),
        DataErrorKind::InvalidRequest => add_known(text, "?\tInvalidRequest\n", false),
        DataErrorKind::Deserialize => add_known(text, "?\tDeserialize\n", false),
        DataErrorKind::Custom => add_known(text, "?\tCustom\n", false),
        DataErrorKind::Memory => Err(CliError::Memory),
    }
}
