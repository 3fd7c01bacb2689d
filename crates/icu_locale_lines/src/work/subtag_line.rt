//! Lines that are a subtag, and its name alone.
ghost use Rattle.std.specs.Prelude.{◌≡◌, Err, IfErr, IfOk, List, Ok, OnErr, ℕ};
ghost use Rattle.icu_locale_lines.specs.Answers.{AddsLine, Keeps};
ghost use Rattle.icu_locale_lines.specs.Names.{IsNamedLine, answers_in};
ghost use Rattle.icu_locale_lines.specs.Subtags.{IsToldLine, identifier_name, language_name, refusal_of, region_markers, region_told, script_markers, script_told, subtag_answer, subtag_line, subtag_name, told_by, variant_told};
ghost use Rattle.icu_locale_names.specs.LanguageChains.{chain_of};
ghost use Rattle.icu_locale_names.specs.LanguageNames.{GivesName};
ghost use Rattle.icu_locale_names.specs.declared.options.LanguageDisplay.TheVariants.{Dialect};
ghost use Rattle.icu_provider.specs.declared.names.NameKey.{NameKey};

use crate::answer::{add_fault, add_text, text_of};
use crate::error::CliError;
use crate::work::name::{add_mark, add_named, add_nameless};
use crate::work::subtag::{RegionChain, ScriptChain, SubtagChain, SubtagNaming};
use icu_locale_core::{
    Language, LanguageIdentifier, ParseError, Region, Script, Variant, Variants,
};
use icu_locale_names::{
    LanguageIdentifierDisplayName, LanguageIdentifierDisplayNameOptions, NameChain,
    RegionDisplayName, ScriptDisplayName, VariantDisplayName,
};
use icu_provider::{DataError, DataErrorKind};
use std::alloc::Global;

// The answer to a line that is to be a subtag of the kind that the chain names.
pub fn add_subtag_name(
    text: &mut Vec<u8>,
    naming: &SubtagNaming<'_>,
    line: &[u8],
) -> Result<bool, CliError>
    ensures answer { IfOk result (AddsLine (IsToldLine (subtag_answer naming.now line.now))
        text.old.items text.new.items) }
    ensures refused { IfErr result (λ e. e ≡ CliError.Memory) }
    ensures kept { OnErr result (Keeps text.old.items text.new.items) }
{
    let Some(word) = text_of(line) else {
        return add_fault(text, refusal_of(naming.chain));
    };
    match naming.chain {
        SubtagChain::Language(chain) => add_if_language(text, naming, chain, word),
        SubtagChain::Script(chain) => add_if_script(text, naming, chain, word),
        SubtagChain::Region(chain) => add_if_region(text, naming, chain, word),
        SubtagChain::Variant => add_if_variant(text, naming, word),
    }
}

// Why a text is no subtag of the kind that a chain names.
fn refusal_of(chain: SubtagChain) -> ParseError
    ensures { result ≡ refusal_of chain }
{
    match chain {
        SubtagChain::Language(_) => ParseError::InvalidLanguage,
        SubtagChain::Script(_) => ParseError::InvalidSubtag,
        SubtagChain::Region(_) => ParseError::InvalidSubtag,
        SubtagChain::Variant => ParseError::InvalidSubtag,
    }
}

// The answer to a text that is to be a language.
fn add_if_language(
    text: &mut Vec<u8>,
    naming: &SubtagNaming<'_>,
    chain: NameChain,
    word: &str,
) -> Result<bool, CliError>
    ensures answer { IfOk result (AddsLine (IsToldLine
        (told_by naming.now (SubtagChain.Language chain) word.now)) text.old.items text.new.items) }
    ensures refused { IfErr result (λ e. e ≡ CliError.Memory) }
    ensures kept { OnErr result (Keeps text.old.items text.new.items) }
{
    match Language::try_from_str(word) {
        Ok(language) => add_language(text, naming, chain, language),
        Err(refusal) => add_fault(text, refusal),
    }
}

// The answer to a text that is to be a script.
fn add_if_script(
    text: &mut Vec<u8>,
    naming: &SubtagNaming<'_>,
    chain: ScriptChain,
    word: &str,
) -> Result<bool, CliError>
    ensures answer { IfOk result (AddsLine (IsToldLine
        (told_by naming.now (SubtagChain.Script chain) word.now)) text.old.items text.new.items) }
    ensures refused { IfErr result (λ e. e ≡ CliError.Memory) }
    ensures kept { OnErr result (Keeps text.old.items text.new.items) }
{
    match Script::try_from_str(word) {
        Ok(script) => add_script(text, naming, chain, script),
        Err(refusal) => add_fault(text, refusal),
    }
}

// The answer to a text that is to be a region.
fn add_if_region(
    text: &mut Vec<u8>,
    naming: &SubtagNaming<'_>,
    chain: RegionChain,
    word: &str,
) -> Result<bool, CliError>
    ensures answer { IfOk result (AddsLine (IsToldLine
        (told_by naming.now (SubtagChain.Region chain) word.now)) text.old.items text.new.items) }
    ensures refused { IfErr result (λ e. e ≡ CliError.Memory) }
    ensures kept { OnErr result (Keeps text.old.items text.new.items) }
{
    match Region::try_from_str(word) {
        Ok(region) => add_region(text, naming, chain, region),
        Err(refusal) => add_fault(text, refusal),
    }
}

// The answer to a text that is to be a variant.
fn add_if_variant(
    text: &mut Vec<u8>,
    naming: &SubtagNaming<'_>,
    word: &str,
) -> Result<bool, CliError>
    ensures answer { IfOk result (AddsLine (IsToldLine
        (told_by naming.now SubtagChain.Variant word.now)) text.old.items text.new.items) }
    ensures refused { IfErr result (λ e. e ≡ CliError.Memory) }
    ensures kept { OnErr result (Keeps text.old.items text.new.items) }
{
    match Variant::try_from_str(word) {
        Ok(variant) => add_variant(text, naming, variant),
        Err(refusal) => add_fault(text, refusal),
    }
}

// The line of a language.
fn add_language(
    text: &mut Vec<u8>,
    naming: &SubtagNaming<'_>,
    chain: NameChain,
    language: Language,
) -> Result<bool, CliError>
    ensures answer { IfOk result (AddsLine
        (IsNamedLine (language_name naming.now chain language)) text.old.items text.new.items) }
    ensures refused { IfErr result (λ e. e ≡ CliError.Memory) }
    ensures kept { OnErr result (Keeps text.old.items text.new.items) }
{
    let alloc = *text.allocator();
    let identifier = LanguageIdentifier {
        language,
        script: None,
        region: None,
        variants: Variants::new(alloc),
    };
    add_identifier(text, naming, chain, &identifier)
}

// The line of an identifier that is named.
fn add_identifier(
    text: &mut Vec<u8>,
    naming: &SubtagNaming<'_>,
    chain: NameChain,
    identifier: &LanguageIdentifier,
) -> Result<bool, CliError>
    ensures answer { IfOk result (AddsLine
        (IsNamedLine (identifier_name naming.now chain identifier.now))
        text.old.items text.new.items) }
    ensures refused { IfErr result (λ e. e ≡ CliError.Memory) }
    ensures kept { OnErr result (Keeps text.old.items text.new.items) }
{
    match name_of_identifier(*text.allocator(), naming, chain, identifier) {
        Ok(name) => add_named(text, &name),
        Err(refusal) => add_nameless(text, refusal.kind),
    }
}

// The name of an identifier, where names of dialects are asked for.
fn name_of_identifier<'a>(
    alloc: Global,
    naming: &'a SubtagNaming<'_>,
    chain: NameChain,
    identifier: &LanguageIdentifier,
) -> Result<LanguageIdentifierDisplayName<'a>, DataError>
    ensures { GivesName (answers_in naming.now.tables naming.now.preferences.locale)
        (chain_of chain) Dialect identifier.now result }
{
    LanguageIdentifierDisplayName::try_new_unstable(
        alloc,
        &naming.tables,
        chain,
        naming.preferences,
        identifier,
        LanguageIdentifierDisplayNameOptions::default(),
    )
}

// The line of a script.
fn add_script(
    text: &mut Vec<u8>,
    naming: &SubtagNaming<'_>,
    chain: ScriptChain,
    script: Script,
) -> Result<bool, CliError>
    ensures answer { IfOk result (AddsLine
        (IsToldLine (script_told naming.now chain script)) text.old.items text.new.items) }
    ensures refused { IfErr result (λ e. e ≡ CliError.Memory) }
    ensures kept { OnErr result (Keeps text.old.items text.new.items) }
{
    match script_name(naming, chain, script) {
        Ok(name) => add_given(text, name.as_borrowed().text),
        Err(refusal) => add_unnamed(text, refusal, script.as_str()),
    }
}

fn script_name<'a>(
    naming: &'a SubtagNaming<'_>,
    chain: ScriptChain,
    script: Script,
) -> Result<ScriptDisplayName<'a>, DataError>
    ensures { result ≡ subtag_name naming.now (NameKey.Script script) (script_markers chain) }
{
    let (tables, preferences) = (&naming.tables, naming.preferences);
    match chain {
        ScriptChain::Tiny => ScriptDisplayName::try_new_tiny_unstable(tables, preferences, script),
        ScriptChain::Light => {
            ScriptDisplayName::try_new_light_unstable(tables, preferences, script)
        }
        ScriptChain::Heavy => {
            ScriptDisplayName::try_new_heavy_unstable(tables, preferences, script)
        }
        ScriptChain::ShortHeavy => {
            ScriptDisplayName::try_new_short_heavy_unstable(tables, preferences, script)
        }
    }
}

// The line of a region.
fn add_region(
    text: &mut Vec<u8>,
    naming: &SubtagNaming<'_>,
    chain: RegionChain,
    region: Region,
) -> Result<bool, CliError>
    ensures answer { IfOk result (AddsLine
        (IsToldLine (region_told naming.now chain region)) text.old.items text.new.items) }
    ensures refused { IfErr result (λ e. e ≡ CliError.Memory) }
    ensures kept { OnErr result (Keeps text.old.items text.new.items) }
{
    match region_name(naming, chain, region) {
        Ok(name) => add_given(text, name.as_borrowed().text),
        Err(refusal) => add_unnamed(text, refusal, region.as_str()),
    }
}

fn region_name<'a>(
    naming: &'a SubtagNaming<'_>,
    chain: RegionChain,
    region: Region,
) -> Result<RegionDisplayName<'a>, DataError>
    ensures { result ≡ subtag_name naming.now (NameKey.Region region) (region_markers chain) }
{
    let (tables, preferences) = (&naming.tables, naming.preferences);
    match chain {
        RegionChain::Tiny => RegionDisplayName::try_new_tiny_unstable(tables, preferences, region),
        RegionChain::ShortTiny => {
            RegionDisplayName::try_new_short_tiny_unstable(tables, preferences, region)
        }
        RegionChain::Light => {
            RegionDisplayName::try_new_light_unstable(tables, preferences, region)
        }
        RegionChain::ShortLight => {
            RegionDisplayName::try_new_short_light_unstable(tables, preferences, region)
        }
    }
}

// The line of a variant.
fn add_variant(
    text: &mut Vec<u8>,
    naming: &SubtagNaming<'_>,
    variant: Variant,
) -> Result<bool, CliError>
    ensures answer { IfOk result (AddsLine
        (IsToldLine (variant_told naming.now variant)) text.old.items text.new.items) }
    ensures refused { IfErr result (λ e. e ≡ CliError.Memory) }
    ensures kept { OnErr result (Keeps text.old.items text.new.items) }
{
    let (tables, preferences) = (&naming.tables, naming.preferences);
    match VariantDisplayName::try_new_heavy_unstable(tables, preferences, variant) {
        Ok(name) => add_given(text, name.as_borrowed().text),
        Err(refusal) => add_unnamed(text, refusal, variant.as_str()),
    }
}

// The line of a name that is given, whatever stands for one that is not.
fn add_given(text: &mut Vec<u8>, name: &str) -> Result<bool, CliError>
    ensures answer { (raw : List ℕ) → IfOk result (AddsLine
        (IsToldLine (subtag_line raw (Ok name.now))) text.old.items text.new.items) }
    ensures refused { IfErr result (λ e. e ≡ CliError.Memory) }
    ensures kept { OnErr result (Keeps text.old.items text.new.items) }
{
    add_text(text, name)?;
    add_mark(text, false)?;
    Ok(true)
}

// The line of a subtag that has no name, or of another refusal.
fn add_unnamed(text: &mut Vec<u8>, refusal: DataError, raw: &str) -> Result<bool, CliError>
    ensures answer { IfOk result (AddsLine (IsToldLine (subtag_line raw.now (Err refusal)))
        text.old.items text.new.items) }
    ensures refused { IfErr result (λ e. e ≡ CliError.Memory) }
    ensures kept { OnErr result (Keeps text.old.items text.new.items) }
{
    match refusal.kind {
        DataErrorKind::IdentifierNotFound => {
            add_text(text, raw)?;
            add_mark(text, true)?;
            Ok(true)
        }
        kind => add_nameless(text, kind),
    }
}
