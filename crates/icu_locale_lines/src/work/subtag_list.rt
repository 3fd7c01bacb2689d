//! Lines that begin subtags, and the subtags that have names.
ghost use Rattle.std.specs.Prelude.{◌≡◌, ◌++◌, IfErr, IfOk, List, OnErr, OnOk, option_map};
ghost use Rattle.icu_locale_lines.specs.Answers.{AddsLine, Keeps};
ghost use Rattle.icu_locale_lines.specs.SubtagLists.{IsListedLine, after_any, began, if_begun, markers_of, subtag_of};
ghost use Rattle.icu_locale_extensions.specs.Extensions.{any_piece};
ghost use Rattle.icu_locale_parts.specs.Parts.{members};

use crate::answer::add_text;
use crate::error::CliError;
use crate::work::subtag::SubtagKind;
use icu_provider::{DataLocale, NameKey, NameMarker};
use icu_tables::Tables;

/// What lists subtags that have names: tables, a kind, and the locale whose names are asked.
#[derive(Debug, Drop)]
pub struct SubtagList<'d> {
    /// The tables that are asked.
    pub tables: &'d Tables,
    /// The kind of subtag.
    pub kind: SubtagKind,
    /// The locale in which names are asked.
    pub locale: DataLocale,
}

// The answer to a line that begins subtags: those that have names, with a space between two.
pub fn add_list(text: &mut Vec<u8>, list: &SubtagList<'_>, line: &[u8]) -> Result<bool, CliError>
    ensures answer { IfOk result (AddsLine (IsListedLine list.now line.now)
        text.old.items text.new.items) }
    ensures refused { IfErr result (λ e. e ≡ CliError.Memory) }
    ensures kept { OnErr result (Keeps text.old.items text.new.items) }
{
    let alloc = *text.allocator();
    let keys = list
        .tables
        .name_keys_in(alloc, markers_of(list.kind), &list.locale)?;
    add_subtags(text, list.kind, line, &keys)?;
    add_text(text, "\n")?;
    Ok(true)
}

// The subtags of keys that begin with a text, with a space between two.
fn add_subtags(
    text: &mut Vec<u8>,
    kind: SubtagKind,
    front: &[u8],
    keys: &[NameKey],
) -> Result<(), CliError>
    ensures added { OnOk result (text.new.items
        ≡ text.old.items ++ members (began kind front.now keys.now)) }
    ensures refused { IfErr result (λ e. e ≡ CliError.Memory) }
    ensures kept { OnErr result (Keeps text.old.items text.new.items) }
{
    let mut any = false;
    for key in keys {
        let is_added = add_begun(text, any, kind, key, front)?;
        any = any | is_added;
    }
    Ok(())
}

// The subtag of a key if it begins with a text, after a space where there are any before it; and whether it does.
fn add_begun(
    text: &mut Vec<u8>,
    any: bool,
    kind: SubtagKind,
    key: &NameKey,
    front: &[u8],
) -> Result<bool, CliError>
    ensures added { IfOk result (λ _. text.new.items ≡ text.old.items
        ++ after_any any (if_begun front.now (subtag_of kind key.now))) }
    ensures told { IfOk result (λ is_added. is_added
        ≡ any_piece (if_begun front.now (subtag_of kind key.now))) }
    ensures refused { IfErr result (λ e. e ≡ CliError.Memory) }
    ensures kept { OnErr result (Keeps text.old.items text.new.items) }
{
    let Some(subtag) = subtag_of(kind, key) else {
        return Ok(false);
    };
    if !subtag.as_bytes().starts_with(front) {
        return Ok(false);
    }
    add_text(text, if any { " " } else { "" })?;
    add_text(text, subtag)?;
    Ok(true)
}

// The subtag of a kind that a key names alone.
fn subtag_of(kind: SubtagKind, key: &NameKey) -> Option<&str>
    ensures { option_map (λ t. t.now) result ≡ subtag_of kind key.now }
{
    match (kind, key) {
        (SubtagKind::Language, NameKey::Language(language, None, None)) => Some(language.as_str()),
        (SubtagKind::Script, NameKey::Script(script)) => Some(script.as_str()),
        (SubtagKind::Region, NameKey::Region(region)) => Some(region.as_str()),
        (SubtagKind::Variant, NameKey::Variant(variant)) => Some(variant.as_str()),
        _ => None,
    }
}

// The kinds of names that subtags of a kind have.
fn markers_of(kind: SubtagKind) -> &'static [NameMarker]
    ensures { result.now ≡ markers_of kind }
{
    match kind {
        SubtagKind::Language => &[
            NameMarker::LanguageLongHeavy,
            NameMarker::LanguageLongLight,
            NameMarker::LanguageMediumHeavy,
            NameMarker::LanguageMediumLight,
            NameMarker::LanguageMediumTiny,
            NameMarker::LanguageShortHeavy,
            NameMarker::LanguageShortLight,
        ],
        SubtagKind::Script => &[
            NameMarker::ScriptMediumHeavy,
            NameMarker::ScriptMediumLight,
            NameMarker::ScriptMediumTiny,
            NameMarker::ScriptShortHeavy,
        ],
        SubtagKind::Region => &[
            NameMarker::RegionMediumLight,
            NameMarker::RegionMediumTiny,
            NameMarker::RegionShortLight,
            NameMarker::RegionShortTiny,
        ],
        SubtagKind::Variant => &[NameMarker::VariantMediumHeavy],
    }
}
