//! Names of whole locale identifiers.
ghost use Rattle.std.specs.Prelude.{◌≡◌, ◌≢◌, ◌⊎◌, ◌↔◌, ◌++◌, ◌+◌, ◌<◌, [], Some, Err, IsErr, IfOk, IfErr, OnOk, OnErr, length, ◌==◌, not, vec_capacity, vec_len};
ghost use Rattle.std.specs.Io.KnownBytes.{Appends};
ghost use Rattle.icu_locale_core.specs.Sinks.{AppendsPart};
ghost use Rattle.icu_locale_names.specs.LanguageChains.{chain_of};
ghost use Rattle.icu_locale_names.specs.LanguageNames.{in_locale, display_of, GivesParts};
ghost use Rattle.icu_locale_names.specs.LentNames.{parts_of};
ghost use Rattle.icu_locale_full_names.specs.FullNames.{GivesFullName, full_pieces, written};
ghost use Rattle.icu_locale_full_names.specs.inner.Has.{lent_language};
ghost use Rattle.icu_locale_full_names.specs.inner.Lent.{GivesLanguage};

use crate::draft::Draft;
use crate::whole::add_whole;
use icu_locale_core::{LanguageIdentifier, write_whole};
use icu_locale_extensions::LocaleIdentifier;
use icu_locale_names::{
    DisplayNamesPreferences, LanguageIdentifierDisplayNameBorrowed,
    LanguageIdentifierDisplayNameOptions, LanguageIdentifierNameFallbackError, LanguageNameParts,
    NameChain, NameWriteError,
};
use icu_provider::{DataError, DataErrorKind, DataProvider, ExtensionNames};
use std::alloc::Global;
use std::marker::Model;
use std::{fmt, io};

/// The name of a whole locale identifier (UTS #35 Part 2, "Locale Display Name Algorithm"): that of its identifier, with
/// what its extensions say as further qualifiers. It holds its text; a contract sees that, and where raw parts are in it.
#[derive(Debug, Drop)]
pub struct LocaleDisplayName {
    draft: Draft,
}

impl Model for LocaleDisplayName {
    ghost use Rattle.std.specs.Prelude.{string_bytes};
    ghost use Rattle.icu_locale_full_names.specs.FullNames.{NameText};

    ghost Value = { NameText };

    ghost view = { λ n. record {
      text = string_bytes n.draft.text;
      raw_spans = n.draft.raw_spans.items;
    } };
}

impl LocaleDisplayName {
    /// The name of a locale identifier by a chain: its identifier as `LanguageIdentifierDisplayName` has it, and what the
    /// extensions say by `names`. It takes memory for the text and for the places of raw parts.
    ///
    /// # Errors
    ///
    /// Those of the name of the identifier, and then those of the name of the language of `t`, as
    /// `LanguageIdentifierDisplayName::try_new_unstable` has them. Then `Memory`, where the text found no room.
    pub fn try_new_unstable<P: DataProvider>(
        alloc: Global,
        provider: &P,
        names: &ExtensionNames,
        chain: NameChain,
        preferences: DisplayNamesPreferences,
        subject: &LocaleIdentifier,
        options: LanguageIdentifierDisplayNameOptions,
    ) -> Result<Self, DataError>
        ensures { GivesFullName (in_locale (P.name provider.now) (P.menu provider.now)
            (P.essentials provider.now) preferences.locale)
            (chain_of chain) (display_of options) names.now subject.now result }
    {
        let id = &subject.locale.id;
        let base = match parts(alloc, provider, chain, &preferences, id, options) {
            Ok(base) => base,
            Err(refusal) => return Err(refusal),
        };
        let lang = &subject.locale.extensions.transform.lang;
        let language = match language_parts(alloc, provider, chain, &preferences, lang, options) {
            Ok(language) => language,
            Err(refusal) => return Err(refusal),
        };
        name_of_parts(alloc, &base, &language, names, subject)
    }

    /// The text. It takes no memory.
    pub fn as_str(&self) -> &str
        ensures { result.now ≡ self.now.text }
    {
        self.draft.text.as_str()
    }

    /// Where the raw parts of the text are, in order: where each begins and ends, in bytes. It takes no memory.
    pub fn raw_spans(&self) -> &[(usize, usize)]
        ensures { result.now ≡ self.now.raw_spans }
    {
        self.draft.raw_spans.as_slice()
    }

    /// Appends the text to `text`, and tells whether a raw part is in it. It takes memory only where `text` has no room.
    ///
    /// # Errors
    ///
    /// `Memory` where `text` had no room and could not grow, never else. It is as it was then.
    pub fn append_to(&self, text: &mut Vec<u8>) -> Result<bool, NameWriteError>
        ensures text { OnOk result (text.new.items ≡ text.old.items ++ self.now.text) }
        ensures raw { IfOk result (λ is_raw. is_raw ≡ not (length self.now.raw_spans == 0)) }
        ensures refused { IfErr result (λ e. e ≡ NameWriteError.Memory) }
        ensures full { OnErr result
            (vec_capacity text.old < vec_len text.old + length self.now.text) }
        ensures unchanged { OnErr result (text.new.items ≡ text.old.items) }
    {
        text.extend_from_slice(self.as_str().as_bytes())?;
        Ok(!self.raw_spans().is_empty())
    }

    /// Writes the text, and appends the span of each raw part to `parts`, as
    /// `LanguageIdentifierDisplayNameBorrowed::try_write_to_parts` does. The report inside is `Err` exactly where there is
    /// a raw part. It takes memory for the spans alone, and only where `parts` has no room for them.
    ///
    /// # Errors
    ///
    /// `parts` is unchanged after each.
    ///
    /// - `Memory` where `parts` had no room for the spans and could not grow, so never where no raw part is in the text.
    ///   Nothing was written.
    /// - `Sink` where a write failed or took no byte. A beginning of the text was written, and not the whole.
    pub fn try_write_to_parts<W: io::Write>(
        &self,
        sink: &mut W,
        parts: &mut Vec<(usize, usize)>,
    ) -> Result<Result<(), LanguageIdentifierNameFallbackError>, NameWriteError>
        ensures text { OnOk result
            (Appends (W.contents sink.old) (W.contents sink.new) self.now.text) }
        ensures marked { OnOk result
            (parts.new.items ≡ parts.old.items ++ self.now.raw_spans) }
        ensures report { IfOk result (λ report. IsErr report ↔ (self.now.raw_spans ≢ [])) }
        ensures refused { IfErr result (λ e. (e ≡ NameWriteError.Sink)
            ⊎ ((e ≡ NameWriteError.Memory) × (sink.new ≡ sink.old))) }
        ensures part { result ≡ Err NameWriteError.Sink → AppendsPart (W.contents sink.old)
            (W.contents sink.new) self.now.text }
        ensures unmarked { OnErr result (parts.new.items ≡ parts.old.items) }
        ensures full { result ≡ Err NameWriteError.Memory
            → vec_capacity parts.old < vec_len parts.old + length self.now.raw_spans }
        ensures free { self.now.raw_spans ≡ [] → result ≢ Err NameWriteError.Memory }
    {
        let before = parts.as_slice().len();
        if self.raw_spans().is_empty() {
            write_whole(self.as_str().as_bytes(), sink)?;
            return Ok(Ok(()));
        }
        parts.extend_from_slice(self.raw_spans())?;
        match write_whole(self.as_str().as_bytes(), sink) {
            Ok(()) => Ok(Err(LanguageIdentifierNameFallbackError)),
            Err(_) => {
                parts.truncate(before);
                Err(NameWriteError::Sink)
            }
        }
    }
}

impl fmt::Display for LocaleDisplayName {
    ghost output = { λ n. Some n.text };

    fn fmt<W: fmt::Write>(&self, f: &mut fmt::Formatter<W>) -> fmt::Result {
        f.write_str(self.as_str())
    }
}

// The name of an identifier.
fn parts<'d, P: DataProvider>(
    alloc: Global,
    provider: &'d P,
    chain: NameChain,
    preferences: &DisplayNamesPreferences,
    id: &LanguageIdentifier,
    options: LanguageIdentifierDisplayNameOptions,
) -> Result<LanguageNameParts<'d>, DataError>
    ensures { GivesParts (in_locale (P.name provider.now) (P.menu provider.now)
        (P.essentials provider.now) preferences.now.locale)
        (chain_of chain) (display_of options) id.now result }
{
    LanguageNameParts::try_new_unstable(alloc, provider, chain, *preferences, id, options)
}

// The name of the language of `t`, if there is one.
fn language_parts<'d, P: DataProvider>(
    alloc: Global,
    provider: &'d P,
    chain: NameChain,
    preferences: &DisplayNamesPreferences,
    lang: &Option<LanguageIdentifier>,
    options: LanguageIdentifierDisplayNameOptions,
) -> Result<Option<LanguageNameParts<'d>>, DataError>
    ensures { GivesLanguage (in_locale (P.name provider.now) (P.menu provider.now)
        (P.essentials provider.now) preferences.now.locale)
        (chain_of chain) (display_of options) lang.now result }
{
    let Some(lang) = lang else {
        return Ok(None);
    };
    match parts(alloc, provider, chain, preferences, lang, options) {
        Ok(language) => Ok(Some(language)),
        Err(refusal) => Err(refusal),
    }
}

// The name that parts are put together to.
fn name_of_parts(
    alloc: Global,
    base: &LanguageNameParts<'_>,
    language: &Option<LanguageNameParts<'_>>,
    names: &ExtensionNames,
    subject: &LocaleIdentifier,
) -> Result<LocaleDisplayName, DataError>
    ensures made { IfOk result
        (λ name. name ≡ written (full_pieces base.now language.now names.now subject.now)) }
    ensures refused { IfErr result (λ e. e.kind ≡ DataErrorKind.Memory) }
{
    let name = base.as_borrowed();
    match language {
        Some(language) => {
            let language = language.as_borrowed();
            written_name(alloc, &name, Some(&language), names, subject)
        }
        None => written_name(alloc, &name, None, names, subject),
    }
}

// The same of names that are lent.
fn written_name(
    alloc: Global,
    name: &LanguageIdentifierDisplayNameBorrowed<'_>,
    language: Option<&LanguageIdentifierDisplayNameBorrowed<'_>>,
    names: &ExtensionNames,
    subject: &LocaleIdentifier,
) -> Result<LocaleDisplayName, DataError>
    ensures made { IfOk result (λ made. made ≡ written
        (full_pieces (parts_of name.now) (lent_language language.entry) names.now subject.now)) }
    ensures refused { IfErr result (λ e. e.kind ≡ DataErrorKind.Memory) }
{
    let mut draft = Draft::new(alloc)?;
    add_whole(name, language, names, subject, &mut draft)?;
    Ok(LocaleDisplayName { draft })
}
