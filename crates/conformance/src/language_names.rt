//! Names of identifiers: their texts, reports and spans.
use crate::fault::Fault;
use crate::names::preferences;
use crate::texts::{four_words, written};
use crate::world::World;
use icu_locale_core::LanguageIdentifier;
use icu_locale_names::{
    DisplayNamesPreferences, LanguageDisplay, LanguageIdentifierDisplayName as Name,
    LanguageIdentifierDisplayNameBorrowed, LanguageIdentifierDisplayNameOptions, NameChain,
};
use icu_provider::{DataError, DataProvider};
use std::alloc::{AllocError, Global};

/// The name that a chain gives for preferences, an identifier and, if there is one, a display. The answer is the
/// text, then `Ok` or `Err`, and then the spans of raw subtags.
pub fn language_name(alloc: Global, world: &World, words: &str) -> Result<String, Fault> {
    let [chain, locale, subject, display] = four_words(words);
    let chain = NameChain::from_word(chain).ok_or(Fault::Row)?;
    let preferences = preferences(alloc, locale)?;
    let options = options(display)?;
    let subject = LanguageIdentifier::try_from_str(alloc, subject)?;
    match named(alloc, world.names(), chain, preferences, &subject, options) {
        Ok(name) => name_and_spans(alloc, &name),
        Err(refusal) => written(alloc, &refusal),
    }
}

// The name by the constructor of a chain.
fn named<'t, P: DataProvider>(
    alloc: Global,
    provider: &'t P,
    chain: NameChain,
    of: DisplayNamesPreferences,
    subject: &LanguageIdentifier,
    options: LanguageIdentifierDisplayNameOptions,
) -> Result<Name<'t>, DataError> {
    match chain {
        NameChain::Tiny => Name::try_new_tiny_unstable(alloc, provider, of, subject, options),
        NameChain::Light => Name::try_new_light_unstable(alloc, provider, of, subject, options),
        NameChain::ShortLight => {
            Name::try_new_short_light_unstable(alloc, provider, of, subject, options)
        }
        NameChain::LongLight => {
            Name::try_new_long_light_unstable(alloc, provider, of, subject, options)
        }
        NameChain::MenuLight => {
            Name::try_new_menu_light_unstable(alloc, provider, of, subject, options)
        }
        NameChain::ShortMenuLight => {
            Name::try_new_short_menu_light_unstable(alloc, provider, of, subject, options)
        }
        NameChain::Heavy => Name::try_new_heavy_unstable(alloc, provider, of, subject, options),
        NameChain::ShortHeavy => {
            Name::try_new_short_heavy_unstable(alloc, provider, of, subject, options)
        }
        NameChain::LongHeavy => {
            Name::try_new_long_heavy_unstable(alloc, provider, of, subject, options)
        }
        NameChain::MenuHeavy => {
            Name::try_new_menu_heavy_unstable(alloc, provider, of, subject, options)
        }
        NameChain::ShortMenuHeavy => {
            Name::try_new_short_menu_heavy_unstable(alloc, provider, of, subject, options)
        }
    }
}

// The display that a word names: without one there is no choice.
fn options(word: &str) -> Result<LanguageIdentifierDisplayNameOptions, Fault> {
    let language_display = match word {
        "" => return Ok(LanguageIdentifierDisplayNameOptions::default()),
        "dialect" => Some(LanguageDisplay::Dialect),
        "standard" => Some(LanguageDisplay::Standard),
        _ => return Err(Fault::Row),
    };
    Ok(LanguageIdentifierDisplayNameOptions { language_display })
}

// The text, the report and the spans of a name. What Display writes must be the text.
fn name_and_spans(alloc: Global, name: &Name<'_>) -> Result<String, Fault> {
    let lent = name.as_borrowed();
    let mut bytes: Vec<u8> = Vec::new(alloc);
    let mut spans = Vec::new(alloc);
    match lent.try_write_to_parts(&mut bytes, &mut spans) {
        Ok(report) if report.is_ok() => told(alloc, lent, &bytes, " | Ok", &spans),
        Ok(_) => told(alloc, lent, &bytes, " | Err |", &spans),
        Err(refusal) => written(alloc, &refusal),
    }
}

fn told(
    alloc: Global,
    lent: LanguageIdentifierDisplayNameBorrowed<'_>,
    bytes: &[u8],
    report: &str,
    spans: &[(usize, usize)],
) -> Result<String, Fault> {
    let mut answer = written(alloc, &lent)?;
    if answer.as_bytes() != bytes {
        return Err(Fault::Row);
    }
    write_report(&mut answer, report, spans)?;
    Ok(answer)
}

fn write_report(
    answer: &mut String,
    report: &str,
    spans: &[(usize, usize)],
) -> Result<(), AllocError> {
    answer.push_str(report)?;
    for (start, end) in spans {
        write!(answer, " ({start}, {end})")?;
    }
    Ok(())
}
