//! Chains of identifiers, and supplements.
use crate::fault::Fault;
use crate::texts::written;
use crate::world::World;
use icu_locale_core::{LanguageIdentifier, Variants};
use icu_locale_fallback::{
    FallbackError, LocaleFallbackConfig, LocaleFallbackPriority, LocaleFallbacker,
};
use icu_provider::DataLocale;
use icu_tables::Supplement;
use std::alloc::{AllocError, Global};

/// The chain of an identifier, by what the first word says that it keeps; or why there is none.
pub fn chain(alloc: Global, world: &World, text: &str) -> Result<String, Fault> {
    let (word, id) = text.split_once(' ').ok_or(Fault::Row)?;
    let priority = match word {
        "language" => LocaleFallbackPriority::Language,
        "script" => LocaleFallbackPriority::Script,
        "region" => LocaleFallbackPriority::Region,
        _ => return Err(Fault::Row),
    };
    match LanguageIdentifier::try_from_str(alloc, id) {
        Ok(id) => chain_by(alloc, world, LocaleFallbackConfig { priority }, id),
        Err(refusal) => written(alloc, &refusal),
    }
}

fn chain_by(
    alloc: Global,
    world: &World,
    config: LocaleFallbackConfig,
    id: LanguageIdentifier,
) -> Result<String, Fault> {
    let fallbacker = LocaleFallbacker {
        expander: world.expander()?,
        parents: &world.own.supplement.parents,
    };
    let mut text = Vec::new(alloc);
    match fallbacker
        .for_config(config)
        .append_chain(alloc, id, &mut text)
    {
        Ok(()) => written(alloc, &str::from_utf8(&text).ok().ok_or(Fault::Row)?),
        Err(FallbackError::Circle(first)) => circle(alloc, &first),
        Err(FallbackError::Memory) => Err(Fault::Memory(AllocError)),
    }
}

fn circle(alloc: Global, first: &DataLocale) -> Result<String, Fault> {
    let id = LanguageIdentifier {
        language: first.language,
        script: first.script,
        region: first.region,
        variants: Variants::new(alloc),
    };
    Ok(format!(in alloc; "Circle {id}")?)
}

/// What the supplement of a JSON text holds, or the refusal's name.
pub fn held(alloc: Global, json: &[u8]) -> Result<String, Fault> {
    match Supplement::from_json(alloc, json) {
        Ok(supplement) => counted(alloc, &supplement),
        Err(refusal) => written(alloc, &refusal),
    }
}

fn counted(alloc: Global, supplement: &Supplement) -> Result<String, Fault> {
    let parents = supplement.parents.len();
    match &supplement.matching {
        Some(matching) => {
            let (rules, macros) = (matching.rules.len(), matching.macros.len());
            let paradigms = matching.paradigms.len();
            Ok(format!(in alloc;
                "{parents} parents, {rules} languages, {macros} macros, {paradigms} paradigms"
            )?)
        }
        None => Ok(format!(in alloc; "{parents} parents")?),
    }
}
