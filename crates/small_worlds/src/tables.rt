//! The tables of aliases of a world, as the crates hold them.
use crate::fault::Fault;
use crate::plain::{MARKS, Plain};
use crate::rules::{Mark, Regions, Rule, Rules};
use crate::subtags::Subtags;
use crate::values::ValueRow;
use icu_locale_core::{Region, Variant};
use icu_provider::{Aliases, LanguageStrStrPair, StrStrPair};
use std::alloc::{AllocError, Global};

// An identifier as a text.
fn text(alloc: Global, subtags: &Subtags, x: &Plain) -> Result<String, Fault> {
    let held = x.held(alloc, subtags)?;
    Ok(format!(in alloc; "{held}")?)
}

// The variants of an identifier as a text.
fn variants_text(alloc: Global, subtags: &Subtags, x: &Plain) -> Result<String, AllocError> {
    let mut text = String::new(alloc);
    for (variant, mark) in subtags.variants.iter().zip(&MARKS) {
        if x.variants & *mark != 0 {
            put_variant(&mut text, *variant)?;
        }
    }
    Ok(text)
}

fn put_variant(text: &mut String, variant: Variant) -> Result<(), AllocError> {
    if !text.is_empty() {
        text.push('-')?;
    }
    text.push_str(variant.as_str())
}

fn put_variant_rules(
    alloc: Global,
    aliases: &mut Aliases,
    rules: &[Option<Rule>; 2],
    subtags: &Subtags,
) -> Result<(), Fault> {
    for row in rules {
        if let Some(rule) = row {
            aliases.push_language_variants(LanguageStrStrPair(
                rule.source.language,
                variants_text(alloc, subtags, &rule.source)?,
                text(alloc, subtags, &rule.replacement)?,
            ))?;
        }
    }
    Ok(())
}

fn put_rules(
    alloc: Global,
    aliases: &mut Aliases,
    rules: &[Option<Rule>; 2],
    subtags: &Subtags,
) -> Result<(), Fault> {
    for row in rules {
        if let Some(rule) = row {
            aliases.push_language(StrStrPair(
                text(alloc, subtags, &rule.source)?,
                text(alloc, subtags, &rule.replacement)?,
            ))?;
        }
    }
    Ok(())
}

fn put_languages(
    alloc: Global,
    aliases: &mut Aliases,
    rules: &Rules,
    subtags: &Subtags,
) -> Result<(), Fault> {
    for row in &rules.sgn_region {
        if let Some((region, language)) = row {
            aliases.insert_sgn_region(*region, *language)?;
        }
    }
    for row in &rules.language_len2 {
        if let Some((language, alias)) = row {
            aliases.insert_language_len2(*language, text(alloc, subtags, alias)?)?;
        }
    }
    for row in &rules.language_len3 {
        if let Some((language, alias)) = row {
            aliases.insert_language_len3(*language, text(alloc, subtags, alias)?)?;
        }
    }
    Ok(())
}

fn put_subtags(aliases: &mut Aliases, rules: &Rules) -> Result<(), Fault> {
    for row in &rules.script {
        if let Some((script, alias)) = row {
            aliases.insert_script(*script, *alias)?;
        }
    }
    for row in &rules.region_alpha {
        if let Some((region, alias)) = row {
            aliases.insert_region_alpha(*region, *alias)?;
        }
    }
    for row in &rules.region_num {
        if let Some((region, alias)) = row {
            aliases.insert_region_num(*region, *alias)?;
        }
    }
    Ok(())
}

fn regions(alloc: Global, regions: &Regions) -> Result<Vec<Region>, AllocError> {
    let mut list = Vec::new(alloc);
    for row in &regions.0 {
        if let Some(region) = row {
            list.push(*region)?;
        }
    }
    Ok(list)
}

// The variant of a mark.
fn variant(subtags: &Subtags, mark: Mark) -> Variant {
    for (variant, other) in subtags.variants.iter().zip(&MARKS) {
        if *other == mark.0 {
            return *variant;
        }
    }
    subtags.variants[0]
}

fn put_lists(
    alloc: Global,
    aliases: &mut Aliases,
    rules: &Rules,
    subtags: &Subtags,
) -> Result<(), Fault> {
    for row in &rules.complex_region {
        if let Some((region, list)) = row {
            aliases.insert_complex_region(*region, regions(alloc, list)?)?;
        }
    }
    for row in &rules.variant {
        if let Some((from, to)) = row {
            aliases.insert_variant(variant(subtags, *from), variant(subtags, *to))?;
        }
    }
    Ok(())
}

fn put_values(alloc: Global, aliases: &mut Aliases, rows: &[ValueRow]) -> Result<(), Fault> {
    for (subdivision, text) in rows {
        aliases.insert_subdivision(*subdivision, String::from_str(alloc, text.text())?)?;
    }
    Ok(())
}

/// Puts the rules of a world into a table.
pub fn put_all(
    alloc: Global,
    aliases: &mut Aliases,
    rules: &Rules,
    values: &[ValueRow],
    subtags: &Subtags,
) -> Result<(), Fault> {
    put_variant_rules(alloc, aliases, &rules.language_variants, subtags)?;
    put_rules(alloc, aliases, &rules.language, subtags)?;
    put_languages(alloc, aliases, rules, subtags)?;
    put_subtags(aliases, rules)?;
    put_lists(alloc, aliases, rules, subtags)?;
    put_values(alloc, aliases, values)
}
