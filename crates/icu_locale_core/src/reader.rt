//! The reader of identifiers, piece by piece from the left.
ghost use Rattle.std.specs.Prelude.{OnOk, MatchOption, IfSome, ◌≡◌, ◌⊎◌, true, [], slice_index_or, Err};
ghost use Rattle.std.specs.List.{list_any};
ghost use Rattle.icu_locale_core.specs.Cuts.{front, from, other_than, optional_subtag, after_optional_subtag};
ghost use Rattle.icu_locale_core.specs.Readings.{read_variants, read_pieces, read_front, read_after, after_front, after_head, front_variants, set_of_once};
ghost use Rattle.icu_locale_core.specs.Subtag.{is_language, is_script, is_region, is_variant, titlecase, uppercase, lowercase};

use crate::pieces::Pieces;
use crate::{Language, LanguageIdentifier, ParseError, Region, Script, Variant, Variants};
use std::alloc::Global;

pub fn read_identifier(
    alloc: Global,
    mut pieces: Pieces<'_>,
) -> Result<LanguageIdentifier, ParseError>
    ensures read { (result ≡ Err ParseError.Memory) ⊎ (result ≡ read_pieces pieces.entry) }
    ensures language { result ≡ Err ParseError.Memory
        → is_language (slice_index_or pieces.entry 0 []) ≡ true }
    ensures memory { result ≡ Err ParseError.Memory
        → list_any is_variant pieces.entry ≡ true }
{
    let Some(language) = pieces.next().and_then(Language::try_from_bytes) else {
        return Err(ParseError::InvalidLanguage);
    };
    let script = read_script(&mut pieces);
    let region = read_region(&mut pieces);
    let variants = read_variants(alloc, pieces)?;
    Ok(LanguageIdentifier {
        language,
        script,
        region,
        variants,
    })
}

#[inline(always)]
fn read_script(pieces: &mut Pieces<'_>) -> Option<Script>
    ensures read { result ≡ optional_subtag is_script titlecase pieces.old }
    ensures rest { pieces.new ≡ after_optional_subtag is_script pieces.old }
{
    let script = Script::try_from_bytes(pieces.peek()?)?;
    let _ = pieces.next();
    Some(script)
}

#[inline(always)]
fn read_region(pieces: &mut Pieces<'_>) -> Option<Region>
    ensures read { result ≡ optional_subtag is_region uppercase pieces.old }
    ensures rest { pieces.new ≡ after_optional_subtag is_region pieces.old }
{
    let region = Region::try_from_bytes(pieces.peek()?)?;
    let _ = pieces.next();
    Some(region)
}

// The set of all pieces, where each is a variant and none comes twice.
#[tactic(auto, using(crate::proofs::Readings::no_pieces))]
fn read_variants(alloc: Global, pieces: Pieces<'_>) -> Result<Variants, ParseError>
    ensures read { (result ≡ Err ParseError.Memory) ⊎ (result ≡ read_variants pieces.entry) }
    ensures memory { result ≡ Err ParseError.Memory
        → list_any is_variant pieces.entry ≡ true }
{
    if pieces.peek().is_none() {
        return Ok(Variants::new(alloc));
    }
    let mut list = Vec::new(alloc);
    for piece in pieces {
        match Variant::try_from_bytes(piece) {
            Some(variant) => list.push(variant)?,
            None => return Err(ParseError::InvalidSubtag),
        }
    }
    set_of_once(list)
}

// Reads the identifier at the front of pieces, and leaves the first that is none of it.
#[inline(always)]
pub fn read_front(alloc: Global, pieces: &mut Pieces<'_>) -> Result<LanguageIdentifier, ParseError>
    ensures read { (result ≡ Err ParseError.Memory) ⊎ (result ≡ read_front pieces.old) }
    ensures rest { OnOk result (pieces.new ≡ after_front pieces.old) }
    ensures language { result ≡ Err ParseError.Memory
        → is_language (slice_index_or pieces.old 0 []) ≡ true }
    ensures memory { result ≡ Err ParseError.Memory
        → list_any is_variant (front_variants pieces.old) ≡ true }
{
    let Some(language) = next_language(pieces) else {
        return Err(ParseError::InvalidLanguage);
    };
    let script = read_script(pieces);
    let region = read_region(pieces);
    let variants = read_front_variants(alloc, pieces)?;
    Ok(LanguageIdentifier {
        language,
        script,
        region,
        variants,
    })
}

// The language, which comes first.
#[inline(always)]
fn next_language(pieces: &mut Pieces<'_>) -> Option<Language>
    ensures read { MatchOption result (read_front pieces.old ≡ Err ParseError.InvalidLanguage)
        (λ l. read_front pieces.old ≡ read_after l pieces.new) }
    ensures language { IfSome result (λ l. is_language (slice_index_or pieces.old 0 []) ≡ true) }
    ensures rest { IfSome result (λ l. after_front pieces.old
        ≡ from (other_than is_variant) (after_head pieces.new)) }
    ensures variants { IfSome result (λ l. front_variants pieces.old
        ≡ front (other_than is_variant) (after_head pieces.new)) }
{
    let language = Language::try_from_bytes(pieces.peek()?)?;
    let _ = pieces.next();
    Some(language)
}

// The set of the variants at the front, where none comes twice.
#[inline(always)]
#[tactic(auto, using(crate::specs::laws::Fronts::taken_are))]
fn read_front_variants(alloc: Global, pieces: &mut Pieces<'_>) -> Result<Variants, ParseError>
    ensures read { (result ≡ Err ParseError.Memory)
        ⊎ (result ≡ read_variants (front (other_than is_variant) pieces.old)) }
    ensures rest { OnOk result (pieces.new ≡ from (other_than is_variant) pieces.old) }
    ensures memory { result ≡ Err ParseError.Memory
        → list_any is_variant (front (other_than is_variant) pieces.old) ≡ true }
{
    let Some(first) = next_variant(pieces) else {
        return Ok(Variants::new(alloc));
    };
    let mut list = Vec::new(alloc);
    list.push(first)?;
    'pieces: while let Some(variant) = next_variant(pieces) {
        list.push(variant)?;
    }
    set_of_once(list)
}

#[inline(always)]
fn next_variant(pieces: &mut Pieces<'_>) -> Option<Variant>
    ensures read { result ≡ optional_subtag is_variant lowercase pieces.old }
    ensures rest { pieces.new ≡ after_optional_subtag is_variant pieces.old }
{
    let variant = Variant::try_from_bytes(pieces.peek()?)?;
    let _ = pieces.next();
    Some(variant)
}

// The set of a list, where none comes twice.
fn set_of_once(list: Vec<Variant>) -> Result<Variants, ParseError>
    ensures { result ≡ set_of_once list.items }
{
    let count = list.len();
    let variants = Variants::try_from_list(list)?;
    if variants.len() == count {
        Ok(variants)
    } else {
        Err(ParseError::InvalidSubtag)
    }
}
