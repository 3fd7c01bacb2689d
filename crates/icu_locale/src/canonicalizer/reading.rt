//! Rules are read of the texts of a table, each text once.
ghost use Rattle.std.specs.Prelude.{◌≡◌, ◌++◌, [], IsOk, IfOk, IfErr, OnOk, MatchOption, true, false, map};
ghost use Rattle.std.specs.Option.{option_to_list};
ghost use Rattle.std.specs.List.{list_all};
ghost use Rattle.std.specs.String.{string_bytes};
ghost use Rattle.icu_locale_core.specs.Identifier.{has_variant};
ghost use Rattle.icu_locale_core.specs.TextSet.{from_list};
ghost use Rattle.icu_locale_core.specs.Value.{read_value};
ghost use Rattle.icu_locale.specs.Rules.{
  ReadsAs,
  ReadsRule,
  ReadsVariantRule,
  ReadsLanguage,
  ReadsSubdivision,
  is_lower_variant,
  pieces_of_variants,
  are_lower_variants,
  AreRead,
};

use super::rules::Rule;
use icu_locale_core::{Language, LanguageIdentifier, ParseError, Subtag, Value, Variant, Variants};
use icu_provider::{DataError, DataErrorKind, LanguageStrStrPair, StrStrPair};
use std::alloc::{AllocError, Global};

const OUT_OF_MEMORY: DataError = DataError {
    kind: DataErrorKind::Memory,
};

// A row of a table that is read as something, if it can be.
pub trait Readable {
    type Kept: Drop;

    ghost reads: { Self → Self.Kept → Type 0 };

    // Reading it asks for no memory.
    ghost is_free: { Self → Type 0 };

    fn read(&self, alloc: Global) -> Result<Option<Self::Kept>, DataError>
        ensures read { IfOk result (λ kept. MatchOption kept
            ((k : Self.Kept) → ¬ (reads self.now k)) (reads self.now)) }
        ensures refused { IfErr result (λ e. e.kind ≡ DataErrorKind.Memory) }
        ensures free { is_free self.now → IsOk result };
}

// What the rows are read as, in order, without those that cannot be read.
pub fn read_all<R: Readable>(alloc: Global, rows: &[R]) -> Result<Vec<R::Kept>, DataError>
    ensures read { IfOk result (λ kept. AreRead R.reads rows.now kept.items) }
    ensures refused { IfErr result (λ e. e.kind ≡ DataErrorKind.Memory) }
    ensures free { rows.now ≡ [] → IsOk result }
{
    let mut list = Vec::new(alloc);
    for row in rows {
        keep(&mut list, row.read(alloc)?)?;
    }
    Ok(list)
}

// Appends what was read to the list.
fn keep<K: Drop>(list: &mut Vec<K>, read: Option<K>) -> Result<(), DataError>
    ensures kept { OnOk result (list.new.items ≡ list.old.items ++ option_to_list read) }
    ensures refused { IfErr result (λ e. e.kind ≡ DataErrorKind.Memory) }
{
    match read {
        Some(kept) => Ok(list.push(kept)?),
        None => Ok(()),
    }
}

impl Readable for StrStrPair {
    type Kept = Rule;

    ghost reads = { ReadsRule };

    ghost is_free = { λ row. (has_variant (string_bytes row.0) ≡ false)
        × (has_variant (string_bytes row.1) ≡ false) };

    fn read(&self, alloc: Global) -> Result<Option<Rule>, DataError> {
        let Some(source) = read_identifier(alloc, self.0.as_str())? else {
            return Ok(None);
        };
        let Some(replacement) = read_identifier(alloc, self.1.as_str())? else {
            return Ok(None);
        };
        Ok(Some(Rule {
            source,
            replacement,
        }))
    }
}

impl Readable for LanguageStrStrPair {
    type Kept = Rule;

    ghost reads = { ReadsVariantRule };

    ghost is_free = { λ _. ⊥ };

    fn read(&self, alloc: Global) -> Result<Option<Rule>, DataError> {
        let Some(variants) = read_variants(alloc, self.1.as_str())? else {
            return Ok(None);
        };
        let Some(replacement) = read_identifier(alloc, self.2.as_str())? else {
            return Ok(None);
        };
        Ok(Some(Rule {
            source: LanguageIdentifier {
                language: self.0,
                script: None,
                region: None,
                variants,
            },
            replacement,
        }))
    }
}

impl Readable for (Language, String) {
    type Kept = (Language, LanguageIdentifier);

    ghost reads = { ReadsLanguage };

    ghost is_free = { λ row. has_variant (string_bytes row.1) ≡ false };

    fn read(&self, alloc: Global) -> Result<Option<(Language, LanguageIdentifier)>, DataError> {
        let Some(replacement) = read_identifier(alloc, self.1.as_str())? else {
            return Ok(None);
        };
        Ok(Some((self.0, replacement)))
    }
}

impl Readable for (Subtag, String) {
    type Kept = (Subtag, Value);

    ghost reads = { ReadsSubdivision };

    ghost is_free = { λ row. read_value (string_bytes row.1) ≡ [] };

    fn read(&self, alloc: Global) -> Result<Option<(Subtag, Value)>, DataError> {
        match Value::try_from_str(alloc, self.1.as_str()) {
            Ok(value) => Ok(Some((self.0, value))),
            Err(ParseError::InvalidSubtag) => Ok(None),
            Err(_) => Err(OUT_OF_MEMORY),
        }
    }
}

fn read_identifier(alloc: Global, text: &str) -> Result<Option<LanguageIdentifier>, DataError>
    ensures read { IfOk result (λ x. MatchOption x
        ((y : LanguageIdentifier) → ¬ (ReadsAs text.now y)) (ReadsAs text.now)) }
    ensures refused { IfErr result (λ e. e.kind ≡ DataErrorKind.Memory) }
    ensures free { has_variant text.now ≡ false → IsOk result }
{
    match LanguageIdentifier::try_from_str(alloc, text) {
        Ok(x) => Ok(Some(x)),
        Err(ParseError::Memory) => Err(OUT_OF_MEMORY),
        Err(_) => Ok(None),
    }
}

// The set of the pieces of a text, cut at `-`, where each is a variant in lower case.
fn read_variants(alloc: Global, text: &str) -> Result<Option<Variants>, DataError>
    ensures read { IfOk result (λ s. MatchOption s (are_lower_variants text.now ≡ false)
        (λ s. (are_lower_variants text.now ≡ true)
        × (s ≡ from_list (pieces_of_variants text.now)))) }
    ensures refused { IfErr result (λ e. e.kind ≡ DataErrorKind.Memory) }
{
    read_pieces(alloc, &variant_pieces(alloc, text)?)
}

fn variant_pieces(alloc: Global, text: &str) -> Result<Vec<&str>, AllocError>
    ensures { IfOk result
        (λ pieces. map (λ p. p.now) pieces.items ≡ pieces_of_variants text.now) }
{
    text.split('-').collect(alloc)
}

fn read_pieces(alloc: Global, pieces: &[&str]) -> Result<Option<Variants>, DataError>
    ensures read { IfOk result (λ s. MatchOption s
        (list_all is_lower_variant (map (λ p. p.now) pieces.now) ≡ false)
        (λ s. (list_all is_lower_variant (map (λ p. p.now) pieces.now) ≡ true)
        × (s ≡ from_list (map (λ p. p.now) pieces.now)))) }
    ensures refused { IfErr result (λ e. e.kind ≡ DataErrorKind.Memory) }
    ensures free { pieces.now ≡ [] → IsOk result }
{
    let mut list = Vec::new(alloc);
    for piece in pieces {
        let Some(variant) = read_variant(piece) else {
            return Ok(None);
        };
        list.push(variant)?;
    }
    match Variants::try_from_list(list) {
        Ok(variants) => Ok(Some(variants)),
        Err(_) => Err(OUT_OF_MEMORY),
    }
}

// The variant of a text in lower case.
fn read_variant(text: &str) -> Option<Variant>
    ensures { MatchOption result (is_lower_variant text.now ≡ false)
        (λ v. (is_lower_variant text.now ≡ true) × (v ≡ text.now)) }
{
    let variant = Variant::try_from_str(text).ok()?;
    if variant.as_str() == text {
        Some(variant)
    } else {
        None
    }
}
