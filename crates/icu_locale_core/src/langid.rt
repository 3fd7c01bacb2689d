//! Identifiers: a language, a script, a region and variants.
ghost use Rattle.std.specs.Prelude.{◌≡◌, ◌⊎◌, ◌≤◌, ◌++◌, codes, take, slice_index_or, [], true, Some, Err, IsOk, IfOk, IfErr, OnOk, OnErr};
ghost use Rattle.std.specs.List.{flat_map, list_any};
ghost use Rattle.std.specs.Str.{IsUtf8};
ghost use Rattle.icu_locale_core.specs.Identifier.{IsIdentifier, ReadsIdentifier, written};
ghost use Rattle.icu_locale_core.specs.Readings.{read_front, after_front, front_variants};
ghost use Rattle.icu_locale_core.specs.Subtag.{is_language, is_variant};
ghost use Rattle.icu_locale_core.specs.TextSet.{rising, empty};
ghost use Rattle.icu_locale_core.specs.inner.Identifiers.{head};

use crate::pieces::Pieces;
use crate::reader::{read_front, read_identifier};
use crate::text_sink::{TextSink, write_after_dash};
use crate::{Language, ParseError, Region, Script, Variants};
use std::alloc::{AllocError, Global};
use std::fmt;

/// An identifier (unicode_language_id of UTS #35, section 3.1): a language, a script or none, a region or none, and
/// variants.
///
/// Equality, order and hash go by language, script, region and the rising list of variants, an absent part first.
#[derive(PartialEq, Eq, PartialOrd, Ord, Hash, Debug, Drop)]
pub struct LanguageIdentifier {
    /// The language, `und` where it is not known.
    pub language: Language,
    /// The script, if any.
    pub script: Option<Script>,
    /// The region, if any.
    pub region: Option<Region>,
    /// The variants.
    pub variants: Variants,
}

impl LanguageIdentifier {
    /// Reads an identifier in any case, with its variants in any order. It takes memory for variants alone.
    ///
    /// # Errors
    ///
    /// - `InvalidLanguage` exactly where the first piece of the text is no language.
    /// - `InvalidSubtag` where a later piece is none of an identifier, or a variant comes twice.
    /// - `Memory` only for a text that has a variant, and never in place of `InvalidLanguage`.
    pub fn try_from_str(alloc: Global, text: &str) -> Result<Self, ParseError>
        ensures { ReadsIdentifier text.now result }
    {
        LanguageIdentifier::try_from_utf8(alloc, text.as_bytes())
    }

    /// Reads an identifier as `try_from_str` does. A byte past ASCII belongs to no subtag.
    ///
    /// # Errors
    ///
    /// Those of `try_from_str`.
    pub fn try_from_utf8(alloc: Global, text: &[u8]) -> Result<Self, ParseError>
        ensures { ReadsIdentifier text.now result }
    {
        read_identifier(alloc, Pieces::new(text))
    }

    /// Reads the identifier at the front of pieces, and leaves the first that is none of it. It takes memory
    /// for variants alone.
    ///
    /// # Errors
    ///
    /// - `InvalidLanguage` exactly where the first piece is no language.
    /// - `InvalidSubtag` where a variant comes twice.
    /// - `Memory` only where there is a variant, and never in place of `InvalidLanguage`.
    ///
    /// The pieces are as they were then.
    #[inline(always)]
    pub fn read_front(alloc: Global, pieces: &mut Pieces<'_>) -> Result<Self, ParseError>
        ensures read { (result ≡ Err ParseError.Memory) ⊎ (result ≡ read_front pieces.old) }
        ensures rest { OnOk result (pieces.new ≡ after_front pieces.old) }
        ensures language { result ≡ Err ParseError.Memory
            → is_language (slice_index_or pieces.old 0 []) ≡ true }
        ensures memory { result ≡ Err ParseError.Memory
            → list_any is_variant (front_variants pieces.old) ≡ true }
        ensures unchanged { OnErr result (pieces.new ≡ pieces.old) }
    {
        let mut rest = pieces.duplicate();
        let id = read_front(alloc, &mut rest)?;
        *pieces = rest;
        Ok(id)
    }

    /// Nothing, but that each subtag belongs to its class and is in its written case.
    pub fn known(&self)
        ensures { IsIdentifier self.now }
    {
        let _ = self.language.as_str();
        if let Some(script) = &self.script {
            let _ = script.as_str();
        }
        if let Some(region) = &self.region {
            let _ = region.as_str();
        }
        self.variants.known();
    }

    /// Appends the written form to a text: what Display writes. It takes memory where the text has no room for it.
    ///
    /// # Errors
    ///
    /// `Memory` where the text could not grow. It is as it was then.
    #[inline]
    pub fn append_to(&self, text: &mut Vec<u8>) -> Result<(), ParseError>
        ensures appended { OnOk result (text.new.items ≡ text.old.items ++ written self.now) }
        ensures refused { IfErr result (λ e. e ≡ ParseError.Memory) }
        ensures unchanged { OnErr result (text.new.items ≡ text.old.items) }
    {
        let before = text.as_slice().len();
        match self.write_to(text) {
            Ok(()) => Ok(()),
            Err(_) => {
                text.truncate(before);
                Err(ParseError::Memory)
            }
        }
    }

    /// Writes the written form to a sink.
    ///
    /// # Errors
    ///
    /// That of the sink, which has a part of the text then.
    #[inline]
    pub fn write_to<S: TextSink>(&self, sink: &mut S) -> fmt::Result
        ensures { S.Writes sink.old (written self.now) result sink.new }
    {
        let mut buffer = [0; 14];
        let end = put_head(self, &mut buffer);
        sink.write_front(&buffer, end)?;
        write_variants(&self.variants, sink)
    }

    /// An equal identifier. Without variants it takes no memory.
    ///
    /// # Errors
    ///
    /// `Memory` where the variants could not be copied.
    pub fn try_clone(&self) -> Result<Self, ParseError>
        ensures same { IfOk result (λ x. x ≡ self.now) }
        ensures refused { IfErr result (λ e. e ≡ ParseError.Memory) }
        ensures free { self.now.variants ≡ empty → IsOk result }
    {
        Ok(LanguageIdentifier {
            language: self.language,
            script: self.script,
            region: self.region,
            variants: self.variants.try_clone()?,
        })
    }
}

impl fmt::Display for LanguageIdentifier {
    ghost output = { λ x. Some (written x) };

    fn fmt<W: fmt::Write>(&self, f: &mut fmt::Formatter<W>) -> fmt::Result {
        self.write_to(f)
    }
}

// Appends the front of a buffer to a text. Where there is room for all of the buffer, it goes in one move of a fixed
// size, and what follows the front is cut off again.
#[inline(always)]
pub(crate) fn append_front(
    text: &mut Vec<u8>,
    buffer: &[u8; 14],
    end: usize,
) -> Result<(), AllocError>
    requires { end ≤ 14 }
    ensures appended { OnOk result (text.new.items ≡ text.old.items ++ take end buffer.now) }
    ensures unchanged { OnErr result (text.new.items ≡ text.old.items) }
{
    let before = text.len();
    if text.capacity() - before < buffer.len() {
        return text.extend_from_slice(&buffer[..end]);
    }
    text.extend_from_slice(buffer)?;
    text.truncate(before + end);
    Ok(())
}

// Puts the language, the script and the region into a buffer, with `-` between them, and tells where they end.
#[inline(always)]
fn put_head(x: &LanguageIdentifier, buffer: &mut [u8; 14]) -> usize
    ensures text { take result buffer.new ≡ head x.now }
    ensures within { result ≤ 14 }
    ensures plain { IsUtf8 (take result buffer.new) }
{
    let mut end = x.language.put(buffer, 0);
    if let Some(script) = &x.script {
        end = script.put_after_dash(buffer, end);
    }
    if let Some(region) = &x.region {
        end = region.put_after_dash(buffer, end);
    }
    end
}

// Each variant in rising order, with `-` before it.
fn write_variants<S: TextSink>(variants: &Variants, sink: &mut S) -> fmt::Result
    ensures { S.Writes sink.old (flat_map (λ v. codes "-" ++ v) (rising variants.now))
        result sink.new }
{
    for variant in variants.iter() {
        write_after_dash(variant.as_str(), sink)?;
    }
    Ok(())
}
