//! The text of a name, appended to a text in one walk.
ghost use Rattle.std.specs.Prelude.{◌≡◌, ◌≢◌, ◌∷◌, [], map, true, false, OnErr, IfOk};
ghost use Rattle.std.specs.List.{flat_map};
ghost use Rattle.icu_provider.specs.Names.{part_of};
ghost use Rattle.icu_locale_names.specs.LanguageNames.{joined};
ghost use Rattle.icu_locale_names.specs.LentNames.{pieces_of};
ghost use Rattle.icu_locale_names.specs.inner.Appended.{AddsPieces, IsGrown, Joins, filled_in, qualifiers_of};
ghost use Rattle.icu_locale_names.specs.Shown.{piece_of, lent_piece, lent_pieces};
ghost use Rattle.icu_locale_names.specs.Walk.{qualifier_pieces};

use crate::language::{LanguageIdentifierDisplayNameBorrowed, Qualifiers};
use crate::shown::{LentPiece, Shown};
use icu_locale_core::Variant;
use icu_provider::PatternItem;
use std::alloc::AllocError;

// Of qualifiers that follow a text: whether there is one, and whether one is a raw subtag.
#[derive(Clone, Copy, Debug)]
pub struct Joined {
    pub is_any: bool,
    pub is_raw: bool,
}

// The text of a name, appended to a text, and whether a raw subtag is in it.
pub fn append_name(
    name: &LanguageIdentifierDisplayNameBorrowed<'_>,
    text: &mut Vec<u8>,
) -> Result<bool, AllocError>
    ensures added { IfOk result
        (AddsPieces (pieces_of name.now) text.old.items text.new.items) }
    ensures part { OnErr result (IsGrown text.old.items text.new.items) }
{
    if has_qualifier(name) {
        append_pattern(name, text)
    } else {
        append_piece(name.parts.base.lend(), text)
    }
}

// Whether something follows the base.
fn has_qualifier(name: &LanguageIdentifierDisplayNameBorrowed<'_>) -> bool
    ensures none { result ≡ false → qualifiers_of name.now ≡ [] }
    ensures some { result ≡ true → qualifiers_of name.now ≢ [] }
{
    name.parts.extension.is_some()
        || name.parts.script.is_some()
        || name.parts.region.is_some()
        || !name.variants.is_empty()
}

// The pattern, filled item by item.
fn append_pattern(
    name: &LanguageIdentifierDisplayNameBorrowed<'_>,
    text: &mut Vec<u8>,
) -> Result<bool, AllocError>
    ensures added { IfOk result (AddsPieces
        (flat_map (filled_in name.now) (map part_of name.now.pattern.now))
        text.old.items text.new.items) }
    ensures part { OnErr result (IsGrown text.old.items text.new.items) }
{
    let mut is_raw = false;
    for item in name.pattern {
        let more = append_item(name, item, text)?;
        is_raw |= more;
    }
    Ok(is_raw)
}

// What an item of the pattern stands for.
fn append_item(
    name: &LanguageIdentifierDisplayNameBorrowed<'_>,
    item: &PatternItem,
    text: &mut Vec<u8>,
) -> Result<bool, AllocError>
    ensures added { IfOk result
        (AddsPieces (filled_in name.now (part_of item.now)) text.old.items text.new.items) }
    ensures part { OnErr result (IsGrown text.old.items text.new.items) }
{
    match item {
        PatternItem::Literal(literal) => {
            text.extend_from_slice(literal.as_bytes())?;
            Ok(false)
        }
        PatternItem::First => append_piece(name.parts.base.lend(), text),
        PatternItem::Second => append_qualifiers(&name.qualifiers(), name.separator, text),
    }
}

// Qualifiers, with the separator between each two.
fn append_qualifiers(
    qualifiers: &Qualifiers<'_>,
    separator: &str,
    text: &mut Vec<u8>,
) -> Result<bool, AllocError>
    ensures added { IfOk result (AddsPieces
        (joined separator.now (qualifier_pieces qualifiers.now)) text.old.items text.new.items) }
    ensures part { OnErr result (IsGrown text.old.items text.new.items) }
{
    let none = Joined {
        is_any: false,
        is_raw: false,
    };
    let extension = append_if_any(text, separator, qualifiers.extension, none)?;
    let script = append_if_any(text, separator, qualifiers.script, extension)?;
    let region = append_if_any(text, separator, qualifiers.region, script)?;
    let all = append_each(text, separator, qualifiers.variants, region)?;
    Ok(all.is_raw)
}

// Qualifiers, each after those before it.
fn append_each(
    text: &mut Vec<u8>,
    separator: &str,
    qualifiers: &[Shown<'_, Variant>],
    before: Joined,
) -> Result<Joined, AllocError>
    ensures joined { IfOk result (Joins separator.now (map piece_of qualifiers.now)
        text.old.items before text.new.items) }
    ensures part { OnErr result (IsGrown text.old.items text.new.items) }
{
    let mut so_far = before;
    for shown in qualifiers {
        so_far = append_next(text, separator, shown.lend(), so_far)?;
    }
    Ok(so_far)
}

// A qualifier, if there is one.
#[inline(always)]
fn append_if_any(
    text: &mut Vec<u8>,
    separator: &str,
    piece: Option<LentPiece<'_>>,
    before: Joined,
) -> Result<Joined, AllocError>
    ensures joined { IfOk result (Joins separator.now (lent_pieces piece.entry)
        text.old.items before text.new.items) }
    ensures part { OnErr result (IsGrown text.old.items text.new.items) }
{
    match piece {
        Some(piece) => append_next(text, separator, piece, before),
        None => Ok(before),
    }
}

// A qualifier: after a separator, unless it is the first.
fn append_next(
    text: &mut Vec<u8>,
    separator: &str,
    piece: LentPiece<'_>,
    before: Joined,
) -> Result<Joined, AllocError>
    ensures joined { IfOk result (Joins separator.now (lent_piece piece.entry ∷ [])
        text.old.items before text.new.items) }
    ensures part { OnErr result (IsGrown text.old.items text.new.items) }
{
    if before.is_any {
        text.extend_from_slice(separator.as_bytes())?;
    }
    let is_raw = append_piece(piece, text)?;
    Ok(Joined {
        is_any: true,
        is_raw: before.is_raw || is_raw,
    })
}

// A piece, and whether it is a raw subtag.
#[inline(always)]
fn append_piece(piece: LentPiece<'_>, text: &mut Vec<u8>) -> Result<bool, AllocError>
    ensures added { IfOk result
        (AddsPieces (lent_piece piece.entry ∷ []) text.old.items text.new.items) }
    ensures part { OnErr result (IsGrown text.old.items text.new.items) }
{
    text.extend_from_slice(piece.text.as_bytes())?;
    Ok(piece.is_raw)
}
