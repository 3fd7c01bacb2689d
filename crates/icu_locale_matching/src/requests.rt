//! Ranges as requests, and canonical forms.
ghost use Rattle.std.specs.Prelude.{◌≡◌, ◌↔◌, IsTrue, ◌++◌, ◌∷◌, [], List, map, false, IsOk, IfOk, IfErr, OnOk};
ghost use Rattle.icu_locale_core.specs.TextSet.{empty};
ghost use Rattle.icu_locale.specs.Canonical.{without_extensions};
ghost use Rattle.icu_locale.specs.Cost.{NeedsNoMemory};
ghost use Rattle.icu_locale.specs.Kinds.{next};
ghost use Rattle.icu_locale.specs.LikelyTable.{likely};
ghost use Rattle.icu_locale.specs.Refusals.{IsMemory};
ghost use Rattle.icu_locale.specs.RuleSet.{lent};
ghost use Rattle.icu_locale_extensions.specs.Built.{bare};
ghost use Rattle.icu_locale_matching.specs.Header.{Wish, shown};
ghost use Rattle.icu_locale_matching.specs.Requests.{Asks, AreAsked, IsOnly, IsTag, IsBrought, IsCanonicalOf, AreCanonical};
ghost use Rattle.icu_locale_matching.specs.inner.Added.{IsAdded, IsIdentifierOf};

use crate::header::LentWish;
use icu_locale::{CanonicalizeError, CanonicalizerRef};
use icu_locale_core::{LanguageIdentifier, ParseError};
use icu_locale_extensions::LocaleIdentifier;
use std::alloc::{AllocError, Global};

// What wishes ask for, each by its range: those without extensions, where `bare_alone`.
pub(crate) fn asked_by(
    alloc: Global,
    rules: &CanonicalizerRef<'_>,
    wishes: &[LentWish<'_>],
    bare_alone: bool,
) -> Result<Vec<LanguageIdentifier>, AllocError>
    ensures { IfOk result (λ list. AreAsked (Asks bare_alone (likely rules.now.expander)
        (lent rules.now.rules)) (map shown wishes.now) list.items) }
{
    let mut list = Vec::with_capacity(alloc, wishes.len())?;
    for wish in wishes {
        add_asked(alloc, rules, &mut list, wish, bare_alone)?;
    }
    Ok(list)
}

// Appends what a wish asks for, if anything, to a list.
fn add_asked(
    alloc: Global,
    rules: &CanonicalizerRef<'_>,
    list: &mut Vec<LanguageIdentifier>,
    wish: &LentWish<'_>,
    bare_alone: bool,
) -> Result<(), AllocError>
    ensures { OnOk result (IsAdded (Asks bare_alone (likely rules.now.expander)
        (lent rules.now.rules) wish.now.range.now) list.old.items list.new.items) }
{
    match asked_of(alloc, rules, wish.range, bare_alone) {
        Ok(Some(id)) => Ok(list.push(id)?),
        Ok(None) => Ok(()),
        Err(error) => Err(error),
    }
}

// What a range asks for: the canonical form of its identifier, or that as it is where the rules come to no end.
fn asked_of(
    alloc: Global,
    rules: &CanonicalizerRef<'_>,
    range: &[u8],
    bare_alone: bool,
) -> Result<Option<LanguageIdentifier>, AllocError>
    ensures { IfOk result (IsOnly (Asks bare_alone (likely rules.now.expander)
        (lent rules.now.rules) range.now)) }
{
    let mut id = match identifier_in(alloc, range, bare_alone) {
        Ok(Some(id)) => id,
        Ok(None) => return Ok(None),
        Err(error) => return Err(error),
    };
    match bring(rules, &mut id) {
        Ok(_) => Ok(Some(id)),
        Err(error) => Err(error),
    }
}

// The identifier of the tag that a range is, if it is one. Most are identifiers alone, and are read as such.
fn identifier_in(
    alloc: Global,
    range: &[u8],
    bare_alone: bool,
) -> Result<Option<LanguageIdentifier>, AllocError>
    ensures { IfOk result (IsOnly (IsIdentifierOf bare_alone range.now)) }
{
    // a law for the proof: no code runs
    icu_locale_extensions::laws::identifiers_read_alike();
    match LanguageIdentifier::try_from_utf8(alloc, range) {
        Ok(id) => Ok(Some(id)),
        Err(ParseError::Memory) => Err(AllocError),
        Err(_) => identifier_of_tag(alloc, range, bare_alone),
    }
}

// The same of any tag. One with extensions is none, where `bare_alone`.
fn identifier_of_tag(
    alloc: Global,
    range: &[u8],
    bare_alone: bool,
) -> Result<Option<LanguageIdentifier>, AllocError>
    ensures { IfOk result (IsOnly (IsIdentifierOf bare_alone range.now)) }
{
    // a law for the proof: no code runs
    icu_locale_extensions::laws::spelled_once_by();
    let tag = match read_tag(alloc, range) {
        Ok(Some(tag)) => tag,
        Ok(None) => return Ok(None),
        Err(error) => return Err(error),
    };
    if bare_alone && !is_plain(&tag) {
        return Ok(None);
    }
    Ok(Some(identifier_of(tag)))
}

// Whether a locale identifier has no extensions and no private use.
fn is_plain(tag: &LocaleIdentifier) -> bool
    ensures { IsTrue result ↔ (tag.now ≡ bare tag.now.locale.id) }
{
    if !tag.locale.extensions.unicode.keywords.is_empty() {
        return false;
    }
    if tag.locale.extensions.transform.lang.is_some() {
        return false;
    }
    if !tag.attributes.is_empty() {
        return false;
    }
    if !tag.fields.is_empty() {
        return false;
    }
    if !tag.others.is_empty() {
        return false;
    }
    tag.private_use.is_none()
}

fn identifier_of(tag: LocaleIdentifier) -> LanguageIdentifier
    ensures { result ≡ tag.locale.id }
{
    tag.locale.id
}

// The tag that a range is, if it is one.
fn read_tag(alloc: Global, range: &[u8]) -> Result<Option<LocaleIdentifier>, AllocError>
    ensures { IfOk result (IsOnly (IsTag range.now)) }
{
    // a law for the proof: no code runs
    icu_locale_extensions::laws::refusals_are_faults();
    match LocaleIdentifier::try_from_bcp47(alloc, range) {
        Ok(tag) => Ok(Some(tag)),
        Err(ParseError::Memory) => Err(AllocError),
        Err(ParseError::InvalidLanguage) => Ok(None),
        Err(ParseError::InvalidSubtag) => Ok(None),
    }
}

// Brings an identifier to its canonical form, if it has one, and tells whether it has.
fn bring(rules: &CanonicalizerRef<'_>, id: &mut LanguageIdentifier) -> Result<bool, AllocError>
    ensures brought { IfOk result (λ ends. IsBrought (likely rules.now.expander)
        (lent rules.now.rules) id.old ends id.new) }
    ensures free { NeedsNoMemory (likely rules.now.expander) (lent rules.now.rules)
        (without_extensions id.old) → IsOk result }
{
    match rules.canonicalize_identifier(id) {
        Ok(_) => Ok(true),
        Err(error) => no_end(error),
    }
}

// False, unless memory was refused.
fn no_end(error: CanonicalizeError) -> Result<bool, AllocError>
    ensures told { IfOk result (λ ends. (ends ≡ false) × ¬ (IsMemory error)) }
    ensures refused { IfErr result (λ _. IsMemory error) }
{
    match error {
        CanonicalizeError::Memory => Err(AllocError),
        CanonicalizeError::NoFixedPoint(_) => Ok(false),
        CanonicalizeError::NoSubdivisionFixedPoint(_) => Ok(false),
    }
}

// Whether each of some identifiers is its own canonical form.
pub(crate) fn are_canonical(
    rules: &CanonicalizerRef<'_>,
    identifiers: &[LanguageIdentifier],
) -> bool
    ensures { IsTrue result → AreCanonical (likely rules.now.expander) (lent rules.now.rules)
        identifiers.now identifiers.now }
{
    for id in identifiers {
        if !rules.is_canonical(id) {
            return false;
        }
    }
    true
}

// The canonical forms of identifiers.
pub(crate) fn canonical_forms(
    alloc: Global,
    rules: &CanonicalizerRef<'_>,
    identifiers: &[LanguageIdentifier],
) -> Result<Vec<LanguageIdentifier>, AllocError>
    ensures { IfOk result (λ list. AreCanonical (likely rules.now.expander) (lent rules.now.rules)
        identifiers.now list.items) }
{
    let mut list = Vec::with_capacity(alloc, identifiers.len())?;
    for id in identifiers {
        list.push(canonical_form(rules, id)?)?;
    }
    Ok(list)
}

// The canonical form of an identifier, or that identifier as it is.
fn canonical_form(
    rules: &CanonicalizerRef<'_>,
    id: &LanguageIdentifier,
) -> Result<LanguageIdentifier, AllocError>
    ensures canonical { IfOk result
        (IsCanonicalOf (likely rules.now.expander) (lent rules.now.rules) id.now) }
    ensures free { id.now.variants ≡ empty → NeedsNoMemory (likely rules.now.expander)
        (lent rules.now.rules) (without_extensions id.now) → IsOk result }
{
    let mut copy = match id.try_clone() {
        Ok(copy) => copy,
        Err(_) => return Err(AllocError),
    };
    match bring(rules, &mut copy) {
        Ok(_) => Ok(copy),
        Err(error) => Err(error),
    }
}
