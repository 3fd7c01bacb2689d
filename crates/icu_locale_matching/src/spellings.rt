//! Where identifiers stand in their own spelling.
ghost use Rattle.std.specs.Prelude.{◌≡◌, ◌+◌, ◌<◌, ◌≤◌, length, IsTrue, Some, None, IfOk, IfSome, OnOk};
ghost use Rattle.icu_locale_core.specs.TextSet.{empty};
ghost use Rattle.icu_locale_core.specs.declared.langid.LanguageIdentifier.{LanguageIdentifier as TheIdentifier};
ghost use Rattle.icu_locale_matching.specs.inner.Spelled.{key_of, place_at, AreSpelled};

use icu_locale_core::LanguageIdentifier;
use icu_provider::laws::requests_in_order;
use icu_provider::{DataLocale, NameKey, NotedMap};
use std::alloc::{AllocError, Global};

// The first place of each identifier without variants, at its key.
pub(crate) type Spellings = NotedMap<NameKey, usize>;

// The first place of each of these that has no variants.
pub(crate) fn spellings_of(
    alloc: Global,
    identifiers: &[LanguageIdentifier],
) -> Result<Spellings, AllocError>
    ensures { IfOk result (AreSpelled identifiers.now 0) }
{
    let mut rows = NotedMap::new(alloc);
    let mut place = identifiers.len();
    while place > 0 {
        place -= 1;
        put_place(&mut rows, identifiers, place)?;
    }
    match rows.note(alloc) {
        Ok(()) => Ok(rows),
        Err(_) => Err(AllocError),
    }
}

// Puts a place, where the later ones are known.
fn put_place(
    rows: &mut Spellings,
    identifiers: &[LanguageIdentifier],
    place: usize,
) -> Result<(), AllocError>
    requires { place < length identifiers.now }
    ensures { OnOk result (AreSpelled identifiers.now (place + 1) rows.old
        → AreSpelled identifiers.now place rows.new) }
{
    // a law for the proof: no code runs
    requests_in_order();
    let id = &identifiers[place];
    if !id.variants.is_empty() {
        return Ok(());
    }
    match rows.insert(key_of(id), place) {
        Ok(()) => Ok(()),
        Err(_) => Err(AllocError),
    }
}

// The key of an identifier.
#[inline(always)]
fn key_of(id: &LanguageIdentifier) -> NameKey
    ensures { result ≡ key_of id.now }
{
    NameKey::Language(id.language, id.script, id.region)
}

// The place that is noted for an identifier, if it has no variants.
#[inline(always)]
pub(crate) fn place_spelled(rows: &Spellings, id: &LanguageIdentifier) -> Option<usize>
    ensures noted { IfSome result (λ j. place_at rows.now id.now ≡ Some j) }
    ensures plain { IfSome result (λ j. id.now.variants ≡ empty) }
{
    if !id.variants.is_empty() {
        return None;
    }
    match rows.get(&key_of(id)) {
        Some(place) => Some(*place),
        None => None,
    }
}

// Whether an identifier has no variants, and no place is noted for it.
#[inline(always)]
pub(crate) fn is_unspelled(rows: &Spellings, id: &LanguageIdentifier) -> bool
    ensures plain { IsTrue result → id.now.variants ≡ empty }
    ensures none { IsTrue result → place_at rows.now id.now ≡ None }
{
    if !id.variants.is_empty() {
        return false;
    }
    match rows.get(&key_of(id)) {
        Some(_) => false,
        None => true,
    }
}

// The place that is noted for the subtags of a form.
#[inline(always)]
pub(crate) fn place_formed(rows: &Spellings, form: &DataLocale) -> Option<usize>
    ensures { (x : TheIdentifier) → x.language ≡ form.now.language → x.script ≡ form.now.script
        → x.region ≡ form.now.region → result ≡ place_at rows.now x }
{
    match rows.get(&NameKey::Language(form.language, form.script, form.region)) {
        Some(place) => Some(*place),
        None => None,
    }
}
