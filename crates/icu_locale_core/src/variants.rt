//! The variants of an identifier: a set.
ghost use Rattle.std.specs.Prelude.{◌≡◌, ◌↔◌, IsTrue, IsOk, IfOk, IfErr, true, ℕ, List, ◌++◌, nat_eq};
ghost use Rattle.std.proofs.Common.{rules};
ghost use Rattle.std.proofs.lemmas.Slice.Eq.{bytes_eq-Decides};
ghost use Rattle.std.specs.Cmp.{partial_order_from_own_ties};
ghost use Rattle.std.specs.Cmp.Lexicographic.{pointwise, slice_cmp};
ghost use Rattle.std.specs.Cmp.Rules.{comparing};
ghost use Rattle.std.specs.Iterator.{YieldsFirst, item_count};
ghost use Rattle.std.specs.List.{All};
ghost use Rattle.std.specs.List.Sorted.{IsStrictlySortedBy};
ghost use Rattle.std.specs.Ordering.{as_partial_cmp, on};
ghost use Rattle.icu_locale_core.specs.Subtag.{IsVariant};
ghost use Rattle.icu_locale_core.specs.TextSet.{text_cmp, empty, contains, from_list, rising, len, is_subset, union, difference, TextSet, text_set_code};
ghost use Rattle.icu_locale_core.specs.inner.Variants.{HasAllAbove, least, behind, IsVariantList};
ghost use Rattle.icu_locale_core.specs.laws.TextSets.{is_among, text_lists_ties};
ghost use Rattle.std.specs.Hash as fed;

use crate::{ParseError, Variant};
use std::alloc::Global;
use std::cmp::Ordering;
use std::fmt;
use std::hash::{Hash, Hasher};
use std::marker::Model;

/// The variants of an identifier, each once and in no order (unicode_variant_subtag of UTS #35, section 3.1).
///
/// They are in a sorted list, so that a look-up is a binary search. Only `try_replaced` and `try_clone` take memory.
#[derive(Drop)]
pub struct Variants {
    items: Vec<Variant>,
}

impl Model for Variants {
    ghost Value = { TextSet };

    ghost coded = { text_set_code };

    ghost view = { λ a. from_list a.items.items };

    ghost invariant = { λ a. IsVariantList a.items.items };
}

impl Variants {
    /// The set without variants.
    pub fn new(alloc: Global) -> Self
        ensures { result ≡ empty }
    {
        Variants {
            items: Vec::new(alloc),
        }
    }

    /// The set of the variants of a list, where repeats fall together. It takes no memory and refuses no list.
    pub fn try_from_list(mut list: Vec<Variant>) -> Result<Self, ParseError>
        ensures accepted { IsOk result }
        ensures members { IfOk result (λ s. s ≡ from_list list.items) }
    {
        know_each(&list);
        list.sort_unstable();
        list.dedup();
        Ok(Variants { items: list })
    }

    /// How many variants there are.
    pub fn len(&self) -> usize
        ensures { result ≡ len self.now }
    {
        self.as_slice().len()
    }

    /// Whether there are none.
    pub fn is_empty(&self) -> bool
        ensures { IsTrue result ↔ (self.now ≡ empty) }
    {
        self.as_slice().is_empty()
    }

    /// Whether the variant is one of them.
    pub fn contains(&self, variant: &Variant) -> bool
        ensures { result ≡ contains self.now variant.now }
    {
        self.as_slice().binary_search(variant).is_ok()
    }

    /// The variants in rising order.
    pub fn iter(&self) -> VariantsIter<'_>
        ensures { result ≡ rising self.now }
    {
        VariantsIter {
            rest: self.as_slice(),
        }
    }

    /// Nothing, but that every member is a variant in its written case.
    pub fn known(&self)
        ensures { (v : List ℕ) → contains self.now v ≡ true → IsVariant v }
    {
        let _ = &self.items;
    }

    /// Whether every one of them is one of the others.
    pub fn is_subset(&self, others: &Variants) -> bool
        ensures { result ≡ is_subset self.now others.now }
    {
        let mut rest = others.as_slice();
        for variant in self.as_slice() {
            let (later, is_there) = past(rest, variant);
            if !is_there {
                return false;
            }
            rest = later;
        }
        true
    }

    /// Those that are not `removed`, together with those that are `added`. Where that is none it takes no memory.
    ///
    /// # Errors
    ///
    /// `Memory` where the list of variants could not be made.
    pub fn try_replaced(&self, removed: &Variants, added: &Variants) -> Result<Self, ParseError>
        ensures members { IfOk result (λ s. s
            ≡ union (difference self.now removed.now) added.now) }
        ensures refused { IfErr result (λ e. e ≡ ParseError.Memory) }
        ensures free { union (difference self.now removed.now) added.now ≡ empty → IsOk result }
    {
        let alloc = *self.items.allocator();
        let kept = self.without(alloc, removed)?;
        let items = merged(alloc, &kept, added.as_slice())?;
        know_each(&items);
        Ok(Variants { items })
    }

    // The list of those that are not `removed`, rising.
    fn without(&self, alloc: Global, removed: &Variants) -> Result<Vec<Variant>, ParseError>
        ensures list { IfOk result (λ list. list.items
            ≡ rising (difference self.now removed.now)) }
        ensures refused { IfErr result (λ e. e ≡ ParseError.Memory) }
        ensures free { difference self.now removed.now ≡ empty → IsOk result }
    {
        let mut list = Vec::new(alloc);
        let mut rest = removed.as_slice();
        for variant in self.as_slice() {
            let (later, is_removed) = past(rest, variant);
            rest = later;
            if is_removed {
                continue;
            }
            list.push(*variant)?;
        }
        Ok(list)
    }

    // The list behind the set.
    fn as_slice(&self) -> &[Variant]
        ensures { result.now ≡ rising self.now }
    {
        &self.items
    }

    /// An equal set. Without variants it takes no memory.
    ///
    /// # Errors
    ///
    /// `Memory` where the list of variants could not be copied.
    pub fn try_clone(&self) -> Result<Self, ParseError>
        ensures same { IfOk result (λ s. s ≡ self.now) }
        ensures refused { IfErr result (λ e. e ≡ ParseError.Memory) }
        ensures free { self.now ≡ empty → IsOk result }
    {
        if self.is_empty() {
            return Ok(Variants::new(*self.items.allocator()));
        }
        Ok(Variants {
            items: Vec::from_slice(*self.items.allocator(), &self.items)?,
        })
    }
}

impl PartialEq for Variants {
    ghost eq = { on rising (pointwise (pointwise nat_eq)) };

    ghost laws = { Prim.search (comparing, rules) };

    fn eq(&self, other: &Self) -> bool {
        self.as_slice() == other.as_slice()
    }
}

impl Eq for Variants {
    ghost laws = { Prim.search (comparing, rules) };
}

impl PartialOrd for Variants {
    ghost partial_cmp = { as_partial_cmp (on rising (slice_cmp text_cmp)) };

    ghost laws = { partial_order_from_own_ties (Prim.search (comparing, rules)) text_lists_ties };

    fn partial_cmp(&self, other: &Self) -> Option<Ordering> {
        Some(self.cmp(other))
    }
}

impl Ord for Variants {
    ghost cmp = { on rising (slice_cmp text_cmp) };

    ghost total = { Prim.search (comparing, rules) };

    ghost matches_partial_cmp = { Prim.search (comparing, rules) };

    ghost matches_eq = { text_lists_ties };

    fn cmp(&self, other: &Self) -> Ordering {
        self.as_slice().cmp(other.as_slice())
    }
}

impl Hash for Variants {
    ghost hash_input = { λ s. fed.slice fed.str (rising s) };

    ghost respects_eq = { λ s u h.
        (fed.items_Alike (fed.same_Alike fed.str (λ x y. bytes_eq-Decides x y))).fed
        (rising s) (rising u) h };

    fn hash<H: Hasher>(&self, state: &mut H) {
        self.as_slice().hash(state);
    }
}

impl fmt::Debug for Variants {
    fn fmt<W: fmt::Write>(&self, f: &mut fmt::Formatter<W>) -> fmt::Result {
        fmt::Debug::fmt(self.as_slice(), f)
    }
}

// What follows a variant in a rising list, and whether it is there.
fn past<'a>(mut list: &'a [Variant], variant: &Variant) -> (&'a [Variant], bool)
    requires { IsStrictlySortedBy text_cmp list.now }
    ensures there { result.1 ≡ is_among variant.now list.now }
    ensures later { HasAllAbove variant.now list.now result.0.now }
    ensures rises { IsStrictlySortedBy text_cmp result.0.now }
{
    while let Some((first, rest)) = list.split_first() {
        match first.cmp(variant) {
            Ordering::Less => list = rest,
            Ordering::Equal => return (rest, true),
            Ordering::Greater => return (list, false),
        }
    }
    (list, false)
}

// The variants of two rising lists in one rising list, each once.
fn merged<'a>(
    alloc: Global,
    mut left: &'a [Variant],
    mut right: &'a [Variant],
) -> Result<Vec<Variant>, ParseError>
    requires left { IsStrictlySortedBy text_cmp left.now }
    requires right { IsStrictlySortedBy text_cmp right.now }
    ensures list { IfOk result (λ list. list.items
        ≡ rising (from_list (left.now ++ right.now))) }
    ensures refused { IfErr result (λ e. e ≡ ParseError.Memory) }
    ensures free { from_list (left.now ++ right.now) ≡ empty → IsOk result }
{
    let mut list = Vec::new(alloc);
    while let Some(next) = least(left, right) {
        list.push(next)?;
        left = behind(left, &next);
        right = behind(right, &next);
    }
    Ok(list)
}

// The lesser of the first variants of two lists, if there is one.
fn least(left: &[Variant], right: &[Variant]) -> Option<Variant>
    ensures { result ≡ least left.now right.now }
{
    match (left.first(), right.first()) {
        (Some(first), Some(other)) => Some(if other < first { *other } else { *first }),
        (Some(first), None) => Some(*first),
        (None, Some(other)) => Some(*other),
        (None, None) => None,
    }
}

// A list without its first variant, where that is this one.
fn behind<'a>(list: &'a [Variant], variant: &Variant) -> &'a [Variant]
    ensures { result.now ≡ behind variant.now list.now }
{
    match list.split_first() {
        Some((first, rest)) if variant == first => rest,
        _ => list,
    }
}

// Every variant of a list is one.
fn know_each(list: &[Variant])
    ensures { All IsVariant list.now }
{
    for variant in list {
        let _ = variant.as_str();
    }
}

/// A walk through variants in rising order.
#[derive(Debug, Drop)]
pub struct VariantsIter<'a> {
    rest: &'a [Variant],
}

impl<'a> Model for VariantsIter<'a> {
    ghost Value = { List (List ℕ) };

    ghost view = { λ a. a.rest.now };
}

impl<'a> Iterator for VariantsIter<'a> {
    type Item = Variant;

    ghost next_gives = { YieldsFirst (λ s. s) };

    ghost remaining = { item_count (λ s. s) };

    fn next(&mut self) -> Option<Variant> {
        let (first, rest) = self.rest.split_first()?;
        self.rest = rest;
        Some(*first)
    }
}
