//! Keys with marks.
ghost use Rattle.std.specs.Prelude.{◌≡◌, ◌↔◌, ℕ, true, option_copied};
ghost use Rattle.icu_locale_core.specs.Numbers.{IsNumberOf, IsPairNumber};
ghost use Rattle.icu_locale_core.specs.TextSet.{text_cmp};
ghost use Rattle.icu_locale_core.specs.laws.Numbers.{number_cmp, pairs_ordered};
ghost use Rattle.icu_provider.specs.SortedMaps.{pair_cmp};
ghost use Rattle.icu_provider.specs.Marks.{mixed, name_mark, number_if_any};
ghost use Rattle.icu_provider.specs.laws.Marks.{numbers_are_marks, names_have_marks};
ghost use Rattle.std.specs.declared.cmp.Ordering.TheVariants.{Equal};
ghost use Rattle.icu_locale_core.specs.Maps.{value_at};

use crate::laws::{equality_is_told, requests_in_order};
use crate::{NameKey, SortedMap};
use icu_locale_core::{Language, Numbered, Region, Script, Subtag, Variant};
use std::cmp::Ord;

/// A key that has a mark: a number that equal keys share.
pub trait Marked: Ord {
    ghost IsMark: { Self → ℕ → Type 0 };

    /// The mark of the key. It takes no memory.
    fn mark(&self) -> u64
        ensures { IsMark self.now result };

    /// Whether the keys are equal. It takes no memory.
    fn is(&self, other: &Self) -> bool
        ensures { (result ≡ true) ↔ (Self.cmp self.now other.now ≡ Equal) };

    /// The value at the key of a map, found by binary search. It takes no memory.
    fn find<'m, V>(map: &'m SortedMap<Self, V>, key: &Self) -> Option<&'m V>
        ensures { option_copied result ≡ value_at Self.cmp map.now key.now };

    ghost shared: { (x y : Self) (m n : ℕ) → Self.cmp x y ≡ Equal
        → IsMark x m → IsMark y n → m ≡ n };
}

impl Marked for Language {
    ghost IsMark = { IsNumberOf 4 };

    #[inline(always)]
    fn mark(&self) -> u64 {
        self.number()
    }

    #[inline(always)]
    fn is(&self, other: &Language) -> bool {
        has_number(self, other)
    }

    fn find<'m, V>(map: &'m SortedMap<Language, V>, key: &Language) -> Option<&'m V> {
        map.get_numbered(key)
    }

    ghost shared = { numbers_are_marks (IsNumberOf 4) (text_cmp) (number_cmp 4) };
}

impl Marked for Script {
    ghost IsMark = { IsNumberOf 4 };

    #[inline(always)]
    fn mark(&self) -> u64 {
        self.number()
    }

    #[inline(always)]
    fn is(&self, other: &Script) -> bool {
        has_number(self, other)
    }

    fn find<'m, V>(map: &'m SortedMap<Script, V>, key: &Script) -> Option<&'m V> {
        map.get_numbered(key)
    }

    ghost shared = { numbers_are_marks (IsNumberOf 4) (text_cmp) (number_cmp 4) };
}

impl Marked for Region {
    ghost IsMark = { IsNumberOf 4 };

    #[inline(always)]
    fn mark(&self) -> u64 {
        self.number()
    }

    #[inline(always)]
    fn is(&self, other: &Region) -> bool {
        has_number(self, other)
    }

    fn find<'m, V>(map: &'m SortedMap<Region, V>, key: &Region) -> Option<&'m V> {
        map.get_numbered(key)
    }

    ghost shared = { numbers_are_marks (IsNumberOf 4) (text_cmp) (number_cmp 4) };
}

impl Marked for Variant {
    ghost IsMark = { IsNumberOf 8 };

    #[inline(always)]
    fn mark(&self) -> u64 {
        self.number()
    }

    #[inline(always)]
    fn is(&self, other: &Variant) -> bool {
        has_number(self, other)
    }

    fn find<'m, V>(map: &'m SortedMap<Variant, V>, key: &Variant) -> Option<&'m V> {
        map.get_numbered(key)
    }

    ghost shared = { numbers_are_marks (IsNumberOf 8) (text_cmp) (number_cmp 8) };
}

impl Marked for Subtag {
    ghost IsMark = { IsNumberOf 8 };

    #[inline(always)]
    fn mark(&self) -> u64 {
        self.number()
    }

    #[inline(always)]
    fn is(&self, other: &Subtag) -> bool {
        has_number(self, other)
    }

    fn find<'m, V>(map: &'m SortedMap<Subtag, V>, key: &Subtag) -> Option<&'m V> {
        map.get_numbered(key)
    }

    ghost shared = { numbers_are_marks (IsNumberOf 8) (text_cmp) (number_cmp 8) };
}

impl Marked for (Language, Script) {
    ghost IsMark = { IsPairNumber };

    #[inline(always)]
    fn mark(&self) -> u64 {
        self.number()
    }

    #[inline(always)]
    fn is(&self, other: &(Language, Script)) -> bool {
        has_number(self, other)
    }

    fn find<'m, V>(
        map: &'m SortedMap<(Language, Script), V>,
        key: &(Language, Script),
    ) -> Option<&'m V> {
        map.get_numbered(key)
    }

    ghost shared = { numbers_are_marks (IsPairNumber) (pair_cmp) (pairs_ordered) };
}

impl Marked for (Language, Region) {
    ghost IsMark = { IsPairNumber };

    #[inline(always)]
    fn mark(&self) -> u64 {
        self.number()
    }

    #[inline(always)]
    fn is(&self, other: &(Language, Region)) -> bool {
        has_number(self, other)
    }

    fn find<'m, V>(
        map: &'m SortedMap<(Language, Region), V>,
        key: &(Language, Region),
    ) -> Option<&'m V> {
        map.get_numbered(key)
    }

    ghost shared = { numbers_are_marks (IsPairNumber) (pair_cmp) (pairs_ordered) };
}

impl Marked for (Script, Region) {
    ghost IsMark = { IsPairNumber };

    #[inline(always)]
    fn mark(&self) -> u64 {
        self.number()
    }

    #[inline(always)]
    fn is(&self, other: &(Script, Region)) -> bool {
        has_number(self, other)
    }

    fn find<'m, V>(
        map: &'m SortedMap<(Script, Region), V>,
        key: &(Script, Region),
    ) -> Option<&'m V> {
        map.get_numbered(key)
    }

    ghost shared = { numbers_are_marks (IsPairNumber) (pair_cmp) (pairs_ordered) };
}

impl Marked for NameKey {
    ghost IsMark = { λ key m. m ≡ name_mark key };

    #[inline(always)]
    fn mark(&self) -> u64 {
        match *self {
            NameKey::Language(language, script, region) => mixed(
                mixed(language.number(), script_number(script)),
                region_number(region),
            ),
            NameKey::Script(script) => script.number(),
            NameKey::Region(region) => region.number(),
            NameKey::Variant(variant) => variant.number(),
        }
    }

    #[inline(always)]
    fn is(&self, other: &NameKey) -> bool {
        equality_is_told();
        requests_in_order();
        self == other
    }

    fn find<'m, V>(map: &'m SortedMap<NameKey, V>, key: &NameKey) -> Option<&'m V> {
        map.get(key)
    }

    ghost shared = { names_have_marks };
}

// Whether two keys have one number.
#[inline(always)]
fn has_number<K: Numbered>(key: &K, other: &K) -> bool
    ensures { (result ≡ true) ↔ (K.cmp key.now other.now ≡ Equal) }
{
    key.number() == other.number()
}

// Two numbers as one.
#[inline(always)]
fn mixed(first: u64, second: u64) -> u64
    ensures { result ≡ mixed first second }
{
    first.wrapping_mul(31).wrapping_add(second)
}

// The number of a script, if there is one.
#[inline(always)]
fn script_number(script: Option<Script>) -> u64
    ensures { result ≡ number_if_any script }
{
    match script {
        Some(script) => script.number(),
        None => 0,
    }
}

// The number of a region, if there is one.
#[inline(always)]
fn region_number(region: Option<Region>) -> u64
    ensures { result ≡ number_if_any region }
{
    match region {
        Some(region) => region.number(),
        None => 0,
    }
}
