//! Keys whose order is that of one number each.
ghost use Rattle.std.specs.Prelude.{◌≡◌, ◌<◌, ◌^◌, ℕ};
ghost use Rattle.std.specs.Ordering.{nat_cmp};
ghost use Rattle.icu_locale_core.specs.Numbers.{IsNumberOf, IsPairNumber};
ghost use Rattle.icu_locale_core.specs.laws.Numbers.{number_cmp, below_of_four, below_of_eight, below_of_pair, pairs_ordered};

use crate::tiny::TinyText;
use crate::{Language, Region, Script, Subtag, Variant};
use std::cmp::Ord;

/// A key with a number below 2^63. Keys are in the order of their numbers, so that a search compares numbers alone.
pub trait Numbered: Ord {
    ghost IsNumber: { Self → ℕ → Type 0 };

    /// The number of the key. It takes no memory.
    fn number(&self) -> u64
        ensures { IsNumber self.now result };

    ghost below: { (x : Self) (m : ℕ) → IsNumber x m → m < 2 ^ 63 };

    ghost ordered: { (x y : Self) (m n : ℕ) → IsNumber x m → IsNumber y n
        → nat_cmp m n ≡ Self.cmp x y };
}

impl Numbered for Language {
    ghost IsNumber = { IsNumberOf 4 };

    ghost below = { below_of_four };

    ghost ordered = { number_cmp 4 };

    #[inline(always)]
    fn number(&self) -> u64 {
        self.0.number()
    }
}

impl Numbered for Script {
    ghost IsNumber = { IsNumberOf 4 };

    ghost below = { below_of_four };

    ghost ordered = { number_cmp 4 };

    #[inline(always)]
    fn number(&self) -> u64 {
        self.0.number()
    }
}

impl Numbered for Region {
    ghost IsNumber = { IsNumberOf 4 };

    ghost below = { below_of_four };

    ghost ordered = { number_cmp 4 };

    #[inline(always)]
    fn number(&self) -> u64 {
        self.0.number()
    }
}

impl Numbered for Variant {
    ghost IsNumber = { IsNumberOf 8 };

    ghost below = { below_of_eight };

    ghost ordered = { number_cmp 8 };

    #[inline(always)]
    fn number(&self) -> u64 {
        self.0.number()
    }
}

impl Numbered for Subtag {
    ghost IsNumber = { IsNumberOf 8 };

    ghost below = { below_of_eight };

    ghost ordered = { number_cmp 8 };

    #[inline(always)]
    fn number(&self) -> u64 {
        self.0.number()
    }
}

impl Numbered for (Language, Script) {
    ghost IsNumber = { IsPairNumber };

    ghost below = { below_of_pair };

    ghost ordered = { pairs_ordered };

    #[inline(always)]
    fn number(&self) -> u64 {
        pair(&self.0.0, &self.1.0)
    }
}

impl Numbered for (Language, Region) {
    ghost IsNumber = { IsPairNumber };

    ghost below = { below_of_pair };

    ghost ordered = { pairs_ordered };

    #[inline(always)]
    fn number(&self) -> u64 {
        pair(&self.0.0, &self.1.0)
    }
}

impl Numbered for (Script, Region) {
    ghost IsNumber = { IsPairNumber };

    ghost below = { below_of_pair };

    ghost ordered = { pairs_ordered };

    #[inline(always)]
    fn number(&self) -> u64 {
        pair(&self.0.0, &self.1.0)
    }
}

// The number of a pair, that of the first text above that of the second.
#[inline(always)]
fn pair(first: &TinyText<4>, second: &TinyText<4>) -> u64
    ensures { IsPairNumber (first.now, second.now) result }
{
    first.number() * (1 << 32) + second.number()
}
