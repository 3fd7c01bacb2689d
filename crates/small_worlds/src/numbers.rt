//! A fixed sequence of numbers, and what is drawn from it.
use crate::subtags::Subtags;
use icu_locale_core::{Language, Region, Script, Subtag};
use rand::RngExt;
use rand_pcg::Pcg32;

/// The numbers that are left.
#[derive(Drop)]
pub struct Numbers {
    generator: Pcg32,
}

impl Numbers {
    /// All of them.
    pub fn new() -> Numbers {
        Numbers {
            generator: Pcg32::new(42, 54),
        }
    }

    /// Nought, one or two.
    pub fn place(&mut self) -> usize {
        self.generator.random_range(0..3)
    }

    /// Whether something that comes one time in three comes now.
    pub fn is_chosen(&mut self) -> bool {
        self.generator.random_ratio(1, 3)
    }

    /// One of three.
    pub fn one_of<T: Copy>(&mut self, three: &[T; 3]) -> T {
        three[self.generator.random_range(0..3)]
    }
}

/// What a world is made of.
pub trait Drawn: Drop {
    /// The next one.
    fn draw(numbers: &mut Numbers, subtags: &Subtags) -> Self;
}

impl Drawn for bool {
    fn draw(numbers: &mut Numbers, _subtags: &Subtags) -> bool {
        numbers.is_chosen()
    }
}

impl Drawn for Language {
    fn draw(numbers: &mut Numbers, subtags: &Subtags) -> Language {
        numbers.one_of(&subtags.languages)
    }
}

impl Drawn for Script {
    fn draw(numbers: &mut Numbers, subtags: &Subtags) -> Script {
        numbers.one_of(&subtags.scripts)
    }
}

impl Drawn for Region {
    fn draw(numbers: &mut Numbers, subtags: &Subtags) -> Region {
        numbers.one_of(&subtags.regions)
    }
}

impl Drawn for Subtag {
    fn draw(numbers: &mut Numbers, subtags: &Subtags) -> Subtag {
        numbers.one_of(&subtags.subdivisions)
    }
}

impl<A: Drawn> Drawn for Option<A> {
    fn draw(numbers: &mut Numbers, subtags: &Subtags) -> Option<A> {
        if numbers.is_chosen() {
            None
        } else {
            Some(A::draw(numbers, subtags))
        }
    }
}

impl<A: Drawn, B: Drawn> Drawn for (A, B) {
    fn draw(numbers: &mut Numbers, subtags: &Subtags) -> (A, B) {
        (A::draw(numbers, subtags), B::draw(numbers, subtags))
    }
}

impl<A: Drawn, B: Drawn, C: Drawn> Drawn for (A, B, C) {
    fn draw(numbers: &mut Numbers, subtags: &Subtags) -> (A, B, C) {
        (
            A::draw(numbers, subtags),
            B::draw(numbers, subtags),
            C::draw(numbers, subtags),
        )
    }
}

impl<T: Drawn + Copy, const N: usize> Drawn for [T; N] {
    fn draw(numbers: &mut Numbers, subtags: &Subtags) -> [T; N] {
        let mut all = [T::draw(numbers, subtags); N];
        for place in 1..N {
            all[place] = T::draw(numbers, subtags);
        }
        all
    }
}

/// None, one or two of a kind.
pub fn draw_few<T: Drawn>(numbers: &mut Numbers, subtags: &Subtags) -> [Option<T>; 2] {
    match numbers.place() {
        0 => [None, None],
        1 => [Some(T::draw(numbers, subtags)), None],
        _ => [
            Some(T::draw(numbers, subtags)),
            Some(T::draw(numbers, subtags)),
        ],
    }
}
