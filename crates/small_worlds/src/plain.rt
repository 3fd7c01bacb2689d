//! Identifiers, plainly.
use crate::fault::Fault;
use crate::numbers::{Drawn, Numbers};
use crate::subtags::Subtags;
use icu_locale_core::{Language, LanguageIdentifier, Region, Script, Variants};
use icu_provider::DataLocale;
use std::alloc::Global;

/// The sets of one variant each.
pub const MARKS: [u8; 3] = [1, 2, 4];

/// An identifier of a world: its variants are those of the three whose bits are set.
#[derive(Clone, Copy, Debug, PartialEq, Eq)]
pub struct Plain {
    pub language: Language,
    pub script: Option<Script>,
    pub region: Option<Region>,
    pub variants: u8,
}

impl Plain {
    /// A language alone.
    pub fn of_language(language: Language) -> Plain {
        Plain {
            language,
            script: None,
            region: None,
            variants: 0,
        }
    }

    /// Without variants.
    pub fn without_variants(&self) -> Plain {
        Plain {
            language: self.language,
            script: self.script,
            region: self.region,
            variants: 0,
        }
    }

    /// Without the script and the region that are not known.
    pub fn bare(&self, subtags: &Subtags) -> Plain {
        Plain {
            language: self.language,
            script: known(self.script, subtags.scripts[0]),
            region: known(self.region, subtags.regions[0]),
            variants: self.variants,
        }
    }

    /// As the crates hold it.
    pub fn held(&self, alloc: Global, subtags: &Subtags) -> Result<LanguageIdentifier, Fault> {
        let mut list = Vec::new(alloc);
        for (variant, mark) in subtags.variants.iter().zip(&MARKS) {
            if self.variants & *mark != 0 {
                list.push(*variant)?;
            }
        }
        Ok(LanguageIdentifier {
            language: self.language,
            script: self.script,
            region: self.region,
            variants: Variants::try_from_list(list)?,
        })
    }

    /// As the crates hold it without its variants.
    pub fn locale(&self) -> DataLocale {
        DataLocale {
            language: self.language,
            script: self.script,
            region: self.region,
        }
    }

    /// Whether the crates hold the same.
    pub fn is_held_as(&self, held: &LanguageIdentifier, subtags: &Subtags) -> bool {
        self.language == held.language
            && self.script == held.script
            && self.region == held.region
            && self.variants == marks_of(held, subtags)
    }
}

impl Drawn for Plain {
    fn draw(numbers: &mut Numbers, subtags: &Subtags) -> Plain {
        let mut variants = 0;
        for mark in MARKS {
            if numbers.is_chosen() && numbers.is_chosen() {
                variants |= mark;
            }
        }
        Plain {
            language: Language::draw(numbers, subtags),
            script: Option::draw(numbers, subtags),
            region: Option::draw(numbers, subtags),
            variants,
        }
    }
}

fn known<T: Copy + PartialEq>(subtag: Option<T>, unknown: T) -> Option<T> {
    if subtag == Some(unknown) {
        None
    } else {
        subtag
    }
}

// The bits of the variants of an identifier; a bit of none where one is of no world.
fn marks_of(held: &LanguageIdentifier, subtags: &Subtags) -> u8 {
    let mut marks = 0;
    for variant in held.variants.iter() {
        marks |= mark_of(&subtags.variants, &variant);
    }
    marks
}

fn mark_of<V: PartialEq>(variants: &[V; 3], variant: &V) -> u8 {
    for (other, mark) in variants.iter().zip(&MARKS) {
        if other == variant {
            return *mark;
        }
    }
    128
}

/// Every identifier of the worlds with a set of variants.
pub fn everyone(subtags: &Subtags, variants: u8) -> [Plain; 48] {
    let mut all = [Plain::of_language(subtags.languages[0]); 48];
    for place in 0..48 {
        all[place] = Plain {
            language: subtags.languages[place / 16 % 3],
            script: none_or_one(&subtags.scripts, place / 4 % 4),
            region: none_or_one(&subtags.regions, place % 4),
            variants,
        };
    }
    all
}

// None at first, and then one of three.
fn none_or_one<T: Copy>(three: &[T; 3], place: usize) -> Option<T> {
    three.get(place.checked_sub(1)?).copied()
}
