//! How the parts of a locale's name are put together (UTS #35 Part 2, "Locale Display Name Algorithm").
ghost use Rattle.std.specs.Prelude.{◌≡◌, map};
ghost use Rattle.icu_provider.specs.Names.{part_of};

use std::marker::Model;

/// An item of a pattern.
#[derive(Debug, Drop)]
pub enum PatternItem {
    /// A fixed text.
    Literal(String),
    /// The place of the first argument.
    First,
    /// The place of the second argument.
    Second,
}

/// A pattern of two placeholders, as those that put a name together (UTS #35 Part 2, "Locale Display Name Algorithm"):
/// any list of items. A contract sees what the items hold, in their order.
#[derive(Debug)]
pub struct DoublePlaceholderPattern {
    items: Vec<PatternItem>,
}

impl Drop for DoublePlaceholderPattern {
    fn drop(self) {
        let DoublePlaceholderPattern { items: _ } = self;
    }
}

impl Model for DoublePlaceholderPattern {
    ghost use Rattle.std.specs.Prelude.{List, map};
    ghost use Rattle.icu_provider.specs.Names.{PatternPart, part_of};

    ghost Value = { List PatternPart };

    ghost view = { λ pattern. map part_of pattern.items.items };
}

impl DoublePlaceholderPattern {
    /// The pattern of a list of items: any list, where each placeholder may come any number of times. It takes no
    /// memory.
    pub fn try_from_items(items: Vec<PatternItem>) -> Self
        ensures { result ≡ map part_of items.items }
    {
        DoublePlaceholderPattern { items }
    }

    /// The items in order. It takes no memory.
    pub fn items(&self) -> &[PatternItem]
        ensures { map part_of result.now ≡ self.now }
    {
        &self.items
    }
}

/// How the parts of a locale's name are put together (UTS #35 Part 2, "Locale Display Name Algorithm").
#[derive(Debug)]
pub struct LocaleNamesEssentials {
    /// A name and what follows it: the first argument is the name, and the second the qualifiers.
    pub locale_pattern: DoublePlaceholderPattern,
    /// What is between two qualifiers.
    pub locale_separator: DoublePlaceholderPattern,
}

impl Drop for LocaleNamesEssentials {
    fn drop(self) {
        let LocaleNamesEssentials {
            locale_pattern: _,
            locale_separator: _,
        } = self;
    }
}
