//! Sets of texts, as sorted lists.
ghost use Rattle.std.specs.Prelude.{◌≡◌, map, string_bytes};
ghost use Rattle.icu_locale_core.specs.TextSet.{contains, from_list, text_cmp};

use std::cmp::Ordering;
use std::marker::Model;

/// A set of texts, in a sorted list. No call here takes memory.
#[derive(Debug)]
pub struct ExemplarStrings {
    texts: Vec<String>,
}

impl Drop for ExemplarStrings {
    fn drop(self) {
        let ExemplarStrings { texts: _ } = self;
    }
}

impl Model for ExemplarStrings {
    ghost use Rattle.std.specs.Prelude.{map, string_bytes};
    ghost use Rattle.std.specs.List.Sorted.{IsSortedByKey};
    ghost use Rattle.icu_locale_core.specs.TextSet.{TextSet, from_list, text_cmp, text_set_code};

    ghost Value = { TextSet };

    ghost coded = { text_set_code };

    ghost view = { λ s. from_list (map string_bytes s.texts.items) };

    ghost invariant = { λ s. IsSortedByKey string_bytes text_cmp s.texts.items };
}

impl ExemplarStrings {
    /// The set of the texts of a list.
    pub fn new(mut texts: Vec<String>) -> Self
        ensures { result ≡ from_list (map string_bytes texts.items) }
    {
        texts.sort_unstable();
        ExemplarStrings { texts }
    }

    /// Whether the text is one of them, found by binary search.
    pub fn contains(&self, text: &str) -> bool
        ensures { result ≡ contains self.now text.now }
    {
        let found = self.texts.binary_search_by(
            |member: &String| -> Ordering
                ensures { result ≡ text_cmp (string_bytes member.now) text.entry.now }
            { member.as_str().cmp(text) },
        );
        found.is_ok()
    }
}
