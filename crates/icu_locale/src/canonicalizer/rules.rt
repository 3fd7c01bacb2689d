//! The rules of canonicalization, read of a table of aliases.
ghost use Rattle.std.specs.Prelude.{◌≡◌};
ghost use Rattle.icu_locale.specs.RuleSet.{lent, rules_over};

use icu_locale_core::{Language, LanguageIdentifier, Subtag, Value};
use icu_provider::{Aliases, NotedMap, RowList};
use std::alloc::Global;
use std::marker::Model;

/// A rule: what it matches, and what it replaces that by (UTS #35 Part 1, Annex C).
#[derive(Debug, Drop)]
pub struct Rule {
    /// What the rule matches.
    pub source: LanguageIdentifier,
    /// What replaces it.
    pub replacement: LanguageIdentifier,
}

/// What rules own: what was read of the texts of a table of aliases. Texts are read once: a row that cannot be read is
/// left out. It borrows no table.
///
/// A program that owns its tables cannot keep a canonicalizer beside them, since a canonicalizer borrows them. It keeps
/// this, which `ReadRules::read` makes, and lends it with its tables at each call, as a `CanonicalizerRef`. That takes
/// no memory and moves nothing.
#[derive(Debug)]
pub struct ReadRules {
    /// The rules for identifiers without variants, in order.
    pub language: RowList<Rule>,
    /// The rules for identifiers with variants, in order.
    pub language_variants: RowList<Rule>,
    /// The replacements of languages of two letters.
    pub language_len2: NotedMap<Language, LanguageIdentifier>,
    /// The replacements of languages of three letters.
    pub language_len3: NotedMap<Language, LanguageIdentifier>,
    /// The values that replace subdivisions.
    pub subdivision: NotedMap<Subtag, Value>,
    /// What makes empty sets.
    pub alloc: Global,
}

impl Drop for ReadRules {
    fn drop(self) {
        let ReadRules {
            language: _,
            language_variants: _,
            language_len2: _,
            language_len3: _,
            subdivision: _,
            alloc: _,
        } = self;
    }
}

/// The rules of a table of aliases (UTS #35 Part 1, Annex C): what was read of it, and the table.
///
/// Contracts see the lists that were read and the table, as one `RuleSet`.
#[derive(Debug)]
pub struct Rules<'d> {
    /// What was read of the table.
    pub read: ReadRules,
    /// The table, whose other maps hold no texts.
    pub aliases: &'d Aliases,
}

impl<'d> Model for Rules<'d> {
    ghost use Rattle.std.specs.Coded.{codes};
    ghost use Rattle.icu_locale_core.specs.TextSet.{text_set_code};
    ghost use Rattle.icu_locale.specs.RuleSet.{RuleSet, rules_over};

    ghost Value = { RuleSet };

    ghost coded = { Prim.hlevel (codes, text_set_code) };

    ghost view = { λ r. rules_over r.read r.aliases.now };
}

impl<'d> Drop for Rules<'d> {
    fn drop(self) {
        let Rules {
            read: _,
            aliases: _,
        } = self;
    }
}

impl<'d> Rules<'d> {
    /// The rules, lent. It takes no memory.
    #[inline(always)]
    pub fn lend(&self) -> RulesRef<'_>
        ensures { lent result ≡ self.now }
    {
        RulesRef {
            read: &self.read,
            aliases: self.aliases,
        }
    }

    // What the rules own.
    pub(super) fn into_read(self) -> ReadRules
        ensures { rules_over result self.entry.aliases ≡ self.entry }
    {
        let Rules { read, aliases: _ } = self;
        read
    }
}

/// Rules that are lent: what was read of a table of aliases, and the table, whoever owns each. By `lent` contracts see
/// the same of them as of the `Rules` that own what was read.
#[derive(Clone, Copy, Debug)]
pub struct RulesRef<'r> {
    /// What was read of the table.
    pub read: &'r ReadRules,
    /// The table, whose other maps hold no texts.
    pub aliases: &'r Aliases,
}
