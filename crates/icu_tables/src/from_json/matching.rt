//! Rules of language matching.
ghost use Rattle.std.specs.Prelude.{◌≡◌, [], IfOk};
ghost use Rattle.icu_tables.specs.Puts.{put_all};
ghost use Rattle.icu_tables.specs.Supplement.{members_of, region_pattern, any_form};
ghost use Rattle.icu_tables.specs.inner.Further.{pattern_seen, rules_seen, matching_seen};

use crate::TableError;
use crate::from_json::locales::locale_named;
use crate::from_json::objects::{MemberReader, only_members, required};
use crate::from_json::rows::in_one_list;
use crate::from_json::values::FromValue;
use icu_locale_core::{Region, Script};
use icu_provider::{
    DataLocale, LanguageMatching, MatchPattern, MatchRule, MatchRules, RegionPattern, SortedMap,
};
use serde_json::Value;
use std::alloc::{AllocError, Global};
use std::cmp::Ord;
use std::collections::BTreeMap;

// A locale in written form.
impl FromValue for DataLocale {
    ghost use Rattle.icu_provider.specs.declared.data_locale.DataLocale.{DataLocale};
    ghost use Rattle.icu_tables.specs.Supplement.{locale};

    ghost Seen = { DataLocale };

    ghost seen = { λ x. x };

    ghost shape = { locale };

    fn from_value(_alloc: Global, value: &Value) -> Result<Self, TableError> {
        let Some(text) = value.as_str() else {
            return Err(TableError::Shape);
        };
        let Some(locale) = locale_named(text) else {
            return Err(TableError::Shape);
        };
        // the types within are named, since the borrow checker's proof is not made without
        let script: Option<Script> = locale.script;
        let region: Option<Region> = locale.region;
        Ok(DataLocale {
            language: locale.language,
            script,
            region,
        })
    }
}

// A distance.
impl FromValue for u16 {
    ghost use Rattle.std.specs.Prelude.{ℕ};
    ghost use Rattle.icu_tables.specs.Supplement.{distance};

    ghost Seen = { ℕ };

    ghost seen = { λ n. n };

    ghost shape = { distance };

    fn from_value(_alloc: Global, value: &Value) -> Result<Self, TableError> {
        match value.as_u64() {
            Some(number) if number <= 0xffff => Ok(number as u16),
            _ => Err(TableError::Shape),
        }
    }
}

// A set of regions.
impl FromValue for SortedMap<Region, ()> {
    ghost use Rattle.std.specs.Prelude.{List, ℕ};
    ghost use Rattle.icu_tables.specs.Supplement.{region_set};

    ghost Seen = { List (List ℕ × Unit {0}) };

    ghost seen = { λ set. set };

    ghost shape = { region_set };

    fn from_value(alloc: Global, value: &Value) -> Result<Self, TableError> {
        Ok(set_of(alloc, Vec::from_value(alloc, value)?)?)
    }
}

// The set of the keys of a list, where repeats fall together. No order of the keys costs more than a sort.
pub(crate) fn set_of<K: Ord + Drop>(
    alloc: Global,
    keys: Vec<K>,
) -> Result<SortedMap<K, ()>, AllocError>
    ensures { IfOk result (λ set. set ≡ put_all K.cmp [] (members_of keys.items)) }
{
    let mut rows = BTreeMap::new(alloc);
    for key in keys {
        let _ = rows.insert(key, ())?;
    }
    in_one_list(alloc, rows)
}

// The members of a pattern.
#[derive(Drop)]
pub(crate) struct PatternParts {
    pub(crate) script: Option<Script>,
    pub(crate) inside: Option<SortedMap<Region, ()>>,
    pub(crate) outside: Option<SortedMap<Region, ()>>,
}

impl FromValue for PatternParts {
    ghost use Rattle.icu_tables.specs.Supplement.{PatternRows, pattern_parts};

    ghost Seen = { PatternRows };

    ghost seen = { pattern_seen };

    ghost shape = { pattern_parts };

    fn from_value(alloc: Global, value: &Value) -> Result<Self, TableError> {
        only_members(value, &["script", "in", "not"])?;
        let mut parts = PatternParts {
            script: None,
            inside: None,
            outside: None,
        };
        MemberReader::of(alloc, value)
            .fill("script", &mut parts.script)
            .fill("in", &mut parts.inside)
            .fill("not", &mut parts.outside)
            .finish(parts)
    }
}

impl FromValue for MatchPattern {
    ghost use Rattle.icu_provider.specs.declared.matching.MatchPattern.{MatchPattern};
    ghost use Rattle.icu_tables.specs.Supplement.{pattern};

    ghost Seen = { MatchPattern };

    ghost seen = { λ p. p };

    ghost shape = { pattern };

    fn from_value(alloc: Global, value: &Value) -> Result<Self, TableError> {
        let parts = PatternParts::from_value(alloc, value)?;
        let script = parts.script;
        let region = region_pattern(parts.inside, parts.outside).ok_or(TableError::Shape)?;
        Ok(MatchPattern { script, region })
    }
}

// One set of regions at most.
pub(crate) fn region_pattern(
    inside: Option<SortedMap<Region, ()>>,
    outside: Option<SortedMap<Region, ()>>,
) -> Option<RegionPattern>
    ensures { result ≡ region_pattern inside outside }
{
    match (inside, outside) {
        (None, None) => Some(RegionPattern::Any),
        (Some(inside), None) => Some(RegionPattern::In(inside)),
        (None, Some(outside)) => Some(RegionPattern::NotIn(outside)),
        (Some(_), Some(_)) => None,
    }
}

impl FromValue for MatchRule {
    ghost use Rattle.icu_provider.specs.declared.matching.MatchRule.{MatchRule};
    ghost use Rattle.icu_tables.specs.Supplement.{match_rule};

    ghost Seen = { MatchRule };

    ghost seen = { λ rule. rule };

    ghost shape = { match_rule };

    fn from_value(alloc: Global, value: &Value) -> Result<Self, TableError> {
        only_members(value, &["language", "distance", "desired", "supported"])?;
        let language = required(alloc, value, "language")?;
        let distance = required(alloc, value, "distance")?;
        let mut rule = MatchRule {
            desired: any_form(),
            language,
            supported: any_form(),
            distance,
        };
        MemberReader::of(alloc, value)
            .fill("desired", &mut rule.desired)
            .fill("supported", &mut rule.supported)
            .finish(rule)
    }
}

// What fits any form.
pub(crate) fn any_form() -> MatchPattern
    ensures { result ≡ any_form }
{
    MatchPattern {
        script: None,
        region: RegionPattern::Any,
    }
}

impl FromValue for MatchRules {
    ghost use Rattle.icu_tables.specs.Supplement.{RuleRows, match_rules};

    ghost Seen = { RuleRows };

    ghost seen = { rules_seen };

    ghost shape = { match_rules };

    fn from_value(alloc: Global, value: &Value) -> Result<Self, TableError> {
        only_members(value, &["language", "script", "region"])?;
        let mut rules = MatchRules::new(alloc);
        MemberReader::of(alloc, value)
            .fill("language", &mut rules.language)
            .fill("script", &mut rules.script)
            .fill("region", &mut rules.region)
            .finish(rules)
    }
}

impl FromValue for LanguageMatching {
    ghost use Rattle.icu_tables.specs.Supplement.{MatchingRows, matching};

    ghost Seen = { MatchingRows };

    ghost seen = { matching_seen };

    ghost shape = { matching };

    fn from_value(alloc: Global, value: &Value) -> Result<Self, TableError> {
        only_members(value, &["others", "macros", "paradigms", "rules"])?;
        let others: (u16, u16, u16) = required(alloc, value, "others")?;
        let mut table = LanguageMatching::new(alloc, others.0, others.1, others.2);
        MemberReader::of(alloc, value)
            .fill("macros", &mut table.macros)
            .fill("paradigms", &mut table.paradigms)
            .fill("rules", &mut table.rules)
            .finish(table)
    }
}
