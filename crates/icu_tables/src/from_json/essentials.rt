//! How the parts of names are put together.
ghost use Rattle.std.specs.Prelude.{◌≡◌, option_map};
ghost use Rattle.icu_provider.specs.Names.{part_of};
ghost use Rattle.icu_tables.specs.NamedRows.{place};

use crate::TableError;
use crate::from_json::objects::{only_members, required};
use crate::from_json::values::FromValue;
use icu_provider::{DoublePlaceholderPattern, LocaleNamesEssentials, PatternItem};
use serde_json::Value;
use std::alloc::Global;

impl FromValue for PatternItem {
    ghost use Rattle.icu_provider.specs.Names.{PatternPart, part_of};
    ghost use Rattle.icu_tables.specs.NamedRows.{pattern_item};

    ghost Seen = { PatternPart };

    ghost seen = { part_of };

    ghost shape = { pattern_item };

    fn from_value(alloc: Global, value: &Value) -> Result<Self, TableError> {
        if let Some(text) = value.as_str() {
            return Ok(PatternItem::Literal(String::from_str(alloc, text)?));
        }
        match value.as_u64() {
            Some(number) => placeholder(number).ok_or(TableError::Shape),
            None => Err(TableError::Shape),
        }
    }
}

// The placeholder of a number.
pub(crate) fn placeholder(number: u64) -> Option<PatternItem>
    ensures { option_map part_of result ≡ place number }
{
    match number {
        0 => Some(PatternItem::First),
        1 => Some(PatternItem::Second),
        _ => None,
    }
}

impl FromValue for DoublePlaceholderPattern {
    ghost use Rattle.std.specs.Prelude.{List};
    ghost use Rattle.icu_provider.specs.Names.{PatternPart};
    ghost use Rattle.icu_tables.specs.NamedRows.{pattern};

    ghost Seen = { List PatternPart };

    ghost seen = { λ items. items };

    ghost shape = { pattern };

    fn from_value(alloc: Global, value: &Value) -> Result<Self, TableError> {
        Ok(DoublePlaceholderPattern::try_from_items(Vec::from_value(alloc, value)?))
    }
}

impl FromValue for LocaleNamesEssentials {
    ghost use Rattle.icu_provider.specs.declared.essentials.LocaleNamesEssentials.{LocaleNamesEssentials};
    ghost use Rattle.icu_tables.specs.NamedRows.{name_patterns};

    ghost Seen = { LocaleNamesEssentials };

    ghost seen = { λ patterns. patterns };

    ghost shape = { name_patterns };

    fn from_value(alloc: Global, value: &Value) -> Result<Self, TableError> {
        only_members(value, &["pattern", "separator"])?;
        let locale_pattern = required(alloc, value, "pattern")?;
        let locale_separator = required(alloc, value, "separator")?;
        Ok(LocaleNamesEssentials {
            locale_pattern,
            locale_separator,
        })
    }
}
