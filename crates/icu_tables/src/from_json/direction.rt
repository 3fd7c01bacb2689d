//! Which way scripts run.
ghost use Rattle.std.specs.Prelude.{◌≡◌, IfOk, IfErr};
ghost use Rattle.std.specs.Map.{keys_of};
ghost use Rattle.icu_locale_core.specs.TextSet.{from_list, rising};
ghost use Rattle.icu_tables.specs.Rows.{direction_rows};

use crate::TableError;
use crate::from_json::objects::{MemberReader, only_members};
use crate::from_json::values::FromValue;
use icu_locale_core::Script;
use icu_provider::{NotedMap, ScriptDirection};
use serde_json::Value;
use std::alloc::Global;

// A set of scripts.
impl FromValue for NotedMap<Script, ()> {
    ghost use Rattle.std.specs.Prelude.{List, ℕ};
    ghost use Rattle.icu_tables.specs.Shape.{set_of};
    ghost use Rattle.icu_tables.specs.Subtags.{script};

    ghost Seen = { List (List ℕ) };

    ghost seen = { keys_of };

    ghost shape = { set_of script };

    fn from_value(alloc: Global, value: &Value) -> Result<Self, TableError> {
        set_from(alloc, Vec::from_value(alloc, value)?)
    }
}

// The set of the scripts of a list, where repeats fall together.
pub(crate) fn set_from(
    alloc: Global,
    mut scripts: Vec<Script>,
) -> Result<NotedMap<Script, ()>, TableError>
    ensures members { IfOk result (λ set. keys_of set ≡ rising (from_list scripts.items)) }
    ensures refused { IfErr result (λ e. e ≡ TableError.Memory) }
{
    scripts.sort_unstable();
    scripts.dedup();
    let mut rows = Vec::with_capacity(alloc, scripts.len())?;
    for script in &scripts {
        rows.push((*script, ()))?;
    }
    Ok(NotedMap::try_from_sorted(alloc, rows)?)
}

impl FromValue for ScriptDirection {
    ghost use Rattle.icu_tables.specs.File.{direction};
    ghost use Rattle.icu_tables.specs.Rows.{DirectionRows};

    ghost Seen = { DirectionRows };

    ghost seen = { direction_rows };

    ghost shape = { direction };

    fn from_value(alloc: Global, value: &Value) -> Result<Self, TableError> {
        only_members(value, &["rtl", "ltr"])?;
        let mut table = ScriptDirection::new(alloc);
        MemberReader::of(alloc, value)
            .fill("rtl", &mut table.rtl)
            .fill("ltr", &mut table.ltr)
            .finish(table)
    }
}
