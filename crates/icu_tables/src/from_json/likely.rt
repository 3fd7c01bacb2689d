//! Tables of likely subtags.
ghost use Rattle.icu_tables.specs.inner.Reads.{language_seen, script_region_seen, extended_seen};

use crate::TableError;
use crate::from_json::objects::{MemberReader, only_members, required};
use crate::from_json::values::FromValue;
use icu_provider::{LikelySubtagsExtended, LikelySubtagsForLanguage, LikelySubtagsForScriptRegion};
use serde_json::Value;
use std::alloc::Global;

impl FromValue for LikelySubtagsForLanguage {
    ghost use Rattle.icu_provider.specs.declared.likely.language.LikelySubtagsForLanguage.{LikelySubtagsForLanguage};
    ghost use Rattle.icu_tables.specs.File.{likely_language};

    ghost Seen = { LikelySubtagsForLanguage };

    ghost seen = { language_seen };

    ghost shape = { likely_language };

    fn from_value(alloc: Global, value: &Value) -> Result<Self, TableError> {
        only_members(
            value,
            &["und", "language", "language_script", "language_region"],
        )?;
        let und = required(alloc, value, "und")?;
        let mut table = LikelySubtagsForLanguage::new(alloc, und);
        MemberReader::of(alloc, value)
            .fill("language", &mut table.language)
            .fill("language_script", &mut table.language_script)
            .fill("language_region", &mut table.language_region)
            .finish(table)
    }
}

impl FromValue for LikelySubtagsForScriptRegion {
    ghost use Rattle.icu_provider.specs.declared.likely.script_region.LikelySubtagsForScriptRegion.{LikelySubtagsForScriptRegion};
    ghost use Rattle.icu_tables.specs.File.{likely_script_region};

    ghost Seen = { LikelySubtagsForScriptRegion };

    ghost seen = { script_region_seen };

    ghost shape = { likely_script_region };

    fn from_value(alloc: Global, value: &Value) -> Result<Self, TableError> {
        only_members(value, &["script_region", "script", "region"])?;
        let mut table = LikelySubtagsForScriptRegion::new(alloc);
        MemberReader::of(alloc, value)
            .fill("script_region", &mut table.script_region)
            .fill("script", &mut table.script)
            .fill("region", &mut table.region)
            .finish(table)
    }
}

impl FromValue for LikelySubtagsExtended {
    ghost use Rattle.icu_provider.specs.declared.likely.extended.LikelySubtagsExtended.{LikelySubtagsExtended};
    ghost use Rattle.icu_tables.specs.File.{likely_extended};

    ghost Seen = { LikelySubtagsExtended };

    ghost seen = { extended_seen };

    ghost shape = { likely_extended };

    fn from_value(alloc: Global, value: &Value) -> Result<Self, TableError> {
        only_members(
            value,
            &[
                "language",
                "language_script",
                "language_region",
                "script_region",
                "script",
                "region",
            ],
        )?;
        let mut table = LikelySubtagsExtended::new(alloc);
        MemberReader::of(alloc, value)
            .fill("language", &mut table.language)
            .fill("language_script", &mut table.language_script)
            .fill("language_region", &mut table.language_region)
            .fill("script_region", &mut table.script_region)
            .fill("script", &mut table.script)
            .fill("region", &mut table.region)
            .finish(table)
    }
}
