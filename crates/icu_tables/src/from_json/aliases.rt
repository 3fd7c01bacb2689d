//! Aliases.
ghost use Rattle.std.specs.Prelude.{map};
ghost use Rattle.icu_tables.specs.inner.Reads.{alias_seen};
ghost use Rattle.icu_tables.specs.Rows.{rule, variants_rule};

use crate::TableError;
use crate::from_json::objects::{MemberReader, only_members};
use crate::from_json::values::FromValue;
use icu_locale_core::Language;
use icu_provider::{Aliases, LanguageStrStrPair, RowList, StrStrPair};
use serde_json::Value;
use std::alloc::Global;

impl FromValue for StrStrPair {
    ghost use Rattle.std.specs.Prelude.{List, ℕ};
    ghost use Rattle.icu_tables.specs.Shape.{text, pair_of};

    ghost Seen = { List ℕ × List ℕ };

    ghost seen = { rule };

    ghost shape = { pair_of text text };

    fn from_value(alloc: Global, value: &Value) -> Result<Self, TableError> {
        let (rule, replacement) = <(String, String)>::from_value(alloc, value)?;
        Ok(StrStrPair(rule, replacement))
    }
}

impl FromValue for LanguageStrStrPair {
    ghost use Rattle.std.specs.Prelude.{List, ℕ};
    ghost use Rattle.icu_tables.specs.Shape.{text, triple_of};
    ghost use Rattle.icu_tables.specs.Subtags.{language};

    ghost Seen = { List ℕ × List ℕ × List ℕ };

    ghost seen = { variants_rule };

    ghost shape = { triple_of language text text };

    fn from_value(alloc: Global, value: &Value) -> Result<Self, TableError> {
        let (language, variants, replacement) = <(Language, String, String)>::from_value(
            alloc, value,
        )?;
        Ok(LanguageStrStrPair(language, variants, replacement))
    }
}

impl<T: FromValue> FromValue for RowList<T> {
    ghost use Rattle.std.specs.Prelude.{List};
    ghost use Rattle.icu_tables.specs.Shape.{array_of};

    ghost Seen = { List T.Seen };

    ghost seen = { λ rows. map T.seen rows };

    ghost shape = { array_of T.shape };

    fn from_value(alloc: Global, value: &Value) -> Result<Self, TableError> {
        Ok(RowList::from_vec(Vec::from_value(alloc, value)?))
    }
}

const MEMBERS: [&str; 11] = [
    "language_variants",
    "language",
    "sgn_region",
    "language_len2",
    "language_len3",
    "script",
    "region_alpha",
    "region_num",
    "complex_region",
    "variant",
    "subdivision",
];

impl FromValue for Aliases {
    ghost use Rattle.icu_tables.specs.File.{aliases};
    ghost use Rattle.icu_tables.specs.Rows.{AliasRows};

    ghost Seen = { AliasRows };

    ghost seen = { alias_seen };

    ghost shape = { aliases };

    fn from_value(alloc: Global, value: &Value) -> Result<Self, TableError> {
        only_members(value, &MEMBERS)?;
        let mut table = Aliases::new(alloc);
        MemberReader::of(alloc, value)
            .fill("language_variants", &mut table.language_variants)
            .fill("language", &mut table.language)
            .fill("sgn_region", &mut table.sgn_region)
            .fill("language_len2", &mut table.language_len2)
            .fill("language_len3", &mut table.language_len3)
            .fill("script", &mut table.script)
            .fill("region_alpha", &mut table.region_alpha)
            .fill("region_num", &mut table.region_num)
            .fill("complex_region", &mut table.complex_region)
            .fill("variant", &mut table.variant)
            .fill("subdivision", &mut table.subdivision)
            .finish(table)
    }
}
