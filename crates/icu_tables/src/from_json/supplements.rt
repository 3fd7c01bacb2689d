//! Supplements in a JSON text.
ghost use Rattle.icu_tables.specs.inner.Further.{supplement_seen};

use crate::from_json::locales::Locales;
use crate::from_json::members::RowByRow;
use crate::from_json::objects::{MemberReader, only_members};
use crate::from_json::preferred::{FieldKeys, KeywordKeys};
use crate::from_json::values::FromValue;
use crate::{Supplement, TableError};
use serde_json::Value;
use std::alloc::Global;

impl FromValue for Supplement {
    ghost use Rattle.icu_tables.specs.Supplement.{SupplementRows, supplement};

    ghost Seen = { SupplementRows };

    ghost seen = { supplement_seen };

    ghost shape = { supplement };

    fn from_value(alloc: Global, value: &Value) -> Result<Self, TableError> {
        only_members(
            value,
            &[
                "parents",
                "matching",
                "keywords",
                "fields",
                "extension_names",
                "cldr",
                "validity",
            ],
        )?;
        let mut supplement = Supplement::new(alloc);
        MemberReader::of(alloc, value)
            .fill_by(
                "parents",
                &RowByRow { keys: Locales },
                &mut supplement.parents,
            )
            .fill("matching", &mut supplement.matching)
            .fill_by(
                "keywords",
                &RowByRow { keys: KeywordKeys },
                &mut supplement.keywords,
            )
            .fill_by(
                "fields",
                &RowByRow { keys: FieldKeys },
                &mut supplement.fields,
            )
            .fill_by(
                "extension_names",
                &RowByRow { keys: Locales },
                &mut supplement.extension_names,
            )
            .fill("cldr", &mut supplement.cldr)
            .fill("validity", &mut supplement.validity)
            .finish(supplement)
    }
}
