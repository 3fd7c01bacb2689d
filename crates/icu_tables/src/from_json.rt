//! Tables from a JSON text.
ghost use Rattle.std.specs.Prelude.{◌≡◌, ◌≢◌, Some, None, Ok, Err, IfOk, IfErr};
ghost use Rattle.icu_tables.specs.inner.Reads.{file_seen};
ghost use Rattle.icu_tables.specs.Rows.{rows_of};
ghost use Rattle.icu_tables.specs.File.{json_of, rows_in};
ghost use Rattle.icu_tables.specs.Supplement.{no_supplement};
ghost use Rattle.serde_json.specs.View.{view};

mod aliases;
mod arrays;
pub(crate) mod direction;
pub(crate) mod essentials;
pub(crate) mod exemplars;
pub(crate) mod extension_names;
pub(crate) mod keys;
mod likely;
pub(crate) mod locales;
pub(crate) mod marked;
pub(crate) mod matching;
pub(crate) mod members;
pub(crate) mod names;
pub(crate) mod objects;
mod preferred;
pub(crate) mod rows;
pub(crate) mod subtags;
mod supplements;
pub(crate) mod validity;
pub(crate) mod values;

use crate::from_json::exemplars::MarkedExemplars;
use crate::from_json::locales::Locales;
use crate::from_json::marked::Marked;
use crate::from_json::members::RowByRow;
use crate::from_json::objects::{MemberReader, only_members};
use crate::from_json::values::FromValue;
use crate::{Supplement, TableError, Tables};
use serde_json::Value;
use std::alloc::Global;

impl Tables {
    /// The tables of a JSON text: an object with the members `likely_language`,
    /// `likely_script_region`, `likely_extended`, `aliases`, `direction`, `exemplars`, `names`,
    /// `menus` and `essentials`, any of which may be left out. A table that is left out is not held,
    /// and a map that is left out has no rows. `specs/File.antt` says what is in each.
    ///
    /// Values are read in any case. A key is one subtag in its written form, or two with one `-`
    /// between them, or a locale: a language, with a script if any and a region if any. A row whose
    /// key is not of this form is skipped. It takes memory for the tables and for the JSON value.
    ///
    /// # Errors
    ///
    /// `Json` where the text is no JSON value, and `Shape` where the value has not the shape of a
    /// file of tables: any other member is `Shape` too. `Memory` may come in the place of any
    /// answer.
    pub fn from_json(alloc: Global, text: &[u8]) -> Result<Tables, TableError>
        ensures rows { IfOk result (λ tables. rows_in text.now ≡ Ok (rows_of tables)) }
        ensures alone { IfOk result (λ tables. tables.supplement ≡ no_supplement) }
        ensures lent { IfOk result (λ tables. tables.lent_names ≡ None) }
        ensures refused { IfErr result (λ e. e ≢ TableError.Memory
            → rows_in text.now ≡ Err e) }
    {
        let value = parse(alloc, text)?;
        match Tables::from_value(alloc, &value) {
            Ok(tables) => Ok(alone(alloc, tables)),
            Err(refusal) => Err(refusal),
        }
    }
}

// The tables without a supplement and without names that are lent.
fn alone(alloc: Global, mut tables: Tables) -> Tables
    ensures { result ≡ record tables { supplement = no_supplement; lent_names = None } }
{
    tables.supplement = Supplement::new(alloc);
    tables.lent_names = None;
    tables
}

// The JSON value that a text is.
pub(crate) fn parse(alloc: Global, text: &[u8]) -> Result<Value, TableError>
    ensures value { IfOk result (λ value. json_of text.now ≡ Some (view value)) }
    ensures none { IfErr result (λ e. e ≢ TableError.Memory → json_of text.now ≡ None) }
    ensures refused { IfErr result (λ e. e ≢ TableError.Memory → e ≡ TableError.Json) }
{
    match Value::from_slice(alloc, text) {
        Ok(value) => Ok(value),
        Err(e) => {
            if e.is_memory() {
                Err(TableError::Memory)
            } else {
                Err(TableError::Json)
            }
        }
    }
}

const MEMBERS: [&str; 9] = [
    "likely_language",
    "likely_script_region",
    "likely_extended",
    "aliases",
    "direction",
    "exemplars",
    "names",
    "menus",
    "essentials",
];

impl FromValue for Tables {
    ghost use Rattle.icu_tables.specs.File.{file};
    ghost use Rattle.icu_tables.specs.Rows.{FileRows};

    ghost Seen = { FileRows };

    ghost seen = { file_seen };

    ghost shape = { file };

    fn from_value(alloc: Global, value: &Value) -> Result<Self, TableError> {
        only_members(value, &MEMBERS)?;
        let mut tables = Tables::new(alloc);
        MemberReader::of(alloc, value)
            .fill("likely_language", &mut tables.likely_language)
            .fill("likely_script_region", &mut tables.likely_script_region)
            .fill("likely_extended", &mut tables.likely_extended)
            .fill("aliases", &mut tables.aliases)
            .fill("direction", &mut tables.script_direction)
            .fill_by("exemplars", &MarkedExemplars, &mut tables.exemplars)
            .fill_by("names", &Marked, &mut tables.names)
            .fill_by("menus", &Marked, &mut tables.menus)
            .fill_by(
                "essentials",
                &RowByRow { keys: Locales },
                &mut tables.essentials,
            )
            .finish(tables)
    }
}
