//! Tables that are read from JSON.
ghost use Rattle.std.specs.Prelude.{◌≡◌, ◌≢◌, Ok, Err, IfOk, IfErr, option_and_then};
ghost use Rattle.icu_locale_core.specs.Maps.{value_at};
ghost use Rattle.icu_locale_core.specs.TextSet.{text_cmp};
ghost use Rattle.icu_tables.specs.Rows.{FileRows};
ghost use Rattle.icu_tables.specs.File.{rows_in};

use icu_locale_core::{Language, Region, Script};
use icu_tables::{TableError, Tables};
use std::alloc::Global;

/// The likely script and region of a language in a JSON file of tables, if there is such a row.
///
/// # Errors
///
/// `Json` and `Shape` exactly where the text is no file of tables, but for `Memory`.
pub fn likely_row(
    alloc: Global,
    file: &[u8],
    language: Language,
) -> Result<Option<(Script, Region)>, TableError>
    ensures row { IfOk result (λ row. (rows : FileRows) × (rows_in file.now ≡ Ok rows)
        × (row ≡ option_and_then (λ table. value_at text_cmp table.language language)
        rows.likely_language)) }
    ensures refused { IfErr result (λ e. e ≢ TableError.Memory
        → rows_in file.now ≡ Err e) }
{
    match Tables::from_json(alloc, file) {
        Ok(tables) => Ok(row_of(&tables, language)),
        Err(refusal) => Err(refusal),
    }
}

// The row of a language, if the tables have likely subtags and these have such a row.
fn row_of(tables: &Tables, language: Language) -> Option<(Script, Region)>
    ensures { result ≡ option_and_then (λ table. value_at text_cmp table.language language)
        tables.now.likely_language }
{
    match &tables.likely_language {
        Some(table) => table.get_language(language),
        None => None,
    }
}
