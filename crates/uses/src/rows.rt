//! A table that is made row by row.
ghost use Rattle.std.specs.Prelude.{◌≡◌, ◌∷◌, [], IfOk, IfErr};

use icu_locale_core::{Language, Region, Script};
use icu_provider::{DataError, DataErrorKind, LikelySubtagsForLanguage};
use std::alloc::Global;

/// A table of likely subtags in which a language has a script and a region.
///
/// # Errors
///
/// `Memory` where the row found no room.
pub fn table_with_row(
    alloc: Global,
    und: (Language, Script, Region),
    language: Language,
    script: Script,
    region: Region,
) -> Result<LikelySubtagsForLanguage, DataError>
    ensures table { IfOk result (λ table. table ≡ record {
      und = und;
      language = (language, (script, region)) ∷ [];
      language_script = [];
      language_region = [];
    }) }
    ensures refused { IfErr result (λ e. e.kind ≡ DataErrorKind.Memory) }
{
    let mut table = LikelySubtagsForLanguage::new(alloc, und);
    match table.insert_language(language, script, region) {
        Ok(()) => Ok(table),
        Err(refusal) => Err(refusal),
    }
}
