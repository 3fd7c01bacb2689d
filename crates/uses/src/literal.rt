//! Tables of a JSON text that is in the source.
ghost use Rattle.std.specs.Prelude.{◌≡◌, ◌∷◌, [], codes, Some, IfOk, IfErr};

use icu_tables::{TableError, Tables};
use std::alloc::Global;

const GERMAN: &[u8] = br#"{
  "likely_language": {
    "und": ["en", "Latn", "US"],
    "language": { "de": ["Latn", "DE"] }
  }
}"#;

/// Tables with one likely row: that of a text that is in the source. The check reads the text too.
///
/// # Errors
///
/// `Memory` alone.
pub fn german_tables(alloc: Global) -> Result<Tables, TableError>
    ensures row { IfOk result (λ tables. tables.likely_language ≡ Some (record {
      und = (codes "en", codes "Latn", codes "US");
      language = (codes "de", (codes "Latn", codes "DE")) ∷ [];
      language_script = [];
      language_region = [];
    })) }
    ensures refused { IfErr result (λ e. e ≡ TableError.Memory) }
{
    Tables::from_json(alloc, GERMAN)
}
