//! Supplements: tables that came later than those of a file of tables.
ghost use Rattle.std.specs.Prelude.{◌≡◌, ◌≢◌, Ok, Err, IfOk, IfErr};
ghost use Rattle.icu_tables.specs.Supplement.{no_supplement, rows_in, rows_of};

use crate::TableError;
use crate::from_json::parse;
use crate::from_json::values::FromValue;
use icu_locale_core::{Key, Value};
use icu_locale_extensions::{FieldKey, Subtags};
use icu_locale_validity::Validity;
use icu_provider::{DataLocale, ExtensionNames, LanguageMatching, SortedMap, TableText};
use std::alloc::Global;

/// What may be beside tables: the explicit parents of locales, rules of language matching, aliases of values, what parts
/// of extensions are called, the name of the data, and a table of validity. It borrows nothing.
#[derive(Debug)]
pub struct Supplement {
    /// The explicit parent of a locale (UTS #35 Part 1, Parent Locales).
    pub parents: SortedMap<DataLocale, DataLocale>,
    /// The rules of language matching, if any are held (UTS #35 Part 1, section 4.4).
    pub matching: Option<LanguageMatching>,
    /// The aliases of a keyword's values, by its key: a value, and the one preferred to it (CLDR, common/bcp47).
    pub keywords: SortedMap<Key, SortedMap<Value, Value>>,
    /// The aliases of a field's values, by its key.
    pub fields: SortedMap<FieldKey, SortedMap<Subtags<3>, Subtags<3>>>,
    /// What parts of extensions are called, by the locale in whose language (UTS #35 Part 2, "Locale Display Name
    /// Algorithm").
    pub extension_names: SortedMap<DataLocale, ExtensionNames>,
    /// What the data calls itself, if it has a name.
    pub cldr: Option<TableText>,
    /// What the standard says of codes, if a table is held (UTS #35 Part 1, section 3.11).
    pub validity: Option<Validity>,
}

impl Drop for Supplement {
    fn drop(self) {
        let Supplement {
            parents: _,
            matching: _,
            keywords: _,
            fields: _,
            extension_names: _,
            cldr: _,
            validity: _,
        } = self;
    }
}

impl Supplement {
    /// A supplement that holds nothing. It takes no memory.
    pub fn new(alloc: Global) -> Self
        ensures { result ≡ no_supplement }
    {
        Supplement {
            parents: SortedMap::new(alloc),
            matching: None,
            keywords: SortedMap::new(alloc),
            fields: SortedMap::new(alloc),
            extension_names: SortedMap::new(alloc),
            cldr: None,
            validity: None,
        }
    }

    /// The supplement of a JSON text: an object with the members `parents`, `matching`, `keywords`, `fields`,
    /// `extension_names`, `cldr` and `validity`, any of which may be left out. `specs/Supplement.antt` says what is in
    /// each, and `specs/Validity.antt` what a table of validity has. A row whose key is not in written form is skipped,
    /// and so are an alias of what is no value, and a code that is none. It takes memory for the tables and for the
    /// JSON value.
    ///
    /// # Errors
    ///
    /// `Json` where the text is no JSON value, and `Shape` where the value has not the shape of a supplement: any other
    /// member is `Shape` too. `Memory` may come in the place of any answer.
    pub fn from_json(alloc: Global, text: &[u8]) -> Result<Supplement, TableError>
        ensures rows { IfOk result (λ supplement. rows_in text.now ≡ Ok (rows_of supplement)) }
        ensures refused { IfErr result (λ e. e ≢ TableError.Memory
            → rows_in text.now ≡ Err e) }
    {
        let value = parse(alloc, text)?;
        Supplement::from_value(alloc, &value)
    }
}
