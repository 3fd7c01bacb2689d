//! Tables of validity: codes by status, and what keys take.
ghost use Rattle.std.specs.Prelude.{◌≡◌, [], ◌∷◌, ◌++◌, IfOk};
ghost use Rattle.icu_tables.specs.Names.{named_in};
ghost use Rattle.icu_tables.specs.Validity.{statuses, kinds, endings, codes_up_to, codes_of_word, codes_listed, if_text, rows_of_codes};
ghost use Rattle.icu_tables.specs.inner.Further.{key_types_seen, validity_seen};

use crate::TableError;
use crate::from_json::marked::named_among;
use crate::from_json::members::{AddsRows, RowByRow};
use crate::from_json::objects::{MemberReader, only_members};
use crate::from_json::preferred::{FieldKeys, KeywordKeys, ReadsValue};
use crate::from_json::values::FromValue;
use icu_locale_validity::{CodeKind, KeyTypes, Status, Validity};
use icu_provider::SortedMap;
use serde_json::Value;
use std::alloc::{AllocError, Global};

const STATUSES: [(&str, Status); 7] = [
    ("regular", Status::Regular),
    ("special", Status::Special),
    ("macroregion", Status::Macroregion),
    ("unknown", Status::Unknown),
    ("private_use", Status::PrivateUse),
    ("deprecated", Status::Deprecated),
    ("reserved", Status::Reserved),
];

// The status of a name.
pub(crate) fn status_named(name: &str) -> Option<Status>
    ensures { result ≡ named_in statuses name.now }
{
    named_among(&STATUSES, name)
}

const KINDS: [(&str, CodeKind); 7] = [
    ("script", CodeKind::Script),
    ("subdivision", CodeKind::Subdivision),
    ("region_override", CodeKind::RegionOverride),
    ("currency", CodeKind::Currency),
    ("code_point", CodeKind::CodePoint),
    ("date", CodeKind::Date),
    ("any", CodeKind::Any),
];

// The kind of codes of a name.
pub(crate) fn kind_named(name: &str) -> Option<CodeKind>
    ensures { result ≡ named_in kinds name.now }
{
    named_among(&KINDS, name)
}

impl FromValue for Status {
    ghost use Rattle.icu_locale_validity.specs.declared.table.Status.{Status};
    ghost use Rattle.icu_tables.specs.Shape.{text_as};

    ghost Seen = { Status };

    ghost seen = { λ s. s };

    ghost shape = { text_as (named_in statuses) };

    fn from_value(_alloc: Global, value: &Value) -> Result<Self, TableError> {
        match value.as_str() {
            Some(text) => status_named(text).ok_or(TableError::Shape),
            None => Err(TableError::Shape),
        }
    }
}

impl FromValue for CodeKind {
    ghost use Rattle.icu_locale_validity.specs.declared.table.CodeKind.{CodeKind};
    ghost use Rattle.icu_tables.specs.Shape.{text_as};

    ghost Seen = { CodeKind };

    ghost seen = { λ k. k };

    ghost shape = { text_as (named_in kinds) };

    fn from_value(_alloc: Global, value: &Value) -> Result<Self, TableError> {
        match value.as_str() {
            Some(text) => kind_named(text).ok_or(TableError::Shape),
            None => Err(TableError::Shape),
        }
    }
}

impl FromValue for bool {
    ghost use Rattle.std.specs.Prelude.{Bool};
    ghost use Rattle.serde_json.specs.Find.{as_bool};

    ghost Seen = { Bool };

    ghost seen = { λ b. b };

    ghost shape = { as_bool };

    fn from_value(_alloc: Global, value: &Value) -> Result<Self, TableError> {
        value.as_bool().ok_or(TableError::Shape)
    }
}

// Adds the codes that a member lists, with the status that it is named by.
#[derive(Clone, Copy)]
pub(crate) struct Codes;

impl<K: ReadsValue> AddsRows<K, Status> for Codes {
    ghost use Rattle.icu_locale_validity.specs.declared.table.Status.{Status};
    ghost use Rattle.icu_tables.specs.Validity.{codes_by_status};

    ghost Seen = { Status };

    ghost seen = { λ s. s };

    ghost says = { λ _. codes_by_status K.reads };

    fn add(
        &self,
        alloc: Global,
        name: &str,
        value: &Value,
        rows: &mut Vec<(K, Status)>,
    ) -> Result<(), TableError> {
        let Some(status) = status_named(name) else {
            return Err(TableError::Shape);
        };
        let Some(text) = value.as_str() else {
            return Err(TableError::Shape);
        };
        add_listed(alloc, text, status, rows)?;
        Ok(())
    }
}

// Adds the codes that a text lists to rows.
pub(crate) fn add_listed<K: ReadsValue>(
    alloc: Global,
    text: &str,
    status: Status,
    rows: &mut Vec<(K, Status)>,
) -> Result<(), AllocError>
    ensures { IfOk result (λ _. rows.new.items ≡ rows.old.items
        ++ rows_of_codes K.reads status (codes_listed text.now)) }
{
    for word in text.split(' ') {
        add_word(alloc, word, status, rows)?;
    }
    Ok(())
}

// Adds the codes of a word.
fn add_word<K: ReadsValue>(
    alloc: Global,
    word: &str,
    status: Status,
    rows: &mut Vec<(K, Status)>,
) -> Result<(), AllocError>
    ensures { IfOk result (λ _. rows.new.items ≡ rows.old.items
        ++ rows_of_codes K.reads status (codes_of_word word.now)) }
{
    match word.split_once('~') {
        Some((first, last)) => add_range(alloc, first.as_bytes(), last.as_bytes(), status, rows),
        None => add_code(alloc, word.as_bytes(), status, rows),
    }
}

// Adds the codes from one to the one that ends in a single other character.
fn add_range<K: ReadsValue>(
    alloc: Global,
    first: &[u8],
    last: &[u8],
    status: Status,
    rows: &mut Vec<(K, Status)>,
) -> Result<(), AllocError>
    ensures { IfOk result (λ _. rows.new.items ≡ rows.old.items
        ++ rows_of_codes K.reads status (codes_up_to first.now last.now)) }
{
    let Some((from, stem)) = first.split_last() else {
        return Ok(());
    };
    match last {
        [to] => add_endings(alloc, stem, *from, *to, status, rows),
        _ => Ok(()),
    }
}

// Adds the codes of a stem, for each last character from one to another, which are 256 at most.
fn add_endings<K: ReadsValue>(
    alloc: Global,
    stem: &[u8],
    from: u8,
    to: u8,
    status: Status,
    rows: &mut Vec<(K, Status)>,
) -> Result<(), AllocError>
    ensures { IfOk result (λ _. rows.new.items ≡ rows.old.items
        ++ rows_of_codes K.reads status (endings stem.now from to)) }
{
    let mut code = Vec::new(alloc);
    let mut character = usize::from(from);
    while character <= usize::from(to) {
        code.clear();
        code.extend_from_slice(stem)?;
        code.push(character as u8)?;
        add_code(alloc, &code, status, rows)?;
        character += 1;
    }
    Ok(())
}

// Adds a code, where the bytes are one.
fn add_code<K: ReadsValue>(
    alloc: Global,
    code: &[u8],
    status: Status,
    rows: &mut Vec<(K, Status)>,
) -> Result<(), AllocError>
    ensures { IfOk result (λ _. rows.new.items ≡ rows.old.items
        ++ rows_of_codes K.reads status (code.now ∷ [])) }
{
    if let Some(key) = read_code(alloc, code)? {
        rows.push((key, status))?;
    }
    Ok(())
}

// What bytes are read as, where they are a text.
fn read_code<K: ReadsValue>(alloc: Global, code: &[u8]) -> Result<Option<K>, AllocError>
    ensures { IfOk result (λ read. read ≡ if_text K.reads code.now) }
{
    match str::from_utf8(code) {
        Ok(text) => K::read(alloc, text),
        Err(_) => Ok(None),
    }
}

impl<V: ReadsValue> FromValue for KeyTypes<V> {
    ghost use Rattle.icu_locale_validity.specs.declared.table.KeyTypes.{KeyTypes};
    ghost use Rattle.icu_tables.specs.Validity.{key_types};

    ghost Seen = { KeyTypes V };

    ghost seen = { key_types_seen };

    ghost shape = { key_types V.cmp V.reads };

    fn from_value(alloc: Global, value: &Value) -> Result<Self, TableError> {
        only_members(value, &["status", "types", "kind", "many"])?;
        let mut key = KeyTypes {
            status: Status::Regular,
            types: SortedMap::new(alloc),
            kind: None,
            many: false,
        };
        MemberReader::of(alloc, value)
            .fill("status", &mut key.status)
            .fill_by("types", &Codes, &mut key.types)
            .fill("kind", &mut key.kind)
            .fill("many", &mut key.many)
            .finish(key)
    }
}

const MEMBERS: [&str; 8] = [
    "language",
    "script",
    "region",
    "variant",
    "subdivision",
    "currency",
    "keywords",
    "fields",
];

impl FromValue for Validity {
    ghost use Rattle.icu_locale_validity.specs.declared.table.Validity.{Validity};
    ghost use Rattle.icu_tables.specs.Validity.{validity};

    ghost Seen = { Validity };

    ghost seen = { validity_seen };

    ghost shape = { validity };

    fn from_value(alloc: Global, value: &Value) -> Result<Self, TableError> {
        only_members(value, &MEMBERS)?;
        let mut table = Validity::new(alloc);
        MemberReader::of(alloc, value)
            .fill_by("language", &Codes, &mut table.languages)
            .fill_by("script", &Codes, &mut table.scripts)
            .fill_by("region", &Codes, &mut table.regions)
            .fill_by("variant", &Codes, &mut table.variants)
            .fill_by("subdivision", &Codes, &mut table.subdivisions)
            .fill_by("currency", &Codes, &mut table.currencies)
            .fill_by(
                "keywords",
                &RowByRow { keys: KeywordKeys },
                &mut table.keywords,
            )
            .fill_by("fields", &RowByRow { keys: FieldKeys }, &mut table.fields)
            .finish(table)
    }
}
