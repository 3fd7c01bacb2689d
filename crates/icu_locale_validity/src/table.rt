//! The table of validity (UTS #35 Part 1, section 3.11, Validity Data), as the caller hands it in.

ghost use Rattle.std.specs.Prelude.{◌≡◌, []};
ghost use Rattle.icu_locale_validity.specs.Statuses.{is_usable, is_valid_status, listed_word, status_word};

use icu_locale_core::{Key, Language, Region, Script, Subtag, Value, Variant};
use icu_locale_extensions::{FieldKey, Subtags};
use icu_provider::{NotedMap, SortedMap};
use std::alloc::Global;
use std::cmp::Ord;

/// What the standard says of a code: CLDR's `idStatus`.
#[derive(Clone, Copy, Debug, PartialEq, Eq)]
pub enum Status {
    /// A code for general use.
    Regular,
    /// A code with a meaning of its own, as `mul`.
    Special,
    /// A region that contains others, as `419`.
    Macroregion,
    /// A code for what is not known, as `und` and `ZZ`.
    Unknown,
    /// A code that its users give a meaning.
    PrivateUse,
    /// A code that should not be used.
    Deprecated,
    /// A code for private use that CLDR keeps for later.
    Reserved,
}

impl Status {
    /// Whether a code with this status may be used: it is none that should not be used, and none that is kept for later.
    pub fn is_usable(self) -> bool
        ensures { result ≡ is_usable self }
    {
        match self {
            Status::Deprecated | Status::Reserved => false,
            Status::Regular
            | Status::Special
            | Status::Macroregion
            | Status::Unknown
            | Status::PrivateUse => true,
        }
    }

    /// The status as one word: CLDR's `idStatus`.
    pub fn as_str(self) -> &'static str
        ensures { result.now ≡ status_word self }
    {
        match self {
            Status::Regular => "regular",
            Status::Special => "special",
            Status::Macroregion => "macroregion",
            Status::Unknown => "unknown",
            Status::PrivateUse => "private_use",
            Status::Deprecated => "deprecated",
            Status::Reserved => "reserved",
        }
    }
}

// Whether a code is listed and may be used.
pub fn is_valid_status(status: Option<Status>) -> bool
    ensures { result ≡ is_valid_status status }
{
    match status {
        Some(status) => status.is_usable(),
        None => false,
    }
}

/// What each subtag of a value may be, beside the types that are listed.
#[derive(Clone, Copy, Debug, PartialEq, Eq)]
pub enum CodeKind {
    /// A script: `SCRIPT_CODE` of CLDR.
    Script,
    /// A subdivision: `SUBDIVISION_CODE`.
    Subdivision,
    /// A subdivision, or a region as a whole with `zzzz` after it: `RG_KEY_VALUE`.
    RegionOverride,
    /// A currency.
    Currency,
    /// A code point in hexadecimal digits: `CODEPOINTS`.
    CodePoint,
    /// A date, which comes last: four, six or eight digits (RFC 6497, section 2.2).
    Date,
    /// Any: `PRIVATE_USE`.
    Any,
}

/// What a key takes as its value.
#[derive(Debug)]
pub struct KeyTypes<V: Ord> {
    /// The status of the key.
    pub status: Status,
    /// The types that are listed, each with its status.
    pub types: SortedMap<V, Status>,
    /// What each subtag of a value may be beside.
    pub kind: Option<CodeKind>,
    /// Whether a value may have more than one subtag, without a date at its end.
    pub many: bool,
}

/// The status of each code that is listed. Codes are kept with notes, by which a look-up takes one step.
#[derive(Debug)]
pub struct Validity {
    /// Languages.
    pub languages: NotedMap<Language, Status>,
    /// Scripts.
    pub scripts: NotedMap<Script, Status>,
    /// Regions.
    pub regions: NotedMap<Region, Status>,
    /// Variants.
    pub variants: NotedMap<Variant, Status>,
    /// Subdivisions of regions, as `gbeng`.
    pub subdivisions: NotedMap<Subtag, Status>,
    /// Currencies, as `usd`.
    pub currencies: NotedMap<Subtag, Status>,
    /// The keys of keywords.
    pub keywords: SortedMap<Key, KeyTypes<Value>>,
    /// The keys of fields.
    pub fields: SortedMap<FieldKey, KeyTypes<Subtags<3>>>,
}

impl<V: Ord + Drop> Drop for KeyTypes<V> {
    fn drop(self) {
        let KeyTypes {
            status: _,
            types: _,
            kind: _,
            many: _,
        } = self;
    }
}

impl Drop for Validity {
    fn drop(self) {
        let Validity {
            languages: _,
            scripts: _,
            regions: _,
            variants: _,
            subdivisions: _,
            currencies: _,
            keywords: _,
            fields: _,
        } = self;
    }
}

impl Validity {
    /// No codes. It takes no memory.
    pub fn new(alloc: Global) -> Self
        ensures languages { result.languages ≡ [] }
        ensures scripts { result.scripts ≡ [] }
        ensures regions { result.regions ≡ [] }
        ensures variants { result.variants ≡ [] }
        ensures subdivisions { result.subdivisions ≡ [] }
        ensures currencies { result.currencies ≡ [] }
        ensures keywords { result.keywords ≡ [] }
        ensures fields { result.fields ≡ [] }
    {
        Validity {
            languages: NotedMap::new(alloc),
            scripts: NotedMap::new(alloc),
            regions: NotedMap::new(alloc),
            variants: NotedMap::new(alloc),
            subdivisions: NotedMap::new(alloc),
            currencies: NotedMap::new(alloc),
            keywords: SortedMap::new(alloc),
            fields: SortedMap::new(alloc),
        }
    }
}
