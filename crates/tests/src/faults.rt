//! The names of refusals.
use icu_locale::{CanonicalizeError, NegotiatorError};
use icu_locale_core::ParseError;
use icu_locale_lines::CliError;
use icu_locale_names::{LanguageIdentifierNameFallbackError, NameWriteError};
use icu_provider::{DataError, DataErrorKind};
use icu_tables::TableError;
use std::alloc::Global;
use std::fmt;
use std::process::Abort;
use tests_shared::known::{identifier, text, value};

/// A refusal must be written so.
pub fn is_named(rt: &impl Abort, alloc: Global, fault: impl fmt::Display + Drop, name: &str) {
    assert_eq!(rt; text(alloc, &fault).expect(rt, "text").as_str(), name);
}

#[test]
fn kinds_of_data_errors(rt: HostRuntime) {
    for (kind, name) in [
        (DataErrorKind::IdentifierNotFound, "IdentifierNotFound"),
        (DataErrorKind::MarkerNotFound, "MarkerNotFound"),
        (DataErrorKind::InvalidRequest, "InvalidRequest"),
        (DataErrorKind::Deserialize, "Deserialize"),
        (DataErrorKind::Custom, "Custom"),
        (DataErrorKind::Memory, "Memory"),
    ] {
        is_named(&rt, rt.alloc(), DataError { kind }, name);
    }
}

#[test]
fn refusals_of_texts(rt: HostRuntime) {
    for (refusal, name) in [
        (ParseError::InvalidLanguage, "InvalidLanguage"),
        (ParseError::InvalidSubtag, "InvalidSubtag"),
        (ParseError::Memory, "Memory"),
    ] {
        is_named(&rt, rt.alloc(), refusal, name);
    }
}

#[test]
fn refusals_of_canonicalizing(rt: HostRuntime) {
    let alloc = rt.alloc();
    let id = identifier(alloc, "aa").expect(&rt, "identifier");
    is_named(
        &rt,
        alloc,
        CanonicalizeError::NoFixedPoint(id),
        "NoFixedPoint",
    );
    let value = value(alloc, "aaa").expect(&rt, "value");
    is_named(
        &rt,
        alloc,
        CanonicalizeError::NoSubdivisionFixedPoint(value),
        "NoSubdivisionFixedPoint",
    );
    is_named(&rt, alloc, CanonicalizeError::Memory, "Memory");
}

#[test]
fn refusals_of_negotiators(rt: HostRuntime) {
    for (refusal, name) in [
        (NegotiatorError::NotSettled, "NotSettled"),
        (NegotiatorError::Memory, "Memory"),
    ] {
        is_named(&rt, rt.alloc(), refusal, name);
    }
}

#[test]
fn refusals_of_tables(rt: HostRuntime) {
    for (refusal, name) in [
        (TableError::Json, "Json"),
        (TableError::Shape, "Shape"),
        (TableError::Memory, "Memory"),
    ] {
        is_named(&rt, rt.alloc(), refusal, name);
    }
}

#[test]
fn refusals_of_names(rt: HostRuntime) {
    let alloc = rt.alloc();
    for (refusal, name) in [
        (NameWriteError::Memory, "Memory"),
        (NameWriteError::Sink, "Sink"),
        (NameWriteError::TooLong, "TooLong"),
    ] {
        is_named(&rt, alloc, refusal, name);
    }
    let report = LanguageIdentifierNameFallbackError::default();
    is_named(&rt, alloc, report, "LanguageIdentifierNameFallbackError")
}

#[test]
fn refusals_of_runs(rt: HostRuntime) {
    let custom = DataError {
        kind: DataErrorKind::Custom,
    };
    for (refusal, want) in [
        (CliError::Usage, "usage: icu_locale_cli COMMAND [json]"),
        (CliError::Tables(TableError::Json), "tables: Json"),
        (CliError::Tables(TableError::Shape), "tables: Shape"),
        (CliError::Supplement(TableError::Json), "supplement: Json"),
        (CliError::Data(custom), "data: Custom"),
        (CliError::Read, "read failed"),
        (CliError::Write, "write failed"),
        (CliError::Memory, "no memory"),
        (
            CliError::Available(ParseError::InvalidSubtag),
            "available: InvalidSubtag",
        ),
        (CliError::NotSettled, "tables not settled"),
    ] {
        is_named(&rt, rt.alloc(), refusal, want);
    }
}
