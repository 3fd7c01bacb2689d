//! Whole canonical forms, by rows of aliases that are made here: those of CLDR and ECMA-402, and such as lead round.
use icu_locale::{CanonicalizerRef, LocaleExpander, ReadRules, TransformResult, Turns};
use icu_locale_core::{Key, Value};
use icu_locale_extensions::{FieldKey, LocaleIdentifier, Subtags};
use icu_locale_values::{ValueAliases, WholeCanonicalizer, WholeError};
use icu_provider::{DataProvider, SortedMap};
use icu_tables::Tables;
use std::alloc::Global;
use std::process::Abort;
use tests_shared::known::{identifier, sample, tables, text, value};
use tests_shared::values::{CIRCLING, field_table, keyword_table, whole_identifier};

// Texts and what becomes of them, or what is refused.
static FORMS: [(&str, &str); 16] = [
    // CLDR, common/bcp47: aliases of types
    ("en-u-ca-islamicc", "en-u-ca-islamic-civil"),
    ("en-u-ca-ethiopic-amete-alem", "en-u-ca-ethioaa"),
    ("en-u-ca-gregory", "en-u-ca-gregory"),
    ("en-u-ms-imperial", "en-u-ms-uksystem"),
    // ECMA-402, CanonicalizeUnicodeLocaleId: `yes` becomes `true`, which is not written
    ("en-u-kb-yes", "en-u-kb"),
    // a value of a field
    ("en-t-m0-names", "en-t-m0-prprname"),
    // both, with all else as it was
    (
        "en-a-bcd-t-m0-names-u-abc-ca-islamicc-kb-yes-x-mine",
        "en-a-bcd-t-m0-prprname-u-abc-ca-islamic-civil-kb-x-mine",
    ),
    // two steps, and from the middle of them
    ("en-u-ka-one", "en-u-ka-three"),
    ("en-u-ka-two", "en-u-ka-three"),
    // no alias of another key
    ("en-u-cf-islamicc", "en-u-cf-islamicc"),
    // at `rg` the rules speak, and no row is asked
    ("en-u-rg-uszzzz", "en-u-rg-uszzzz"),
    // circles, named by the first that comes again
    ("en-u-kc-one", "NoValueFixedPoint kc one"),
    ("en-u-kc-two", "NoValueFixedPoint kc two"),
    ("en-u-kc-zero", "NoValueFixedPoint kc one"),
    // fields are asked before keywords, and keys rise
    ("en-t-k0-one-u-kc-one", "NoFieldFixedPoint k0 one"),
    ("en-u-ka-one-kc-one-kd-one", "NoValueFixedPoint kc one"),
];

// The same over rules that lead round.
static BEFORE_RULES: [(&str, &str); 3] = [
    ("aa", "NoFixedPoint aa"),
    ("aa-u-kc-one", "NoValueFixedPoint kc one"),
    ("aa-u-ca-islamicc", "NoFixedPoint aa"),
];

// What became of a locale identifier, or what comes again.
fn told(
    rt: &impl Abort,
    alloc: Global,
    answer: &Result<TransformResult, WholeError>,
    locale: &LocaleIdentifier,
) -> String {
    match answer {
        Ok(_) => text(alloc, locale).expect(rt, "text"),
        Err(WholeError::NoFixedPoint(id)) => {
            format!(in alloc; "NoFixedPoint {id}").expect(rt, "memory")
        }
        Err(WholeError::NoValueFixedPoint(key, first)) => {
            format!(in alloc; "NoValueFixedPoint {key} {first}").expect(rt, "memory")
        }
        Err(WholeError::NoFieldFixedPoint(key, first)) => {
            format!(in alloc; "NoFieldFixedPoint {key} {first}").expect(rt, "memory")
        }
        Err(refusal) => text(alloc, refusal).expect(rt, "text"),
    }
}

fn becomes(rt: &impl Abort, alloc: Global, whole: &WholeCanonicalizer<'_>, row: &(&str, &str)) {
    let (from, to) = *row;
    let before = whole_identifier(alloc, from).expect(rt, "whole identifier");
    let mut locale = whole_identifier(alloc, from).expect(rt, "whole identifier");
    let answer = whole.canonicalize(&mut locale);
    let mut counted = whole_identifier(alloc, from).expect(rt, "whole identifier");
    let again = whole.canonicalize_counted(&mut counted, &mut Turns::new());
    let again = told(rt, alloc, &again, &counted);
    let told = told(rt, alloc, &answer, &locale);
    assert!(rt; told.as_str() == to, "{told} at {from}");
    assert!(rt;
        again == told && counted == locale,
        "the counted call differs at {from}"
    );
    let is_same = locale == before;
    match answer {
        Ok(TransformResult::Modified) => assert!(rt; !is_same, "at {from}"),
        Ok(TransformResult::Unmodified) | Err(_) => assert!(rt; is_same, "at {from}"),
    }
}

fn over_rules(
    rt: &impl Abort,
    alloc: Global,
    sample: &Tables,
    own: &Tables,
    rows: &[(&str, &str)],
) {
    let expander = LocaleExpander::try_new_common_unstable(sample).expect(rt, "tables");
    let aliases = own.load_aliases().expect(rt, "aliases");
    let read = ReadRules::read(alloc, aliases).expect(rt, "tables");
    let keywords = keyword_table(alloc).expect(rt, "keyword table");
    let fields = field_table(alloc).expect(rt, "field table");
    let whole = WholeCanonicalizer {
        rules: CanonicalizerRef::over(&read, aliases, expander),
        values: ValueAliases {
            keywords: &keywords,
            fields: &fields,
        },
    };
    for row in rows {
        becomes(rt, alloc, &whole, row);
    }
}

#[test]
fn whole_forms(rt: HostRuntime) {
    let alloc = rt.alloc();
    let sample = sample(alloc).expect(&rt, "sample");
    over_rules(&rt, alloc, &sample, &sample, &FORMS);
}

#[test]
fn values_are_asked_before_rules(rt: HostRuntime) {
    let alloc = rt.alloc();
    let sample = sample(alloc).expect(&rt, "sample");
    let own = tables(alloc, CIRCLING).expect(&rt, "tables");
    over_rules(&rt, alloc, &sample, &own, &BEFORE_RULES);
}

// What a refusal is named.
#[test]
fn refusals_are_named(rt: HostRuntime) {
    let alloc = rt.alloc();
    let one = value(alloc, "one").expect(&rt, "value");
    let again = identifier(alloc, "aa").expect(&rt, "identifier");
    let named = text(alloc, &WholeError::Memory).expect(&rt, "text");
    assert!(&rt; named.as_str() == "Memory");
    let named = text(alloc, &WholeError::NoFixedPoint(again)).expect(&rt, "text");
    assert!(&rt; named.as_str() == "NoFixedPoint");
    let named = text(alloc, &WholeError::NoSubdivisionFixedPoint(one)).expect(&rt, "text");
    assert!(&rt; named.as_str() == "NoSubdivisionFixedPoint");
}
