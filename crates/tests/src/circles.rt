//! Rules that lead round: what the calls of a canonicalizer that owns its rules name then.
use icu_locale::{CanonicalizeError, LocaleCanonicalizer, LocaleExpander, Turns};
use icu_locale_core::Locale;
use icu_provider::DataProvider;
use icu_tables::Tables;
use std::alloc::Global;
use std::process::Abort;
use tests_shared::known::{identifier, key, sample, tables, value};

const CIRCLES: &str = "{\"aliases\":{\"language_len2\":{\"aa\":\"bb\",\"bb\":\"aa\"},\
    \"subdivision\":{\"aaa\":\"bbb\",\"bbb\":\"aaa\"}}}";

// Why a call is refused, and what comes again.
fn told(rt: &impl Abort, alloc: Global, refused: Option<CanonicalizeError>) -> String {
    match refused {
        Some(CanonicalizeError::NoFixedPoint(id)) => {
            format!(in alloc; "NoFixedPoint {id}").expect(rt, "memory")
        }
        Some(CanonicalizeError::NoSubdivisionFixedPoint(first)) => {
            format!(in alloc; "NoSubdivisionFixedPoint {first}").expect(rt, "memory")
        }
        Some(refusal) => format!(in alloc; "{refusal}").expect(rt, "memory"),
        None => format!(in alloc; "no refusal").expect(rt, "memory"),
    }
}

// An identifier that comes again, alone and in a locale.
fn of_identifiers(rt: &impl Abort, alloc: Global, canonicalizer: &LocaleCanonicalizer<'_>) {
    let mut id = identifier(alloc, "aa").expect(rt, "identifier");
    let refused = canonicalizer.canonicalize_identifier(&mut id).err();
    assert_eq!(rt; told(rt, alloc, refused).as_str(), "NoFixedPoint aa");
    let refused = canonicalizer
        .canonicalize_identifier_counted(&mut id, &mut Turns::new())
        .err();
    assert_eq!(rt; told(rt, alloc, refused).as_str(), "NoFixedPoint aa");
    let mut locale = Locale::new(alloc, id);
    let refused = canonicalizer
        .canonicalize_counted(&mut locale, &mut Turns::new())
        .err();
    assert_eq!(rt; told(rt, alloc, refused).as_str(), "NoFixedPoint aa");
}

// A value that comes again.
fn of_values(rt: &impl Abort, alloc: Global, canonicalizer: &LocaleCanonicalizer<'_>) {
    let mut locale = Locale::new(alloc, identifier(alloc, "en").expect(rt, "identifier"));
    let value = value(alloc, "aaa").expect(rt, "value");
    let keywords = &mut locale.extensions.unicode.keywords;
    let _ = keywords
        .set(key("rg").expect(rt, "key"), value)
        .expect(rt, "memory");
    let refused = canonicalizer
        .canonicalize_counted(&mut locale, &mut Turns::new())
        .err();
    assert_eq!(rt;
        told(rt, alloc, refused).as_str(),
        "NoSubdivisionFixedPoint aaa"
    );
}

fn over_circles(rt: &impl Abort, alloc: Global, sample: &Tables, own: &Tables) {
    let expander = LocaleExpander::try_new_common_unstable(sample).expect(rt, "tables");
    let aliases = own.load_aliases().expect(rt, "aliases");
    let canonicalizer = LocaleCanonicalizer::new_with_expander(alloc, aliases, expander);
    let canonicalizer = canonicalizer.expect(rt, "rules");
    of_identifiers(rt, alloc, &canonicalizer);
    of_values(rt, alloc, &canonicalizer);
}

#[test]
fn rules_that_lead_round(rt: HostRuntime) {
    let alloc = rt.alloc();
    let sample = sample(alloc).expect(&rt, "sample");
    let own = tables(alloc, CIRCLES).expect(&rt, "tables");
    over_circles(&rt, alloc, &sample, &own);
}
