//! Making canonicalizers, and canonicalizing.
use crate::budget::{Answered, Call, stands, take_all};
use icu_locale::{CanonicalizeError, LocaleCanonicalizer, LocaleExpander, TransformResult};
use icu_locale_core::{LanguageIdentifier, Locale, ParseError};
use icu_provider::{Aliases, DataErrorKind, DataProvider};
use icu_tables::Tables;
use std::alloc::{AllocError, Global};
use std::process::Abort;
use tests_shared::known::{identifier, key, sample, tables, value};
use tests_shared::values::{CIRCLING, ENDING};

// Rules, an identifier, a transform language or none, and what becomes of them where no memory is left: what they are
// then, or the identifier that comes again. Nothing of them has variants.
static WITHOUT_MEMORY: [(&str, &str, &str, &str); 21] = [
    (ENDING, "sh", "", "sr-Latn"),
    (ENDING, "sh-Cyrl", "", "sr-Cyrl"),
    (ENDING, "aa", "", "cc"),
    (ENDING, "en-Qaai-276", "", "en-Zinh-DE"),
    (ENDING, "ja", "sh", "ja sr-Latn"),
    (ENDING, "sh", "aa", "sr-Latn cc"),
    (CIRCLING, "aa", "", "NoFixedPoint aa"),
    (CIRCLING, "xx", "", "NoFixedPoint yy"),
    (CIRCLING, "sh", "", "sr-Latn"),
    (CIRCLING, "sh", "aa", "NoFixedPoint aa"),
    (CIRCLING, "ja", "xx", "NoFixedPoint yy"),
    (CIRCLING, "zz", "aa", "NoFixedPoint zz"),
    (ITSELF, "aa", "", "NoFixedPoint aa"),
    (SERBIAN, "sh", "", "sr-Latn"),
    (SERBIAN, "sh-Cyrl", "", "sr-Cyrl"),
    (TWO_STEPS, "aa", "", "cc"),
    (TWO_KINDS, "en-Qaai-276", "", "en-Zinh-DE"),
    (CIRCLE_OF_TWO, "aa", "", "NoFixedPoint aa"),
    (CIRCLE_OF_TWO, "sh", "aa", "NoFixedPoint aa"),
    (CIRCLE_AFTER_ONE, "aa", "", "NoFixedPoint bb"),
    (CIRCLE_AFTER_ONE, "bb", "", "NoFixedPoint bb"),
];

const SERBIAN: &str = "{\"aliases\":{\"language_len2\":{\"sh\":\"sr-Latn\"}}}";

const TWO_STEPS: &str = "{\"aliases\":{\"language_len2\":{\"aa\":\"bb\",\"bb\":\"cc\"}}}";

const TWO_KINDS: &str =
    "{\"aliases\":{\"script\":{\"Qaai\":\"Zinh\"},\"region_num\":{\"276\":\"DE\"}}}";

const CIRCLE_OF_TWO: &str =
    "{\"aliases\":{\"language_len2\":{\"aa\":\"bb\",\"bb\":\"aa\",\"sh\":\"sr-Latn\"}}}";

const CIRCLE_AFTER_ONE: &str =
    "{\"aliases\":{\"language_len2\":{\"aa\":\"bb\",\"bb\":\"cc\",\"cc\":\"bb\"}}}";

// Two variants that one replaces, and no other rule.
const HEPBURN: &str =
    "{\"aliases\":{\"language_variants\":[[\"und\",\"heploc-hepburn\",\"und-alalc97\"]]}}";

const ITSELF: &str = "{\"aliases\":{\"language_len2\":{\"aa\":\"aa\"}}}";

// What a call answers while no memory is left.
fn starved(
    rt: &impl Abort,
    alloc: Global,
    canonicalizer: &LocaleCanonicalizer<'_>,
    locale: &mut Locale,
) -> Result<TransformResult, CanonicalizeError> {
    let held = take_all(alloc).expect(rt, "memory");
    let answer = canonicalizer.canonicalize(locale);
    drop(held);
    answer
}

// A locale of an identifier and a transform language.
fn locale(rt: &impl Abort, alloc: Global, id: &str, transform: &str) -> Locale {
    let mut locale = Locale::new(alloc, identifier(alloc, id).expect(rt, "identifier"));
    if !transform.is_empty() {
        let transform = identifier(alloc, transform).expect(rt, "identifier");
        locale.extensions.transform.lang = Some(transform);
    }
    locale
}

// What became of a locale, or what comes again.
fn told(
    alloc: Global,
    answer: Result<TransformResult, CanonicalizeError>,
    locale: &Locale,
) -> Result<String, AllocError> {
    match answer {
        Ok(_) => match &locale.extensions.transform.lang {
            Some(transform) => format!(in alloc; "{} {transform}", locale.id),
            None => format!(in alloc; "{}", locale.id),
        },
        Err(CanonicalizeError::NoFixedPoint(again)) => format!(in alloc; "NoFixedPoint {again}"),
        Err(refusal) => format!(in alloc; "{refusal}"),
    }
}

fn starved_call(
    rt: &impl Abort,
    alloc: Global,
    canonicalizer: &LocaleCanonicalizer<'_>,
    (id, transform, want): (&str, &str, &str),
) {
    let mut after = locale(rt, alloc, id, transform);
    let answer = starved(rt, alloc, canonicalizer, &mut after);
    let is_kept = answer.is_ok() || after == locale(rt, alloc, id, transform);
    assert!(rt; is_kept, "at {id} {transform}");
    let told = told(alloc, answer, &after).expect(rt, "memory");
    assert!(rt; told.as_str() == want, "{told} at {id} {transform}");
}

fn starved_row(rt: &impl Abort, alloc: Global, sample: &Tables, row: (&str, &str, &str, &str)) {
    let own = tables(alloc, row.0).expect(rt, "tables");
    let canonicalizer = over_aliases(rt, alloc, sample, &own);
    starved_call(rt, alloc, &canonicalizer, (row.1, row.2, row.3));
}

// A canonicalizer over the own rules and the tables of the sample.
fn over_aliases<'t>(
    rt: &impl Abort,
    alloc: Global,
    sample: &'t Tables,
    own: &'t Tables,
) -> LocaleCanonicalizer<'t> {
    let expander = LocaleExpander::try_new_common_unstable(sample).expect(rt, "tables");
    let aliases = own.load_aliases().expect(rt, "aliases");
    LocaleCanonicalizer::new_with_expander(alloc, aliases, expander).expect(rt, "rules")
}

#[test]
fn canonicalizing_without_variants_takes_no_memory(rt: HostRuntime) {
    let alloc = rt.alloc();
    let tables = sample(alloc).expect(&rt, "sample");
    for row in &WITHOUT_MEMORY {
        starved_row(&rt, alloc, &tables, *row);
    }
}

// What a call on a locale with a value at `rg` answers while no memory is left (nothing, where it
// is refused), and whether the locale is as it was.
fn starved_value(
    rt: &impl Abort,
    alloc: Global,
    canonicalizer: &LocaleCanonicalizer<'_>,
    text: &str,
) -> (Option<TransformResult>, bool) {
    let mut locale = Locale::new(alloc, identifier(alloc, "en").expect(rt, "identifier"));
    let value = value(alloc, text).expect(rt, "value");
    let keywords = &mut locale.extensions.unicode.keywords;
    let _ = keywords
        .set(key("rg").expect(rt, "key"), value)
        .expect(rt, "memory");
    let before = locale.try_clone().expect(rt, "memory");
    let changed = match starved(rt, alloc, canonicalizer, &mut locale) {
        Ok(changed) => Some(changed),
        Err(CanonicalizeError::Memory) => None,
        Err(refusal) => panic!(rt; "{refusal}"),
    };
    (changed, locale == before)
}

const VALUES: &str =
    "{\"aliases\":{\"subdivision\":{\"abcdefg\":\"xyz\",\"hijklmn\":\"xyz-abc\"}}}";

// A value of one piece is copied without memory, one of two is not.
#[test]
fn values_without_memory(rt: HostRuntime) {
    let alloc = rt.alloc();
    let sample = sample(alloc).expect(&rt, "sample");
    let own = tables(alloc, VALUES).expect(&rt, "tables");
    values_over(&rt, alloc, &sample, &own);
}

fn values_over(rt: &impl Abort, alloc: Global, sample: &Tables, own: &Tables) {
    let canonicalizer = over_aliases(rt, alloc, sample, own);
    for (value, answer) in [
        ("xyz", (Some(TransformResult::Unmodified), true)),
        ("abcdefg", (Some(TransformResult::Modified), false)),
        ("hijklmn", (None, true)),
    ] {
        assert!(rt;
            starved_value(rt, alloc, &canonicalizer, value) == answer,
            "at {value}"
        );
    }
}

// Making a canonicalizer, which then replaces a language.
#[derive(Drop)]
struct MakeCanonicalizer<'d> {
    aliases: &'d Aliases,
    expander: LocaleExpander<'d>,
}

impl Call for MakeCanonicalizer<'_> {
    fn answer(&self, alloc: Global) -> Answered {
        match LocaleCanonicalizer::new_with_expander(alloc, self.aliases, self.expander) {
            Ok(canonicalizer) => {
                let call = Canonicalize {
                    canonicalizer: &canonicalizer,
                    from: "sh",
                    to: "sr-Latn",
                };
                call.answer(alloc)
            }
            Err(refusal) if refusal.kind == DataErrorKind::Memory => Answered::Refused,
            Err(_) => Answered::Wrong,
        }
    }
}

// Canonicalizing a locale.
#[derive(Drop)]
struct Canonicalize<'c, 'd> {
    canonicalizer: &'c LocaleCanonicalizer<'d>,
    from: &'c str,
    to: &'c str,
}

impl Call for Canonicalize<'_, '_> {
    fn answer(&self, alloc: Global) -> Answered {
        match self.try_answer(alloc) {
            Ok(answered) => answered,
            Err(ParseError::Memory) => Answered::Refused,
            Err(_) => Answered::Wrong,
        }
    }
}

impl Canonicalize<'_, '_> {
    // A refused call leaves the locale.
    fn try_answer(&self, alloc: Global) -> Result<Answered, ParseError> {
        let from = LanguageIdentifier::try_from_str(alloc, self.from)?;
        let to = LanguageIdentifier::try_from_str(alloc, self.to)?;
        let mut locale = Locale::new(alloc, from.try_clone()?);
        Ok(match self.canonicalizer.canonicalize(&mut locale) {
            Ok(TransformResult::Modified) if locale.id == to => Answered::Whole,
            Err(CanonicalizeError::Memory) if locale.id == from => Answered::Refused,
            _ => Answered::Wrong,
        })
    }
}

#[test]
fn canonicalizers(rt: HostRuntime) {
    let alloc = rt.alloc();
    let sample = sample(alloc).expect(&rt, "sample");
    let expander = LocaleExpander::try_new_common_unstable(&sample).expect(&rt, "tables");
    let aliases = sample.load_aliases().expect(&rt, "aliases");
    let make = MakeCanonicalizer { aliases, expander };
    stands(&rt, alloc, &make);
    let own = tables(alloc, HEPBURN).expect(&rt, "tables");
    for aliases in [aliases, own.load_aliases().expect(&rt, "aliases")] {
        replace_by_budget(&rt, alloc, aliases, expander);
    }
}

// Two variants are replaced by one.
fn replace_by_budget(
    rt: &impl Abort,
    alloc: Global,
    aliases: &Aliases,
    expander: LocaleExpander<'_>,
) {
    let canonicalizer = LocaleCanonicalizer::new_with_expander(alloc, aliases, expander).expect(
        rt, "rules",
    );
    let call = Canonicalize {
        canonicalizer: &canonicalizer,
        from: "ja-Latn-fonipa-hepburn-heploc",
        to: "ja-Latn-alalc97-fonipa",
    };
    stands(rt, alloc, &call);
}
