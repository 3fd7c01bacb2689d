//! What `{:?}` writes: something of each value, and never the padding of a subtag.
use icu_locale::exemplar_chars::ExemplarCharacters;
use icu_locale::{
    CanonicalizeError, Direction, LocaleCanonicalizer, LocaleDirectionality, LocaleExpander,
    Negotiator, NegotiatorError, TransformResult, Turns,
};
use icu_locale_core::{Keywords, Language, Locale, ParseError};
use icu_locale_lines::{CliError, Command, Form, LineCommand, Naming, Status, Task, Tools};
use icu_locale_names::{
    LanguageDisplay, LanguageIdentifierDisplayName, LanguageIdentifierDisplayNameOptions,
    LanguageIdentifierNameFallbackError, NameChain, NameWriteError, RegionDisplayName,
    ScriptDisplayName, VariantDisplayName,
};
use icu_provider::{
    Aliases, DataError, DataErrorKind, DataProvider, ExemplarMarker, LikelySubtagsExtended,
    MenuMarker, NameKey, NameMarker, PatternItem,
};
use icu_tables::{LocaleTables, TableError, Tables};
use std::alloc::Global;
use std::fmt;
use std::process::Abort;
use tests_shared::known::{
    english, identifier, key, language, region, sample, script, subtag, value, variant,
};

fn shows<T: fmt::Debug>(rt: &impl Abort, alloc: Global, value: &T, word: &str) {
    let text = format!(in alloc; "{value:?}").expect(rt, "memory");
    assert!(rt; text.as_str().contains(word), "{word} in {text}");
    for padding in ["\0", "\\0", "\\u{0}", "[101, 110", "0, 0"] {
        assert!(rt; !text.as_str().contains(padding), "padding in {text}");
    }
}

#[test]
fn subtags(rt: HostRuntime) {
    let alloc = rt.alloc();
    shows(&rt, alloc, &language("en").expect(&rt, "language"), "en");
    shows(&rt, alloc, &language("yue").expect(&rt, "language"), "yue");
    shows(&rt, alloc, &script("latn").expect(&rt, "script"), "Latn");
    shows(&rt, alloc, &region("us").expect(&rt, "region"), "US");
    shows(&rt, alloc, &variant("1996").expect(&rt, "variant"), "1996");
    shows(&rt, alloc, &key("nu").expect(&rt, "key"), "nu");
    shows(&rt, alloc, &subtag("abc").expect(&rt, "subtag"), "abc");
    shows(&rt, alloc, &ParseError::InvalidSubtag, "InvalidSubtag");
}

#[test]
fn identifiers_and_values(rt: HostRuntime) {
    let alloc = rt.alloc();
    let id = identifier(alloc, "en-Latn-US-1996-fonipa").expect(&rt, "identifier");
    shows(&rt, alloc, &id, "Latn");
    shows(&rt, alloc, &id.variants, "1996");
    shows(&rt, alloc, &id.variants.iter(), "fonipa");
    let value = value(alloc, "thai-abc").expect(&rt, "value");
    shows(&rt, alloc, &value, "thai-abc");
    let mut keywords = Keywords::new(alloc);
    let _ = keywords
        .set(key("nu").expect(&rt, "key"), value)
        .expect(&rt, "memory");
    shows(&rt, alloc, &keywords, "thai-abc");
}

#[test]
fn locales(rt: HostRuntime) {
    let alloc = rt.alloc();
    let mut locale = Locale::new(alloc, identifier(alloc, "en").expect(&rt, "identifier"));
    let value = value(alloc, "thai").expect(&rt, "value");
    let keywords = &mut locale.extensions.unicode.keywords;
    let _ = keywords
        .set(key("nu").expect(&rt, "key"), value)
        .expect(&rt, "memory");
    let transform = identifier(alloc, "ja").expect(&rt, "identifier");
    locale.extensions.transform.lang = Some(transform);
    shows(&rt, alloc, &locale, "en");
    shows(&rt, alloc, &locale.extensions, "thai");
    shows(&rt, alloc, &locale.extensions.unicode, "nu");
    shows(&rt, alloc, &locale.extensions.transform, "ja");
}

fn rows_of_aliases(rt: &impl Abort, alloc: Global, held: &Aliases) {
    shows(rt, alloc, held, "gsg");
    shows(rt, alloc, &held.sgn_region, "gsg");
    shows(rt, alloc, &held.iter_sgn_region(), "gsg");
    shows(rt, alloc, &held.language, "und-DE");
    shows(rt, alloc, &held.language().first(), "StrStrPair");
    shows(rt, alloc, &held.language_variants().first(), "heploc");
}

fn tables_of_subtags(rt: &impl Abort, alloc: Global, tables: &Tables) {
    let languages = tables.load_likely_language().expect(rt, "languages");
    shows(rt, alloc, languages, "Hans");
    let scripts = tables.load_likely_script_region().expect(rt, "scripts");
    shows(rt, alloc, scripts, "Arab");
    let directions = tables.load_script_direction().expect(rt, "directions");
    shows(rt, alloc, directions, "Hebr");
    rows_of_aliases(rt, alloc, tables.load_aliases().expect(rt, "aliases"));
    shows(rt, alloc, tables, "Kurmanji");
}

fn tables_of_names(rt: &impl Abort, alloc: Global, tables: &Tables) {
    let locale = english().expect(rt, "english").locale;
    shows(rt, alloc, &locale, "en");
    let set = tables
        .load_exemplars(ExemplarMarker::Main, locale)
        .expect(rt, "a set");
    shows(rt, alloc, set, "ng");
    shows(rt, alloc, &set.ranges, "97");
    shows(rt, alloc, &set.strings, "ng");
    let menu = tables
        .load_menu(
            MenuMarker::MediumLight,
            locale,
            language("ku").expect(rt, "language"),
        )
        .expect(rt, "a name in a menu");
    shows(rt, alloc, menu, "Kurmanji");
    let patterns = tables.load_essentials(locale).expect(rt, "patterns");
    shows(rt, alloc, patterns, " (");
    shows(rt, alloc, &patterns.locale_separator, ", ");
}

#[test]
fn tables(rt: HostRuntime) {
    let alloc = rt.alloc();
    let tables = sample(alloc).expect(&rt, "sample");
    tables_of_subtags(&rt, alloc, &tables);
    tables_of_names(&rt, alloc, &tables);
}

#[test]
fn requests_and_refusals_of_loads(rt: HostRuntime) {
    let alloc = rt.alloc();
    shows(
        &rt,
        alloc,
        &LikelySubtagsExtended::new(alloc),
        "LikelySubtagsExtended",
    );
    shows(&rt, alloc, &PatternItem::Second, "Second");
    shows(&rt, alloc, &ExemplarMarker::Index, "Index");
    shows(&rt, alloc, &MenuMarker::MediumHeavy, "MediumHeavy");
    shows(&rt, alloc, &NameMarker::RegionShortTiny, "RegionShortTiny");
    shows(
        &rt,
        alloc,
        &NameKey::Language(Language::UNKNOWN, None, None),
        "und",
    );
    shows(&rt, alloc, &DataErrorKind::Custom, "Custom");
    let kind = DataErrorKind::MarkerNotFound;
    shows(&rt, alloc, &DataError { kind }, "MarkerNotFound");
    shows(&rt, alloc, &TableError::Shape, "Shape");
}

// What is made of tables, and what a command works with.
fn made(rt: &impl Abort, alloc: Global, tables: &Tables) {
    let expander = LocaleExpander::try_new_common_unstable(tables).expect(rt, "tables");
    shows(rt, alloc, &expander, "Hans");
    let directionality = LocaleDirectionality::try_new_common_unstable(tables).expect(rt, "tables");
    shows(rt, alloc, &directionality, "Hebr");
    shows(rt, alloc, &Tools::Direction(directionality), "Hebr");
    let work = Tools::Form(Form::Maximize, expander);
    shows(rt, alloc, &work, "Hans");
    let canonicalizer = LocaleCanonicalizer::try_new_common_unstable(alloc, tables);
    let canonicalizer = canonicalizer.expect(rt, "tables");
    shows(rt, alloc, &canonicalizer, "gsg");
    shows(rt, alloc, &canonicalizer.lend(), "gsg");
    shows(rt, alloc, &canonicalizer.rules, "alalc97");
    shows(rt, alloc, &canonicalizer.rules.read, "alalc97");
    shows(
        rt,
        alloc,
        &canonicalizer.rules.read.language.as_slice().first(),
        "DD",
    );
    let negotiator = Negotiator::try_new(alloc, expander, Vec::new(alloc));
    let negotiator = negotiator.expect(rt, "settled tables");
    shows(rt, alloc, &negotiator, "Hans");
    shows(rt, alloc, &negotiator.lend(), "Hans");
    let set = ExemplarCharacters::try_new_main_unstable(
        tables,
        english().expect(rt, "english").locale,
    );
    let set = set.expect(rt, "a set");
    shows(rt, alloc, &set, "ng");
    shows(rt, alloc, &set.as_borrowed(), "ng");
}

#[test]
fn what_is_made_of_tables(rt: HostRuntime) {
    let alloc = rt.alloc();
    let tables = sample(alloc).expect(&rt, "sample");
    made(&rt, alloc, &tables);
}

#[test]
fn answers_of_identifiers(rt: HostRuntime) {
    let alloc = rt.alloc();
    shows(&rt, alloc, &TransformResult::Unmodified, "Unmodified");
    shows(&rt, alloc, &Direction::LeftToRight, "LeftToRight");
    shows(&rt, alloc, &Turns::new(), "Turns");
    shows(&rt, alloc, &NegotiatorError::NotSettled, "NotSettled");
    let again = identifier(alloc, "en-fonipa").expect(&rt, "identifier");
    shows(
        &rt,
        alloc,
        &CanonicalizeError::NoFixedPoint(again),
        "fonipa",
    );
    let again = value(alloc, "abc").expect(&rt, "value");
    shows(
        &rt,
        alloc,
        &CanonicalizeError::NoSubdivisionFixedPoint(again),
        "abc",
    );
}

// Names show what was lent, or the subtag.
fn regions(rt: &impl Abort, alloc: Global, tables: &Tables) {
    let region = region("DE").expect(rt, "region");
    let name = RegionDisplayName::new_light_with_fallback(
        tables,
        english().expect(rt, "english"),
        region,
    );
    shows(rt, alloc, &name, "DE");
    shows(rt, alloc, &name.as_borrowed(), "DE");
}

fn scripts(rt: &impl Abort, alloc: Global, tables: &Tables) {
    let script = script("Latn").expect(rt, "script");
    let name = ScriptDisplayName::new_light_with_fallback(
        tables,
        english().expect(rt, "english"),
        script,
    );
    shows(rt, alloc, &name, "Latin");
    shows(rt, alloc, &name.as_borrowed(), "Latin");
}

fn variants(rt: &impl Abort, alloc: Global, tables: &Tables) {
    let variant = variant("posix").expect(rt, "variant");
    let name = VariantDisplayName::new_heavy_with_fallback(
        tables,
        english().expect(rt, "english"),
        variant,
    );
    shows(rt, alloc, &name, "posix");
    shows(rt, alloc, &name.as_borrowed(), "posix");
}

// What gives names to lines.
fn naming(rt: &impl Abort, alloc: Global, tables: &Tables) {
    let preferences = english().expect(rt, "english");
    let lent = LocaleTables::new(tables, preferences.locale);
    let naming = Naming {
        tables: lent,
        chain: NameChain::Light,
        preferences,
        extensions: None,
        canonicalizer: None,
    };
    shows(rt, alloc, &naming, "Kurmanji");
}

fn names_of_identifiers(rt: &impl Abort, alloc: Global, tables: &Tables) {
    let preferences = english().expect(rt, "english");
    let subject = identifier(alloc, "it-Latn-1996-fonipa").expect(rt, "identifier");
    let options = LanguageIdentifierDisplayNameOptions::default();
    let name = LanguageIdentifierDisplayName::try_new_light_unstable(
        alloc,
        tables,
        preferences,
        &subject,
        options,
    ).expect(rt, "a name");
    shows(rt, alloc, &name, "Italian");
    shows(rt, alloc, &name.as_borrowed(), "Latin");
}

#[test]
fn names_over_tables(rt: HostRuntime) {
    let alloc = rt.alloc();
    let tables = sample(alloc).expect(&rt, "sample");
    regions(&rt, alloc, &tables);
    scripts(&rt, alloc, &tables);
    variants(&rt, alloc, &tables);
    naming(&rt, alloc, &tables);
    names_of_identifiers(&rt, alloc, &tables);
}

#[test]
fn choices_and_refusals_of_names(rt: HostRuntime) {
    let alloc = rt.alloc();
    let of = english().expect(&rt, "english");
    shows(&rt, alloc, &of, "en");
    shows(&rt, alloc, &LanguageDisplay::Standard, "Standard");
    let options = LanguageIdentifierDisplayNameOptions::default();
    shows(&rt, alloc, &options, "None");
    let report = LanguageIdentifierNameFallbackError::default();
    shows(&rt, alloc, &report, "FallbackError");
    shows(&rt, alloc, &NameWriteError::TooLong, "TooLong");
    shows(
        &rt,
        alloc,
        &Command::Lines(LineCommand::plain(Task::Name(NameChain::ShortHeavy, of))),
        "ShortHeavy",
    );
    shows(&rt, alloc, &CliError::NotSettled, "NotSettled");
    shows(&rt, alloc, &Status::Refused, "Refused");
}
