//! Names of identifiers over providers that refuse a load, and into sinks that fail.
ghost use Rattle.std.specs.Prelude.{Err, if◌then◌else◌};
ghost use Rattle.icu_locale_core.specs.Maps.{value_at};
ghost use Rattle.icu_provider.specs.Requests.{exemplar_cmp, locale_cmp, menu_cmp};
ghost use Rattle.icu_provider.specs.contracts.names.NameMarkerPartialEq.TheImpl as name_marker;
ghost use Rattle.icu_tables.specs.LentNames.{all_names};
ghost use Rattle.icu_tables.specs.Tables.{held, name_in};

use icu_locale_core::{Language, LanguageIdentifier};
use icu_locale_names::{
    DisplayNamesPreferences, LanguageIdentifierDisplayName as Name,
    LanguageIdentifierDisplayNameBorrowed, LanguageIdentifierDisplayNameOptions, NameChain,
    NameWriteError,
};
use icu_provider::{
    Aliases, DataError, DataErrorKind, DataLocale, DataProvider, ExemplarCharactersData,
    ExemplarMarker, LikelySubtagsExtended, LikelySubtagsForLanguage, LikelySubtagsForScriptRegion,
    LocaleNamesEssentials, MenuMarker, MenuNameParts, NameKey, NameMarker, ScriptDirection,
};
use icu_tables::Tables;
use std::alloc::Global;
use std::process::Abort;
use tests_shared::fakes::HeldWriter;
use tests_shared::known::{english, identifier, sample, variant};
use tests_shared::names::{CHAINS, RAW, named, patterns};
use tests_shared::refusing::{KINDS, Refusing, refusal, willing};

// Markers that are in the chains, one for each part of a name.
const MARKERS: [NameMarker; 4] = [
    NameMarker::LanguageMediumTiny,
    NameMarker::ScriptMediumTiny,
    NameMarker::RegionMediumTiny,
    NameMarker::VariantMediumHeavy,
];

// What refuses a name where a load of a part is refused: a part that is not found is passed over.
fn refusal_of_a_part(kind: DataErrorKind) -> Option<DataError> {
    if kind == DataErrorKind::IdentifierNotFound {
        None
    } else {
        refusal(kind)
    }
}

// What a chain of names is refused by, if it is.
fn refused_by(
    rt: &impl Abort,
    alloc: Global,
    provider: &Refusing<'_>,
    subject: &LanguageIdentifier,
    chain: NameChain,
) -> Option<DataError> {
    let of = english().expect(rt, "english");
    named(alloc, provider, of, subject, chain).err()
}

fn refused_at_a_name(
    rt: &impl Abort,
    alloc: Global,
    tables: &Tables,
    subject: &LanguageIdentifier,
    kind: DataErrorKind,
) {
    for marker in MARKERS {
        let mut provider = willing(tables);
        provider.names = refusal(kind);
        provider.names_at = Some(marker);
        for chain in CHAINS {
            let refused = refused_by(rt, alloc, &provider, subject, chain);
            assert!(rt; refused == refusal_of_a_part(kind));
        }
    }
}

// Patterns are asked for by each chain, and must be there.
fn refused_at_the_patterns(
    rt: &impl Abort,
    alloc: Global,
    tables: &Tables,
    subject: &LanguageIdentifier,
    kind: DataErrorKind,
) {
    let mut provider = willing(tables);
    provider.essentials = refusal(kind);
    for chain in CHAINS {
        let refused = refused_by(rt, alloc, &provider, subject, chain);
        assert!(rt; refused == refusal(kind));
    }
}

// Names in menus are asked for by the four chains of menus.
fn refused_at_the_menus(
    rt: &impl Abort,
    alloc: Global,
    tables: &Tables,
    subject: &LanguageIdentifier,
    kind: DataErrorKind,
) {
    let mut provider = willing(tables);
    provider.menus = refusal(kind);
    for chain in CHAINS {
        let refused = refused_by(rt, alloc, &provider, subject, chain);
        let asks = matches!(
            chain,
            NameChain::MenuLight
                | NameChain::ShortMenuLight
                | NameChain::MenuHeavy
                | NameChain::ShortMenuHeavy
        );
        let wanted = if asks { refusal_of_a_part(kind) } else { None };
        assert!(rt; refused == wanted);
    }
}

#[test]
fn each_refusal_at_each_load_of_a_name(rt: HostRuntime) {
    let alloc = rt.alloc();
    let tables = patterns(alloc).expect(&rt, "patterns");
    for subject in SUBJECTS {
        let subject = identifier(alloc, subject).expect(&rt, "identifier");
        for kind in KINDS {
            refused_at_a_name(&rt, alloc, &tables, &subject, kind);
            refused_at_the_patterns(&rt, alloc, &tables, &subject, kind);
            refused_at_the_menus(&rt, alloc, &tables, &subject, kind);
        }
    }
}

// One variant, two, and many.
const SUBJECTS: [&str; 3] = [
    "it-Latn-US-fonipa",
    "it-Latn-US-fonipa-posix",
    "it-Latn-US-1901-1994-1996-abl1943-alalc97-aluku-ao1990-arevela-arevmda-baku1926-biske-fonipa",
];

// Tables behind a provider that refuses the names of two markers.
#[derive(Drop)]
struct RefusingTwo<'t> {
    tables: &'t Tables,
    first: NameMarker,
    first_refusal: DataError,
    second: NameMarker,
    second_refusal: DataError,
}

impl DataProvider for RefusingTwo<'_> {
    ghost likely_language = { λ p. held p.tables.now.likely_language };

    ghost likely_script_region = { λ p. held p.tables.now.likely_script_region };

    ghost likely_extended = { λ p. held p.tables.now.likely_extended };

    ghost aliases = { λ p. held p.tables.now.aliases };

    ghost script_direction = { λ p. held p.tables.now.script_direction };

    ghost exemplars = { λ p marker locale.
        held (value_at exemplar_cmp p.tables.now.exemplars (marker, locale)) };

    ghost name = { λ p marker locale key.
        if name_marker.ghosts.eq p.first marker then Err p.first_refusal
        else if name_marker.ghosts.eq p.second marker then Err p.second_refusal
        else held (name_in (all_names p.tables.now) marker locale key) };

    ghost menu = { λ p marker locale language.
        held (value_at menu_cmp p.tables.now.menus (marker, locale, language)) };

    ghost essentials = { λ p locale. held (value_at locale_cmp p.tables.now.essentials locale) };

    fn load_likely_language(&self) -> Result<&LikelySubtagsForLanguage, DataError> {
        self.tables.load_likely_language()
    }

    fn load_likely_script_region(&self) -> Result<&LikelySubtagsForScriptRegion, DataError> {
        self.tables.load_likely_script_region()
    }

    fn load_likely_extended(&self) -> Result<&LikelySubtagsExtended, DataError> {
        self.tables.load_likely_extended()
    }

    fn load_aliases(&self) -> Result<&Aliases, DataError> {
        self.tables.load_aliases()
    }

    fn load_script_direction(&self) -> Result<&ScriptDirection, DataError> {
        self.tables.load_script_direction()
    }

    fn load_exemplars(
        &self,
        marker: ExemplarMarker,
        locale: DataLocale,
    ) -> Result<&ExemplarCharactersData, DataError> {
        self.tables.load_exemplars(marker, locale)
    }

    fn load_name(
        &self,
        marker: NameMarker,
        locale: DataLocale,
        key: NameKey,
    ) -> Result<&str, DataError> {
        if self.first == marker {
            return Err(self.first_refusal);
        }
        if self.second == marker {
            return Err(self.second_refusal);
        }
        self.tables.load_name(marker, locale, key)
    }

    fn load_menu(
        &self,
        marker: MenuMarker,
        locale: DataLocale,
        language: Language,
    ) -> Result<&MenuNameParts, DataError> {
        self.tables.load_menu(marker, locale, language)
    }

    fn load_essentials(&self, locale: DataLocale) -> Result<&LocaleNamesEssentials, DataError> {
        self.tables.load_essentials(locale)
    }
}

#[test]
fn the_script_is_asked_for_before_the_region(rt: HostRuntime) {
    let alloc = rt.alloc();
    let tables = patterns(alloc).expect(&rt, "patterns");
    let provider = RefusingTwo {
        tables: &tables,
        first: NameMarker::RegionMediumLight,
        first_refusal: DataError {
            kind: DataErrorKind::InvalidRequest,
        },
        second: NameMarker::ScriptMediumLight,
        second_refusal: DataError {
            kind: DataErrorKind::Custom,
        },
    };
    let subject = identifier(alloc, "it-Latn-US").expect(&rt, "identifier");
    let refused = named(
        alloc,
        &provider,
        english().expect(&rt, "english"),
        &subject,
        NameChain::Light,
    )
    .err();
    assert!(rt; refused == refusal(DataErrorKind::Custom));
}

// A name that is written to sinks of every length but its own.
fn failed_writes(
    rt: &impl Abort,
    alloc: Global,
    name: LanguageIdentifierDisplayNameBorrowed<'_>,
    text: &[u8],
) {
    for room in 0..text.len() {
        let mut sink = HeldWriter::new(room);
        let mut parts = Vec::new(alloc);
        parts.push((1, 2)).expect(rt, "memory");
        let written = name.try_write_to_parts(&mut sink, &mut parts);
        assert!(rt; written.err() == Some(NameWriteError::Sink));
        assert!(rt; sink.written() == &text[..room]);
        assert!(rt; parts.as_slice() == [(1, 2)].as_slice());
    }
}

// Two writes put their spans one behind the other, after those that a list has.
fn writes_twice(
    rt: &impl Abort,
    alloc: Global,
    name: LanguageIdentifierDisplayNameBorrowed<'_>,
    spans: &[(usize, usize)],
) {
    let mut sink = HeldWriter::new(128);
    let mut parts = Vec::new(alloc);
    parts.push((1, 2)).expect(rt, "memory");
    for count in [1, 2] {
        let written = name.try_write_to_parts(&mut sink, &mut parts);
        assert!(rt; matches!(written, Ok(Err(_))));
        assert!(rt; parts.len() == spans.len().saturating_mul(count).saturating_add(1));
        assert!(rt; parts.as_slice().ends_with(spans));
    }
    assert!(rt; parts.as_slice().first().copied() == Some((1, 2)));
    assert!(rt; parts.as_slice().get(1..).unwrap_or(&[]).starts_with(spans));
}

#[test]
fn spans_are_put_behind_others(rt: HostRuntime) {
    let alloc = rt.alloc();
    let tables = sample(alloc).expect(&rt, "sample");
    for (subject, text, spans) in &RAW {
        let subject = identifier(alloc, subject).expect(&rt, "identifier");
        let name = named(
            alloc,
            &tables,
            english().expect(&rt, "english"),
            &subject,
            NameChain::Light,
        )
        .expect(&rt, "a name");
        failed_writes(&rt, alloc, name.as_borrowed(), text.as_bytes());
        writes_twice(&rt, alloc, name.as_borrowed(), spans);
    }
}

// What a name answers where there is memory, and the name of one variant is refused.
#[test]
fn a_refused_variant_is_no_want_of_memory(rt: HostRuntime) {
    let alloc = rt.alloc();
    let tables = patterns(alloc).expect(&rt, "patterns");
    let two = identifier(alloc, "it-fonipa-posix").expect(&rt, "identifier");
    for text in ["fonipa", "posix"] {
        let mut provider = willing(&tables);
        provider.names = refusal(DataErrorKind::Custom);
        provider.names_of = Some(NameKey::Variant(variant(text).expect(&rt, "variant")));
        let refused = named(
            alloc,
            &provider,
            english().expect(&rt, "english"),
            &two,
            NameChain::Light,
        )
        .err();
        assert!(rt; refused == refusal(DataErrorKind::Custom));
    }
}
