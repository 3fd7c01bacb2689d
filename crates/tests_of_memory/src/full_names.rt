//! Names of locale identifiers.
use crate::budget::{Answered, Call, stands};
use icu_locale_extensions::LocaleIdentifier;
use icu_locale_full_names::LocaleDisplayName;
use icu_locale_names::{DisplayNamesPreferences, LanguageIdentifierDisplayNameOptions, NameChain};
use icu_provider::{DataErrorKind, ExtensionNames};
use icu_tables::Tables;
use std::alloc::Global;
use tests_shared::known::{english, sample};
use tests_shared::names::called;
use tests_shared::values::whole_identifier;

// Making a name: it is the wanted one, or there is none.
#[derive(Drop)]
struct MakeName<'d> {
    tables: &'d Tables,
    names: &'d ExtensionNames,
    preferences: DisplayNamesPreferences,
    subject: &'d LocaleIdentifier,
    wanted: &'d str,
}

impl Call for MakeName<'_> {
    fn answer(&self, alloc: Global) -> Answered {
        match LocaleDisplayName::try_new_unstable(
            alloc,
            self.tables,
            self.names,
            NameChain::Light,
            self.preferences,
            self.subject,
            LanguageIdentifierDisplayNameOptions::default(),
        ) {
            Ok(name) if name.as_str() == self.wanted => Answered::Whole,
            Err(refusal) if refusal.kind == DataErrorKind::Memory => Answered::Refused,
            _ => Answered::Wrong,
        }
    }
}

#[test]
fn full_names_without_memory(rt: HostRuntime) {
    let alloc = rt.alloc();
    let tables = sample(alloc).expect(&rt, "sample");
    let supplement = called(alloc).expect(&rt, "called");
    let preferences = english().expect(&rt, "english");
    let names = supplement
        .extension_names
        .get(&preferences.locale)
        .expect(&rt, "English");
    let text = "it-t-it-fonipa-posix-u-ca-buddhist-cu-eur-kc-one-two-x-mine";
    let subject = whole_identifier(alloc, text).expect(&rt, "identifier");
    let call = MakeName {
        tables: &tables,
        names,
        preferences,
        subject: &subject,
        wanted: "Italian (Transform: Italian [IPA Phonetics, posix], Buddhist Calendar, Currency: €, kc: one-two, x: mine)",
    };
    stands(&rt, alloc, &call);
}
