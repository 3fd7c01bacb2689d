//! Keys in a store.
use crate::budget::{Answered, Call, asks_nothing, stands};
use icu_locale::{CanonicalizeError, CanonicalizerRef, LocaleExpander, ReadRules, TransformResult};
use icu_locale_core::LanguageIdentifier;
use icu_locale_extensions::LocaleIdentifier;
use icu_locale_key::{
    bring_identifier_to_key, bring_to_stable_key, bring_whole_to_key, is_own_key,
};
use icu_locale_values::{ValueAliases, WholeCanonicalizer, WholeError};
use icu_provider::DataProvider;
use std::alloc::Global;
use std::process::Abort;
use tests_shared::known::{identifier, sample};
use tests_shared::values::{field_table, keyword_table, whole_identifier};

// Bringing a copy of an identifier to its key that stays, and asking whether that is its own: the key is the wanted one,
// or the identifier is as it was.
#[derive(Drop)]
struct BringToKey<'d>(
    CanonicalizerRef<'d>,
    &'d LanguageIdentifier,
    &'d LanguageIdentifier,
);

impl Call for BringToKey<'_> {
    fn answer(&self, _alloc: Global) -> Answered {
        let Ok(mut id) = self.1.try_clone() else {
            return Answered::Refused;
        };
        match bring_to_stable_key(&self.0, &mut id) {
            Ok(()) if id == *self.2 => is_stable(&self.0, &id),
            Err(CanonicalizeError::Memory) if id == *self.1 => Answered::Refused,
            _ => Answered::Wrong,
        }
    }
}

fn is_stable(rules: &CanonicalizerRef<'_>, key: &LanguageIdentifier) -> Answered {
    match is_own_key(rules, key) {
        Ok(true) => Answered::Whole,
        Err(CanonicalizeError::Memory) => Answered::Refused,
        _ => Answered::Wrong,
    }
}

// Bringing a copy of a locale identifier to its key: the key is the wanted one and told as changed, or the locale identifier
// is as it was.
#[derive(Drop)]
struct BringWholeToKey<'d>(
    WholeCanonicalizer<'d>,
    &'d LocaleIdentifier,
    &'d LocaleIdentifier,
);

impl Call for BringWholeToKey<'_> {
    fn answer(&self, _alloc: Global) -> Answered {
        let Ok(mut locale) = self.1.try_clone() else {
            return Answered::Refused;
        };
        match bring_whole_to_key(&self.0, &mut locale) {
            Ok(TransformResult::Modified) => told(locale == *self.2),
            Err(WholeError::Memory) if locale == *self.1 => Answered::Refused,
            _ => Answered::Wrong,
        }
    }
}

// Bringing a copy of an identifier alone to its key: the key is the wanted one and told as changed, or the identifier is as
// it was.
#[derive(Drop)]
struct BringIdentifierToKey<'d>(
    WholeCanonicalizer<'d>,
    &'d LanguageIdentifier,
    &'d LanguageIdentifier,
);

impl Call for BringIdentifierToKey<'_> {
    fn answer(&self, _alloc: Global) -> Answered {
        let Ok(mut id) = self.1.try_clone() else {
            return Answered::Refused;
        };
        match bring_identifier_to_key(&self.0, &mut id) {
            Ok(TransformResult::Modified) => told(id == *self.2),
            Err(WholeError::Memory) if id == *self.1 => Answered::Refused,
            _ => Answered::Wrong,
        }
    }
}

fn told(is_wanted: bool) -> Answered {
    if is_wanted {
        Answered::Whole
    } else {
        Answered::Wrong
    }
}

// Bringing an identifier to a key that is seen at once, which is its own.
#[derive(Drop)]
struct KeepKey<'d>(WholeCanonicalizer<'d>, &'d LanguageIdentifier);

impl Call for KeepKey<'_> {
    fn answer(&self, _alloc: Global) -> Answered {
        let Ok(mut id) = self.1.try_clone() else {
            return Answered::Refused;
        };
        match bring_identifier_to_key(&self.0, &mut id) {
            Ok(TransformResult::Unmodified) => told(id == *self.1),
            Err(WholeError::Memory) => Answered::Refused,
            _ => Answered::Wrong,
        }
    }
}

fn keys_stand(rt: &impl Abort, alloc: Global, rules: CanonicalizerRef<'_>) {
    let from = identifier(alloc, "ja-Latn-hepburn-heploc").expect(rt, "identifier");
    let to = identifier(alloc, "ja-Latn-alalc97").expect(rt, "identifier");
    let call = BringToKey(rules, &from, &to);
    stands(rt, alloc, &call);
}

fn whole_keys_stand(rt: &impl Abort, alloc: Global, rules: CanonicalizerRef<'_>) {
    let keywords = keyword_table(alloc).expect(rt, "keyword table");
    let fields = field_table(alloc).expect(rt, "field table");
    let values = ValueAliases {
        keywords: &keywords,
        fields: &fields,
    };
    let from = whole_identifier(alloc, "en-US-t-m0-names-u-ca-islamicc-ka-one");
    let from = from.expect(rt, "whole identifier");
    let to = whole_identifier(alloc, "en-t-m0-prprname-u-ca-islamic-civil-ka-three");
    let to = to.expect(rt, "whole identifier");
    let canonicalizer = WholeCanonicalizer { rules, values };
    stands(rt, alloc, &BringWholeToKey(canonicalizer, &from, &to));
    let from = identifier(alloc, "ja-Latn-hepburn-heploc").expect(rt, "identifier");
    let to = identifier(alloc, "ja-Latn-alalc97").expect(rt, "identifier");
    stands(rt, alloc, &BringIdentifierToKey(canonicalizer, &from, &to));
    let own = identifier(alloc, "en").expect(rt, "identifier");
    asks_nothing(rt, alloc, &KeepKey(canonicalizer, &own));
}

#[test]
fn keys_without_memory(rt: HostRuntime) {
    let alloc = rt.alloc();
    let tables = sample(alloc).expect(&rt, "sample");
    let expander = LocaleExpander::try_new_common_unstable(&tables).expect(&rt, "tables");
    let aliases = tables.load_aliases().expect(&rt, "aliases");
    let read = ReadRules::read(alloc, aliases).expect(&rt, "tables");
    let rules = CanonicalizerRef::over(&read, aliases, expander);
    keys_stand(&rt, alloc, rules);
    whole_keys_stand(&rt, alloc, rules);
}
