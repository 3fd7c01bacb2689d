//! Whole canonical forms.
use crate::budget::{Answered, Call, stands};
use icu_locale::{CanonicalizerRef, LocaleExpander, ReadRules, TransformResult};
use icu_locale_extensions::LocaleIdentifier;
use icu_locale_values::{ValueAliases, WholeCanonicalizer, WholeError};
use icu_provider::DataProvider;
use icu_tables::Tables;
use std::alloc::Global;
use std::process::Abort;
use tests_shared::known::sample;
use tests_shared::values::{field_table, keyword_table, whole_identifier};

// Bringing a copy of a locale identifier to its whole canonical form: it is the wanted one, or as it was.
#[derive(Drop)]
struct BringWhole<'d>(
    WholeCanonicalizer<'d>,
    &'d LocaleIdentifier,
    &'d LocaleIdentifier,
);

impl Call for BringWhole<'_> {
    fn answer(&self, _alloc: Global) -> Answered {
        let Ok(mut locale) = self.1.try_clone() else {
            return Answered::Refused;
        };
        match self.0.canonicalize(&mut locale) {
            Ok(TransformResult::Modified) if locale == *self.2 => Answered::Whole,
            Err(WholeError::Memory) if locale == *self.1 => Answered::Refused,
            _ => Answered::Wrong,
        }
    }
}

fn over_tables(rt: &impl Abort, alloc: Global, tables: &Tables) {
    let expander = LocaleExpander::try_new_common_unstable(tables).expect(rt, "tables");
    let aliases = tables.load_aliases().expect(rt, "aliases");
    let read = ReadRules::read(alloc, aliases).expect(rt, "tables");
    let keywords = keyword_table(alloc).expect(rt, "keyword table");
    let fields = field_table(alloc).expect(rt, "field table");
    let whole = WholeCanonicalizer {
        rules: CanonicalizerRef::over(&read, aliases, expander),
        values: ValueAliases {
            keywords: &keywords,
            fields: &fields,
        },
    };
    let from = whole_identifier(alloc, "en-t-m0-names-u-ca-islamicc-ka-one").expect(
        rt,
        "whole identifier",
    );
    let to = whole_identifier(alloc, "en-t-m0-prprname-u-ca-islamic-civil-ka-three").expect(
        rt,
        "whole identifier",
    );
    let call = BringWhole(whole, &from, &to);
    stands(rt, alloc, &call);
}

#[test]
fn whole_forms_without_memory(rt: HostRuntime) {
    let alloc = rt.alloc();
    let tables = sample(alloc).expect(&rt, "sample");
    over_tables(&rt, alloc, &tables);
}
