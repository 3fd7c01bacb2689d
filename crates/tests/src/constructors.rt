//! Each constructor once, over tables that are held.
use icu_locale::{
    AsExpander, CanonicalizerRef, Direction, LocaleCanonicalizer, LocaleDirectionality,
    LocaleExpander, ReadRules, TransformResult,
};
use icu_locale_core::Locale;
use icu_provider::{DataProvider, LikelySubtagsExtended};
use icu_tables::Tables;
use std::alloc::Global;
use std::process::Abort;
use tests_shared::known::{identifier, sample};

// The sample, with an extended table that holds nothing.
fn extended_sample(rt: &impl Abort, alloc: Global) -> Tables {
    let mut tables = sample(alloc).expect(rt, "sample");
    tables.set_likely_extended(LikelySubtagsExtended::new(alloc));
    tables
}

// A canonicalizer must make `gsg` of `sgn-DD`.
fn canonicalizes<'d, E: AsExpander<'d>>(
    rt: &impl Abort,
    alloc: Global,
    canonicalizer: &LocaleCanonicalizer<'d, E>,
) {
    let mut locale = Locale::new(alloc, identifier(alloc, "sgn-DD").expect(rt, "identifier"));
    let changed = canonicalizer.canonicalize(&mut locale).ok();
    assert!(rt; changed == Some(TransformResult::Modified));
    let wanted = identifier(alloc, "gsg").expect(rt, "identifier");
    assert!(rt; locale.id == wanted);
}

fn of_tables(rt: &impl Abort, alloc: Global, tables: &Tables) {
    let language = tables.load_likely_language().expect(rt, "likely language");
    let script_region = tables
        .load_likely_script_region()
        .expect(rt, "likely script region");
    let extended = tables.load_likely_extended().expect(rt, "likely extended");
    let aliases = tables.load_aliases().expect(rt, "aliases");
    let common = LocaleCanonicalizer::new_common(alloc, language, script_region, aliases);
    let common = common.expect(rt, "tables");
    canonicalizes(rt, alloc, &common);
    let all = LocaleCanonicalizer::new_extended(
        alloc,
        language,
        script_region,
        extended,
        aliases,
    ).expect(rt, "tables");
    canonicalizes(rt, alloc, &all);
}

fn of_a_provider(rt: &impl Abort, alloc: Global, tables: &Tables) {
    let common = LocaleCanonicalizer::try_new_common_unstable(alloc, tables).expect(rt, "tables");
    canonicalizes(rt, alloc, &common);
    let all = LocaleCanonicalizer::try_new_extended_unstable(alloc, tables).expect(rt, "tables");
    canonicalizes(rt, alloc, &all);
}

fn over_a_lent_expander(rt: &impl Abort, alloc: Global, tables: &Tables) {
    let expander = LocaleExpander::try_new_extended_unstable(tables).expect(rt, "tables");
    let lent = LocaleCanonicalizer::try_new_with_expander_unstable(alloc, tables, &expander);
    let lent = lent.expect(rt, "tables");
    canonicalizes(rt, alloc, &lent);
}

// What was read is lent with its table and an expander, put together with them, and taken back.
fn over_what_was_read(rt: &impl Abort, alloc: Global, tables: &Tables) {
    let expander = LocaleExpander::try_new_common_unstable(tables).expect(rt, "tables");
    let aliases = tables.load_aliases().expect(rt, "aliases");
    let read = ReadRules::read(alloc, aliases).expect(rt, "tables");
    let mut id = identifier(alloc, "sgn-DD").expect(rt, "identifier");
    let lent = CanonicalizerRef::over(&read, aliases, expander);
    assert!(rt; !lent.is_canonical(&id));
    let changed = lent.canonicalize_identifier(&mut id).ok();
    assert!(rt; changed == Some(TransformResult::Modified));
    let wanted = identifier(alloc, "gsg").expect(rt, "identifier");
    assert!(rt; id == wanted && lent.is_canonical(&id));
    let owned = LocaleCanonicalizer::over(read, aliases, expander);
    canonicalizes(rt, alloc, &owned);
    let again = LocaleCanonicalizer::over(owned.into_rules(), aliases, expander);
    canonicalizes(rt, alloc, &again);
}

#[test]
fn canonicalizers(rt: HostRuntime) {
    let alloc = rt.alloc();
    let tables = extended_sample(&rt, alloc);
    of_tables(&rt, alloc, &tables);
    of_a_provider(&rt, alloc, &tables);
    over_a_lent_expander(&rt, alloc, &tables);
    over_what_was_read(&rt, alloc, &tables);
}

// Arabic must run from right to left.
fn directs<'d, E: AsExpander<'d>>(
    rt: &impl Abort,
    alloc: Global,
    directionality: &LocaleDirectionality<'d, E>,
) {
    let arabic = identifier(alloc, "ar").expect(rt, "identifier");
    assert!(rt; directionality.get(&arabic) == Some(Direction::RightToLeft));
    assert!(rt; directionality.is_right_to_left(&arabic));
    assert!(rt; !directionality.is_left_to_right(&arabic));
}

fn made_of_tables(rt: &impl Abort, alloc: Global, tables: &Tables) {
    let expander = LocaleExpander::try_new_common_unstable(tables).expect(rt, "tables");
    let directions = tables
        .load_script_direction()
        .expect(rt, "script direction");
    let common = LocaleDirectionality::new_common(
        expander.language,
        expander.script_region,
        directions,
    );
    directs(rt, alloc, &common);
    let over_expander = LocaleDirectionality::new_with_expander(directions, expander);
    directs(rt, alloc, &over_expander);
}

fn made_of_a_provider(rt: &impl Abort, alloc: Global, tables: &Tables) {
    let common = LocaleDirectionality::try_new_common_unstable(tables).expect(rt, "tables");
    directs(rt, alloc, &common);
    let all = LocaleDirectionality::try_new_extended_unstable(tables).expect(rt, "tables");
    directs(rt, alloc, &all);
    let over_expander = LocaleDirectionality::try_new_with_expander_unstable(
        tables,
        common.expander,
    ).expect(rt, "memory");
    directs(rt, alloc, &over_expander);
}

#[test]
fn directionalities(rt: HostRuntime) {
    let alloc = rt.alloc();
    let tables = extended_sample(&rt, alloc);
    made_of_tables(&rt, alloc, &tables);
    made_of_a_provider(&rt, alloc, &tables);
}

fn lent_and_extended(rt: &impl Abort, alloc: Global, tables: &Tables) {
    let expander = LocaleExpander::try_new_extended_unstable(tables).expect(rt, "tables");
    let directions = tables
        .load_script_direction()
        .expect(rt, "script direction");
    let extended = tables.load_likely_extended().expect(rt, "likely extended");
    let lent = LocaleDirectionality::new_with_expander(directions, &expander);
    directs(rt, alloc, &lent);
    let all = LocaleDirectionality::new_extended(
        expander.language,
        expander.script_region,
        extended,
        directions,
    );
    directs(rt, alloc, &all);
}

#[test]
fn directionalities_over_an_extended_table(rt: HostRuntime) {
    let alloc = rt.alloc();
    let tables = extended_sample(&rt, alloc);
    lent_and_extended(&rt, alloc, &tables);
}
