//! The tables and the rules that a command needs, before the input is read.
ghost use Rattle.std.specs.Option.{option_copied};
ghost use Rattle.std.specs.Prelude.{◌≡◌, ◌&&◌, Option, Some, IfOk, IfErr, IfSome, IsSome, IsSomeAnd, IsOk, is_ok, is_some, true};
ghost use Rattle.icu_locale.specs.RuleSet.{lent, rules_over};
ghost use Rattle.icu_locale.specs.Rules.{HasNoTexts};
ghost use Rattle.icu_locale_lines.specs.Loads.{AreRulesOf, IsCanonicalizerOf, IsExpanderOf, IsRefusedRules, IsWholeOf, has_likely, has_rules, not_found};
ghost use Rattle.icu_locale_extensions.specs.declared.syntax.Syntax.{Syntax};
ghost use Rattle.icu_locale_lines.specs.Commands.{has_matching, has_tables, missing_for, missing_likely, missing_rules, names_canonical, reads_rules, unless};
ghost use Rattle.icu_locale_lines.specs.Held.{IsNamedBy, IsNamingOf, IsSubtagNamingOf};
ghost use Rattle.icu_locale_lines.specs.declared.command.Command.TheVariants.{Lines};
ghost use Rattle.icu_locale_fallback.specs.declared.fallbacker.LocaleFallbackPriority.TheVariants.{Language};
ghost use Rattle.icu_tables.specs.declared.tables.Tables.{Tables};

use crate::command::{ByRules, LineCommand, Task};
use crate::error::CliError;
use crate::work::name::Naming;
use crate::work::subtag::{SubtagChain, SubtagKind, SubtagNaming};
use crate::work::subtag_list::SubtagList;
use icu_locale::{CanonicalizerRef, LocaleDirectionality, LocaleExpander, ReadRules};
use icu_locale_extensions::Syntax;
use icu_locale_fallback::{
    LocaleFallbackConfig, LocaleFallbackPriority, LocaleFallbacker, LocaleFallbackerWithConfig,
};
use icu_locale_names::{DisplayNamesPreferences, NameChain};
use icu_locale_values::{ValueAliases, WholeCanonicalizer};
use icu_provider::{DataError, DataErrorKind, DataProvider, LanguageMatching};
use icu_tables::{LocaleTables, Tables};
use std::alloc::Global;

/// Whether a command works by rules: at `name` in a syntax where the tables have some.
pub fn reads_rules(command: &LineCommand, tables: &Tables) -> bool
    ensures { result ≡ reads_rules command.now tables.now }
{
    match command.task.row().rules {
        ByRules::Always => true,
        ByRules::InSyntax => names_canonical(command.syntax, tables),
        ByRules::Never => false,
    }
}

// Whether names are those of canonical forms.
fn names_canonical(syntax: Option<Syntax>, tables: &Tables) -> bool
    ensures { result ≡ names_canonical syntax tables.now }
{
    syntax.is_some() && has_rules(tables)
}

/// The rules that are read of the aliases. It takes memory for them.
///
/// # Errors
///
/// - `Data` exactly where a common likely table or the aliases are not held.
/// - `Memory` where the rules found no room: never where the aliases have no texts.
pub fn read_rules(alloc: Global, tables: &Tables) -> Result<ReadRules, CliError>
    ensures read { IfOk result (AreRulesOf tables.now) }
    ensures held { IfOk result (λ _. has_rules tables.now ≡ true) }
    ensures refused { IfErr result (IsRefusedRules tables.now) }
    ensures free { has_rules tables.now ≡ true → IfSome tables.now.aliases HasNoTexts
        → IsOk result }
{
    load_expander(tables)?;
    let aliases = tables.load_aliases()?;
    match ReadRules::read(alloc, aliases) {
        Ok(rules) => Ok(rules),
        Err(_) => Err(CliError::Memory),
    }
}

/// The first table that a command needs and that is not held, by its name in JSON. It takes no memory.
pub fn missing_table(command: &LineCommand, tables: &Tables) -> Option<&'static str>
    ensures { option_copied result ≡ missing_for command.now.task tables.now }
{
    let matching = unless(tables.supplement.matching.is_some(), "matching");
    match command.task {
        Task::Canonicalize => missing_rules(tables),
        Task::Key(_) => missing_rules(tables),
        Task::Direction => missing_likely(tables).or(unless(
            tables.script_direction.is_some(),
            "direction",
        )),
        Task::Serve(_) => matching.or(missing_rules(tables)),
        Task::Distance => matching.or(missing_likely(tables)),
        Task::Validate => unless(tables.supplement.validity.is_some(), "validity"),
        Task::Exemplars(marker, preferences) => {
            let set = tables.load_exemplars(marker, preferences.locale);
            unless(set.is_ok(), "exemplars")
        }
        Task::Form(_) => missing_likely(tables),
        Task::Negotiate => missing_likely(tables),
        Task::Fallback => missing_likely(tables),
        _ => None,
    }
}

/// Whether the tables that a command needs are held.
pub fn has_tables(command: &LineCommand, tables: &Tables) -> bool
    ensures { result ≡ has_tables (Lines command.now) tables.now }
{
    missing_table(command, tables).is_none()
}

// The first of the common likely tables that is not held.
fn missing_likely(tables: &Tables) -> Option<&'static str>
    ensures { option_copied result ≡ missing_likely tables.now }
{
    unless(tables.likely_language.is_some(), "likely_language").or(unless(
        tables.likely_script_region.is_some(),
        "likely_script_region",
    ))
}

// The first of these and the aliases that is not held.
fn missing_rules(tables: &Tables) -> Option<&'static str>
    ensures { option_copied result ≡ missing_rules tables.now }
{
    missing_likely(tables).or(unless(tables.aliases.is_some(), "aliases"))
}

// A table's name, where the table is not held.
fn unless(held: bool, name: &'static str) -> Option<&'static str>
    ensures { option_copied result ≡ unless held name.now }
{
    if held { None } else { Some(name) }
}

// Whether likely tables and aliases are held.
fn has_rules(tables: &Tables) -> bool
    ensures { result ≡ has_rules tables.now }
{
    tables.likely_language.is_some()
        && tables.likely_script_region.is_some()
        && tables.aliases.is_some()
}

/// The expander over the tables, with the extended one where it is held.
///
/// # Errors
///
/// `Data` exactly where a common likely table is not held.
pub fn load_expander(tables: &Tables) -> Result<LocaleExpander<'_>, CliError>
    ensures made { IfOk result (IsExpanderOf tables.entry.now) }
    ensures loaded { is_ok result ≡ has_likely tables.entry.now }
    ensures refused { IfErr result (λ e. e ≡ CliError.Data not_found) }
{
    if tables.likely_extended.is_some() {
        Ok(LocaleExpander::try_new_extended_unstable(tables)?)
    } else {
        Ok(LocaleExpander::try_new_common_unstable(tables)?)
    }
}

/// Rules that were read, over the tables and their expander. It takes no memory.
///
/// # Errors
///
/// `Data` exactly where a common likely table or the aliases are not held.
pub fn lend_rules<'r>(
    tables: &'r Tables,
    read: &'r ReadRules,
) -> Result<CanonicalizerRef<'r>, CliError>
    ensures expander { IfOk result (λ c. IsExpanderOf tables.now c.expander) }
    ensures rules { IfOk result (λ c. IsSomeAnd tables.now.aliases
        (λ table. lent c.rules ≡ rules_over read.now table)) }
    ensures loaded { is_ok result ≡ has_rules tables.now }
    ensures refused { IfErr result (λ e. e ≡ CliError.Data not_found) }
{
    let expander = load_expander(tables)?;
    let aliases = tables.load_aliases()?;
    Ok(CanonicalizerRef::over(read, aliases, expander))
}

// Rules that were read, and the match rules of the tables, which are asked for first: what is served by.
pub fn lend_service<'r>(
    tables: &'r Tables,
    rules: &'r Option<ReadRules>,
) -> Result<(CanonicalizerRef<'r>, &'r LanguageMatching), CliError>
    requires { IsSome rules.now }
    ensures expander { IfOk result (λ s. IsExpanderOf tables.now s.0.expander) }
    ensures rules { IfOk result (λ s. IsSomeAnd rules.now (λ read.
        IsSomeAnd tables.now.aliases (λ table. lent s.0.rules ≡ rules_over read table))) }
    ensures matching { IfOk result (λ s. tables.now.supplement.matching ≡ Some s.1.now) }
    ensures loaded { is_ok result ≡ (has_matching tables.now && has_rules tables.now) }
    ensures refused { IfErr result (λ e. e ≡ CliError.Data not_found) }
{
    let matching = table_held(&tables.supplement.matching)?;
    let Some(read) = rules else { unreachable!() };
    Ok((lend_rules(tables, read)?, matching))
}

// The rules that a task asks for, over the tables.
fn load_canonicalizer<'r>(
    tables: &'r Tables,
    rules: &'r Option<ReadRules>,
) -> Result<CanonicalizerRef<'r>, CliError>
    requires { IsSomeAnd rules.now (AreRulesOf tables.now) }
    ensures made { IfOk result (IsCanonicalizerOf tables.now) }
    ensures loaded { is_ok result ≡ has_rules tables.now }
    ensures refused { IfErr result (λ e. e ≡ CliError.Data not_found) }
{
    match rules {
        Some(read) => lend_rules(tables, read),
        None => unreachable!(),
    }
}

// The same, with the aliases of values of the supplement.
pub fn load_whole_canonicalizer<'r>(
    tables: &'r Tables,
    rules: &'r Option<ReadRules>,
) -> Result<WholeCanonicalizer<'r>, CliError>
    requires { IsSomeAnd rules.now (AreRulesOf tables.now) }
    ensures made { IfOk result (IsWholeOf tables.now) }
    ensures loaded { is_ok result ≡ has_rules tables.now }
    ensures refused { IfErr result (λ e. e ≡ CliError.Data not_found) }
{
    let rules = load_canonicalizer(tables, rules)?;
    let values = ValueAliases {
        keywords: &tables.supplement.keywords,
        fields: &tables.supplement.fields,
    };
    Ok(WholeCanonicalizer { rules, values })
}

// The direction of scripts over the tables: likely tables are asked for before it.
pub fn load_directionality(tables: &Tables) -> Result<LocaleDirectionality<'_>, CliError>
    ensures expander { IfOk result (λ d. IsExpanderOf tables.entry.now d.expander) }
    ensures scripts { IfOk result (λ d. tables.entry.now.script_direction
        ≡ Some d.script_direction.now) }
    ensures loaded { is_ok result
        ≡ has_likely tables.entry.now && is_some tables.entry.now.script_direction }
    ensures refused { IfErr result (λ e. e ≡ CliError.Data not_found) }
{
    let expander = load_expander(tables)?;
    Ok(LocaleDirectionality::try_new_with_expander_unstable(tables, expander)?)
}

// What brings to the canonical forms that are named, if any are.
pub fn load_canonical_names<'r>(
    syntax: Option<Syntax>,
    tables: &'r Tables,
    rules: &'r Option<ReadRules>,
) -> Option<WholeCanonicalizer<'r>>
    requires { names_canonical syntax tables.now ≡ true
        → IsSomeAnd rules.now (AreRulesOf tables.now) }
    ensures { IsNamedBy (names_canonical syntax tables.now) tables.now result }
{
    if names_canonical(syntax, tables) {
        load_whole_canonicalizer(tables, rules).ok()
    } else {
        None
    }
}

// What gives names by a chain and in the language of preferences.
pub fn load_naming<'r>(
    tables: &'r Tables,
    chain: NameChain,
    preferences: DisplayNamesPreferences,
    canonicalizer: Option<WholeCanonicalizer<'r>>,
) -> Naming<'r>
    ensures { (syntax : Option Syntax)
        → IsNamedBy (names_canonical syntax tables.now) tables.now canonicalizer.entry
        → IsNamingOf syntax chain preferences tables.now result }
{
    Naming {
        tables: LocaleTables::new(tables, preferences.locale),
        chain,
        preferences,
        extensions: tables.supplement.extension_names.get(&preferences.locale),
        canonicalizer,
    }
}

// What gives names of subtags by a chain and in the language of preferences.
pub fn load_subtag_naming(
    tables: &Tables,
    chain: SubtagChain,
    preferences: DisplayNamesPreferences,
) -> SubtagNaming<'_>
    ensures { IsSubtagNamingOf chain preferences tables.entry.now result }
{
    SubtagNaming {
        tables: LocaleTables::new(tables, preferences.locale),
        chain,
        preferences,
    }
}

// What lists subtags of a kind that have names in the language of preferences.
pub fn load_subtag_list(
    tables: &Tables,
    kind: SubtagKind,
    preferences: DisplayNamesPreferences,
) -> SubtagList<'_>
    ensures tables { result.tables.now ≡ tables.entry.now }
    ensures kind { result.kind ≡ kind }
    ensures locale { result.locale ≡ preferences.locale }
{
    SubtagList {
        tables,
        kind,
        locale: preferences.locale,
    }
}

/// A table that is asked for, if it is held.
///
/// # Errors
///
/// `Data` exactly where it is not.
pub fn table_held<T>(table: &Option<T>) -> Result<&T, CliError>
    ensures held { IfOk result (λ t. table.now ≡ Some t.now) }
    ensures loaded { is_ok result ≡ is_some table.now }
    ensures refused { IfErr result (λ e. e ≡ CliError.Data not_found) }
{
    match table {
        Some(table) => Ok(table),
        None => Err(not_held()),
    }
}

// Why a table is not there.
pub fn not_held() -> CliError
    ensures { result ≡ CliError.Data not_found }
{
    CliError::Data(DataError {
        kind: DataErrorKind::IdentifierNotFound,
    })
}

// What gives chains by language, over likely tables and the parents of the supplement.
pub fn load_fallbacker(tables: &Tables) -> Result<LocaleFallbackerWithConfig<'_>, CliError>
    ensures expander { IfOk result (λ f. IsExpanderOf tables.entry.now f.fallbacker.expander) }
    ensures parents { IfOk result (λ f. f.fallbacker.parents.now
        ≡ tables.entry.now.supplement.parents) }
    ensures language { IfOk result (λ f. f.config.priority ≡ Language) }
    ensures loaded { is_ok result ≡ has_likely tables.entry.now }
    ensures refused { IfErr result (λ e. e ≡ CliError.Data not_found) }
{
    let expander = load_expander(tables)?;
    let fallbacker = LocaleFallbacker {
        expander,
        parents: &tables.supplement.parents,
    };
    Ok(fallbacker.for_config(LocaleFallbackConfig {
        priority: LocaleFallbackPriority::Language,
    }))
}
