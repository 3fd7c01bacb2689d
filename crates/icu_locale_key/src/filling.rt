//! Whether rules leave alone what the tables of likely subtags may fill in.
ghost use Rattle.std.specs.Prelude.{◌≡◌, is_some, not, codes};
ghost use Rattle.std.specs.Str.{bytes_eq};
ghost use Rattle.icu_locale.specs.Kinds.{language_alias, region_alias};
ghost use Rattle.icu_locale.specs.LikelyTable.{common_rows, extended_rows};
ghost use Rattle.icu_locale.specs.RuleSet.{lent};
ghost use Rattle.icu_locale.specs.Rules.{is_known};
ghost use Rattle.icu_locale_key.specs.Filling.{
  has_no_script,
  has_no_region,
  is_covered,
  covers_language,
  leaves_script,
  leaves_region,
  leaves_language,
  leaves_row_of,
  leaves_und_row,
  leaves_languages,
  leaves_language_scripts,
  leaves_language_regions,
  leaves_script_regions,
  leaves_scripts,
  leaves_regions,
  leaves_rows,
  leaves_extended,
  leaves_tables,
};

use icu_locale::{LocaleExpander, Rule, RulesRef, laws as steps};
use icu_locale_core::{Language, Region, Script};
use icu_provider::{LikelySubtagsExtended, LikelySubtagsForLanguage, LikelySubtagsForScriptRegion};

fn has_no_script(rules: &[Rule], script: Script) -> bool
    ensures { result ≡ has_no_script rules.now script }
{
    rules.iter().all(|rule| rule.source.script != Some(script))
}

fn has_no_region(rules: &[Rule], region: Region) -> bool
    ensures { result ≡ has_no_region rules.now region }
{
    rules.iter().all(|rule| rule.source.region != Some(region))
}

fn is_known(language: &Language) -> bool
    ensures { result ≡ is_known language.now }
{
    !language.is_unknown()
}

fn is_covered(rules: &[Rule], rule: &Rule) -> bool
    ensures { result ≡ is_covered rules.now rule.now }
{
    rules.iter().any(|other| {
        !is_known(&other.source.language) && steps::rule_matches(&rule.source, &other.source)
    })
}

fn covers_language(rules: &[Rule], language: Language) -> bool
    ensures { result ≡ covers_language rules.now language }
{
    rules.iter().all(|rule| rule.source.language != language || is_covered(rules, rule))
}

fn has_language_alias(rules: &RulesRef<'_>, language: Language) -> bool
    ensures { result ≡ is_some (language_alias (lent rules.now) language) }
{
    if !is_known(&language) {
        return false;
    }
    if language.as_str().len() == 2 {
        rules.read.language_len2.get(&language).is_some()
    } else {
        rules.read.language_len3.get(&language).is_some()
    }
}

fn has_region_alias(rules: &RulesRef<'_>, region: Region) -> bool
    ensures { result ≡ is_some (region_alias (lent rules.now) region) }
{
    if region.is_alphabetic() {
        rules.aliases.get_region_alpha(region).is_some()
    } else {
        rules.aliases.get_region_num(region).is_some()
    }
}

fn leaves_script(rules: &RulesRef<'_>, script: Script) -> bool
    ensures { result ≡ leaves_script (lent rules.now) script }
{
    rules.aliases.get_script(script).is_none()
        && has_no_script(rules.read.language.as_slice(), script)
        && has_no_script(rules.read.language_variants.as_slice(), script)
}

fn leaves_region(rules: &RulesRef<'_>, region: Region) -> bool
    ensures { result ≡ leaves_region (lent rules.now) region }
{
    !has_region_alias(rules, region)
        && rules.aliases.complex_region.get(&region).is_none()
        && has_no_region(rules.read.language.as_slice(), region)
        && has_no_region(rules.read.language_variants.as_slice(), region)
}

fn leaves_language(rules: &RulesRef<'_>, language: Language) -> bool
    ensures { result ≡ leaves_language (lent rules.now) language }
{
    !has_language_alias(rules, language)
        && is_no_sign(language)
        && covers_language(rules.read.language.as_slice(), language)
        && covers_language(rules.read.language_variants.as_slice(), language)
}

fn is_no_sign(language: Language) -> bool
    ensures { result ≡ not (bytes_eq language (codes "sgn")) }
{
    language != Language::SIGN
}

fn leaves_row(rules: &RulesRef<'_>, language: Language, script: Script, region: Region) -> bool
    ensures { result ≡ leaves_row_of (lent rules.now) language script region }
{
    is_no_sign(language) && leaves_script(rules, script) && leaves_region(rules, region)
}

fn leaves_und_row(rules: &RulesRef<'_>, language: Language, script: Script, region: Region) -> bool
    ensures { result ≡ leaves_und_row (lent rules.now) language script region }
{
    leaves_language(rules, language) && leaves_script(rules, script) && leaves_region(rules, region)
}

fn leaves_languages(rules: &RulesRef<'_>, rows: &[(Language, (Script, Region))]) -> bool
    ensures { result ≡ leaves_languages (lent rules.now) rows.now }
{
    rows.iter()
        .all(|row| leaves_row(rules, row.0, row.1.0, row.1.1))
}

fn leaves_language_scripts(rules: &RulesRef<'_>, rows: &[((Language, Script), Region)]) -> bool
    ensures { result ≡ leaves_language_scripts (lent rules.now) rows.now }
{
    rows.iter()
        .all(|row| leaves_row(rules, row.0.0, row.0.1, row.1))
}

fn leaves_language_regions(rules: &RulesRef<'_>, rows: &[((Language, Region), Script)]) -> bool
    ensures { result ≡ leaves_language_regions (lent rules.now) rows.now }
{
    rows.iter()
        .all(|row| leaves_row(rules, row.0.0, row.1, row.0.1))
}

fn leaves_script_regions(rules: &RulesRef<'_>, rows: &[((Script, Region), Language)]) -> bool
    ensures { result ≡ leaves_script_regions (lent rules.now) rows.now }
{
    rows.iter()
        .all(|row| leaves_und_row(rules, row.1, row.0.0, row.0.1))
}

fn leaves_scripts(rules: &RulesRef<'_>, rows: &[(Script, (Language, Region))]) -> bool
    ensures { result ≡ leaves_scripts (lent rules.now) rows.now }
{
    rows.iter()
        .all(|row| leaves_und_row(rules, row.1.0, row.0, row.1.1))
}

fn leaves_regions(rules: &RulesRef<'_>, rows: &[(Region, (Language, Script))]) -> bool
    ensures { result ≡ leaves_regions (lent rules.now) rows.now }
{
    rows.iter()
        .all(|row| leaves_und_row(rules, row.1.0, row.1.1, row.0))
}

fn leaves_common(
    rules: &RulesRef<'_>,
    one: &LikelySubtagsForLanguage,
    other: &LikelySubtagsForScriptRegion,
) -> bool
    ensures { result ≡ leaves_rows (lent rules.now) (common_rows one.now other.now) }
{
    leaves_languages(rules, one.language.as_slice())
        && leaves_language_scripts(rules, one.language_script.as_slice())
        && leaves_language_regions(rules, one.language_region.as_slice())
        && leaves_script_regions(rules, other.script_region.as_slice())
        && leaves_scripts(rules, other.script.as_slice())
        && leaves_regions(rules, other.region.as_slice())
}

fn leaves_extension(rules: &RulesRef<'_>, table: &LikelySubtagsExtended) -> bool
    ensures { result ≡ leaves_rows (lent rules.now) (extended_rows table.now) }
{
    leaves_languages(rules, table.language.as_slice())
        && leaves_language_scripts(rules, table.language_script.as_slice())
        && leaves_language_regions(rules, table.language_region.as_slice())
        && leaves_script_regions(rules, table.script_region.as_slice())
        && leaves_scripts(rules, table.script.as_slice())
        && leaves_regions(rules, table.region.as_slice())
}

fn leaves_extended(rules: &RulesRef<'_>, extended: Option<&LikelySubtagsExtended>) -> bool
    ensures { result ≡ leaves_extended (lent rules.now) extended.entry }
{
    match extended {
        Some(table) => leaves_extension(rules, table),
        None => true,
    }
}

/// Whether all rows of an expander's tables are left alone, and the triple of `und`.
#[tactic(auto, unfolding(crate::specs::Filling::leaves_tables))]
pub fn leaves_tables(rules: &RulesRef<'_>, expander: &LocaleExpander<'_>) -> bool
    ensures { result ≡ leaves_tables (lent rules.now) expander.now }
{
    if !leaves_common(rules, expander.language, expander.script_region) {
        return false;
    }
    if !leaves_extended(rules, expander.extended) {
        return false;
    }
    let (language, script, region) = expander.language.und();
    leaves_und_row(rules, language, script, region)
}
