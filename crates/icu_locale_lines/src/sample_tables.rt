//! The tables that the program keeps: a few rows of most kinds, as a user would hand them in.
ghost use Rattle.std.specs.Prelude.{◌≡◌, IfOk, IfErr};
ghost use Rattle.icu_locale_lines.specs.WordRuns.{IsSample, IsWholeSample};

use crate::error::CliError;
use crate::runs::whole::read_tables;
use icu_tables::{Supplement, Tables};
use std::alloc::Global;

/// The sample as a user writes it, on one line.
pub const SAMPLE: &str = "{\
    \"likely_language\":{\
        \"und\":[\"en\",\"Latn\",\"US\"],\
        \"language\":{\
            \"ar\":[\"Arab\",\"EG\"],\"de\":[\"Latn\",\"DE\"],\"en\":[\"Latn\",\"US\"],\
            \"hy\":[\"Armn\",\"AM\"],\"yue\":[\"Hant\",\"HK\"],\"zh\":[\"Hans\",\"CN\"]},\
        \"language_script\":{\"yue-Hans\":\"CN\",\"zh-Hant\":\"TW\"},\
        \"language_region\":{\"yue-CN\":\"Hans\",\"zh-TW\":\"Hant\"}},\
    \"likely_script_region\":{\
        \"script\":{\"Arab\":[\"ar\",\"EG\"]},\
        \"region\":{\"SA\":[\"ar\",\"Arab\"]}},\
    \"aliases\":{\
        \"language_variants\":[[\"und\",\"heploc-hepburn\",\"und-alalc97\"]],\
        \"language\":[[\"und-DD\",\"und-DE\"]],\
        \"sgn_region\":{\"DE\":\"gsg\"},\
        \"language_len2\":{\"sh\":\"sr-Latn\"},\
        \"complex_region\":{\"SU\":[\"RU\",\"AM\"]},\
        \"variant\":{\"polytoni\":\"polyton\"},\
        \"subdivision\":{\"abcdefg\":\"xyz\"}},\
    \"direction\":{\
        \"ltr\":[\"Latn\",\"Hans\",\"Hant\",\"Armn\"],\
        \"rtl\":[\"Arab\",\"Hebr\"]},\
    \"exemplars\":{\"main\":{\"en\":{\"ranges\":[97,123],\"strings\":[\"ng\"]}}},\
    \"names\":{\
        \"language/medium/tiny\":{\"en\":{\"en\":\"English\"}},\
        \"language/medium/light\":{\"en\":{\"it\":\"Italian\",\"ku\":\"Kurdish\"}},\
        \"language/short/light\":{\"en\":{\"en-US\":\"US English\"}},\
        \"script/medium/light\":{\"en\":{\"Latn\":\"Latin\"}},\
        \"region/medium/light\":{\"en\":{\"150\":\"Europe\",\"US\":\"United States\"}},\
        \"region/short/light\":{\"en\":{\"US\":\"US\"}},\
        \"variant/medium/heavy\":{\"en\":{\"fonipa\":\"IPA Phonetics\"}}},\
    \"menus\":{\"language/menu/medium/light\":{\"en\":{\"ku\":[\"Kurdish\",\"Kurmanji\"]}}},\
    \"essentials\":{\"en\":{\"pattern\":[0,\" (\",1,\")\"],\"separator\":[0,\", \",1]}}}";

/// The supplement of the sample, on one line.
pub const SAMPLE_SUPPLEMENT: &str = "{\
    \"parents\":{\"en-150\":\"en-001\",\"en-AU\":\"en-001\",\"en-GB\":\"en-001\",\"zh-Hant\":\"und\"},\
    \"matching\":{\
        \"others\":[80,50,4],\
        \"macros\":{\"001\":[\"AU\",\"DE\",\"GB\",\"US\"],\"150\":[\"DE\",\"GB\"]},\
        \"paradigms\":[\"en\",\"en-GB\",\"es\",\"es-419\",\"pt-BR\",\"pt-PT\"],\
        \"rules\":{\
            \"da\":{\"language\":[\
                {\"language\":\"no\",\"distance\":8},{\"language\":\"nb\",\"distance\":8}]},\
            \"en\":{\"region\":[\
                {\"language\":\"en\",\"distance\":4,\
                    \"desired\":{\"in\":[\"US\"]},\"supported\":{\"in\":[\"US\"]}},\
                {\"language\":\"en\",\"distance\":3,\
                    \"desired\":{\"not\":[\"US\"]},\"supported\":{\"in\":[\"GB\"]}},\
                {\"language\":\"en\",\"distance\":4,\
                    \"desired\":{\"not\":[\"US\"]},\"supported\":{\"not\":[\"US\"]}},\
                {\"language\":\"en\",\"distance\":5}]},\
            \"gsw\":{\"language\":[{\"language\":\"de\",\"distance\":4}]},\
            \"lb\":{\"language\":[{\"language\":\"de\",\"distance\":4}]},\
            \"nb\":{\"language\":[\
                {\"language\":\"no\",\"distance\":1},{\"language\":\"da\",\"distance\":8}]},\
            \"no\":{\"language\":[\
                {\"language\":\"nb\",\"distance\":1},{\"language\":\"da\",\"distance\":8}]},\
            \"sr\":{\"script\":[\
                {\"language\":\"sr\",\"distance\":5,\
                    \"desired\":{\"script\":\"Latn\"},\"supported\":{\"script\":\"Cyrl\"}}]},\
            \"yue\":{\"language\":[{\"language\":\"zh\",\"distance\":10}]},\
            \"zh\":{\"script\":[\
                {\"language\":\"zh\",\"distance\":15,\
                    \"desired\":{\"script\":\"Hans\"},\"supported\":{\"script\":\"Hant\"}},\
                {\"language\":\"zh\",\"distance\":19,\
                    \"desired\":{\"script\":\"Hant\"},\"supported\":{\"script\":\"Hans\"}}]}}},\
    \"keywords\":{\
        \"ca\":{\"ethiopic-amete-alem\":\"ethioaa\",\"islamicc\":\"islamic-civil\"},\
        \"kb\":{\"yes\":\"true\"},\
        \"ms\":{\"imperial\":\"uksystem\"},\
        \"tz\":{\"cnckg\":\"cnsha\",\"eire\":\"iedub\"}},\
    \"fields\":{\"d0\":{\"name\":\"charname\"},\"m0\":{\"names\":\"prprname\"}},\
    \"cldr\":\"sample\",\
    \"validity\":{\
        \"language\":{\
            \"regular\":\"ar de en gsg gsw hy it ku lb nb no sr yue zh\",\
            \"unknown\":\"und\",\"deprecated\":\"iw sh\"},\
        \"script\":{\"regular\":\"Arab Armn Cyrl Hans~t Hebr Latn\",\"unknown\":\"Zzzz\"},\
        \"region\":{\
            \"regular\":\"AM AU CN DE EG GB HK RU SA TW US\",\
            \"macroregion\":\"001 150\",\"unknown\":\"ZZ\",\"deprecated\":\"DD SU\"},\
        \"variant\":{\"regular\":\"1996 alalc97 fonipa polyton\"},\
        \"subdivision\":{\"regular\":\"gbeng usca\",\"unknown\":\"gbzzzz uszzzz\"},\
        \"currency\":{\"regular\":\"eur usd\"},\
        \"keywords\":{\
            \"ca\":{\"types\":{\
                \"regular\":\"buddhist ethioaa gregory islamic-civil\",\"deprecated\":\"islamicc\"}},\
            \"cu\":{\"kind\":\"currency\"},\
            \"hc\":{\"types\":{\"regular\":\"h11~2 h23~4\"}},\
            \"rg\":{\"kind\":\"region_override\"},\"sd\":{\"kind\":\"subdivision\"}},\
        \"fields\":{\"h0\":{\"types\":{\"regular\":\"hybrid\"},\"kind\":\"date\"},\
            \"m0\":{\"types\":{\"regular\":\"ungegn\"},\"kind\":\"date\"}}}}";

/// The sample tables: common likely subtags, rules of canonicalization, directions, an exemplar set, and names with their
/// patterns. The text gives tables, as its tests show, so a refusal is want of memory.
///
/// # Errors
///
/// `Memory` alone.
pub fn sample(alloc: Global) -> Result<Tables, CliError>
    ensures rows { IfOk result IsSample }
    ensures refused { IfErr result (λ e. e ≡ CliError.Memory) }
{
    match read_tables(alloc, SAMPLE.as_bytes()) {
        Ok(tables) => Ok(tables),
        Err(_) => Err(CliError::Memory),
    }
}

/// The sample tables with their supplement: some parents, rules of language matching and aliases of values. The texts
/// give both, as their tests show, so a refusal is want of memory.
///
/// # Errors
///
/// `Memory` alone.
pub fn whole_sample(alloc: Global) -> Result<Tables, CliError>
    ensures rows { IfOk result IsWholeSample }
    ensures refused { IfErr result (λ e. e ≡ CliError.Memory) }
{
    let supplement = match Supplement::from_json(alloc, SAMPLE_SUPPLEMENT.as_bytes()) {
        Ok(supplement) => supplement,
        Err(_) => return Err(CliError::Memory),
    };
    let mut tables = sample(alloc)?;
    tables.set_supplement(supplement);
    Ok(tables)
}
