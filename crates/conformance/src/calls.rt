//! The calls that rows name.
use crate::fault::Fault;
use crate::likely::{self, Likely};
use crate::texts::{self, Kind, four_words, written};
use crate::world::World;
use crate::{canonical, chains, language_names, menus, names, negotiation, runs};
use icu_locale_extensions::Syntax;
use icu_tables::{TableError, Tables};
use std::alloc::Global;

/// What a row calls.
#[derive(Clone, Copy)]
pub enum Call {
    /// Reads a text, and writes what was read.
    Read(Kind),
    /// Asks an expander or a directionality about an identifier.
    Likely(Likely),
    /// Asks whether the tables are settled.
    Settled,
    /// Looks among available identifiers for one that means what a request means.
    Negotiate,
    /// Compares negotiations with a plain search.
    NegotiateEach,
    /// Canonicalizes a locale.
    Canonicalize,
    /// Makes one turn.
    Search,
    /// Makes one turn of a transform language.
    SearchTransform,
    /// Asks whether a rule matches.
    RuleMatches,
    /// Replaces by a rule.
    Replacement,
    /// Makes a set of variants.
    Variants,
    /// Compares identifiers.
    Order,
    /// Puts, takes out and asks for keywords.
    Keywords,
    /// Asks whether bounds are an inversion list.
    InversionList,
    /// Asks an exemplar set.
    Exemplars,
    /// Names a region.
    Region,
    /// Names a script.
    Script,
    /// Names a variant.
    Variant,
    /// Names an identifier.
    LanguageName,
    /// Names a language in a menu.
    Menu,
    /// Shows the patterns of a locale.
    Essentials,
    /// Writes the chain of an identifier.
    Chain,
    /// Reads a supplement, and counts what it holds.
    Supplement,
    /// Runs a command over lines.
    Run,
    /// Streams lines.
    Stream,
    /// Reads tables, and names what they hold.
    Json,
    /// Reads each beginning of a JSON text that is not the whole.
    JsonCuts,
}

const CALLS: [(&str, Call); 43] = [
    ("read", Call::Read(Kind::Identifier)),
    ("language", Call::Read(Kind::Language)),
    ("script", Call::Read(Kind::Script)),
    ("region", Call::Read(Kind::Region)),
    ("variant", Call::Read(Kind::Variant)),
    ("key", Call::Read(Kind::Key)),
    ("subtag", Call::Read(Kind::Subtag)),
    ("value", Call::Read(Kind::Value)),
    ("locale", Call::Read(Kind::Locale(Syntax::Unicode))),
    ("bcp47", Call::Read(Kind::Locale(Syntax::Bcp47))),
    ("posix", Call::Read(Kind::Locale(Syntax::Posix))),
    ("maximize", Call::Likely(Likely::Maximize)),
    ("minimize", Call::Likely(Likely::Minimize)),
    ("minimize-script", Call::Likely(Likely::MinimizeScript)),
    ("likely-script", Call::Likely(Likely::Script)),
    ("direction", Call::Likely(Likely::Direction)),
    ("right-to-left", Call::Likely(Likely::RightToLeft)),
    ("left-to-right", Call::Likely(Likely::LeftToRight)),
    ("settled", Call::Settled),
    ("negotiate", Call::Negotiate),
    ("negotiate-each", Call::NegotiateEach),
    ("canonicalize", Call::Canonicalize),
    ("search", Call::Search),
    ("search-transform", Call::SearchTransform),
    ("rule-matches", Call::RuleMatches),
    ("replacement", Call::Replacement),
    ("variants", Call::Variants),
    ("order", Call::Order),
    ("keywords", Call::Keywords),
    ("inversion-list", Call::InversionList),
    ("exemplars", Call::Exemplars),
    ("region-name", Call::Region),
    ("script-name", Call::Script),
    ("variant-name", Call::Variant),
    ("language-name", Call::LanguageName),
    ("menu", Call::Menu),
    ("essentials", Call::Essentials),
    ("chain", Call::Chain),
    ("json-supplement", Call::Supplement),
    ("run", Call::Run),
    ("stream", Call::Stream),
    ("json", Call::Json),
    ("json-cuts", Call::JsonCuts),
];

/// The call of a name.
pub fn named(name: &str) -> Option<Call> {
    for (known, call) in &CALLS {
        if *known == name {
            return Some(*call);
        }
    }
    None
}

/// The answer of a call to the bytes of a row.
pub fn answer(alloc: Global, world: &World, call: Call, input: &[u8]) -> Result<String, Fault> {
    match call {
        Call::Read(kind) => texts::read(alloc, kind, input),
        Call::Likely(call) => likely::answer(alloc, world, call, input),
        Call::Supplement => chains::held(alloc, input),
        Call::Run => runs::run_of(alloc, world, input),
        Call::Stream => runs::stream_of(alloc, input),
        Call::Json => held(alloc, input),
        Call::JsonCuts => cuts(alloc, input),
        _ => match str::from_utf8(input) {
            Ok(text) => answer_text(alloc, world, call, text),
            Err(_) => Err(Fault::Row),
        },
    }
}

fn answer_text(alloc: Global, world: &World, call: Call, text: &str) -> Result<String, Fault> {
    match call {
        Call::Settled => likely::settled(alloc, world),
        Call::Chain => chains::chain(alloc, world, text),
        Call::Negotiate => negotiation::negotiate(alloc, world, text),
        Call::NegotiateEach => negotiation::negotiate_each(alloc, world, text),
        Call::Canonicalize => canonical::canonicalize(alloc, world, text),
        Call::Search => canonical::search(alloc, world, false, text),
        Call::SearchTransform => canonical::search(alloc, world, true, text),
        Call::Variants => texts::variants(alloc, text),
        Call::Keywords => texts::keywords(alloc, text),
        Call::InversionList => names::inversion_list(alloc, text),
        Call::Exemplars => names::exemplars(alloc, world, text),
        Call::Region => names::name(alloc, world, "region", text),
        Call::Script => names::name(alloc, world, "script", text),
        Call::Variant => names::name(alloc, world, "variant", text),
        Call::LanguageName => language_names::language_name(alloc, world, text),
        Call::Menu => menus::menu(alloc, world, text),
        Call::Essentials => menus::essentials(alloc, world, text),
        _ => answer_words(alloc, call, text),
    }
}

fn answer_words(alloc: Global, call: Call, text: &str) -> Result<String, Fault> {
    let [first, second, third, _] = four_words(text);
    match call {
        Call::RuleMatches => canonical::rule_matches(alloc, first, second),
        Call::Order => texts::order(alloc, first, second),
        _ => canonical::replacement(alloc, first, second, third),
    }
}

// What the tables of a JSON text hold, or the refusal's name.
fn held(alloc: Global, json: &[u8]) -> Result<String, Fault> {
    match Tables::from_json(alloc, json) {
        Ok(tables) => held_names(alloc, &tables),
        Err(refusal) => written(alloc, &refusal),
    }
}

fn held_names(alloc: Global, tables: &Tables) -> Result<String, Fault> {
    let mut answer = String::from_str(alloc, "holds")?;
    for (name, is_held) in [
        (" likely_language", tables.likely_language.is_some()),
        (
            " likely_script_region",
            tables.likely_script_region.is_some(),
        ),
        (" likely_extended", tables.likely_extended.is_some()),
        (" aliases", tables.aliases.is_some()),
        (" direction", tables.script_direction.is_some()),
        (" exemplars", !tables.exemplars.is_empty()),
        (" names", !tables.names.is_empty()),
        (" menus", !tables.menus.is_empty()),
        (" essentials", !tables.essentials.is_empty()),
    ] {
        if is_held {
            answer.push_str(name)?;
        }
    }
    Ok(answer)
}

// `Json` where each beginning short of the whole is refused so, else how long one is that is not.
fn cuts(alloc: Global, json: &[u8]) -> Result<String, Fault> {
    for length in 0..json.len() {
        if !is_json_refusal(alloc, &json[..length]) {
            return Ok(format!(in alloc; "otherwise after {length} bytes")?);
        }
    }
    written(alloc, &"Json")
}

fn is_json_refusal(alloc: Global, text: &[u8]) -> bool {
    matches!(Tables::from_json(alloc, text), Err(TableError::Json))
}
