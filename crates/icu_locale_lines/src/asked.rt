//! What the words of a stream ask for.
ghost use Rattle.std.specs.Prelude.{◌≡◌, ◌∷◌};
ghost use Rattle.std.specs.Option.{option_map};
ghost use Rattle.icu_locale_lines.specs.CommandWords.{bound_at, chain_at, exemplars_at};
ghost use Rattle.icu_locale_lines.specs.Grammar.{asked_for, has_arguments, lines_of, longest_next, named_task, parse, parse_behind, parse_command, parse_lines, parse_named, parse_source, parse_supplement, parse_word};

use crate::command::{Command, LineCommand, Task, is_word, syntax_of, task_of};
use crate::cursor::Words;
use crate::given::Given;
use crate::work::name::read_preferences;
use crate::work::subtag::SubtagKind;
use icu_locale_extensions::Syntax;
use icu_locale_names::{DisplayNamesPreferences, NameChain};
use icu_provider::ExemplarMarker;
use std::alloc::Global;

/// What the words of a stream ask for.
#[derive(Clone, Copy, Debug, PartialEq, Eq)]
pub struct Asked {
    /// How many bytes a line may have, where that is said.
    pub longest: Option<usize>,
    /// What is done.
    pub command: Command,
    /// Where the tables come from.
    pub source: Source,
}

/// Where the tables of a stream come from.
#[derive(Clone, Copy, Debug, PartialEq, Eq)]
pub enum Source {
    /// The sample, with its supplement.
    Sample,
    /// The first line.
    Json,
    /// The first line, and their supplement the second.
    JsonAndSupplement,
}

impl Asked {
    /// What the words of a stream ask for, if they are those of one: `longest` and a number may come first, then what
    /// `Given` reads, then the word of a syntax, `locales`, `bcp47` or `posix`, and at the end
    /// `json` or `json supplement`. What is answered does not depend on memory: only preferences with variants take
    /// some, and these are refused either way.
    #[tactic(auto, unfolding(crate::specs::Grammar::parse))]
    pub fn from_words(alloc: Global, mut words: Words<'_>) -> Option<Asked>
        ensures { result ≡ parse words.entry }
    {
        let longest = longest_next(&mut words)?;
        let given = Given::next(&mut words)?;
        let word = words.take()?;
        match lines(alloc, longest, word, words) {
            Some(asked) => given.asked(asked),
            None => None,
        }
    }
}

// The bound of a line, where it is the next to be said.
fn longest_next(words: &mut Words<'_>) -> Option<Option<usize>>
    ensures { longest_next words.old ≡ option_map (λ longest. (longest, words.new)) result }
{
    if !words.take_if("longest") {
        return Some(None);
    }
    let longest = bound_of(words.take()?)?;
    Some(Some(longest))
}

// A command after the word of a syntax, or without one.
fn lines(alloc: Global, longest: Option<usize>, word: &str, mut words: Words<'_>) -> Option<Asked>
    ensures { result ≡ parse_lines longest (word.now ∷ words.entry) }
{
    match syntax_of(word.as_bytes()) {
        Some(syntax) => {
            let word = words.take()?;
            command(alloc, longest, Some(syntax), word, words)
        }
        None => command(alloc, longest, None, word, words),
    }
}

// A command, and where its tables come from.
fn command(
    alloc: Global,
    longest: Option<usize>,
    syntax: Option<Syntax>,
    word: &str,
    words: Words<'_>,
) -> Option<Asked>
    ensures { result ≡ parse_command longest syntax word.now words.entry }
{
    if has_arguments(word) {
        return named(alloc, longest, syntax, word, words);
    }
    let command = command_of(syntax, word)?;
    let source = source_of(words)?;
    Some(Asked {
        longest,
        command,
        source,
    })
}

// A command that has a choice and a locale behind its word.
fn named(
    alloc: Global,
    longest: Option<usize>,
    syntax: Option<Syntax>,
    word: &str,
    mut words: Words<'_>,
) -> Option<Asked>
    ensures { result ≡ parse_named longest syntax word.now words.entry }
{
    let choice = words.take()?;
    let text = words.take()?;
    let preferences = read_preferences(alloc, text)?;
    let task = named_task(word, choice, preferences)?;
    let command = unplaced(syntax, task);
    let source = source_of(words)?;
    Some(Asked {
        longest,
        command,
        source,
    })
}

// The command of a word. `settled` has no syntax.
fn command_of(syntax: Option<Syntax>, word: &str) -> Option<Command>
    ensures { result ≡ parse_word syntax word.now }
{
    if is_word(word.as_bytes(), "settled") {
        return if syntax.is_some() {
            None
        } else {
            Some(Command::Settled)
        };
    }
    let task = task_of(word.as_bytes())?;
    Some(unplaced(syntax, task))
}

// A task on lines of a syntax, no places told.
fn unplaced(syntax: Option<Syntax>, task: Task) -> Command
    ensures { result ≡ lines_of syntax task }
{
    Command::Lines(LineCommand {
        syntax,
        places: false,
        task,
    })
}

// Whether a choice and a locale come behind a word.
fn has_arguments(word: &str) -> bool
    ensures { result ≡ has_arguments word.now }
{
    is_word(word.as_bytes(), "name")
        || (is_word(word.as_bytes(), "exemplars")
            || (is_word(word.as_bytes(), "list") || SubtagKind::of_word(word).is_some()))
}

// The task of a word and of what is chosen, in the language of preferences.
fn named_task(word: &str, choice: &str, preferences: DisplayNamesPreferences) -> Option<Task>
    ensures { result ≡ named_task word.now choice.now preferences }
{
    if is_word(word.as_bytes(), "name") {
        return Some(Task::Name(chain_of(choice)?, preferences));
    }
    if is_word(word.as_bytes(), "exemplars") {
        return Some(Task::Exemplars(exemplars_of(choice)?, preferences));
    }
    if is_word(word.as_bytes(), "list") {
        return Some(Task::Subtags(SubtagKind::of_subtags(choice)?, preferences));
    }
    let kind = SubtagKind::of_word(word)?;
    let chain = kind.chain(choice)?;
    Some(Task::SubtagName(chain, preferences))
}

// The chain that a word names.
pub fn chain_of(word: &str) -> Option<NameChain>
    ensures { result ≡ chain_at word.now }
{
    NameChain::from_word(word)
}

// The set of exemplar characters that a word names.
fn exemplars_of(word: &str) -> Option<ExemplarMarker>
    ensures { result ≡ exemplars_at word.now }
{
    let word = word.as_bytes();
    if is_word(word, "main") {
        Some(ExemplarMarker::Main)
    } else if is_word(word, "auxiliary") {
        Some(ExemplarMarker::Auxiliary)
    } else if is_word(word, "punctuation") {
        Some(ExemplarMarker::Punctuation)
    } else if is_word(word, "numbers") {
        Some(ExemplarMarker::Numbers)
    } else if is_word(word, "index") {
        Some(ExemplarMarker::Index)
    } else {
        None
    }
}

// Where the tables come from.
fn source_of(mut words: Words<'_>) -> Option<Source>
    ensures { result ≡ parse_source words.entry }
{
    match words.take() {
        None => Some(Source::Sample),
        Some(word) if is_word(word.as_bytes(), "json") => supplement(words),
        Some(_) => None,
    }
}

// What follows `json`.
fn supplement(mut words: Words<'_>) -> Option<Source>
    ensures { result ≡ parse_supplement words.entry }
{
    match words.take() {
        None => Some(Source::Json),
        Some(word) if is_word(word.as_bytes(), "supplement") && words.take().is_none() => {
            Some(Source::JsonAndSupplement)
        }
        Some(_) => None,
    }
}

// The number of bytes that a text says.
fn bound_of(text: &str) -> Option<usize>
    ensures { result ≡ bound_at text.now }
{
    text.parse().ok()
}
