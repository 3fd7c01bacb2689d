//! What the program is asked to do.
ghost use Rattle.std.specs.Prelude.{◌≡◌, map};
ghost use Rattle.std.specs.Option.{ok_or};
ghost use Rattle.std.specs.Str.{bytes_eq};
ghost use Rattle.std.specs.String.{string_bytes};
ghost use Rattle.icu_locale_lines.specs.Commands.{plain};
ghost use Rattle.icu_locale_lines.specs.CommandWords.{syntax_at, task_at, usual};
ghost use Rattle.icu_locale_lines.specs.Grammar.{is_for_runs, parse_run, run_of};
ghost use Rattle.icu_locale_lines.specs.Tasks.{row_of, task_row};

use crate::asked::{Asked, Source};
use crate::cursor::Words;
use crate::error::CliError;
use crate::work::form::Form;
use crate::work::subtag::{SubtagChain, SubtagKind};
use icu_locale_extensions::Syntax;
use icu_locale_matching::MatchLimits;
use icu_locale_names::{DisplayNamesPreferences, NameChain};
use icu_provider::ExemplarMarker;
use std::alloc::Global;

/// What is done: with each line, or with the tables alone.
#[derive(Clone, Copy, Debug, PartialEq, Eq)]
pub enum Command {
    /// Whether the tables are settled. No line is used.
    Settled,
    /// A command that answers each line.
    Lines(LineCommand),
}

/// How each line is read, and what is done with it.
#[derive(Clone, Copy, Debug, PartialEq, Eq)]
pub struct LineCommand {
    /// The syntax of its locale identifiers. Without one a line holds identifiers alone.
    pub syntax: Option<Syntax>,
    /// Whether the place of its fault is told of a line that is refused.
    pub places: bool,
    /// What is done.
    pub task: Task,
}

/// What is done with each line.
#[derive(Clone, Copy, Debug, PartialEq, Eq)]
pub enum Task {
    /// A form of each identifier over likely subtags.
    Form(Form),
    /// The canonical form of each locale. Without a syntax a line is an identifier, or an identifier, a tab and a value
    /// for `rg`.
    Canonicalize,
    /// Which way the likely script of each identifier runs.
    Direction,
    /// Which of the available identifiers, which the first line lists, means what some request of a line means.
    Negotiate,
    /// The name of each identifier, by a chain and in the language of preferences.
    Name(NameChain, DisplayNamesPreferences),
    /// The chain of each identifier, by its language. Streams alone have it.
    Fallback,
    /// Which of the available identifiers, which the first line lists, is served for what a line wishes. Streams alone
    /// have it.
    Serve(ServeTask),
    /// How far the second identifier of a line is from the first. Streams alone have it.
    Distance,
    /// The parts of each locale, each in a place of its own. It asks no table. Streams alone have it.
    Parts,
    /// The key of each locale in a store: its canonical form with the key that stays in place of its identifier. Streams
    /// alone have it.
    Key(KeyOf),
    /// Whether each locale is valid, and each part that is not. Streams alone have it.
    Validate,
    /// The name of a subtag of one kind, by a chain and in the language of preferences. Streams alone have it.
    SubtagName(SubtagChain, DisplayNamesPreferences),
    /// Whether a set of exemplar characters of a locale has each text. Streams alone have it.
    Exemplars(ExemplarMarker, DisplayNamesPreferences),
    /// The subtags of one kind that have names in the language of preferences, of those that begin with each line. Streams
    /// alone have it.
    Subtags(SubtagKind, DisplayNamesPreferences),
}

/// What a task asks for beside its line, and who may ask for it.
#[derive(Clone, Copy, Debug, PartialEq, Eq)]
pub struct TaskRow {
    /// When it works by rules, which are read before its first line and take memory.
    pub rules: ByRules,
    /// Whether its first line lists what is available.
    pub lists: bool,
    /// Whether streams alone have it.
    pub streamed: bool,
    /// Whether the place of the fault of its line may be told.
    pub places: bool,
}

/// When a task works by rules.
#[derive(Clone, Copy, Debug, PartialEq, Eq)]
pub enum ByRules {
    /// Each time.
    Always,
    /// In a syntax, where the tables have some.
    InSyntax,
    /// Never.
    Never,
}

impl Task {
    /// The row of a task.
    pub fn row(&self) -> TaskRow
        ensures { result ≡ row_of self.now }
    {
        use ByRules::{Always, InSyntax, Never};
        match self {
            Task::Form(_) => task_row(Never, false, false, true),
            Task::Canonicalize => task_row(Always, false, false, true),
            Task::Direction => task_row(Never, false, false, true),
            Task::Negotiate => task_row(Never, true, false, false),
            Task::Name(_, _) => task_row(InSyntax, false, false, true),
            Task::Fallback => task_row(Never, false, true, true),
            Task::Serve(_) => task_row(Always, true, true, false),
            Task::Distance => task_row(Never, false, true, false),
            Task::Parts => task_row(Never, false, true, true),
            Task::Key(_) => task_row(Always, false, true, true),
            Task::Validate => task_row(Never, false, true, true),
            Task::SubtagName(_, _) => task_row(Never, false, true, false),
            Task::Exemplars(_, _) => task_row(Never, false, true, false),
            Task::Subtags(_, _) => task_row(Never, false, true, false),
        }
    }
}

// A row by its fields, in their order.
const fn task_row(rules: ByRules, lists: bool, streamed: bool, places: bool) -> TaskRow
    ensures { result ≡ task_row rules lists streamed places }
{
    TaskRow {
        rules,
        lists,
        streamed,
        places,
    }
}

/// What a key is made of.
#[derive(Clone, Copy, Debug, PartialEq, Eq)]
pub enum KeyOf {
    /// The locale, its extensions kept.
    Whole,
    /// Its identifier alone.
    Identifier,
}

/// How readers are served.
#[derive(Clone, Copy, Debug, PartialEq, Eq)]
pub struct ServeTask {
    /// How a line says what it wishes, and what it is answered.
    pub wishes: Wishes,
    /// How far a match may go.
    pub limits: MatchLimits,
    /// The first that is available is served where nothing else is.
    pub or_first: bool,
}

/// How a line says what it wishes, and what it is answered.
#[derive(Clone, Copy, Debug, PartialEq, Eq)]
pub enum Wishes {
    /// As the header Accept-Language (RFC 9110, section 12.5.4): what is served.
    Header,
    /// As a list of locales, the one that is wished most first: what is served.
    Requests,
    /// As such a list: what is served, with the region, the variants and the extensions of the locale that wished it.
    Resolved,
}

impl ServeTask {
    /// Within the limits of ICU, and with nothing where nothing is near.
    pub fn usual(wishes: Wishes) -> Self
        ensures { result ≡ usual wishes }
    {
        ServeTask {
            wishes,
            limits: MatchLimits::default(),
            or_first: false,
        }
    }
}

impl LineCommand {
    /// A task on lines that hold identifiers alone.
    pub fn plain(task: Task) -> Self
        ensures { result ≡ plain task }
    {
        LineCommand {
            syntax: None,
            places: false,
            task,
        }
    }
}

impl Command {
    /// The command of a run that the words are, and whether the tables come as JSON: those of a stream without a bound,
    /// the word of a syntax, `supplement` and the tasks for streams alone. What is answered does not depend on memory: only
    /// preferences with variants take some, and these are refused either way.
    ///
    /// # Errors
    ///
    /// `Usage` exactly where the words are not those of a command of a run.
    pub fn from_words(alloc: Global, words: &[String]) -> Result<(Command, bool), CliError>
        ensures { result ≡ ok_or (parse_run (map string_bytes words.now)) CliError.Usage }
    {
        let Some(asked) = Asked::from_words(alloc, Words::new(words)) else {
            return Err(CliError::Usage);
        };
        match run_of(&asked) {
            Some(run) => Ok(run),
            None => Err(CliError::Usage),
        }
    }
}

// What a run is asked for, if a run may be.
fn run_of(asked: &Asked) -> Option<(Command, bool)>
    ensures { result ≡ run_of asked.now }
{
    if !is_for_runs(&asked.command) || asked.longest.is_some() {
        return None;
    }
    match asked.source {
        Source::Sample => Some((asked.command, false)),
        Source::Json => Some((asked.command, true)),
        Source::JsonAndSupplement => None,
    }
}

// Whether a run has a command.
fn is_for_runs(command: &Command) -> bool
    ensures { result ≡ is_for_runs command.now }
{
    match command {
        Command::Lines(lines) => lines.syntax.is_none() && !lines.task.row().streamed,
        Command::Settled => true,
    }
}

/// The task of a word alone.
pub fn task_of(word: &[u8]) -> Option<Task>
    ensures { result ≡ task_at word.now }
{
    if is_word(word, "maximize") {
        Some(Task::Form(Form::Maximize))
    } else if is_word(word, "minimize") {
        Some(Task::Form(Form::Minimize))
    } else if is_word(word, "minimize-script") {
        Some(Task::Form(Form::MinimizeScript))
    } else if is_word(word, "canonicalize") {
        Some(Task::Canonicalize)
    } else if is_word(word, "direction") {
        Some(Task::Direction)
    } else if is_word(word, "negotiate") {
        Some(Task::Negotiate)
    } else if is_word(word, "fallback") {
        Some(Task::Fallback)
    } else if is_word(word, "serve") {
        Some(Task::Serve(ServeTask::usual(Wishes::Header)))
    } else if is_word(word, "nearest") {
        Some(Task::Serve(ServeTask::usual(Wishes::Requests)))
    } else if is_word(word, "resolved") {
        Some(Task::Serve(ServeTask::usual(Wishes::Resolved)))
    } else if is_word(word, "distance") {
        Some(Task::Distance)
    } else if is_word(word, "parts") {
        Some(Task::Parts)
    } else if is_word(word, "key") {
        Some(Task::Key(KeyOf::Whole))
    } else if is_word(word, "identifier-key") {
        Some(Task::Key(KeyOf::Identifier))
    } else if is_word(word, "validate") {
        Some(Task::Validate)
    } else {
        None
    }
}

// Whether a word is another.
#[inline(always)]
pub fn is_word(word: &[u8], other: &str) -> bool
    ensures { result ≡ bytes_eq word.now other.now }
{
    word == other.as_bytes()
}

/// The syntax of a word.
pub fn syntax_of(word: &[u8]) -> Option<Syntax>
    ensures { result ≡ syntax_at word.now }
{
    if is_word(word, "locales") {
        Some(Syntax::Unicode)
    } else if is_word(word, "bcp47") {
        Some(Syntax::Bcp47)
    } else if is_word(word, "posix") {
        Some(Syntax::Posix)
    } else {
        None
    }
}
