//! What words say of how readers are served and of places, before the command.
ghost use Rattle.std.specs.Prelude.{◌≡◌};
ghost use Rattle.std.specs.Option.{option_map};
ghost use Rattle.icu_locale_lines.specs.CommandWords.{limit_at};
ghost use Rattle.icu_locale_lines.specs.Grammar.{asked_by, command_by, given_next, is_unsaid, limit_next, limits_by, placed_lines, task_by, tells_places};

use crate::asked::Asked;
use crate::command::{Command, LineCommand, ServeTask, Task};
use crate::cursor::Words;
use icu_locale_extensions::Syntax;
use icu_locale_matching::{FavorSubtag, MatchLimits};

/// What words say of how readers are served, which is as ICU has it where it is not said, and whether places are told.
#[derive(Clone, Copy, Debug, PartialEq, Eq)]
pub struct Given {
    /// What is served has a lesser distance.
    pub threshold: Option<u16>,
    /// What each request before it adds to the cost of a request.
    pub demotion: Option<u16>,
    /// The script weighs more than the language.
    pub favor_script: bool,
    /// The first that is available is served where nothing else is.
    pub or_first: bool,
    /// The place of a fault is told.
    pub places: bool,
}

impl Given {
    /// What the next words say, if they are those of numbers where numbers are to come.
    pub fn next(words: &mut Words<'_>) -> Option<Self>
        ensures { given_next words.old ≡ option_map (λ given. (given, words.new)) result }
    {
        let threshold = limit_next(words, "threshold")?;
        let demotion = limit_next(words, "demotion")?;
        let favor_script = words.take_if("favor-script");
        let or_first = words.take_if("or-first");
        let places = words.take_if("places");
        Some(Given {
            threshold,
            demotion,
            favor_script,
            or_first,
            places,
        })
    }

    /// What is asked for, served so, with places. Where that serves no reader, only if nothing is said of serving; and
    /// with places only where a line is one locale identifier in the syntax of UTS #35.
    pub fn asked(self, asked: Asked) -> Option<Asked>
        ensures { result ≡ asked_by self asked }
    {
        let command = self.command(asked.command)?;
        Some(Asked {
            longest: asked.longest,
            command,
            source: asked.source,
        })
    }

    // The same of a command.
    fn command(self, command: Command) -> Option<Command>
        ensures { result ≡ command_by self command }
    {
        match command {
            Command::Lines(
                LineCommand {
                    syntax,
                    places: _,
                    task,
                },
            ) => {
                let task = self.task(task)?;
                placed_lines(self.places, syntax, task)
            }
            Command::Settled if self.is_unsaid() && !self.places => Some(command),
            Command::Settled => None,
        }
    }

    // The same of a task.
    fn task(self, task: Task) -> Option<Task>
        ensures { result ≡ task_by self task }
    {
        match task {
            Task::Serve(served) => Some(Task::Serve(ServeTask {
                wishes: served.wishes,
                limits: self.limits(),
                or_first: self.or_first,
            })),
            _ if self.is_unsaid() => Some(task),
            _ => None,
        }
    }

    // Whether nothing is said.
    fn is_unsaid(self) -> bool
        ensures { result ≡ is_unsaid self }
    {
        self.threshold.is_none()
            && (self.demotion.is_none() && (!self.favor_script && !self.or_first))
    }

    // How far a match may go.
    fn limits(self) -> MatchLimits
        ensures { result ≡ limits_by self }
    {
        MatchLimits {
            threshold: self.threshold.unwrap_or(50),
            demotion: self.demotion.unwrap_or(5),
            favor: if self.favor_script {
                FavorSubtag::Script
            } else {
                FavorSubtag::Language
            },
        }
    }
}

// A task on lines of a syntax, with places only where they are told.
fn placed_lines(places: bool, syntax: Option<Syntax>, task: Task) -> Option<Command>
    ensures { result ≡ placed_lines places syntax task }
{
    if places && !tells_places(syntax, &task) {
        return None;
    }
    Some(Command::Lines(LineCommand {
        syntax,
        places,
        task,
    }))
}

// Whether each line is one locale identifier in the syntax of UTS #35.
fn tells_places(syntax: Option<Syntax>, task: &Task) -> bool
    ensures { result ≡ tells_places syntax task.now }
{
    match syntax {
        Some(Syntax::Unicode) => task.row().places,
        _ => false,
    }
}

// The number of a name, where that is the next word: none, where it is not.
fn limit_next(words: &mut Words<'_>, name: &str) -> Option<Option<u16>>
    ensures { limit_next name.now words.old ≡ option_map (λ limit. (limit, words.new)) result }
{
    if !words.take_if(name) {
        return Some(None);
    }
    let limit = limit_of(words.take()?)?;
    Some(Some(limit))
}

// The limit that a text says.
fn limit_of(text: &str) -> Option<u16>
    ensures { result ≡ limit_at text.now }
{
    text.parse().ok()
}
