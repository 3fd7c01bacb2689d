//! Why a call gave no answer, the number of each outcome, and what a refusal's number says in words.
ghost use Rattle.std.specs.Prelude.{◌≡◌, None, IfSome};
ghost use Rattle.icu_locale_c.specs.Calls.{number, done_number, answer_number, yes_number};
ghost use Rattle.icu_locale_c.specs.Refusals.{refusal_text};
ghost use Rattle.icu_locale_c.specs.declared.refusal.Refusal.{Refusal};

// Each has a number of its own.
#[derive(Clone, Copy, Debug, PartialEq, Eq)]
pub enum Refusal {
    // The handle holds no tables.
    Closed,
    // The answer has no room.
    Room,
    // Memory was asked for and refused.
    Memory,
    // The text is no JSON value.
    Json,
    // The JSON value has not the shape of tables.
    Shape,
    // The words are those of no command that answers lines.
    Command,
    // The tables leave out one that the command needs.
    Table,
    // The handle holds no list of what is available.
    Negotiate,
    // The line lists a text that is no identifier.
    List,
    // The likely tables are not settled.
    Unsettled,
    // Another handle has the tables too.
    Shared,
}

impl Refusal {
    fn number(self) -> i32
        ensures { result ≡ number self }
    {
        match self {
            Refusal::Closed => 2,
            Refusal::Room => 3,
            Refusal::Memory => 4,
            Refusal::Json => 5,
            Refusal::Shape => 6,
            Refusal::Command => 7,
            Refusal::Table => 8,
            Refusal::Negotiate => 9,
            Refusal::List => 10,
            Refusal::Unsettled => 11,
            Refusal::Shared => 12,
        }
    }

    // The refusal that has a number.
    pub fn of_number(told: i32) -> Option<Refusal>
        ensures has { IfSome result (λ r. number r ≡ told) }
        ensures none { result ≡ None → (r : Refusal) → ¬ (number r ≡ told) }
    {
        match told {
            2 => Some(Refusal::Closed),
            3 => Some(Refusal::Room),
            4 => Some(Refusal::Memory),
            5 => Some(Refusal::Json),
            6 => Some(Refusal::Shape),
            7 => Some(Refusal::Command),
            8 => Some(Refusal::Table),
            9 => Some(Refusal::Negotiate),
            10 => Some(Refusal::List),
            11 => Some(Refusal::Unsettled),
            12 => Some(Refusal::Shared),
            _ => None,
        }
    }

    // What it says to a person.
    pub fn text(self) -> &'static str
        ensures { result.now ≡ refusal_text self }
    {
        match self {
            Refusal::Closed => "the handle is closed",
            Refusal::Room => "there is too little room",
            Refusal::Memory => "memory was asked for and refused",
            Refusal::Json => "the text is no JSON",
            Refusal::Shape => "the shape is not that of tables, a supplement or lent names",
            Refusal::Command => "no command or syntax has these words",
            Refusal::Table => "the tables leave out one that is needed",
            Refusal::Negotiate => "the handle holds no list of what is available",
            Refusal::List => "the text lists something that is no identifier",
            Refusal::Unsettled => "the likely tables are not settled",
            Refusal::Shared => "another handle has the tables too",
        }
    }
}

// The number of what a call did: 0 where it did it.
pub fn done_number(outcome: Result<(), Refusal>) -> i32
    ensures { result ≡ done_number outcome }
{
    match outcome {
        Ok(()) => 0,
        Err(refusal) => refusal.number(),
    }
}

// The number of an answer: 0 where the line is accepted or a request is met, and 1 where not.
pub fn answer_number(outcome: Result<bool, Refusal>) -> i32
    ensures { result ≡ answer_number outcome }
{
    match outcome {
        Ok(true) => 0,
        Ok(false) => 1,
        Err(refusal) => refusal.number(),
    }
}

// The number of a yes or a no: 1 and 0.
pub fn yes_number(outcome: Result<bool, Refusal>) -> i32
    ensures { result ≡ yes_number outcome }
{
    match outcome {
        Ok(true) => 1,
        Ok(false) => 0,
        Err(refusal) => refusal.number(),
    }
}
