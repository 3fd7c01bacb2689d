//! The walk along a run: two walkers go, one twice as fast as the other, so no list of states is kept. A count of
//! searches, which only contracts see, is here too.
ghost use Rattle.std.specs.Prelude.{◌≡◌, ◌+◌, ℕ, ◌<◌, ◌≤◌, ◌*◌, List, Option, Some, true, IfOk, IfErr, IsOk, OnOk, IsSome};
ghost use Rattle.icu_locale_runs.specs.inner.Walk.{strokes, IsFullFront, IsMeeting, IsWalk};
ghost use Rattle.icu_locale_runs.specs.Run.{StandsIn, HasDistinct, IsRepeat, IsOutcome, IsUniverse};

use std::marker::Model;
use std::snapshot::Snapshot;
use std::{fmt, mem};

#[derive(Drop)]
enum Tally {
    None,
    OneMore(Snapshot<Tally>),
}

/// How many searches were made. It takes no bytes. Whoever writes the steps of a run counts them here, one a search.
#[derive(Drop)]
pub struct Turns {
    tally: Snapshot<Tally>,
}

impl Model for Turns {
    ghost Value = { ℕ };

    ghost view = { λ turns. strokes turns.tally.value };
}

impl fmt::Debug for Turns {
    fn fmt<W: fmt::Write>(&self, f: &mut fmt::Formatter<W>) -> fmt::Result {
        f.write_str("Turns")
    }
}

impl Turns {
    /// No search yet.
    pub fn new() -> Turns
        ensures { result ≡ 0 }
    {
        Turns {
            tally: Snapshot::of(&Tally::None),
        }
    }

    /// One search more. `Rewriting::search` takes it, once a call.
    pub fn take(&mut self)
        ensures { self.new ≡ self.old + 1 }
    {
        let below = mem::replace(&mut self.tally, Snapshot::of(&Tally::None));
        self.tally = Snapshot::of(&Tally::OneMore(below));
    }
}

/// A rule that leads from a state to the next, or to none.
pub trait Rewriting {
    type State: Eq + Drop;

    type Error: Drop;

    /// What follows a state.
    ghost next: { Self → Self.State → Option Self.State };

    /// States among which a run from the given one stays.
    ghost universe: { Self → Self.State → List Self.State };

    /// The errors with which a search may be refused.
    ghost refuses: { Self.Error → Type 0 };

    /// A search here takes no memory.
    ghost needs_none: { Self → Self.State → Type 0 };

    /// What follows `state`, in one turn.
    fn search(
        &self,
        state: &Self::State,
        turns: &mut Turns,
    ) -> Result<Option<Self::State>, Self::Error>
        ensures found { IfOk result (λ found. found ≡ next self.now state.now) }
        ensures refused { IfErr result refuses }
        ensures counted { turns.new ≡ turns.old + 1 }
        ensures free { needs_none self.now state.now → IsOk result };

    /// Equal states are the same.
    ghost exact: { (y z : Self.State) → Self.State.eq y z ≡ true → y ≡ z };
}

/// How a run goes on.
#[derive(Drop, Debug, Clone, Copy, PartialEq, Eq)]
pub enum Outcome<X> {
    /// Nothing follows the start.
    Same,
    /// The run ends here, at a later place than its start.
    Ends(X),
    /// The run has no end, and this is the first of its states that comes again.
    Repeats(X),
}

/// How the two walkers fare.
#[derive(Drop)]
enum Walk<X> {
    Alone,
    Stops(X),
    Meets(X),
}

/// Where the run from `start` ends, or the first state of it that comes again.
pub fn end_of_run<R: Rewriting>(
    rewriting: &R,
    start: &R::State,
    turns: &mut Turns,
) -> Result<Outcome<R::State>, R::Error>
    requires { IsUniverse (R.next rewriting.now) start.now (R.universe rewriting.now start.now) }
    ensures outcome { IfOk result (IsOutcome (R.next rewriting.now) start.now) }
    ensures refused { IfErr result R.refuses }
    ensures free { ((y : R.State) → StandsIn (R.next rewriting.now) start.now y
        → R.needs_none rewriting.now y) → IsOk result }
    ensures forward { turns.old ≤ turns.new }
    ensures count { (n : ℕ) × HasDistinct (R.next rewriting.now) start.now n
        × (turns.new ≤ turns.old + 6 * n) × OnOk result (turns.old + n ≤ turns.new) }
{
    match meet(rewriting, start, turns)? {
        Walk::Alone => Ok(Outcome::Same),
        Walk::Stops(last) => Ok(Outcome::Ends(last)),
        Walk::Meets(meeting) => {
            let first = first_repeat(rewriting, start, meeting, turns)?;
            Ok(Outcome::Repeats(first))
        }
    }
}

// Sends one walker a step at a time and another two, until the second comes to an end or they meet.
fn meet<R: Rewriting>(
    rewriting: &R,
    start: &R::State,
    turns: &mut Turns,
) -> Result<Walk<R::State>, R::Error>
    requires { IsUniverse (R.next rewriting.now) start.now (R.universe rewriting.now start.now) }
    ensures walk { IfOk result (IsWalk (R.next rewriting.now) start.now) }
    ensures refused { IfErr result R.refuses }
    ensures free { ((y : R.State) → StandsIn (R.next rewriting.now) start.now y
        → R.needs_none rewriting.now y) → IsOk result }
    ensures forward { turns.old ≤ turns.new }
    ensures most { (n : ℕ) → IsFullFront (R.next rewriting.now) start.now n
        → turns.new ≤ turns.old + 3 * n }
    ensures least { OnOk result ((n : ℕ) → IsFullFront (R.next rewriting.now) start.now n
        → turns.old + n ≤ turns.new) }
{
    let Some(mut slow) = rewriting.search(start, turns)? else {
        return Ok(Walk::Alone);
    };
    let Some(mut fast) = rewriting.search(&slow, turns)? else {
        return Ok(Walk::Stops(slow));
    };
    'walkers: while slow != fast {
        slow = go_on(rewriting, &slow, turns)?;
        let Some(middle) = rewriting.search(&fast, turns)? else {
            return Ok(Walk::Stops(fast));
        };
        let Some(far) = rewriting.search(&middle, turns)? else {
            return Ok(Walk::Stops(middle));
        };
        fast = far;
    }
    Ok(Walk::Meets(fast))
}

// Sends one walker from the start and one from the meeting, a step each, until they stand on the same state.
fn first_repeat<R: Rewriting>(
    rewriting: &R,
    start: &R::State,
    meeting: R::State,
    turns: &mut Turns,
) -> Result<R::State, R::Error>
    requires meets { IsMeeting (R.next rewriting.now) start.now meeting }
    requires universe { IsUniverse (R.next rewriting.now) start.now
        (R.universe rewriting.now start.now) }
    ensures first { IfOk result (IsRepeat (R.next rewriting.now) start.now) }
    ensures refused { IfErr result R.refuses }
    ensures free { ((y : R.State) → StandsIn (R.next rewriting.now) start.now y
        → R.needs_none rewriting.now y) → IsOk result }
    ensures most { (n : ℕ) → IsFullFront (R.next rewriting.now) start.now n
        → turns.new ≤ turns.old + 2 * n }
    ensures forward { turns.old ≤ turns.new }
{
    if *start == meeting {
        return Ok(meeting);
    }
    let mut near = go_on(rewriting, start, turns)?;
    let mut far = go_on(rewriting, &meeting, turns)?;
    'walkers: while near != far {
        near = go_on(rewriting, &near, turns)?;
        far = go_on(rewriting, &far, turns)?;
    }
    Ok(near)
}

// What follows a state that something follows.
fn go_on<R: Rewriting>(
    rewriting: &R,
    state: &R::State,
    turns: &mut Turns,
) -> Result<R::State, R::Error>
    requires { IsSome (R.next rewriting.now state.now) }
    ensures found { IfOk result (λ found. R.next rewriting.now state.now ≡ Some found) }
    ensures refused { IfErr result R.refuses }
    ensures counted { turns.new ≡ turns.old + 1 }
    ensures free { R.needs_none rewriting.now state.now → IsOk result }
{
    Ok(rewriting.search(state, turns)?.unwrap())
}
