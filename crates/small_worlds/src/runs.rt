//! Runs, by keeping every state that was met.
use crate::fault::Fault;
use std::alloc::Global;

/// A step of a run.
pub trait Step<X> {
    /// What follows a state.
    fn next(&self, state: &X) -> Option<X>;
}

/// How a run goes.
#[derive(Clone, Copy, PartialEq, Eq)]
pub enum Run<X> {
    /// It ends here.
    Ends(X),
    /// The first state that it meets twice.
    Repeats(X),
}

// No run of a world has as many states.
const MOST: usize = 1_000;

/// The run of a start, one step after another.
pub fn walk<X: Copy + PartialEq, S: Step<X>>(
    alloc: Global,
    step: &S,
    start: X,
) -> Result<Run<X>, Fault> {
    walk_through(step, start, &mut Vec::new(alloc))
}

/// The same, with the list of the states that are met, in their order and each once.
pub fn walk_through<X: Copy + PartialEq, S: Step<X>>(
    step: &S,
    start: X,
    met: &mut Vec<X>,
) -> Result<Run<X>, Fault> {
    let mut here = start;
    for _ in 0..MOST {
        if met.contains(&here) {
            return Ok(Run::Repeats(here));
        }
        met.push(here)?;
        match step.next(&here) {
            Some(later) => here = later,
            None => return Ok(Run::Ends(here)),
        }
    }
    Err(Fault::Endless)
}
