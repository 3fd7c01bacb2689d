//! Small worlds, searched through: tables of a few subtags, made from a fixed sequence of numbers, and the public calls of
//! `icu_locale` over them, each compared with a slow body of its definition at every identifier of the world. What differs
//! is printed, and at last how many worlds there were. Where memory is refused, the run fails.
//!
//! `small_worlds [NUMBER]`: so many worlds, or 10. The file `args` has the number that the gate takes.
#![tactic(auto)]

mod canonical;
mod chains;
mod directions;
mod distances;
mod exemplars;
mod fault;
mod forms;
mod inheritance;
mod likely;
mod links;
mod making;
mod nearest;
mod negotiation;
mod numbers;
mod plain;
mod ranks;
mod report;
mod rules;
mod runs;
mod steps;
mod subtags;
mod tables;
mod values;
mod whole;
mod world;

use crate::fault::Fault;
use crate::world::compare_all;
use std::env;
use std::process::ExitCode;

// How many worlds there are where no number is given.
const FEW: usize = 10;

fn main(rt: HostRuntime) -> ExitCode {
    match start(&rt) {
        Ok(()) => ExitCode::SUCCESS,
        Err(fault) => {
            let status = fault.status();
            let _ = rt.eprintln(fault);
            ExitCode::from(status)
        }
    }
}

fn start(rt: &HostRuntime) -> Result<(), Fault> {
    let count = wanted(rt)?;
    rt.print(compare_all(rt.alloc(), count)?)?;
    Ok(())
}

// The number that the words say.
fn wanted(rt: &HostRuntime) -> Result<usize, Fault> {
    let mut words = env::args(rt)?.skip(1);
    match (words.next(), words.next()) {
        (None, _) => Ok(FEW),
        (Some(word), None) => word.parse().ok().ok_or(Fault::Usage),
        _ => Err(Fault::Usage),
    }
}
