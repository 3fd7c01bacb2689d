//! Rows as data: each line of the input is a call of a public function and the answer that is wanted of it. What
//! differs is printed, and at last how many rows were run. The status is 0 where no row differs, 3 where one does, and
//! 1 where the rows are not run to their end.
#![tactic(auto)]

mod calls;
mod canonical;
mod cases;
mod chains;
mod fault;
mod language_names;
mod likely;
mod menus;
mod names;
mod negotiation;
mod runs;
mod texts;
mod world;

use crate::cases::run_all;
use crate::fault::Fault;
use std::io;
use std::process::ExitCode;

fn main(rt: HostRuntime) -> Result<ExitCode, Fault> {
    let text = io::read_to_string(rt.alloc(), rt.reader())?;
    let report = run_all(rt.alloc(), text.as_str())?;
    let status = report.status();
    rt.print(report.text)?;
    Ok(status)
}
