//! Locale identifiers on the command line: each line of the input is one, and each line of the output its answer.
#![tactic(auto)]

use icu_locale_lines::{program_words, run_words};
pub use icu_locale_lines::{CliError, Command, Status, run, run_json, sample};
use std::io;
use std::process::ExitCode;

fn main(rt: HostRuntime) -> ExitCode {
    match start(&rt) {
        Ok(Status::Accepted) => ExitCode::SUCCESS,
        Ok(Status::Refused) => ExitCode::from(1),
        Err(refusal) => {
            let _ = rt.eprintln(refusal);
            ExitCode::from(2)
        }
    }
}

fn start(rt: &HostRuntime) -> Result<Status, CliError> {
    let words = program_words(rt)?;
    run_words(rt.alloc(), &words, &mut rt.reader(), &mut io::writer(rt))
}
