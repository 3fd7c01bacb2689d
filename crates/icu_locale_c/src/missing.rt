//! The table that a command needs and that is not held.
ghost use Rattle.std.specs.Prelude.{◌≡◌, Bool, Result};
ghost use Rattle.icu_locale_c.specs.Calls.{answer_number};
ghost use Rattle.icu_locale_c.specs.Data.{IsMissing};
ghost use Rattle.icu_locale_c.specs.declared.refusal.Refusal.{Refusal};

use crate::handle::Handle;
use crate::refusal::{Refusal, answer_number};
use std::alloc::Global;

/// Writes the first table that a command needs and that a handle's tables leave out, by its name in JSON, to the beginning
/// of `out`.
#[unsafe(no_mangle)]
pub extern "C" fn icu_locale_missing(
    alloc: Global,
    handle: &mut Handle,
    command: &[u8],
    out: &mut [u8],
    written: &mut usize,
) -> i32
    ensures stays { handle.new.held ≡ handle.old.held }
    ensures told { (outcome : Result Bool Refusal) × (result ≡ answer_number outcome)
        × IsMissing handle.old.held command.now out.old out.new written.new outcome }
{
    answer_number(missing(alloc, handle, command, out, written))
}

fn missing(
    alloc: Global,
    handle: &mut Handle,
    command: &[u8],
    out: &mut [u8],
    written: &mut usize,
) -> Result<bool, Refusal>
    ensures stays { handle.new.held ≡ handle.old.held }
    ensures told { IsMissing handle.old.held command.now out.old out.new written.new result }
{
    *written = 0;
    let shared = handle.take(alloc)?;
    let outcome = shared.put_missing(alloc, command, out, written);
    *handle = Handle::of(shared);
    outcome
}
