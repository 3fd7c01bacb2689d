//! Names in the flat form: those that tables are lent, and those that are written of them.
ghost use Rattle.std.specs.Prelude.{◌≡◌, Result};
ghost use Rattle.icu_locale_c.specs.Calls.{done_number};
ghost use Rattle.icu_locale_c.specs.Flat.{IsFlatOf, IsLent};
ghost use Rattle.icu_locale_c.specs.declared.refusal.Refusal.{Refusal};

use crate::handle::Handle;
use crate::refusal::{Refusal, done_number};
use std::alloc::Global;

/// Lends names in the flat form to a handle's tables, in place of those lent before. The bytes stay where they are, as long
/// as the tables do. It is refused where another handle has the tables too; after a refusal all is as it was. It takes no
/// memory.
#[unsafe(no_mangle)]
pub extern "C" fn icu_locale_lend_names(
    alloc: Global,
    handle: &mut Handle,
    flat: &'static [u8],
) -> i32
    ensures { (outcome : Result (Unit {0}) Refusal) × (result ≡ done_number outcome)
        × IsLent handle.old.held flat.now handle.new.held outcome }
{
    done_number(lend_names(alloc, handle, flat))
}

/// Writes the own names of a handle's tables in the flat form to the beginning of `out`.
#[unsafe(no_mangle)]
pub extern "C" fn icu_locale_flat_names(
    alloc: Global,
    handle: &mut Handle,
    out: &mut [u8],
    written: &mut usize,
) -> i32
    ensures stays { handle.new.held ≡ handle.old.held }
    ensures named { (outcome : Result (Unit {0}) Refusal) × (result ≡ done_number outcome)
        × IsFlatOf handle.old.held out.old out.new written.new outcome }
{
    done_number(flat_names(alloc, handle, out, written))
}

fn lend_names(alloc: Global, handle: &mut Handle, flat: &'static [u8]) -> Result<(), Refusal>
    ensures { IsLent handle.old.held flat.now handle.new.held result }
{
    let mut shared = handle.take(alloc)?;
    let outcome = shared.lend_names(flat);
    *handle = Handle::of(shared);
    outcome
}

fn flat_names(
    alloc: Global,
    handle: &mut Handle,
    out: &mut [u8],
    written: &mut usize,
) -> Result<(), Refusal>
    ensures stays { handle.new.held ≡ handle.old.held }
    ensures named { IsFlatOf handle.old.held out.old out.new written.new result }
{
    *written = 0;
    let shared = handle.take(alloc)?;
    let outcome = shared.put_flat_names(alloc, out, written);
    *handle = Handle::of(shared);
    outcome
}
