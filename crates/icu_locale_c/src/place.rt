//! Where a text is no locale identifier.
ghost use Rattle.icu_locale_c.specs.Places.{IsPlaced};

use crate::refusal::Refusal;
use icu_locale_extensions::laws;
use icu_locale_places::{Fault, read_at};
use std::alloc::Global;

// Whether a text is a locale identifier. Where it is none, the bytes are put where it is wrong.
pub fn put_place(
    alloc: Global,
    text: &[u8],
    from: &mut usize,
    to: &mut usize,
) -> Result<bool, Refusal>
    ensures { IsPlaced text.now (from.old, to.old) (from.new, to.new) result }
{
    laws::refusals_are_faults();
    let fault = match read_at(alloc, text) {
        Ok(_identifier) => return Ok(true),
        Err(fault) => fault,
    };
    match fault {
        Fault::Memory => Err(Refusal::Memory),
        Fault::At {
            refusal: _refusal,
            from: first,
            to: behind,
        } => {
            *from = first;
            *to = behind;
            Ok(false)
        }
    }
}
