//! What the number of a refusal says, in words.
ghost use Rattle.icu_locale_c.specs.Refusals.{IsRefusalText};

use crate::lines::put_text;
use crate::refusal::Refusal;

// Writes the text of the refusal that has a number to the beginning of `out`, and tells whether one has it.
pub fn put_refusal_text(number: i32, out: &mut [u8], written: &mut usize) -> Result<bool, Refusal>
    ensures { IsRefusalText number out.old out.new written.new result }
{
    match Refusal::of_number(number) {
        Some(refusal) => {
            put_text(refusal.text().as_bytes(), out, written)?;
            Ok(true)
        }
        None => {
            *written = 0;
            Ok(false)
        }
    }
}
