//! What is told of a locale of which a part is not valid.
ghost use Rattle.std.specs.Prelude.{◌≡◌, ◌-◌, ◌++◌, length, take, IfErr, OnOk, OnErr};
ghost use Rattle.icu_locale_validity.specs.Reports.{report_of};

use crate::Validity;
use crate::faults::append_faults;
use icu_locale_core::ParseError;
use icu_locale_extensions::LocaleIdentifier;

impl Validity {
    /// Appends what is to be told of a locale that a text spells: `valid` where each part is. Else each part that is
    /// not, with a tab between two: its kind, its pieces with `-` between them, its status, `unlisted` or `other_region`,
    /// its first byte in the text and the byte after its last, with a space between two. A part that does not lie in the
    /// text has all of it. It takes memory where what is appended has no room.
    ///
    /// # Errors
    ///
    /// `Memory` where that memory was refused. What was there is as it was then.
    pub fn append_report(
        &self,
        text: &[u8],
        x: &LocaleIdentifier,
        report: &mut Vec<u8>,
    ) -> Result<(), ParseError>
        ensures appended { OnOk result
            (report.new.items ≡ report.old.items ++ report_of self.now text.now x.now) }
        ensures refused { IfErr result (λ e. e ≡ ParseError.Memory) }
        ensures unchanged { OnErr result (report.new.items ≡ report.old.items) }
    {
        if self.is_valid(x) {
            return Ok(report.extend_from_slice(b"valid")?);
        }
        let before = report.as_slice().len();
        match append_faults(self, text, x, report) {
            Ok(()) => {
                drop_last(report);
                Ok(())
            }
            Err(_) => {
                report.truncate(before);
                Err(ParseError::Memory)
            }
        }
    }
}

// Takes the last byte away.
fn drop_last(report: &mut Vec<u8>)
    ensures { report.new.items ≡ take (length report.old.items - 1) report.old.items }
{
    let end = report.len().saturating_sub(1);
    report.truncate(end);
}
