//! What a table says of one code.
ghost use Rattle.std.specs.Prelude.{◌≡◌, Some};
ghost use Rattle.std.specs.Char.{is_ascii_hexdigit};
ghost use Rattle.std.specs.List.{list_all};
ghost use Rattle.icu_locale_core.specs.Maps.{value_at};
ghost use Rattle.icu_locale_core.specs.Subtag.{is_numeric};
ghost use Rattle.icu_locale_core.specs.TextSet.{text_cmp};
ghost use Rattle.icu_locale_validity.specs.Types.{code_of_kind, is_code_point, is_date, is_whole_region, of_form};

use crate::{CodeKind, Status, Validity};
use icu_locale_core::{Language, Region, Script, Subtag, Variant};

impl Validity {
    /// The status of a language, if it is listed.
    pub fn language(&self, language: Language) -> Option<Status>
        ensures { result ≡ value_at text_cmp self.now.languages language }
    {
        self.languages.get(&language).copied()
    }

    /// The status of a script, if it is listed.
    pub fn script(&self, script: Script) -> Option<Status>
        ensures { result ≡ value_at text_cmp self.now.scripts script }
    {
        self.scripts.get(&script).copied()
    }

    /// The status of a region, if it is listed.
    pub fn region(&self, region: Region) -> Option<Status>
        ensures { result ≡ value_at text_cmp self.now.regions region }
    {
        self.regions.get(&region).copied()
    }

    /// The status of a variant, if it is listed.
    pub fn variant(&self, variant: Variant) -> Option<Status>
        ensures { result ≡ value_at text_cmp self.now.variants variant }
    {
        self.variants.get(&variant).copied()
    }

    // The status of a piece as a code of a kind.
    pub(crate) fn code_of_kind(&self, kind: Option<CodeKind>, piece: Subtag) -> Option<Status>
        ensures { result ≡ code_of_kind self.now kind piece }
    {
        match kind? {
            CodeKind::Script => self.script_of(piece),
            CodeKind::Subdivision => self.subdivision_of(piece),
            CodeKind::RegionOverride => self.subdivisions.get(&piece).copied(),
            CodeKind::Currency => self.currencies.get(&piece).copied(),
            CodeKind::CodePoint => of_form(is_code_point(piece)),
            CodeKind::Date => of_form(is_date(piece.as_str().as_bytes())),
            CodeKind::Any => Some(Status::PrivateUse),
        }
    }

    // The status of a piece as a subdivision, which is no region as a whole.
    fn subdivision_of(&self, piece: Subtag) -> Option<Status>
        ensures { result ≡ code_of_kind self.now (Some CodeKind.Subdivision) piece }
    {
        if is_whole_region(piece) {
            return None;
        }
        self.subdivisions.get(&piece).copied()
    }

    // The status of a piece as a script.
    fn script_of(&self, piece: Subtag) -> Option<Status>
        ensures { result ≡ code_of_kind self.now (Some CodeKind.Script) piece }
    {
        match Script::try_from_str(piece.as_str()) {
            Ok(script) => self.script(script),
            Err(_) => None,
        }
    }
}

fn is_whole_region(piece: Subtag) -> bool
    ensures { result ≡ is_whole_region piece }
{
    piece.as_str().as_bytes().ends_with(b"zzzz".as_slice())
}

fn of_form(is: bool) -> Option<Status>
    ensures { result ≡ of_form is }
{
    if is { Some(Status::Regular) } else { None }
}

// A code point in four to six hexadecimal digits.
fn is_code_point(piece: Subtag) -> bool
    ensures { result ≡ is_code_point piece }
{
    let text = piece.as_str().as_bytes();
    are_hexadecimal(text)
        && ((4 <= text.len() && text.len() <= 5)
            || (text.len() == 6 && text.cmp(b"10ffff".as_slice()).is_le()))
}

fn are_hexadecimal(text: &[u8]) -> bool
    ensures { result ≡ list_all is_ascii_hexdigit text.now }
{
    for byte in text {
        if !byte.is_ascii_hexdigit() {
            return false;
        }
    }
    true
}

// A date: 4, 6 or 8 digits.
pub fn is_date(text: &[u8]) -> bool
    ensures { result ≡ is_date text.now }
{
    are_digits(text) && (text.len() == 4 || text.len() == 6 || text.len() == 8)
}

fn are_digits(text: &[u8]) -> bool
    ensures { result ≡ is_numeric text.now }
{
    for byte in text {
        if !byte.is_ascii_digit() {
            return false;
        }
    }
    true
}
