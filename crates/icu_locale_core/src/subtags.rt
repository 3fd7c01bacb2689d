//! Subtags: language, script, region and variant of an identifier, and key and piece of a keyword.
ghost use Rattle.std.specs.Prelude.{◌≡◌, ◌↔◌, ◌≤◌, ◌+◌, ◌++◌, codes, take, IsTrue, IsOk, IfOk, IfErr, IfSome, is_some, Some, true, List, ℕ, length};
ghost use Rattle.std.specs.Char.{is_ascii_alphabetic, is_ascii_digit, to_ascii_lowercase, to_ascii_uppercase};
ghost use Rattle.icu_locale_core.specs.Cuts.{optional_subtag, after_optional_subtag};
ghost use Rattle.icu_locale_core.specs.Subtag.{
  is_language,
  is_script,
  is_region,
  is_variant,
  is_key,
  is_subtag,
  is_alphabetic,
  is_alphanumeric,
  und,
  unknown_script,
  unknown_region,
  lowercase,
  titlecase,
  uppercase,
  IsLanguage,
  IsScript,
  IsRegion,
  IsVariant,
  IsKey,
  IsSubtag,
};

use crate::ParseError;
use crate::classes::Class;
use crate::pieces::Pieces;
use crate::tiny::TinyText;
use std::fmt;
use std::marker::Model;

/// A language: 2 or 3 letters, written in lower case (unicode_language_subtag of UTS #35, section 3.1). No call takes
/// memory.
#[derive(Clone, Copy, Debug, PartialEq, Eq, PartialOrd, Ord, Hash)]
pub struct Language(pub(crate) TinyText<4>);

impl Model for Language {
    ghost Value = { List ℕ };

    ghost view = { λ a. a.0 };

    ghost invariant = { λ a. IsLanguage a.0 };

    ghost inverse = { λ t. record { 0 = t } };
}

impl Language {
    /// Reads a language in any case.
    ///
    /// # Errors
    ///
    /// `InvalidLanguage` exactly where the text is no language.
    pub fn try_from_str(text: &str) -> Result<Self, ParseError>
        ensures read { IfOk result (λ x. x ≡ lowercase text.now) }
        ensures accepted { IsOk result ↔ IsTrue (is_language text.now) }
        ensures refused { IfErr result (λ e. e ≡ ParseError.InvalidLanguage) }
    {
        Self::try_from_bytes(text.as_bytes()).ok_or(ParseError::InvalidLanguage)
    }

    // Reads the bytes of a language.
    #[inline(always)]
    pub(crate) fn try_from_bytes(text: &[u8]) -> Option<Self>
        ensures read { IfSome result (λ x. x ≡ lowercase text.now) }
        ensures accepted { is_some result ≡ is_language text.now }
    {
        match *text {
            [a, b] if is_letter(a) && is_letter(b) => Some(Language(TinyText::of_two(
                lower(a),
                lower(b),
            ))),
            [a, b, c] if is_letter(a) && is_letter(b) && is_letter(c) => {
                Some(Language(TinyText::of_three(lower(a), lower(b), lower(c))))
            }
            _ => None,
        }
    }

    /// The text in its written case.
    pub fn as_str(&self) -> &str
        ensures text { result.now ≡ self.now }
        ensures known { IsLanguage self.now }
    {
        self.0.as_str()
    }

    // Puts it into a buffer at a place, and tells where it ends there. What follows that is lost.
    #[inline(always)]
    pub(crate) fn put(&self, buffer: &mut [u8], at: usize) -> usize
        requires { at + 4 ≤ length buffer.old }
        ensures text { take result buffer.new ≡ take at buffer.old ++ self.now }
        ensures end { (at ≤ result) × (result ≤ at + 4) }
        ensures size { length buffer.new ≡ length buffer.old }
        ensures plain { IsTrue (is_alphanumeric self.now) }
    {
        self.0.put(buffer, at);
        at + self.0.two_or_three()
    }

    /// The language `und`, which stands for none that is known.
    pub const UNKNOWN: Language = Language(TinyText { bytes: *b"und\0" });

    /// Whether the language is `und`.
    pub fn is_unknown(&self) -> bool
        ensures { IsTrue result ↔ (self.now ≡ und) }
    {
        *self == Language::UNKNOWN
    }

    /// The language `sgn`, which stands for a sign language.
    pub const SIGN: Language = Language(TinyText { bytes: *b"sgn\0" });
}

impl fmt::Display for Language {
    ghost output = { λ x. Some x };

    fn fmt<W: fmt::Write>(&self, f: &mut fmt::Formatter<W>) -> fmt::Result {
        f.write_str(self.as_str())
    }
}

/// A script: 4 letters, written with the first in upper case (unicode_script_subtag of UTS #35, section 3.1). No call
/// takes memory.
#[derive(Clone, Copy, Debug, PartialEq, Eq, PartialOrd, Ord, Hash)]
pub struct Script(pub(crate) TinyText<4>);

impl Model for Script {
    ghost Value = { List ℕ };

    ghost view = { λ a. a.0 };

    ghost invariant = { λ a. IsScript a.0 };

    ghost inverse = { λ t. record { 0 = t } };
}

impl Script {
    /// Reads a script in any case.
    ///
    /// # Errors
    ///
    /// `InvalidSubtag` exactly where the text is no script.
    pub fn try_from_str(text: &str) -> Result<Self, ParseError>
        ensures read { IfOk result (λ x. x ≡ titlecase text.now) }
        ensures accepted { IsOk result ↔ IsTrue (is_script text.now) }
        ensures refused { IfErr result (λ e. e ≡ ParseError.InvalidSubtag) }
    {
        Self::try_from_bytes(text.as_bytes()).ok_or(ParseError::InvalidSubtag)
    }

    // Reads the bytes of a script.
    #[inline(always)]
    pub(crate) fn try_from_bytes(text: &[u8]) -> Option<Self>
        ensures read { IfSome result (λ x. x ≡ titlecase text.now) }
        ensures accepted { is_some result ≡ is_script text.now }
    {
        match *text {
            [a, b, c, d] if is_letter(a) && is_letter(b) && is_letter(c) && is_letter(d) => {
                Some(Script(TinyText::of_four(upper(a), lower(b), lower(c), lower(d))))
            }
            _ => None,
        }
    }

    /// The text in its written case.
    pub fn as_str(&self) -> &str
        ensures text { result.now ≡ self.now }
        ensures known { IsScript self.now }
    {
        self.0.as_str()
    }

    // Puts `-` and the text into a buffer at a place, and tells where they end there. What follows that is lost.
    #[inline(always)]
    pub(crate) fn put_after_dash(&self, buffer: &mut [u8], at: usize) -> usize
        requires { at + 5 ≤ length buffer.old }
        ensures text { take result buffer.new ≡ take at buffer.old ++ (codes "-" ++ self.now) }
        ensures end { (at ≤ result) × (result ≤ at + 5) }
        ensures size { length buffer.new ≡ length buffer.old }
        ensures plain { IsTrue (is_alphanumeric self.now) }
    {
        self.0.put_after_dash(buffer, at);
        at + 5
    }

    /// The script `Zzzz`, which stands for none that is known.
    pub const UNKNOWN: Script = Script(TinyText { bytes: *b"Zzzz" });

    /// Whether the script is `Zzzz`.
    pub fn is_unknown(&self) -> bool
        ensures { IsTrue result ↔ (self.now ≡ unknown_script) }
    {
        *self == Script::UNKNOWN
    }
}

impl fmt::Display for Script {
    ghost output = { λ x. Some x };

    fn fmt<W: fmt::Write>(&self, f: &mut fmt::Formatter<W>) -> fmt::Result {
        f.write_str(self.as_str())
    }
}

/// A region: 2 letters or 3 digits, written in upper case (unicode_region_subtag of UTS #35, section 3.1). No call takes
/// memory.
#[derive(Clone, Copy, Debug, PartialEq, Eq, PartialOrd, Ord, Hash)]
pub struct Region(pub(crate) TinyText<4>);

impl Model for Region {
    ghost Value = { List ℕ };

    ghost view = { λ a. a.0 };

    ghost invariant = { λ a. IsRegion a.0 };

    ghost inverse = { λ t. record { 0 = t } };
}

impl Region {
    /// Reads a region in any case.
    ///
    /// # Errors
    ///
    /// `InvalidSubtag` exactly where the text is no region.
    pub fn try_from_str(text: &str) -> Result<Self, ParseError>
        ensures read { IfOk result (λ x. x ≡ uppercase text.now) }
        ensures accepted { IsOk result ↔ IsTrue (is_region text.now) }
        ensures refused { IfErr result (λ e. e ≡ ParseError.InvalidSubtag) }
    {
        Self::try_from_bytes(text.as_bytes()).ok_or(ParseError::InvalidSubtag)
    }

    // Reads the bytes of a region.
    #[inline(always)]
    pub(crate) fn try_from_bytes(text: &[u8]) -> Option<Self>
        ensures read { IfSome result (λ x. x ≡ uppercase text.now) }
        ensures accepted { is_some result ≡ is_region text.now }
    {
        match *text {
            [a, b] if is_letter(a) && is_letter(b) => Some(Region(TinyText::of_two(
                upper(a),
                upper(b),
            ))),
            [a, b, c] if is_digit(a) && is_digit(b) && is_digit(c) => {
                Some(Region(TinyText::of_three(a, b, c)))
            }
            _ => None,
        }
    }

    /// The text in its written case.
    pub fn as_str(&self) -> &str
        ensures text { result.now ≡ self.now }
        ensures known { IsRegion self.now }
    {
        self.0.as_str()
    }

    // Puts `-` and the text into a buffer at a place, and tells where they end there. What follows that is lost.
    #[inline(always)]
    pub(crate) fn put_after_dash(&self, buffer: &mut [u8], at: usize) -> usize
        requires { at + 5 ≤ length buffer.old }
        ensures text { take result buffer.new ≡ take at buffer.old ++ (codes "-" ++ self.now) }
        ensures end { (at ≤ result) × (result ≤ at + 5) }
        ensures size { length buffer.new ≡ length buffer.old }
        ensures plain { IsTrue (is_alphanumeric self.now) }
    {
        self.0.put_after_dash(buffer, at);
        at + 1 + self.0.two_or_three()
    }

    /// Whether the region is one of letters, and not of digits.
    pub fn is_alphabetic(&self) -> bool
        ensures { result ≡ is_alphabetic self.now }
    {
        self.0.two_or_three() == 2
    }

    /// The region `ZZ`, which stands for none that is known.
    pub const UNKNOWN: Region = Region(TinyText { bytes: *b"ZZ\0\0" });

    /// Whether the region is `ZZ`.
    pub fn is_unknown(&self) -> bool
        ensures { IsTrue result ↔ (self.now ≡ unknown_region) }
    {
        *self == Region::UNKNOWN
    }
}

impl fmt::Display for Region {
    ghost output = { λ x. Some x };

    fn fmt<W: fmt::Write>(&self, f: &mut fmt::Formatter<W>) -> fmt::Result {
        f.write_str(self.as_str())
    }
}

/// A variant: 5 to 8 letters or digits, or a digit and 3 of them, written in lower case (unicode_variant_subtag of UTS
/// #35, section 3.1). No call takes memory.
#[derive(Clone, Copy, Debug, PartialEq, Eq, PartialOrd, Ord, Hash)]
pub struct Variant(pub(crate) TinyText<8>);

impl Model for Variant {
    ghost Value = { List ℕ };

    ghost view = { λ a. a.0 };

    ghost invariant = { λ a. IsVariant a.0 };

    ghost inverse = { λ t. record { 0 = t } };
}

impl Variant {
    /// Reads a variant in any case.
    ///
    /// # Errors
    ///
    /// `InvalidSubtag` exactly where the text is no variant.
    pub fn try_from_str(text: &str) -> Result<Self, ParseError>
        ensures read { IfOk result (λ x. x ≡ lowercase text.now) }
        ensures accepted { IsOk result ↔ IsTrue (is_variant text.now) }
        ensures refused { IfErr result (λ e. e ≡ ParseError.InvalidSubtag) }
    {
        Self::try_from_bytes(text.as_bytes()).ok_or(ParseError::InvalidSubtag)
    }

    // Reads the bytes of a variant.
    #[inline(always)]
    pub(crate) fn try_from_bytes(text: &[u8]) -> Option<Self>
        ensures read { IfSome result (λ x. x ≡ lowercase text.now) }
        ensures accepted { is_some result ≡ is_variant text.now }
    {
        Some(Variant(TinyText::read(Class::Variant, text)?))
    }

    /// The text in its written case.
    pub fn as_str(&self) -> &str
        ensures text { result.now ≡ self.now }
        ensures known { IsVariant self.now }
    {
        self.0.as_str()
    }
}

impl fmt::Display for Variant {
    ghost output = { λ x. Some x };

    fn fmt<W: fmt::Write>(&self, f: &mut fmt::Formatter<W>) -> fmt::Result {
        f.write_str(self.as_str())
    }
}

/// A key of a keyword: a letter or digit and then a letter, written in lower case (key of UTS #35, section 3.6.1). No
/// call takes memory.
#[derive(Clone, Copy, Debug, PartialEq, Eq, PartialOrd, Ord, Hash)]
pub struct Key(TinyText<2>);

impl Model for Key {
    ghost Value = { List ℕ };

    ghost view = { λ a. a.0 };

    ghost invariant = { λ a. IsKey a.0 };

    ghost inverse = { λ t. record { 0 = t } };
}

impl Key {
    /// Reads a key in any case.
    ///
    /// # Errors
    ///
    /// `InvalidSubtag` exactly where the text is no key.
    pub fn try_from_str(text: &str) -> Result<Self, ParseError>
        ensures read { IfOk result (λ x. x ≡ lowercase text.now) }
        ensures accepted { IsOk result ↔ IsTrue (is_key text.now) }
        ensures refused { IfErr result (λ e. e ≡ ParseError.InvalidSubtag) }
    {
        Self::try_from_bytes(text.as_bytes()).ok_or(ParseError::InvalidSubtag)
    }

    /// Reads the bytes of a key in any case, if they are one.
    #[inline(always)]
    pub fn try_from_bytes(text: &[u8]) -> Option<Self>
        ensures read { IfSome result (λ x. x ≡ lowercase text.now) }
        ensures accepted { is_some result ≡ is_key text.now }
    {
        Some(Key(TinyText::read(Class::Key, text)?))
    }

    /// Takes the first of pieces where it is one, in any case, and else nothing.
    #[inline]
    pub fn next_of(pieces: &mut Pieces<'_>) -> Option<Self>
        ensures read { result ≡ optional_subtag is_key lowercase pieces.old }
        ensures rest { pieces.new ≡ after_optional_subtag is_key pieces.old }
    {
        let piece = Key::try_from_bytes(pieces.peek()?)?;
        let _ = pieces.next();
        Some(piece)
    }

    /// The text in its written case.
    pub fn as_str(&self) -> &str
        ensures text { result.now ≡ self.now }
        ensures known { IsKey self.now }
    {
        self.0.as_str()
    }

    /// The key `rg`, which holds a region override.
    pub const REGION_OVERRIDE: Key = Key(TinyText { bytes: *b"rg" });

    /// The key `sd`, which holds a subdivision.
    pub const SUBDIVISION: Key = Key(TinyText { bytes: *b"sd" });
}

impl fmt::Display for Key {
    ghost output = { λ x. Some x };

    fn fmt<W: fmt::Write>(&self, f: &mut fmt::Formatter<W>) -> fmt::Result {
        f.write_str(self.as_str())
    }
}

/// One piece of a value: 3 to 8 letters or digits, written in lower case (type of UTS #35, section 3.6.1). No call takes
/// memory.
#[derive(Clone, Copy, Debug, PartialEq, Eq, PartialOrd, Ord, Hash)]
pub struct Subtag(pub(crate) TinyText<8>);

impl Model for Subtag {
    ghost Value = { List ℕ };

    ghost view = { λ a. a.0 };

    ghost invariant = { λ a. IsSubtag a.0 };

    ghost inverse = { λ t. record { 0 = t } };
}

impl Subtag {
    /// Reads a subtag in any case.
    ///
    /// # Errors
    ///
    /// `InvalidSubtag` exactly where the text is no subtag.
    pub fn try_from_str(text: &str) -> Result<Self, ParseError>
        ensures read { IfOk result (λ x. x ≡ lowercase text.now) }
        ensures accepted { IsOk result ↔ IsTrue (is_subtag text.now) }
        ensures refused { IfErr result (λ e. e ≡ ParseError.InvalidSubtag) }
    {
        Self::try_from_bytes(text.as_bytes()).ok_or(ParseError::InvalidSubtag)
    }

    /// Reads the bytes of a subtag in any case, if they are one.
    #[inline(always)]
    pub fn try_from_bytes(text: &[u8]) -> Option<Self>
        ensures read { IfSome result (λ x. x ≡ lowercase text.now) }
        ensures accepted { is_some result ≡ is_subtag text.now }
    {
        Some(Subtag(TinyText::read(Class::Subtag, text)?))
    }

    /// Takes the first of pieces where it is one, in any case, and else nothing.
    #[inline]
    pub fn next_of(pieces: &mut Pieces<'_>) -> Option<Self>
        ensures read { result ≡ optional_subtag is_subtag lowercase pieces.old }
        ensures rest { pieces.new ≡ after_optional_subtag is_subtag pieces.old }
    {
        let piece = Subtag::try_from_bytes(pieces.peek()?)?;
        let _ = pieces.next();
        Some(piece)
    }

    /// The text in its written case.
    pub fn as_str(&self) -> &str
        ensures text { result.now ≡ self.now }
        ensures known { IsSubtag self.now }
    {
        self.0.as_str()
    }
}

impl fmt::Display for Subtag {
    ghost output = { λ x. Some x };

    fn fmt<W: fmt::Write>(&self, f: &mut fmt::Formatter<W>) -> fmt::Result {
        f.write_str(self.as_str())
    }
}

// A letter in lower case: five bits tell which letter it is.
#[inline(always)]
fn lower(letter: u8) -> u8
    requires { is_ascii_alphabetic letter ≡ true }
    ensures lower { result ≡ to_ascii_lowercase letter }
    ensures written { to_ascii_lowercase result ≡ result }
    ensures letter { is_ascii_alphabetic result ≡ true }
{
    letter % 32 + 96
}

// A letter in upper case.
#[inline(always)]
fn upper(letter: u8) -> u8
    requires { is_ascii_alphabetic letter ≡ true }
    ensures upper { result ≡ to_ascii_uppercase letter }
    ensures written { to_ascii_uppercase result ≡ result }
    ensures letter { is_ascii_alphabetic result ≡ true }
{
    letter % 32 + 64
}

#[inline(always)]
fn is_letter(byte: u8) -> bool
    ensures { result ≡ is_ascii_alphabetic byte }
{
    byte.is_ascii_alphabetic()
}

#[inline(always)]
fn is_digit(byte: u8) -> bool
    ensures { result ≡ is_ascii_digit byte }
{
    byte.is_ascii_digit()
}
