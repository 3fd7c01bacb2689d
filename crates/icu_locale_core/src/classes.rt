//! The classes of subtags: which texts belong to each, and how each is written.
ghost use Rattle.std.specs.Prelude.{◌≡◌, ◌≤◌, length, IfSome};
ghost use Rattle.icu_locale_core.specs.inner.Class.{is_member, written_byte, longest, is_character, consists_of};

#[derive(Clone, Copy)]
pub enum Class {
    Language,
    Script,
    Region,
    Variant,
    Key,
    Subtag,
}

// Kinds of characters.
#[derive(Clone, Copy)]
pub enum Characters {
    Letters,
    Digits,
    LettersAndDigits,
}

impl Class {
    // The kind of characters that makes a text a member, where all of them are of that kind. No walk over the text is
    // needed to tell it. Where there is none, the text is no member, whatever its case.
    #[inline(always)]
    pub fn characters(self, text: &[u8]) -> Option<Characters>
        ensures member { is_member self text.now ≡ consists_of result text.now }
        ensures short { IfSome result (λ _. length text.now ≤ longest self) }
    {
        match (self, text.len()) {
            (Class::Language, 2 | 3) => Some(Characters::Letters),
            (Class::Script, 4) => Some(Characters::Letters),
            (Class::Region, 2) => Some(Characters::Letters),
            (Class::Region, 3) => Some(Characters::Digits),
            (Class::Variant, 4) if text[0].is_ascii_digit() => Some(Characters::LettersAndDigits),
            (Class::Variant, 5..=8) => Some(Characters::LettersAndDigits),
            (Class::Key, 2) if text[1].is_ascii_alphabetic() => Some(Characters::LettersAndDigits),
            (Class::Subtag, 3..=8) => Some(Characters::LettersAndDigits),
            _ => None,
        }
    }

    // How a character at a place is written.
    #[inline(always)]
    pub fn written_byte(self, place: usize, byte: u8) -> u8
        ensures { result ≡ written_byte self place byte }
    {
        match self {
            Class::Script if place == 0 => byte.to_ascii_uppercase(),
            Class::Region => byte.to_ascii_uppercase(),
            _ => byte.to_ascii_lowercase(),
        }
    }
}

impl Characters {
    // Whether a character is of the kind.
    #[inline(always)]
    pub fn has(self, byte: u8) -> bool
        ensures { result ≡ is_character self byte }
    {
        match self {
            Characters::Letters => byte.is_ascii_alphabetic(),
            Characters::Digits => byte.is_ascii_digit(),
            Characters::LettersAndDigits => byte.is_ascii_alphanumeric(),
        }
    }
}
