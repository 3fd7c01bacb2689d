//! The kinds of the parts of a locale.
ghost use Rattle.std.specs.Prelude.{◌≡◌};
ghost use Rattle.icu_locale_validity.specs.Parts.{kind_word};

/// What a part of a locale is. Private use is no part: it is always valid.
#[derive(Clone, Copy, Debug, PartialEq, Eq)]
pub enum PartKind {
    /// A language.
    Language,
    /// A script.
    Script,
    /// A region.
    Region,
    /// A variant.
    Variant,
    /// An attribute of the Unicode extension.
    Attribute,
    /// A keyword of the Unicode extension.
    Keyword,
    /// A field of the transform extension.
    Field,
    /// An extension that has no meaning here.
    Extension,
}

impl PartKind {
    /// The kind as one word.
    pub fn as_str(self) -> &'static str
        ensures { result.now ≡ kind_word self }
    {
        match self {
            PartKind::Language => "language",
            PartKind::Script => "script",
            PartKind::Region => "region",
            PartKind::Variant => "variant",
            PartKind::Attribute => "attribute",
            PartKind::Keyword => "keyword",
            PartKind::Field => "field",
            PartKind::Extension => "extension",
        }
    }
}
