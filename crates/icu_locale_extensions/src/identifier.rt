//! Locale identifiers.
ghost use Rattle.std.specs.Prelude.{◌≡◌, ◌++◌, [], None, Some, IsOk, IfOk, IfErr, IfSome, OnOk, OnErr};
ghost use Rattle.icu_locale_core.specs.Identifier.{IsIdentifier};
ghost use Rattle.icu_locale_extensions.specs.Extensions.{any_piece, ArePieces};
ghost use Rattle.icu_locale_extensions.specs.Locales.{IsLocaleIdentifier, TakesNoMemory, written, transform_pieces, unicode_pieces};

use crate::attributes::Attributes;
use crate::fields::Fields;
use crate::others::Others;
use crate::texts::Subtags;
use crate::writing::write_extensions;
use icu_locale_core::{LanguageIdentifier, Locale, ParseError, TextSink};
use std::alloc::Global;
use std::fmt;

/// A locale identifier (unicode_locale_id of UTS #35 Part 1, section 3.2).
#[derive(PartialEq, Eq, Debug, Drop)]
pub struct LocaleIdentifier {
    /// The identifier, the keywords of the Unicode extension and the language of the transform extension.
    pub locale: Locale,
    /// The attributes of the Unicode extension.
    pub attributes: Attributes,
    /// The fields of the transform extension.
    pub fields: Fields,
    /// The extensions that have no meaning here.
    pub others: Others,
    /// The pieces of private use, if any.
    pub private_use: Option<Subtags<1>>,
}

impl LocaleIdentifier {
    /// The identifier without extensions. It takes no memory.
    pub fn new(alloc: Global, id: LanguageIdentifier) -> Self
        ensures id { result.locale.id ≡ id }
        ensures keywords { result.locale.extensions.unicode.keywords ≡ [] }
        ensures language { result.locale.extensions.transform.lang ≡ None }
        ensures attributes { result.attributes ≡ [] }
        ensures fields { result.fields ≡ [] }
        ensures others { result.others ≡ [] }
        ensures private_use { result.private_use ≡ None }
    {
        LocaleIdentifier::from_locale(alloc, Locale::new(alloc, id))
    }

    /// A locale without attributes, fields, other extensions and private use. It takes no memory.
    pub fn from_locale(alloc: Global, locale: Locale) -> Self
        ensures locale { result.locale ≡ locale }
        ensures attributes { result.attributes ≡ [] }
        ensures fields { result.fields ≡ [] }
        ensures others { result.others ≡ [] }
        ensures private_use { result.private_use ≡ None }
    {
        LocaleIdentifier {
            locale,
            attributes: Attributes::new(alloc),
            fields: Fields::new(alloc),
            others: Others::new(alloc),
            private_use: None,
        }
    }

    /// Tells only that each part belongs to its class and is in its written case. It walks over the parts, and takes no
    /// memory.
    pub fn known(&self)
        ensures { IsLocaleIdentifier self.now }
    {
        self.locale.id.known();
        know_language(&self.locale.extensions.transform.lang);
        self.attributes.known();
        self.locale.extensions.unicode.keywords.known();
        self.locale.extensions.unicode.keywords.known_rows();
        self.fields.known();
        self.fields.known_rows();
        self.others.known();
        self.others.known_rows();
        know_pieces(&self.private_use);
    }

    /// Appends the written form to a text: what Display writes. It takes memory where the text has no room for it.
    ///
    /// # Errors
    ///
    /// `Memory` where that memory was refused. The text is as it was then.
    pub fn append_to(&self, text: &mut Vec<u8>) -> Result<(), ParseError>
        ensures appended { OnOk result (text.new.items ≡ text.old.items ++ written self.now) }
        ensures refused { IfErr result (λ e. e ≡ ParseError.Memory) }
        ensures unchanged { OnErr result (text.new.items ≡ text.old.items) }
    {
        let before = text.as_slice().len();
        match self.write_to(text) {
            Ok(()) => Ok(()),
            Err(_) => {
                text.truncate(before);
                Err(ParseError::Memory)
            }
        }
    }

    /// Writes the written form to a sink.
    ///
    /// # Errors
    ///
    /// That of the sink, which has a part of the text then.
    #[inline]
    pub fn write_to<S: TextSink>(&self, sink: &mut S) -> fmt::Result
        ensures { S.Writes sink.old (written self.now) result sink.new }
    {
        self.locale.id.write_to(sink)?;
        write_extensions(self, sink)
    }

    /// An equal locale identifier. Without variants, extensions and private use it takes no memory.
    ///
    /// # Errors
    ///
    /// `Memory` where a part could not be copied.
    pub fn try_clone(&self) -> Result<Self, ParseError>
        ensures same { IfOk result (λ x. x ≡ self.now) }
        ensures refused { IfErr result (λ e. e ≡ ParseError.Memory) }
        ensures free { TakesNoMemory self.now → IsOk result }
    {
        let locale = self.locale.try_clone()?;
        let attributes = self.attributes.try_clone()?;
        let fields = self.fields.try_clone()?;
        let others = self.others.try_clone()?;
        let private_use = copied_pieces(&self.private_use)?;
        Ok(LocaleIdentifier {
            locale,
            attributes,
            fields,
            others,
            private_use,
        })
    }
}

fn know_language(lang: &Option<LanguageIdentifier>)
    ensures { IfSome lang.now IsIdentifier }
{
    if let Some(lang) = lang {
        lang.known();
    }
}

fn know_pieces(pieces: &Option<Subtags<1>>)
    ensures { IfSome pieces.now (ArePieces 1) }
{
    if let Some(pieces) = pieces {
        let _ = pieces.as_str();
    }
}

fn copied_pieces(pieces: &Option<Subtags<1>>) -> Result<Option<Subtags<1>>, ParseError>
    ensures same { IfOk result (λ p. p ≡ pieces.now) }
    ensures refused { IfErr result (λ e. e ≡ ParseError.Memory) }
    ensures free { pieces.now ≡ None → IsOk result }
{
    match pieces {
        Some(pieces) => Ok(Some(pieces.try_clone()?)),
        None => Ok(None),
    }
}

impl fmt::Display for LocaleIdentifier {
    ghost output = { λ x. Some (written x) };

    fn fmt<W: fmt::Write>(&self, f: &mut fmt::Formatter<W>) -> fmt::Result {
        self.write_to(f)
    }
}

pub fn has_transform(x: &LocaleIdentifier) -> bool
    ensures { result ≡ any_piece (transform_pieces x.now) }
{
    x.locale.extensions.transform.lang.is_some() || !x.fields.is_empty()
}

pub fn has_unicode(x: &LocaleIdentifier) -> bool
    ensures { result ≡ any_piece (unicode_pieces x.now) }
{
    !x.attributes.is_empty() || !x.locale.extensions.unicode.keywords.is_empty()
}
