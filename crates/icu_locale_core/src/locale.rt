//! Locales: an identifier and its extensions.
ghost use Rattle.std.specs.Prelude.{◌≡◌, [], None, IsOk, IfOk, IfErr, IfSome};
ghost use Rattle.icu_locale_core.specs.TextSet.{empty};

use crate::{Extensions, Keywords, LanguageIdentifier, ParseError, Transform, Unicode};
use std::alloc::Global;

/// A locale (unicode_locale_id of UTS #35, section 3.1): an identifier, the keywords of its Unicode extension, and the
/// language of its transform extension.
#[derive(PartialEq, Eq, Debug, Drop)]
pub struct Locale {
    /// The identifier.
    pub id: LanguageIdentifier,
    /// The extensions.
    pub extensions: Extensions,
}

impl Locale {
    /// The identifier without extensions. It takes no memory.
    #[inline(always)]
    pub fn new(alloc: Global, id: LanguageIdentifier) -> Self
        ensures id { result.id ≡ id }
        ensures keywords { result.extensions.unicode.keywords ≡ [] }
        ensures language { result.extensions.transform.lang ≡ None }
    {
        Locale {
            id,
            extensions: Extensions {
                unicode: Unicode {
                    keywords: Keywords::new(alloc),
                },
                transform: Transform { lang: None },
            },
        }
    }

    /// An equal locale. Without variants and keywords it takes no memory.
    ///
    /// # Errors
    ///
    /// `Memory` where variants or keywords could not be copied.
    pub fn try_clone(&self) -> Result<Self, ParseError>
        ensures same { IfOk result (λ l. l ≡ self.now) }
        ensures refused { IfErr result (λ e. e ≡ ParseError.Memory) }
        ensures free { self.now.id.variants ≡ empty
            → self.now.extensions.unicode.keywords ≡ []
            → IfSome self.now.extensions.transform.lang (λ l. l.variants ≡ empty)
            → IsOk result }
    {
        let id = self.id.try_clone()?;
        let keywords = self.extensions.unicode.keywords.try_clone()?;
        let lang = copied_language(&self.extensions.transform.lang)?;
        Ok(Locale {
            id,
            extensions: Extensions {
                unicode: Unicode { keywords },
                transform: Transform { lang },
            },
        })
    }
}

fn copied_language(
    lang: &Option<LanguageIdentifier>,
) -> Result<Option<LanguageIdentifier>, ParseError>
    ensures same { IfOk result (λ l. l ≡ lang.now) }
    ensures refused { IfErr result (λ e. e ≡ ParseError.Memory) }
    ensures free { IfSome lang.now (λ l. l.variants ≡ empty) → IsOk result }
{
    match lang {
        Some(lang) => Ok(Some(lang.try_clone()?)),
        None => Ok(None),
    }
}
