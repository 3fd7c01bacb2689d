//! What is to be changed of a locale.
ghost use Rattle.std.specs.Prelude.{◌≡◌, is_some, IsSome, unwrap_or};
ghost use Rattle.icu_locale_core.specs.Maps.{value_at};
ghost use Rattle.icu_locale_core.specs.TextSet.{text_cmp};
ghost use Rattle.icu_locale.specs.Canonical.{rg, sd, put_optional, answer_of};
ghost use Rattle.icu_locale.specs.inner.CanonicalParts.{with_changes, has_change};

use crate::TransformResult;
use icu_locale_core::{Key, Keywords, LanguageIdentifier, Locale, Value};

/// What is to be changed of a locale, where none stands for no change.
#[derive(Drop)]
pub struct Changes {
    pub id: Option<LanguageIdentifier>,
    pub transform: Option<LanguageIdentifier>,
    pub region_override: Option<Value>,
    pub subdivision: Option<Value>,
}

impl Changes {
    // Writes the changes, all of them.
    #[inline(always)]
    pub fn write(self, locale: &mut Locale) -> TransformResult
        requires region_override { IsSome self.region_override
            → IsSome (value_at text_cmp locale.old.extensions.unicode.keywords rg) }
        requires subdivision { IsSome self.subdivision
            → IsSome (value_at text_cmp locale.old.extensions.unicode.keywords sd) }
        ensures changed { locale.new ≡ with_changes self locale.old }
        ensures answer { result ≡ answer_of (has_change self) }
    {
        let Changes {
            id,
            transform,
            region_override,
            subdivision,
        } = self;
        let keywords = &mut locale.extensions.unicode.keywords;
        let is_region_changed = put(keywords, Key::REGION_OVERRIDE, region_override);
        let is_subdivision_changed = put(keywords, Key::SUBDIVISION, subdivision);
        let is_id_changed = replace(&mut locale.id, id);
        let is_transform_changed = replace(
            &mut locale.extensions.transform.lang,
            transform.map(Some),
        );
        answer_of(
            is_id_changed || is_transform_changed || is_region_changed || is_subdivision_changed,
        )
    }
}

#[inline(always)]
fn answer_of(is_changed: bool) -> TransformResult
    ensures { result ≡ answer_of is_changed }
{
    if is_changed {
        TransformResult::Modified
    } else {
        TransformResult::Unmodified
    }
}

#[inline(always)]
fn replace<T: Drop>(place: &mut T, by: Option<T>) -> bool
    ensures written { place.new ≡ unwrap_or by place.old }
    ensures answer { result ≡ is_some by }
{
    match by {
        Some(new) => {
            *place = new;
            true
        }
        None => false,
    }
}

// Puts a value at a key that is there.
#[inline(always)]
fn put(keywords: &mut Keywords, key: Key, value: Option<Value>) -> bool
    requires { IsSome value → IsSome (value_at text_cmp keywords.old key) }
    ensures rows { keywords.new ≡ put_optional keywords.old key value }
    ensures answer { result ≡ is_some value }
{
    match value {
        Some(value) => {
            let _ = keywords.set(key, value);
            true
        }
        None => false,
    }
}
