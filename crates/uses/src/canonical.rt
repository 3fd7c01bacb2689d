//! Canonicalizing a canonical locale again.
ghost use Rattle.std.specs.Prelude.{◌≡◌, IfOk};
ghost use Rattle.icu_locale.specs.Canonicalization.{Canonicalizes};
ghost use Rattle.icu_locale.specs.LikelyTable.{likely};
ghost use Rattle.uses.specs.Keys.{first_answer};

use icu_locale::{CanonicalizeError, LocaleCanonicalizer, TransformResult, laws};
use icu_locale_core::Locale;

/// Canonicalizes a locale and then its canonical form again, and gives both answers. All is as after the first call: the
/// second finds nothing to change, and is never refused.
///
/// # Errors
///
/// The refusal of the first call. The locale is unchanged then.
pub fn canonicalize_twice(
    canonicalizer: &LocaleCanonicalizer<'_>,
    locale: &mut Locale,
) -> Result<(TransformResult, TransformResult), CanonicalizeError>
    ensures first { Canonicalizes (likely canonicalizer.now.expander) canonicalizer.now.rules
        locale.old locale.new (first_answer result) }
    ensures second { IfOk result (λ answers. answers.1 ≡ TransformResult.Unmodified) }
{
    laws::canonical_stays_canonical();
    laws::canonical_form_is_one();
    let first = canonicalizer.canonicalize(locale)?;
    let second = canonicalizer.canonicalize(locale)?;
    Ok((first, second))
}
