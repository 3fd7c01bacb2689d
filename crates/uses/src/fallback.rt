//! Fallback by minimal forms.
ghost use Rattle.std.specs.Prelude.{◌≡◌, Some, MatchOption, position};
ghost use Rattle.std.specs.List.{All, slice_get};
ghost use Rattle.icu_locale_core.specs.declared.langid.LanguageIdentifier.{LanguageIdentifier};
ghost use Rattle.icu_locale.specs.LikelyTable.{likely};
ghost use Rattle.icu_locale.specs.LikelySubtags.{AreSettled};
ghost use Rattle.uses.specs.Meaning.{MeanTheSame, NoneMeans, IsMinimal};

use icu_locale::{LocaleExpander, laws};
use icu_locale_core::LanguageIdentifier;
use std::cmp::PartialEq;

/// The minimal form of an identifier over a settled table, which means the same. A list of these is what `find_form`
/// looks in. It takes no memory.
pub fn minimal_form(
    expander: &LocaleExpander<'_>,
    mut given: LanguageIdentifier,
) -> LanguageIdentifier
    requires { AreSettled (likely expander.now) }
    ensures minimal { IsMinimal (likely expander.now) result }
    ensures same { MeanTheSame (likely expander.now) given result }
{
    given.known();
    laws::minimal_forms_are_stable();
    laws::maximal_forms_are_stable();
    let _ = expander.minimize(&mut given);
    given.known();
    given
}

/// The place, in a list of minimal forms, of one that an identifier falls back to over a settled table: of one that
/// means the same. It takes no memory.
pub fn find_form(
    expander: &LocaleExpander<'_>,
    forms: &[LanguageIdentifier],
    mut id: LanguageIdentifier,
) -> Option<usize>
    requires settled { AreSettled (likely expander.now) }
    requires minimal { All (IsMinimal (likely expander.now)) forms.now }
    ensures { MatchOption result (NoneMeans (likely expander.now) forms.now id)
        (λ place. (form : LanguageIdentifier) × (slice_get forms.now place ≡ Some form)
        × MeanTheSame (likely expander.now) id form) }
{
    id.known();
    laws::minimal_forms_are_canonical();
    let _ = expander.minimize(&mut id);
    position_of(forms, &id)
}

// The place of an identifier in a list.
fn position_of(list: &[LanguageIdentifier], id: &LanguageIdentifier) -> Option<usize>
    ensures { result
        ≡ position (λ x. ⟦<LanguageIdentifier as PartialEq>⟧.eq x id.now) list.now }
{
    list.iter().position(|x| *x == *id)
}
