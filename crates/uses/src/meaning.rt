//! Whether identifiers mean the same.
ghost use Rattle.std.specs.Prelude.{◌↔◌, IsTrue};
ghost use Rattle.icu_locale.specs.LikelyTable.{likely};
ghost use Rattle.icu_locale.specs.LikelySubtags.{AreSettled};
ghost use Rattle.uses.specs.Meaning.{MeanTheSame};

use icu_locale::{LocaleExpander, laws};
use icu_locale_core::LanguageIdentifier;

/// Whether two identifiers mean the same over a settled table: whether their minimal forms are equal. It takes no
/// memory.
pub fn mean_the_same(
    expander: &LocaleExpander<'_>,
    mut one: LanguageIdentifier,
    mut other: LanguageIdentifier,
) -> bool
    requires { AreSettled (likely expander.now) }
    ensures { IsTrue result ↔ MeanTheSame (likely expander.now) one other }
{
    one.known();
    other.known();
    laws::minimal_forms_are_canonical();
    let _ = expander.minimize(&mut one);
    let _ = expander.minimize(&mut other);
    one == other
}
