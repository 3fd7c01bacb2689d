//! What a locale inherits from.
ghost use Rattle.std.specs.Prelude.{◌↔◌, IsTrue, IfOk, IfErr};
ghost use Rattle.std.specs.List.{Contains};
ghost use Rattle.icu_locale.specs.LikelyTable.{likely};
ghost use Rattle.icu_locale_runs.specs.Run.{StandsIn};
ghost use Rattle.icu_locale_fallback.specs.Fallback.{normal, next};
ghost use Rattle.icu_locale_fallback.specs.Chains.{inheritance, IsRefusal};
ghost use Rattle.icu_locale_fallback.specs.declared.fallbacker.LocaleFallbackPriority.{LocaleFallbackPriority};

use icu_locale_fallback::{
    FallbackError, LocaleFallbackConfig, LocaleFallbackPriority, LocaleFallbacker, laws,
};
use icu_provider::DataLocale;
use std::alloc::Global;

/// Whether a locale inherits from another by language: whether the other is in its chain.
///
/// # Errors
///
/// `Circle` where the chain has no end, and else `Memory` where its list could not be made.
pub fn inherits_from(
    alloc: Global,
    fallbacker: &LocaleFallbacker<'_>,
    locale: DataLocale,
    other: DataLocale,
) -> Result<bool, FallbackError>
    ensures told { IfOk result (λ inherits. IsTrue inherits
        ↔ StandsIn (next (inheritance fallbacker.now LocaleFallbackPriority.Language))
        (normal LocaleFallbackPriority.Language (likely fallbacker.now.expander) locale) other) }
    ensures refused { IfErr result (IsRefusal
        (inheritance fallbacker.now LocaleFallbackPriority.Language)
        (normal LocaleFallbackPriority.Language (likely fallbacker.now.expander) locale)) }
{
    laws::lists_have_each_once();
    let config = LocaleFallbackConfig {
        priority: LocaleFallbackPriority::Language,
    };
    let place = fallbacker.for_config(config).fallback_for(locale);
    match place.to_list(alloc) {
        Ok(chain) => Ok(stands_in(chain.as_slice(), &other)),
        Err(refusal) => Err(refusal),
    }
}

// Whether a locale is one of a list.
fn stands_in(list: &[DataLocale], other: &DataLocale) -> bool
    ensures { IsTrue result ↔ Contains list.now other.now }
{
    list.contains(other)
}
