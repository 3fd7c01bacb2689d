//! Negotiation: what is served for the requests of a reader.
ghost use Rattle.std.specs.Prelude.{◌≡◌, ℕ, Some, IfSome, IfNone, IsSomeAnd};
ghost use Rattle.std.specs.List.{All, slice_get};
ghost use Rattle.icu_locale.specs.LikelyTable.{likely};
ghost use Rattle.icu_locale.specs.Negotiation.{IsFirstMatch};
ghost use Rattle.uses.specs.Meaning.{NoneMeans, HaveOneMinimalForm};

use icu_locale::{Negotiator, laws};
use icu_locale_core::LanguageIdentifier;

/// What is served: for the first request that has one, the first available identifier that means the same. It has the
/// minimal form of that request. It takes no memory.
pub fn find_served<'n>(
    negotiator: &'n Negotiator<'_>,
    requests: &[LanguageIdentifier],
) -> Option<&'n LanguageIdentifier>
    ensures served { IfSome result (λ served. (i j : ℕ)
        × IsFirstMatch (likely negotiator.now.expander) requests.now
        negotiator.now.available i j
        × (slice_get negotiator.now.available j ≡ Some served.now)
        × IsSomeAnd (slice_get requests.now i) (λ request.
        HaveOneMinimalForm (likely negotiator.now.expander) request served.now)) }
    ensures none { IfNone result (All (NoneMeans (likely negotiator.now.expander)
        negotiator.now.available) requests.now) }
{
    laws::minimal_forms_are_canonical();
    let _expander = negotiator.expander();
    match negotiator.negotiate(requests) {
        Some((asked, place)) => {
            let served = &negotiator.available()[place];
            requests[asked].known();
            served.known();
            Some(served)
        }
        None => None,
    }
}
