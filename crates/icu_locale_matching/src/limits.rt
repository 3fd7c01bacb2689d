//! How far a match may go, and what weighs more.
ghost use Rattle.std.specs.Prelude.{◌≡◌, ◌≤◌};
ghost use Rattle.icu_locale_matching.specs.Distance.{share};
ghost use Rattle.icu_locale_matching.specs.declared.limits.FavorSubtag.TheVariants.{Language};

/// Which difference weighs more, that of two languages or that of two scripts. The default is that of the rules.
#[derive(Clone, Copy, Debug, PartialEq, Eq)]
pub enum FavorSubtag {
    /// Each distance counts as the rules have it.
    Language,
    /// The distance of two languages counts a quarter, rounded down, so that one in the same script is rather served.
    Script,
}

impl Default for FavorSubtag {
    ghost is_default = { λ f. f ≡ Language };

    fn default() -> Self {
        FavorSubtag::Language
    }
}

/// How far a match may go, and what weighs more. The default is that of ICU: a threshold of 50, a demotion of 5, and
/// each distance as the rules have it.
#[derive(Clone, Copy, Debug, PartialEq, Eq)]
pub struct MatchLimits {
    /// What is served has a lesser distance.
    pub threshold: u16,
    /// What each request before it adds to the cost of a request, up to 65,535 in all. It decides which is served, and
    /// takes none away.
    pub demotion: u16,
    /// Which difference weighs more.
    pub favor: FavorSubtag,
}

impl Default for MatchLimits {
    ghost is_default = { λ l. l ≡ record { threshold = 50; demotion = 5; favor = Language } };

    fn default() -> Self {
        MatchLimits {
            threshold: 50,
            demotion: 5,
            favor: FavorSubtag::Language,
        }
    }
}

// What a distance of two languages counts.
#[inline(always)]
pub(crate) fn share(favor: FavorSubtag, distance: u32) -> u32
    ensures value { result ≡ share favor distance }
    ensures least { result ≤ distance }
{
    match favor {
        FavorSubtag::Language => distance,
        FavorSubtag::Script => distance / 4,
    }
}
