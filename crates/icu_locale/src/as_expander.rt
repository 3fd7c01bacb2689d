//! What stands for an expander.
ghost use Rattle.std.specs.Prelude.{◌≡◌};
ghost use Rattle.icu_locale.specs.LikelySubtags.{LikelySubtags};
ghost use Rattle.icu_locale.specs.LikelyTable.{likely};
ghost use Rattle.icu_locale.specs.declared.expander.LocaleExpander.{LocaleExpander};

use crate::LocaleExpander;

/// What stands for an expander, at every call the same one: an expander itself, or a reference to it.
pub trait AsExpander<'d> {
    /// The expander.
    ghost expander: { Self → LocaleExpander };

    /// The likely table that it looks up in.
    ghost table: { Self → LikelySubtags };

    /// The expander. It takes no memory.
    fn as_expander(&self) -> LocaleExpander<'d>
        ensures same { result ≡ expander self.now }
        ensures table { likely result ≡ table self.now };
}

impl<'d> AsExpander<'d> for LocaleExpander<'d> {
    ghost expander = { λ e. e };

    ghost table = { λ e. likely e };

    fn as_expander(&self) -> LocaleExpander<'d> {
        *self
    }
}

impl<'a, 'd> AsExpander<'d> for &'a LocaleExpander<'d> {
    ghost expander = { λ e. e.now };

    ghost table = { λ e. likely e.now };

    fn as_expander(&self) -> LocaleExpander<'d> {
        **self
    }
}
