//! Whether a chain ends, and the whole of it.
ghost use Rattle.std.specs.Prelude.{◌≡◌, ⊤, IfOk, IfErr};
ghost use Rattle.icu_locale.specs.LikelyTable.{likely};
ghost use Rattle.icu_locale.specs.laws.Locales.{same_from_test};
ghost use Rattle.icu_locale_runs.specs.Run.{EndsAt};
ghost use Rattle.icu_locale_fallback.specs.Fallback.{root, next};
ghost use Rattle.icu_locale_fallback.specs.Chains.{inheritance, inheritance_of, locale_of, CountsSteps, IsCircle, IsChain, IsRefusal};
ghost use Rattle.icu_locale_fallback.specs.declared.errors.FallbackError.TheVariants.{Memory};
ghost use Rattle.icu_locale_fallback.specs.inner.Universe.{universe};

use crate::errors::FallbackError;
use crate::fallbacker::{LocaleFallbackIterator, LocaleFallbackPriority, LocaleFallbacker};
use crate::steps::next;
use icu_locale_runs::{Outcome, Rewriting, Turns, end_of_run};
use icu_provider::DataLocale;
use std::alloc::Global;

// The chains of a fallbacker.
#[derive(Drop)]
struct Chain<'d> {
    fallbacker: LocaleFallbacker<'d>,
    priority: LocaleFallbackPriority,
}

impl Rewriting for Chain<'_> {
    type State = DataLocale;

    type Error = ();

    ghost next = { λ c. next (inheritance c.fallbacker c.priority) };

    ghost universe = { λ c x. universe c.priority (likely c.fallbacker.expander)
        c.fallbacker.parents.now x };

    ghost refuses = { λ _. ⊥ };

    ghost needs_none = { λ c y. ⊤ };

    fn search(&self, state: &DataLocale, turns: &mut Turns) -> Result<Option<DataLocale>, ()> {
        turns.take();
        Ok(next(&self.fallbacker, self.priority, state))
    }

    ghost exact = { same_from_test };
}

impl<'d> LocaleFallbackIterator<'d> {
    /// The first locale of the chain from here that comes again, or none where the chain ends: it ends at the root then. It
    /// takes no memory.
    pub fn first_repeat(&self) -> Option<DataLocale>
        ensures { IsCircle (inheritance_of self.now) (locale_of self.now) result }
    {
        self.first_repeat_counted(&mut Turns::new())
    }

    /// The same as `first_repeat`, with a count of the steps that are taken: for each different locale of the chain from
    /// here at most six, and at least one.
    pub fn first_repeat_counted(&self, turns: &mut Turns) -> Option<DataLocale>
        ensures first { IsCircle (inheritance_of self.now) (locale_of self.now) result }
        ensures count { CountsSteps (inheritance_of self.now) (locale_of self.now)
            turns.old turns.new }
    {
        first_repeat_from(&self.fallbacker, self.config.priority, &self.current, turns)
    }

    /// The locales of the chain from here to the root, in their order. It takes memory for the list.
    ///
    /// # Errors
    ///
    /// `Circle` exactly where the chain has no end, with the first locale that comes again, and else `Memory` where the
    /// list could not be made.
    pub fn to_list(&self, alloc: Global) -> Result<Vec<DataLocale>, FallbackError>
        ensures found { IfOk result (λ list. IsChain (inheritance_of self.now)
            (locale_of self.now) list.items) }
        ensures refused { IfErr result (IsRefusal (inheritance_of self.now)
            (locale_of self.now)) }
    {
        match self.first_repeat() {
            Some(first) => Err(FallbackError::Circle(first)),
            None => list_to_root(&self.fallbacker, self.config.priority, &self.current, alloc),
        }
    }
}

// The first locale of a chain that comes again, or none where it ends. The steps are counted.
pub(crate) fn first_repeat_from(
    fallbacker: &LocaleFallbacker<'_>,
    priority: LocaleFallbackPriority,
    start: &DataLocale,
    turns: &mut Turns,
) -> Option<DataLocale>
    ensures first { IsCircle (inheritance fallbacker.now priority) start.now result }
    ensures count { CountsSteps (inheritance fallbacker.now priority) start.now
        turns.old turns.new }
{
    let chain = Chain {
        fallbacker: *fallbacker,
        priority,
    };
    match end_of_run(&chain, start, turns) {
        Ok(Outcome::Repeats(first)) => Some(first),
        Ok(Outcome::Ends(_)) => None,
        Ok(Outcome::Same) => None,
        Err(()) => None,
    }
}

// The locales of a chain that ends.
pub(crate) fn list_to_root(
    fallbacker: &LocaleFallbacker<'_>,
    priority: LocaleFallbackPriority,
    start: &DataLocale,
    alloc: Global,
) -> Result<Vec<DataLocale>, FallbackError>
    requires { EndsAt (next (inheritance fallbacker.now priority)) start.now root }
    ensures found { IfOk result (λ list. IsChain (inheritance fallbacker.now priority) start.now
        list.items) }
    ensures refused { IfErr result (λ e. e ≡ Memory) }
{
    let mut list = Vec::new(alloc);
    list.push(copy_of(start))?;
    let mut locale = *start;
    'steps: while let Some(parent) = next(fallbacker, priority, &locale) {
        list.push(copy_of(&parent))?;
        locale = parent;
    }
    Ok(list)
}

// The same locale.
fn copy_of(locale: &DataLocale) -> DataLocale
    ensures { result ≡ locale.now }
{
    *locale
}
