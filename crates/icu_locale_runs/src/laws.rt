//! Laws of runs. Each function here answers nothing and carries proved facts of the runs of a `Rewriting`, from any start.
ghost use Rattle.std.specs.Prelude.{◌≤◌, ℕ, length};
ghost use Rattle.icu_locale_runs.specs.Run.{IsUniverse, EndsOrRepeats, EndsWithNoRepeat, HasOneEnd, KeepsEnd, HasOneRepeat, HasDistinct};

use crate::rewriting::Rewriting;

/// Of each run that stays in its universe, exactly one holds: it ends, or it has a first state that comes again. The end is
/// one, and each state on the way has the same; so is the repeat one.
pub fn runs_end_or_repeat<R: Rewriting>(rewriting: &R)
    ensures one { (x : R.State)
        → IsUniverse (R.next rewriting.now) x (R.universe rewriting.now x)
        → EndsOrRepeats (R.next rewriting.now) x }
    ensures not_both { (x : R.State) → EndsWithNoRepeat (R.next rewriting.now) x }
    ensures one_end { (x : R.State) → HasOneEnd (R.next rewriting.now) x }
    ensures kept { (x : R.State) → KeepsEnd (R.next rewriting.now) x }
    ensures one_repeat { (x : R.State) → HasOneRepeat (R.next rewriting.now) x }
{
    let _ = rewriting;
}

/// A run has no more different states than its universe.
pub fn runs_are_no_longer_than_their_universe<R: Rewriting>(rewriting: &R)
    ensures { (x : R.State) → IsUniverse (R.next rewriting.now) x (R.universe rewriting.now x)
        → (n : ℕ) × (n ≤ length (R.universe rewriting.now x))
        × HasDistinct (R.next rewriting.now) x n }
{
    let _ = rewriting;
}
