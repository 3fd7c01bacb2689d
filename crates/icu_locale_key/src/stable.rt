//! The key that stays: from an identifier to its key, and on, until a key is its own.
ghost use Rattle.std.specs.Prelude.{◌≡◌, ◌⊎◌, ◌+◌, Err, IsOk, OnOk, OnErr, IfOk, IfErr};
ghost use Rattle.icu_locale_core.specs.declared.langid.LanguageIdentifier.{LanguageIdentifier};
ghost use Rattle.icu_locale_core.specs.laws.Identifiers.{identifiers_decide};
ghost use Rattle.icu_locale.specs.LikelyTable.{likely};
ghost use Rattle.icu_locale.specs.Refusals.{IsMemory, IsOutOfMemory};
ghost use Rattle.icu_locale.specs.RuleSet.{lent};
ghost use Rattle.icu_locale.specs.declared.expander.Favor.TheVariants.{RegionFirst};
ghost use Rattle.icu_locale_key.specs.Stable.{IsStableKey, IsStuck, ComesRound, IsStableKeyRefusal, CountsKeys};
ghost use Rattle.icu_locale_key.specs.inner.KeyRun.{key_step, other_than, IsRepeatOf};
ghost use Rattle.icu_locale_key.specs.inner.Universe.{key_universe};

use crate::at_once::minimize_at_once;
use crate::keys::{bring_to_key, canonical_copy};
use crate::laws as own;
use icu_locale::{CanonicalizeError, CanonicalizerRef, Turns, laws};
use icu_locale_core::LanguageIdentifier;
use icu_locale_runs::{Outcome, Rewriting, end_of_run};

// The run of an identifier, its key, the key of that, and so on.
#[derive(Drop)]
struct KeyRun<'r> {
    canonicalizer: CanonicalizerRef<'r>,
}

impl Rewriting for KeyRun<'_> {
    type State = LanguageIdentifier;

    type Error = CanonicalizeError;

    ghost next = { λ r. key_step (likely r.canonicalizer.expander) (lent r.canonicalizer.rules) };

    ghost universe = { λ r x. key_universe r.canonicalizer.expander
        (lent r.canonicalizer.rules) x };

    ghost refuses = { IsMemory };

    ghost needs_none = { λ r y. ⊥ };

    fn search(
        &self,
        state: &LanguageIdentifier,
        turns: &mut Turns,
    ) -> Result<Option<LanguageIdentifier>, CanonicalizeError> {
        turns.take();
        following(&self.canonicalizer, state)
    }

    ghost exact = { λ y z e. (identifiers_decide y z).0 e };
}

// The key that follows an identifier. One that has no key is taken to follow itself.
fn following(
    canonicalizer: &CanonicalizerRef<'_>,
    id: &LanguageIdentifier,
) -> Result<Option<LanguageIdentifier>, CanonicalizeError>
    ensures found { IfOk result (λ found. found
        ≡ key_step (likely canonicalizer.now.expander) (lent canonicalizer.now.rules) id.now) }
    ensures refused { IfErr result IsMemory }
{
    let mut key = match id.try_clone() {
        Ok(key) => key,
        Err(_) => return Err(CanonicalizeError::Memory),
    };
    match bring_to_key(canonicalizer, &mut key) {
        Ok(()) => Ok(other_than(id, key)),
        Err(CanonicalizeError::NoFixedPoint(_)) => Ok(Some(key)),
        Err(_) => Err(CanonicalizeError::Memory),
    }
}

// None where the key is the identifier.
fn other_than(id: &LanguageIdentifier, key: LanguageIdentifier) -> Option<LanguageIdentifier>
    ensures { result ≡ other_than id.now key }
{
    if key == *id { None } else { Some(key) }
}

// Why an identifier that follows itself or comes round has no key that stays.
fn repeat_of(
    canonicalizer: &CanonicalizerRef<'_>,
    key: LanguageIdentifier,
    turns: &mut Turns,
) -> CanonicalizeError
    ensures told { IsRepeatOf (likely canonicalizer.now.expander) (lent canonicalizer.now.rules)
        key result }
    ensures counted { turns.new ≡ turns.old + 1 }
{
    turns.take();
    let mut next = match key.try_clone() {
        Ok(next) => next,
        Err(_) => return CanonicalizeError::Memory,
    };
    match bring_to_key(canonicalizer, &mut next) {
        Ok(()) => CanonicalizeError::NoFixedPoint(key),
        Err(refusal) => refusal,
    }
}

/// Brings an identifier to its key that stays: to its key, as `bring_to_key` makes it, to the key of that, and on, until
/// one is its own. It takes no memory but that of `bring_to_key` and, for each key, for a copy of the variants.
///
/// # Errors
///
/// - `NoFixedPoint` exactly where no key stays. Where the rules come to no end on the identifier or on a key, it names
///   the first identifier that comes again by them; where the keys come round, the first key that comes again.
/// - `Memory` where memory was asked for and refused.
///
/// The identifier is unchanged then.
pub fn bring_to_stable_key(
    canonicalizer: &CanonicalizerRef<'_>,
    id: &mut LanguageIdentifier,
) -> Result<(), CanonicalizeError>
    ensures key { OnOk result (IsStableKey RegionFirst (likely canonicalizer.now.expander)
        (lent canonicalizer.now.rules) id.old id.new) }
    ensures refused { IfErr result (IsStableKeyRefusal RegionFirst
        (likely canonicalizer.now.expander) (lent canonicalizer.now.rules) id.old) }
    ensures unchanged { OnErr result (id.new ≡ id.old) }
    ensures ends { (y : LanguageIdentifier) → IsStableKey RegionFirst
        (likely canonicalizer.now.expander) (lent canonicalizer.now.rules) id.old y
        → IsOk result ⊎ IsOutOfMemory result }
    ensures names { (z : LanguageIdentifier) → IsStuck RegionFirst
        (likely canonicalizer.now.expander) (lent canonicalizer.now.rules) id.old z
        ⊎ ComesRound RegionFirst (likely canonicalizer.now.expander)
        (lent canonicalizer.now.rules) id.old z
        → (result ≡ Err (CanonicalizeError.NoFixedPoint z)) ⊎ IsOutOfMemory result }
{
    laws::minimal_form_is_one();
    own::stable_key_is_one();
    let mut key = match canonical_copy(canonicalizer, id) {
        Ok(key) => key,
        Err(refusal) => return Err(refusal),
    };
    match minimize_at_once(&canonicalizer.expander, &mut key) {
        Some(_) => {
            *id = key;
            Ok(())
        }
        None => bring_to_stable_key_counted(canonicalizer, id, &mut Turns::new()),
    }
}

/// The same as `bring_to_stable_key`, with a count of the keys that are made: at most six for each different identifier
/// that the walk comes to, and one.
///
/// # Errors
///
/// Those of `bring_to_stable_key`. The identifier is unchanged then.
pub fn bring_to_stable_key_counted(
    canonicalizer: &CanonicalizerRef<'_>,
    id: &mut LanguageIdentifier,
    turns: &mut Turns,
) -> Result<(), CanonicalizeError>
    ensures key { OnOk result (IsStableKey RegionFirst (likely canonicalizer.now.expander)
        (lent canonicalizer.now.rules) id.old id.new) }
    ensures refused { IfErr result (IsStableKeyRefusal RegionFirst
        (likely canonicalizer.now.expander) (lent canonicalizer.now.rules) id.old) }
    ensures unchanged { OnErr result (id.new ≡ id.old) }
    ensures ends { (y : LanguageIdentifier) → IsStableKey RegionFirst
        (likely canonicalizer.now.expander) (lent canonicalizer.now.rules) id.old y
        → IsOk result ⊎ IsOutOfMemory result }
    ensures names { (z : LanguageIdentifier) → IsStuck RegionFirst
        (likely canonicalizer.now.expander) (lent canonicalizer.now.rules) id.old z
        ⊎ ComesRound RegionFirst (likely canonicalizer.now.expander)
        (lent canonicalizer.now.rules) id.old z
        → (result ≡ Err (CanonicalizeError.NoFixedPoint z)) ⊎ IsOutOfMemory result }
    ensures count { CountsKeys RegionFirst (likely canonicalizer.now.expander)
        (lent canonicalizer.now.rules) id.old turns.old turns.new }
{
    laws::minimal_form_is_one();
    laws::the_likely_table_is_one_map();
    let run = KeyRun {
        canonicalizer: *canonicalizer,
    };
    match end_of_run(&run, id, turns) {
        Ok(Outcome::Same) => Ok(()),
        Ok(Outcome::Ends(key)) => {
            *id = key;
            Ok(())
        }
        Ok(Outcome::Repeats(key)) => Err(repeat_of(canonicalizer, key, turns)),
        Err(_) => Err(CanonicalizeError::Memory),
    }
}
