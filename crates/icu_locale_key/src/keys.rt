//! Keys of identifiers, and whether they are their own keys.
ghost use Rattle.std.specs.Prelude.{◌≡◌, ◌↔◌, ◌⊎◌, Err, IsOk, IsTrue, OnOk, OnErr, IfOk, IfErr};
ghost use Rattle.icu_locale_core.specs.declared.langid.LanguageIdentifier.{LanguageIdentifier};
ghost use Rattle.icu_locale_runs.specs.Run.{EndsAt, IsRepeat};
ghost use Rattle.icu_locale.specs.Kinds.{next};
ghost use Rattle.icu_locale.specs.LikelyTable.{likely};
ghost use Rattle.icu_locale.specs.Refusals.{IsMemory, IsOutOfMemory};
ghost use Rattle.icu_locale.specs.RuleSet.{lent};
ghost use Rattle.icu_locale.specs.declared.expander.Favor.{Favor};
ghost use Rattle.icu_locale.specs.declared.expander.Favor.TheVariants.{RegionFirst, ScriptFirst};
ghost use Rattle.icu_locale_key.specs.Filling.{LeavesFilled, leaves_tables};
ghost use Rattle.icu_locale_key.specs.Keys.{IsKey, IsKeyRefusal, HasClass};

use crate::filling::leaves_tables;
use crate::laws;
use icu_locale::{CanonicalizeError, CanonicalizerRef};
use icu_locale_core::LanguageIdentifier;

// A copy of an identifier in its canonical form.
pub(crate) fn canonical_copy(
    canonicalizer: &CanonicalizerRef<'_>,
    id: &LanguageIdentifier,
) -> Result<LanguageIdentifier, CanonicalizeError>
    ensures end { IfOk result (EndsAt (next (likely canonicalizer.now.expander)
        (lent canonicalizer.now.rules)) id.now) }
    ensures refused { IfErr result (IsKeyRefusal (likely canonicalizer.now.expander)
        (lent canonicalizer.now.rules) id.now) }
{
    let mut copy = match id.try_clone() {
        Ok(copy) => copy,
        Err(_) => return Err(CanonicalizeError::Memory),
    };
    match canonicalizer.canonicalize_identifier(&mut copy) {
        Ok(_) => Ok(copy),
        Err(refusal) => Err(refusal),
    }
}

/// Brings an identifier to its key: the minimal form of its canonical form, which favors the region. A key need not be
/// its own key, as `is_own_key` tells; one that is comes of `bring_to_stable_key`. It takes no memory but that of
/// `canonicalize_identifier`.
///
/// # Errors
///
/// - `NoFixedPoint` exactly where the rules come to no end: it names the first identifier that comes again.
/// - `Memory` where memory was asked for and refused.
///
/// The identifier is unchanged then.
pub fn bring_to_key(
    canonicalizer: &CanonicalizerRef<'_>,
    id: &mut LanguageIdentifier,
) -> Result<(), CanonicalizeError>
    ensures key { OnOk result (IsKey RegionFirst (likely canonicalizer.now.expander)
        (lent canonicalizer.now.rules) id.old id.new) }
    ensures refused { IfErr result (IsKeyRefusal (likely canonicalizer.now.expander)
        (lent canonicalizer.now.rules) id.old) }
    ensures unchanged { OnErr result (id.new ≡ id.old) }
    ensures ends { (y : LanguageIdentifier)
        → EndsAt (next (likely canonicalizer.now.expander) (lent canonicalizer.now.rules))
        id.old y → IsOk result ⊎ IsOutOfMemory result }
    ensures repeats { (z : LanguageIdentifier)
        → IsRepeat (next (likely canonicalizer.now.expander) (lent canonicalizer.now.rules))
        id.old z → (result ≡ Err (CanonicalizeError.NoFixedPoint z)) ⊎ IsOutOfMemory result }
{
    match canonicalizer.canonicalize_identifier(id) {
        Err(refusal) => Err(refusal),
        Ok(_) => {
            let _ = canonicalizer.expander.minimize(id);
            Ok(())
        }
    }
}

/// The same as `bring_to_key`, by the minimal form that favors the script.
///
/// # Errors
///
/// Those of `bring_to_key`. The identifier is unchanged then.
pub fn bring_to_key_favor_script(
    canonicalizer: &CanonicalizerRef<'_>,
    id: &mut LanguageIdentifier,
) -> Result<(), CanonicalizeError>
    ensures key { OnOk result (IsKey ScriptFirst (likely canonicalizer.now.expander)
        (lent canonicalizer.now.rules) id.old id.new) }
    ensures refused { IfErr result (IsKeyRefusal (likely canonicalizer.now.expander)
        (lent canonicalizer.now.rules) id.old) }
    ensures unchanged { OnErr result (id.new ≡ id.old) }
    ensures ends { (y : LanguageIdentifier)
        → EndsAt (next (likely canonicalizer.now.expander) (lent canonicalizer.now.rules))
        id.old y → IsOk result ⊎ IsOutOfMemory result }
    ensures repeats { (z : LanguageIdentifier)
        → IsRepeat (next (likely canonicalizer.now.expander) (lent canonicalizer.now.rules))
        id.old z → (result ≡ Err (CanonicalizeError.NoFixedPoint z)) ⊎ IsOutOfMemory result }
{
    match canonicalizer.canonicalize_identifier(id) {
        Err(refusal) => Err(refusal),
        Ok(_) => {
            let _ = canonicalizer.expander.minimize_favor_script(id);
            Ok(())
        }
    }
}

/// Whether an identifier is its own key, as `bring_to_key` makes it. Where the rules come to no end it has none, so it
/// is not. It takes memory for a copy of the variants.
///
/// # Errors
///
/// `Memory` where memory was asked for and refused.
pub fn is_own_key(
    canonicalizer: &CanonicalizerRef<'_>,
    id: &LanguageIdentifier,
) -> Result<bool, CanonicalizeError>
    ensures told { IfOk result (λ told. IsTrue told ↔ IsKey RegionFirst
        (likely canonicalizer.now.expander) (lent canonicalizer.now.rules) id.now id.now) }
    ensures refused { IfErr result IsMemory }
{
    laws::key_is_one();
    icu_locale::laws::runs_end_or_repeat();
    let mut key = match id.try_clone() {
        Ok(key) => key,
        Err(_) => return Err(CanonicalizeError::Memory),
    };
    match bring_to_key(canonicalizer, &mut key) {
        Ok(()) => Ok(key == *id),
        Err(CanonicalizeError::Memory) => Err(CanonicalizeError::Memory),
        Err(_) => Ok(false),
    }
}

/// Whether no rule replaces what the tables of likely subtags may fill in, by a look at each row. Then the key of each
/// identifier is its own key, if the class of its canonical form has a member. A false says nothing of a single key. It
/// takes no memory.
pub fn keys_are_stable(canonicalizer: &CanonicalizerRef<'_>) -> bool
    ensures rows { result
        ≡ leaves_tables (lent canonicalizer.now.rules) canonicalizer.now.expander }
    ensures left { IsTrue result
        → LeavesFilled (likely canonicalizer.now.expander) (lent canonicalizer.now.rules) }
    ensures keys { IsTrue result → (favor : Favor) (x c k : LanguageIdentifier)
        → EndsAt (next (likely canonicalizer.now.expander) (lent canonicalizer.now.rules)) x c
        → HasClass (likely canonicalizer.now.expander) c
        → IsKey favor (likely canonicalizer.now.expander) (lent canonicalizer.now.rules) x k
        → IsKey favor (likely canonicalizer.now.expander) (lent canonicalizer.now.rules) k k }
{
    laws::filled_subtags_stay_unmatched();
    leaves_tables(&canonicalizer.rules, &canonicalizer.expander)
}
