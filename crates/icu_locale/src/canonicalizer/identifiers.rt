//! Runs of identifiers.
ghost use Rattle.std.specs.Prelude.{◌≡◌, ◌+◌, None, Some, IfOk, IfErr, IfSome, IsOk, unwrap_or};
ghost use Rattle.std.specs.Option.{option_map};
ghost use Rattle.icu_locale_core.specs.TextSet.{empty, image};
ghost use Rattle.icu_locale.specs.LikelyTable.{likely};
ghost use Rattle.icu_locale.specs.RuleSet.{lent};
ghost use Rattle.icu_locale.specs.Kinds.{variant_alias, next_of};
ghost use Rattle.icu_locale.specs.inner.CanonicalParts.{rewritten, CountsSearchesOf};
ghost use Rattle.icu_locale.specs.Refusals.{IsOutOfMemory, IsRunRefusal};
ghost use Rattle.icu_locale_runs.specs.Run.{IsLaterEnd};
ghost use Rattle.icu_locale.specs.Cost.{AddsNoVariants};
ghost use Rattle.icu_locale_core.specs.laws.Identifiers.{identifiers_decide};
ghost use Rattle.icu_locale.specs.inner.Universe.{universe};
ghost use Rattle.icu_locale.specs.declared.canonicalizer.CanonicalizeError.TheVariants.{Memory};

use super::kinds::{Rewrite, by_language_alias, find_rewrite, variant_alias};
use super::replacing::replacement;
use crate::{
    AsExpander, CanonicalizeError, CanonicalizerRef, LocaleCanonicalizer, RulesRef, Turns,
};
use icu_locale_core::{LanguageIdentifier, Variants};
use icu_locale_runs::{Outcome, Rewriting, end_of_run};

/// What a turn rewrites of an identifier: by all rules, or by language aliases alone where it is a transform language. It
/// is the only search for a rule that matches, and it adds one to the turns.
#[inline(always)]
pub fn matching<'r>(
    canonicalizer: &CanonicalizerRef<'r>,
    id: &LanguageIdentifier,
    transform: bool,
    turns: &mut Turns,
) -> Option<Rewrite<'r>>
    ensures found { option_map (rewritten (lent canonicalizer.now.rules) id.now) result
        ≡ next_of (likely canonicalizer.now.expander) (lent canonicalizer.now.rules) transform
        id.now }
    ensures counted { turns.new ≡ turns.old + 1 }
{
    turns.take();
    let rules = &canonicalizer.rules;
    if transform {
        by_language_alias(rules, id)
    } else {
        find_rewrite(rules, &canonicalizer.expander, id)
    }
}

/// What follows an identifier in one turn.
///
/// # Errors
///
/// `Memory` where what follows has variants and no room was found for them.
pub fn search<'d, E: AsExpander<'d>>(
    canonicalizer: &LocaleCanonicalizer<'d, E>,
    id: &LanguageIdentifier,
    transform: bool,
    turns: &mut Turns,
) -> Result<Option<LanguageIdentifier>, CanonicalizeError>
    ensures found { IfOk result (λ found. found ≡ next_of (E.table canonicalizer.now.expander)
        canonicalizer.now.rules transform id.now) }
    ensures refused { IfErr result (λ e. e ≡ CanonicalizeError.Memory) }
    ensures counted { turns.new ≡ turns.old + 1 }
    ensures free { IfSome (next_of (E.table canonicalizer.now.expander) canonicalizer.now.rules
        transform id.now) (λ z. z.variants ≡ empty) → IsOk result }
{
    following(&canonicalizer.lend(), id, transform, turns)
}

// What follows an identifier in one turn. Memory is refused only where it has variants.
fn following(
    canonicalizer: &CanonicalizerRef<'_>,
    id: &LanguageIdentifier,
    transform: bool,
    turns: &mut Turns,
) -> Result<Option<LanguageIdentifier>, CanonicalizeError>
    ensures found { IfOk result (λ found. found ≡ next_of (likely canonicalizer.now.expander)
        (lent canonicalizer.now.rules) transform id.now) }
    ensures refused { IfErr result (λ e. e ≡ CanonicalizeError.Memory) }
    ensures counted { turns.new ≡ turns.old + 1 }
    ensures free { IfSome (next_of (likely canonicalizer.now.expander)
        (lent canonicalizer.now.rules) transform id.now) (λ z. z.variants ≡ empty)
        → IsOk result }
{
    match matching(canonicalizer, id, transform, turns) {
        Some(rewrite) => Ok(Some(rewritten(&canonicalizer.rules, id, &rewrite)?)),
        None => Ok(None),
    }
}

// What a rewrite makes of an identifier.
fn rewritten(
    rules: &RulesRef<'_>,
    id: &LanguageIdentifier,
    rewrite: &Rewrite<'_>,
) -> Result<LanguageIdentifier, CanonicalizeError>
    ensures found { IfOk result (λ z. z ≡ rewritten (lent rules.now) id.now rewrite.now) }
    ensures refused { IfErr result (λ e. e ≡ CanonicalizeError.Memory) }
    ensures free { (rewritten (lent rules.now) id.now rewrite.now).variants ≡ empty
        → IsOk result }
{
    match rewrite {
        Rewrite::Rule(rule) => replacement(id, &rule.source, &rule.replacement),
        Rewrite::Subtags(language, script, region) => match id.variants.try_clone() {
            Ok(variants) => Ok(LanguageIdentifier {
                language: *language,
                script: *script,
                region: *region,
                variants,
            }),
            Err(_) => Err(CanonicalizeError::Memory),
        },
        Rewrite::Variants => Ok(LanguageIdentifier {
            language: id.language,
            script: id.script,
            region: id.region,
            variants: replaced_variants(rules, &id.variants)?,
        }),
    }
}

// The image of a set of variants under their aliases.
fn replaced_variants(
    rules: &RulesRef<'_>,
    variants: &Variants,
) -> Result<Variants, CanonicalizeError>
    ensures found { IfOk result (λ s. s
        ≡ image (λ v. unwrap_or (variant_alias (lent rules.now) v) v) variants.now) }
    ensures refused { IfErr result (λ e. e ≡ CanonicalizeError.Memory) }
    ensures free { image (λ v. unwrap_or (variant_alias (lent rules.now) v) v) variants.now
        ≡ empty → IsOk result }
{
    if variants.is_empty() {
        return Ok(Variants::new(rules.read.alloc));
    }
    let mut list = Vec::new(rules.read.alloc);
    for variant in variants.iter() {
        match list.push(variant_alias(rules, variant).unwrap_or(variant)) {
            Ok(()) => {}
            Err(_) => return Err(CanonicalizeError::Memory),
        }
    }
    match Variants::try_from_list(list) {
        Ok(image) => Ok(image),
        Err(_) => Err(CanonicalizeError::Memory),
    }
}

// One run of identifiers: by all rules, or of a transform language by language aliases alone.
#[derive(Drop)]
struct Run<'r> {
    canonicalizer: CanonicalizerRef<'r>,
    transform: bool,
}

impl Rewriting for Run<'_> {
    type State = LanguageIdentifier;

    type Error = CanonicalizeError;

    ghost next = { λ r. next_of (likely r.canonicalizer.expander)
        (lent r.canonicalizer.rules) r.transform };

    ghost universe = { λ r x. universe (lent r.canonicalizer.rules) x };

    ghost refuses = { λ e. e ≡ Memory };

    ghost needs_none = { λ r y. IfSome (next_of (likely r.canonicalizer.expander)
        (lent r.canonicalizer.rules) r.transform y) (λ z. z.variants ≡ empty) };

    fn search(
        &self,
        state: &LanguageIdentifier,
        turns: &mut Turns,
    ) -> Result<Option<LanguageIdentifier>, CanonicalizeError> {
        following(&self.canonicalizer, state, self.transform, turns)
    }

    ghost exact = { λ y z e. (identifiers_decide y z).0 e };
}

// Where a run ends, if that is at a later place than its start.
#[inline(always)]
pub fn later_end(
    canonicalizer: &CanonicalizerRef<'_>,
    id: &LanguageIdentifier,
    transform: bool,
    turns: &mut Turns,
) -> Result<Option<LanguageIdentifier>, CanonicalizeError>
    ensures end { IfOk result (IsLaterEnd
        (next_of (likely canonicalizer.now.expander) (lent canonicalizer.now.rules) transform)
        id.now) }
    ensures refused { IfErr result
        (IsRunRefusal (next_of (likely canonicalizer.now.expander) (lent canonicalizer.now.rules)
        transform) id.now) }
    ensures free { AddsNoVariants (next_of (likely canonicalizer.now.expander)
        (lent canonicalizer.now.rules) transform) id.now → ¬ (IsOutOfMemory result) }
    ensures count { CountsSearchesOf
        (next_of (likely canonicalizer.now.expander) (lent canonicalizer.now.rules) transform)
        (Some id.now) result turns.old turns.new }
{
    let run = Run {
        canonicalizer: *canonicalizer,
        transform,
    };
    match end_of_run(&run, id, turns) {
        Ok(Outcome::Same) => Ok(None),
        Ok(Outcome::Ends(last)) => Ok(Some(last)),
        Ok(Outcome::Repeats(first)) => Err(CanonicalizeError::NoFixedPoint(first)),
        Err(_) => Err(CanonicalizeError::Memory),
    }
}
