//! Laws of locale fallback, over every table. Each function here takes nothing, answers nothing and carries proved facts.
ghost use Rattle.std.specs.Prelude.{◌≡◌, ◌≢◌, ◌⊎◌, ◌+◌, ◌*◌, ℕ, List, Option, Some, None, length};
ghost use Rattle.icu_locale_core.specs.TextSet.{len};
ghost use Rattle.icu_locale_core.specs.declared.langid.LanguageIdentifier.{LanguageIdentifier};
ghost use Rattle.icu_provider.specs.declared.data_locale.DataLocale.{DataLocale};
ghost use Rattle.icu_locale.specs.LikelySubtags.{LikelySubtags, subtags_of, unknown_script, unknown_region};
ghost use Rattle.icu_locale_runs.specs.Run.{StandsIn, EndsOrRepeats, EndsWithNoRepeat, KeepsEnd, HasOneRepeat, EndsAt, IsRepeat, HasEachOnce};
ghost use Rattle.icu_locale_fallback.specs.Fallback.{root, script_of, normal, next, Inheritance, explicit_parent, data_key};
ghost use Rattle.icu_locale_fallback.specs.Chains.{over, IsChain, IsTruncation, EndsWithin, HasAtMost, HasNoParents, most_truncations};
ghost use Rattle.icu_locale_fallback.specs.Identifiers.{plain, next_identifier, IsChainOfSubtags, IsChainBehind, IsIdentifierChain};
ghost use Rattle.icu_locale_fallback.specs.declared.fallbacker.LocaleFallbackPriority.{LocaleFallbackPriority};

/// Of each chain, exactly one holds: it ends, or it has a first locale that comes again. Where it ends, that is at the
/// root, no locale comes twice before, and each locale on the way has the same end.
pub fn chains_end_or_repeat()
    ensures one { (p : LocaleFallbackPriority) (table : LikelySubtags)
        (rows : List (DataLocale × DataLocale)) (x : DataLocale)
        → EndsOrRepeats (next (over p table rows)) x }
    ensures root { (by : Inheritance) (x y : DataLocale) → EndsAt (next by) x y → y ≡ root }
    ensures last { (by : Inheritance) → next by root ≡ None }
    ensures not_both { (by : Inheritance) (x : DataLocale) → EndsWithNoRepeat (next by) x }
    ensures kept { (by : Inheritance) (x : DataLocale) → KeepsEnd (next by) x }
    ensures one_repeat { (by : Inheritance) (x : DataLocale) → HasOneRepeat (next by) x }
{}

/// Without explicit parents every chain ends: after 3 steps at most by language, 4 by script, 2 by region. So does every
/// chain by region, whatever the parents.
pub fn chains_without_parents_end()
    ensures parents { (by : Inheritance) (x : DataLocale) → HasNoParents by
        → EndsWithin by x (most_truncations by.priority) }
    ensures region { (by : Inheritance) (x : DataLocale)
        → by.priority ≡ LocaleFallbackPriority.Region → EndsWithin by x 2 }
{}

/// A chain has the root, and at most 3, 4 or 2 locales of its own and as many for each row of the parents.
pub fn chains_are_short()
    ensures { (p : LocaleFallbackPriority) (table : LikelySubtags)
        (rows : List (DataLocale × DataLocale)) (x : DataLocale)
        → HasAtMost (over p table rows) x (1 + most_truncations p * (1 + length rows)) }
{}

/// By language, each locale that truncation comes to is the root or keeps the language.
pub fn truncation_keeps_the_language()
    ensures { (by : Inheritance) (x y : DataLocale)
        → by.priority ≡ LocaleFallbackPriority.Language → IsTruncation by x y
        → (y ≡ root) ⊎ (y.language ≡ x.language) }
{}

/// By language and by script, over every table that does not give the script `Zzzz` for a locale, each locale that
/// truncation of its normal form comes to is the root or is written in its script: no text in another script is read.
pub fn truncation_keeps_the_script()
    ensures { (by : Inheritance) (x y : DataLocale)
        → by.priority ≢ LocaleFallbackPriority.Region
        → script_of by.likely x ≢ Some unknown_script
        → IsTruncation by (normal by.priority by.likely x) y
        → (y ≡ root) ⊎ (script_of by.likely y ≡ script_of by.likely x) }
{}

/// By region, each locale but the root has the region of the normal form.
pub fn truncation_keeps_the_region()
    ensures { (by : Inheritance) (x y : DataLocale)
        → by.priority ≡ LocaleFallbackPriority.Region → IsTruncation by x y
        → (y ≡ root) ⊎ (y.region ≡ x.region) }
{}

/// A normal form keeps the language; by language and by script it keeps the likely script too. It has neither script
/// `Zzzz` nor region `ZZ`.
pub fn normal_forms_keep()
    ensures language { (p : LocaleFallbackPriority) (table : LikelySubtags) (x : DataLocale)
        → (normal p table x).language ≡ x.language }
    ensures script { (p : LocaleFallbackPriority) (table : LikelySubtags) (x : DataLocale)
        → p ≢ LocaleFallbackPriority.Region
        → script_of table (normal p table x) ≡ script_of table x }
    ensures no_unknown_script { (p : LocaleFallbackPriority) (table : LikelySubtags)
        (x : DataLocale) → (normal p table x).script ≢ Some unknown_script }
    ensures no_unknown_region { (p : LocaleFallbackPriority) (table : LikelySubtags)
        (x : DataLocale) → (normal p table x).region ≢ Some unknown_region }
{}

/// By language and by script, the normal form of a normal form is the same, over every table. By region it need not be:
/// over the rows of `aa` to `aa-Latn-US` and of `aa-Latn` to `aa-Latn-ZZ`, the normal form of `aa-Latn` is `aa`, and that
/// of `aa` is `aa-US`.
pub fn normal_forms_stay()
    ensures same { (p : LocaleFallbackPriority) (table : LikelySubtags) (x : DataLocale)
        → p ≢ LocaleFallbackPriority.Region
        → normal p table (normal p table x) ≡ normal p table x }
    ensures not_by_region { ¬ ((table : LikelySubtags) (x : DataLocale)
        → normal LocaleFallbackPriority.Region table (normal LocaleFallbackPriority.Region table x)
        ≡ normal LocaleFallbackPriority.Region table x) }
{}

/// The key of a key is the same, over every table.
pub fn keys_stay()
    ensures { (table : LikelySubtags) (x : DataLocale)
        → data_key table (data_key table x) ≡ data_key table x }
{}

/// The chain of an identifier without variants is that of its language, script and region; that of one with variants is
/// the identifier, and then that chain.
pub fn variants_go_first()
    ensures plain { (by : Inheritance) (x : LanguageIdentifier) → len x.variants ≡ 0
        → IsChainOfSubtags by x }
    ensures variants { (by : Inheritance) (x : LanguageIdentifier) → len x.variants ≢ 0
        → IsChainBehind by x }
    ensures ends { (by : Inheritance) (x : LanguageIdentifier)
        → EndsAt (next by) (subtags_of x) root → EndsAt (next_identifier by) x (plain root) }
    ensures repeats { (by : Inheritance) (x : LanguageIdentifier) (z : DataLocale)
        → IsRepeat (next by) (subtags_of x) z → IsRepeat (next_identifier by) x (plain z) }
{}

/// The list of a chain has each locale or identifier of it once, and no other.
pub fn lists_have_each_once()
    ensures locales { (by : Inheritance) (x : DataLocale) (list : List DataLocale)
        → IsChain by x list → HasEachOnce (next by) x list }
    ensures identifiers { (by : Inheritance) (x : LanguageIdentifier)
        (list : List LanguageIdentifier) → IsIdentifierChain by x list
        → HasEachOnce (next_identifier by) x list }
{}

/// By language and by script, the key of a locale is in its chain, unless its normal form has an explicit parent.
#[tactic(auto, using(crate::proofs::Keys::key_stands))]
pub fn keys_are_come_to()
    ensures { (by : Inheritance) (x : DataLocale)
        → by.priority ≢ LocaleFallbackPriority.Region
        → explicit_parent by (normal by.priority by.likely x) ≡ None
        → StandsIn (next by) (normal by.priority by.likely x) (data_key by.likely x) }
{}
