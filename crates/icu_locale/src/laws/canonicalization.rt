//! Laws of canonicalization. Each function here takes nothing, answers nothing and carries a proved fact.
ghost use Rattle.std.specs.Prelude.{◌≡◌, ◌≢◌, ◌↔◌, ℕ, Bool, true, false, List};
ghost use Rattle.icu_locale_core.specs.Keywords.{KeywordRows};
ghost use Rattle.icu_locale_core.specs.Maps.{value_at};
ghost use Rattle.icu_locale_core.specs.TextSet.{text_cmp};
ghost use Rattle.icu_locale_core.specs.declared.langid.LanguageIdentifier.{LanguageIdentifier};
ghost use Rattle.icu_locale_core.specs.declared.locale.Locale.{Locale};
ghost use Rattle.icu_locale.specs.LikelySubtags.{LikelySubtags};
ghost use Rattle.icu_locale.specs.Kinds.{next_of};
ghost use Rattle.icu_locale_runs.specs.Run.{EndsOrRepeats, EndsWithNoRepeat, HasOneEnd, KeepsEnd, HasOneRepeat, BecomesEnd};
ghost use Rattle.icu_locale.specs.Canonical.{rg, sd, next_value, AreCanonicalKeywords, IsCanonical, is_applied};
ghost use Rattle.icu_locale.specs.Cost.{NeedsNoMemory, HasNothingToCopy};
ghost use Rattle.icu_locale.specs.Refusals.{ComesAgainFirst, RulesEnd, EndsInPlace, IsMemory, IsRefusal, ValueComesAgainFirst};
ghost use Rattle.icu_locale.specs.declared.canonicalizer.CanonicalizeError.{CanonicalizeError};
ghost use Rattle.icu_locale.specs.declared.canonicalizer.rules.Rules.{Rules};

/// Of each run of an identifier, by all rules or by language aliases alone, exactly one holds: it ends, or it has a
/// first identifier that comes again. The end is one, and is kept from each identifier on the way; so is the repeat one.
pub fn runs_end_or_repeat()
    ensures one { (likely : LikelySubtags) (rules : Rules) (transform : Bool)
        (x : LanguageIdentifier) → EndsOrRepeats (next_of likely rules transform) x }
    ensures not_both { (likely : LikelySubtags) (rules : Rules) (transform : Bool)
        (x : LanguageIdentifier) → EndsWithNoRepeat (next_of likely rules transform) x }
    ensures one_end { (likely : LikelySubtags) (rules : Rules) (transform : Bool)
        (x : LanguageIdentifier) → HasOneEnd (next_of likely rules transform) x }
    ensures kept { (likely : LikelySubtags) (rules : Rules) (transform : Bool)
        (x : LanguageIdentifier) → KeepsEnd (next_of likely rules transform) x }
    ensures one_repeat { (likely : LikelySubtags) (rules : Rules) (transform : Bool)
        (x : LanguageIdentifier) → HasOneRepeat (next_of likely rules transform) x }
{}

/// Of each run of a value, exactly one holds: it ends, or it has a first value that comes again. The end is one, and is
/// kept from each value on the way; so is the repeat one.
pub fn value_runs_end_or_repeat()
    ensures one { (rules : Rules) (v : List (List ℕ)) → EndsOrRepeats (next_value rules) v }
    ensures not_both { (rules : Rules) (v : List (List ℕ))
        → EndsWithNoRepeat (next_value rules) v }
    ensures one_end { (rules : Rules) (v : List (List ℕ)) → HasOneEnd (next_value rules) v }
    ensures kept { (rules : Rules) (v : List (List ℕ)) → KeepsEnd (next_value rules) v }
    ensures one_repeat { (rules : Rules) (v : List (List ℕ))
        → HasOneRepeat (next_value rules) v }
{}

/// Canonical keywords have at `rg` and at `sd` the end of the run of the value there, where there was one, and at each
/// other key what was there.
pub fn canonical_keywords_by_key()
    ensures region_override { (rules : Rules) (old new : KeywordRows)
        → AreCanonicalKeywords rules old new
        → BecomesEnd (next_value rules) (value_at text_cmp old rg) (value_at text_cmp new rg) }
    ensures subdivision { (rules : Rules) (old new : KeywordRows)
        → AreCanonicalKeywords rules old new
        → BecomesEnd (next_value rules) (value_at text_cmp old sd) (value_at text_cmp new sd) }
    ensures others { (rules : Rules) (old new : KeywordRows) → AreCanonicalKeywords rules old new
        → (key : List ℕ) → key ≢ rg → key ≢ sd
        → value_at text_cmp new key ≡ value_at text_cmp old key }
{}

/// A canonical locale is canonical itself: the rules end on it, and each run where it begins; nothing more is applied to
/// it, and no memory is needed to find that. So `canonicalize` succeeds on it and changes nothing.
pub fn canonical_stays_canonical()
    ensures canonical { (likely : LikelySubtags) (rules : Rules) (old new : Locale)
        → IsCanonical likely rules old new → IsCanonical likely rules new new }
    ensures unapplied { (likely : LikelySubtags) (rules : Rules) (old new : Locale)
        → IsCanonical likely rules old new → is_applied likely rules new ≡ false }
    ensures ends { (likely : LikelySubtags) (rules : Rules) (old new : Locale)
        → IsCanonical likely rules old new → RulesEnd likely rules new }
    ensures in_place { (likely : LikelySubtags) (rules : Rules) (old new : Locale)
        → IsCanonical likely rules old new → EndsInPlace likely rules new }
    ensures free { (likely : LikelySubtags) (rules : Rules) (old new : Locale)
        → IsCanonical likely rules old new → NeedsNoMemory likely rules new }
    ensures copies { (likely : LikelySubtags) (rules : Rules) (old new : Locale)
        → IsCanonical likely rules old new → HasNothingToCopy likely rules new }
{}

/// No memory is needed for a locale where in each run nothing matches, or there are no variants and no rule adds any, and
/// where no row replaces a value at `rg` or `sd`.
pub fn nothing_to_copy()
    ensures { (likely : LikelySubtags) (rules : Rules) (old : Locale)
        → HasNothingToCopy likely rules old → NeedsNoMemory likely rules old }
{}

/// A locale has one canonical form, and where it has one no refusal comes but want of memory. No locale is refused for
/// an identifier and for a value.
pub fn canonical_form_is_one()
    ensures one { (likely : LikelySubtags) (rules : Rules) (old new other : Locale)
        → IsCanonical likely rules old new → IsCanonical likely rules old other
        → new ≡ other }
    ensures refused { (likely : LikelySubtags) (rules : Rules) (old new : Locale)
        (e : CanonicalizeError) → IsCanonical likely rules old new
        → IsRefusal likely rules old e → IsMemory e }
    ensures apart { (likely : LikelySubtags) (rules : Rules) (old : Locale)
        (z : LanguageIdentifier) (v : List (List ℕ)) → ComesAgainFirst likely rules old z
        → ValueComesAgainFirst likely rules old v → ⊥ }
{}

/// Something is applied to a locale exactly where its canonical form differs.
#[tactic(auto, using(crate::proofs::CanonicalAgain::applied_exactly))]
pub fn applied_where_changed()
    ensures { (likely : LikelySubtags) (rules : Rules) (old new : Locale)
        → IsCanonical likely rules old new
        → (is_applied likely rules old ≡ true) ↔ (old ≢ new) }
{}
