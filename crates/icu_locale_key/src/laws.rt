//! Laws of keys. Each function here takes nothing, answers nothing and carries a proved fact.
ghost use Rattle.std.specs.Prelude.{◌≡◌, ◌↔◌, ◌⊎◌, Bool, None, true};
ghost use Rattle.icu_locale_core.specs.declared.langid.LanguageIdentifier.{LanguageIdentifier};
ghost use Rattle.icu_locale_core.specs.Identifier.{IsIdentifier};
ghost use Rattle.icu_locale_runs.specs.Run.{EndsAt, IsRepeat};
ghost use Rattle.icu_locale.specs.Kinds.{next};
ghost use Rattle.icu_locale.specs.LikelySubtags.{LikelySubtags, maximal, IsSettled};
ghost use Rattle.icu_locale.specs.LikelyTable.{likely};
ghost use Rattle.icu_locale.specs.Minimal.{IsMinimalForm, IsLeast};
ghost use Rattle.icu_locale.specs.declared.expander.LocaleExpander.{LocaleExpander};
ghost use Rattle.icu_locale.specs.declared.expander.Favor.{Favor};
ghost use Rattle.icu_locale.specs.declared.expander.Favor.TheVariants.{RegionFirst};
ghost use Rattle.icu_locale.specs.declared.canonicalizer.rules.Rules.{Rules};
ghost use Rattle.icu_locale_key.specs.Filling.{LeavesFilled, leaves_tables};
ghost use Rattle.icu_locale_key.specs.Keys.{IsKey, IsPart, HasClass, KeysStayCanonical};
ghost use Rattle.icu_locale_key.specs.Stable.{IsStableKey, IsStuck, ComesRound, KeysHaveClasses, IsStep, MeanTheSame};
ghost use Rattle.icu_locale_key.specs.Whole.{IsWholeKey, IsWholeKeyRefusal};
ghost use Rattle.icu_locale_extensions.specs.Built.{with_id};
ghost use Rattle.icu_locale_extensions.specs.declared.identifier.LocaleIdentifier.{LocaleIdentifier};
ghost use Rattle.icu_locale_values.specs.Refusals.{IsMemory};
ghost use Rattle.icu_locale_values.specs.Whole.{WholeRules, IsWhole};
ghost use Rattle.icu_locale_values.specs.declared.error.WholeError.{WholeError};

/// Minimal forms are canonical where less is asked than that maximal forms are settled: that maximizing them again changes
/// nothing. Of such identifiers the minimal forms are equal exactly where the maximal forms are, and each is the least of
/// its class.
pub fn minimal_forms_tell_apart()
    ensures equal { (favor : Favor) (likely : LikelySubtags) (x y k l : LanguageIdentifier)
        → maximal likely (maximal likely x) ≡ maximal likely x
        → maximal likely (maximal likely y) ≡ maximal likely y
        → IsMinimalForm favor likely x k → IsMinimalForm favor likely y l
        → (k ≡ l) ↔ (maximal likely x ≡ maximal likely y) }
    ensures least { (favor : Favor) (likely : LikelySubtags) (x k : LanguageIdentifier)
        → maximal likely (maximal likely x) ≡ maximal likely x
        → IsMinimalForm favor likely x k → IsLeast favor likely x k }
{
    icu_locale::laws::minimal_form_is_one();
}

/// Over every table, an identifier has one key at most: it has one exactly where its run ends, the minimal form of that
/// end.
pub fn key_is_one()
    ensures one { (favor : Favor) (likely : LikelySubtags) (rules : Rules)
        (x k l : LanguageIdentifier) → IsKey favor likely rules x k
        → IsKey favor likely rules x l → k ≡ l }
    ensures exists { (favor : Favor) (likely : LikelySubtags) (rules : Rules)
        (x : LanguageIdentifier) → ((k : LanguageIdentifier) × IsKey favor likely rules x k)
        ⊎ ((z : LanguageIdentifier) × IsRepeat (next likely rules) x z) }
    ensures canonical { (favor : Favor) (likely : LikelySubtags) (rules : Rules)
        (x c k : LanguageIdentifier) → EndsAt (next likely rules) x c
        → IsKey favor likely rules x k ↔ IsMinimalForm favor likely c k }
{
    icu_locale::laws::minimal_form_is_one();
    icu_locale::laws::runs_end_or_repeat();
}

/// Over every table, identifiers have equal keys where the maximal forms of their canonical forms are equal; where the
/// classes of these have members, only there. They have some where the maximal form is settled or its own, and exactly
/// where the minimal form keeps the maximal form.
pub fn keys_tell_apart()
    ensures equal { (favor : Favor) (likely : LikelySubtags) (rules : Rules)
        (x y c d k l : LanguageIdentifier)
        → EndsAt (next likely rules) x c → EndsAt (next likely rules) y d
        → IsKey favor likely rules x k → IsKey favor likely rules y l
        → maximal likely c ≡ maximal likely d → k ≡ l }
    ensures only { (favor : Favor) (likely : LikelySubtags) (rules : Rules)
        (x y c d k l : LanguageIdentifier)
        → EndsAt (next likely rules) x c → EndsAt (next likely rules) y d
        → HasClass likely c → HasClass likely d
        → IsKey favor likely rules x k → IsKey favor likely rules y l
        → k ≡ l → maximal likely c ≡ maximal likely d }
    ensures settled { (likely : LikelySubtags) (c : LanguageIdentifier)
        → IsSettled likely (maximal likely c) → HasClass likely c }
    ensures stable { (likely : LikelySubtags) (c : LanguageIdentifier)
        → maximal likely (maximal likely c) ≡ maximal likely c → HasClass likely c }
    ensures kept { (favor : Favor) (likely : LikelySubtags) (c k : LanguageIdentifier)
        → IsMinimalForm favor likely c k
        → HasClass likely c ↔ (maximal likely k ≡ maximal likely c) }
{
    icu_locale::laws::minimal_form_is_one();
    icu_locale::laws::runs_end_or_repeat();
}

/// Where the class of the canonical form has a member, a key that no rule matches is its own key, and a key whose run
/// ends is its own key exactly where that end has the same maximal form.
pub fn keys_of_keys()
    ensures unmatched { (favor : Favor) (likely : LikelySubtags) (rules : Rules)
        (x c k : LanguageIdentifier) → EndsAt (next likely rules) x c → HasClass likely c
        → IsKey favor likely rules x k → next likely rules k ≡ None
        → IsKey favor likely rules k k }
    ensures exactly { (favor : Favor) (likely : LikelySubtags) (rules : Rules)
        (x c k e : LanguageIdentifier) → EndsAt (next likely rules) x c
        → IsKey favor likely rules x k → EndsAt (next likely rules) k e
        → HasClass likely c → HasClass likely e
        → IsKey favor likely rules k k ↔ (maximal likely e ≡ maximal likely c) }
    ensures all { (favor : Favor) (likely : LikelySubtags) (rules : Rules)
        (x c k : LanguageIdentifier) → KeysStayCanonical favor likely rules
        → EndsAt (next likely rules) x c → IsIdentifier c → HasClass likely c
        → IsKey favor likely rules x k → IsKey favor likely rules k k }
{
    icu_locale::laws::runs_end_or_repeat();
}

/// Over every table, no rule matches a part of an identifier that none matches. So a key that is a part of the
/// canonical form is its own key, where the class of that has a member.
pub fn parts_stay_unmatched()
    ensures unmatched { (likely : LikelySubtags) (rules : Rules) (k c : LanguageIdentifier)
        → IsPart k c → next likely rules c ≡ None → next likely rules k ≡ None }
    ensures own { (favor : Favor) (likely : LikelySubtags) (rules : Rules)
        (x c k : LanguageIdentifier) → EndsAt (next likely rules) x c → HasClass likely c
        → IsKey favor likely rules x k → IsPart k c → IsKey favor likely rules k k }
{
    icu_locale::laws::runs_end_or_repeat();
}

/// Over every table, a minimal form has no script and no region but those of the maximal form. Where no rule replaces
/// what the table may fill in, none matches the maximal form or the minimal form of an identifier that none matches. So
/// each key is its own key there, if the class of the canonical form has a member.
pub fn filled_subtags_stay_unmatched()
    ensures part { (favor : Favor) (likely : LikelySubtags) (c k : LanguageIdentifier)
        → IsMinimalForm favor likely c k → IsPart k (maximal likely c) }
    ensures maximal { (likely : LikelySubtags) (rules : Rules) → LeavesFilled likely rules
        → (c : LanguageIdentifier) → next likely rules c ≡ None
        → next likely rules (maximal likely c) ≡ None }
    ensures stay { (favor : Favor) (likely : LikelySubtags) (rules : Rules)
        → LeavesFilled likely rules → KeysStayCanonical favor likely rules }
    ensures tables { (rules : Rules) (e : LocaleExpander) → leaves_tables rules e ≡ true
        → LeavesFilled (likely e) rules }
    ensures own { (favor : Favor) (likely : LikelySubtags) (rules : Rules)
        → LeavesFilled likely rules → (x c k : LanguageIdentifier)
        → EndsAt (next likely rules) x c → HasClass likely c → IsKey favor likely rules x k
        → IsKey favor likely rules k k }
{
    icu_locale::laws::runs_end_or_repeat();
}

/// Over the tables of an expander, an identifier has a key that stays, or its keys come to one that has no key, or they
/// come round. Over every table only one of these holds; the key that stays is one, and so is what comes again first.
/// The key of an identifier has the same key that stays. Where the maximal forms of two canonical forms are equal, so
/// are the keys that stay.
pub fn stable_key_is_one()
    ensures exists { (e : LocaleExpander) (rules : Rules) (x : LanguageIdentifier)
        → ((k : LanguageIdentifier) × IsStableKey RegionFirst (likely e) rules x k)
        ⊎ ((z : LanguageIdentifier) × (IsStuck RegionFirst (likely e) rules x z
        ⊎ ComesRound RegionFirst (likely e) rules x z)) }
    ensures one { (likely : LikelySubtags) (rules : Rules) (x k l : LanguageIdentifier)
        → IsStableKey RegionFirst likely rules x k → IsStableKey RegionFirst likely rules x l
        → k ≡ l }
    ensures not_both { (likely : LikelySubtags) (rules : Rules) (x k z : LanguageIdentifier)
        → IsStableKey RegionFirst likely rules x k → IsStuck RegionFirst likely rules x z
        ⊎ ComesRound RegionFirst likely rules x z → ⊥ }
    ensures one_reason { (likely : LikelySubtags) (rules : Rules) (x y z : LanguageIdentifier)
        → IsStuck RegionFirst likely rules x y ⊎ ComesRound RegionFirst likely rules x y
        → IsStuck RegionFirst likely rules x z ⊎ ComesRound RegionFirst likely rules x z
        → y ≡ z }
    ensures kept { (likely : LikelySubtags) (rules : Rules) (x k l : LanguageIdentifier)
        → IsStableKey RegionFirst likely rules x l → IsKey RegionFirst likely rules x k
        → IsStableKey RegionFirst likely rules k l }
    ensures equal { (likely : LikelySubtags) (rules : Rules) (x y c d k l : LanguageIdentifier)
        → EndsAt (next likely rules) x c → EndsAt (next likely rules) y d
        → maximal likely c ≡ maximal likely d
        → IsStableKey RegionFirst likely rules x k → IsStableKey RegionFirst likely rules y l
        → k ≡ l }
{
    icu_locale::laws::minimal_form_is_one();
    icu_locale::laws::the_likely_table_is_one_map();
}

/// What equal keys that stay mean. Two identifiers mean the same by the least equivalence that holds of an identifier
/// and its canonical form, and of identifiers with equal maximal forms. An identifier means the same as its key that
/// stays, where the classes of the canonical forms on the way have members. So identifiers with equal ones mean the
/// same, and no test that is such an equivalence tells them apart.
///
/// The other way round does not hold: with the rule `en-US` to `fr`, and rows that make `en-Latn-US` of `en` and of
/// `und`, `und-US` and `en-US` have equal maximal forms. No rule matches the first, so its key that stays is `en`; that
/// of the second is `fr`.
pub fn stable_keys_mean_the_same()
    ensures key { (favor : Favor) (likely : LikelySubtags) (rules : Rules)
        (x c k : LanguageIdentifier) → EndsAt (next likely rules) x c → HasClass likely c
        → IsKey favor likely rules x k → MeanTheSame likely rules x k }
    ensures stable { (favor : Favor) (likely : LikelySubtags) (rules : Rules)
        (x k : LanguageIdentifier) → KeysHaveClasses favor likely rules x
        → IsStableKey favor likely rules x k → MeanTheSame likely rules x k }
    ensures equal { (favor : Favor) (likely : LikelySubtags) (rules : Rules)
        (x y k : LanguageIdentifier) → KeysHaveClasses favor likely rules x
        → KeysHaveClasses favor likely rules y → IsStableKey favor likely rules x k
        → IsStableKey favor likely rules y k → MeanTheSame likely rules x y }
    ensures reflexive { (likely : LikelySubtags) (rules : Rules) (x : LanguageIdentifier)
        → MeanTheSame likely rules x x }
    ensures symmetric { (likely : LikelySubtags) (rules : Rules) (x y : LanguageIdentifier)
        → MeanTheSame likely rules x y → MeanTheSame likely rules y x }
    ensures transitive { (likely : LikelySubtags) (rules : Rules) (x y z : LanguageIdentifier)
        → MeanTheSame likely rules x y → MeanTheSame likely rules y z
        → MeanTheSame likely rules x z }
    ensures least { (likely : LikelySubtags) (rules : Rules)
        (test : LanguageIdentifier → LanguageIdentifier → Bool)
        → ((x : LanguageIdentifier) → test x x ≡ true)
        → ((x y z : LanguageIdentifier) → test x y ≡ true → test y z ≡ true
        → test x z ≡ true)
        → ((x y : LanguageIdentifier) → IsStep likely rules x y → test x y ≡ true)
        → (x y : LanguageIdentifier) → MeanTheSame likely rules x y → test x y ≡ true }
{
    icu_locale::laws::runs_end_or_repeat();
}

/// A locale identifier has one key at most, or one reason why it has none, want of memory aside. Its key is its own key.
/// Where two whole canonical forms differ by their identifiers alone, and the maximal forms of these are equal, so are the
/// keys.
pub fn whole_key_is_one()
    ensures one { (by : WholeRules) (x k l : LocaleIdentifier) → IsWholeKey by x k
        → IsWholeKey by x l → k ≡ l }
    ensures not_both { (by : WholeRules) (x k : LocaleIdentifier) (e : WholeError)
        → IsWholeKey by x k → IsWholeKeyRefusal by x e → IsMemory e }
    ensures one_reason { (by : WholeRules) (x : LocaleIdentifier) (e f : WholeError)
        → IsWholeKeyRefusal by x e → IsWholeKeyRefusal by x f → ¬ (IsMemory e)
        → ¬ (IsMemory f) → e ≡ f }
    ensures own { (by : WholeRules) (x k : LocaleIdentifier) → IsWholeKey by x k
        → IsWholeKey by k k }
    ensures equal { (by : WholeRules) (x y c d k l : LocaleIdentifier)
        → IsWhole by x c → IsWhole by y d → with_id d c.locale.id ≡ c
        → maximal by.likely c.locale.id ≡ maximal by.likely d.locale.id
        → IsWholeKey by x k → IsWholeKey by y l → k ≡ l }
{
    icu_locale::laws::minimal_form_is_one();
    icu_locale_values::laws::whole_form_is_one();
    icu_locale_values::laws::whole_form_stays();
    icu_locale_values::laws::whole_where_runs_end();
    icu_locale_values::laws::a_refusal_is_one();
}

/// Locale identifiers with one key have whole canonical forms that differ by their identifiers alone, and these identifiers
/// mean the same, where the classes of the canonical forms on the way have members. So an index that is unique by keys takes
/// none for another.
pub fn whole_keys_mean_the_same()
    ensures forms { (by : WholeRules) (x y c d k : LocaleIdentifier) → IsWhole by x c
        → IsWhole by y d → IsWholeKey by x k → IsWholeKey by y k → with_id d c.locale.id ≡ c }
    ensures identifiers { (by : WholeRules) (x y c d k : LocaleIdentifier) → IsWhole by x c
        → IsWhole by y d → IsWholeKey by x k → IsWholeKey by y k
        → KeysHaveClasses RegionFirst by.likely by.rules c.locale.id
        → KeysHaveClasses RegionFirst by.likely by.rules d.locale.id
        → MeanTheSame by.likely by.rules c.locale.id d.locale.id }
{
    icu_locale_values::laws::whole_form_is_one();
    stable_keys_mean_the_same();
}
