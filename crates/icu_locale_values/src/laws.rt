//! Laws of whole canonical forms. Each function here takes nothing, answers nothing and carries a proved fact.
ghost use Rattle.std.specs.Prelude.{◌≡◌, ◌≢◌, ◌↔◌, [], true, false};
ghost use Rattle.icu_locale.specs.Canonical.{IsCanonical};
ghost use Rattle.icu_locale_core.specs.declared.locale.Locale.{Locale};
ghost use Rattle.icu_locale_extensions.specs.Locales.{IsLocaleIdentifier};
ghost use Rattle.icu_locale_extensions.specs.declared.identifier.LocaleIdentifier.{LocaleIdentifier};
ghost use Rattle.icu_locale_values.specs.Refusals.{IsWholeRefusal, IsMemory};
ghost use Rattle.icu_locale_values.specs.Whole.{WholeRules, IsWhole, AreMaps, is_whole_applied, HasNoAlias, GoesByLanguages, NeedsNoMemory, RunsEnd};
ghost use Rattle.icu_locale_values.specs.declared.error.WholeError.{WholeError};

/// A whole canonical form is its own: nothing more is applied to it, and no memory is needed to find that. So
/// `canonicalize` succeeds on it and changes nothing.
pub fn whole_form_stays()
    ensures whole { (by : WholeRules) (old new : LocaleIdentifier) → IsWhole by old new
        → IsWhole by new new }
    ensures unapplied { (by : WholeRules) (old new : LocaleIdentifier) → IsLocaleIdentifier new
        → IsWhole by old new → is_whole_applied by new ≡ false }
    ensures free { (by : WholeRules) (old new : LocaleIdentifier) → IsLocaleIdentifier new
        → IsWhole by old new → NeedsNoMemory by new }
{}

/// A locale identifier has one whole canonical form, whose keywords and fields are maps, as those of every locale
/// identifier are.
pub fn whole_form_is_one()
    ensures one { (by : WholeRules) (old new other : LocaleIdentifier)
        → IsWhole by old new → IsWhole by old other → new ≡ other }
    ensures maps { (x : LocaleIdentifier) → IsLocaleIdentifier x → AreMaps x }
{}

/// There is one exactly where each run ends, and where each ends, no refusal comes but want of memory.
pub fn whole_where_runs_end()
    ensures some { (by : WholeRules) (old : LocaleIdentifier) → IsLocaleIdentifier old
        → RunsEnd by old → (new : LocaleIdentifier) × IsWhole by old new }
    ensures ends { (by : WholeRules) (old new : LocaleIdentifier) → IsWhole by old new
        → RunsEnd by old }
    ensures refused { (by : WholeRules) (old : LocaleIdentifier) (e : WholeError)
        → RunsEnd by old → IsWholeRefusal by old e → IsMemory e }
{}

/// A rule or an alias is applied to a locale identifier exactly where its whole canonical form differs: the end of a run of
/// one step or more is never its start.
pub fn applied_where_changed()
    ensures { (by : WholeRules) (old new : LocaleIdentifier) → IsLocaleIdentifier old
        → IsLocaleIdentifier new → IsWhole by old new
        → (is_whole_applied by old ≡ true) ↔ (old ≢ new) }
{}

/// Where no value has an alias, and no rule but one of languages matches the transform language and what follows it, what
/// `canonicalize` of `icu_locale` makes of the locale is its whole canonical form, with all else as it was. Without rows
/// no value has an alias.
pub fn without_aliases()
    ensures whole { (by : WholeRules) (old : LocaleIdentifier) (new : Locale) → HasNoAlias by old
        → GoesByLanguages by old.locale.extensions.transform.lang
        → IsCanonical by.likely by.rules old.locale new
        → AreMaps (record old { locale = new }) → IsWhole by old (record old { locale = new }) }
    ensures none { (by : WholeRules) (old : LocaleIdentifier) → by.keywords ≡ []
        → by.fields ≡ [] → HasNoAlias by old }
{
    icu_locale::laws::canonical_keywords_by_key();
}

/// A locale identifier is refused for one reason, want of memory aside.
pub fn a_refusal_is_one()
    ensures { (by : WholeRules) (old : LocaleIdentifier) (e f : WholeError)
        → IsWholeRefusal by old e → IsWholeRefusal by old f → ¬ (IsMemory e)
        → ¬ (IsMemory f) → e ≡ f }
{
    icu_locale::laws::canonical_form_is_one();
}
