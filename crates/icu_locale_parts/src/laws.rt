//! Laws of parts. Each function here takes nothing, answers nothing and carries a proved fact.
ghost use Rattle.std.specs.Prelude.{◌≡◌, ◌↔◌};
ghost use Rattle.std.specs.List.{All, Contains};
ghost use Rattle.icu_locale_extensions.specs.Locales.{IsLocaleIdentifier};
ghost use Rattle.icu_locale_extensions.specs.declared.identifier.LocaleIdentifier.{LocaleIdentifier};
ghost use Rattle.icu_locale_parts.specs.Parts.{columns, parts_text};

/// Two locale identifiers have the same parts exactly where they are equal.
pub fn parts_tell_apart()
    ensures { (x y : LocaleIdentifier) → IsLocaleIdentifier x → IsLocaleIdentifier y
        → (parts_text x ≡ parts_text y) ↔ (x ≡ y) }
{
    icu_locale_extensions::laws::written_once();
}

/// Two locale identifiers are equal exactly where their ten columns are, whatever is written before these.
pub fn columns_tell_apart()
    ensures { (x y : LocaleIdentifier) → IsLocaleIdentifier x → IsLocaleIdentifier y
        → (columns x ≡ columns y) ↔ (x ≡ y) }
{
    icu_locale_core::laws::written_once();
}

/// No column has a tab, which is 9.
pub fn no_column_has_a_tab()
    ensures { (x : LocaleIdentifier) → IsLocaleIdentifier x
        → All (λ column. ¬ (Contains column 9)) (columns x) }
{}
