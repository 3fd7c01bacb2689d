//! Subtags in a JSON text.
ghost use Rattle.std.specs.Prelude.{refl};
ghost use Rattle.icu_tables.specs.Shape.{text_as};

use crate::TableError;
use crate::from_json::values::FromValue;
use icu_locale_core::{Language, Region, Script, Subtag, Variant};
use serde_json::Value;
use std::alloc::Global;
use std::cmp::Ord;

// A subtag that is read from a text in any case.
pub(crate) trait FromText: Ord + Drop {
    ghost use Rattle.std.specs.Prelude.{◌≡◌, List, ℕ, Option};
    ghost use Rattle.icu_tables.specs.inner.KeyLaws.{ComparesTexts, ReadsAboveDash};

    ghost written: { Self → List ℕ };

    ghost reads: { List ℕ → Option Self };

    fn from_text(text: &str) -> Option<Self>
        ensures { result ≡ reads text.now };

    fn as_text(&self) -> &str
        ensures { result.now ≡ written self.now };

    // Subtags are in the order of their texts.
    ghost by_text: { ComparesTexts written Self.cmp };

    // A text that is read has no `-`, and no character before it.
    ghost above_dash: { ReadsAboveDash reads };
}

impl FromText for Language {
    ghost use Rattle.icu_tables.specs.inner.KeyLaws.{language_above_dash};
    ghost use Rattle.icu_tables.specs.Subtags.{read_language};

    ghost written = { λ x. x };

    ghost reads = { read_language };

    fn from_text(text: &str) -> Option<Self> {
        Language::try_from_str(text).ok()
    }

    fn as_text(&self) -> &str {
        self.as_str()
    }

    ghost by_text = { λ x y. refl };

    ghost above_dash = { language_above_dash };
}

impl FromText for Script {
    ghost use Rattle.icu_tables.specs.inner.KeyLaws.{script_above_dash};
    ghost use Rattle.icu_tables.specs.Subtags.{read_script};

    ghost written = { λ x. x };

    ghost reads = { read_script };

    fn from_text(text: &str) -> Option<Self> {
        Script::try_from_str(text).ok()
    }

    fn as_text(&self) -> &str {
        self.as_str()
    }

    ghost by_text = { λ x y. refl };

    ghost above_dash = { script_above_dash };
}

impl FromText for Region {
    ghost use Rattle.icu_tables.specs.inner.KeyLaws.{region_above_dash};
    ghost use Rattle.icu_tables.specs.Subtags.{read_region};

    ghost written = { λ x. x };

    ghost reads = { read_region };

    fn from_text(text: &str) -> Option<Self> {
        Region::try_from_str(text).ok()
    }

    fn as_text(&self) -> &str {
        self.as_str()
    }

    ghost by_text = { λ x y. refl };

    ghost above_dash = { region_above_dash };
}

impl FromText for Variant {
    ghost use Rattle.icu_tables.specs.inner.KeyLaws.{variant_above_dash};
    ghost use Rattle.icu_tables.specs.Subtags.{read_variant};

    ghost written = { λ x. x };

    ghost reads = { read_variant };

    fn from_text(text: &str) -> Option<Self> {
        Variant::try_from_str(text).ok()
    }

    fn as_text(&self) -> &str {
        self.as_str()
    }

    ghost by_text = { λ x y. refl };

    ghost above_dash = { variant_above_dash };
}

impl FromText for Subtag {
    ghost use Rattle.icu_tables.specs.inner.KeyLaws.{subtag_above_dash};
    ghost use Rattle.icu_tables.specs.Subtags.{read_subtag};

    ghost written = { λ x. x };

    ghost reads = { read_subtag };

    fn from_text(text: &str) -> Option<Self> {
        Subtag::try_from_str(text).ok()
    }

    fn as_text(&self) -> &str {
        self.as_str()
    }

    ghost by_text = { λ x y. refl };

    ghost above_dash = { subtag_above_dash };
}

impl<T: FromText> FromValue for T {
    ghost Seen = { T };

    ghost seen = { λ x. x };

    ghost shape = { text_as T.reads };

    fn from_value(_alloc: Global, value: &Value) -> Result<Self, TableError> {
        match value.as_str() {
            Some(text) => T::from_text(text).ok_or(TableError::Shape),
            None => Err(TableError::Shape),
        }
    }
}
