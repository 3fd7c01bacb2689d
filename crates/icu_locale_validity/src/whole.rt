//! Whether each part of a locale is valid.
ghost use Rattle.std.specs.Prelude.{◌≡◌, ◌↔◌, true};
ghost use Rattle.icu_locale_core.specs.TextSet.{rising};
ghost use Rattle.icu_locale_validity.specs.Parts.{IsValid, is_valid};
ghost use Rattle.icu_locale_validity.specs.inner.Wholes.{are_fields, are_keywords, are_variants, is_id, is_id_if_any, is_nothing, is_region_if_any, is_script_if_any, is_transform, is_unicode, is_whole};

use crate::Validity;
use crate::region::is_of_region;
use crate::table::is_valid_status;
use icu_locale_core::{Key, LanguageIdentifier, Region, Script, Value, Variants};
use icu_locale_extensions::{Attributes, FieldKey, LocaleIdentifier, Others, Subtags};

impl Validity {
    /// Whether each part of a locale is listed and may be used, and a subdivision at `sd` is one of its region, if it has
    /// one (UTS #35 Part 1, section 3.6.5). Private use is always valid. It takes no memory.
    pub fn is_valid(&self, x: &LocaleIdentifier) -> bool
        ensures test { result ≡ is_valid self.now x.now }
        ensures each { (result ≡ true) ↔ IsValid self.now x.now }
    {
        self.is_whole(x)
    }

    fn is_whole(&self, x: &LocaleIdentifier) -> bool
        ensures { result ≡ is_whole self.now x.now }
    {
        self.is_valid_id(&x.locale.id)
            && self.is_valid_unicode(x)
            && self.is_valid_transform(x)
            && has_no_others(&x.others)
    }

    fn is_valid_unicode(&self, x: &LocaleIdentifier) -> bool
        ensures { result ≡ is_unicode self.now x.now }
    {
        has_no_attributes(&x.attributes)
            && self.are_valid_keywords(
                &x.locale.id.region,
                x.locale.extensions.unicode.keywords.iter().as_slice(),
            )
    }

    fn is_valid_transform(&self, x: &LocaleIdentifier) -> bool
        ensures { result ≡ is_transform self.now x.now }
    {
        self.is_valid_lang(&x.locale.extensions.transform.lang)
            && self.are_valid_fields(x.fields.iter().as_slice())
    }

    // Each part of an identifier.
    fn is_valid_id(&self, x: &LanguageIdentifier) -> bool
        ensures { result ≡ is_id self.now x.now }
    {
        is_valid_status(self.language(x.language))
            && self.is_valid_script(&x.script)
            && self.is_valid_region(&x.region)
            && self.are_valid_variants(&x.variants)
    }

    fn is_valid_lang(&self, lang: &Option<LanguageIdentifier>) -> bool
        ensures { result ≡ is_id_if_any self.now lang.now }
    {
        match lang {
            Some(lang) => self.is_valid_id(lang),
            None => true,
        }
    }

    fn is_valid_script(&self, script: &Option<Script>) -> bool
        ensures { result ≡ is_script_if_any self.now script.now }
    {
        match script {
            Some(script) => is_valid_status(self.script(*script)),
            None => true,
        }
    }

    fn is_valid_region(&self, region: &Option<Region>) -> bool
        ensures { result ≡ is_region_if_any self.now region.now }
    {
        match region {
            Some(region) => is_valid_status(self.region(*region)),
            None => true,
        }
    }

    fn are_valid_variants(&self, variants: &Variants) -> bool
        ensures { result ≡ are_variants self.now (rising variants.now) }
    {
        for variant in variants.iter() {
            if !is_valid_status(self.variant(variant)) {
                return false;
            }
        }
        true
    }

    fn are_valid_keywords(&self, region: &Option<Region>, rows: &[(Key, Value)]) -> bool
        ensures { result ≡ are_keywords self.now region.now rows.now }
    {
        for row in rows {
            if !is_of_region(region, row) || !is_valid_status(self.keyword(row.0, &row.1)) {
                return false;
            }
        }
        true
    }

    fn are_valid_fields(&self, rows: &[(FieldKey, Subtags<3>)]) -> bool
        ensures { result ≡ are_fields self.now rows.now }
    {
        for row in rows {
            if !is_valid_status(self.field(row.0, &row.1)) {
                return false;
            }
        }
        true
    }
}

fn has_no_attributes(attributes: &Attributes) -> bool
    ensures { result ≡ is_nothing attributes.now }
{
    attributes.is_empty()
}

fn has_no_others(others: &Others) -> bool
    ensures { result ≡ is_nothing others.now }
{
    others.is_empty()
}
