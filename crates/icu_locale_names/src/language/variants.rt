//! The names of variants.
ghost use Rattle.std.specs.Prelude.{◌≡◌, ◌⊎◌, ◌∷◌, []};
ghost use Rattle.icu_locale_core.specs.TextSet.{rising};
ghost use Rattle.icu_provider.specs.declared.names.NameKey.{NameKey};
ghost use Rattle.icu_locale_names.specs.Chains.{variant_heavy, made_of};
ghost use Rattle.icu_locale_names.specs.LanguageNames.{qualifier, variants_of};
ghost use Rattle.icu_locale_names.specs.LentNames.{variant_list};
ghost use Rattle.icu_locale_names.specs.inner.LanguageParts.{variant_pieces, IsMemory, IsThisOrMemory};
ghost use Rattle.icu_locale_names.specs.Shown.{piece_of};

use crate::language::named::name_or_raw;
use crate::shown::Shown;
use crate::variant::HEAVY;
use icu_locale_core::{Variant, Variants};
use icu_provider::{DataError, DataLocale, DataProvider};
use std::alloc::Global;
use std::slice;

// The names of variants in rising order: of at most one without memory.
#[derive(Debug, Drop)]
pub enum VariantNames<'d> {
    None,
    One(Shown<'d, Variant>),
    Many(Vec<Shown<'d, Variant>>),
}

impl<'d> VariantNames<'d> {
    pub fn as_slice(&self) -> &[Shown<'d, Variant>]
        ensures { result.now ≡ variant_list self.now }
    {
        match self {
            VariantNames::None => &[],
            VariantNames::One(name) => slice::from_ref(name),
            VariantNames::Many(names) => names.as_slice(),
        }
    }
}

// The names of variants. Memory is taken for two or more alone, once, before the first is asked for.
pub fn variant_names<'d, P: DataProvider>(
    alloc: Global,
    provider: &'d P,
    locale: &DataLocale,
    variants: &Variants,
) -> Result<VariantNames<'d>, DataError>
    ensures { IsThisOrMemory (rising variants.now)
        (variants_of (λ marker key. P.name provider.now marker locale.now key)
        (rising variants.now)) (made_of variant_pieces result) }
{
    let mut walk = variants.iter();
    let Some(first) = walk.next() else {
        return Ok(VariantNames::None);
    };
    match walk.next() {
        None => one_name(provider, locale, &first),
        Some(_) => many_names(alloc, provider, locale, variants),
    }
}

// The name of a variant that is alone.
fn one_name<'d, P: DataProvider>(
    provider: &'d P,
    locale: &DataLocale,
    variant: &Variant,
) -> Result<VariantNames<'d>, DataError>
    ensures { made_of variant_pieces result
        ≡ variants_of (λ marker key. P.name provider.now marker locale.now key)
        (variant.now ∷ []) }
{
    match variant_name(provider, locale, variant) {
        Ok(name) => Ok(VariantNames::One(name)),
        Err(refusal) => Err(refusal),
    }
}

// The names of variants in a list, whose room is taken first. A name goes in as a slice of one, since the borrow
// checker has no rule for handing it over.
fn many_names<'d, P: DataProvider>(
    alloc: Global,
    provider: &'d P,
    locale: &DataLocale,
    variants: &Variants,
) -> Result<VariantNames<'d>, DataError>
    ensures { (made_of variant_pieces result
        ≡ variants_of (λ marker key. P.name provider.now marker locale.now key)
        (rising variants.now)) ⊎ IsMemory (made_of variant_pieces result) }
{
    let mut names = Vec::with_capacity(alloc, variants.len())?;
    for variant in variants.iter() {
        match variant_name(provider, locale, &variant) {
            Ok(name) => names.extend_from_slice(slice::from_ref(&name))?,
            Err(refusal) => return Err(refusal),
        }
    }
    Ok(VariantNames::Many(names))
}

// The name of a variant, or the raw subtag.
fn variant_name<'d, P: DataProvider>(
    provider: &'d P,
    locale: &DataLocale,
    variant: &Variant,
) -> Result<Shown<'d, Variant>, DataError>
    ensures { made_of piece_of result
        ≡ qualifier (λ marker key. P.name provider.now marker locale.now key) variant_heavy
        (λ v. NameKey.Variant v) variant.now }
{
    name_or_raw(provider, &HEAVY, locale, *variant)
}
