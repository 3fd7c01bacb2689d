//! The tables that rows are run over.
use crate::fault::Fault;
use icu_locale::{LocaleCanonicalizer, LocaleDirectionality, LocaleExpander};
use icu_provider::{DataError, DataErrorKind};
use icu_tables::Tables;
use std::alloc::Global;

/// Tables in two layers: what the own ones do not hold is the sample's.
pub struct World {
    /// The sample.
    pub sample: Tables,
    /// The tables of the rows in hand.
    pub own: Tables,
}

impl Drop for World {
    fn drop(self) {
        let World { sample: _, own: _ } = self;
    }
}

// One of two layers, the first that is there.
fn layered<'w, T>(own: &'w Option<T>, sample: &'w Option<T>) -> Result<&'w T, DataError> {
    match own.as_ref() {
        Some(table) => Ok(table),
        None => sample.as_ref().ok_or(DataError {
            kind: DataErrorKind::IdentifierNotFound,
        }),
    }
}

impl World {
    /// Nothing in either layer.
    pub fn new(alloc: Global) -> World {
        World {
            sample: Tables::new(alloc),
            own: Tables::new(alloc),
        }
    }

    /// An expander, over the extended table too where there is one.
    pub fn expander(&self) -> Result<LocaleExpander<'_>, Fault> {
        let language = layered(&self.own.likely_language, &self.sample.likely_language)?;
        let script_region = layered(
            &self.own.likely_script_region,
            &self.sample.likely_script_region,
        )?;
        Ok(match self.own.likely_extended.as_ref() {
            Some(extended) => LocaleExpander::new_extended(language, script_region, extended),
            None => LocaleExpander::new_common(language, script_region),
        })
    }

    /// A canonicalizer.
    pub fn canonicalizer(&self, alloc: Global) -> Result<LocaleCanonicalizer<'_>, Fault> {
        let aliases = layered(&self.own.aliases, &self.sample.aliases)?;
        Ok(LocaleCanonicalizer::new_with_expander(alloc, aliases, self.expander()?)?)
    }

    /// A directionality.
    pub fn directionality(&self) -> Result<LocaleDirectionality<'_>, Fault> {
        let directions = layered(&self.own.script_direction, &self.sample.script_direction)?;
        Ok(LocaleDirectionality::new_with_expander(directions, self.expander()?))
    }

    /// The tables of exemplar sets: the own ones, if they hold any.
    pub fn exemplars(&self) -> &Tables {
        if self.own.exemplars.is_empty() {
            &self.sample
        } else {
            &self.own
        }
    }

    /// The tables of names: the own ones, if they hold any.
    pub fn names(&self) -> &Tables {
        if self.own.names.is_empty() {
            &self.sample
        } else {
            &self.own
        }
    }
}
