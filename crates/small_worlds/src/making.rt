//! How what is compared is made: the worlds take turns at the constructors.
use icu_locale::{LocaleCanonicalizer, LocaleDirectionality, LocaleExpander, ReadRules};
use icu_provider::{DataError, DataProvider};
use icu_tables::Tables;
use std::alloc::Global;

/// What a constructor is handed.
#[derive(Clone, Copy)]
pub enum Making {
    /// Each table.
    Tables,
    /// A provider.
    Provider,
    /// A table and an expander.
    Expander,
    /// A provider and an expander.
    ProviderAndExpander,
    /// What was read of a table, the table and an expander.
    Read,
}

impl Making {
    /// That of a world.
    pub fn of_world(world: usize) -> Making {
        match world % 5 {
            0 => Making::Tables,
            1 => Making::Provider,
            2 => Making::Expander,
            3 => Making::ProviderAndExpander,
            _ => Making::Read,
        }
    }
}

/// Makes what is compared in one world, over the common tables alone or over all.
#[derive(Clone, Copy)]
pub struct Maker<'w> {
    pub making: Making,
    pub tables: &'w Tables,
    pub with_extended: bool,
}

impl<'w> Maker<'w> {
    /// The expander.
    pub fn expander(self) -> Result<LocaleExpander<'w>, DataError> {
        match (self.making, self.with_extended) {
            (Making::Provider | Making::ProviderAndExpander, false) => {
                LocaleExpander::try_new_common_unstable(self.tables)
            }
            (Making::Provider | Making::ProviderAndExpander, true) => {
                LocaleExpander::try_new_extended_unstable(self.tables)
            }
            _ => self.expander_of_tables(),
        }
    }

    fn expander_of_tables(self) -> Result<LocaleExpander<'w>, DataError> {
        let language = self.tables.load_likely_language()?;
        let script_region = self.tables.load_likely_script_region()?;
        if !self.with_extended {
            return Ok(LocaleExpander::new_common(language, script_region));
        }
        let extended = self.tables.load_likely_extended()?;
        Ok(LocaleExpander::new_extended(language, script_region, extended))
    }

    /// The directionality, over the expander where it takes one.
    pub fn directionality(
        self,
        expander: LocaleExpander<'w>,
    ) -> Result<LocaleDirectionality<'w>, DataError> {
        match (self.making, self.with_extended) {
            (Making::Tables, _) => self.directionality_of_tables(expander),
            (Making::Provider, false) => LocaleDirectionality::try_new_common_unstable(self.tables),
            (Making::Provider, true) => {
                LocaleDirectionality::try_new_extended_unstable(self.tables)
            }
            (Making::Expander | Making::Read, _) => {
                let directions = self.tables.load_script_direction()?;
                Ok(LocaleDirectionality::new_with_expander(directions, expander))
            }
            (Making::ProviderAndExpander, _) => {
                LocaleDirectionality::try_new_with_expander_unstable(self.tables, expander)
            }
        }
    }

    fn directionality_of_tables(
        self,
        over: LocaleExpander<'w>,
    ) -> Result<LocaleDirectionality<'w>, DataError> {
        let (language, script_region) = (over.language, over.script_region);
        let directions = self.tables.load_script_direction()?;
        Ok(match over.extended {
            None => LocaleDirectionality::new_common(language, script_region, directions),
            Some(extended) => {
                LocaleDirectionality::new_extended(language, script_region, extended, directions)
            }
        })
    }

    /// The canonicalizer, over the expander where it takes one.
    pub fn canonicalizer(
        self,
        alloc: Global,
        expander: LocaleExpander<'w>,
    ) -> Result<LocaleCanonicalizer<'w>, DataError> {
        match (self.making, self.with_extended) {
            (Making::Tables, _) => self.canonicalizer_of_tables(alloc, expander),
            (Making::Provider, false) => {
                LocaleCanonicalizer::try_new_common_unstable(alloc, self.tables)
            }
            (Making::Provider, true) => {
                LocaleCanonicalizer::try_new_extended_unstable(alloc, self.tables)
            }
            (Making::Expander, _) => {
                let aliases = self.tables.load_aliases()?;
                LocaleCanonicalizer::new_with_expander(alloc, aliases, expander)
            }
            (Making::ProviderAndExpander, _) => {
                LocaleCanonicalizer::try_new_with_expander_unstable(alloc, self.tables, expander)
            }
            (Making::Read, _) => {
                let aliases = self.tables.load_aliases()?;
                let read = ReadRules::read(alloc, aliases)?;
                let read = LocaleCanonicalizer::over(read, aliases, expander).into_rules();
                Ok(LocaleCanonicalizer::over(read, aliases, expander))
            }
        }
    }

    fn canonicalizer_of_tables(
        self,
        alloc: Global,
        over: LocaleExpander<'w>,
    ) -> Result<LocaleCanonicalizer<'w>, DataError> {
        let (language, script_region) = (over.language, over.script_region);
        let aliases = self.tables.load_aliases()?;
        match over.extended {
            None => LocaleCanonicalizer::new_common(alloc, language, script_region, aliases),
            Some(extended) => {
                LocaleCanonicalizer::new_extended(alloc, language, script_region, extended, aliases)
            }
        }
    }
}
