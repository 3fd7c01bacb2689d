//! Canonicalizers over tables or a provider.
ghost use Rattle.std.specs.Prelude.{◌≡◌, Ok, IsOk, IfOk, IfErr};
ghost use Rattle.icu_locale.specs.Construction.{common, with_extended, both_or_refusal, loaded_common, loaded_extended, RewritesOver, ReadsNoTexts, IsMadeInMemory};
ghost use Rattle.icu_locale.specs.RuleSet.{rules_over};
ghost use Rattle.icu_locale.specs.Rules.{AreRules, HasNoTexts};

use super::LocaleCanonicalizer;
use super::reading::read_all;
use super::rules::{ReadRules, Rules};
use crate::LocaleExpander;
use icu_provider::{
    Aliases, DataError, DataErrorKind, DataProvider, LikelySubtagsExtended,
    LikelySubtagsForLanguage, LikelySubtagsForScriptRegion, NotedMap, RowList,
};
use std::alloc::Global;

impl<'d, E> LocaleCanonicalizer<'d, E> {
    /// Over what was read of a table of aliases, the table and an expander. It takes no memory.
    pub fn over(read: ReadRules, aliases: &'d Aliases, expander: E) -> Self
    where
        E: Drop,
        ensures rules { result.rules ≡ rules_over read aliases.now }
        ensures expander { result.expander ≡ expander }
    {
        LocaleCanonicalizer {
            rules: Rules { read, aliases },
            expander,
        }
    }

    /// Over a table of aliases, whose texts are read here, and an expander. A row that cannot be read is left out. It
    /// takes memory for the rules that are read.
    ///
    /// # Errors
    ///
    /// `Memory` where the rules that were read found no room: never where the table has no text.
    pub fn new_with_expander(
        alloc: Global,
        aliases: &'d Aliases,
        expander: E,
    ) -> Result<Self, DataError>
    where
        E: Drop,
        ensures rules { IfOk result (λ c. AreRules aliases.now c.rules) }
        ensures expander { IfOk result (λ c. c.expander ≡ expander) }
        ensures refused { IfErr result (λ e. e.kind ≡ DataErrorKind.Memory) }
        ensures free { HasNoTexts aliases.now → IsOk result }
    {
        let read = ReadRules::read(alloc, aliases)?;
        Ok(LocaleCanonicalizer::over(read, aliases, expander))
    }

    /// Over the aliases of a provider, whose texts are read here, and an expander. It takes memory for the rules that
    /// are read.
    ///
    /// # Errors
    ///
    /// The refusal of the provider, unchanged, and then `Memory` where the rules that were read found no room: never
    /// where the table has no text.
    pub fn try_new_with_expander_unstable<P: DataProvider>(
        alloc: Global,
        provider: &'d P,
        expander: E,
    ) -> Result<Self, DataError>
    where
        E: Drop,
        ensures made { IsMadeInMemory (λ table c. AreRules table c.rules) HasNoTexts
            (P.aliases provider.now) result }
        ensures expander { IfOk result (λ c. c.expander ≡ expander) }
    {
        let aliases = provider.load_aliases()?;
        LocaleCanonicalizer::new_with_expander(alloc, aliases, expander)
    }
}

impl<'d> LocaleCanonicalizer<'d, LocaleExpander<'d>> {
    /// Over the common tables of likely subtags and a table of aliases, whose texts are read here. It takes memory for
    /// the rules that are read.
    ///
    /// # Errors
    ///
    /// `Memory` where the rules that were read found no room: never where the table has no text.
    pub fn new_common(
        alloc: Global,
        language: &'d LikelySubtagsForLanguage,
        script_region: &'d LikelySubtagsForScriptRegion,
        aliases: &'d Aliases,
    ) -> Result<Self, DataError>
        ensures made { IsMadeInMemory RewritesOver ReadsNoTexts
            (Ok (common language.now script_region.now, aliases.now)) result }
    {
        let expander = LocaleExpander::new_common(language, script_region);
        LocaleCanonicalizer::new_with_expander(alloc, aliases, expander)
    }

    /// Over the common tables of likely subtags, the extended one, and a table of aliases, whose texts are read here.
    /// It takes memory for the rules that are read.
    ///
    /// # Errors
    ///
    /// `Memory` where the rules that were read found no room: never where the table has no text.
    pub fn new_extended(
        alloc: Global,
        language: &'d LikelySubtagsForLanguage,
        script_region: &'d LikelySubtagsForScriptRegion,
        extended: &'d LikelySubtagsExtended,
        aliases: &'d Aliases,
    ) -> Result<Self, DataError>
        ensures made { IsMadeInMemory RewritesOver ReadsNoTexts
            (Ok (with_extended language.now script_region.now extended.now, aliases.now)) result }
    {
        let expander = LocaleExpander::new_extended(language, script_region, extended);
        LocaleCanonicalizer::new_with_expander(alloc, aliases, expander)
    }

    /// Over the common tables of likely subtags of a provider, which are loaded first, and its aliases. It takes memory
    /// for the rules that are read.
    ///
    /// # Errors
    ///
    /// The first refusal of the provider, unchanged, and then `Memory` where the rules that were read found no room:
    /// never where the table has no text.
    pub fn try_new_common_unstable<P: DataProvider>(
        alloc: Global,
        provider: &'d P,
    ) -> Result<Self, DataError>
        ensures { IsMadeInMemory RewritesOver ReadsNoTexts
            (both_or_refusal (loaded_common (P.likely_language provider.now)
            (P.likely_script_region provider.now)) (P.aliases provider.now)) result }
    {
        let expander = LocaleExpander::try_new_common_unstable(provider)?;
        LocaleCanonicalizer::try_new_with_expander_unstable(alloc, provider, expander)
    }

    /// Over all tables of likely subtags of a provider, which are loaded first, and its aliases. It takes memory for the
    /// rules that are read.
    ///
    /// # Errors
    ///
    /// The first refusal of the provider, unchanged, and then `Memory` where the rules that were read found no room:
    /// never where the table has no text.
    pub fn try_new_extended_unstable<P: DataProvider>(
        alloc: Global,
        provider: &'d P,
    ) -> Result<Self, DataError>
        ensures { IsMadeInMemory RewritesOver ReadsNoTexts
            (both_or_refusal (loaded_extended (P.likely_language provider.now)
            (P.likely_script_region provider.now) (P.likely_extended provider.now))
            (P.aliases provider.now)) result }
    {
        let expander = LocaleExpander::try_new_extended_unstable(provider)?;
        LocaleCanonicalizer::try_new_with_expander_unstable(alloc, provider, expander)
    }
}

impl ReadRules {
    /// What can be read of the texts of a table of aliases. A row that cannot be read is left out. It takes memory for
    /// the rules that are read.
    ///
    /// # Errors
    ///
    /// `Memory` where the rules that were read found no room: never where the table has no text.
    pub fn read(alloc: Global, aliases: &Aliases) -> Result<ReadRules, DataError>
        ensures rules { IfOk result (λ read. AreRules aliases.now (rules_over read aliases.now)) }
        ensures refused { IfErr result (λ e. e.kind ≡ DataErrorKind.Memory) }
        ensures free { HasNoTexts aliases.now → IsOk result }
    {
        let language = read_all(alloc, aliases.language.as_slice())?;
        let language_variants = read_all(alloc, aliases.language_variants.as_slice())?;
        let language_len2 = read_all(alloc, aliases.language_len2.as_slice())?;
        let language_len3 = read_all(alloc, aliases.language_len3.as_slice())?;
        let subdivision = read_all(alloc, aliases.subdivision.as_slice())?;
        Ok(ReadRules {
            language: RowList::from_vec(language),
            language_variants: RowList::from_vec(language_variants),
            language_len2: NotedMap::try_from_sorted(alloc, language_len2)?,
            language_len3: NotedMap::try_from_sorted(alloc, language_len3)?,
            subdivision: NotedMap::try_from_sorted(alloc, subdivision)?,
            alloc,
        })
    }
}
