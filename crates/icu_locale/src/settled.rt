//! Whether the maximal form of every identifier is settled: each row's key is looked at once.
ghost use Rattle.std.specs.Prelude.{◌≡◌, ◌↔◌, true, IsTrue, MatchBool};
ghost use Rattle.icu_locale_core.specs.Subtag.{und};
ghost use Rattle.icu_locale.specs.declared.expander.looks.LikelyKey.{LikelyKey};
ghost use Rattle.icu_locale.specs.declared.expander.looks.LikelyKey.TheVariants.{
  LanguageRegion,
  LanguageScript,
  LanguageAlone,
  ScriptRegion,
  ScriptAlone,
  RegionAlone,
};
ghost use Rattle.icu_locale.specs.LikelySubtags.{bare_locale, AreSettled};
ghost use Rattle.icu_locale.specs.LikelyTable.{likely};
ghost use Rattle.icu_locale.specs.inner.SettledRows.{
  map_rows,
  key_locale,
  IsLocale,
  is_settled_locale,
  settles,
  AllSettle,
  HasUnsettled,
  RowsSettle,
  ExtendedRowsSettle,
  UndRowsSettle,
  AllRowsSettle,
};
ghost use Rattle.icu_locale.specs.Locales.{same_locale};

use crate::LocaleExpander;
use crate::expander::looks::{LikelyKey, LikelyMaps, bare_locale, extended_maps};
use icu_locale_core::{Language, Region, Script};
use icu_provider::{DataLocale, Marked, NotedMap};

// The key of a row: what is in it of an identifier.
trait RowKey: Ord {
    ghost key: { Self → LikelyKey };

    // The key in the one table.
    fn key(&self) -> LikelyKey
        ensures value { result ≡ key self.now }
        ensures known { IsLocale (key_locale (key self.now)) };
}

impl RowKey for Language {
    ghost key = { LanguageAlone };

    fn key(&self) -> LikelyKey {
        let _ = self.as_str();
        LikelyKey::LanguageAlone(*self)
    }
}

impl RowKey for (Language, Script) {
    ghost key = { λ k. LanguageScript k.0 k.1 };

    fn key(&self) -> LikelyKey {
        let _ = self.0.as_str();
        let _ = self.1.as_str();
        LikelyKey::LanguageScript(self.0, self.1)
    }
}

impl RowKey for (Language, Region) {
    ghost key = { λ k. LanguageRegion k.0 k.1 };

    fn key(&self) -> LikelyKey {
        let _ = self.0.as_str();
        let _ = self.1.as_str();
        LikelyKey::LanguageRegion(self.0, self.1)
    }
}

impl RowKey for (Script, Region) {
    ghost key = { λ k. ScriptRegion k.0 k.1 };

    fn key(&self) -> LikelyKey {
        let _ = self.0.as_str();
        let _ = self.1.as_str();
        LikelyKey::ScriptRegion(self.0, self.1)
    }
}

impl RowKey for Script {
    ghost key = { ScriptAlone };

    fn key(&self) -> LikelyKey {
        let _ = self.as_str();
        LikelyKey::ScriptAlone(*self)
    }
}

impl RowKey for Region {
    ghost key = { RegionAlone };

    fn key(&self) -> LikelyKey {
        let _ = self.as_str();
        LikelyKey::RegionAlone(*self)
    }
}

// The key's own subtags, with the language `und` where the key has none.
fn key_locale(key: &LikelyKey) -> DataLocale
    ensures { result ≡ key_locale key.now }
{
    let (language, script, region) = match *key {
        LikelyKey::LanguageRegion(language, region) => (language, None, Some(region)),
        LikelyKey::LanguageScript(language, script) => (language, Some(script), None),
        LikelyKey::LanguageAlone(language) => (language, None, None),
        LikelyKey::ScriptRegion(script, region) => (Language::UNKNOWN, Some(script), Some(region)),
        LikelyKey::ScriptAlone(script) => (Language::UNKNOWN, Some(script), None),
        LikelyKey::RegionAlone(region) => (Language::UNKNOWN, None, Some(region)),
    };
    DataLocale {
        language,
        script,
        region,
    }
}

// Whether a locale has neither script `Zzzz` nor region `ZZ`.
fn is_bare(locale: &DataLocale) -> bool
    ensures { result ≡ same_locale (bare_locale locale.now) locale.now }
{
    bare_locale(*locale) == *locale
}

impl<'d> LocaleExpander<'d> {
    // Whether a locale is bare and its own maximal form.
    fn is_settled_locale(&self, locale: &DataLocale) -> bool
        ensures { result ≡ is_settled_locale (likely self.now) locale.now }
    {
        is_bare(locale) && self.leads_to(locale, locale)
    }

    // Whether the maximal form of a key's own subtags is settled.
    fn settles<K: RowKey>(&self, key: &K) -> bool
        ensures { MatchBool result (settles (likely self.now) (K.key key.now) ≡ true)
            (HasUnsettled (likely self.now)) }
    {
        let key = key.key();
        let maximal = self.maximal_locale(key_locale(&key));
        self.is_settled_locale(&maximal)
    }

    // Whether each row's key settles.
    fn all_settle<K: RowKey + Marked, V>(&self, rows: &NotedMap<K, V>) -> bool
        ensures { MatchBool result (AllSettle (likely self.now) K.key rows.now)
            (HasUnsettled (likely self.now)) }
    {
        for row in rows.as_slice() {
            if !self.settles(&row.0) {
                return false;
            }
        }
        true
    }

    // Whether the keys of a table settle.
    fn table_settles(&self, maps: &LikelyMaps<'_>) -> bool
        ensures { MatchBool result (RowsSettle (likely self.now) (map_rows maps.now))
            (HasUnsettled (likely self.now)) }
    {
        self.all_settle(maps.language)
            && self.all_settle(maps.language_script)
            && self.all_settle(maps.language_region)
            && self.all_settle(maps.script_region)
            && self.all_settle(maps.script)
            && self.all_settle(maps.region)
    }

    // Whether the keys of the extended table settle.
    fn extended_rows_settle(&self) -> bool
        ensures { MatchBool result (ExtendedRowsSettle self.now) (HasUnsettled (likely self.now)) }
    {
        match self.extended {
            Some(extended) => self.table_settles(&extended_maps(extended)),
            None => true,
        }
    }

    // Whether the keys that the triple of `und` serves settle.
    fn und_rows_settle(&self) -> bool
        ensures { MatchBool result (UndRowsSettle (likely self.now) self.now.language.now.und)
            (HasUnsettled (likely self.now)) }
    {
        let (_, script, region) = self.language.und();
        self.settles(&(script, region)) && self.settles(&script) && self.settles(&region)
    }

    // Whether all keys settle.
    fn rows_settle(&self) -> bool
        ensures { MatchBool result (AllRowsSettle self.now) (HasUnsettled (likely self.now)) }
    {
        self.table_settles(&self.common_maps())
            && self.extended_rows_settle()
            && self.und_rows_settle()
    }

    /// Whether the maximal form of every identifier is settled: bare, and its own maximal form. It takes no memory, and
    /// looks at each row once.
    pub fn is_settled(&self) -> bool
        ensures { IsTrue result ↔ AreSettled (likely self.now) }
    {
        self.rows_settle()
    }
}
