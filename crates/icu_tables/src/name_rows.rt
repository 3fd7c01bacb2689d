//! Names in two steps: first by marker and locale, and then by key.
ghost use Rattle.std.specs.Prelude.{◌≡◌, ◌==◌, ◌-◌, ◌^◌, [], length, min, MatchResult, IfErr, IfOk, IfSome, option_copied, string_bytes};
ghost use Rattle.icu_tables.specs.NamedKeys.{AreNamedKeys};
ghost use Rattle.icu_locale_core.specs.Maps.{value_at};
ghost use Rattle.icu_provider.specs.SortedMaps.{Inserts, IsSortedMap};
ghost use Rattle.icu_provider.specs.Requests.{name_cmp};
ghost use Rattle.icu_tables.specs.Groups.{RiseInGroups, flat_names, group_cmp, key_cmp, name_in_group};

use crate::LocaleNames;
use crate::named_keys::named_keys;
use icu_provider::laws::keys_are_told_apart;
use icu_provider::{
    DataError, DataErrorKind, DataLocale, NameKey, NameMarker, NotedMap, SortedMap, TableText,
};
use std::alloc::{AllocError, Global};
use std::collections::BTreeMap;
use std::marker::Model;

// The names of a marker and a locale, by key.
pub(crate) type Names = NotedMap<NameKey, TableText>;

/// Names by marker, locale and key. A marker and a locale that have names are a group with a map of its own, so that a
/// request whose marker and locale have none is answered by a look at the groups alone. A contract sees one list of
/// rows, in the order of marker, locale and key. Only `insert` takes memory.
#[derive(Debug)]
pub struct NameRows {
    groups: SortedMap<(NameMarker, DataLocale), Names>,
}

impl Drop for NameRows {
    fn drop(self) {
        let NameRows { groups: _ } = self;
    }
}

impl Model for NameRows {
    ghost use Rattle.std.specs.Prelude.{List, ℕ};
    ghost use Rattle.icu_provider.specs.declared.data_locale.DataLocale.{DataLocale};
    ghost use Rattle.icu_provider.specs.declared.names.NameKey.{NameKey};
    ghost use Rattle.icu_provider.specs.declared.names.NameMarker.{NameMarker};
    ghost use Rattle.icu_tables.specs.Groups.{RiseInGroups, flat_names, group_cmp, key_cmp};

    ghost Value = { List ((NameMarker × DataLocale × NameKey) × List ℕ) };

    ghost view = { λ m. flat_names m.groups };

    ghost invariant = { λ m. RiseInGroups group_cmp key_cmp m.groups };
}

impl NameRows {
    /// A table with no names. It takes no memory.
    pub fn new(alloc: Global) -> Self
        ensures { result ≡ [] }
    {
        NameRows {
            groups: SortedMap::new(alloc),
        }
    }

    // The names of each marker and locale that have some.
    pub(crate) fn groups(&self) -> &[((NameMarker, DataLocale), Names)]
        ensures { flat_names result.now ≡ self.now }
    {
        self.groups.as_slice()
    }

    /// How many names there are, or the largest `usize` where there are more. It asks each group once.
    pub fn len(&self) -> usize
        ensures { result ≡ min (length self.now) (2 ^ 64 - 1) }
    {
        count_of(self.groups.as_slice())
    }

    /// Whether there is no name.
    pub fn is_empty(&self) -> bool
        ensures { result ≡ (length self.now == 0) }
    {
        self.groups.is_empty()
    }

    /// The name at a marker, a locale and a key, found by binary search of the marker and the locale among the groups,
    /// and then among the names of that group alone.
    #[inline]
    pub fn get(&self, marker: NameMarker, locale: DataLocale, key: &NameKey) -> Option<&str>
        ensures { option_copied result
            ≡ value_at name_cmp self.now (marker, locale, key.now) }
    {
        Some(self.group(marker, &locale)?.get(key)?.as_str())
    }

    // The names of a marker and a locale, if there are any, found by binary search.
    #[inline]
    pub(crate) fn group(&self, marker: NameMarker, locale: &DataLocale) -> Option<&Names>
        ensures { (key : NameKey)
            → name_in_group result key ≡ value_at name_cmp self.now (marker, locale.now, key) }
    {
        self.groups.get(&(marker, *locale))
    }

    /// The keys that some of the markers names in a locale, each once, in rising order. It takes memory for them.
    ///
    /// # Errors
    ///
    /// The allocator's, where memory for the keys was refused.
    pub fn keys_in(
        &self,
        alloc: Global,
        markers: &[NameMarker],
        locale: &DataLocale,
    ) -> Result<Vec<NameKey>, AllocError>
        ensures { IfOk result (λ keys. AreNamedKeys self.now markers.now locale.now keys.items) }
    {
        named_keys(alloc, self, None, markers, locale)
    }

    // The names of a marker and a locale.
    pub(crate) fn names_of(
        &self,
        marker: NameMarker,
        locale: &DataLocale,
    ) -> &[(NameKey, TableText)]
        ensures { (key : NameKey) → value_at key_cmp result.now key
            ≡ value_at name_cmp self.now (marker, locale.now, key) }
    {
        match self.group(marker, locale) {
            Some(names) => names.as_slice(),
            None => &[],
        }
    }

    /// The same names, to be asked in one locale again and again. It takes no memory.
    pub fn in_locale(&self, locale: DataLocale) -> LocaleNames<'_>
        ensures { result ≡ self.now }
    {
        LocaleNames::new(self, None, locale)
    }

    /// Sets the name at a marker, a locale and a key. A key that is there stays and takes the name, with no memory
    /// taken; a new row goes to its place in its group, and the group's list grows once if it is full. The first row of a
    /// marker and a locale makes their group.
    ///
    /// # Errors
    ///
    /// `Memory`, only for a key that is not there yet, where memory for the row or its group was refused: the names stay
    /// as they were then, and the row is dropped.
    pub fn insert(
        &mut self,
        marker: NameMarker,
        locale: DataLocale,
        key: NameKey,
        name: String,
    ) -> Result<(), DataError>
        ensures { Inserts name_cmp self.old self.new (marker, locale, key)
            (string_bytes name) result }
    {
        let alloc = *name.allocator();
        self.put(alloc, marker, locale, key, TableText::new(name))
    }

    // Sets the name at a marker, a locale and a key, as `insert` does.
    pub(crate) fn put(
        &mut self,
        alloc: Global,
        marker: NameMarker,
        locale: DataLocale,
        key: NameKey,
        name: TableText,
    ) -> Result<(), DataError>
        ensures { Inserts name_cmp self.old self.new (marker, locale, key) name result }
    {
        keys_are_told_apart();
        let group = (marker, locale);
        match self.groups.get_mut(&group) {
            Some(names) => names.insert(key, name),
            None => {
                let names = vec![in alloc; (key, name)]?;
                self.groups
                    .insert(group, NotedMap::from_sorted(alloc, names))
            }
        }
    }

    /// Notes where the names of a marker and a locale are, so that a look-up among them takes one step for most keys, until
    /// a name is put in there. It takes memory for the notes.
    ///
    /// # Errors
    ///
    /// `Memory`, only where memory for the notes was refused.
    pub fn note(
        &mut self,
        alloc: Global,
        marker: NameMarker,
        locale: DataLocale,
    ) -> Result<(), DataError>
        ensures names { self.new ≡ self.old }
        ensures refused { IfErr result (λ e. e.kind ≡ DataErrorKind.Memory) }
    {
        let Some(names) = self.groups.get_mut(&(marker, locale)) else {
            return Ok(());
        };
        names.note(alloc)
    }

    /// Nothing, but that the keys rise, so that no request has two rows.
    pub fn known(&self)
        ensures { IsSortedMap name_cmp self.now }
    {
        let _ = &self.groups;
    }
}

// How many names are in groups.
fn count_of(groups: &[((NameMarker, DataLocale), Names)]) -> usize
    ensures { result ≡ min (length (flat_names groups.now)) (2 ^ 64 - 1) }
{
    let mut count: usize = 0;
    for group in groups {
        count = count.saturating_add(group.1.len());
    }
    count
}
