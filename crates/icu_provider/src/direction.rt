//! Which way scripts run.
ghost use Rattle.std.specs.Prelude.{◌≡◌, []};
ghost use Rattle.icu_locale_core.specs.TextSet.{text_cmp};
ghost use Rattle.icu_provider.specs.SortedMaps.{Inserts, is_listed};

use crate::{DataError, NotedMap};
use icu_locale_core::Script;
use std::alloc::Global;

/// Two sets of scripts: those that run from right to left, and those that run from left to right. They may share
/// scripts. Only a call that puts one takes memory.
#[derive(Debug)]
pub struct ScriptDirection {
    /// The scripts from right to left.
    pub rtl: NotedMap<Script, ()>,
    /// The scripts from left to right.
    pub ltr: NotedMap<Script, ()>,
}

impl Drop for ScriptDirection {
    fn drop(self) {
        let ScriptDirection { rtl: _, ltr: _ } = self;
    }
}

impl ScriptDirection {
    /// No script in either set.
    pub fn new(alloc: Global) -> Self
        ensures { result ≡ record { rtl = []; ltr = [] } }
    {
        ScriptDirection {
            rtl: NotedMap::new(alloc),
            ltr: NotedMap::new(alloc),
        }
    }

    /// Adds a script to those from right to left. One that is there takes no memory.
    ///
    /// # Errors
    ///
    /// `Memory`, only for a script that is not there yet, where memory for it was refused: both sets are unchanged then.
    pub fn insert_rtl(&mut self, script: Script) -> Result<(), DataError>
        ensures table { self.new ≡ record self.old { rtl = self.new.rtl } }
        ensures insert { Inserts text_cmp self.old.rtl self.new.rtl script tt result }
    {
        self.rtl.insert(script, ())
    }

    /// Adds a script to those from left to right. One that is there takes no memory.
    ///
    /// # Errors
    ///
    /// `Memory`, only for a script that is not there yet, where memory for it was refused: both sets are unchanged then.
    pub fn insert_ltr(&mut self, script: Script) -> Result<(), DataError>
        ensures table { self.new ≡ record self.old { ltr = self.new.ltr } }
        ensures insert { Inserts text_cmp self.old.ltr self.new.ltr script tt result }
    {
        self.ltr.insert(script, ())
    }

    /// Whether a script is one of those from right to left.
    pub fn is_rtl(&self, script: Script) -> bool
        ensures { result ≡ is_listed self.now.rtl script }
    {
        self.rtl.get(&script).is_some()
    }

    /// Whether a script is one of those from left to right.
    pub fn is_ltr(&self, script: Script) -> bool
        ensures { result ≡ is_listed self.now.ltr script }
    {
        self.ltr.get(&script).is_some()
    }
}
