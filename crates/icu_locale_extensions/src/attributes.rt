//! The attributes of the Unicode extension.
ghost use Rattle.std.specs.Prelude.{◌≡◌, ◌↔◌, [], ◌∷◌, not, filter, true, IsTrue, IsOk, IfOk, IfErr, OnOk, OnErr, List, ℕ, nat_eq};
ghost use Rattle.std.specs.Cmp.{partial_equiv_from_equiv, nat_eq_equiv};
ghost use Rattle.std.specs.Cmp.Lexicographic.{pointwise, lists_equiv};
ghost use Rattle.std.specs.List.{All};
ghost use Rattle.icu_locale_core.specs.Subtag.{IsSubtag};
ghost use Rattle.icu_locale_core.specs.TextSet.{rising, from_list};
ghost use Rattle.icu_locale_core.specs.laws.Identifiers.{same_text};
ghost use Rattle.icu_locale_core.specs.laws.TextSets.{is_among};
ghost use Rattle.icu_locale_extensions.specs.Attributes.{AreAttributes};

use icu_locale_core::{ParseError, Subtag};
use std::alloc::Global;
use std::collections::{BTreeSet, btree_set};
use std::fmt;
use std::marker::Model;

/// The attributes of the Unicode extension (attribute of UTS #35, section 3.6.1): a set.
///
/// A contract sees their rising list. Only `insert` and `try_clone` take memory.
pub struct Attributes {
    set: BTreeSet<Subtag>,
    alloc: Global,
}

impl Model for Attributes {
    ghost Value = { List (List ℕ) };

    ghost view = { λ a. a.set.keys };

    ghost invariant = { λ a. All IsSubtag a.set.keys };
}

impl Attributes {
    /// The set without attributes.
    pub fn new(alloc: Global) -> Self
        ensures { result ≡ [] }
    {
        Attributes {
            set: BTreeSet::new(alloc),
            alloc,
        }
    }

    /// Whether there are none.
    pub fn is_empty(&self) -> bool
        ensures { IsTrue result ↔ (self.now ≡ []) }
    {
        self.set.is_empty()
    }

    /// Whether the attribute is one of them.
    pub fn contains(&self, attribute: &Subtag) -> bool
        ensures { result ≡ is_among attribute.now self.now }
    {
        self.set.contains(attribute)
    }

    /// Puts an attribute in, and tells whether it is new. One that is there takes no memory.
    ///
    /// # Errors
    ///
    /// `Memory` where the set could not grow. It is unchanged then.
    pub fn insert(&mut self, attribute: Subtag) -> Result<bool, ParseError>
        ensures members { OnOk result (self.new ≡ rising (from_list (attribute ∷ self.old))) }
        ensures fresh { IfOk result (λ is_new. is_new ≡ not (is_among attribute self.old)) }
        ensures refused { IfErr result (λ e. e ≡ ParseError.Memory) }
        ensures unchanged { OnErr result (self.new ≡ self.old) }
        ensures present { is_among attribute self.old ≡ true → IsOk result }
    {
        let _ = attribute.as_str();
        Ok(self.set.insert(attribute)?)
    }

    /// Takes an attribute out, and tells whether it was there.
    pub fn remove(&mut self, attribute: &Subtag) -> bool
        ensures was_there { result ≡ is_among attribute.now self.old }
        ensures members { self.new ≡ filter (λ t. not (same_text t attribute.now)) self.old }
    {
        let _ = self.set.len();
        self.set.remove(attribute)
    }

    /// The attributes in rising order.
    pub fn iter(&self) -> btree_set::Iter<'_, Subtag>
        ensures { result ≡ self.now }
    {
        self.set.iter()
    }

    /// Nothing, but that they are subtags that rise.
    pub fn known(&self)
        ensures { AreAttributes self.now }
    {
        let _ = self.set.len();
    }

    /// An equal set. Without attributes it takes no memory.
    ///
    /// # Errors
    ///
    /// `Memory` where the attributes could not be copied.
    pub fn try_clone(&self) -> Result<Self, ParseError>
        ensures same { IfOk result (λ s. s ≡ self.now) }
        ensures refused { IfErr result (λ e. e ≡ ParseError.Memory) }
        ensures free { self.now ≡ [] → IsOk result }
    {
        if self.set.is_empty() {
            return Ok(Attributes::new(self.alloc));
        }
        Ok(Attributes {
            set: self.set.clone()?,
            alloc: self.alloc,
        })
    }
}

// Written out, so that a caller drops it by one call at each exit.
impl Drop for Attributes {
    fn drop(self) {
        let Attributes { set: _, alloc: _ } = self;
    }
}

impl PartialEq for Attributes {
    ghost eq = { pointwise (pointwise nat_eq) };

    ghost laws = { partial_equiv_from_equiv (lists_equiv (lists_equiv nat_eq_equiv)) };

    fn eq(&self, other: &Self) -> bool {
        self.set == other.set
    }
}

impl Eq for Attributes {
    ghost laws = { lists_equiv (lists_equiv nat_eq_equiv) };
}

impl fmt::Debug for Attributes {
    fn fmt<W: fmt::Write>(&self, f: &mut fmt::Formatter<W>) -> fmt::Result {
        fmt::Debug::fmt(&self.set, f)
    }
}
