//! Objects of fixed members.
ghost use Rattle.std.specs.Prelude.{◌≡◌, Some, None, Ok};
ghost use Rattle.serde_json.specs.Find.{get};
ghost use Rattle.serde_json.specs.View.{view};
ghost use Rattle.icu_tables.specs.Fields.{said_or, is_name_listed, has_only, present};
ghost use Rattle.icu_tables.specs.inner.Members.{GoesOn, or_refusal};
ghost use Rattle.icu_tables.specs.inner.Reads.{Accepts, Fills, Reads, texts_of};

use crate::TableError;
use crate::from_json::values::FromValue;
use serde_json::Value;
use std::alloc::Global;

// Nothing, where the value is an object with no member but those of these names.
pub(crate) fn only_members(value: &Value, names: &[&str]) -> Result<(), TableError>
    ensures { Accepts result (has_only (texts_of names.now) (view value.now)) }
{
    let Some(members) = value.as_object() else {
        return Err(TableError::Shape);
    };
    for name in members.keys() {
        if !is_known(names, name.as_str()) {
            return Err(TableError::Shape);
        }
    }
    Ok(())
}

// Whether the name is one of these.
fn is_known(names: &[&str], name: &str) -> bool
    ensures { result ≡ is_name_listed (texts_of names.now) name.now }
{
    names.contains(&name)
}

// What a member says that has to be there.
pub(crate) fn required<T: FromValue>(
    alloc: Global,
    object: &Value,
    name: &str,
) -> Result<T, TableError>
    ensures { Reads T.seen result (said_or None T.shape (get name.now (view object.now))) }
{
    match object.get(name) {
        Some(value) => T::from_value(alloc, value),
        None => Err(TableError::Shape),
    }
}

// Puts what a member says in the place of what stands for it where it is absent.
fn fill<T: FromValue>(
    alloc: Global,
    object: &Value,
    name: &str,
    target: &mut T,
) -> Result<(), TableError>
    ensures { let found = get name.now (view object.now) in
        Fills result (T.seen target.new) (said_or (Some (T.seen target.old)) T.shape found) }
{
    if let Some(value) = object.get(name) {
        *target = T::from_value(alloc, value)?;
    }
    Ok(())
}

// Members of an object, read one after another. After a refusal no more is read.
#[derive(Drop)]
pub(crate) struct MemberReader<'v> {
    pub(crate) alloc: Global,
    pub(crate) object: &'v Value,
    pub(crate) outcome: Result<(), TableError>,
}

impl<'v> MemberReader<'v> {
    // Nothing was read yet.
    pub(crate) fn of(alloc: Global, object: &'v Value) -> MemberReader<'v>
        ensures object { result.object.now ≡ object.now }
        ensures outcome { result.outcome ≡ Ok tt }
    {
        MemberReader {
            alloc,
            object,
            outcome: Ok(()),
        }
    }

    // Fills a place with what the next member says.
    pub(crate) fn fill<T: FromValue>(mut self, name: &str, target: &mut T) -> MemberReader<'v>
        ensures { GoesOn self.entry result (T.seen target.new)
            (λ object. said_or (Some (T.seen target.old)) T.shape (get name.now object)) }
    {
        if self.outcome.is_ok() {
            self.outcome = fill(self.alloc, self.object, name, target);
        }
        self
    }

    // The table that was filled, or the refusal.
    pub(crate) fn finish<T: Drop>(self, table: T) -> Result<T, TableError>
        ensures { result ≡ or_refusal self.entry.outcome table }
    {
        match self.outcome {
            Ok(()) => Ok(table),
            Err(refusal) => Err(refusal),
        }
    }
}

// A member that may be left out.
impl<T: FromValue> FromValue for Option<T> {
    ghost use Rattle.std.specs.Prelude.{Option, option_map};

    ghost Seen = { Option T.Seen };

    ghost seen = { λ o. option_map T.seen o };

    ghost shape = { present T.shape };

    fn from_value(alloc: Global, value: &Value) -> Result<Self, TableError> {
        Ok(Some(T::from_value(alloc, value)?))
    }
}
