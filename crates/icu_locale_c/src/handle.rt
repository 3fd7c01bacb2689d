//! What C holds: a pointer to tables and what is kept beside them, or null.
ghost use Rattle.std.specs.Prelude.{◌≡◌, Option, None, Some, IfOk, IfErr};
ghost use Rattle.std.specs.Option.{MatchOption};
ghost use Rattle.icu_locale_c.specs.Handle.{handle_owns, held_coded};
ghost use Rattle.icu_locale_lines.specs.Held.{Held};

use crate::loose::Loose;
use crate::refusal::Refusal;
use crate::shared::Shared;
use std::alloc::Global;
use std::marker::Model;
use std::mem::replace;
use std::ptr::null_mut;

#[repr(C)]
pub struct Handle {
    at: *mut u8,
    alloc: Global,
    pub ghost held: { Option Held } by { held_coded },
}

impl Model for Handle {
    ghost also_owns = { λ h. handle_owns h.alloc h.at h.held };
}

impl Handle {
    pub fn empty(alloc: Global) -> Handle
        ensures { result.held ≡ None }
    {
        Handle {
            at: null_mut(),
            alloc,
        }
    }

    pub fn of(shared: Box<Shared>) -> Handle
        ensures { result.held ≡ Some shared.value }
    {
        Handle::of_loose(Loose::of(shared))
    }

    pub fn into_box(self) -> Option<Box<Shared>>
        ensures { MatchOption result (self.held ≡ None) (λ b. self.held ≡ Some b.value) }
    {
        match self.into_loose() {
            Some(loose) => Some(loose.into_box()),
            None => None,
        }
    }

    // What it holds, which leaves the handle empty.
    pub fn take(&mut self, alloc: Global) -> Result<Box<Shared>, Refusal>
        ensures taken { IfOk result (λ b. self.old.held ≡ Some b.value) }
        ensures empty { IfErr result (λ e. (e ≡ Refusal.Closed) × (self.old.held ≡ None)) }
        ensures after { self.new.held ≡ None }
    {
        replace(self, Handle::empty(alloc))
            .into_box()
            .ok_or(Refusal::Closed)
    }

    fn of_loose(loose: Loose<Shared, Global>) -> Handle
        ensures { result.held ≡ Some loose.value }
    {
        let Loose { at, alloc } = loose;
        Handle {
            at: at as *mut u8,
            alloc,
        }
    }

    fn into_loose(self) -> Option<Loose<Shared, Global>>
        ensures { MatchOption result (self.held ≡ None) (λ l. self.held ≡ Some l.value) }
    {
        let Handle { at, alloc } = self;
        if at.is_null() {
            None
        } else {
            Some(Loose {
                at: at as *mut Shared,
                alloc,
            })
        }
    }
}

impl Drop for Handle {
    fn drop(self) {
        drop(self.into_box());
    }
}

unsafe impl Send for Handle {}
