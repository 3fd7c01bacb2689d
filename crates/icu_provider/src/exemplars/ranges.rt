//! Sets of characters, as inversion lists.
ghost use Rattle.std.specs.Prelude.{◌≡◌, ◌↔◌, ◌%◌, length, nat_le, IsOk, IfOk, IfErr};
ghost use Rattle.icu_provider.specs.InversionList.{IsInversionList, has_character, is_inversion_list};
ghost use Rattle.icu_provider.specs.declared.error.DataErrorKind.TheVariants.{InvalidRequest};
ghost use Rattle.icu_provider.specs.inner.Places.{IsPlace};

use crate::{DataError, DataErrorKind};
use std::marker::Model;

/// A set of characters as an inversion list: rising bounds, two by two, where each first one is in and each second one
/// is not. No call here takes memory.
#[derive(Debug)]
pub struct CharacterRanges {
    bounds: Vec<u32>,
}

impl Drop for CharacterRanges {
    fn drop(self) {
        let CharacterRanges { bounds: _ } = self;
    }
}

impl Model for CharacterRanges {
    ghost use Rattle.std.specs.Prelude.{List, ℕ};
    ghost use Rattle.icu_provider.specs.InversionList.{IsInversionList};

    ghost Value = { List ℕ };

    ghost view = { λ r. r.bounds.items };

    ghost invariant = { λ r. IsInversionList r.bounds.items };
}

impl CharacterRanges {
    /// The set of an inversion list.
    ///
    /// # Errors
    ///
    /// `InvalidRequest` exactly where the bounds do not rise, are not even in number, or pass 0x110000.
    pub fn try_new(bounds: Vec<u32>) -> Result<Self, DataError>
        ensures accepted { IsOk result ↔ IsInversionList bounds.items }
        ensures bounds { IfOk result (λ ranges. ranges ≡ bounds.items) }
        ensures refused { IfErr result (λ e. e.kind ≡ InvalidRequest) }
    {
        if is_inversion_list(&bounds) {
            Ok(CharacterRanges { bounds })
        } else {
            Err(DataError {
                kind: DataErrorKind::InvalidRequest,
            })
        }
    }

    /// Whether some pair of bounds has the character, found by binary search.
    pub fn contains(&self, character: char) -> bool
        ensures { result ≡ has_character self.now character }
    {
        let place = self.passed(character as u32);
        place % 2 == 1
    }

    // How many bounds are not above the character.
    fn passed(&self, character: u32) -> usize
        ensures place { IsPlace character self.now result }
        ensures even { length self.now % 2 ≡ 0 }
    {
        self.bounds.as_slice().partition_point(
            |bound: &u32| -> bool
                ensures { result ≡ nat_le bound.now character }
            { *bound <= character },
        )
    }
}

const LIMIT: u32 = 0x110000;

// Whether the bounds are an inversion list.
fn is_inversion_list(bounds: &[u32]) -> bool
    ensures { result ≡ is_inversion_list bounds.now }
{
    let mut least = 0;
    for bound in bounds {
        if *bound < least || *bound > LIMIT {
            return false;
        }
        least = *bound + 1;
    }
    bounds.len() % 2 == 0
}
