//! Directions, by the likely script.
use crate::fault::Fault;
use crate::likely::{Row, maximal};
use crate::numbers::{Drawn, Numbers};
use crate::plain::{Plain, everyone};
use crate::report::Report;
use crate::subtags::Subtags;
use icu_locale::{Direction, LocaleDirectionality};
use icu_locale_core::Script;
use icu_provider::{DataError, ScriptDirection};
use std::alloc::Global;

/// Which of the scripts run which way; a script may run both ways, or neither.
#[derive(Clone, Copy)]
pub struct Ways {
    left_to_right: [bool; 3],
    right_to_left: [bool; 3],
}

impl Drawn for Ways {
    fn draw(numbers: &mut Numbers, subtags: &Subtags) -> Ways {
        Ways {
            left_to_right: Drawn::draw(numbers, subtags),
            right_to_left: Drawn::draw(numbers, subtags),
        }
    }
}

impl Ways {
    /// As the crates hold them.
    pub fn held(self, alloc: Global, subtags: &Subtags) -> Result<ScriptDirection, DataError> {
        let mut held = ScriptDirection::new(alloc);
        for script in subtags.scripts {
            let (ltr, rtl) = self.of(subtags, Some(script));
            if ltr {
                held.insert_ltr(script)?;
            }
            if rtl {
                held.insert_rtl(script)?;
            }
        }
        Ok(held)
    }

    // Whether no script runs both ways.
    fn are_disjoint(self) -> bool {
        for place in 0..3 {
            if self.left_to_right[place] && self.right_to_left[place] {
                return false;
            }
        }
        true
    }

    // Whether a script that is there runs left to right, and whether it runs right to left.
    fn of(self, subtags: &Subtags, script: Option<Script>) -> (bool, bool) {
        for place in 0..3 {
            if script == Some(subtags.scripts[place]) {
                return (self.left_to_right[place], self.right_to_left[place]);
            }
        }
        (false, false)
    }
}

// Left to right comes first.
fn direction(ltr: bool, rtl: bool) -> Option<Direction> {
    if ltr {
        Some(Direction::LeftToRight)
    } else if rtl {
        Some(Direction::RightToLeft)
    } else {
        None
    }
}

fn compare_direction(
    alloc: Global,
    report: &mut Report,
    directionality: &LocaleDirectionality<'_>,
    subtags: &Subtags,
    x: &Plain,
    (ltr, rtl): (bool, bool),
) -> Result<(), Fault> {
    let id = x.held(alloc, subtags)?;
    let is_so = directionality.get(&id) == direction(ltr, rtl);
    report.see(is_so, "get", x);
    let is_so = directionality.is_left_to_right(&id) == ltr;
    report.see(is_so, "is_left_to_right", x);
    let is_so = directionality.is_right_to_left(&id) == rtl;
    report.see(is_so, "is_right_to_left", x);
    Ok(())
}

fn compare_everyone(
    alloc: Global,
    report: &mut Report,
    directionality: &LocaleDirectionality<'_>,
    (rows, subtags): (&[Row], &Subtags),
    ways: Ways,
    variants: u8,
) -> Result<(), Fault> {
    for x in everyone(subtags, variants) {
        let runs = ways.of(subtags, maximal(rows, subtags, &x).script);
        compare_direction(alloc, report, directionality, subtags, &x, runs)?;
    }
    Ok(())
}

/// The calls of a directionality at everyone.
pub fn compare_directions(
    alloc: Global,
    report: &mut Report,
    directionality: &LocaleDirectionality<'_>,
    rows: &[Row],
    subtags: &Subtags,
    ways: Ways,
) -> Result<(), Fault> {
    let is_so = directionality.is_disjoint() == ways.are_disjoint();
    report.see(
        is_so,
        "is_disjoint",
        &Plain::of_language(subtags.languages[0]),
    );
    for variants in 0..8 {
        compare_everyone(
            alloc,
            report,
            directionality,
            (rows, subtags),
            ways,
            variants,
        )?;
    }
    Ok(())
}
