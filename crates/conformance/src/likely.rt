//! Likely subtags, settled tables and directions.
use crate::fault::Fault;
use crate::texts::written;
use crate::world::World;
use icu_locale::{Direction, TransformResult};
use icu_locale_core::LanguageIdentifier;
use std::alloc::Global;

/// A call of an expander or a directionality on one identifier.
#[derive(Clone, Copy)]
pub enum Likely {
    /// `maximize`
    Maximize,
    /// `minimize`
    Minimize,
    /// `minimize_favor_script`
    MinimizeScript,
    /// `get_likely_script`
    Script,
    /// `LocaleDirectionality::get`
    Direction,
    /// `is_right_to_left`
    RightToLeft,
    /// `is_left_to_right`
    LeftToRight,
}

/// The answer of a call to a text.
pub fn answer(alloc: Global, world: &World, call: Likely, text: &[u8]) -> Result<String, Fault> {
    match LanguageIdentifier::try_from_utf8(alloc, text) {
        Ok(id) => answer_identifier(alloc, world, call, id),
        Err(refusal) => written(alloc, &refusal),
    }
}

fn answer_identifier(
    alloc: Global,
    world: &World,
    call: Likely,
    id: LanguageIdentifier,
) -> Result<String, Fault> {
    match call {
        Likely::Maximize | Likely::Minimize | Likely::MinimizeScript => {
            transformed(alloc, world, call, id)
        }
        Likely::Script => likely_script(alloc, world, &id),
        _ => directed(alloc, world, call, &id),
    }
}

/// `M` or `U`.
pub fn mark(changed: TransformResult) -> char {
    match changed {
        TransformResult::Modified => 'M',
        TransformResult::Unmodified => 'U',
    }
}

fn transformed(
    alloc: Global,
    world: &World,
    call: Likely,
    mut id: LanguageIdentifier,
) -> Result<String, Fault> {
    let expander = world.expander()?;
    let changed = match call {
        Likely::Maximize => expander.maximize(&mut id),
        Likely::Minimize => expander.minimize(&mut id),
        _ => expander.minimize_favor_script(&mut id),
    };
    let mark = mark(changed);
    Ok(format!(in alloc; "{id} {mark}")?)
}

fn likely_script(alloc: Global, world: &World, id: &LanguageIdentifier) -> Result<String, Fault> {
    match world.expander()?.get_likely_script(id) {
        Some(script) => written(alloc, &script),
        None => written(alloc, &"none"),
    }
}

fn directed(
    alloc: Global,
    world: &World,
    call: Likely,
    id: &LanguageIdentifier,
) -> Result<String, Fault> {
    let directionality = world.directionality()?;
    let answer = match call {
        Likely::RightToLeft => yes_or_no(directionality.is_right_to_left(id)),
        Likely::LeftToRight => yes_or_no(directionality.is_left_to_right(id)),
        _ => name(directionality.get(id)),
    };
    written(alloc, &answer)
}

fn name(direction: Option<Direction>) -> &'static str {
    match direction {
        Some(Direction::LeftToRight) => "ltr",
        Some(Direction::RightToLeft) => "rtl",
        None => "none",
    }
}

/// `yes` or `no`.
pub fn yes_or_no(is_so: bool) -> &'static str {
    if is_so { "yes" } else { "no" }
}

/// Whether the tables are settled.
pub fn settled(alloc: Global, world: &World) -> Result<String, Fault> {
    written(alloc, &yes_or_no(world.expander()?.is_settled()))
}
