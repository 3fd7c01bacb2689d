//! A settings menu of names, with raw parts marked.
ghost use Rattle.std.specs.Prelude.{◌≡◌, ◌⊎◌, ◌++◌, ◌∷◌, [], Ok, IfOk, IfErr, OnOk};
ghost use Rattle.std.specs.List.{AllZip};
ghost use Rattle.icu_locale_names.specs.LanguageNames.{in_locale};
ghost use Rattle.uses.specs.Menu.{IsLineFor, IsFirstRefusal, Shows};

use icu_locale_core::LanguageIdentifier;
use icu_locale_names::{
    DisplayNamesPreferences, LanguageIdentifierDisplayName, LanguageIdentifierDisplayNameOptions,
    NameWriteError,
};
use icu_provider::{DataError, DataProvider};
use std::alloc::Global;

/// A line of a menu.
#[derive(Debug, Drop)]
pub struct MenuLine {
    /// The name, in bytes.
    pub text: Vec<u8>,
    /// Where each raw subtag begins and ends in it, in order.
    pub raw: Vec<(usize, usize)>,
}

/// Why there is no line.
#[derive(Clone, Copy, Debug, PartialEq, Eq)]
pub enum MenuError {
    /// The provider refused a name.
    Refused(DataError),
    /// The name was not written.
    Unwritten(NameWriteError),
}

/// The lines of a menu: that of each identifier, in order.
///
/// # Errors
///
/// The error of the first identifier that has no line, or `Unwritten` where there was no room for the lines.
pub fn menu_lines<P: DataProvider>(
    alloc: Global,
    provider: &P,
    preferences: &DisplayNamesPreferences,
    subjects: &[LanguageIdentifier],
) -> Result<Vec<MenuLine>, MenuError>
    ensures lines { IfOk result (λ lines. AllZip (λ x line.
        IsLineFor (in_locale (P.name provider.now) (P.menu provider.now)
        (P.essentials provider.now) preferences.now.locale) x (Ok line))
        subjects.now lines.items) }
    ensures refused { IfErr result (λ e. (e ≡ MenuError.Unwritten NameWriteError.Memory)
        ⊎ IsFirstRefusal (in_locale (P.name provider.now) (P.menu provider.now)
        (P.essentials provider.now) preferences.now.locale) subjects.now e) }
{
    let mut lines = Vec::new(alloc);
    for subject in subjects {
        let line = menu_line(alloc, provider, *preferences, subject)?;
        push_line(&mut lines, line)?;
    }
    Ok(lines)
}

/// The line of an identifier: its name in the language of the preferences, and where raw subtags are in it.
///
/// # Errors
///
/// `Refused` exactly where the name is refused, and `Unwritten` where there was no room for the line.
pub fn menu_line<P: DataProvider>(
    alloc: Global,
    provider: &P,
    preferences: DisplayNamesPreferences,
    subject: &LanguageIdentifier,
) -> Result<MenuLine, MenuError>
    ensures { IsLineFor (in_locale (P.name provider.now) (P.menu provider.now)
        (P.essentials provider.now) preferences.locale) subject.now result }
{
    let options = LanguageIdentifierDisplayNameOptions::default();
    match LanguageIdentifierDisplayName::try_new_light_unstable(
        alloc,
        provider,
        preferences,
        subject,
        options,
    ) {
        Ok(name) => line_of(alloc, &name),
        Err(refusal) => Err(MenuError::Refused(refusal)),
    }
}

// The line of a name.
fn line_of(alloc: Global, name: &LanguageIdentifierDisplayName<'_>) -> Result<MenuLine, MenuError>
    ensures { Shows name.now result }
{
    let mut text: Vec<u8> = Vec::new(alloc);
    let mut raw = Vec::new(alloc);
    match name.as_borrowed().try_write_to_parts(&mut text, &mut raw) {
        Ok(_) => Ok(MenuLine { text, raw }),
        Err(refusal) => Err(MenuError::Unwritten(refusal)),
    }
}

// One line more.
fn push_line(lines: &mut Vec<MenuLine>, line: MenuLine) -> Result<(), MenuError>
    ensures pushed { OnOk result (lines.new.items ≡ lines.old.items ++ line ∷ []) }
    ensures refused { IfErr result (λ e. e ≡ MenuError.Unwritten NameWriteError.Memory) }
{
    match lines.push(line) {
        Ok(()) => Ok(()),
        Err(_) => Err(MenuError::Unwritten(NameWriteError::Memory)),
    }
}
