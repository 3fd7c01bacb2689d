//! Lines of what is served, and of how far identifiers are from each other.
ghost use Rattle.std.specs.Prelude.{◌≡◌, ◌<◌, length, IfOk, IfErr, IfSome, OnErr, true};
ghost use Rattle.icu_locale.specs.LikelyTable.{likely};
ghost use Rattle.icu_locale_extensions.specs.Locales.{written};
ghost use Rattle.icu_locale_matching.specs.Resolved.{resolved};
ghost use Rattle.icu_locale_matching.specs.Service.{place_of};
ghost use Rattle.icu_locale_lines.specs.Answers.{AddsLine, Keeps};
ghost use Rattle.icu_locale_lines.specs.Lists.{IsListedAnswer, IsWantedAnswer};
ghost use Rattle.icu_locale_lines.specs.Serving.{IsWishAnswer, IsServedLine, IsNearestLine, IsResolvedLine, IsDistanceLine, TellsServed, place_or_first};
ghost use Rattle.icu_locale_lines.specs.Texts.{matched_line};

use crate::answer::{add_fault, add_known, add_number, add_text};
use crate::command::{ServeTask, Wishes};
use crate::error::CliError;
use crate::work::form::Written;
use crate::work::list::{add_match, read_list};
use crate::work::offered::{Offered, ids_of, read_wanted};
use icu_locale::LocaleExpander;
use icu_locale_core::{LanguageIdentifier, ParseError};
use icu_locale_extensions::{LocaleIdentifier, Syntax};
use icu_locale_matching::laws::what_is_served_is_available;
use icu_locale_matching::{LocaleServer, Match, bring_to_resolved, distance_of};
use icu_provider::LanguageMatching;

// The answer to a line of wishes.
pub fn add_served(
    text: &mut Vec<u8>,
    server: &LocaleServer<'_>,
    offered: &Offered,
    how: ServeTask,
    syntax: Option<Syntax>,
    line: &[u8],
) -> Result<bool, CliError>
    ensures answer { IfOk result (AddsLine
        (IsWishAnswer syntax how server.now offered.now.wholes.items line.now)
        text.old.items text.new.items) }
    ensures refused { IfErr result (λ e. e ≡ CliError.Memory) }
    ensures kept { OnErr result (Keeps text.old.items text.new.items) }
{
    match how.wishes {
        Wishes::Header => add_served_for(text, server, offered, how, line),
        Wishes::Requests => add_nearest(text, server, offered, how, syntax, line),
        Wishes::Resolved => add_resolved(text, server, offered, how, syntax, line),
    }
}

// The line of what is served for a header.
fn add_served_for(
    text: &mut Vec<u8>,
    server: &LocaleServer<'_>,
    offered: &Offered,
    how: ServeTask,
    header: &[u8],
) -> Result<bool, CliError>
    ensures answer { IfOk result (AddsLine
        (IsServedLine how server.now offered.now.wholes.items header.now)
        text.old.items text.new.items) }
    ensures refused { IfErr result (λ e. e ≡ CliError.Memory) }
    ensures kept { OnErr result (Keeps text.old.items text.new.items) }
{
    what_is_served_is_available();
    match server.serve(*text.allocator(), header) {
        Ok(place) => add_place(text, server.available(), offered, how, place),
        Err(_) => Err(CliError::Memory),
    }
}

// The line of the nearest for what a line requests.
fn add_nearest(
    text: &mut Vec<u8>,
    server: &LocaleServer<'_>,
    offered: &Offered,
    how: ServeTask,
    syntax: Option<Syntax>,
    line: &[u8],
) -> Result<bool, CliError>
    ensures answer { IfOk result (AddsLine
        (IsListedAnswer syntax (IsNearestLine how server.now offered.now.wholes.items) line.now)
        text.old.items text.new.items) }
    ensures refused { IfErr result (λ e. e ≡ CliError.Memory) }
    ensures kept { OnErr result (Keeps text.old.items text.new.items) }
{
    match read_list(*text.allocator(), syntax, line) {
        Ok(requests) => add_nearest_to(text, server, offered, how, &requests),
        Err(refusal) => add_fault(text, refusal),
    }
}

// The line of the nearest for requests.
fn add_nearest_to(
    text: &mut Vec<u8>,
    server: &LocaleServer<'_>,
    offered: &Offered,
    how: ServeTask,
    requests: &[LanguageIdentifier],
) -> Result<bool, CliError>
    ensures answer { IfOk result (AddsLine
        (IsNearestLine how server.now offered.now.wholes.items requests.now)
        text.old.items text.new.items) }
    ensures refused { IfErr result (λ e. e ≡ CliError.Memory) }
    ensures kept { OnErr result (Keeps text.old.items text.new.items) }
{
    what_is_served_is_available();
    match server.nearest(*text.allocator(), requests) {
        Ok(found) => add_place(text, server.available(), offered, how, place_of(found)),
        Err(_) => Err(CliError::Memory),
    }
}

fn place_of(found: Option<Match>) -> Option<usize>
    ensures { result ≡ place_of found }
{
    match found {
        Some(found) => Some(found.available),
        None => None,
    }
}

// The line of a place, or of the first where that is asked for, if there is one.
fn add_place(
    text: &mut Vec<u8>,
    available: &[LanguageIdentifier],
    offered: &Offered,
    how: ServeTask,
    place: Option<usize>,
) -> Result<bool, CliError>
    requires { IfSome place (λ p. p < length available.now) }
    ensures answer { IfOk result (AddsLine (λ t a. TellsServed available.now
        offered.now.wholes.items (place_or_first how available.now place) t × (a ≡ true))
        text.old.items text.new.items) }
    ensures refused { IfErr result (λ e. e ≡ CliError.Memory) }
    ensures kept { OnErr result (Keeps text.old.items text.new.items) }
{
    match place {
        Some(place) => add_match(text, place, place, available, offered),
        None if how.or_first && !available.is_empty() => {
            add_match(text, 0, 0, available, offered)
        }
        None => add_known(text, "none\n", true),
    }
}

// The line of what is served, resolved, for what a line wants.
fn add_resolved(
    text: &mut Vec<u8>,
    server: &LocaleServer<'_>,
    offered: &Offered,
    how: ServeTask,
    syntax: Option<Syntax>,
    line: &[u8],
) -> Result<bool, CliError>
    ensures answer { IfOk result (AddsLine
        (IsWantedAnswer syntax (IsResolvedLine how server.now offered.now.wholes.items) line.now)
        text.old.items text.new.items) }
    ensures refused { IfErr result (λ e. e ≡ CliError.Memory) }
    ensures kept { OnErr result (Keeps text.old.items text.new.items) }
{
    match read_wanted(*text.allocator(), syntax, line) {
        Ok(mut wanted) => add_resolved_for(text, server, offered, how, &mut wanted),
        Err(refusal) => add_fault(text, refusal),
    }
}

// The line of what is served, resolved, for what is wanted.
fn add_resolved_for(
    text: &mut Vec<u8>,
    server: &LocaleServer<'_>,
    offered: &Offered,
    how: ServeTask,
    wanted: &mut Vec<LocaleIdentifier>,
) -> Result<bool, CliError>
    ensures answer { IfOk result (AddsLine
        (IsResolvedLine how server.now offered.now.wholes.items wanted.old.items)
        text.old.items text.new.items) }
    ensures refused { IfErr result (λ e. e ≡ CliError.Memory) }
    ensures kept { OnErr result (Keeps text.old.items text.new.items) }
{
    what_is_served_is_available();
    let Ok(requests) = ids_of(*text.allocator(), wanted) else {
        return Err(CliError::Memory);
    };
    match server.nearest(*text.allocator(), &requests) {
        Ok(Some(found)) => {
            let served = &server.available()[found.available];
            add_own(text, served, found.available, &mut wanted[found.request])
        }
        Ok(None) => add_place(text, server.available(), offered, how, None),
        Err(_) => Err(CliError::Memory),
    }
}

// The line of a place, and of what is served there, resolved for what is wanted.
fn add_own(
    text: &mut Vec<u8>,
    served: &LanguageIdentifier,
    place: usize,
    own: &mut LocaleIdentifier,
) -> Result<bool, CliError>
    ensures answer { IfOk result (AddsLine
        (λ t a. (t ≡ matched_line place (written (resolved served.now own.old))) × (a ≡ true))
        text.old.items text.new.items) }
    ensures refused { IfErr result (λ e. e ≡ CliError.Memory) }
    ensures kept { OnErr result (Keeps text.old.items text.new.items) }
{
    match bring_to_resolved(served, own) {
        Ok(()) => {}
        Err(_) => return Err(CliError::Memory),
    }
    add_number(text, place)?;
    add_text(text, "\t")?;
    own.add_to(text)?;
    add_text(text, "\n")?;
    Ok(true)
}

// The answer to a line of two identifiers.
pub fn add_distance(
    text: &mut Vec<u8>,
    expander: &LocaleExpander<'_>,
    matching: &LanguageMatching,
    syntax: Option<Syntax>,
    line: &[u8],
) -> Result<bool, CliError>
    ensures answer { IfOk result (AddsLine (IsListedAnswer syntax
        (IsDistanceLine matching.now (likely expander.now)) line.now)
        text.old.items text.new.items) }
    ensures refused { IfErr result (λ e. e ≡ CliError.Memory) }
    ensures kept { OnErr result (Keeps text.old.items text.new.items) }
{
    match read_list(*text.allocator(), syntax, line) {
        Ok(identifiers) => add_distance_of(text, expander, matching, &identifiers),
        Err(refusal) => add_fault(text, refusal),
    }
}

// The line of the distance of two identifiers.
fn add_distance_of(
    text: &mut Vec<u8>,
    expander: &LocaleExpander<'_>,
    matching: &LanguageMatching,
    identifiers: &[LanguageIdentifier],
) -> Result<bool, CliError>
    ensures answer { IfOk result (AddsLine (IsDistanceLine matching.now
        (likely expander.now) identifiers.now) text.old.items text.new.items) }
    ensures refused { IfErr result (λ e. e ≡ CliError.Memory) }
    ensures kept { OnErr result (Keeps text.old.items text.new.items) }
{
    match identifiers {
        [desired, supported] => {
            let far = distance_of(expander, matching, desired, supported);
            add_number(text, far as usize)?;
            add_text(text, "\n")?;
            Ok(true)
        }
        _ => add_fault(text, ParseError::InvalidSubtag),
    }
}
