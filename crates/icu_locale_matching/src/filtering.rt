//! What ranges cover (RFC 4647, section 3.3.1, basic filtering, where variants are a set).
ghost use Rattle.std.specs.Prelude.{◌≡◌, ◌++◌, ◌∷◌, ◌&&◌, List, ℕ, not, map, IfOk};
ghost use Rattle.std.specs.List.{list_any};
ghost use Rattle.std.specs.Option.{option_to_list};
ghost use Rattle.icu_locale_matching.specs.Service.{subtags_of, begins, covers, is_covered, is_allowed, allowed};

use icu_locale_core::{Language, LanguageIdentifier, Region, Script};
use std::alloc::{AllocError, Global};
use std::marker::Model;

// The subtags that are left of an identifier without variants.
#[derive(Debug, Drop)]
struct Subtags {
    language: Option<Language>,
    script: Option<Script>,
    region: Option<Region>,
}

impl Model for Subtags {
    ghost Value = { List (List ℕ) };

    ghost view = { λ s. option_to_list s.language ++ (option_to_list s.script
        ++ option_to_list s.region) };
}

// Which identifiers may be served.
pub(crate) fn allowed(
    alloc: Global,
    requests: &[LanguageIdentifier],
    out: &[LanguageIdentifier],
    named: bool,
    identifiers: &[LanguageIdentifier],
) -> Result<Vec<bool>, AllocError>
    ensures { IfOk result
        (λ may. may.items ≡ allowed requests.now out.now named identifiers.now) }
{
    identifiers
        .iter()
        .map(|id| is_allowed(requests, out, named, id))
        .collect(alloc)
}

// Whether no refused range covers an identifier, and a wanted one does, where it is to be named.
fn is_allowed(
    requests: &[LanguageIdentifier],
    out: &[LanguageIdentifier],
    named: bool,
    id: &LanguageIdentifier,
) -> bool
    ensures { result ≡ is_allowed requests.now out.now named id.now }
{
    !is_covered(out, id) && (!named || is_covered(requests, id))
}

fn is_covered(ranges: &[LanguageIdentifier], id: &LanguageIdentifier) -> bool
    ensures { result ≡ is_covered ranges.now id.now }
{
    ranges.iter().any(|range| covers(range, id))
}

fn covers(range: &LanguageIdentifier, id: &LanguageIdentifier) -> bool
    ensures { result ≡ covers range.now id.now }
{
    begins(range, id) && range.variants.is_subset(&id.variants)
}

// Whether the language, the script and the region of a range begin those of an identifier.
fn begins(range: &LanguageIdentifier, id: &LanguageIdentifier) -> bool
    ensures { result ≡ begins (subtags_of range.now) (subtags_of id.now) }
{
    let mut rest = Subtags::of(id);
    if !rest.takes(range.language.as_str()) {
        return false;
    }
    if !rest.takes_script(&range.script) {
        return false;
    }
    rest.takes_region(&range.region)
}

impl Subtags {
    // The language, the script and the region of an identifier.
    fn of(id: &LanguageIdentifier) -> Self
        ensures { result ≡ subtags_of id.now }
    {
        Subtags {
            language: Some(id.language),
            script: id.script,
            region: id.region,
        }
    }

    // Takes the next subtag, and tells whether it is a text.
    fn takes(&mut self, text: &str) -> bool
        ensures { (ps : List (List ℕ)) → begins (text.now ∷ ps) self.old
            ≡ (result && begins ps self.new) }
    {
        if let Some(language) = self.language {
            self.language = None;
            return language.as_str() == text;
        }
        if let Some(script) = self.script {
            self.script = None;
            return script.as_str() == text;
        }
        if let Some(region) = self.region {
            self.region = None;
            return region.as_str() == text;
        }
        false
    }

    // The same of a script that there may be.
    fn takes_script(&mut self, script: &Option<Script>) -> bool
        ensures { (ps : List (List ℕ)) → begins (option_to_list script.now ++ ps) self.old
            ≡ (result && begins ps self.new) }
    {
        match script {
            Some(script) => self.takes(script.as_str()),
            None => true,
        }
    }

    // Whether what is left begins with a region that there may be.
    fn takes_region(&mut self, region: &Option<Region>) -> bool
        ensures { result ≡ begins (option_to_list region.now) self.old }
    {
        match region {
            Some(region) => self.takes(region.as_str()),
            None => true,
        }
    }
}
