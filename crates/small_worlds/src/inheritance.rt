//! What follows a locale in its chain, and the first locale of a chain, as locale fallback is defined.
use crate::likely::{Row, maximal};
use crate::numbers::{Drawn, Numbers};
use crate::plain::Plain;
use crate::runs::Step;
use crate::subtags::Subtags;
use icu_locale_core::{Language, Region, Script};
use icu_locale_fallback::LocaleFallbackPriority;

/// A locale and its explicit parent.
#[derive(Clone, Copy)]
pub struct ParentRow {
    pub locale: Plain,
    pub parent: Plain,
}

impl Drawn for ParentRow {
    fn draw(numbers: &mut Numbers, subtags: &Subtags) -> ParentRow {
        ParentRow {
            locale: Plain::draw(numbers, subtags).without_variants(),
            parent: Plain::draw(numbers, subtags).without_variants(),
        }
    }
}

// The locale of no language, no script and no region.
fn root() -> Plain {
    Plain::of_language(Language::UNKNOWN)
}

fn of_parts(language: Language, script: Option<Script>, region: Option<Region>) -> Plain {
    Plain {
        language,
        script,
        region,
        variants: 0,
    }
}

/// The explicit parents of one world. A later row covers an earlier one of its locale.
#[derive(Clone, Copy)]
pub struct Parents {
    pub rows: [ParentRow; 6],
}

impl Drawn for Parents {
    fn draw(numbers: &mut Numbers, subtags: &Subtags) -> Parents {
        Parents {
            rows: Drawn::draw(numbers, subtags),
        }
    }
}

impl Parents {
    // The explicit parent of a locale, if it has one.
    fn of(&self, x: &Plain) -> Option<Plain> {
        let mut parent = None;
        for row in &self.rows {
            if row.locale == *x {
                parent = Some(row.parent);
            }
        }
        parent
    }
}

/// What the chains of a world go by.
#[derive(Clone, Copy)]
pub struct Inheritance<'w> {
    pub priority: LocaleFallbackPriority,
    pub rows: &'w [Row],
    pub parents: &'w Parents,
    pub subtags: &'w Subtags,
}

impl Step<Plain> for Inheritance<'_> {
    // Nothing follows the root. What follows another locale is its explicit parent, or else its truncation; by region no
    // explicit parent counts.
    fn next(&self, x: &Plain) -> Option<Plain> {
        if *x == root() {
            return None;
        }
        if self.priority == LocaleFallbackPriority::Region {
            return Some(self.truncated_by_region(x));
        }
        match self.parents.of(x) {
            Some(parent) => Some(parent),
            None => Some(self.truncated(x)),
        }
    }
}

impl Inheritance<'_> {
    fn maximal(&self, x: &Plain) -> Plain {
        maximal(self.rows, self.subtags, x)
    }

    // The script that a language and a region have in the maximal form.
    fn script_of(&self, language: Language, region: Option<Region>) -> Option<Script> {
        self.maximal(&of_parts(language, None, region)).script
    }

    /// The first locale of a chain: with no subtag that is unknown, and without the script that its language and region
    /// have. By region the region of the maximal form comes first.
    pub fn normal(&self, x: &Plain) -> Plain {
        let region = match self.priority {
            LocaleFallbackPriority::Region => self.maximal(x).region,
            _ => x.region,
        };
        let bare = of_parts(x.language, x.script, region).bare(self.subtags);
        let implied = self.script_of(bare.language, bare.region);
        if bare.script == implied {
            of_parts(bare.language, None, bare.region)
        } else {
            bare
        }
    }

    // The script of a locale of a known language that names none, where it has another without its region.
    fn script_by_region(&self, x: &Plain) -> Option<Script> {
        if x.script.is_some() || x.language.is_unknown() {
            return None;
        }
        let with = self.script_of(x.language, x.region);
        let without = self.script_of(x.language, None);
        if with == without { None } else { with }
    }

    /// By language the locale under which a table keeps what it says of a locale: the normal form, with the script where the
    /// region decides it.
    pub fn key(&self, x: &Plain) -> Plain {
        let normal = self.normal(x);
        let script = normal.script.or(self.script_by_region(&normal));
        of_parts(normal.language, script, normal.region)
    }

    // The region goes, after a script that it decides was put in; then a script that the language has anyway; then by
    // language all, and by script the language, and at last the script.
    fn truncated(&self, x: &Plain) -> Plain {
        let by_script = self.priority == LocaleFallbackPriority::Script;
        let script_alone = of_parts(Language::UNKNOWN, self.maximal(x).script, None);
        match (x.script, x.region) {
            (_, Some(_)) if by_script && x.language.is_unknown() => script_alone,
            (None, None) if by_script && !x.language.is_unknown() => script_alone,
            (Some(_), None) if by_script && x.language.is_unknown() => root(),
            (_, Some(_)) => self.above_region(x),
            (None, None) => root(),
            (script, None) if self.script_of(x.language, None) == script => {
                Plain::of_language(x.language)
            }
            (Some(_), None) if by_script => script_alone,
            (Some(_), None) => root(),
        }
    }

    fn above_region(&self, x: &Plain) -> Plain {
        match self.script_by_region(x) {
            Some(script) => of_parts(x.language, Some(script), x.region),
            None => of_parts(x.language, x.script, None),
        }
    }

    // The language and the script go, and then the region.
    fn truncated_by_region(&self, x: &Plain) -> Plain {
        let region_alone = of_parts(Language::UNKNOWN, None, x.region);
        if *x == region_alone {
            root()
        } else {
            region_alone
        }
    }
}
