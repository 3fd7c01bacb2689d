//! Rules of canonicalization, and the one turn that they make.
use crate::likely::{Row, maximal};
use crate::numbers::{Drawn, Numbers, draw_few};
use crate::plain::{MARKS, Plain};
use crate::subtags::Subtags;
use icu_locale_core::{Language, Region, Script};

/// What a rule matches, and what replaces it.
#[derive(Clone, Copy)]
pub struct Rule {
    pub source: Plain,
    pub replacement: Plain,
}

impl Drawn for Rule {
    fn draw(numbers: &mut Numbers, subtags: &Subtags) -> Rule {
        Rule {
            source: Drawn::draw(numbers, subtags),
            replacement: Drawn::draw(numbers, subtags),
        }
    }
}

/// The regions of which one replaces a region: none, one or two.
#[derive(Clone, Copy)]
pub struct Regions(pub [Option<Region>; 2]);

impl Drawn for Regions {
    fn draw(numbers: &mut Numbers, subtags: &Subtags) -> Regions {
        let [first, second]: [Region; 2] = Drawn::draw(numbers, subtags);
        match numbers.place() {
            0 => Regions([None, None]),
            1 => Regions([Some(first), None]),
            _ => Regions([Some(first), Some(second)]),
        }
    }
}

/// One variant, as a set.
#[derive(Clone, Copy, PartialEq, Eq)]
pub struct Mark(pub u8);

impl Drawn for Mark {
    fn draw(numbers: &mut Numbers, _subtags: &Subtags) -> Mark {
        Mark(numbers.one_of(&MARKS))
    }
}

/// The rules of one world. In a map the last row with a key counts.
#[derive(Drop)]
pub struct Rules {
    pub language_variants: [Option<Rule>; 2],
    pub language: [Option<Rule>; 2],
    pub sgn_region: [Option<(Region, Language)>; 2],
    pub language_len2: [Option<(Language, Plain)>; 2],
    pub language_len3: [Option<(Language, Plain)>; 2],
    pub script: [Option<(Script, Script)>; 2],
    pub region_alpha: [Option<(Region, Region)>; 2],
    pub region_num: [Option<(Region, Region)>; 2],
    pub complex_region: [Option<(Region, Regions)>; 2],
    pub variant: [Option<(Mark, Mark)>; 2],
}

// Few of each kind, so that many runs end.
impl Drawn for Rules {
    fn draw(numbers: &mut Numbers, subtags: &Subtags) -> Rules {
        Rules {
            language_variants: of_variants(draw_few(numbers, subtags)),
            language: draw_few(numbers, subtags),
            sgn_region: draw_few(numbers, subtags),
            language_len2: draw_few(numbers, subtags),
            language_len3: draw_few(numbers, subtags),
            script: draw_few(numbers, subtags),
            region_alpha: draw_few(numbers, subtags),
            region_num: draw_few(numbers, subtags),
            complex_region: draw_few(numbers, subtags),
            variant: draw_few(numbers, subtags),
        }
    }
}

// Rules whose sources have a language and variants alone.
fn of_variants(mut rules: [Option<Rule>; 2]) -> [Option<Rule>; 2] {
    for row in &mut rules {
        if let Some(rule) = row {
            rule.source.script = None;
            rule.source.region = None;
        }
    }
    rules
}

// The value of a key.
fn value<K: PartialEq + Copy, V: Copy>(rows: &[Option<(K, V)>; 2], key: K) -> Option<V> {
    let mut value = None;
    for row in rows {
        if let Some(row) = row {
            if row.0 == key {
                value = Some(row.1);
            }
        }
    }
    value
}

fn fits<T: PartialEq + Copy>(rule: Option<T>, source: Option<T>) -> bool {
    rule.is_none() || rule == source
}

/// Whether a rule matches an identifier.
pub fn matches(x: &Plain, rule: &Plain) -> bool {
    (rule.language.is_unknown() || rule.language == x.language)
        && fits(rule.script, x.script)
        && fits(rule.region, x.region)
        && rule.variants & !x.variants == 0
}

fn part<T: Drop>(x: Option<T>, rule: Option<T>, replacement: Option<T>) -> Option<T> {
    if rule.is_some() {
        replacement
    } else {
        x.or(replacement)
    }
}

/// What a rule and its replacement make of an identifier.
pub fn replaced(x: &Plain, rule: &Plain, replacement: &Plain) -> Plain {
    let is_given = !rule.language.is_unknown()
        || (x.language.is_unknown() && !replacement.language.is_unknown());
    Plain {
        language: if is_given {
            replacement.language
        } else {
            x.language
        },
        script: part(x.script, rule.script, replacement.script),
        region: part(x.region, rule.region, replacement.region),
        variants: (x.variants & !rule.variants) | replacement.variants,
    }
}

// A text of variants that is empty cannot be read.
fn by_rule(rules: &Rules, x: &Plain) -> Option<Plain> {
    let list = if x.variants == 0 {
        &rules.language
    } else {
        &rules.language_variants
    };
    for row in list {
        if let Some(rule) = row {
            let is_read = x.variants == 0 || rule.source.variants != 0;
            if is_read && matches(x, &rule.source) {
                return Some(replaced(x, &rule.source, &rule.replacement));
            }
        }
    }
    None
}

fn by_sign_region(rules: &Rules, subtags: &Subtags, x: &Plain) -> Option<Plain> {
    if x.language != subtags.languages[2] {
        return None;
    }
    let region = x.region?;
    let rule = Plain {
        region: Some(region),
        ..Plain::of_language(x.language)
    };
    let language = value(&rules.sgn_region, region)?;
    Some(replaced(x, &rule, &Plain::of_language(language)))
}

/// The turn of a language alias, which is the only one of a transform language.
pub fn by_language_alias(rules: &Rules, x: &Plain) -> Option<Plain> {
    if x.language.is_unknown() {
        return None;
    }
    let rows = if x.language.as_str().len() == 2 {
        &rules.language_len2
    } else {
        &rules.language_len3
    };
    let alias = value(rows, x.language)?;
    let replacement = Plain {
        variants: 0,
        ..alias
    };
    Some(replaced(x, &Plain::of_language(x.language), &replacement))
}

fn by_script(rules: &Rules, x: &Plain) -> Option<Plain> {
    let script = Some(value(&rules.script, x.script?)?);
    Some(Plain { script, ..*x })
}

fn with_region(x: &Plain, region: Region) -> Plain {
    Plain {
        region: Some(region),
        ..*x
    }
}

fn by_region(rules: &Rules, x: &Plain) -> Option<Plain> {
    let region = x.region?;
    let rows = if region.is_alphabetic() {
        &rules.region_alpha
    } else {
        &rules.region_num
    };
    Some(with_region(x, value(rows, region)?))
}

// The likely region of language and script if it is one of the list, else the first of the list.
fn by_complex_region(rules: &Rules, rows: &[Row], subtags: &Subtags, x: &Plain) -> Option<Plain> {
    let list = value(&rules.complex_region, x.region?)?;
    let alone = Plain {
        region: None,
        variants: 0,
        ..*x
    };
    let likely = maximal(rows, subtags, &alone).region;
    let [first, second] = list.0;
    let chosen = if likely.is_some() && second == likely {
        second
    } else {
        first
    };
    Some(with_region(x, chosen?))
}

fn by_variant(rules: &Rules, x: &Plain) -> Option<Plain> {
    let mut image = 0;
    let mut is_replaced = false;
    for mark in MARKS {
        if x.variants & mark != 0 {
            let alias = value(&rules.variant, Mark(mark));
            is_replaced |= alias.is_some();
            image |= alias.unwrap_or(Mark(mark)).0;
        }
    }
    let variants = image;
    is_replaced.then_some(Plain { variants, ..*x })
}

// What the first kinds make of an identifier, which ask for its language.
fn by_language(rules: &Rules, subtags: &Subtags, x: &Plain) -> Option<Plain> {
    let found = by_rule(rules, x);
    if found.is_some() {
        return found;
    }
    let found = by_sign_region(rules, subtags, x);
    if found.is_some() {
        return found;
    }
    by_language_alias(rules, x)
}

// What the later kinds make of it.
fn by_subtag(rules: &Rules, rows: &[Row], subtags: &Subtags, x: &Plain) -> Option<Plain> {
    let found = by_script(rules, x);
    if found.is_some() {
        return found;
    }
    let found = by_region(rules, x);
    if found.is_some() {
        return found;
    }
    let found = by_complex_region(rules, rows, subtags, x);
    if found.is_some() {
        return found;
    }
    by_variant(rules, x)
}

/// One turn: what the first kind of rules that matches makes of an identifier.
pub fn next(rules: &Rules, rows: &[Row], subtags: &Subtags, x: &Plain) -> Option<Plain> {
    let found = by_language(rules, subtags, x);
    if found.is_some() {
        return found;
    }
    by_subtag(rules, rows, subtags, x)
}
