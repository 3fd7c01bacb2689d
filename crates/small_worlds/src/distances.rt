//! Match rules, plainly and as the crates hold them, and distances by a look at each rule.
use crate::fault::Fault;
use crate::numbers::{Drawn, Numbers};
use crate::plain::Plain;
use crate::subtags::Subtags;
use icu_locale_core::{Language, Region, Script};
use icu_locale_matching::FavorSubtag;
use icu_provider::{
    DataError, LanguageMatching, MatchPattern, MatchRule, MatchRules, RegionPattern, SortedMap,
};
use std::alloc::{AllocError, Global};

// What a rule looks at.
#[derive(Clone, Copy, PartialEq, Eq)]
enum Level {
    Language,
    Script,
    Region,
}

impl Drawn for Level {
    fn draw(numbers: &mut Numbers, _subtags: &Subtags) -> Level {
        numbers.one_of(&[Level::Language, Level::Script, Level::Region])
    }
}

// Some of the three regions.
#[derive(Clone, Copy)]
struct Area([bool; 3]);

impl Drawn for Area {
    fn draw(numbers: &mut Numbers, subtags: &Subtags) -> Area {
        Area(Drawn::draw(numbers, subtags))
    }
}

impl Area {
    // The regions that it has, at their places.
    fn regions(self, subtags: &Subtags) -> [Option<Region>; 3] {
        let [first, second, third] = self.0;
        let [one, two, three] = subtags.regions;
        [
            chosen(first, one),
            chosen(second, two),
            chosen(third, three),
        ]
    }

    fn has(self, subtags: &Subtags, region: Option<Region>) -> bool {
        for other in self.regions(subtags) {
            if other.is_some() && other == region {
                return true;
            }
        }
        false
    }

    fn held(self, alloc: Global, subtags: &Subtags) -> Result<SortedMap<Region, ()>, DataError> {
        let mut map = SortedMap::new(alloc);
        for region in self.regions(subtags) {
            if let Some(region) = region {
                map.insert(region, ())?;
            }
        }
        Ok(map)
    }

    fn listed(self, alloc: Global, subtags: &Subtags) -> Result<Vec<Region>, AllocError> {
        let mut list = Vec::new(alloc);
        for region in self.regions(subtags) {
            if let Some(region) = region {
                list.push(region)?;
            }
        }
        Ok(list)
    }
}

fn chosen(is_chosen: bool, region: Region) -> Option<Region> {
    if is_chosen { Some(region) } else { None }
}

// What a rule says of a region: anything, one of some, or none of some.
#[derive(Clone, Copy)]
struct Place {
    area: Option<Area>,
    is_negated: bool,
}

// What a rule says of a script and a region.
#[derive(Clone, Copy)]
struct Pattern {
    script: Option<Script>,
    place: Place,
}

impl Drawn for Pattern {
    fn draw(numbers: &mut Numbers, subtags: &Subtags) -> Pattern {
        Pattern {
            script: Drawn::draw(numbers, subtags),
            place: Place {
                area: Drawn::draw(numbers, subtags),
                is_negated: numbers.is_chosen(),
            },
        }
    }
}

impl Pattern {
    // Without a script it fits any script and none. Without an area it fits any region and none.
    fn fits(&self, subtags: &Subtags, x: &Plain) -> bool {
        let fits_script = self.script.is_none() || self.script == x.script;
        let fits_region = match self.place.area {
            None => true,
            Some(area) => area.has(subtags, x.region) != self.place.is_negated,
        };
        fits_script && fits_region
    }

    fn held(&self, alloc: Global, subtags: &Subtags) -> Result<MatchPattern, DataError> {
        let region = match (self.place.area, self.place.is_negated) {
            (None, _) => RegionPattern::Any,
            (Some(area), false) => RegionPattern::In(area.held(alloc, subtags)?),
            (Some(area), true) => RegionPattern::NotIn(area.held(alloc, subtags)?),
        };
        Ok(MatchPattern {
            script: self.script,
            region,
        })
    }
}

// The next distance: often one that others have too, and sometimes the greatest that there is.
fn draw_distance(numbers: &mut Numbers) -> u16 {
    if numbers.is_chosen() && numbers.is_chosen() {
        numbers.one_of(&[4, 40, u16::MAX])
    } else {
        numbers.one_of(&[0, 5, 10])
    }
}

// A rule for a desired language and a supported one.
#[derive(Clone, Copy)]
struct MatchRow {
    level: Level,
    languages: (Language, Language),
    desired: Pattern,
    supported: Pattern,
    distance: u16,
}

impl Drawn for MatchRow {
    fn draw(numbers: &mut Numbers, subtags: &Subtags) -> MatchRow {
        MatchRow {
            level: Drawn::draw(numbers, subtags),
            languages: Drawn::draw(numbers, subtags),
            desired: Drawn::draw(numbers, subtags),
            supported: Drawn::draw(numbers, subtags),
            distance: draw_distance(numbers),
        }
    }
}

impl MatchRow {
    fn held(&self, alloc: Global, subtags: &Subtags) -> Result<MatchRule, DataError> {
        Ok(MatchRule {
            desired: self.desired.held(alloc, subtags)?,
            language: self.languages.1,
            supported: self.supported.held(alloc, subtags)?,
            distance: self.distance,
        })
    }

    fn fits(&self, subtags: &Subtags, desired: &Plain, supported: &Plain) -> bool {
        self.languages == (desired.language, supported.language)
            && self.desired.fits(subtags, desired)
            && self.supported.fits(subtags, supported)
    }
}

/// The match rules of one world.
#[derive(Clone, Copy)]
pub struct Matching {
    rows: [MatchRow; 16],
    // More rows of one desired language and one level, so that these are many.
    more: [MatchRow; 10],
    others: [u16; 3],
    macros: [Option<Area>; 3],
    /// The paradigm locales.
    pub paradigms: [Plain; 6],
}

impl Drawn for Matching {
    fn draw(numbers: &mut Numbers, subtags: &Subtags) -> Matching {
        let mut more: [MatchRow; 10] = Drawn::draw(numbers, subtags);
        if numbers.is_chosen() {
            for place in 0..10 {
                more[place].level = Level::Region;
                more[place].languages.0 = subtags.languages[1];
            }
        }
        Matching {
            rows: Drawn::draw(numbers, subtags),
            more,
            others: [
                draw_distance(numbers),
                draw_distance(numbers),
                draw_distance(numbers),
            ],
            macros: Drawn::draw(numbers, subtags),
            paradigms: Drawn::draw(numbers, subtags),
        }
    }
}

impl Matching {
    // The distance of a level: that of the first rule that fits, or the one where none does.
    fn level_distance(
        &self,
        subtags: &Subtags,
        (level, other): (Level, u16),
        desired: &Plain,
        supported: &Plain,
    ) -> u64 {
        for row in self.rows.iter().chain(&self.more) {
            if row.level == level && row.fits(subtags, desired, supported) {
                return u64::from(row.distance);
            }
        }
        u64::from(other)
    }

    // What a form stands for: itself with each region of a macro region, or itself alone.
    fn stands_for(&self, subtags: &Subtags, x: &Plain) -> [Option<Plain>; 3] {
        for (region, area) in subtags.regions.iter().zip(&self.macros) {
            if let Some(area) = area {
                if x.region == Some(*region) {
                    let [first, second, third] = area.regions(subtags);
                    return [
                        in_region(x, first),
                        in_region(x, second),
                        in_region(x, third),
                    ];
                }
            }
        }
        [Some(*x), None, None]
    }

    // The greatest distance of what the two stand for.
    fn region_distance(&self, subtags: &Subtags, desired: &Plain, supported: &Plain) -> u64 {
        let level = (Level::Region, self.others[2]);
        let mut greatest = 0;
        for x in self.stands_for(subtags, desired) {
            for y in self.stands_for(subtags, supported) {
                if let (Some(x), Some(y)) = (x, y) {
                    let distance = self.level_distance(subtags, level, &x, &y);
                    greatest = if distance > greatest {
                        distance
                    } else {
                        greatest
                    };
                }
            }
        }
        greatest
    }

    // The distance of the languages.
    fn language_part(&self, subtags: &Subtags, desired: &Plain, supported: &Plain) -> u64 {
        if desired.language == supported.language {
            return 0;
        }
        let level = (Level::Language, self.others[0]);
        self.level_distance(subtags, level, desired, supported)
    }

    // The distance of the scripts and of the regions.
    fn other_parts(&self, subtags: &Subtags, desired: &Plain, supported: &Plain) -> u64 {
        let mut sum: u64 = 0;
        if desired.script != supported.script {
            let level = (Level::Script, self.others[1]);
            sum = sum.saturating_add(self.level_distance(subtags, level, desired, supported));
        }
        if desired.region != supported.region {
            sum = sum.saturating_add(self.region_distance(subtags, desired, supported));
        }
        sum
    }

    /// The distance of a supported form from a desired one: the sum of what differs.
    pub fn distance(&self, subtags: &Subtags, desired: &Plain, supported: &Plain) -> u64 {
        self.language_part(subtags, desired, supported)
            .saturating_add(self.other_parts(subtags, desired, supported))
    }

    /// The same, where a difference of languages weighs a quarter if the script is favored.
    pub fn distance_by(
        &self,
        favor: FavorSubtag,
        subtags: &Subtags,
        desired: &Plain,
        supported: &Plain,
    ) -> u64 {
        match favor {
            FavorSubtag::Language => self.distance(subtags, desired, supported),
            FavorSubtag::Script => {
                let quarter = self.language_part(subtags, desired, supported) / 4;
                quarter.saturating_add(self.other_parts(subtags, desired, supported))
            }
        }
    }

    fn held_level(
        &self,
        alloc: Global,
        subtags: &Subtags,
        language: Language,
        level: Level,
    ) -> Result<Vec<MatchRule>, Fault> {
        let mut list = Vec::new(alloc);
        for row in self.rows.iter().chain(&self.more) {
            if row.level == level && row.languages.0 == language {
                list.push(row.held(alloc, subtags)?)?;
            }
        }
        Ok(list)
    }

    fn held_rules(
        &self,
        alloc: Global,
        subtags: &Subtags,
        language: Language,
    ) -> Result<MatchRules, Fault> {
        Ok(MatchRules {
            language: self.held_level(alloc, subtags, language, Level::Language)?,
            script: self.held_level(alloc, subtags, language, Level::Script)?,
            region: self.held_level(alloc, subtags, language, Level::Region)?,
        })
    }

    // Whether a desired language has some rule.
    fn has(&self, language: Language) -> bool {
        for row in self.rows.iter().chain(&self.more) {
            if row.languages.0 == language {
                return true;
            }
        }
        false
    }

    fn put(
        &self,
        alloc: Global,
        subtags: &Subtags,
        held: &mut LanguageMatching,
    ) -> Result<(), Fault> {
        for language in subtags.languages {
            if self.has(language) {
                let rules = self.held_rules(alloc, subtags, language)?;
                held.rules.insert(language, rules)?;
            }
        }
        for (region, area) in subtags.regions.iter().zip(&self.macros) {
            if let Some(area) = area {
                held.macros.insert(*region, area.listed(alloc, subtags)?)?;
            }
        }
        for x in &self.paradigms {
            held.paradigms.push(x.locale())?;
        }
        Ok(())
    }

    /// As the crates hold them.
    pub fn held(&self, alloc: Global, subtags: &Subtags) -> Result<LanguageMatching, Fault> {
        let [language, script, region] = self.others;
        let mut held = LanguageMatching::new(alloc, language, script, region);
        self.put(alloc, subtags, &mut held)?;
        Ok(held)
    }
}

// A form with a region, if there is one.
fn in_region(x: &Plain, region: Option<Region>) -> Option<Plain> {
    Some(Plain {
        language: x.language,
        script: x.script,
        region: Some(region?),
        variants: x.variants,
    })
}
