//! The nearest available identifier, by the rank of each pair.
use crate::distances::Matching;
use crate::likely::{Row, maximal};
use crate::plain::Plain;
use crate::subtags::Subtags;
use icu_locale_matching::{Match, MatchLimits};

/// What a match is asked over.
#[derive(Clone, Copy)]
pub struct Question<'q> {
    pub rows: &'q [Row],
    pub subtags: &'q Subtags,
    pub matching: &'q Matching,
    /// The maximal forms of the paradigm locales.
    pub paradigms: &'q [Plain],
    pub limits: MatchLimits,
    pub requests: &'q [Plain],
    pub available: &'q [Plain],
    /// Which places may be served. A place past the end may not.
    pub may: &'q [bool],
}

/// How well an available identifier serves a request: less is better, number by number.
#[derive(Clone, Copy)]
pub struct Rank {
    cost: u64,
    request: usize,
    // Whether the spelling is another, and whether the variants are.
    differs: [usize; 2],
    unlikeliness: usize,
    off_paradigm: usize,
    available: usize,
}

impl Rank {
    // What decides where the cost is the same, in its order.
    fn numbers(&self) -> [usize; 6] {
        let [spelling, variants] = self.differs;
        [
            self.request,
            spelling,
            variants,
            self.unlikeliness,
            self.off_paradigm,
            self.available,
        ]
    }

    fn precedes(&self, other: &Rank) -> bool {
        if self.cost != other.cost {
            return self.cost < other.cost;
        }
        let others = other.numbers();
        for (mine, its) in self.numbers().iter().zip(&others) {
            if *mine != *its {
                return *mine < *its;
            }
        }
        false
    }

    /// Whether a match says the same.
    pub fn is_told_by(&self, found: &Match) -> bool {
        found.request == self.request
            && found.available == self.available
            && u64::from(found.cost) == self.cost
    }
}

impl Question<'_> {
    fn maximal(&self, x: &Plain) -> Plain {
        maximal(self.rows, self.subtags, x)
    }

    /// The maximal form, variants aside.
    pub fn form(&self, x: &Plain) -> Plain {
        self.maximal(&x.without_variants())
    }

    /// The distance of two identifiers: that of their forms.
    pub fn distance(&self, desired: &Plain, supported: &Plain) -> u64 {
        let (desired, supported) = (self.form(desired), self.form(supported));
        self.matching.distance(self.subtags, &desired, &supported)
    }

    // 0 where a form is that of its language alone, 1 where of its language and script, else 2.
    fn unlikeliness(&self, form: &Plain) -> usize {
        let alone = Plain::of_language(form.language);
        let without_region = Plain {
            language: form.language,
            script: form.script,
            region: None,
            variants: 0,
        };
        if self.maximal(&alone) == *form {
            0
        } else if self.maximal(&without_region) == *form {
            1
        } else {
            2
        }
    }

    // The rank of what is asked for and offered, each with its place and its form.
    fn rank(
        &self,
        demotion: u64,
        asked: (usize, &Plain, &Plain),
        offered: (usize, &Plain, &Plain),
    ) -> Rank {
        let favor = self.limits.favor;
        let distance = self
            .matching
            .distance_by(favor, self.subtags, asked.2, offered.2);
        Rank {
            cost: distance.saturating_add(demotion),
            request: asked.0,
            differs: [
                number(asked.1 != offered.1),
                number(asked.1.variants != offered.1.variants),
            ],
            unlikeliness: self.unlikeliness(offered.2),
            off_paradigm: number(!self.paradigms.contains(offered.2)),
            available: offered.0,
        }
    }

    // Whether the distance of a rank is below the threshold, at a place that may be served.
    fn is_offer(&self, demotion: u64, rank: &Rank) -> bool {
        let may = match self.may.get(rank.available) {
            Some(may) => *may,
            None => false,
        };
        may && rank.cost.saturating_sub(demotion) < u64::from(self.limits.threshold)
    }

    // The lesser of the least so far and the ranks of one request.
    fn lesser(
        &self,
        demotion: u64,
        asked: (usize, &Plain, &Plain),
        least: Option<Rank>,
    ) -> Option<Rank> {
        let mut least = least;
        for (place, x) in self.available.iter().enumerate() {
            let form = self.form(x);
            let rank = self.rank(demotion, asked, (place, x, &form));
            if self.is_offer(demotion, &rank) && precedes_any(&rank, &least) {
                least = Some(rank);
            }
        }
        least
    }

    /// The least rank of all offers.
    pub fn least(&self) -> Option<Rank> {
        let mut least = None;
        let mut demotion: u64 = 0;
        for (place, x) in self.requests.iter().enumerate() {
            let form = self.form(x);
            least = self.lesser(demotion, (place, x, &form), least);
            demotion = demotion
                .saturating_add(u64::from(self.limits.demotion))
                .min(65535);
        }
        least
    }
}

fn precedes_any(rank: &Rank, least: &Option<Rank>) -> bool {
    match least {
        Some(least) => rank.precedes(least),
        None => true,
    }
}

// 1 for true.
fn number(differs: bool) -> usize {
    if differs { 1 } else { 0 }
}
