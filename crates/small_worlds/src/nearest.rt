//! Distances and the nearest available identifier, by a look at each pair.
use crate::canonical::{ByAll, World};
use crate::distances::Matching;
use crate::fault::Fault;
use crate::likely::maximal;
use crate::numbers::{Drawn, Numbers};
use crate::plain::Plain;
use crate::ranks::Question;
use crate::report::{Kind, Report};
use crate::runs::{Run, walk};
use crate::subtags::Subtags;
use icu_locale::{CanonicalizerRef, LocaleCanonicalizer};
use icu_locale_core::LanguageIdentifier;
use icu_locale_matching::{
    Candidates, FavorSubtag, LocaleMatcher, LocaleServer, Match, MatchLimits, ServedLocales,
    distance, distance_of,
};
use icu_provider::LanguageMatching;
use std::alloc::Global;

// How many identifiers are available, how many are asked for at once, and how often.
const OFFERED: usize = 8;

const ASKED: usize = 3;

const TIMES: usize = 4;

// Every place may be served.
const ALL: [bool; OFFERED] = [true; OFFERED];

// One question: what is asked for, and which places may be served, of which the last has no word.
#[derive(Clone, Copy)]
struct Asking {
    requests: [Plain; ASKED],
    may: [bool; 7],
}

impl Drawn for Asking {
    fn draw(numbers: &mut Numbers, subtags: &Subtags) -> Asking {
        Asking {
            requests: Drawn::draw(numbers, subtags),
            may: Drawn::draw(numbers, subtags),
        }
    }
}

/// What is asked of one world.
#[derive(Clone, Copy)]
pub struct Wants {
    matching: Matching,
    limits: MatchLimits,
    available: [Plain; OFFERED],
    askings: [Asking; TIMES],
}

impl Drawn for Wants {
    fn draw(numbers: &mut Numbers, subtags: &Subtags) -> Wants {
        Wants {
            matching: Drawn::draw(numbers, subtags),
            limits: MatchLimits {
                threshold: numbers.one_of(&[10, 50, u16::MAX]),
                demotion: numbers.one_of(&[0, 5, u16::MAX]),
                favor: numbers.one_of(&[
                    FavorSubtag::Language,
                    FavorSubtag::Language,
                    FavorSubtag::Script,
                ]),
            },
            available: Drawn::draw(numbers, subtags),
            askings: Drawn::draw(numbers, subtags),
        }
    }
}

impl Wants {
    fn question<'q>(
        &'q self,
        world: World<'q>,
        paradigms: &'q [Plain],
        asking: &'q Asking,
    ) -> Question<'q> {
        Question {
            rows: world.rows,
            subtags: world.subtags,
            matching: &self.matching,
            paradigms,
            limits: self.limits,
            requests: &asking.requests,
            available: &self.available,
            may: &ALL,
        }
    }
}

fn held(
    alloc: Global,
    list: &[Plain],
    subtags: &Subtags,
) -> Result<Vec<LanguageIdentifier>, Fault> {
    let mut all = Vec::new(alloc);
    for x in list {
        all.push(x.held(alloc, subtags)?)?;
    }
    Ok(all)
}

// Whether a match is the one with the least rank.
fn compare_match(report: &mut Report, question: Question<'_>, found: &Option<Match>, call: &str) {
    let is_so = match (question.least(), found) {
        (Some(least), Some(found)) => least.is_told_by(found),
        (None, None) => true,
        _ => false,
    };
    report.meet(match found {
        Some(_) => Kind::Served,
        None => Kind::NotServed,
    });
    for request in question.requests {
        report.see(is_so, call, request);
    }
}

fn compare_matcher(
    alloc: Global,
    report: &mut Report,
    matcher: &LocaleMatcher<'_>,
    (world, paradigms): (World<'_>, &[Plain]),
    wants: &Wants,
) -> Result<(), Fault> {
    for asking in &wants.askings {
        let question = wants.question(world, paradigms, asking);
        let requests = held(alloc, &asking.requests, world.subtags)?;
        compare_match(report, question, &matcher.nearest(&requests), "nearest");
        let among = Question {
            may: &asking.may,
            ..question
        };
        let found = matcher.nearest_among(&requests, &asking.may);
        compare_match(report, among, &found, "nearest_among");
    }
    Ok(())
}

// The end of the run of an identifier, or the identifier where it has none.
fn brought(alloc: Global, world: World<'_>, x: &Plain) -> Result<Plain, Fault> {
    Ok(match walk(alloc, &ByAll(world), *x)? {
        Run::Ends(end) => end,
        Run::Repeats(_) => *x,
    })
}

fn all_brought(alloc: Global, world: World<'_>, list: &[Plain]) -> Result<Vec<Plain>, Fault> {
    let mut all = Vec::new(alloc);
    for x in list {
        all.push(brought(alloc, world, x)?)?;
    }
    Ok(all)
}

fn compare_server(
    alloc: Global,
    report: &mut Report,
    server: &LocaleServer<'_>,
    (world, paradigms): (World<'_>, &[Plain]),
    wants: &Wants,
) -> Result<(), Fault> {
    let available = all_brought(alloc, world, &wants.available)?;
    for asking in &wants.askings {
        let canonical = all_brought(alloc, world, &asking.requests)?;
        let question = Question {
            requests: &canonical,
            available: &available,
            ..wants.question(world, paradigms, asking)
        };
        let requests = held(alloc, &asking.requests, world.subtags)?;
        let found = server.nearest(alloc, &requests)?;
        compare_match(report, question, &found, "LocaleServer::nearest");
    }
    Ok(())
}

// The distances of what is available from what is asked for first, as they are and by their forms.
fn compare_distances(
    alloc: Global,
    report: &mut Report,
    (rules, matching): (&CanonicalizerRef<'_>, &LanguageMatching),
    (world, paradigms): (World<'_>, &[Plain]),
    wants: &Wants,
) -> Result<(), Fault> {
    for asking in &wants.askings {
        let question = wants.question(world, paradigms, asking);
        let x = &asking.requests[0];
        let desired = x.held(alloc, world.subtags)?;
        for y in &wants.available {
            let plain = wants.matching.distance(world.subtags, x, y);
            let told = distance(matching, &x.locale(), &y.locale());
            report.see(u64::from(told) == plain, "distance", x);
            let supported = y.held(alloc, world.subtags)?;
            let told = distance_of(&rules.expander, matching, &desired, &supported);
            report.see(u64::from(told) == question.distance(x, y), "distance_of", x);
        }
    }
    Ok(())
}

fn compare_served(
    alloc: Global,
    report: &mut Report,
    (rules, matching): (CanonicalizerRef<'_>, &LanguageMatching),
    (world, paradigms): (World<'_>, &[Plain]),
    wants: &Wants,
) -> Result<(), Fault> {
    let available = held(alloc, &wants.available, world.subtags)?;
    let served = ServedLocales::try_new(alloc, &rules, matching, available)?;
    let server = LocaleServer::over(rules, matching, wants.limits, &served);
    compare_server(alloc, report, &server, (world, paradigms), wants)
}

fn compare_matched(
    alloc: Global,
    report: &mut Report,
    (rules, matching): (CanonicalizerRef<'_>, &LanguageMatching),
    (world, paradigms): (World<'_>, &[Plain]),
    wants: &Wants,
) -> Result<(), Fault> {
    let available = held(alloc, &wants.available, world.subtags)?;
    let candidates = Candidates::try_new(alloc, &rules.expander, matching, available)?;
    let matcher = LocaleMatcher::over(rules.expander, matching, wants.limits, &candidates);
    compare_matcher(alloc, report, &matcher, (world, paradigms), wants)
}

// The maximal forms of the paradigm locales.
fn paradigm_forms(alloc: Global, world: World<'_>, wants: &Wants) -> Result<Vec<Plain>, Fault> {
    let mut forms = Vec::new(alloc);
    for x in &wants.matching.paradigms {
        forms.push(maximal(world.rows, world.subtags, &x.without_variants()))?;
    }
    Ok(forms)
}

/// Distances, and the nearest of some identifiers to others, as they are and by their canonical forms.
pub fn compare_nearest(
    alloc: Global,
    report: &mut Report,
    canonicalizer: &LocaleCanonicalizer<'_>,
    world: World<'_>,
    wants: &Wants,
) -> Result<(), Fault> {
    let rules = canonicalizer.lend();
    let matching = wants.matching.held(alloc, world.subtags)?;
    let forms = paradigm_forms(alloc, world, wants)?;
    let plainly = (world, forms.as_slice());
    compare_distances(alloc, report, (&rules, &matching), plainly, wants)?;
    compare_matched(alloc, report, (rules, &matching), plainly, wants)?;
    compare_served(alloc, report, (rules, &matching), plainly, wants)
}
