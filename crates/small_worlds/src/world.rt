//! The worlds, one after another.
use crate::canonical::{World, compare_canonical};
use crate::chains::compare_chains;
use crate::directions::{Ways, compare_directions};
use crate::exemplars::{Exemplars, compare_exemplars};
use crate::fault::Fault;
use crate::forms::compare_forms;
use crate::inheritance::Parents;
use crate::likely::Likely;
use crate::links::Links;
use crate::making::{Maker, Making};
use crate::nearest::{Wants, compare_nearest};
use crate::negotiation::compare_negotiations;
use crate::numbers::{Drawn, Numbers};
use crate::report::Report;
use crate::rules::Rules;
use crate::subtags::Subtags;
use crate::tables::put_all;
use crate::values::ValueRow;
use crate::whole::compare_whole;
use icu_provider::Aliases;
use icu_tables::Tables;
use std::alloc::Global;

// What one world is made of, plainly.
struct Parts {
    likely: Likely,
    rules: Rules,
    values: [ValueRow; 4],
    ways: Ways,
    exemplars: [Exemplars; 5],
    parents: Parents,
    links: Links,
    wants: Wants,
}

impl Drop for Parts {
    fn drop(self) {
        let Parts {
            likely: _,
            rules: _,
            values: _,
            ways: _,
            exemplars: _,
            parents: _,
            links: _,
            wants: _,
        } = self;
    }
}

impl Drawn for Parts {
    fn draw(numbers: &mut Numbers, subtags: &Subtags) -> Parts {
        Parts {
            likely: Drawn::draw(numbers, subtags),
            rules: Drawn::draw(numbers, subtags),
            values: Drawn::draw(numbers, subtags),
            ways: Drawn::draw(numbers, subtags),
            exemplars: Drawn::draw(numbers, subtags),
            parents: Drawn::draw(numbers, subtags),
            links: Drawn::draw(numbers, subtags),
            wants: Drawn::draw(numbers, subtags),
        }
    }
}

impl Parts {
    // The rules and the rows of values as the crates hold them.
    fn aliases(&self, alloc: Global, subtags: &Subtags) -> Result<Aliases, Fault> {
        let mut aliases = Aliases::new(alloc);
        put_all(alloc, &mut aliases, &self.rules, &self.values, subtags)?;
        Ok(aliases)
    }

    // Puts the rows of likely subtags into tables.
    fn put_likely(&self, alloc: Global, tables: &mut Tables) -> Result<(), Fault> {
        let (language, script_region) = self.likely.common(alloc)?;
        tables.set_likely_language(language);
        tables.set_likely_script_region(script_region);
        tables.set_likely_extended(self.likely.extended(alloc)?);
        Ok(())
    }

    // Puts all as the crates hold it into tables.
    fn put(&self, alloc: Global, subtags: &Subtags, tables: &mut Tables) -> Result<(), Fault> {
        self.put_likely(alloc, tables)?;
        tables.set_script_direction(self.ways.held(alloc, subtags)?);
        tables.set_aliases(self.aliases(alloc, subtags)?);
        Ok(())
    }
}

// The calls over one table of likely subtags. By turns the worlds ask for chains over the common tables, or over all.
fn compare_over(
    alloc: Global,
    report: &mut Report,
    maker: Maker<'_>,
    world: World<'_>,
    (parts, numbers): (&Parts, &mut Numbers),
) -> Result<(), Fault> {
    let (rows, subtags) = (world.rows, world.subtags);
    let has_chains = maker.with_extended == (report.world % 2 == 1);
    let expander = maker.expander()?;
    compare_forms(alloc, report, &expander, rows, subtags)?;
    if has_chains {
        compare_chains(alloc, report, &expander, rows, subtags, &parts.parents)?;
    }
    let directionality = maker.directionality(expander)?;
    compare_directions(alloc, report, &directionality, rows, subtags, parts.ways)?;
    compare_negotiations(alloc, report, &expander, rows, subtags, numbers)?;
    let canonicalizer = maker.canonicalizer(alloc, expander)?;
    compare_canonical(alloc, report, &canonicalizer, world, numbers)?;
    compare_whole(alloc, report, &canonicalizer, world, &parts.links, numbers)?;
    compare_nearest(alloc, report, &canonicalizer, world, &parts.wants)
}

// The calls over the common tables alone, and over all.
fn compare_parts(
    alloc: Global,
    report: &mut Report,
    parts: &Parts,
    tables: &Tables,
    subtags: &Subtags,
    numbers: &mut Numbers,
) -> Result<(), Fault> {
    let making = Making::of_world(report.world);
    for with_extended in [false, true] {
        let rows = parts.likely.rows(alloc, with_extended)?;
        let world = World {
            rules: &parts.rules,
            rows: &rows,
            values: &parts.values,
            subtags,
        };
        let maker = Maker {
            making,
            tables,
            with_extended,
        };
        compare_over(alloc, report, maker, world, (parts, numbers))?;
    }
    compare_exemplars(alloc, report, subtags, &parts.exemplars)
}

// The next world.
fn compare_next(
    alloc: Global,
    report: &mut Report,
    subtags: &Subtags,
    numbers: &mut Numbers,
) -> Result<(), Fault> {
    let parts = Parts::draw(numbers, subtags);
    let mut tables = Tables::new(alloc);
    parts.put(alloc, subtags, &mut tables)?;
    compare_parts(alloc, report, &parts, &tables, subtags, numbers)
}

// What differs in so many worlds, and how many there were.
fn compare_worlds(alloc: Global, subtags: &Subtags, count: usize) -> Result<String, Fault> {
    let mut numbers = Numbers::new();
    let mut report = Report::new(alloc);
    for world in 0..count {
        report.world = world;
        compare_next(alloc, &mut report, subtags, &mut numbers)?;
    }
    Ok(report.end(count)?)
}

/// What differs in so many worlds, and how many there were.
pub fn compare_all(alloc: Global, count: usize) -> Result<String, Fault> {
    match Subtags::new() {
        Ok(subtags) => compare_worlds(alloc, &subtags, count),
        Err(refusal) => Err(refusal),
    }
}
