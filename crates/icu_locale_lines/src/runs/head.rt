//! The tables of a stream, and where they come from.
ghost use Rattle.std.specs.Prelude.{◌≡◌, ◌<◌, length, Ok, IfOk, IfErr};
ghost use Rattle.std.specs.Io.KnownBytes.{prepend_known};
ghost use Rattle.icu_tables.specs.Supplement.{rows_in, rows_of};
ghost use Rattle.icu_locale_lines.specs.Refusals.{IsRefusedReading, IsRefusedSupplement};
ghost use Rattle.icu_locale_lines.specs.Streams.{part_size, ReadsRefused, ReadsTablesLine};
ghost use Rattle.icu_locale_lines.specs.WordRuns.{ReadsFrom, ReadsNone};

use crate::asked::Source;
use crate::error::CliError;
use crate::runs::input::read_first_line;
use crate::runs::whole::read_tables;
use crate::sample_tables::whole_sample;
use icu_tables::{Supplement, TableError, Tables};
use std::alloc::Global;
use std::io::Read;

// Tables, and what was read behind them.
#[derive(Drop)]
pub struct Head {
    pub tables: Tables,
    pub rest: Vec<u8>,
}

// The tables of a source.
pub fn read_head<R: Read>(alloc: Global, source: Source, reader: &mut R) -> Result<Head, CliError>
    ensures read { IfOk result (λ head. ReadsFrom source (R.remaining reader.old)
        (prepend_known head.rest.items (R.remaining reader.new)) (R.remaining reader.new)
        head.tables) }
    ensures short { IfOk result (λ head. length head.rest.items < part_size) }
    ensures refused { IfErr result (ReadsNone source (R.remaining reader.old)
        (R.remaining reader.new)) }
{
    match source {
        Source::Sample => {
            let tables = whole_sample(alloc)?;
            let rest = Vec::new(alloc);
            Ok(Head { tables, rest })
        }
        Source::Json => read_tables_line(alloc, reader),
        Source::JsonAndSupplement => read_both(alloc, reader),
    }
}

// The tables of the first line, which may be of any length since it comes from who runs this.
fn read_tables_line<R: Read>(alloc: Global, reader: &mut R) -> Result<Head, CliError>
    ensures read { IfOk result (λ head. ReadsTablesLine (R.remaining reader.old)
        (prepend_known head.rest.items (R.remaining reader.new)) head.tables) }
    ensures short { IfOk result (λ head. length head.rest.items < part_size) }
    ensures refused { IfErr result (ReadsRefused IsRefusedReading (R.remaining reader.old)
        (R.remaining reader.new)) }
{
    let first = read_first_line(alloc, None, &[], reader)?;
    let tables = read_tables(alloc, &first.line)?;
    let rest = first.rest;
    Ok(Head { tables, rest })
}

// These, and their supplement of the second line.
fn read_both<R: Read>(alloc: Global, reader: &mut R) -> Result<Head, CliError>
    ensures read { IfOk result (λ head. ReadsFrom Source.JsonAndSupplement
        (R.remaining reader.old) (prepend_known head.rest.items (R.remaining reader.new))
        (R.remaining reader.new) head.tables) }
    ensures short { IfOk result (λ head. length head.rest.items < part_size) }
    ensures refused { IfErr result (ReadsNone Source.JsonAndSupplement (R.remaining reader.old)
        (R.remaining reader.new)) }
{
    let first = read_tables_line(alloc, reader)?;
    let second = read_first_line(alloc, None, &first.rest, reader)?;
    let supplement = read_supplement(alloc, &second.line)?;
    let mut tables = first.tables;
    tables.set_supplement(supplement);
    let rest = second.rest;
    Ok(Head { tables, rest })
}

// The supplement of a JSON text.
fn read_supplement(alloc: Global, json: &[u8]) -> Result<Supplement, CliError>
    ensures rows { IfOk result (λ s. rows_in json.now ≡ Ok (rows_of s)) }
    ensures refused { IfErr result (IsRefusedSupplement json.now) }
{
    match Supplement::from_json(alloc, json) {
        Ok(supplement) => Ok(supplement),
        Err(TableError::Memory) => Err(CliError::Memory),
        Err(refusal) => Err(CliError::Supplement(refusal)),
    }
}
