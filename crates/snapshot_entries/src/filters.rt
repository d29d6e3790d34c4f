// Trying the filters above a node.
ghost use Rattle.std.specs.Prelude.{◌<◌, length};
ghost use Rattle.std.specs.List.{AllByRecursion};
ghost use Rattle.graph_numbers.specs.{through_sites};
ghost use Rattle.snapshot_entries.specs.{AreKnown, data_of, IsAnswer, IsWork, outcome_of, passes_by, plan_of, site_in, site_total};

use crate::evaluate::serve;
use crate::known::Known;
use crate::reading::EntryReading;
use crate::stop::EntryStop;
use expr_eval::Steps;
use rdf_values::{EntryFault, Memory, Value};
use std::alloc::Global;
use std::sync::ledger::Ledger;

/// Whether what a filter came to lets the entry through, or its fault.
fn lets_through(outcome: &Result<Value, EntryFault>) -> Result<bool, EntryStop>
    ensures { IsAnswer (passes_by (outcome_of outcome.now)) result }
{
    match outcome {
        Ok(Value::Bool(passed)) => Ok(*passed),
        Ok(Value::Int(_)) | Ok(Value::Vect(_)) => Ok(false),
        Err(kind) => Err(EntryStop::Fault(*kind)),
    }
}

/// Whether the entry passes the filter of that site.
fn try_filter<L: Ledger>(
    alloc: Global,
    at: &EntryReading<'_>,
    cells: &mut [Known],
    site: u32,
    steps: &mut Steps<L>,
) -> Result<bool, EntryStop>
    requires work { IsWork (plan_of at.now.job.now) (data_of at.now.job.now) }
    requires entry { at.now.entry < length (data_of at.now.job.now).rows }
    requires known { AreKnown (plan_of at.now.job.now) (data_of at.now.job.now) cells.old }
    requires site { site < site_total (plan_of at.now.job.now) (data_of at.now.job.now) }
    ensures known { AreKnown (plan_of at.now.job.now) (data_of at.now.job.now) cells.new }
    ensures answer { IsAnswer (passes_by (site_in (plan_of at.now.job.now) (data_of at.now.job.now) at.now.entry site)) result }
{
    match serve(alloc, at, cells, site, steps) {
        Err(Memory) => Err(EntryStop::Memory),
        Ok(()) => lets_through(&cells[site as usize].outcome),
    }
}

/// Whether the entry passes the filters of these sites, head first.
pub(crate) fn pass_filters<L: Ledger>(
    alloc: Global,
    at: &EntryReading<'_>,
    cells: &mut [Known],
    sites: &[u32],
    steps: &mut Steps<L>,
) -> Result<bool, EntryStop>
    requires work { IsWork (plan_of at.now.job.now) (data_of at.now.job.now) }
    requires entry { at.now.entry < length (data_of at.now.job.now).rows }
    requires known { AreKnown (plan_of at.now.job.now) (data_of at.now.job.now) cells.old }
    requires sites { AllByRecursion (λ s. s < site_total (plan_of at.now.job.now) (data_of at.now.job.now)) sites.now }
    ensures known { AreKnown (plan_of at.now.job.now) (data_of at.now.job.now) cells.new }
    ensures answer { IsAnswer (through_sites (site_in (plan_of at.now.job.now) (data_of at.now.job.now) at.now.entry) sites.now) result }
{
    let Some((first, rest)) = sites.split_first() else {
        return Ok(true);
    };
    match try_filter(alloc, at, cells, *first, steps) {
        Err(stop) => Err(stop),
        Ok(false) => Ok(false),
        Ok(true) => pass_filters(alloc, at, cells, rest, steps),
    }
}
