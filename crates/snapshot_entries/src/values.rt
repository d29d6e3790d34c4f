// The values of an entry's columns.
ghost use Rattle.std.specs.Prelude.{◌≡◌, ◌<◌, ℕ, List, IfOk, length, map};
ghost use Rattle.std.specs.List.{AllByRecursion};
ghost use Rattle.rdf_values.specs.{Value, value_of};
ghost use Rattle.rdf_model.specs.{for_all, Gives};
ghost use Rattle.expr_eval.specs.{input_outcome};
ghost use Rattle.snapshot_entries.specs.{AreHeld, AreKnown, AreServed, data_of, Grows, IsColumn, IsServed, IsStoredValue, IsWork, plan_of, version_in};

use crate::evaluate::{serve, site_behind};
use crate::known::Known;
use crate::reading::{EntryReading, source_of};
use crate::stop::EntryStop;
use crate::view::look;
use expr_eval::{ColumnInput, Steps};
use rdf_values::{Cell, Memory};
use std::alloc::Global;
use std::sync::ledger::Ledger;

/// Evaluates what gives a version its value, and finds its fault.
fn serve_column<L: Ledger>(
    alloc: Global,
    at: &EntryReading<'_>,
    cells: &mut [Known],
    column: u32,
    steps: &mut Steps<L>,
) -> Result<(), EntryStop>
    requires work { IsWork (plan_of at.now.job.now) (data_of at.now.job.now) }
    requires entry { at.now.entry < length (data_of at.now.job.now).rows }
    requires known { AreKnown (plan_of at.now.job.now) (data_of at.now.job.now) cells.old }
    requires column { IsColumn (plan_of at.now.job.now) (data_of at.now.job.now) column }
    ensures known { AreKnown (plan_of at.now.job.now) (data_of at.now.job.now) cells.new }
    ensures grows { Grows at.now.entry cells.old cells.new }
    ensures served { IsServed (plan_of at.now.job.now) (data_of at.now.job.now) cells.new at.now.entry column result }
{
    if let Some(site) = site_behind(source_of(at, column)) {
        serve(alloc, at, cells, site, steps)?;
    }
    match look(at, cells, column) {
        ColumnInput::Faulted(kind) => Err(EntryStop::Fault(kind)),
        _ => Ok(()),
    }
}

/// Evaluates what gives these versions their values, in order, up to the first fault.
pub(crate) fn serve_columns<L: Ledger>(
    alloc: Global,
    at: &EntryReading<'_>,
    cells: &mut [Known],
    columns: &[u32],
    steps: &mut Steps<L>,
) -> Result<(), EntryStop>
    requires work { IsWork (plan_of at.now.job.now) (data_of at.now.job.now) }
    requires entry { at.now.entry < length (data_of at.now.job.now).rows }
    requires known { AreKnown (plan_of at.now.job.now) (data_of at.now.job.now) cells.old }
    requires columns { AllByRecursion (IsColumn (plan_of at.now.job.now) (data_of at.now.job.now)) columns.now }
    ensures known { AreKnown (plan_of at.now.job.now) (data_of at.now.job.now) cells.new }
    ensures grows { Grows at.now.entry cells.old cells.new }
    ensures served { AreServed (plan_of at.now.job.now) (data_of at.now.job.now) cells.new at.now.entry columns.now result }
{
    let Some((first, rest)) = columns.split_first() else {
        return Ok(());
    };
    match serve_column(alloc, at, cells, *first, steps) {
        Err(stop) => Err(stop),
        Ok(()) => serve_columns(alloc, at, cells, rest, steps),
    }
}

/// A value that is known.
fn cell_of<'a>(input: ColumnInput<'a>) -> Cell<'a>
    requires { (c : ℕ) × (v : Value) × (input_outcome c input ≡ Gives v) × IsStoredValue v }
    ensures { (c : ℕ) (v : Value) → input_outcome c input.entry ≡ Gives v → value_of result ≡ v }
{
    match input {
        ColumnInput::Int(z) => Cell::Int(z),
        ColumnInput::Vect(zs) => Cell::Vect(zs),
        ColumnInput::Bool(_) | ColumnInput::Faulted(_) | ColumnInput::Missing => unreachable!(),
    }
}

/// The cells of these versions.
pub(crate) fn gather<'a: 's, 's>(
    alloc: Global,
    at: &EntryReading<'a>,
    cells: &'s [Known],
    columns: &[u32],
) -> Result<Vec<Cell<'s>>, Memory>
    requires work { IsWork (plan_of at.now.job.now) (data_of at.now.job.now) }
    requires entry { at.now.entry < length (data_of at.now.job.now).rows }
    requires known { AreKnown (plan_of at.now.job.now) (data_of at.now.job.now) cells.now }
    requires columns { AllByRecursion (IsColumn (plan_of at.now.job.now) (data_of at.now.job.now)) columns.now }
    requires held { AreHeld (plan_of at.now.job.now) (data_of at.now.job.now) cells.now at.now.entry columns.now }
    requires values { (vs : List Value) × (for_all (version_in (plan_of at.now.job.now) (data_of at.now.job.now) at.now.entry) columns.now ≡ Gives vs) }
    ensures { (vs : List Value) → for_all (version_in (plan_of at.now.job.now) (data_of at.now.job.now) at.now.entry) columns.now ≡ Gives vs → IfOk result (λ r. map value_of r.items ≡ vs) }
{
    let mut row = Vec::with_capacity(alloc, columns.len())?;
    for column in columns {
        row.push(cell_of(look(at, cells, *column)))?;
    }
    Ok(row)
}
