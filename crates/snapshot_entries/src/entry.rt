// One entry of a snapshot.
ghost use Rattle.std.specs.Prelude.{◌≡◌, ◌<◌, ◌++◌, List, OnOk, length};
ghost use Rattle.rdf_values.specs.{Value};
ghost use Rattle.snapshot_text.specs.{entry_text};
ghost use Rattle.std.specs.List.{AllByRecursion};
ghost use Rattle.rdf_model.specs.{for_all, Gives};
ghost use Rattle.snapshot_entries.specs.{AreHeld, AreKnown, data_of, IsColumn, IsEntryAnswer, IsRowAnswer, IsWanted, IsWork, plan_of, version_in};

use crate::filters::pass_filters;
use crate::known::Known;
use crate::reading::EntryReading;
use crate::stop::EntryStop;
use crate::values::{gather, serve_columns};
use crate::wanted::WantedSites;
use expr_eval::Steps;
use rdf_values::{Memory, Text};
use snapshot_text::put_entry;
use std::alloc::Global;
use std::sync::ledger::Ledger;

/// Appends the record of columns whose values are at hand.
fn append_row(
    alloc: Global,
    at: &EntryReading<'_>,
    columns: &[u32],
    cells: &[Known],
    text: &mut Text,
) -> Result<(), Memory>
    requires work { IsWork (plan_of at.now.job.now) (data_of at.now.job.now) }
    requires entry { at.now.entry < length (data_of at.now.job.now).rows }
    requires known { AreKnown (plan_of at.now.job.now) (data_of at.now.job.now) cells.now }
    requires columns { AllByRecursion (IsColumn (plan_of at.now.job.now) (data_of at.now.job.now)) columns.now }
    requires held { AreHeld (plan_of at.now.job.now) (data_of at.now.job.now) cells.now at.now.entry columns.now }
    requires values { (vs : List Value) × (for_all (version_in (plan_of at.now.job.now) (data_of at.now.job.now) at.now.entry) columns.now ≡ Gives vs) }
    ensures { (vs : List Value) → for_all (version_in (plan_of at.now.job.now) (data_of at.now.job.now) at.now.entry) columns.now ≡ Gives vs → OnOk result (text.new ≡ text.old ++ entry_text vs) }
{
    let row = gather(alloc, at, cells, columns)?;
    put_entry(text, row.as_slice())
}

/// Appends the record of the entry's columns.
fn put_row<L: Ledger>(
    alloc: Global,
    at: &EntryReading<'_>,
    columns: &[u32],
    cells: &mut [Known],
    text: &mut Text,
    steps: &mut Steps<L>,
) -> Result<(), EntryStop>
    requires work { IsWork (plan_of at.now.job.now) (data_of at.now.job.now) }
    requires entry { at.now.entry < length (data_of at.now.job.now).rows }
    requires known { AreKnown (plan_of at.now.job.now) (data_of at.now.job.now) cells.old }
    requires columns { AllByRecursion (IsColumn (plan_of at.now.job.now) (data_of at.now.job.now)) columns.now }
    ensures known { AreKnown (plan_of at.now.job.now) (data_of at.now.job.now) cells.new }
    ensures answer { IsRowAnswer (for_all (version_in (plan_of at.now.job.now) (data_of at.now.job.now) at.now.entry) columns.now) text.old text.new result }
{
    match serve_columns(alloc, at, cells, columns, steps) {
        Err(stop) => Err(stop),
        Ok(()) => match append_row(alloc, at, columns, cells, text) {
            Err(Memory) => Err(EntryStop::Memory),
            Ok(()) => Ok(()),
        },
    }
}

/// Appends the record of an entry that passes.
pub(crate) fn try_entry<L: Ledger>(
    alloc: Global,
    at: &EntryReading<'_>,
    wanted: &WantedSites,
    cells: &mut [Known],
    text: &mut Text,
    steps: &mut Steps<L>,
) -> Result<(), EntryStop>
    requires work { IsWork (plan_of at.now.job.now) (data_of at.now.job.now) }
    requires entry { at.now.entry < length (data_of at.now.job.now).rows }
    requires known { AreKnown (plan_of at.now.job.now) (data_of at.now.job.now) cells.old }
    requires wanted { IsWanted (plan_of at.now.job.now) (data_of at.now.job.now) wanted.now }
    ensures known { AreKnown (plan_of at.now.job.now) (data_of at.now.job.now) cells.new }
    ensures answer { IsEntryAnswer (plan_of at.now.job.now) (data_of at.now.job.now) at.now.entry text.old text.new result }
{
    match pass_filters(alloc, at, cells, wanted.filters.as_slice(), steps) {
        Err(stop) => Err(stop),
        Ok(false) => Ok(()),
        Ok(true) => put_row(alloc, at, wanted.columns.as_slice(), cells, text, steps),
    }
}
