// The versions of an entry, by what is known of their sites.
ghost use Rattle.std.specs.Prelude.{◌≡◌, ◌<◌, ℕ, length, slice_get};
ghost use Rattle.rdf_model.specs.{tag_element, with_needs};
ghost use Rattle.expr_eval.specs.{input_outcome};
ghost use Rattle.graph_numbers.specs.{cell_value};
ghost use Rattle.rdf_values.specs.{Value};
ghost use Rattle.snapshot_entries.specs.Jobs.{IsWork, data_of, plan_of};
ghost use Rattle.snapshot_entries.specs.Values.{AreKnown, IsReadable, IsSourceHeld, element_of, outcome_of, row_in, source_of as source_in, version_in};

use crate::known::Known;
use crate::reading::{EntryReading, source_of};
use columns::Columns;
use expr_eval::{ColumnInput, Inputs};
use graph_numbers::Source;
use rdf_values::{ColType, EntryFault, Value};

/// What is read of an entry over what is known.
#[derive(Drop)]
pub(crate) struct View<'a> {
    pub(crate) at: &'a EntryReading<'a>,
    pub(crate) cells: &'a [Known],
}

impl<'a> Inputs for View<'a> {
    ghost can = { λ v c. IsWork (plan_of v.at.now.job.now) (data_of v.at.now.job.now) × (v.at.now.entry < length (data_of v.at.now.job.now).rows) × AreKnown (plan_of v.at.now.job.now) (data_of v.at.now.job.now) v.cells.now
        × IsReadable (plan_of v.at.now.job.now) (data_of v.at.now.job.now) c × IsSourceHeld v.cells.now v.at.now.entry (source_in (plan_of v.at.now.job.now) (data_of v.at.now.job.now) c) };

    ghost look = { λ v c. with_needs (version_in (plan_of v.at.now.job.now) (data_of v.at.now.job.now) v.at.now.entry c) };

    fn at(&self, col: u32) -> ColumnInput<'_> {
        look(self.at, self.cells, col)
    }
}

/// What a version comes to, where its site's outcome is known.
pub(crate) fn look<'a: 's, 's>(
    at: &EntryReading<'a>,
    cells: &'s [Known],
    version: u32,
) -> ColumnInput<'s>
    requires work { IsWork (plan_of at.now.job.now) (data_of at.now.job.now) }
    requires entry { at.now.entry < length (data_of at.now.job.now).rows }
    requires known { AreKnown (plan_of at.now.job.now) (data_of at.now.job.now) cells.now }
    requires version { IsReadable (plan_of at.now.job.now) (data_of at.now.job.now) version }
    requires held { IsSourceHeld cells.now at.now.entry (source_in (plan_of at.now.job.now) (data_of at.now.job.now) version) }
    ensures { input_outcome version result ≡ with_needs (version_in (plan_of at.now.job.now) (data_of at.now.job.now) at.now.entry version) }
{
    match source_of(at, version) {
        Source::Cell { col } => cell(at.job.columns, at.entry, col),
        Source::Site { site } => whole(&cells[site as usize].outcome),
        Source::Element { site, place, tags } => {
            element(&cells[site as usize].outcome, place, tags)
        }
    }
}

/// The value of an entry's column.
fn cell(columns: &Columns, entry: u32, col: u32) -> ColumnInput<'_>
    requires entry { entry < length columns.now.table.rows }
    requires column { col < length columns.now.table.columns }
    ensures { (c : ℕ) → input_outcome c result ≡ cell_value (slice_get (row_in columns.now.table.rows entry) col) }
{
    match columns.columns()[col as usize].kind {
        ColType::Int => ColumnInput::Int(columns.int_at(entry, col)),
        ColType::Vect => ColumnInput::Vect(columns.vec_at(entry, col)),
        ColType::Bool => unreachable!(),
    }
}

/// What a site came to.
fn whole(outcome: &Result<Value, EntryFault>) -> ColumnInput<'_>
    ensures { (c : ℕ) → input_outcome c result ≡ outcome_of outcome.now }
{
    match outcome {
        Ok(Value::Int(z)) => ColumnInput::Int(*z),
        Ok(Value::Bool(b)) => ColumnInput::Bool(*b),
        Ok(Value::Vect(zs)) => ColumnInput::Vect(zs.as_slice()),
        Err(kind) => ColumnInput::Faulted(*kind),
    }
}

/// The element of what a site came to at the place of a tag among so many.
fn element(outcome: &Result<Value, EntryFault>, place: u32, tags: u32) -> ColumnInput<'_>
    ensures { (c : ℕ) → input_outcome c result ≡ element_of outcome.now place tags }
{
    match outcome {
        Ok(Value::Vect(zs)) => tagged(zs.as_slice(), place, tags),
        Ok(Value::Int(_)) | Ok(Value::Bool(_)) => ColumnInput::Int(0),
        Err(kind) => ColumnInput::Faulted(*kind),
    }
}

fn tagged(zs: &[i64], place: u32, tags: u32) -> ColumnInput<'_>
    ensures { (c : ℕ) → input_outcome c result ≡ tag_element tags place (Value.Vect zs.now) }
{
    if zs.len() != tags as usize {
        return ColumnInput::Faulted(EntryFault::VaryCount);
    }
    match zs.get(place as usize) {
        Some(z) => ColumnInput::Int(*z),
        None => ColumnInput::Faulted(EntryFault::Index),
    }
}
