// Values from entries, put behind those of their columns.
ghost use Rattle.std.specs.Prelude.{◌≤◌, ◌<◌, Ok, MatchResult, length};
ghost use Rattle.rdf_values.specs.{Answers, AreKept, cells_from, mark_of, row_of};
ghost use Rattle.rdf_values.specs.Answered.{Refuses};
ghost use Rattle.rdf_values.specs.tables.TableText.{cell_of};
ghost use Rattle.csv.specs.Records.{fields_of};
ghost use Rattle.table_csv.specs.{AreCellsPushed, IsCellPushed, IsRowPushed, kind_of};

use crate::records::field;
use crate::refusal::TableRefusal;
use csv::ByteRecord;
use rdf_values::{Cells, Column, TableCause, read_integer};

const MAX_ENTRIES: u32 = 1_000_000;

// Puts the value of a cell behind the others of its column.
#[tactic(auto, unfolding(rdf_values::specs::tables::TableText::cell_of))]
fn push_cell(entry: u32, field: u32, cell: &[u8], column: &mut Cells) -> Result<(), TableRefusal>
    ensures { MatchResult result (λ _. IsCellPushed (cell_of entry field (kind_of column.old) cell.now) column.old column.new)
        (Refuses TableRefusal.At TableRefusal.Memory (cell_of entry field (kind_of column.old) cell.now)) }
{
    match column {
        Cells::Ints(numbers) => match read_integer(cell) {
            Some(n) => Ok(numbers.push(n)?),
            None => Err(TableRefusal::At(TableCause::BadInt { entry, field })),
        },
        Cells::Vects(vectors) => {
            if vectors.push_text(cell)? {
                Ok(())
            } else {
                Err(TableRefusal::At(TableCause::BadVec { entry, field }))
            }
        }
    }
}

// Whether the cell of a mark says that a cluster begins at its entry.
#[tactic(auto, unfolding(rdf_values::specs::tables::TableText::mark_of))]
fn read_mark(entry: u32, field: u32, cell: &[u8]) -> Result<bool, TableRefusal>
    ensures { Answers TableRefusal.At TableRefusal.Memory (mark_of entry field cell.now) result }
{
    match cell {
        b"0" => Ok(false),
        b"1" => Ok(true),
        _ => Err(TableRefusal::At(TableCause::BadCut { entry, field })),
    }
}

// Puts the values of an entry's cells behind the others of their columns.
#[tactic(auto, using(crate::proofs::RecordSteps::pushing_start, rdf_values::proofs::KeptLemmas::kept_length, crate::proofs::RecordSteps::pushing_more))]
fn push_cells(
    entry: u32,
    columns: &[Column],
    fields: &ByteRecord,
    cells: &mut [Cells],
) -> Result<(), TableRefusal>
    requires few { length columns.now ≤ 64 }
    requires all { length columns.now ≤ length (fields_of fields.now) }
    requires kept { AreKept entry columns.now cells.old }
    ensures { MatchResult result (λ _. AreCellsPushed (cells_from entry 0 columns.now (fields_of fields.now)) cells.old cells.new)
        (Refuses TableRefusal.At TableRefusal.Memory (cells_from entry 0 columns.now (fields_of fields.now))) }
{
    for i in 0..columns.len() {
        push_cell(entry, i as u32, field(fields, i), &mut cells[i])?;
    }
    Ok(())
}

/// Puts the values of an entry behind the others of their columns, and tells whether a cluster begins there.
/// With `marked` a field of marks stands behind the columns. Where the entry is refused, a part of it may be left.
pub(crate) fn push_row(
    entry: u32,
    columns: &[Column],
    marked: bool,
    fields: &ByteRecord,
    cells: &mut [Cells],
) -> Result<bool, TableRefusal>
    requires few { length columns.now ≤ 64 }
    requires kept { AreKept entry columns.now cells.old }
    ensures { MatchResult result (λ begins. IsRowPushed (row_of entry (record { columns = columns.now; marked = marked }) (fields_of fields.now)) begins cells.old cells.new)
        (Refuses TableRefusal.At TableRefusal.Memory (row_of entry (record { columns = columns.now; marked = marked }) (fields_of fields.now))) }
{
    if entry >= MAX_ENTRIES {
        return Err(TableRefusal::At(TableCause::TooMany { entry }));
    }
    if fields.len() != columns.len() + usize::from(marked) {
        return Err(TableRefusal::At(TableCause::FieldCount { entry }));
    }
    push_cells(entry, columns, fields, cells)?;
    if !marked {
        return Ok(false);
    }
    read_mark(entry, columns.len() as u32, field(fields, columns.len()))
}
