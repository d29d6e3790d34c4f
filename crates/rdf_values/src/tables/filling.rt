// Rows that are put into columns.
ghost use Rattle.std.specs.Prelude.{◌≡◌, IfOk, OnOk, OnErr, length, map};
ghost use Rattle.rdf_values.specs.{AreKept, cut_to, IsHeader, Keep, row_pushed};

use crate::memory::Memory;
use crate::tables::cells::Cells;
use crate::tables::table::Column;
use crate::tables::value::Value;
use std::alloc::Global;

/// No values for each column.
pub(crate) fn no_rows(alloc: Global, columns: &[Column]) -> Result<Vec<Cells>, Memory>
    requires { IsHeader columns.now }
    ensures { IfOk result (λ cells. AreKept 0 columns.now cells.items) }
{
    let mut cells = Vec::new(alloc);
    for column in columns {
        cells.push(Cells::new(alloc, column.kind))?;
    }
    Ok(cells)
}

// Drops the values of later entries.
#[tactic(auto, using(crate::proofs::KeptLemmas::cut_more, crate::proofs::KeptLemmas::all_cut))]
fn cut_back(cells: &mut [Cells], entries: usize)
    ensures { cells.new ≡ map (cut_to entries) cells.old }
{
    for column in cells.iter_mut() {
        column.truncate(entries);
    }
}

/// Appends a row to the values of so many entries; after want of memory they are as before.
#[tactic(auto, using(crate::proofs::KeptLemmas::set_stays, crate::proofs::KeptLemmas::cut_partly, crate::proofs::KeptLemmas::partly_more, crate::proofs::KeptLemmas::partly_all))]
pub(crate) fn push_row(cells: &mut [Cells], entries: usize, row: &[Value]) -> Result<(), Memory>
    requires keep { Keep entries cells.old }
    requires width { length row.now ≡ length cells.old }
    ensures ok { OnOk result (cells.new ≡ row_pushed cells.old row.now) }
    ensures err { OnErr result (cells.new ≡ cells.old) }
{
    for (col, value) in row.iter().enumerate() {
        if let Err(memory) = cells[col].push(value) {
            cut_back(cells, entries);
            return Err(memory);
        }
    }
    Ok(())
}
