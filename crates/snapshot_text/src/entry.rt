// The record of an entry.
ghost use Rattle.std.specs.Prelude.{◌≡◌, ◌++◌, ◌∷◌, OnOk, flat_map, map};
ghost use Rattle.rdf_values.specs.{value_of};
ghost use Rattle.snapshot_text.specs.{cell_field, entry_text, lone_field, record_text};

use crate::numbers::{put_number, put_numbers};
use rdf_values::{Cell, Memory, Text};

fn put_cell(text: &mut Text, cell: Cell<'_>) -> Result<(), Memory>
    ensures { OnOk result (text.new ≡ text.old ++ cell_field (value_of cell.entry)) }
{
    match cell {
        Cell::Int(z) => put_number(text, z),
        Cell::Vect(numbers) => put_numbers(text, numbers),
    }
}

// The cell of a table of one column.
fn put_lone_cell(text: &mut Text, cell: Cell<'_>) -> Result<(), Memory>
    ensures { OnOk result (text.new ≡ text.old ++ lone_field (value_of cell.entry)) }
{
    match cell {
        Cell::Int(z) => put_number(text, z),
        Cell::Vect(numbers) => {
            if numbers.is_empty() {
                text.extend(b"\"\"")
            } else {
                put_numbers(text, numbers)
            }
        }
    }
}

// Cells, each behind a comma.
fn put_more_cells(text: &mut Text, cells: &[Cell<'_>]) -> Result<(), Memory>
    ensures { OnOk result (text.new ≡ text.old ++ flat_map (λ c. 44 ∷ cell_field (value_of c)) cells.now) }
{
    for cell in cells {
        text.push(b',')?;
        put_cell(text, *cell)?;
    }
    Ok(())
}

fn put_cells(text: &mut Text, cells: &[Cell<'_>]) -> Result<(), Memory>
    ensures { OnOk result (text.new ≡ text.old ++ record_text (map value_of cells.now)) }
{
    let Some((first, rest)) = cells.split_first() else {
        return Ok(());
    };
    if rest.is_empty() {
        return put_lone_cell(text, *first);
    }
    put_cell(text, *first)?;
    put_more_cells(text, rest)
}

/// Appends the record of an entry's cells; at want of memory a part of it may stand there.
pub fn put_entry(text: &mut Text, cells: &[Cell<'_>]) -> Result<(), Memory>
    ensures { OnOk result (text.new ≡ text.old ++ entry_text (map value_of cells.now)) }
{
    put_cells(text, cells)?;
    text.push(b'\n')
}
