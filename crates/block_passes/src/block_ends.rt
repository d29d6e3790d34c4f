// Where the blocks of a cluster end.
ghost use Rattle.std.specs.Prelude.{◌≡◌, ◌⊎◌, ◌<◌, ◌≤◌, ◌+◌, List, Some, length, map, slice_get, slice_range};
ghost use Rattle.std.specs.List.{sum_by};
ghost use Rattle.rdf_values.specs.{kind_at, Value as CellValue};
ghost use Rattle.block_laws.specs.{elements_in, first_length, row_elements};

use columns::Columns;
use rdf_values::{ColType, Span};

/// How many elements all vectors of a block may have together, unless it has but one entry.
const MAX_ELEMENTS: u64 = 4194304;

// The kind of a column.
fn column_kind(columns: &Columns, col: u32) -> ColType
    requires { col < length columns.now.table.columns }
    ensures { kind_at columns.now.table.columns col ≡ Some result }
{
    columns.columns()[col as usize].kind
}

// How many elements a cell has.
#[tactic(auto, using(crate::proofs::FirstLengths::vect_cell, crate::proofs::FirstLengths::plain_cell))]
fn cell_elements(columns: &Columns, entry: u32, col: u32) -> u64
    requires entry { entry < length columns.now.table.rows }
    requires column { col < length columns.now.table.columns }
    ensures value { (row : List CellValue) (v : CellValue) → slice_get columns.now.table.rows entry ≡ Some row → slice_get row col ≡ Some v → result ≡ elements_in v }
    ensures few { result ≤ 4096 }
{
    let _table = columns.columns();
    match column_kind(columns, col) {
        ColType::Vect => columns.vec_at(entry, col).len() as u64,
        _ => 0,
    }
}

// How many elements all cells of an entry have.
fn entry_elements(columns: &Columns, entry: u32) -> u64
    requires entry { entry < length columns.now.table.rows }
    ensures value { (row : List CellValue) → slice_get columns.now.table.rows entry ≡ Some row → result ≡ sum_by elements_in row }
    ensures few { result ≤ 262144 }
{
    let mut elements = 0;
    let count = columns.columns().len() as u32;
    for col in 0..count {
        elements += cell_elements(columns, entry, col);
    }
    elements
}

// How many elements so many keys of vectors may have together at an entry.
fn key_elements(columns: &Columns, entry: u32, keys: u64) -> u64
    requires entry { entry < length columns.now.table.rows }
    requires keys { keys < 1099511627776 }
    ensures value { (row : List CellValue) → slice_get columns.now.table.rows entry ≡ Some row → result ≡ row_elements keys row }
    ensures few { result ≤ 288230376151711744 }
{
    keys * entry_elements(columns, entry)
}

// The last end that a block may have, of so many entries at most.
fn last_end(entries: Span, size: u32) -> u32
    requires size { 1 ≤ size }
    requires some { entries.lo < entries.hi }
    ensures whole { (result ≡ entries.lo + size) ⊎ (result ≡ entries.hi) }
    ensures within { result ≤ entries.hi }
    ensures few { result ≤ entries.lo + size }
    ensures some { entries.lo < result }
{
    if size < entries.hi - entries.lo {
        return entries.lo + size;
    }
    entries.hi
}

/// The end of the block that begins with the first of some entries, of so many at most, in a loop with so many keys of vectors.
#[tactic(auto, using(crate::proofs::FirstLengths::begin_at, crate::proofs::FirstLengths::next_at))]
pub(crate) fn block_end(columns: &Columns, entries: Span, size: u32, keys: u64) -> u32
    requires size { 1 ≤ size }
    requires keys { keys < 1099511627776 }
    requires some { entries.lo < entries.hi }
    requires within { entries.hi ≤ length columns.now.table.rows }
    ensures { result ≡ entries.lo + first_length size 4194304 (map (row_elements keys) (slice_range columns.now.table.rows entries.lo entries.hi)) }
{
    let last = last_end(entries, size);
    if keys == 0 {
        return last;
    }
    let mut elements = key_elements(columns, entries.lo, keys);
    for end in entries.lo + 1..last {
        elements += key_elements(columns, end, keys);
        if MAX_ELEMENTS < elements {
            return end;
        }
    }
    last
}
