// Tables of events, and refusals of them.
ghost use Rattle.std.specs.Prelude.{◌≡◌, ◌<◌, ◌++◌, ◌∷◌, [], length, Some, IfOk, OnOk, OnErr};

use crate::list::ListOf;
use crate::memory::Memory;
use crate::scripts::name::Name;
use crate::tables::cells::Cells;
use crate::tables::filling::{no_rows, push_row};
use crate::tables::value::{Cell, ColType, Value};
use std::alloc::Global;
use std::marker::Model;

/// Columns, and rows that fit them: 1 to 64 columns of kind Int or Vect with distinct names, at most 1,000,000 rows.
/// The cells are kept column by column.
#[derive(Drop)]
pub struct Table {
    columns: ListOf<Column>,
    cells: Vec<Cells>,
    entries: u32,
}

impl Model for Table {
    ghost use Rattle.rdf_values.specs.tables.Kept.{HoldsTable, rows_kept};
    ghost use Rattle.rdf_values.specs.tables.Tables.{TableView};

    ghost Value = { TableView };

    ghost view = { λ t. record { columns = t.columns; rows = rows_kept t.entries t.cells.items } };

    ghost invariant = { λ t. HoldsTable t.columns t.cells.items t.entries };
}

impl Table {
    ghost use Rattle.rdf_values.specs.tables.Kept.{HoldsTable, rows_kept};
    ghost use Rattle.rdf_values.specs.tables.Tables.{FitsRow, IsHeader, IsTable, cell, value_of};

    /// A table of no rows.
    #[tactic(auto, using(crate::proofs::KeptLemmas::holds_new, crate::proofs::KeptLemmas::no_rows_kept))]
    pub fn new(alloc: Global, columns: ListOf<Column>) -> Result<Table, Memory>
        requires { IsHeader columns }
        ensures { IfOk result (λ table. table ≡ record { columns = columns; rows = [] }) }
    {
        let cells = no_rows(alloc, columns.as_slice())?;
        Ok(Table {
            columns,
            cells,
            entries: 0,
        })
    }

    /// The table of parts that hold one; no memory is taken.
    pub fn from_parts(parts: TableParts) -> Table
        requires { HoldsTable parts.columns parts.cells.items parts.entries }
        ensures { result ≡ record { columns = parts.columns; rows = rows_kept parts.entries parts.cells.items } }
    {
        Table {
            columns: parts.columns,
            cells: parts.cells,
            entries: parts.entries,
        }
    }

    /// The columns with their values; no memory is taken.
    pub fn into_parts(self) -> TableParts
        ensures holds { HoldsTable result.columns result.cells.items result.entries }
        ensures same { self ≡ record { columns = result.columns; rows = rows_kept result.entries result.cells.items } }
    {
        TableParts {
            columns: self.columns,
            cells: self.cells,
            entries: self.entries,
        }
    }

    /// Appends a row; the row is left empty, with its room, for the next one.
    #[tactic(auto, using(crate::proofs::KeptLemmas::keep, crate::proofs::KeptLemmas::fits_length, crate::proofs::KeptLemmas::kept_length, crate::proofs::KeptLemmas::pushed_back, crate::proofs::KeptLemmas::rows_after_push))]
    pub fn push(&mut self, row: &mut ListOf<Value>) -> Result<(), Memory>
        requires fits { FitsRow self.old.columns row.old }
        requires room { length self.old.rows < 1000000 }
        ensures ok { OnOk result ((self.new ≡ record self.old { rows = self.old.rows ++ row.old ∷ [] }) × (row.new ≡ [])) }
        ensures err { OnErr result ((self.new ≡ self.old) × (row.new ≡ row.old)) }
    {
        push_row(&mut self.cells, self.entries as usize, row.as_slice())?;
        row.clear();
        self.entries += 1;
        Ok(())
    }

    /// The columns in order.
    #[tactic(auto, using(crate::proofs::KeptLemmas::holds_table))]
    pub fn columns(&self) -> &[Column]
        ensures value { result.now ≡ self.now.columns }
        ensures valid { IsTable self.now }
    {
        self.columns.as_slice()
    }

    /// How many rows there are.
    pub fn entries(&self) -> u32
        ensures value { result ≡ length self.now.rows }
        ensures valid { IsTable self.now }
    {
        self.entries
    }

    /// The value of an entry's column, both counted from 0.
    #[tactic(auto, using(crate::proofs::KeptLemmas::kept_length))]
    pub fn value(&self, entry: u32, col: u32) -> Cell<'_>
        requires row { entry < length self.now.rows }
        requires column { col < length self.now.columns }
        ensures { cell self.now entry col ≡ Some (value_of result) }
    {
        match &self.cells[col as usize] {
            Cells::Ints(numbers) => Cell::Int(numbers.at(entry as usize)),
            Cells::Vects(vectors) => Cell::Vect(vectors.at(entry as usize)),
        }
    }
}

/// A column's name and type.
#[derive(Clone, Debug, Drop)]
pub struct Column {
    pub name: Name,
    pub kind: ColType,
}

/// The columns of a table, the values of each, and how many entries there are.
#[derive(Drop)]
pub struct TableParts {
    pub columns: ListOf<Column>,
    pub cells: Vec<Cells>,
    pub entries: u32,
}

/// Why records are no table, printed as B1 to B6. Fields and entries count from 0.
#[derive(Clone, Copy, Debug, PartialEq, Eq)]
pub enum TableCause {
    Header { field: u32 },
    FieldCount { entry: u32 },
    BadInt { entry: u32, field: u32 },
    BadVec { entry: u32, field: u32 },
    TooMany { entry: u32 },
    BadCut { entry: u32, field: u32 },
}
