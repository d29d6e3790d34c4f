// A table in pieces.
ghost use Rattle.std.specs.Prelude.{◌≡◌, ◌≤◌, ◌+◌, IfOk, length, map};
ghost use Rattle.rdf_values.specs.{HoldsTable, IsTable, rows_kept};
ghost use Rattle.columns.specs.Joins.{columns_joined, table_joined, whole};

use crate::column_pieces::ColumnPieces;
use rdf_values::{Cells, Column, ListOf, Memory, Table};
use std::alloc::Global;
use std::marker::Model;

/// A table whose columns are kept in pieces, so that no number is copied where tables are put together.
#[derive(Drop)]
pub struct TablePieces {
    columns: ListOf<Column>,
    pieces: Vec<ColumnPieces>,
    entries: u32,
}

impl Model for TablePieces {
    ghost use Rattle.std.specs.Prelude.{map};
    ghost use Rattle.rdf_values.specs.{HoldsTable, rows_kept, TableView};
    ghost use Rattle.columns.specs.Joins.{whole};

    ghost Value = { TableView };

    ghost view = { λ t. record { columns = t.columns; rows = rows_kept t.entries (map whole t.pieces.items) } };

    ghost invariant = { λ t. HoldsTable t.columns (map whole t.pieces.items) t.entries };
}

/// The columns of a table, the pieces of each, and how many entries there are.
#[derive(Drop)]
pub struct PiecesParts {
    pub columns: ListOf<Column>,
    pub pieces: Vec<ColumnPieces>,
    pub entries: u32,
}

// Columns in one piece each.
fn one_piece_each(alloc: Global, cells: Vec<Cells>) -> Result<Vec<ColumnPieces>, Memory>
    ensures { IfOk result (λ pieces. map whole pieces.items ≡ cells.items) }
{
    let mut pieces = Vec::new(alloc);
    for column in cells {
        pieces.push(ColumnPieces::of(alloc, column)?)?;
    }
    Ok(pieces)
}

// Columns with the pieces of other columns behind their own.
#[tactic(auto, using(crate::proofs::InPieces::alone))]
fn append_columns(
    mut columns: Vec<ColumnPieces>,
    more: Vec<ColumnPieces>,
) -> Result<Vec<ColumnPieces>, Memory>
    requires { length more.items ≡ length columns.items }
    ensures { IfOk result (λ all. map whole all.items ≡ columns_joined (map whole columns.items) (map whole more.items)) }
{
    for (col, pieces) in more.into_iter().enumerate() {
        columns[col].append(pieces)?;
    }
    Ok(columns)
}

impl TablePieces {
    /// A table in one piece.
    pub fn of(alloc: Global, table: Table) -> Result<TablePieces, Memory>
        ensures { IfOk result (λ pieces. pieces ≡ table) }
    {
        let parts = table.into_parts();
        Ok(TablePieces {
            columns: parts.columns,
            pieces: one_piece_each(alloc, parts.cells)?,
            entries: parts.entries,
        })
    }

    /// The rows of another table behind those of this one.
    #[tactic(auto, using(crate::proofs::InPieces::same_pieces, crate::proofs::InPieces::same_count, crate::proofs::InPieces::rows_joined))]
    pub fn append(self, more: TablePieces) -> Result<TablePieces, Memory>
        requires same { more.columns ≡ self.columns }
        requires few { length self.rows + length more.rows ≤ 1000000 }
        ensures { IfOk result (λ table. table ≡ table_joined self more) }
    {
        let first = self.into_parts();
        let second = more.into_parts();
        Ok(TablePieces {
            columns: first.columns,
            pieces: append_columns(first.pieces, second.pieces)?,
            entries: first.entries + second.entries,
        })
    }

    /// The table of parts that hold one; no memory is taken.
    pub fn from_parts(parts: PiecesParts) -> TablePieces
        requires { HoldsTable parts.columns (map whole parts.pieces.items) parts.entries }
        ensures { result ≡ record { columns = parts.columns; rows = rows_kept parts.entries (map whole parts.pieces.items) } }
    {
        TablePieces {
            columns: parts.columns,
            pieces: parts.pieces,
            entries: parts.entries,
        }
    }

    /// The columns with their pieces; no memory is taken.
    pub fn into_parts(self) -> PiecesParts
        ensures holds { HoldsTable result.columns (map whole result.pieces.items) result.entries }
        ensures same { self ≡ record { columns = result.columns; rows = rows_kept result.entries (map whole result.pieces.items) } }
    {
        PiecesParts {
            columns: self.columns,
            pieces: self.pieces,
            entries: self.entries,
        }
    }

    /// How many rows there are.
    pub fn entries(&self) -> u32
        ensures value { result ≡ length self.now.rows }
        ensures valid { IsTable self.now }
    {
        self.entries
    }
}
