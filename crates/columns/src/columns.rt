// The columns of a table over its clusters.
ghost use Rattle.std.specs.Prelude.{◌≡◌, ◌<◌, ℤ, List, IfOk, Some, length, slice_get, slice_range};
ghost use Rattle.rdf_values.specs.{cell, cut, IsIntColumn, IsTable, IsVectColumn, kind_at, Span};
ghost use Rattle.rdf_values.specs.declared.tables.value.ColType.TheVariants as k;
ghost use Rattle.rdf_values.specs.declared.tables.value.Value.TheVariants as v;
ghost use Rattle.columns.specs.Packings.{cluster_values, packed_of, packing_of};
ghost use Rattle.columns.specs.Joins.{joined};

use crate::cuts::Cuts;
use crate::kept::{PackedColumn, keep_in_slots};
use crate::packed_ints::PackedInts;
use crate::packing::Packing;
use crate::table_pieces::TablePieces;
use rdf_values::{Column, ListOf, Memory, Vects};
use std::alloc::Global;
use std::marker::Model;
use std::thread::Threads;

/// The columns of a table, and the cuts of its entries. The numbers of an int column are packed cluster by cluster.
#[derive(Drop)]
pub struct Columns {
    columns: ListOf<Column>,
    kept: Vec<PackedColumn>,
    cuts: Cuts,
}

impl Model for Columns {
    ghost use Rattle.std.specs.Prelude.{map};
    ghost use Rattle.rdf_values.specs.{rows_kept};
    ghost use Rattle.columns.specs.Views.{ColumnsView};
    ghost use Rattle.columns.specs.Joins.{HoldColumns, cells_of};

    ghost Value = { ColumnsView };

    ghost view = { λ c. record { table = record { columns = c.columns; rows = rows_kept c.cuts.entries (map cells_of c.kept.items) }; cuts = c.cuts } };

    ghost invariant = { λ c. HoldColumns c.columns c.kept.items c.cuts };
}

impl Columns {
    /// The columns of a table over the clusters of its entries, packed by so many slots side by side. Each column of the table
    /// goes as soon as it is packed.
    pub fn build_in_slots<R: Threads + Sync>(
        rt: &R,
        alloc: Global,
        table: TablePieces,
        cuts: Cuts,
        slots: u32,
    ) -> Result<Columns, Memory>
        requires { cuts.entries ≡ length table.rows }
        ensures { IfOk result (λ columns. columns ≡ record { table = table; cuts = cuts }) }
    {
        let parts = table.into_parts();
        let kept = keep_in_slots(rt, alloc, parts.pieces, &cuts, slots)?;
        Ok(Columns {
            columns: parts.columns,
            kept,
            cuts,
        })
    }

    /// How the entries are cut.
    pub fn cuts(&self) -> &Cuts
        ensures value { result.now ≡ self.now.cuts }
        ensures valid { result.now.entries ≡ length self.now.table.rows }
    {
        &self.cuts
    }

    /// The columns' names and types, in order.
    #[tactic(auto, using(rdf_values::proofs::KeptLemmas::holds_table))]
    pub fn columns(&self) -> &[Column]
        ensures value { result.now ≡ self.now.table.columns }
        ensures valid { IsTable self.now.table }
    {
        self.columns.as_slice()
    }

    /// How many entries there are.
    pub fn entries(&self) -> u32
        ensures value { result ≡ length self.now.table.rows }
        ensures valid { IsTable self.now.table }
    {
        self.cuts.entries()
    }

    // The numbers of an int column, by cluster.
    #[tactic(auto, using(crate::proofs::InPieces::col_within, crate::proofs::InPieces::not_vects, crate::proofs::InPieces::ints_found))]
    pub(crate) fn ints(&self, col: u32) -> &PackedInts
        requires { kind_at self.now.table.columns col ≡ Some k.Int }
        ensures column { IsIntColumn self.now.table col (joined result.now) }
        ensures clusters { result.now ≡ cluster_values (cut self.now.cuts.entries self.now.cuts.size self.now.cuts.marks) (joined result.now) }
    {
        match &self.kept[col as usize] {
            PackedColumn::Ints(numbers) => numbers,
            PackedColumn::Vects(_) => unreachable!(),
        }
    }

    /// The vectors of a vec column, one per entry.
    #[tactic(auto, using(crate::proofs::InPieces::col_within, crate::proofs::InPieces::not_ints, crate::proofs::InPieces::vects_found))]
    pub fn vects(&self, col: u32) -> &Vects
        requires { kind_at self.now.table.columns col ≡ Some k.Vect }
        ensures { IsVectColumn self.now.table col result.now }
    {
        match &self.kept[col as usize] {
            PackedColumn::Vects(vectors) => vectors,
            PackedColumn::Ints(_) => unreachable!(),
        }
    }

    /// The number of an entry in an int column.
    pub fn int_at(&self, entry: u32, col: u32) -> i64
        requires row { entry < length self.now.table.rows }
        requires column { kind_at self.now.table.columns col ≡ Some k.Int }
        ensures { cell self.now.table entry col ≡ Some (v.Int result) }
    {
        let cluster = self.cuts.cluster_of(entry);
        let first = self.cuts.range(cluster).lo;
        self.ints(col)
            .at(cluster as usize, (entry - first) as usize)
    }

    /// The elements of an entry's vector in a vec column.
    pub fn vec_at(&self, entry: u32, col: u32) -> &[i64]
        requires row { entry < length self.now.table.rows }
        requires column { kind_at self.now.table.columns col ≡ Some k.Vect }
        ensures { cell self.now.table entry col ≡ Some (v.Vect result.now) }
    {
        self.vects(col).at(entry as usize)
    }

    /// How the numbers of a cluster are packed in an int column.
    #[tactic(auto, using(crate::proofs::InPieces::cluster_numbers))]
    pub fn packing(&self, cluster: u32, col: u32) -> Packing
        requires cluster { cluster < length (cut self.now.cuts.entries self.now.cuts.size self.now.cuts.marks) }
        requires column { kind_at self.now.table.columns col ≡ Some k.Int }
        ensures { (numbers : List ℤ) (span : Span) → IsIntColumn self.now.table col numbers → slice_get (cut self.now.cuts.entries self.now.cuts.size self.now.cuts.marks) cluster ≡ Some span
            → result ≡ packing_of (slice_range numbers span.lo span.hi) }
    {
        self.ints(col).packing(cluster as usize)
    }

    /// The bytes of the numbers of a cluster in an int column: for each entry its difference to the least, lowest byte first.
    #[tactic(auto, using(crate::proofs::InPieces::cluster_numbers))]
    pub fn packed(&self, cluster: u32, col: u32) -> &[u8]
        requires cluster { cluster < length (cut self.now.cuts.entries self.now.cuts.size self.now.cuts.marks) }
        requires column { kind_at self.now.table.columns col ≡ Some k.Int }
        ensures { (numbers : List ℤ) (span : Span) → IsIntColumn self.now.table col numbers → slice_get (cut self.now.cuts.entries self.now.cuts.size self.now.cuts.marks) cluster ≡ Some span
            → result.now ≡ packed_of (slice_range numbers span.lo span.hi) }
    {
        self.ints(col).packed(cluster as usize)
    }
}
