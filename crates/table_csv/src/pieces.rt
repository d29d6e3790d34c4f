// Pieces of a table: a header line, and some of the lines behind it.
ghost use Rattle.std.specs.Prelude.{◌≡◌, ◌≤◌, ◌+◌, ◌<◌, ◌++◌, true, All, IfOk, IfSome, OnOk, length};
ghost use Rattle.table_csv.specs.{columns_over, IsHead, IsPiece, marks_behind};
ghost use Rattle.columns.specs.{table_joined};

use crate::entries::{read_entries, read_heading};
use crate::records::{next, open};
use crate::texts::has_special;
use columns::{Columns, TablePieces, cut};
use csv::ByteRecord;
use rdf_values::{Marks, Memory};
use std::alloc::Global;
use std::thread::Threads;

const MAX_ENTRIES: u32 = 1_000_000;

/// A table in pieces, and the entries at which its column of marks says that a cluster begins.
#[derive(Drop)]
pub struct MarkedPieces {
    pub table: TablePieces,
    pub marks: Marks,
}

impl MarkedPieces {
    /// The table's columns over clusters of at most that size, packed by so many slots side by side. The pieces of a column go
    /// as soon as it is packed.
    pub fn into_columns<R: Threads + Sync>(
        self,
        rt: &R,
        alloc: Global,
        size: u32,
        slots: u32,
    ) -> Result<Columns, Memory>
        requires within { All (λ e. e < length self.table.rows) self.marks }
        requires size { 1 ≤ size }
        ensures { IfOk result (λ columns. columns ≡ columns_over (record { table = self.table; marks = self.marks }) size) }
    {
        let cuts = cut(alloc, self.table.entries(), size, &self.marks)?;
        Columns::build_in_slots(rt, alloc, self.table, cuts, slots)
    }
}

/// Whether the bytes hold one record.
pub(crate) fn is_head(alloc: Global, bytes: &[u8]) -> Result<bool, Memory>
    ensures { IfOk result (λ yes. yes ≡ true → IsHead bytes.now) }
{
    let mut reader = open(alloc, bytes);
    let mut fields = ByteRecord::new(alloc);
    if !next(&mut reader, &mut fields)? {
        return Ok(false);
    }
    Ok(!next(&mut reader, &mut fields)?)
}

/// The table of a header line and of lines behind it, where these can be read without the others.
pub(crate) fn read_piece(alloc: Global, head: &[u8], lines: &[u8]) -> Option<MarkedPieces>
    requires { IsHead head.now }
    ensures { IfSome result (λ m. IsPiece head.now lines.now m) }
{
    if has_special(lines) {
        return None;
    }
    let heading = read_heading(alloc, &mut open(alloc, head)).ok()?;
    read_entries(alloc, heading, &mut open(alloc, lines)).ok()
}

// Puts the marks of entries behind those of so many entries before them.
#[tactic(auto, using(crate::proofs::RecordSteps::marks_above, crate::proofs::RecordSteps::mark_few, crate::proofs::RecordSteps::marks_more))]
fn append_marks(marks: &mut Marks, entries: u32, more: &Marks) -> Result<(), Memory>
    requires before { All (λ m. m < entries) marks.old }
    requires few { All (λ m. entries + m < 1000000) more.now }
    ensures { OnOk result (marks.new ≡ marks.old ++ marks_behind entries more.now) }
{
    for i in 0..more.len() {
        marks.push(entries + more.at(i))?;
    }
    Ok(())
}

/// Puts the entries of a piece behind those of the piece before it, where a table holds so many.
pub(crate) fn append_pieces(first: MarkedPieces, second: MarkedPieces) -> Option<MarkedPieces>
    requires same { second.table.columns ≡ first.table.columns }
    requires before { All (λ e. e < length first.table.rows) first.marks }
    requires within { All (λ e. e < length second.table.rows) second.marks }
    ensures few { IfSome result (λ m. length first.table.rows + length second.table.rows ≤ 1000000) }
    ensures table { IfSome result (λ m. m.table ≡ table_joined first.table second.table) }
    ensures marks { IfSome result (λ m. m.marks ≡ first.marks ++ marks_behind (length first.table.rows) second.marks) }
{
    let entries = first.table.entries();
    if entries + second.table.entries() > MAX_ENTRIES {
        return None;
    }
    let mut marks = first.marks;
    append_marks(&mut marks, entries, &second.marks).ok()?;
    let table = first.table.append(second.table).ok()?;
    Some(MarkedPieces { table, marks })
}
