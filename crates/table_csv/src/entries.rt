// The reading of a whole table, from one record after another.
ghost use Rattle.std.specs.Prelude.{◌≡◌, ◌<◌, All, IfOk, List, ℕ, MatchResult, Ok, length};
ghost use Rattle.rdf_values.specs.Answered.{Refuses};
ghost use Rattle.rdf_values.specs.{IsHeader, table_of};
ghost use Rattle.table_csv.specs.{csv_records, entries_of, IsHeaded, Leaves};

use crate::cells::push_row;
use crate::header::{Heading, read_header};
use crate::pieces::MarkedPieces;
use crate::records::{next, open};
use crate::refusal::TableRefusal;
use columns::TablePieces;
use csv::{ByteRecord, Reader};
use rdf_values::{Marks, Table, TableCause, TableParts};
use std::alloc::Global;

/// The header that the next record spells.
pub(crate) fn read_heading(
    alloc: Global,
    reader: &mut Reader<&[u8]>,
) -> Result<Heading, TableRefusal>
    requires { (left : List (List (List ℕ))) × Leaves reader.old left }
    ensures { (left : List (List (List ℕ))) → Leaves reader.old left → MatchResult result (λ h. IsHeaded left (record { columns = h.columns; marked = h.marked }) reader.new)
        (Refuses TableRefusal.At TableRefusal.Memory (table_of left)) }
{
    let mut fields = ByteRecord::new(alloc);
    if !next(reader, &mut fields)? {
        return Err(TableRefusal::At(TableCause::Header { field: 0 }));
    }
    read_header(alloc, &fields)
}

/// The table of a header and of all records that are left, in one piece, with its marks.
#[tactic(auto, using(crate::proofs::TableSteps::same_columns, crate::proofs::TableSteps::reading_opened, crate::proofs::RecordSteps::row_early))]
pub(crate) fn read_entries(
    alloc: Global,
    heading: Heading,
    reader: &mut Reader<&[u8]>,
) -> Result<MarkedPieces, TableRefusal>
    requires header { IsHeader heading.columns }
    requires left { (left : List (List (List ℕ))) × Leaves reader.old left }
    ensures value { (left : List (List (List ℕ))) → Leaves reader.old left → MatchResult result
        (λ m. entries_of (record { columns = heading.columns; marked = heading.marked }) left ≡ Ok (record { table = m.table; marks = m.marks }))
        (Refuses TableRefusal.At TableRefusal.Memory (entries_of (record { columns = heading.columns; marked = heading.marked }) left)) }
    ensures within { IfOk result (λ m. All (λ e. e < length m.table.rows) m.marks) }
{
    let marked = heading.marked;
    let parts = Table::new(alloc, heading.columns)?.into_parts();
    let columns = parts.columns;
    let mut cells = parts.cells;
    let mut entry = parts.entries;
    let mut marks = Marks::new(alloc);
    let mut fields = ByteRecord::new(alloc);
    while next(reader, &mut fields)? {
        let begins = push_row(entry, columns.as_slice(), marked, &fields, &mut cells)?;
        if begins {
            marks.push(entry)?;
        }
        entry += 1;
    }
    let table = Table::from_parts(TableParts {
        columns,
        cells,
        entries: entry,
    });
    let table = TablePieces::of(alloc, table)?;
    Ok(MarkedPieces { table, marks })
}

/// The table that CSV bytes spell, in one piece, with its marks. The first record is the header, each other record an entry.
pub fn read_table(alloc: Global, bytes: &[u8]) -> Result<MarkedPieces, TableRefusal>
    ensures value { MatchResult result (λ m. table_of (csv_records bytes.now) ≡ Ok (record { table = m.table; marks = m.marks }))
        (Refuses TableRefusal.At TableRefusal.Memory (table_of (csv_records bytes.now))) }
    ensures within { IfOk result (λ m. All (λ e. e < length m.table.rows) m.marks) }
{
    let mut reader = open(alloc, bytes);
    let heading = read_heading(alloc, &mut reader)?;
    read_entries(alloc, heading, &mut reader)
}
