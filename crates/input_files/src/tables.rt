// Tables in files.
ghost use Rattle.std.specs.Prelude.{◌≡◌, ◌≤◌, ◌++◌, ◌∷◌, [], IfOk};
ghost use Rattle.columns.specs.{joined};
ghost use Rattle.input_files.specs.{IsSpelt, IsTaken, ReadsColumnsFile, ReadsColumnsText, ReadsTableFile};

use crate::refuse::{FileCause, ReadFile, absent, refused, unread};
use crate::whole_file::{Fetched, fetch, fetch_parts};
use columns::Columns;
use rdf_outside::Shelf;
use rdf_values::{Bytes, Memory};
use result_text::Refusal;
use std::alloc::Global;
use std::thread::Threads;
use table_csv::{MarkedPieces, TableRefusal, read_columns, read_table_in_slots};

/// The most bytes of a table.
pub const MAX_TABLE: usize = 67_108_864;

// What the bytes of a table spell, or their refusal.
fn spelt<T>(alloc: Global, read: Result<T, TableRefusal>) -> Result<ReadFile<T>, Memory>
    ensures { IfOk result (IsSpelt read) }
{
    match read {
        Ok(whole) => Ok(ReadFile::Whole(whole)),
        Err(TableRefusal::Memory) => Err(Memory),
        Err(TableRefusal::At(cause)) => {
            let refusal = refused(alloc, FileCause::TableRefused, &Refusal::Table(cause))?;
            Ok(ReadFile::Refused(refusal))
        }
    }
}

/// The columns of the table that the bytes of the parts spell, one behind the other, over clusters of at most that size, or
/// its refusal. The table is read and packed side by side where there are several slots; the bytes go once they are read.
pub fn columns_of<R: Threads + Sync>(
    rt: &R,
    alloc: Global,
    parts: Vec<Bytes>,
    size: u32,
    slots: u32,
) -> Result<ReadFile<Columns>, Memory>
    requires size { 1 ≤ size }
    ensures { IfOk result (ReadsColumnsText (joined parts.items) size) }
{
    spelt(alloc, read_columns(rt, alloc, parts, size, slots))
}

// What was fetched of a table, or the refusal where it isn't the whole file.
fn whole_or_refused<T>(
    alloc: Global,
    name: &str,
    fetched: Fetched<T>,
) -> Result<ReadFile<T>, Memory>
    ensures { IfOk result (IsTaken name.now fetched) }
{
    match fetched {
        Fetched::Whole(holder) => Ok(ReadFile::Whole(holder)),
        Fetched::Absent => Ok(ReadFile::Refused(absent(alloc, name)?)),
        Fetched::TooLong => Ok(ReadFile::Refused(refused(
            alloc,
            FileCause::TableRefused,
            &Refusal::TableLong,
        )?)),
        Fetched::Failed => Ok(ReadFile::Refused(unread(alloc, name)?)),
    }
}

/// Reads the table of the file that a shelf has under a name, in pieces side by side where there are several slots.
pub fn read_table_file<R: Threads + Sync, S: Shelf>(
    rt: &R,
    alloc: Global,
    shelf: &mut S,
    name: &str,
    slots: u32,
) -> Result<ReadFile<MarkedPieces>, Memory>
    ensures same { S.files shelf.new ≡ S.files shelf.old }
    ensures turns { S.turns shelf.new ≡ S.turns shelf.old ++ name.now ∷ [] }
    ensures later { S.faults shelf.old ≤ S.faults shelf.new }
    ensures read { IfOk result (ReadsTableFile (S.files shelf.old) name.now (S.faults shelf.old) (S.faults shelf.new)) }
{
    let fetched = fetch(alloc, shelf, name, MAX_TABLE)?;
    match whole_or_refused(alloc, name, fetched)? {
        ReadFile::Whole(bytes) => {
            let read = read_table_in_slots(rt, alloc, bytes.as_slice(), slots);
            spelt(alloc, read)
        }
        ReadFile::Refused(refusal) => Ok(ReadFile::Refused(refusal)),
    }
}

/// Reads the table of the file that a shelf has under a name, and packs its columns over clusters of at most that size.
pub fn read_columns_file<R: Threads + Sync, S: Shelf>(
    rt: &R,
    alloc: Global,
    shelf: &mut S,
    name: &str,
    size: u32,
    slots: u32,
) -> Result<ReadFile<Columns>, Memory>
    requires size { 1 ≤ size }
    ensures same { S.files shelf.new ≡ S.files shelf.old }
    ensures turns { S.turns shelf.new ≡ S.turns shelf.old ++ name.now ∷ [] }
    ensures later { S.faults shelf.old ≤ S.faults shelf.new }
    ensures read { IfOk result (ReadsColumnsFile (S.files shelf.old) name.now size (S.faults shelf.old) (S.faults shelf.new)) }
{
    let fetched = fetch_parts(rt, alloc, shelf, name, MAX_TABLE, slots)?;
    match whole_or_refused(alloc, name, fetched)? {
        ReadFile::Whole(parts) => columns_of(rt, alloc, parts, size, slots),
        ReadFile::Refused(refusal) => Ok(ReadFile::Refused(refusal)),
    }
}
