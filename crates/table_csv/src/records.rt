// The records of CSV bytes, one after another.
ghost use Rattle.std.specs.Prelude.{◌≡◌, ◌<◌, [], List, ℕ, IfOk, length, slice_index_or};
ghost use Rattle.csv.specs.Records.{fields_of};
ghost use Rattle.table_csv.specs.{csv_records, Leaves, Took};

use csv::{ByteRecord, ErrorKind, Reader, ReaderBuilder};
use rdf_values::Memory;
use std::alloc::Global;

/// A reader of every record of the bytes.
#[tactic(auto, unfolding(crate::specs::Csv::csv_records))]
pub(crate) fn open(alloc: Global, bytes: &[u8]) -> Reader<&[u8]>
    ensures { Leaves result (csv_records bytes.now) }
{
    ReaderBuilder::new()
        .has_headers(false)
        .flexible(true)
        .from_reader(alloc, bytes)
}

/// Reads the next record, if there is one. `csv` leaves it open whether reading from bytes can fail as reading a file
/// can; it would be answered as want of memory.
pub(crate) fn next(reader: &mut Reader<&[u8]>, fields: &mut ByteRecord) -> Result<bool, Memory>
    requires { (left : List (List (List ℕ))) × Leaves reader.old left }
    ensures { IfOk result (λ found. (left : List (List (List ℕ))) → Leaves reader.old left → Took found left (fields_of fields.new) reader.new) }
{
    let error = match reader.read_byte_record(fields) {
        Ok(found) => return Ok(found),
        Err(error) => error,
    };
    match error.kind() {
        ErrorKind::OutOfMemory | ErrorKind::Io(_) => Err(Memory),
        _ => unreachable!(),
    }
}

/// The field at a place.
pub(crate) fn field(fields: &ByteRecord, i: usize) -> &[u8]
    requires { i < length (fields_of fields.now) }
    ensures { result.now ≡ slice_index_or (fields_of fields.now) i [] }
{
    fields.get(i).unwrap()
}
