// Tables of a chain.
ghost use Rattle.std.specs.Prelude.{◌≡◌, ◌≤◌, ◌++◌, ◌∷◌, [], IfOk};
ghost use Rattle.chain_program.specs.{ReadsTable};

use crate::answer::{Answer, Read};
use crate::lines::{long_table, refused_table};
use chain_words::Settings;
use columns::Columns;
use input_files::{Fetched, MAX_TABLE, ReadFile, absent, columns_of, fetch_parts, unread};
use rdf_outside::Shelf;
use rdf_values::Memory;
use std::alloc::Global;
use std::thread::Threads;

/// Reads the table of the file of that name and packs its columns, side by side where there are several slots.
pub(crate) fn read_table<R: Threads + Sync, S: Shelf>(
    rt: &R,
    alloc: Global,
    shelf: &mut S,
    name: &str,
    settings: Settings,
) -> Result<Read<Columns>, Memory>
    requires size { 1 ≤ settings.cluster }
    ensures same { S.files shelf.new ≡ S.files shelf.old }
    ensures turns { S.turns shelf.new ≡ S.turns shelf.old ++ name.now ∷ [] }
    ensures later { S.faults shelf.old ≤ S.faults shelf.new }
    ensures read { IfOk result (ReadsTable (S.files shelf.old) name.now settings.cluster (S.turns shelf.new) (S.faults shelf.old) (S.faults shelf.new)) }
{
    let fetched = fetch_parts(rt, alloc, shelf, name, MAX_TABLE, settings.slots)?;
    let parts = match fetched {
        Fetched::Whole(parts) => parts,
        Fetched::Absent => return Ok(Read::Refused(Answer::of(absent(alloc, name)?))),
        Fetched::TooLong => return Ok(Read::Refused(long_table(alloc, name)?)),
        Fetched::Failed => return Ok(Read::Refused(Answer::of(unread(alloc, name)?))),
    };
    match columns_of(rt, alloc, parts, settings.cluster, settings.slots)? {
        ReadFile::Whole(columns) => Ok(Read::Whole(columns)),
        ReadFile::Refused(refusal) => {
            let answer = refused_table(alloc, name, refusal.line.as_bytes())?;
            Ok(Read::Refused(answer))
        }
    }
}
