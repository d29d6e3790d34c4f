// Whole files by their names.
ghost use Rattle.std.specs.Prelude.{◌≡◌, ◌≤◌, ◌<◌, ◌^◌, ◌+◌, ◌++◌, ◌∷◌, [], IfOk};
ghost use Rattle.columns.specs.{joined};
ghost use Rattle.input_files.specs.{fetched_by, IsFetched, IsFetchedIn, missed_by};

use rdf_outside::{ReadRefusal, Shelf, TurnStop, read_parts, read_whole};
use rdf_values::{Bytes, Memory};
use std::alloc::Global;
use std::thread::Threads;

/// What reading a file gives.
#[derive(Drop)]
pub enum Fetched<T> {
    Whole(T),
    Absent,
    TooLong,
    Failed,
}

fn as_fetched<T>(read: Result<T, ReadRefusal>) -> Result<Fetched<T>, Memory>
    ensures { result ≡ fetched_by read }
{
    match read {
        Ok(holder) => Ok(Fetched::Whole(holder)),
        Err(ReadRefusal::Memory) => Err(Memory),
        Err(ReadRefusal::Failed) => Ok(Fetched::Failed),
        Err(ReadRefusal::TooLarge) => Ok(Fetched::TooLong),
    }
}

// What is left to answer where no file was turned to.
fn as_missed<T>(turned: Result<bool, TurnStop>) -> Result<Fetched<T>, Memory>
    ensures { result ≡ missed_by turned }
{
    match turned {
        Ok(_) => Ok(Fetched::Absent),
        Err(TurnStop::Memory) => Err(Memory),
        Err(TurnStop::Failed) => Ok(Fetched::Failed),
    }
}

/// Reads a file of at most `max` bytes.
pub fn fetch<S: Shelf>(
    alloc: Global,
    shelf: &mut S,
    name: &str,
    max: usize,
) -> Result<Fetched<Bytes>, Memory>
    requires { max + 1 < 2 ^ 64 }
    ensures same { S.files shelf.new ≡ S.files shelf.old }
    ensures turns { S.turns shelf.new ≡ S.turns shelf.old ++ name.now ∷ [] }
    ensures later { S.faults shelf.old ≤ S.faults shelf.new }
    ensures fetched { IfOk result (IsFetched max (S.files shelf.old) name.now (S.faults shelf.old) (S.faults shelf.new)) }
{
    match shelf.turn_to(name) {
        Ok(true) => as_fetched(read_whole(alloc, shelf, max)),
        turned => as_missed(turned),
    }
}

/// Reads a file of at most `max` bytes in parts, side by side by at most so many slots where the shelf can.
pub fn fetch_parts<R: Threads + Sync, S: Shelf>(
    rt: &R,
    alloc: Global,
    shelf: &mut S,
    name: &str,
    max: usize,
    slots: u32,
) -> Result<Fetched<Vec<Bytes>>, Memory>
    requires { max + 1 < 2 ^ 64 }
    ensures same { S.files shelf.new ≡ S.files shelf.old }
    ensures turns { S.turns shelf.new ≡ S.turns shelf.old ++ name.now ∷ [] }
    ensures later { S.faults shelf.old ≤ S.faults shelf.new }
    ensures fetched { IfOk result (IsFetchedIn (λ parts. joined parts.items) max (S.files shelf.old) name.now (S.faults shelf.old) (S.faults shelf.new)) }
{
    match shelf.turn_to(name) {
        Ok(true) => as_fetched(read_parts(rt, alloc, shelf, max, slots)),
        turned => as_missed(turned),
    }
}
