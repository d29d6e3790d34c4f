// Whole reads and whole writes.
ghost use Rattle.std.specs.Prelude.{◌≡◌, ◌<◌, ◌≤◌, ◌+◌, ◌^◌, ℕ, List, length, IfOk, OnOk, IsErrOf};
ghost use Rattle.rdf_outside.specs.{Appends, AppendsPart, HasCause, in_a_row, IsTooLarge, Joins, Reads, ReadsParts, Rose, TakesOneMore};

use crate::shelf::{Failed, Shelf};
use crate::sink::Sink;
use rdf_values::{Bytes, Memory};
use std::alloc::Global;
use std::thread::Threads;

/// Why a file wasn't read to its end. `Memory` is want of memory alone.
#[derive(Clone, Copy, Debug, PartialEq, Eq)]
pub enum ReadRefusal {
    Memory,
    Failed,
    TooLarge,
}

const PIECE: usize = 65_536;

/// Reads to the end of the file turned to, unless it has more than `max` bytes.
pub fn read_whole<S: Shelf>(alloc: Global, shelf: &mut S, max: usize) -> Result<Bytes, ReadRefusal>
    requires { max + 1 < 2 ^ 64 }
    ensures same { S.files shelf.new ≡ S.files shelf.old }
    ensures turns { S.turns shelf.new ≡ S.turns shelf.old }
    ensures later { S.faults shelf.old ≤ S.faults shelf.new }

    // All bytes of a file of at most `max`; too large exactly where there are more.
    ensures bytes { IfOk result (λ b. Reads (S.left shelf.old) (S.left shelf.new) b) }
    ensures few { IfOk result (λ b. length b ≤ max) }
    ensures too_large { IsErrOf result ReadRefusal.TooLarge → IsTooLarge max (S.left shelf.old) }
    ensures taken { IsErrOf result ReadRefusal.TooLarge → TakesOneMore max (S.left shelf.old) (S.left shelf.new) }

    ensures failed { IsErrOf result ReadRefusal.Failed → Rose (S.faults shelf.old) (S.faults shelf.new) }
    ensures kept { (IsErrOf result ReadRefusal.Failed → ⊥) → S.faults shelf.new ≡ S.faults shelf.old }
{
    let mut zeros = zeros(alloc, PIECE).map_err(|_| ReadRefusal::Memory)?;
    let buffer = zeros.as_mut_slice();
    let mut bytes = Bytes::new(alloc);
    while bytes.len() <= max {
        let room = max + 1 - bytes.len();
        let count = read_piece(shelf, &mut bytes, buffer, room)?;
        if count == 0 {
            return Ok(bytes);
        }
    }
    Err(ReadRefusal::TooLarge)
}

/// The bytes as the one part of a whole.
pub fn one_part(alloc: Global, bytes: Bytes) -> Result<Vec<Bytes>, Memory>
    ensures { IfOk result (λ parts. in_a_row parts.items ≡ bytes) }
{
    let mut parts = Vec::new(alloc);
    parts.push(bytes)?;
    Ok(parts)
}

/// What `read_whole` reads, in one part or, where the shelf can, in several that so many slots read side by side.
pub fn read_parts<R: Threads + Sync, S: Shelf>(
    rt: &R,
    alloc: Global,
    shelf: &mut S,
    max: usize,
    slots: u32,
) -> Result<Vec<Bytes>, ReadRefusal>
    requires { max + 1 < 2 ^ 64 }
    ensures same { S.files shelf.new ≡ S.files shelf.old }
    ensures turns { S.turns shelf.new ≡ S.turns shelf.old }
    ensures later { S.faults shelf.old ≤ S.faults shelf.new }
    ensures read { IfOk result (λ parts. ReadsParts max (S.left shelf.old) (S.left shelf.new) parts.items) }
    ensures too_large { IsErrOf result ReadRefusal.TooLarge → IsTooLarge max (S.left shelf.old) }
    ensures taken { IsErrOf result ReadRefusal.TooLarge → TakesOneMore max (S.left shelf.old) (S.left shelf.new) }
    ensures failed { IsErrOf result ReadRefusal.Failed → Rose (S.faults shelf.old) (S.faults shelf.new) }
    ensures kept { (IsErrOf result ReadRefusal.Failed → ⊥) → S.faults shelf.new ≡ S.faults shelf.old }
{
    if let Some(parts) = shelf.read_side_by_side(rt, alloc, max, slots) {
        return Ok(parts);
    }
    let bytes = read_whole(alloc, shelf, max)?;
    one_part(alloc, bytes).map_err(|_| ReadRefusal::Memory)
}

pub(crate) fn zeros(alloc: Global, len: usize) -> Result<Vec<u8>, Memory>
    ensures { IfOk result (λ v. length v.items ≡ len) }
{
    Ok(Vec::from_elem(alloc, 0, len)?)
}

// Reads at most `room` bytes behind those that are there, and answers how many.
fn read_piece<S: Shelf>(
    shelf: &mut S,
    bytes: &mut Bytes,
    buffer: &mut [u8],
    room: usize,
) -> Result<usize, ReadRefusal>
    requires room { 0 < room }
    requires buffer { 0 < length buffer.old }
    ensures same { S.files shelf.new ≡ S.files shelf.old }
    ensures turns { S.turns shelf.new ≡ S.turns shelf.old }
    ensures later { S.faults shelf.old ≤ S.faults shelf.new }
    ensures failed { IsErrOf result ReadRefusal.Failed → Rose (S.faults shelf.old) (S.faults shelf.new) }
    ensures kept { (IsErrOf result ReadRefusal.Failed → ⊥) → S.faults shelf.new ≡ S.faults shelf.old }
    ensures not_large { IsErrOf result ReadRefusal.TooLarge → ⊥ }
    ensures told { IfOk result (λ n. (all : List ℕ) → Joins all bytes.old (S.left shelf.old) → Joins all bytes.new (S.left shelf.new) × (n ≡ 0 → bytes.new ≡ all)) }
    ensures count { IfOk result (λ n. (n ≤ room) × (length bytes.new ≡ length bytes.old + n)) }
{
    let want = room.min(buffer.len());
    let Ok(count) = shelf.read(&mut buffer[..want]) else {
        return Err(ReadRefusal::Failed);
    };
    bytes
        .extend(&buffer[..count])
        .map_err(|_| ReadRefusal::Memory)?;
    Ok(count)
}

/// Writes all the bytes, or a first part of them where the sink fails. It takes no memory.
pub fn write_whole<K: Sink>(sink: &mut K, bytes: &[u8]) -> Result<(), Failed>
    ensures all { OnOk result (Appends (K.written sink.old) (K.written sink.new) bytes.now) }
    ensures part { AppendsPart (K.written sink.old) (K.written sink.new) bytes.now }
    ensures cause { HasCause (K.faults sink.old) (K.faults sink.new) result }
{
    let mut rest = bytes;
    while !rest.is_empty() {
        let count = sink.write(rest)?;
        rest = &rest[count..];
    }
    Ok(())
}
