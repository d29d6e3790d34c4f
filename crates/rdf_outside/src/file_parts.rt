// Files that are read in parts.
ghost use Rattle.std.specs.Prelude.{◌≤◌, IfSome, length, ◌≡◌, ◌<◌, ◌+◌, ◌^◌};
ghost use Rattle.std.specs.Thread.{IsSync};
ghost use Rattle.rdf_outside.specs.{in_a_row};

use crate::whole::{one_part, zeros};
use rdf_values::Bytes;
use std::alloc::Global;
use std::fs::{File, OpenFile};
use std::io::Seek;
use std::os::unix::fs::FileExt;
use std::thread::{Threads, join};

/// A file that several threads read at once, each a range of it.
pub trait FileParts {
    /// The whole file, where none of it was read and it has at most `max` bytes, in parts that at most so many slots read side
    /// by side. Where it answers none, the file can be read from its start: ranges leave its position as it was.
    fn read_parts<R: Threads + Sync>(
        &mut self,
        rt: &R,
        alloc: Global,
        max: usize,
        slots: u32,
    ) -> Option<Vec<Bytes>>
        requires sync { IsSync R.row }
        ensures { IfSome result (λ parts. length (in_a_row parts.items) ≤ max) };
}

// The length of the file, where none of it was read.
fn whole_len<F: OpenFile + Seek>(file: &mut F, max: usize) -> Option<usize>
    ensures { IfSome result (λ len. len ≤ max) }
{
    let Ok(0) = file.stream_position() else {
        return None;
    };
    let len = file.metadata().ok()?.len();
    if len > max as u64 {
        return None;
    }
    Some(len as usize)
}

impl FileParts for File {
    fn read_parts<R: Threads + Sync>(
        &mut self,
        rt: &R,
        alloc: Global,
        max: usize,
        slots: u32,
    ) -> Option<Vec<Bytes>> {
        let len = whole_len(self, max)?;
        read_ranges(rt, alloc, self, len, slots)
    }
}

// A part of fewer bytes is read sooner than a thread is made for it.
const LEAST_PART: usize = 524_288;

const PIECE: usize = 65_536;

// So many bytes from an offset on, where the file has them all.
fn read_range<F: FileExt>(alloc: Global, file: &F, from: usize, len: usize) -> Option<Bytes>
    requires { from + len < 2 ^ 64 }
    ensures { IfSome result (λ bytes. length bytes ≡ len) }
{
    let mut zeros = zeros(alloc, PIECE).ok()?;
    let buffer = zeros.as_mut_slice();
    let mut bytes = Bytes::new(alloc);
    while bytes.len() < len {
        let want = buffer.len().min(len - bytes.len());
        let offset = from + bytes.len();
        let count = file.read_at(&mut buffer[..want], offset as u64).ok()?;
        if count == 0 {
            return None;
        }
        bytes.extend(&buffer[..count]).ok()?;
    }
    Some(bytes)
}

// A range in as many parts as there are slots, side by side where threads can be made.
fn read_parts<R: Threads + Sync, F: FileExt + Sync>(
    rt: &R,
    alloc: Global,
    file: &F,
    from: usize,
    len: usize,
    slots: u32,
) -> Option<Vec<Bytes>>
    requires { from + len < 2 ^ 64 }
    ensures { IfSome result (λ parts. length (in_a_row parts.items) ≡ len) }
{
    if slots < 2 {
        return one_part(alloc, read_range(alloc, file, from, len)?).ok();
    }
    let front = len / slots as usize;
    let (start, back, others) = (from + front, len - front, slots - 1);
    let (first, more) = join(
        rt,
        || -> Option<Bytes>
            requires { from + front < 2 ^ 64 }
            ensures { IfSome result (λ bytes. length bytes ≡ front) }
        { read_range(alloc, file, from, front) },
        || -> Option<Vec<Bytes>>
            requires { IsSync R.row × IsSync F.row × (start + back < 2 ^ 64) }
            ensures { IfSome result (λ parts. length (in_a_row parts.items) ≡ back) }
        { read_parts(rt, alloc, file, start, back, others) },
    );
    let mut parts = more?;
    parts.insert(0, first?).ok()?;
    Some(parts)
}

// Whether a file has no byte at that length.
fn has_end<F: FileExt>(file: &F, len: usize) -> bool {
    matches!(file.read_at(&mut [0], len as u64), Ok(0))
}

/// A file of that length in parts, where it is as long and ends there.
pub(crate) fn read_ranges<R: Threads + Sync, F: FileExt + Sync>(
    rt: &R,
    alloc: Global,
    file: &F,
    len: usize,
    slots: u32,
) -> Option<Vec<Bytes>>
    ensures { IfSome result (λ parts. length (in_a_row parts.items) ≡ len) }
{
    let count = (len / LEAST_PART).min(slots as usize) as u32;
    if count < 2 {
        return None;
    }
    let parts = read_parts(rt, alloc, file, 0, len, count)?;
    has_end(file, len).then_some(parts)
}
