// What gives files, and the names that it was turned to.
ghost use Rattle.std.specs.Prelude.{◌≡◌, ◌∷◌, ◌++◌, [], ℕ, List, Option, IfSome, IfNone};
ghost use Rattle.std.specs.Thread.{IsSync};
ghost use Rattle.rdf_outside.specs.Outside.{HasCause, TurnHasCause, TurnsTo, ReadsFrom, ReadsParts};
ghost use Rattle.std.specs.Borrow.{ftrue};

use rdf_values::Bytes;
use std::alloc::Global;
use std::marker::Model;
use std::thread::Threads;

/// Why a shelf didn't turn to a file. `Memory` is want of memory alone.
#[derive(Clone, Copy, Debug, PartialEq, Eq)]
pub enum TurnStop {
    Failed,
    Memory,
}

/// Gives files by their names, one at a time.
pub trait Shelf {
    /// The files by their names, where the shelf tells them.
    ghost files: { Self → Option (List ℕ → Option (List ℕ)) };

    /// What is not yet read of the file turned to, where the shelf tells it.
    ghost left: { Self → Option (List ℕ) };

    /// How often it has failed.
    ghost faults: { Self → ℕ };

    /// The names that it was turned to, in their order, whatever the answers were.
    ghost turns: { Self → List (List ℕ) };

    /// Turns to the start of a file; false where there is none of that name.
    fn turn_to(&mut self, name: &str) -> Result<bool, TurnStop>
        ensures same { files self.new ≡ files self.old }
        ensures turns { turns self.new ≡ turns self.old ++ name.now ∷ [] }
        ensures turned { TurnsTo (files self.old) name.now (left self.new) result }
        ensures cause { TurnHasCause (faults self.old) (faults self.new) result };

    /// Reads on in the file turned to and answers how many bytes now stand at the buffer's start;
    /// 0 in a buffer that isn't empty is the file's end.
    fn read(&mut self, buf: &mut [u8]) -> Result<usize, Failed>
        ensures same { files self.new ≡ files self.old }
        ensures turns { turns self.new ≡ turns self.old }
        ensures bytes { ReadsFrom (left self.old) (left self.new) result buf.new }
        ensures cause { HasCause (faults self.old) (faults self.new) result };

    /// Reads to the end of the file turned to in parts, side by side by at most so many slots, where the shelf can and the
    /// file has at most `max` bytes; where it answers none, nothing is read.
    fn read_side_by_side<R: Threads + Sync>(
        &mut self,
        rt: &R,
        alloc: Global,
        max: usize,
        slots: u32,
    ) -> Option<Vec<Bytes>>
        requires sync { IsSync R.row }
        ensures same { files self.new ≡ files self.old }
        ensures turns { turns self.new ≡ turns self.old }
        ensures faults { faults self.new ≡ faults self.old }
        ensures read { IfSome result (λ parts. ReadsParts max (left self.old) (left self.new) parts.items) }
        ensures kept { IfNone result (left self.new ≡ left self.old) };
}

/// The read or the write failed; its object has counted the fault.
#[derive(Clone, Copy, Debug, PartialEq, Eq)]
pub struct Failed;

/// The names that a shelf was turned to, in their order, for proofs alone. It takes no memory.
#[derive(Drop)]
pub struct Turns {
    pub ghost names: { List (List ℕ) },
}

impl Model for Turns {
    ghost also_owns = { λ _. ftrue };
}

impl Turns {
    /// No names.
    pub fn new() -> Turns
        ensures { result.names ≡ [] }
    {
        Turns {}
    }

    /// These names and one more.
    pub fn and(&self, name: &[u8]) -> Turns
        ensures { result.names ≡ self.now.names ++ name.now ∷ [] }
    {
        Turns {}
    }
}
