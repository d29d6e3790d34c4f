// What takes output: any sink, and standard output.
ghost use Rattle.std.specs.Prelude.{◌≡◌, ℕ, List, Option, None};
ghost use Rattle.rdf_outside.specs.Outside.{HasCause, WritesTo};

use crate::shelf::Failed;
use crate::std_answers::write_answer;

/// Takes output.
pub trait Sink {
    /// What was written, where the sink tells it.
    ghost written: { Self → Option (List ℕ) };

    /// How often it has failed.
    ghost faults: { Self → ℕ };

    /// Writes a first part of the piece and answers how many bytes it has;
    /// it is empty only where the piece is.
    fn write(&mut self, piece: &[u8]) -> Result<usize, Failed>
        ensures bytes { WritesTo (written self.old) (written self.new) result piece.now }
        ensures cause { HasCause (faults self.old) (faults self.new) result };
}

/// Standard output, written without a buffer of its own. It tells no bytes.
#[derive(Drop)]
pub struct StdSink<'a, R: Print> {
    rt: &'a R,
    faults: u64,
}

impl<'a, R: Print> StdSink<'a, R> {
    /// Standard output.
    pub fn new(rt: &'a R) -> StdSink<'a, R>
        ensures { result.faults ≡ 0 }
    {
        StdSink { rt, faults: 0 }
    }
}

impl<R: Print> Sink for StdSink<'_, R> {
    ghost written = { λ _. None };

    ghost faults = { λ s. s.faults };

    fn write(&mut self, piece: &[u8]) -> Result<usize, Failed> {
        write_answer(self.rt.write_some(piece), piece, &mut self.faults)
    }
}
