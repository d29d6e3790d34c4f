// The entries at which a table says that a cluster begins.
ghost use Rattle.std.specs.Prelude.{◌≡◌, ◌<◌, List, [], ◌∷◌, ◌++◌, All, length, OnOk, OnErr, slice_get};

use crate::memory::Memory;
use std::alloc::Global;
use std::marker::Model;

/// Numbers of entries, each above the one before and below 1,000,000.
#[derive(Debug, Drop)]
pub struct Marks {
    entries: Vec<u32>,
}

impl Model for Marks {
    ghost use Rattle.std.specs.Prelude.{ℕ, List};
    ghost use Rattle.rdf_values.specs.clusters.Cuts.{AreMarks};

    ghost Value = { List ℕ };

    ghost view = { λ m. m.entries.items };

    ghost invariant = { λ m. AreMarks m.entries.items };
}

impl Marks {
    ghost use Rattle.rdf_values.specs.clusters.Cuts.{AreMarks};

    /// No marks.
    pub fn new(alloc: Global) -> Marks
        ensures { result ≡ [] }
    {
        Marks {
            entries: Vec::new(alloc),
        }
    }

    /// How many marks there are.
    pub fn len(&self) -> usize
        ensures value { result ≡ length self.now }
        ensures valid { AreMarks self.now }
    {
        self.entries.len()
    }

    /// The marks in order.
    pub fn as_slice(&self) -> &[u32]
        ensures { result.now ≡ self.now }
    {
        self.entries.as_slice()
    }

    /// The entry of a mark, counted from 0.
    pub fn at(&self, i: usize) -> u32
        requires { i < length self.now }
        ensures { slice_get self.now i ≡ Some result }
    {
        self.entries[i]
    }

    /// Appends a mark behind all others.
    pub fn push(&mut self, entry: u32) -> Result<(), Memory>
        requires above { All (λ m. m < entry) self.old }
        requires few { entry < 1000000 }
        ensures ok { OnOk result (self.new ≡ self.old ++ entry ∷ []) }
        ensures err { OnErr result (self.new ≡ self.old) }
    {
        self.entries.push(entry)?;
        Ok(())
    }
}
