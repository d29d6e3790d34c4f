// The files of a folder.
ghost use Rattle.std.specs.Prelude.{None, [], ◌≡◌, ◌∷◌, ◌++◌};

use crate::file_parts::FileParts;
use crate::shelf::{Failed, Shelf, TurnStop, Turns};
use crate::std_answers::{open_answer, read_from};
use rdf_values::Bytes;
use std::alloc::Global;
use std::fs;
use std::rt::Files;
use std::thread::Threads;

/// The files of the folder that the program runs in. It tells no bytes.
#[derive(Drop)]
pub struct DirShelf<'a, R: Files> {
    rt: &'a R,
    file: Option<R::File>,
    faults: u64,
    turns: Turns,
}

impl<'a, R: Files> DirShelf<'a, R> {
    /// The folder's files, none of them turned to.
    pub fn new(rt: &'a R) -> DirShelf<'a, R>
        ensures faults { result.faults ≡ 0 }
        ensures turns { result.turns.names ≡ [] }
    {
        DirShelf {
            rt,
            file: None,
            faults: 0,
            turns: Turns::new(),
        }
    }
}

impl<R: Files> Shelf for DirShelf<'_, R>
where
    R::File: FileParts,
{
    ghost use Rattle.rdf_outside.specs.Outside.{KeepsFound, ReadsOn, HasCause, ReadsFrom, TurnHasCause};

    ghost files = { λ _. None };

    ghost left = { λ _. None };

    ghost faults = { λ s. s.faults };

    ghost turns = { λ s. s.turns.names };

    fn turn_to(&mut self, name: &str) -> Result<bool, TurnStop>
        ensures turns { self.new.turns.names ≡ self.old.turns.names ++ name.now ∷ [] }
        ensures cause { TurnHasCause self.old.faults self.new.faults result }
        ensures kept { KeepsFound self.new.file result }
    {
        self.turns = self.turns.and(name.as_bytes());
        self.file = None;
        let (file, answer) = open_answer(fs::open(self.rt, name), &mut self.faults);
        self.file = file;
        answer
    }

    fn read(&mut self, buf: &mut [u8]) -> Result<usize, Failed>
        ensures turns { self.new.turns.names ≡ self.old.turns.names }
        ensures bytes { ReadsOn R.File.remaining self.old.file self.new.file result buf.new }
        ensures within { ReadsFrom None None result buf.new }
        ensures cause { HasCause self.old.faults self.new.faults result }
    {
        let Some(file) = &mut self.file else {
            return Ok(0);
        };
        read_from(file, buf, &mut self.faults)
    }

    fn read_side_by_side<T: Threads + Sync>(
        &mut self,
        rt: &T,
        alloc: Global,
        max: usize,
        slots: u32,
    ) -> Option<Vec<Bytes>> {
        let file = self.file.as_mut()?;
        let parts = file.read_parts(rt, alloc, max, slots)?;
        self.file = None;
        Some(parts)
    }
}
