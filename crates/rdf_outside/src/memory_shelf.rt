// Files in memory.
ghost use Rattle.std.specs.Prelude.{◌≡◌, ◌≤◌, ◌∷◌, ◌++◌, [], Some, None, ℕ, List, OnErr, OnOk, position, if◌then◌else◌};
ghost use Rattle.rdf_outside.specs.Memory.{has_name, left_at, moved, same_bytes};

use crate::call_list::CallList;
use crate::shelf::{Failed, Shelf, TurnStop, Turns};
use rdf_values::{Bytes, Memory};
use std::alloc::Global;
use std::thread::Threads;

#[derive(Drop)]
struct MemoryFile {
    name: Vec<u8>,
    bytes: Vec<u8>,
}

// The file turned to, and how many of its bytes were read.
#[derive(Clone, Copy, Debug)]
struct ReadPlace {
    file: usize,
    read: usize,
}

/// Files in memory. It tells all that a shelf can tell, and fails exactly in the calls that are listed.
#[derive(Drop)]
pub struct MemoryShelf {
    alloc: Global,
    items: Vec<MemoryFile>,
    turned: Option<ReadPlace>,
    is_lost: bool,
    calls: CallList,
    faults: u64,
    turns: Turns,
}

impl MemoryShelf {
    ghost use Rattle.rdf_outside.specs.Memory.{shelf_file, shelf_left, shelf_made, shelf_listed, shelf_faults, shelf_turns, same_bytes};

    /// No files, no call made, and none that is to fail.
    pub fn new(alloc: Global) -> MemoryShelf
        ensures files { (n : List ℕ) → shelf_file result n ≡ None }
        ensures turned { shelf_left result ≡ Some [] }
        ensures turns { shelf_turns result ≡ [] }
        ensures made { shelf_made result ≡ 0 }
        ensures listed { shelf_listed result ≡ [] }
        ensures faults { shelf_faults result ≡ 0 }
    {
        MemoryShelf {
            alloc,
            items: Vec::new(alloc),
            turned: None,
            is_lost: false,
            calls: CallList::new(alloc),
            faults: 0,
            turns: Turns::new(),
        }
    }

    /// Adds a file, or replaces the one of that name. No file is turned to afterwards.
    pub fn add(&mut self, name: &str, bytes: &[u8]) -> Result<(), Memory>
        ensures ok { OnOk result ((n : List ℕ) → shelf_file self.new n ≡ (if same_bytes name.now n then Some bytes.now else shelf_file self.old n)) }
        ensures err { OnErr result ((n : List ℕ) → shelf_file self.new n ≡ shelf_file self.old n) }
        ensures turned { shelf_left self.new ≡ Some [] }
        ensures turns { shelf_turns self.new ≡ shelf_turns self.old }
        ensures made { shelf_made self.new ≡ shelf_made self.old }
        ensures listed { shelf_listed self.new ≡ shelf_listed self.old }
        ensures faults { shelf_faults self.new ≡ shelf_faults self.old }
    {
        self.turned = None;
        self.is_lost = false;
        let name = Vec::from_slice(self.alloc, name.as_bytes())?;
        let bytes = Vec::from_slice(self.alloc, bytes)?;
        Ok(self.items.insert(0, MemoryFile { name, bytes })?)
    }

    /// The call with that number is to fail, counted from 0 over both methods of the shelf.
    pub fn fail_at(&mut self, call: u32) -> Result<(), Memory>
        requires { shelf_made self.old ≤ call }
        ensures same { (n : List ℕ) → shelf_file self.new n ≡ shelf_file self.old n }
        ensures left { shelf_left self.new ≡ shelf_left self.old }
        ensures turns { shelf_turns self.new ≡ shelf_turns self.old }
        ensures made { shelf_made self.new ≡ shelf_made self.old }
        ensures faults { shelf_faults self.new ≡ shelf_faults self.old }
        ensures ok { OnOk result (shelf_listed self.new ≡ shelf_listed self.old ++ call ∷ []) }
        ensures err { OnErr result (shelf_listed self.new ≡ shelf_listed self.old) }
    {
        self.calls.list(call)
    }
}

fn find(items: &[MemoryFile], name: &[u8]) -> Option<usize>
    ensures { result ≡ position (has_name name.now) items.now }
{
    items.iter().position(|file| file.name.as_slice() == name)
}

// What is left of the file at a place.
fn rest_at(items: &[MemoryFile], place: Option<ReadPlace>) -> &[u8]
    ensures { result.now ≡ left_at items.now place }
{
    let Some(place) = place else {
        return &[];
    };
    if place.file >= items.len() {
        return &[];
    }
    let bytes = items[place.file].bytes.as_slice();
    &bytes[place.read.min(bytes.len())..]
}

fn further(place: Option<ReadPlace>, count: usize) -> Option<ReadPlace>
    ensures { result ≡ moved place count }
{
    let ReadPlace { file, read } = place?;
    let read = read.saturating_add(count);
    Some(ReadPlace { file, read })
}

impl Shelf for MemoryShelf {
    ghost use Rattle.rdf_outside.specs.Memory.{shelf_file, shelf_left, shelf_faults, shelf_turns, FailsWhereListed, turn_fails, read_fails};
    ghost use Rattle.rdf_outside.specs.Outside.{HasCause, TurnHasCause, TurnsTo, ReadsFrom};

    ghost files = { λ s. Some (shelf_file s) };

    ghost left = { λ s. shelf_left s };

    ghost faults = { λ s. shelf_faults s };

    ghost turns = { λ s. shelf_turns s };

    fn turn_to(&mut self, name: &str) -> Result<bool, TurnStop>
        ensures same { Some (shelf_file self.new) ≡ Some (shelf_file self.old) }
        ensures turns { shelf_turns self.new ≡ shelf_turns self.old ++ name.now ∷ [] }
        ensures turned { TurnsTo (Some (shelf_file self.old)) name.now (shelf_left self.new) result }
        ensures cause { TurnHasCause (shelf_faults self.old) (shelf_faults self.new) result }
        ensures fails { FailsWhereListed self.old self.new (turn_fails result) }
        ensures no_want { result ≡ Err TurnStop.Memory → ⊥ }
    {
        let name = name.as_bytes();
        self.turns = self.turns.and(name);
        self.turned = None;
        if self.calls.count() {
            self.is_lost = true;
            self.faults = self.faults.saturating_add(1);
            return Err(TurnStop::Failed);
        }
        self.is_lost = false;
        match find(&self.items, name) {
            None => Ok(false),
            Some(file) => {
                self.turned = Some(ReadPlace { file, read: 0 });
                Ok(true)
            }
        }
    }

    fn read(&mut self, buf: &mut [u8]) -> Result<usize, Failed>
        ensures same { Some (shelf_file self.new) ≡ Some (shelf_file self.old) }
        ensures turns { shelf_turns self.new ≡ shelf_turns self.old }
        ensures bytes { ReadsFrom (shelf_left self.old) (shelf_left self.new) result buf.new }
        ensures cause { HasCause (shelf_faults self.old) (shelf_faults self.new) result }
        ensures fails { FailsWhereListed self.old self.new (read_fails result) }
    {
        if self.calls.count() {
            self.is_lost = true;
            self.faults = self.faults.saturating_add(1);
            return Err(Failed);
        }
        let rest = rest_at(&self.items, self.turned);
        let count = rest.len().min(buf.len());
        buf[..count].copy_from_slice(&rest[..count]);
        self.turned = further(self.turned, count);
        Ok(count)
    }

    // Threads gain nothing where the bytes are in memory.
    fn read_side_by_side<R: Threads + Sync>(
        &mut self,
        _rt: &R,
        _alloc: Global,
        _max: usize,
        _slots: u32,
    ) -> Option<Vec<Bytes>> {
        None
    }
}
