// Output in memory.
ghost use Rattle.std.specs.Prelude.{◌≡◌, ◌<◌, ◌≤◌, ◌∷◌, ◌++◌, Some, [], IfOk, OnErr, OnOk, vec_len};
ghost use Rattle.std.specs.Vec.{vec_capacity};
ghost use Rattle.rdf_outside.specs.Outside.{HasCause, WritesTo};

use crate::call_list::CallList;
use crate::shelf::Failed;
use crate::sink::Sink;
use rdf_values::Memory;
use std::alloc::Global;

/// A sink with room for a number of bytes. It tells all that a sink can tell, and fails exactly in
/// the calls that are listed, and where a piece isn't empty and there is no room.
#[derive(Drop)]
pub struct MemorySink {
    bytes: Vec<u8>,
    room: usize,
    at_most: usize,
    calls: CallList,
    faults: u64,
    ghost within: { vec_len bytes ≤ room },
    ghost taken: { room ≤ vec_capacity bytes },
    ghost some: { 0 < at_most },
}

impl MemorySink {
    ghost use Rattle.rdf_outside.specs.MemorySink.{sink_at_most, sink_bytes, sink_made, sink_listed, sink_faults, HoldsStill, IsNew};

    /// An empty sink with the memory for `room` bytes.
    pub fn new(alloc: Global, room: usize) -> Result<MemorySink, Memory>
        ensures { IfOk result (λ s. IsNew s room) }
    {
        Ok(MemorySink {
            bytes: Vec::with_capacity(alloc, room)?,
            room,
            at_most: usize::MAX,
            calls: CallList::new(alloc),
            faults: 0,
        })
    }

    /// The write with that number is to fail, counted from 0.
    pub fn fail_at(&mut self, call: u32) -> Result<(), Memory>
        requires { sink_made self.old ≤ call }
        ensures still { HoldsStill self.old self.new }
        ensures at_most { sink_at_most self.new ≡ sink_at_most self.old }
        ensures ok { OnOk result (sink_listed self.new ≡ sink_listed self.old ++ call ∷ []) }
        ensures err { OnErr result (sink_listed self.new ≡ sink_listed self.old) }
    {
        self.calls.list(call)
    }

    /// A write takes at most so many bytes from now on.
    pub fn take_at_most(&mut self, n: usize)
        requires { 0 < n }
        ensures still { HoldsStill self.old self.new }
        ensures at_most { sink_at_most self.new ≡ n }
        ensures listed { sink_listed self.new ≡ sink_listed self.old }
    {
        self.at_most = n;
    }

    /// The bytes that were written.
    pub fn bytes(&self) -> &[u8]
        ensures { result.now ≡ sink_bytes self.now }
    {
        &self.bytes
    }
}

impl Sink for MemorySink {
    ghost use Rattle.rdf_outside.specs.MemorySink.{sink_bytes, sink_faults, TakesWhatFits};

    ghost written = { λ s. Some (sink_bytes s) };

    ghost faults = { λ s. sink_faults s };

    fn write(&mut self, piece: &[u8]) -> Result<usize, Failed>
        ensures exact { TakesWhatFits self.old self.new result piece.now }
        ensures bytes { WritesTo (Some (sink_bytes self.old)) (Some (sink_bytes self.new)) result piece.now }
        ensures cause { HasCause (sink_faults self.old) (sink_faults self.new) result }
    {
        let free = self.room - self.bytes.len();
        let count = piece.len().min(free).min(self.at_most);
        if self.calls.count() || (count == 0 && !piece.is_empty()) {
            self.faults = self.faults.saturating_add(1);
            return Err(Failed);
        }
        match self.bytes.extend_from_slice(&piece[..count]) {
            Ok(()) => Ok(count),
            Err(_) => unreachable!(),
        }
    }
}
