// The loops of a graph, each run at the first access that needs it.
ghost use Rattle.std.specs.Prelude.{◌≡◌, ◌<◌, ◌≤◌, ℕ, IfOk, Some, Ok, Err, length, slice_get};
ghost use Rattle.entry_fns.specs.{functions_in};
ghost use Rattle.rdf_values.specs.{fn_names, history, StatementsHaveWords};
ghost use Rattle.rdf_model.specs.{accesses, loop_results};
ghost use Rattle.graph_numbers.specs.{graph_results, ResultAt};
ghost use Rattle.event_loop.specs.{fresh_session, HasEnded, HasSameParts, IsAccessed, IsFaulted, IsFilledIn, IsRefused, IsResult, IsSession, job_facts, session_job, session_of};

use crate::one_loop::{FilledLoop, LoopEnd, run_loop};
use crate::place::{is_noted, place_in};
use columns::Columns;
use entry_fns::FnList;
use graph::Graph;
use loop_keys::Job;
use loop_pieces::{FilledResult, PartialLines};
use rdf_outside::Gate;
use rdf_values::{Fault, Memory};
use std::alloc::Global;
use std::thread::Threads;

/// A graph that was booked over a table's columns, with the caller's functions.
#[derive(Drop)]
pub struct BookedGraph<'a> {
    pub graph: Graph,
    pub columns: Columns,
    pub functions: &'a FnList,
}

/// The loop that faulted, and its first fault.
#[derive(Clone, Copy, Debug)]
pub struct FaultyLoop {
    pub loop_index: u32,
    pub fault: Fault,
}

/// The first fault of a loop, which stands for every result that isn't filled; or want of memory.
#[derive(Clone, Copy, Debug)]
pub enum LoopRefusal {
    Fault(FaultyLoop),
    Memory,
}

/// A graph over columns with the loops that were completed, and the fault of the one that faulted.
#[derive(Drop)]
pub struct Session<'a> {
    graph: Graph,
    columns: Columns,
    functions: &'a FnList,
    slots: u32,
    watch: u32,
    next: u32,
    loops: Vec<FilledLoop>,
    fault: Option<FaultyLoop>,
}

// The partial results of that watched result of a loop.
fn lines_at(filled: &FilledLoop, watched: u32) -> PartialLines<'_>
    requires { watched < length filled.now.partials }
    ensures { slice_get filled.now.partials watched ≡ Some result.lines.now }
{
    let partials = filled.partials.as_slice();
    PartialLines {
        lines: partials[watched as usize].as_slice(),
    }
}

impl<'a> Session<'a> {
    /// No loop was run. Loops will share their clusters out to so many slots, and note watched results after every `watch`-th
    /// cluster. No clause says that so many slots run.
    pub fn new(alloc: Global, booked: BookedGraph<'a>, slots: u32, watch: u32) -> Session<'a>
        requires graph { (booked.graph.header ≡ booked.columns.table.columns) × (booked.graph.names ≡ fn_names (functions_in booked.functions.now)) }
        requires words { StatementsHaveWords (history booked.graph.script) }
        requires slots { (0 < slots) × (slots ≤ 16) }
        requires watch { 0 < watch }
        ensures fresh { session_of result ≡ fresh_session booked.entry.graph booked.entry.columns (functions_in booked.entry.functions.now) slots watch }
        ensures session { IsSession (session_of result) }
    {
        let BookedGraph {
            graph,
            columns,
            functions,
        } = booked;
        graph.is_booked();
        let _columns = columns.columns();
        let _cuts = columns.cuts();
        Session {
            graph,
            columns,
            functions,
            slots,
            watch,
            next: 0,
            loops: Vec::new(alloc),
            fault: None,
        }
    }

    /// Fills the result of the next Print, by the loop that fills it where that wasn't run, and answers the loop's number.
    /// Its slots call the gate at each turn; no clause says so.
    /// A loop that faults leaves its first fault, which every later access to a result that isn't filled answers too.
    pub fn access<R: Threads + Sync, G: Gate>(
        &mut self,
        rt: &R,
        alloc: Global,
        print: u32,
        gate: &G,
    ) -> Result<u32, LoopRefusal>
        requires print { (print ≡ (session_of self.old).next) × (print < length (accesses (history (session_of self.old).graph.script))) }
        requires session { IsSession (session_of self.old) }
        ensures session { IsSession (session_of self.new) }
        ensures parts { HasSameParts (session_of self.old) (session_of self.new) }
        ensures ok { (l : ℕ) → result ≡ Ok l → IsAccessed (session_of self.old) (session_of self.new) print l }
        ensures fault { (k : FaultyLoop) → result ≡ Err (LoopRefusal.Fault k) → IsFaulted (session_of self.old) (session_of self.new) print k }
        ensures memory { result ≡ Err LoopRefusal.Memory → IsRefused (session_of self.old) (session_of self.new) print }
    {
        let l = self.graph.filling(print);
        let next = print + 1;
        if (l as usize) < self.loops.len() {
            self.next = next;
            return Ok(l);
        }
        if let Some(kept) = self.fault {
            self.next = next;
            return Err(LoopRefusal::Fault(kept));
        }
        match self.run(rt, alloc, l, gate) {
            Ok(LoopEnd::Filled(filled)) => {
                if self.loops.push(filled).is_err() {
                    return Err(LoopRefusal::Memory);
                }
                self.next = next;
                Ok(l)
            }
            Ok(LoopEnd::Faulted(fault)) => {
                let kept = FaultyLoop {
                    loop_index: l,
                    fault,
                };
                self.fault = Some(kept);
                self.next = next;
                Err(LoopRefusal::Fault(kept))
            }
            Err(Memory) => Err(LoopRefusal::Memory),
        }
    }

    // How the loop of that number ends.
    fn run<R: Threads + Sync, G: Gate>(
        &self,
        rt: &R,
        alloc: Global,
        loop_index: u32,
        gate: &G,
    ) -> Result<LoopEnd, Memory>
        requires session { IsSession (session_of self.now) }
        requires its_loop { loop_index < length (loop_results (history (session_of self.now).graph.script)) }
        ensures { IfOk result (λ end. HasEnded (job_facts (session_job (session_of self.now) loop_index)) (session_of self.now).watch end) }
    {
        let job = Job {
            graph: &self.graph,
            loop_index,
            columns: &self.columns,
            functions: self.functions,
        };
        run_loop(rt, alloc, &job, self.slots, self.watch, gate)
    }

    /// The graph.
    pub fn graph(&self) -> &Graph
        ensures { result.now ≡ (session_of self.now).graph }
    {
        &self.graph
    }

    /// What a completed loop gave a result that it fills, and the result's partial results; none of these where it isn't noted.
    pub fn filled(&self, r: u32, loop_index: u32) -> (FilledResult<'_>, PartialLines<'_>)
        requires session { IsSession (session_of self.now) }
        requires result { r < length (graph_results (session_of self.now).graph) }
        requires filled { (x : ResultAt) → slice_get (graph_results (session_of self.now).graph) r ≡ Some x → IsFilledIn (session_of self.now) x.booked.name loop_index }
        ensures { (x : ResultAt) → slice_get (graph_results (session_of self.now).graph) r ≡ Some x → IsResult (session_of self.now) x.booked loop_index result.0 result.1.lines.now }
    {
        let place = place_in(&self.graph, loop_index, r);
        let its_loop = &self.loops[loop_index as usize];
        let filled = FilledResult {
            piece: &its_loop.piece,
            first: place.first,
            passes: place.passes,
        };
        let lines = if is_noted(&self.graph, r) {
            lines_at(its_loop, place.watched)
        } else {
            PartialLines { lines: &[] }
        };
        (filled, lines)
    }
}
