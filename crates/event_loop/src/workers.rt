// The work of one slot, and the slots side by side.
ghost use Rattle.std.specs.Prelude.{◌≡◌, ℕ, ◌<◌, ◌+◌, IfOk, slice_index_or, vec_len};
ghost use Rattle.std.specs.List.{All};
ghost use Rattle.entry_fns.specs.{functions_in};
ghost use Rattle.loop_keys.specs.{Fits, IsJob, job_graph, job_of};
ghost use Rattle.event_loop.specs.{CanRun, HasNoted, HasRoom, HasRun, HasStopped, IsFresh, job_facts, job_with};
ghost use Rattle.event_loop.specs.declared.workers.FinishedSlot.{FinishedSlot};

use crate::{ClusterProgress, SlotState, SlotStop};
use expr_eval::Steps;
use loop_keys::Job;
use loop_pieces::LoopPiece;
use rdf_outside::Gate;
use rdf_values::{Fault, Memory};
use slot_words::{Book, ClaimSeat, Claims, Share};
use std::alloc::Global;
use std::marker::Brand;
use std::sync::ledger::{Blank, Ledger};
use std::thread::{Threads, map_vec};

/// What the slots of a loop share: the clusters that they draw and, where a result is watched, the book in which they note them.
#[derive(Drop)]
pub struct Shared {
    pub claims: Claims,
    pub book: Option<Book>,
}

/// What one slot of a loop is given: its right to draw clusters and, where a result is watched, its right to note them.
#[derive(Drop)]
pub struct SlotRights {
    pub seat: ClaimSeat,
    pub share: Option<Share>,
}

/// Why a slot stopped: no cluster is left for it, and its own come to this piece; it met its first fault; or it had no memory.
#[derive(Drop)]
pub enum SlotEnd {
    Over(LoopPiece),
    Faulted(Fault),
    NoMemory,
}

/// A slot that stopped.
#[derive(Drop)]
pub struct FinishedSlot {
    pub end: SlotEnd,
    pub slot: SlotRights,
}

// Notes a cluster, where a result is watched.
fn note(book: &Option<Book>, share: &mut Option<Share>)
    requires { (n : ℕ) × HasNoted book.now n share.old × HasRoom (n + 1) book.now }
    ensures { (n : ℕ) → HasNoted book.now n share.old → HasNoted book.now (n + 1) share.new }
{
    if let (Some(book), Some(share)) = (book, share) {
        book.note(share);
    }
}

// Processes each cluster that the slot draws, up to the slot's first fault. The state is made here, where the slot runs, so that its
// memory lies apart from that of the other slots. That the gate is called at each turn is not in the contract.
fn work<L: Ledger, G: Gate>(
    blank: Blank,
    alloc: Global,
    job: &Job<'_>,
    shared: &Shared,
    slot: &mut SlotRights,
    gate: &G,
) -> SlotEnd
    requires name { blank.name ≡ L.name }
    requires parts { blank.parts ≡ L.parts }
    requires some { 0 < L.parts }
    requires job { Fits job.now }
    requires can { CanRun (job_of job.now) shared.now }
    requires fresh { IsFresh shared.now slot.old }
    ensures { HasRun shared.now (job_facts (job_of job.now)) result slot.new }
{
    let Ok(mut state) = SlotState::new(alloc, job) else {
        return SlotEnd::NoMemory;
    };
    let mut steps: Steps<L> = Steps::open(blank);
    while let Some(cluster) = shared.claims.claim(&mut slot.seat) {
        gate.turn(slot.seat.slot(), cluster);
        match state.process(job, cluster, &mut steps) {
            Ok(ClusterProgress::Done) => note(&shared.book, &mut slot.share),
            Ok(ClusterProgress::Faulted(fault)) => {
                shared.claims.lower(&mut slot.seat, cluster);
                return SlotEnd::Faulted(fault);
            }
            Err(SlotStop::Memory) => return SlotEnd::NoMemory,
        }
    }
    SlotEnd::Over(state.into_piece())
}

// Runs one slot. Its evaluations are counted in a ledger of its own.
fn run_slot<G: Gate>(
    alloc: Global,
    job: &Job<'_>,
    shared: &Shared,
    slot: SlotRights,
    gate: &G,
) -> FinishedSlot
    requires job { Fits job.now }
    requires can { CanRun (job_of job.now) shared.now }
    requires fresh { IsFresh shared.now slot }
    ensures { HasRun shared.now (job_facts (job_of job.now)) result.end result.slot }
{
    let mut slot = slot;
    let end = work::<Brand, G>(Blank::new(1), alloc, job, shared, &mut slot, gate);
    FinishedSlot { end, slot }
}

/// Runs each slot. Where threads can be made, each has one of its own; no clause says so.
pub fn run_slots<R: Threads + Sync, G: Gate>(
    rt: &R,
    alloc: Global,
    job: &Job<'_>,
    shared: &Shared,
    slots: Vec<SlotRights>,
    gate: &G,
) -> Result<Vec<FinishedSlot>, Memory>
    requires job { Fits job.now }
    requires can { CanRun (job_of job.now) shared.now }
    requires fresh { All (IsFresh shared.now) slots.items }
    ensures len { IfOk result (λ v. vec_len v ≡ vec_len slots) }
    ensures each { IfOk result (λ v. (i : ℕ) (f : FinishedSlot) → i < vec_len slots → HasStopped shared.now (job_facts (job_of job.now)) (slice_index_or v.items i f)) }
{
    let Job {
        graph,
        loop_index,
        columns,
        functions,
    } = *job;
    let finished = map_vec(
        rt,
        slots,
        &|slot: SlotRights| -> FinishedSlot
            requires { (graph.now ≡ job_graph (job_with graph.now loop_index columns.now (functions_in functions.now)))
                × IsJob (job_with graph.now loop_index columns.now (functions_in functions.now))
                × CanRun (job_with graph.now loop_index columns.now (functions_in functions.now)) shared.now
                × IsFresh shared.now slot }
            ensures { HasRun shared.entry.now (job_facts (job_with graph.entry.now loop_index columns.entry.now (functions_in functions.entry.now))) result.end result.slot }
        {
            let job = Job {
                graph,
                loop_index,
                columns,
                functions,
            };
            run_slot(alloc, &job, shared, slot, gate)
        },
    )?;
    Ok(finished)
}
