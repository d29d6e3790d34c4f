// One event loop over all clusters.
ghost use Rattle.std.specs.Prelude.{◌≡◌, ◌<◌, ◌≤◌, All, IfOk, length, vec_len};
ghost use Rattle.rdf_values.specs.{history, StatementsHaveWords};
ghost use Rattle.loop_keys.specs.{Fits, job_of, job_spans};
ghost use Rattle.event_loop.specs.{AreBlank, HasEnded, IsFresh, IsOpened, job_facts};
ghost use Rattle.event_loop.specs.declared.workers.Shared.{Shared};
ghost use Rattle.slot_words.specs.{IsReady};

use crate::filling::{Noting, filled};
use crate::gather::{LoopOutcome, gathered};
use crate::watched_in;
use crate::workers::{Shared, SlotRights, run_slots};
use loop_keys::Job;
use loop_pieces::{LoopPiece, PartialLine};
use rdf_outside::Gate;
use rdf_values::{Fault, ListOf, Memory};
use slot_words::{Book, Claims, SeatList, ShareList};
use std::alloc::Global;
use std::thread::Threads;

/// What a loop without a fault came to: the piece of all its clusters, and the partial results of each watched result, in the order of booking.
#[derive(Drop)]
pub struct FilledLoop {
    pub piece: LoopPiece,
    pub partials: ListOf<ListOf<PartialLine>>,
}

/// A loop is filled, or has a first fault.
#[derive(Drop)]
pub enum LoopEnd {
    Filled(FilledLoop),
    Faulted(Fault),
}

// A book with a share for each slot, where a result is watched; it takes the memory for all numbers.
#[tactic(auto, using(crate::proofs::Ended::all_blank))]
fn opened(
    alloc: Global,
    watched: u32,
    slots: u32,
    clusters: u32,
) -> Result<(Option<Book>, ShareList), Memory>
    requires slots { (0 < slots) × (slots ≤ 16) }
    requires clusters { clusters ≤ 1000000 }
    ensures { IfOk result (λ r. IsOpened watched slots clusters r.0 × AreBlank r.0 slots r.1) }
{
    if watched == 0 {
        return Ok((None, ShareList::new(alloc)));
    }
    let (book, shares) = Book::new(alloc, slots, clusters)?;
    Ok((Some(book), shares))
}

// The slots, each with a seat and, where there is a book, a share.
#[tactic(auto, using(crate::proofs::Ended::none_seated))]
fn seated(alloc: Global, seats: SeatList, shares: ShareList) -> Result<Vec<SlotRights>, Memory>
    ensures many { IfOk result (λ v. vec_len v ≡ length seats) }
    ensures fresh { (shared : Shared) → All (IsReady shared.claims) seats → AreBlank shared.book (length seats) shares → IfOk result (λ v. All (IsFresh shared) v.items) }
{
    let mut seats = seats.into_vec();
    let mut shares = shares.into_vec();
    let mut slots = Vec::new(alloc);
    while let Some(seat) = seats.pop() {
        let share = shares.pop();
        slots.push(SlotRights { seat, share })?;
    }
    Ok(slots)
}

// How many clusters the loop goes over.
fn cluster_count(job: &Job<'_>) -> u32
    ensures value { result ≡ length (job_spans (job_of job.now)) }
    ensures few { result ≤ 1000000 }
{
    job.columns.cuts().count()
}

/// Runs a loop over all clusters, and notes its watched results after every `watch`-th cluster.
/// So many slots share the clusters out; no clause says how many of them ran, or when.
#[tactic(auto, using(slot_words::proofs::Steps::seats_many))]
pub fn run_loop<R: Threads + Sync, G: Gate>(
    rt: &R,
    alloc: Global,
    job: &Job<'_>,
    slots: u32,
    watch: u32,
    gate: &G,
) -> Result<LoopEnd, Memory>
    requires job { Fits job.now }
    requires words { StatementsHaveWords (history (job_of job.now).script) }
    requires slots { (0 < slots) × (slots ≤ 16) }
    requires watch { 0 < watch }
    ensures { IfOk result (λ end. HasEnded (job_facts (job_of job.now)) watch end) }
{
    let clusters = cluster_count(job);
    let watched = watched_in(job);
    let noting = Noting {
        watched,
        clusters,
        watch,
    };
    let (book, shares) = opened(alloc, watched, slots, clusters)?;
    let (claims, seats) = Claims::new(alloc, clusters, slots)?;
    let fresh = seated(alloc, seats, shares)?;
    let shared = Shared { claims, book };
    let finished = run_slots(rt, alloc, job, &shared, fresh, gate)?;
    let Shared { claims, book } = shared;
    match gathered(alloc, claims, finished)? {
        LoopOutcome::Faulted(fault) => Ok(LoopEnd::Faulted(fault)),
        LoopOutcome::Processed(made) => {
            let filled = filled(alloc, book, made, noting)?;
            Ok(LoopEnd::Filled(filled))
        }
    }
}
