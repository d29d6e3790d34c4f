// One loop over a span of clusters.
ghost use Rattle.std.specs.Prelude.{◌≡◌, ◌<◌, ◌≤◌, IfOk, length};
ghost use Rattle.rdf_values.specs.{history, StatementsHaveWords};
ghost use Rattle.loop_keys.specs.{Fits, job_of, job_spans};
ghost use Rattle.shard_loop.specs.{IsSpanned};

use event_loop::{ClusterProgress, SlotState, SlotStop};
use expr_eval::Steps;
use loop_keys::Job;
use loop_pieces::LoopPiece;
use rdf_values::{Fault, Memory};
use std::alloc::Global;
use std::marker::Brand;
use std::sync::ledger::{Blank, Ledger};

/// What a loop came to over a span: the piece of its clusters, or their first fault, by the entry's number in the table.
#[derive(Drop)]
pub enum Spanned {
    Whole(LoopPiece),
    Faulted(Fault),
}

// Processes the clusters from `lo` to below `hi`, up to the first fault.
fn process_span<L: Ledger>(
    blank: Blank,
    alloc: Global,
    job: &Job<'_>,
    lo: u32,
    hi: u32,
) -> Result<Spanned, Memory>
    requires name { blank.name ≡ L.name }
    requires parts { blank.parts ≡ L.parts }
    requires some { 0 < L.parts }
    requires job { Fits job.now }
    requires words { StatementsHaveWords (history (job_of job.now).script) }
    requires span { (lo ≤ hi) × (hi ≤ length (job_spans (job_of job.now))) }
    ensures { IfOk result (IsSpanned (job_of job.now) lo hi) }
{
    let mut state = SlotState::new(alloc, job)?;
    let mut steps: Steps<L> = Steps::open(blank);
    for cluster in lo..hi {
        match state.process(job, cluster, &mut steps) {
            Ok(ClusterProgress::Done) => {}
            Ok(ClusterProgress::Faulted(fault)) => return Ok(Spanned::Faulted(fault)),
            Err(SlotStop::Memory) => return Err(Memory),
        }
    }
    Ok(Spanned::Whole(state.into_piece()))
}

/// Runs a loop over the clusters from `lo` to below `hi`, in one slot.
pub fn run_span(alloc: Global, job: &Job<'_>, lo: u32, hi: u32) -> Result<Spanned, Memory>
    requires job { Fits job.now }
    requires words { StatementsHaveWords (history (job_of job.now).script) }
    requires span { (lo ≤ hi) × (hi ≤ length (job_spans (job_of job.now))) }
    ensures { IfOk result (IsSpanned (job_of job.now) lo hi) }
{
    process_span::<Brand>(Blank::new(1), alloc, job, lo, hi)
}
