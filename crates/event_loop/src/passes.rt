// The passes of a loop, and their tally.
ghost use Rattle.std.specs.Prelude.{◌≡◌, ◌+◌, ℕ, IfOk, OnOk, Some, length, replicate};
ghost use Rattle.rdf_values.specs.{history, named_before};
ghost use Rattle.loop_pieces.specs.{nothing};
ghost use Rattle.loop_keys.specs.{Fits, job_of, numbered_in, passes_in};
ghost use Rattle.event_loop.specs.{IsOfPasses, job_facts};

use crate::place::{counts_of, is_watched};
use cluster_tally::Tally;
use graph_numbers::{Pass, ResultKind};
use loop_keys::Job;
use rdf_values::Memory;
use std::alloc::Global;

/// How many results of the loop are watched.
pub fn watched_in(job: &Job<'_>) -> u32
    requires { Fits job.now }
    ensures { result ≡ length (job_facts (job_of job.now)).watched }
{
    job.graph.is_booked();
    let _variations = job.graph.variations().len();
    let passes = job.graph.passes(job.loop_index);
    let counts = counts_of(job.graph, passes);
    counts.watched
}

// Adds a pass to the tally, where it is one of an action.
fn add_pass(tally: &mut Tally, job: &Job<'_>, pass: Pass) -> Result<(), Memory>
    requires job { Fits job.now }
    requires pass { (n : ℕ) × (numbered_in (job_of job.now) n ≡ Some pass) }
    ensures fresh { (n : ℕ) → numbered_in (job_of job.now) n ≡ Some pass → IsOfPasses (job_of job.now) n tally.old → OnOk result (IsOfPasses (job_of job.now) (n + 1) tally.new) }
    ensures flow { tally.new.flow ≡ tally.old.flow }
{
    match job.graph.kind(pass.result) {
        ResultKind::Report => Ok(()),
        ResultKind::Action(kind) => {
            if is_watched(job.graph, pass) {
                tally.add_watched(kind)
            } else {
                tally.add_pass(kind)
            }
        }
    }
}

/// A tally of all action passes of a job's loop.
pub(crate) fn tally_of(alloc: Global, job: &Job<'_>) -> Result<Tally, Memory>
    requires { Fits job.now }
    ensures fresh { IfOk result (λ tally. IsOfPasses (job_of job.now) (length (passes_in (job_of job.now))) tally) }
    ensures flow { IfOk result (λ tally. tally.flow ≡ replicate (length (named_before (history (job_of job.now).script))) nothing) }
{
    let mut tally = Tally::new(alloc, job.graph.filters())?;
    for pass in job.graph.passes(job.loop_index) {
        add_pass(&mut tally, job, *pass)?;
    }
    Ok(tally)
}
