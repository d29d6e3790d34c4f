// One loop over a whole table.
ghost use Rattle.std.specs.Prelude.{◌≡◌, ◌<◌, ◌≤◌, IfOk};
ghost use Rattle.rdf_values.specs.{history, StatementsHaveWords};
ghost use Rattle.loop_keys.specs.{Fits, job_of, passes_in};
ghost use Rattle.chain_runs.specs.{alone, chain_loop, in_file};

use chain_files::{ChainFault, PartLoop};
use event_loop::{LoopEnd, run_loop};
use loop_keys::Job;
use rdf_outside::Gate;
use rdf_values::{Fault, Memory};
use shard_loop::span_lines;
use std::alloc::Global;
use std::thread::Threads;

// The fault of a table that is that file of the chain.
fn in_file(file: u32, fault: Fault) -> ChainFault
    ensures { result ≡ in_file file fault }
{
    ChainFault {
        file,
        entry: fault.entry,
        pass: fault.pass,
        kind: fault.kind,
    }
}

/// What a loop comes to over the table of the job, which is that file of the chain.
pub(crate) fn run_table<R: Threads + Sync, G: Gate>(
    rt: &R,
    alloc: Global,
    job: &Job<'_>,
    file: u32,
    slots: u32,
    gate: &G,
) -> Result<PartLoop, Memory>
    requires job { Fits job.now }
    requires words { StatementsHaveWords (history (job_of job.now).script) }
    requires slots { (0 < slots) × (slots ≤ 16) }
    ensures { IfOk result (λ one. one ≡ chain_loop (alone (job_of job.now).dataset) file (passes_in (job_of job.now))) }
{
    match run_loop(rt, alloc, job, slots, 1, gate)? {
        LoopEnd::Filled(filled) => Ok(PartLoop::Whole(span_lines(alloc, job, &filled.piece)?)),
        LoopEnd::Faulted(fault) => Ok(PartLoop::Faulted(in_file(file, fault))),
    }
}
