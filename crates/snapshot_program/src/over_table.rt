// What is due to a script over a table.
ghost use Rattle.std.specs.Prelude.{◌≡◌, ◌≤◌, ◌<◌, IfOk};
ghost use Rattle.entry_fns.specs.{functions_in};
ghost use Rattle.rdf_values.specs.{fn_names, IsBookable};
ghost use Rattle.snapshot_due.specs.{fault_line, IsDueOver, IsRunDue, long_line};
ghost use Rattle.snapshot_entries.specs.{data_of, plan_of};
ghost use Rattle.snapshot_words.specs.{IsAsked};
ghost use Rattle.snapshot_program.specs.Answers.{Answers};

use crate::answer::Answer;
use crate::inputs::SnapshotInputs;
use crate::lines::{fault_line, long_line};
use crate::planning::{Planned, plan_for};
use entry_fns::FnList;
use rdf_outside::{Gate, Host};
use rdf_values::{EntryFault, Memory, Name};
use snapshot_due::SnapshotStatus;
use snapshot_entries::SnapJob;
use snapshot_run::{SnapStop, run};
use snapshot_words::SnapCommand;
use std::alloc::Global;
use std::thread::Threads;

// The answer where an entry faults.
fn faulted(alloc: Global, node: &Name, entry: u32, kind: EntryFault) -> Result<Answer, Memory>
    ensures { IfOk result (λ a. (a.status ≡ SnapshotStatus.LoopFault) × (a.text ≡ fault_line node.now (record { entry = entry; kind = kind }))) }
{
    let text = fault_line(alloc, node, entry, kind)?;
    Ok(Answer {
        status: SnapshotStatus::LoopFault,
        text,
    })
}

// The answer where the text is too long.
fn too_long(alloc: Global) -> Result<Answer, Memory>
    ensures { IfOk result (λ a. (a.status ≡ SnapshotStatus.TooLong) × (a.text ≡ long_line)) }
{
    let text = long_line(alloc)?;
    Ok(Answer {
        status: SnapshotStatus::TooLong,
        text,
    })
}

// The answer of a plan over a table.
fn answer_run<R: Threads + Sync, G: Gate>(
    host: &Host<'_, R, G>,
    alloc: Global,
    job: &SnapJob<'_>,
    slots: u32,
) -> Result<Answer, Memory>
    requires columns { (plan_of job.now).graph.header ≡ (data_of job.now).columns }
    requires functions { (plan_of job.now).graph.names ≡ fn_names (data_of job.now).fns }
    requires slots { (0 < slots) × (slots ≤ 16) }
    ensures { IfOk result (Answers (IsRunDue (plan_of job.now) (data_of job.now))) }
{
    match run(host.rt, alloc, job, slots, host.gate) {
        Ok(text) => Ok(Answer {
            status: SnapshotStatus::Done,
            text,
        }),
        Err(SnapStop::Fault { entry, kind }) => faulted(alloc, job.plan.node(), entry, kind),
        Err(SnapStop::TooLong { bytes: _ }) => too_long(alloc),
        Err(SnapStop::Memory) => Err(Memory),
    }
}

/// The answer to a script over a table.
pub(crate) fn answer_over<R: Threads + Sync, G: Gate>(
    host: &Host<'_, R, G>,
    alloc: Global,
    inputs: SnapshotInputs,
    command: &SnapCommand,
    functions: &FnList,
) -> Result<Answer, Memory>
    requires bookable { IsBookable inputs.script }
    requires asked { IsAsked command.now }
    ensures { IfOk result (Answers (IsDueOver (functions_in functions.now) command.now inputs.script inputs.columns.table)) }
{
    let SnapshotInputs { script, columns } = inputs;
    let plan = match plan_for(alloc, script, &columns, functions, command)? {
        Planned::Plan(plan) => plan,
        Planned::Refused(answer) => return Ok(answer),
    };
    let job = SnapJob {
        plan: &plan,
        columns: &columns,
        functions,
    };
    answer_run(host, alloc, &job, command.slots)
}
