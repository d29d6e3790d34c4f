// The plan of the snapshot that is asked for.
ghost use Rattle.std.specs.Prelude.{◌≡◌, ◌≤◌, ◌<◌, IfOk, length};
ghost use Rattle.entry_fns.specs.{functions_in};
ghost use Rattle.rdf_values.specs.{graph_cause_line, IsBookable};
ghost use Rattle.snapshot_due.specs.{cause_line, status_of};
ghost use Rattle.snapshot_program.specs.{IsPlanned, IsWithin};

use crate::answer::Answer;
use crate::lines::cause_line;
use columns::Columns;
use entry_fns::FnList;
use graph::{Graph, GraphRefusal};
use rdf_values::{GraphCause, Memory, Script};
use result_text::{Refusal, refusal_line};
use snapshot_due::SnapshotStatus;
use snapshot_plan::{SnapCause, SnapPlan, SnapRefusal, plan};
use snapshot_words::SnapCommand;
use std::alloc::Global;

/// The plan, or the answer where there is none.
#[derive(Drop)]
pub(crate) enum Planned {
    Plan(SnapPlan),
    Refused(Answer),
}

// The answer where the script isn't accepted over the table.
fn unaccepted(alloc: Global, line: u32, cause: GraphCause) -> Result<Answer, Memory>
    ensures { IfOk result (λ a. (a.status ≡ SnapshotStatus.ScriptRefused) × (a.text ≡ graph_cause_line line cause)) }
{
    let text = refusal_line(alloc, &Refusal::Graph { line, cause })?;
    Ok(Answer {
        status: SnapshotStatus::ScriptRefused,
        text,
    })
}

fn status_of(cause: SnapCause) -> SnapshotStatus
    ensures { result ≡ status_of cause }
{
    match cause {
        SnapCause::BadNode => SnapshotStatus::BadNode,
        SnapCause::BadColumn { column: _ } => SnapshotStatus::BadColumn,
        SnapCause::BadVariation => SnapshotStatus::BadVariation,
        SnapCause::TooMany { count: _ } => SnapshotStatus::TooMany,
    }
}

// The answer where there is no plan.
fn unplanned(alloc: Global, command: &SnapCommand, cause: SnapCause) -> Result<Answer, Memory>
    requires { IsWithin (length command.now.columns) cause }
    ensures { IfOk result (λ a. (a.status ≡ status_of cause) × (a.text ≡ cause_line command.now cause)) }
{
    let text = cause_line(alloc, command, cause)?;
    Ok(Answer {
        status: status_of(cause),
        text,
    })
}

/// The plan for the node, the columns and the variation of the command, by a script over a table.
pub(crate) fn plan_for(
    alloc: Global,
    script: Script,
    columns: &Columns,
    functions: &FnList,
    command: &SnapCommand,
) -> Result<Planned, Memory>
    requires bookable { IsBookable script }
    requires some { 0 < length command.now.columns }
    requires few { length command.now.columns ≤ 64 }
    ensures { IfOk result (IsPlanned (functions_in functions.now) command.now script columns.now.table.columns) }
{
    let graph = match Graph::book(alloc, script, columns.columns(), functions.names()) {
        Ok(graph) => graph,
        Err(GraphRefusal::Memory) => return Err(Memory),
        Err(GraphRefusal::At { line, cause }) => {
            return Ok(Planned::Refused(unaccepted(alloc, line, cause)?));
        }
    };
    match plan(
        alloc,
        graph,
        &command.node,
        command.columns.as_slice(),
        &command.under,
    ) {
        Ok(plan) => Ok(Planned::Plan(plan)),
        Err(SnapRefusal::Memory) => Err(Memory),
        Err(SnapRefusal::At(cause)) => Ok(Planned::Refused(unplanned(alloc, command, cause)?)),
    }
}
