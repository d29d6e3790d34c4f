// What the program answers.
ghost use Rattle.std.specs.Prelude.{◌≡◌, IfOk};
ghost use Rattle.rdf_values.specs.{graph_cause_line};
ghost use Rattle.input_files.specs.{status_for};
ghost use Rattle.shard_due.specs.{statuses};

use input_files::{FileCause, FileRefusal};
use rdf_values::{GraphCause, Memory, Text};
use result_text::{Refusal, refusal_line};
use shard_due::ShardStatus;
use std::alloc::Global;

/// A status and the text that goes with it.
#[derive(Drop)]
pub(crate) struct Answer {
    pub(crate) status: ShardStatus,
    pub(crate) text: Text,
}

// The status where a file gives nothing.
fn status_for(cause: FileCause) -> ShardStatus
    ensures { result ≡ status_for statuses cause }
{
    match cause {
        FileCause::ReadFailed => ShardStatus::ReadFault,
        FileCause::NoFile => ShardStatus::NoFile,
        FileCause::ScriptRefused => ShardStatus::ScriptRefused,
        FileCause::TableRefused => ShardStatus::TableRefused,
    }
}

impl Answer {
    /// The status of a file that gives nothing, with its line.
    pub(crate) fn of_file(refusal: FileRefusal) -> Answer
        ensures status { result.status ≡ status_for statuses refusal.cause }
        ensures text { result.text ≡ refusal.line }
    {
        Answer {
            status: status_for(refusal.cause),
            text: refusal.line,
        }
    }

    /// A line of the script is refused over the columns of a table.
    pub(crate) fn of_script(alloc: Global, line: u32, cause: GraphCause) -> Result<Answer, Memory>
        ensures { IfOk result (λ a. (a.status ≡ ShardStatus.ScriptRefused) × (a.text ≡ graph_cause_line line cause)) }
    {
        Ok(Answer {
            status: ShardStatus::ScriptRefused,
            text: refusal_line(alloc, &Refusal::Graph { line, cause })?,
        })
    }
}
