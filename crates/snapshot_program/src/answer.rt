// What the program answers.
ghost use Rattle.std.specs.Prelude.{◌≡◌};
ghost use Rattle.input_files.specs.{status_for};
ghost use Rattle.snapshot_due.specs.{statuses};

use input_files::{FileCause, FileRefusal};
use rdf_values::Text;
use snapshot_due::SnapshotStatus;

/// A status and the text that goes with it.
#[derive(Drop)]
pub(crate) struct Answer {
    pub(crate) status: SnapshotStatus,
    pub(crate) text: Text,
}

fn status_for(cause: FileCause) -> SnapshotStatus
    ensures { result ≡ status_for statuses cause }
{
    match cause {
        FileCause::ReadFailed => SnapshotStatus::ReadFault,
        FileCause::NoFile => SnapshotStatus::NoFile,
        FileCause::ScriptRefused => SnapshotStatus::ScriptRefused,
        FileCause::TableRefused => SnapshotStatus::TableRefused,
    }
}

impl Answer {
    /// The answer where a file gives nothing.
    pub(crate) fn of(refusal: FileRefusal) -> Answer
        ensures status { result.status ≡ status_for statuses refusal.cause }
        ensures text { result.text ≡ refusal.line }
    {
        Answer {
            status: status_for(refusal.cause),
            text: refusal.line,
        }
    }
}
