// What the program answers.
ghost use Rattle.std.specs.Prelude.{◌≡◌};
ghost use Rattle.chain_due.specs.{statuses};
ghost use Rattle.input_files.specs.{status_for};

use chain_due::ChainStatus;
use input_files::{FileCause, FileRefusal};
use rdf_values::Text;

/// A status and the text that goes with it.
#[derive(Drop)]
pub(crate) struct Answer {
    pub(crate) status: ChainStatus,
    pub(crate) text: Text,
}

/// What a stage found, or the answer that is due without what follows.
#[derive(Drop)]
pub(crate) enum Read<T> {
    Whole(T),
    Refused(Answer),
}

// The status for a file that gives nothing.
fn status_for(cause: FileCause) -> ChainStatus
    ensures { result ≡ status_for statuses cause }
{
    match cause {
        FileCause::ReadFailed => ChainStatus::ReadFault,
        FileCause::NoFile => ChainStatus::NoFile,
        FileCause::ScriptRefused => ChainStatus::ScriptRefused,
        FileCause::TableRefused => ChainStatus::TableRefused,
    }
}

impl Answer {
    /// A status with its text.
    pub(crate) fn new(status: ChainStatus, text: Text) -> Answer
        ensures { (result.status ≡ status) × (result.text ≡ text) }
    {
        Answer { status, text }
    }

    /// The answer to a file that gives nothing.
    pub(crate) fn of(refusal: FileRefusal) -> Answer
        ensures { (result.status ≡ status_for statuses refusal.cause) × (result.text ≡ refusal.line) }
    {
        Answer {
            status: status_for(refusal.cause),
            text: refusal.line,
        }
    }
}
