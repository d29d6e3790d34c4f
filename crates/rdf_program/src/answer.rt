// What the program answers.
ghost use Rattle.std.specs.Prelude.{◌≡◌, IfOk};
ghost use Rattle.input_files.specs.{status_for};
ghost use Rattle.result_text.specs.{refusal_text};
ghost use Rattle.rdf_program.specs.{statuses};

use crate::status::Status;
use input_files::{FileCause, FileRefusal};
use rdf_values::{Memory, Text};
use result_text::{Refusal, refusal_line};
use std::alloc::Global;

/// A status and the text that goes with it.
#[derive(Drop)]
pub(crate) struct Answer {
    pub(crate) status: Status,
    pub(crate) text: Text,
}

/// What a stage found, or the answer that is due without what follows.
#[derive(Drop)]
pub(crate) enum Read<T> {
    Whole(T),
    Refused(Answer),
}

// The status where a file gives nothing.
fn status_for(cause: FileCause) -> Status
    ensures { result ≡ status_for statuses cause }
{
    match cause {
        FileCause::ReadFailed => Status::ReadFault,
        FileCause::NoFile => Status::NoFile,
        FileCause::ScriptRefused => Status::ScriptRefused,
        FileCause::TableRefused => Status::TableRefused,
    }
}

impl Answer {
    /// A status with the line of a refusal.
    pub(crate) fn refused(
        alloc: Global,
        status: Status,
        refusal: &Refusal,
    ) -> Result<Answer, Memory>
        ensures { IfOk result (λ a. (a.status ≡ status) × (a.text ≡ refusal_text refusal.now)) }
    {
        let text = refusal_line(alloc, refusal)?;
        Ok(Answer { status, text })
    }

    /// The status of a file that gives nothing, with its line.
    pub(crate) fn of_file(refusal: FileRefusal) -> Answer
        ensures status { result.status ≡ status_for statuses refusal.cause }
        ensures text { result.text ≡ refusal.line }
    {
        Answer {
            status: status_for(refusal.cause),
            text: refusal.line,
        }
    }
}
