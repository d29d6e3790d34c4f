// What reading a file comes to, and refusals of files with their lines.
ghost use Rattle.std.specs.Prelude.{◌≡◌, IfOk};
ghost use Rattle.rdf_values.specs.{no_file_line, read_failed_line};
ghost use Rattle.result_text.specs.{refusal_text};

use rdf_values::{Memory, Text};
use result_text::refusals::text_of;
use result_text::{Refusal, refusal_line};
use std::alloc::Global;

/// A cause with the line of a refusal.
pub(crate) fn refused(
    alloc: Global,
    cause: FileCause,
    refusal: &Refusal,
) -> Result<FileRefusal, Memory>
    ensures { IfOk result (λ r. (r.cause ≡ cause) × (r.line ≡ refusal_text refusal.now)) }
{
    let line = refusal_line(alloc, refusal)?;
    Ok(FileRefusal { cause, line })
}

/// There is no file of that name.
pub fn absent(alloc: Global, name: &str) -> Result<FileRefusal, Memory>
    ensures { IfOk result (λ r. (r.cause ≡ FileCause.NoFile) × (r.line ≡ no_file_line name.now)) }
{
    let name = text_of(alloc, name.as_bytes())?;
    refused(alloc, FileCause::NoFile, &Refusal::NoFile { name })
}

/// A read of the file failed.
pub fn unread(alloc: Global, name: &str) -> Result<FileRefusal, Memory>
    ensures { IfOk result (λ r. (r.cause ≡ FileCause.ReadFailed) × (r.line ≡ read_failed_line name.now)) }
{
    let name = text_of(alloc, name.as_bytes())?;
    refused(alloc, FileCause::ReadFailed, &Refusal::Read { name })
}

/// A read failed, there is no such file, or its bytes are refused.
#[derive(Clone, Copy, Debug, PartialEq, Eq)]
pub enum FileCause {
    ReadFailed,
    NoFile,
    ScriptRefused,
    TableRefused,
}

/// A cause with the line that says it.
#[derive(Drop)]
pub struct FileRefusal {
    pub cause: FileCause,
    pub line: Text,
}

/// What the whole file spells, or why it gives nothing.
#[derive(Drop)]
pub enum ReadFile<T> {
    Whole(T),
    Refused(FileRefusal),
}
