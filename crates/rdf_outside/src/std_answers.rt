// What a shelf and a sink answer to an answer of std.
ghost use Rattle.std.specs.Io.{ReadsAtMost};
ghost use Rattle.std.specs.Io.KnownBytes.{ReadConsumes};
ghost use Rattle.rdf_outside.specs.{AnswersMiss, AnswersOpen, AnswersRead, AnswersWrite, HasCause, TurnHasCause};

use crate::shelf::{Failed, TurnStop};
use std::io;
use std::io::{ErrorKind, Read};

// Reads on, whatever the reader is; its bytes are told where the reader tells them.
pub(crate) fn read_from<T: Read>(
    file: &mut T,
    buf: &mut [u8],
    faults: &mut u64,
) -> Result<usize, Failed>
    ensures bytes { ReadConsumes (T.remaining file.old) (T.remaining file.new) result buf.new }
    ensures within { ReadsAtMost result buf.new }
    ensures cause { HasCause faults.old faults.new result }
{
    read_answer(file.read(buf), faults)
}

fn read_answer(answer: io::Result<usize>, faults: &mut u64) -> Result<usize, Failed>
    ensures exact { AnswersRead answer result faults.old faults.new }
    ensures cause { HasCause faults.old faults.new result }
{
    match answer {
        Ok(count) => Ok(count),
        Err(_) => {
            *faults = faults.saturating_add(1);
            Err(Failed)
        }
    }
}

pub(crate) fn write_answer(
    answer: io::Result<usize>,
    piece: &[u8],
    faults: &mut u64,
) -> Result<usize, Failed>
    ensures exact { AnswersWrite answer piece.now result faults.old faults.new }
    ensures cause { HasCause faults.old faults.new result }
{
    match answer {
        Ok(count) if count > 0 || piece.is_empty() => Ok(count),
        _ => {
            *faults = faults.saturating_add(1);
            Err(Failed)
        }
    }
}

// The file turned to from now on, and the answer.
pub(crate) fn open_answer<T>(
    answer: io::Result<T>,
    faults: &mut u64,
) -> (Option<T>, Result<bool, TurnStop>)
    ensures exact { AnswersOpen answer result.0 result.1 faults.old faults.new }
    ensures cause { TurnHasCause faults.old faults.new result.1 }
{
    match answer {
        Ok(file) => (Some(file), Ok(true)),
        Err(error) => (None, miss_answer(error.kind(), faults)),
    }
}

fn miss_answer(kind: ErrorKind, faults: &mut u64) -> Result<bool, TurnStop>
    ensures exact { AnswersMiss kind result faults.old faults.new }
    ensures cause { TurnHasCause faults.old faults.new result }
{
    match kind {
        ErrorKind::NotFound => Ok(false),
        ErrorKind::OutOfMemory => Err(TurnStop::Memory),
        _ => {
            *faults = faults.saturating_add(1);
            Err(TurnStop::Failed)
        }
    }
}
