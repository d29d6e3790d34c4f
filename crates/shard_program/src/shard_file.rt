// One file of those that are merged.
ghost use Rattle.std.specs.Prelude.{◌≡◌, ◌≤◌, ◌++◌, [], ◌∷◌, IfOk, length};
ghost use Rattle.shard_program.specs.{ReadsShardFile, ReadsShardText};

use crate::answer::Answer;
use crate::lines::{file_refused_line, long_files_line};
use crate::span_file::MAX_FILES;
use command_words::FileName;
use input_files::{Fetched, absent, fetch, unread};
use rdf_outside::Shelf;
use rdf_values::Memory;
use shard_due::ShardStatus;
use shard_files::{Shard, ShardRefusal, read_shard};
use std::alloc::Global;

/// The shard that a file holds, with the number of its bytes, or the answer to a file that holds none.
#[derive(Drop)]
pub(crate) enum ReadShard {
    Whole { shard: Shard, bytes: usize },
    Refused(Answer),
}

// The shard that the bytes of a file are the text of.
fn shard_of(alloc: Global, name: &FileName, bytes: &[u8]) -> Result<ReadShard, Memory>
    requires { length bytes.now ≤ 134217728 }
    ensures { IfOk result (ReadsShardText name.now bytes.now) }
{
    match read_shard(alloc, bytes) {
        Ok(shard) => {
            let bytes = bytes.len();
            Ok(ReadShard::Whole { shard, bytes })
        }
        Err(ShardRefusal::Memory) => Err(Memory),
        Err(ShardRefusal::Syntax { line }) => Ok(ReadShard::Refused(Answer {
            status: ShardStatus::FileRefused,
            text: file_refused_line(alloc, name.as_str().as_bytes(), line)?,
        })),
    }
}

/// Reads the shard of the file that a shelf has under a name, where so many bytes of files were read before.
pub(crate) fn read_shard_file<S: Shelf>(
    alloc: Global,
    shelf: &mut S,
    name: &FileName,
    before: usize,
) -> Result<ReadShard, Memory>
    requires { before ≤ 134217728 }
    ensures same { S.files shelf.new ≡ S.files shelf.old }
    ensures turns { S.turns shelf.new ≡ S.turns shelf.old ++ name.now ∷ [] }
    ensures later { S.faults shelf.old ≤ S.faults shelf.new }
    ensures read { IfOk result (ReadsShardFile (S.files shelf.old) (S.turns shelf.new) (S.faults shelf.old) (S.faults shelf.new) name.now before) }
{
    match fetch(alloc, shelf, name.as_str(), MAX_FILES - before)? {
        Fetched::Whole(bytes) => shard_of(alloc, name, bytes.as_slice()),
        Fetched::Absent => Ok(ReadShard::Refused(Answer::of_file(absent(alloc, name.as_str())?))),
        Fetched::TooLong => Ok(ReadShard::Refused(Answer {
            status: ShardStatus::TooLong,
            text: long_files_line(alloc)?,
        })),
        Fetched::Failed => Ok(ReadShard::Refused(Answer::of_file(unread(alloc, name.as_str())?))),
    }
}
