// The files that are merged, one after the other.
ghost use Rattle.std.specs.Prelude.{◌≡◌, ◌≤◌, IfOk, OnOk};
ghost use Rattle.input_files.specs.{AreTurnedTo};
ghost use Rattle.shard_program.specs.{IsShardRead, ReadsShards};

use crate::answer::Answer;
use crate::shard_file::{ReadShard, read_shard_file};
use command_words::FileName;
use rdf_outside::Shelf;
use rdf_values::{ListOf, Memory};
use shard_files::Shard;
use std::alloc::Global;

/// The shards that all files hold, or the answer to the first one that holds none.
#[derive(Drop)]
pub(crate) enum ReadShards {
    All(ListOf<Shard>),
    Refused(Answer),
}

/// Reads the shards of the files that a shelf has under these names, in order.
pub(crate) fn read_shards<S: Shelf>(
    alloc: Global,
    shelf: &mut S,
    names: &[FileName],
) -> Result<ReadShards, Memory>
    ensures same { S.files shelf.new ≡ S.files shelf.old }
    ensures turns { OnOk result (AreTurnedTo names.now (IsShardRead (S.files shelf.old) names.now) (S.turns shelf.old) (S.turns shelf.new)) }
    ensures later { S.faults shelf.old ≤ S.faults shelf.new }
    ensures read { IfOk result (ReadsShards (S.files shelf.old) (S.turns shelf.new) (S.faults shelf.old) (S.faults shelf.new) names.now) }
{
    let mut shards = ListOf::new(alloc);
    let mut count: usize = 0;
    for name in names {
        match read_shard_file(alloc, shelf, name, count)? {
            ReadShard::Whole { shard, bytes } => {
                shards.push(shard)?;
                count += bytes;
            }
            ReadShard::Refused(answer) => return Ok(ReadShards::Refused(answer)),
        }
    }
    Ok(ReadShards::All(shards))
}
