// What the program answers to a merging.
ghost use Rattle.std.specs.Prelude.{◌≡◌, ◌≤◌, IfOk, OnOk, length};
ghost use Rattle.entry_fns.specs.{functions_in};
ghost use Rattle.rdf_values.specs.{IsBookable};
ghost use Rattle.input_files.specs.{AreTurnedTo};
ghost use Rattle.shard_due.specs.{IsMergeDue};
ghost use Rattle.shard_program.specs.{IsAnswer, IsDueToFiles, IsReadIn, IsShardRead, names_of};
ghost use Rattle.shard_words.specs.declared.command.ShardCommand.TheVariants.{Merge};

use crate::answer::Answer;
use crate::merging::answer_shards;
use crate::shards::{ReadShards, read_shards};
use command_words::FileName;
use entry_fns::FnList;
use input_files::{ReadFile, read_script_file};
use rdf_outside::Shelf;
use rdf_values::{Memory, Script};
use shard_words::Merging;
use std::alloc::Global;

// Goes on with the files, once the script was read.
fn answer_files<S: Shelf>(
    alloc: Global,
    script: Script,
    names: &[FileName],
    shelf: &mut S,
    functions: &FnList,
) -> Result<Answer, Memory>
    requires bookable { IsBookable script }
    requires some { 1 ≤ length names.now }
    requires few { length names.now ≤ 64 }
    ensures same { S.files shelf.new ≡ S.files shelf.old }
    ensures turns { OnOk result (AreTurnedTo names.now (IsShardRead (S.files shelf.old) names.now) (S.turns shelf.old) (S.turns shelf.new)) }
    ensures later { S.faults shelf.old ≤ S.faults shelf.new }
    ensures answer { IfOk result (IsAnswer (IsDueToFiles (functions_in functions.now) script names.now) (S.files shelf.old) (S.turns shelf.new) (S.faults shelf.old) (S.faults shelf.new)) }
{
    match read_shards(alloc, shelf, names)? {
        ReadShards::All(shards) => answer_shards(alloc, script, names, shards, functions),
        ReadShards::Refused(answer) => Ok(answer),
    }
}

/// The answer to the merging of the files of runs.
pub(crate) fn answer_merge<S: Shelf>(
    alloc: Global,
    merging: &Merging,
    shelf: &mut S,
    functions: &FnList,
) -> Result<Answer, Memory>
    requires some { 1 ≤ length merging.now.files }
    requires few { length merging.now.files ≤ 64 }
    ensures same { S.files shelf.new ≡ S.files shelf.old }
    ensures turns { OnOk result (AreTurnedTo (names_of (Merge merging.now)) (IsReadIn (Merge merging.now) (S.files shelf.old)) (S.turns shelf.old) (S.turns shelf.new)) }
    ensures later { S.faults shelf.old ≤ S.faults shelf.new }
    ensures answer { IfOk result (IsAnswer (IsMergeDue (functions_in functions.now) merging.now) (S.files shelf.old) (S.turns shelf.new) (S.faults shelf.old) (S.faults shelf.new)) }
{
    match read_script_file(alloc, shelf, merging.script.as_str())? {
        ReadFile::Whole(script) => {
            answer_files(alloc, script, merging.files.as_slice(), shelf, functions)
        }
        ReadFile::Refused(refusal) => Ok(Answer::of_file(refusal)),
    }
}
