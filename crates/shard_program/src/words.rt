// What the program answers to its words, before anything is written.
ghost use Rattle.std.specs.Prelude.{IfOk, OnOk};
ghost use Rattle.entry_fns.specs.{functions_in};
ghost use Rattle.shard_program.specs.{AnswersWords, AreTurns};

use crate::answer::Answer;
use crate::lines::usage_line;
use crate::merge::answer_merge;
use crate::run::answer_run;
use entry_fns::FnList;
use rdf_outside::{Shelf, WordList};
use rdf_values::Memory;
use shard_due::ShardStatus;
use shard_words::{ShardCommand, read_command};
use std::alloc::Global;
use std::thread::Threads;

/// The answer to the command's words.
pub(crate) fn answer_words<R: Threads + Sync, S: Shelf>(
    rt: &R,
    alloc: Global,
    words: &WordList,
    shelf: &mut S,
    functions: &FnList,
) -> Result<Answer, Memory>
    ensures turns { OnOk result (AreTurns words.now (S.files shelf.old) (S.turns shelf.old) (S.turns shelf.new)) }
    ensures answer { IfOk result (AnswersWords (functions_in functions.now) words.now (S.files shelf.old) (S.turns shelf.new) (S.faults shelf.old) (S.faults shelf.new)) }
{
    let Some(command) = read_command(alloc, words)? else {
        return Ok(Answer {
            status: ShardStatus::Words,
            text: usage_line(alloc)?,
        });
    };
    match command {
        ShardCommand::Run(run) => answer_run(rt, alloc, &run, shelf, functions),
        ShardCommand::Merge(merging) => answer_merge(alloc, &merging, shelf, functions),
    }
}
