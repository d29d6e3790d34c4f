// What the program answers to a run.
ghost use Rattle.std.specs.Prelude.{◌≡◌, ◌≤◌, ◌++◌, [], ◌∷◌, IfOk};
ghost use Rattle.entry_fns.specs.{functions_in};
ghost use Rattle.rdf_values.specs.{history, IsBookable, StatementsHaveWords};
ghost use Rattle.input_files.specs.{AreTurnedTo, WithTableFile};
ghost use Rattle.shard_due.specs.{IsDueToTable, IsRunDue, statuses};
ghost use Rattle.shard_program.specs.{IsAnswer, IsReadIn, names_of};
ghost use Rattle.shard_words.specs.declared.command.ShardCommand.TheVariants.{Run};

use crate::answer::Answer;
use crate::over_table::answer_over;
use entry_fns::FnList;
use input_files::{ReadFile, read_columns_file, read_script_file};
use rdf_outside::Shelf;
use rdf_values::{Memory, Script};
use shard_words::SpanRun;
use std::alloc::Global;
use std::thread::Threads;

// Goes on with the table's file, once the script was read.
fn answer_script<R: Threads + Sync, S: Shelf>(
    rt: &R,
    alloc: Global,
    script: Script,
    run: &SpanRun,
    shelf: &mut S,
    functions: &FnList,
) -> Result<Answer, Memory>
    requires bookable { IsBookable script }
    requires words { StatementsHaveWords (history script) }
    requires size { 1 ≤ run.now.size }
    ensures same { S.files shelf.new ≡ S.files shelf.old }
    ensures turns { S.turns shelf.new ≡ S.turns shelf.old ++ run.now.table ∷ [] }
    ensures later { S.faults shelf.old ≤ S.faults shelf.new }
    ensures answer { IfOk result (IsAnswer (λ files d. WithTableFile statuses run.now.table (files run.now.table) (λ table e. IsDueToTable (functions_in functions.now) run.now.size run.now.clusters script table e) d)
        (S.files shelf.old) (S.turns shelf.new) (S.faults shelf.old) (S.faults shelf.new)) }
{
    match read_columns_file(rt, alloc, shelf, run.table.as_str(), run.size, 1)? {
        ReadFile::Whole(columns) => answer_over(alloc, script, &columns, run, functions),
        ReadFile::Refused(refusal) => Ok(Answer::of_file(refusal)),
    }
}

/// The answer to a run of a script over a table, on a span of its clusters.
pub(crate) fn answer_run<R: Threads + Sync, S: Shelf>(
    rt: &R,
    alloc: Global,
    run: &SpanRun,
    shelf: &mut S,
    functions: &FnList,
) -> Result<Answer, Memory>
    requires size { 1 ≤ run.now.size }
    ensures same { S.files shelf.new ≡ S.files shelf.old }
    ensures turns { AreTurnedTo (names_of (Run run.now)) (IsReadIn (Run run.now) (S.files shelf.old)) (S.turns shelf.old) (S.turns shelf.new) }
    ensures later { S.faults shelf.old ≤ S.faults shelf.new }
    ensures answer { IfOk result (IsAnswer (IsRunDue (functions_in functions.now) run.now) (S.files shelf.old) (S.turns shelf.new) (S.faults shelf.old) (S.faults shelf.new)) }
{
    match read_script_file(alloc, shelf, run.script.as_str())? {
        ReadFile::Whole(script) => answer_script(rt, alloc, script, run, shelf, functions),
        ReadFile::Refused(refusal) => Ok(Answer::of_file(refusal)),
    }
}
