// What the program answers to a script and a table, read from files or made.
ghost use Rattle.std.specs.Prelude.{◌≡◌, ◌≤◌, ◌++◌, IfOk, List, OnOk, ℕ};
ghost use Rattle.entry_fns.specs.{functions_in};
ghost use Rattle.rdf_program.specs.{AreSettings, AreTurnsTo, IsAnswer, IsDueToFiles, IsDueToMade, MayReadOf, ReadsMade};
ghost use Rattle.rdf_program.specs.Answers.{Answers};

use crate::answer::Answer;
use crate::friend::answer_with_friend;
use crate::make::{make_script, make_table};
use crate::means::Means;
use crate::over_table::answer_script;
use columns::Columns;
use command_words::Friend;
use input_files::{
    FileCause, FileRefusal, MAX_TABLE, ReadFile, columns_of, read_columns_file, read_script_file,
    read_table_file, script_of,
};
use rdf_outside::{Gate, Shelf, one_part};
use rdf_values::Memory;
use result_text::{Refusal, refusal_line};
use std::thread::Threads;

/// The answer to two names of files, and maybe a friend. Of each file only what was read of it is kept.
pub(crate) fn answer_files<R: Threads + Sync, S: Shelf, G: Gate>(
    means: &Means<'_, R, G>,
    shelf: &mut S,
    script_name: &str,
    table_name: &str,
    friend: &Option<Friend>,
) -> Result<Answer, Memory>
    requires settings { AreSettings means.now.settings }
    ensures turns { OnOk result ((turns : List (List ℕ)) × (S.turns shelf.new ≡ S.turns shelf.old ++ turns) × AreTurnsTo script_name.now table_name.now friend.now (S.files shelf.old) turns) }
    ensures answer { IfOk result (IsAnswer (IsDueToFiles (functions_in means.now.functions.now) means.now.settings.cluster means.now.settings.watch script_name.now table_name.now friend.now) (MayReadOf script_name.now table_name.now friend.now (S.files shelf.old) (S.turns shelf.new)) (S.files shelf.old) (S.faults shelf.old) (S.faults shelf.new)) }
{
    let script = match read_script_file(means.alloc, shelf, script_name)? {
        ReadFile::Whole(script) => script,
        ReadFile::Refused(refusal) => return Ok(Answer::of_file(refusal)),
    };
    let (rt, alloc) = (means.rt, means.alloc);
    let (size, slots) = (means.settings.cluster, means.settings.slots);
    match friend {
        None => match read_columns_file(rt, alloc, shelf, table_name, size, slots)? {
            ReadFile::Whole(columns) => answer_script(means, script, columns),
            ReadFile::Refused(refusal) => Ok(Answer::of_file(refusal)),
        },
        Some(friend) => match read_table_file(rt, alloc, shelf, table_name, slots)? {
            ReadFile::Whole(marked) => answer_with_friend(means, shelf, script, marked, friend),
            ReadFile::Refused(refusal) => Ok(Answer::of_file(refusal)),
        },
    }
}

// The columns of the generator's table, whose text goes once it is read.
fn made_columns<R: Threads + Sync, G>(
    means: &Means<'_, R, G>,
    entries: u32,
    seed: u32,
) -> Result<ReadFile<Columns>, Memory>
    requires entries { (1 ≤ entries) × (entries ≤ 1000000) }
    requires settings { AreSettings means.now.settings }
    ensures { IfOk result (ReadsMade entries seed means.now.settings.cluster) }
{
    let alloc = means.alloc;
    let bytes = make_table(alloc, entries, seed)?;
    if bytes.len() > MAX_TABLE {
        return Ok(ReadFile::Refused(FileRefusal {
            cause: FileCause::TableRefused,
            line: refusal_line(alloc, &Refusal::TableLong)?,
        }));
    }
    let (size, slots) = (means.settings.cluster, means.settings.slots);
    columns_of(means.rt, alloc, one_part(alloc, bytes)?, size, slots)
}

/// The answer to the generator's script over its table.
pub(crate) fn answer_made<R: Threads + Sync, G: Gate>(
    means: &Means<'_, R, G>,
    entries: u32,
    seed: u32,
) -> Result<Answer, Memory>
    requires entries { (1 ≤ entries) × (entries ≤ 1000000) }
    requires settings { AreSettings means.now.settings }
    ensures { IfOk result (Answers (IsDueToMade (functions_in means.now.functions.now) means.now.settings.cluster means.now.settings.watch entries seed)) }
{
    let text = make_script(means.alloc)?;
    let script = match script_of(means.alloc, text.as_slice())? {
        ReadFile::Whole(script) => script,
        ReadFile::Refused(refusal) => return Ok(Answer::of_file(refusal)),
    };
    match made_columns(means, entries, seed)? {
        ReadFile::Whole(columns) => answer_script(means, script, columns),
        ReadFile::Refused(refusal) => Ok(Answer::of_file(refusal)),
    }
}
