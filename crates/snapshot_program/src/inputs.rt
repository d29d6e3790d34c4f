// The script and the table from their files.
ghost use Rattle.std.specs.Prelude.{◌≤◌, [], ◌∷◌, IfOk, OnOk};
ghost use Rattle.input_files.specs.{AreTurnedTo};
ghost use Rattle.snapshot_words.specs.{IsAsked};
ghost use Rattle.snapshot_program.specs.{IsScriptFile, ReadsInputs};

use crate::answer::Answer;
use columns::Columns;
use input_files::{ReadFile, read_columns_file, read_script_file};
use rdf_outside::Shelf;
use rdf_values::{Memory, Script};
use snapshot_words::SnapCommand;
use std::alloc::Global;
use std::thread::Threads;

/// A script, and a table's columns.
#[derive(Drop)]
pub(crate) struct SnapshotInputs {
    pub(crate) script: Script,
    pub(crate) columns: Columns,
}

/// Both that the command names, or the answer where one isn't there or is refused.
#[derive(Drop)]
pub(crate) enum ReadInputs {
    Both(SnapshotInputs),
    Refused(Answer),
}

/// Reads both files, the table only once the script was read.
pub(crate) fn read_inputs<R: Threads + Sync, S: Shelf>(
    rt: &R,
    alloc: Global,
    shelf: &mut S,
    command: &SnapCommand,
) -> Result<ReadInputs, Memory>
    requires { IsAsked command.now }
    ensures turns { OnOk result (AreTurnedTo (command.now.script ∷ command.now.table ∷ []) (IsScriptFile (S.files shelf.old) command.now.script) (S.turns shelf.old) (S.turns shelf.new)) }
    ensures later { S.faults shelf.old ≤ S.faults shelf.new }
    ensures read { IfOk result (ReadsInputs command.now (S.files shelf.old) (S.turns shelf.new) (S.faults shelf.old) (S.faults shelf.new)) }
{
    let script = match read_script_file(alloc, shelf, command.script.as_str())? {
        ReadFile::Whole(script) => script,
        ReadFile::Refused(refusal) => return Ok(ReadInputs::Refused(Answer::of(refusal))),
    };
    let (size, slots) = (command.cluster, command.slots);
    match read_columns_file(rt, alloc, shelf, command.table.as_str(), size, slots)? {
        ReadFile::Whole(columns) => Ok(ReadInputs::Both(SnapshotInputs { script, columns })),
        ReadFile::Refused(refusal) => Ok(ReadInputs::Refused(Answer::of(refusal))),
    }
}
