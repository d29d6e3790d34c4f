// What the program answers to its words, before anything is written.
ghost use Rattle.std.specs.Prelude.{◌≡◌, IfOk, OnOk};
ghost use Rattle.entry_fns.specs.{functions_in};
ghost use Rattle.snapshot_due.specs.{usage_line};
ghost use Rattle.snapshot_program.specs.{IsAnswer, TurnsBesides};

use crate::answer::Answer;
use crate::inputs::{ReadInputs, read_inputs};
use crate::lines::usage_line;
use crate::over_table::answer_over;
use entry_fns::FnList;
use rdf_outside::{Gate, Host, Shelf, WordList};
use rdf_values::Memory;
use snapshot_due::SnapshotStatus;
use snapshot_words::{commands_are_plans, read_command};
use std::alloc::Global;
use std::thread::Threads;

// The answer to words that aren't taken.
fn untaken(alloc: Global) -> Result<Answer, Memory>
    ensures { IfOk result (λ a. (a.status ≡ SnapshotStatus.Words) × (a.text ≡ usage_line)) }
{
    let text = usage_line(alloc)?;
    Ok(Answer {
        status: SnapshotStatus::Words,
        text,
    })
}

/// The answer to the command's words.
pub(crate) fn answer_words<R: Threads + Sync, S: Shelf, G: Gate>(
    host: &Host<'_, R, G>,
    alloc: Global,
    words: &WordList,
    shelf: &mut S,
    functions: &FnList,
) -> Result<Answer, Memory>
    ensures answer { IfOk result (IsAnswer (functions_in functions.now) words.now (S.files shelf.old) (S.turns shelf.new) (S.faults shelf.old) (S.faults shelf.new)) }
    ensures turns { OnOk result (TurnsBesides words.now (S.files shelf.old) (S.turns shelf.old) (S.turns shelf.new)) }
{
    let Some(command) = read_command(alloc, words)? else {
        return untaken(alloc);
    };
    commands_are_plans();
    match read_inputs(host.rt, alloc, shelf, &command)? {
        ReadInputs::Both(inputs) => answer_over(host, alloc, inputs, &command, functions),
        ReadInputs::Refused(answer) => Ok(answer),
    }
}
