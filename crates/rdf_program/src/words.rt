// What the program answers to its words, before anything is written.
ghost use Rattle.std.specs.Prelude.{IfOk, OnOk};
ghost use Rattle.entry_fns.specs.{functions_in};
ghost use Rattle.rdf_program.specs.{AnswersWords, TurnsBesides};

use crate::answer::Answer;
use crate::input::{answer_files, answer_made};
use crate::means::{LoopSettings, Means};
use crate::status::Status;
use command_words::{Input, read_command};
use entry_fns::FnList;
use rdf_outside::{Gate, Host, Shelf, WordList};
use rdf_values::Memory;
use result_text::Refusal;
use std::alloc::Global;
use std::thread::Threads;

/// The answer to the command's words.
pub(crate) fn answer_words<R: Threads + Sync, S: Shelf, G: Gate>(
    host: &Host<'_, R, G>,
    alloc: Global,
    words: &WordList,
    shelf: &mut S,
    functions: &FnList,
) -> Result<Answer, Memory>
    ensures turns { OnOk result (TurnsBesides words.now (S.files shelf.old) (S.turns shelf.old) (S.turns shelf.new)) }
    ensures answer { IfOk result (AnswersWords (functions_in functions.now) words.now (S.files shelf.old) (S.turns shelf.new) (S.faults shelf.old) (S.faults shelf.new)) }
{
    let Some(command) = read_command(alloc, words)? else {
        return Answer::refused(alloc, Status::Words, &Refusal::Words);
    };
    let settings = LoopSettings {
        slots: command.slots,
        cluster: command.cluster,
        watch: command.watch,
    };
    let means = Means {
        rt: host.rt,
        alloc,
        functions,
        settings,
        gate: host.gate,
    };
    match command.input {
        Input::Files {
            script,
            table,
            friend,
        } => answer_files(&means, shelf, script.as_str(), table.as_str(), &friend),
        Input::Generated { entries, seed } => answer_made(&means, entries, seed),
    }
}
