// What the program answers to its words, before anything is written.
ghost use Rattle.std.specs.Prelude.{IfOk, OnOk};
ghost use Rattle.entry_fns.specs.{functions_in};
ghost use Rattle.chain_due.specs.{IsDueToCommand};
ghost use Rattle.chain_program.specs.{AnswersWords, AreCommandsTurns, IsAnswer, TurnsBesides};
ghost use Rattle.chain_words.specs.{AreWithinLimits};

use crate::answer::{Answer, Read};
use crate::command::{answer_command, script_in};
use crate::lines::untaken;
use crate::means::Means;
use crate::scripts::read_script;
use chain_words::{ChainCommand, read_command};
use rdf_outside::{Gate, Shelf, WordList};
use rdf_values::Memory;
use std::thread::Threads;

// The answer to what the words ask for.
fn answer_asked<R: Threads + Sync, S: Shelf, G: Gate>(
    means: &Means<'_, R, G>,
    shelf: &mut S,
    command: &ChainCommand,
) -> Result<Answer, Memory>
    requires limits { AreWithinLimits command.now }
    ensures turns { OnOk result (AreCommandsTurns command.now (S.files shelf.old) (S.turns shelf.old) (S.turns shelf.new)) }
    ensures answer { IfOk result (IsAnswer (IsDueToCommand (functions_in means.now.functions.now) command.now) (S.files shelf.old) (S.turns shelf.new) (S.faults shelf.old) (S.faults shelf.new)) }
{
    match read_script(means.alloc, shelf, script_in(command))? {
        Read::Whole(text) => answer_command(means, shelf, command, text),
        Read::Refused(answer) => Ok(answer),
    }
}

/// The answer to the words.
pub(crate) fn answer_words<R: Threads + Sync, S: Shelf, G: Gate>(
    means: &Means<'_, R, G>,
    words: &WordList,
    shelf: &mut S,
) -> Result<Answer, Memory>
    ensures turns { OnOk result (TurnsBesides words.now (S.files shelf.old) (S.turns shelf.old) (S.turns shelf.new)) }
    ensures answer { IfOk result (AnswersWords (functions_in means.now.functions.now) words.now (S.files shelf.old) (S.turns shelf.new) (S.faults shelf.old) (S.faults shelf.new)) }
{
    let Some(command) = read_command(means.alloc, words)? else {
        return untaken(means.alloc);
    };
    answer_asked(means, shelf, &command)
}
