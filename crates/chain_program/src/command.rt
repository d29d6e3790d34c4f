// The answer to a command whose script was read.
ghost use Rattle.std.specs.Prelude.{◌≡◌, ◌≤◌, IfOk, OnOk};
ghost use Rattle.entry_fns.specs.{functions_in};
ghost use Rattle.rdf_values.specs.{history, IsBookable, StatementsHaveWords};
ghost use Rattle.chain_program.specs.{AreTurned, IsAnswer, IsDueToText, IsOtherRead, others_in, script_in};
ghost use Rattle.chain_words.specs.{AreWithinLimits};

use crate::answer::Answer;
use crate::join::join_files;
use crate::map::map_table;
use crate::means::Means;
use crate::print::print_file;
use crate::run::run_tables;
use crate::scripts::ScriptText;
use chain_words::ChainCommand;
use rdf_outside::{Gate, Shelf};
use rdf_values::Memory;
use std::thread::Threads;

/// The name of a command's script.
pub(crate) fn script_in(command: &ChainCommand) -> &str
    ensures { result.now ≡ script_in command.now }
{
    match command {
        ChainCommand::Run(running) => running.script.as_str(),
        ChainCommand::Map(mapping) => mapping.script.as_str(),
        ChainCommand::Join(joining) => joining.script.as_str(),
        ChainCommand::Print(printing) => printing.script.as_str(),
    }
}

/// The answer to the command.
pub(crate) fn answer_command<R: Threads + Sync, S: Shelf, G: Gate>(
    means: &Means<'_, R, G>,
    shelf: &mut S,
    command: &ChainCommand,
    text: ScriptText,
) -> Result<Answer, Memory>
    requires bookable { IsBookable text.script }
    requires words { StatementsHaveWords (history text.script) }
    requires limits { AreWithinLimits command.now }
    ensures same { S.files shelf.new ≡ S.files shelf.old }
    ensures turns { OnOk result (AreTurned (IsOtherRead (S.files shelf.old) command.now) (others_in command.now) (S.turns shelf.old) (S.turns shelf.new)) }
    ensures later { S.faults shelf.old ≤ S.faults shelf.new }
    ensures answer { IfOk result (IsAnswer (IsDueToText (functions_in means.now.functions.now) command.now text) (S.files shelf.old) (S.turns shelf.new) (S.faults shelf.old) (S.faults shelf.new)) }
{
    match command {
        ChainCommand::Run(running) => run_tables(means, shelf, text.script, running),
        ChainCommand::Map(mapping) => map_table(means, shelf, text, mapping),
        ChainCommand::Join(joining) => {
            join_files(means.alloc, shelf, text, joining, means.functions)
        }
        ChainCommand::Print(printing) => {
            print_file(means.alloc, shelf, text, printing, means.functions)
        }
    }
}
