// A run over a chain of tables.
ghost use Rattle.std.specs.Prelude.{◌≡◌, ◌≤◌, ◌<◌, IfOk, OnOk, length};
ghost use Rattle.entry_fns.specs.{functions_in};
ghost use Rattle.rdf_values.specs.{history, IsBookable, StatementsHaveWords};
ghost use Rattle.chain_due.specs.{IsRunOver};
ghost use Rattle.chain_program.specs.{AreTurned, IsAnswer, IsTableFile};
ghost use Rattle.chain_words.specs.{AreSettings};

use crate::answer::{Answer, Read};
use crate::first_table::first_table;
use crate::lines::printed_status;
use crate::means::Means;
use crate::other_tables::{Chaining, other_tables};
use chain_text::chain_text;
use chain_words::Running;
use graph_shapes::graph_shapes;
use rdf_outside::{Gate, Shelf};
use rdf_values::{Memory, Script};
use std::thread::Threads;

/// The answer to a run of the script: one table after the other, of which only what the loops came to is kept.
pub(crate) fn run_tables<R: Threads + Sync, S: Shelf, G: Gate>(
    means: &Means<'_, R, G>,
    shelf: &mut S,
    script: Script,
    running: &Running,
) -> Result<Answer, Memory>
    requires bookable { IsBookable script }
    requires words { StatementsHaveWords (history script) }
    requires some { 0 < length running.now.tables }
    requires few { length running.now.tables ≤ 16384 }
    requires settings { AreSettings running.now.settings }
    ensures same { S.files shelf.new ≡ S.files shelf.old }
    ensures turns { OnOk result (AreTurned (IsTableFile (S.files shelf.old)) running.now.tables (S.turns shelf.old) (S.turns shelf.new)) }
    ensures later { S.faults shelf.old ≤ S.faults shelf.new }
    ensures answer { IfOk result (IsAnswer (IsRunOver (functions_in means.now.functions.now) script running.now.tables) (S.files shelf.old) (S.turns shelf.new) (S.faults shelf.old) (S.faults shelf.new)) }
{
    let settings = running.settings;
    let name = running.tables.at(0).as_str();
    let first = match first_table(means, shelf, script, name, 0, settings)? {
        Read::Whole(first) => first,
        Read::Refused(answer) => return Ok(answer),
    };
    means.functions.answers_have_64_bits();
    let loops = first.loops;
    let graph = first.graph;
    let shapes = graph_shapes(means.alloc, &graph)?;
    let chaining = Chaining {
        graph: &graph,
        shapes: shapes.as_slice(),
        settings,
    };
    let tables = running.tables.as_slice();
    match other_tables(means, shelf, &chaining, tables, loops)? {
        Read::Whole(loops) => {
            let printed = chain_text(means.alloc, &graph, loops.as_slice())?;
            Ok(Answer::new(printed_status(printed.faulted), printed.text))
        }
        Read::Refused(answer) => Ok(answer),
    }
}
