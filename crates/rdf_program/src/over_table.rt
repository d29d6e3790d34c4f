// What is due to a script over a table.
ghost use Rattle.std.specs.Prelude.{◌≡◌, IfOk};
ghost use Rattle.entry_fns.specs.{functions_in};
ghost use Rattle.rdf_values.specs.{fn_names, history, IsBookable, StatementsHaveWords};
ghost use Rattle.rdf_program.specs.Answers.{Answers};
ghost use Rattle.rdf_program.specs.{AreSettings, IsDueOver, IsPrinted};
ghost use Rattle.table_csv.specs.{columns_over, marked_in};

use crate::answer::Answer;
use crate::means::Means;
use crate::status::Status;
use columns::Columns;
use event_loop::{BookedGraph, run_prints};
use graph::{Graph, GraphRefusal};
use rdf_outside::Gate;
use rdf_values::{Memory, Script};
use result_text::Refusal;
use std::thread::Threads;

// The answer of a graph's Prints.
fn answer_prints<R: Threads + Sync, G: Gate>(
    means: &Means<'_, R, G>,
    graph: Graph,
    columns: Columns,
) -> Result<Answer, Memory>
    requires graph { (graph.header ≡ columns.table.columns) × (graph.names ≡ fn_names (functions_in means.now.functions.now)) }
    requires words { StatementsHaveWords (history graph.script) }
    requires settings { AreSettings means.now.settings }
    requires size { columns.cuts.size ≡ means.now.settings.cluster }
    ensures { IfOk result (Answers (IsPrinted (functions_in means.now.functions.now) means.now.settings.cluster means.now.settings.watch graph.script (marked_in columns))) }
{
    let booked = BookedGraph {
        graph,
        columns,
        functions: means.functions,
    };
    let transcript = run_prints(
        means.rt,
        means.alloc,
        booked,
        means.settings.slots,
        means.settings.watch,
        means.gate,
    )?;
    let status = if transcript.faulted {
        Status::LoopFault
    } else {
        Status::Done
    };
    let text = transcript.text;
    Ok(Answer { status, text })
}

/// The answer to a script over a table.
pub(crate) fn answer_script<R: Threads + Sync, G: Gate>(
    means: &Means<'_, R, G>,
    script: Script,
    columns: Columns,
) -> Result<Answer, Memory>
    requires bookable { IsBookable script }
    requires words { StatementsHaveWords (history script) }
    requires over { columns ≡ columns_over (marked_in columns) means.now.settings.cluster }
    requires settings { AreSettings means.now.settings }
    ensures { IfOk result (Answers (IsDueOver (functions_in means.now.functions.now) means.now.settings.cluster means.now.settings.watch script (marked_in columns))) }
{
    let names = means.functions.names();
    match Graph::book(means.alloc, script, columns.columns(), names) {
        Ok(graph) => answer_prints(means, graph, columns),
        Err(GraphRefusal::Memory) => Err(Memory),
        Err(GraphRefusal::At { line, cause }) => Answer::refused(
            means.alloc,
            Status::ScriptRefused,
            &Refusal::Graph { line, cause },
        ),
    }
}
