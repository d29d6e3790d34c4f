// What is due to a script over a table, on a span of its clusters.
ghost use Rattle.std.specs.Prelude.{◌≡◌, IfOk};
ghost use Rattle.entry_fns.specs.{functions_in};
ghost use Rattle.rdf_values.specs.{history, IsBookable, StatementsHaveWords};
ghost use Rattle.table_csv.specs.{columns_over, marked_in};
ghost use Rattle.shard_due.specs.{IsDueToTable};
ghost use Rattle.shard_program.specs.Answers.{Answers};

use crate::answer::Answer;
use crate::span_file::answer_span;
use columns::Columns;
use entry_fns::FnList;
use graph::{Graph, GraphRefusal};
use rdf_values::{Memory, Script};
use shard_words::SpanRun;
use std::alloc::Global;

/// The answer to a script over a table.
pub(crate) fn answer_over(
    alloc: Global,
    script: Script,
    columns: &Columns,
    run: &SpanRun,
    functions: &FnList,
) -> Result<Answer, Memory>
    requires bookable { IsBookable script }
    requires words { StatementsHaveWords (history script) }
    requires over { columns.now ≡ columns_over (marked_in columns.now) run.now.size }
    ensures { IfOk result (Answers (IsDueToTable (functions_in functions.now) run.now.size run.now.clusters script (marked_in columns.now))) }
{
    match Graph::book(alloc, script, columns.columns(), functions.names()) {
        Ok(graph) => answer_span(alloc, &graph, columns, functions, run.clusters),
        Err(GraphRefusal::Memory) => Err(Memory),
        Err(GraphRefusal::At { line, cause }) => Answer::of_script(alloc, line, cause),
    }
}
