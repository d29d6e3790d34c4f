// The loops of a graph over a span, in order.
ghost use Rattle.std.specs.Prelude.{◌≡◌, ◌<◌, ◌≤◌, IfOk, length};
ghost use Rattle.entry_fns.specs.{functions_in};
ghost use Rattle.rdf_values.specs.{fn_names, history, StatementsHaveWords};
ghost use Rattle.loop_keys.specs.{Fits, job_of, job_spans, passes_in};
ghost use Rattle.graph_numbers.specs.{graph_loops};
ghost use Rattle.shard_files.specs.{is_faulty};
ghost use Rattle.shard_spans.specs.{loops_of, span_loop, span_loops};
ghost use Rattle.shard_loop.specs.{cuts_of, loop_in, table_of};

use crate::passes::span_lines;
use crate::span_run::{Spanned, run_span};
use columns::Columns;
use entry_fns::FnList;
use graph::Graph;
use loop_keys::Job;
use rdf_values::{ListOf, Memory, Span};
use shard_files::ShardLoop;
use std::alloc::Global;

// What a loop comes to over the clusters of the span.
fn run_loop(alloc: Global, job: &Job<'_>, clusters: Span) -> Result<ShardLoop, Memory>
    requires job { Fits job.now }
    requires words { StatementsHaveWords (history (job_of job.now).script) }
    requires span { (clusters.lo ≤ clusters.hi) × (clusters.hi ≤ length (job_spans (job_of job.now))) }
    ensures { IfOk result (λ one. one ≡ span_loop (job_spans (job_of job.now)) (job_of job.now).dataset clusters.lo clusters.hi (passes_in (job_of job.now))) }
{
    match run_span(alloc, job, clusters.lo, clusters.hi)? {
        Spanned::Whole(piece) => Ok(ShardLoop::Whole(span_lines(alloc, job, &piece)?)),
        Spanned::Faulted(fault) => Ok(ShardLoop::Faulted(fault)),
    }
}

// What the loop of that number comes to over the clusters of the span.
fn loop_at(
    alloc: Global,
    graph: &Graph,
    columns: &Columns,
    functions: &FnList,
    number: u32,
    clusters: Span,
) -> Result<ShardLoop, Memory>
    requires graph { (graph.now.header ≡ columns.now.table.columns) × (graph.now.names ≡ fn_names (functions_in functions.now)) }
    requires words { StatementsHaveWords (history graph.now.script) }
    requires number { number < length (graph_loops graph.now) }
    requires span { (clusters.lo ≤ clusters.hi) × (clusters.hi ≤ length (cuts_of columns.now)) }
    ensures { IfOk result (λ one. one ≡ span_loop (cuts_of columns.now) (table_of columns.now (functions_in functions.now)) clusters.lo clusters.hi (loop_in graph.now.script number)) }
{
    graph.is_booked();
    let _columns = columns.columns();
    let _cuts = columns.cuts();
    let job = Job {
        graph,
        loop_index: number,
        columns,
        functions,
    };
    run_loop(alloc, &job, clusters)
}

fn is_faulty(one: &ShardLoop) -> bool
    ensures { result ≡ is_faulty one.now }
{
    matches!(one, ShardLoop::Faulted(_))
}

/// What the loops of the graph come to over the clusters from `clusters.lo` to below `clusters.hi`, up to the first one with
/// a fault, over the columns that the graph was booked with.
pub fn span_loops(
    alloc: Global,
    graph: &Graph,
    columns: &Columns,
    functions: &FnList,
    clusters: Span,
) -> Result<ListOf<ShardLoop>, Memory>
    requires graph { (graph.now.header ≡ columns.now.table.columns) × (graph.now.names ≡ fn_names (functions_in functions.now)) }
    requires words { StatementsHaveWords (history graph.now.script) }
    requires span { (clusters.lo ≤ clusters.hi) × (clusters.hi ≤ length (cuts_of columns.now)) }
    ensures { IfOk result (λ loops. loops ≡ span_loops (cuts_of columns.now) (table_of columns.now (functions_in functions.now)) clusters.lo clusters.hi (loops_of graph.now.script)) }
{
    let mut loops = ListOf::new(alloc);
    for number in 0..graph.loops() {
        let one = loop_at(alloc, graph, columns, functions, number, clusters)?;
        let over = is_faulty(&one);
        loops.push(one)?;
        if over {
            return Ok(loops);
        }
    }
    Ok(loops)
}
