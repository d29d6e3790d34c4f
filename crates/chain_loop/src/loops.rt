// The loops of a graph over one table of a chain, in order.
ghost use Rattle.std.specs.Prelude.{◌≡◌, ◌<◌, ◌≤◌, IfOk, length};
ghost use Rattle.entry_fns.specs.{functions_in};
ghost use Rattle.rdf_values.specs.{fn_names, history, StatementsHaveWords};
ghost use Rattle.graph_numbers.specs.{graph_loops};
ghost use Rattle.chain_files.specs.{is_faulty};
ghost use Rattle.shard_spans.specs.{loops_of};
ghost use Rattle.shard_loop.specs.{loop_in, table_of};
ghost use Rattle.chain_runs.specs.{alone, chain_loop, chain_loops};

use crate::one_loop::run_table;
use crate::table_run::TableRun;
use chain_files::PartLoop;
use loop_keys::Job;
use rdf_outside::Gate;
use rdf_values::{ListOf, Memory};
use std::alloc::Global;
use std::thread::Threads;

/// What the loop of that number comes to over the table.
pub fn table_loop<R: Threads + Sync, G: Gate>(
    rt: &R,
    alloc: Global,
    table: &TableRun<'_>,
    number: u32,
    gate: &G,
) -> Result<PartLoop, Memory>
    requires graph { (table.now.graph.now.header ≡ table.now.columns.now.table.columns) × (table.now.graph.now.names ≡ fn_names (functions_in table.now.functions.now)) }
    requires words { StatementsHaveWords (history table.now.graph.now.script) }
    requires slots { (0 < table.now.slots) × (table.now.slots ≤ 16) }
    requires number { number < length (graph_loops table.now.graph.now) }
    ensures { IfOk result (λ one. one ≡ chain_loop (alone (table_of table.now.columns.now (functions_in table.now.functions.now))) table.now.file (loop_in table.now.graph.now.script number)) }
{
    table.graph.is_booked();
    let _columns = table.columns.columns();
    let _cuts = table.columns.cuts();
    let job = Job {
        graph: table.graph,
        loop_index: number,
        columns: table.columns,
        functions: table.functions,
    };
    run_table(rt, alloc, &job, table.file, table.slots, gate)
}

fn is_faulty(one: &PartLoop) -> bool
    ensures { result ≡ is_faulty one.now }
{
    matches!(one, PartLoop::Faulted(_))
}

/// What the loops of the graph come to over the table, up to the first one with a fault.
pub fn table_loops<R: Threads + Sync, G: Gate>(
    rt: &R,
    alloc: Global,
    table: &TableRun<'_>,
    gate: &G,
) -> Result<ListOf<PartLoop>, Memory>
    requires graph { (table.now.graph.now.header ≡ table.now.columns.now.table.columns) × (table.now.graph.now.names ≡ fn_names (functions_in table.now.functions.now)) }
    requires words { StatementsHaveWords (history table.now.graph.now.script) }
    requires slots { (0 < table.now.slots) × (table.now.slots ≤ 16) }
    ensures { IfOk result (λ loops. loops ≡ chain_loops (alone (table_of table.now.columns.now (functions_in table.now.functions.now))) table.now.file (loops_of table.now.graph.now.script)) }
{
    let mut loops = ListOf::new(alloc);
    for number in 0..table.graph.loops() {
        let one = table_loop(rt, alloc, table, number, gate)?;
        let over = is_faulty(&one);
        loops.push(one)?;
        if over {
            return Ok(loops);
        }
    }
    Ok(loops)
}
