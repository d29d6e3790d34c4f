// The first table of a chain, over which the script is booked.
ghost use Rattle.std.specs.Prelude.{◌≡◌, ◌≤◌, ◌++◌, ◌∷◌, [], IfOk};
ghost use Rattle.entry_fns.specs.{functions_in};
ghost use Rattle.rdf_values.specs.{fn_names, history, IsBookable, StatementsHaveWords};
ghost use Rattle.shard_loop.specs.{table_of};
ghost use Rattle.shard_spans.specs.{loops_of};
ghost use Rattle.chain_runs.specs.{alone, chain_loops};
ghost use Rattle.chain_words.specs.{AreSettings};
ghost use Rattle.chain_program.specs.{IsFirstOf, ReadsFirst};

use crate::answer::Read;
use crate::booking::{Booked, book_over};
use crate::means::Means;
use crate::table_columns::copied_columns;
use crate::tables::read_table;
use chain_files::PartLoop;
use chain_loop::{TableRun, table_loops};
use chain_words::Settings;
use columns::Columns;
use graph::Graph;
use rdf_outside::{Gate, Shelf};
use rdf_values::{Column, ListOf, Memory, Script};
use std::thread::Threads;

/// A graph, the columns over which it was booked, and what its loops came to over one table of so many entries.
#[derive(Drop)]
pub(crate) struct FirstTable {
    pub(crate) graph: Graph,
    pub(crate) columns: ListOf<Column>,
    pub(crate) entries: u32,
    pub(crate) loops: ListOf<PartLoop>,
}

/// What the loops of the graph come to over a table, which is that file of the chain.
pub(crate) fn loops_over<R: Threads + Sync, G: Gate>(
    means: &Means<'_, R, G>,
    graph: &Graph,
    columns: &Columns,
    file: u32,
    settings: Settings,
) -> Result<ListOf<PartLoop>, Memory>
    requires graph { (graph.now.header ≡ columns.now.table.columns) × (graph.now.names ≡ fn_names (functions_in means.now.functions.now)) }
    requires words { StatementsHaveWords (history graph.now.script) }
    requires settings { AreSettings settings }
    ensures { IfOk result (λ loops. loops ≡ chain_loops (alone (table_of columns.now (functions_in means.now.functions.now))) file (loops_of graph.now.script)) }
{
    let table = TableRun {
        graph,
        columns,
        functions: means.functions,
        file,
        slots: settings.slots,
    };
    table_loops(means.rt, means.alloc, &table, means.gate)
}

// What the loops of a booked script come to.
fn first_loops<R: Threads + Sync, G: Gate>(
    means: &Means<'_, R, G>,
    booked: Booked,
    file: u32,
    settings: Settings,
) -> Result<FirstTable, Memory>
    requires graph { (booked.graph.header ≡ booked.columns.table.columns) × (booked.graph.names ≡ fn_names (functions_in means.now.functions.now)) }
    requires words { StatementsHaveWords (history booked.graph.script) }
    requires settings { AreSettings settings }
    ensures { IfOk result (λ f. IsFirstOf (functions_in means.now.functions.now) file booked f) }
{
    let Booked { graph, columns } = booked;
    let loops = loops_over(means, &graph, &columns, file, settings)?;
    let header = copied_columns(means.alloc, columns.columns())?;
    let entries = columns.entries();
    Ok(FirstTable {
        graph,
        columns: header,
        entries,
        loops,
    })
}

/// Reads the table of that name, which is that file of the chain, books the script over it, and runs its loops.
pub(crate) fn first_table<R: Threads + Sync, S: Shelf, G: Gate>(
    means: &Means<'_, R, G>,
    shelf: &mut S,
    script: Script,
    name: &str,
    file: u32,
    settings: Settings,
) -> Result<Read<FirstTable>, Memory>
    requires bookable { IsBookable script }
    requires words { StatementsHaveWords (history script) }
    requires settings { AreSettings settings }
    ensures same { S.files shelf.new ≡ S.files shelf.old }
    ensures turns { S.turns shelf.new ≡ S.turns shelf.old ++ name.now ∷ [] }
    ensures later { S.faults shelf.old ≤ S.faults shelf.new }
    ensures read { IfOk result (ReadsFirst (functions_in means.now.functions.now) script file (S.files shelf.old) name.now (S.turns shelf.new) (S.faults shelf.old) (S.faults shelf.new)) }
{
    let columns = match read_table(means.rt, means.alloc, shelf, name, settings)? {
        Read::Whole(columns) => columns,
        Read::Refused(answer) => return Ok(Read::Refused(answer)),
    };
    match book_over(means, script, columns)? {
        Read::Whole(booked) => Ok(Read::Whole(first_loops(means, booked, file, settings)?)),
        Read::Refused(answer) => Ok(Read::Refused(answer)),
    }
}
