// The tables of a chain behind the first one.
ghost use Rattle.std.specs.Prelude.{◌≡◌, ◌≤◌, ◌<◌, ◌++◌, ◌∷◌, [], IfOk, OnOk, drop, length};
ghost use Rattle.entry_fns.specs.{functions_in};
ghost use Rattle.graph_shapes.specs.{graph_shapes};
ghost use Rattle.rdf_values.specs.{fn_names, history, StatementsHaveWords};
ghost use Rattle.chain_words.specs.{AreSettings};
ghost use Rattle.chain_program.specs.{AreRun, AreTurned, IsTableFile, ReadsAll, ReadsNext};

use crate::answer::Read;
use crate::first_table::loops_over;
use crate::lines::differs;
use crate::means::Means;
use crate::tables::read_table;
use chain_files::{PartLoop, joined_loops};
use chain_words::Settings;
use command_words::FileName;
use graph::Graph;
use rdf_outside::{Gate, Shelf};
use rdf_values::{ListOf, Memory};
use shard_files::same_columns;
use shard_lines::PassShape;
use std::thread::Threads;

/// A graph with the shapes of its passes, by which the loops of several tables are joined.
#[derive(Drop)]
pub(crate) struct Chaining<'a> {
    pub(crate) graph: &'a Graph,
    pub(crate) shapes: &'a [ListOf<PassShape>],
    pub(crate) settings: Settings,
}

// Reads the table of that name, which is that file of the chain, and runs the loops over it.
fn next_table<R: Threads + Sync, S: Shelf, G: Gate>(
    means: &Means<'_, R, G>,
    shelf: &mut S,
    chaining: &Chaining<'_>,
    name: &str,
    file: u32,
) -> Result<Read<ListOf<PartLoop>>, Memory>
    requires names { chaining.now.graph.now.names ≡ fn_names (functions_in means.now.functions.now) }
    requires words { StatementsHaveWords (history chaining.now.graph.now.script) }
    requires settings { AreSettings chaining.now.settings }
    ensures same { S.files shelf.new ≡ S.files shelf.old }
    ensures turns { S.turns shelf.new ≡ S.turns shelf.old ++ name.now ∷ [] }
    ensures later { S.faults shelf.old ≤ S.faults shelf.new }
    ensures read { IfOk result (ReadsNext (functions_in means.now.functions.now) chaining.now.graph.now.script chaining.now.graph.now.header file (S.files shelf.old) name.now (S.turns shelf.new) (S.faults shelf.old) (S.faults shelf.new)) }
{
    let settings = chaining.settings;
    let columns = match read_table(means.rt, means.alloc, shelf, name, settings)? {
        Read::Whole(columns) => columns,
        Read::Refused(answer) => return Ok(Read::Refused(answer)),
    };
    if !same_columns(chaining.graph.header(), columns.columns()) {
        return Ok(Read::Refused(differs(means.alloc, name)?));
    }
    let loops = loops_over(means, chaining.graph, &columns, file, settings)?;
    Ok(Read::Whole(loops))
}

/// What the loops come to over all tables, by those over the first one.
pub(crate) fn other_tables<R: Threads + Sync, S: Shelf, G: Gate>(
    means: &Means<'_, R, G>,
    shelf: &mut S,
    chaining: &Chaining<'_>,
    tables: &[FileName],
    loops: ListOf<PartLoop>,
) -> Result<Read<ListOf<PartLoop>>, Memory>
    requires names { chaining.now.graph.now.names ≡ fn_names (functions_in means.now.functions.now) }
    requires words { StatementsHaveWords (history chaining.now.graph.now.script) }
    requires settings { AreSettings chaining.now.settings }
    requires shapes { chaining.now.shapes.now ≡ graph_shapes chaining.now.graph.now }
    requires some { 0 < length tables.now }
    requires few { length tables.now ≤ 16384 }
    requires first { AreRun (functions_in means.now.functions.now) chaining.now.graph.now.script chaining.now.graph.now.header (S.files shelf.old) tables.now 1 loops }
    ensures same { S.files shelf.new ≡ S.files shelf.old }
    ensures turns { OnOk result (AreTurned (IsTableFile (S.files shelf.old)) (drop 1 tables.now) (S.turns shelf.old) (S.turns shelf.new)) }
    ensures later { S.faults shelf.old ≤ S.faults shelf.new }
    ensures read { IfOk result (ReadsAll (functions_in means.now.functions.now) chaining.now.graph.now.script chaining.now.graph.now.header (S.files shelf.old) tables.now (S.turns shelf.new) (S.faults shelf.old) (S.faults shelf.new)) }
{
    let mut loops = loops;
    for i in 1..tables.len() {
        match next_table(means, shelf, chaining, tables[i].as_str(), i as u32)? {
            Read::Whole(more) => {
                loops = joined_loops(means.alloc, chaining.shapes, loops, more.as_slice())?;
            }
            Read::Refused(answer) => return Ok(Read::Refused(answer)),
        }
    }
    Ok(Read::Whole(loops))
}
