// What is due to a script and the shards of files.
ghost use Rattle.std.specs.Prelude.{◌≡◌, ◌≤◌, IfOk, length};
ghost use Rattle.entry_fns.specs.{functions_in};
ghost use Rattle.rdf_values.specs.{IsBookable};
ghost use Rattle.shard_files.specs.{first_other, same_head};
ghost use Rattle.merged_text.specs.{FitGraph};
ghost use Rattle.shard_due.specs.{cause_due, IsDueToShards, IsMerged, IsPrinted, name_at};
ghost use Rattle.shard_program.specs.Answers.{Answers};
ghost use Rattle.shard_program.specs.{AreShards};

use crate::answer::Answer;
use crate::lines::{differs_line, uncovered_line};
use command_words::FileName;
use entry_fns::FnList;
use graph::{Graph, GraphRefusal};
use graph_shapes::{graph_shapes, joined_loops_fit};
use merged_text::merged_text;
use rdf_values::{ListOf, Memory, Script};
use shard_due::ShardStatus;
use shard_files::{MergeCause, MergeRefusal, Shard, ShardLoop, merge_shards, same_columns};
use std::alloc::Global;

// Whether both are of tables of so many entries, clusters and these columns.
fn same_head(a: &Shard, b: &Shard) -> bool
    ensures { result ≡ same_head a.now b.now }
{
    a.entries() == b.entries()
        && a.clusters() == b.clusters()
        && same_columns(a.columns(), b.columns())
}

// The first shard that is of another table.
fn first_other(first: &Shard, shards: &[Shard]) -> Option<usize>
    ensures { result ≡ first_other first.now shards.now }
{
    shards.iter().position(|s| !same_head(first, s))
}

// The name of that number.
fn name_at(names: &[FileName], i: usize) -> &[u8]
    ensures { result.now ≡ name_at names.now i }
{
    match names.get(i) {
        Some(name) => name.as_str().as_bytes(),
        None => &[],
    }
}

// The file of that number differs.
fn differs(alloc: Global, names: &[FileName], file: usize) -> Result<Answer, Memory>
    ensures { IfOk result (Answers (λ due. due ≡ cause_due names.now (MergeCause.Head file))) }
{
    Ok(Answer {
        status: ShardStatus::FilesDiffer,
        text: differs_line(alloc, name_at(names, file))?,
    })
}

// Why the files aren't merged.
fn not_merged(alloc: Global, names: &[FileName], cause: MergeCause) -> Result<Answer, Memory>
    ensures { IfOk result (Answers (λ due. due ≡ cause_due names.now cause)) }
{
    match cause {
        MergeCause::Head { file } => differs(alloc, names, file as usize),
        MergeCause::Shape { file } => differs(alloc, names, file as usize),
        MergeCause::Cover { cluster } => Ok(Answer {
            status: ShardStatus::NotCovered,
            text: uncovered_line(alloc, cluster)?,
        }),
    }
}

// The lines of merged loops.
fn answer_loops(alloc: Global, graph: &Graph, loops: &[ShardLoop]) -> Result<Answer, Memory>
    requires { FitGraph graph.now loops.now }
    ensures { IfOk result (Answers (IsPrinted graph.now loops.now)) }
{
    let merging = merged_text(alloc, graph, loops)?;
    let status = if merging.faulted {
        ShardStatus::LoopFault
    } else {
        ShardStatus::Done
    };
    let text = merging.text;
    Ok(Answer { status, text })
}

// The answer to a booked script and shards of one table.
fn answer_graph(
    alloc: Global,
    graph: &Graph,
    names: &[FileName],
    shards: ListOf<Shard>,
) -> Result<Answer, Memory>
    requires some { 1 ≤ length shards }
    requires few { length shards ≤ 64 }
    ensures { IfOk result (Answers (IsMerged graph.now names.now shards)) }
{
    joined_loops_fit();
    let shapes = graph_shapes(alloc, graph)?;
    match merge_shards(alloc, shapes.as_slice(), shards) {
        Ok(loops) => answer_loops(alloc, graph, loops.as_slice()),
        Err(MergeRefusal::Memory) => Err(Memory),
        Err(MergeRefusal::At(cause)) => not_merged(alloc, names, cause),
    }
}

/// The answer to a script and the shards of files of these names.
pub(crate) fn answer_shards(
    alloc: Global,
    script: Script,
    names: &[FileName],
    shards: ListOf<Shard>,
    functions: &FnList,
) -> Result<Answer, Memory>
    requires bookable { IsBookable script }
    requires valid { AreShards shards }
    requires some { 1 ≤ length shards }
    requires few { length shards ≤ 64 }
    ensures { IfOk result (Answers (IsDueToShards (functions_in functions.now) names.now script shards)) }
{
    let first = shards.at(0);
    match first_other(first, shards.as_slice()) {
        Some(file) => return differs(alloc, names, file),
        None => {}
    }
    match Graph::book(alloc, script, first.columns(), functions.names()) {
        Ok(graph) => answer_graph(alloc, &graph, names, shards),
        Err(GraphRefusal::Memory) => Err(Memory),
        Err(GraphRefusal::At { line, cause }) => Answer::of_script(alloc, line, cause),
    }
}
