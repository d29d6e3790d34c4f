// The lines of partial results.
ghost use Rattle.std.specs.Prelude.{◌≡◌, ◌++◌, ◌<◌, ◌-◌, OnOk, IfOk, All, Some, length, slice_get};
ghost use Rattle.graph_numbers.specs.{graph_results, ResultAt};
ghost use Rattle.rdf_model.specs.{run_text, value_text};
ghost use Rattle.loop_pieces.specs.{PartialLine, watch_filled};
ghost use Rattle.result_text.specs.{AreRuns, run_of, runs_text, watch_line, watch_lines};

use crate::numbers::{put_count, put_option, put_sum};
use graph::Graph;
use loop_pieces::{PartialLine, PartialLines, WatchPiece};
use rdf_values::{Memory, Span, Text};
use std::alloc::Global;

// Appends a run: its number, or its first and last.
fn put_run(alloc: Global, text: &mut Text, run: &Span) -> Result<(), Memory>
    requires { run.now.lo < run.now.hi }
    ensures { OnOk result (text.new ≡ text.old ++ run_text (run_of run.now)) }
{
    let first = run.lo;
    let last = run.hi - 1;
    put_count(alloc, text, u64::from(first))?;
    if first == last {
        return Ok(());
    }
    text.push(b'-')?;
    put_count(alloc, text, u64::from(last))
}

// Appends the runs, with commas between.
fn put_runs(alloc: Global, text: &mut Text, runs: &[Span]) -> Result<(), Memory>
    requires { AreRuns runs.now }
    ensures { OnOk result (text.new ≡ text.old ++ runs_text runs.now) }
{
    let Some((first, rest)) = runs.split_first() else {
        return Ok(());
    };
    put_run(alloc, text, first)?;
    for run in rest {
        text.push(b',')?;
        put_run(alloc, text, run)?;
    }
    Ok(())
}

fn put_value(alloc: Global, text: &mut Text, value: WatchPiece) -> Result<(), Memory>
    ensures { OnOk result (text.new ≡ text.old ++ value_text (watch_filled value)) }
{
    match value {
        WatchPiece::Count(n) => put_count(alloc, text, n),
        WatchPiece::Sum(z) => put_sum(alloc, text, z),
        WatchPiece::Least(z) => put_option(alloc, text, z),
        WatchPiece::Greatest(z) => put_option(alloc, text, z),
    }
}

// Appends the line of one partial result.
fn put_line(alloc: Global, text: &mut Text, name: &[u8], line: &PartialLine) -> Result<(), Memory>
    requires { AreRuns line.now.runs }
    ensures { OnOk result (text.new ≡ text.old ++ watch_line name.now line.now) }
{
    text.extend(b"partial ")?;
    text.extend(name)?;
    text.extend(b" over ")?;
    put_runs(alloc, text, line.runs.as_slice())?;
    text.extend(b" = ")?;
    put_value(alloc, text, line.value)?;
    text.push(b'\n')
}

/// The lines of a result's partial results, in order.
pub fn partial_lines(
    alloc: Global,
    graph: &Graph,
    r: u32,
    partials: &PartialLines<'_>,
) -> Result<Text, Memory>
    requires result { r < length (graph_results graph.now) }
    requires runs { All (λ (l : PartialLine). AreRuns l.runs) partials.now.lines.now }
    ensures { (x : ResultAt) → slice_get (graph_results graph.now) r ≡ Some x → IfOk result (λ text. text ≡ watch_lines x.booked.name partials.now.lines.now) }
{
    let name = graph.result_name(r).bytes();
    let mut text = Text::new(alloc);
    for line in partials.lines {
        put_line(alloc, &mut text, name, line)?;
    }
    Ok(text)
}
