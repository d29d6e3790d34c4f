// The lines of passes, by the lines that shards hold of them.
ghost use Rattle.std.specs.Prelude.{◌≡◌, ◌<◌, ◌++◌, ℕ, All, OnOk, Some, length, slice_get};
ghost use Rattle.rdf_model.specs.{flow_lines};
ghost use Rattle.rdf_values.specs.scripts.Bookings as bookings;
ghost use Rattle.graph_numbers.specs.{graph_filters, graph_loops};
ghost use Rattle.result_text.specs.{passes_at};
ghost use Rattle.shard_lines.specs.{counts_of};
ghost use Rattle.merged_text.specs.{filter_counts, IsPassIn, lines_of_result, named_text, pass_text};

use crate::values::put_line;
use graph::Graph;
use graph_numbers::{Pass, ResultKind};
use loop_pieces::Counts;
use rdf_values::{Memory, Name, Text};
use result_text::labels::put_label;
use result_text::shares::put_flow_line;
use shard_lines::ShardLine;
use std::alloc::Global;

// The counts that a line holds, if any.
fn counts_of(line: &ShardLine) -> &[Counts]
    ensures { result.now ≡ counts_of line.now }
{
    match line {
        ShardLine::Report(counts) => counts.as_slice(),
        _ => &[],
    }
}

// Appends the lines of named filters, of which the first shown was reached by so many entries.
fn put_flows(
    alloc: Global,
    text: &mut Text,
    graph: &Graph,
    name: &[u8],
    covered: &[u32],
    counts: &[Counts],
) -> Result<(), Memory>
    requires covered { All (λ f. f < length (graph_filters graph.now)) covered.now }
    ensures { OnOk result (text.new ≡ text.old ++ flow_lines name.now (filter_counts (graph_filters graph.now) covered.now counts.now)) }
{
    if covered.len() == 0 || counts.len() == 0 {
        text.extend(name)?;
        return text.extend(b": no named filters\n");
    }
    let reached = counts[0].all;
    for (i, f) in covered.iter().enumerate() {
        if i >= counts.len() {
            return Ok(());
        }
        put_flow_line(alloc, text, name, reached, graph.label(*f), counts[i])?;
    }
    Ok(())
}

// Appends the lines of a pass.
fn put_pass(
    alloc: Global,
    text: &mut Text,
    graph: &Graph,
    pass: Pass,
    line: &ShardLine,
) -> Result<(), Memory>
    requires its_pass { (l n : ℕ) × IsPassIn graph.now l n pass }
    ensures { (l n : ℕ) (p : bookings.Pass) → IsPassIn graph.now l n pass → slice_get (passes_at graph.now l) n ≡ Some p → OnOk result (text.new ≡ text.old ++ pass_text p line.now) }
{
    let name = graph.result_name(pass.result);
    match graph.kind(pass.result) {
        ResultKind::Action(kind) => {
            put_label(text, name, graph.variations(), pass.variation)?;
            text.extend(b" = ")?;
            put_line(alloc, text, kind, line)
        }
        ResultKind::Report => {
            let covered = graph.covered(pass.result);
            put_flows(alloc, text, graph, name.bytes(), covered, counts_of(line))
        }
    }
}

// Appends the lines of a pass, where it is of the result of that name.
fn put_named(
    alloc: Global,
    text: &mut Text,
    graph: &Graph,
    pass: Pass,
    name: &Name,
    line: &ShardLine,
) -> Result<(), Memory>
    requires its_pass { (l n : ℕ) × IsPassIn graph.now l n pass }
    ensures { (l n : ℕ) (p : bookings.Pass) → IsPassIn graph.now l n pass → slice_get (passes_at graph.now l) n ≡ Some p → OnOk result (text.new ≡ text.old ++ named_text name.now p line.now) }
{
    if graph.result_name(pass.result).is(name) {
        put_pass(alloc, text, graph, pass, line)
    } else {
        Ok(())
    }
}

/// Appends the lines of the result of that name, by the lines of a loop's passes.
pub fn put_result(
    alloc: Global,
    text: &mut Text,
    graph: &Graph,
    l: u32,
    name: &Name,
    lines: &[ShardLine],
) -> Result<(), Memory>
    requires { l < length (graph_loops graph.now) }
    ensures { OnOk result (text.new ≡ text.old ++ lines_of_result name.now (passes_at graph.now l) lines.now) }
{
    let passes = graph.passes(l);
    for (i, line) in lines.iter().enumerate() {
        if i >= passes.len() {
            return Ok(());
        }
        put_named(alloc, text, graph, passes[i], name, line)?;
    }
    Ok(())
}
