// The shapes of a graph's passes.
ghost use Rattle.std.specs.Prelude.{◌≡◌, ◌<◌, ◌≤◌, ◌+◌, ◌*◌, [], ℕ, IfOk, Some, length, option_map, slice_get};
ghost use Rattle.rdf_values.specs.scripts.Bookings as bookings;
ghost use Rattle.rdf_values.specs.{cells_of};
ghost use Rattle.graph_numbers.specs.{graph_loops, graph_results};
ghost use Rattle.merged_text.specs.{IsPassIn};
ghost use Rattle.result_text.specs.{passes_at};
ghost use Rattle.shard_lines.specs.{action_shape, booking_shape};
ghost use Rattle.shard_spans.specs.{pass_shapes};
ghost use Rattle.graph_shapes.specs.{graph_shapes, input_kind, pass_kind};

use graph::Graph;
use graph_numbers::{Pass, ResultKind};
use rdf_values::{ActionKind, ColType, ListOf, Memory};
use shard_lines::PassShape;
use std::alloc::Global;

// The kind of the first column that a result reads.
fn input_kind(graph: &Graph, r: u32) -> ColType
    requires { r < length (graph_results graph.now) }
    ensures { option_map (λ x. input_kind graph.now x) (slice_get (graph_results graph.now) r) ≡ Some result }
{
    match graph.inputs(r).first() {
        Some(version) => match graph.kinds().get(*version as usize) {
            Some(kind) => *kind,
            None => ColType::Int,
        },
        None => ColType::Int,
    }
}

// The shape of an action's passes, where its first column is of that kind.
fn action_shape(kind: &ActionKind, column: ColType) -> PassShape
    requires { cells_of (bookings.ActionAt kind.now []) ≤ 1048576 }
    ensures { result ≡ action_shape column kind.now }
{
    match kind {
        ActionKind::Count => PassShape::Count,
        ActionKind::Sum(_) => PassShape::Sum,
        ActionKind::Min(_) => PassShape::Least,
        ActionKind::Max(_) => PassShape::Greatest,
        ActionKind::Take(_) => PassShape::Take(column),
        ActionKind::Reduce(operation, _) => PassShape::Number(*operation),
        ActionKind::Histo1D { x_edges, .. } => PassShape::Cells((x_edges.len() + 1) as u32),
        ActionKind::Histo2D {
            x_edges,
            y_edges,
            ..
        } => PassShape::Cells(((x_edges.len() + 1) * (y_edges.len() + 1)) as u32),
    }
}

// The shape of a pass.
fn pass_shape(graph: &Graph, pass: Pass) -> PassShape
    requires { (l n : ℕ) × IsPassIn graph.now l n pass }
    ensures { (l n : ℕ) (p : bookings.Pass) → IsPassIn graph.now l n pass → slice_get (passes_at graph.now l) n ≡ Some p → result ≡ booking_shape (pass_kind graph.now p) p.result.booking }
{
    graph.is_booked();
    let column = input_kind(graph, pass.result);
    match graph.kind(pass.result) {
        ResultKind::Action(kind) => action_shape(kind, column),
        ResultKind::Report => PassShape::Report(graph.covered(pass.result).len() as u32),
    }
}

// The shapes of a loop's passes.
fn loop_shapes(alloc: Global, graph: &Graph, l: u32) -> Result<ListOf<PassShape>, Memory>
    requires { l < length (graph_loops graph.now) }
    ensures { IfOk result (λ shapes. shapes ≡ pass_shapes (pass_kind graph.now) (passes_at graph.now l)) }
{
    let mut shapes = ListOf::new(alloc);
    let passes = graph.passes(l);
    for i in 0..passes.len() {
        let shape = pass_shape(graph, passes[i]);
        shapes.push(shape)?;
    }
    Ok(shapes)
}

/// The shapes of the passes of each loop, in order.
pub fn graph_shapes(alloc: Global, graph: &Graph) -> Result<ListOf<ListOf<PassShape>>, Memory>
    ensures { IfOk result (λ all. all ≡ graph_shapes graph.now) }
{
    let mut all = ListOf::new(alloc);
    for number in 0..graph.loops() {
        let shapes = loop_shapes(alloc, graph, number)?;
        all.push(shapes)?;
    }
    Ok(all)
}
