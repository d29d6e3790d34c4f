// The lines of results.
ghost use Rattle.std.specs.Prelude.{◌≡◌, ◌<◌, ◌≤◌, ◌+◌, ◌^◌, ◌++◌, ℕ, All, IfOk, OnOk, None, Some, length, map, slice_get, vec_len};
ghost use Rattle.graph_numbers.specs.{graph_filters, graph_results, kind_of_booking, ResultAt};
ghost use Rattle.graph.specs.{has};
ghost use Rattle.rdf_model.specs.{flow_lines};
ghost use Rattle.result_text.specs.{filled_text, FitsResult, flow_at, members_from, under_lines};

use crate::shares::put_flow_line;
use crate::values::{PrintedAction, put_pass};
use graph::{Graph, VarSet};
use graph_numbers::ResultKind;
use loop_pieces::{FilledResult, Flow};
use rdf_values::{ActionKind, Memory, Text};
use std::alloc::Global;

/// A report that is printed: its name, and how many entries reached and passed the named filters of the graph.
#[derive(Clone, Copy)]
pub struct PrintedReport<'a> {
    pub name: &'a [u8],
    pub graph: &'a Graph,
    pub flow: &'a Flow,
}

// Appends the lines of a report on named filters, by their numbers.
fn put_report(
    alloc: Global,
    text: &mut Text,
    report: &PrintedReport<'_>,
    covered: &[u32],
) -> Result<(), Memory>
    requires covered { All (λ f. f < length (graph_filters report.now.graph.now)) covered.now }
    requires flow { length report.now.flow.now ≡ length (graph_filters report.now.graph.now) }
    ensures { OnOk result (text.new ≡ text.old ++ flow_lines report.now.name.now (map (flow_at report.now.graph.now report.now.flow.now) covered.now)) }
{
    let Some((first, _)) = covered.split_first() else {
        text.extend(report.name)?;
        return text.extend(b": no named filters\n");
    };
    let reached = report.flow.counts(*first).all;
    for f in covered {
        let label = report.graph.label(*f);
        let counts = report.flow.counts(*f);
        put_flow_line(alloc, text, report.name, reached, label, counts)?;
    }
    Ok(())
}

// Appends the lines of the passes of an action under the variations on which it depends.
fn put_varied(
    alloc: Global,
    text: &mut Text,
    action: &PrintedAction<'_>,
    depends: VarSet,
    filled: &FilledResult<'_>,
) -> Result<(), Memory>
    requires passes { filled.now.passes ≡ length (members_from (has depends) 0 action.now.variations.now) + 1 }
    requires accs { (i : ℕ) → i < filled.now.passes → filled.now.first + i < vec_len filled.now.piece.now.accs }
    requires numbers { filled.now.first + filled.now.passes ≤ 2 ^ 32 }
    ensures { OnOk result (text.new ≡ text.old ++ under_lines action.now.name.now action.now.kind.now filled.now.piece.now.accs.items (filled.now.first + 1) (members_from (has depends) 0 action.now.variations.now)) }
{
    let mut pass = 1;
    for v in 0..action.variations.len() {
        if depends.contains(v) {
            let acc = filled.piece.acc(filled.first + pass);
            put_pass(alloc, text, action, Some(v), acc)?;
            pass += 1;
        }
    }
    Ok(())
}

// Appends the lines of the passes of an action, nominal first, then its variations in their order.
fn put_action(
    alloc: Global,
    text: &mut Text,
    graph: &Graph,
    r: u32,
    kind: &ActionKind,
    filled: &FilledResult<'_>,
) -> Result<(), Memory>
    requires result { r < length (graph_results graph.now) }
    requires action { (x : ResultAt) → slice_get (graph_results graph.now) r ≡ Some x → kind_of_booking x.booked.booking ≡ ResultKind.Action kind.now }
    requires filled { (x : ResultAt) → slice_get (graph_results graph.now) r ≡ Some x → FitsResult graph.now x filled.now }
    ensures { (x : ResultAt) → slice_get (graph_results graph.now) r ≡ Some x → OnOk result (text.new ≡ text.old ++ filled_text graph.now x filled.now) }
{
    let nominal = filled.piece.acc(filled.first);
    let action = &PrintedAction {
        name: graph.result_name(r),
        kind,
        variations: graph.variations(),
    };
    put_pass(alloc, text, action, None, nominal)?;
    if filled.passes == 1 {
        return Ok(());
    }
    put_varied(alloc, text, action, graph.depends(r), filled)
}

/// The lines of a result of the graph: of an action its passes, nominal first, then its variations in their order; or of a report.
#[tactic(auto, using(lemmas::proofs::Lists::something_at, crate::proofs::PassLines::its_covers, crate::proofs::PassLines::covers_within))]
pub fn result_lines(
    alloc: Global,
    graph: &Graph,
    r: u32,
    filled: &FilledResult<'_>,
) -> Result<Text, Memory>
    requires result { r < length (graph_results graph.now) }
    requires filled { (x : ResultAt) → slice_get (graph_results graph.now) r ≡ Some x → FitsResult graph.now x filled.now }
    ensures { (x : ResultAt) → slice_get (graph_results graph.now) r ≡ Some x → IfOk result (λ text. text ≡ filled_text graph.now x filled.now) }
{
    let mut text = Text::new(alloc);
    match graph.kind(r) {
        ResultKind::Action(kind) => put_action(alloc, &mut text, graph, r, kind, filled)?,
        ResultKind::Report => {
            let name = graph.result_name(r).bytes();
            let flow = filled.piece.flow();
            let report = &PrintedReport { name, graph, flow };
            put_report(alloc, &mut text, report, graph.covered(r))?;
        }
    }
    Ok(text)
}
