// The columns that are asked for.
ghost use Rattle.std.specs.Prelude.{◌≡◌, ◌<◌, ◌≤◌, [], length, Err, Ok, Some, MatchOption, slice_get};
ghost use Rattle.rdf_values.specs.{among, column_kind, kind_or_int};
ghost use Rattle.rdf_values.specs.declared.scripts.script_cause.GraphCause.TheVariants.{UnknownColumn};
ghost use Rattle.snapshot_plan.specs.{first_bad, is_bad, scope_in};

use graph::Graph;
use graph::lookup::{is_visible, named_version, target_of};
use rdf_values::{ColType, Name};

fn kind_of(kinds: &[ColType], version: usize) -> ColType
    requires { version < length kinds.now }
    ensures { slice_get kinds.now version ≡ Some result }
{
    kinds[version]
}

// The kind of a column at a node, where it is visible there.
fn kind_at(graph: &Graph, node: &Name, name: &Name) -> Option<ColType>
    ensures { MatchOption result (column_kind (scope_in graph.now node.now) name.now ≡ Err UnknownColumn) (λ kind. column_kind (scope_in graph.now node.now) name.now ≡ Ok kind) }
{
    let lines = graph.lines();
    let header = graph.header();
    let kinds = graph.kinds();
    if !is_visible(lines, header, node, name) {
        return None;
    }
    let target = target_of(lines, node, name);
    let version = named_version(lines, header, kinds.len(), node, target);
    Some(kind_of(kinds, version))
}

/// The kind of a column at a node; Int where it isn't visible there.
pub(crate) fn kind_or_int(graph: &Graph, node: &Name, name: &Name) -> ColType
    ensures { result ≡ kind_or_int (column_kind (scope_in graph.now node.now) name.now) }
{
    match kind_at(graph, node, name) {
        Some(kind) => kind,
        None => ColType::Int,
    }
}

fn is_among(names: &[Name], name: &Name) -> bool
    ensures { result ≡ among name.now names.now }
{
    names.iter().any(|n| name.is(n))
}

// Whether the column can't be written behind those.
fn is_bad(graph: &Graph, node: &Name, before: &[Name], name: &Name) -> bool
    ensures { result ≡ is_bad (scope_in graph.now node.now) before.now name.now }
{
    match kind_at(graph, node, name) {
        Some(ColType::Int) | Some(ColType::Vect) => is_among(before, name),
        Some(ColType::Bool) | None => true,
    }
}

/// The first of the columns that can't be written.
pub(crate) fn first_bad(graph: &Graph, node: &Name, columns: &[Name]) -> Option<u32>
    requires few { length columns.now ≤ 64 }
    ensures { result ≡ first_bad (scope_in graph.now node.now) 0 [] columns.now }
{
    for i in 0..columns.len() {
        if is_bad(graph, node, &columns[..i], &columns[i]) {
            return Some(i as u32);
        }
    }
    None
}
