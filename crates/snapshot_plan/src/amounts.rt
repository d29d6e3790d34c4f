// How many statements a plan has.
ghost use Rattle.std.specs.Prelude.{◌≡◌, ◌≤◌, filter, length};
ghost use Rattle.graph.specs.{statements};
ghost use Rattle.snapshot_plan.specs.{makes_node};

use rdf_values::{Line, Statement};

fn makes_node(statement: &Statement) -> bool
    ensures { result ≡ makes_node statement.now }
{
    matches!(
        statement,
        Statement::Define { .. }
            | Statement::Redefine { .. }
            | Statement::Alias { .. }
            | Statement::Filter { .. }
            | Statement::Vary { .. }
    )
}

/// How many of the lines make a node.
#[tactic(auto, using(crate::proofs::Counted::node_more))]
pub(crate) fn node_count(before: &[Line]) -> usize
    ensures value { result ≡ length (filter makes_node (statements before.now)) }
    ensures few { result ≤ length before.now }
{
    let Some((last, rest)) = before.split_first() else {
        return 0;
    };
    let above = node_count(rest);
    if makes_node(&last.statement) {
        above + 1
    } else {
        above
    }
}
