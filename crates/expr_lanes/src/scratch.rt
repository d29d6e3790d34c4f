// What the parts of an expression are evaluated into.
ghost use Rattle.std.specs.Prelude.{◌≡◌, ◌<◌, ◌≤◌, ◌+◌, ◌↔◌, IsTrue, IfSome, IfNone};
ghost use Rattle.rdf_values.specs.{args_count, num_tree, num_trees};
ghost use Rattle.expr_lanes.specs.{depth as depth_of, depth_of_all};

use crate::MAX_PLACES;
use crate::selection::Selection;
use expr_check::Checked;
use rdf_values::{NumArgs, NumNode};

/// Two lanes, two selections and a mark for each place: what one level of an expression needs for its parts.
#[derive(Drop)]
pub struct Scratch {
    pub(crate) left: [i64; MAX_PLACES],
    pub(crate) right: [i64; MAX_PLACES],
    pub(crate) zeros: Selection,
    pub(crate) others: Selection,
    pub(crate) marks: [bool; MAX_PLACES],
}

impl Scratch {
    /// A level that nothing was evaluated into yet.
    pub fn new() -> Scratch {
        Scratch {
            left: [0; MAX_PLACES],
            right: [0; MAX_PLACES],
            zeros: Selection::new(),
            others: Selection::new(),
            marks: [false; MAX_PLACES],
        }
    }
}

#[cycle(enough)]
fn is_node_within(node: &NumNode, levels: usize) -> bool
    ensures { IsTrue result ↔ (depth_of (num_tree node.now) ≤ levels) }
{
    match node {
        NumNode::Lit(_) | NumNode::Truth(_) | NumNode::Col(_) | NumNode::Pick(_, _) => true,
        NumNode::Neg(a) | NumNode::Not(a) => levels > 0 && is_node_within(a, levels - 1),
        NumNode::Bin(_, a, b) => {
            levels > 0 && is_node_within(a, levels - 1) && is_node_within(b, levels - 1)
        }
        NumNode::Cond(c, a, b) => {
            levels > 0
                && is_node_within(c, levels - 1)
                && is_node_within(a, levels - 1)
                && is_node_within(b, levels - 1)
        }
        NumNode::Call(_, args) => match levels_left(args, levels) {
            Some(left) => are_args_within(args, left),
            None => false,
        },
    }
}

/// How many levels are left where each argument takes one.
fn levels_left(args: &NumArgs, levels: usize) -> Option<usize>
    ensures some { IfSome result (λ left. left + args_count (num_trees args.now) ≡ levels) }
    ensures none { IfNone result (levels < args_count (num_trees args.now)) }
{
    match args {
        NumArgs::End => Some(levels),
        NumArgs::More(_, rest) => {
            if levels == 0 {
                return None;
            }
            levels_left(rest, levels - 1)
        }
    }
}

#[cycle(enough)]
fn are_args_within(args: &NumArgs, levels: usize) -> bool
    ensures { IsTrue result ↔ (depth_of_all (num_trees args.now) ≤ levels) }
{
    match args {
        NumArgs::End => true,
        NumArgs::More(a, rest) => is_node_within(a, levels) && are_args_within(rest, levels),
    }
}

/// Whether so many levels are enough for the expression.
pub fn is_deep_enough(expr: &Checked, levels: usize) -> bool
    ensures { IsTrue result ↔ (depth_of expr.now.tree ≤ levels) }
{
    is_node_within(&expr.tree().node, levels)
}
