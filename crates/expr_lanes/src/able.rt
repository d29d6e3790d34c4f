// Expressions that can be evaluated over a block.
ghost use Rattle.std.specs.Prelude.{◌≡◌, true, false, All};
ghost use Rattle.rdf_values.specs.{EachArgument, EachColumn, num_tree, num_trees};
ghost use Rattle.expr_check.specs.{is_vector};
ghost use Rattle.expr_lanes.specs.{CanLane, CanLaneAll};

use crate::folds::fold_call;
use crate::lane_inputs::LaneInputs;
use expr_check::Checked;
use rdf_values::{Callee, ColType, NumArgs, NumNode};

#[cycle(able)]
fn is_node_able<I: LaneInputs>(node: &NumNode, inputs: &I) -> bool
    requires { EachColumn (I.can_tell inputs.now) (num_tree node.now) }
    ensures { result ≡ true → CanLane (I.can inputs.now) (I.can_tell inputs.now) (num_tree node.now) }
{
    match node {
        NumNode::Lit(_) | NumNode::Truth(_) => true,
        NumNode::Col(column) => inputs.has_numbers(*column),
        NumNode::Neg(a) | NumNode::Not(a) => is_node_able(a, inputs),
        NumNode::Bin(_, a, b) => is_node_able(a, inputs) && is_node_able(b, inputs),
        NumNode::Cond(c, a, b) => {
            is_node_able(c, inputs) && is_node_able(a, inputs) && is_node_able(b, inputs)
        }
        NumNode::Pick(_, _) => false,
        NumNode::Call(callee, args) => match fold_call(*callee, args) {
            Some(_) => true,
            None => {
                matches!(callee, Callee::Abs | Callee::Given(_)) && are_args_able(args, inputs)
            }
        },
    }
}

#[cycle(able)]
fn are_args_able<I: LaneInputs>(args: &NumArgs, inputs: &I) -> bool
    requires { EachArgument (I.can_tell inputs.now) (num_trees args.now) }
    ensures { result ≡ true → CanLaneAll (I.can inputs.now) (I.can_tell inputs.now) (num_trees args.now) }
{
    match args {
        NumArgs::End => true,
        NumArgs::More(a, rest) => is_node_able(a, inputs) && are_args_able(rest, inputs),
    }
}

/// Whether an expression can be evaluated over a block: with vectors only as columns of which a function makes a number.
pub fn can_eval_lane<I: LaneInputs>(expr: &Checked, inputs: &I) -> bool
    requires { All (λ c. I.can_tell inputs.now c.0) expr.now.kinds }
    ensures scalar { result ≡ true → is_vector expr.now.kind ≡ false }
    ensures can { result ≡ true → CanLane (I.can inputs.now) (I.can_tell inputs.now) expr.now.tree }
{
    !matches!(expr.kind(), ColType::Vect) && is_node_able(&expr.tree().node, inputs)
}
