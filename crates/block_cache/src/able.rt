// Expressions that are seen to be evaluated at all places of a block at once.
ghost use Rattle.std.specs.Prelude.{◌≡◌, true, false, All};
ghost use Rattle.rdf_values.specs.{EachColumn, num_tree};
ghost use Rattle.expr_check.specs.{is_vector};
ghost use Rattle.expr_lanes.specs.{CanLane};

use expr_check::Checked;
use expr_lanes::{LaneInputs, can_eval_lane};
use rdf_values::{ColType, NumNode};

/// Whether a side of an operator is a number or a column of numbers.
#[inline(always)]
fn is_side_able<I: LaneInputs>(node: &NumNode, inputs: &I) -> bool
    requires { EachColumn (I.can_tell inputs.now) (num_tree node.now) }
    ensures { result ≡ true → CanLane (I.can inputs.now) (I.can_tell inputs.now) (num_tree node.now) }
{
    match node {
        NumNode::Lit(_) => true,
        NumNode::Col(column) => inputs.has_numbers(*column),
        _ => false,
    }
}

/// Whether a node is an operator on such sides.
#[inline(always)]
fn is_operator_able<I: LaneInputs>(node: &NumNode, inputs: &I) -> bool
    requires { EachColumn (I.can_tell inputs.now) (num_tree node.now) }
    ensures { result ≡ true → CanLane (I.can inputs.now) (I.can_tell inputs.now) (num_tree node.now) }
{
    match node {
        NumNode::Bin(_, a, b) => is_side_able(a, inputs) && is_side_able(b, inputs),
        _ => false,
    }
}

/// Whether an expression can be evaluated over a block. Most are one operator: of these it is seen without a call for each part.
#[inline(always)]
pub(crate) fn can_evaluate<I: LaneInputs>(expr: &Checked, inputs: &I) -> bool
    requires { All (λ c. I.can_tell inputs.now c.0) expr.now.kinds }
    ensures scalar { result ≡ true → is_vector expr.now.kind ≡ false }
    ensures can { result ≡ true → CanLane (I.can inputs.now) (I.can_tell inputs.now) expr.now.tree }
{
    let node = &expr.tree().node;
    if is_operator_able(node, inputs) {
        return !matches!(expr.kind(), ColType::Vect);
    }
    can_eval_lane(expr, inputs)
}
