// Evaluation over the places of a selection.
ghost use Rattle.std.specs.Prelude.{◌≡◌, ◌+◌, ◌<◌, ◌≤◌, ◌∷◌, true, false, length, take, IfSome};
ghost use Rattle.rdf_values.specs.{args_count, Call as CallTree, num_tree, num_trees};
ghost use Rattle.rdf_model.specs.{Gives};
ghost use Rattle.expr_lanes.specs.{AreAble, at_place, branch_at, CanLane, choice_at, EachPlace, Evaluated, HasCome, HasNumber, is_decider, is_unary, IsAble, IsAbleBranch, IsAtHand, IsReady, IsSelected, lane_at, lanes_at, numbers_at, one_more, side_number, sides_tree};

use crate::MAX_PLACES;
use crate::arguments::call_lanes;
use crate::columns::read_column;
use crate::folds::{fold_call, fold_column};
use crate::kernel::run;
use crate::kernels::{Copied, Same, Side};
use crate::lane_inputs::{KnownPlaces, LaneInputs};
use crate::operators::combine_sides;
use crate::parting::{Stopped, part, rejoin};
use crate::scratch::Scratch;
use crate::selection::Selection;
use arrayvec::ArrayVec;
use expr_eval::Calls;
use expr_eval::number::mark;
use rdf_values::{BinOp, Callee, NumArgs, NumNode};

type Stops = ArrayVec<Stopped, MAX_PLACES>;

const ZERO: NumNode = NumNode::Lit(0);

// The parts of a node, with what they are evaluated with.

/// An operator with its two sides.
#[derive_where(Clone, Copy)]
pub(crate) struct Sides<'a, S> {
    pub(crate) op: BinOp,
    pub(crate) left: &'a NumNode,
    pub(crate) right: &'a NumNode,
    pub(crate) scope: &'a S,
}

/// A side of a choice: a node, or the number that the condition came to.
#[derive(Clone, Copy)]
pub(crate) enum Branch<'a> {
    Node(&'a NumNode),
    Same,
}

/// A condition, and what is chosen where it is 0 and elsewhere.
#[derive_where(Clone, Copy)]
pub(crate) struct Choice<'a, S> {
    pub(crate) condition: &'a NumNode,
    pub(crate) zero: Branch<'a>,
    pub(crate) other: Branch<'a>,
    pub(crate) scope: &'a S,
}

/// A callee with its arguments.
#[derive_where(Clone, Copy)]
pub(crate) struct Called<'a, S> {
    pub(crate) callee: Callee,
    pub(crate) args: &'a NumArgs,
    pub(crate) scope: &'a S,
}

/// An argument with those behind it.
#[derive_where(Clone, Copy)]
pub(crate) struct Arguments<'a, S> {
    pub(crate) first: &'a NumNode,
    pub(crate) others: &'a NumArgs,
    pub(crate) scope: &'a S,
}

// A function's parameters that are lent have a lifetime each: so what takes its level of scratch beside the deeper ones is a
// function of its own. What few nodes need isn't inlined, so that an operator's node has a small frame.

#[cycle(lanes)]
pub(crate) fn eval_node<S: LaneInputs + Calls>(
    node: &NumNode,
    scope: &S,
    selection: &mut Selection,
    lane: &mut [i64],
    stops: &mut Stops,
    scratch: &mut [Scratch],
)
    requires able { IsAble S.can S.can_tell S.functions scope.now (length scratch.old) (num_tree node.now) }
    requires ready { IsReady (S.size scope.now) selection.old lane.old stops.old.items }
    ensures { Evaluated (lane_at S.look S.functions scope.now (num_tree node.now)) selection.old selection.new lane.old lane.new stops.old.items stops.new.items }
{
    match node {
        NumNode::Lit(number) => write_number(*number, selection, lane, stops),
        NumNode::Truth(truth) => write_number(mark(*truth), selection, lane, stops),
        NumNode::Col(number) => read_column(*number, scope, selection, lane, stops),
        NumNode::Pick(_, _) => write_number(0, selection, lane, stops),
        NumNode::Call(callee, args) => {
            let called = Called {
                callee: *callee,
                args,
                scope,
            };
            eval_call(&called, selection, lane, stops, scratch)
        }
        NumNode::Neg(_) | NumNode::Not(_) => {
            eval_unary(node, scope, selection, lane, stops, scratch)
        }
        NumNode::Bin(op, left, right) => {
            let sides = Sides {
                op: *op,
                left,
                right,
                scope,
            };
            eval_operator(&sides, selection, lane, stops, scratch)
        }
        NumNode::Cond(condition, yes, no) => match scratch.split_first_mut() {
            Some((level, deeper)) => {
                let choice = Choice {
                    condition,
                    zero: Branch::Node(no),
                    other: Branch::Node(yes),
                    scope,
                };
                eval_choice(&choice, selection, lane, stops, level, deeper)
            }
            None => unreachable!(),
        },
    }
}

/// `-x` as `0 - x`, and `!x` as `x == 0`.
#[cycle(lanes)]
#[inline(never)]
fn eval_unary<S: LaneInputs + Calls>(
    node: &NumNode,
    scope: &S,
    selection: &mut Selection,
    lane: &mut [i64],
    stops: &mut Stops,
    scratch: &mut [Scratch],
)
    requires unary { is_unary (num_tree node.now) ≡ true }
    requires able { IsAble S.can S.can_tell S.functions scope.now (length scratch.old) (num_tree node.now) }
    requires ready { IsReady (S.size scope.now) selection.old lane.old stops.old.items }
    ensures { Evaluated (lane_at S.look S.functions scope.now (num_tree node.now)) selection.old selection.new lane.old lane.new stops.old.items stops.new.items }
{
    let (op, left, right) = match node {
        NumNode::Neg(right) => (BinOp::Sub, &ZERO, &**right),
        NumNode::Not(left) => (BinOp::Eq, &**left, &ZERO),
        _ => unreachable!(),
    };
    let sides = Sides {
        op,
        left,
        right,
        scope,
    };
    eval_operator(&sides, selection, lane, stops, scratch)
}

/// Writes the number at each selected place.
fn write_number(number: i64, selection: &mut Selection, lane: &mut [i64], stops: &mut Stops)
    requires inside { EachPlace selection.old (λ p. p < length lane.old) }
    requires room { length stops.old.items + length selection.old ≤ MAX_PLACES }
    ensures { Evaluated (λ p. Gives number) selection.old selection.new lane.old lane.new stops.old.items stops.new.items }
{
    run(&Copied(Same(number)), selection, lane, stops)
}

/// A side that needs no evaluation: a number, or a column that is known everywhere.
fn side_at_hand<'a, S: LaneInputs + Calls>(node: &NumNode, scope: &'a S) -> Option<Side<'a>>
    requires can { CanLane (S.can scope.now) (S.can_tell scope.now) (num_tree node.now) }
    ensures { IfSome result (IsAtHand (S.size scope.now) (lane_at S.look S.functions scope.now (num_tree node.now))) }
{
    match node {
        NumNode::Lit(number) => Some(Side::Number(*number)),
        NumNode::Truth(truth) => Some(Side::Number(mark(*truth))),
        NumNode::Col(number) => {
            let column = scope.column(*number);
            match column.known {
                KnownPlaces::Everywhere => Some(Side::Lane(column.numbers)),
                KnownPlaces::Marked(_) => None,
            }
        }
        _ => None,
    }
}

/// What a side of an operator comes to at each selected place, evaluated into the lane where it isn't at hand.
#[cycle(lanes)]
fn eval_side<'a, S: LaneInputs + Calls>(
    node: &NumNode,
    scope: &'a S,
    selection: &mut Selection,
    lane: &'a mut [i64],
    stops: &mut Stops,
    scratch: &mut [Scratch],
) -> Side<'a>
    requires able { IsAble S.can S.can_tell S.functions scope.now (length scratch.old) (num_tree node.now) }
    requires ready { IsReady (S.size scope.now) selection.old lane.old stops.old.items }
    ensures come { HasCome (lane_at S.look S.functions scope.now (num_tree node.now)) selection.old selection.new (side_number result) stops.old.items stops.new.items }
    ensures has { EachPlace selection.new (HasNumber result) }
{
    match side_at_hand(node, scope) {
        Some(side) => side,
        None => {
            eval_node(node, scope, selection, lane, stops, scratch);
            Side::Lane(lane)
        }
    }
}

/// An operator, of which `&&` and `||` are choices by the left side.
#[cycle(lanes)]
fn eval_operator<S: LaneInputs + Calls>(
    sides: &Sides<'_, S>,
    selection: &mut Selection,
    lane: &mut [i64],
    stops: &mut Stops,
    scratch: &mut [Scratch],
)
    requires able { IsAble S.can S.can_tell S.functions sides.now.scope.now (length scratch.old) (sides_tree sides.now) }
    requires ready { IsReady (S.size sides.now.scope.now) selection.old lane.old stops.old.items }
    ensures { Evaluated (lane_at S.look S.functions sides.now.scope.now (sides_tree sides.now)) selection.old selection.new lane.old lane.new stops.old.items stops.new.items }
{
    match scratch.split_first_mut() {
        Some((level, deeper)) => match sides.op {
            BinOp::And | BinOp::Or => eval_decider(sides, selection, lane, stops, level, deeper),
            _ => eval_sides(sides, selection, lane, stops, level, deeper),
        },
        None => unreachable!(),
    }
}

/// `&&` and `||`: the right side where the left one doesn't decide.
#[cycle(lanes)]
fn eval_decider<S: LaneInputs + Calls>(
    sides: &Sides<'_, S>,
    selection: &mut Selection,
    lane: &mut [i64],
    stops: &mut Stops,
    level: &mut Scratch,
    deeper: &mut [Scratch],
)
    requires op { is_decider sides.now.op ≡ true }
    requires able { IsAble S.can S.can_tell S.functions sides.now.scope.now (length deeper.old + 1) (sides_tree sides.now) }
    requires ready { IsReady (S.size sides.now.scope.now) selection.old lane.old stops.old.items }
    ensures { Evaluated (lane_at S.look S.functions sides.now.scope.now (sides_tree sides.now)) selection.old selection.new lane.old lane.new stops.old.items stops.new.items }
{
    let right = Branch::Node(sides.right);
    let (zero, other) = match sides.op {
        BinOp::Or => (right, Branch::Same),
        _ => (Branch::Same, right),
    };
    let choice = Choice {
        condition: sides.left,
        zero,
        other,
        scope: sides.scope,
    };
    eval_choice(&choice, selection, lane, stops, level, deeper)
}

#[cycle(lanes)]
fn eval_sides<S: LaneInputs + Calls>(
    sides: &Sides<'_, S>,
    selection: &mut Selection,
    lane: &mut [i64],
    stops: &mut Stops,
    level: &mut Scratch,
    deeper: &mut [Scratch],
)
    requires op { is_decider sides.now.op ≡ false }
    requires able { IsAble S.can S.can_tell S.functions sides.now.scope.now (length deeper.old + 1) (sides_tree sides.now) }
    requires ready { IsReady (S.size sides.now.scope.now) selection.old lane.old stops.old.items }
    ensures { Evaluated (lane_at S.look S.functions sides.now.scope.now (sides_tree sides.now)) selection.old selection.new lane.old lane.new stops.old.items stops.new.items }
{
    let Sides {
        op,
        left,
        right,
        scope,
    } = *sides;
    let left = eval_side(left, scope, selection, &mut level.left, stops, deeper);
    let right = eval_side(right, scope, selection, &mut level.right, stops, deeper);
    combine_sides(op, left, right, selection, lane, stops)
}

#[cycle(lanes)]
#[inline(never)]
fn eval_choice<S: LaneInputs + Calls>(
    choice: &Choice<'_, S>,
    selection: &mut Selection,
    lane: &mut [i64],
    stops: &mut Stops,
    level: &mut Scratch,
    deeper: &mut [Scratch],
)
    requires able { IsAble S.can S.can_tell S.functions choice.now.scope.now (length deeper.old) (num_tree choice.now.condition.now) }
    requires zero { IsAbleBranch S.can S.can_tell S.functions choice.now.scope.now (length deeper.old) choice.now.zero }
    requires other { IsAbleBranch S.can S.can_tell S.functions choice.now.scope.now (length deeper.old) choice.now.other }
    requires ready { IsReady (S.size choice.now.scope.now) selection.old lane.old stops.old.items }
    ensures { Evaluated (choice_at S.look S.functions choice.now.scope.now (num_tree choice.now.condition.now) choice.now.zero choice.now.other) selection.old selection.new lane.old lane.new stops.old.items stops.new.items }
{
    let Choice {
        condition,
        zero,
        other,
        scope,
    } = *choice;
    eval_node(condition, scope, selection, lane, stops, deeper);
    part(selection, lane, &mut level.zeros, &mut level.others);
    eval_branch(other, scope, &mut level.others, lane, stops, deeper);
    eval_branch(zero, scope, &mut level.zeros, lane, stops, deeper);
    rejoin(selection, &level.zeros, &level.others, &mut level.marks)
}

/// A side of a choice, over the lane that holds what the condition came to.
#[cycle(lanes)]
fn eval_branch<S: LaneInputs + Calls>(
    branch: Branch<'_>,
    scope: &S,
    selection: &mut Selection,
    lane: &mut [i64],
    stops: &mut Stops,
    scratch: &mut [Scratch],
)
    requires able { IsAbleBranch S.can S.can_tell S.functions scope.now (length scratch.old) branch }
    requires ready { IsReady (S.size scope.now) selection.old lane.old stops.old.items }
    ensures { Evaluated (λ p. branch_at S.look S.functions scope.now branch.entry (at_place lane.old p) p) selection.old selection.new lane.old lane.new stops.old.items stops.new.items }
{
    match branch {
        Branch::Node(node) => eval_node(node, scope, selection, lane, stops, scratch),
        Branch::Same => {}
    }
}

/// How many arguments there are.
fn args_length(args: &NumArgs) -> usize
    requires { args_count (num_trees args.now) ≤ 8 }
    ensures { result ≡ args_count (num_trees args.now) }
{
    match args {
        NumArgs::End => 0,
        NumArgs::More(_, rest) => args_length(rest) + 1,
    }
}

#[cycle(lanes)]
#[inline(never)]
fn eval_call<S: LaneInputs + Calls>(
    called: &Called<'_, S>,
    selection: &mut Selection,
    lane: &mut [i64],
    stops: &mut Stops,
    scratch: &mut [Scratch],
)
    requires able { IsAble S.can S.can_tell S.functions called.now.scope.now (length scratch.old) (CallTree called.now.callee (num_trees called.now.args.now)) }
    requires ready { IsReady (S.size called.now.scope.now) selection.old lane.old stops.old.items }
    ensures { Evaluated (lane_at S.look S.functions called.now.scope.now (CallTree called.now.callee (num_trees called.now.args.now))) selection.old selection.new lane.old lane.new stops.old.items stops.new.items }
{
    let Called {
        callee,
        args,
        scope,
    } = *called;
    match fold_call(callee, args) {
        Some(call) => fold_column(call, scope, selection, lane, stops),
        None => {
            gather(args, scope, selection, stops, scratch);
            let lanes = &scratch[..args_length(args)];
            call_lanes(callee, scope, lanes, selection, lane, stops)
        }
    }
}

/// Evaluates the arguments, each into the left lane of a level of its own.
#[cycle(lanes)]
fn gather<S: LaneInputs + Calls>(
    args: &NumArgs,
    scope: &S,
    selection: &mut Selection,
    stops: &mut Stops,
    scratch: &mut [Scratch],
)
    requires able { AreAble S.can S.can_tell S.functions scope.now (length scratch.old) (num_trees args.now) }
    requires ready { IsSelected (S.size scope.now) selection.old stops.old.items }
    ensures { HasCome (lanes_at S.look S.functions scope.now (num_trees args.now)) selection.old selection.new (numbers_at (take (args_count (num_trees args.now)) scratch.new)) stops.old.items stops.new.items }
{
    match args {
        NumArgs::End => {}
        NumArgs::More(first, others) => match scratch.split_first_mut() {
            Some((level, deeper)) => {
                let arguments = Arguments {
                    first,
                    others,
                    scope,
                };
                gather_more(&arguments, selection, stops, level, deeper)
            }
            None => unreachable!(),
        },
    }
}

#[cycle(lanes)]
fn gather_more<S: LaneInputs + Calls>(
    arguments: &Arguments<'_, S>,
    selection: &mut Selection,
    stops: &mut Stops,
    level: &mut Scratch,
    deeper: &mut [Scratch],
)
    requires first { IsAble S.can S.can_tell S.functions arguments.now.scope.now (length deeper.old) (num_tree arguments.now.first.now) }
    requires others { AreAble S.can S.can_tell S.functions arguments.now.scope.now (length deeper.old) (num_trees arguments.now.others.now) }
    requires ready { IsSelected (S.size arguments.now.scope.now) selection.old stops.old.items }
    ensures { HasCome (λ p. one_more (lane_at S.look S.functions arguments.now.scope.now (num_tree arguments.now.first.now) p) (lanes_at S.look S.functions arguments.now.scope.now (num_trees arguments.now.others.now) p)) selection.old selection.new (λ p. at_place level.new.left p ∷ numbers_at (take (args_count (num_trees arguments.now.others.now)) deeper.new) p) stops.old.items stops.new.items }
{
    let Arguments {
        first,
        others,
        scope,
    } = *arguments;
    eval_node(first, scope, selection, &mut level.left, stops, deeper);
    gather(others, scope, selection, stops, deeper)
}
