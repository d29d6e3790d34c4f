// The kinds of the parts of an expression, and the parts with their columns and functions numbered.
ghost use Rattle.std.specs.Prelude.{◌≡◌, nat_eq, length, Ok, IfOk, IfErr};
ghost use Rattle.rdf_values.specs.{all_renamed, args_count, Call as CallTree, callee, kind_by, kinds_by, num_tree, num_trees, renamed, shape_of, tree_of, trees_of};
ghost use Rattle.expr_check.specs.{arguments_fit, RefusedAs};

use crate::callee::{find_callee, signature_of};
use crate::kind::{chosen_kind, inverted_kind, negated_kind, operator_kind, picked_kind};
use crate::refusal::CheckRefusal;
use crate::scope::ReadableColumns;
use rdf_values::{Args, ColType, ExprNode, FnNames, Name, NumArgs, NumNode};
use std::alloc::Global;

/// A part with its columns and functions numbered, and its kind.
#[derive(Drop)]
pub(crate) struct NumberedPart {
    pub node: NumNode,
    pub kind: ColType,
}

/// Numbered arguments, and whether their kinds are those that the function takes.
#[derive(Drop)]
struct NumberedArguments {
    nodes: NumArgs,
    fit: bool,
}

fn has_count(args: &Args, count: usize) -> bool
    ensures { result ≡ nat_eq (args_count (trees_of args.now)) count }
{
    match args {
        Args::End => count == 0,
        Args::More(_, rest) => count > 0 && has_count(rest, count - 1),
    }
}

#[cycle(check)]
#[tactic(auto, using(crate::proofs::WellTyped::refused_then))]
pub(crate) fn check_part<C: ReadableColumns>(
    alloc: Global,
    node: &ExprNode,
    columns: &C,
    names: &FnNames,
) -> Result<NumberedPart, CheckRefusal>
    ensures kind { IfOk result (λ p. kind_by (C.kind_named columns.now) (shape_of names.now) (tree_of node.now) ≡ Ok p.kind) }
    ensures tree { IfOk result (λ p. num_tree p.node ≡ renamed (C.number_named columns.now) (callee names.now) (tree_of node.now)) }
    ensures refused { IfErr result (λ e. RefusedAs e (kind_by (C.kind_named columns.now) (shape_of names.now) (tree_of node.now))) }
{
    match node {
        ExprNode::Lit(z) => Ok(NumberedPart {
            node: NumNode::Lit(*z),
            kind: ColType::Int,
        }),
        ExprNode::Truth(b) => Ok(NumberedPart {
            node: NumNode::Truth(*b),
            kind: ColType::Bool,
        }),
        ExprNode::Col(name) => match columns.column(name) {
            None => Err(CheckRefusal::UnknownColumn),
            Some((kind, number)) => Ok(NumberedPart {
                node: NumNode::Col(number),
                kind,
            }),
        },
        ExprNode::Neg(a) => {
            let a = check_part(alloc, a, columns, names)?;
            let kind = negated_kind(a.kind)?;
            let node = NumNode::Neg(Box::new(alloc, a.node)?);
            Ok(NumberedPart { node, kind })
        }
        ExprNode::Not(a) => {
            let a = check_part(alloc, a, columns, names)?;
            let kind = inverted_kind(a.kind)?;
            let node = NumNode::Not(Box::new(alloc, a.node)?);
            Ok(NumberedPart { node, kind })
        }
        ExprNode::Bin(op, left, right) => {
            let left = check_part(alloc, left, columns, names)?;
            let right = check_part(alloc, right, columns, names)?;
            let kind = operator_kind(*op, left.kind, right.kind)?;
            let left = Box::new(alloc, left.node)?;
            let node = NumNode::Bin(*op, left, Box::new(alloc, right.node)?);
            Ok(NumberedPart { node, kind })
        }
        ExprNode::Cond(condition, first, second) => {
            let condition = check_part(alloc, condition, columns, names)?;
            let first = check_part(alloc, first, columns, names)?;
            let second = check_part(alloc, second, columns, names)?;
            let kind = chosen_kind(condition.kind, first.kind, second.kind)?;
            let condition = Box::new(alloc, condition.node)?;
            let first = Box::new(alloc, first.node)?;
            let node = NumNode::Cond(condition, first, Box::new(alloc, second.node)?);
            Ok(NumberedPart { node, kind })
        }
        ExprNode::Pick(vector, index) => {
            let vector = check_part(alloc, vector, columns, names)?;
            let index = check_part(alloc, index, columns, names)?;
            let kind = picked_kind(vector.kind, index.kind)?;
            let vector = Box::new(alloc, vector.node)?;
            let node = NumNode::Pick(vector, Box::new(alloc, index.node)?);
            Ok(NumberedPart { node, kind })
        }
        ExprNode::Call(name, args) => check_call(alloc, name, args, columns, names),
    }
}

#[cycle(check)]
#[tactic(auto, using(crate::proofs::WellTyped::refused_then))]
fn check_call<C: ReadableColumns>(
    alloc: Global,
    name: &Name,
    args: &Args,
    columns: &C,
    names: &FnNames,
) -> Result<NumberedPart, CheckRefusal>
    ensures kind { IfOk result (λ p. kind_by (C.kind_named columns.now) (shape_of names.now) (CallTree name.now (trees_of args.now)) ≡ Ok p.kind) }
    ensures tree { IfOk result (λ p. num_tree p.node ≡ renamed (C.number_named columns.now) (callee names.now) (CallTree name.now (trees_of args.now))) }
    ensures refused { IfErr result (λ e. RefusedAs e (kind_by (C.kind_named columns.now) (shape_of names.now) (CallTree name.now (trees_of args.now)))) }
{
    let Some(callee) = find_callee(name, names) else {
        return Err(CheckRefusal::UnknownFunction);
    };
    let (takes, gives) = signature_of(callee, names);
    if !has_count(args, takes.len()) {
        return Err(CheckRefusal::WrongCount);
    }
    let arguments = check_arguments(alloc, args, takes, columns, names)?;
    if arguments.fit {
        Ok(NumberedPart {
            node: NumNode::Call(callee, arguments.nodes),
            kind: gives,
        })
    } else {
        Err(CheckRefusal::WrongType)
    }
}

#[cycle(check)]
#[tactic(auto, using(crate::proofs::WellTyped::refused_then))]
fn check_arguments<C: ReadableColumns>(
    alloc: Global,
    args: &Args,
    takes: &[ColType],
    columns: &C,
    names: &FnNames,
) -> Result<NumberedArguments, CheckRefusal>
    requires { args_count (trees_of args.now) ≡ length takes.now }
    ensures fit { IfOk result (λ a. arguments_fit (kinds_by (C.kind_named columns.now) (shape_of names.now) (trees_of args.now)) takes.now ≡ Ok a.fit) }
    ensures trees { IfOk result (λ a. num_trees a.nodes ≡ all_renamed (C.number_named columns.now) (callee names.now) (trees_of args.now)) }
    ensures refused { IfErr result (λ e. RefusedAs e (kinds_by (C.kind_named columns.now) (shape_of names.now) (trees_of args.now))) }
{
    match args {
        Args::End => Ok(NumberedArguments {
            nodes: NumArgs::End,
            fit: true,
        }),
        Args::More(first, rest) => {
            let first = check_part(alloc, first, columns, names)?;
            let rest = check_arguments(alloc, rest, &takes[1..], columns, names)?;
            let fit = first.kind == takes[0] && rest.fit;
            let first = Box::new(alloc, first.node)?;
            let nodes = NumArgs::More(first, Box::new(alloc, rest.nodes)?);
            Ok(NumberedArguments { nodes, fit })
        }
    }
}
