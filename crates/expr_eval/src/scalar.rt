// Evaluation without vectors.
ghost use Rattle.std.specs.Prelude.{◌≡◌, ◌+◌, ◌<◌, ◌≤◌, true, length, All, OnOk, IfOk};
ghost use Rattle.rdf_values.specs.{args_count, Call as CallTree, EachArgument, FitsKind, fn_names, Neg as NegTree, Not as NotTree, num_tree, num_trees};
ghost use Rattle.rdf_values.specs.declared.tables.value.Value.TheVariants.{Int as ValueInt, Bool as ValueBool};
ghost use Rattle.rdf_model.specs.{argument, call_outcome, evaluate, evaluate_all, FitsOutcome, Gives, of_numbers, operation, value_operation};
ghost use Rattle.entry_fns.specs.{functions_in};
ghost use Rattle.expr_check.specs.{CallsFit, is_plain};
ghost use Rattle.expr_eval.specs.{answered, ArgumentsCanCall, CallFits, Gathers, GivesScalar, input_outcome, is_other, IsScalarPart, number_call, number_value, scalar_outcome, scalar_value};

use crate::calls::{Calls, answer, callable};
use crate::inputs::{ColumnInput, Inputs};
use crate::number::{absolute, is_arithmetic, mark, negate, operate};
use crate::steps::Steps;
use crate::stop::{ScalarAnswer, ScalarStop};
use arrayvec::ArrayVec;
use entry_fns::FnList;
use expr_check::Checked;
use rdf_values::{BinOp, Callee, EntryFault, NumArgs, NumNode, Scalar};
use std::sync::ledger::Ledger;

const MAX_ARGUMENTS: usize = 8;

/// The value of an expression of which no part is a vector, in one step. It takes no memory.
pub fn eval_int<I: Inputs, L: Ledger>(
    expr: &Checked,
    inputs: &I,
    functions: &FnList,
    steps: &mut Steps<L>,
) -> Result<Scalar, ScalarStop>
    requires plain { is_plain expr.now.kinds expr.now.tree ≡ true }
    requires can { All (λ c. I.can inputs.now c.0) expr.now.kinds }
    requires fit { All (λ c. FitsOutcome c.1 (I.look inputs.now c.0)) expr.now.kinds }
    requires calls { CallsFit (fn_names (functions_in functions.now)) expr.now.tree }
    ensures value { scalar_outcome result ≡ evaluate (I.look inputs.now) (call_outcome (functions_in functions.now)) expr.now.tree }
    ensures kind { IfOk result (λ s. FitsKind expr.now.kind (scalar_value s)) }
    ensures step { steps.new ≡ steps.old + 1 }
{
    steps.tick();
    eval_node(callable(expr, functions), inputs, functions).into_result()
}

// What no checked expression comes to is 0, as the definition of evaluation says.

// A function fills its locals with zeros whenever it is called, and what a call writes into the place of the answer keeps all
// of the answer in memory. So the nodes that are met most have a small function, the others one of their own, and the answer
// of a call is taken from a local.
#[cycle(scalar)]
fn eval_node<I: Inputs, C: Calls>(node: &NumNode, inputs: &I, calls: &C) -> ScalarAnswer
    requires { IsScalarPart (I.can inputs.now) (I.look inputs.now) (C.functions calls.now) (num_tree node.now) }
    ensures { answered result ≡ evaluate (I.look inputs.now) (call_outcome (C.functions calls.now)) (num_tree node.now) }
{
    match node {
        NumNode::Lit(z) => ScalarAnswer::Int(*z),
        NumNode::Col(c) => column(*c, inputs.at(*c)),
        NumNode::Bin(op, a, b) => match eval_side(a, inputs, calls) {
            ScalarAnswer::Int(x) => eval_number_right(*op, x, b, inputs, calls),
            ScalarAnswer::Bool(x) => {
                let answer = eval_truth_right(*op, x, b, inputs, calls);
                answer
            }
            stop => stop,
        },
        _ => {
            let answer = eval_other(node, inputs, calls);
            answer
        }
    }
}

/// The value of an operator's side. A number and a column are answered without a call.
#[inline(always)]
#[cycle(scalar)]
fn eval_side<I: Inputs, C: Calls>(node: &NumNode, inputs: &I, calls: &C) -> ScalarAnswer
    requires { IsScalarPart (I.can inputs.now) (I.look inputs.now) (C.functions calls.now) (num_tree node.now) }
    ensures { answered result ≡ evaluate (I.look inputs.now) (call_outcome (C.functions calls.now)) (num_tree node.now) }
{
    match node {
        NumNode::Lit(z) => ScalarAnswer::Int(*z),
        NumNode::Col(c) => column(*c, inputs.at(*c)),
        _ => eval_node(node, inputs, calls),
    }
}

/// The value of an operator whose left side came to a number.
#[inline(always)]
#[cycle(scalar)]
fn eval_number_right<I: Inputs, C: Calls>(
    op: BinOp,
    left: i64,
    right: &NumNode,
    inputs: &I,
    calls: &C,
) -> ScalarAnswer
    requires { IsScalarPart (I.can inputs.now) (I.look inputs.now) (C.functions calls.now) (num_tree right.now) }
    ensures { answered result ≡ operation op (Gives (ValueInt left)) (evaluate (I.look inputs.now) (call_outcome (C.functions calls.now)) (num_tree right.now)) }
{
    match eval_side(right, inputs, calls) {
        ScalarAnswer::Int(right) => combine_numbers(op, left, right),
        ScalarAnswer::Bool(_) => ScalarAnswer::Int(0),
        stop => stop,
    }
}

/// The value of an operator whose left side came to a truth value.
#[inline(never)]
#[cycle(scalar)]
fn eval_truth_right<I: Inputs, C: Calls>(
    op: BinOp,
    left: bool,
    right: &NumNode,
    inputs: &I,
    calls: &C,
) -> ScalarAnswer
    requires { IsScalarPart (I.can inputs.now) (I.look inputs.now) (C.functions calls.now) (num_tree right.now) }
    ensures { answered result ≡ operation op (Gives (ValueBool left)) (evaluate (I.look inputs.now) (call_outcome (C.functions calls.now)) (num_tree right.now)) }
{
    match (op, left) {
        (BinOp::And, false) => ScalarAnswer::Bool(false),
        (BinOp::Or, true) => ScalarAnswer::Bool(true),
        _ => match eval_node(right, inputs, calls) {
            ScalarAnswer::Bool(right) => combine_truths(op, left, right),
            ScalarAnswer::Int(_) => ScalarAnswer::Int(0),
            stop => stop,
        },
    }
}

/// The value of what is no number, no column and no operator of two sides.
#[inline(never)]
#[cycle(scalar)]
fn eval_other<I: Inputs, C: Calls>(node: &NumNode, inputs: &I, calls: &C) -> ScalarAnswer
    requires other { is_other (num_tree node.now) ≡ true }
    requires part { IsScalarPart (I.can inputs.now) (I.look inputs.now) (C.functions calls.now) (num_tree node.now) }
    ensures { answered result ≡ evaluate (I.look inputs.now) (call_outcome (C.functions calls.now)) (num_tree node.now) }
{
    match node {
        NumNode::Truth(b) => ScalarAnswer::Bool(*b),
        NumNode::Neg(a) => eval_negative(a, inputs, calls),
        NumNode::Not(a) => eval_inverse(a, inputs, calls),
        NumNode::Cond(c, a, b) => match eval_node(c, inputs, calls) {
            ScalarAnswer::Bool(true) => eval_node(a, inputs, calls),
            ScalarAnswer::Bool(false) => eval_node(b, inputs, calls),
            ScalarAnswer::Int(_) => ScalarAnswer::Int(0),
            stop => stop,
        },
        NumNode::Pick(v, i) => match eval_node(v, inputs, calls) {
            ScalarAnswer::Int(_) | ScalarAnswer::Bool(_) => match eval_node(i, inputs, calls) {
                ScalarAnswer::Int(_) | ScalarAnswer::Bool(_) => ScalarAnswer::Int(0),
                stop => stop,
            },
            stop => stop,
        },
        NumNode::Call(callee, args) => eval_call(*callee, args, inputs, calls),
        _ => unreachable!(),
    }
}

#[inline(never)]
#[cycle(scalar)]
fn eval_negative<I: Inputs, C: Calls>(a: &NumNode, inputs: &I, calls: &C) -> ScalarAnswer
    requires { IsScalarPart (I.can inputs.now) (I.look inputs.now) (C.functions calls.now) (num_tree a.now) }
    ensures { answered result ≡ evaluate (I.look inputs.now) (call_outcome (C.functions calls.now)) (NegTree (num_tree a.now)) }
{
    match eval_node(a, inputs, calls) {
        ScalarAnswer::Int(x) => number_answer(negate(x)),
        ScalarAnswer::Bool(_) => ScalarAnswer::Int(0),
        stop => stop,
    }
}

#[inline(never)]
#[cycle(scalar)]
fn eval_inverse<I: Inputs, C: Calls>(a: &NumNode, inputs: &I, calls: &C) -> ScalarAnswer
    requires { IsScalarPart (I.can inputs.now) (I.look inputs.now) (C.functions calls.now) (num_tree a.now) }
    ensures { answered result ≡ evaluate (I.look inputs.now) (call_outcome (C.functions calls.now)) (NotTree (num_tree a.now)) }
{
    match eval_node(a, inputs, calls) {
        ScalarAnswer::Int(_) => ScalarAnswer::Int(0),
        ScalarAnswer::Bool(b) => ScalarAnswer::Bool(!b),
        stop => stop,
    }
}

/// The value of a call.
#[inline(never)]
#[cycle(scalar)]
fn eval_call<I: Inputs, C: Calls>(
    callee: Callee,
    args: &NumArgs,
    inputs: &I,
    calls: &C,
) -> ScalarAnswer
    requires { IsScalarPart (I.can inputs.now) (I.look inputs.now) (C.functions calls.now) (CallTree callee (num_trees args.now)) }
    ensures { answered result ≡ evaluate (I.look inputs.now) (call_outcome (C.functions calls.now)) (CallTree callee (num_trees args.now)) }
{
    let mut numbers = ArrayVec::new();
    match gather(args, inputs, calls, &mut numbers) {
        Ok(()) => call(callee, numbers.as_slice(), calls),
        Err(ScalarStop::Fault(kind)) => ScalarAnswer::Fault(kind),
        Err(ScalarStop::Need(number)) => ScalarAnswer::Need(number),
    }
}

/// Appends the values of the arguments as numbers.
#[cycle(scalar)]
fn gather<I: Inputs, C: Calls>(
    args: &NumArgs,
    inputs: &I,
    calls: &C,
    numbers: &mut ArrayVec<i64, MAX_ARGUMENTS>,
) -> Result<(), ScalarStop>
    requires can { EachArgument (I.can inputs.now) (num_trees args.now) }
    requires scalars { EachArgument (λ c. GivesScalar (I.look inputs.now c)) (num_trees args.now) }
    requires calls { ArgumentsCanCall (C.functions calls.now) (num_trees args.now) }
    requires room { length numbers.old.items + args_count (num_trees args.now) ≤ 8 }
    ensures values { Gathers result numbers.old.items numbers.new.items (evaluate_all (I.look inputs.now) (call_outcome (C.functions calls.now)) (num_trees args.now)) }
    ensures count { OnOk result (length numbers.new.items ≡ length numbers.old.items + args_count (num_trees args.now)) }
{
    match args {
        NumArgs::End => Ok(()),
        NumArgs::More(a, rest) => {
            let value = eval_node(a, inputs, calls).into_result()?;
            numbers.push(number(value));
            gather(rest, inputs, calls, numbers)
        }
    }
}

/// The value of a column that is no vector.
#[inline(always)]
fn column(number: u32, input: ColumnInput<'_>) -> ScalarAnswer
    requires { GivesScalar (input_outcome number input) }
    ensures { answered result ≡ input_outcome number input.entry }
{
    match input {
        ColumnInput::Int(z) => ScalarAnswer::Int(z),
        ColumnInput::Bool(b) => ScalarAnswer::Bool(b),
        ColumnInput::Vect(_) => unreachable!(),
        ColumnInput::Faulted(kind) => ScalarAnswer::Fault(kind),
        ColumnInput::Missing => ScalarAnswer::Need(number),
    }
}

#[inline(always)]
fn combine_numbers(op: BinOp, left: i64, right: i64) -> ScalarAnswer
    ensures { answered result ≡ value_operation op (ValueInt left) (ValueInt right) }
{
    match operate(op, left, right) {
        Ok(z) => operation_value(op, z),
        Err(kind) => ScalarAnswer::Fault(kind),
    }
}

fn combine_truths(op: BinOp, left: bool, right: bool) -> ScalarAnswer
    ensures { answered result ≡ value_operation op (ValueBool left) (ValueBool right) }
{
    match operate(op, mark(left), mark(right)) {
        Ok(z) => ScalarAnswer::Bool(z != 0),
        Err(kind) => ScalarAnswer::Fault(kind),
    }
}

#[inline(always)]
fn operation_value(op: BinOp, z: i64) -> ScalarAnswer
    ensures { answered result ≡ Gives (of_numbers op z) }
{
    if is_arithmetic(op) {
        ScalarAnswer::Int(z)
    } else {
        ScalarAnswer::Bool(z != 0)
    }
}

fn number(value: Scalar) -> i64
    ensures { result ≡ argument (scalar_value value) }
{
    match value {
        Scalar::Int(z) => z,
        Scalar::Bool(_) => 0,
    }
}

fn call<C: Calls>(callee: Callee, numbers: &[i64], calls: &C) -> ScalarAnswer
    requires { CallFits (C.functions calls.now) callee (length numbers.now) }
    ensures { answered result ≡ number_call (C.functions calls.now) callee numbers.now }
{
    match (callee, numbers) {
        (Callee::Abs, [z]) => number_answer(absolute(*z)),
        (Callee::Given(i), _) => number_answer(answer(calls, i, numbers)),
        _ => ScalarAnswer::Int(0),
    }
}

/// A number, or the fault that there was.
fn number_answer(number: Result<i64, EntryFault>) -> ScalarAnswer
    ensures { answered result ≡ number_value number }
{
    match number {
        Ok(z) => ScalarAnswer::Int(z),
        Err(kind) => ScalarAnswer::Fault(kind),
    }
}
