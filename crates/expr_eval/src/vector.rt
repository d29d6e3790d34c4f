// Evaluation with vectors.
ghost use Rattle.std.specs.Prelude.{◌≡◌, ◌+◌, ◌≤◌, [], ◌∷◌, length, map, All, OnOk, IfOk};
ghost use Rattle.rdf_values.specs.{args_count, EachArgument, EachColumn, FitsKind, fn_names, num_tree, num_trees};
ghost use Rattle.rdf_model.specs.{argument, call_outcome, evaluate, evaluate_all, FitsOutcome, for_all, inversion, negation, of_numbers, picked, value_operation, vector_operation};
ghost use Rattle.entry_fns.specs.{functions_in};
ghost use Rattle.expr_check.specs.{CallsFit};
ghost use Rattle.expr_eval.specs.{AnswersAs, AppendsAs, ArgumentsCanCall, CallFits, decision as decided, input_outcome, IsBuiltIn, number_value, operand_value, vector_outcome};
ghost use Rattle.expr_eval.specs.Answers.{CanCall};

use crate::calls::{Calls, answer, callable};
use crate::elements::{
    Elementwise, LeftNumber, Minus, RightNumber, all, any, each, each_pair, element, greatest,
    inverted, least, marked, sum,
};
use crate::inputs::{ColumnInput, Inputs};
use crate::number::{absolute, is_arithmetic, mark, negate, operate};
use crate::operand::{Operand, OperandView};
use crate::steps::Steps;
use crate::stop::EvalStop;
use arrayvec::ArrayVec;
use entry_fns::FnList;
use expr_check::Checked;
use rdf_values::{BinOp, Callee, EntryFault, NumArgs, NumNode, Value};
use std::alloc::Global;
use std::sync::ledger::Ledger;

const MAX_ARGUMENTS: usize = 8;

/// The value of an expression, in one step.
pub fn eval<I: Inputs, L: Ledger>(
    alloc: Global,
    expr: &Checked,
    inputs: &I,
    functions: &FnList,
    steps: &mut Steps<L>,
) -> Result<Value, EvalStop>
    requires can { All (λ c. I.can inputs.now c.0) expr.now.kinds }
    requires fit { All (λ c. FitsOutcome c.1 (I.look inputs.now c.0)) expr.now.kinds }
    requires calls { CallsFit (fn_names (functions_in functions.now)) expr.now.tree }
    ensures value { AnswersAs (λ v. v) (evaluate (I.look inputs.now) (call_outcome (functions_in functions.now)) expr.now.tree) result }
    ensures kind { IfOk result (λ v. FitsKind expr.now.kind v) }
    ensures step { steps.new ≡ steps.old + 1 }
{
    steps.tick();
    let node = callable(expr, functions);
    eval_node(alloc, node, inputs, functions)?.into_value(alloc)
}

#[cycle(node)]
fn eval_node<'a, I: Inputs, C: Calls>(
    alloc: Global,
    node: &NumNode,
    inputs: &'a I,
    calls: &C,
) -> Result<Operand<'a>, EvalStop>
    requires can { EachColumn (I.can inputs.now) (num_tree node.now) }
    requires calls { CanCall (C.functions calls.now) (num_tree node.now) }
    ensures { AnswersAs operand_value (evaluate (I.look inputs.now) (call_outcome (C.functions calls.now)) (num_tree node.now)) result }
{
    match node {
        NumNode::Lit(z) => Ok(Operand::Int(*z)),
        NumNode::Truth(b) => Ok(Operand::Bool(*b)),
        NumNode::Col(c) => column(*c, inputs.at(*c)),
        NumNode::Neg(a) => {
            let value = eval_node(alloc, a, inputs, calls)?;
            negative(alloc, &value)
        }
        NumNode::Not(a) => {
            let value = eval_node(alloc, a, inputs, calls)?;
            inverse(alloc, &value)
        }
        NumNode::Bin(op, a, b) => {
            let left = eval_node(alloc, a, inputs, calls)?;
            if let Some(decided) = decision(*op, &left) {
                return Ok(Operand::Bool(decided));
            }
            let right = eval_node(alloc, b, inputs, calls)?;
            combine(alloc, *op, &left, &right)
        }
        NumNode::Cond(c, a, b) => match eval_node(alloc, c, inputs, calls)? {
            Operand::Bool(true) => eval_node(alloc, a, inputs, calls),
            Operand::Bool(false) => eval_node(alloc, b, inputs, calls),
            _ => Ok(Operand::Int(0)),
        },
        NumNode::Pick(v, i) => {
            let vector = eval_node(alloc, v, inputs, calls)?;
            let place = eval_node(alloc, i, inputs, calls)?;
            pick(alloc, &vector, &place)
        }
        NumNode::Call(callee, args) => {
            let mut values = ArrayVec::new();
            gather(alloc, args, inputs, calls, &mut values)?;
            call(*callee, values.as_slice(), calls)
        }
    }
}

/// Appends the values of the arguments.
#[cycle(node)]
fn gather<'a, I: Inputs, C: Calls>(
    alloc: Global,
    args: &NumArgs,
    inputs: &'a I,
    calls: &C,
    values: &mut ArrayVec<Operand<'a>, MAX_ARGUMENTS>,
) -> Result<(), EvalStop>
    requires can { EachArgument (I.can inputs.now) (num_trees args.now) }
    requires calls { ArgumentsCanCall (C.functions calls.now) (num_trees args.now) }
    requires room { length values.old.items + args_count (num_trees args.now) ≤ 8 }
    ensures values { AppendsAs (evaluate_all (I.look inputs.now) (call_outcome (C.functions calls.now)) (num_trees args.now)) (map operand_value values.old.items) (map operand_value values.new.items) result }
    ensures count { OnOk result (length values.new.items ≡ length values.old.items + args_count (num_trees args.now)) }
{
    match args {
        NumArgs::End => Ok(()),
        NumArgs::More(a, rest) => {
            let value = eval_node(alloc, a, inputs, calls)?;
            values.push(value);
            gather(alloc, rest, inputs, calls, values)
        }
    }
}

/// The value of a column.
fn column<'a>(number: u32, input: ColumnInput<'a>) -> Result<Operand<'a>, EvalStop>
    ensures { AnswersAs operand_value (input_outcome number input.entry) result }
{
    match input {
        ColumnInput::Int(z) => Ok(Operand::Int(z)),
        ColumnInput::Bool(b) => Ok(Operand::Bool(b)),
        ColumnInput::Vect(zs) => Ok(Operand::Lent(zs)),
        ColumnInput::Faulted(kind) => Err(EvalStop::Fault(kind)),
        ColumnInput::Missing => Err(EvalStop::Need(number)),
    }
}

/// A number, or the fault that there was.
fn number_answer<'a>(number: Result<i64, EntryFault>) -> Result<Operand<'a>, EvalStop>
    ensures { AnswersAs operand_value (number_value number) result }
{
    match number {
        Ok(z) => Ok(Operand::Int(z)),
        Err(kind) => Err(EvalStop::Fault(kind)),
    }
}

// What no checked expression comes to is 0, as the definition of evaluation says.

fn negative<'a>(alloc: Global, value: &Operand<'_>) -> Result<Operand<'a>, EvalStop>
    ensures { AnswersAs operand_value (negation (operand_value value.now)) result }
{
    match value.view() {
        OperandView::Int(x) => number_answer(negate(x)),
        OperandView::Vect(xs) => each_of(alloc, &Minus, xs),
        OperandView::Bool(_) => Ok(Operand::Int(0)),
    }
}

fn inverse<'a>(alloc: Global, value: &Operand<'_>) -> Result<Operand<'a>, EvalStop>
    ensures { AnswersAs operand_value (inversion (operand_value value.now)) result }
{
    match value.view() {
        OperandView::Bool(b) => Ok(Operand::Bool(!b)),
        OperandView::Vect(xs) => Ok(Operand::Owned(inverted(alloc, xs)?)),
        OperandView::Int(_) => Ok(Operand::Int(0)),
    }
}

/// What the left side of `&&` or `||` decides by itself.
fn decision(op: BinOp, left: &Operand<'_>) -> Option<bool>
    ensures { result ≡ decided op (operand_value left.now) }
{
    match (op, left) {
        (BinOp::And, Operand::Bool(false)) => Some(false),
        (BinOp::Or, Operand::Bool(true)) => Some(true),
        _ => None,
    }
}

fn combine<'a>(
    alloc: Global,
    op: BinOp,
    left: &Operand<'_>,
    right: &Operand<'_>,
) -> Result<Operand<'a>, EvalStop>
    ensures { AnswersAs operand_value (value_operation op (operand_value left.now) (operand_value right.now)) result }
{
    match (left.view(), right.view()) {
        (OperandView::Int(x), OperandView::Int(y)) => match operate(op, x, y) {
            Ok(z) => Ok(operation_value(op, z)),
            Err(kind) => Err(EvalStop::Fault(kind)),
        },
        (OperandView::Int(x), OperandView::Vect(ys)) => each_of(
            alloc,
            &LeftNumber { op, left: x },
            ys,
        ),
        (OperandView::Vect(xs), OperandView::Int(y)) => each_of(
            alloc,
            &RightNumber { op, right: y },
            xs,
        ),
        (OperandView::Vect(xs), OperandView::Vect(ys)) => combine_vectors(alloc, op, xs, ys),
        (OperandView::Bool(a), OperandView::Bool(b)) => match operate(op, mark(a), mark(b)) {
            Ok(z) => Ok(Operand::Bool(z != 0)),
            Err(kind) => Err(EvalStop::Fault(kind)),
        },
        _ => Ok(Operand::Int(0)),
    }
}

fn each_of<'a, E: Elementwise>(
    alloc: Global,
    operation: &E,
    xs: &[i64],
) -> Result<Operand<'a>, EvalStop>
    ensures { AnswersAs operand_value (vector_outcome (for_all (E.outcome operation.now) xs.now)) result }
{
    Ok(Operand::Owned(each(alloc, operation, xs)?))
}

fn operation_value<'a>(op: BinOp, z: i64) -> Operand<'a>
    ensures { operand_value result ≡ of_numbers op z }
{
    if is_arithmetic(op) {
        Operand::Int(z)
    } else {
        Operand::Bool(z != 0)
    }
}

/// The lengths are compared before any element is computed.
fn combine_vectors<'a>(
    alloc: Global,
    op: BinOp,
    xs: &[i64],
    ys: &[i64],
) -> Result<Operand<'a>, EvalStop>
    ensures { AnswersAs operand_value (vector_operation op xs.now ys.now) result }
{
    if xs.len() != ys.len() {
        return Err(EvalStop::Fault(EntryFault::Lengths));
    }
    Ok(Operand::Owned(each_pair(alloc, op, xs, ys)?))
}

fn pick<'a>(
    alloc: Global,
    vector: &Operand<'_>,
    place: &Operand<'_>,
) -> Result<Operand<'a>, EvalStop>
    ensures { AnswersAs operand_value (picked (operand_value vector.now) (operand_value place.now)) result }
{
    match (vector.view(), place.view()) {
        (OperandView::Vect(xs), OperandView::Int(i)) => number_answer(element(xs, i)),
        (OperandView::Vect(xs), OperandView::Vect(marks)) => {
            if xs.len() != marks.len() {
                return Err(EvalStop::Fault(EntryFault::Lengths));
            }
            Ok(Operand::Owned(marked(alloc, xs, marks)?))
        }
        _ => Ok(Operand::Int(0)),
    }
}

fn call<'a, C: Calls>(
    callee: Callee,
    args: &[Operand<'_>],
    calls: &C,
) -> Result<Operand<'a>, EvalStop>
    requires fits { CallFits (C.functions calls.now) callee (length args.now) }
    requires few { length args.now ≤ 8 }
    ensures { AnswersAs operand_value (call_outcome (C.functions calls.now) callee (map operand_value args.now)) result }
{
    match (callee, args) {
        (Callee::Given(number), _) => call_given(number, args, calls),
        (_, [value]) => call_one(callee, value),
        (Callee::At, [vector, place]) => call_at(vector, place),
        _ => Ok(Operand::Int(0)),
    }
}

fn call_given<'a, C: Calls>(
    number: u32,
    args: &[Operand<'_>],
    calls: &C,
) -> Result<Operand<'a>, EvalStop>
    requires fits { CallFits (C.functions calls.now) (Callee.Given number) (length args.now) }
    requires few { length args.now ≤ 8 }
    ensures { AnswersAs operand_value (call_outcome (C.functions calls.now) (Callee.Given number) (map operand_value args.now)) result }
{
    let numbers = numbers_of(args);
    number_answer(answer(calls, number, numbers.as_slice()))
}

fn numbers_of(args: &[Operand<'_>]) -> ArrayVec<i64, MAX_ARGUMENTS>
    requires { length args.now ≤ 8 }
    ensures { result.items ≡ map argument (map operand_value args.now) }
{
    let mut numbers: ArrayVec<i64, MAX_ARGUMENTS> = ArrayVec::new();
    for arg in args {
        numbers.push(arg.number());
    }
    numbers
}

fn call_at<'a>(vector: &Operand<'_>, place: &Operand<'_>) -> Result<Operand<'a>, EvalStop>
    ensures { AnswersAs operand_value (call_outcome [] Callee.At (operand_value vector.now ∷ operand_value place.now ∷ [])) result }
{
    match (vector.view(), place.view()) {
        (OperandView::Vect(xs), OperandView::Int(i)) => number_answer(element(xs, i)),
        _ => Ok(Operand::Int(0)),
    }
}

/// A built-in function of one value.
fn call_one<'a>(callee: Callee, value: &Operand<'_>) -> Result<Operand<'a>, EvalStop>
    requires { IsBuiltIn callee }
    ensures { AnswersAs operand_value (call_outcome [] callee (operand_value value.now ∷ [])) result }
{
    match (callee, value.view()) {
        (Callee::Sum, OperandView::Vect(xs)) => number_answer(sum(xs)),
        (Callee::Min, OperandView::Vect(xs)) => number_answer(least(xs)),
        (Callee::Max, OperandView::Vect(xs)) => number_answer(greatest(xs)),
        (Callee::Size, OperandView::Vect(xs)) => Ok(Operand::Int(xs.len() as i64)),
        (Callee::Any, OperandView::Vect(xs)) => Ok(Operand::Bool(any(xs))),
        (Callee::All, OperandView::Vect(xs)) => Ok(Operand::Bool(all(xs))),
        (Callee::Abs, OperandView::Int(x)) => number_answer(absolute(x)),
        _ => Ok(Operand::Int(0)),
    }
}
