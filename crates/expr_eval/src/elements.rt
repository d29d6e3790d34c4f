// Operations on the elements of vectors.
ghost use Rattle.std.specs.Prelude.{◌≡◌, ℕ, ℤ, length, map, neg_ℤ, IfOk};
ghost use Rattle.std.specs.Int.{int_min, int_max};
ghost use Rattle.rdf_model.specs.{checked, element as element_of, extreme_element, for_all, is_set, is_zero, mark as mark_of, marked as marked_elements, number_operation, Outcome, pairs};
ghost use Rattle.std.specs.List.{list_any, list_all};
ghost use Rattle.expr_eval.specs.Answers.{AnswersAs, number_outcome, number_value, sum_of};

use crate::number::{mark, negate, operate};
use crate::stop::EvalStop;
use rdf_values::{BinOp, EntryFault};
use std::alloc::{AllocError, Global};

/// An operation on each element.
pub(crate) trait Elementwise {
    ghost outcome: { Self → ℤ → Outcome ℕ ℤ };

    fn apply(&self, x: i64) -> Result<i64, EntryFault>
        ensures { number_outcome result ≡ outcome self.now x };
}

/// A number, the operator and the element.
#[derive(Drop)]
pub(crate) struct LeftNumber {
    pub(crate) op: BinOp,
    pub(crate) left: i64,
}

impl Elementwise for LeftNumber {
    ghost outcome = { λ s y. number_operation s.op s.left y };

    fn apply(&self, y: i64) -> Result<i64, EntryFault> {
        operate(self.op, self.left, y)
    }
}

/// The element, the operator and a number.
#[derive(Drop)]
pub(crate) struct RightNumber {
    pub(crate) op: BinOp,
    pub(crate) right: i64,
}

impl Elementwise for RightNumber {
    ghost outcome = { λ s x. number_operation s.op x s.right };

    fn apply(&self, x: i64) -> Result<i64, EntryFault> {
        operate(self.op, x, self.right)
    }
}

/// The unary minus.
#[derive(Drop)]
pub(crate) struct Minus;

impl Elementwise for Minus {
    ghost outcome = { λ s x. checked (neg_ℤ x) };

    fn apply(&self, x: i64) -> Result<i64, EntryFault> {
        negate(x)
    }
}

/// The operation on each element in order, up to the first fault.
pub(crate) fn each<E: Elementwise>(
    alloc: Global,
    operation: &E,
    xs: &[i64],
) -> Result<Vec<i64>, EvalStop>
    ensures { AnswersAs (λ v. v.items) (for_all (E.outcome operation.now) xs.now) result }
{
    let mut results = Vec::with_capacity(alloc, xs.len())?;
    for x in xs {
        match operation.apply(*x) {
            Ok(z) => results.push(z)?,
            Err(kind) => return Err(EvalStop::Fault(kind)),
        }
    }
    Ok(results)
}

/// The operator between the elements of two vectors of one length, up to the first fault.
pub(crate) fn each_pair(
    alloc: Global,
    op: BinOp,
    xs: &[i64],
    ys: &[i64],
) -> Result<Vec<i64>, EvalStop>
    requires { length xs.now ≡ length ys.now }
    ensures { AnswersAs (λ v. v.items) (for_all (λ p. number_operation op p.0 p.1) (pairs xs.now ys.now)) result }
{
    let mut results = Vec::with_capacity(alloc, xs.len())?;
    for i in 0..xs.len() {
        match operate(op, xs[i], ys[i]) {
            Ok(z) => results.push(z)?,
            Err(kind) => return Err(EvalStop::Fault(kind)),
        }
    }
    Ok(results)
}

/// 1 for each 0, and 0 for all else.
pub(crate) fn inverted(alloc: Global, xs: &[i64]) -> Result<Vec<i64>, AllocError>
    ensures { IfOk result (λ v. v.items ≡ map (λ x. mark_of (is_zero x)) xs.now) }
{
    xs.iter().map(|x| mark(*x == 0)).collect(alloc)
}

/// The elements whose mark is set.
pub(crate) fn marked(alloc: Global, xs: &[i64], marks: &[i64]) -> Result<Vec<i64>, AllocError>
    requires { length xs.now ≡ length marks.now }
    ensures { IfOk result (λ v. v.items ≡ marked_elements xs.now marks.now) }
{
    let mut results = Vec::new(alloc);
    for i in 0..xs.len() {
        if marks[i] == 0 {
            continue;
        }
        results.push(xs[i])?;
    }
    Ok(results)
}

/// The element at a place.
pub(crate) fn element(xs: &[i64], place: i64) -> Result<i64, EntryFault>
    ensures { number_value result ≡ element_of xs.now place }
{
    if place < 0 {
        return Err(EntryFault::Index);
    }
    xs.get(place as usize).copied().ok_or(EntryFault::Index)
}

/// The sum, of which each part from the left has 64 bits.
#[inline]
pub fn sum(xs: &[i64]) -> Result<i64, EntryFault>
    ensures { number_value result ≡ sum_of xs.now }
{
    let mut total = 0_i64;
    for x in xs {
        match operate(BinOp::Add, total, *x) {
            Ok(next) => total = next,
            Err(kind) => return Err(kind),
        }
    }
    Ok(total)
}

/// The least element.
#[inline]
pub fn least(xs: &[i64]) -> Result<i64, EntryFault>
    ensures { number_value result ≡ extreme_element int_min xs.now }
{
    let Some((first, rest)) = xs.split_first() else {
        return Err(EntryFault::EmptyVector);
    };
    let mut best = *first;
    for x in rest {
        best = best.min(*x);
    }
    Ok(best)
}

/// The greatest element.
#[inline]
pub fn greatest(xs: &[i64]) -> Result<i64, EntryFault>
    ensures { number_value result ≡ extreme_element int_max xs.now }
{
    let Some((first, rest)) = xs.split_first() else {
        return Err(EntryFault::EmptyVector);
    };
    let mut best = *first;
    for x in rest {
        best = best.max(*x);
    }
    Ok(best)
}

/// Whether an element is not 0.
pub(crate) fn any(xs: &[i64]) -> bool
    ensures { result ≡ list_any is_set xs.now }
{
    xs.iter().any(|x| *x != 0)
}

/// Whether each element is not 0.
pub(crate) fn all(xs: &[i64]) -> bool
    ensures { result ≡ list_all is_set xs.now }
{
    xs.iter().all(|x| *x != 0)
}
