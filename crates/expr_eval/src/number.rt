// Operations on numbers.
ghost use Rattle.std.specs.Prelude.{◌≡◌, Result, pos, neg_ℤ, nat_abs};
ghost use Rattle.rdf_values.specs.declared.expressions.expr.BinOp.TheVariants as op;
ghost use Rattle.rdf_model.specs.{checked, is_arithmetic as arithmetic, mark as mark_of, number_operation};
ghost use Rattle.expr_eval.specs.{number_outcome};

use rdf_values::{BinOp, EntryFault};

/// The mark of a truth value: 1 or 0.
pub fn mark(b: bool) -> i64
    ensures { result ≡ mark_of b }
{
    if b { 1 } else { 0 }
}

/// The operator on two numbers, where a comparison gives a mark.
#[inline(always)]
pub fn operate(op: BinOp, x: i64, y: i64) -> Result<i64, EntryFault>
    ensures { number_outcome result ≡ number_operation op x y }
{
    match op {
        BinOp::Add => x.checked_add(y).ok_or(EntryFault::Overflow),
        BinOp::Sub => x.checked_sub(y).ok_or(EntryFault::Overflow),
        BinOp::Mul => x.checked_mul(y).ok_or(EntryFault::Overflow),
        BinOp::Div => divide(x, y),
        BinOp::Rem => remainder(x, y),
        BinOp::Lt => Ok(mark(x < y)),
        BinOp::Le => Ok(mark(x <= y)),
        BinOp::Gt => Ok(mark(y < x)),
        BinOp::Ge => Ok(mark(y <= x)),
        BinOp::Eq => Ok(mark(x == y)),
        BinOp::Ne => Ok(mark(x != y)),
        BinOp::And => Ok(mark(x != 0 && y != 0)),
        BinOp::Or => Ok(mark(x != 0 || y != 0)),
    }
}

fn divide(x: i64, y: i64) -> Result<i64, EntryFault>
    ensures { number_outcome result ≡ number_operation op.Div x y }
{
    if y == 0 {
        Err(EntryFault::ZeroDivisor)
    } else {
        x.checked_div(y).ok_or(EntryFault::Overflow)
    }
}

fn remainder(x: i64, y: i64) -> Result<i64, EntryFault>
    ensures { number_outcome result ≡ number_operation op.Rem x y }
{
    if y == 0 {
        Err(EntryFault::ZeroDivisor)
    } else if y == -1 {
        Ok(0)
    } else {
        Ok(x % y)
    }
}

/// The number with the other sign.
pub fn negate(x: i64) -> Result<i64, EntryFault>
    ensures { number_outcome result ≡ checked (neg_ℤ x) }
{
    x.checked_neg().ok_or(EntryFault::Overflow)
}

/// The number without its sign.
pub fn absolute(x: i64) -> Result<i64, EntryFault>
    ensures { number_outcome result ≡ checked (pos (nat_abs x)) }
{
    x.checked_abs().ok_or(EntryFault::Overflow)
}

/// Whether the operator gives numbers, and no truth values.
pub(crate) fn is_arithmetic(op: BinOp) -> bool
    ensures { result ≡ arithmetic op }
{
    matches!(
        op,
        BinOp::Mul | BinOp::Div | BinOp::Rem | BinOp::Add | BinOp::Sub
    )
}
