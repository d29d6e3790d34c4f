// Folds of numbers.
ghost use Rattle.std.specs.Prelude.{◌≡◌, Some};
ghost use Rattle.std.specs.Int.{int_max, int_min};
ghost use Rattle.rdf_values.specs.{reduce_start, reduce_step};
ghost use Rattle.actions.specs.{better_of, better_of_two};

use rdf_values::ReduceOp;

/// The lesser one, if there are any.
pub fn least(a: Option<i64>, b: i64) -> i64
    ensures { Some result ≡ better_of int_min a b }
{
    match a {
        Some(a) => a.min(b),
        None => b,
    }
}

/// The greater one, if there are any.
pub fn greatest(a: Option<i64>, b: i64) -> i64
    ensures { Some result ≡ better_of int_max a b }
{
    match a {
        Some(a) => a.max(b),
        None => b,
    }
}

/// The lesser of two numbers that may both be missing.
pub fn least_of(a: Option<i64>, b: Option<i64>) -> Option<i64>
    ensures { result ≡ better_of_two int_min a b }
{
    match b {
        Some(b) => Some(least(a, b)),
        None => a,
    }
}

/// The greater of two numbers that may both be missing.
pub fn greatest_of(a: Option<i64>, b: Option<i64>) -> Option<i64>
    ensures { result ≡ better_of_two int_max a b }
{
    match b {
        Some(b) => Some(greatest(a, b)),
        None => a,
    }
}

/// The number from which an operation starts: it changes no number.
pub fn start(op: ReduceOp) -> i64
    ensures { result ≡ reduce_start op }
{
    match op {
        ReduceOp::Min => i64::MAX,
        ReduceOp::Max => i64::MIN,
        ReduceOp::And => -1,
        ReduceOp::Or | ReduceOp::Xor | ReduceOp::WrapAdd => 0,
    }
}

/// The operation on two numbers.
pub fn reduce(op: ReduceOp, a: i64, b: i64) -> i64
    ensures { result ≡ reduce_step op a b }
{
    match op {
        ReduceOp::Min => a.min(b),
        ReduceOp::Max => a.max(b),
        ReduceOp::And => a & b,
        ReduceOp::Or => a | b,
        ReduceOp::Xor => a ^ b,
        ReduceOp::WrapAdd => a.wrapping_add(b),
    }
}
