// The kinds that the parts of an expression give.
ghost use Rattle.rdf_values.specs.{arithmetic_kind, chosen_kind, equality_kind, inverted_kind, logical_kind, negated_kind, operator_kind, picked_kind};
ghost use Rattle.expr_check.specs.{Answers};

use crate::refusal::CheckRefusal;
use rdf_values::{BinOp, ColType};

/// The kind of two numbers or vectors under an operator: that of two numbers is given.
fn arithmetic_kind(
    of_numbers: ColType,
    left: ColType,
    right: ColType,
) -> Result<ColType, CheckRefusal>
    ensures { Answers (arithmetic_kind of_numbers left right) result }
{
    match (left, right) {
        (ColType::Bool, _) | (_, ColType::Bool) => Err(CheckRefusal::WrongType),
        (ColType::Int, ColType::Int) => Ok(of_numbers),
        _ => Ok(ColType::Vect),
    }
}

fn logical_kind(left: ColType, right: ColType) -> Result<ColType, CheckRefusal>
    ensures { Answers (logical_kind left right) result }
{
    match (left, right) {
        (ColType::Bool, ColType::Bool) => Ok(ColType::Bool),
        (ColType::Vect, ColType::Vect) => Ok(ColType::Vect),
        _ => Err(CheckRefusal::WrongType),
    }
}

fn equality_kind(left: ColType, right: ColType) -> Result<ColType, CheckRefusal>
    ensures { Answers (equality_kind left right) result }
{
    match (left, right) {
        (ColType::Bool, ColType::Bool) => Ok(ColType::Bool),
        _ => arithmetic_kind(ColType::Bool, left, right),
    }
}

pub(crate) fn operator_kind(
    op: BinOp,
    left: ColType,
    right: ColType,
) -> Result<ColType, CheckRefusal>
    ensures { Answers (operator_kind op left right) result }
{
    match op {
        BinOp::And | BinOp::Or => logical_kind(left, right),
        BinOp::Eq | BinOp::Ne => equality_kind(left, right),
        BinOp::Lt | BinOp::Le | BinOp::Gt | BinOp::Ge => {
            arithmetic_kind(ColType::Bool, left, right)
        }
        BinOp::Mul | BinOp::Div | BinOp::Rem | BinOp::Add | BinOp::Sub => {
            arithmetic_kind(ColType::Int, left, right)
        }
    }
}

pub(crate) fn negated_kind(kind: ColType) -> Result<ColType, CheckRefusal>
    ensures { Answers (negated_kind kind) result }
{
    match kind {
        ColType::Bool => Err(CheckRefusal::WrongType),
        ColType::Int | ColType::Vect => Ok(kind),
    }
}

pub(crate) fn inverted_kind(kind: ColType) -> Result<ColType, CheckRefusal>
    ensures { Answers (inverted_kind kind) result }
{
    match kind {
        ColType::Int => Err(CheckRefusal::WrongType),
        ColType::Bool | ColType::Vect => Ok(kind),
    }
}

pub(crate) fn chosen_kind(
    condition: ColType,
    first: ColType,
    second: ColType,
) -> Result<ColType, CheckRefusal>
    ensures { Answers (chosen_kind condition first second) result }
{
    match (condition, first, second) {
        (ColType::Bool, ColType::Int, ColType::Int) => Ok(ColType::Int),
        (ColType::Bool, ColType::Bool, ColType::Bool) => Ok(ColType::Bool),
        (ColType::Bool, ColType::Vect, ColType::Vect) => Ok(ColType::Vect),
        _ => Err(CheckRefusal::WrongType),
    }
}

pub(crate) fn picked_kind(vector: ColType, index: ColType) -> Result<ColType, CheckRefusal>
    ensures { Answers (picked_kind vector index) result }
{
    match (vector, index) {
        (ColType::Vect, ColType::Int) => Ok(ColType::Int),
        (ColType::Vect, ColType::Vect) => Ok(ColType::Vect),
        _ => Err(CheckRefusal::WrongType),
    }
}
