// Values in the midst of an evaluation, which need not own their elements.
ghost use Rattle.std.specs.Prelude.{◌≡◌};
ghost use Rattle.rdf_model.specs.{argument, Gives};
ghost use Rattle.expr_eval.specs.{AnswersAs, operand_value, view_value};

use crate::stop::EvalStop;
use rdf_values::{IntList, Value};
use std::alloc::Global;

/// A value whose elements are a column's or its own.
#[derive(Drop)]
pub(crate) enum Operand<'a> {
    Int(i64),
    Bool(bool),
    Lent(&'a [i64]),
    Owned(Vec<i64>),
}

/// What is seen of an operand.
#[derive(Clone, Copy)]
pub(crate) enum OperandView<'b> {
    Int(i64),
    Bool(bool),
    Vect(&'b [i64]),
}

impl<'a> Default for Operand<'a> {
    fn default() -> Operand<'a> {
        Operand::Int(0)
    }
}

impl<'a> Operand<'a> {
    /// The value that it is, whoever owns its elements.
    pub(crate) fn view(&self) -> OperandView<'_>
        ensures { view_value result ≡ operand_value self.now }
    {
        match self {
            Operand::Int(z) => OperandView::Int(*z),
            Operand::Bool(b) => OperandView::Bool(*b),
            Operand::Lent(zs) => OperandView::Vect(zs),
            Operand::Owned(zs) => OperandView::Vect(zs.as_slice()),
        }
    }

    /// The number that is handed to a function.
    pub(crate) fn number(&self) -> i64
        ensures { result ≡ argument (operand_value self.now) }
    {
        match self {
            Operand::Int(z) => *z,
            _ => 0,
        }
    }

    /// A value of its own.
    pub(crate) fn into_value(self, alloc: Global) -> Result<Value, EvalStop>
        ensures { AnswersAs (λ v. v) (Gives (operand_value self.entry)) result }
    {
        match self {
            Operand::Int(z) => Ok(Value::Int(z)),
            Operand::Bool(b) => Ok(Value::Bool(b)),
            Operand::Lent(zs) => Ok(Value::Vect(IntList::from_vec(Vec::from_slice(alloc, zs)?))),
            Operand::Owned(zs) => Ok(Value::Vect(IntList::from_vec(zs))),
        }
    }
}
