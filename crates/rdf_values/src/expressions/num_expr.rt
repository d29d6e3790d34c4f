// Expressions with their columns and functions numbered.
use crate::expressions::expr::BinOp;
use std::marker::Model;

/// What a call calls: a built-in function, or the function of that number in the caller's list.
#[derive(Clone, Copy, Debug, PartialEq, Eq)]
pub enum Callee {
    Sum,
    Min,
    Max,
    Size,
    Any,
    All,
    At,
    Abs,
    Given(u32),
}

/// A numbered expression's outermost part and what stands in it.
#[derive(Drop)]
#[cycle(num_expr)]
pub enum NumNode {
    Lit(i64),
    Truth(bool),
    Col(u32),
    Neg(Box<NumNode>),
    Not(Box<NumNode>),
    Bin(BinOp, Box<NumNode>, Box<NumNode>),
    Cond(Box<NumNode>, Box<NumNode>, Box<NumNode>),
    Pick(Box<NumNode>, Box<NumNode>),
    Call(Callee, NumArgs),
}

/// The arguments of a call, in order.
#[derive(Drop)]
#[cycle(num_expr)]
pub enum NumArgs {
    End,
    More(Box<NumNode>, Box<NumArgs>),
}

/// A numbered expression, which contracts see as a tree without boxes.
#[derive(Drop)]
pub struct NumExpr {
    pub node: NumNode,
}

impl Model for NumExpr {
    ghost use Rattle.rdf_values.specs.expressions.Expressions.{NumTree};
    ghost use Rattle.rdf_values.specs.expressions.TreeCode.{num_code};

    ghost Value = { NumTree };

    ghost coded = { num_code };

    ghost use Rattle.rdf_values.specs.expressions.NumExprTree.{num_tree};

    ghost view = { λ a. num_tree a.node };
}
