// Expressions as they are written, and refusals of them.
use crate::scripts::name::Name;
use std::marker::Model;

/// An operator of two sides.
#[derive(Clone, Copy, Debug, PartialEq, Eq)]
pub enum BinOp {
    Mul,
    Div,
    Rem,
    Add,
    Sub,
    Lt,
    Le,
    Gt,
    Ge,
    Eq,
    Ne,
    And,
    Or,
}

/// A token that is neither an operand nor an operator of two sides.
#[derive(Clone, Copy, Debug, PartialEq, Eq)]
pub enum Mark {
    Bang,
    Open,
    Close,
    OpenBracket,
    CloseBracket,
    OpenBrace,
    CloseBrace,
    Comma,
    Question,
    Colon,
}

/// An expression's outermost part and what stands in it.
#[derive(Drop)]
#[cycle(expr)]
pub enum ExprNode {
    Lit(i64),
    Truth(bool),
    Col(Name),
    Neg(Box<ExprNode>),
    Not(Box<ExprNode>),
    Bin(BinOp, Box<ExprNode>, Box<ExprNode>),
    /// `condition ? first : second`
    Cond(Box<ExprNode>, Box<ExprNode>, Box<ExprNode>),
    /// `vector[index]`
    Pick(Box<ExprNode>, Box<ExprNode>),
    Call(Name, Args),
}

/// The arguments of a call, in order.
#[derive(Drop)]
#[cycle(expr)]
pub enum Args {
    End,
    More(Box<ExprNode>, Box<Args>),
}

/// An expression, which contracts see as a tree without boxes.
#[derive(Drop)]
pub struct Expr {
    pub node: ExprNode,
}

impl Model for Expr {
    ghost use Rattle.rdf_values.specs.expressions.Expressions.{NamedTree};
    ghost use Rattle.rdf_values.specs.expressions.TreeCode.{named_code};

    ghost Value = { NamedTree };

    ghost coded = { named_code };

    ghost use Rattle.rdf_values.specs.expressions.ExprTree.{tree_of};

    ghost view = { λ a. tree_of a.node };
}

/// Why a text is no expression, printed as E1 to E4.
#[derive(Clone, Copy, Debug, PartialEq, Eq)]
pub enum ExprCause {
    /// A byte that begins no token, or the 65th byte of a word.
    BadByte,
    /// A number with a leading zero, or above 9223372036854775807.
    BadNumber,
    /// A token that can't stand where it does, or the end of the text.
    Unexpected,
    /// The 257th token.
    TooLong,
}
