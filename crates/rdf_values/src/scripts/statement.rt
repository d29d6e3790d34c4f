// The statements of a script.
ghost use Rattle.std.specs.Prelude.{◌≡◌, IfOk};

use crate::expressions::expr::Expr;
use crate::list::{IntList, ListOf};
use crate::memory::Memory;
use crate::scripts::label::Label;
use crate::scripts::name::Name;

/// What one line of a script books or asks for.
#[derive(Drop)]
pub enum Statement {
    Define {
        node: Name,
        parent: Name,
        column: Name,
        expr: Expr,
    },
    Redefine {
        node: Name,
        parent: Name,
        column: Name,
        expr: Expr,
    },
    Alias {
        node: Name,
        parent: Name,
        column: Name,
        target: Name,
    },
    Filter {
        node: Name,
        parent: Name,
        expr: Expr,
        label: Option<Label>,
    },
    Vary {
        node: Name,
        parent: Name,
        columns: ListOf<Name>,
        values: VaryValues,
        tags: ListOf<Name>,
        name: Name,
    },
    Action {
        result: Name,
        parent: Name,
        kind: ActionKind,
    },
    Report {
        result: Name,
        parent: Name,
    },
    VariationsFor {
        result: Name,
    },
    Watch {
        result: Name,
    },
    Print {
        result: Name,
    },
}

/// The operation of a Reduce. `WrapAdd` adds modulo 2^64.
#[derive(Clone, Copy, Debug, PartialEq, Eq)]
pub enum ReduceOp {
    Min,
    Max,
    And,
    Or,
    Xor,
    WrapAdd,
}

/// What an action computes, and the columns that it reads, in written order.
#[derive(Clone, Drop)]
pub enum ActionKind {
    Count,
    Sum(Name),
    Min(Name),
    Max(Name),
    Take(Name),
    Reduce(ReduceOp, Name),
    Histo1D {
        x_edges: IntList,
        x: Name,
        weight: Option<Name>,
    },
    Histo2D {
        x_edges: IntList,
        y_edges: IntList,
        x: Name,
        y: Name,
        weight: Option<Name>,
    },
}

impl ActionKind {
    /// The same action.
    pub fn copy(&self) -> Result<ActionKind, Memory>
        ensures { IfOk result (λ k. k ≡ self.now) }
    {
        Ok(self.clone()?)
    }
}

/// A statement and the number of its line, counted from 1.
#[derive(Drop)]
pub struct Line {
    pub number: u32,
    pub statement: Statement,
}

/// The statements of a script in order.
#[derive(Drop)]
pub struct Script {
    pub lines: ListOf<Line>,
}

/// One list for each column with one expression for each tag, or one vector with an element for each tag.
#[derive(Drop)]
pub enum VaryValues {
    Lists(ListOf<ListOf<Expr>>),
    Vector(Expr),
}
