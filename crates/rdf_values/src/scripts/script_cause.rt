// Refusals of a script's text.
use crate::expressions::expr::ExprCause;

/// Why a line is none of the grammar. Lines count from 1, places in a line from 0.
#[derive(Clone, Copy, Debug, PartialEq, Eq)]
pub enum ScriptCause {
    Syntax {
        line: u32,
        place: u32,
    },
    /// A string that must be an expression, or the values of a Vary, and isn't.
    Expression {
        line: u32,
        place: u32,
        cause: ExprCause,
    },
    /// The 257th statement.
    TooMany {
        line: u32,
    },
}

/// Why a line can't be booked, printed as S2 to S5, S7, S8 and S10 to S14.
#[derive(Clone, Copy, Debug, PartialEq, Eq)]
pub enum GraphCause {
    NameTaken,
    UnknownName,
    UnknownColumn,
    UnknownFunction,
    WrongType,
    WrongCount,
    AliasTarget,
    Late,
    BadEdges,
    TooMany,
    WrongKind,
}
