// Expressions: their text, their kinds and their numbers.

pub mod expr;
pub mod fn_names;
pub mod num_expr;
