// Scripts: their lines, what these book, and whether they are accepted.

pub mod label;
pub mod name;
pub mod script_cause;
pub mod statement;
