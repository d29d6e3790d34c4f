// Tables: their text, their values and how these are kept.

pub mod cells;
pub(crate) mod filling;
pub mod integer;
pub mod marks;
pub(crate) mod narrow;
pub mod numbers;
pub mod table;
pub mod value;
pub(crate) mod vector_text;
pub mod vects;
