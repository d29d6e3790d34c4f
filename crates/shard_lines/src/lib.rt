//! The lines of what the passes of a loop came to over some of the entries: their text, their limits, and how the lines of
//! two runs are joined. Files of results stand on it, each with first lines and limits of its own. Stands on `rdf_values`,
//! `loop_pieces` and `histograms`.
//!
//! `specs/Lines.antt` has the words and limits of a line, `specs/Shapes.antt` which line a pass has, and
//! `specs/Joining.antt` what two lines come to.
#![tactic(auto)]

mod held;
mod joining;
mod laws;
mod limits;
mod line_kind;
mod numbers;
mod pass_shape;
mod printing;
mod reading;
mod shapes;
mod shard_line;
mod words;

pub use crate::joining::{copied_lines, joined_lines};
pub use crate::laws::{lines_read_back, read_lines_fit};
pub use crate::limits::LineLimits;
pub use crate::pass_shape::PassShape;
pub use crate::printing::{put_count, put_line};
pub use crate::reading::read_line;
pub use crate::shapes::have_shapes;
pub use crate::shard_line::ShardLine;
pub use crate::words::{first_word, lone_word, next_word};
