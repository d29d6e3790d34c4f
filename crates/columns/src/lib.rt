//! The columns of a table over its clusters, as an event loop reads them; how entries are cut into clusters; a table in pieces, one behind
//! the other, as several readers leave it. Stands on `rdf_values`.
#![tactic(auto)]

mod bytes;
mod column_pieces;
pub mod columns;
pub mod cuts;
mod kept;
mod marked;
pub mod over;
mod packed_ints;
pub mod packing;
mod pieces;
mod table_pieces;

pub use crate::column_pieces::ColumnPieces;
pub use crate::columns::Columns;
pub use crate::cuts::{Cuts, cut, lead_to_the_end};
pub use crate::kept::halves;
pub use crate::over::Over;
pub use crate::packing::{Packing, packings_are_tight};
pub use crate::table_pieces::{PiecesParts, TablePieces};
