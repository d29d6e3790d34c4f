// A column in pieces.
ghost use Rattle.std.specs.Prelude.{◌≡◌, IfOk, OnOk};
ghost use Rattle.columns.specs.{cells_joined, whole};

use rdf_values::{Cells, Memory, Numbers, Vects};
use std::alloc::Global;

/// The values of an int or a vec column in pieces: in each those of some entries, behind those of the piece before it.
#[derive(Drop)]
pub enum ColumnPieces {
    Ints(Vec<Numbers>),
    Vects(Vec<Vects>),
}

impl ColumnPieces {
    /// A column in one piece.
    pub fn of(alloc: Global, cells: Cells) -> Result<ColumnPieces, Memory>
        ensures { IfOk result (λ pieces. whole pieces ≡ cells) }
    {
        match cells {
            Cells::Ints(numbers) => {
                let mut pieces = Vec::new(alloc);
                pieces.push(numbers)?;
                Ok(ColumnPieces::Ints(pieces))
            }
            Cells::Vects(vectors) => {
                let mut pieces = Vec::new(alloc);
                pieces.push(vectors)?;
                Ok(ColumnPieces::Vects(pieces))
            }
        }
    }

    /// Puts the pieces of another column behind; those of another type are left out.
    pub fn append(&mut self, more: ColumnPieces) -> Result<(), Memory>
        ensures { OnOk result (whole self.new ≡ cells_joined (whole self.old) (whole more)) }
    {
        match (self, more) {
            (ColumnPieces::Ints(all), ColumnPieces::Ints(mut more)) => all.append(&mut more)?,
            (ColumnPieces::Vects(all), ColumnPieces::Vects(mut more)) => all.append(&mut more)?,
            _ => {}
        }
        Ok(())
    }
}
